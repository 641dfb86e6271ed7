//! What becomes of a call.
ghost use Rattle.std.specs.Prelude.{◌≡◌, ℕ, None, option_map, IfOk, OnOk};
ghost use Rattle.xl_names.specs.Names.{number_of};
ghost use Rattle.xl_names.specs.declared.name.Name.TheVariants.{NlmParty};
ghost use Rattle.xl_nlm.specs.Items.{shown_notify, shown_call, FreeAll};
ghost use Rattle.xl_nlm.specs.Arguments.{CallFits};
ghost use Rattle.xl_core.specs.State.{MayBe};
ghost use Rattle.xl_plan.specs.Keepers.{HandsTo};
ghost use Rattle.xl_front_nlm.specs.Hosts.{HasHostRoom};
ghost use Rattle.xl_front_nlm.specs.Plans.{shown_plan};
ghost use Rattle.xl_front_nlm.specs.Results.{IsOutcomeOf};
ghost use Rattle.xl_front_nlm.specs.Serving.{planned, host_of, hosted, served};
ghost use Rattle.xl_front_nlm.specs.Layers.{core_of, front_of};
ghost use Rattle.xl_front_nlm.specs.Short.{IsReady, Leaves};

use crate::deeds::{asked, carry_out};
use crate::front::Front;
use crate::layers::NlmLayers;
use crate::outcome::Outcome;
use crate::plan::{Context, Deed, Plan};
use crate::{ranges, shares};
use std::alloc::{AllocError, Global};
use xl_base::{Keeper, Sequence};
use xl_core::{Answer, Core, Effect};
use xl_names::Name;
use xl_nlm::{NlmCall, Notify};

/// The number of a caller's name as a party, if it is kept.
fn party_number(alloc: Global, core: &Core, caller: &[u8]) -> Result<Option<u32>, AllocError>
    ensures { IfOk result (λ number. number ≡ number_of (NlmParty caller.now) core.now.names) }
{
    let name = Name::NlmParty(Sequence::from_slice(alloc, caller)?);
    Ok(core.names().find(&name))
}

/// FREE_ALL.
#[tactic(auto, unfolding(crate::specs::Serving::planned))]
fn free_all(alloc: Global, context: &Context, args: &Notify) -> Result<Plan, AllocError>
    ensures { IfOk result (λ plan. planned context.now.count context.now.front.now context.now.core.now (FreeAll (shown_notify args.now)) ≡ shown_plan None context.now.front.now plan) }
{
    match party_number(alloc, context.core, args.name)? {
        Some(number) => Ok(Plan::Does(Deed::Ends(number))),
        None => Ok(Plan::Tells(Outcome::Ended)),
    }
}

/// What is to become of a call.
#[tactic(auto, using(crate::proofs::DoesLaws::lock_is_monitored, crate::proofs::DoesLaws::nm_lock_is_not, crate::proofs::DoesLaws::null_tells_nothing, crate::proofs::DoesLaws::granted_tells_nothing))]
fn planned(alloc: Global, context: &Context, call: &NlmCall) -> Result<Plan, AllocError>
    ensures { IfOk result (λ plan. planned context.now.count context.now.front.now context.now.core.now (shown_call call.now) ≡ shown_plan (host_of (shown_call call.now)) context.now.front.now plan) }
{
    match call {
        NlmCall::Test(args) => ranges::test(alloc, context, args),
        NlmCall::Lock(args) => ranges::lock(alloc, context, true, args),
        NlmCall::Cancel(args) => ranges::cancel(alloc, context, args),
        NlmCall::Unlock(args) => ranges::unlock(alloc, context, args),
        NlmCall::Share(args) => shares::share(alloc, context, args),
        NlmCall::Unshare(args) => shares::unshare(alloc, context, args),
        NlmCall::NmLock(args) => ranges::lock(alloc, context, false, args),
        NlmCall::FreeAll(args) => free_all(alloc, context, args),
        NlmCall::Null | NlmCall::Granted(_) => Ok(Plan::Tells(Outcome::Nothing)),
    }
}

/// Who is a host if the call is granted, or waits.
fn host_of<'a>(call: &NlmCall<'a>) -> Option<&'a [u8]>
    ensures { option_map (λ caller. caller.now) result ≡ host_of (shown_call call.now) }
{
    match call {
        NlmCall::Lock(args) | NlmCall::NmLock(args) => Some(args.lock.caller_name),
        NlmCall::Share(args) => Some(args.caller_name),
        _ => None,
    }
}

/// Enters the caller, if there is one, as a host if the answer makes it one.
fn note_host(
    alloc: Global,
    front: &mut Front,
    caller: Option<&[u8]>,
    answer: Answer,
) -> Result<(), AllocError>
    requires room { HasHostRoom (option_map (λ name. name.now) caller) answer front.old.hosts }
    ensures { OnOk result (front.new ≡ hosted (option_map (λ name. name.now) caller.entry) answer front.old) }
{
    let Some(caller) = caller else {
        return Ok(());
    };
    front.note(answer, Sequence::from_slice(alloc, caller)?)?;
    Ok(())
}

/// What becomes of a call, if so many files are exported. Who calls may be a host from then on.
#[tactic(auto, using(crate::proofs::LeaveLaws::leaves_self))]
pub(crate) fn serve<K: Keeper>(
    alloc: Global,
    count: usize,
    layers: NlmLayers,
    keeper: &mut K,
    call: &NlmCall,
) -> Result<(Outcome, Sequence<Effect>), AllocError>
    requires fits { CallFits (shown_call call.now) }
    requires ready { IsReady 0 layers.core.now }
    ensures done { (n : ℕ) → IfOk result (λ r. MayBe n (core_of layers.exit) → served n count layers.entry.front.now layers.entry.core.now (shown_call call.now) ≡ (r.0, r.1, front_of layers.exit, core_of layers.exit)) }
    ensures outcome { IfOk result (λ r. IsOutcomeOf (shown_call call.now) r.0) }
    ensures leaves { OnOk result (Leaves 2 layers.entry.core.now (core_of layers.exit)) }
    ensures keeper { OnOk result (HandsTo K.held K.given K.faults K.left layers.entry.core.now (core_of layers.exit) keeper.old keeper.new) }
{
    let NlmLayers { front, core } = layers;
    let plan = planned(alloc, &Context { count, front, core }, call)?;
    let (left, request) = match plan {
        Plan::Tells(outcome) => return Ok((outcome, Sequence::new(alloc))),
        Plan::Does(deed) => {
            let effects = carry_out(alloc, core, deed)?;
            return Ok((Outcome::Ended, effects));
        }
        Plan::Asks(left, request) => (left, request),
    };
    let (answer, effects) = asked(alloc, core, keeper, &left, request)?;
    note_host(alloc, front, host_of(call), answer)?;
    Ok((Outcome::Answered(answer), effects))
}
