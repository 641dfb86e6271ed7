//! What an effect sends.
ghost use Rattle.std.specs.Prelude.{◌≡◌, Some, option_map, IfOk, OnOk};
ghost use Rattle.std.specs.List.{AllByRecursion};
ghost use Rattle.xl_programs.specs.Sent.{FitsFrame};
ghost use Rattle.xl_core.specs.Good.{IsGood, IsRangeBy};
ghost use Rattle.xl_core.specs.State.{GoesOn};
ghost use Rattle.xl_plan.specs.Keepers.{IsQuiet};
ghost use Rattle.xl_front_nlm.specs.Grants.{grant_of, addressed, told_by, shown};
ghost use Rattle.xl_front_nlm.specs.Layers.{core_of, front_of};
ghost use Rattle.xl_front_nlm.specs.Short.{IsShortGrant, IsReady, Leaves};

use crate::call::GrantedCall;
use crate::grant::{Grant, address_of, call_of, grant_of};
use crate::layers::NlmLayers;
use std::alloc::{AllocError, Global};
use xl_base::{Exports, Out, Sequence};
use xl_core::{Answer, Effect};
use xl_matrix::Claim;

/// Calls a client at this address. The call awaits its answer from then on.
#[tactic(auto, unfolding(xl_core::specs::State::drawn))]
fn tell(
    alloc: Global,
    layers: NlmLayers,
    claim: &Claim,
    grant: &Grant,
    to: &[u8],
) -> Result<Sequence<Out>, AllocError>
    requires range { IsRangeBy claim.now.what }
    requires small { IsShortGrant grant.now }
    requires ready { IsReady 0 layers.core.now }
    ensures state { IfOk result (λ outs. told_by layers.entry.front.now layers.entry.core.now (Some (claim.now, grant.now, to.now)) ≡ (outs, front_of layers.exit, core_of layers.exit)) }
    ensures leaves { OnOk result (Leaves 2 layers.entry.core.now (core_of layers.exit)) }
    ensures quiet { OnOk result (IsQuiet layers.entry.core.now (core_of layers.exit)) }
    ensures little { IfOk result (λ outs. AllByRecursion FitsFrame outs) }
{
    let number = layers.core.draw();
    layers.front.await_answer(GrantedCall {
        number,
        claim: *claim,
    })?;
    let mut outs = Sequence::new(alloc);
    outs.push(call_of(alloc, number, to, grant)?)?;
    Ok(outs)
}

/// Sends a grant, if its caller has an address.
#[tactic(auto, using(crate::proofs::LeaveLaws::leaves_self))]
fn tell_grant(
    alloc: Global,
    exports: &Exports,
    layers: NlmLayers,
    claim: &Claim,
) -> Result<Sequence<Out>, AllocError>
    requires ready { IsReady 0 layers.core.now }
    ensures state { IfOk result (λ outs. told_by layers.entry.front.now layers.entry.core.now (option_map (λ told. (claim.now, told.0, told.1)) (addressed exports.now (grant_of layers.entry.core.now.names claim.now))) ≡ (outs, front_of layers.exit, core_of layers.exit)) }
    ensures leaves { OnOk result (Leaves 2 layers.entry.core.now (core_of layers.exit)) }
    ensures quiet { OnOk result (IsQuiet layers.entry.core.now (core_of layers.exit)) }
    ensures little { IfOk result (λ outs. AllByRecursion FitsFrame outs) }
{
    let Some(grant) = grant_of(alloc, layers.core.names(), claim)? else {
        return Ok(Sequence::new(alloc));
    };
    let Some(to) = address_of(exports.addresses.as_slice(), grant.caller.as_slice()) else {
        return Ok(Sequence::new(alloc));
    };
    tell(alloc, layers, claim, &grant, to)
}

/// What is sent for an effect of the core that names a party of NLM. Who waited for a lock and was granted it is answered
/// by a call of GRANTED (XNFS C702), if its caller has an address; the call takes the next number, and awaits its answer
/// from then on. All else sends nothing. At least 65,536 numbers must be left to give out, beside those that who waits and
/// the recalls to come may take. After an error nothing is known of the front and the core.
#[tactic(auto, unfolding(crate::specs::Grants::shown), using(crate::proofs::LeaveLaws::leaves_self))]
pub fn shown(
    alloc: Global,
    exports: &Exports,
    layers: NlmLayers,
    effect: &Effect,
) -> Result<Sequence<Out>, AllocError>
    requires ready { IsReady 0 layers.core.now }
    ensures state { IfOk result (λ outs. shown exports.now layers.entry.front.now layers.entry.core.now effect.now ≡ (outs, front_of layers.exit, core_of layers.exit)) }
    ensures leaves { OnOk result (Leaves 2 layers.entry.core.now (core_of layers.exit)) }
    ensures quiet { OnOk result (IsQuiet layers.entry.core.now (core_of layers.exit)) }
    ensures little { IfOk result (λ outs. AllByRecursion FitsFrame outs) }
{
    match effect {
        Effect::Served(_, _, Answer::Granted(claim)) => tell_grant(alloc, exports, layers, claim),
        _ => Ok(Sequence::new(alloc)),
    }
}
