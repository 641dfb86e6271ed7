//! What the answer to a call of the server does.
ghost use Rattle.std.specs.Prelude.{◌≡◌, ℕ, ◌≤◌, List, Some, option_map, IfOk, IfSome, OnOk};
ghost use Rattle.xl_core.specs.State.{MayBe};
ghost use Rattle.xl_front_nlm.specs.Answers.{is_granted, refuses_with, refuses_by, refuses, refused_grant, given_up, nlm_called};
ghost use Rattle.xl_front_nlm.specs.Hosts.{rooms};
ghost use Rattle.xl_front_nlm.specs.Layers.{core_of, front_of};
ghost use Rattle.xl_front_nlm.specs.Short.{AreShort, IsShortGrant, IsReady, Leaves};
ghost use Rattle.xl_nlm.specs.Replies.{results_at};
ghost use Rattle.xl_plan.specs.Keepers.{HandsTo};
ghost use Rattle.xl_rpc.specs.Replies.{reply_at};

use crate::asks::refusal_ask;
use crate::call::GrantedCall;
use crate::deeds::asked;
use crate::grant::{Grant, grant_of};
use crate::layers::NlmLayers;
use std::alloc::{AllocError, Global};
use xl_base::{Keeper, Sequence};
use xl_core::{Core, Effect};
use xl_nlm::{NlmReply, NlmStatus, procedure, read_result};
use xl_rpc::{Verdict, Xdr, read_reply};
use xl_wait::Rooms;

fn is_granted(status: NlmStatus) -> bool
    ensures { result ≡ is_granted status }
{
    matches!(status, NlmStatus::Granted)
}

/// Whether the results of a call of GRANTED have another status.
fn refuses_with(body: Xdr) -> bool
    ensures { result ≡ refuses_with (results_at 5 body.entry.rest.now) }
{
    let mut body = body;
    match read_result(procedure::GRANTED, &mut body) {
        Ok(NlmReply::Res(results)) => !is_granted(results.stat),
        _ => false,
    }
}

/// Whether a reply says that the client doesn't want the lock.
fn refuses_by(bytes: &[u8]) -> bool
    ensures { result ≡ refuses_by (reply_at bytes.now) }
{
    match read_reply(bytes) {
        Ok(reply) => matches!(reply.verdict, Verdict::Success) && refuses_with(reply.body),
        Err(_) => false,
    }
}

/// Whether the end of a call says that the client doesn't want the lock.
#[tactic(auto, unfolding(crate::specs::Answers::refuses))]
fn refuses(reply: Option<&[u8]>) -> bool
    ensures { result ≡ refuses (option_map (λ bytes. bytes.now) reply.entry) }
{
    match reply {
        Some(bytes) => refuses_by(bytes),
        None => false,
    }
}

/// What the call sent, if it is refused.
fn refused_grant(
    alloc: Global,
    core: &Core,
    refused: bool,
    call: &GrantedCall,
) -> Result<Option<Grant>, AllocError>
    requires short { AreShort core.now.names }
    ensures value { IfOk result (λ grant. grant ≡ refused_grant core.now refused (Some call.now)) }
    ensures ends { IfOk result (λ grant. IfSome grant (λ g. g.first ≤ g.last)) }
    ensures short { IfOk result (λ grant. IfSome grant IsShortGrant) }
{
    if !refused {
        return Ok(None);
    }
    grant_of(alloc, core.names(), &call.claim)
}

/// Unlocks a granted range, if so much room is left in the tables of the fronts.
fn give_up<K: Keeper>(
    alloc: Global,
    core: &mut Core,
    keeper: &mut K,
    left: &Rooms,
    grant: &Grant,
) -> Result<Sequence<Effect>, AllocError>
    requires ends { grant.now.first ≤ grant.now.last }
    requires small { IsShortGrant grant.now }
    requires ready { IsReady 0 core.old }
    ensures done { (n : ℕ) (hosts : List (List ℕ)) → left.now ≡ rooms hosts → IfOk result (λ effects. MayBe n core.new → given_up n hosts core.old (Some grant.now) ≡ (effects, core.new)) }
    ensures leaves { OnOk result (Leaves 2 core.old core.new) }
    ensures keeper { OnOk result (HandsTo K.held K.given K.faults K.left core.old core.new keeper.old keeper.new) }
{
    let request = refusal_ask(alloc, grant)?;
    let (_, effects) = asked(alloc, core, keeper, left, request)?;
    Ok(effects)
}

/// The end of the server's call of this number, with its reply or without one. A call of GRANTED that awaited its
/// answer awaits none from then on; a call that awaits none does nothing. If the reply is accepted and has another
/// status than GRANTED (XNFS C702, nlm4_res), the range is unlocked as the owner's UNLOCK would at this time; if that
/// finds no room the owner keeps it, as it does after any other reply or none. At least 65,536 numbers must be left to
/// give out, beside those that who waits and the recalls to come may take; none is. After an error nothing is known of
/// the front and the core.
#[tactic(auto, unfolding(crate::specs::Answers::nlm_called), using(crate::proofs::LeaveLaws::leaves_self))]
pub fn nlm_called<K: Keeper>(
    alloc: Global,
    layers: NlmLayers,
    keeper: &mut K,
    number: u64,
    reply: Option<&[u8]>,
) -> Result<Sequence<Effect>, AllocError>
    requires ready { IsReady 0 layers.core.now }
    ensures state { (n : ℕ) → IfOk result (λ effects. MayBe n (core_of layers.exit) → nlm_called n layers.entry.front.now layers.entry.core.now number (option_map (λ bytes. bytes.now) reply.entry) ≡ (effects, front_of layers.exit, core_of layers.exit)) }
    ensures leaves { OnOk result (Leaves 2 layers.entry.core.now (core_of layers.exit)) }
    ensures hosts { (front_of layers.exit).hosts ≡ layers.entry.front.now.hosts }
    ensures keeper { OnOk result (HandsTo K.held K.given K.faults K.left layers.entry.core.now (core_of layers.exit) keeper.old keeper.new) }
{
    let NlmLayers { front, core } = layers;
    let refused = refuses(reply);
    let Some(call) = front.take(number) else {
        return Ok(Sequence::new(alloc));
    };
    let Some(grant) = refused_grant(alloc, core, refused, &call)? else {
        return Ok(Sequence::new(alloc));
    };
    give_up(alloc, core, keeper, &front.rooms(), &grant)
}
