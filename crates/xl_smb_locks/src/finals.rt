//! Requests that wait: their final replies.
ghost use Rattle.std.specs.Prelude.{◌≡◌, true, ◌≤◌, ◌++◌, ◌<◌, length, Some, None, IfOk, OnOk, IsTrue};
ghost use Rattle.std.specs.List.{AllByRecursion};
ghost use Rattle.xl_programs.specs.Sent.{FitsFrame};
ghost use Rattle.xl_smb.specs.Leases.{are_contexts};
ghost use Rattle.xl_smb.specs.Replies.{shown_reply};
ghost use Rattle.xl_smb_state.specs.Links.{IsHolderLinked, IsOpenLinked, most_opens};
ghost use Rattle.xl_smb_state.specs.State.{open_of, waiting_of, waiting_dropped};
ghost use Rattle.xl_smb_state.specs.declared.row.Request.TheVariants as Request;
ghost use Rattle.xl_smb_locks.specs.Finals.{final_head, command_by, final_status, final_contexts, final_body, final_outs, request_ended, refusal_in, denied_by, holder_stands, may_stand, stood, succeeded, concluded, request_served, FitsRequest, told_of, cancels, is_cancelled, dismissed};
ghost use Rattle.xl_smb_locks.specs.declared.status.SmbStatus.TheVariants.{Cancelled};

use crate::levels::{Caching, caching_of, contexts_told, noticed, opened};
use crate::locking::{Locking, comes_to};
use crate::status::{SUCCESS, SmbStatus};
use std::alloc::{AllocError, Global};
use xl_base::{Out, Sequence};
use xl_core::{Answer, Core, Effect, id_of};
use xl_programs::sent_to;
use xl_smb::{Command, Route, SmbHead, SmbMessage, SmbReply, write};
use xl_smb_state::{Header, Holder, OPENS, Open, Request, SmbState, Waiting};

/// What a request that waited is answered at last.
#[derive(Clone, Copy)]
pub enum FinalReply {
    /// It failed.
    Failed(SmbStatus),
    /// The ranges are locked (LOCK).
    Locked,
    /// The file is open under this id, with this oplock or lease (CREATE).
    Opened(u64, Caching),
}

/// The header of a final reply.
#[tactic(auto, unfolding(crate::specs::Finals::final_head))]
fn final_head(id: u32, command: u16, header: &Header, status: u32) -> SmbHead
    ensures { result ≡ final_head id command header.now status }
{
    SmbHead {
        credit_charge: header.credit_charge,
        status,
        command,
        credits: 0,
        flags: 3,
        next_command: 0,
        message_id: header.message_id,
        route: Route::Async(u64::from(id)),
        session_id: header.session_id,
        signature: [0; 16],
    }
}

/// The number of a request's command.
fn command_by(request: Request) -> u16
    ensures { result ≡ command_by request }
{
    match request {
        Request::Create(_) => Command::Create.number(),
        Request::Lock => Command::Lock.number(),
    }
}

/// The status of a final reply.
fn status_of(said: FinalReply) -> u32
    ensures { result ≡ final_status said }
{
    match said {
        FinalReply::Failed(status) => status.number(),
        FinalReply::Locked | FinalReply::Opened(_, _) => SUCCESS,
    }
}

/// The contexts of a final reply: those of a file that is open.
fn contexts_of(alloc: Global, said: FinalReply) -> Result<Vec<u8>, AllocError>
    ensures list { IfOk result (λ list. list.items ≡ final_contexts said) }
    ensures within { IfOk result (λ list. are_contexts list.items ≡ true) }
    ensures little { IfOk result (λ list. length list.items ≤ 56) }
{
    match said {
        FinalReply::Opened(_, told) => Ok(contexts_told(alloc, told)?),
        _ => Ok(Vec::new(alloc)),
    }
}

/// The body of a reply that says this, with these contexts.
pub fn final_body(said: FinalReply, contexts: &[u8]) -> SmbReply<'_>
    requires { contexts.now ≡ final_contexts said }
    ensures { shown_reply result ≡ final_body said }
{
    match said {
        FinalReply::Failed(_) => SmbReply::Error,
        FinalReply::Locked => SmbReply::Lock,
        FinalReply::Opened(handle, told) => SmbReply::Create(opened(handle, told, contexts)),
    }
}

/// The final reply to a request that waited, to the connection that it came by, without its frame.
#[tactic(auto, using(crate::proofs::FinalLaws::final_little))]
fn final_outs(
    alloc: Global,
    id: u32,
    row: &Waiting,
    said: FinalReply,
) -> Result<Sequence<Out>, AllocError>
    requires { FitsRequest said row.now.request }
    ensures outs { IfOk result (λ outs. outs ≡ final_outs id row.now said) }
    ensures little { IfOk result (λ outs. AllByRecursion FitsFrame outs) }
{
    let contexts = contexts_of(alloc, said)?;
    let head = final_head(id, command_by(row.request), &row.header, status_of(said));
    let message = SmbMessage::Reply(head, final_body(said, &contexts));
    let reply = write(alloc, &message)?;
    Ok(sent_to(alloc, row.place.connection, reply)?)
}

/// A request waits no more, and failed so: what is sent then.
#[tactic(auto, unfolding(crate::specs::Finals::request_ended))]
fn end_request(
    alloc: Global,
    state: &mut SmbState,
    id: u32,
    status: SmbStatus,
) -> Result<Sequence<Out>, AllocError>
    ensures state { IfOk result (λ outs. request_ended id status state.old ≡ (outs, state.new)) }
    ensures little { IfOk result (λ outs. AllByRecursion FitsFrame outs) }
{
    let Some(row) = state.find_waiting(id) else {
        return Ok(Sequence::new(alloc));
    };
    let outs = final_outs(alloc, id, row, FinalReply::Failed(status))?;
    state.drop_waiting(id);
    Ok(outs)
}

/// Why it failed, if it did. What is served doesn't wait.
fn refusal_in(locking: Locking) -> Option<SmbStatus>
    ensures { result ≡ refusal_in locking }
{
    match locking {
        Locking::Done => None,
        Locking::Failed(status) => Some(status),
        Locking::Waits(_) => Some(SmbStatus::InsufficientResources),
    }
}

/// How what stands against a request is answered.
fn denied_by(request: Request) -> SmbStatus
    ensures { result ≡ denied_by request }
{
    match request {
        Request::Create(_) => SmbStatus::SharingViolation,
        Request::Lock => SmbStatus::LockNotGranted,
    }
}

/// Whether who is to hold an open of this client is there.
fn holder_stands(state: &SmbState, by: Holder, client: &[u8; 16]) -> bool
    ensures value { result ≡ holder_stands by client.now state.now }
    ensures linked { IsTrue result → IsHolderLinked state.now client.now by }
{
    match by {
        Holder::Tree(place) => state.has_place(&place, client),
        Holder::Nobody(_) => false,
    }
}

/// Whether an open may stand under this number.
#[tactic(auto, using(crate::proofs::FinalLaws::stand_linked))]
fn may_stand(state: &SmbState, number: u32, made: &Open) -> bool
    ensures value { result ≡ may_stand number made.now state.now }
    ensures linked { IsTrue result → IsOpenLinked state.now made.now }
{
    state.count_opens() < OPENS
        && state.find_open(number).is_none()
        && holder_stands(state, made.holder, &made.client)
}

/// The share of an open is granted that a CREATE waited for: the open stands, if it may.
#[tactic(auto, using(crate::proofs::FinalLaws::stand_room, crate::proofs::FinalLaws::stand_new))]
fn stand(
    alloc: Global,
    state: &mut SmbState,
    core: &Core,
    row: &Waiting,
    made: &Open,
) -> Result<FinalReply, AllocError>
    ensures state { IfOk result (λ said. stood core.now row.now made.now (may_stand row.now.opened made.now state.old) state.old ≡ (said, state.new)) }
    ensures fits { IfOk result (λ said. FitsRequest said (Request.Create made.now)) }
{
    if !may_stand(state, row.opened, made) {
        return Ok(FinalReply::Failed(SmbStatus::InsufficientResources));
    }
    let told = caching_of(alloc, core, row.opened, made)?;
    state.open(alloc, row.opened, *made)?;
    Ok(FinalReply::Opened(id_of(core, row.opened), told))
}

/// What a request is answered that is granted, by what it waited to do.
fn succeed(
    alloc: Global,
    state: &mut SmbState,
    core: &Core,
    row: &Waiting,
) -> Result<FinalReply, AllocError>
    ensures state { IfOk result (λ said. succeeded core.now row.now row.now.request state.old ≡ (said, state.new)) }
    ensures fits { IfOk result (λ said. FitsRequest said row.now.request) }
{
    match row.request {
        Request::Create(made) => Ok(stand(alloc, state, core, row, &made)?),
        Request::Lock => Ok(FinalReply::Locked),
    }
}

/// What a request is answered at last: it failed so, or is granted.
fn conclude(
    alloc: Global,
    state: &mut SmbState,
    core: &Core,
    row: &Waiting,
    refused: Option<SmbStatus>,
) -> Result<FinalReply, AllocError>
    ensures state { IfOk result (λ said. concluded core.now row.now refused state.old ≡ (said, state.new)) }
    ensures fits { IfOk result (λ said. FitsRequest said row.now.request) }
{
    match refused {
        None => Ok(succeed(alloc, state, core, row)?),
        Some(status) => Ok(FinalReply::Failed(status)),
    }
}

/// A request was served: what is sent then.
#[tactic(auto, unfolding(crate::specs::Finals::request_served))]
fn serve_request(
    alloc: Global,
    state: &mut SmbState,
    core: &Core,
    id: u32,
    answer: &Answer,
) -> Result<Sequence<Out>, AllocError>
    ensures state { IfOk result (λ outs. request_served core.now id answer.now state.old ≡ (outs, state.new)) }
    ensures little { IfOk result (λ outs. AllByRecursion FitsFrame outs) }
{
    let Some(row) = state.take_waiting(id) else {
        return Ok(Sequence::new(alloc));
    };
    let refused = refusal_in(comes_to(denied_by(row.request), answer));
    let said = conclude(alloc, state, core, &row, refused)?;
    Ok(final_outs(alloc, id, &row, said)?)
}

/// What is sent for an effect of the core, in the state that it left: the notice of a break to who holds the open, or the lowest
/// open of the lease (MS-SMB2 3.3.4.6, 3.3.4.7), or the final reply to the request that was served (3.3.4.4); the request is forgotten
/// then, and the open that it waited to make stands. It has no frame yet. All else sends nothing: a request that waits no more was
/// answered with the message that cancelled it.
#[tactic(auto, unfolding(crate::specs::Finals::told_of))]
pub fn tell(
    alloc: Global,
    state: &mut SmbState,
    core: &Core,
    effect: &Effect,
) -> Result<Sequence<Out>, AllocError>
    ensures state { IfOk result (λ outs. told_of core.now effect.now state.old ≡ (outs, state.new)) }
    ensures little { IfOk result (λ outs. AllByRecursion FitsFrame outs) }
{
    match effect {
        Effect::Begun(cache, to, _) => Ok(noticed(alloc, state, core, cache, *to)?),
        Effect::Served(_, id, answer) => Ok(serve_request(alloc, state, core, *id, answer)?),
        Effect::Cancelled(_, _) | Effect::Expired(_) => Ok(Sequence::new(alloc)),
    }
}

/// Whether an effect tells that this request waits no more.
fn cancels(id: u32, effect: &Effect) -> bool
    ensures { result ≡ cancels id effect.now }
{
    match effect {
        Effect::Cancelled(_, other) => *other == id,
        _ => false,
    }
}

/// Whether these effects tell that this request waits no more.
fn is_cancelled(id: u32, effects: &[Effect]) -> bool
    ensures { result ≡ is_cancelled id effects.now }
{
    effects.iter().any(|effect| cancels(id, effect))
}

/// Puts outs behind others.
pub fn push_all(outs: &mut Sequence<Out>, more: Sequence<Out>) -> Result<(), AllocError>
    ensures { OnOk result (outs.new ≡ outs.old ++ more) }
{
    for out in more.into_vec() {
        outs.push(out)?;
    }
    Ok(())
}

/// Answers each of these requests, in order, of which these effects tell that it waits no more: STATUS_CANCELLED
/// (MS-SMB2 3.3.5.16). They are forgotten then.
#[tactic(auto, using(crate::proofs::FinalLaws::told_next, crate::proofs::FinalLaws::passed_next, crate::proofs::FinalLaws::fit_both))]
pub fn dismiss(
    alloc: Global,
    state: &mut SmbState,
    effects: &[Effect],
    numbers: &[u32],
) -> Result<Sequence<Out>, AllocError>
    ensures state { IfOk result (λ outs. dismissed effects.now numbers.now state.old ≡ (outs, state.new)) }
    ensures little { IfOk result (λ outs. AllByRecursion FitsFrame outs) }
{
    let mut outs = Sequence::new(alloc);
    'requests: for number in numbers {
        if is_cancelled(*number, effects) {
            let told = end_request(alloc, state, *number, SmbStatus::Cancelled)?;
            push_all(&mut outs, told)?;
        }
    }
    Ok(outs)
}
