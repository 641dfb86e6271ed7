//! LOCK and CANCEL.
ghost use Rattle.std.specs.Prelude.{◌≡◌, ℕ, ◌≤◌, ◌==◌, Some, None, length, IfOk, OnOk, option_copied};
ghost use Rattle.std.specs.List.{list_any};
ghost use Rattle.xl_plan.specs.Keepers.{HandsTo, IsQuiet};
ghost use Rattle.xl_smb.specs.Locks.{shown_lock, elements_of};
ghost use Rattle.xl_smb.specs.declared.command.Command.TheVariants as command;
ghost use Rattle.xl_smb_state.specs.State.{open_of};
ghost use Rattle.xl_wait.specs.Waiting.{is_waiting};
ghost use Rattle.xl_core.specs.State.{MayBe};
ghost use Rattle.xl_smb_locks.specs.Elements.{is_count, unlocks_first, lock_fault};
ghost use Rattle.xl_smb_locks.specs.Locks.{unlocks};
ghost use Rattle.xl_front_smb.specs.Checks.{checked};
ghost use Rattle.xl_front_smb.specs.Locks.{header_of, place_of, waiting_row, unlock_by, lock_by, lock_on, lock, came_by, request_named, cancel_named, cancel};
ghost use Rattle.xl_front_smb.specs.Plans.{has_room_to_wait, with_waiting, lists_as, told_as, carried};
ghost use Rattle.xl_front_smb.specs.Replies.{IsAnswer};
ghost use Rattle.xl_front_smb.specs.Short.{IsReady, Leaves};

use crate::arrival::{Arrival, Held};
use crate::checks::{open_named, session_named, tree_named};
use crate::outcome::{Done, failed, told};
use crate::replies::tree_id;
use crate::told::Told;
use std::alloc::{AllocError, Global};
use xl_base::{Keeper, Sequence};
use xl_core::Core;
use xl_smb::{LockCall, LockElement, Route, SmbHead};
use xl_smb_locks::{Locking, SmbStatus, elements_of, is_count, lock_fault, unlocks_first};
use xl_smb_state::{Header, Holder, Open, Place, Request, SmbState, WAITING, Waiting};
use xl_wait::{Queue, Waiter};

/// What the final reply of a request repeats of its header.
fn header_of(head: &SmbHead) -> Header
    ensures { result ≡ header_of head.now }
{
    Header {
        credit_charge: head.credit_charge,
        flags: head.flags,
        message_id: head.message_id,
        tree_id: tree_id(head.route),
        session_id: head.session_id,
    }
}

/// Where an open is.
fn place_of(by: Holder, other: &Place) -> Place
    ensures { result ≡ place_of by other.now }
{
    match by {
        Holder::Tree(place) => place,
        Holder::Nobody(_) => *other,
    }
}

/// What is kept of a request that waits.
pub(crate) fn waiting_row(
    alloc: Global,
    head: &SmbHead,
    place: Place,
    number: u32,
    request: Request,
) -> Waiting
    ensures { result ≡ waiting_row head.now place number request }
{
    Waiting {
        header: header_of(head),
        place,
        opened: number,
        request,
        behind: Sequence::new(alloc),
    }
}

/// Whether there is room for a request that waits under this number, and none waits under it yet.
fn has_room_to_wait(state: &SmbState, id: u32) -> bool
    ensures { result ≡ has_room_to_wait state.now id }
{
    state.count_waiting() < WAITING && state.find_waiting(id).is_none()
}

/// What locks and unlocks are answered.
fn told_as(locking: Locking) -> Told
    ensures value { result ≡ told_as locking }
    ensures answer { IsAnswer (Some command.Lock) result }
{
    match locking {
        Locking::Done => Told::Locked,
        Locking::Failed(status) => Told::Failed(status),
        Locking::Waits(id) => Told::Pending(id),
    }
}

/// Keeps a request that waits under this number.
#[tactic(auto, using(crate::proofs::LockLaws::wait_room, crate::proofs::LockLaws::wait_new))]
pub(crate) fn keep_waiting(state: &mut SmbState, id: u32, row: Waiting) -> Result<(), AllocError>
    ensures { OnOk result (state.new ≡ with_waiting id row state.old) }
{
    if has_room_to_wait(state, id) {
        state.add_waiting(id, row)?;
    }
    Ok(())
}

/// Keeps a request that waits.
fn keep(state: &mut SmbState, row: Waiting, locking: Locking) -> Result<(), AllocError>
    ensures { OnOk result (state.new ≡ lists_as row state.old locking) }
{
    if let Locking::Waits(id) = locking {
        keep_waiting(state, id, row)?;
    }
    Ok(())
}

/// Locks all ranges, or none.
fn lock_all<K: Keeper>(
    alloc: Global,
    state: &mut SmbState,
    core: &mut Core,
    keeper: &mut K,
    arrival: &Arrival<'_>,
    held: &Held,
    elements: &[LockElement],
) -> Result<Done, AllocError>
    requires ready { IsReady 2 core.old }
    requires sound { lock_fault elements.now ≡ None }
    requires some { 1 ≤ length elements.now }
    ensures done { (n : ℕ) → IfOk result (λ r. MayBe n core.new → carried n core.old state.old (lock_by arrival.now.conn (waiting_row arrival.now.head.now (place_of held.now.row.holder held.now.place) held.now.number Request.Lock) held.now.number held.now.row elements.now None) ≡ (r.0, r.1, state.new, core.new)) }
    ensures leaves { OnOk result (Leaves 2 core.old core.new) }
    ensures answer { IfOk result (λ r. IsAnswer (Some command.Lock) r.0) }
    ensures keeper { OnOk result (HandsTo K.held K.given K.faults K.left core.old core.new keeper.old keeper.new) }
{
    let (locking, effects) = xl_smb_locks::lock(
        alloc,
        core,
        keeper,
        arrival.conn,
        held.number,
        &held.row,
        elements,
    )?;
    let place = place_of(held.row.holder, &held.place);
    let kept = waiting_row(alloc, arrival.head, place, held.number, Request::Lock);
    keep(state, kept, locking)?;
    Ok((told_as(locking), effects))
}

/// Unlocks the ranges in order.
fn unlock_all<K: Keeper>(
    alloc: Global,
    state: &SmbState,
    core: &mut Core,
    keeper: &mut K,
    number: u32,
    row: &Open,
    elements: &[LockElement],
) -> Result<Done, AllocError>
    requires ready { IsReady 0 core.old }
    ensures done { (n : ℕ) → IfOk result (λ r. carried n core.old state.now (unlock_by state.now (unlocks core.old number row.now elements.now)) ≡ (r.0, r.1, state.now, core.new)) }
    ensures leaves { OnOk result (Leaves 0 core.old core.new) }
    ensures answer { IfOk result (λ r. IsAnswer (Some command.Lock) r.0) }
    ensures keeper { OnOk result (HandsTo K.held K.given K.faults K.left core.old core.new keeper.old keeper.new) }
{
    let locking = xl_smb_locks::unlock(alloc, core, keeper, number, row, elements)?;
    Ok((told_as(locking), Sequence::new(alloc)))
}

/// Locks or unlocks ranges of an open.
#[tactic(auto, using(xl_plan::proofs::BudgetLaws::leaves_self, xl_plan::proofs::BudgetLaws::leaves_more, xl_plan::proofs::BudgetLaws::ready_less, crate::proofs::LockLaws::counted))]
fn lock_on<K: Keeper>(
    alloc: Global,
    state: &mut SmbState,
    core: &mut Core,
    keeper: &mut K,
    arrival: &Arrival<'_>,
    held: &Held,
    elements: &[LockElement],
) -> Result<Done, AllocError>
    requires ready { IsReady 2 core.old }
    ensures done { (n : ℕ) → IfOk result (λ r. MayBe n core.new → carried n core.old state.old (lock_on core.old state.old arrival.now.conn arrival.now.head.now held.now.number held.now.place elements.now held.now.row) ≡ (r.0, r.1, state.new, core.new)) }
    ensures leaves { OnOk result (Leaves 2 core.old core.new) }
    ensures answer { IfOk result (λ r. IsAnswer (Some command.Lock) r.0) }
    ensures keeper { OnOk result (HandsTo K.held K.given K.faults K.left core.old core.new keeper.old keeper.new) }
{
    if !is_count(elements.len()) {
        return Ok(failed(alloc, SmbStatus::InvalidParameter));
    }
    if unlocks_first(elements) {
        let done = unlock_all(alloc, state, core, keeper, held.number, &held.row, elements)?;
        return Ok(done);
    }
    if let Some(status) = lock_fault(elements) {
        return Ok(failed(alloc, status));
    }
    let done = lock_all(alloc, state, core, keeper, arrival, held, elements)?;
    Ok(done)
}

/// The row of an open.
pub(crate) fn open_row(state: &SmbState, number: u32) -> Option<Open>
    ensures { result ≡ open_of number state.now }
{
    match state.find_open(number) {
        Some(row) => Some(*row),
        None => None,
    }
}

/// The open that a LOCK names, in a session, on a tree connect of it and under the connection, or why it is refused.
#[tactic(auto, unfolding(crate::specs::Locks::lock))]
fn held_of(
    core: &Core,
    state: &SmbState,
    arrival: &Arrival<'_>,
    client: &[u8; 16],
    call: &LockCall<'_>,
) -> Result<Held, SmbStatus>
    ensures { lock core.now state.now arrival.now.conn client.now arrival.now.head.now (shown_lock call.now) ≡ checked result (λ o. lock_on core.now state.now arrival.now.conn arrival.now.head.now o.number o.place (elements_of (shown_lock call.now).elements) o.row) }
{
    let Some(session) = session_named(core, state, arrival.conn, arrival.head.session_id) else {
        return Err(SmbStatus::UserSessionDeleted);
    };
    let Some(place) = tree_named(state, arrival.conn, client, arrival.head, session) else {
        return Err(SmbStatus::NetworkNameDeleted);
    };
    let Some(number) = open_named(core, state, arrival.conn, call.file_id) else {
        return Err(SmbStatus::FileClosed);
    };
    let Some(row) = open_row(state, number) else {
        return Err(SmbStatus::FileClosed);
    };
    Ok(Held { place, number, row })
}

/// LOCK (MS-SMB2 3.3.5.14).
#[tactic(auto, using(xl_plan::proofs::BudgetLaws::leaves_self))]
pub(crate) fn lock<K: Keeper>(
    alloc: Global,
    state: &mut SmbState,
    core: &mut Core,
    keeper: &mut K,
    arrival: &Arrival<'_>,
    client: &[u8; 16],
    call: &LockCall<'_>,
) -> Result<Done, AllocError>
    requires ready { IsReady 2 core.old }
    ensures done { (n : ℕ) → IfOk result (λ r. MayBe n core.new → carried n core.old state.old (lock core.old state.old arrival.now.conn client.now arrival.now.head.now (shown_lock call.now)) ≡ (r.0, r.1, state.new, core.new)) }
    ensures leaves { OnOk result (Leaves 2 core.old core.new) }
    ensures answer { IfOk result (λ r. IsAnswer (Some command.Lock) r.0) }
    ensures keeper { OnOk result (HandsTo K.held K.given K.faults K.left core.old core.new keeper.old keeper.new) }
{
    match held_of(core, state, arrival, client, call) {
        Ok(held) => {
            let elements = elements_of(alloc, call.elements)?;
            let done = lock_on(alloc, state, core, keeper, arrival, &held, &elements)?;
            Ok(done)
        }
        Err(status) => Ok(failed(alloc, status)),
    }
}

/// Whether a request came by this connection.
fn came_by(conn: u64, found: Option<&Waiting>) -> bool
    ensures { result ≡ came_by conn (option_copied found.entry) }
{
    match found {
        Some(row) => row.place.connection == conn,
        None => false,
    }
}

/// The request that a CANCEL names: by its AsyncId, or as the first of this MessageId.
fn request_named(state: &SmbState, conn: u64, message: u64, route: Route) -> Option<u32>
    ensures { result ≡ request_named conn state.now message route }
{
    match route {
        Route::Async(id) => {
            let number = u32::try_from(id).ok()?;
            if came_by(conn, state.find_waiting(number)) {
                Some(number)
            } else {
                None
            }
        }
        Route::Tree(_) => state.waiting_by_message(conn, message),
    }
}

/// Whether one of these has this number.
fn has_waiter(waiters: &[Waiter], id: u32) -> bool
    ensures { result ≡ list_any (λ w. w.id == id) waiters.now }
{
    waiters.iter().any(|waiter| waiter.id == id)
}

/// Whether a waiter of this number is in the queue.
#[tactic(auto, using(crate::proofs::LockLaws::waiting_is))]
fn is_waiting(queue: &Queue, id: u32) -> bool
    ensures { result ≡ is_waiting id queue.now }
{
    has_waiter(queue.waiters(), id)
}

/// CANCEL: the request that it names waits no more.
#[tactic(auto, unfolding(crate::specs::Locks::cancel), using(xl_plan::proofs::BudgetLaws::leaves_self))]
pub(crate) fn cancel(
    alloc: Global,
    state: &SmbState,
    core: &mut Core,
    conn: u64,
    head: &SmbHead,
) -> Result<Done, AllocError>
    requires ready { IsReady 0 core.old }
    ensures done { (n : ℕ) → IfOk result (λ r. carried n core.old state.now (cancel core.old state.now conn head.now) ≡ (r.0, r.1, state.now, core.new)) }
    ensures leaves { OnOk result (Leaves 0 core.old core.new) }
    ensures quiet { OnOk result (IsQuiet core.old core.new) }
    ensures answer { IfOk result (λ r. IsAnswer (Some command.Cancel) r.0) }
{
    let Some(id) = request_named(state, conn, head.message_id, head.route) else {
        return Ok(told(alloc, Told::Nothing));
    };
    if !is_waiting(core.queue(), id) {
        return Ok(told(alloc, Told::Nothing));
    }
    let effects = core.cancel(alloc, id)?;
    Ok((Told::Nothing, effects))
}
