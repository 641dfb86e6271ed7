//! LOCK by a lock owner that has a stateid under the open (RFC 7530 16.10).
ghost use Rattle.std.specs.Prelude.{◌≡◌, ◌≤◌, ℕ, [], false, true, Some, IsSome, IfOk, OnOk};
ghost use Rattle.std.specs.List.{find};
ghost use Rattle.xl_core.specs.State.{CoreState, MayBe};
ghost use Rattle.xl_nfs.specs.Locks.{shown_lock_args};
ghost use Rattle.xl_nfs_state.specs.State.{is_owner, is_stateid};
ghost use Rattle.xl_nfs_locks.specs.Locks.{access_above, lock_answered, lock_by_owner, lock_end, lock_found, lock_known, lock_refused, lock_standing, lock_to};
ghost use Rattle.xl_nfs_locks.specs.Ranges.{last_byte};
ghost use Rattle.xl_nfs_opens.specs.Closing.{standing_fault, IsChecked};
ghost use Rattle.xl_nfs_opens.specs.Opens.{is_granted};
ghost use Rattle.xl_nfs_opens.specs.Operations.{op_lock};
ghost use Rattle.xl_nfs_opens.specs.Plans.{carried};
ghost use Rattle.xl_nfs_opens.specs.Results.{ToldFits};
ghost use Rattle.xl_plan.specs.Budgets.{IsReady};
ghost use Rattle.xl_plan.specs.Keepers.{HandsTo};
ghost use Rattle.xl_nfs_opens.specs.Short.{Leaves};

use crate::asks::lock_ask;
use crate::denials::lock_told;
use crate::ranges::{last_byte, may_lock};
use std::alloc::{AllocError, Global};
use xl_base::Keeper;
use xl_core::{Answer, Core};
use xl_nfs::{KnownLocker, LockArgs, LockType, NfsStatus, operation};
use xl_nfs_opens::{
    Checked, Done, Found, Opener, SHARE_NONE, Told, asked, check, count_told, ended_as, fail,
    finish, next_seqids, opener_by, renew_for, repeat, standing_fault, state_client,
};
use xl_nfs_state::{Holder, NfsState, OwnerKind};

/// A LOCK by a lock owner that has a stateid under the open, at the current handle.
#[derive(Clone, Copy)]
struct KnownLock<'a> {
    /// The current handle.
    current: Option<u32>,
    /// What is asked.
    args: &'a LockArgs<'a>,
    /// Who asks.
    known: &'a KnownLocker,
}

/// The same, once its stateid is found.
#[derive(Clone, Copy)]
struct LockTurn<'a> {
    /// The request.
    asked: KnownLock<'a>,
    /// What is found.
    found: Found,
}

/// It was refused; the result is kept if its status counts.
fn refuse(
    alloc: Global,
    state: &mut NfsState,
    turn: &LockTurn,
    told: Told,
) -> Result<(Told, Option<u32>), AllocError>
    requires there { IsSome (find (is_owner turn.now.found.owner) state.old.owners) }
    requires fits { ToldFits op_lock told }
    ensures { (n : ℕ) (s : CoreState) → IfOk result (λ r. carried n s state.old (lock_refused state.old turn.now.asked.current turn.now.found.owner turn.now.found.seqids turn.now.asked.known.now.seqid told) ≡ (r.0, r.1, [], state.new, s)) }
{
    let seqid = turn.asked.known.seqid;
    count_told(alloc, state, &turn.found, operation::LOCK, seqid, &told)?;
    Ok((told, turn.asked.current))
}

/// Whether it is granted.
pub(crate) fn is_granted(answer: Answer) -> bool
    ensures { result ≡ is_granted answer }
{
    matches!(answer, Answer::Granted(_))
}

/// LOCK by the core's answer.
#[tactic(auto, using(crate::proofs::LockLaws::lock_told_fits))]
fn lock_answered(
    alloc: Global,
    state: &mut NfsState,
    core: &Core,
    turn: &LockTurn,
    answer: Answer,
) -> Result<(Told, Option<u32>), AllocError>
    requires owner { IsSome (find (is_owner turn.now.found.owner) state.old.owners) }
    requires there { find (is_stateid turn.now.found.row.number) state.old.stateids ≡ Some turn.now.found.row }
    requires open { turn.now.found.row.standing.closed ≡ false }
    ensures { (n : ℕ) → IfOk result (λ r. carried n core.now state.old (lock_answered state.old turn.now.asked.current turn.now.found.row turn.now.found.owner turn.now.found.seqids turn.now.asked.known.now.seqid turn.now.asked.args.now.reclaim answer core.now) ≡ (r.0, r.1, [], state.new, core.now)) }
{
    if !is_granted(answer) {
        let told = lock_told(alloc, state, core, turn.asked.args.reclaim, answer)?;
        let ended = refuse(alloc, state, turn, told)?;
        return Ok(ended);
    }
    let found = &turn.found;
    let confirmed = found.seqids.confirmed;
    let next = next_seqids(operation::LOCK, turn.asked.known.seqid, confirmed, None);
    let rights = (SHARE_NONE, SHARE_NONE, false);
    let told = finish(alloc, state, core, found, next, rights)?;
    Ok((told, turn.asked.current))
}

/// LOCK of bytes by the lock owner: the core is asked.
fn lock_bytes<K: Keeper>(
    alloc: Global,
    state: &mut NfsState,
    core: &mut Core,
    keeper: &mut K,
    turn: &LockTurn,
    last: u64,
    by: &Opener,
) -> Result<Done, AllocError>
    requires ready { IsReady 2 core.old }
    requires owner { IsSome (find (is_owner turn.now.found.owner) state.old.owners) }
    requires there { find (is_stateid turn.now.found.row.number) state.old.stateids ≡ Some turn.now.found.row }
    requires open { turn.now.found.row.standing.closed ≡ false }
    requires ends { turn.now.asked.args.now.offset ≤ last }
    ensures done { (n : ℕ) → IfOk result (λ r. MayBe n core.new → carried n core.old state.old (lock_by_owner state.old turn.now.asked.current (shown_lock_args turn.now.asked.args.now) turn.now.found.row turn.now.found.owner turn.now.found.seqids turn.now.asked.known.now.seqid last (Some by.now)) ≡ (r.0, r.1, r.2, state.new, core.new)) }
    ensures leaves { OnOk result (Leaves 2 core.old core.new) }
    ensures keeper { OnOk result (HandsTo K.held K.given K.faults K.left core.old core.new keeper.old keeper.new) }
{
    let (args, file) = (turn.asked.args, turn.found.row.file);
    let request = lock_ask(alloc, by, file, args.kind, args.reclaim, args.offset, last)?;
    let (said, effects) = asked(alloc, core, keeper, request)?;
    let (told, handle) = lock_answered(alloc, state, core, turn, said)?;
    Ok((told, handle, effects))
}

/// The access of the open above the locks.
fn access_above(state: &NfsState, holder: Holder) -> u32
    ensures { result ≡ access_above state.now holder }
{
    let Holder::Lock { under, .. } = holder else {
        return SHARE_NONE;
    };
    match state.find_stateid(under) {
        Some(open) => open.standing.access,
        None => SHARE_NONE,
    }
}

/// The last byte of the range, if it has one and the open's access allows the lock; else the first check that fails.
pub(crate) fn lock_end(kind: LockType, access: u32, offset: u64, len: u64) -> Result<u64, NfsStatus>
    ensures value { result ≡ lock_end kind access (last_byte offset len) }
    ensures ends { IfOk result (λ last. offset ≤ last) }
{
    let Some(last) = last_byte(offset, len) else {
        return Err(NfsStatus::Inval);
    };
    if !may_lock(kind, access) {
        return Err(NfsStatus::OpenMode);
    }
    Ok(last)
}

/// LOCK, once its range and the open's access are checked.
#[tactic(auto, using(crate::proofs::LockLaws::end_fits, xl_plan::proofs::BudgetLaws::leaves_self, xl_plan::proofs::BudgetLaws::leaves_more))]
fn lock_to<K: Keeper>(
    alloc: Global,
    state: &mut NfsState,
    core: &mut Core,
    keeper: &mut K,
    turn: &LockTurn,
    access: u32,
) -> Result<Done, AllocError>
    requires ready { IsReady 2 core.old }
    requires owner { IsSome (find (is_owner turn.now.found.owner) state.old.owners) }
    requires there { find (is_stateid turn.now.found.row.number) state.old.stateids ≡ Some turn.now.found.row }
    requires open { turn.now.found.row.standing.closed ≡ false }
    ensures done { (n : ℕ) → IfOk result (λ r. MayBe n core.new → carried n core.old state.old (lock_to state.old turn.now.asked.current (shown_lock_args turn.now.asked.args.now) turn.now.found.row turn.now.found.owner turn.now.found.seqids turn.now.asked.known.now.seqid (lock_end turn.now.asked.args.now.kind access (last_byte turn.now.asked.args.now.offset turn.now.asked.args.now.len))) ≡ (r.0, r.1, r.2, state.new, core.new)) }
    ensures leaves { OnOk result (Leaves 2 core.old core.new) }
    ensures keeper { OnOk result (HandsTo K.held K.given K.faults K.left core.old core.new keeper.old keeper.new) }
{
    let (args, current) = (turn.asked.args, turn.asked.current);
    match lock_end(args.kind, access, args.offset, args.len) {
        Err(status) => {
            let (op, seqid) = (operation::LOCK, turn.asked.known.seqid);
            let done = fail(alloc, state, current, &turn.found, op, seqid, status)?;
            Ok(done)
        }
        Ok(last) => {
            let (client, owner) = (turn.found.row.client, turn.found.owner);
            let Some(by) = opener_by(alloc, state, client, owner)? else {
                return Ok(ended_as(alloc, NfsStatus::ServerFault, current));
            };
            let granted = lock_bytes(alloc, state, core, keeper, turn, last, &by)?;
            Ok(granted)
        }
    }
}

/// LOCK by a stateid that was found.
#[tactic(auto, using(crate::proofs::LockLaws::standing_fits, xl_plan::proofs::BudgetLaws::leaves_self, xl_plan::proofs::BudgetLaws::leaves_more))]
fn lock_passed<K: Keeper>(
    alloc: Global,
    state: &mut NfsState,
    core: &mut Core,
    keeper: &mut K,
    turn: &LockTurn,
) -> Result<Done, AllocError>
    requires ready { IsReady 2 core.old }
    requires owner { IsSome (find (is_owner turn.now.found.owner) state.old.owners) }
    requires there { find (is_stateid turn.now.found.row.number) state.old.stateids ≡ Some turn.now.found.row }
    requires open { turn.now.found.row.standing.closed ≡ false }
    ensures done { (n : ℕ) → IfOk result (λ r. MayBe n core.new → carried n core.old state.old (lock_standing state.old turn.now.asked.current (shown_lock_args turn.now.asked.args.now) turn.now.found.row turn.now.found.owner turn.now.found.seqids turn.now.asked.known.now.seqid (standing_fault turn.now.found.row turn.now.found.seqids turn.now.asked.known.now.stateid.seqid true)) ≡ (r.0, r.1, r.2, state.new, core.new)) }
    ensures leaves { OnOk result (Leaves 2 core.old core.new) }
    ensures keeper { OnOk result (HandsTo K.held K.given K.faults K.left core.old core.new keeper.old keeper.new) }
{
    let (known, found) = (turn.asked.known, &turn.found);
    if let Some(status) = standing_fault(&found.row, found.seqids, known.stateid.seqid, true) {
        let (op, current) = (operation::LOCK, turn.asked.current);
        let done = fail(alloc, state, current, found, op, known.seqid, status)?;
        return Ok(done);
    }
    let access = access_above(state, found.row.holder);
    let done = lock_to(alloc, state, core, keeper, turn, access)?;
    Ok(done)
}

/// LOCK by what is found for its stateid.
#[tactic(auto, using(xl_plan::proofs::BudgetLaws::leaves_self, xl_plan::proofs::BudgetLaws::leaves_more))]
fn lock_found<K: Keeper>(
    alloc: Global,
    state: &mut NfsState,
    core: &mut Core,
    keeper: &mut K,
    asked: &KnownLock,
    checked: Checked,
) -> Result<Done, AllocError>
    requires ready { IsReady 2 core.old }
    requires found { IsChecked state.old checked }
    ensures done { (n : ℕ) → IfOk result (λ r. MayBe n core.new → carried n core.old state.old (lock_found core.old state.old asked.now.current (shown_lock_args asked.now.args.now) asked.now.known.now checked) ≡ (r.0, r.1, r.2, state.new, core.new)) }
    ensures leaves { OnOk result (Leaves 2 core.old core.new) }
    ensures keeper { OnOk result (HandsTo K.held K.given K.faults K.left core.old core.new keeper.old keeper.new) }
{
    match checked {
        Checked::Refused(status) => Ok(ended_as(alloc, status, asked.current)),
        Checked::Repeated(owner) => {
            let done = repeat(alloc, state, core, asked.current, owner)?;
            Ok(done)
        }
        Checked::Passed(row, owner, seqids) => {
            let found = Found { row, owner, seqids };
            let turn = LockTurn {
                asked: *asked,
                found,
            };
            lock_passed(alloc, state, core, keeper, &turn)
        }
    }
}

/// LOCK by a lock owner that has a stateid under the open: the bytes of the range are the owner's, in this mode. DENIED
/// with a lock that stands against it; INVAL for a range of no bytes or past the last one, OPENMODE if the open's
/// access doesn't allow it; BAD_STATEID, OLD_STATEID, STALE_STATEID and BAD_SEQID by the lock's stateid.
#[tactic(auto, unfolding(crate::specs::Locks::lock_known), using(xl_nfs_opens::proofs::CheckLaws::passed_there, xl_plan::proofs::BudgetLaws::leaves_then, xl_plan::proofs::BudgetLaws::ready_then))]
pub(crate) fn lock_known<K: Keeper>(
    alloc: Global,
    state: &mut NfsState,
    core: &mut Core,
    keeper: &mut K,
    current: Option<u32>,
    args: &LockArgs,
    known: &KnownLocker,
) -> Result<Done, AllocError>
    requires ready { IsReady 2 core.old }
    ensures done { (n : ℕ) → IfOk result (λ r. MayBe n core.new → carried n core.old state.old (lock_known core.old state.old current (shown_lock_args args.now) known.now) ≡ (r.0, r.1, r.2, state.new, core.new)) }
    ensures leaves { OnOk result (Leaves 2 core.old core.new) }
    ensures keeper { OnOk result (HandsTo K.held K.given K.faults K.left core.old core.new keeper.old keeper.new) }
{
    let client = state_client(state, core, &known.stateid);
    renew_for(alloc, state, core, client)?;
    let (op, seqid, stateid) = (operation::LOCK, known.seqid, &known.stateid);
    let found = check(OwnerKind::Lock, state, core, current, op, seqid, stateid);
    let asked = KnownLock {
        current,
        args,
        known,
    };
    let done = lock_found(alloc, state, core, keeper, &asked, found)?;
    Ok(done)
}
