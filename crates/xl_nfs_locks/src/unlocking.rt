//! LOCKU (RFC 7530 16.12).
ghost use Rattle.std.specs.Prelude.{◌≡◌, ◌≤◌, ℕ, [], false, true, Some, IsSome, IfOk, OnOk};
ghost use Rattle.std.specs.List.{find};
ghost use Rattle.xl_core.specs.State.{MayBe};
ghost use Rattle.xl_nfs.specs.Outcomes.{is_ok};
ghost use Rattle.xl_nfs_state.specs.State.{is_owner, is_stateid};
ghost use Rattle.xl_nfs_locks.specs.Ranges.{last_byte};
ghost use Rattle.xl_nfs_locks.specs.Unlocks.{unlock, unlock_by_owner, unlock_found, unlock_standing, unlock_status, unlock_to, unlocked_as};
ghost use Rattle.xl_nfs_opens.specs.Closing.{standing_fault, IsChecked};
ghost use Rattle.xl_nfs_opens.specs.Plans.{carried};
ghost use Rattle.xl_plan.specs.Budgets.{IsReady};
ghost use Rattle.xl_plan.specs.Keepers.{HandsTo};
ghost use Rattle.xl_nfs_opens.specs.Short.{Leaves};

use crate::ranges::last_byte;
use std::alloc::{AllocError, Global};
use xl_base::Keeper;
use xl_core::{Answer, Core};
use xl_nfs::{NfsStatus, UnlockArgs, operation};
use xl_nfs_opens::{
    Checked, Done, Found, Opener, SHARE_NONE, Told, answer_status, asked, check, ended_as, fail,
    finish, next_seqids, opener_by, renew_for, repeat, standing_fault, state_client, unlock_ask,
};
use xl_nfs_state::{NfsState, OwnerKind};

/// How the core's answer is sent: bytes that aren't held are unlocked already.
fn unlock_status(answer: Answer) -> NfsStatus
    ensures { result ≡ unlock_status answer }
{
    match answer {
        Answer::Granted(_) | Answer::NotHeld => NfsStatus::Ok,
        _ => answer_status(false, answer),
    }
}

/// Whether it is OK.
fn is_ok(status: NfsStatus) -> bool
    ensures { result ≡ is_ok status }
{
    matches!(status, NfsStatus::Ok)
}

/// A LOCKU at the current handle, once its stateid is found.
#[derive(Clone, Copy)]
struct UnlockTurn<'a> {
    /// The current handle.
    current: Option<u32>,
    /// What is asked.
    args: &'a UnlockArgs,
    /// What is found.
    found: Found,
}

/// LOCKU by the core's answer.
#[tactic(auto, using(xl_nfs_opens::proofs::ResultLaws::fits_14))]
fn unlocked_as(
    alloc: Global,
    state: &mut NfsState,
    core: &Core,
    turn: &UnlockTurn,
    status: NfsStatus,
) -> Result<(Told, Option<u32>), AllocError>
    requires owner { IsSome (find (is_owner turn.now.found.owner) state.old.owners) }
    requires there { find (is_stateid turn.now.found.row.number) state.old.stateids ≡ Some turn.now.found.row }
    requires open { turn.now.found.row.standing.closed ≡ false }
    ensures { (n : ℕ) → IfOk result (λ r. carried n core.now state.old (unlocked_as core.now state.old turn.now.current turn.now.args.now turn.now.found.row turn.now.found.owner turn.now.found.seqids status) ≡ (r.0, r.1, [], state.new, core.now)) }
{
    let (op, seqid, found) = (operation::LOCKU, turn.args.seqid, &turn.found);
    if !is_ok(status) {
        let done = fail(alloc, state, turn.current, found, op, seqid, status)?;
        return Ok((done.0, done.1));
    }
    let next = next_seqids(op, seqid, found.seqids.confirmed, None);
    let told = finish(
        alloc,
        state,
        core,
        found,
        next,
        (SHARE_NONE, SHARE_NONE, false),
    )?;
    Ok((told, turn.current))
}

/// LOCKU of bytes by the lock owner: the core is asked.
fn unlock_bytes<K: Keeper>(
    alloc: Global,
    state: &mut NfsState,
    core: &mut Core,
    keeper: &mut K,
    turn: &UnlockTurn,
    last: u64,
    by: &Opener,
) -> Result<Done, AllocError>
    requires ready { IsReady 2 core.old }
    requires owner { IsSome (find (is_owner turn.now.found.owner) state.old.owners) }
    requires there { find (is_stateid turn.now.found.row.number) state.old.stateids ≡ Some turn.now.found.row }
    requires open { turn.now.found.row.standing.closed ≡ false }
    requires ends { turn.now.args.now.offset ≤ last }
    ensures done { (n : ℕ) → IfOk result (λ r. MayBe n core.new → carried n core.old state.old (unlock_by_owner state.old turn.now.current turn.now.args.now turn.now.found.row turn.now.found.owner turn.now.found.seqids last (Some by.now)) ≡ (r.0, r.1, r.2, state.new, core.new)) }
    ensures leaves { OnOk result (Leaves 2 core.old core.new) }
    ensures keeper { OnOk result (HandsTo K.held K.given K.faults K.left core.old core.new keeper.old keeper.new) }
{
    let request = unlock_ask(alloc, by, turn.found.row.file, turn.args.offset, last)?;
    let (said, effects) = asked(alloc, core, keeper, request)?;
    let status = unlock_status(said);
    let (told, handle) = unlocked_as(alloc, state, core, turn, status)?;
    Ok((told, handle, effects))
}

/// LOCKU of a range, by a stateid that is as it should be.
#[tactic(auto, using(xl_nfs_opens::proofs::ResultLaws::fits_14, xl_plan::proofs::BudgetLaws::leaves_self, xl_plan::proofs::BudgetLaws::leaves_more))]
fn unlock_to<K: Keeper>(
    alloc: Global,
    state: &mut NfsState,
    core: &mut Core,
    keeper: &mut K,
    turn: &UnlockTurn,
) -> Result<Done, AllocError>
    requires ready { IsReady 2 core.old }
    requires owner { IsSome (find (is_owner turn.now.found.owner) state.old.owners) }
    requires there { find (is_stateid turn.now.found.row.number) state.old.stateids ≡ Some turn.now.found.row }
    requires open { turn.now.found.row.standing.closed ≡ false }
    ensures done { (n : ℕ) → IfOk result (λ r. MayBe n core.new → carried n core.old state.old (unlock_to state.old turn.now.current turn.now.args.now turn.now.found.row turn.now.found.owner turn.now.found.seqids (last_byte turn.now.args.now.offset turn.now.args.now.len)) ≡ (r.0, r.1, r.2, state.new, core.new)) }
    ensures leaves { OnOk result (Leaves 2 core.old core.new) }
    ensures keeper { OnOk result (HandsTo K.held K.given K.faults K.left core.old core.new keeper.old keeper.new) }
{
    let (args, found, current) = (turn.args, &turn.found, turn.current);
    let Some(last) = last_byte(args.offset, args.len) else {
        let (op, status) = (operation::LOCKU, NfsStatus::Inval);
        let done = fail(alloc, state, current, found, op, args.seqid, status)?;
        return Ok(done);
    };
    let Some(by) = opener_by(alloc, state, found.row.client, found.owner)? else {
        return Ok(ended_as(alloc, NfsStatus::ServerFault, current));
    };
    let done = unlock_bytes(alloc, state, core, keeper, turn, last, &by)?;
    Ok(done)
}

/// LOCKU by a stateid that was found.
#[tactic(auto, using(xl_nfs_opens::proofs::ResultLaws::fits_14, xl_plan::proofs::BudgetLaws::leaves_self, xl_plan::proofs::BudgetLaws::leaves_more))]
fn unlock_passed<K: Keeper>(
    alloc: Global,
    state: &mut NfsState,
    core: &mut Core,
    keeper: &mut K,
    turn: &UnlockTurn,
) -> Result<Done, AllocError>
    requires ready { IsReady 2 core.old }
    requires owner { IsSome (find (is_owner turn.now.found.owner) state.old.owners) }
    requires there { find (is_stateid turn.now.found.row.number) state.old.stateids ≡ Some turn.now.found.row }
    requires open { turn.now.found.row.standing.closed ≡ false }
    ensures done { (n : ℕ) → IfOk result (λ r. MayBe n core.new → carried n core.old state.old (unlock_standing state.old turn.now.current turn.now.args.now turn.now.found.row turn.now.found.owner turn.now.found.seqids (standing_fault turn.now.found.row turn.now.found.seqids turn.now.args.now.stateid.seqid true)) ≡ (r.0, r.1, r.2, state.new, core.new)) }
    ensures leaves { OnOk result (Leaves 2 core.old core.new) }
    ensures keeper { OnOk result (HandsTo K.held K.given K.faults K.left core.old core.new keeper.old keeper.new) }
{
    let (args, found) = (turn.args, &turn.found);
    if let Some(status) = standing_fault(&found.row, found.seqids, args.stateid.seqid, true) {
        let (op, current) = (operation::LOCKU, turn.current);
        let done = fail(alloc, state, current, found, op, args.seqid, status)?;
        return Ok(done);
    }
    let done = unlock_to(alloc, state, core, keeper, turn)?;
    Ok(done)
}

/// LOCKU by what is found for its stateid.
#[tactic(auto, using(xl_plan::proofs::BudgetLaws::leaves_self, xl_plan::proofs::BudgetLaws::leaves_more))]
fn unlock_found<K: Keeper>(
    alloc: Global,
    state: &mut NfsState,
    core: &mut Core,
    keeper: &mut K,
    current: Option<u32>,
    args: &UnlockArgs,
    checked: Checked,
) -> Result<Done, AllocError>
    requires ready { IsReady 2 core.old }
    requires found { IsChecked state.old checked }
    ensures done { (n : ℕ) → IfOk result (λ r. MayBe n core.new → carried n core.old state.old (unlock_found core.old state.old current args.now checked) ≡ (r.0, r.1, r.2, state.new, core.new)) }
    ensures leaves { OnOk result (Leaves 2 core.old core.new) }
    ensures keeper { OnOk result (HandsTo K.held K.given K.faults K.left core.old core.new keeper.old keeper.new) }
{
    match checked {
        Checked::Refused(status) => Ok(ended_as(alloc, status, current)),
        Checked::Repeated(owner) => {
            let done = repeat(alloc, state, core, current, owner)?;
            Ok(done)
        }
        Checked::Passed(row, owner, seqids) => {
            let found = Found { row, owner, seqids };
            let turn = UnlockTurn {
                current,
                args,
                found,
            };
            unlock_passed(alloc, state, core, keeper, &turn)
        }
    }
}

/// LOCKU: the bytes of the range are no longer the lock owner's, held or not. INVAL for a range of no bytes or past the
/// last one; BAD_STATEID, OLD_STATEID, STALE_STATEID and BAD_SEQID by the lock's stateid; RESOURCE if what is left of a
/// lock that is cut has no room. It is done in grace too.
#[tactic(auto, unfolding(crate::specs::Unlocks::unlock), using(xl_nfs_opens::proofs::CheckLaws::passed_there, xl_plan::proofs::BudgetLaws::leaves_then, xl_plan::proofs::BudgetLaws::ready_then))]
pub fn unlock<K: Keeper>(
    alloc: Global,
    state: &mut NfsState,
    core: &mut Core,
    keeper: &mut K,
    current: Option<u32>,
    args: &UnlockArgs,
) -> Result<Done, AllocError>
    requires ready { IsReady 2 core.old }
    ensures done { (n : ℕ) → IfOk result (λ r. MayBe n core.new → carried n core.old state.old (unlock core.old state.old current args.now) ≡ (r.0, r.1, r.2, state.new, core.new)) }
    ensures leaves { OnOk result (Leaves 2 core.old core.new) }
    ensures keeper { OnOk result (HandsTo K.held K.given K.faults K.left core.old core.new keeper.old keeper.new) }
{
    let client = state_client(state, core, &args.stateid);
    renew_for(alloc, state, core, client)?;
    let (op, seqid, stateid) = (operation::LOCKU, args.seqid, &args.stateid);
    let found = check(OwnerKind::Lock, state, core, current, op, seqid, stateid);
    let done = unlock_found(alloc, state, core, keeper, current, args, found)?;
    Ok(done)
}
