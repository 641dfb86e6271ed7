//! OPEN_DOWNGRADE (RFC 7530 16.19).
ghost use Rattle.std.specs.Prelude.{◌≡◌, ℕ, false, true, None, Some, IsSome, IfOk, IfSome, OnOk};
ghost use Rattle.std.specs.List.{find};
ghost use Rattle.xl_nfs.specs.Outcomes.{is_ok};
ghost use Rattle.xl_nfs_state.specs.State.{is_owner, is_stateid};
ghost use Rattle.xl_nfs_opens.specs.Closing.{can_weaken, standing_fault, IsChecked};
ghost use Rattle.xl_nfs_opens.specs.Downgrades.{downgrade_by, downgrade_done, downgrade_fault, open_downgrade};
ghost use Rattle.xl_nfs_opens.specs.Plans.{carried};
ghost use Rattle.xl_plan.specs.Budgets.{IsReady};
ghost use Rattle.xl_plan.specs.Keepers.{IsQuiet};
ghost use Rattle.xl_nfs_opens.specs.Short.{Leaves};

use crate::checking::{check, standing_fault};
use crate::closing::{fail, finish, next_seqids, share_of_open};
use crate::done::{Done, ended_as};
use crate::opener::{Checked, Found};
use crate::renewing::{renew_for, state_client};
use crate::repeats::repeat;
use crate::shares::{SHARE_BOTH, SHARE_READ, rights_of, weaken};
use std::alloc::{AllocError, Global};
use xl_base::Sequence;
use xl_core::Core;
use xl_matrix::rights_within;
use xl_nfs::{NfsStatus, OpenDowngradeArgs, operation};
use xl_nfs_state::{NfsState, OwnerKind, SeqidState, StateidRow};

/// Whether an access is left, and both lie within what the open has.
#[tactic(auto, unfolding(crate::specs::Closing::can_weaken))]
fn can_weaken(row: &StateidRow, access: u32, deny: u32) -> bool
    ensures { result ≡ can_weaken row.now access deny }
{
    SHARE_READ <= access
        && access <= SHARE_BOTH
        && deny <= SHARE_BOTH
        && rights_within(rights_of(access), rights_of(row.standing.access))
        && rights_within(rights_of(deny), rights_of(row.standing.deny))
}

/// What is wrong with the stateid, or with what is asked.
#[tactic(auto, unfolding(crate::specs::Downgrades::downgrade_fault))]
fn downgrade_fault(
    row: &StateidRow,
    seqids: SeqidState,
    args: &OpenDowngradeArgs,
) -> Option<NfsStatus>
    ensures value { result ≡ downgrade_fault row.now seqids args.now }
    ensures fails { IfSome result (λ status. is_ok status ≡ false) }
{
    if let Some(status) = standing_fault(row, seqids, args.stateid.seqid, true) {
        return Some(status);
    }
    if can_weaken(row, args.access, args.deny) {
        None
    } else {
        Some(NfsStatus::Inval)
    }
}

/// OPEN_DOWNGRADE of an open that was found.
#[tactic(auto, using(crate::proofs::ResultLaws::fits_21, xl_plan::proofs::BudgetLaws::leaves_self))]
fn downgrade_passed(
    alloc: Global,
    state: &mut NfsState,
    core: &mut Core,
    current: Option<u32>,
    args: &OpenDowngradeArgs,
    found: &Found,
) -> Result<Done, AllocError>
    requires ready { IsReady 0 core.old }
    requires owner { IsSome (find (is_owner found.now.owner) state.old.owners) }
    requires there { find (is_stateid found.now.row.number) state.old.stateids ≡ Some found.now.row }
    requires open { found.now.row.standing.closed ≡ false }
    ensures done { (n : ℕ) → IfOk result (λ r. carried n core.old state.old (downgrade_done core.old state.old current args.now found.now.row found.now.owner found.now.seqids (downgrade_fault found.now.row found.now.seqids args.now)) ≡ (r.0, r.1, r.2, state.new, core.new)) }
    ensures leaves { OnOk result (Leaves 0 core.old core.new) }
    ensures quiet { OnOk result (IsQuiet core.old core.new) }
{
    let op = operation::OPEN_DOWNGRADE;
    if let Some(status) = downgrade_fault(&found.row, found.seqids, args) {
        let done = fail(alloc, state, current, found, op, args.seqid, status)?;
        return Ok(done);
    }
    let share = share_of_open(alloc, state, core, &found.row, found.owner)?;
    let next = next_seqids(op, args.seqid, found.seqids.confirmed, None);
    let standing = (args.access, args.deny, false);
    let told = finish(alloc, state, core, found, next, standing)?;
    let (access, deny) = (rights_of(args.access), rights_of(args.deny));
    weaken(alloc, core, share, access, deny);
    Ok((told, current, Sequence::new(alloc)))
}

/// OPEN_DOWNGRADE by what is found for its stateid.
fn downgrade_by(
    alloc: Global,
    state: &mut NfsState,
    core: &mut Core,
    current: Option<u32>,
    args: &OpenDowngradeArgs,
    checked: Checked,
) -> Result<Done, AllocError>
    requires ready { IsReady 0 core.old }
    requires found { IsChecked state.old checked }
    ensures done { (n : ℕ) → IfOk result (λ r. carried n core.old state.old (downgrade_by core.old state.old current args.now checked) ≡ (r.0, r.1, r.2, state.new, core.new)) }
    ensures leaves { OnOk result (Leaves 0 core.old core.new) }
    ensures quiet { OnOk result (IsQuiet core.old core.new) }
{
    match checked {
        Checked::Refused(status) => Ok(ended_as(alloc, status, current)),
        Checked::Repeated(owner) => repeat(alloc, state, core, current, owner),
        Checked::Passed(row, owner, seqids) => {
            let found = Found { row, owner, seqids };
            downgrade_passed(alloc, state, core, current, args, &found)
        }
    }
}

/// OPEN_DOWNGRADE.
#[tactic(auto, unfolding(crate::specs::Downgrades::open_downgrade), using(crate::proofs::CheckLaws::passed_there, xl_plan::proofs::BudgetLaws::leaves_then, xl_plan::proofs::BudgetLaws::ready_then))]
pub fn open_downgrade(
    alloc: Global,
    state: &mut NfsState,
    core: &mut Core,
    current: Option<u32>,
    args: &OpenDowngradeArgs,
) -> Result<Done, AllocError>
    requires ready { IsReady 0 core.old }
    ensures done { (n : ℕ) → IfOk result (λ r. carried n core.old state.old (open_downgrade core.old state.old current args.now) ≡ (r.0, r.1, r.2, state.new, core.new)) }
    ensures leaves { OnOk result (Leaves 0 core.old core.new) }
    ensures quiet { OnOk result (IsQuiet core.old core.new) }
{
    let client = state_client(state, core, &args.stateid);
    renew_for(alloc, state, core, client)?;
    let op = operation::OPEN_DOWNGRADE;
    let found = check(
        OwnerKind::Open,
        state,
        core,
        current,
        op,
        args.seqid,
        &args.stateid,
    );
    let done = downgrade_by(alloc, state, core, current, args, found)?;
    Ok(done)
}
