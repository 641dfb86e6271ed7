//! OPEN_CONFIRM, CLOSE and DELEGRETURN (RFC 7530 16.18, 16.2, 16.6).
ghost use Rattle.xl_nfs_state.specs.Verdict.{verdict};
ghost use Rattle.xl_nfs_opens.specs.Seqids.{counted};
ghost use Rattle.xl_nfs_opens.specs.Opens.{stood};
ghost use Rattle.std.specs.Prelude.{◌≡◌, ℕ, false, true, None, Some, Ok, IsSome, IfSome, IfOk, OnOk};
ghost use Rattle.std.specs.List.{find};
ghost use Rattle.xl_base.specs.Lists.{IsIn};
ghost use Rattle.xl_core.specs.State.{CoreState};
ghost use Rattle.xl_nfs_state.specs.State.{is_owner, is_stateid};
ghost use Rattle.xl_nfs_opens.specs.Closing.{close, close_by, close_done, share_closed, confirm_by, confirm_done, deleg_return, failed, cache_of, next_seqids, open_confirm, opener_by, return_done, returned, delegates, share_of_open, standing_fault, state_returned, state_told, told_lists, IsChecked};
ghost use Rattle.xl_nfs_opens.specs.Plans.{carried};
ghost use Rattle.xl_nfs_opens.specs.Results.{spelled, ToldFits};
ghost use Rattle.xl_plan.specs.Budgets.{IsReady};
ghost use Rattle.xl_plan.specs.Keepers.{HandsTo, IsQuiet};
ghost use Rattle.xl_nfs_opens.specs.Short.{Leaves};

use crate::checking::{check, find_state, standing_fault};
use crate::delegating::cache_held;
use crate::done::{Done, ended_as};
use crate::ending::end_locks;
use crate::entering::stand;
use crate::opener::{Checked, Found, Opener};
use crate::renewing::{number_of, renew_for, state_client, stateid_of};
use crate::repeats::repeat;
use crate::results::result_bytes;
use crate::seqids::{advances, count};
use crate::shares::{give, share_held};
use crate::told::Told;
use std::alloc::{AllocError, Global};
use xl_base::{Keeper, Sequence};
use xl_core::Core;
use xl_matrix::Claim;
use xl_nfs::{CloseArgs, NfsStatus, OpenConfirmArgs, Stateid, operation};
use xl_nfs_state::{
    Holder, NfsState, OwnerKind, SeqidState, SeqidVerdict, StateidRow, Whose, verdict,
};

/// How far the owner's requests have come with this one.
pub fn next_seqids(op: u32, seqid: u32, confirmed: bool, closed: Option<u64>) -> SeqidState
    ensures { result ≡ next_seqids op seqid confirmed closed }
{
    SeqidState {
        seqid,
        op,
        confirmed,
        closed,
    }
}

/// The owner's request was answered so; the result is kept if it counts.
pub fn count_told(
    alloc: Global,
    state: &mut NfsState,
    found: &Found,
    op: u32,
    seqid: u32,
    told: &Told,
) -> Result<(), AllocError>
    requires there { IsSome (find (is_owner found.now.owner) state.old.owners) }
    requires fits { ToldFits op told.now }
    ensures { OnOk result (state.new ≡ told_lists state.old found.now.owner found.now.seqids op seqid told.now) }
{
    if advances(told.status()) {
        let bytes = result_bytes(alloc, op, told)?;
        let next = next_seqids(op, seqid, found.seqids.confirmed, None);
        count(state, found.owner, found.seqids.closed, next, bytes)?;
    }
    Ok(())
}

/// It failed so; the result is kept if it counts.
pub fn fail(
    alloc: Global,
    state: &mut NfsState,
    current: Option<u32>,
    found: &Found,
    op: u32,
    seqid: u32,
    status: NfsStatus,
) -> Result<Done, AllocError>
    requires there { IsSome (find (is_owner found.now.owner) state.old.owners) }
    requires fits { ToldFits op (Told.Ended status) }
    ensures done { (n : ℕ) (s : CoreState) → IfOk result (λ r. carried n s state.old (failed state.old current found.now.owner found.now.seqids op seqid status) ≡ (r.0, r.1, r.2, state.new, s)) }
    ensures told { IfOk result (λ r. r.0 ≡ Told.Ended status) }
{
    let told = Told::Ended(status);
    count_told(alloc, state, found, op, seqid, &told)?;
    Ok((told, current, Sequence::new(alloc)))
}

/// The stateid as it is then.
pub fn state_told(core: &Core, row: &StateidRow) -> Told
    ensures { result ≡ state_told core.now row.now }
{
    let seqid = row.standing.seqid.wrapping_add(1);
    Told::State(stateid_of(core, row.number, seqid))
}

/// It was done: the open has these rights from then on, or is closed.
pub fn finish(
    alloc: Global,
    state: &mut NfsState,
    core: &Core,
    found: &Found,
    seqids: SeqidState,
    standing: (u32, u32, bool),
) -> Result<Told, AllocError>
    requires owner { IsSome (find (is_owner found.now.owner) state.old.owners) }
    requires there { find (is_stateid found.now.row.number) state.old.stateids ≡ Some found.now.row }
    requires open { found.now.row.standing.closed ≡ false }
    ensures told { IfOk result (λ told. told ≡ state_told core.now found.now.row) }
    ensures lists { OnOk result (state.new ≡ counted found.now.owner found.now.seqids.closed seqids (spelled seqids.op (state_told core.now found.now.row)) (stood found.now.row.number found.now.row standing.0 standing.1 standing.2 state.old)) }
{
    let (access, deny, closed) = standing;
    let told = state_told(core, &found.row);
    let bytes = result_bytes(alloc, seqids.op, &told)?;
    stand(state, &found.row, access, deny, closed);
    count(state, found.owner, found.seqids.closed, seqids, bytes)?;
    Ok(told)
}

/// OPEN_CONFIRM of an open that was found.
#[tactic(auto, using(crate::proofs::ResultLaws::fits_20))]
fn confirm_passed(
    alloc: Global,
    state: &mut NfsState,
    core: &Core,
    current: Option<u32>,
    args: &OpenConfirmArgs,
    found: &Found,
) -> Result<Done, AllocError>
    requires owner { IsSome (find (is_owner found.now.owner) state.old.owners) }
    requires there { find (is_stateid found.now.row.number) state.old.stateids ≡ Some found.now.row }
    requires open { found.now.row.standing.closed ≡ false }
    ensures done { (n : ℕ) → IfOk result (λ r. carried n core.now state.old (confirm_done core.now state.old current args.now found.now.row found.now.owner found.now.seqids (standing_fault found.now.row found.now.seqids args.now.stateid.seqid false)) ≡ (r.0, r.1, r.2, state.new, core.now)) }
{
    let op = operation::OPEN_CONFIRM;
    if let Some(status) = standing_fault(&found.row, found.seqids, args.stateid.seqid, false) {
        let done = fail(alloc, state, current, found, op, args.seqid, status)?;
        return Ok(done);
    }
    let next = next_seqids(op, args.seqid, true, None);
    let standing = (found.row.standing.access, found.row.standing.deny, false);
    let told = finish(alloc, state, core, found, next, standing)?;
    Ok((told, current, Sequence::new(alloc)))
}

/// OPEN_CONFIRM by what is found for its stateid.
fn confirm_by(
    alloc: Global,
    state: &mut NfsState,
    core: &Core,
    current: Option<u32>,
    args: &OpenConfirmArgs,
    checked: Checked,
) -> Result<Done, AllocError>
    requires found { IsChecked state.old checked }
    ensures done { (n : ℕ) → IfOk result (λ r. carried n core.now state.old (confirm_by core.now state.old current args.now checked) ≡ (r.0, r.1, r.2, state.new, core.now)) }
{
    match checked {
        Checked::Refused(status) => Ok(ended_as(alloc, status, current)),
        Checked::Repeated(owner) => repeat(alloc, state, core, current, owner),
        Checked::Passed(row, owner, seqids) => {
            let found = Found { row, owner, seqids };
            confirm_passed(alloc, state, core, current, args, &found)
        }
    }
}

/// OPEN_CONFIRM.
#[tactic(auto, unfolding(crate::specs::Closing::open_confirm), using(crate::proofs::CheckLaws::passed_there, xl_plan::proofs::BudgetLaws::leaves_then, xl_plan::proofs::BudgetLaws::ready_then))]
pub fn open_confirm(
    alloc: Global,
    state: &mut NfsState,
    core: &mut Core,
    current: Option<u32>,
    args: &OpenConfirmArgs,
) -> Result<Done, AllocError>
    requires ready { IsReady 0 core.old }
    ensures done { (n : ℕ) → IfOk result (λ r. carried n core.old state.old (open_confirm core.old state.old current args.now) ≡ (r.0, r.1, r.2, state.new, core.new)) }
    ensures leaves { OnOk result (Leaves 0 core.old core.new) }
    ensures quiet { OnOk result (IsQuiet core.old core.new) }
{
    let client = state_client(state, core, &args.stateid);
    renew_for(alloc, state, core, client)?;
    let op = operation::OPEN_CONFIRM;
    let found = check(
        OwnerKind::Open,
        state,
        core,
        current,
        op,
        args.seqid,
        &args.stateid,
    );
    let done = confirm_by(alloc, state, core, current, args, found)?;
    Ok(done)
}

/// The owner of an open, or of locks.
#[tactic(auto, unfolding(crate::specs::Closing::opener_by))]
pub fn opener_by(
    alloc: Global,
    state: &NfsState,
    client: u32,
    owner: u64,
) -> Result<Option<Opener>, AllocError>
    ensures { IfOk result (λ opener. opener ≡ opener_by state.now client owner) }
{
    let Some(client_row) = state.find_client(client, true) else {
        return Ok(None);
    };
    let Some(owner_row) = state.find_owner(owner) else {
        return Ok(None);
    };
    Ok(Some(Opener {
        client: client_row.number,
        id: Sequence::from_slice(alloc, client_row.id.as_slice())?,
        verifier: client_row.details.verifier,
        kind: owner_row.name.kind,
        owner: Sequence::from_slice(alloc, owner_row.name.owner.as_slice())?,
    }))
}

/// The share that stands for an open.
pub(crate) fn share_of_open(
    alloc: Global,
    state: &NfsState,
    core: &Core,
    row: &StateidRow,
    owner: u64,
) -> Result<Option<Claim>, AllocError>
    ensures value { IfOk result (λ share. share ≡ share_of_open core.now state.now row.now owner) }
    ensures held { IfOk result (λ share. IfSome share (λ claim. IsIn claim core.now.claims)) }
{
    let Some(opener) = opener_by(alloc, state, row.client, owner)? else {
        return Ok(None);
    };
    share_held(alloc, core, &opener, row.file)
}

/// The share of an open goes, and the stateids of the locks under it; the open is closed.
#[tactic(auto, using(xl_plan::proofs::BudgetLaws::leaves_self))]
fn close_share(
    alloc: Global,
    state: &mut NfsState,
    core: &mut Core,
    current: Option<u32>,
    args: &CloseArgs,
    found: &Found,
) -> Result<Done, AllocError>
    requires ready { IsReady 0 core.old }
    requires owner { IsSome (find (is_owner found.now.owner) state.old.owners) }
    requires there { find (is_stateid found.now.row.number) state.old.stateids ≡ Some found.now.row }
    requires open { found.now.row.standing.closed ≡ false }
    ensures done { (n : ℕ) → IfOk result (λ r. carried n core.old state.old (share_closed core.old state.old current args.now found.now.row found.now.owner found.now.seqids) ≡ (r.0, r.1, r.2, state.new, core.new)) }
    ensures leaves { OnOk result (Leaves 0 core.old core.new) }
    ensures quiet { OnOk result (IsQuiet core.old core.new) }
{
    let op = operation::CLOSE;
    let share = share_of_open(alloc, state, core, &found.row, found.owner)?;
    let next = next_seqids(
        op,
        args.seqid,
        found.seqids.confirmed,
        Some(found.row.number),
    );
    let standing = (found.row.standing.access, found.row.standing.deny, true);
    let told = finish(alloc, state, core, found, next, standing)?;
    state.drop_stateids(Whose::Under(found.row.number));
    give(alloc, core, share);
    Ok((told, current, Sequence::new(alloc)))
}

/// CLOSE of an open that was found: the locks under it end before its share.
#[tactic(auto, using(crate::proofs::ResultLaws::fits_4, xl_plan::proofs::BudgetLaws::leaves_self, xl_plan::proofs::BudgetLaws::leaves_then, xl_plan::proofs::BudgetLaws::ready_then))]
fn close_passed<K: Keeper>(
    alloc: Global,
    state: &mut NfsState,
    core: &mut Core,
    keeper: &mut K,
    current: Option<u32>,
    args: &CloseArgs,
    found: &Found,
) -> Result<Done, AllocError>
    requires ready { IsReady 2 core.old }
    requires owner { IsSome (find (is_owner found.now.owner) state.old.owners) }
    requires there { find (is_stateid found.now.row.number) state.old.stateids ≡ Some found.now.row }
    requires open { found.now.row.standing.closed ≡ false }
    ensures done { (n : ℕ) → IfOk result (λ r. carried n core.old state.old (close_done core.old state.old current args.now found.now.row found.now.owner found.now.seqids (standing_fault found.now.row found.now.seqids args.now.stateid.seqid true)) ≡ (r.0, r.1, r.2, state.new, core.new)) }
    ensures leaves { OnOk result (Leaves 0 core.old core.new) }
    ensures keeper { OnOk result (HandsTo K.held K.given K.faults K.left core.old core.new keeper.old keeper.new) }
{
    let op = operation::CLOSE;
    if let Some(status) = standing_fault(&found.row, found.seqids, args.stateid.seqid, true) {
        let done = fail(alloc, state, current, found, op, args.seqid, status)?;
        return Ok(done);
    }
    end_locks(alloc, state, core, keeper, &found.row)?;
    let done = close_share(alloc, state, core, current, args, found)?;
    Ok(done)
}

/// CLOSE by what is found for its stateid.
fn close_by<K: Keeper>(
    alloc: Global,
    state: &mut NfsState,
    core: &mut Core,
    keeper: &mut K,
    current: Option<u32>,
    args: &CloseArgs,
    checked: Checked,
) -> Result<Done, AllocError>
    requires ready { IsReady 2 core.old }
    requires found { IsChecked state.old checked }
    ensures done { (n : ℕ) → IfOk result (λ r. carried n core.old state.old (close_by core.old state.old current args.now checked) ≡ (r.0, r.1, r.2, state.new, core.new)) }
    ensures leaves { OnOk result (Leaves 0 core.old core.new) }
    ensures keeper { OnOk result (HandsTo K.held K.given K.faults K.left core.old core.new keeper.old keeper.new) }
{
    match checked {
        Checked::Refused(status) => Ok(ended_as(alloc, status, current)),
        Checked::Repeated(owner) => repeat(alloc, state, core, current, owner),
        Checked::Passed(row, owner, seqids) => {
            let found = Found { row, owner, seqids };
            close_passed(alloc, state, core, keeper, current, args, &found)
        }
    }
}

/// CLOSE.
#[tactic(auto, unfolding(crate::specs::Closing::close), using(crate::proofs::CheckLaws::passed_there, xl_plan::proofs::BudgetLaws::leaves_then, xl_plan::proofs::BudgetLaws::ready_then))]
pub fn close<K: Keeper>(
    alloc: Global,
    state: &mut NfsState,
    core: &mut Core,
    keeper: &mut K,
    current: Option<u32>,
    args: &CloseArgs,
) -> Result<Done, AllocError>
    requires ready { IsReady 2 core.old }
    ensures done { (n : ℕ) → IfOk result (λ r. carried n core.old state.old (close core.old state.old current args.now) ≡ (r.0, r.1, r.2, state.new, core.new)) }
    ensures leaves { OnOk result (Leaves 0 core.old core.new) }
    ensures keeper { OnOk result (HandsTo K.held K.given K.faults K.left core.old core.new keeper.old keeper.new) }
{
    let client = state_client(state, core, &args.stateid);
    renew_for(alloc, state, core, client)?;
    let op = operation::CLOSE;
    let found = check(
        OwnerKind::Open,
        state,
        core,
        current,
        op,
        args.seqid,
        &args.stateid,
    );
    let done = close_by(alloc, state, core, keeper, current, args, found)?;
    Ok(done)
}

/// Whether it is a delegation.
fn delegates(holder: Holder) -> bool
    ensures { result ≡ delegates holder }
{
    matches!(holder, Holder::Delegation { .. })
}

/// The row, if it is of a delegation and not closed, by its own seqid.
fn check_returned(row: StateidRow, seqid: u32) -> Result<StateidRow, NfsStatus>
    ensures { result ≡ state_returned seqid (Ok row) }
{
    if row.standing.closed || !delegates(row.holder) {
        Err(NfsStatus::BadStateid)
    } else if seqid < row.standing.seqid {
        Err(NfsStatus::OldStateid)
    } else if row.standing.seqid < seqid {
        Err(NfsStatus::BadStateid)
    } else {
        Ok(row)
    }
}

/// The delegation that a DELEGRETURN is of, or why there is none.
#[tactic(auto, unfolding(crate::specs::Closing::returned))]
fn returned(
    core: &Core,
    state: &NfsState,
    current: Option<u32>,
    stateid: &Stateid,
) -> Result<StateidRow, NfsStatus>
    ensures { result ≡ returned core.now state.now current stateid.now }
{
    let row = find_state(state, core, current, stateid)?;
    check_returned(row, stateid.seqid)
}

/// The cache that stands for a delegation.
fn cache_of(
    alloc: Global,
    core: &Core,
    state: &NfsState,
    row: &StateidRow,
) -> Result<Option<Claim>, AllocError>
    ensures value { IfOk result (λ claim. claim ≡ cache_of core.now state.now row.now) }
    ensures held { IfOk result (λ claim. IfSome claim (λ cache. IsIn cache core.now.claims)) }
{
    let Some(client) = state.find_client(row.client, true) else {
        return Ok(None);
    };
    let cache = cache_held(alloc, core, client.id.as_slice(), row.file)?;
    Ok(cache)
}

/// DELEGRETURN by what is found for its stateid: the cache is given back, and the stateid goes.
#[tactic(auto, using(xl_plan::proofs::BudgetLaws::leaves_self))]
fn return_by(
    alloc: Global,
    state: &mut NfsState,
    core: &mut Core,
    current: Option<u32>,
    found: Result<StateidRow, NfsStatus>,
) -> Result<Done, AllocError>
    requires ready { IsReady 0 core.old }
    ensures done { (n : ℕ) → IfOk result (λ r. carried n core.old state.old (return_done core.old state.old current found) ≡ (r.0, r.1, r.2, state.new, core.new)) }
    ensures leaves { OnOk result (Leaves 0 core.old core.new) }
    ensures quiet { OnOk result (IsQuiet core.old core.new) }
{
    match found {
        Err(status) => Ok(ended_as(alloc, status, current)),
        Ok(row) => {
            let cache = cache_of(alloc, core, state, &row)?;
            give(alloc, core, cache);
            state.drop_stateids(Whose::Stateid(row.number));
            Ok(ended_as(alloc, NfsStatus::Ok, current))
        }
    }
}

/// DELEGRETURN: the client gives its delegation of the current file back. NOFILEHANDLE, STALE_STATEID, BAD_STATEID and
/// OLD_STATEID by the stateid.
#[tactic(auto, unfolding(crate::specs::Closing::deleg_return), using(xl_plan::proofs::BudgetLaws::leaves_then, xl_plan::proofs::BudgetLaws::ready_then))]
pub fn deleg_return(
    alloc: Global,
    state: &mut NfsState,
    core: &mut Core,
    current: Option<u32>,
    stateid: &Stateid,
) -> Result<Done, AllocError>
    requires ready { IsReady 0 core.old }
    ensures done { (n : ℕ) → IfOk result (λ r. carried n core.old state.old (deleg_return core.old state.old current stateid.now) ≡ (r.0, r.1, r.2, state.new, core.new)) }
    ensures leaves { OnOk result (Leaves 0 core.old core.new) }
    ensures quiet { OnOk result (IsQuiet core.old core.new) }
{
    let client = state_client(state, core, stateid);
    renew_for(alloc, state, core, client)?;
    let found = returned(core, state, current, stateid);
    let done = return_by(alloc, state, core, current, found)?;
    Ok(done)
}
