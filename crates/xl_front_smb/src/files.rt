//! Opens: CLOSE, and acknowledgements of breaks.
ghost use Rattle.std.specs.Prelude.{◌≡◌, ℕ, true, [], ◌∷◌, Some, None, IsSome, IfOk, OnOk, option_map};
ghost use Rattle.xl_base.specs.Lists.{IsIn};
ghost use Rattle.xl_matrix.specs.declared.claim.What.TheVariants.{Cache};
ghost use Rattle.xl_smb.specs.declared.command.Command.TheVariants as command;
ghost use Rattle.xl_smb_state.specs.State.{Lists, open_of, lease_of};
ghost use Rattle.xl_core.specs.BreakAnswers.{may_be_left};
ghost use Rattle.xl_core.specs.Deeds.{Acks};
ghost use Rattle.xl_core.specs.State.{CoreState};
ghost use Rattle.xl_plan.specs.Keepers.{IsQuiet};
ghost use Rattle.xl_front_smb.specs.Files.{close_open, close, is_read, leaves_less, is_refused, left_at, ack_by, ack_oplock, may_keep, lease_left, ack_cache, ack_lease, break_by, acknowledge};
ghost use Rattle.xl_front_smb.specs.Checks.{refused};
ghost use Rattle.xl_front_smb.specs.Plans.{Does, Fails, carried};
ghost use Rattle.xl_front_smb.specs.Replies.{IsAnswer};
ghost use Rattle.xl_front_smb.specs.Short.{IsReady, Leaves};

use crate::checks::{open_named, session_named, tree_named};
use crate::creates::LEASE_LEVEL;
use crate::ending::party_going;
use crate::locks::open_row;
use crate::outcome::{Done, failed};
use crate::told::Told;
use std::alloc::{AllocError, Global};
use xl_cache::{kind_in_lease, oplock_level, rest_within};
use xl_core::{Core, id_of};
use xl_matrix::{CacheKind, Claim, What};
use xl_smb::{Break, FileId, Lease, SmbHead};
use xl_smb_locks::{SmbStatus, cache_of, lease_party, oplock_of};
use xl_smb_state::{LeaseKey, SmbState};

/// An open ends with all that it holds.
#[tactic(auto, using(crate::proofs::PlanLaws::closes, xl_plan::proofs::BudgetLaws::close_leaves))]
fn close_open(
    alloc: Global,
    state: &mut SmbState,
    core: &mut Core,
    number: u32,
) -> Result<Done, AllocError>
    requires ready { IsReady 0 core.old }
    requires there { IsSome (open_of number state.old) }
    ensures done { (n : ℕ) → IfOk result (λ r. carried n core.old state.old (close_open core.old state.old number) ≡ (r.0, r.1, state.new, core.new)) }
    ensures leaves { OnOk result (Leaves 0 core.old core.new) }
    ensures quiet { OnOk result (IsQuiet core.old core.new) }
    ensures answer { IfOk result (λ r. IsAnswer (Some command.Close) r.0) }
{
    let party = party_going(core, state, number);
    let effects = core.close_open(alloc, number, party)?;
    state.close(alloc, number);
    Ok((Told::Closed, effects))
}

/// CLOSE: in a session, on a tree connect of it, of an open under the connection.
#[tactic(auto, unfolding(crate::specs::Files::close), using(xl_plan::proofs::BudgetLaws::leaves_self))]
pub(crate) fn close(
    alloc: Global,
    state: &mut SmbState,
    core: &mut Core,
    conn: u64,
    client: &[u8; 16],
    head: &SmbHead,
    id: FileId,
) -> Result<Done, AllocError>
    requires ready { IsReady 0 core.old }
    ensures done { (n : ℕ) → IfOk result (λ r. carried n core.old state.old (close core.old state.old conn client.now head.now id) ≡ (r.0, r.1, state.new, core.new)) }
    ensures leaves { OnOk result (Leaves 0 core.old core.new) }
    ensures quiet { OnOk result (IsQuiet core.old core.new) }
    ensures answer { IfOk result (λ r. IsAnswer (Some command.Close) r.0) }
{
    let Some(session) = session_named(core, state, conn, head.session_id) else {
        return Ok(failed(alloc, SmbStatus::UserSessionDeleted));
    };
    let Some(_place) = tree_named(state, conn, client, head, session) else {
        return Ok(failed(alloc, SmbStatus::NetworkNameDeleted));
    };
    let Some(number) = open_named(core, state, conn, id) else {
        return Ok(failed(alloc, SmbStatus::FileClosed));
    };
    let done = close_open(alloc, state, core, number)?;
    Ok(done)
}

/// Whether an oplock is of level II.
fn is_read(kind: CacheKind) -> bool
    ensures { result ≡ is_read kind }
{
    matches!(kind, CacheKind::R)
}

/// Whether a break leaves less than level II.
fn leaves_less(running: Option<xl_matrix::Break>) -> bool
    ensures { result ≡ leaves_less running }
{
    match running {
        Some(running) => !rest_within(Some(CacheKind::R), running.target),
        None => false,
    }
}

/// Whether a level isn't one to go down to.
fn is_refused(level: u8, kind: CacheKind, running: Option<xl_matrix::Break>) -> bool
    ensures { result ≡ is_refused level kind running }
{
    level > 1 || level == 1 && (is_read(kind) || leaves_less(running))
}

/// What is left at a level: nothing, or level II.
fn left_at(level: u8) -> Option<CacheKind>
    ensures { result ≡ left_at level }
{
    if level == 0 { None } else { Some(CacheKind::R) }
}

/// Answers the break that runs of an open's oplock, so that this is left of it.
#[tactic(auto, using(crate::proofs::AckLaws::acks, xl_plan::proofs::BudgetLaws::ack_leaves))]
fn answer_break(
    alloc: Global,
    core: &mut Core,
    cache: &Claim,
    to: Option<CacheKind>,
    told: Told,
) -> Done
    requires ready { IsReady 0 core.old }
    requires held { IsIn cache.now core.old.claims }
    requires runs { may_be_left cache.now.what to ≡ true }
    ensures done { (n : ℕ) (l : Lists) → carried n core.old l (Does (Acks cache.now to ∷ []) l told) ≡ (result.0, result.1, l, core.new) }
    ensures told { result.0 ≡ told }
    ensures leaves { Leaves 0 core.old core.new }
    ensures quiet { IsQuiet core.old core.new }
{
    let effects = core.ack(alloc, cache, to);
    (told, effects)
}

/// What an acknowledgement of this level comes to, if a break of this oplock runs.
#[tactic(auto, using(crate::proofs::AckLaws::left_within))]
fn ack_running(
    alloc: Global,
    core: &mut Core,
    id: u64,
    level: u8,
    cache: &Claim,
    kind: CacheKind,
    running: xl_matrix::Break,
) -> Done
    requires ready { IsReady 0 core.old }
    requires held { IsIn cache.now core.old.claims }
    requires runs { cache.now.what ≡ Cache kind (Some running) }
    ensures done { (n : ℕ) (l : Lists) → carried n core.old l (ack_by l id level cache.now (Cache kind (Some running))) ≡ (result.0, result.1, l, core.new) }
    ensures leaves { Leaves 0 core.old core.new }
    ensures quiet { IsQuiet core.old core.new }
    ensures answer { IsAnswer (Some command.OplockBreak) result.0 }
{
    if is_refused(level, kind, Some(running)) {
        let told = Told::Failed(SmbStatus::InvalidOplockProtocol);
        return answer_break(alloc, core, cache, None, told);
    }
    let left = left_at(level);
    let told = Told::Acknowledged(id, oplock_level(left));
    answer_break(alloc, core, cache, left, told)
}

/// Why an acknowledgement is refused if no break runs: for its level, if that isn't one to go down to.
fn ack_resting(alloc: Global, above: bool) -> Done
    ensures done { (n : ℕ) (s : CoreState) (l : Lists) → carried n s l (refused ((above, SmbStatus.InvalidOplockProtocol) ∷ []) (Fails SmbStatus.InvalidDeviceState)) ≡ (result.0, result.1, l, s) }
    ensures answer { IsAnswer (Some command.OplockBreak) result.0 }
{
    if above {
        return failed(alloc, SmbStatus::InvalidOplockProtocol);
    }
    failed(alloc, SmbStatus::InvalidDeviceState)
}

/// What an acknowledgement of this level comes to, of an open that has this oplock.
#[tactic(auto, using(xl_plan::proofs::BudgetLaws::leaves_self))]
fn ack_by(alloc: Global, core: &mut Core, id: u64, level: u8, cache: &Claim) -> Done
    requires ready { IsReady 0 core.old }
    requires held { IsIn cache.now core.old.claims }
    ensures done { (n : ℕ) (l : Lists) → carried n core.old l (ack_by l id level cache.now cache.now.what) ≡ (result.0, result.1, l, core.new) }
    ensures leaves { Leaves 0 core.old core.new }
    ensures quiet { IsQuiet core.old core.new }
    ensures answer { IsAnswer (Some command.OplockBreak) result.0 }
{
    match cache.what {
        What::Cache(kind, Some(running)) => {
            ack_running(alloc, core, id, level, cache, kind, running)
        }
        What::Cache(kind, None) => ack_resting(alloc, is_refused(level, kind, None)),
        What::Share(_, _) | What::Range(_, _) => failed(alloc, SmbStatus::InvalidDeviceState),
    }
}

/// What an acknowledgement of this level comes to, of an open (MS-SMB2 3.3.5.22.1).
#[tactic(auto, using(xl_plan::proofs::BudgetLaws::leaves_self))]
fn ack_oplock(
    alloc: Global,
    state: &SmbState,
    core: &mut Core,
    level: u8,
    number: u32,
) -> Result<Done, AllocError>
    requires ready { IsReady 0 core.old }
    ensures done { (n : ℕ) → IfOk result (λ r. carried n core.old state.now (ack_oplock core.old state.now level number) ≡ (r.0, r.1, state.now, core.new)) }
    ensures leaves { OnOk result (Leaves 0 core.old core.new) }
    ensures quiet { OnOk result (IsQuiet core.old core.new) }
    ensures answer { IfOk result (λ r. IsAnswer (Some command.OplockBreak) r.0) }
{
    if level == LEASE_LEVEL {
        return Ok(failed(alloc, SmbStatus::InvalidParameter));
    }
    let Some(row) = open_row(state, number) else {
        return Ok(failed(alloc, SmbStatus::FileClosed));
    };
    let id = id_of(core, number);
    let Some(cache) = oplock_of(alloc, core, row.file, number)? else {
        return Ok(ack_resting(alloc, level > 1));
    };
    Ok(ack_by(alloc, core, id, level, &cache))
}

/// Whether a lease may keep this state, if this break of its cache runs.
fn may_keep(state: u32, running: xl_matrix::Break) -> bool
    ensures { result ≡ may_keep state running }
{
    matches!(state, 0 | 1 | 3) && rest_within(kind_in_lease(state), running.target)
}

/// The lease of this key, which holds this state.
fn lease_left(lease: &Lease) -> Lease
    ensures { result ≡ lease_left lease.now }
{
    Lease {
        key: lease.key,
        state: lease.state,
        flags: 0,
        duration: 0,
    }
}

/// What an acknowledgement of this state comes to, if this is the lease's cache.
#[tactic(auto, using(xl_plan::proofs::BudgetLaws::leaves_self, crate::proofs::AckLaws::kept_within))]
fn ack_cache(alloc: Global, core: &mut Core, lease: &Lease, cache: &Claim) -> Done
    requires ready { IsReady 0 core.old }
    requires held { IsIn cache.now core.old.claims }
    ensures done { (n : ℕ) (l : Lists) → carried n core.old l (ack_cache l lease.now cache.now) ≡ (result.0, result.1, l, core.new) }
    ensures leaves { Leaves 0 core.old core.new }
    ensures quiet { IsQuiet core.old core.new }
    ensures answer { IsAnswer (Some command.OplockBreak) result.0 }
{
    let What::Cache(_, Some(running)) = cache.what else {
        return failed(alloc, SmbStatus::Unsuccessful);
    };
    if !may_keep(lease.state, running) {
        return failed(alloc, SmbStatus::RequestNotAccepted);
    }
    let left = kind_in_lease(lease.state);
    answer_break(alloc, core, cache, left, Told::Answered(lease_left(lease)))
}

/// The file of the lease of this key of a client, if there is one.
fn file_leased(state: &SmbState, client: &[u8; 16], key: &[u8; 16]) -> Option<u32>
    ensures { result ≡ option_map (λ row. row.file) (lease_of (record { client = client.now; key = key.now }) state.now) }
{
    let found = state.find_lease(&LeaseKey {
        client: *client,
        key: *key,
    })?;
    Some(found.file)
}

/// What an acknowledgement comes to, of a lease of a client (MS-SMB2 3.3.5.22.2).
#[tactic(auto, using(xl_plan::proofs::BudgetLaws::leaves_self))]
fn ack_lease(
    alloc: Global,
    state: &SmbState,
    core: &mut Core,
    client: &[u8; 16],
    lease: &Lease,
) -> Result<Done, AllocError>
    requires ready { IsReady 0 core.old }
    ensures done { (n : ℕ) → IfOk result (λ r. carried n core.old state.now (ack_lease core.old state.now client.now lease.now) ≡ (r.0, r.1, state.now, core.new)) }
    ensures leaves { OnOk result (Leaves 0 core.old core.new) }
    ensures quiet { OnOk result (IsQuiet core.old core.new) }
    ensures answer { IfOk result (λ r. IsAnswer (Some command.OplockBreak) r.0) }
{
    let Some(file) = file_leased(state, client, &lease.key) else {
        return Ok(failed(alloc, SmbStatus::ObjectNameNotFound));
    };
    let party = lease_party(core, client, &lease.key);
    let Some(cache) = cache_of(alloc, core, file, party)? else {
        return Ok(failed(alloc, SmbStatus::Unsuccessful));
    };
    Ok(ack_cache(alloc, core, lease, &cache))
}

/// What an acknowledgement comes to, of an open under the connection or of a lease.
#[tactic(auto, using(xl_plan::proofs::BudgetLaws::leaves_self))]
fn break_by(
    alloc: Global,
    state: &SmbState,
    core: &mut Core,
    conn: u64,
    client: &[u8; 16],
    held: Break,
) -> Result<Done, AllocError>
    requires ready { IsReady 0 core.old }
    ensures done { (n : ℕ) → IfOk result (λ r. carried n core.old state.now (break_by core.old state.now conn client.now held) ≡ (r.0, r.1, state.now, core.new)) }
    ensures leaves { OnOk result (Leaves 0 core.old core.new) }
    ensures quiet { OnOk result (IsQuiet core.old core.new) }
    ensures answer { IfOk result (λ r. IsAnswer (Some command.OplockBreak) r.0) }
{
    match held {
        Break::Oplock(level, id) => {
            let Some(number) = open_named(core, state, conn, id) else {
                return Ok(failed(alloc, SmbStatus::FileClosed));
            };
            let done = ack_oplock(alloc, state, core, level, number)?;
            Ok(done)
        }
        Break::Lease(lease) => Ok(ack_lease(alloc, state, core, client, &lease)?),
    }
}

/// An acknowledgement of a break (MS-SMB2 3.3.5.22.1): in a session, of an open under the connection, or of a lease.
#[tactic(auto, unfolding(crate::specs::Files::acknowledge), using(xl_plan::proofs::BudgetLaws::leaves_self))]
pub(crate) fn acknowledge(
    alloc: Global,
    state: &SmbState,
    core: &mut Core,
    conn: u64,
    client: &[u8; 16],
    head: &SmbHead,
    held: Break,
) -> Result<Done, AllocError>
    requires ready { IsReady 0 core.old }
    ensures done { (n : ℕ) → IfOk result (λ r. carried n core.old state.now (acknowledge core.old state.now conn client.now head.now held) ≡ (r.0, r.1, state.now, core.new)) }
    ensures leaves { OnOk result (Leaves 0 core.old core.new) }
    ensures quiet { OnOk result (IsQuiet core.old core.new) }
    ensures answer { IfOk result (λ r. IsAnswer (Some command.OplockBreak) r.0) }
{
    let Some(_session) = session_named(core, state, conn, head.session_id) else {
        return Ok(failed(alloc, SmbStatus::UserSessionDeleted));
    };
    let done = break_by(alloc, state, core, conn, client, held)?;
    Ok(done)
}
