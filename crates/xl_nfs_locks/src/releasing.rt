//! RELEASE_LOCKOWNER (RFC 7530 16.37).
ghost use Rattle.std.specs.Prelude.{◌≡◌, ℕ, [], IfOk, OnOk, option_copied};
ghost use Rattle.xl_nfs.specs.Basics.{shown_owner};
ghost use Rattle.xl_nfs_locks.specs.Releases.{holds_any, holds_by, release, release_of, released};
ghost use Rattle.xl_nfs_opens.specs.Opens.{client_in};
ghost use Rattle.xl_nfs_opens.specs.Plans.{carried};
ghost use Rattle.xl_plan.specs.Budgets.{IsReady};
ghost use Rattle.xl_plan.specs.Keepers.{IsQuiet};
ghost use Rattle.xl_nfs_opens.specs.Short.{Leaves};

use std::alloc::{AllocError, Global};
use xl_base::{Owner, Protocol, Sequence};
use xl_core::{Core, number_in};
use xl_names::Name;
use xl_nfs::{NfsStatus, Owner as LockOwner};
use xl_nfs_opens::{Done, client_in, ended_as, renew_for};
use xl_nfs_state::{NfsState, OwnerKind, OwnerNamed};

fn holds_by(core: &Core, number: Option<u32>) -> bool
    ensures { result ≡ holds_by core.now number }
{
    match number {
        Some(number) => core.table().holds_range(Owner::Name(Protocol::Nfs, number)),
        None => false,
    }
}

/// Whether the lock owner of this client holds a range, on any file.
#[tactic(auto, unfolding(crate::specs::Releases::holds_any))]
fn holds_any(alloc: Global, core: &Core, id: &[u8], owner: &[u8]) -> Result<bool, AllocError>
    ensures { IfOk result (λ holds. holds ≡ holds_any core.now id.now owner.now) }
{
    let id = Sequence::from_slice(alloc, id)?;
    let owner = Sequence::from_slice(alloc, owner)?;
    let number = core.names().find(&Name::NfsRange(id, owner));
    Ok(holds_by(core, number))
}

/// Forgets the lock owner: its stateids, its seqid and its kept result.
#[tactic(auto, unfolding(crate::specs::Releases::released))]
fn forget(state: &mut NfsState, client: u32, owner: &[u8])
    ensures { state.new ≡ released client owner.now state.old }
{
    let named = OwnerNamed {
        client,
        kind: OwnerKind::Lock,
        owner,
    };
    if let Some(row) = state.find_owner_named(named) {
        let number = row.number;
        state.forget_owner(number);
    }
}

/// RELEASE_LOCKOWNER, once the lease of the client is renewed.
fn release_of(
    alloc: Global,
    state: &mut NfsState,
    core: &Core,
    current: Option<u32>,
    args: &LockOwner,
) -> Result<Done, AllocError>
    ensures { (n : ℕ) → IfOk result (λ r. carried n core.now state.old (release_of core.now state.old current args.now.owner.now (client_in core.now state.old args.now.clientid)) ≡ (r.0, r.1, r.2, state.new, core.now)) }
{
    let Some(row) = client_in(state, core, args.clientid) else {
        return Ok(ended_as(alloc, NfsStatus::StaleClientId, current));
    };
    if holds_any(alloc, core, row.id.as_slice(), args.owner)? {
        return Ok(ended_as(alloc, NfsStatus::LocksHeld, current));
    }
    let client = row.number;
    forget(state, client, args.owner);
    Ok(ended_as(alloc, NfsStatus::Ok, current))
}

/// RELEASE_LOCKOWNER: what is known of a lock owner goes, if it holds no range. LOCKS_HELD if it does, STALE_CLIENTID
/// if its client is none.
#[tactic(auto, unfolding(crate::specs::Releases::release), using(xl_plan::proofs::BudgetLaws::leaves_then, xl_plan::proofs::BudgetLaws::leaves_self))]
pub fn release(
    alloc: Global,
    state: &mut NfsState,
    core: &mut Core,
    current: Option<u32>,
    args: &LockOwner,
) -> Result<Done, AllocError>
    requires ready { IsReady 0 core.old }
    ensures done { (n : ℕ) → IfOk result (λ r. carried n core.old state.old (release core.old state.old current (shown_owner args.now)) ≡ (r.0, r.1, r.2, state.new, core.new)) }
    ensures leaves { OnOk result (Leaves 0 core.old core.new) }
    ensures quiet { OnOk result (IsQuiet core.old core.new) }
{
    let client = number_in(core, args.clientid);
    renew_for(alloc, state, core, client)?;
    let done = release_of(alloc, state, core, current, args)?;
    Ok(done)
}
