//! LOCK (RFC 7530 16.10).
ghost use Rattle.std.specs.Prelude.{◌≡◌, ℕ, IfOk, OnOk};
ghost use Rattle.xl_core.specs.State.{MayBe};
ghost use Rattle.xl_nfs.specs.Locks.{shown_lock_args};
ghost use Rattle.xl_nfs_locks.specs.FirstLocks.{lock};
ghost use Rattle.xl_nfs_opens.specs.Plans.{carried};
ghost use Rattle.xl_plan.specs.Budgets.{IsReady};
ghost use Rattle.xl_plan.specs.Keepers.{HandsTo};
ghost use Rattle.xl_nfs_opens.specs.Short.{Leaves};

use crate::joining::lock_new;
use crate::locking::lock_known;
use std::alloc::{AllocError, Global};
use xl_base::Keeper;
use xl_core::Core;
use xl_nfs::{LockArgs, Locker};
use xl_nfs_opens::Done;
use xl_nfs_state::NfsState;

/// LOCK: the bytes of the range are the lock owner's, in this mode, and count with its seqid; if it gives the stateid
/// of an open, the open's owner counts too. DENIED with a lock that stands against it; INVAL, OPENMODE, RESOURCE, and
/// BAD_STATEID, OLD_STATEID, STALE_STATEID and BAD_SEQID by the stateid and the seqids. The name of a client that the
/// record lacks is stored before the grant: SERVERFAULT if that fails. GRACE while grace runs (RFC 7530 9.6.2), except a
/// reclaim, which is RECLAIM_BAD if the record lacks the client and RECLAIM_CONFLICT if a lock stands against it; out of
/// grace a reclaim is NO_GRACE.
#[tactic(auto, unfolding(crate::specs::FirstLocks::lock), using(xl_plan::proofs::BudgetLaws::leaves_more, xl_plan::proofs::BudgetLaws::ready_less))]
pub fn lock<K: Keeper>(
    alloc: Global,
    state: &mut NfsState,
    core: &mut Core,
    keeper: &mut K,
    current: Option<u32>,
    args: &LockArgs,
) -> Result<Done, AllocError>
    requires ready { IsReady 4 core.old }
    ensures done { (n : ℕ) → IfOk result (λ r. MayBe n core.new → carried n core.old state.old (lock core.old state.old current (shown_lock_args args.now)) ≡ (r.0, r.1, r.2, state.new, core.new)) }
    ensures leaves { OnOk result (Leaves 4 core.old core.new) }
    ensures keeper { OnOk result (HandsTo K.held K.given K.faults K.left core.old core.new keeper.old keeper.new) }
{
    match &args.locker {
        Locker::New(given) => {
            let done = lock_new(alloc, state, core, keeper, current, args, given)?;
            Ok(done)
        }
        Locker::Known(known) => {
            let done = lock_known(alloc, state, core, keeper, current, args, known)?;
            Ok(done)
        }
    }
}
