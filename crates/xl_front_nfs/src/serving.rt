//! What becomes of an operation.
ghost use Rattle.xl_core.specs.State.{MayBe};
ghost use Rattle.std.specs.Prelude.{◌≡◌, ℕ, IfOk, OnOk};
ghost use Rattle.xl_nfs.specs.Ops.{shown_op};
ghost use Rattle.xl_nfs_opens.specs.Plans.{carried};
ghost use Rattle.xl_plan.specs.Budgets.{IsReady};
ghost use Rattle.xl_plan.specs.Keepers.{HandsTo};
ghost use Rattle.xl_nfs_opens.specs.Short.{Leaves};
ghost use Rattle.xl_front_nfs.specs.Steps.{planned};

use crate::clients::renew;
use crate::confirming::set_client_id_confirm;
use crate::handles::{get_fh, look_up, put_fh, put_root_fh};
use crate::setting::set_client_id;
use std::alloc::{AllocError, Global};
use xl_base::Keeper;
use xl_core::Core;
use xl_nfs::{NfsOp, NfsStatus};
use xl_nfs_locks::{lock, lock_test, release, unlock};
use xl_nfs_opens::{
    Done, Exported, beside, close, deleg_return, ended_as, open_confirm, open_downgrade, open_file,
};
use xl_nfs_state::NfsState;

/// What an operation comes to, if these files are exported.
#[tactic(auto, unfolding(crate::specs::Steps::planned), using(xl_plan::proofs::BudgetLaws::leaves_self, xl_plan::proofs::BudgetLaws::leaves_more, xl_plan::proofs::BudgetLaws::ready_less))]
pub(crate) fn serve<K: Keeper>(
    alloc: Global,
    exported: &Exported,
    state: &mut NfsState,
    core: &mut Core,
    keeper: &mut K,
    current: Option<u32>,
    op: &NfsOp,
) -> Result<Done, AllocError>
    requires ready { IsReady 4 core.old }
    ensures done { (n : ℕ) → IfOk result (λ r. MayBe n core.new → carried n core.old state.old (planned exported.now.files.now exported.now.others core.old state.old current (shown_op op.now)) ≡ (r.0, r.1, r.2, state.new, core.new)) }
    ensures leaves { OnOk result (Leaves 4 core.old core.new) }
    ensures keeper { OnOk result (HandsTo K.held K.given K.faults K.left core.old core.new keeper.old keeper.new) }
{
    match op {
        NfsOp::PutRootFh => Ok(beside(alloc, put_root_fh())),
        NfsOp::PutFh(fh) => Ok(beside(alloc, put_fh(exported.files.len(), current, fh))),
        NfsOp::GetFh => Ok(beside(alloc, get_fh(current))),
        NfsOp::Lookup(name) => Ok(beside(alloc, look_up(exported.files, current, name))),
        NfsOp::SetClientId(args) => {
            let done = set_client_id(alloc, state, core, current, args)?;
            Ok(done)
        }
        NfsOp::SetClientIdConfirm(args) => {
            let done = set_client_id_confirm(alloc, state, core, current, args)?;
            Ok(done)
        }
        NfsOp::Renew(clientid) => {
            let done = renew(alloc, state, core, current, *clientid)?;
            Ok(done)
        }
        NfsOp::Illegal(_) => Ok(ended_as(alloc, NfsStatus::OpIllegal, current)),
        NfsOp::Open(args) => open_file(alloc, exported, state, core, keeper, current, args),
        NfsOp::OpenConfirm(args) => {
            let done = open_confirm(alloc, state, core, current, args)?;
            Ok(done)
        }
        NfsOp::OpenDowngrade(args) => {
            let done = open_downgrade(alloc, state, core, current, args)?;
            Ok(done)
        }
        NfsOp::Close(args) => {
            let done = close(alloc, state, core, keeper, current, args)?;
            Ok(done)
        }
        NfsOp::DelegReturn(stateid) => {
            let done = deleg_return(alloc, state, core, current, stateid)?;
            Ok(done)
        }
        NfsOp::Lock(args) => lock(alloc, state, core, keeper, current, args),
        NfsOp::LockT(args) => {
            let done = lock_test(alloc, state, core, keeper, current, args)?;
            Ok(done)
        }
        NfsOp::LockU(args) => {
            let done = unlock(alloc, state, core, keeper, current, args)?;
            Ok(done)
        }
        NfsOp::ReleaseLockOwner(args) => {
            let done = release(alloc, state, core, current, args)?;
            Ok(done)
        }
        NfsOp::NotSupported(_) => Ok(ended_as(alloc, NfsStatus::NotSupp, current)),
    }
}
