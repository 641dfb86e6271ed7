//! RENEW (RFC 7530 16.28).
ghost use Rattle.std.specs.Prelude.{◌≡◌, ℕ, IfOk, OnOk};
ghost use Rattle.xl_front_nfs.specs.Clients.{renew};
ghost use Rattle.xl_nfs_opens.specs.Plans.{carried};
ghost use Rattle.xl_plan.specs.Budgets.{IsReady};
ghost use Rattle.xl_plan.specs.Keepers.{IsQuiet};
ghost use Rattle.xl_nfs_opens.specs.Short.{Leaves};

use std::alloc::{AllocError, Global};
use xl_base::Sequence;
use xl_core::{Core, number_in};
use xl_nfs::NfsStatus;
use xl_nfs_opens::{Done, Told, ended_as, renewed};
use xl_nfs_state::NfsState;

/// RENEW.
#[tactic(auto, unfolding(crate::specs::Clients::renew), using(xl_plan::proofs::BudgetLaws::leaves_self, crate::proofs::ClientLaws::renew_done))]
pub(crate) fn renew(
    alloc: Global,
    state: &NfsState,
    core: &mut Core,
    current: Option<u32>,
    clientid: u64,
) -> Result<Done, AllocError>
    requires ready { IsReady 0 core.old }
    ensures done { (n : ℕ) → IfOk result (λ r. carried n core.old state.now (renew core.old state.now current clientid) ≡ (r.0, r.1, r.2, state.now, core.new)) }
    ensures leaves { OnOk result (Leaves 0 core.old core.new) }
    ensures quiet { OnOk result (IsQuiet core.old core.new) }
{
    let Some(number) = number_in(core, clientid) else {
        return Ok(ended_as(alloc, NfsStatus::StaleClientId, current));
    };
    let Some(row) = state.find_client(number, true) else {
        return Ok(ended_as(alloc, NfsStatus::StaleClientId, current));
    };
    renewed(alloc, core, row.id.as_slice())?;
    Ok((Told::Ended(NfsStatus::Ok), current, Sequence::new(alloc)))
}
