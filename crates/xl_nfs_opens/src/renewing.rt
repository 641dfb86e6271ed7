//! Whose leases an operation renews (RFC 7530 9.5), and the numbers in a stateid.
ghost use Rattle.std.specs.Prelude.{◌≡◌, ℕ, [], Some, OnOk};
ghost use Rattle.xl_core.specs.Deeds.{all_done, all_told_of};
ghost use Rattle.xl_nfs_opens.specs.Renewing.{number_of, renewals, same_stateid, state_client, stateid_of};
ghost use Rattle.xl_plan.specs.Budgets.{IsReady};
ghost use Rattle.xl_plan.specs.Keepers.{IsQuiet};
ghost use Rattle.xl_nfs_opens.specs.Short.{Leaves};

use crate::leases::renewed;
use std::alloc::{AllocError, Global};
use xl_core::Core;
use xl_nfs::Stateid;
use xl_nfs_state::NfsState;

/// The seqid of a stateid that is new.
pub const FIRST_SEQID: u32 = 1;

/// The stateid of this number and seqid.
#[tactic(auto, unfolding(crate::specs::Renewing::stateid_of))]
pub fn stateid_of(core: &Core, number: u64, seqid: u32) -> Stateid
    ensures { result ≡ stateid_of core.now number seqid }
{
    let [a, b, c, d] = core.stable().epoch().to_be_bytes();
    let [e, f, g, h, i, j, k, l] = number.to_be_bytes();
    Stateid {
        seqid,
        other: [a, b, c, d, e, f, g, h, i, j, k, l],
    }
}

/// Whether the two are one stateid, seqids and all.
pub(crate) fn same_stateid(a: &Stateid, b: &Stateid) -> bool
    ensures { result ≡ same_stateid a.now b.now }
{
    a.seqid == b.seqid && a.other == b.other
}

/// The number in a stateid, if it is of this start.
#[tactic(auto, unfolding(crate::specs::Renewing::number_of))]
pub fn number_of(core: &Core, other: &[u8; 12]) -> Option<u64>
    ensures { result ≡ number_of core.now other.now }
{
    let [a, b, c, d, e, f, g, h, i, j, k, l] = *other;
    if u32::from_be_bytes([a, b, c, d]) == core.stable().epoch() {
        Some(u64::from_be_bytes([e, f, g, h, i, j, k, l]))
    } else {
        None
    }
}

/// The number of the client that a live stateid names.
pub fn state_client(state: &NfsState, core: &Core, stateid: &Stateid) -> Option<u32>
    ensures { result ≡ state_client core.now state.now stateid.now }
{
    let number = number_of(core, &stateid.other)?;
    match state.find_stateid(number) {
        Some(row) if !row.standing.closed => Some(row.client),
        _ => None,
    }
}

/// Renews the lease of the client of this number, if it is confirmed.
#[tactic(auto, using(xl_plan::proofs::BudgetLaws::leaves_self, crate::proofs::RenewLaws::renewals_done, crate::proofs::RenewLaws::renewals_told))]
pub fn renew_for(
    alloc: Global,
    state: &NfsState,
    core: &mut Core,
    client: Option<u32>,
) -> Result<(), AllocError>
    requires ready { IsReady 0 core.old }
    ensures done { (n : ℕ) → OnOk result (all_done n core.old (renewals state.now client) ≡ core.new) }
    ensures told { (n : ℕ) → OnOk result (all_told_of n core.old (renewals state.now client) ≡ []) }
    ensures leaves { OnOk result (Leaves 0 core.old core.new) }
    ensures quiet { OnOk result (IsQuiet core.old core.new) }
{
    let Some(number) = client else {
        return Ok(());
    };
    let Some(row) = state.find_client(number, true) else {
        return Ok(());
    };
    renewed(alloc, core, row.id.as_slice())?;
    Ok(())
}
