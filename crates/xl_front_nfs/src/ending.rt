//! Clients that end.
ghost use Rattle.std.specs.Prelude.{◌≡◌, ℕ, OnOk, IfOk};
ghost use Rattle.xl_names.specs.declared.name.Name.TheVariants.{NfsParty};
ghost use Rattle.xl_core.specs.Askers.{party_named};
ghost use Rattle.xl_core.specs.Deeds.{all_done, all_told_of};
ghost use Rattle.xl_core.specs.Settle.{end_party};
ghost use Rattle.xl_front_nfs.specs.Clients.{ends};
ghost use Rattle.xl_plan.specs.Budgets.{IsReady};
ghost use Rattle.xl_plan.specs.Keepers.{IsQuiet};
ghost use Rattle.xl_nfs_opens.specs.Short.{Leaves};

use std::alloc::{AllocError, Global};
use xl_base::{Party, Sequence};
use xl_core::{Core, Effect};
use xl_nfs_opens::party_of;

/// Takes out all claims and waiters of a party.
#[tactic(auto, using(xl_plan::proofs::BudgetLaws::end_leaves))]
fn end_party(alloc: Global, core: &mut Core, party: Party) -> Result<Sequence<Effect>, AllocError>
    requires ready { IsReady 0 core.old }
    ensures state { IfOk result (λ effects. end_party core.old party ≡ (effects, core.new)) }
    ensures leaves { OnOk result (Leaves 0 core.old core.new) }
    ensures quiet { OnOk result (IsQuiet core.old core.new) }
{
    let effects = core.end_party(alloc, party)?;
    Ok(effects)
}

/// Takes out all claims and waiters of the client of this id string.
#[tactic(auto, using(xl_plan::proofs::BudgetLaws::leaves_self, crate::proofs::EndingLaws::end_told, crate::proofs::EndingLaws::end_done))]
pub(crate) fn ended(
    alloc: Global,
    core: &mut Core,
    id: &[u8],
) -> Result<Sequence<Effect>, AllocError>
    requires ready { IsReady 0 core.old }
    ensures told { (n : ℕ) → IfOk result (λ effects. all_told_of n core.old (ends (party_named core.old.names (NfsParty id.now))) ≡ effects) }
    ensures state { (n : ℕ) → OnOk result (all_done n core.old (ends (party_named core.old.names (NfsParty id.now))) ≡ core.new) }
    ensures leaves { OnOk result (Leaves 0 core.old core.new) }
    ensures quiet { OnOk result (IsQuiet core.old core.new) }
{
    match party_of(alloc, core, id)? {
        Some(party) => end_party(alloc, core, party),
        None => Ok(Sequence::new(alloc)),
    }
}
