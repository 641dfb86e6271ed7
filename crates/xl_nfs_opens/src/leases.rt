//! Leases.
ghost use Rattle.std.specs.Prelude.{◌≡◌, ℕ, ◌+◌, [], ◌∷◌, OnOk};
ghost use Rattle.xl_core.specs.Deeds.{all_done, all_told_of, Renews};
ghost use Rattle.xl_core.specs.State.{drawn};
ghost use Rattle.xl_plan.specs.Budgets.{IsReady};
ghost use Rattle.xl_plan.specs.Keepers.{IsQuiet};
ghost use Rattle.xl_nfs_opens.specs.Short.{Leaves};

use std::alloc::{AllocError, Global};
use xl_core::Core;

/// Renews the lease of the client of this id string.
#[tactic(auto, unfolding(xl_core::specs::Ticks::renew))]
pub fn renewed(alloc: Global, core: &mut Core, id: &[u8]) -> Result<(), AllocError>
    requires ready { IsReady 0 core.old }
    ensures state { (n : ℕ) → OnOk result (all_done n core.old (Renews id.now ∷ []) ≡ core.new) }
    ensures told { (n : ℕ) → all_told_of n core.old (Renews id.now ∷ []) ≡ [] }
    ensures leaves { OnOk result (Leaves 0 core.old core.new) }
    ensures quiet { OnOk result (IsQuiet core.old core.new) }
{
    core.renew(alloc, id)?;
    Ok(())
}

/// Gives out the next number.
#[tactic(auto, using(xl_plan::proofs::BudgetLaws::ready_numbers, xl_plan::proofs::BudgetLaws::drawn_leaves, xl_plan::proofs::BudgetLaws::drawn_number, xl_plan::proofs::BudgetLaws::drawn_stable))]
pub fn drawn(core: &mut Core) -> u32
    requires ready { IsReady 0 core.old }
    ensures state { core.new ≡ drawn core.old }
    ensures number { result ≡ core.old.counter + 1 }
    ensures counter { core.new.counter ≡ core.old.counter + 1 }
    ensures stable { core.new.stable ≡ core.old.stable }
    ensures leaves { Leaves 1 core.old core.new }
    ensures quiet { IsQuiet core.old core.new }
{
    core.draw()
}
