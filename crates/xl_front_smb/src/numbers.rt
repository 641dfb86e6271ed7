//! Numbers that are given out.
ghost use Rattle.std.specs.Prelude.{◌≡◌, ◌+◌};
ghost use Rattle.xl_core.specs.State.{drawn};
ghost use Rattle.xl_plan.specs.Keepers.{IsQuiet};
ghost use Rattle.xl_front_smb.specs.Short.{IsReady, Leaves};

use xl_core::Core;

/// Gives out the next number.
#[tactic(auto, using(xl_plan::proofs::BudgetLaws::drawn_leaves, xl_plan::proofs::BudgetLaws::drawn_number, xl_plan::proofs::BudgetLaws::drawn_stable))]
pub(crate) fn drawn(core: &mut Core) -> u32
    requires ready { IsReady 1 core.old }
    ensures state { core.new ≡ drawn core.old }
    ensures number { result ≡ core.old.counter + 1 }
    ensures stable { core.new.stable ≡ core.old.stable }
    ensures leaves { Leaves 1 core.old core.new }
    ensures quiet { IsQuiet core.old core.new }
{
    core.draw()
}
