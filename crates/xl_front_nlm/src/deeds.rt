//! What is done to the core.
ghost use Rattle.std.specs.Prelude.{◌≡◌, ℕ, None, IfOk, OnOk};
ghost use Rattle.xl_core.specs.Askers.{IsFit};
ghost use Rattle.xl_core.specs.Decide.{ask};
ghost use Rattle.xl_core.specs.Deeds.{given, IsFitDeed};
ghost use Rattle.xl_core.specs.State.{MayBe};
ghost use Rattle.xl_front_nlm.specs.Plans.{shown_deed};
ghost use Rattle.xl_plan.specs.Budgets.{IsAskOf};
ghost use Rattle.xl_plan.specs.Keepers.{IsQuiet, HandsTo};
ghost use Rattle.xl_front_nlm.specs.Short.{IsShort, IsReady, Leaves};

use crate::plan::Deed;
use std::alloc::{AllocError, Global};
use xl_base::{Keeper, Party, Protocol, Sequence};
use xl_core::{Answer, Ask, Core, Effect};
use xl_wait::Rooms;

/// Asks the core, if so much room is left in the tables of the fronts.
pub(crate) fn asked<K: Keeper>(
    alloc: Global,
    core: &mut Core,
    keeper: &mut K,
    left: &Rooms,
    request: Ask,
) -> Result<(Answer, Sequence<Effect>), AllocError>
    requires fit { IsFit request }
    requires small { IsAskOf IsShort request }
    requires ready { IsReady 0 core.old }
    ensures state { (n : ℕ) → IfOk result (λ r. MayBe n core.new → ask n left.now core.old request ≡ (r.0, r.1, core.new)) }
    ensures leaves { OnOk result (Leaves 2 core.old core.new) }
    ensures keeper { OnOk result (HandsTo K.held K.given K.faults K.left core.old core.new keeper.old keeper.new) }
{
    let (answer, effects) = core.ask(alloc, keeper, &request, left)?;
    Ok((answer, effects))
}

/// Does a deed, and gives what the core told of.
pub(crate) fn carry_out(
    alloc: Global,
    core: &mut Core,
    deed: Deed,
) -> Result<Sequence<Effect>, AllocError>
    requires fit { IsFitDeed core.old (shown_deed deed) }
    requires ready { IsReady 0 core.old }
    ensures done { (n : ℕ) → IfOk result (λ effects. given n core.old (shown_deed deed) ≡ (None, effects, core.new)) }
    ensures leaves { OnOk result (Leaves 2 core.old core.new) }
    ensures quiet { OnOk result (IsQuiet core.old core.new) }
{
    match deed {
        Deed::GivesBack(claim) => Ok(core.give_back(alloc, &claim)),
        Deed::Cancels(waiter) => {
            let effects = core.cancel(alloc, waiter)?;
            Ok(effects)
        }
        Deed::Ends(number) => {
            let effects = core.end_party(alloc, Party::Name(Protocol::Nlm, number))?;
            Ok(effects)
        }
    }
}
