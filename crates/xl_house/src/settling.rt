//! Whoever waits is served when it isn't held up any more.
ghost use Rattle.std.specs.Prelude.{◌≡◌, ℕ, OnOk};
ghost use Rattle.xl_core.specs.Good.{IsSettled};
ghost use Rattle.xl_core.specs.State.{MayBe};
ghost use Rattle.xl_house.specs.Telling.{behind, settled};
ghost use Rattle.xl_front_nlm.specs.Short.{IsReady, Leaves};
ghost use Rattle.xl_plan.specs.Keepers.{HandsTo};

use crate::layers::Layers;
use crate::outs::show_all;
use std::alloc::{AllocError, Global};
use xl_base::{Exports, Keeper, Out, Sequence};

/// Repeats turns until no waiter has one, and adds what they send.
pub(crate) fn settle<K: Keeper>(
    alloc: Global,
    exports: &Exports,
    layers: &mut Layers,
    keeper: &mut K,
    outs: &mut Sequence<Out>,
) -> Result<(), AllocError>
    requires ready { IsReady 0 layers.old.core }
    ensures state { (n : ℕ) → OnOk result (MayBe n layers.new.core → behind outs.old (settled n exports.now layers.old.front layers.old.core) ≡ (outs.new, layers.new.front, layers.new.core)) }
    ensures leaves { OnOk result (Leaves 0 layers.old.core layers.new.core) }
    ensures settled { OnOk result (IsSettled layers.new.core) }
    ensures keeper { OnOk result (HandsTo K.held K.given K.faults K.left layers.old.core layers.new.core keeper.old keeper.new) }
{
    'turns: while let Some(effects) = layers.core.settle(alloc, keeper, &layers.front.rooms())? {
        show_all(alloc, exports, layers, effects.as_slice(), outs)?;
    }
    Ok(())
}
