//! The locks under an open, which end with it.
ghost use Rattle.std.specs.Prelude.{◌≡◌, ℕ, [], IfOk, OnOk};
ghost use Rattle.xl_core.specs.Deeds.{all_done, all_told_of};
ghost use Rattle.xl_nfs_opens.specs.Closing.{ends_locks, gives_up, lock_owner, locks_under};
ghost use Rattle.xl_plan.specs.Budgets.{IsReady};
ghost use Rattle.xl_plan.specs.Keepers.{HandsTo};
ghost use Rattle.xl_nfs_opens.specs.Short.{Leaves};

use crate::asks::unlock_ask;
use crate::closing::opener_by;
use crate::opener::Opener;
use crate::shares::asked;
use std::alloc::{AllocError, Global};
use xl_base::Keeper;
use xl_core::Core;
use xl_nfs_state::{Holder, NfsState, StateidRow, Whose};

/// The owner of locks.
fn lock_owner(holder: Holder) -> u64
    ensures { result ≡ lock_owner holder }
{
    match holder {
        Holder::Lock { owner, .. } => owner,
        _ => 0,
    }
}

/// A lock owner gives up all bytes of the file.
fn give_up<K: Keeper>(
    alloc: Global,
    core: &mut Core,
    keeper: &mut K,
    file: u32,
    owner: &Option<Opener>,
) -> Result<(), AllocError>
    requires ready { IsReady 2 core.old }
    ensures done { (n : ℕ) → OnOk result (all_done n core.old (gives_up file owner.now) ≡ core.new) }
    ensures told { (n : ℕ) → OnOk result (all_told_of n core.old (gives_up file owner.now) ≡ []) }
    ensures leaves { OnOk result (Leaves 0 core.old core.new) }
    ensures keeper { OnOk result (HandsTo K.held K.given K.faults K.left core.old core.new keeper.old keeper.new) }
{
    let Some(opener) = owner else {
        return Ok(());
    };
    let request = unlock_ask(alloc, opener, file, 0, u64::MAX)?;
    let _said = asked(alloc, core, keeper, request)?;
    Ok(())
}

/// So does each owner of these locks, which are under the open.
fn end_each<K: Keeper>(
    alloc: Global,
    state: &NfsState,
    core: &mut Core,
    keeper: &mut K,
    above: &StateidRow,
    locks: &[StateidRow],
) -> Result<(), AllocError>
    requires ready { IsReady 2 core.old }
    ensures done { (n : ℕ) → OnOk result (all_done n core.old (ends_locks state.now above.now locks.now) ≡ core.new) }
    ensures told { (n : ℕ) → OnOk result (all_told_of n core.old (ends_locks state.now above.now locks.now) ≡ []) }
    ensures leaves { OnOk result (Leaves 0 core.old core.new) }
    ensures keeper { OnOk result (HandsTo K.held K.given K.faults K.left core.old core.new keeper.old keeper.new) }
{
    let Some((lock, rest)) = locks.split_first() else {
        return Ok(());
    };
    let owner = opener_by(alloc, state, above.client, lock_owner(lock.holder))?;
    give_up(alloc, core, keeper, above.file, &owner)?;
    end_each(alloc, state, core, keeper, above, rest)?;
    Ok(())
}

/// The locks under an open.
fn locks_under(alloc: Global, state: &NfsState, number: u64) -> Result<Vec<StateidRow>, AllocError>
    ensures { IfOk result (λ rows. rows.items ≡ locks_under state.now number) }
{
    match state.list_stateids(alloc, Whose::Under(number)) {
        Ok(rows) => Ok(rows),
        Err(_) => Err(AllocError),
    }
}

/// The owners of the locks under an open give up all bytes of its file.
pub(crate) fn end_locks<K: Keeper>(
    alloc: Global,
    state: &NfsState,
    core: &mut Core,
    keeper: &mut K,
    above: &StateidRow,
) -> Result<(), AllocError>
    requires ready { IsReady 2 core.old }
    ensures done { (n : ℕ) → OnOk result (all_done n core.old (ends_locks state.now above.now (locks_under state.now above.now.number)) ≡ core.new) }
    ensures told { (n : ℕ) → OnOk result (all_told_of n core.old (ends_locks state.now above.now (locks_under state.now above.now.number)) ≡ []) }
    ensures leaves { OnOk result (Leaves 0 core.old core.new) }
    ensures keeper { OnOk result (HandsTo K.held K.given K.faults K.left core.old core.new keeper.old keeper.new) }
{
    let locks = locks_under(alloc, state, above.number)?;
    end_each(alloc, state, core, keeper, above, &locks)?;
    Ok(())
}
