//! Unlocks.
ghost use Rattle.std.specs.Prelude.{◌≡◌, ℕ, false, [], IfOk, OnOk};
ghost use Rattle.xl_plan.specs.Keepers.{HandsTo};
ghost use Rattle.xl_core.specs.Decide.{ask};
ghost use Rattle.xl_core.specs.Deeds.{all_done};
ghost use Rattle.xl_core.specs.State.{MayBe};
ghost use Rattle.xl_smb_locks.specs.Elements.{wraps};
ghost use Rattle.xl_smb_locks.specs.Locks.{is_granted, unlock_ask, unlocks};
ghost use Rattle.xl_smb_locks.specs.Short.{IsReady, Leaves};
ghost use Rattle.xl_wait.specs.Waiting.{no_rows};

use crate::asks::unlock_ask;
use crate::elements::unlock_fault;
use crate::locking::Locking;
use crate::status::SmbStatus;
use std::alloc::{AllocError, Global};
use xl_base::Keeper;
use xl_core::{Answer, Core};
use xl_smb::LockElement;
use xl_smb_state::Open;
use xl_wait::NO_ROWS;

/// Unlocks one range of an open.
fn unlock_one<K: Keeper>(
    alloc: Global,
    core: &mut Core,
    keeper: &mut K,
    number: u32,
    row: &Open,
    element: &LockElement,
) -> Result<Answer, AllocError>
    requires ready { IsReady 0 core.old }
    requires sound { wraps element.now ≡ false }
    ensures state { IfOk result (λ answer. ask 0 no_rows core.old (unlock_ask number row.now element.now) ≡ (answer, [], core.new)) }
    ensures leaves { OnOk result (Leaves 0 core.old core.new) }
    ensures keeper { OnOk result (HandsTo K.held K.given K.faults K.left core.old core.new keeper.old keeper.new) }
{
    let request = unlock_ask(alloc, number, row, element);
    let (answer, _effects) = core.ask(alloc, keeper, &request, &NO_ROWS)?;
    Ok(answer)
}

/// Whether what was asked for is granted.
fn is_granted(answer: &Answer) -> bool
    ensures { result ≡ is_granted answer.now }
{
    matches!(answer, Answer::Granted(_))
}

/// Unlocks these ranges of an open of a file, in order, up to the first that fails; those before it stay unlocked
/// (MS-SMB2 3.3.5.14.1). It fails if `unlock_fault` says so, and with RANGE_NOT_LOCKED exactly if the open has no
/// lock of just this range. At least 65,536 numbers must be left to give out.
#[tactic(auto, using(xl_plan::proofs::BudgetLaws::leaves_self, crate::proofs::LeaveLaws::leaves_on, crate::proofs::LeaveLaws::ready_on, crate::proofs::FitLaws::unlock_within, crate::proofs::UnlockLaws::come_self, crate::proofs::UnlockLaws::one_more, crate::proofs::UnlockLaws::refused_at, crate::proofs::UnlockLaws::missed_at))]
pub fn unlock<K: Keeper>(
    alloc: Global,
    core: &mut Core,
    keeper: &mut K,
    number: u32,
    row: &Open,
    elements: &[LockElement],
) -> Result<Locking, AllocError>
    requires ready { IsReady 0 core.old }
    ensures told { IfOk result (λ told. told ≡ (unlocks core.old number row.now elements.now).1) }
    ensures state { (n : ℕ) → OnOk result (core.new ≡ all_done n core.old (unlocks core.old number row.now elements.now).0) }
    ensures leaves { OnOk result (Leaves 0 core.old core.new) }
    ensures keeper { OnOk result (HandsTo K.held K.given K.faults K.left core.old core.new keeper.old keeper.new) }
{
    'elements: for element in elements {
        if let Some(status) = unlock_fault(element) {
            return Ok(Locking::Failed(status));
        }
        let answer = unlock_one(alloc, core, keeper, number, row, element)?;
        if !is_granted(&answer) {
            return Ok(Locking::Failed(SmbStatus::RangeNotLocked));
        }
    }
    Ok(Locking::Done)
}
