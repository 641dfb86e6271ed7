//! Locks.
ghost use Rattle.std.specs.Prelude.{◌≡◌, ℕ, ◌≤◌, None, length, IfOk, OnOk};
ghost use Rattle.xl_plan.specs.Keepers.{HandsTo};
ghost use Rattle.xl_core.specs.Decide.{ask};
ghost use Rattle.xl_core.specs.State.{MayBe};
ghost use Rattle.xl_smb_locks.specs.Elements.{lock_fault};
ghost use Rattle.xl_smb_locks.specs.Locks.{lock_ask, lock_done};
ghost use Rattle.xl_smb_locks.specs.Short.{IsOpenAsk, IsReady, Leaves};
ghost use Rattle.xl_smb_locks.specs.Statuses.{comes_to};
ghost use Rattle.xl_wait.specs.Waiting.{no_rows};

use crate::asks::lock_ask;
use crate::status::SmbStatus;
use std::alloc::{AllocError, Global};
use xl_base::{Keeper, Sequence};
use xl_core::{Answer, Ask, Core, Effect};
use xl_smb::LockElement;
use xl_smb_state::Open;
use xl_wait::{NO_ROWS, Rooms};

/// What a LOCK comes to, or the ask of a CREATE.
#[derive(Clone, Copy)]
pub enum Locking {
    /// All is done.
    Done,
    /// It failed.
    Failed(SmbStatus),
    /// It waits under this number.
    Waits(u32),
}

/// What an ask comes to by the core's answer: it fails with this status if something is against it for good, and else for
/// want of room (MS-ERREF 2.3).
pub fn comes_to(conflict: SmbStatus, answer: &Answer) -> Locking
    ensures { result ≡ comes_to conflict answer.now }
{
    match answer {
        Answer::Granted(_) => Locking::Done,
        Answer::Queued(id) => Locking::Waits(*id),
        Answer::Conflict(_) => Locking::Failed(conflict),
        Answer::Recall(_)
        | Answer::Grace(_)
        | Answer::NoGrace(_)
        | Answer::NotRecorded
        | Answer::Full(_)
        | Answer::NotHeld
        | Answer::StoreFailed => Locking::Failed(SmbStatus::InsufficientResources),
    }
}

/// Asks the core for an open, if so much room is left in the tables of the fronts: it waits while grace runs. At least
/// 65,536 numbers must be left to give out.
pub fn asked<K: Keeper>(
    alloc: Global,
    core: &mut Core,
    keeper: &mut K,
    left: &Rooms,
    request: Ask,
) -> Result<(Answer, Sequence<Effect>), AllocError>
    requires ready { IsReady 2 core.old }
    requires unnamed { IsOpenAsk request }
    ensures state { (n : ℕ) → IfOk result (λ r. MayBe n core.new → ask n left.now core.old request ≡ (r.0, r.1, core.new)) }
    ensures leaves { OnOk result (Leaves 2 core.old core.new) }
    ensures keeper { OnOk result (HandsTo K.held K.given K.faults K.left core.old core.new keeper.old keeper.new) }
{
    let (answer, effects) = core.ask(alloc, keeper, &request, left)?;
    Ok((answer, effects))
}

/// Locks all of these ranges of an open of a file, or none (MS-SMB2 3.3.5.14.2, MS-FSA 2.1.5.8). If something
/// stands against one for good, it waits if it may, and is answered by this connection; else it is LOCK_NOT_GRANTED. If
/// a cache keeps the first off all of them wait for the answer to its break. While grace runs all of them wait for its end,
/// and no break begins for them. If a limit is passed it is INSUFFICIENT_RESOURCES. The breaks that begin for it come first,
/// and are told of. One that waits does so under a number that is given out to it behind those of their calls.
pub fn lock<K: Keeper>(
    alloc: Global,
    core: &mut Core,
    keeper: &mut K,
    conn: u64,
    number: u32,
    row: &Open,
    elements: &[LockElement],
) -> Result<(Locking, Sequence<Effect>), AllocError>
    requires ready { IsReady 2 core.old }
    requires sound { lock_fault elements.now ≡ None }
    requires some { 1 ≤ length elements.now }
    ensures state { (n : ℕ) → IfOk result (λ r. MayBe n core.new → lock_done (ask n no_rows core.old (lock_ask conn number row.now elements.now)) ≡ (r.0, r.1, core.new)) }
    ensures leaves { OnOk result (Leaves 2 core.old core.new) }
    ensures keeper { OnOk result (HandsTo K.held K.given K.faults K.left core.old core.new keeper.old keeper.new) }
{
    let request = lock_ask(alloc, conn, number, row, elements)?;
    let (answer, effects) = asked(alloc, core, keeper, &NO_ROWS, request)?;
    let told = comes_to(SmbStatus::LockNotGranted, &answer);
    Ok((told, effects))
}
