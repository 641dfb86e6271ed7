//! The queue.
ghost use Rattle.std.specs.Prelude.{◌≡◌, ℕ, ◌≤◌, ◌∷◌, ◌++◌, [], length, slice_get, option_copied, IsTrue, ◌↔◌, IfOk, OnOk, OnErr};
ghost use Rattle.xl_base.specs.Limits.{most_waiters};
ghost use Rattle.xl_wait.specs.declared.queue.QueueErr.TheVariants.{NoMemory};

use crate::changing::{take_all_out, take_out};
use crate::files::places_on;
use crate::line::{Line, empty, enter, nth, nth_on, standing};
use crate::listing::list_numbers;
use crate::waiter::Waiter;
use std::alloc::{AllocError, AllocFailed, Global};
use std::marker::Model;
use thiserror::Error;
use xl_base::MOST_WAITERS;

/// Why a waiter could not be entered.
#[derive(Clone, Copy, Debug, Error)]
pub enum QueueErr {
    /// Memory ran out.
    #[error("no memory")]
    NoMemory,
    /// The queue holds so many waiters, and no more.
    #[error("the queue is full at {0} waiters")]
    Full(u32),
}

impl From<AllocError> for QueueErr {
    ghost from_gives = { λ _ e. e ≡ NoMemory };

    fn from(_e: AllocError) -> QueueErr {
        QueueErr::NoMemory
    }
}

impl<T: Drop> From<AllocFailed<T>> for QueueErr {
    ghost from_gives = { λ _ e. e ≡ NoMemory };

    fn from(_e: AllocFailed<T>) -> QueueErr {
        QueueErr::NoMemory
    }
}

/// Those who wait, at most 1,024, in order of arrival. A contract sees their list.
#[derive(Drop)]
pub struct Queue {
    line: Line,
}

impl Model for Queue {
    ghost use Rattle.std.specs.Prelude.{List, ◌≡◌, ◌≤◌, length};
    ghost use Rattle.xl_base.specs.Limits.{most_waiters};
    ghost use Rattle.xl_wait.specs.Lines.{standing, IsLine};
    ghost use Rattle.xl_wait.specs.declared.waiter.Waiter.{Waiter};

    ghost Value = { List Waiter };

    ghost view = { λ q. standing q.line };

    ghost invariant = { λ q. (length (standing q.line) ≤ most_waiters) × IsLine q.line };
}

impl Queue {
    ghost use Rattle.xl_wait.specs.Waiting.{is_waiting, cancelled, without_all, numbers_of, waiting_on, waits_on};

    /// The queue where nobody waits; it takes no memory.
    pub fn new(alloc: Global) -> Queue
        ensures { result ≡ [] }
    {
        Queue { line: empty(alloc) }
    }

    /// The waiters in order of arrival, at most 1,024.
    pub fn waiters(&self) -> &[Waiter]
        ensures waiters { result.now ≡ self.now }
        ensures room { length self.now ≤ most_waiters }
    {
        standing(&self.line)
    }

    /// How many wait.
    pub fn len(&self) -> usize
        ensures { result ≡ length self.now }
    {
        standing(&self.line).len()
    }

    /// Whether nobody waits.
    pub fn is_empty(&self) -> bool
        ensures { IsTrue result ↔ (self.now ≡ []) }
    {
        standing(&self.line).is_empty()
    }

    /// Enters a waiter behind the others. Full comes exactly if 1,024 wait. After an error the queue is as it was.
    pub fn push(&mut self, waiter: Waiter) -> Result<(), QueueErr>
        ensures ok { OnOk result (self.new ≡ self.old ++ waiter ∷ []) }
        ensures full { (n : ℕ) → (result ≡ Err (QueueErr.Full n)) ↔ ((n ≡ most_waiters) × (length self.old ≡ most_waiters)) }
        ensures err { OnErr result (self.new ≡ self.old) }
    {
        if self.len() >= MOST_WAITERS {
            return Err(QueueErr::Full(MOST_WAITERS as u32));
        }
        enter(&mut self.line, waiter)?;
        Ok(())
    }

    /// Takes out the first waiter of this number, and nobody else. False comes exactly if none has it; then the
    /// queue is as it was. It takes no memory.
    pub fn cancel(&mut self, id: u32) -> bool
        ensures waiting { result ≡ is_waiting id self.old }
        ensures after { self.new ≡ cancelled id self.old }
    {
        take_out(&mut self.line, id)
    }

    /// Takes out the waiters of these numbers, which stand in the order of arrival, in one pass, and nobody else. If memory
    /// runs out nothing is known of the queue.
    pub fn cancel_all(&mut self, ids: &[u32]) -> Result<(), AllocError>
        ensures { OnOk result (self.new ≡ without_all ids.now self.old) }
    {
        take_all_out(&mut self.line, ids)
    }

    /// Whether someone waits on this file: whether the first claim that it asks for is there. It takes no memory.
    #[tactic(auto, using(crate::proofs::LineLaws::some_on))]
    pub fn waits_on(&self, file: u32) -> bool
        ensures { result ≡ waits_on file self.now }
    {
        places_on(&self.line.queues, file).len() > 0
    }

    /// The one who waits on this file behind so many others who do; None exactly if no more wait there. It takes no memory.
    pub fn nth_on(&self, file: u32, count: usize) -> Option<&Waiter>
        ensures { option_copied result ≡ slice_get (waiting_on file self.now) count }
    {
        nth_on(&self.line, file, count)
    }

    /// The waiter at this place, counted from 0; None exactly if fewer wait.
    pub fn at(&self, place: usize) -> Option<&Waiter>
        ensures { option_copied result ≡ slice_get self.now place }
    {
        nth(&self.line, place)
    }

    /// The numbers of the waiters that came by this connection, in order.
    pub fn of_conn(&self, alloc: Global, conn: u64) -> Result<Vec<u32>, AllocError>
        ensures { IfOk result (λ v. v.items ≡ numbers_of conn self.now) }
    {
        list_numbers(alloc, standing(&self.line), conn)
    }
}
