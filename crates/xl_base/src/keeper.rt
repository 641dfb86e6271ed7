//! Where the record is kept on stable storage (RFC 7530 9.6.2).
ghost use Rattle.std.specs.Prelude.{◌≡◌, ℕ, ◌≤◌, List, [], Option, Some, None, IsTrue, ◌↔◌, true, false};
ghost use Rattle.xl_base.specs.Memory.{is_failing, after_load, after_store};
ghost use Rattle.xl_base.specs.Outside.{Loads, LoadCounts, StoreCounts, Spends, held_after, given_after};
ghost use Rattle.xl_base.specs.Stable.{Stable};

use crate::source::is_failing;
use crate::stable::Record;
use std::alloc::Global;
use std::marker::Model;

/// What one load gave.
#[derive(Drop)]
pub enum LoadOutcome {
    /// The record that is held.
    Loaded(Record),
    /// The load failed.
    Failed,
    /// Memory ran out before the record was whole.
    NoMemory,
}

/// What became of one store.
#[derive(Clone, Copy)]
pub enum StoreOutcome {
    /// The record is held from now on, in place of the one before.
    Stored,
    /// The store failed; the record from before it is held still.
    Failed,
    /// Memory ran out; nothing was tried.
    NoMemory,
}

/// Stable storage for one record. The record that is held is told, or not, and so are those that were given to be
/// stored; then no contract speaks of them. A crash in the midst of a store, which has no outcome, leaves the record
/// from before it or the one that was given (RECORD-2).
pub trait Keeper {
    /// The record that is held, if the keeper tells it.
    ghost held: { Self → Option Stable };

    /// The records given to be stored, in order, if the keeper tells them: those of each store that had the memory
    /// it needs, whether it failed or not.
    ghost given: { Self → Option (List Stable) };

    /// How many loads and stores have failed; it stops at its last value.
    ghost faults: { Self → ℕ };

    /// How many stores succeed from now on, before each one fails, if the keeper tells it. No load fails of one that does.
    ghost left: { Self → Option ℕ };

    /// The count of failed loads and stores; it never falls.
    fn faults(&self) -> u64
        ensures { result ≡ faults self.now };

    /// Loads the record that is held, which changes nothing except the count. That rises if the answer is Failed, and
    /// only then.
    fn load(&mut self, alloc: Global) -> LoadOutcome
        ensures loaded { Loads result (held self.old) }
        ensures held { held self.new ≡ held self.old }
        ensures given { given self.new ≡ given self.old }
        ensures left { left self.new ≡ left self.old }
        ensures sure { (n : ℕ) → left self.old ≡ Some n → result ≡ LoadOutcome.Failed → ⊥ }
        ensures later { faults self.old ≤ faults self.new }
        ensures counts { LoadCounts result (faults self.old) (faults self.new) };

    /// Stores the record in place of the one that is held. The count rises if the answer is Failed, and only
    /// then; want of memory changes nothing.
    fn store(&mut self, alloc: Global, stable: &Record) -> StoreOutcome
        ensures held { held self.new ≡ held_after result stable.now (held self.old) }
        ensures given { given self.new ≡ given_after result stable.now (given self.old) }
        ensures left { (n : ℕ) → left self.old ≡ Some n → Spends result n (left self.new) }
        ensures later { faults self.old ≤ faults self.new }
        ensures counts { StoreCounts result (faults self.old) (faults self.new) };
}

/// A keeper in memory, whose calls numbered in its list fail; loads and stores are counted together, and the first
/// has number 1.
#[derive(Drop)]
pub struct MemoryKeeper {
    held: Record,
    given: Vec<Record>,
    failing: Vec<u64>,
    calls: u64,
    faults: u64,
}

impl Model for MemoryKeeper {
    ghost use Rattle.xl_base.specs.Memory.{MemoryStorage};

    ghost Value = { MemoryStorage };

    ghost view = { λ k. record { held = k.held; given = k.given.items; failing = k.failing.items; calls = k.calls; faults = k.faults } };
}

impl MemoryKeeper {
    /// A keeper that holds this record and was given none, of which these calls fail. It takes no memory.
    pub fn new(alloc: Global, stable: Record, failing: Vec<u64>) -> MemoryKeeper
        ensures { result ≡ record { held = stable; given = []; failing = failing.items; calls = 0; faults = 0 } }
    {
        MemoryKeeper {
            held: stable,
            given: Vec::new(alloc),
            failing,
            calls: 0,
            faults: 0,
        }
    }

    /// The record that is held.
    pub fn held(&self) -> &Record
        ensures { result.now ≡ self.now.held }
    {
        &self.held
    }

    /// The records that were given to be stored, in order.
    pub fn given(&self) -> &[Record]
        ensures { result.now ≡ self.now.given }
    {
        &self.given
    }
}

impl Keeper for MemoryKeeper {
    ghost held = { λ k. Some k.held };

    ghost given = { λ k. Some k.given };

    ghost faults = { λ k. k.faults };

    ghost left = { λ _. None };

    fn faults(&self) -> u64 {
        self.faults
    }

    fn load(&mut self, alloc: Global) -> LoadOutcome
        ensures loaded { Loads result (Some self.old.held) }
        ensures held { Some self.new.held ≡ Some self.old.held }
        ensures given { Some self.new.given ≡ Some self.old.given }
        ensures later { self.old.faults ≤ self.new.faults }
        ensures counts { LoadCounts result self.old.faults self.new.faults }
        ensures after { self.new ≡ after_load result self.old }
        // Just the calls of its list fail.
        ensures fails { (result ≡ LoadOutcome.Failed) ↔ IsTrue (is_failing self.old.failing self.new.calls) }
    {
        self.calls = self.calls.saturating_add(1);
        if is_failing(&self.failing, self.calls) {
            self.faults = self.faults.saturating_add(1);
            return LoadOutcome::Failed;
        }
        match self.held.copy(alloc) {
            Ok(stable) => LoadOutcome::Loaded(stable),
            Err(_) => LoadOutcome::NoMemory,
        }
    }

    fn store(&mut self, alloc: Global, stable: &Record) -> StoreOutcome
        ensures held { Some self.new.held ≡ held_after result stable.now (Some self.old.held) }
        ensures given { Some self.new.given ≡ given_after result stable.now (Some self.old.given) }
        ensures later { self.old.faults ≤ self.new.faults }
        ensures counts { StoreCounts result self.old.faults self.new.faults }
        ensures after { self.new ≡ after_store result stable.now self.old }
        // Just the calls of its list fail; memory is looked at first.
        ensures fails { result ≡ StoreOutcome.Failed → is_failing self.old.failing self.new.calls ≡ true }
        ensures stored { result ≡ StoreOutcome.Stored → is_failing self.old.failing self.new.calls ≡ false }
    {
        self.calls = self.calls.saturating_add(1);
        let (Ok(kept), Ok(given)) = (stable.copy(alloc), stable.copy(alloc)) else {
            return StoreOutcome::NoMemory;
        };
        if self.given.push(given).is_err() {
            return StoreOutcome::NoMemory;
        }
        if is_failing(&self.failing, self.calls) {
            self.faults = self.faults.saturating_add(1);
            return StoreOutcome::Failed;
        }
        self.held = kept;
        StoreOutcome::Stored
    }
}
