//! Keepers that are told how many stores succeed.
ghost use Rattle.std.specs.Prelude.{◌≡◌, ℕ, ◌<◌, ◌≤◌, Some, None};
ghost use Rattle.xl_base.specs.Memory.{after_spent};
ghost use Rattle.xl_base.specs.Outside.{Loads, LoadCounts, StoreCounts, Spends, held_after};

use crate::keeper::{Keeper, LoadOutcome, StoreOutcome};
use crate::stable::Record;
use std::alloc::Global;
use std::marker::Model;

/// A keeper that is told how many stores succeed.
pub trait Budgeted: Keeper {
    /// From now on so many stores succeed, and each one behind them fails. What is held stays.
    fn allow(&mut self, stores: u64)
        ensures held { Self.held self.new ≡ Self.held self.old }
        ensures given { Self.given self.new ≡ Self.given self.old }
        ensures faults { Self.faults self.new ≡ Self.faults self.old }
        ensures left { Self.left self.new ≡ Some stores };
}

/// A keeper in memory of which no load fails, and of the stores those behind as many as it was told succeed. It has the record
/// that is held and none of those before, so it takes no more memory however many stores are made, and doesn't tell what it was given.
#[derive(Drop)]
pub struct BudgetKeeper {
    held: Record,
    left: u64,
    faults: u64,
}

impl Model for BudgetKeeper {
    ghost use Rattle.xl_base.specs.Memory.{BudgetStorage};

    ghost Value = { BudgetStorage };

    ghost view = { λ k. record { held = k.held; left = k.left; faults = k.faults } };
}

impl BudgetKeeper {
    /// A keeper that holds this record, of which so many stores succeed. It takes no memory.
    pub fn new(stable: Record, left: u64) -> BudgetKeeper
        ensures { result ≡ record { held = stable; left = left; faults = 0 } }
    {
        BudgetKeeper {
            held: stable,
            left,
            faults: 0,
        }
    }

    /// The record that is held.
    pub fn held(&self) -> &Record
        ensures { result.now ≡ self.now.held }
    {
        &self.held
    }
}

impl Keeper for BudgetKeeper {
    ghost held = { λ k. Some k.held };

    ghost given = { λ _. None };

    ghost faults = { λ k. k.faults };

    ghost left = { λ k. Some k.left };

    fn faults(&self) -> u64 {
        self.faults
    }

    fn load(&mut self, alloc: Global) -> LoadOutcome
        ensures loaded { Loads result (Some self.old.held) }
        ensures held { Some self.new.held ≡ Some self.old.held }
        ensures left { Some self.new.left ≡ Some self.old.left }
        ensures sure { (n : ℕ) → Some self.old.left ≡ Some n → result ≡ LoadOutcome.Failed → ⊥ }
        ensures later { self.old.faults ≤ self.new.faults }
        ensures counts { LoadCounts result self.old.faults self.new.faults }
        ensures same { self.new ≡ self.old }
    {
        match self.held.copy(alloc) {
            Ok(stable) => LoadOutcome::Loaded(stable),
            Err(_) => LoadOutcome::NoMemory,
        }
    }

    fn store(&mut self, alloc: Global, stable: &Record) -> StoreOutcome
        ensures held { Some self.new.held ≡ held_after result stable.now (Some self.old.held) }
        ensures left { (n : ℕ) → Some self.old.left ≡ Some n → Spends result n (Some self.new.left) }
        ensures later { self.old.faults ≤ self.new.faults }
        ensures counts { StoreCounts result self.old.faults self.new.faults }
        ensures after { self.new ≡ after_spent result stable.now self.old }
        // It fails exactly if none is left; memory is looked at first.
        ensures fails { result ≡ StoreOutcome.Failed → self.old.left ≡ 0 }
        ensures stored { result ≡ StoreOutcome.Stored → 0 < self.old.left }
    {
        let Ok(kept) = stable.copy(alloc) else {
            return StoreOutcome::NoMemory;
        };
        if self.left == 0 {
            self.faults = self.faults.saturating_add(1);
            return StoreOutcome::Failed;
        }
        self.left -= 1;
        self.held = kept;
        StoreOutcome::Stored
    }
}

impl Budgeted for BudgetKeeper {
    fn allow(&mut self, stores: u64)
        ensures held { Some self.new.held ≡ Some self.old.held }
        ensures faults { self.new.faults ≡ self.old.faults }
        ensures left { Some self.new.left ≡ Some stores }
    {
        self.left = stores;
    }
}
