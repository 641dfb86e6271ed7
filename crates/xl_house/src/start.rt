//! How a house starts: its record is loaded, and stored with its epoch raised.
ghost use Rattle.std.specs.Prelude.{◌≡◌, ℕ, ◌≤◌, [], Ok, Err, Some, None, IfOk, IfErr, IfSome, OnOk, OnErr, Option};
ghost use Rattle.xl_base.specs.Outside.{Rose};
ghost use Rattle.xl_base.specs.Stable.{Stable, raised};
ghost use Rattle.xl_house.specs.Housed.{Holds};
ghost use Rattle.xl_grace.specs.Grace.{begun as grace_begun};
ghost use Rattle.xl_house.specs.Starts.{no_record, IsLoaded, IsGiven, IsStored};
ghost use Rattle.xl_plan.specs.Keepers.{telling};

use crate::house::House;
use std::alloc::Global;
use xl_base::{
    Exports, Halt, Head, Journal, Keeper, LoadOutcome, Moment, Record, Sequence, StoreOutcome,
};
use xl_grace::Grace;

/// A house that did not start, or did not start again.
#[derive(Drop)]
pub struct Ended<K: Keeper> {
    /// Why not.
    pub halt: Halt,
    /// The journal until then: of a first start it has no entry, and the record that was loaded, or the empty one if none was.
    pub journal: Journal,
    /// The keeper.
    pub keeper: K,
}

/// What a start begins with: the record as it is stored, and the grace that runs from then on.
#[derive(Drop)]
pub(crate) struct Begun {
    pub stable: Record,
    pub grace: Grace,
}

/// The record that the keeper holds. If it can't be loaded, the empty one and the reason.
pub(crate) fn load<K: Keeper>(alloc: Global, keeper: &mut K) -> (Record, Option<Halt>)
    ensures loaded { result.1 ≡ None → Holds (K.held keeper.old) result.0 }
    ensures none { IfSome result.1 (λ halt. result.0 ≡ no_record) }
    ensures count { (count : ℕ) → result.1 ≡ Some (Halt.StartStore count) → (count ≡ K.faults keeper.new) × Rose (K.faults keeper.old) count }
    ensures full { (count : ℕ) → result.1 ≡ Some (Halt.JournalFull count) → ⊥ }
    ensures held { K.held keeper.new ≡ K.held keeper.old }
    ensures given { K.given keeper.new ≡ K.given keeper.old }
    ensures left { K.left keeper.new ≡ K.left keeper.old }
    ensures later { K.faults keeper.old ≤ K.faults keeper.new }
    ensures still { result.1 ≡ None → K.faults keeper.new ≡ K.faults keeper.old }
    ensures memory { result.1 ≡ Some Halt.NoMemory → K.faults keeper.new ≡ K.faults keeper.old }
    ensures sure { (n count : ℕ) → K.left keeper.old ≡ Some n → result.1 ≡ Some (Halt.StartStore count) → ⊥ }
{
    match keeper.load(alloc) {
        LoadOutcome::Loaded(stable) => (stable, None),
        LoadOutcome::Failed => (Record::new(alloc), Some(Halt::StartStore(keeper.faults()))),
        LoadOutcome::NoMemory => (Record::new(alloc), Some(Halt::NoMemory)),
    }
}

/// Stores the record with its epoch raised. The memory that this takes besides the keeper's own is taken before.
pub(crate) fn raise<K: Keeper>(
    alloc: Global,
    keeper: &mut K,
    loaded: &Record,
    now: Moment,
    grace: u64,
) -> Result<Begun, Halt>
    ensures raised { IfOk result (λ b. b.stable ≡ raised loaded.now) }
    ensures grace { IfOk result (λ b. b.grace ≡ grace_begun b.stable now grace) }
    ensures stored { OnOk result (IsStored (raised loaded.now) (telling K.held K.given K.faults K.left keeper.old) (telling K.held K.given K.faults K.left keeper.new)) }
    ensures kept { OnErr result (K.held keeper.new ≡ K.held keeper.old) }
    ensures tried { (held : Option Stable) → Holds held loaded.now → OnErr result (IsGiven held loaded.now (K.given keeper.old) (K.given keeper.new)) }
    ensures count { (count : ℕ) → result ≡ Err (Halt.StartStore count) → (count ≡ K.faults keeper.new) × Rose (K.faults keeper.old) count }
    ensures spent { (n count : ℕ) → K.left keeper.old ≡ Some n → result ≡ Err (Halt.StartStore count) → n ≡ 0 }
    ensures full { (count : ℕ) → result ≡ Err (Halt.JournalFull count) → ⊥ }
    ensures later { K.faults keeper.old ≤ K.faults keeper.new }
    ensures memory { result ≡ Err Halt.NoMemory → (K.faults keeper.new ≡ K.faults keeper.old) × (K.given keeper.new ≡ K.given keeper.old) }
{
    let Ok(mut stable) = loaded.copy(alloc) else {
        return Err(Halt::NoMemory);
    };
    stable.raise_epoch();
    let Ok(grace) = Grace::start(alloc, &stable, now, grace) else {
        return Err(Halt::NoMemory);
    };
    match keeper.store(alloc, &stable) {
        StoreOutcome::Stored => Ok(Begun { stable, grace }),
        StoreOutcome::Failed => Err(Halt::StartStore(keeper.faults())),
        StoreOutcome::NoMemory => Err(Halt::NoMemory),
    }
}

impl<K: Keeper> House<K> {
    /// Starts a house over these exports, with the clock at this moment. It loads the keeper's record, and stores it with its
    /// epoch raised, so that what earlier starts gave out is known to be theirs. It stores nothing else, and nothing if the
    /// load failed. Nothing is held at a start.
    ///
    /// StartStore comes only if the load or the store failed: its number is the keeper's count of faults, which rose, and the
    /// keeper holds what it held before. NoMemory comes if memory runs out: no call of the keeper failed then, and nothing was
    /// given to it. The error hands the keeper back, and a journal without entries, which begins from the record that was
    /// loaded, or from the empty one if none was.
    pub fn start(
        alloc: Global,
        exports: Exports,
        keeper: K,
        now: Moment,
    ) -> Result<House<K>, Ended<K>>
        ensures begun { IfOk result (λ h. (h.entries ≡ []) × (h.halt ≡ None)) }
        ensures head { IfOk result (λ h. (h.head.exports ≡ exports) × (h.head.start ≡ now)) }
        ensures loaded { IfOk result (λ h. Holds (K.held keeper) h.head.«record») }
        ensures stored { IfOk result (λ h. IsStored (raised h.head.«record») (telling K.held K.given K.faults K.left keeper) (telling K.held K.given K.faults K.left h.keeper)) }
        ensures ended { IfErr result (λ e. (e.journal.head.exports ≡ exports) × (e.journal.head.start ≡ now) × (e.journal.entries ≡ [])) }
        ensures read { IfErr result (λ e. IsLoaded (K.held keeper) e.journal.head.«record») }
        ensures count { IfErr result (λ e. (count : ℕ) → e.halt ≡ Halt.StartStore count → (count ≡ K.faults e.keeper) × Rose (K.faults keeper) count) }
        ensures spent { IfErr result (λ e. (n count : ℕ) → K.left keeper ≡ Some n → e.halt ≡ Halt.StartStore count → n ≡ 0) }
        ensures full { IfErr result (λ e. (count : ℕ) → e.halt ≡ Halt.JournalFull count → ⊥) }
        ensures kept { IfErr result (λ e. K.held e.keeper ≡ K.held keeper) }
        ensures tried { IfErr result (λ e. IsGiven (K.held keeper) e.journal.head.«record» (K.given keeper) (K.given e.keeper)) }
        ensures memory { IfErr result (λ e. e.halt ≡ Halt.NoMemory → (K.faults e.keeper ≡ K.faults keeper) × (K.given e.keeper ≡ K.given keeper)) }
        ensures later { IfErr result (λ e. K.faults keeper ≤ K.faults e.keeper) }
    {
        let mut keeper = keeper;
        let (record, fault) = load(alloc, &mut keeper);
        let raised = match fault {
            Some(halt) => Err(halt),
            None => raise(alloc, &mut keeper, &record, now, exports.grace),
        };
        let head = Head {
            exports,
            start: now,
            record,
        };
        match raised {
            Ok(begun) => Ok(House::begin(alloc, head, begun, keeper)),
            Err(halt) => Err(Ended {
                halt,
                journal: Journal {
                    head,
                    entries: Sequence::new(alloc),
                },
                keeper,
            }),
        }
    }
}
