//! A house that replays: of the stores of each step only so many succeed as its line says.
ghost use Rattle.std.specs.Prelude.{◌≡◌, ◌≢◌, ℕ, ◌+◌, ◌-◌, ◌<◌, ◌≤◌, [], ◌∷◌, ◌++◌, length, drop, false, Some, None, Ok, IfOk, IfErr, IfSome, OnOk};
ghost use Rattle.xl_base.specs.Serials.{Extends};
ghost use Rattle.xl_base.specs.declared.event.Event.TheVariants.{Restart};
ghost use Rattle.xl_house.specs.Awaited.{IsServed};
ghost use Rattle.xl_house.specs.Housed.{is_spoiled};
ghost use Rattle.xl_house.specs.Journals.{IsLegal, IsOrderly, is_restart, most_entries};
ghost use Rattle.xl_house.specs.Lawful.{Always};
ghost use Rattle.xl_house.specs.Serials.{IsHistory, MayHalt};
ghost use Rattle.xl_house.specs.State.{start_of};
ghost use Rattle.xl_replay.specs.Replays.{AreMade, allowed_at, events_in, origin_of};

use std::alloc::Global;
use std::marker::Model;
use xl_base::{BudgetKeeper, Entry, Event, Halt, Head, Sequence, Serial};
use xl_capture::ALL_STORES;
use xl_house::{Ended, House, MOST_ENTRIES};

/// A house, and how many stores of the step at each place of its journal succeed.
#[derive(Drop)]
pub(crate) struct Replayer {
    house: House<BudgetKeeper>,
    allowed: Sequence<u64>,
}

impl Model for Replayer {
    ghost use Rattle.xl_house.specs.State.{start_of};
    ghost use Rattle.xl_replay.specs.Replays.{AreMade, Replaying};

    ghost Value = { Replaying };

    ghost view = { λ r. record { house = r.house; allowed = r.allowed } };

    ghost invariant = { λ r. AreMade (start_of r.house.head) r.house.entries r.allowed };
}

/// How many stores of the step at this place succeed.
fn allowed_at(allowed: &[u64], place: u64) -> u64
    ensures { result ≡ allowed_at allowed.now place }
{
    match allowed.get(place as usize) {
        Some(stores) => *stores,
        None => ALL_STORES,
    }
}

/// Steps one event; so many of its stores succeed as are allowed at its place.
fn step_allowed(
    alloc: Global,
    house: &mut House<BudgetKeeper>,
    allowed: &[u64],
    event: Event,
) -> Result<u64, Halt>
    requires takes { is_restart event ≡ false }
    requires runs { house.old.halt ≡ None }
    requires made { AreMade (start_of house.old.head) house.old.entries allowed.now }
    ensures head { house.new.head ≡ house.old.head }
    ensures made { AreMade (start_of house.new.head) house.new.entries allowed.now }
    ensures ok { IfOk result (λ place. Extends 0 house.old.entries house.new.entries event place) }
    ensures runs { OnOk result (house.new.halt ≡ None) }
    ensures err { IfErr result (λ reason. (house.new.entries ≡ house.old.entries) × (house.new.halt ≡ Some reason) × MayHalt house.old.entries reason) }
{
    let place = house.next_place();
    house.allow(allowed_at(allowed, place));
    house.step(alloc, event)
}

/// Starts the server again; a store of the start succeeds if one is allowed at its place.
fn start_allowed(
    alloc: Global,
    house: House<BudgetKeeper>,
    allowed: &[u64],
) -> Result<House<BudgetKeeper>, Ended<BudgetKeeper>>
    requires runs { house.halt ≡ None }
    requires room { length house.entries ≢ most_entries }
    requires made { AreMade (start_of house.head) house.entries allowed.now }
    ensures made { IfOk result (λ h. AreMade (start_of h.head) h.entries allowed.now) }
    ensures head { IfOk result (λ h. h.head ≡ house.head) }
    ensures goes { IfOk result (λ h. h.halt ≡ None) }
    ensures entered { IfOk result (λ h. events_in h.entries ≡ events_in house.entries ++ Restart ∷ []) }
    ensures journal { IfErr result (λ e. (e.journal.head ≡ house.head) × (e.journal.entries ≡ house.entries)) }
    ensures full { IfErr result (λ e. (count : ℕ) → e.halt ≡ Halt.JournalFull count → ⊥) }
    ensures failed { IfErr result (λ e. (count : ℕ) → e.halt ≡ Halt.StartStore count → allowed_at allowed.now (length house.entries) ≡ 0) }
    ensures legal { IfErr result (λ e. IsLegal (start_of e.journal.head) e.journal.entries) }
    ensures served { IfErr result (λ e. Always IsServed (start_of e.journal.head) e.journal.entries) }
    ensures orderly { IfErr result (λ e. IsOrderly [] 0 e.journal.entries) }
    ensures most { IfErr result (λ e. length e.journal.entries ≤ most_entries) }
{
    let mut house = house;
    let place = house.next_place();
    house.allow(allowed_at(allowed, place));
    house.restart(alloc)
}

impl Replayer {
    /// A house without entries, and what is allowed.
    pub(crate) fn new(house: House<BudgetKeeper>, allowed: Sequence<u64>) -> Replayer
        requires { house.entries ≡ [] }
        ensures { result ≡ record { house = house; allowed = allowed } }
    {
        Replayer { house, allowed }
    }

    /// The house.
    pub(crate) fn into_house(self) -> House<BudgetKeeper>
        ensures { result ≡ self.house }
    {
        self.house
    }

    /// Whether the house ran out of memory in a step.
    pub(crate) fn is_spoiled(&self) -> bool
        ensures { result ≡ is_spoiled self.now.house.halt }
    {
        self.house.is_spoiled()
    }

    /// Why the server can't be started again: its house is halted, or its journal is full.
    pub(crate) fn barred(&self) -> Option<Halt>
        ensures made { AreMade (start_of self.now.house.head) self.now.house.entries self.now.allowed }
        ensures may { IfSome result (λ reason. MayHalt self.now.house.entries reason) }
        ensures halted { IfSome self.now.house.halt (λ reason. result ≡ Some reason) }
        ensures free { result ≡ None → (self.now.house.halt ≡ None) × (length self.now.house.entries ≢ most_entries) }
    {
        if let Some(halt) = self.house.halt() {
            return Some(halt);
        }
        let place = self.house.next_place();
        if place == MOST_ENTRIES as u64 {
            return Some(Halt::JournalFull(place));
        }
        None
    }

    /// Starts the server again.
    pub(crate) fn restart(self, alloc: Global) -> Result<Replayer, Ended<BudgetKeeper>>
        requires runs { self.house.halt ≡ None }
        requires room { length self.house.entries ≢ most_entries }
        ensures origin { IfOk result (λ r. origin_of r ≡ origin_of self) }
        ensures made { IfOk result (λ r. AreMade (start_of r.house.head) r.house.entries r.allowed) }
        ensures goes { IfOk result (λ r. r.house.halt ≡ None) }
        ensures entered { IfOk result (λ r. events_in r.house.entries ≡ events_in self.house.entries ++ Restart ∷ []) }
        ensures journal { IfErr result (λ e. (e.journal.head ≡ self.house.head) × (e.journal.entries ≡ self.house.entries)) }
        ensures full { IfErr result (λ e. (count : ℕ) → e.halt ≡ Halt.JournalFull count → ⊥) }
        ensures failed { IfErr result (λ e. (count : ℕ) → e.halt ≡ Halt.StartStore count → allowed_at self.allowed (length self.house.entries) ≡ 0) }
        ensures legal { IfErr result (λ e. IsLegal (start_of e.journal.head) e.journal.entries) }
        ensures served { IfErr result (λ e. Always IsServed (start_of e.journal.head) e.journal.entries) }
        ensures orderly { IfErr result (λ e. IsOrderly [] 0 e.journal.entries) }
        ensures most { IfErr result (λ e. length e.journal.entries ≤ most_entries) }
    {
        let Replayer { house, allowed } = self;
        let house = start_allowed(alloc, house, allowed.as_slice())?;
        Ok(Replayer { house, allowed })
    }
}

impl Serial for Replayer {
    type Origin = (Head, Sequence<u64>);

    ghost origin = { λ r. origin_of r };

    ghost first = { λ origin. 0 };

    ghost history = { λ r. r.house.entries };

    ghost halt = { λ r. r.house.halt };

    ghost lawful = { λ origin log. IsHistory origin.0 log × AreMade (start_of origin.0) log origin.1 };

    ghost takes = { λ event. is_restart event ≡ false };

    ghost may_halt = { λ log reason. MayHalt log reason };

    ghost in_time = { λ _ _ history. history.0.1 };

    fn first(&self) -> u64
        ensures { result ≡ 0 }
    {
        0
    }

    fn next_place(&self) -> u64
        ensures place { result ≡ 0 + length self.now.house.entries }
        ensures lawful { IsHistory self.now.house.head self.now.house.entries × AreMade (start_of self.now.house.head) self.now.house.entries self.now.allowed }
    {
        self.house.next_place()
    }

    fn halt(&self) -> Option<Halt>
        ensures halt { result ≡ self.now.house.halt }
        ensures may { IfSome result (λ reason. MayHalt self.now.house.entries reason) }
    {
        self.house.halt()
    }

    fn outs_from(&self, place: u64) -> &[Entry]
        requires { (0 ≤ place) × (place ≤ 0 + length self.now.house.entries) }
        ensures { result.now ≡ drop (place - 0) self.now.house.entries }
    {
        self.house.outs_from(place)
    }

    fn step(&mut self, alloc: Global, event: Event) -> Result<u64, Halt>
        requires takes { is_restart event ≡ false }
        requires runs { self.old.house.halt ≡ None }
        ensures origin { origin_of self.new ≡ origin_of self.old }
        ensures ok { IfOk result (λ place. Extends 0 self.old.house.entries self.new.house.entries event place) }
        ensures runs { OnOk result (self.new.house.halt ≡ None) }
        ensures err { IfErr result (λ reason. (self.new.house.entries ≡ self.old.house.entries) × (self.new.house.halt ≡ Some reason) × MayHalt self.old.house.entries reason) }
    {
        step_allowed(alloc, &mut self.house, self.allowed.as_slice(), event)
    }
}
