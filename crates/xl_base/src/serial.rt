//! Values that take one event after another.
ghost use Rattle.std.specs.Prelude.{◌≡◌, ℕ, ◌+◌, ◌-◌, ◌≤◌, List, length, drop, Option, None, Some, IfOk, IfErr, IfSome, OnOk};
ghost use Rattle.xl_base.specs.declared.event.Event.{Event as TheEvent};
ghost use Rattle.xl_base.specs.declared.halt.Halt.{Halt as TheHalt};
ghost use Rattle.xl_base.specs.declared.journal.Entry.{Entry as TheEntry};
ghost use Rattle.xl_base.specs.Serials.{Extends, AreInTime};

use crate::event::Event;
use crate::halt::Halt;
use crate::journal::Entry;
use std::alloc::Global;

/// A value that takes one event after another, each of which is one entry of its history. The entries' places are
/// absolute: they count from the place of the first one, which need not be 0, and are below 2^63.
pub trait Serial {
    /// What a value began from, which no step changes; each type chooses its own (PROOF-9).
    type Origin;

    /// What the value began from.
    ghost origin: { Self → Self.Origin };

    /// The place of the first entry.
    ghost first: { Self.Origin → ℕ };

    /// The entries so far.
    ghost history: { Self → List TheEntry };

    /// The halt that the value is in, if it is halted.
    ghost halt: { Self → Option TheHalt };

    /// What may be the history of a value with this origin.
    ghost lawful: { Self.Origin → List TheEntry → Type 0 };

    /// Which events a step takes.
    ghost takes: { TheEvent → Type 0 };

    /// Which halt may come behind these entries.
    ghost may_halt: { List TheEntry → TheHalt → Type 0 };

    /// No lawful history sends anything to a connection before its opening or after its end.
    ghost in_time: { AreInTime first lawful };

    /// The place of the first entry.
    fn first(&self) -> u64
        ensures { result ≡ first (origin self.now) };

    /// The place past the last entry. The entries so far are a lawful history.
    fn next_place(&self) -> u64
        ensures place { result ≡ first (origin self.now) + length (history self.now) }
        ensures lawful { lawful (origin self.now) (history self.now) };

    /// The halt that the value is in, which may come behind its entries, or None if it isn't halted.
    fn halt(&self) -> Option<Halt>
        ensures halt { result ≡ halt self.now }
        ensures may { IfSome result (λ reason. may_halt (history self.now) reason) };

    /// The entries from this place on, which is none before the first and at most the place past the last.
    fn outs_from(&self, place: u64) -> &[Entry]
        requires { (first (origin self.now) ≤ place) × (place ≤ first (origin self.now) + length (history self.now)) }
        ensures { result.now ≡ drop (place - first (origin self.now)) (history self.now) };

    /// One event, entered with what it did at the place that is answered. It is asked for only while the value is not
    /// halted (PROOF-9). After an error the value is halted for good, and its entries are as they were.
    fn step(&mut self, alloc: Global, event: Event) -> Result<u64, Halt>
        requires takes { takes event }
        requires runs { halt self.old ≡ None }
        ensures origin { origin self.new ≡ origin self.old }
        ensures ok { IfOk result (λ place. Extends (first (origin self.old)) (history self.old) (history self.new) event place) }
        ensures runs { OnOk result (halt self.new ≡ None) }
        ensures err { IfErr result (λ reason. (history self.new ≡ history self.old) × (halt self.new ≡ Some reason) × may_halt (history self.old) reason) };
}
