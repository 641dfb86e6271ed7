//! Where the time comes from.
ghost use Rattle.std.specs.Prelude.{◌≡◌, [], List, drop, Option, Some};
ghost use Rattle.xl_base.specs.Telling.{Follows};
ghost use Rattle.xl_base.specs.Readings.{Reads, first_or};
ghost use Rattle.xl_base.specs.declared.event.Moment.{Moment as TheMoment};

use crate::event::Moment;
use crate::telling::told_with;
use std::alloc::Global;
use std::marker::Model;

/// A clock, whose readings are told, or not. It may go back.
pub trait Clock {
    /// The readings so far, in order, if the clock tells them.
    ghost told: { Self → Option (List TheMoment) };

    /// The time now.
    fn now(&mut self) -> Moment
        ensures told { Follows (told self.old) (told self.new) (Reads result) };
}

/// A clock in memory, which gives its readings in order, and then the last of them again and again. It tells them until
/// memory runs out.
#[derive(Drop)]
pub struct MemoryClock {
    next: Moment,
    later: Vec<Moment>,
    at: usize,
    told: Option<Vec<Moment>>,
}

impl Model for MemoryClock {
    ghost use Rattle.std.specs.Prelude.{◌≤◌, length, drop, option_map};
    ghost use Rattle.xl_base.specs.Readings.{MemoryReadings};

    ghost Value = { MemoryReadings };

    ghost view = { λ c. record { next = c.next; later = drop c.at c.later.items; told = option_map (λ v. v.items) c.told } };

    ghost invariant = { λ c. c.at ≤ length c.later.items };
}

impl MemoryClock {
    /// A clock that reads this moment, and then the later ones. It takes no memory.
    pub fn new(alloc: Global, next: Moment, later: Vec<Moment>) -> MemoryClock
        ensures { result ≡ record { next = next; later = later.items; told = Some [] } }
    {
        MemoryClock {
            next,
            later,
            at: 0,
            told: Some(Vec::new(alloc)),
        }
    }
}

impl Clock for MemoryClock {
    ghost told = { λ c. c.told };

    fn now(&mut self) -> Moment
        ensures told { Follows self.old.told self.new.told (Reads result) }
        ensures next { result ≡ self.old.next }
        ensures later { (self.new.next ≡ first_or self.old.next self.old.later) × (self.new.later ≡ drop 1 self.old.later) }
    {
        let moment = self.next;
        if let Some(later) = self.later.get(self.at) {
            self.next = *later;
            self.at += 1;
        }
        self.told = told_with(self.told.take(), moment);
        moment
    }
}
