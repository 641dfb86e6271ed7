//! A machine in a room of its own, and a desk over it.
ghost use Rattle.std.specs.Prelude.{◌≡◌, ◌+◌, ◌-◌, ◌≤◌, length, drop, None, Some, IfOk, IfErr, IfSome, OnOk};
ghost use Rattle.xl_base.specs.Serials.{Extends};
ghost use Rattle.xl_desk.specs.Turns.{IsClosed, all_shares, opened};

use std::alloc::{AllocFailed, Global};
use std::marker::Model;
use xl_base::{Entry, Event, Halt, Serial};
use xl_desk::{Desk, NoRoom, Pass};

/// A machine that stays where it is while it is handed on: a desk moves what it has out of its slot for each turn. A contract
/// sees the machine.
#[derive(Drop)]
pub struct Seated<H> {
    machine: Box<H>,
}

impl<H> Model for Seated<H> {
    ghost Value = { H };

    ghost view = { λ s. s.machine.value };
}

impl<H> Seated<H> {
    /// The machine, in a room of its own; without memory it comes back.
    pub fn new(alloc: Global, machine: H) -> Result<Seated<H>, AllocFailed<H>>
        ensures seated { IfOk result (λ s. s ≡ machine) }
        ensures back { IfErr result (λ e. e.value ≡ machine) }
    {
        match Box::new(alloc, machine) {
            Ok(machine) => Ok(Seated { machine }),
            Err(failed) => Err(failed),
        }
    }

    /// The machine.
    pub fn into_machine(self) -> H
        ensures { result ≡ self }
    {
        let Seated { machine } = self;
        Box::into_inner(machine)
    }
}

impl<H: Serial> Serial for Seated<H> {
    type Origin = H::Origin;

    ghost origin = { H.origin };

    ghost first = { H.first };

    ghost history = { H.history };

    ghost halt = { H.halt };

    ghost lawful = { H.lawful };

    ghost takes = { H.takes };

    ghost may_halt = { H.may_halt };

    ghost in_time = { H.in_time };

    fn first(&self) -> u64 {
        self.machine.first()
    }

    fn next_place(&self) -> u64 {
        self.machine.next_place()
    }

    fn halt(&self) -> Option<Halt> {
        self.machine.halt()
    }

    fn outs_from(&self, place: u64) -> &[Entry] {
        self.machine.outs_from(place)
    }

    fn step(&mut self, alloc: Global, event: Event) -> Result<u64, Halt> {
        self.machine.step(alloc, event)
    }
}

/// A desk over a machine, which gets a room of its own, and the one pass.
pub fn seat<H: Serial>(
    alloc: Global,
    machine: H,
) -> Result<(Desk<Seated<H>>, Pass<Seated<H>>), NoRoom<H>>
    ensures desk { IfOk result (λ t. t.1.desk ≡ t.0) }
    ensures pass { IfOk result (λ t. t.1.view ≡ opened (H.origin machine) (H.first (H.origin machine)) (H.history machine) (H.halt machine)) }
    ensures back { IfErr result (λ e. e.machine ≡ machine) }
{
    let seated = match Seated::new(alloc, machine) {
        Ok(seated) => seated,
        Err(AllocFailed { value }) => return Err(NoRoom { machine: value }),
    };
    match Desk::make(alloc, seated) {
        Ok(made) => Ok(made),
        Err(NoRoom { machine }) => Err(NoRoom {
            machine: machine.into_machine(),
        }),
    }
}

/// The machine of a desk, once all other passes were joined into this one. Its entries have grown since the desk was made by just
/// the calls that the pass knows, each once.
pub fn close<H: Serial>(desk: Desk<Seated<H>>, pass: Pass<Seated<H>>) -> H
    requires desk { pass.desk ≡ desk }
    requires all { pass.view.shares ≡ all_shares }
    ensures { IsClosed H.history H.halt H.origin H.lawful pass.view result }
{
    desk.close(pass).into_machine()
}
