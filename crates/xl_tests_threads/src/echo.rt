//! A machine for tests.
ghost use Rattle.std.specs.Prelude.{◌≡◌, ℕ, ◌≤◌, ◌+◌, ◌-◌, ◌^◌, ◌++◌, ◌∷◌, [], length, drop, true, false, None, Some, IfOk, IfErr, IfSome, OnOk};
ghost use Rattle.std.specs.List.{AllByRecursion};
ghost use Rattle.xl_base.specs.Serials.{Extends, IsInTime};
ghost use Rattle.xl_base.specs.declared.event.Dest.TheVariants.{Conn as TheConn, Back as TheBack};
ghost use Rattle.xl_tests_threads.specs.Echoes.{ends, has_ended, may_go, IsEcho, MayStop};

use std::alloc::{AllocError, Global};
use std::marker::Model;
use xl_base::{Dest, Entry, Event, Halt, Out, Sequence, Serial};

/// A machine that sends each message back to its connection while that is open, or to that which the byte behind an exclamation
/// mark names. A message that begins with a question mark
/// asks for a call too, whose number is its place, and so does each reading of the clock, with the moment as the number. The
/// first entry has a place of choice, and the machine is full with so many entries.
#[derive(Drop)]
pub struct Echo {
    first: u64,
    most: usize,
    entries: Sequence<Entry>,
    halt: Option<Halt>,
}

impl Model for Echo {
    ghost use Rattle.std.specs.Prelude.{◌≤◌, ◌+◌, ◌^◌, length, IfSome};
    ghost use Rattle.xl_tests_threads.specs.Echoes.{Echoed, IsEcho, MayStop};

    ghost Value = { Echoed };

    ghost view = { λ e. record { first = e.first; most = e.most; entries = e.entries; halt = e.halt } };

    ghost invariant = { λ e. (e.first + e.most ≤ 2 ^ 62) × (length e.entries ≤ e.most) × IsEcho e.first e.entries × IfSome e.halt (λ reason. MayStop e.entries reason) };
}

/// Whether an event ends the connection.
fn ends(event: &Event, conn: u64) -> bool
    ensures { result ≡ ends conn event.now }
{
    match event {
        Event::End(other) => *other == conn,
        _ => false,
    }
}

/// Whether one of the entries ends the connection.
fn has_ended(entries: &[Entry], conn: u64) -> bool
    ensures { result ≡ has_ended conn entries.now }
{
    'entries: for entry in entries {
        if ends(&entry.event, conn) {
            return true;
        }
    }
    false
}

/// The message once more, to its connection.
fn echo_of(alloc: Global, conn: u64, bytes: &[u8]) -> Result<Out, AllocError>
    ensures { IfOk result (λ out. out.dest ≡ TheConn conn) }
{
    Ok(Out {
        dest: Dest::Conn(conn),
        to: Sequence::new(alloc),
        bytes: Sequence::from_slice(alloc, bytes)?,
    })
}

/// A call of this number to somebody.
fn call_of(alloc: Global, number: u64) -> Result<Out, AllocError>
    ensures { IfOk result (λ out. out.dest ≡ TheBack number) }
{
    Ok(Out {
        dest: Dest::Back(number),
        to: Sequence::from_slice(alloc, b"somebody")?,
        bytes: Sequence::new(alloc),
    })
}

/// The connection that a message goes to, which came from this one.
fn addressee(conn: u64, bytes: &[u8]) -> u64 {
    match bytes {
        [b'!', number, ..] => u64::from(*number),
        _ => conn,
    }
}

/// What an event is answered at this place, behind these entries.
fn answer(
    alloc: Global,
    place: u64,
    entries: &[Entry],
    event: &Event,
) -> Result<Sequence<Out>, AllocError>
    ensures { IfOk result (λ outs. AllByRecursion (λ o. may_go place entries.now o.dest ≡ true) outs) }
{
    let mut outs = Sequence::new(alloc);
    match event {
        Event::Message(conn, bytes) => {
            let to = addressee(*conn, bytes.as_slice());
            if to < place && !has_ended(entries, to) {
                outs.push(echo_of(alloc, to, bytes.as_slice())?)?;
            }
            if let [b'?', ..] = bytes.as_slice() {
                outs.push(call_of(alloc, place)?)?;
            }
        }
        Event::Tick(moment) => outs.push(call_of(alloc, moment.0)?)?,
        _ => {}
    }
    Ok(outs)
}

impl Echo {
    /// A machine without entries. It takes no memory.
    pub fn new(alloc: Global, first: u64, most: usize) -> Echo
        requires { first + most ≤ 2 ^ 62 }
        ensures { result ≡ record { first = first; most = most; entries = []; halt = None } }
    {
        Echo {
            first,
            most,
            entries: Sequence::new(alloc),
            halt: None,
        }
    }

    /// The entries so far.
    pub fn entries(&self) -> &[Entry]
        ensures { result.now ≡ self.now.entries }
    {
        self.entries.as_slice()
    }
}

/// One event, if there is room for it.
#[tactic(auto, using(crate::proofs::EchoLaws::echo_grows))]
fn enter(
    alloc: Global,
    first: u64,
    most: usize,
    entries: &mut Sequence<Entry>,
    event: Event,
) -> Result<u64, Halt>
    requires low { first + most ≤ 2 ^ 62 }
    requires few { length entries.old ≤ most }
    requires echo { IsEcho first entries.old }
    ensures few { length entries.new ≤ most }
    ensures echo { IsEcho first entries.new }
    ensures ok { IfOk result (λ place. Extends first entries.old entries.new event place) }
    ensures err { IfErr result (λ reason. (entries.new ≡ entries.old) × MayStop entries.old reason) }
{
    let count = entries.len();
    if count == most {
        return Err(Halt::JournalFull(count as u64));
    }
    let place = first + count as u64;
    let Ok(outs) = answer(alloc, place, entries.as_slice(), &event) else {
        return Err(Halt::NoMemory);
    };
    let entry = Entry {
        event,
        stores: 0,
        outs,
    };
    let Ok(()) = entries.push(entry) else {
        return Err(Halt::NoMemory);
    };
    Ok(place)
}

impl Serial for Echo {
    type Origin = u64;

    ghost origin = { λ e. e.first };

    ghost first = { λ first. first };

    ghost history = { λ e. e.entries };

    ghost halt = { λ e. e.halt };

    ghost lawful = { λ first log. IsInTime first log };

    ghost takes = { λ event. Unit {0} };

    ghost may_halt = { λ log reason. MayStop log reason };

    ghost in_time = { λ _ _ lawful. lawful };

    fn first(&self) -> u64
        ensures { result ≡ self.now.first }
    {
        self.first
    }

    #[tactic(auto, using(crate::proofs::EchoLaws::echo_in_time))]
    fn next_place(&self) -> u64
        ensures place { result ≡ self.now.first + length self.now.entries }
        ensures lawful { IsInTime self.now.first self.now.entries }
    {
        self.first + self.entries.len() as u64
    }

    fn halt(&self) -> Option<Halt>
        ensures halt { result ≡ self.now.halt }
        ensures may { IfSome result (λ reason. MayStop self.now.entries reason) }
    {
        self.halt
    }

    fn outs_from(&self, place: u64) -> &[Entry]
        requires { (self.now.first ≤ place) × (place ≤ self.now.first + length self.now.entries) }
        ensures { result.now ≡ drop (place - self.now.first) self.now.entries }
    {
        &self.entries.as_slice()[(place - self.first) as usize..]
    }

    fn step(&mut self, alloc: Global, event: Event) -> Result<u64, Halt>
        requires takes { Unit {0} }
        requires runs { self.old.halt ≡ None }
        ensures origin { self.new.first ≡ self.old.first }
        ensures ok { IfOk result (λ place. Extends self.old.first self.old.entries self.new.entries event place) }
        ensures runs { OnOk result (self.new.halt ≡ None) }
        ensures err { IfErr result (λ reason. (self.new.entries ≡ self.old.entries) × (self.new.halt ≡ Some reason) × MayStop self.old.entries reason) }
    {
        match enter(alloc, self.first, self.most, &mut self.entries, event) {
            Ok(place) => Ok(place),
            Err(reason) => {
                self.halt = Some(reason);
                Err(reason)
            }
        }
    }
}
