//! The desk.
ghost use Rattle.std.specs.Prelude.{◌≡◌, ◌≤◌, ◌+◌, ◌^◌, IfOk};
ghost use Rattle.xl_desk.specs.Turns.{all_shares};

use crate::echo::Echo;
use std::alloc::{AllocError, Global};
use std::sync::Wait;
use std::test::Fail;
use std::thread;
use std::thread::join;
use xl_base::{Event, Halt, Kind, Moment, Out, Sequence};
use xl_desk::{Desk, DeskErr, Due, NoRoom, Pass, Receipt};

/// How often a thread looks for the other's call before it gives up.
const MOST_LOOKS: u64 = 1_000_000_000;

pub(crate) fn make(
    alloc: Global,
    first: u64,
    most: usize,
) -> Result<(Desk<Echo>, Pass<Echo>), AllocError>
    requires { first + most ≤ 2 ^ 62 }
    ensures desk { IfOk result (λ t. t.1.desk ≡ t.0) }
    ensures first { IfOk result (λ t. t.1.view.first ≡ first) }
    ensures all { IfOk result (λ t. t.1.view.shares ≡ all_shares) }
{
    match Desk::make(alloc, Echo::new(alloc, first, most)) {
        Ok(made) => Ok(made),
        Err(NoRoom { machine: _ }) => Err(AllocError),
    }
}

fn message(alloc: Global, conn: u64, text: &[u8]) -> Result<Event, AllocError> {
    Ok(Event::Message(conn, Sequence::from_slice(alloc, text)?))
}

/// The place of a call, or what it was refused with: a machine full with 4 entries is 104 if the call halted it, and
/// 204 if it was found halted.
fn told(called: Result<Receipt, DeskErr>) -> u64 {
    match called {
        Ok(Receipt { place }) => place,
        Err(DeskErr::Halted(Halt::JournalFull(4), 4)) => 104,
        Err(DeskErr::Stopped(Halt::JournalFull(4), 4)) => 204,
        Err(_) => 999,
    }
}

/// The number of a call that was found, 0 for none.
fn number_of(call: &Option<Out>) -> u64 {
    match call {
        Some(out) => match out.dest {
            xl_base::Dest::Back(number) => number,
            xl_base::Dest::Conn(_) => 998,
        },
        None => 0,
    }
}

/// Reads the clock so often as there are moments; how many of these calls were entered.
pub(crate) fn tick<R: Wait>(
    rt: &R,
    alloc: Global,
    desk: &Desk<Echo>,
    pass: &mut Pass<Echo>,
    moments: &[u64],
) -> usize
    requires { pass.old.desk ≡ desk.now }
    ensures desk { pass.new.desk ≡ pass.old.desk }
    ensures first { pass.new.view.first ≡ pass.old.view.first }
{
    let mut entered = 0;
    'moments: for moment in moments {
        let called = desk.call(rt, alloc, pass, Event::Tick(Moment(*moment)));
        if called.is_ok() {
            entered += 1;
        }
    }
    entered
}

/// Which call is next behind this number, of this share of two, from this place on, and at which place.
#[derive(Clone, Copy)]
struct Row {
    after: u64,
    share: u64,
    from: u64,
    number: u64,
    at: u64,
}

/// Whether a search finds what the row has.
fn is_found<R: Wait>(
    rt: &R,
    alloc: Global,
    desk: &Desk<Echo>,
    pass: &mut Pass<Echo>,
    row: &Row,
) -> Result<bool, AllocError>
    requires desk { pass.old.desk ≡ desk.now }
    requires first { pass.old.view.first ≡ 0 }
    ensures desk { pass.new.desk ≡ pass.old.desk }
    ensures first { pass.new.view.first ≡ pass.old.view.first }
{
    let end = desk.see(pass);
    let due = Due {
        after: row.after,
        share: row.share % 2,
        of: 2,
    };
    let found = desk.next_call(rt, alloc, pass, row.from.min(end), due)?;
    Ok(number_of(&found.call) == row.number && found.at == row.at && found.end == end)
}

/// Whether a search finds what each of the rows has.
fn are_found<R: Wait>(
    rt: &R,
    alloc: Global,
    desk: &Desk<Echo>,
    pass: &mut Pass<Echo>,
    rows: &[Row],
) -> Result<bool, AllocError>
    requires desk { pass.old.desk ≡ desk.now }
    requires first { pass.old.view.first ≡ 0 }
{
    'rows: for row in rows {
        if !is_found(rt, alloc, desk, pass, row)? {
            return Ok(false);
        }
    }
    Ok(true)
}

/// Places are absolute. A look gives what a connection is sent from a place on, and no more.
#[test]
fn calls_are_entered_in_their_order(rt: HostRuntime) -> Result<(), Fail> {
    let alloc = rt.alloc();
    let (desk, mut pass) = make(alloc, 5, 4)?;
    let mut other = desk.split(&mut pass);
    let opened = desk.call(&rt, alloc, &mut pass, Event::Open(Kind::Rpc));
    assert_eq!(rt; told(opened), 5);
    let (sent, end) = desk.look(&rt, alloc, &mut other, 5, 5)?;
    assert!(rt; sent.is_empty());
    assert_eq!(rt; end, 6);
    let first = desk.call(&rt, alloc, &mut other, message(alloc, 5, b"ab")?);
    assert_eq!(rt; told(first), 6);
    let second = desk.call(&rt, alloc, &mut pass, message(alloc, 5, b"cd")?);
    assert_eq!(rt; told(second), 7);
    let (sent, end) = desk.look(&rt, alloc, &mut pass, 5, 5)?;
    assert!(rt; sent.as_slice() == b"abcd".as_slice());
    assert_eq!(rt; end, 8);
    let (sent, _) = desk.look(&rt, alloc, &mut pass, 5, 7)?;
    assert!(rt; sent.as_slice() == b"cd".as_slice());
    assert_eq!(rt; desk.see(&mut other), 8);
    Ok(())
}

/// What is joined is closed, and the machine comes back with its entries.
#[test]
fn joined_passes_close(rt: HostRuntime) -> Result<(), Fail> {
    let alloc = rt.alloc();
    let (desk, mut pass) = make(alloc, 5, 4)?;
    let mut other = desk.split(&mut pass);
    let opened = desk.call(&rt, alloc, &mut other, Event::Open(Kind::Rpc));
    assert_eq!(rt; told(opened), 5);
    desk.join(&mut pass, other);
    assert_eq!(rt; desk.close(pass).entries().len(), 1);
    Ok(())
}

/// A full machine halts the call that meets it, and stops those behind it.
#[test]
fn a_halt_is_final(rt: HostRuntime) -> Result<(), Fail> {
    let alloc = rt.alloc();
    let (desk, mut pass) = make(alloc, 0, 4)?;
    let mut other = desk.split(&mut pass);
    assert_eq!(rt; tick(&rt, alloc, &desk, &mut pass, &[0, 1, 2, 3]), 4);
    assert!(rt; desk.check(&rt, &mut pass).is_ok());
    let halted = desk.call(&rt, alloc, &mut other, Event::Tick(Moment(4)));
    assert_eq!(rt; told(halted), 104);
    let stopped = desk.call(&rt, alloc, &mut pass, Event::Tick(Moment(5)));
    assert_eq!(rt; told(stopped), 204);
    let Err(DeskErr::Stopped(Halt::JournalFull(4), 4)) = desk.check(&rt, &mut pass) else {
        return Err(Fail::new("a halt"));
    };
    Ok(())
}

/// Each caller is given the calls of its share, in order, and then none.
#[test]
fn calls_are_found_by_share(rt: HostRuntime) -> Result<(), Fail> {
    let alloc = rt.alloc();
    let (desk, mut pass) = make(alloc, 0, 8)?;
    assert_eq!(rt; tick(&rt, alloc, &desk, &mut pass, &[4, 5, 7, 8]), 4);
    let rows = [
        (0, 0, 0, 4, 0),
        (4, 0, 0, 8, 3),
        (8, 0, 0, 0, 4),
        (0, 1, 0, 5, 1),
        (5, 1, 1, 7, 2),
        (0, 1, 2, 7, 2),
        (0, 1, 3, 0, 4),
    ]
    .map(|(after, share, from, number, at)| Row {
        after,
        share,
        from,
        number,
        at,
    });
    assert!(rt; are_found(&rt, alloc, &desk, &mut pass, &rows)?);
    Ok(())
}

/// Makes a call, and then looks until the other's is answered.
fn meets<R: Wait>(
    rt: &R,
    alloc: Global,
    desk: &Desk<Echo>,
    mut pass: Pass<Echo>,
    mine: u64,
    theirs: u64,
) -> Result<bool, AllocError>
    requires { (pass.desk ≡ desk.now) × (pass.view.first ≡ 0) }
{
    let call = message(alloc, mine, b"here")?;
    if desk.call(rt, alloc, &mut pass, call).is_err() {
        return Ok(false);
    }
    for _ in 0..MOST_LOOKS {
        let (sent, _) = desk.look(rt, alloc, &mut pass, theirs, 0)?;
        if !sent.is_empty() {
            return Ok(true);
        }
        thread::yield_now();
    }
    Ok(false)
}

/// Each of two threads waits for the other's call to be answered; one thread alone would wait in vain.
#[test]
fn two_threads_meet(rt: HostRuntime) -> Result<(), Fail> {
    let alloc = rt.alloc();
    let (desk, mut pass) = make(alloc, 0, 8)?;
    let one = desk.call(&rt, alloc, &mut pass, Event::Open(Kind::Smb));
    let two = desk.call(&rt, alloc, &mut pass, Event::Open(Kind::Smb));
    assert_eq!(rt; (told(one), told(two)), (0u64, 1u64));
    let other = desk.split(&mut pass);
    let (desk, rt_of) = (&desk, &rt);
    let (one, two) = join(
        rt_of,
        || -> Result<bool, AllocError>
            requires { (pass.desk ≡ desk.now) × (pass.view.first ≡ 0) }
        { meets(rt_of, alloc, desk, pass, 0, 1) },
        || -> Result<bool, AllocError>
            requires { (other.desk ≡ desk.now) × (other.view.first ≡ 0) }
        { meets(rt_of, alloc, desk, other, 1, 0) },
    );
    assert!(rt; one? && two?);
    Ok(())
}
