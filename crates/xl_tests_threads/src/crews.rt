//! Lanes and callers that are served at once.
ghost use Rattle.std.specs.Prelude.{◌≡◌, ◌≤◌, IfOk, IfSome, vec_len, false};

use crate::calls::is_told;
use crate::desk::make;
use crate::echo::Echo;
use crate::lanes::{end_of, is_link, lane, letters, peer, record};
use std::alloc::{AllocError, Global};
use std::sync::Wait;
use std::sync::atomic::{AtomicU64, Ordering};
use std::test::Fail;
use std::thread;
use std::thread::Threads;
use xl_base::{
    Asked, Event, Gate, MemoryCaller, MemoryClock, MemoryLane, Moment, OpenGate, Peer, Sequence,
};
use xl_work::{Crew, CrewDone, serve_all};

/// How often the gate looks for the other lane's call before it gives up.
const MOST_LOOKS: u64 = 1_000_000_000;

/// Lets the other threads run a while.
fn rest() {
    for _ in 0..1_000u32 {
        thread::yield_now();
    }
}

/// A gate that stays inside the question of one call until another one is asked for. It says no if it looked in vain, and yes to
/// all others.
#[derive(Drop)]
struct MeetingGate {
    held: u64,
    until: u64,
    met: AtomicU64,
}

impl MeetingGate {
    /// Looks until the other call was asked for; whether it was.
    fn meets(&self) -> bool {
        for _ in 0..MOST_LOOKS {
            if self.met.load(Ordering::SeqCst) == 1 {
                rest();
                return true;
            }
            thread::yield_now();
        }
        false
    }
}

impl Gate for MeetingGate {
    ghost is_open = { λ _. false };

    fn pass(&self, call: u64, _turns: u64) -> bool {
        if call == self.until {
            self.met.store(1, Ordering::SeqCst);
        }
        call != self.held || self.meets()
    }
}

/// A gate that holds the calls of callers, whose places are behind those of two lanes, until the lanes have asked for so many calls. It
/// says no if it looked in vain.
#[derive(Drop)]
struct LanesFirst {
    calls: u64,
    asked: AtomicU64,
}

impl LanesFirst {
    /// Looks until the lanes have asked for all their calls; whether they have.
    fn waits(&self) -> bool {
        for _ in 0..MOST_LOOKS {
            if self.asked.load(Ordering::SeqCst) >= self.calls {
                return true;
            }
            thread::yield_now();
        }
        false
    }
}

impl Gate for LanesFirst {
    ghost is_open = { λ _. false };

    fn pass(&self, call: u64, _turns: u64) -> bool {
        if call < 8_589_934_592 {
            self.asked.fetch_add(1, Ordering::SeqCst);
            return true;
        }
        self.waits()
    }
}

/// Serves a crew over a machine; the crew, and the machine with its entries. None comes if memory runs out.
fn serve<R: Threads + Wait + Sync, G: Gate + Sync>(
    rt: &R,
    alloc: Global,
    gate: &G,
    crew: Crew<MemoryLane, MemoryCaller>,
    clock: MemoryClock,
) -> Result<(CrewDone<MemoryLane, MemoryCaller>, Echo), AllocError>
    requires { (vec_len crew.lanes ≤ 64) × (vec_len crew.callers ≤ 64) }
{
    let (desk, pass) = make(alloc, 0, 64)?;
    let (pass, done, _) = serve_all(rt, alloc, &desk, gate, pass, crew, clock);
    let machine = desk.close(pass);
    Ok((done?, machine))
}

/// A clock that reads always this.
fn clock(alloc: Global, first: u64, later: Vec<Moment>) -> MemoryClock {
    MemoryClock::new(alloc, Moment(first), later)
}

/// Two lanes, each with a peer that sends two messages, and no caller.
fn two_lanes(alloc: Global, turns: u64) -> Result<Crew<MemoryLane, MemoryCaller>, AllocError>
    ensures { IfOk result (λ crew. (vec_len crew.lanes ≤ 64) × (vec_len crew.callers ≤ 64)) }
{
    let first = lane(alloc, letters(alloc, b"ab", b"cd")?, None, 0)?;
    let second = lane(alloc, letters(alloc, b"ef", b"gh")?, None, 0)?;
    let mut lanes = Vec::with_capacity(alloc, 2)?;
    lanes.push_reserved(first);
    lanes.push_reserved(second);
    Ok(Crew {
        lanes,
        callers: Vec::new(alloc),
        turns,
    })
}

/// Whether both lanes ended by their end, and their links were sent these.
fn are_both_served(done: &CrewDone<MemoryLane, MemoryCaller>) -> bool {
    match done.lanes.as_slice() {
        [first, second] => {
            end_of(first.end) == 1
                && end_of(second.end) == 1
                && is_link(first.lane.links().first(), b"abcd", true, 0, true)
                && is_link(second.lane.links().first(), b"efgh", true, 0, true)
        }
        _ => false,
    }
}

/// Whether the lanes are served if a call of one waits for one of the other.
fn do_meet<R: Threads + Wait + Sync>(
    rt: &R,
    alloc: Global,
    held: u64,
    until: u64,
) -> Result<bool, AllocError> {
    let gate = MeetingGate {
        held,
        until,
        met: AtomicU64::new(0),
    };
    let crew = two_lanes(alloc, 1_000)?;
    let (done, machine) = serve(rt, alloc, &gate, crew, clock(alloc, 0, Vec::new(alloc)))?;
    Ok(are_both_served(&done) && machine.entries().len() == 8)
}

/// The first call of one lane waits until the other lane asks for its second one. Workers in a row on one thread would wait in vain:
/// turn by turn too, since the gate holds the one lane inside its question.
#[test]
fn the_first_lane_waits_for_the_second(rt: HostRuntime) -> Result<(), Fail> {
    assert!(rt; do_meet(&rt, rt.alloc(), 0, 4_294_967_297)?);
    Ok(())
}

/// The other way round.
#[test]
fn the_second_lane_waits_for_the_first(rt: HostRuntime) -> Result<(), Fail> {
    assert!(rt; do_meet(&rt, rt.alloc(), 4_294_967_296, 1)?);
    Ok(())
}

/// The moments of the readings among the entries, added up, and how many there are.
fn ticks_in(machine: &Echo) -> (u64, usize) {
    let mut sum: u64 = 0;
    let mut count: usize = 0;
    for entry in machine.entries() {
        if let Event::Tick(moment) = &entry.event {
            sum = sum.saturating_add(moment.0);
            count = count.saturating_add(1);
        }
    }
    (sum, count)
}

/// A reading is entered once it is 1,000 above the last one that was, and counts from the first.
#[test]
fn readings_are_entered_once_they_are_due(rt: HostRuntime) -> Result<(), Fail> {
    let alloc = rt.alloc();
    let crew = two_lanes(alloc, 1_000)?;
    let steady = clock(alloc, 5, Vec::from_slice(alloc, &[Moment(1_005)])?);
    let (done, machine) = serve(&rt, alloc, &OpenGate, crew, steady)?;
    assert!(rt; are_both_served(&done));
    assert_eq!(rt; ticks_in(&machine), (1_000u64, 1usize));
    let later = [Moment(999), Moment(2_500), Moment(100), Moment(3_499)];
    let unsteady = clock(alloc, 0, Vec::from_slice(alloc, &later)?);
    let (done, machine) = serve(&rt, alloc, &OpenGate, two_lanes(alloc, 1_000)?, unsteady)?;
    assert!(rt; are_both_served(&done));
    assert_eq!(rt; ticks_in(&machine), (2_500u64, 1usize));
    Ok(())
}

/// Two callers, of which each answers all calls so.
fn two_callers(alloc: Global) -> Result<Vec<MemoryCaller>, AllocError>
    ensures { IfOk result (λ callers. vec_len callers ≡ 2) }
{
    let mut callers = Vec::with_capacity(alloc, 2)?;
    callers.push_reserved(MemoryCaller::new(alloc, Vec::new(alloc), Vec::new(alloc)));
    callers.push_reserved(MemoryCaller::new(alloc, Vec::new(alloc), Vec::new(alloc)));
    Ok(callers)
}

/// How many calls a caller made.
fn calls_of(caller: &MemoryCaller) -> usize {
    match caller.told() {
        Some(told) => told
            .iter()
            .filter(|asked| matches!(asked, Asked::Call(_, _, _)))
            .count(),
        None => 99,
    }
}

/// How many of the entries are ends of calls whose number is this modulo 2.
fn calls_in(machine: &Echo, share: u64) -> usize {
    machine
        .entries()
        .iter()
        .filter(|entry| match &entry.event {
            Event::Called(number, _) => number % 2 == share,
            _ => false,
        })
        .count()
}

/// Two lanes, each with a peer whose two messages ask for a call each, and two callers.
fn two_and_two(alloc: Global) -> Result<Crew<MemoryLane, MemoryCaller>, AllocError>
    ensures { IfOk result (λ crew. (vec_len crew.lanes ≤ 64) × (vec_len crew.callers ≤ 64)) }
{
    let first = lane(alloc, letters(alloc, b"?b", b"?d")?, None, 0)?;
    let second = lane(alloc, letters(alloc, b"?f", b"?h")?, None, 0)?;
    let mut lanes = Vec::with_capacity(alloc, 2)?;
    lanes.push_reserved(first);
    lanes.push_reserved(second);
    Ok(Crew {
        lanes,
        callers: two_callers(alloc)?,
        turns: 10_000,
    })
}

/// Each of two callers makes the calls of its share, and no others. They begin once each lane has asked for its opening, its two
/// messages and its end, so that all calls are in the journal.
#[test]
fn callers_share_the_calls(rt: HostRuntime) -> Result<(), Fail> {
    let alloc = rt.alloc();
    let gate = LanesFirst {
        calls: 8,
        asked: AtomicU64::new(0),
    };
    let crew = two_and_two(alloc)?;
    let readings = clock(alloc, 0, Vec::new(alloc));
    let (done, machine) = serve(&rt, alloc, &gate, crew, readings)?;
    let [first, second] = done.callers.as_slice() else {
        return Err(Fail::new("two callers"));
    };
    let made = (calls_of(&first.caller), calls_of(&second.caller));
    assert_eq!(rt; made, (calls_in(&machine, 0), calls_in(&machine, 1)));
    assert_eq!(rt; made.0.saturating_add(made.1), 4usize);
    Ok(())
}

/// Two lanes: to the first comes a peer that sends a message, and then is quiet; to the second one whose message goes to the
/// connection 0.
fn lane_that_waits(alloc: Global) -> Result<Crew<MemoryLane, MemoryCaller>, AllocError>
    ensures { IfOk result (λ crew. (vec_len crew.lanes ≤ 64) × (vec_len crew.callers ≤ 64)) }
{
    let quiet = peer(alloc, record(alloc, 0, b"ab")?, record(alloc, 99, b"cd")?)?;
    let other = peer(alloc, record(alloc, 0, b"!\0")?, record(alloc, 99, b"cd")?)?;
    let mut lanes = Vec::with_capacity(alloc, 2)?;
    lanes.push_reserved(lane(alloc, quiet, None, 0)?);
    lanes.push_reserved(lane(alloc, other, None, 0)?);
    Ok(Crew {
        lanes,
        callers: Vec::new(alloc),
        turns: 2,
    })
}

/// A link that is open when its lane's turns are done is sent what was sent to it since.
#[test]
fn an_open_link_is_sent_the_rest(rt: HostRuntime) -> Result<(), Fail> {
    let alloc = rt.alloc();
    let gate = MeetingGate {
        held: 4_294_967_296,
        until: 1,
        met: AtomicU64::new(0),
    };
    let crew = lane_that_waits(alloc)?;
    let readings = clock(alloc, 0, Vec::new(alloc));
    let (done, _) = serve(&rt, alloc, &gate, crew, readings)?;
    let [first, _] = done.lanes.as_slice() else {
        return Err(Fail::new("two lanes"));
    };
    assert_eq!(rt; end_of(first.end), 102);
    assert!(rt; is_link(first.lane.links().first(), b"ab!\0", false, 0, false));
    Ok(())
}

/// Two lanes with more turns than can be done: to the first comes a peer that is quiet, to the second one that sends two messages.
fn quiet_and_busy(alloc: Global) -> Result<Crew<MemoryLane, MemoryCaller>, AllocError>
    ensures { IfOk result (λ crew. (vec_len crew.lanes ≤ 64) × (vec_len crew.callers ≤ 64)) }
{
    let quiet = peer(alloc, record(alloc, 99, b"ab")?, record(alloc, 99, b"cd")?)?;
    let mut lanes = Vec::with_capacity(alloc, 2)?;
    lanes.push_reserved(lane(alloc, quiet, None, 0)?);
    lanes.push_reserved(lane(alloc, letters(alloc, b"ef", b"gh")?, None, 0)?);
    Ok(Crew {
        lanes,
        callers: Vec::new(alloc),
        turns: 1_000_000_000,
    })
}

/// A lane whose link is quiet ends once another lane has met a full machine.
#[test]
fn a_halt_stops_a_quiet_lane(rt: HostRuntime) -> Result<(), Fail> {
    let alloc = rt.alloc();
    let crew = quiet_and_busy(alloc)?;
    let (desk, pass) = make(alloc, 0, 3)?;
    let readings = clock(alloc, 0, Vec::new(alloc));
    let (_, done, _) = serve_all(&rt, alloc, &desk, &OpenGate, pass, crew, readings);
    let done = done?;
    let [first, second] = done.lanes.as_slice() else {
        return Err(Fail::new("two lanes"));
    };
    assert_eq!(rt;
        (end_of(first.end), end_of(second.end)),
        (1_003u64, 1_003u64)
    );
    Ok(())
}
