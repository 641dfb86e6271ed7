//! Lanes over a desk.
ghost use Rattle.std.specs.Prelude.{◌≤◌};

use crate::calls::is_told;
use crate::desk::make;
use crate::echo::Echo;
use std::alloc::{AllocError, Global};
use std::collections::VecDeque;
use std::sync::Wait;
use std::test::Fail;
use xl_base::{
    Event, Gate, Halt, Held, Kind, LaneEnd, Link, MemoryCaller, MemoryGate, MemoryLane, OpenGate,
    Part, Peer, Sequence,
};
use xl_work::{CallerPost, CallsDone, LaneDone, LanePost, serve_calls, serve_lane};

/// A part of a peer that speaks ONC RPC: this text as a record of one fragment, once so many bytes were sent to the peer.
pub(crate) fn record(alloc: Global, after: usize, text: &[u8]) -> Result<Part, AllocError> {
    let mut bytes = Sequence::new(alloc);
    bytes.extend_from_slice(&[128, 0, 0, (text.len() % 256) as u8])?;
    bytes.extend_from_slice(text)?;
    Ok(Part { after, bytes })
}

/// These bytes as they are.
fn raw(alloc: Global, bytes: &[u8]) -> Result<Part, AllocError> {
    Ok(Part {
        after: 0,
        bytes: Sequence::from_slice(alloc, bytes)?,
    })
}

/// A peer that sends one part, and then another.
pub(crate) fn peer(alloc: Global, first: Part, second: Part) -> Result<Peer, AllocError> {
    let mut parts = VecDeque::new(alloc);
    parts.push_back(first)?;
    parts.push_back(second)?;
    Ok(Peer {
        kind: Kind::Rpc,
        parts,
    })
}

/// A lane to which these two peers come, and of which the call of this number fails, if it is above 0.
pub(crate) fn lane(
    alloc: Global,
    first: Peer,
    second: Option<Peer>,
    failing: u64,
) -> Result<MemoryLane, AllocError> {
    let mut peers = VecDeque::new(alloc);
    peers.push_back(first)?;
    if let Some(second) = second {
        peers.push_back(second)?;
    }
    let failing = Vec::from_slice(alloc, &[failing])?;
    Ok(MemoryLane::new(alloc, peers, failing))
}

/// A peer that sends two messages of two letters.
pub(crate) fn letters(alloc: Global, first: &[u8], second: &[u8]) -> Result<Peer, AllocError> {
    peer(alloc, record(alloc, 0, first)?, record(alloc, 0, second)?)
}

/// Serves the lane over a machine that is full with so many entries.
fn serve<R: Wait, G: Gate>(
    rt: &R,
    alloc: Global,
    gate: &G,
    most: usize,
    turns: u64,
    lane: MemoryLane,
) -> Result<LaneDone<MemoryLane>, AllocError>
    requires { most ≤ 100 }
{
    let (desk, pass) = make(alloc, 0, most)?;
    let post = LanePost { place: 0, turns };
    let (_, done) = serve_lane(rt, alloc, &desk, gate, pass, post, lane);
    Ok(done)
}

/// How a lane ended: 1 by its end, 10 and the count of faults at a lost link, 100 and the number of turns, 1,000 and the number
/// of entries of a full machine.
pub(crate) fn end_of(end: LaneEnd) -> u64 {
    match end {
        LaneEnd::End => 1,
        LaneEnd::Failed(count) => count.saturating_add(10),
        LaneEnd::Turns(turns) => turns.saturating_add(100),
        LaneEnd::Stopped(Halt::JournalFull(_), count) => count.saturating_add(1_000),
        _ => 9,
    }
}

/// Whether this was sent to the link, which said its end and is shut, or not, and of which so many calls failed.
pub(crate) fn is_link(
    link: Option<&Link>,
    sent: &[u8],
    ended: bool,
    failed: u64,
    shut: bool,
) -> bool {
    match link {
        Some(link) => {
            link.sent.as_slice() == sent
                && link.ended == ended
                && link.failed == failed
                && link.shut == shut
        }
        None => false,
    }
}

/// What a link sends once it was sent the reply to its first message is served, and answered, too.
#[test]
fn a_reply_is_sent_before_the_next_turn(rt: HostRuntime) -> Result<(), Fail> {
    let alloc = rt.alloc();
    let peer = peer(
        alloc,
        record(alloc, 0, b"lock")?,
        record(alloc, 4, b"unlock")?,
    )?;
    let done = serve(
        &rt,
        alloc,
        &OpenGate,
        16,
        1_000,
        lane(alloc, peer, None, 0)?,
    )?;
    assert_eq!(rt; end_of(done.end), 1);
    assert!(rt; is_link(done.lane.links().first(), b"lockunlock", true, 0, true));
    assert_eq!(rt; done.conns.len(), 1);
    Ok(())
}

/// The call that fails, and what the lane comes to then: its end, how many links it had, and how many bytes were sent to
/// the first, and whether that said its end, and how many of its calls failed.
#[derive(Clone, Copy)]
struct Row {
    failing: u64,
    end: u64,
    links: usize,
    sent: usize,
    ended: bool,
    failed: u64,
}

/// Whether a lane with two peers comes to what the row has. The link behind one of which a call failed is served whole.
fn is_served<R: Wait>(rt: &R, alloc: Global, row: &Row) -> Result<bool, AllocError> {
    let first = letters(alloc, b"ab", b"cd")?;
    let second = letters(alloc, b"ef", b"gh")?;
    let lane = lane(alloc, first, Some(second), row.failing)?;
    let done = serve(rt, alloc, &OpenGate, 16, 100, lane)?;
    let links = done.lane.links();
    let sent = &b"abcd"[..row.sent.min(4)];
    let first = is_link(links.last(), sent, row.ended, row.failed, true) || row.links == 0;
    let second = is_link(links.first(), b"efgh", true, 0, true) || row.links < 2;
    Ok(first && second && links.len() == row.links && end_of(done.end) == row.end)
}

/// Whether a lane comes to what each of the rows has.
fn are_served<R: Wait>(rt: &R, alloc: Global, rows: &[Row]) -> Result<bool, AllocError> {
    'rows: for row in rows {
        if !is_served(rt, alloc, row)? {
            return Ok(false);
        }
    }
    Ok(true)
}

/// A call of a link that fails ends its connection, and the lane goes on; a lost link ends the lane.
#[test]
fn each_call_fails_in_turn(rt: HostRuntime) -> Result<(), Fail> {
    let rows = [
        (0, 1, 2, 4, true, 0),
        (1, 11, 0, 0, false, 0),
        (2, 1, 2, 0, false, 1),
        (3, 1, 2, 1, false, 1),
        (4, 1, 2, 2, false, 1),
        (5, 1, 2, 2, false, 1),
        (6, 1, 2, 3, false, 1),
        (7, 1, 2, 4, false, 1),
        (8, 1, 2, 4, false, 1),
        (9, 11, 1, 4, true, 0),
    ]
    .map(|(failing, end, links, sent, ended, failed)| Row {
        failing,
        end,
        links,
        sent,
        ended,
        failed,
    });
    assert!(rt; are_served(&rt, rt.alloc(), &rows)?);
    Ok(())
}

/// A bad frame ends the connection behind the messages before it.
#[test]
fn a_bad_frame_ends_a_connection(rt: HostRuntime) -> Result<(), Fail> {
    let alloc = rt.alloc();
    let peer = peer(alloc, record(alloc, 0, b"ab")?, raw(alloc, &[0, 0, 0, 0])?)?;
    let done = serve(&rt, alloc, &OpenGate, 16, 100, lane(alloc, peer, None, 0)?)?;
    assert_eq!(rt; end_of(done.end), 1);
    assert!(rt; is_link(done.lane.links().first(), b"ab", false, 0, true));
    Ok(())
}

/// All turns that were given are done, and no more.
#[test]
fn a_lane_ends_by_its_turns(rt: HostRuntime) -> Result<(), Fail> {
    let alloc = rt.alloc();
    let lane = lane(alloc, letters(alloc, b"ab", b"cd")?, None, 0)?;
    let done = serve(&rt, alloc, &OpenGate, 16, 3, lane)?;
    assert_eq!(rt; end_of(done.end), 103);
    assert_eq!(rt; xl_base::Lane::asked(&done.lane), 3);
    assert!(rt; is_link(done.lane.links().first(), b"ab", false, 0, false));
    Ok(())
}

/// A connection whose opening the gate holds back is opened once it lets it pass.
#[test]
fn a_gate_holds_an_opening_back(rt: HostRuntime) -> Result<(), Fail> {
    let alloc = rt.alloc();
    let held = Held { call: 0, turns: 3 };
    let gate = MemoryGate::new(Vec::from_slice(alloc, &[held])?);
    let first = lane(alloc, letters(alloc, b"ab", b"cd")?, None, 0)?;
    let done = serve(&rt, alloc, &gate, 16, 3, first)?;
    assert_eq!(rt; (end_of(done.end), done.conns.len()), (103u64, 0usize));
    let second = lane(alloc, letters(alloc, b"ab", b"cd")?, None, 0)?;
    let done = serve(&rt, alloc, &gate, 16, 4, second)?;
    assert_eq!(rt; (end_of(done.end), done.conns.len()), (104u64, 1usize));
    Ok(())
}

/// A machine that is full takes no message any more, and what it sent before is sent.
#[test]
fn a_full_machine_stops_a_lane(rt: HostRuntime) -> Result<(), Fail> {
    let alloc = rt.alloc();
    let lane = lane(alloc, letters(alloc, b"ab", b"cd")?, None, 0)?;
    let done = serve(&rt, alloc, &OpenGate, 2, 100, lane)?;
    assert_eq!(rt; end_of(done.end), 1_002);
    assert!(rt; is_link(done.lane.links().first(), b"ab", false, 0, false));
    Ok(())
}

/// Serves a lane whose first message asks for the call 1, and then that call, to which the client answers so; and closes the
/// desk.
fn serve_call<R: Wait>(
    rt: &R,
    alloc: Global,
    answer: Option<Sequence<u8>>,
) -> Result<(CallsDone<MemoryCaller>, Echo), AllocError> {
    let (desk, pass) = make(alloc, 0, 16)?;
    let lane = lane(alloc, letters(alloc, b"?x", b"yz")?, None, 0)?;
    let post = LanePost {
        place: 0,
        turns: 100,
    };
    let (mut pass, _) = serve_lane(rt, alloc, &desk, &OpenGate, pass, post, lane);
    let mut answers = Vec::with_capacity(alloc, 1)?;
    answers.push(answer)?;
    let caller = MemoryCaller::new(alloc, answers, Vec::new(alloc));
    let post = CallerPost {
        place: 1,
        turns: 2,
        share: 0,
        of: 1,
    };
    let done = serve_calls(rt, alloc, &desk, &OpenGate, &mut pass, post, caller);
    Ok((done, desk.close(pass)))
}

/// How the last of the entries says that the call 1 is over: 1 with this record, 2 without one.
fn call_over(machine: &Echo, record: &[u8]) -> u64 {
    match machine.entries().last() {
        Some(entry) => match &entry.event {
            Event::Called(1, Some(bytes)) if bytes.as_slice() == record => 1,
            Event::Called(1, None) => 2,
            _ => 9,
        },
        None => 9,
    }
}

/// A call that a link's message asks for is made once, and entered with its answer, or without one if there is nobody.
#[test]
fn a_call_of_a_lane_is_made(rt: HostRuntime) -> Result<(), Fail> {
    let alloc = rt.alloc();
    let record = Sequence::from_slice(alloc, b"record")?;
    let (done, machine) = serve_call(&rt, alloc, Some(record))?;
    assert_eq!(rt; end_of(done.end), 102);
    assert!(rt; is_told(&done.caller, &[1, 105]));
    assert_eq!(rt; call_over(&machine, b"record"), 1);
    let (done, machine) = serve_call(&rt, alloc, None)?;
    assert_eq!(rt; end_of(done.end), 102);
    assert!(rt; is_told(&done.caller, &[2, 105]));
    assert_eq!(rt; call_over(&machine, b"record"), 2);
    Ok(())
}
