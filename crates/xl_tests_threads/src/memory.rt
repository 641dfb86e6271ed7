//! The lane and the clock in memory.

use std::alloc::{AllocError, Global};
use std::collections::VecDeque;
use std::str::Split;
use std::test::Fail;
use xl_base::{
    Clock, Kind, Lane, Link, MemoryClock, MemoryLane, Moment, NextOutcome, Part, Peer,
    ReceiveOutcome, Sequence, WriteOutcome,
};

/// What a peer sends, and behind how many bytes that were sent to it.
const PARTS: [(usize, &[u8]); 3] = [(0, b"abcd"), (0, b""), (4, b"ef")];

/// The calls of a lane: `n` waits for the next link, `r` for up to three bytes, `s` sends `wxyz`, and `x` shuts the link.
const CALLS: &[u8] = b"nrrrrrsrrrxnrn";

/// The number of the call that fails, 0 for none; what each call comes to; how many failed, and how many of these were
/// for a link. Then what was taken from the first link and sent to it, how many of its calls failed, and `e` if it
/// ended and `s` if it was shut, or a dash.
///
/// A link is `R` for RPC and `S` for SMB, and `E` none. A number is how many bytes came, `q` none yet, and `e` none any more;
/// `w` is written, and `f` failed.
const ROWS: &str = "\
0 R31qqqw2qexSeE 0 0 abcdef wxyz 0 es
1 fqqqqqwqqqxR3S 1 1 abc - 0 -
2 Rf31qqw2qexSeE 1 0 abcdef wxyz 1 es
3 R3f1qqw2qexSeE 1 0 abcdef wxyz 1 es
4 R31fqqw2qexSeE 1 0 abcdef wxyz 1 es
5 R31qfqw2qexSeE 1 0 abcdef wxyz 1 es
6 R31qqfw2qexSeE 1 0 abcdef wxyz 1 es
7 R31qqqfqqqxSeE 1 0 abcd wx 1 s
8 R31qqqwf2qxSeE 1 0 abcdef wxyz 1 s
9 R31qqqw2fqxSeE 1 0 abcdef wxyz 1 s
10 R31qqqw2qfxSeE 1 0 abcdef wxyz 1 s
11 R31qqqw2qexfeS 1 1 abcdef wxyz 0 es
12 R31qqqw2qexSfE 1 0 abcdef wxyz 0 es
13 R31qqqw2qexSef 1 1 abcdef wxyz 0 es";

fn part(alloc: Global, after: usize, bytes: &[u8]) -> Result<Part, AllocError> {
    Ok(Part {
        after,
        bytes: Sequence::from_slice(alloc, bytes)?,
    })
}

fn parts(alloc: Global) -> Result<VecDeque<Part>, AllocError> {
    let mut parts = VecDeque::new(alloc);
    for (after, bytes) in PARTS {
        parts.push_back(part(alloc, after, bytes)?)?;
    }
    Ok(parts)
}

/// A peer of RPC that sends its parts, and one of SMB that sends nothing.
fn peers(alloc: Global) -> Result<VecDeque<Peer>, AllocError> {
    let rpc = Peer {
        kind: Kind::Rpc,
        parts: parts(alloc)?,
    };
    let smb = Peer {
        kind: Kind::Smb,
        parts: VecDeque::new(alloc),
    };
    let peers = VecDeque::from_array(alloc, [rpc, smb])?;
    Ok(peers)
}

fn lane(alloc: Global, failing: u64) -> Result<MemoryLane, AllocError> {
    let failing = Vec::from_slice(alloc, &[failing])?;
    Ok(MemoryLane::new(alloc, peers(alloc)?, failing))
}

fn next(lane: &mut MemoryLane) -> u8 {
    match lane.next() {
        NextOutcome::Link(Kind::Rpc) => b'R',
        NextOutcome::Link(Kind::Smb) => b'S',
        NextOutcome::Quiet => b'q',
        NextOutcome::End => b'E',
        NextOutcome::Failed => b'f',
    }
}

fn recv(lane: &mut MemoryLane) -> u8 {
    match lane.recv(&mut [0u8; 3]) {
        ReceiveOutcome::Got(1) => b'1',
        ReceiveOutcome::Got(2) => b'2',
        ReceiveOutcome::Got(_) => b'3',
        ReceiveOutcome::Quiet => b'q',
        ReceiveOutcome::End => b'e',
        ReceiveOutcome::Failed => b'f',
    }
}

fn send(lane: &mut MemoryLane) -> u8 {
    match lane.send(b"wxyz") {
        WriteOutcome::Wrote => b'w',
        WriteOutcome::Failed => b'f',
    }
}

fn called(lane: &mut MemoryLane, call: u8) -> u8 {
    match call {
        b'n' => next(lane),
        b'r' => recv(lane),
        b's' => send(lane),
        _ => {
            lane.shut();
            b'x'
        }
    }
}

/// Whether the calls come to this.
fn come_to(lane: &mut MemoryLane, wanted: &[u8]) -> bool {
    'calls: for (call, want) in CALLS.iter().zip(wanted) {
        if called(lane, *call) != *want {
            return false;
        }
    }
    wanted.len() == CALLS.len()
}

fn next_word<'a>(words: &mut Split<'a, char>) -> &'a str {
    words.next().unwrap_or("")
}

fn next_number(words: &mut Split<'_, char>) -> u64 {
    next_word(words).parse().unwrap_or(99)
}

fn are_next(bytes: &[u8], words: &mut Split<'_, char>) -> bool {
    let word = next_word(words);
    bytes == word.as_bytes() || bytes.is_empty() && word == "-"
}

fn end_of(link: &Link) -> &'static str {
    match (link.ended, link.shut) {
        (true, true) => "es",
        (true, false) => "e",
        (false, true) => "s",
        (false, false) => "-",
    }
}

fn is_link(link: &Link, words: &mut Split<'_, char>) -> bool {
    are_next(link.taken.as_slice(), words)
        && are_next(link.sent.as_slice(), words)
        && link.failed == next_number(words)
        && next_word(words) == end_of(link)
}

fn are_links(links: &[Link], words: &mut Split<'_, char>) -> bool {
    match links {
        [_, first] => is_link(first, words),
        _ => false,
    }
}

fn are_counts(lane: &MemoryLane, words: &mut Split<'_, char>) -> bool {
    lane.asked() == 12 && lane.faults() == next_number(words) && lane.lost() == next_number(words)
}

fn ends_so(mut lane: MemoryLane, mut words: Split<'_, char>) -> bool {
    let wanted = next_word(&mut words).as_bytes();
    come_to(&mut lane, wanted)
        && lane.ended() == wanted.ends_with(b"E")
        && are_counts(&lane, &mut words)
        && are_links(lane.links(), &mut words)
}

fn is_row(alloc: Global, row: &str) -> Result<bool, AllocError> {
    let mut words = row.split(' ');
    let lane = lane(alloc, next_number(&mut words))?;
    Ok(ends_so(lane, words))
}

/// A lane gives what its peers send in pieces, and takes what is sent to them, whichever of its calls fails.
#[test]
fn a_lane_fails_at_each_call(rt: HostRuntime) {
    for row in ROWS.lines() {
        assert!(rt; matches!(is_row(rt.alloc(), row), Ok(true)), "at {row}");
    }
}

/// Whether the clock gives these readings, in order.
fn gives(clock: &mut MemoryClock, wanted: &[u64]) -> bool {
    for want in wanted {
        if clock.now().0 != *want {
            return false;
        }
    }
    true
}

/// A clock gives its readings, which may go back, and the last of them again and again.
#[test]
fn a_clock_gives_its_readings(rt: HostRuntime) -> Result<(), Fail> {
    let later = Vec::from_slice(rt.alloc(), &[Moment(3), Moment(9)])?;
    let mut clock = MemoryClock::new(rt.alloc(), Moment(5), later);
    assert!(rt; gives(&mut clock, &[5, 3, 9, 9, 9]));
    Ok(())
}
