//! A lane and a caller over a house. Records and replies are in hex. Above each record, its frame included, are its words, as
//! `tools/capture_from_words.py` has them.
ghost use Rattle.std.specs.Prelude.{◌≡◌};

use crate::exports::exports;
use std::alloc::Global;
use std::collections::VecDeque;
use std::sync::Wait;
use std::test::Fail;
use xl_base::{
    Asked, CallOutcome, Entry, Event, Kind, LaneEnd, MemoryCaller, MemoryKeeper, MemoryLane,
    Moment, OpenGate, Part, Peer, Record, Sequence,
};
use xl_desk::{Desk, NoRoom, Pass};
use xl_house::House;
use xl_work::{CallerPost, CallsDone, LaneDone, LanePost, serve_calls, serve_lane};

/// What a link gives, and behind how many bytes that it was sent.
const LINK: [(usize, &str); 3] = [
    // lock a 7 a.txt 0 10 x
    (
        0,
        "80000068000000010000000000000002000186b5000000040000000200000000000000000000000000000000000000000000000000000001000000016100000000000008584c4b310000000100000000000000070000000000000000000000000000000a0000000000000000",
    ),
    // lock b 7 a.txt 0 10 x block
    (
        36,
        "80000068000000020000000000000002000186b5000000040000000200000000000000000000000000000000000000000000000100000001000000016200000000000008584c4b310000000100000000000000070000000000000000000000000000000a0000000000000000",
    ),
    // unlock a 7 a.txt 0 10
    (
        72,
        "80000058000000030000000000000002000186b500000004000000040000000000000000000000000000000000000000000000016100000000000008584c4b310000000100000000000000070000000000000000000000000000000a",
    ),
];

/// The replies: the lock is granted, the next one waits, and the unlock is granted.
const REPLIES: &str = "\
    800000200000000100000001000000000000000000000000000000000000000000000000\
    800000200000000200000001000000000000000000000000000000000000000000000003\
    800000200000000300000001000000000000000000000000000000000000000000000000";

/// The record by which the client of `b` answers call 2: it says that the program is unavailable.
const UNAVAILABLE: &str = "0000000200000001000000000000000000000000000000000000000000000001";

/// No record: the client doesn't answer.
const NOTHING: &str = "-";

/// No record: the call fails.
const FAILS: &str = "!";

/// What the house exports: `a.txt`, and the address at which the caller `b` is called back.
const EXPORTS: &[u8] = b"F a.txt\nH 62 127.0.0.1.3.4\n";

fn parts(alloc: Global) -> Result<VecDeque<Part>, Fail> {
    let mut parts = VecDeque::new(alloc);
    for (after, record) in LINK {
        let bytes = Sequence::from_vec(hex::decode(alloc, record)?);
        parts.push_back(Part { after, bytes })?;
    }
    Ok(parts)
}

fn lane(alloc: Global) -> Result<MemoryLane, Fail> {
    let peer = Peer {
        kind: Kind::Rpc,
        parts: parts(alloc)?,
    };
    let peers = VecDeque::from_array(alloc, [peer])?;
    Ok(MemoryLane::new(alloc, peers, Vec::new(alloc)))
}

/// A caller whose client answers its first call so.
fn caller(alloc: Global, answer: &str) -> Result<MemoryCaller, Fail> {
    let (mut answers, mut failing) = (Vec::new(alloc), Vec::new(alloc));
    match answer {
        NOTHING => {}
        FAILS => failing.push(1)?,
        _ => answers.push(Some(Sequence::from_vec(hex::decode(alloc, answer)?)))?,
    }
    Ok(MemoryCaller::new(alloc, answers, failing))
}

/// Whether the bytes are these in hex.
fn are_hex(alloc: Global, bytes: &[u8], wanted: &str) -> bool {
    match hex::encode(alloc, bytes) {
        Ok(text) => text.as_str() == wanted,
        Err(_) => false,
    }
}

/// Whether the lane ended by its end, and its one link, which was sent all replies, is shut.
fn is_served(alloc: Global, done: &LaneDone<MemoryLane>) -> bool {
    match (done.end, done.lane.links()) {
        (LaneEnd::End, [link]) => {
            link.shut && link.failed == 0 && are_hex(alloc, link.sent.as_slice(), REPLIES)
        }
        _ => false,
    }
}

/// Whether a call came to this answer.
fn is_answered(alloc: Global, asked: &Asked, answer: &str) -> bool {
    match asked {
        Asked::Call(_, _, CallOutcome::Answer(bytes)) => are_hex(alloc, bytes.as_slice(), answer),
        Asked::Call(_, _, CallOutcome::Nobody) => answer == NOTHING,
        Asked::Call(_, _, CallOutcome::Failed) => answer == FAILS,
        _ => false,
    }
}

/// Whether two turns are done: one call, which came to this answer, and then an idle behind the call's entry.
fn is_called(alloc: Global, done: &CallsDone<MemoryCaller>, answer: &str) -> bool {
    match (done.end, done.caller.told()) {
        (LaneEnd::Turns(2), Some([call, Asked::Idle(6)])) => is_answered(alloc, call, answer),
        _ => false,
    }
}

/// Whether the last of six entries is the end of call 2, with this answer.
fn are_entered(alloc: Global, entries: &[Entry], answer: &str) -> bool {
    let [_, _, _, _, _, entry] = entries else {
        return false;
    };
    match &entry.event {
        Event::Called(2, Some(bytes)) => are_hex(alloc, bytes.as_slice(), answer),
        Event::Called(2, None) => answer == NOTHING || answer == FAILS,
        _ => false,
    }
}

/// How many claims the house holds, if it can tell.
fn claims_of(alloc: Global, house: &House<MemoryKeeper>) -> Option<usize> {
    if house.is_spoiled() {
        return None;
    }
    match house.dump(alloc) {
        Ok(claims) => Some(claims.len()),
        Err(_) => None,
    }
}

/// Ends the house; whether it held so many claims, and this answer is the last that was entered.
fn ends_so(alloc: Global, house: House<MemoryKeeper>, answer: &str, claims: usize) -> bool {
    let held = claims_of(alloc, &house);
    let (journal, _) = house.end();
    held == Some(claims) && are_entered(alloc, journal.entries.as_slice(), answer)
}

/// Serves the lane, and then the caller; whether both came to what they should.
fn serve<R: Wait>(
    rt: &R,
    alloc: Global,
    desk: &Desk<House<MemoryKeeper>>,
    pass: Pass<House<MemoryKeeper>>,
    lane: MemoryLane,
    caller: MemoryCaller,
    answer: &str,
) -> (Pass<House<MemoryKeeper>>, bool)
    requires { pass.desk ≡ desk.now }
    ensures desk { result.0.desk ≡ pass.desk }
    ensures shares { result.0.view.shares ≡ pass.view.shares }
{
    let post = LanePost {
        place: 0,
        turns: 1_000,
    };
    let (mut pass, lane) = serve_lane(rt, alloc, desk, &OpenGate, pass, post, lane);
    let post = CallerPost {
        place: 1,
        turns: 2,
        share: 0,
        of: 1,
    };
    let calls = serve_calls(rt, alloc, desk, &OpenGate, &mut pass, post, caller);
    let served = is_served(alloc, &lane) && is_called(alloc, &calls, answer);
    (pass, served)
}

/// The house behind a desk over which the lane and the caller were served, and whether they came to what they should.
fn serve_over_a_desk<R: Wait>(
    rt: &R,
    alloc: Global,
    house: House<MemoryKeeper>,
    lane: MemoryLane,
    caller: MemoryCaller,
    answer: &str,
) -> (House<MemoryKeeper>, bool) {
    match Desk::make(alloc, house) {
        Ok((desk, pass)) => {
            let (pass, served) = serve(rt, alloc, &desk, pass, lane, caller, answer);
            (desk.close(pass), served)
        }
        Err(NoRoom { machine }) => (machine, false),
    }
}

/// Whether so many claims are left where the client answers call 2 so.
fn leaves<R: Wait>(rt: &R, alloc: Global, answer: &str, claims: usize) -> Result<bool, Fail> {
    let lane = lane(alloc)?;
    let caller = caller(alloc, answer)?;
    let exports = exports(alloc, EXPORTS)?;
    let keeper = MemoryKeeper::new(alloc, Record::new(alloc), Vec::new(alloc));
    let Ok(house) = House::start(alloc, exports, keeper, Moment(0)) else {
        return Ok(false);
    };
    let (house, served) = serve_over_a_desk(rt, alloc, house, lane, caller, answer);
    Ok(ends_so(alloc, house, answer, claims) && served)
}

/// Whether a call that fails is over without an answer, and its client keeps the lock.
pub fn keeps_what_a_failed_call_tells_of<R: Wait>(rt: &R, alloc: Global) -> Result<bool, Fail> {
    leaves(rt, alloc, FAILS, 1)
}

/// A client that refuses the call that tells of its grant gives the lock up; one that doesn't answer keeps it.
#[test]
fn a_refused_grant_is_given_back(rt: HostRuntime) -> Result<(), Fail> {
    assert!(rt; leaves(&rt, rt.alloc(), UNAVAILABLE, 0)?);
    assert!(rt; leaves(&rt, rt.alloc(), NOTHING, 1)?);
    Ok(())
}
