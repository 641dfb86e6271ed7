//! `serve` over lanes, a keeper and a clock in memory: what is written, what is handed back, and what a failure of each comes to.
ghost use Rattle.std.specs.Prelude.{◌≡◌, IfOk, vec_len};

use std::alloc::Global;
use std::collections::VecDeque;
use std::sync::Wait;
use std::test::Fail;
use std::thread::Threads;
use xl_base::{
    Kind, LaneEnd, MemoryCaller, MemoryClock, MemoryKeeper, MemoryLane, MemorySink, MemorySource,
    Moment, Part, Peer, Record, Sequence,
};
use xl_tests_served::{nobody, replayed};
use xl_top::{Done, Outside, run};

/// What a link gives: a lock, and behind its reply the unlock, as `tools/capture_from_words.py` has them.
pub(crate) const LOCK: &str =
    "80000068000000010000000000000002000186b5000000040000000200000000000000000000000000000000000000000000000000000001000000016100000000000008584c4b310000000100000000000000070000000000000000000000000000000a0000000000000000";

pub(crate) const UNLOCK: &str =
    "80000058000000020000000000000002000186b500000004000000040000000000000000000000000000000000000000000000016100000000000008584c4b310000000100000000000000070000000000000000000000000000000a";

/// What is written of a lane with this link: the header, and a line for each event.
pub(crate) const HEADER: &str = "F a.txt\nL 90000 90000 35000\nK 0\n";

/// What a replay of that answers.
const REPLAY: &str = "0 0 4\n\
    1 c0 800000200000000100000001000000000000000000000000000000000000000000000000\n\
    2 c0 800000200000000200000001000000000000000000000000000000000000000000000000\n";

/// How many clients come, and which calls of each part of the outside fail: numbers from 1, 0 for none.
#[derive(Clone, Copy)]
pub(crate) struct Faults {
    pub peers: u64,
    pub keeper: u64,
    pub lane: u64,
    pub sink: u64,
}

pub(crate) const NONE: Faults = Faults {
    peers: 1,
    keeper: 0,
    lane: 0,
    sink: 0,
};

/// A client that locks and, behind the reply, unlocks.
fn peer(alloc: Global) -> Result<Peer, Fail> {
    let mut parts = VecDeque::new(alloc);
    for (after, record) in [(0, LOCK), (36, UNLOCK)] {
        let bytes = Sequence::from_vec(hex::decode(alloc, record)?);
        parts.push_back(Part { after, bytes })?;
    }
    Ok(Peer {
        kind: Kind::Rpc,
        parts,
    })
}

/// A lane to which so many of them come, one after the other.
fn lane(alloc: Global, peers: u64, failing: u64) -> Result<MemoryLane, Fail> {
    let mut coming = VecDeque::new(alloc);
    for _ in 0..peers {
        coming.push_back(peer(alloc)?)?;
    }
    Ok(MemoryLane::new(alloc, coming, Vec::from_slice(alloc, &[failing])?))
}

/// One such lane, and a clock that reads 5 and then always the other moment.
fn outside(
    alloc: Global,
    faults: Faults,
    later: u64,
) -> Result<Outside<MemoryKeeper, MemoryLane, MemoryCaller, MemoryClock>, Fail>
    ensures { IfOk result (λ o. (vec_len o.lanes ≡ 1) × (vec_len o.callers ≡ 0)) }
{
    let keeper = MemoryKeeper::new(
        alloc,
        Record::new(alloc),
        Vec::from_slice(alloc, &[faults.keeper])?,
    );
    let mut outside = nobody(alloc);
    outside.keeper = keeper;
    outside.lanes.push(lane(alloc, faults.peers, faults.lane)?)?;
    outside.clock = MemoryClock::new(alloc, Moment(5), vec![in alloc; Moment(later)]?);
    Ok(outside)
}

/// How a run of `serve` ended, and what it wrote.
#[derive(Drop)]
pub(crate) struct Ran {
    pub done: Done<MemoryKeeper, MemoryLane, MemoryCaller, MemoryClock>,
    pub written: Vec<u8>,
}

/// The words of `serve`, with 1,000 turns.
pub(crate) fn serve_words(alloc: Global) -> Result<Vec<String>, Fail> {
    let mut words = Vec::new(alloc);
    for word in "xlockd serve --rpc 1 --smb 2 --record r --turns 1000".split(' ') {
        words.push(String::from_str(alloc, word)?)?;
    }
    Ok(words)
}

/// Runs `serve` over one lane.
pub(crate) fn run_serve<R: Threads + Wait + Sync>(
    rt: &R,
    alloc: Global,
    exports: &str,
    faults: Faults,
    later: u64,
) -> Result<Ran, Fail> {
    let words = serve_words(alloc)?;
    let text = Vec::from_slice(alloc, exports.as_bytes())?;
    let mut source = MemorySource::new(text, Vec::new(alloc));
    let mut sink = MemorySink::new(alloc, Vec::from_slice(alloc, &[faults.sink])?);
    let outside = outside(alloc, faults, later)?;
    let done = run(rt, alloc, &words, &mut source, &mut sink, outside);
    let written = Vec::from_slice(alloc, sink.bytes())?;
    Ok(Ran { done, written })
}

/// The events of a link that gave so many of its records, behind the opening. The lock's caller is recorded, which is one store.
pub(crate) fn lines(alloc: Global, between: &str, records: usize) -> Result<String, Fail> {
    let mut text = format!(in alloc; "{HEADER}O rpc !0\n{between}")?;
    for (record, stores) in [(LOCK, 1), (UNLOCK, 0)].iter().take(records) {
        let line = format!(in alloc; "B 0 {record} !{stores}\n")?;
        text.push_str(&line)?;
    }
    text.push_str("E 0 !0\n")?;
    Ok(text)
}

/// The status of a run, how its lane ended, and what it wrote.
fn told(alloc: Global, ran: &Ran) -> Result<String, Fail> {
    let Done { status, line, .. } = &ran.done;
    let end = match ran.done.lanes.as_slice() {
        [lane] => match lane.end {
            LaneEnd::End => String::from_str(alloc, "end")?,
            LaneEnd::Failed(count) => format!(in alloc; "failed {count}")?,
            LaneEnd::Turns(turns) => format!(in alloc; "turns {turns}")?,
            LaneEnd::Stopped(_, count) => format!(in alloc; "stopped {count}")?,
            LaneEnd::NoMemory => String::from_str(alloc, "no memory")?,
        },
        _ => String::from_str(alloc, "no lane")?,
    };
    let entries = ran.done.journal.entries.len();
    Ok(format!(in alloc; "{status} {line} {entries} {end}")?)
}

/// Whether a run ended so, and wrote this.
pub(crate) fn is_so(alloc: Global, ran: &Ran, ended: &str, written: &str) -> Result<bool, Fail> {
    let told = told(alloc, ran)?;
    Ok(told.as_str() == ended && ran.written.as_slice() == written.as_bytes())
}

#[test]
fn replays_alike(rt: HostRuntime) -> Result<(), Fail> {
    let alloc = rt.alloc();
    let ran = run_serve(&rt, alloc, "F a.txt\n", NONE, 5)?;
    let wanted = lines(alloc, "", 2)?;
    assert!(rt; is_so(alloc, &ran, "0 0 4 end", &wanted)?);
    let mut source = MemorySource::new(ran.written, Vec::new(alloc));
    let replayed = replayed(&rt, alloc, &mut source)?;
    assert!(rt; replayed.as_slice() == REPLAY.as_bytes());
    Ok(())
}

#[test]
fn one_reading_is_entered(rt: HostRuntime) -> Result<(), Fail> {
    let alloc = rt.alloc();
    let ran = run_serve(&rt, alloc, "F a.txt\n", NONE, 1_005)?;
    let wanted = lines(alloc, "T 1000 !0\n", 2)?;
    assert!(rt; is_so(alloc, &ran, "0 0 5 end", &wanted)?);
    Ok(())
}

#[test]
fn a_sink_that_fails_is_told(rt: HostRuntime) -> Result<(), Fail> {
    let alloc = rt.alloc();
    let faults = Faults { sink: 1, ..NONE };
    let ran = run_serve(&rt, alloc, "F a.txt\n", faults, 5)?;
    assert!(rt; told(alloc, &ran)?.as_str() == "3 0 4 end");
    Ok(())
}

#[test]
fn an_event_line_names_no_exports(rt: HostRuntime) -> Result<(), Fail> {
    let alloc = rt.alloc();
    for (exports, line) in [
        ("F a.txt\nO rpc\n", 2),
        ("F a.txt\n\nF A\nO rpc\n", 3),
        ("T 1\nF A\n", 1),
    ] {
        let ran = run_serve(&rt, alloc, exports, NONE, 5)?;
        let ended = format!(in alloc; "4 {line} 0 turns 0")?;
        assert!(rt; is_so(alloc, &ran, &ended, "")?, "{exports}");
    }
    Ok(())
}
