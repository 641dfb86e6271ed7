//! Hostile use in one table: what is outside fails, the server crashes, and peers send what is no message, or one that says more than it
//! has.

use crate::serving::{Faults, HEADER, LOCK, NONE, Ran, UNLOCK, is_so, lines, run_serve};
use std::alloc::Global;
use std::sync::Wait;
use std::test::Fail;
use std::thread::Threads;
use xl_base::{MemorySink, MemorySource};
use xl_tests_house::{clients_recover, expired_client_recovers, keeps_what_a_failed_call_tells_of};
use xl_tests_served::{ended, is_answered};

/// What is tried, and what has to come of it.
enum Case {
    /// Of a replay this reading fails: nothing is written.
    Reading(u64),
    /// Each writing of a replay fails in turn: a beginning of the transcript is written.
    Writing,
    /// This call of a server's keeper fails at its start: nobody is served.
    Start(u64),
    /// This call of a server's lane fails: how the run ends, and the lines of its capture behind the header.
    Lane(u64, &'static str, &'static str),
    /// A server's sending of a reply fails: a beginning of it was sent.
    Sending,
    /// A call to a client fails.
    Calling,
    /// A crash around the store of an expiry of the one client that is recorded.
    Expiry,
    /// A crash behind each store of what three clients do: those who held something reclaim it.
    Crash,
    /// A capture and what its replay answers, as `is_answered` has them.
    Replay(&'static str),
}

const CASES: [(&str, Case); 19] = [
    ("the first reading fails", Case::Reading(1)),
    ("the second reading fails", Case::Reading(2)),
    ("a writing fails", Case::Writing),
    ("the record isn't loaded", Case::Start(1)),
    ("the record isn't stored", Case::Start(2)),
    (
        "no client comes to a lane that fails",
        Case::Lane(1, "0 0 0 failed 1", ""),
    ),
    (
        "a lane fails behind its first reply",
        Case::Lane(
            4,
            "0 0 7 end",
            "O rpc !0\nB 0 @L !1\nE 0 !0\nO rpc !0\nB 3 @L !0\nB 3 @U !0\nE 3 !0\n",
        ),
    ),
    ("a reply isn't sent", Case::Sending),
    ("a call fails", Case::Calling),
    ("a crash around the store of an expiry", Case::Expiry),
    ("a crash behind each store", Case::Crash),
    (
        "a record of 65,537 bytes",
        Case::Replay("O rpc\nB 0 80010001\nB 0 00\n=>\n0 0 2\n"),
    ),
    (
        "64 fragments, and one more",
        Case::Replay(
            "O rpc\nB 0 00000001000000000100000000010000000001000000000100000000010000000001000000000100000000010000000001000000000100000000010000000001000000000100000000010000000001000000000100000000010000000001000000000100000000010000000001000000000100000000010000000001000000000100000000010000000001000000000100000000010000000001000000000100000000010000000001000000000100000000010000000001000000000100000000010000000001000000000100000000010000000001000000000100000000010000000001000000000100000000010000000001000000000100000000010000000001000000000100000000010000000001000000000100000000010000000001000000000100000000010000000001000000000100000000010000000001000000000100000000010000000080000001\n=>\n0 0 2\n",
        ),
    ),
    (
        "an empty fragment, a mark that isn't 0, and a message of 65,537 bytes",
        Case::Replay("O rpc\nB 0 00000000\nO smb\nB 2 01000000\nO smb\nB 4 00010001\n=>\n0 0 6\n"),
    ),
    (
        "a cookie of 4,294,967,295 bytes",
        Case::Replay(
            "O rpc\nB 0 8000002c000000010000000000000002000186b5000000040000000200000000000000000000000000000000ffffffff\n=>\n0 0 2\n1 c0 80000018000000010000000100000000000000000000000000000004\n",
        ),
    ),
    (
        "4,294,967,295 operations",
        Case::Replay(
            "O rpc\nB 0 80000034000000010000000000000002000186a30000000400000001000000000000000000000000000000000000000000000000ffffffff\n=>\n0 0 2\n1 c0 80000024000000010000000100000000000000000000000000000000000027220000000000000000\n",
        ),
    ),
    (
        "a CREATE whose name ends behind its frame, and a LOCK that has one of 65,535 elements",
        Case::Replay(
            "F a.txt\nO smb\n\
            B 0 00000066fe534d424000000000000000000001000000000000000000090000000000000000000000000000000000000000000000000000000000000000000000000000002400010001000000000000001111111111111111111111111111111100000000000000001002\n\
            B 0 00000058fe534d42400000000000000001000100000000000000000009000000000000000000000000000000000000000000000000000000000000000000000000000000190000010000000000000000580000000000000000000000\n\
            B 0 00000054fe534d424000000000000000030001000000000000000000090000000000000000000000000000000100000001000000000000000000000000000000000000000900000048000c005c005c0078005c0078006c00\n\
            B 0 00000082fe534d42400000000000000005000100000000000000000009000000000000000000000002000000010000000100000000000000000000000000000000000000390000000200000000000000000000000000000000000000030000000000000007000000010000000000000078000c00000000000000000061002e00740078007400\n\
            B 0 00000070fe534d4240000000000000000a0001000000000000000000090000000000000000000000020000000100000001000000000000000000000000000000000000003000ffff000000000300000001000000030000000100000000000000000000000a000000000000001200000000000000\n\
            =>\n0 0 6\n\
            1 c0 00000080fe534d4240000000000000000000010001000000000000000900000000000000000000000000000000000000000000000000000000000000000000000000000041000100100200000000000000000000000000000000000002000000000001000000010000000100000000000000000000000000000000008000000000000000\n\
            2 c0 00000048fe534d424000000000000000010001000100000000000000090000000000000000000000000000000100000001000000000000000000000000000000000000000900010048000000\n\
            3 c0 00000050fe534d42400000000000000003000100010000000000000009000000000000000000000002000000010000000100000000000000000000000000000000000000100001000000000000000000ff011f00\n\
            4 c0 00000049fe534d42400000000d0000c005000100010000000000000009000000000000000000000002000000010000000100000000000000000000000000000000000000090000000000000000\n\
            5 c0 00000049fe534d42400000000d0000c00a000100010000000000000009000000000000000000000002000000010000000100000000000000000000000000000000000000090000000000000000\n",
        ),
    ),
    (
        "a reply to a call of nobody",
        Case::Replay("C 7 00\n=>\n0 0 1\n"),
    ),
    (
        "a message and an end by a connection that isn't open",
        Case::Replay("O rpc\nE 0\nB 0 00\nE 0\n=>\n0 0 2\n"),
    ),
];

/// The text of a replay: a lock and its unlock.
fn text(alloc: Global) -> Result<Vec<u8>, Fail> {
    Ok(format!(in alloc; "F a.txt\nO rpc\nB 0 {LOCK}\nB 0 {UNLOCK}\n")?.into_bytes())
}

/// How a replay ended.
#[derive(Drop)]
struct Made {
    status: u8,
    line: u64,
    written: Vec<u8>,
}

/// A replay of whose readings and writings these fail; none does if the number is 0.
fn make_replay<R: Threads + Wait + Sync>(
    rt: &R,
    alloc: Global,
    reading: u64,
    writing: u64,
) -> Result<Made, Fail> {
    let mut words = Vec::new(alloc);
    for word in ["xlockd", "replay"] {
        words.push(String::from_str(alloc, word)?)?;
    }
    let mut source = MemorySource::new(text(alloc)?, Vec::from_slice(alloc, &[reading])?);
    let mut sink = MemorySink::new(alloc, Vec::from_slice(alloc, &[writing])?);
    let (status, line, _) = ended(rt, alloc, &words, &mut source, &mut sink);
    let written = Vec::from_slice(alloc, sink.bytes())?;
    Ok(Made {
        status,
        line,
        written,
    })
}

/// Whether nothing is written of a replay whose reading fails.
fn is_unread<R: Threads + Wait + Sync>(rt: &R, alloc: Global, reading: u64) -> Result<bool, Fail> {
    let made = make_replay(rt, alloc, reading, 0)?;
    Ok(made.status == 2 && made.line == 0 && made.written.is_empty())
}

/// Whether a beginning of the transcript is written wherever a writing fails, and all of it where none does.
fn is_begun<R: Threads + Wait + Sync>(rt: &R, alloc: Global) -> Result<bool, Fail> {
    let whole = make_replay(rt, alloc, 0, 0)?;
    for writing in 1..64 {
        let made = make_replay(rt, alloc, 0, writing)?;
        if !whole
            .written
            .as_slice()
            .starts_with(made.written.as_slice())
        {
            return Ok(false);
        }
        if made.status != 3 {
            return Ok(made.status == 0 && writing > 1 && whole.status == 0);
        }
    }
    Ok(false)
}

/// Whether a server whose keeper fails so serves nobody.
fn serves_nobody<R: Threads + Wait + Sync>(
    rt: &R,
    alloc: Global,
    keeper: u64,
) -> Result<bool, Fail> {
    let faults = Faults { keeper, ..NONE };
    let ran = run_serve(rt, alloc, "F a.txt\n", faults, 5)?;
    is_so(alloc, &ran, "5 0 0 turns 0", HEADER)
}

/// Lines in which `@L` is the lock and `@U` the unlock, behind the header.
fn filled(alloc: Global, lines: &str) -> Result<String, Fail> {
    let mut text = String::from_str(alloc, HEADER)?;
    for part in lines.split('@') {
        match part.strip_prefix('L') {
            Some(rest) => {
                text.push_str(LOCK)?;
                text.push_str(rest)?;
            }
            None => match part.strip_prefix('U') {
                Some(rest) => {
                    text.push_str(UNLOCK)?;
                    text.push_str(rest)?;
                }
                None => text.push_str(part)?,
            },
        }
    }
    Ok(text)
}

/// Whether a server whose lane fails so, and to which two clients would come, ends so and writes these lines.
fn goes_on<R: Threads + Wait + Sync>(
    rt: &R,
    alloc: Global,
    lane: u64,
    ended: &str,
    lines: &str,
) -> Result<bool, Fail> {
    let faults = Faults {
        peers: 2,
        lane,
        ..NONE
    };
    let ran = run_serve(rt, alloc, "F a.txt\n", faults, 5)?;
    let wanted = filled(alloc, lines)?;
    is_so(alloc, &ran, ended, &wanted)
}

/// Whether the one link of the one lane was sent less than the reply to a lock, and a beginning of it.
fn is_sent_in_part(alloc: Global, ran: &Ran) -> Result<bool, Fail> {
    let reply = hex::decode(
        alloc,
        "800000200000000100000001000000000000000000000000000000000000000000000000",
    )?;
    let [done] = ran.done.lanes.as_slice() else {
        return Ok(false);
    };
    let [link] = done.lane.links() else {
        return Ok(false);
    };
    let sent = link.sent.as_slice();
    Ok(link.shut && sent.len() < reply.len() && reply.as_slice().starts_with(sent))
}

/// Whether a server that fails to send its first reply ends the link, of which it sent a beginning.
fn is_cut_short<R: Threads + Wait + Sync>(rt: &R, alloc: Global) -> Result<bool, Fail> {
    let faults = Faults { lane: 3, ..NONE };
    let ran = run_serve(rt, alloc, "F a.txt\n", faults, 5)?;
    let wanted = lines(alloc, "", 1)?;
    Ok(is_so(alloc, &ran, "0 0 3 end", &wanted)? && is_sent_in_part(alloc, &ran)?)
}

/// Whether a case comes to what it should.
fn holds<R: Threads + Wait + Sync>(rt: &R, alloc: Global, case: &Case) -> Result<bool, Fail> {
    match case {
        Case::Reading(reading) => is_unread(rt, alloc, *reading),
        Case::Writing => is_begun(rt, alloc),
        Case::Start(keeper) => serves_nobody(rt, alloc, *keeper),
        Case::Lane(lane, ended, lines) => goes_on(rt, alloc, *lane, ended, lines),
        Case::Sending => is_cut_short(rt, alloc),
        Case::Calling => keeps_what_a_failed_call_tells_of(rt, alloc),
        Case::Expiry => expired_client_recovers(alloc),
        Case::Crash => clients_recover(alloc),
        Case::Replay(case) => Ok(is_answered(rt, alloc, case)?),
    }
}

#[test]
fn hostile_cases(rt: HostRuntime) -> Result<(), Fail> {
    for (what, case) in &CASES {
        assert!(rt; holds(&rt, rt.alloc(), case)?, "{what}");
    }
    Ok(())
}
