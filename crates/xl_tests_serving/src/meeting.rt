//! `serve` over two lanes that wait for each other: workers in a row on one thread would wait in vain, also turn by turn. Records and
//! frames are in hex. Above each are its words, as `tools/capture_from_words.py` has them.
ghost use Rattle.std.specs.Prelude.{◌≡◌, ◌≤◌, ◌||◌, IfOk, None, length, vec_len};

use crate::serving::serve_words;
use std::alloc::Global;
use std::collections::VecDeque;
use std::sync::Wait;
use std::sync::atomic::{AtomicU64, Ordering};
use std::test::Fail;
use std::thread;
use std::thread::Threads;
use xl_base::{
    Kind, Lane, LaneEnd, MemoryCaller, MemoryClock, MemoryKeeper, MemoryLane, MemorySink,
    MemorySource, NextOutcome, Part, Peer, ReceiveOutcome, Sequence, WriteOutcome,
};
use xl_tests_served::nobody;
use xl_top::{Done, Outside, run};
use xl_work::LaneDone;

/// How often a lane looks for what the other one was sent before it gives up.
const MOST_LOOKS: u64 = 1_000_000_000;

/// Two clients, each with a lock and its unlock.
const FIRST: [(usize, &str); 2] = [
    // lock a 7 a.txt 0 10 x
    (
        0,
        "80000068000000010000000000000002000186b5000000040000000200000000000000000000000000000000000000000000000000000001000000016100000000000008584c4b310000000100000000000000070000000000000000000000000000000a0000000000000000",
    ),
    // unlock a 7 a.txt 0 10
    (
        36,
        "80000058000000020000000000000002000186b500000004000000040000000000000000000000000000000000000000000000016100000000000008584c4b310000000100000000000000070000000000000000000000000000000a",
    ),
];

const SECOND: [(usize, &str); 2] = [
    // lock b 7 b.txt 0 10 x
    (
        0,
        "80000068000000010000000000000002000186b5000000040000000200000000000000000000000000000000000000000000000000000001000000016200000000000008584c4b310000000200000000000000070000000000000000000000000000000a0000000000000000",
    ),
    // unlock b 7 b.txt 0 10
    (
        36,
        "80000058000000020000000000000002000186b500000004000000040000000000000000000000000000000000000000000000016200000000000008584c4b310000000200000000000000070000000000000000000000000000000a",
    ),
];

/// How many bytes the replies of such a client have: one, and both.
const ONE_REPLY: u64 = 36;

const REPLIES: usize = 72;

/// A client with an oplock of level II, which waits for its notice.
const HOLDER: [(usize, &str); 5] = [
    // smb negotiate
    (
        0,
        "00000066fe534d424000000000000000000001000000000000000000090000000000000000000000000000000000000000000000000000000000000000000000000000002400010001000000000000001111111111111111111111111111111100000000000000001002",
    ),
    // smb session_setup
    (
        132,
        "00000058fe534d42400000000000000001000100000000000000000009000000000000000000000000000000000000000000000000000000000000000000000000000000190000010000000000000000580000000000000000000000",
    ),
    // smb tree_connect \\x\xl session=1.1
    (
        208,
        "00000054fe534d424000000000000000030001000000000000000000090000000000000000000000000000000100000001000000000000000000000000000000000000000900000048000c005c005c0078005c0078006c00",
    ),
    // smb create a.txt rw oplock=level2 tree=2
    (
        292,
        "00000082fe534d42400000000000000005000100000000000000000009000000000000000000000002000000010000000100000000000000000000000000000000000000390000010200000000000000000000000000000000000000030000000000000007000000010000000000000078000a00000000000000000061002e00740078007400",
    ),
    (540, ""),
];

/// A client that locks a byte of the same file.
const LOCKER: [(usize, &str); 5] = [
    // smb negotiate
    (
        0,
        "00000066fe534d424000000000000000000001000000000000000000090000000000000000000000000000000000000000000000000000000000000000000000000000002400010001000000000000001111111111111111111111111111111100000000000000001002",
    ),
    // smb session_setup
    (
        132,
        "00000058fe534d42400000000000000001000100000000000000000009000000000000000000000000000000000000000000000000000000000000000000000000000000190000010000000000000000580000000000000000000000",
    ),
    // smb tree_connect \\x\xl session=1.4
    (
        208,
        "00000054fe534d424000000000000000030001000000000000000000090000000000000000000000000000000400000001000000000000000000000000000000000000000900000048000c005c005c0078005c0078006c00",
    ),
    // smb create a.txt rw tree=5
    (
        292,
        "00000082fe534d42400000000000000005000100000000000000000009000000000000000000000005000000040000000100000000000000000000000000000000000000390000000200000000000000000000000000000000000000030000000000000007000000010000000000000078000a00000000000000000061002e00740078007400",
    ),
    // smb lock 1.6 0 1 x
    (
        448,
        "00000070fe534d4240000000000000000a000100000000000000000009000000000000000000000005000000040000000100000000000000000000000000000000000000300001000000000006000000010000000600000001000000000000000000000001000000000000001200000000000000",
    ),
];

/// How many bytes their replies have up to the CREATE's; all that the holder is sent, with its notice; and all of the locker's replies.
const OPENED: u64 = 448;

const HELD: usize = 540;

const LOCKED: u64 = 520;

/// How the notice to the holder ends (MS-SMB2 2.2.23.1): level none, and its open.
const NOTICE: &str = "180000000000000003000000010000000300000001000000";

/// How many bytes two lanes were sent, and whether one of them looked in vain.
#[derive(Drop)]
struct Board {
    first: AtomicU64,
    second: AtomicU64,
    missed: AtomicU64,
}

impl Board {
    fn new() -> Board {
        Board {
            first: AtomicU64::new(0),
            second: AtomicU64::new(0),
            missed: AtomicU64::new(0),
        }
    }
}

/// What a lane waits for: once it was sent so many bytes it reads on only when the other one was sent so many.
#[derive(Clone, Copy)]
struct Meeting {
    at: u64,
    until: u64,
}

/// No bytes are that many.
const NEVER: Meeting = Meeting {
    at: u64::MAX,
    until: 0,
};

/// A lane in memory that waits for another one.
#[derive(Drop)]
struct MeetingLane<'a> {
    lane: MemoryLane,
    meeting: Meeting,
    sent: &'a AtomicU64,
    others: &'a AtomicU64,
    missed: &'a AtomicU64,
}

impl MeetingLane<'_> {
    /// Looks until the other lane was sent its bytes. If that was in vain, it is noted.
    fn meet(&self) {
        for _ in 0..MOST_LOOKS {
            if self.others.load(Ordering::SeqCst) >= self.meeting.until {
                return;
            }
            thread::yield_now();
        }
        self.missed.store(1, Ordering::SeqCst);
    }
}

impl Lane for MeetingLane<'_> {
    ghost told = { λ _. None };

    ghost faults = { λ l. l.lane.faults };

    ghost lost = { λ l. l.lane.lost };

    ghost ended = { λ l. l.lane.ended };

    ghost asked = { λ l. l.lane.asked };

    fn faults(&self) -> u64 {
        self.lane.faults()
    }

    fn lost(&self) -> u64 {
        self.lane.lost()
    }

    fn ended(&self) -> bool {
        self.lane.ended()
    }

    fn asked(&self) -> u64 {
        self.lane.asked()
    }

    fn next(&mut self) -> NextOutcome {
        self.lane.next()
    }

    fn recv(&mut self, buffer: &mut [u8]) -> ReceiveOutcome {
        if self.sent.load(Ordering::SeqCst) == self.meeting.at {
            self.meet();
        }
        self.lane.recv(buffer)
    }

    fn send(&mut self, bytes: &[u8]) -> WriteOutcome {
        let outcome = self.lane.send(bytes);
        self.sent.fetch_add(bytes.len() as u64, Ordering::SeqCst);
        outcome
    }

    fn shut(&mut self) {
        self.lane.shut();
    }
}

/// A lane to which a client comes that sends these.
fn lane(alloc: Global, kind: Kind, sends: &[(usize, &str)]) -> Result<MemoryLane, Fail> {
    let mut parts = VecDeque::new(alloc);
    for (after, record) in sends {
        let bytes = Sequence::from_vec(hex::decode(alloc, *record)?);
        let after = *after;
        parts.push_back(Part { after, bytes })?;
    }
    let peers = VecDeque::from_array(alloc, [Peer { kind, parts }])?;
    Ok(MemoryLane::new(alloc, peers, Vec::new(alloc)))
}

/// Two lanes, and what each waits for.
fn two_lanes<'a>(
    alloc: Global,
    board: &'a Board,
    first: (MemoryLane, Meeting),
    second: (MemoryLane, Meeting),
) -> Result<Vec<MeetingLane<'a>>, Fail>
    ensures { IfOk result (λ lanes. vec_len lanes ≡ 2) }
{
    let first = MeetingLane {
        lane: first.0,
        meeting: first.1,
        sent: &board.first,
        others: &board.second,
        missed: &board.missed,
    };
    let second = MeetingLane {
        lane: second.0,
        meeting: second.1,
        sent: &board.second,
        others: &board.first,
        missed: &board.missed,
    };
    Ok(vec![in alloc; first, second]?)
}

/// What a run of `serve` hands back.
type Served<'a> = Done<MemoryKeeper, MeetingLane<'a>, MemoryCaller, MemoryClock>;

/// Serves two files to the clients of these lanes.
fn served<'a, R: Threads + Wait + Sync>(
    rt: &R,
    alloc: Global,
    lanes: Vec<MeetingLane<'a>>,
) -> Result<Served<'a>, Fail>
    requires { vec_len lanes ≤ 64 }
{
    let words = serve_words(alloc)?;
    let text = Vec::from_slice(alloc, b"F a.txt\nF b.txt\n")?;
    let mut source = MemorySource::new(text, Vec::new(alloc));
    let mut sink = MemorySink::new(alloc, Vec::new(alloc));
    let Outside {
        keeper,
        lanes: _,
        callers,
        clock,
    } = nobody(alloc);
    let outside = Outside {
        keeper,
        lanes,
        callers,
        clock,
    };
    Ok(run(rt, alloc, &words, &mut source, &mut sink, outside))
}

/// Whether a lane ended by its end, and so many bytes, which end so, were sent to its client.
fn is_served(done: &LaneDone<MeetingLane<'_>>, count: usize, last: &[u8]) -> bool {
    match (done.end, done.lane.lane.links()) {
        (LaneEnd::End, [link]) => {
            let sent = link.sent.as_slice();
            link.ended && link.failed == 0 && sent.len() == count && sent.ends_with(last)
        }
        _ => false,
    }
}

/// Whether both lanes were served so, and none looked in vain.
fn are_served(board: &Board, done: &Served<'_>, first: (usize, &[u8]), second: usize) -> bool {
    let missed = board.missed.load(Ordering::SeqCst);
    match done.lanes.as_slice() {
        [one, other] => {
            done.status == 0
                && missed == 0
                && is_served(one, first.0, first.1)
                && is_served(other, second, &[])
        }
        _ => false,
    }
}

/// Whether two clients are served of whose lanes one or the other waits until the other client was answered.
fn do_meet<R: Threads + Wait + Sync>(
    rt: &R,
    alloc: Global,
    first: Meeting,
    second: Meeting,
) -> Result<bool, Fail> {
    let board = Board::new();
    let one = lane(alloc, Kind::Rpc, &FIRST)?;
    let other = lane(alloc, Kind::Rpc, &SECOND)?;
    let lanes = two_lanes(alloc, &board, (one, first), (other, second))?;
    let done = served(rt, alloc, lanes)?;
    Ok(are_served(&board, &done, (REPLIES, &[]), REPLIES))
}

#[test]
fn one_lane_waits_for_the_other(rt: HostRuntime) -> Result<(), Fail> {
    let alloc = rt.alloc();
    let answered = Meeting {
        at: 0,
        until: ONE_REPLY,
    };
    assert!(rt; do_meet(&rt, alloc, answered, NEVER)?);
    assert!(rt; do_meet(&rt, alloc, NEVER, answered)?);
    Ok(())
}

/// A client is told that its cache breaks though it sends nothing itself: by the look at the end of a turn that got no bytes.
#[test]
fn a_quiet_client_is_told(rt: HostRuntime) -> Result<(), Fail> {
    let alloc = rt.alloc();
    let board = Board::new();
    let holder = lane(alloc, Kind::Smb, &HOLDER)?;
    let locker = lane(alloc, Kind::Smb, &LOCKER)?;
    let locked = Meeting {
        at: OPENED,
        until: LOCKED,
    };
    let opened = Meeting {
        at: 0,
        until: OPENED,
    };
    let lanes = two_lanes(alloc, &board, (holder, locked), (locker, opened))?;
    let done = served(&rt, alloc, lanes)?;
    let notice = hex::decode(alloc, NOTICE)?;
    assert!(rt; are_served(&board, &done, (HELD, &notice), LOCKED as usize));
    Ok(())
}
