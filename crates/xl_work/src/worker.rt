//! A lane's worker: what it was given to do, what it has in hand, and what became of it.
ghost use Rattle.std.specs.Prelude.{◌≡◌, ◌<◌, ◌+◌, ◌*◌, ◌%◌, ◌^◌, [], None, false, option_map};
ghost use Rattle.xl_base.specs.declared.lane_end.LaneEnd.TheVariants as lane_end;
ghost use Rattle.xl_work.specs.Lives.{IsTaken, is_over, with_end};

use std::alloc::Global;
use xl_base::{Kind, Lane, LaneEnd, Sequence, Serial};
use xl_desk::Pass;
use xl_frame::Cutter;

/// What a lane is given to do.
#[derive(Clone, Copy, Debug)]
pub struct LanePost {
    /// Its place among all workers, below 2^32.
    pub place: u64,
    /// How many turns it has.
    pub turns: u64,
}

/// A connection that a lane served.
#[derive(Clone, Copy)]
pub struct Conn {
    /// Its number, the place of its opening.
    pub number: u64,
    /// What it speaks.
    pub kind: Kind,
}

/// What became of a lane.
#[derive(Drop)]
pub struct LaneDone<L> {
    /// The lane.
    pub lane: L,
    /// Why its service ended.
    pub end: LaneEnd,
    /// The connections of its links, in order.
    pub conns: Vec<Conn>,
    /// Its last link, if that was left open.
    pub(crate) live: Option<Live>,
}

/// A lane that ended so before it had a link. It takes no memory.
pub(crate) fn unserved<L>(alloc: Global, lane: L, end: LaneEnd) -> LaneDone<L>
    ensures { (result.lane ≡ lane) × (result.end ≡ end) × (result.conns.items ≡ []) × (result.live ≡ None) }
{
    LaneDone {
        lane,
        end,
        conns: Vec::new(alloc),
        live: None,
    }
}

impl<L> LaneDone<L> {
    /// A lane that was given no turn. It takes no memory.
    pub fn idle(alloc: Global, lane: L) -> LaneDone<L>
        ensures { (result.lane ≡ lane) × (result.end ≡ lane_end.Turns 0) × (result.conns.items ≡ []) }
    {
        unserved(alloc, lane, LaneEnd::Turns(0))
    }
}

/// The link that is served now.
#[derive(Drop)]
pub(crate) struct Live {
    pub conn: Conn,
    pub cutter: Cutter,
    /// The place up to which what the machine sends to the connection was sent.
    pub from: u64,
    /// Whether the link said its end, or sent a bad frame.
    pub ending: bool,
    /// Whether a call of the link failed.
    pub failed: bool,
    /// Whether the connection's end was entered.
    pub ended: bool,
}

/// A worker: its pass, its lane, the connections that are over, and the link that is served now.
pub(crate) struct Worker<H: Serial, L> {
    pub pass: Pass<H>,
    pub lane: L,
    pub conns: Vec<Conn>,
    pub live: Option<Live>,
    /// How many calls of the machine it has made.
    pub calls: u64,
    /// How many turns it has done.
    pub done: u64,
}

impl Live {
    /// A link whose connection was just opened at this place.
    pub(crate) fn new(alloc: Global, number: u64, kind: Kind) -> Live
        ensures conn { result.conn ≡ record { number = number; kind = kind } }
        ensures cutter { result.cutter ≡ record { kind = kind; ready = []; rest = []; bad = None } }
        ensures from { result.from ≡ number }
        ensures runs { (result.ending ≡ false) × (result.failed ≡ false) × (result.ended ≡ false) }
    {
        Live {
            conn: Conn { number, kind },
            cutter: Cutter::new(alloc, kind),
            from: number,
            ending: false,
            failed: false,
            ended: false,
        }
    }
}

/// The next message of the link that is served, with its connection's number.
pub(crate) fn take_message(live: &mut Option<Live>) -> Option<(u64, Sequence<u8>)>
    ensures { IsTaken live.old result live.new }
{
    let Some(live) = live else {
        return None;
    };
    let message = live.cutter.next()?;
    Some((live.conn.number, Sequence::from_vec(message)))
}

/// Whether the link that is served is over.
pub(crate) fn is_over(live: &Option<Live>) -> bool
    ensures { result ≡ is_over live.now }
{
    match live {
        None => false,
        Some(live) => live.ending || live.failed,
    }
}

/// Notes that the connection's end was entered.
pub(crate) fn note_end(live: &mut Option<Live>)
    ensures { live.new ≡ option_map with_end live.old }
{
    if let Some(live) = live {
        live.ended = true;
    }
}

/// The number of a worker's next call of the machine.
pub(crate) fn call_number(place: u64, calls: u64) -> u64
    requires { place < 2 ^ 32 }
    ensures { result ≡ place * 2 ^ 32 + calls % 2 ^ 32 }
{
    place * 4_294_967_296 + calls % 4_294_967_296
}
