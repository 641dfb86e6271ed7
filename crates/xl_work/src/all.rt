//! All that serves a machine: lanes, the first of which has the clock, and callers.
ghost use Rattle.std.specs.Prelude.{◌≡◌, ◌<◌, ◌≤◌, ◌+◌, ◌^◌, ℕ, List, Option, ◌∷◌, length, IfOk, IsOkAnd, vec_len};
ghost use denote.Param.Send.{IsSync};
ghost use Rattle.xl_base.specs.declared.event.Event.TheVariants.{Open as TheOpen, Message as TheMessage, End as TheEnd, Called as TheCalled, Tick as TheTick};
ghost use Rattle.xl_base.specs.declared.event.Kind.{Kind as TheKind};
ghost use Rattle.xl_base.specs.declared.event.Moment.{Moment as TheMoment};
ghost use Rattle.xl_desk.specs.Passes.{Goes};
ghost use Rattle.xl_desk.specs.Turns.{all_shares};
ghost use Rattle.xl_work.specs.Crews.{AreOthersServed, AreServed, DoesCaller, IsCrewLeft, IsCrewServed, IsFirstServed, LeavesLane, next_caller, next_lane, tells_caller, tells_lane};

use crate::calls::{CallerPost, CallsDone};
use crate::crew::{serve_callers, serve_lanes};
use crate::first::serve_first;
use crate::rest::send_rests;
use crate::worker::{LaneDone, LanePost};
use std::alloc::{AllocError, Global};
use std::sync::Wait;
use std::thread::{Threads, join};
use xl_base::{Caller, Clock, Gate, Lane, Serial};
use xl_desk::{Desk, Pass};

/// What serves a machine.
#[derive(Drop)]
pub struct Crew<L, C> {
    /// The lanes, at most 64. The first has the clock.
    pub lanes: Vec<L>,
    /// The callers, at most 64. Each makes the calls whose number is its place among them, modulo their count.
    pub callers: Vec<C>,
    /// How many turns each has.
    pub turns: u64,
}

/// What became of it.
#[derive(Drop)]
pub struct CrewDone<L, C> {
    /// The lanes, in order.
    pub lanes: Vec<LaneDone<L>>,
    /// The callers, in order.
    pub callers: Vec<CallsDone<C>>,
}

/// What one side of the service came to: its pass, and what it served.
type Side<H, D> = (Pass<H>, Result<D, AllocError>);

/// What the first lane came to: its pass, what became of it, and the clock.
type First<H, L, T> = (Pass<H>, LaneDone<L>, T);

/// What all came to: the pass, what was served, and the clock.
type Served<H, L, C, T> = (Pass<H>, Result<CrewDone<L, C>, AllocError>, T);

/// Serves lanes whose first has this place, and callers behind them, at once.
fn serve_others<
    H: Serial + Send,
    G: Gate + Sync,
    L: Lane + Send + Drop,
    C: Caller + Send + Drop,
    R: Threads + Wait + Sync,
>(
    rt: &R,
    alloc: Global,
    desk: &Desk<H>,
    gate: &G,
    mut pass: Pass<H>,
    crew: Crew<L, C>,
    place: u64,
) -> Side<H, CrewDone<L, C>>
    requires desk { pass.desk ≡ desk.now }
    requires opens { (kind : TheKind) → H.takes (TheOpen kind) }
    requires messages { (conn : ℕ) (bytes : List ℕ) → H.takes (TheMessage conn bytes) }
    requires ends { (conn : ℕ) → H.takes (TheEnd conn) }
    requires calls { (call : ℕ) (answer : Option (List ℕ)) → H.takes (TheCalled call answer) }
    requires shares { 256 ≤ pass.view.shares }
    requires few { (vec_len crew.lanes ≤ 64) × (vec_len crew.callers ≤ 64) }
    requires place { place ≤ 1 }
    ensures desk { result.0.desk ≡ pass.desk }
    ensures goes { Goes pass.view result.0.view }
    ensures shares { result.0.view.shares ≡ pass.view.shares }
    ensures served { IfOk result.1 (λ done. AreOthersServed (tells_lane L.told L.asked L.lost L.faults L.ended) (tells_caller C.told C.asked) H.may_halt (G.is_open gate.now) crew place pass.view result.0.view done) }
{
    let Crew {
        lanes,
        callers,
        turns,
    } = crew;
    let lane_post = LanePost { place, turns };
    let caller_post = CallerPost {
        place: place + lanes.len() as u64,
        turns,
        share: 0,
        of: callers.len() as u64,
    };
    let theirs = desk.split(&mut pass);
    let front = || -> Side<H, Vec<LaneDone<L>>>
        requires { IsSync R.row × IsSync G.row × (pass.desk ≡ desk.now) × ((kind : TheKind) → H.takes (TheOpen kind)) × ((conn : ℕ) (bytes : List ℕ) → H.takes (TheMessage conn bytes)) × ((conn : ℕ) → H.takes (TheEnd conn)) × (vec_len lanes ≤ pass.view.shares) × (lane_post.place + vec_len lanes ≤ 2 ^ 32) }
        ensures { (result.0.desk ≡ pass.desk) × Goes pass.view result.0.view × (result.0.view.shares ≡ pass.view.shares) × IfOk result.1 (λ done. AreServed next_lane (LeavesLane (tells_lane L.told L.asked L.lost L.faults L.ended) H.may_halt (G.is_open gate.entry.now)) lane_post lanes.items pass.view result.0.view done.items) }
    { serve_lanes(rt, alloc, desk, gate, pass, lanes, lane_post) };
    let back = || -> Side<H, Vec<CallsDone<C>>>
        requires { IsSync R.row × IsSync G.row × (theirs.desk ≡ desk.now) × ((call : ℕ) (answer : Option (List ℕ)) → H.takes (TheCalled call answer)) × (vec_len callers ≤ theirs.view.shares) × (caller_post.place + vec_len callers ≤ 2 ^ 32) × (caller_post.share + vec_len callers ≤ caller_post.of) }
        ensures { (result.0.desk ≡ theirs.desk) × Goes theirs.view result.0.view × (result.0.view.shares ≡ theirs.view.shares) × IfOk result.1 (λ done. AreServed next_caller (DoesCaller (tells_caller C.told C.asked) H.may_halt (G.is_open gate.entry.now) (theirs.view.first + length theirs.view.seen)) caller_post callers.items theirs.view result.0.view done.items) }
    { serve_callers(rt, alloc, desk, gate, theirs, callers, caller_post) };
    let (first, second) = join(rt, front, back);
    let (mut pass, lanes) = first;
    let (theirs, callers) = second;
    desk.join(&mut pass, theirs);
    (pass, done_both(lanes, callers))
}

/// What both came to.
fn done_both<L: Drop, C: Drop>(
    lanes: Result<Vec<LaneDone<L>>, AllocError>,
    callers: Result<Vec<CallsDone<C>>, AllocError>,
) -> Result<CrewDone<L, C>, AllocError>
    ensures { IfOk result (λ done. IsOkAnd lanes (λ xs. IsOkAnd callers (λ ys. (xs ≡ done.lanes) × (ys ≡ done.callers)))) }
{
    Ok(CrewDone {
        lanes: lanes?,
        callers: callers?,
    })
}

/// Serves the first lane, with the clock.
fn serve_clocked<H: Serial, G: Gate, L: Lane, T: Clock, R: Wait>(
    rt: &R,
    alloc: Global,
    desk: &Desk<H>,
    gate: &G,
    pass: Pass<H>,
    work: (LanePost, L),
    mut clock: T,
) -> First<H, L, T>
    requires desk { pass.desk ≡ desk.now }
    requires shares { 2 ≤ pass.view.shares }
    requires opens { (kind : TheKind) → H.takes (TheOpen kind) }
    requires messages { (conn : ℕ) (bytes : List ℕ) → H.takes (TheMessage conn bytes) }
    requires ends { (conn : ℕ) → H.takes (TheEnd conn) }
    requires ticks { (moment : TheMoment) → H.takes (TheTick moment) }
    requires post { work.0.place < 2 ^ 32 }
    ensures desk { result.0.desk ≡ pass.desk }
    ensures served { IsFirstServed (tells_lane L.told L.asked L.lost L.faults L.ended) H.may_halt (G.is_open gate.now) work.0 work.1 (T.told clock) pass.view (T.told result.2) result.0.view result.1 }
{
    let (pass, done) = serve_first(rt, alloc, desk, gate, pass, work, &mut clock);
    (pass, done, clock)
}

/// Serves the first lane, with the clock, and all others, at once.
fn serve_sides<
    H: Serial + Send,
    G: Gate + Sync,
    L: Lane + Send + Drop,
    C: Caller + Send + Drop,
    T: Clock + Send + Drop,
    R: Threads + Wait + Sync,
>(
    rt: &R,
    alloc: Global,
    desk: &Desk<H>,
    gate: &G,
    here: (Pass<H>, (LanePost, L)),
    there: (Pass<H>, Crew<L, C>),
    clock: T,
) -> (First<H, L, T>, Side<H, CrewDone<L, C>>)
    requires here { (here.0.desk ≡ desk.now) × (2 ≤ here.0.view.shares) × (here.1.0.place < 2 ^ 32) }
    requires there { (there.0.desk ≡ desk.now) × (256 ≤ there.0.view.shares) × (vec_len there.1.lanes ≤ 64) × (vec_len there.1.callers ≤ 64) }
    requires opens { (kind : TheKind) → H.takes (TheOpen kind) }
    requires messages { (conn : ℕ) (bytes : List ℕ) → H.takes (TheMessage conn bytes) }
    requires ends { (conn : ℕ) → H.takes (TheEnd conn) }
    requires ticks { (moment : TheMoment) → H.takes (TheTick moment) }
    requires calls { (call : ℕ) (answer : Option (List ℕ)) → H.takes (TheCalled call answer) }
    ensures first { (result.0.0.desk ≡ here.0.desk) × IsFirstServed (tells_lane L.told L.asked L.lost L.faults L.ended) H.may_halt (G.is_open gate.now) here.1.0 here.1.1 (T.told clock) here.0.view (T.told result.0.2) result.0.0.view result.0.1 }
    ensures others { (result.1.0.desk ≡ there.0.desk) × Goes there.0.view result.1.0.view × (result.1.0.view.shares ≡ there.0.view.shares) × IfOk result.1.1 (λ done. AreOthersServed (tells_lane L.told L.asked L.lost L.faults L.ended) (tells_caller C.told C.asked) H.may_halt (G.is_open gate.now) there.1 1 there.0.view result.1.0.view done) }
{
    let (pass, work) = here;
    let (theirs, crew) = there;
    let first = || -> First<H, L, T>
        requires { (pass.desk ≡ desk.now) × (2 ≤ pass.view.shares) × (work.0.place < 2 ^ 32) × ((kind : TheKind) → H.takes (TheOpen kind)) × ((conn : ℕ) (bytes : List ℕ) → H.takes (TheMessage conn bytes)) × ((conn : ℕ) → H.takes (TheEnd conn)) × ((moment : TheMoment) → H.takes (TheTick moment)) }
        ensures { (result.0.desk ≡ pass.desk) × IsFirstServed (tells_lane L.told L.asked L.lost L.faults L.ended) H.may_halt (G.is_open gate.entry.now) work.0 work.1 (T.told clock) pass.view (T.told result.2) result.0.view result.1 }
    { serve_clocked(rt, alloc, desk, gate, pass, work, clock) };
    let others = || -> Side<H, CrewDone<L, C>>
        requires { IsSync R.row × IsSync G.row × (theirs.desk ≡ desk.now) × (256 ≤ theirs.view.shares) × (vec_len crew.lanes ≤ 64) × (vec_len crew.callers ≤ 64) × ((kind : TheKind) → H.takes (TheOpen kind)) × ((conn : ℕ) (bytes : List ℕ) → H.takes (TheMessage conn bytes)) × ((conn : ℕ) → H.takes (TheEnd conn)) × ((call : ℕ) (answer : Option (List ℕ)) → H.takes (TheCalled call answer)) }
        ensures { (result.0.desk ≡ theirs.desk) × Goes theirs.view result.0.view × (result.0.view.shares ≡ theirs.view.shares) × IfOk result.1 (λ done. AreOthersServed (tells_lane L.told L.asked L.lost L.faults L.ended) (tells_caller C.told C.asked) H.may_halt (G.is_open gate.entry.now) crew 1 theirs.view result.0.view done) }
    { serve_others(rt, alloc, desk, gate, theirs, crew, 1) };
    join(rt, first, others)
}

/// Serves the first lane, with the clock, and all others at once, by passes that are joined again.
fn serve_both<
    H: Serial + Send,
    G: Gate + Sync,
    L: Lane + Send + Drop,
    C: Caller + Send + Drop,
    T: Clock + Send + Drop,
    R: Threads + Wait + Sync,
>(
    rt: &R,
    alloc: Global,
    desk: &Desk<H>,
    gate: &G,
    mut pass: Pass<H>,
    mut crew: Crew<L, C>,
    clock: T,
) -> Served<H, L, C, T>
    requires desk { pass.desk ≡ desk.now }
    requires shares { pass.view.shares ≡ all_shares }
    requires few { (vec_len crew.lanes ≤ 64) × (vec_len crew.callers ≤ 64) }
    requires opens { (kind : TheKind) → H.takes (TheOpen kind) }
    requires messages { (conn : ℕ) (bytes : List ℕ) → H.takes (TheMessage conn bytes) }
    requires ends { (conn : ℕ) → H.takes (TheEnd conn) }
    requires ticks { (moment : TheMoment) → H.takes (TheTick moment) }
    requires calls { (call : ℕ) (answer : Option (List ℕ)) → H.takes (TheCalled call answer) }
    ensures desk { result.0.desk ≡ pass.desk }
    ensures goes { Goes pass.view result.0.view }
    ensures shares { result.0.view.shares ≡ pass.view.shares }
    ensures served { IfOk result.1 (λ done. IsCrewLeft (tells_lane L.told L.asked L.lost L.faults L.ended) (tells_caller C.told C.asked) H.may_halt (G.is_open gate.now) crew (T.told clock) pass.view (T.told result.2) result.0.view done) }
{
    if crew.lanes.is_empty() {
        let (pass, done) = serve_others(rt, alloc, desk, gate, pass, crew, 0);
        return (pass, done, clock);
    }
    let theirs = desk.split(&mut pass);
    let post = LanePost {
        place: 0,
        turns: crew.turns,
    };
    let lane = crew.lanes.remove(0);
    let here = (pass, (post, lane));
    let there = (theirs, crew);
    let (first, others) = serve_sides(rt, alloc, desk, gate, here, there, clock);
    let (mut pass, first, clock) = first;
    let (theirs, others) = others;
    desk.join(&mut pass, theirs);
    (pass, with_first(first, others), clock)
}

/// All lanes, the first among them.
fn with_first<L: Drop, C: Drop>(
    first: LaneDone<L>,
    others: Result<CrewDone<L, C>, AllocError>,
) -> Result<CrewDone<L, C>, AllocError>
    ensures { IfOk result (λ done. IsOkAnd others (λ o. (done.lanes.items ≡ first ∷ o.lanes.items) × (done.callers ≡ o.callers))) }
{
    let mut done = others?;
    done.lanes.insert(0, first)?;
    Ok(done)
}

/// Serves lanes and callers at once, each in a thread of its own where one can be made, in so many turns each. The first lane reads
/// the clock at the start of each of its turns, and enters the readings that are due. A caller makes the calls whose number is its
/// place among the callers, modulo their count. When all are done, each link that is still open is sent the rest of what the machine
/// sends to it; a send that fails then makes no entry. An error says that memory ran out, and then the lanes and callers are gone; the
/// pass comes back with all calls and all shares in any case.
pub fn serve_all<
    H: Serial + Send,
    G: Gate + Sync,
    L: Lane + Send + Drop,
    C: Caller + Send + Drop,
    T: Clock + Send + Drop,
    R: Threads + Wait + Sync,
>(
    rt: &R,
    alloc: Global,
    desk: &Desk<H>,
    gate: &G,
    pass: Pass<H>,
    crew: Crew<L, C>,
    clock: T,
) -> Served<H, L, C, T>
    requires desk { pass.desk ≡ desk.now }
    requires shares { pass.view.shares ≡ all_shares }
    requires few { (vec_len crew.lanes ≤ 64) × (vec_len crew.callers ≤ 64) }
    requires opens { (kind : TheKind) → H.takes (TheOpen kind) }
    requires messages { (conn : ℕ) (bytes : List ℕ) → H.takes (TheMessage conn bytes) }
    requires ends { (conn : ℕ) → H.takes (TheEnd conn) }
    requires ticks { (moment : TheMoment) → H.takes (TheTick moment) }
    requires calls { (call : ℕ) (answer : Option (List ℕ)) → H.takes (TheCalled call answer) }
    ensures desk { result.0.desk ≡ pass.desk }
    ensures goes { Goes pass.view result.0.view }
    ensures shares { result.0.view.shares ≡ all_shares }
    ensures served { IfOk result.1 (λ done. IsCrewServed (tells_lane L.told L.asked L.lost L.faults L.ended) (tells_caller C.told C.asked) H.may_halt (G.is_open gate.now) crew (T.told clock) pass.view (T.told result.2) result.0.view done) }
{
    let (mut pass, done, clock) = serve_both(rt, alloc, desk, gate, pass, crew, clock);
    let Ok(CrewDone { lanes, callers }) = done else {
        return (pass, Err(AllocError), clock);
    };
    desk.see(&mut pass);
    let lanes = send_rests(rt, alloc, desk, &mut pass, lanes);
    desk.see(&mut pass);
    (pass, Ok(CrewDone { lanes, callers }), clock)
}
