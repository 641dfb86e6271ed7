//! A machine that is served.
ghost use Rattle.std.specs.Prelude.{◌≡◌, ◌≢◌, ◌≤◌, ℕ, true, false, vec_len, length, [], IfOk, IsOkAnd, None};
ghost use Rattle.std.specs.List.{list_any};
ghost use Rattle.xl_base.specs.Outside.{Added, Began, Rose};
ghost use Rattle.xl_capture.specs.Written.{capture_of};
ghost use Rattle.xl_house.specs.Awaited.{IsServed};
ghost use Rattle.xl_house.specs.Housed.{Holds, is_spoiled};
ghost use Rattle.xl_house.specs.Journals.{IsLegal, IsOrderly, most_entries, replay};
ghost use Rattle.xl_house.specs.Lawful.{Always};
ghost use Rattle.xl_house.specs.Starts.{IsLoaded};
ghost use Rattle.xl_house.specs.State.{start_of};
ghost use Rattle.xl_work.specs.Crews.{tells_caller, tells_lane};
ghost use Rattle.xl_jobs.specs.Jobs.{is_unstarted, is_unstored};
ghost use Rattle.xl_serve.specs.Serve.{AreIdle, HasRoom, IsServedBy, IsWorked, callers_in, has_starved, is_concluded, is_over, is_served, is_starved, is_worked};

use std::alloc::{AllocError, Global};
use std::sync::Wait;
use std::thread::Threads;
use xl_base::{
    Caller, Clock, Exports, Halt, Journal, Keeper, Lane, LaneEnd, Moment, OpenGate, Sink,
    WriteOutcome,
};
use xl_capture::capture_of;
use xl_desk::NoRoom;
use xl_house::{Ended, House};
use xl_jobs::{Written, close, seat};
use xl_work::{CallsDone, Crew, CrewDone, LaneDone, serve_all};

/// What a served machine has of the outside: the keeper of its record, the lanes of its clients, and who calls them.
#[derive(Drop)]
pub struct Outside<K, L, C, T> {
    /// Where the record is kept.
    pub keeper: K,
    /// Where connections come from, 64 lanes at most. The first has the clock.
    pub lanes: Vec<L>,
    /// Who makes the calls, 64 callers at most.
    pub callers: Vec<C>,
    /// The clock, which the first lane reads.
    pub clock: T,
}

/// How a run ended, and what it hands back (SERVE-1).
#[derive(Drop)]
pub struct Done<K, L, C, T> {
    /// 0: the job was done to the end of the input. 1: the words ask for no job. 2: the source failed. 3: the sink
    /// failed. 4: a line isn't in its grammar. 5: a start failed, since the record could not be loaded or stored. 6: memory ran out. 7:
    /// an event met a full journal.
    pub status: u8,
    /// At status 4 the number of the first such line, counted from 1; else 0.
    pub line: u64,
    /// The events that were stepped, each with what was sent for it.
    pub journal: Journal,
    /// The keeper.
    pub keeper: K,
    /// The lanes, with what became of them. They may be missing at status 6 alone.
    pub lanes: Vec<LaneDone<L>>,
    /// The callers. They may be missing at status 6 alone.
    pub callers: Vec<C>,
    /// The clock.
    pub clock: T,
}

/// Writes the capture of a journal.
#[tactic(auto, using(xl_jobs::proofs::WriteLaws::began_none, xl_jobs::proofs::WriteLaws::began_all))]
fn write_capture<O: Sink>(alloc: Global, journal: &Journal, out: &mut O) -> Written
    ensures all { result ≡ Written.All → Added (O.held out.old) (capture_of journal.now) (O.held out.new) }
    ensures began { Began (O.held out.old) (capture_of journal.now) (O.held out.new) }
    ensures failed { result ≡ Written.Failed → Rose (O.faults out.old) (O.faults out.new) }
    ensures still { result ≢ Written.Failed → O.faults out.new ≡ O.faults out.old }
{
    let Ok(text) = capture_of(alloc, journal) else {
        return Written::NoMemory;
    };
    match out.write(&text) {
        WriteOutcome::Wrote => Written::All,
        WriteOutcome::Failed => Written::Failed,
    }
}

/// The status if the sink failed: 3 in place of 0 (SERVE-2).
fn unwritten(status: u8) -> u8
    requires { is_over status ≡ true }
    ensures known { is_concluded result ≡ true }
    ensures kept { result ≢ 3 → result ≡ status }
    ensures done { result ≡ 3 → status ≡ 0 }
    ensures failed { result ≢ 0 }
{
    if status == 0 { 3 } else { status }
}

/// Writes the capture of a journal, unless memory ran out before, and gives the status: this one, but 3 in place of 0 if the sink
/// failed, and 6 if memory runs out for the capture.
#[tactic(auto, using(xl_jobs::proofs::WriteLaws::began_none))]
fn conclude<O: Sink>(alloc: Global, journal: &Journal, status: u8, out: &mut O) -> u8
    requires over { is_over status ≡ true }
    ensures known { is_concluded result ≡ true }
    ensures kept { result ≢ 3 → result ≢ 6 → result ≡ status }
    ensures done { result ≡ 3 → status ≡ 0 }
    ensures failed { result ≡ 3 → Rose (O.faults out.old) (O.faults out.new) }
    ensures still { result ≢ 3 → result ≢ 5 → result ≢ 7 → O.faults out.new ≡ O.faults out.old }
    ensures written { result ≢ 6 → (Rose (O.faults out.old) (O.faults out.new) → ⊥) → Added (O.held out.old) (capture_of journal.now) (O.held out.new) }
    ensures whole { result ≡ 0 → Added (O.held out.old) (capture_of journal.now) (O.held out.new) }
    ensures began { Began (O.held out.old) (capture_of journal.now) (O.held out.new) }
{
    if status == 6 {
        return 6;
    }
    match write_capture(alloc, journal, out) {
        Written::All => status,
        Written::Failed => unwritten(status),
        Written::NoMemory => 6,
    }
}

/// Whether memory ran out for a worker that ended so.
fn is_starved(end: LaneEnd) -> bool
    ensures { result ≡ is_starved end }
{
    matches!(end, LaneEnd::NoMemory)
}

/// Whether memory ran out for one of the lanes.
fn have_lanes_starved<L>(lanes: &[LaneDone<L>]) -> bool
    ensures { result ≡ list_any (λ d. is_starved d.end) lanes.now }
{
    lanes.iter().any(|lane| is_starved(lane.end))
}

/// Whether memory ran out for one of the callers.
fn have_callers_starved<C>(callers: &[CallsDone<C>]) -> bool
    ensures { result ≡ list_any (λ d. is_starved d.end) callers.now }
{
    callers.iter().any(|calls| is_starved(calls.end))
}

/// Whether memory ran out for one of the lanes or callers.
fn has_starved<L, C>(done: &CrewDone<L, C>) -> bool
    ensures { result ≡ has_starved done.now }
{
    have_lanes_starved(&done.lanes) || have_callers_starved(&done.callers)
}

/// The callers that calls were made by.
fn callers_of<C: Drop>(alloc: Global, calls: Vec<CallsDone<C>>) -> Result<Vec<C>, AllocError>
    ensures { IfOk result (λ v. v.items ≡ callers_in calls.items) }
{
    let mut callers = Vec::new(alloc);
    for done in calls {
        let CallsDone { caller, end: _ } = done;
        callers.push(caller)?;
    }
    Ok(callers)
}

/// What is handed back of lanes and callers that were served, and whether memory ran out for one.
#[derive(Drop)]
struct Served<L, C> {
    lanes: Vec<LaneDone<L>>,
    callers: Vec<C>,
    starved: bool,
}

/// What is handed back of what was served.
fn hand_back<L: Drop, C: Drop>(
    alloc: Global,
    done: Result<CrewDone<L, C>, AllocError>,
) -> Served<L, C>
    ensures { result.starved ≡ false → IsOkAnd done (λ d. (d.lanes.items ≡ result.lanes.items) × (callers_in d.callers.items ≡ result.callers.items) × (has_starved d ≡ false)) }
{
    let Ok(done) = done else {
        return Served {
            lanes: Vec::new(alloc),
            callers: Vec::new(alloc),
            starved: true,
        };
    };
    let starved = has_starved(&done);
    let CrewDone { lanes, callers } = done;
    match callers_of(alloc, callers) {
        Ok(callers) => Served {
            lanes,
            callers,
            starved,
        },
        Err(_) => Served {
            lanes,
            callers: Vec::new(alloc),
            starved: true,
        },
    }
}

/// A house that was served, what became of its lanes and callers, and the clock.
struct Shift<K: Keeper, L, C, T> {
    house: House<K>,
    done: Result<CrewDone<L, C>, AllocError>,
    clock: T,
}

/// Serves a house that has no entry yet: over one desk, its lanes and callers at once.
fn serve_desk<
    K: Keeper + Send + Drop,
    L: Lane + Send + Drop,
    C: Caller + Send + Drop,
    T: Clock + Send + Drop,
    R: Threads + Wait + Sync,
>(rt: &R, alloc: Global, house: House<K>, crew: Crew<L, C>, clock: T) -> Shift<K, L, C, T>
    requires begun { (house.entries ≡ []) × (house.halt ≡ None) }
    requires few { (vec_len crew.lanes ≤ 64) × (vec_len crew.callers ≤ 64) }
    ensures head { result.house.head ≡ house.head }
    ensures served { IfOk result.done (λ done. IsWorked (tells_lane L.told L.asked L.lost L.faults L.ended) (tells_caller C.told C.asked) crew (T.told clock) (T.told result.clock) result.house.entries result.house.halt done) }
{
    let (desk, pass) = match seat(alloc, house) {
        Ok(made) => made,
        Err(NoRoom { machine }) => {
            return Shift {
                house: machine,
                done: Err(AllocError),
                clock,
            };
        }
    };
    let (pass, done, clock) = serve_all(rt, alloc, &desk, &OpenGate, pass, crew, clock);
    let house = close(desk, pass);
    Shift { house, done, clock }
}

/// The status of a house that was served.
fn status_of<K: Keeper>(house: &House<K>, starved: bool) -> u8
    ensures known { is_worked result ≡ true }
    ensures full { result ≡ 7 → length house.now.entries ≡ most_entries }
    ensures runs { result ≢ 6 → result ≢ 7 → house.now.halt ≡ None }
    ensures whole { result ≢ 6 → is_spoiled house.now.halt ≡ false }
    ensures fine { result ≢ 6 → starved ≡ false }
{
    if starved {
        return 6;
    }
    match house.halt() {
        None => 0,
        Some(Halt::NoMemory) => 6,
        Some(Halt::JournalFull(_)) => 7,
        Some(Halt::StartStore(_)) => unreachable!(),
    }
}

/// Serves a house that has no entry yet, and writes the capture of what was entered.
fn serve_house<
    O: Sink,
    K: Keeper + Send + Drop,
    L: Lane + Send + Drop,
    C: Caller + Send + Drop,
    T: Clock + Send + Drop,
    R: Threads + Wait + Sync,
>(
    rt: &R,
    alloc: Global,
    house: House<K>,
    crew: Crew<L, C>,
    out: &mut O,
    clock: T,
) -> Done<K, L, C, T>
    requires begun { (house.entries ≡ []) × (house.halt ≡ None) }
    requires few { (vec_len crew.lanes ≤ 64) × (vec_len crew.callers ≤ 64) }
    ensures known { is_concluded result.status ≡ true }
    ensures started { result.status ≢ 5 }
    ensures line { result.line ≡ 0 }
    ensures head { result.journal.head ≡ house.head }
    ensures failed { result.status ≡ 3 → Rose (O.faults out.old) (O.faults out.new) }
    ensures still { result.status ≢ 3 → result.status ≢ 7 → O.faults out.new ≡ O.faults out.old }
    ensures written { result.status ≢ 6 → (Rose (O.faults out.old) (O.faults out.new) → ⊥) → Added (O.held out.old) (capture_of result.journal) (O.held out.new) }
    ensures whole { result.status ≡ 0 → Added (O.held out.old) (capture_of result.journal) (O.held out.new) }
    ensures began { Began (O.held out.old) (capture_of result.journal) (O.held out.new) }
    ensures full { result.status ≡ 7 → length result.journal.entries ≡ most_entries }
    ensures crew { is_served result.status ≡ true → IsServedBy (tells_lane L.told L.asked L.lost L.faults L.ended) (tells_caller C.told C.asked) crew (T.told clock) (T.told result.clock) result.status result.journal.entries result.lanes.items result.callers.items }
    ensures holds { is_served result.status ≡ true → Holds (K.held result.keeper) (replay (start_of result.journal.head) result.journal.entries).core.stable }
    ensures legal { IsLegal (start_of result.journal.head) result.journal.entries }
    ensures served { Always IsServed (start_of result.journal.head) result.journal.entries }
    ensures orderly { IsOrderly [] 0 result.journal.entries }
    ensures most { length result.journal.entries ≤ most_entries }
{
    let Shift { house, done, clock } = serve_desk(rt, alloc, house, crew, clock);
    let Served {
        lanes,
        callers,
        starved,
    } = hand_back(alloc, done);
    let worked = status_of(&house, starved);
    let (journal, keeper) = house.end();
    let status = conclude(alloc, &journal, worked, out);
    Done {
        status,
        line: 0,
        journal,
        keeper,
        lanes,
        callers,
        clock,
    }
}

/// Lanes that no job serves, each with no turn and no connections, in their order. It takes no memory: the room for them is given.
#[tactic(auto, using(crate::proofs::ServeLaws::idle_more, crate::proofs::ServeLaws::idle_all, crate::proofs::ServeLaws::are_idle))]
pub fn idle_lanes<L: Drop>(alloc: Global, lanes: Vec<L>, room: Vec<LaneDone<L>>) -> Vec<LaneDone<L>>
    requires room { HasRoom lanes room }
    ensures { AreIdle lanes.items result.items }
{
    let mut all = room;
    for lane in lanes {
        all.push_reserved(LaneDone::idle(alloc, lane));
    }
    all
}

/// The status of what could not be started.
fn unstarted(halt: Halt) -> u8
    requires { (count : ℕ) → halt ≡ Halt.JournalFull count → ⊥ }
    ensures known { is_unstarted result ≡ true }
    ensures store { result ≢ 6 → is_unstored halt ≡ true }
{
    match halt {
        Halt::NoMemory => 6,
        Halt::JournalFull(_) => unreachable!(),
        Halt::StartStore(_) => 5,
    }
}

/// The end of what could not be started: nobody is served.
#[tactic(auto, using(crate::proofs::ServeLaws::still_unstarted, crate::proofs::ServeLaws::unstarted_over, crate::proofs::ServeLaws::unstarted_concluded, crate::proofs::ServeLaws::unstarted_apart))]
fn end_unserved<O: Sink, K: Keeper + Drop, L: Drop, C: Drop, T>(
    alloc: Global,
    ended: Ended<K>,
    crew: Crew<L, C>,
    room: Vec<LaneDone<L>>,
    out: &mut O,
    clock: T,
) -> Done<K, L, C, T>
    requires room { HasRoom crew.lanes room }
    requires none { ended.journal.entries ≡ [] }
    requires started { (count : ℕ) → ended.halt ≡ Halt.JournalFull count → ⊥ }
    ensures known { (is_unstarted result.status ≡ true) × (is_concluded result.status ≡ true) }
    ensures apart { (result.status ≢ 0) × ((result.status ≢ 3) × (result.status ≢ 7)) }
    ensures line { result.line ≡ 0 }
    ensures journal { result.journal ≡ ended.journal }
    ensures keeper { result.keeper ≡ ended.keeper }
    ensures callers { result.callers ≡ crew.callers }
    ensures clock { result.clock ≡ clock }
    ensures lanes { AreIdle crew.lanes.items result.lanes.items }
    ensures store { result.status ≡ 5 → is_unstored ended.halt ≡ true }
    ensures still { result.status ≢ 5 → O.faults out.new ≡ O.faults out.old }
    ensures written { result.status ≢ 6 → (Rose (O.faults out.old) (O.faults out.new) → ⊥) → Added (O.held out.old) (capture_of result.journal) (O.held out.new) }
    ensures began { Began (O.held out.old) (capture_of result.journal) (O.held out.new) }
{
    let Ended {
        halt,
        journal,
        keeper,
    } = ended;
    let Crew {
        lanes,
        callers,
        turns: _,
    } = crew;
    let lanes = idle_lanes(alloc, lanes, room);
    let unstarted = unstarted(halt);
    let status = conclude(alloc, &journal, unstarted, out);
    Done {
        status,
        line: 0,
        journal,
        keeper,
        lanes,
        callers,
        clock,
    }
}

/// Serves these exports: starts a house over the keeper's record, serves the lanes and the callers in so many turns each, and writes
/// the capture of what was entered to the sink. At a start whose load or store failed nobody is served; what is written then is the
/// capture of no entry. The lanes come with room for what becomes of them. The status is 0 if all is done, 3 if the sink failed, 5 at that
/// start, 6 if memory ran out, and 7 at an event that met a full journal; the line is 0.
#[tactic(auto, using(crate::proofs::ServeLaws::rose_started, crate::proofs::ServeLaws::unstarted_unserved))]
pub fn serve<
    O: Sink,
    K: Keeper + Send + Drop,
    L: Lane + Send + Drop,
    C: Caller + Send + Drop,
    T: Clock + Send + Drop,
    R: Threads + Wait + Sync,
>(
    rt: &R,
    alloc: Global,
    exports: Exports,
    outside: (Outside<K, L, C, T>, Vec<LaneDone<L>>),
    turns: u64,
    out: &mut O,
) -> Done<K, L, C, T>
    requires room { HasRoom outside.0.lanes outside.1 }
    requires few { (vec_len outside.0.lanes ≤ 64) × (vec_len outside.0.callers ≤ 64) }
    ensures known { is_concluded result.status ≡ true }
    ensures line { result.line ≡ 0 }
    ensures exports { (result.journal.head.exports ≡ exports) × (result.journal.head.start ≡ record { 0 = 0 }) }
    ensures failed { result.status ≡ 3 → Rose (O.faults out.old) (O.faults out.new) }
    ensures still { result.status ≢ 3 → result.status ≢ 5 → result.status ≢ 7 → O.faults out.new ≡ O.faults out.old }
    ensures written { result.status ≢ 6 → (Rose (O.faults out.old) (O.faults out.new) → ⊥) → Added (O.held out.old) (capture_of result.journal) (O.held out.new) }
    ensures whole { result.status ≡ 0 → Added (O.held out.old) (capture_of result.journal) (O.held out.new) }
    ensures began { Began (O.held out.old) (capture_of result.journal) (O.held out.new) }
    ensures full { result.status ≡ 7 → length result.journal.entries ≡ most_entries }
    ensures crew { is_served result.status ≡ true → IsServedBy (tells_lane L.told L.asked L.lost L.faults L.ended) (tells_caller C.told C.asked) (record { lanes = outside.0.lanes; callers = outside.0.callers; turns = turns }) (T.told outside.0.clock) (T.told result.clock) result.status result.journal.entries result.lanes.items result.callers.items }
    ensures loaded { is_served result.status ≡ true → Holds (K.held outside.0.keeper) result.journal.head.«record» }
    ensures holds { is_served result.status ≡ true → Holds (K.held result.keeper) (replay (start_of result.journal.head) result.journal.entries).core.stable }
    ensures nobody { result.status ≡ 5 → (result.journal.entries ≡ []) × (result.callers ≡ outside.0.callers) × (result.clock ≡ outside.0.clock) × AreIdle outside.0.lanes.items result.lanes.items }
    ensures unstored { result.status ≡ 5 → Rose (K.faults outside.0.keeper) (K.faults result.keeper) × (K.held result.keeper ≡ K.held outside.0.keeper) × IsLoaded (K.held outside.0.keeper) result.journal.head.«record» }
    ensures legal { IsLegal (start_of result.journal.head) result.journal.entries }
    ensures served { Always IsServed (start_of result.journal.head) result.journal.entries }
    ensures orderly { IsOrderly [] 0 result.journal.entries }
    ensures most { length result.journal.entries ≤ most_entries }
{
    let (outside, room) = outside;
    let Outside {
        keeper,
        lanes,
        callers,
        clock,
    } = outside;
    let crew = Crew {
        lanes,
        callers,
        turns,
    };
    match House::start(alloc, exports, keeper, Moment(0)) {
        Ok(house) => serve_house(rt, alloc, house, crew, out, clock),
        Err(ended) => end_unserved(alloc, ended, crew, room, out, clock),
    }
}
