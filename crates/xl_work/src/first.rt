//! The first lane, whose turns begin with a reading of the clock.
ghost use Rattle.std.specs.Prelude.{◌≡◌, ◌<◌, ◌≤◌, ◌+◌, ◌^◌, ℕ, Bool, List, Option, true, false, option_map, OnOk, OnErr, IfOk, IfErr, vec_len, vec_capacity, None};
ghost use Rattle.xl_base.specs.declared.event.Event.TheVariants.{Open as TheOpen, Message as TheMessage, End as TheEnd, Tick as TheTick};
ghost use Rattle.xl_base.specs.declared.event.Kind.{Kind as TheKind};
ghost use Rattle.xl_base.specs.declared.event.Moment.{Moment as TheMoment};
ghost use Rattle.xl_base.specs.declared.lane.Link.{Link as TheLink};
ghost use Rattle.xl_base.specs.declared.lane_end.LaneEnd.TheVariants as lane_end;
ghost use Rattle.xl_base.specs.Telling.{Follows};
ghost use Rattle.xl_base.specs.Readings.{Reads};
ghost use Rattle.xl_desk.specs.declared.view.View.{View as TheView};
ghost use Rattle.xl_desk.specs.Passes.{Goes, MadeNone, IsCalled};
ghost use Rattle.xl_work.specs.Ticks.{IsTicking, IsTimed, first_of, moment_of, is_due, no_ticks, read, read_all};
ghost use Rattle.xl_work.specs.Calls.{RoseAtMost, RoseBy};
ghost use Rattle.xl_work.specs.Crews.{Hears, IsFirstServed, tells_lane};
ghost use Rattle.xl_work.specs.Lives.{Nothing, IsServing, IsLeft, HasPlace, HasRoom, HasAsked, IsCaught, IsSettled, IsEmptied, IsBroken, IsTurnEnd, IsLaneEnd, IsQuiet, is_whole, still, tally, all_conns};

use crate::ending::end_link;
use crate::lane::{ask, catch_up, end_of};
use crate::serve::{done_of, turn};
use crate::worker::{LaneDone, LanePost, Worker, is_over, unserved};
use std::alloc::Global;
use std::sync::Wait;
use xl_base::{Clock, Event, Gate, Lane, LaneEnd, Moment, Serial};
use xl_desk::{Desk, Pass};

/// By how many milliseconds a reading has to be above the last one that was entered.
const TICK_STEP: u64 = 1_000;

/// What is known of a clock's readings.
#[derive(Clone, Copy)]
pub struct Ticks {
    /// The first one.
    pub first: Option<Moment>,
    /// The moment of the last one that was entered, 0 before.
    pub last: Moment,
}

impl Ticks {
    /// Before the first reading.
    fn new() -> Ticks
        ensures { result ≡ no_ticks }
    {
        Ticks {
            first: None,
            last: Moment(0),
        }
    }

    /// A reading's moment: how far it is behind the first one.
    fn moment_of(&self, reading: Moment) -> Moment
        ensures { result ≡ moment_of self.now reading }
    {
        let first = self.first.unwrap_or(reading);
        Moment(reading.0.saturating_sub(first.0))
    }

    /// Whether a moment is to be entered.
    fn is_due(&self, moment: Moment) -> bool
        ensures { result ≡ is_due self.now moment }
    {
        moment.0.saturating_sub(self.last.0) >= TICK_STEP
    }

    /// What is known behind a reading, of this moment if it was entered.
    fn read(&self, reading: Moment) -> Ticks
        ensures { result ≡ read self.now reading }
    {
        let moment = self.moment_of(reading);
        Ticks {
            first: Some(self.first.unwrap_or(reading)),
            last: if self.is_due(moment) {
                moment
            } else {
                self.last
            },
        }
    }
}

/// The worker of the first lane, and what its clock has made, by a pass of its own.
pub(crate) struct Timed<H: Serial, L> {
    worker: Worker<H, L>,
    pass: Pass<H>,
    ticks: Ticks,
}

/// Enters the moment of a reading, once the gate lets it pass. If the machine is halted, the link that is served is caught up
/// before the lane ends.
fn enter_tick<H: Serial, G: Gate, L: Lane, R: Wait>(
    rt: &R,
    alloc: Global,
    desk: &Desk<H>,
    gate: &G,
    post: LanePost,
    timed: &mut Timed<H, L>,
    moment: Moment,
) -> Result<u64, LaneEnd>
    requires desk { (timed.old.worker.pass.desk ≡ desk.now) × (timed.old.pass.desk ≡ desk.now) }
    requires place { HasPlace timed.old.worker.pass.view timed.old.worker.live }
    requires takes { H.takes (TheTick moment) }
    requires post { post.place < 2 ^ 32 }
    requires turns { timed.old.worker.done < post.turns }
    ensures desk { (timed.new.worker.pass.desk ≡ timed.old.worker.pass.desk) × (timed.new.pass.desk ≡ timed.old.pass.desk) }
    ensures place { HasPlace timed.new.worker.pass.view timed.new.worker.live }
    ensures serving { (told : Option (List TheLink)) (before : TheView H.Origin) → IsServing told before (L.told timed.old.worker.lane) timed.old.worker.pass.view timed.old.worker.conns.items timed.old.worker.live Nothing → OnOk result (IsServing told before (L.told timed.new.worker.lane) timed.new.worker.pass.view timed.new.worker.conns.items timed.new.worker.live Nothing) }
    ensures left { (told : Option (List TheLink)) (before : TheView H.Origin) → IsServing told before (L.told timed.old.worker.lane) timed.old.worker.pass.view timed.old.worker.conns.items timed.old.worker.live Nothing → IfErr result (λ end. IsLeft (G.is_open gate.now) end told before (L.told timed.new.worker.lane) timed.new.worker.pass.view (all_conns timed.new.worker.conns.items timed.new.worker.live) timed.new.worker.live) }
    ensures still { option_map still timed.new.worker.live ≡ option_map still timed.old.worker.live }
    ensures conns { timed.new.worker.conns ≡ timed.old.worker.conns }
    ensures done { OnOk result ((timed.old.worker.done ≤ timed.new.worker.done) × (timed.new.worker.done < post.turns)) }
    ensures passes { G.is_open gate.now ≡ true → timed.new.worker.done ≡ timed.old.worker.done }
    ensures quiet { IsQuiet (tally L.asked L.lost L.faults L.ended timed.old.worker.lane) (tally L.asked L.lost L.faults L.ended timed.new.worker.lane) }
    ensures ticks { timed.new.ticks ≡ timed.old.ticks }
    ensures called { IfOk result (λ place. IsCalled timed.old.pass.view timed.new.pass.view place (TheTick moment)) }
    ensures none { OnErr result (Goes timed.old.pass.view timed.new.pass.view × MadeNone timed.old.pass.view timed.new.pass.view) }
    ensures part { IfErr result (λ end. is_whole (G.is_open gate.now) end ≡ false) }
    ensures broken { (v : TheView H.Origin) → Hears timed.new.worker.pass.view v → Hears timed.new.pass.view v → IfErr result (λ end. IsBroken H.may_halt (G.is_open gate.now) post.turns v end) }
{
    ask(rt, alloc, desk, gate, post, &mut timed.worker)?;
    timed.worker.calls = timed.worker.calls.wrapping_add(1);
    match desk.call(rt, alloc, &mut timed.pass, Event::Tick(moment)) {
        Ok(receipt) => Ok(receipt.place),
        Err(refused) => match catch_up(rt, alloc, desk, &mut timed.worker) {
            Ok(()) => Err(end_of(refused)),
            Err(_) => Err(LaneEnd::NoMemory),
        },
    }
}

/// A reading of the clock, which is entered if it is due.
fn tick<H: Serial, G: Gate, L: Lane, R: Wait>(
    rt: &R,
    alloc: Global,
    desk: &Desk<H>,
    gate: &G,
    post: LanePost,
    timed: &mut Timed<H, L>,
    reading: Moment,
) -> Result<(), LaneEnd>
    requires desk { (timed.old.worker.pass.desk ≡ desk.now) × (timed.old.pass.desk ≡ desk.now) }
    requires place { HasPlace timed.old.worker.pass.view timed.old.worker.live }
    requires takes { (moment : TheMoment) → H.takes (TheTick moment) }
    requires post { post.place < 2 ^ 32 }
    requires turns { timed.old.worker.done < post.turns }
    ensures desk { (timed.new.worker.pass.desk ≡ timed.old.worker.pass.desk) × (timed.new.pass.desk ≡ timed.old.pass.desk) }
    ensures place { HasPlace timed.new.worker.pass.view timed.new.worker.live }
    ensures serving { (told : Option (List TheLink)) (before : TheView H.Origin) → IsServing told before (L.told timed.old.worker.lane) timed.old.worker.pass.view timed.old.worker.conns.items timed.old.worker.live Nothing → OnOk result (IsServing told before (L.told timed.new.worker.lane) timed.new.worker.pass.view timed.new.worker.conns.items timed.new.worker.live Nothing) }
    ensures left { (told : Option (List TheLink)) (before : TheView H.Origin) → IsServing told before (L.told timed.old.worker.lane) timed.old.worker.pass.view timed.old.worker.conns.items timed.old.worker.live Nothing → IfErr result (λ end. IsLeft (G.is_open gate.now) end told before (L.told timed.new.worker.lane) timed.new.worker.pass.view (all_conns timed.new.worker.conns.items timed.new.worker.live) timed.new.worker.live) }
    ensures still { option_map still timed.new.worker.live ≡ option_map still timed.old.worker.live }
    ensures conns { timed.new.worker.conns ≡ timed.old.worker.conns }
    ensures done { OnOk result ((timed.old.worker.done ≤ timed.new.worker.done) × (timed.new.worker.done < post.turns)) }
    ensures passes { G.is_open gate.now ≡ true → timed.new.worker.done ≡ timed.old.worker.done }
    ensures quiet { IsQuiet (tally L.asked L.lost L.faults L.ended timed.old.worker.lane) (tally L.asked L.lost L.faults L.ended timed.new.worker.lane) }
    ensures ticking { (open_gate : Bool) (done : ℕ) (told told2 told3 : Option (List TheMoment)) (before : TheView H.Origin) → IsTicking open_gate timed.old.ticks done told before told2 timed.old.pass.view → Follows told2 told3 (Reads reading) → OnOk result (IsTicking open_gate timed.new.ticks (done + 1) told before told3 timed.new.pass.view) }
    ensures cut { (open_gate : Bool) (done asked asked2 : ℕ) (told told2 told3 : Option (List TheMoment)) (before : TheView H.Origin) → IsTicking open_gate timed.old.ticks done told before told2 timed.old.pass.view → Follows told2 told3 (Reads reading) → OnErr result (IsTimed false asked asked2 told before told3 timed.new.pass.view) }
    ensures part { IfErr result (λ end. is_whole (G.is_open gate.now) end ≡ false) }
    ensures broken { (v : TheView H.Origin) → Hears timed.new.worker.pass.view v → Hears timed.new.pass.view v → IfErr result (λ end. IsBroken H.may_halt (G.is_open gate.now) post.turns v end) }
{
    let moment = timed.ticks.moment_of(reading);
    let read = timed.ticks.read(reading);
    if !timed.ticks.is_due(moment) {
        timed.ticks = read;
        return Ok(());
    }
    enter_tick(rt, alloc, desk, gate, post, timed, moment)?;
    timed.ticks = read;
    Ok(())
}

/// Ends the link that is served if it is over.
fn settle<H: Serial, G: Gate, L: Lane, R: Wait>(
    rt: &R,
    alloc: Global,
    desk: &Desk<H>,
    gate: &G,
    post: LanePost,
    worker: &mut Worker<H, L>,
) -> Result<(), LaneEnd>
    requires desk { worker.old.pass.desk ≡ desk.now }
    requires place { HasPlace worker.old.pass.view worker.old.live }
    requires ends { (conn : ℕ) → H.takes (TheEnd conn) }
    requires post { post.place < 2 ^ 32 }
    requires turns { worker.old.done < post.turns }
    requires room { vec_len worker.old.conns < vec_capacity worker.old.conns }
    requires emptied { IsEmptied worker.old.live }
    ensures desk { worker.new.pass.desk ≡ worker.old.pass.desk }
    ensures place { HasPlace worker.new.pass.view worker.new.live }
    ensures serving { (told : Option (List TheLink)) (before : TheView H.Origin) → IsServing told before (L.told worker.old.lane) worker.old.pass.view worker.old.conns.items worker.old.live Nothing → OnOk result (IsServing told before (L.told worker.new.lane) worker.new.pass.view worker.new.conns.items worker.new.live Nothing) }
    ensures left { (told : Option (List TheLink)) (before : TheView H.Origin) → IsServing told before (L.told worker.old.lane) worker.old.pass.view worker.old.conns.items worker.old.live Nothing → IfErr result (λ end. IsLeft (G.is_open gate.now) end told before (L.told worker.new.lane) worker.new.pass.view (all_conns worker.new.conns.items worker.new.live) worker.new.live) }
    ensures settled { OnOk result (IsSettled worker.new.live) }
    ensures done { OnOk result ((worker.old.done ≤ worker.new.done) × (worker.new.done < post.turns)) }
    ensures passes { G.is_open gate.now ≡ true → worker.new.done ≡ worker.old.done }
    ensures quiet { IsQuiet (tally L.asked L.lost L.faults L.ended worker.old.lane) (tally L.asked L.lost L.faults L.ended worker.new.lane) }
    ensures room { OnOk result (vec_len worker.new.conns < vec_capacity worker.new.conns) }
    ensures kept { HasRoom (vec_len worker.new.conns) (vec_capacity worker.new.conns) worker.new.live }
    ensures part { IfErr result (λ end. is_whole (G.is_open gate.now) end ≡ false) }
    ensures broken { IfErr result (λ end. IsBroken H.may_halt (G.is_open gate.now) post.turns worker.new.pass.view end) }
{
    if is_over(&worker.live) {
        return end_link(rt, alloc, desk, gate, post, worker);
    }
    Ok(())
}

/// One turn that begins with this reading of the clock. A link of which a call failed while the gate held the reading back is
/// ended first.
fn timed_turn<H: Serial, G: Gate, L: Lane, R: Wait>(
    rt: &R,
    alloc: Global,
    desk: &Desk<H>,
    gate: &G,
    post: LanePost,
    timed: &mut Timed<H, L>,
    reading: Moment,
) -> Result<(), LaneEnd>
    requires desk { (timed.old.worker.pass.desk ≡ desk.now) × (timed.old.pass.desk ≡ desk.now) }
    requires place { HasPlace timed.old.worker.pass.view timed.old.worker.live }
    requires opens { (kind : TheKind) → H.takes (TheOpen kind) }
    requires messages { (conn : ℕ) (bytes : List ℕ) → H.takes (TheMessage conn bytes) }
    requires ends { (conn : ℕ) → H.takes (TheEnd conn) }
    requires ticks { (moment : TheMoment) → H.takes (TheTick moment) }
    requires post { post.place < 2 ^ 32 }
    requires turns { timed.old.worker.done < post.turns }
    requires room { vec_len timed.old.worker.conns < vec_capacity timed.old.worker.conns }
    requires settled { IsSettled timed.old.worker.live }
    ensures desk { (timed.new.worker.pass.desk ≡ timed.old.worker.pass.desk) × (timed.new.pass.desk ≡ timed.old.pass.desk) }
    ensures place { HasPlace timed.new.worker.pass.view timed.new.worker.live }
    ensures serving { (told : Option (List TheLink)) (before : TheView H.Origin) → IsServing told before (L.told timed.old.worker.lane) timed.old.worker.pass.view timed.old.worker.conns.items timed.old.worker.live Nothing → OnOk result (IsServing told before (L.told timed.new.worker.lane) timed.new.worker.pass.view timed.new.worker.conns.items timed.new.worker.live Nothing) }
    ensures left { (told : Option (List TheLink)) (before : TheView H.Origin) → IsServing told before (L.told timed.old.worker.lane) timed.old.worker.pass.view timed.old.worker.conns.items timed.old.worker.live Nothing → IfErr result (λ end. IsLeft (G.is_open gate.now) end told before (L.told timed.new.worker.lane) timed.new.worker.pass.view (all_conns timed.new.worker.conns.items timed.new.worker.live) timed.new.worker.live) }
    ensures settled { OnOk result (IsSettled timed.new.worker.live) }
    ensures caught { OnOk result (IsCaught timed.new.worker.pass.view timed.new.worker.live) }
    ensures done { OnOk result ((timed.old.worker.done < timed.new.worker.done) × (timed.new.worker.done ≤ post.turns)) }
    ensures passes { G.is_open gate.now ≡ true → OnOk result (timed.new.worker.done ≡ timed.old.worker.done + 1) }
    ensures room { OnOk result (vec_len timed.new.worker.conns < vec_capacity timed.new.worker.conns) }
    ensures kept { HasRoom (vec_len timed.new.worker.conns) (vec_capacity timed.new.worker.conns) timed.new.worker.live }
    ensures asked { OnOk result (HasAsked (tally L.asked L.lost L.faults L.ended timed.old.worker.lane) (tally L.asked L.lost L.faults L.ended timed.new.worker.lane)) }
    ensures once { RoseAtMost 1 (L.asked timed.old.worker.lane) (L.asked timed.new.worker.lane) }
    ensures runs { OnOk result (timed.new.worker.pass.view.halt ≡ None) }
    ensures held { IfErr result (λ end. (n : ℕ) → end ≡ lane_end.Turns n → G.is_open gate.now ≡ false) }
    ensures ticking { (open_gate : Bool) (done : ℕ) (told told2 told3 : Option (List TheMoment)) (before : TheView H.Origin) → IsTicking open_gate timed.old.ticks done told before told2 timed.old.pass.view → Follows told2 told3 (Reads reading) → OnOk result (IsTicking open_gate timed.new.ticks (done + 1) told before told3 timed.new.pass.view) }
    ensures timed { (done asked : ℕ) (told told2 told3 : Option (List TheMoment)) (before : TheView H.Origin) → IsTicking (G.is_open gate.now) timed.old.ticks done told before told2 timed.old.pass.view → (G.is_open gate.now ≡ true → RoseBy done asked (L.asked timed.old.worker.lane)) → Follows told2 told3 (Reads reading) → IfErr result (λ end. IsTimed (is_whole (G.is_open gate.now) end) asked (L.asked timed.new.worker.lane) told before told3 timed.new.pass.view) }
    ensures end { (v : TheView H.Origin) → Hears timed.new.worker.pass.view v → Hears timed.new.pass.view v → IfErr result (λ end. IsTurnEnd H.may_halt (G.is_open gate.now) post.turns v (tally L.asked L.lost L.faults L.ended timed.old.worker.lane) (tally L.asked L.lost L.faults L.ended timed.new.worker.lane) end) }
{
    tick(rt, alloc, desk, gate, post, timed, reading)?;
    settle(rt, alloc, desk, gate, post, &mut timed.worker)?;
    turn(rt, alloc, desk, gate, post, &mut timed.worker)
}

/// Serves the lane in so many turns, each of which begins with a reading of the clock.
fn serve_timed<H: Serial, G: Gate, L: Lane, T: Clock, R: Wait>(
    rt: &R,
    alloc: Global,
    desk: &Desk<H>,
    gate: &G,
    post: LanePost,
    timed: &mut Timed<H, L>,
    clock: &mut T,
) -> LaneEnd
    requires desk { (timed.old.worker.pass.desk ≡ desk.now) × (timed.old.pass.desk ≡ desk.now) }
    requires opens { (kind : TheKind) → H.takes (TheOpen kind) }
    requires messages { (conn : ℕ) (bytes : List ℕ) → H.takes (TheMessage conn bytes) }
    requires ends { (conn : ℕ) → H.takes (TheEnd conn) }
    requires ticks { (moment : TheMoment) → H.takes (TheTick moment) }
    requires post { post.place < 2 ^ 32 }
    requires room { vec_len timed.old.worker.conns < vec_capacity timed.old.worker.conns }
    requires idle { (timed.old.worker.live ≡ None) × (timed.old.worker.done ≡ 0) × (timed.old.ticks ≡ no_ticks) }
    ensures desk { (timed.new.worker.pass.desk ≡ timed.old.worker.pass.desk) × (timed.new.pass.desk ≡ timed.old.pass.desk) }
    ensures kept { HasRoom (vec_len timed.new.worker.conns) (vec_capacity timed.new.worker.conns) timed.new.worker.live }
    ensures left { (told : Option (List TheLink)) (before : TheView H.Origin) → IsServing told before (L.told timed.old.worker.lane) timed.old.worker.pass.view timed.old.worker.conns.items timed.old.worker.live Nothing → IsLeft (G.is_open gate.now) result told before (L.told timed.new.worker.lane) timed.new.worker.pass.view (all_conns timed.new.worker.conns.items timed.new.worker.live) timed.new.worker.live }
    ensures timed { IsTimed (is_whole (G.is_open gate.now) result) (L.asked timed.old.worker.lane) (L.asked timed.new.worker.lane) (T.told clock.old) timed.old.pass.view (T.told clock.new) timed.new.pass.view }
    ensures end { (v : TheView H.Origin) → Hears timed.new.worker.pass.view v → Hears timed.new.pass.view v → IsLaneEnd H.may_halt (G.is_open gate.now) post.turns v (tally L.asked L.lost L.faults L.ended timed.old.worker.lane) (tally L.asked L.lost L.faults L.ended timed.new.worker.lane) result }
    ensures most { RoseAtMost post.turns (L.asked timed.old.worker.lane) (L.asked timed.new.worker.lane) }
    // If a first lane that isn't held back did all its turns, its pass had seen no halt by the end of the last one.
    ensures runs { G.is_open gate.now ≡ true → 0 < post.turns → (n : ℕ) → result ≡ lane_end.Turns n → timed.new.worker.pass.view.halt ≡ None }
{
    'turns: while timed.worker.done < post.turns {
        let reading = clock.now();
        if let Err(end) = timed_turn(rt, alloc, desk, gate, post, timed, reading) {
            return end;
        }
    }
    LaneEnd::Turns(post.turns)
}

/// Serves the first lane, with the clock. The readings that are due are entered by a pass of their own, which is joined at the
/// end.
pub(crate) fn serve_first<H: Serial, G: Gate, L: Lane, T: Clock, R: Wait>(
    rt: &R,
    alloc: Global,
    desk: &Desk<H>,
    gate: &G,
    mut pass: Pass<H>,
    work: (LanePost, L),
    clock: &mut T,
) -> (Pass<H>, LaneDone<L>)
    requires desk { pass.desk ≡ desk.now }
    requires shares { 2 ≤ pass.view.shares }
    requires opens { (kind : TheKind) → H.takes (TheOpen kind) }
    requires messages { (conn : ℕ) (bytes : List ℕ) → H.takes (TheMessage conn bytes) }
    requires ends { (conn : ℕ) → H.takes (TheEnd conn) }
    requires ticks { (moment : TheMoment) → H.takes (TheTick moment) }
    requires post { work.0.place < 2 ^ 32 }
    ensures desk { result.0.desk ≡ pass.desk }
    ensures served { IsFirstServed (tells_lane L.told L.asked L.lost L.faults L.ended) H.may_halt (G.is_open gate.now) work.0 work.1 (T.told clock.old) pass.view (T.told clock.new) result.0.view result.1 }
{
    let (post, lane) = work;
    let Ok(conns) = Vec::with_capacity(alloc, 1) else {
        return (pass, unserved(alloc, lane, LaneEnd::NoMemory));
    };
    let own = desk.split(&mut pass);
    let worker = Worker {
        pass,
        lane,
        conns,
        live: None,
        calls: 0,
        done: 0,
    };
    let mut timed = Timed {
        worker,
        pass: own,
        ticks: Ticks::new(),
    };
    let end = serve_timed(rt, alloc, desk, gate, post, &mut timed, clock);
    let Timed {
        worker,
        pass: own,
        ticks: _,
    } = timed;
    let (mut pass, done) = done_of(worker, end);
    desk.join(&mut pass, own);
    (pass, done)
}
