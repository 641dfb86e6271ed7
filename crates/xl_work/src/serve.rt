//! A lane's turns.
ghost use Rattle.std.specs.Prelude.{◌≡◌, ◌<◌, ◌≤◌, ◌+◌, ◌^◌, ℕ, List, Option, None, true, OnOk, IfErr, vec_len, vec_capacity};
ghost use Rattle.xl_base.specs.declared.event.Event.TheVariants.{Open as TheOpen, Message as TheMessage, End as TheEnd};
ghost use Rattle.xl_base.specs.declared.event.Kind.{Kind as TheKind};
ghost use Rattle.xl_base.specs.declared.lane.Link.{Link as TheLink};
ghost use Rattle.xl_base.specs.declared.lane_end.LaneEnd.TheVariants as lane_end;
ghost use Rattle.xl_desk.specs.declared.view.View.{View as TheView};
ghost use Rattle.xl_work.specs.Calls.{RoseAtMost};
ghost use Rattle.xl_work.specs.Lives.{Nothing, IsServing, IsServed, IsLeft, HasPlace, HasRoom, IsCaught, IsSettled, IsEmptied, IsBroken, IsTurnEnd, IsLaneEnd, IsQuiet, HasAsked, tally, all_conns};

use crate::begin::begin;
use crate::ending::end_link;
use crate::lane::{catch_up, check, enter_messages};
use crate::worker::{Conn, LaneDone, LanePost, Live, Worker, is_over, unserved};
use std::alloc::Global;
use std::sync::Wait;
use xl_base::{Gate, Lane, LaneEnd, Serial};
use xl_desk::{Desk, Pass};

/// The end of a turn: the journal is looked at, and what it sends to the link that is served is sent. A link that is over is
/// ended.
fn finish<H: Serial, G: Gate, L: Lane, R: Wait>(
    rt: &R,
    alloc: Global,
    desk: &Desk<H>,
    gate: &G,
    post: LanePost,
    worker: &mut Worker<H, L>,
) -> Result<(), LaneEnd>
    requires desk { worker.old.pass.desk ≡ desk.now }
    requires place { HasPlace worker.old.pass.view worker.old.live }
    requires ends { (conn : ℕ) → H.takes (TheEnd conn) }
    requires post { post.place < 2 ^ 32 }
    requires turns { worker.old.done < post.turns }
    requires room { vec_len worker.old.conns < vec_capacity worker.old.conns }
    requires emptied { IsEmptied worker.old.live }
    ensures desk { worker.new.pass.desk ≡ worker.old.pass.desk }
    ensures place { HasPlace worker.new.pass.view worker.new.live }
    ensures serving { (told : Option (List TheLink)) (before : TheView H.Origin) → IsServing told before (L.told worker.old.lane) worker.old.pass.view worker.old.conns.items worker.old.live Nothing → OnOk result (IsServing told before (L.told worker.new.lane) worker.new.pass.view worker.new.conns.items worker.new.live Nothing) }
    ensures left { (told : Option (List TheLink)) (before : TheView H.Origin) → IsServing told before (L.told worker.old.lane) worker.old.pass.view worker.old.conns.items worker.old.live Nothing → IfErr result (λ end. IsLeft (G.is_open gate.now) end told before (L.told worker.new.lane) worker.new.pass.view (all_conns worker.new.conns.items worker.new.live) worker.new.live) }
    ensures settled { OnOk result (IsSettled worker.new.live) }
    ensures caught { OnOk result (IsCaught worker.new.pass.view worker.new.live) }
    ensures done { OnOk result ((worker.old.done ≤ worker.new.done) × (worker.new.done < post.turns)) }
    ensures passes { G.is_open gate.now ≡ true → worker.new.done ≡ worker.old.done }
    ensures quiet { IsQuiet (tally L.asked L.lost L.faults L.ended worker.old.lane) (tally L.asked L.lost L.faults L.ended worker.new.lane) }
    ensures room { OnOk result (vec_len worker.new.conns < vec_capacity worker.new.conns) }
    ensures kept { HasRoom (vec_len worker.new.conns) (vec_capacity worker.new.conns) worker.new.live }
    ensures broken { IfErr result (λ end. IsBroken H.may_halt (G.is_open gate.now) post.turns worker.new.pass.view end) }
{
    catch_up(rt, alloc, desk, worker)?;
    if is_over(&worker.live) {
        return end_link(rt, alloc, desk, gate, post, worker);
    }
    Ok(())
}

/// One turn: a wait, what it gave, and a look at the journal, of which all is sent that goes to the link. At its end the halt is
/// looked for, behind which no turn follows (THREAD-12).
pub(crate) fn turn<H: Serial, G: Gate, L: Lane, R: Wait>(
    rt: &R,
    alloc: Global,
    desk: &Desk<H>,
    gate: &G,
    post: LanePost,
    worker: &mut Worker<H, L>,
) -> Result<(), LaneEnd>
    requires desk { worker.old.pass.desk ≡ desk.now }
    requires place { HasPlace worker.old.pass.view worker.old.live }
    requires opens { (kind : TheKind) → H.takes (TheOpen kind) }
    requires messages { (conn : ℕ) (bytes : List ℕ) → H.takes (TheMessage conn bytes) }
    requires ends { (conn : ℕ) → H.takes (TheEnd conn) }
    requires post { post.place < 2 ^ 32 }
    requires turns { worker.old.done < post.turns }
    requires room { vec_len worker.old.conns < vec_capacity worker.old.conns }
    requires settled { IsSettled worker.old.live }
    ensures desk { worker.new.pass.desk ≡ worker.old.pass.desk }
    ensures place { HasPlace worker.new.pass.view worker.new.live }
    ensures serving { (told : Option (List TheLink)) (before : TheView H.Origin) → IsServing told before (L.told worker.old.lane) worker.old.pass.view worker.old.conns.items worker.old.live Nothing → OnOk result (IsServing told before (L.told worker.new.lane) worker.new.pass.view worker.new.conns.items worker.new.live Nothing) }
    ensures left { (told : Option (List TheLink)) (before : TheView H.Origin) → IsServing told before (L.told worker.old.lane) worker.old.pass.view worker.old.conns.items worker.old.live Nothing → IfErr result (λ end. IsLeft (G.is_open gate.now) end told before (L.told worker.new.lane) worker.new.pass.view (all_conns worker.new.conns.items worker.new.live) worker.new.live) }
    ensures settled { OnOk result (IsSettled worker.new.live) }
    ensures caught { OnOk result (IsCaught worker.new.pass.view worker.new.live) }
    ensures done { OnOk result ((worker.old.done < worker.new.done) × (worker.new.done ≤ post.turns)) }
    ensures passes { G.is_open gate.now ≡ true → OnOk result (worker.new.done ≡ worker.old.done + 1) }
    ensures room { OnOk result (vec_len worker.new.conns < vec_capacity worker.new.conns) }
    ensures kept { HasRoom (vec_len worker.new.conns) (vec_capacity worker.new.conns) worker.new.live }
    ensures runs { OnOk result (worker.new.pass.view.halt ≡ None) }
    ensures asked { OnOk result (HasAsked (tally L.asked L.lost L.faults L.ended worker.old.lane) (tally L.asked L.lost L.faults L.ended worker.new.lane)) }
    ensures once { RoseAtMost 1 (L.asked worker.old.lane) (L.asked worker.new.lane) }
    ensures end { IfErr result (λ end. IsTurnEnd H.may_halt (G.is_open gate.now) post.turns worker.new.pass.view (tally L.asked L.lost L.faults L.ended worker.old.lane) (tally L.asked L.lost L.faults L.ended worker.new.lane) end) }
{
    begin(rt, alloc, desk, gate, post, worker)?;
    enter_messages(rt, alloc, desk, gate, post, worker)?;
    finish(rt, alloc, desk, gate, post, worker)?;
    check(rt, alloc, desk, worker)?;
    worker.done += 1;
    Ok(())
}

/// Serves the lane in so many turns.
fn serve<H: Serial, G: Gate, L: Lane, R: Wait>(
    rt: &R,
    alloc: Global,
    desk: &Desk<H>,
    gate: &G,
    post: LanePost,
    worker: &mut Worker<H, L>,
) -> LaneEnd
    requires desk { worker.old.pass.desk ≡ desk.now }
    requires opens { (kind : TheKind) → H.takes (TheOpen kind) }
    requires messages { (conn : ℕ) (bytes : List ℕ) → H.takes (TheMessage conn bytes) }
    requires ends { (conn : ℕ) → H.takes (TheEnd conn) }
    requires post { post.place < 2 ^ 32 }
    requires room { vec_len worker.old.conns < vec_capacity worker.old.conns }
    requires idle { (worker.old.live ≡ None) × (worker.old.done ≡ 0) }
    ensures desk { worker.new.pass.desk ≡ worker.old.pass.desk }
    ensures kept { HasRoom (vec_len worker.new.conns) (vec_capacity worker.new.conns) worker.new.live }
    ensures served { (told : Option (List TheLink)) (before : TheView H.Origin) → IsServing told before (L.told worker.old.lane) worker.old.pass.view worker.old.conns.items worker.old.live Nothing → IsLeft (G.is_open gate.now) result told before (L.told worker.new.lane) worker.new.pass.view (all_conns worker.new.conns.items worker.new.live) worker.new.live }
    ensures end { IsLaneEnd H.may_halt (G.is_open gate.now) post.turns worker.new.pass.view (tally L.asked L.lost L.faults L.ended worker.old.lane) (tally L.asked L.lost L.faults L.ended worker.new.lane) result }
    ensures most { RoseAtMost post.turns (L.asked worker.old.lane) (L.asked worker.new.lane) }
    ensures runs { G.is_open gate.now ≡ true → 0 < post.turns → (n : ℕ) → result ≡ lane_end.Turns n → worker.new.pass.view.halt ≡ None }
{
    'turns: while worker.done < post.turns {
        if let Err(end) = turn(rt, alloc, desk, gate, post, worker) {
            return end;
        }
    }
    LaneEnd::Turns(post.turns)
}

/// The connections that are over, and behind them that of the link that is served.
fn with_live(mut conns: Vec<Conn>, live: &Option<Live>) -> Vec<Conn>
    requires { HasRoom (vec_len conns) (vec_capacity conns) live.now }
    ensures { result.items ≡ all_conns conns.items live.now }
{
    if let Some(live) = live {
        conns.push_reserved(live.conn);
    }
    conns
}

/// What became of a worker's lane, and its pass.
pub(crate) fn done_of<H: Serial, L>(worker: Worker<H, L>, end: LaneEnd) -> (Pass<H>, LaneDone<L>)
    requires { HasRoom (vec_len worker.conns) (vec_capacity worker.conns) worker.live }
    ensures pass { result.0 ≡ worker.pass }
    ensures lane { (result.1.lane ≡ worker.lane) × (result.1.end ≡ end) × (result.1.live ≡ worker.live) }
    ensures conns { result.1.conns.items ≡ all_conns worker.conns.items worker.live }
{
    let Worker {
        pass,
        lane,
        conns,
        live,
        calls: _,
        done: _,
    } = worker;
    let conns = with_live(conns, &live);
    let done = LaneDone {
        lane,
        end,
        conns,
        live,
    };
    (pass, done)
}

/// Serves a lane, and tells what it leaves behind.
pub(crate) fn leave_lane<H: Serial, G: Gate, L: Lane, R: Wait>(
    rt: &R,
    alloc: Global,
    desk: &Desk<H>,
    gate: &G,
    pass: Pass<H>,
    post: LanePost,
    lane: L,
) -> (Pass<H>, LaneDone<L>)
    requires desk { pass.desk ≡ desk.now }
    requires opens { (kind : TheKind) → H.takes (TheOpen kind) }
    requires messages { (conn : ℕ) (bytes : List ℕ) → H.takes (TheMessage conn bytes) }
    requires ends { (conn : ℕ) → H.takes (TheEnd conn) }
    requires post { post.place < 2 ^ 32 }
    ensures desk { result.0.desk ≡ pass.desk }
    ensures left { IsLeft (G.is_open gate.now) result.1.end (L.told lane) pass.view (L.told result.1.lane) result.0.view result.1.conns.items result.1.live }
    ensures end { IsLaneEnd H.may_halt (G.is_open gate.now) post.turns result.0.view (tally L.asked L.lost L.faults L.ended lane) (tally L.asked L.lost L.faults L.ended result.1.lane) result.1.end }
    ensures most { RoseAtMost post.turns (L.asked lane) (L.asked result.1.lane) }
    ensures runs { G.is_open gate.now ≡ true → 0 < post.turns → (n : ℕ) → result.1.end ≡ lane_end.Turns n → result.0.view.halt ≡ None }
{
    let Ok(conns) = Vec::with_capacity(alloc, 1) else {
        return (pass, unserved(alloc, lane, LaneEnd::NoMemory));
    };
    let mut worker = Worker {
        pass,
        lane,
        conns,
        live: None,
        calls: 0,
        done: 0,
    };
    let end = serve(rt, alloc, desk, gate, post, &mut worker);
    done_of(worker, end)
}

/// Serves a lane's links one after another, in so many turns. A turn is one wait for a link, or for bytes of the link
/// that is served; a turn in which the gate holds a call of the machine back is a look at the journal. Each link has a
/// connection of its own: the messages of the frames that it gives are entered in order, and what the machine sends to
/// it is sent, at the end of each turn all that the journal has. A connection ends if its link says its end, gives a
/// bad frame, or has a call that fails; then the link is shut, and the next one is waited for. End says that the lane
/// gives no link any more, Failed that the wait for one failed, Turns that all turns are done, Stopped that the machine
/// is halted, and NoMemory that memory ran out.
pub fn serve_lane<H: Serial, G: Gate, L: Lane, R: Wait>(
    rt: &R,
    alloc: Global,
    desk: &Desk<H>,
    gate: &G,
    pass: Pass<H>,
    post: LanePost,
    lane: L,
) -> (Pass<H>, LaneDone<L>)
    requires desk { pass.desk ≡ desk.now }
    requires opens { (kind : TheKind) → H.takes (TheOpen kind) }
    requires messages { (conn : ℕ) (bytes : List ℕ) → H.takes (TheMessage conn bytes) }
    requires ends { (conn : ℕ) → H.takes (TheEnd conn) }
    requires post { post.place < 2 ^ 32 }
    ensures desk { result.0.desk ≡ pass.desk }
    ensures served { IsServed (G.is_open gate.now) result.1.end (L.told lane) pass.view (L.told result.1.lane) result.0.view result.1.conns.items }
    ensures end { IsLaneEnd H.may_halt (G.is_open gate.now) post.turns result.0.view (tally L.asked L.lost L.faults L.ended lane) (tally L.asked L.lost L.faults L.ended result.1.lane) result.1.end }
    ensures most { RoseAtMost post.turns (L.asked lane) (L.asked result.1.lane) }
    // If a lane that isn't held back did all its turns, its pass had seen no halt by the end of the last one.
    ensures runs { G.is_open gate.now ≡ true → 0 < post.turns → (n : ℕ) → result.1.end ≡ lane_end.Turns n → result.0.view.halt ≡ None }
{
    leave_lane(rt, alloc, desk, gate, pass, post, lane)
}
