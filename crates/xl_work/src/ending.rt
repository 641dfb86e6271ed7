//! The end of a link.
ghost use Rattle.std.specs.Prelude.{◌≡◌, ◌<◌, ◌≤◌, ◌^◌, ℕ, List, Option, true, option_map, OnOk, IfErr, vec_len, vec_capacity, None};
ghost use Rattle.xl_base.specs.declared.event.Event.TheVariants.{End as TheEnd};
ghost use Rattle.xl_base.specs.declared.lane.Link.{Link as TheLink};
ghost use Rattle.xl_base.specs.declared.lane_end.LaneEnd.TheVariants as lane_end;
ghost use Rattle.xl_desk.specs.declared.view.View.{View as TheView};
ghost use Rattle.xl_work.specs.Lives.{Nothing, IsServing, IsLeft, HasPlace, HasRoom, IsCaught, IsClosing, IsEmptied, IsBroken, IsQuiet, is_over, tally, all_conns, number_in};

use crate::lane::{ask, catch_up, enter};
use crate::worker::{LanePost, Live, Worker, note_end};
use std::alloc::Global;
use std::sync::Wait;
use xl_base::{Event, Gate, Lane, LaneEnd, Serial};
use xl_desk::Desk;

/// The number of the connection whose link is served.
fn number_of(live: &Option<Live>) -> Option<u64>
    ensures { result ≡ option_map number_in live.now }
{
    live.as_ref().map(|live| live.conn.number)
}

/// Enters the end of the connection whose link is over, once the gate lets it pass.
fn enter_end<H: Serial, G: Gate, L: Lane, R: Wait>(
    rt: &R,
    alloc: Global,
    desk: &Desk<H>,
    gate: &G,
    post: LanePost,
    worker: &mut Worker<H, L>,
) -> Result<(), LaneEnd>
    requires desk { worker.old.pass.desk ≡ desk.now }
    requires place { HasPlace worker.old.pass.view worker.old.live }
    requires ends { (conn : ℕ) → H.takes (TheEnd conn) }
    requires post { post.place < 2 ^ 32 }
    requires turns { worker.old.done < post.turns }
    requires over { is_over worker.old.live ≡ true }
    requires emptied { IsEmptied worker.old.live }
    ensures desk { worker.new.pass.desk ≡ worker.old.pass.desk }
    ensures place { HasPlace worker.new.pass.view worker.new.live }
    ensures serving { (told : Option (List TheLink)) (before : TheView H.Origin) → IsServing told before (L.told worker.old.lane) worker.old.pass.view worker.old.conns.items worker.old.live Nothing → OnOk result (IsServing told before (L.told worker.new.lane) worker.new.pass.view worker.new.conns.items worker.new.live Nothing) }
    ensures left { (told : Option (List TheLink)) (before : TheView H.Origin) → IsServing told before (L.told worker.old.lane) worker.old.pass.view worker.old.conns.items worker.old.live Nothing → IfErr result (λ end. IsLeft (G.is_open gate.now) end told before (L.told worker.new.lane) worker.new.pass.view (all_conns worker.new.conns.items worker.new.live) worker.new.live) }
    ensures closing { OnOk result (IsClosing worker.new.live) }
    ensures conns { worker.new.conns ≡ worker.old.conns }
    ensures done { OnOk result ((worker.old.done ≤ worker.new.done) × (worker.new.done < post.turns)) }
    ensures passes { G.is_open gate.now ≡ true → worker.new.done ≡ worker.old.done }
    ensures quiet { IsQuiet (tally L.asked L.lost L.faults L.ended worker.old.lane) (tally L.asked L.lost L.faults L.ended worker.new.lane) }
    ensures broken { IfErr result (λ end. IsBroken H.may_halt (G.is_open gate.now) post.turns worker.new.pass.view end) }
{
    let Some(number) = number_of(&worker.live) else {
        return Ok(());
    };
    ask(rt, alloc, desk, gate, post, worker)?;
    enter(rt, alloc, desk, worker, Event::End(number))?;
    note_end(&mut worker.live);
    Ok(())
}

/// Shuts the link that is served. Its connection is over, and there is room for that of the next one.
fn put_away<H: Serial, L: Lane>(worker: &mut Worker<H, L>) -> Result<(), LaneEnd>
    requires room { vec_len worker.old.conns < vec_capacity worker.old.conns }
    ensures gone { worker.new.live ≡ None }
    ensures serving { (told : Option (List TheLink)) (before : TheView H.Origin) → IsServing told before (L.told worker.old.lane) worker.old.pass.view worker.old.conns.items worker.old.live Nothing → IsClosing worker.old.live → IsCaught worker.old.pass.view worker.old.live → IsServing told before (L.told worker.new.lane) worker.new.pass.view worker.new.conns.items None Nothing }
    ensures same { (worker.new.pass ≡ worker.old.pass) × (worker.new.done ≡ worker.old.done) }
    ensures quiet { IsQuiet (tally L.asked L.lost L.faults L.ended worker.old.lane) (tally L.asked L.lost L.faults L.ended worker.new.lane) }
    ensures room { OnOk result (vec_len worker.new.conns < vec_capacity worker.new.conns) }
    ensures memory { IfErr result (λ end. end ≡ lane_end.NoMemory) }
{
    let Some(live) = worker.live.take() else {
        return Ok(());
    };
    worker.lane.shut();
    worker.conns.push_reserved(live.conn);
    match worker.conns.reserve(1) {
        Ok(()) => Ok(()),
        Err(_) => Err(LaneEnd::NoMemory),
    }
}

/// Ends the connection whose link is over: its end is entered, what the machine sends to it until then is sent, and the link
/// is shut.
pub(crate) fn end_link<H: Serial, G: Gate, L: Lane, R: Wait>(
    rt: &R,
    alloc: Global,
    desk: &Desk<H>,
    gate: &G,
    post: LanePost,
    worker: &mut Worker<H, L>,
) -> Result<(), LaneEnd>
    requires desk { worker.old.pass.desk ≡ desk.now }
    requires place { HasPlace worker.old.pass.view worker.old.live }
    requires ends { (conn : ℕ) → H.takes (TheEnd conn) }
    requires post { post.place < 2 ^ 32 }
    requires turns { worker.old.done < post.turns }
    requires room { vec_len worker.old.conns < vec_capacity worker.old.conns }
    requires over { is_over worker.old.live ≡ true }
    requires emptied { IsEmptied worker.old.live }
    ensures desk { worker.new.pass.desk ≡ worker.old.pass.desk }
    ensures gone { OnOk result (worker.new.live ≡ None) }
    ensures place { HasPlace worker.new.pass.view worker.new.live }
    ensures serving { (told : Option (List TheLink)) (before : TheView H.Origin) → IsServing told before (L.told worker.old.lane) worker.old.pass.view worker.old.conns.items worker.old.live Nothing → OnOk result (IsServing told before (L.told worker.new.lane) worker.new.pass.view worker.new.conns.items None Nothing) }
    ensures left { (told : Option (List TheLink)) (before : TheView H.Origin) → IsServing told before (L.told worker.old.lane) worker.old.pass.view worker.old.conns.items worker.old.live Nothing → IfErr result (λ end. IsLeft (G.is_open gate.now) end told before (L.told worker.new.lane) worker.new.pass.view (all_conns worker.new.conns.items worker.new.live) worker.new.live) }
    ensures done { OnOk result ((worker.old.done ≤ worker.new.done) × (worker.new.done < post.turns)) }
    ensures passes { G.is_open gate.now ≡ true → worker.new.done ≡ worker.old.done }
    ensures quiet { IsQuiet (tally L.asked L.lost L.faults L.ended worker.old.lane) (tally L.asked L.lost L.faults L.ended worker.new.lane) }
    ensures room { OnOk result (vec_len worker.new.conns < vec_capacity worker.new.conns) }
    ensures kept { HasRoom (vec_len worker.new.conns) (vec_capacity worker.new.conns) worker.new.live }
    ensures broken { IfErr result (λ end. IsBroken H.may_halt (G.is_open gate.now) post.turns worker.new.pass.view end) }
{
    enter_end(rt, alloc, desk, gate, post, worker)?;
    catch_up(rt, alloc, desk, worker)?;
    put_away(worker)
}
