//! A link that is served: what it gives is entered, and what the machine sends to it is sent.
ghost use Rattle.std.specs.Prelude.{◌≡◌, ◌<◌, ◌≤◌, ◌^◌, ℕ, List, Option, None, Bool, true, option_map, OnOk, IfOk, IfErr};
ghost use Rattle.xl_base.specs.declared.event.Event.TheVariants.{Message as TheMessage};
ghost use Rattle.xl_base.specs.declared.lane.Link.{Link as TheLink};
ghost use Rattle.xl_base.specs.declared.lane_end.LaneEnd.TheVariants as lane_end;
ghost use Rattle.xl_base.specs.Links.{send_failed};
ghost use Rattle.xl_desk.specs.declared.view.View.{View as TheView};
ghost use Rattle.xl_desk.specs.Passes.{Goes, IsCalled, IsLawful};
ghost use Rattle.xl_work.specs.Calls.{IsCut};
ghost use Rattle.xl_work.specs.Lives.{Hand, Nothing, IsServing, IsLeft, HasPlace, IsCaught, IsBroken, IsQuiet, is_over, tally, ready_in, all_conns, end_of, still, steady};

use crate::worker::{LanePost, Live, Worker, call_number, note_end, take_message};
use std::alloc::Global;
use std::sync::Wait;
use xl_base::{Event, Gate, Lane, LaneEnd, Serial, WriteOutcome};
use xl_desk::{Desk, DeskErr};

/// Whether a send failed.
pub(crate) fn is_failed(outcome: WriteOutcome) -> bool
    ensures { result ≡ send_failed outcome }
{
    matches!(outcome, WriteOutcome::Failed)
}

/// Sends the link that is served what the machine sends to it, up to the journal's end; if there is none, the journal
/// is looked at alone.
#[tactic(auto, using(crate::proofs::LifeLaws::in_time_of))]
pub(crate) fn catch_up<H: Serial, L: Lane, R: Wait>(
    rt: &R,
    alloc: Global,
    desk: &Desk<H>,
    worker: &mut Worker<H, L>,
) -> Result<(), LaneEnd>
    requires desk { worker.old.pass.desk ≡ desk.now }
    requires place { HasPlace worker.old.pass.view worker.old.live }
    ensures desk { worker.new.pass.desk ≡ worker.old.pass.desk }
    ensures place { HasPlace worker.new.pass.view worker.new.live }
    ensures serving { (told : Option (List TheLink)) (before : TheView H.Origin) (hand : Hand) → IsServing told before (L.told worker.old.lane) worker.old.pass.view worker.old.conns.items worker.old.live hand → IsServing told before (L.told worker.new.lane) worker.new.pass.view worker.new.conns.items worker.new.live hand }
    ensures caught { OnOk result (IsCaught worker.new.pass.view worker.new.live) }
    ensures goes { Goes worker.old.pass.view worker.new.pass.view }
    ensures still { option_map still worker.new.live ≡ option_map still worker.old.live }
    ensures over { is_over worker.old.live ≡ true → is_over worker.new.live ≡ true }
    ensures rest { (worker.new.conns ≡ worker.old.conns) × (worker.new.calls ≡ worker.old.calls) × (worker.new.done ≡ worker.old.done) }
    ensures quiet { IsQuiet (tally L.asked L.lost L.faults L.ended worker.old.lane) (tally L.asked L.lost L.faults L.ended worker.new.lane) }
    ensures memory { IfErr result (λ end. end ≡ lane_end.NoMemory) }
{
    let Some(live) = &mut worker.live else {
        desk.see(&mut worker.pass);
        return Ok(());
    };
    if live.failed {
        desk.see(&mut worker.pass);
        return Ok(());
    }
    let looked = desk.look(rt, alloc, &mut worker.pass, live.conn.number, live.from);
    let Ok((bytes, end)) = looked else {
        return Err(LaneEnd::NoMemory);
    };
    live.from = end;
    let sent = bytes.as_slice();
    if sent.is_empty() {
        return Ok(());
    }
    live.failed = is_failed(worker.lane.send(sent));
    Ok(())
}

/// Calls the machine. If it is halted, the link that is served is caught up before the lane ends.
pub(crate) fn enter<H: Serial, L: Lane, R: Wait>(
    rt: &R,
    alloc: Global,
    desk: &Desk<H>,
    worker: &mut Worker<H, L>,
    event: Event,
) -> Result<u64, LaneEnd>
    requires desk { worker.old.pass.desk ≡ desk.now }
    requires place { HasPlace worker.old.pass.view worker.old.live }
    requires takes { H.takes event }
    ensures desk { worker.new.pass.desk ≡ worker.old.pass.desk }
    ensures place { HasPlace worker.new.pass.view worker.new.live }
    ensures lawful { OnOk result (IsLawful H.first H.lawful worker.new.pass.view) }
    ensures called { IfOk result (λ place. IsCalled worker.old.pass.view worker.new.pass.view place event) }
    ensures same { OnOk result ((worker.new.lane ≡ worker.old.lane) × (worker.new.live ≡ worker.old.live)) }
    ensures rest { (worker.new.conns ≡ worker.old.conns) × (worker.new.done ≡ worker.old.done) }
    ensures quiet { IsQuiet (tally L.asked L.lost L.faults L.ended worker.old.lane) (tally L.asked L.lost L.faults L.ended worker.new.lane) }
    ensures left { (open_gate : Bool) (told : Option (List TheLink)) (before : TheView H.Origin) (hand : Hand) → IsServing told before (L.told worker.old.lane) worker.old.pass.view worker.old.conns.items worker.old.live hand → IfErr result (λ end. IsLeft open_gate end told before (L.told worker.new.lane) worker.new.pass.view (all_conns worker.new.conns.items worker.new.live) worker.new.live) }
    ensures cut { IfErr result (λ end. IsCut H.may_halt worker.new.pass.view end) }
{
    worker.calls = worker.calls.wrapping_add(1);
    match desk.call(rt, alloc, &mut worker.pass, event) {
        Ok(receipt) => Ok(receipt.place),
        Err(refused) => match catch_up(rt, alloc, desk, worker) {
            Ok(()) => Err(end_of(refused)),
            Err(_) => Err(LaneEnd::NoMemory),
        },
    }
}

/// Whether the machine runs, without a call. If it is halted, the link that is served is caught up before the lane ends.
pub(crate) fn check<H: Serial, L: Lane, R: Wait>(
    rt: &R,
    alloc: Global,
    desk: &Desk<H>,
    worker: &mut Worker<H, L>,
) -> Result<(), LaneEnd>
    requires desk { worker.old.pass.desk ≡ desk.now }
    requires place { HasPlace worker.old.pass.view worker.old.live }
    ensures desk { worker.new.pass.desk ≡ worker.old.pass.desk }
    ensures place { HasPlace worker.new.pass.view worker.new.live }
    ensures runs { OnOk result (worker.new.pass.view.halt ≡ None) }
    ensures same { OnOk result ((worker.new.pass.view ≡ worker.old.pass.view) × (worker.new.lane ≡ worker.old.lane) × (worker.new.live ≡ worker.old.live)) }
    ensures rest { (worker.new.conns ≡ worker.old.conns) × (worker.new.done ≡ worker.old.done) }
    ensures quiet { IsQuiet (tally L.asked L.lost L.faults L.ended worker.old.lane) (tally L.asked L.lost L.faults L.ended worker.new.lane) }
    ensures left { (open_gate : Bool) (told : Option (List TheLink)) (before : TheView H.Origin) (hand : Hand) → IsServing told before (L.told worker.old.lane) worker.old.pass.view worker.old.conns.items worker.old.live hand → IfErr result (λ end. IsLeft open_gate end told before (L.told worker.new.lane) worker.new.pass.view (all_conns worker.new.conns.items worker.new.live) worker.new.live) }
    ensures cut { IfErr result (λ end. IsCut H.may_halt worker.new.pass.view end) }
{
    match desk.check(rt, &mut worker.pass) {
        Ok(()) => Ok(()),
        Err(refused) => match catch_up(rt, alloc, desk, worker) {
            Ok(()) => Err(end_of(refused)),
            Err(_) => Err(LaneEnd::NoMemory),
        },
    }
}

/// How a lane, or a caller, ends whose call was refused.
pub(crate) fn end_of(refused: DeskErr) -> LaneEnd
    ensures { result ≡ end_of refused }
{
    match refused {
        DeskErr::Halted(reason, count) => LaneEnd::Stopped(reason, count),
        DeskErr::Stopped(reason, count) => LaneEnd::Stopped(reason, count),
    }
}

/// Waits, in turns of their own, until the gate lets the next call of the machine pass. In each the link that is served is
/// caught up.
pub(crate) fn ask<H: Serial, G: Gate, L: Lane, R: Wait>(
    rt: &R,
    alloc: Global,
    desk: &Desk<H>,
    gate: &G,
    post: LanePost,
    worker: &mut Worker<H, L>,
) -> Result<(), LaneEnd>
    requires desk { worker.old.pass.desk ≡ desk.now }
    requires place { HasPlace worker.old.pass.view worker.old.live }
    requires post { post.place < 2 ^ 32 }
    requires turns { worker.old.done < post.turns }
    ensures desk { worker.new.pass.desk ≡ worker.old.pass.desk }
    ensures place { HasPlace worker.new.pass.view worker.new.live }
    ensures serving { (told : Option (List TheLink)) (before : TheView H.Origin) (hand : Hand) → IsServing told before (L.told worker.old.lane) worker.old.pass.view worker.old.conns.items worker.old.live hand → IsServing told before (L.told worker.new.lane) worker.new.pass.view worker.new.conns.items worker.new.live hand }
    ensures left { (told : Option (List TheLink)) (before : TheView H.Origin) (hand : Hand) → IsServing told before (L.told worker.old.lane) worker.old.pass.view worker.old.conns.items worker.old.live hand → IfErr result (λ end. IsLeft (G.is_open gate.now) end told before (L.told worker.new.lane) worker.new.pass.view (all_conns worker.new.conns.items worker.new.live) worker.new.live) }
    ensures still { option_map still worker.new.live ≡ option_map still worker.old.live }
    ensures over { is_over worker.old.live ≡ true → is_over worker.new.live ≡ true }
    ensures conns { worker.new.conns ≡ worker.old.conns }
    ensures done { OnOk result ((worker.old.done ≤ worker.new.done) × (worker.new.done < post.turns)) }
    ensures passes { G.is_open gate.now ≡ true → worker.new.done ≡ worker.old.done }
    ensures quiet { IsQuiet (tally L.asked L.lost L.faults L.ended worker.old.lane) (tally L.asked L.lost L.faults L.ended worker.new.lane) }
    ensures broken { IfErr result (λ end. IsBroken H.may_halt (G.is_open gate.now) post.turns worker.new.pass.view end) }
{
    'asks: for done in worker.done..post.turns {
        worker.done = done;
        if gate.pass(call_number(post.place, worker.calls), done) {
            return Ok(());
        }
        catch_up(rt, alloc, desk, worker)?;
    }
    Err(LaneEnd::Turns(post.turns))
}

/// Enters the messages of the link that is served, in order.
pub(crate) fn enter_messages<H: Serial, G: Gate, L: Lane, R: Wait>(
    rt: &R,
    alloc: Global,
    desk: &Desk<H>,
    gate: &G,
    post: LanePost,
    worker: &mut Worker<H, L>,
) -> Result<(), LaneEnd>
    requires desk { worker.old.pass.desk ≡ desk.now }
    requires place { HasPlace worker.old.pass.view worker.old.live }
    requires takes { (conn : ℕ) (bytes : List ℕ) → H.takes (TheMessage conn bytes) }
    requires post { post.place < 2 ^ 32 }
    requires turns { worker.old.done < post.turns }
    ensures desk { worker.new.pass.desk ≡ worker.old.pass.desk }
    ensures place { HasPlace worker.new.pass.view worker.new.live }
    ensures serving { (told : Option (List TheLink)) (before : TheView H.Origin) → IsServing told before (L.told worker.old.lane) worker.old.pass.view worker.old.conns.items worker.old.live Nothing → OnOk result (IsServing told before (L.told worker.new.lane) worker.new.pass.view worker.new.conns.items worker.new.live Nothing) }
    ensures left { (told : Option (List TheLink)) (before : TheView H.Origin) → IsServing told before (L.told worker.old.lane) worker.old.pass.view worker.old.conns.items worker.old.live Nothing → IfErr result (λ end. IsLeft (G.is_open gate.now) end told before (L.told worker.new.lane) worker.new.pass.view (all_conns worker.new.conns.items worker.new.live) worker.new.live) }
    ensures steady { OnOk result (option_map steady worker.new.live ≡ option_map steady worker.old.live) }
    ensures emptied { OnOk result (ready_in worker.new.live ≡ 0) }
    ensures conns { worker.new.conns ≡ worker.old.conns }
    ensures done { OnOk result ((worker.old.done ≤ worker.new.done) × (worker.new.done < post.turns)) }
    ensures passes { G.is_open gate.now ≡ true → worker.new.done ≡ worker.old.done }
    ensures quiet { IsQuiet (tally L.asked L.lost L.faults L.ended worker.old.lane) (tally L.asked L.lost L.faults L.ended worker.new.lane) }
    ensures broken { IfErr result (λ end. IsBroken H.may_halt (G.is_open gate.now) post.turns worker.new.pass.view end) }
{
    'messages: while let Some((conn, message)) = take_message(&mut worker.live) {
        ask(rt, alloc, desk, gate, post, worker)?;
        enter(rt, alloc, desk, worker, Event::Message(conn, message))?;
    }
    Ok(())
}
