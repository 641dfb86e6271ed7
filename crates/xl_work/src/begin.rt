//! The beginning of a turn: one wait for a link, or for bytes of the link that is served.
ghost use Rattle.std.specs.Prelude.{◌≡◌, ◌<◌, ◌≤◌, ◌^◌, List, Option, None, Some, true, false, IfSome, OnOk, OnErr, IfErr};
ghost use Rattle.xl_base.specs.Telling.{Follows, OnNewest};
ghost use Rattle.xl_base.specs.declared.event.Event.TheVariants.{Open as TheOpen};
ghost use Rattle.xl_base.specs.declared.event.Kind.{Kind as TheKind};
ghost use Rattle.xl_base.specs.declared.lane.Link.{Link as TheLink};
ghost use Rattle.xl_base.specs.declared.lane_end.LaneEnd.TheVariants as lane_end;
ghost use Rattle.xl_frame.specs.Cutting.{fed};
ghost use Rattle.xl_desk.specs.declared.view.View.{View as TheView};
ghost use Rattle.xl_work.specs.Calls.{RoseAtMost};
ghost use Rattle.xl_work.specs.Lives.{Nothing, Unopened, IsServing, IsLeft, HasPlace, IsSettled, IsBroken, IsTurnEnd, IsQuiet, HasAsked, Carries, Loses, tally, all_conns, is_bad};

use crate::lane::{ask, enter};
use crate::worker::{LanePost, Live, Worker};
use std::alloc::Global;
use std::sync::Wait;
use xl_base::{Event, Gate, Kind, Lane, LaneEnd, NextOutcome, ReceiveOutcome, Serial};
use xl_desk::Desk;
use xl_frame::FeedErr;

/// How many bytes are taken from a link at once, at most.
const MOST_BYTES: usize = 8_192;

/// Gives the next bytes of a link to its cutter.
fn take_in(alloc: Global, live: &mut Live, piece: &[u8]) -> Result<(), LaneEnd>
    requires { live.old.ending ≡ false }
    ensures ok { OnOk result (live.new ≡ record live.old { cutter = fed live.old.cutter piece.now; ending = is_bad (fed live.old.cutter piece.now).bad }) }
    ensures err { OnErr result (live.new ≡ live.old) }
    ensures memory { IfErr result (λ end. end ≡ lane_end.NoMemory) }
{
    match live.cutter.feed(alloc, piece) {
        Ok(()) => Ok(()),
        Err(FeedErr::Bad(_)) => {
            live.ending = true;
            Ok(())
        }
        Err(FeedErr::NoMemory) => Err(LaneEnd::NoMemory),
    }
}

/// One wait for bytes of the link that is served.
fn receive<L: Lane>(alloc: Global, lane: &mut L, live: &mut Live) -> Result<(), LaneEnd>
    requires settled { (live.old.ending ≡ false) × (live.old.ended ≡ false) }
    ensures carries { OnOk result (Follows (L.told lane.old) (L.told lane.new) (OnNewest (Carries live.old live.new))) }
    ensures loses { OnErr result (Follows (L.told lane.old) (L.told lane.new) (OnNewest (Loses live.old))) }
    ensures kept { OnErr result (live.new ≡ live.old) }
    ensures same { (live.new.conn ≡ live.old.conn) × (live.new.from ≡ live.old.from) × (live.new.ended ≡ live.old.ended) }
    ensures asked { HasAsked (tally L.asked L.lost L.faults L.ended lane.old) (tally L.asked L.lost L.faults L.ended lane.new) }
    ensures memory { IfErr result (λ end. end ≡ lane_end.NoMemory) }
{
    let mut buffer = [0u8; MOST_BYTES];
    match lane.recv(&mut buffer) {
        ReceiveOutcome::Got(count) => take_in(alloc, live, &buffer[..count]),
        ReceiveOutcome::Quiet => Ok(()),
        ReceiveOutcome::End => {
            live.ending = true;
            Ok(())
        }
        ReceiveOutcome::Failed => {
            live.failed = true;
            Ok(())
        }
    }
}

/// This link is served from now on.
fn put_in(live: &mut Option<Live>, new: Live)
    ensures { live.new ≡ Some new }
{
    *live = Some(new);
}

/// Opens a connection for the link that has come, once the gate lets it pass.
fn open<H: Serial, G: Gate, L: Lane, R: Wait>(
    rt: &R,
    alloc: Global,
    desk: &Desk<H>,
    gate: &G,
    post: LanePost,
    worker: &mut Worker<H, L>,
    kind: Kind,
) -> Result<(), LaneEnd>
    requires desk { worker.old.pass.desk ≡ desk.now }
    requires opens { (kind : TheKind) → H.takes (TheOpen kind) }
    requires post { post.place < 2 ^ 32 }
    requires turns { worker.old.done < post.turns }
    requires idle { worker.old.live ≡ None }
    ensures desk { worker.new.pass.desk ≡ worker.old.pass.desk }
    ensures place { HasPlace worker.new.pass.view worker.new.live }
    ensures serving { (told : Option (List TheLink)) (before : TheView H.Origin) → IsServing told before (L.told worker.old.lane) worker.old.pass.view worker.old.conns.items worker.old.live (Unopened kind) → OnOk result (IsServing told before (L.told worker.new.lane) worker.new.pass.view worker.new.conns.items worker.new.live Nothing) }
    ensures left { (told : Option (List TheLink)) (before : TheView H.Origin) → IsServing told before (L.told worker.old.lane) worker.old.pass.view worker.old.conns.items worker.old.live (Unopened kind) → IfErr result (λ end. IsLeft (G.is_open gate.now) end told before (L.told worker.new.lane) worker.new.pass.view (all_conns worker.new.conns.items worker.new.live) worker.new.live) }
    ensures runs { OnOk result (IfSome worker.new.live (λ l. l.ended ≡ false)) }
    ensures conns { worker.new.conns ≡ worker.old.conns }
    ensures done { OnOk result ((worker.old.done ≤ worker.new.done) × (worker.new.done < post.turns)) }
    ensures passes { G.is_open gate.now ≡ true → worker.new.done ≡ worker.old.done }
    ensures quiet { IsQuiet (tally L.asked L.lost L.faults L.ended worker.old.lane) (tally L.asked L.lost L.faults L.ended worker.new.lane) }
    ensures broken { IfErr result (λ end. IsBroken H.may_halt (G.is_open gate.now) post.turns worker.new.pass.view end) }
{
    ask(rt, alloc, desk, gate, post, worker)?;
    let number = enter(rt, alloc, desk, worker, Event::Open(kind))?;
    put_in(&mut worker.live, Live::new(alloc, number, kind));
    Ok(())
}

/// One wait for the next link.
fn next_link<H: Serial, G: Gate, L: Lane, R: Wait>(
    rt: &R,
    alloc: Global,
    desk: &Desk<H>,
    gate: &G,
    post: LanePost,
    worker: &mut Worker<H, L>,
) -> Result<(), LaneEnd>
    requires desk { worker.old.pass.desk ≡ desk.now }
    requires opens { (kind : TheKind) → H.takes (TheOpen kind) }
    requires post { post.place < 2 ^ 32 }
    requires turns { worker.old.done < post.turns }
    requires idle { worker.old.live ≡ None }
    ensures desk { worker.new.pass.desk ≡ worker.old.pass.desk }
    ensures place { HasPlace worker.new.pass.view worker.new.live }
    ensures serving { (told : Option (List TheLink)) (before : TheView H.Origin) → IsServing told before (L.told worker.old.lane) worker.old.pass.view worker.old.conns.items worker.old.live Nothing → OnOk result (IsServing told before (L.told worker.new.lane) worker.new.pass.view worker.new.conns.items worker.new.live Nothing) }
    ensures left { (told : Option (List TheLink)) (before : TheView H.Origin) → IsServing told before (L.told worker.old.lane) worker.old.pass.view worker.old.conns.items worker.old.live Nothing → IfErr result (λ end. IsLeft (G.is_open gate.now) end told before (L.told worker.new.lane) worker.new.pass.view (all_conns worker.new.conns.items worker.new.live) worker.new.live) }
    ensures runs { OnOk result (IfSome worker.new.live (λ l. l.ended ≡ false)) }
    ensures conns { worker.new.conns ≡ worker.old.conns }
    ensures done { OnOk result ((worker.old.done ≤ worker.new.done) × (worker.new.done < post.turns)) }
    ensures passes { G.is_open gate.now ≡ true → worker.new.done ≡ worker.old.done }
    ensures asked { OnOk result (HasAsked (tally L.asked L.lost L.faults L.ended worker.old.lane) (tally L.asked L.lost L.faults L.ended worker.new.lane)) }
    ensures once { RoseAtMost 1 (L.asked worker.old.lane) (L.asked worker.new.lane) }
    ensures end { IfErr result (λ end. IsTurnEnd H.may_halt (G.is_open gate.now) post.turns worker.new.pass.view (tally L.asked L.lost L.faults L.ended worker.old.lane) (tally L.asked L.lost L.faults L.ended worker.new.lane) end) }
{
    match worker.lane.next() {
        NextOutcome::Link(kind) => open(rt, alloc, desk, gate, post, worker, kind),
        NextOutcome::Quiet => Ok(()),
        NextOutcome::End => Err(LaneEnd::End),
        NextOutcome::Failed => Err(LaneEnd::Failed(worker.lane.faults())),
    }
}

/// One wait: for bytes of the link that is served or, if there is none, for the next link.
pub(crate) fn begin<H: Serial, G: Gate, L: Lane, R: Wait>(
    rt: &R,
    alloc: Global,
    desk: &Desk<H>,
    gate: &G,
    post: LanePost,
    worker: &mut Worker<H, L>,
) -> Result<(), LaneEnd>
    requires desk { worker.old.pass.desk ≡ desk.now }
    requires place { HasPlace worker.old.pass.view worker.old.live }
    requires opens { (kind : TheKind) → H.takes (TheOpen kind) }
    requires post { post.place < 2 ^ 32 }
    requires turns { worker.old.done < post.turns }
    requires settled { IsSettled worker.old.live }
    ensures desk { worker.new.pass.desk ≡ worker.old.pass.desk }
    ensures place { HasPlace worker.new.pass.view worker.new.live }
    ensures serving { (told : Option (List TheLink)) (before : TheView H.Origin) → IsServing told before (L.told worker.old.lane) worker.old.pass.view worker.old.conns.items worker.old.live Nothing → OnOk result (IsServing told before (L.told worker.new.lane) worker.new.pass.view worker.new.conns.items worker.new.live Nothing) }
    ensures left { (told : Option (List TheLink)) (before : TheView H.Origin) → IsServing told before (L.told worker.old.lane) worker.old.pass.view worker.old.conns.items worker.old.live Nothing → IfErr result (λ end. IsLeft (G.is_open gate.now) end told before (L.told worker.new.lane) worker.new.pass.view (all_conns worker.new.conns.items worker.new.live) worker.new.live) }
    ensures runs { OnOk result (IfSome worker.new.live (λ l. l.ended ≡ false)) }
    ensures conns { worker.new.conns ≡ worker.old.conns }
    ensures done { OnOk result ((worker.old.done ≤ worker.new.done) × (worker.new.done < post.turns)) }
    ensures passes { G.is_open gate.now ≡ true → worker.new.done ≡ worker.old.done }
    ensures asked { OnOk result (HasAsked (tally L.asked L.lost L.faults L.ended worker.old.lane) (tally L.asked L.lost L.faults L.ended worker.new.lane)) }
    ensures once { RoseAtMost 1 (L.asked worker.old.lane) (L.asked worker.new.lane) }
    ensures end { IfErr result (λ end. IsTurnEnd H.may_halt (G.is_open gate.now) post.turns worker.new.pass.view (tally L.asked L.lost L.faults L.ended worker.old.lane) (tally L.asked L.lost L.faults L.ended worker.new.lane) end) }
{
    let Some(live) = &mut worker.live else {
        return next_link(rt, alloc, desk, gate, post, worker);
    };
    receive(alloc, &mut worker.lane, live)
}
