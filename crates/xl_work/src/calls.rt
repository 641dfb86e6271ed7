//! Callers: the calls that a journal asks for, made and answered.
ghost use Rattle.std.specs.Prelude.{◌≡◌, ℕ, ◌<◌, ◌≤◌, ◌+◌, ◌^◌, List, Option, None, true, length, OnOk, OnErr, IfErr, IfSome};
ghost use Rattle.xl_base.specs.Memory.{counted};
ghost use Rattle.xl_base.specs.declared.caller.Asked.{Asked as TheAsked};
ghost use Rattle.xl_base.specs.declared.event.Event.TheVariants.{Called};
ghost use Rattle.xl_base.specs.declared.lane_end.LaneEnd.TheVariants as lane_end;
ghost use Rattle.xl_desk.specs.declared.view.View.{View as TheView};
ghost use Rattle.xl_work.specs.Calls.{AreMade, IsGoing, IsCut, IsEnd, RoseAtMost, number_of, answer_of};

use crate::lane::end_of;
use crate::worker::call_number;
use std::alloc::Global;
use std::sync::Wait;
use xl_base::{CallOutcome, Caller, Dest, Event, Gate, LaneEnd, Sequence, Serial};
use xl_desk::{Desk, Due, Found, Pass};

/// What a caller is given to do.
#[derive(Clone, Copy, Debug)]
pub struct CallerPost {
    /// Its place among all workers, below 2^32.
    pub place: u64,
    /// How many turns it has.
    pub turns: u64,
    /// It makes the calls whose number is this modulo `of`.
    pub share: u64,
    /// Among how many callers the calls are shared.
    pub of: u64,
}

/// What became of a caller.
#[derive(Drop)]
pub struct CallsDone<C> {
    /// The caller.
    pub caller: C,
    /// Why its calls ended.
    pub end: LaneEnd,
}

/// A caller on its way: all calls before the place `from` are made, and those behind it up to the number `last`.
struct Calling<C> {
    caller: C,
    from: u64,
    last: u64,
}

/// The number of a call.
fn number_of(dest: Dest) -> u64
    ensures { result ≡ number_of dest }
{
    match dest {
        Dest::Conn(_) => 0,
        Dest::Back(call) => call,
    }
}

/// What is entered as a call's answer; None if there was no memory for it.
fn answered(outcome: CallOutcome) -> Option<Option<Sequence<u8>>>
    ensures { IfSome result (λ answer. answer ≡ answer_of outcome) }
{
    match outcome {
        CallOutcome::Answer(bytes) => Some(Some(bytes)),
        CallOutcome::Nobody => Some(None),
        CallOutcome::Failed => Some(None),
        CallOutcome::NoMemory => None,
    }
}

/// One turn that the gate lets pass: the next call, or an idle if none is due and the machine runs. Whether a call was entered.
fn turn<H: Serial, C: Caller, R: Wait>(
    rt: &R,
    alloc: Global,
    desk: &Desk<H>,
    pass: &mut Pass<H>,
    post: CallerPost,
    calling: &mut Calling<C>,
) -> Result<bool, LaneEnd>
    requires desk { pass.old.desk ≡ desk.now }
    requires takes { (call : ℕ) (answer : Option (List ℕ)) → H.takes (Called call answer) }
    requires share { post.share < post.of }
    requires from { (pass.old.view.first ≤ calling.old.from) × (calling.old.from ≤ pass.old.view.first + length pass.old.view.seen) }
    ensures desk { pass.new.desk ≡ pass.old.desk }
    ensures from { OnOk result ((pass.new.view.first ≤ calling.new.from) × (calling.new.from ≤ pass.new.view.first + length pass.new.view.seen)) }
    ensures going { (told : Option (List TheAsked)) (before : TheView H.Origin) → IsGoing post told before (C.told calling.old.caller) pass.old.view calling.old.from calling.old.last → OnOk result (IsGoing post told before (C.told calling.new.caller) pass.new.view calling.new.from calling.new.last) }
    ensures made { (told : Option (List TheAsked)) (before : TheView H.Origin) → IsGoing post told before (C.told calling.old.caller) pass.old.view calling.old.from calling.old.last → OnErr result (AreMade post told before (C.told calling.new.caller) pass.new.view) }
    ensures asked { OnOk result (C.asked calling.new.caller ≡ counted (C.asked calling.old.caller)) }
    ensures once { RoseAtMost 1 (C.asked calling.old.caller) (C.asked calling.new.caller) }
    ensures runs { OnOk result (pass.new.view.halt ≡ None) }
    ensures cut { IfErr result (λ end. IsCut H.may_halt pass.new.view end) }
{
    let due = Due {
        after: calling.last,
        share: post.share,
        of: post.of,
    };
    let Ok(found) = desk.next_call(rt, alloc, pass, calling.from, due) else {
        return Err(LaneEnd::NoMemory);
    };
    let Found { call, at: _, end } = found;
    let Some(call) = call else {
        if let Err(refused) = desk.check(rt, pass) {
            return Err(end_of(refused));
        }
        calling.caller.idle(end);
        calling.from = end;
        return Ok(false);
    };
    let outcome = calling
        .caller
        .call(alloc, call.to.as_slice(), call.bytes.as_slice());
    let Some(answer) = answered(outcome) else {
        return Err(LaneEnd::NoMemory);
    };
    let number = number_of(call.dest);
    match desk.call(rt, alloc, pass, Event::Called(number, answer)) {
        Ok(_) => {
            calling.last = number;
            Ok(true)
        }
        Err(refused) => Err(end_of(refused)),
    }
}

/// Makes a caller's calls: those that the journal asks for whose number is `share` modulo `of`, in order, each once, from the
/// journal's first entry on (THREAD-7), in so many turns. A turn is the search for the next call and that call, an idle if
/// none is due, or a look if the gate doesn't let it pass (THREAD-8). Turns says that all turns are done, Stopped that the
/// machine is halted, also if no call is due (THREAD-12), and NoMemory that memory ran out; no other end comes.
pub fn serve_calls<H: Serial, G: Gate, C: Caller, R: Wait>(
    rt: &R,
    alloc: Global,
    desk: &Desk<H>,
    gate: &G,
    pass: &mut Pass<H>,
    post: CallerPost,
    caller: C,
) -> CallsDone<C>
    requires desk { pass.old.desk ≡ desk.now }
    requires takes { (call : ℕ) (answer : Option (List ℕ)) → H.takes (Called call answer) }
    requires share { post.share < post.of }
    requires place { post.place < 2 ^ 32 }
    ensures desk { pass.new.desk ≡ pass.old.desk }
    ensures made { AreMade post (C.told caller) pass.old.view (C.told result.caller) pass.new.view }
    ensures end { IsEnd H.may_halt (G.is_open gate.now) post.turns pass.new.view (C.asked caller) (C.asked result.caller) result.end }
    ensures most { RoseAtMost post.turns (C.asked caller) (C.asked result.caller) }
    // If a caller that isn't held back did all its turns, its pass had seen no halt by the end of the last one.
    ensures runs { G.is_open gate.now ≡ true → 0 < post.turns → (n : ℕ) → result.end ≡ lane_end.Turns n → pass.new.view.halt ≡ None }
{
    let from = desk.first(rt, pass);
    let mut calling = Calling {
        caller,
        from,
        last: 0,
    };
    let mut calls: u64 = 0;
    'turns: for done in 0..post.turns {
        if !gate.pass(call_number(post.place, calls), done) {
            desk.see(pass);
            continue;
        }
        match turn(rt, alloc, desk, pass, post, &mut calling) {
            Ok(true) => calls = calls.wrapping_add(1),
            Ok(false) => {}
            Err(end) => {
                let Calling {
                    caller,
                    from: _,
                    last: _,
                } = calling;
                return CallsDone { caller, end };
            }
        }
    }
    let Calling {
        caller,
        from: _,
        last: _,
    } = calling;
    CallsDone {
        caller,
        end: LaneEnd::Turns(post.turns),
    }
}
