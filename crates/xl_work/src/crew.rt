//! Lanes and callers that are served at once, by halves.
ghost use Rattle.std.specs.Prelude.{◌≡◌, ◌<◌, ◌≤◌, ◌+◌, ◌^◌, ◌++◌, ℕ, List, Option, OnOk, IfOk, IfErr, IsOkAnd, length, vec_len};
ghost use denote.Param.Send.{IsSync};
ghost use Rattle.xl_base.specs.declared.event.Event.TheVariants.{Open as TheOpen, Message as TheMessage, End as TheEnd, Called as TheCalled};
ghost use Rattle.xl_base.specs.declared.event.Kind.{Kind as TheKind};
ghost use Rattle.xl_desk.specs.Passes.{Goes};
ghost use Rattle.xl_desk.specs.Turns.{half, halved};
ghost use Rattle.xl_work.specs.Crews.{AreServed, DoesCaller, LeavesLane, next_caller, next_lane, tells_caller, tells_lane};

use crate::calls::{CallerPost, CallsDone, serve_calls};
use crate::serve::leave_lane;
use crate::worker::{LaneDone, LanePost};
use std::alloc::{AllocError, Global};
use std::sync::Wait;
use std::thread::{Threads, join};
use xl_base::{Caller, Gate, Lane, Serial};
use xl_desk::{Desk, Pass};

/// A pass with half of the shares, and the workers from the middle on; at least one worker stays. An error leaves both as they were.
fn halve<H: Serial, W>(
    desk: &Desk<H>,
    pass: &mut Pass<H>,
    workers: &mut Vec<W>,
) -> Result<(Pass<H>, Vec<W>), AllocError>
    requires desk { pass.old.desk ≡ desk.now }
    requires many { 2 ≤ vec_len workers.old }
    requires shares { vec_len workers.old ≤ pass.old.view.shares }
    ensures desk { pass.new.desk ≡ pass.old.desk }
    ensures other_desk { IfOk result (λ t. t.0.desk ≡ pass.old.desk) }
    ensures pass { OnOk result (pass.new.view ≡ halved pass.old.view) }
    ensures other { IfOk result (λ t. t.0.view ≡ half pass.old.view) }
    ensures workers { IfOk result (λ t. workers.old.items ≡ workers.new.items ++ t.1.items) }
    ensures front { OnOk result (vec_len workers.new ≤ pass.new.view.shares) }
    ensures behind { IfOk result (λ t. vec_len t.1 ≤ t.0.view.shares) }
    ensures fewer { OnOk result ((0 < vec_len workers.new) × (vec_len workers.new < vec_len workers.old)) }
    ensures fewer_behind { IfOk result (λ t. vec_len t.1 < vec_len workers.old) }
    ensures kept { IfErr result (λ _. pass.new ≡ pass.old) }
{
    let count = workers.len();
    let others = workers.split_off(count - count / 2)?;
    let theirs = desk.split(pass);
    Ok((theirs, others))
}

/// What both halves came to.
fn both<D: Drop>(
    first: Result<Vec<D>, AllocError>,
    second: Result<Vec<D>, AllocError>,
) -> Result<Vec<D>, AllocError>
    ensures { IfOk result (λ all. IsOkAnd first (λ xs. IsOkAnd second (λ ys. all.items ≡ xs.items ++ ys.items))) }
{
    let mut all = first?;
    let mut rest = second?;
    all.append(&mut rest)?;
    Ok(all)
}

/// Serves one lane, or none.
fn serve_last_lane<H: Serial, G: Gate, L: Lane + Drop, R: Wait>(
    rt: &R,
    alloc: Global,
    desk: &Desk<H>,
    gate: &G,
    pass: Pass<H>,
    mut lanes: Vec<L>,
    post: LanePost,
) -> (Pass<H>, Result<Vec<LaneDone<L>>, AllocError>)
    requires desk { pass.desk ≡ desk.now }
    requires opens { (kind : TheKind) → H.takes (TheOpen kind) }
    requires messages { (conn : ℕ) (bytes : List ℕ) → H.takes (TheMessage conn bytes) }
    requires ends { (conn : ℕ) → H.takes (TheEnd conn) }
    requires few { vec_len lanes ≤ 1 }
    requires places { post.place + vec_len lanes ≤ 2 ^ 32 }
    ensures desk { result.0.desk ≡ pass.desk }
    ensures goes { Goes pass.view result.0.view }
    ensures shares { result.0.view.shares ≡ pass.view.shares }
    ensures served { IfOk result.1 (λ done. AreServed next_lane (LeavesLane (tells_lane L.told L.asked L.lost L.faults L.ended) H.may_halt (G.is_open gate.now)) post lanes.items pass.view result.0.view done.items) }
{
    let Ok(mut all) = Vec::with_capacity(alloc, 1) else {
        return (pass, Err(AllocError));
    };
    let Some(lane) = lanes.pop() else {
        return (pass, Ok(all));
    };
    let (pass, done) = leave_lane(rt, alloc, desk, gate, pass, post, lane);
    all.push_reserved(done);
    (pass, Ok(all))
}

/// Serves lanes whose posts follow this one, by halves: one half in a thread of its own where one can be made. The pass has the calls
/// of all when it comes back, and as many shares. An error says that memory ran out; then the lanes are gone.
#[cycle(lanes)]
pub(crate) fn serve_lanes<
    H: Serial + Send,
    G: Gate + Sync,
    L: Lane + Send + Drop,
    R: Threads + Wait + Sync,
>(
    rt: &R,
    alloc: Global,
    desk: &Desk<H>,
    gate: &G,
    mut pass: Pass<H>,
    mut lanes: Vec<L>,
    post: LanePost,
) -> (Pass<H>, Result<Vec<LaneDone<L>>, AllocError>)
    requires desk { pass.desk ≡ desk.now }
    requires opens { (kind : TheKind) → H.takes (TheOpen kind) }
    requires messages { (conn : ℕ) (bytes : List ℕ) → H.takes (TheMessage conn bytes) }
    requires ends { (conn : ℕ) → H.takes (TheEnd conn) }
    requires shares { vec_len lanes ≤ pass.view.shares }
    requires places { post.place + vec_len lanes ≤ 2 ^ 32 }
    ensures desk { result.0.desk ≡ pass.desk }
    ensures goes { Goes pass.view result.0.view }
    ensures shares { result.0.view.shares ≡ pass.view.shares }
    ensures served { IfOk result.1 (λ done. AreServed next_lane (LeavesLane (tells_lane L.told L.asked L.lost L.faults L.ended) H.may_halt (G.is_open gate.now)) post lanes.items pass.view result.0.view done.items) }
{
    if lanes.len() <= 1 {
        return serve_last_lane(rt, alloc, desk, gate, pass, lanes, post);
    }
    let Ok((theirs, others)) = halve(desk, &mut pass, &mut lanes) else {
        return (pass, Err(AllocError));
    };
    let behind = LanePost {
        place: post.place + lanes.len() as u64,
        turns: post.turns,
    };
    let front = || -> (Pass<H>, Result<Vec<LaneDone<L>>, AllocError>)
        requires { IsSync R.row × IsSync G.row × (pass.desk ≡ desk.now) × ((kind : TheKind) → H.takes (TheOpen kind)) × ((conn : ℕ) (bytes : List ℕ) → H.takes (TheMessage conn bytes)) × ((conn : ℕ) → H.takes (TheEnd conn)) × (vec_len lanes ≤ pass.view.shares) × (post.place + vec_len lanes ≤ 2 ^ 32) }
        ensures { (result.0.desk ≡ pass.desk) × Goes pass.view result.0.view × (result.0.view.shares ≡ pass.view.shares) × IfOk result.1 (λ done. AreServed next_lane (LeavesLane (tells_lane L.told L.asked L.lost L.faults L.ended) H.may_halt (G.is_open gate.entry.now)) post lanes.items pass.view result.0.view done.items) }
    { serve_lanes(rt, alloc, desk, gate, pass, lanes, post) };
    let back = || -> (Pass<H>, Result<Vec<LaneDone<L>>, AllocError>)
        requires { IsSync R.row × IsSync G.row × (theirs.desk ≡ desk.now) × ((kind : TheKind) → H.takes (TheOpen kind)) × ((conn : ℕ) (bytes : List ℕ) → H.takes (TheMessage conn bytes)) × ((conn : ℕ) → H.takes (TheEnd conn)) × (vec_len others ≤ theirs.view.shares) × (behind.place + vec_len others ≤ 2 ^ 32) }
        ensures { (result.0.desk ≡ theirs.desk) × Goes theirs.view result.0.view × (result.0.view.shares ≡ theirs.view.shares) × IfOk result.1 (λ done. AreServed next_lane (LeavesLane (tells_lane L.told L.asked L.lost L.faults L.ended) H.may_halt (G.is_open gate.entry.now)) behind others.items theirs.view result.0.view done.items) }
    { serve_lanes(rt, alloc, desk, gate, theirs, others, behind) };
    let (first, second) = join(rt, front, back);
    let (mut pass, first) = first;
    let (theirs, second) = second;
    desk.join(&mut pass, theirs);
    (pass, both(first, second))
}

/// Makes the calls of one caller, or of none.
fn serve_last_caller<H: Serial, G: Gate, C: Caller + Drop, R: Wait>(
    rt: &R,
    alloc: Global,
    desk: &Desk<H>,
    gate: &G,
    mut pass: Pass<H>,
    mut callers: Vec<C>,
    post: CallerPost,
) -> (Pass<H>, Result<Vec<CallsDone<C>>, AllocError>)
    requires desk { pass.desk ≡ desk.now }
    requires takes { (call : ℕ) (answer : Option (List ℕ)) → H.takes (TheCalled call answer) }
    requires few { vec_len callers ≤ 1 }
    requires places { post.place + vec_len callers ≤ 2 ^ 32 }
    requires share { post.share + vec_len callers ≤ post.of }
    ensures desk { result.0.desk ≡ pass.desk }
    ensures goes { Goes pass.view result.0.view }
    ensures shares { result.0.view.shares ≡ pass.view.shares }
    ensures served { IfOk result.1 (λ done. AreServed next_caller (DoesCaller (tells_caller C.told C.asked) H.may_halt (G.is_open gate.now) (pass.view.first + length pass.view.seen)) post callers.items pass.view result.0.view done.items) }
{
    let Ok(mut all) = Vec::with_capacity(alloc, 1) else {
        return (pass, Err(AllocError));
    };
    let Some(caller) = callers.pop() else {
        return (pass, Ok(all));
    };
    let done = serve_calls(rt, alloc, desk, gate, &mut pass, post, caller);
    all.push_reserved(done);
    (pass, Ok(all))
}

/// Makes the calls of callers whose posts follow this one, by halves: one half in a thread of its own where one can be made. The pass
/// has the calls of all when it comes back, and as many shares. An error says that memory ran out; then the callers are gone.
#[cycle(callers)]
pub(crate) fn serve_callers<
    H: Serial + Send,
    G: Gate + Sync,
    C: Caller + Send + Drop,
    R: Threads + Wait + Sync,
>(
    rt: &R,
    alloc: Global,
    desk: &Desk<H>,
    gate: &G,
    mut pass: Pass<H>,
    mut callers: Vec<C>,
    post: CallerPost,
) -> (Pass<H>, Result<Vec<CallsDone<C>>, AllocError>)
    requires desk { pass.desk ≡ desk.now }
    requires takes { (call : ℕ) (answer : Option (List ℕ)) → H.takes (TheCalled call answer) }
    requires shares { vec_len callers ≤ pass.view.shares }
    requires places { post.place + vec_len callers ≤ 2 ^ 32 }
    requires share { post.share + vec_len callers ≤ post.of }
    ensures desk { result.0.desk ≡ pass.desk }
    ensures goes { Goes pass.view result.0.view }
    ensures shares { result.0.view.shares ≡ pass.view.shares }
    ensures served { IfOk result.1 (λ done. AreServed next_caller (DoesCaller (tells_caller C.told C.asked) H.may_halt (G.is_open gate.now) (pass.view.first + length pass.view.seen)) post callers.items pass.view result.0.view done.items) }
{
    if callers.len() <= 1 {
        return serve_last_caller(rt, alloc, desk, gate, pass, callers, post);
    }
    let Ok((theirs, others)) = halve(desk, &mut pass, &mut callers) else {
        return (pass, Err(AllocError));
    };
    let count = callers.len() as u64;
    let behind = CallerPost {
        place: post.place + count,
        turns: post.turns,
        share: post.share + count,
        of: post.of,
    };
    let front = || -> (Pass<H>, Result<Vec<CallsDone<C>>, AllocError>)
        requires { IsSync R.row × IsSync G.row × (pass.desk ≡ desk.now) × ((call : ℕ) (answer : Option (List ℕ)) → H.takes (TheCalled call answer)) × (vec_len callers ≤ pass.view.shares) × (post.place + vec_len callers ≤ 2 ^ 32) × (post.share + vec_len callers ≤ post.of) }
        ensures { (result.0.desk ≡ pass.desk) × Goes pass.view result.0.view × (result.0.view.shares ≡ pass.view.shares) × IfOk result.1 (λ done. AreServed next_caller (DoesCaller (tells_caller C.told C.asked) H.may_halt (G.is_open gate.entry.now) (pass.view.first + length pass.view.seen)) post callers.items pass.view result.0.view done.items) }
    { serve_callers(rt, alloc, desk, gate, pass, callers, post) };
    let back = || -> (Pass<H>, Result<Vec<CallsDone<C>>, AllocError>)
        requires { IsSync R.row × IsSync G.row × (theirs.desk ≡ desk.now) × ((call : ℕ) (answer : Option (List ℕ)) → H.takes (TheCalled call answer)) × (vec_len others ≤ theirs.view.shares) × (behind.place + vec_len others ≤ 2 ^ 32) × (behind.share + vec_len others ≤ behind.of) }
        ensures { (result.0.desk ≡ theirs.desk) × Goes theirs.view result.0.view × (result.0.view.shares ≡ theirs.view.shares) × IfOk result.1 (λ done. AreServed next_caller (DoesCaller (tells_caller C.told C.asked) H.may_halt (G.is_open gate.entry.now) (theirs.view.first + length theirs.view.seen)) behind others.items theirs.view result.0.view done.items) }
    { serve_callers(rt, alloc, desk, gate, theirs, others, behind) };
    let (first, second) = join(rt, front, back);
    let (mut pass, first) = first;
    let (theirs, second) = second;
    desk.join(&mut pass, theirs);
    (pass, both(first, second))
}
