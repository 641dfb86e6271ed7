//! Callers over a desk.
ghost use Rattle.std.specs.Prelude.{◌≤◌};

use crate::desk::{make, tick};
use std::alloc::{AllocError, Global};
use std::sync::Wait;
use std::test::Fail;
use xl_base::{
    Asked, CallOutcome, Gate, Halt, Held, LaneEnd, MemoryCaller, MemoryGate, OpenGate, Sequence,
};
use xl_work::{CallerPost, CallsDone, serve_calls};

/// What one thing came to that a caller was asked: 1 an answer, 2 nobody's, 3 a failed call, 4 want of memory; an idle is 100 and
/// its place.
fn told_of(asked: &Asked) -> u64 {
    match asked {
        Asked::Call(_, _, CallOutcome::Answer(_)) => 1,
        Asked::Call(_, _, CallOutcome::Nobody) => 2,
        Asked::Call(_, _, CallOutcome::Failed) => 3,
        Asked::Call(_, _, CallOutcome::NoMemory) => 4,
        Asked::Idle(place) => place.saturating_add(100),
    }
}

/// Whether a caller was asked this, in this order.
pub(crate) fn is_told(caller: &MemoryCaller, wanted: &[u64]) -> bool {
    match caller.told() {
        Some(told) => told
            .iter()
            .map(|asked| told_of(asked))
            .eq(wanted.iter().copied()),
        None => false,
    }
}

/// How the calls ended: after so many turns, or 1,000 and so many entries of a full machine.
fn end_of(end: LaneEnd) -> u64 {
    match end {
        LaneEnd::Turns(turns) => turns,
        LaneEnd::Stopped(Halt::JournalFull(count), _) => count.saturating_add(1_000),
        _ => 9_999,
    }
}

/// The calls 3, 4, 5 and 7 are asked for; those that are odd are made in so many turns, by a machine that is full with so many
/// entries. Of them the first is answered, the second by nobody, and the third fails.
fn serve<R: Wait, G: Gate>(
    rt: &R,
    alloc: Global,
    gate: &G,
    most: usize,
    turns: u64,
) -> Result<CallsDone<MemoryCaller>, AllocError>
    requires { most ≤ 100 }
{
    let (desk, mut pass) = make(alloc, 0, most)?;
    tick(rt, alloc, &desk, &mut pass, &[3, 4, 5, 7]);
    let mut answers = Vec::with_capacity(alloc, 2)?;
    answers.push(Some(Sequence::from_slice(alloc, b"x")?))?;
    answers.push(None)?;
    let failing = Vec::from_slice(alloc, &[3u64])?;
    let caller = MemoryCaller::new(alloc, answers, failing);
    let post = CallerPost {
        place: 1,
        turns,
        share: 1,
        of: 2,
    };
    Ok(serve_calls(rt, alloc, &desk, gate, &mut pass, post, caller))
}

/// The calls of a share are made in order, each once, and then the caller is idle.
#[test]
fn calls_of_a_share_are_made(rt: HostRuntime) -> Result<(), Fail> {
    let done = serve(&rt, rt.alloc(), &OpenGate, 16, 5)?;
    assert_eq!(rt; end_of(done.end), 5);
    assert!(rt; is_told(&done.caller, &[1, 2, 3, 107, 107]));
    Ok(())
}

/// A turn that the gate holds back makes no call.
#[test]
fn a_gate_holds_calls_back(rt: HostRuntime) -> Result<(), Fail> {
    let alloc = rt.alloc();
    let held = Held {
        call: 4_294_967_296,
        turns: 2,
    };
    let gate = MemoryGate::new(Vec::from_slice(alloc, &[held])?);
    let done = serve(&rt, alloc, &gate, 16, 4)?;
    assert_eq!(rt; end_of(done.end), 4);
    assert!(rt; is_told(&done.caller, &[1, 2]));
    Ok(())
}

/// A machine that is full takes no call's end any more.
#[test]
fn a_full_machine_stops_a_caller(rt: HostRuntime) -> Result<(), Fail> {
    let done = serve(&rt, rt.alloc(), &OpenGate, 5, 9)?;
    assert_eq!(rt; end_of(done.end), 1_005);
    assert!(rt; is_told(&done.caller, &[1, 2]));
    Ok(())
}

/// A caller with no call due learns that the machine is halted before it idles.
#[test]
fn a_halt_stops_an_idle_caller(rt: HostRuntime) -> Result<(), Fail> {
    let done = serve(&rt, rt.alloc(), &OpenGate, 0, 1_000_000)?;
    assert_eq!(rt; end_of(done.end), 1_000);
    assert!(rt; is_told(&done.caller, &[]));
    Ok(())
}
