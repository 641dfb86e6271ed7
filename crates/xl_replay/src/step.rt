//! Steps of a capture, entered through one desk up to each start of the server.
ghost use Rattle.std.specs.Prelude.{◌≡◌, ◌≢◌, ◌<◌, ◌∷◌, ◌++◌, [], true, false, Some, None, List, Ok, Err, IfOk, IfErr};
ghost use Rattle.std.specs.Vec.Iter.{into_iter_items, into_iter_len};
ghost use Rattle.xl_base.specs.declared.event.Event.{Event as TheEvent};
ghost use Rattle.xl_house.specs.Housed.{is_spoiled};
ghost use Rattle.xl_house.specs.Journals.{is_restart};
ghost use Rattle.xl_house.specs.State.{start_of};
ghost use Rattle.xl_replay.specs.Enter.{HasEntered, HasPaused, HasRun, IsAlone, entered_as, halt_in};
ghost use Rattle.xl_base.specs.declared.event.Event.TheVariants.{Restart};
ghost use Rattle.xl_capture.specs.declared.step.Step.{Step as TheStep};
ghost use Rattle.xl_replay.specs.Replays.{AreMade, IsEnded, IsLeft, entries_left, events_in, events_of, head_left, origin_of, stores_of};

use crate::replayer::Replayer;
use std::alloc::Global;
use std::sync::Wait;
use std::vec::IntoIter;
use xl_base::{BudgetKeeper, Event, Halt};
use xl_capture::Step;
use xl_desk::{Desk, DeskErr, NoRoom, Pass, Receipt};
use xl_house::{Ended, House};
use xl_jobs::{Seated, close, seat};

/// A replay that made its steps, or that stopped.
#[derive(Drop)]
pub(crate) struct Replayed {
    /// The house; or what is left of one whose start failed, or found no memory.
    pub left: Result<House<BudgetKeeper>, Ended<BudgetKeeper>>,
    /// Why it stopped, if it did.
    pub ended: Result<(), Halt>,
}

/// Why a call of the desk entered nothing.
fn halt_in(refused: DeskErr) -> Halt
    ensures { result ≡ halt_in refused }
{
    match refused {
        DeskErr::Halted(reason, _) => reason,
        DeskErr::Stopped(reason, _) => reason,
    }
}

/// What a call of the desk came to.
fn entered_as(called: Result<Receipt, DeskErr>) -> Result<(), Halt>
    ensures { result ≡ entered_as called }
{
    match called {
        Ok(_) => Ok(()),
        Err(refused) => Err(halt_in(refused)),
    }
}

/// A replay whose house is there still.
fn stopped(replayer: Replayer, ended: Result<(), Halt>) -> Replayed
    ensures { result ≡ record { left = Ok replayer.house; ended = ended } }
{
    Replayed {
        left: Ok(replayer.into_house()),
        ended,
    }
}

/// Whether an event starts the server again.
fn is_restart(event: &Event) -> bool
    ensures { result ≡ is_restart event.now }
{
    matches!(event, Event::Restart)
}

/// Enters one event, by the only pass of a desk.
fn call_one<R: Wait>(
    rt: &R,
    alloc: Global,
    desk: &Desk<Seated<Replayer>>,
    pass: &mut Pass<Seated<Replayer>>,
    event: Event,
) -> Result<(), Halt>
    requires desk { pass.old.desk ≡ desk.now }
    requires alone { IsAlone pass.old.view }
    requires steps { is_restart event ≡ false }
    ensures desk { pass.new.desk ≡ pass.old.desk }
    ensures alone { IsAlone pass.new.view }
    ensures origin { pass.new.view.origin ≡ pass.old.view.origin }
    ensures entered { HasEntered pass.old.view pass.new.view event result }
{
    let called = desk.call(rt, alloc, pass, event);
    desk.see(pass);
    entered_as(called)
}

/// Enters steps in order, by the only pass of a desk, up to the next restart, and tells whether one came.
#[tactic(auto, using(crate::proofs::EnterLaws::one_more, crate::proofs::EnterLaws::all_entered))]
fn call_run<R: Wait>(
    rt: &R,
    alloc: Global,
    desk: &Desk<Seated<Replayer>>,
    pass: &mut Pass<Seated<Replayer>>,
    steps: &mut IntoIter<Step, Global>,
) -> Result<bool, Halt>
    requires desk { pass.old.desk ≡ desk.now }
    requires alone { IsAlone pass.old.view }
    ensures desk { pass.new.desk ≡ pass.old.desk }
    ensures alone { IsAlone pass.new.view }
    ensures origin { pass.new.view.origin ≡ pass.old.view.origin }
    ensures fewer { result ≡ Ok true → into_iter_len steps.new < into_iter_len steps.old }
    ensures paused { HasPaused pass.new.view.seen (events_of (into_iter_items steps.new)) (events_in pass.old.view.seen ++ events_of (into_iter_items steps.old)) result }
{
    'steps: while let Some(Step { event, stores: _ }) = steps.next() {
        if is_restart(&event) {
            return Ok(true);
        }
        if let Err(halt) = call_one(rt, alloc, desk, pass, event) {
            return Err(halt);
        }
    }
    Ok(false)
}

/// How the steps of a house ended whose calls ended so.
fn ended_in(replayer: &Replayer, called: Result<bool, Halt>) -> Result<bool, Halt>
    ensures same { result ≢ Err Halt.NoMemory → (called ≡ result) × (is_spoiled replayer.now.house.halt ≡ false) }
{
    if replayer.is_spoiled() {
        return Err(Halt::NoMemory);
    }
    called
}

/// Enters steps in order, through one desk, up to the next restart, and tells whether one came.
#[inline(never)]
fn step_run<R: Wait>(
    rt: &R,
    alloc: Global,
    replayer: Replayer,
    steps: &mut IntoIter<Step, Global>,
) -> (Replayer, Result<bool, Halt>)
    requires goes { replayer.house.halt ≡ None }
    requires made { AreMade (start_of replayer.house.head) replayer.house.entries replayer.allowed }
    ensures made { AreMade (start_of result.0.house.head) result.0.house.entries result.0.allowed }
    ensures origin { origin_of result.0 ≡ origin_of replayer }
    ensures fewer { result.1 ≡ Ok true → into_iter_len steps.new < into_iter_len steps.old }
    ensures run { HasRun result.0.house.entries (events_of (into_iter_items steps.new)) (events_in replayer.house.entries ++ events_of (into_iter_items steps.old)) result.1 }
    ensures whole { result.1 ≢ Err Halt.NoMemory → is_spoiled result.0.house.halt ≡ false }
{
    let (desk, mut pass) = match seat(alloc, replayer) {
        Ok(made) => made,
        Err(NoRoom { machine }) => return (machine, Err(Halt::NoMemory)),
    };
    let called = call_run(rt, alloc, &desk, &mut pass, steps);
    let replayer = close(desk, pass);
    let ended = ended_in(&replayer, called);
    (replayer, ended)
}

/// Starts the server again.
#[inline(never)]
fn start_again(alloc: Global, replayer: Replayer) -> Result<Replayer, Replayed>
    ensures goes { IfOk result (λ r. r.house.halt ≡ None) }
    ensures made { IfOk result (λ r. AreMade (start_of r.house.head) r.house.entries r.allowed) }
    ensures origin { IfOk result (λ r. origin_of r ≡ origin_of replayer) }
    ensures entered { IfOk result (λ r. events_in r.house.entries ≡ events_in replayer.house.entries ++ Restart ∷ []) }
    ensures head { IfErr result (λ r. head_left r.left ≡ replayer.house.head) }
    ensures ended { (steps : List TheStep) (rest : List TheEvent) → replayer.allowed ≡ stores_of steps → events_in replayer.house.entries ++ Restart ∷ rest ≡ events_of steps → IfErr result (λ r. IsEnded (start_of replayer.house.head) steps (entries_left r.left) r.ended) }
    ensures left { IfErr result (λ r. IsLeft r.left r.ended) }
{
    if let Some(halt) = replayer.barred() {
        return Err(Replayed {
            left: Ok(replayer.into_house()),
            ended: Err(halt),
        });
    }
    match replayer.restart(alloc) {
        Ok(again) => Ok(again),
        Err(ended) => {
            let halt = ended.halt;
            Err(Replayed {
                left: Err(ended),
                ended: Err(halt),
            })
        }
    }
}

/// Makes the steps in order: those up to each restart through a desk of their own, and the server's start behind it.
// Its calls aren't inlined: with the parts of two machines side by side in its loop, LLVM takes over 14 minutes over it.
pub(crate) fn step_all<R: Wait>(
    rt: &R,
    alloc: Global,
    replayer: Replayer,
    steps: Vec<Step>,
) -> Replayed
    requires goes { replayer.house.halt ≡ None }
    requires begun { replayer.house.entries ≡ [] }
    requires allowed { replayer.allowed ≡ stores_of steps.items }
    ensures head { head_left result.left ≡ replayer.house.head }
    ensures ended { IsEnded (start_of replayer.house.head) steps.items (entries_left result.left) result.ended }
    ensures left { IsLeft result.left result.ended }
{
    let mut replayer = replayer;
    let mut steps = steps.into_iter();
    'starts: loop {
        let (paused, run) = step_run(rt, alloc, replayer, &mut steps);
        match run {
            Ok(true) => {}
            Ok(false) => return stopped(paused, Ok(())),
            Err(halt) => return stopped(paused, Err(halt)),
        }
        match start_again(alloc, paused) {
            Ok(again) => replayer = again,
            Err(replayed) => return replayed,
        }
    }
}
