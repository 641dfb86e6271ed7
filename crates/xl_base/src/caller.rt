//! Who makes the machine's calls to its clients' callback addresses.
ghost use Rattle.std.specs.Prelude.{◌≡◌, ℕ, ◌≤◌, List, [], ◌∷◌, drop, Option, Some, option_map, IfOk, IsTrue, false};
ghost use Rattle.xl_base.specs.Memory.{counted, is_failing};
ghost use Rattle.xl_base.specs.Telling.{Follows, RoseIf};
ghost use Rattle.xl_base.specs.Asking.{Calls, Idles, call_failed, IsAnswer, left_by};
ghost use Rattle.xl_base.specs.declared.caller.Asked.{Asked as TheAsked};
ghost use Rattle.xl_base.specs.declared.caller.Asked.TheVariants.{Call as TheCall};
ghost use Rattle.xl_base.specs.declared.caller.CallOutcome.TheVariants.{Failed as TheFailed};

use crate::sequence::Sequence;
use crate::source::is_failing;
use crate::telling::told_with;
use std::alloc::{AllocError, Global};
use std::marker::Model;

/// What became of one call.
#[derive(Drop)]
pub enum CallOutcome {
    /// The client answered with this record, without its frame.
    Answer(Sequence<u8>),
    /// Nobody answered.
    Nobody,
    /// The call failed.
    Failed,
    /// Memory ran out.
    NoMemory,
}

/// What a caller tells of one thing that it was asked.
#[derive(Drop)]
pub enum Asked {
    /// A call to this address, of this record, and what became of it.
    Call(Sequence<u8>, Sequence<u8>, CallOutcome),
    /// To be idle once; the number is the place up to which all calls are made.
    Idle(u64),
}

/// Who makes the machine's calls. What it was asked is told, or not; then no contract says what was called.
pub trait Caller {
    /// What the caller was asked, in order, if it tells it.
    ghost told: { Self → Option (List TheAsked) };

    /// How many calls have failed; it stops at its last value.
    ghost faults: { Self → ℕ };

    /// How often it was asked for a call or to be idle; it stops at its last value.
    ghost asked: { Self → ℕ };

    /// The count of failed calls; it never falls.
    fn faults(&self) -> u64
        ensures { result ≡ faults self.now };

    /// The count of calls and idles.
    fn asked(&self) -> u64
        ensures { result ≡ asked self.now };

    /// Calls this address with this record, and waits for the answer a while at most. The count of faults rises if
    /// the answer is Failed, and only then.
    fn call(&mut self, alloc: Global, to: &[u8], bytes: &[u8]) -> CallOutcome
        ensures told { Follows (told self.old) (told self.new) (Calls to.now bytes.now result) }
        ensures later { faults self.old ≤ faults self.new }
        ensures counts { RoseIf (call_failed result) (faults self.old) (faults self.new) }
        ensures asked { asked self.new ≡ counted (asked self.old) };

    /// Does nothing a while: no call is due among the entries before this place.
    fn idle(&mut self, seen: u64)
        ensures told { Follows (told self.old) (told self.new) (Idles seen) }
        ensures faults { faults self.new ≡ faults self.old }
        ensures asked { asked self.new ≡ counted (asked self.old) };
}

/// A caller in memory, whose clients answer in order with what its list has: a record, or nothing. Behind the list
/// nobody answers. The calls numbered in the other list fail; the first has number 1, and one that fails takes no answer.
/// It tells what it was asked until memory runs out.
#[derive(Drop)]
pub struct MemoryCaller {
    answers: Vec<Option<Sequence<u8>>>,
    at: usize,
    told: Option<Vec<Asked>>,
    failing: Vec<u64>,
    calls: u64,
    faults: u64,
    asked: u64,
}

impl Model for MemoryCaller {
    ghost use Rattle.std.specs.Prelude.{◌≤◌, length, drop, option_map};
    ghost use Rattle.xl_base.specs.Asking.{MemoryCalls};

    ghost Value = { MemoryCalls };

    ghost view = { λ c. record { answers = drop c.at c.answers.items; told = option_map (λ v. v.items) c.told; failing = c.failing.items; calls = c.calls; faults = c.faults; asked = c.asked } };

    ghost invariant = { λ c. c.at ≤ length c.answers.items };
}

impl MemoryCaller {
    /// A caller whose clients answer so, and of which these calls fail. It takes no memory.
    pub fn new(alloc: Global, answers: Vec<Option<Sequence<u8>>>, failing: Vec<u64>) -> MemoryCaller
        ensures { result ≡ record { answers = answers.items; told = Some []; failing = failing.items; calls = 0; faults = 0; asked = 0 } }
    {
        MemoryCaller {
            answers,
            at: 0,
            told: Some(Vec::new(alloc)),
            failing,
            calls: 0,
            faults: 0,
            asked: 0,
        }
    }

    /// What it was asked, in order, or None if memory ran out.
    pub fn told(&self) -> Option<&[Asked]>
        ensures { option_map (λ t. t.now) result ≡ self.now.told }
    {
        match &self.told {
            Some(told) => Some(told.as_slice()),
            None => None,
        }
    }

    /// The next answer.
    fn answer(&mut self, alloc: Global) -> CallOutcome
        ensures answer { IsAnswer result self.old.answers }
        ensures rest { self.new ≡ record self.old { answers = drop 1 self.old.answers } }
    {
        let Some(answer) = self.answers.get(self.at) else {
            return CallOutcome::Nobody;
        };
        self.at += 1;
        answered(alloc, answer)
    }
}

/// The outcome of a call that is answered so.
fn answered(alloc: Global, answer: &Option<Sequence<u8>>) -> CallOutcome
    ensures { IsAnswer result (answer.now ∷ []) }
{
    let Some(bytes) = answer else {
        return CallOutcome::Nobody;
    };
    match Sequence::from_slice(alloc, bytes.as_slice()) {
        Ok(bytes) => CallOutcome::Answer(bytes),
        Err(_) => CallOutcome::NoMemory,
    }
}

/// What is told of a call.
fn note(alloc: Global, to: &[u8], bytes: &[u8], outcome: &CallOutcome) -> Result<Asked, AllocError>
    ensures { IfOk result (λ asked. asked ≡ TheCall to.now bytes.now outcome.now) }
{
    let to = Sequence::from_slice(alloc, to)?;
    let bytes = Sequence::from_slice(alloc, bytes)?;
    Ok(Asked::Call(to, bytes, outcome.copy(alloc)?))
}

impl CallOutcome {
    /// The same outcome once more.
    fn copy(&self, alloc: Global) -> Result<CallOutcome, AllocError>
        ensures { IfOk result (λ o. o ≡ self.now) }
    {
        match self {
            CallOutcome::Answer(bytes) => Ok(CallOutcome::Answer(Sequence::from_slice(
                alloc,
                bytes.as_slice(),
            )?)),
            CallOutcome::Nobody => Ok(CallOutcome::Nobody),
            CallOutcome::Failed => Ok(CallOutcome::Failed),
            CallOutcome::NoMemory => Ok(CallOutcome::NoMemory),
        }
    }
}

impl Caller for MemoryCaller {
    ghost told = { λ c. c.told };

    ghost faults = { λ c. c.faults };

    ghost asked = { λ c. c.asked };

    fn faults(&self) -> u64 {
        self.faults
    }

    fn asked(&self) -> u64 {
        self.asked
    }

    fn call(&mut self, alloc: Global, to: &[u8], bytes: &[u8]) -> CallOutcome
        ensures told { Follows self.old.told self.new.told (Calls to.now bytes.now result) }
        ensures later { self.old.faults ≤ self.new.faults }
        ensures counts { RoseIf (call_failed result) self.old.faults self.new.faults }
        ensures asked { self.new.asked ≡ counted self.old.asked }
        // The calls of its list fail, and another is answered as its other list has it, from which that answer is taken.
        ensures calls { (self.new.calls ≡ counted self.old.calls) × (self.new.failing ≡ self.old.failing) }
        ensures fails { IsTrue (is_failing self.old.failing self.new.calls) → result ≡ TheFailed }
        ensures answers { is_failing self.old.failing self.new.calls ≡ false → IsAnswer result self.old.answers }
        ensures rest { self.new.answers ≡ left_by (is_failing self.old.failing self.new.calls) self.old.answers }
    {
        self.asked = self.asked.saturating_add(1);
        self.calls = self.calls.saturating_add(1);
        let outcome = if is_failing(&self.failing, self.calls) {
            self.faults = self.faults.saturating_add(1);
            CallOutcome::Failed
        } else {
            self.answer(alloc)
        };
        self.told = match note(alloc, to, bytes, &outcome) {
            Ok(asked) => told_with(self.told.take(), asked),
            Err(_) => None,
        };
        outcome
    }

    fn idle(&mut self, seen: u64)
        ensures told { Follows self.old.told self.new.told (Idles seen) }
        ensures faults { self.new.faults ≡ self.old.faults }
        ensures asked { self.new.asked ≡ counted self.old.asked }
        ensures rest { (self.new.answers ≡ self.old.answers) × (self.new.calls ≡ self.old.calls) × (self.new.failing ≡ self.old.failing) }
    {
        self.asked = self.asked.saturating_add(1);
        self.told = told_with(self.told.take(), Asked::Idle(seen));
    }
}
