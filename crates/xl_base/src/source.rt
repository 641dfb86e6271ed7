//! Where a program's input comes from.
ghost use Rattle.std.specs.Prelude.{◌≡◌, ℕ, ◌+◌, ◌<◌, ◌≤◌, List, length, take, Option, Some, IsTrue, ◌↔◌};
ghost use Rattle.xl_base.specs.Memory.{is_failing, after_read};
ghost use Rattle.xl_base.specs.Outside.{Reads, ReadCounts};

use std::marker::Model;

/// What one read gave.
#[derive(Clone, Copy)]
pub enum ReadOutcome {
    /// So many bytes, at least one, now stand at the front of the buffer.
    Got(usize),
    /// Nothing is left.
    End,
    /// The read failed and took nothing.
    Failed,
}

/// Bytes that come in. What is left is told, or not; then no contract says what a read gives.
pub trait Source {
    /// The bytes that are left, if the source tells them.
    ghost left: { Self → Option (List ℕ) };

    /// How many reads have failed; it stops at its last value.
    ghost faults: { Self → ℕ };

    /// The count of failed reads; it never falls.
    fn faults(&self) -> u64
        ensures { result ≡ faults self.now };

    /// Reads into the front of the buffer. End comes only if nothing is left. The count rises if the answer is
    /// Failed, and only then.
    fn read(&mut self, buffer: &mut [u8]) -> ReadOutcome
        requires { 0 < length buffer.old }
        ensures bytes { Reads result buffer.new (left self.old) (left self.new) }
        ensures later { faults self.old ≤ faults self.new }
        ensures counts { ReadCounts result (faults self.old) (faults self.new) };
}

/// A source in memory, whose reads numbered in its list fail; the first read has number 1.
#[derive(Drop)]
pub struct MemorySource {
    bytes: Vec<u8>,
    at: usize,
    failing: Vec<u64>,
    calls: u64,
    faults: u64,
}

impl Model for MemorySource {
    ghost use Rattle.std.specs.Prelude.{◌≤◌, length, drop};
    ghost use Rattle.xl_base.specs.Memory.{MemoryInput};

    ghost Value = { MemoryInput };

    ghost view = { λ s. record { left = drop s.at s.bytes.items; failing = s.failing.items; calls = s.calls; faults = s.faults } };

    ghost invariant = { λ s. s.at ≤ length s.bytes.items };
}

impl MemorySource {
    /// A source of these bytes, of which these reads fail. It takes no memory.
    pub fn new(bytes: Vec<u8>, failing: Vec<u64>) -> MemorySource
        ensures { result ≡ record { left = bytes.items; failing = failing.items; calls = 0; faults = 0 } }
    {
        MemorySource {
            bytes,
            at: 0,
            failing,
            calls: 0,
            faults: 0,
        }
    }
}

impl Source for MemorySource {
    ghost left = { λ s. Some s.left };

    ghost faults = { λ s. s.faults };

    fn faults(&self) -> u64 {
        self.faults
    }

    #[tactic(auto, using(crate::proofs::MemoryLaws::taken_front))]
    fn read(&mut self, buffer: &mut [u8]) -> ReadOutcome
        requires { 0 < length buffer.old }
        ensures bytes { Reads result buffer.new (Some self.old.left) (Some self.new.left) }
        ensures later { self.old.faults ≤ self.new.faults }
        ensures counts { ReadCounts result self.old.faults self.new.faults }
        ensures after { self.new ≡ after_read result self.new.left self.old }
        // Just the reads of its list fail.
        ensures fails { (result ≡ ReadOutcome.Failed) ↔ IsTrue (is_failing self.old.failing self.new.calls) }
    {
        self.calls = self.calls.saturating_add(1);
        if is_failing(&self.failing, self.calls) {
            self.faults = self.faults.saturating_add(1);
            return ReadOutcome::Failed;
        }
        let (_, rest) = self.bytes.split_at(self.at);
        if rest.is_empty() {
            return ReadOutcome::End;
        }
        let count = copy_front(rest, buffer);
        self.at += count;
        ReadOutcome::Got(count)
    }
}

/// Whether the call of this number is one that fails.
pub(crate) fn is_failing(failing: &[u64], call: u64) -> bool
    ensures { result ≡ is_failing failing.now call }
{
    failing.iter().any(|number| *number == call)
}

/// Copies as many of the bytes to the buffer's front as it takes.
pub(crate) fn copy_front(bytes: &[u8], buffer: &mut [u8]) -> usize
    requires { (0 < length bytes.now) × (0 < length buffer.old) }
    ensures some { 0 < result }
    ensures within { (result ≤ length bytes.now) × (result ≤ length buffer.new) }
    ensures copied { take result buffer.new ≡ take result bytes.now }
{
    let count = bytes.len().min(buffer.len());
    buffer[..count].copy_from_slice(&bytes[..count]);
    count
}
