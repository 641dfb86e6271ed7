//! Where a program's output goes.
ghost use Rattle.std.specs.Prelude.{◌≡◌, ℕ, ◌+◌, ◌≤◌, List, [], Option, Some, IsTrue};
ghost use Rattle.xl_base.specs.Memory.{is_failing, after_write};
ghost use Rattle.xl_base.specs.Outside.{Writes, WriteCounts};

use crate::source::is_failing;
use std::alloc::Global;
use std::marker::Model;

/// What became of one write.
#[derive(Clone, Copy)]
pub enum WriteOutcome {
    /// All the bytes were written.
    Wrote,
    /// The write failed after a beginning of the bytes, perhaps after none.
    Failed,
}

/// Where bytes go. What is written is told, or not.
pub trait Sink {
    /// The bytes written so far, if the sink tells them.
    ghost held: { Self → Option (List ℕ) };

    /// How many writes have failed; it stops at its last value.
    ghost faults: { Self → ℕ };

    /// The count of failed writes; it never falls.
    fn faults(&self) -> u64
        ensures { result ≡ faults self.now };

    /// Writes the bytes behind those before them. The count rises if the answer is Failed, and only then.
    fn write(&mut self, bytes: &[u8]) -> WriteOutcome
        ensures bytes { Writes result bytes.now (held self.old) (held self.new) }
        ensures later { faults self.old ≤ faults self.new }
        ensures counts { WriteCounts result (faults self.old) (faults self.new) };
}

/// A sink in memory, whose writes numbered in its list fail; the first write has number 1. A failed write writes
/// half of its bytes.
#[derive(Drop)]
pub struct MemorySink {
    bytes: Vec<u8>,
    failing: Vec<u64>,
    calls: u64,
    faults: u64,
}

impl Model for MemorySink {
    ghost use Rattle.xl_base.specs.Memory.{MemoryOutput};

    ghost Value = { MemoryOutput };

    ghost view = { λ s. record { held = s.bytes.items; failing = s.failing.items; calls = s.calls; faults = s.faults } };
}

impl MemorySink {
    /// A sink with nothing written, of which these writes fail. It takes no memory.
    pub fn new(alloc: Global, failing: Vec<u64>) -> MemorySink
        ensures { result ≡ record { held = []; failing = failing.items; calls = 0; faults = 0 } }
    {
        MemorySink {
            bytes: Vec::new(alloc),
            failing,
            calls: 0,
            faults: 0,
        }
    }

    /// The bytes written so far.
    pub fn bytes(&self) -> &[u8]
        ensures { result.now ≡ self.now.held }
    {
        &self.bytes
    }
}

impl Sink for MemorySink {
    ghost held = { λ s. Some s.held };

    ghost faults = { λ s. s.faults };

    fn faults(&self) -> u64 {
        self.faults
    }

    fn write(&mut self, bytes: &[u8]) -> WriteOutcome
        ensures bytes { Writes result bytes.now (Some self.old.held) (Some self.new.held) }
        ensures later { self.old.faults ≤ self.new.faults }
        ensures counts { WriteCounts result self.old.faults self.new.faults }
        ensures after { self.new ≡ after_write result self.new.held self.old }
        // The writes of its list fail; another does only if memory runs out.
        ensures fails { IsTrue (is_failing self.old.failing self.new.calls) → result ≡ WriteOutcome.Failed }
    {
        self.calls = self.calls.saturating_add(1);
        if is_failing(&self.failing, self.calls) {
            self.faults = self.faults.saturating_add(1);
            let _ = self.bytes.extend_from_slice(&bytes[..bytes.len() / 2]);
            return WriteOutcome::Failed;
        }
        if self.bytes.extend_from_slice(bytes).is_err() {
            self.faults = self.faults.saturating_add(1);
            return WriteOutcome::Failed;
        }
        WriteOutcome::Wrote
    }
}
