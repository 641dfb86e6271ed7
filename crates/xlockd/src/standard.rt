//! The standard streams as a source and a sink. They tell nothing of their bytes.
ghost use Rattle.std.specs.Prelude.{◌≡◌, None};

use std::io::{Read, Write};
use xl_base::{ReadOutcome, Sink, Source, WriteOutcome};

/// A reader as a source.
#[derive(Drop)]
pub struct StandardInput<R> {
    reader: R,
    faults: u64,
}

impl<R> StandardInput<R> {
    /// The source of a reader's bytes.
    pub fn new(reader: R) -> StandardInput<R>
        ensures { result.faults ≡ 0 }
    {
        StandardInput { reader, faults: 0 }
    }
}

impl<R: Read> Source for StandardInput<R> {
    ghost left = { λ _. None };

    ghost faults = { λ s. s.faults };

    fn faults(&self) -> u64 {
        self.faults
    }

    fn read(&mut self, buffer: &mut [u8]) -> ReadOutcome {
        match self.reader.read(buffer) {
            Ok(0) => ReadOutcome::End,
            Ok(count) => ReadOutcome::Got(count),
            Err(_) => {
                self.faults = self.faults.saturating_add(1);
                ReadOutcome::Failed
            }
        }
    }
}

/// A writer as a sink.
#[derive(Drop)]
pub struct StandardOutput<W> {
    writer: W,
    faults: u64,
}

impl<W> StandardOutput<W> {
    /// The sink of a writer.
    pub fn new(writer: W) -> StandardOutput<W>
        ensures { result.faults ≡ 0 }
    {
        StandardOutput { writer, faults: 0 }
    }
}

impl<W: Write> Sink for StandardOutput<W> {
    ghost held = { λ _. None };

    ghost faults = { λ s. s.faults };

    fn faults(&self) -> u64 {
        self.faults
    }

    fn write(&mut self, bytes: &[u8]) -> WriteOutcome {
        let written = self.writer.write_all(bytes).is_ok() && self.writer.flush().is_ok();
        if written {
            WriteOutcome::Wrote
        } else {
            self.faults = self.faults.saturating_add(1);
            WriteOutcome::Failed
        }
    }
}
