//! A text that says what is exported, and maybe the record before the start, and nothing else.
ghost use Rattle.std.specs.Prelude.{◌≡◌};
ghost use Rattle.xl_base.specs.Results.{GivesUnless};
ghost use Rattle.xl_capture.specs.Capture.{bad_line, lines_of};
ghost use Rattle.xl_capture.specs.Headers.{first_other, headed, is_header, lower};

use crate::capture::{Capture, CaptureError, looked_at, next_line, read_capture};
use std::alloc::Global;

/// Whether a line says what is exported or recorded, or is passed over.
fn is_header(line: &[u8]) -> bool
    ensures { result ≡ is_header line.now }
{
    match line {
        [] => true,
        [first, ..] => matches!(first, b'#' | b'F' | b'H' | b'K' | b'L' | b'N'),
    }
}

/// The number of the first line of a text that is no header line, counted from 1.
fn first_other(text: &[u8]) -> Option<u64>
    ensures { result ≡ first_other 0 (lines_of text.now) }
{
    let mut rest = text;
    let mut number = 0u64;
    'lines: while let Some((line, after)) = next_line(rest) {
        number += 1;
        if !is_header(line) {
            return Some(number);
        }
        rest = after;
    }
    None
}

/// The lower number.
fn lower(number: u64, line: u64) -> u64
    ensures { result ≡ lower number line }
{
    if number < line { number } else { line }
}

/// Reads the header lines of a capture: what is exported, where callers are called, the times, and the record before the
/// start. An event line is bad here.
#[tactic(auto, unfolding(crate::specs::Headers::headed))]
pub fn read_header(alloc: Global, text: &[u8]) -> Result<Capture, CaptureError>
    ensures { GivesUnless bad_line (λ c. c) result (headed text.now) }
{
    let Some(number) = first_other(looked_at(text)) else {
        return read_capture(alloc, text);
    };
    match read_capture(alloc, text) {
        Ok(_) => Err(CaptureError::BadLine(number)),
        Err(CaptureError::BadLine(line)) => Err(CaptureError::BadLine(lower(number, line))),
        Err(CaptureError::NoMemory) => Err(CaptureError::NoMemory),
    }
}
