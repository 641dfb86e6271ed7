//! The ranges that one owner has locked in one file.

ghost use Rattle.std.specs.Prelude.{◌≡◌, ◌<◌};

use std::alloc::{AllocError, Global};
use std::marker::Brand;
use std::sync::ledger::{Blank, Ledger};
use xl_spans::{Mode, Span, Spans, plain};
use xl_steps::Steps;

fn is_shared(mode: Mode) -> bool {
    matches!(mode, Mode::Shared)
}

fn same_span(a: &Span, b: &Span) -> bool {
    a.first == b.first && a.last == b.last && is_shared(a.mode) == is_shared(b.mode)
}

fn same_spans(a: &[Span], b: &[Span]) -> bool {
    for (a, b) in a.iter().zip(b) {
        if !same_span(a, b) {
            return false;
        }
    }
    a.len() == b.len()
}

/// What is shown if no span is found; it has no byte.
const NO_SPAN: Span = Span {
    first: 1,
    last: 0,
    mode: Mode::Shared,
};

fn same_found(a: Option<Span>, b: Option<Span>) -> bool {
    same_span(&a.unwrap_or(NO_SPAN), &b.unwrap_or(NO_SPAN))
}

fn same_mode(a: Option<Mode>, b: Option<Mode>) -> bool {
    match a {
        None => b.is_none(),
        Some(a) => matches!(b, Some(b) if is_shared(a) == is_shared(b)),
    }
}

/// Locks the range in the mode, or unlocks it at None.
fn relock(spans: &mut Spans, first: u64, last: u64, mode: Option<Mode>) -> Result<(), AllocError> {
    spans.reserve(2)?;
    if first <= last {
        match mode {
            Some(mode) => spans.lock(first, last, mode),
            None => spans.unlock(first, last),
        }
    }
    Ok(())
}

const FOUR: [Span; 4] = [
    Span {
        first: 0,
        last: 39,
        mode: Mode::Exclusive,
    },
    Span {
        first: 40,
        last: 49,
        mode: Mode::Shared,
    },
    Span {
        first: 51,
        last: 59,
        mode: Mode::Shared,
    },
    Span {
        first: 60,
        last: 99,
        mode: Mode::Exclusive,
    },
];

const WHOLE: [Span; 1] = [Span {
    first: 7,
    last: u64::MAX,
    mode: Mode::Shared,
}];

fn make_four(spans: &mut Spans) -> bool {
    relock(spans, 0, 99, Some(Mode::Exclusive)).is_ok()
        && relock(spans, 40, 59, Some(Mode::Shared)).is_ok()
        && relock(spans, 50, 50, None).is_ok()
        && same_spans(spans.spans(), &FOUR)
}

fn reach_the_last_byte(spans: &mut Spans) -> bool {
    relock(spans, u64::MAX, u64::MAX, Some(Mode::Shared)).is_ok()
        && relock(spans, 7, u64::MAX - 1, Some(Mode::Shared)).is_ok()
}

/// Byte 50 is free, between two spans of one mode.
fn are_found(spans: &Spans) -> bool {
    mode_by_looks(spans, 50).is_none()
        && same_mode(mode_by_looks(spans, 49), Some(Mode::Shared))
        && same_mode(mode_by_looks(spans, 99), Some(Mode::Exclusive))
        && mode_by_looks(spans, 100).is_none()
}

fn are_four(spans: &mut Spans) -> bool {
    make_four(spans) && are_found(spans)
}

/// Whether room for so many spans more is made, and kept.
fn makes_room(spans: &mut Spans, more: usize) -> bool {
    spans.spare() < more && spans.reserve(more).is_ok() && more <= spans.spare()
}

/// Whether these are the bytes from 7 on.
fn is_whole(spans: Spans) -> bool {
    same_spans(&spans.into_vec(), &WHOLE)
}

fn reaches_the_last_byte(alloc: Global) -> bool {
    let mut spans = Spans::from_vec(Vec::new(alloc));
    spans.spare() == 0
        && reach_the_last_byte(&mut spans)
        && makes_room(&mut spans, 100)
        && is_whole(spans)
}

#[test]
fn locks_make_runs(rt: HostRuntime) {
    assert!(rt; are_four(&mut Spans::new(rt.alloc())));
    assert!(rt; reaches_the_last_byte(rt.alloc()));
}

/// Byte k of eight: the first four are those from 0 on, the others those up to 2^64 - 1.
fn byte(k: u64) -> u64 {
    if k % 8 < 4 {
        k % 8
    } else {
        u64::MAX - (7 - k % 8)
    }
}

fn same_conflict(spans: &Spans, held: &[Span], first: u64, last: u64, mode: Mode) -> bool {
    first > last
        || same_found(
            spans.first_conflict(first, last, mode),
            plain::first_conflict(held, first, last, mode),
        )
}

/// The mode of a byte by the search whose looks are counted.
fn counted_mode<L: Ledger>(spans: &Spans, byte: u64, blank: Blank) -> Option<Mode>
    requires name { blank.name ≡ L.name }
    requires parts { blank.parts ≡ L.parts }
    requires some { 0 < blank.parts }
{
    let mut steps = Steps::<L>::new(blank);
    spans.at_in(byte, &mut steps)
}

fn mode_by_looks(spans: &Spans, byte: u64) -> Option<Mode> {
    counted_mode::<Brand>(spans, byte, Blank::new(1))
}

fn same_conflicts(spans: &Spans, held: &[Span], first: u64, last: u64) -> bool {
    same_conflict(spans, held, first, last, Mode::Shared)
        && same_conflict(spans, held, first, last, Mode::Exclusive)
}

/// Whether both tell the same of a byte, and of the range that it begins.
fn same_at(spans: &Spans, held: &[Span], byte: u64, last: u64) -> bool {
    let mode = plain::mode_at(held, byte);
    same_mode(spans.at(byte), mode)
        && same_mode(mode_by_looks(spans, byte), mode)
        && same_conflicts(spans, held, byte, last)
}

fn same_answers(spans: &Spans, held: &[Span], last: u64) -> bool {
    for k in 0..8 {
        if !same_at(spans, held, byte(k), last) {
            return false;
        }
    }
    same_spans(spans.spans(), held)
}

/// What a drawn number asks for: a first byte, a last one no less, and a mode, or None for an unlock.
fn asked(number: u64) -> (u64, u64, Option<Mode>) {
    let (one, other) = (byte(number), byte(number / 8));
    let mode = match number / 64 % 4 {
        0 => None,
        1 => Some(Mode::Shared),
        _ => Some(Mode::Exclusive),
    };
    (one.min(other), one.max(other), mode)
}

/// Asks both bodies for what a drawn number asks for, and tells whether they agree then.
fn agree(alloc: Global, spans: &mut Spans, held: &mut Vec<Span>, number: u64) -> bool {
    let (first, last, mode) = asked(number);
    if relock(spans, first, last, mode).is_err() {
        return false;
    }
    match plain::relocked(alloc, held, first, last, mode) {
        Ok(next) => *held = next,
        Err(_) => return false,
    }
    same_answers(spans, held, last)
}

/// 400 locks and unlocks of ranges among eight bytes, each by the fast body and by the plain program.
fn all_agree(alloc: Global, spans: &mut Spans, held: &mut Vec<Span>) -> bool {
    let mut draw: u64 = 1;
    for _ in 0..400 {
        draw = draw.wrapping_mul(1103515245).wrapping_add(12345) % 2147483648;
        if !agree(alloc, spans, held, draw / 65536) {
            return false;
        }
    }
    true
}

#[test]
fn bodies_agree_with_plain_programs(rt: HostRuntime) {
    assert!(rt;
        all_agree(
            rt.alloc(),
            &mut Spans::new(rt.alloc()),
            &mut Vec::new(rt.alloc())
        )
    );
}
