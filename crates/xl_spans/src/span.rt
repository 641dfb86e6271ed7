//! A locked byte range and its mode.
ghost use Rattle.std.specs.Prelude.{◌≡◌, ◌+◌, ◌-◌};
ghost use Rattle.xl_spans.specs.Spans.{same_mode, joins, excludes, part_before, part_past};

/// How a range is locked.
#[derive(Clone, Copy)]
pub enum Mode {
    /// Shared with other owners who lock it so (NFSv4 READ_LT).
    Shared,
    /// For one owner alone (NFSv4 WRITE_LT).
    Exclusive,
}

/// A range of bytes in one mode, with both ends in it. Its numbers are below 2^64.
#[derive(Clone, Copy)]
pub struct Span {
    /// The first byte.
    pub first: u64,
    /// The last byte.
    pub last: u64,
    /// The mode of each of its bytes.
    pub mode: Mode,
}

fn same_mode(a: Mode, b: Mode) -> bool
    ensures { result ≡ same_mode a b }
{
    match (a, b) {
        (Mode::Shared, Mode::Shared) | (Mode::Exclusive, Mode::Exclusive) => true,
        _ => false,
    }
}

/// Whether two owners cannot both have one byte in these modes.
pub(crate) fn excludes(a: Mode, b: Mode) -> bool
    ensures { result ≡ excludes a b }
{
    match (a, b) {
        (Mode::Shared, Mode::Shared) => false,
        _ => true,
    }
}

/// Whether `b` begins at the byte past `a` and has its mode.
pub(crate) fn joins(a: &Span, b: &Span) -> bool
    ensures { result ≡ joins a.now b.now }
{
    a.last < b.first && b.first - a.last == 1 && same_mode(a.mode, b.mode)
}

/// What is left of the span below byte `first`.
pub(crate) fn part_before(span: &Span, first: u64) -> Option<Span>
    ensures { result ≡ part_before first span.now }
{
    if span.first >= first {
        return None;
    }
    Some(Span {
        first: span.first,
        last: span.last.min(first - 1),
        mode: span.mode,
    })
}

/// What is left of the span past byte `last`.
pub(crate) fn part_past(span: &Span, last: u64) -> Option<Span>
    ensures { result ≡ part_past last span.now }
{
    if span.last <= last {
        return None;
    }
    Some(Span {
        first: span.first.max(last + 1),
        last: span.last,
        mode: span.mode,
    })
}
