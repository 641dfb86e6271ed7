//! Locking and unlocking a range in an owner's spans.
ghost use Rattle.std.specs.Prelude.{◌≡◌, ℕ, ◌+◌, ◌-◌, ◌<◌, ◌≤◌, ◌^◌, false, length, take, drop, [], ◌∷◌, ◌++◌, List, None, Some, IfSome, IsSome, if◌then◌else◌, min, vec_len, vec_capacity};
ghost use Rattle.std.specs.List.{prefix_len};
ghost use Rattle.std.specs.Option.{option_to_list};
ghost use Rattle.xl_spans.specs.Spans.{IsCanonical, within, mode_at, EndsBelow, ends_before, begins_by, asked, joins, joined, joined_behind, left_part, right_part, listed, runs, relocked};

use crate::bisect::{beginning_by, ending_before, last_byte};
use crate::span::{Mode, Span, joins, part_before, part_past};

/// What is left of the first of the touched spans below byte `first`.
fn left_part(touched: &[Span], first: u64) -> Option<Span>
    ensures { result ≡ left_part first touched.now }
{
    let span = touched.first()?;
    part_before(span, first)
}

/// What is left of the last of the touched spans past byte `last`.
fn right_part(touched: &[Span], last: u64) -> Option<Span>
    ensures { result ≡ right_part last touched.now }
{
    let span = touched.last()?;
    part_past(span, last)
}

/// The span that a lock asks for; an unlock, which has no mode, asks for none.
fn asked_span(first: u64, last: u64, mode: Option<Mode>) -> Option<Span>
    ensures { option_to_list result ≡ asked first last mode }
{
    let mode = mode?;
    Some(Span { first, last, mode })
}

/// The span grown to the end of the one behind it, if the two are one run.
fn join_right(middle: Span, right: Option<Span>) -> (Span, Option<Span>)
    ensures { result.0 ∷ option_to_list result.1 ≡ joined middle (option_to_list right) }
{
    match right {
        Some(next) if joins(&middle, &next) => {
            let whole = Span {
                first: middle.first,
                last: next.last,
                mode: middle.mode,
            };
            (whole, None)
        }
        _ => (middle, right),
    }
}

/// The span grown to the beginning of the one before it, if the two are one run.
fn join_left(left: Option<Span>, middle: Span) -> (Option<Span>, Span)
    ensures { (rest : List Span) → option_to_list result.0 ++ result.1 ∷ rest ≡ joined_behind left (middle ∷ rest) }
{
    match left {
        Some(span) if joins(&span, &middle) => {
            let whole = Span {
                first: span.first,
                last: middle.last,
                mode: span.mode,
            };
            (None, whole)
        }
        _ => (left, middle),
    }
}

/// What stands in place of the touched spans, once what is one run was made one. No piece comes up that there was none of.
fn pieces(
    left: Option<Span>,
    asked: Option<Span>,
    right: Option<Span>,
) -> (Option<Span>, Option<Span>, Option<Span>)
    requires apart { IfSome left (λ a. IfSome right (λ b. joins a b ≡ false)) }
    ensures value { listed result.0 result.1 result.2 ≡ runs (listed left asked right) }
    ensures room { length (listed result.0 result.1 result.2) ≤ length (listed left asked right) }
{
    let Some(middle) = asked else {
        return (left, None, right);
    };
    let (middle, right) = join_right(middle, right);
    let (left, middle) = join_left(left, middle);
    (left, Some(middle), right)
}

/// Puts a span, if there is one, at the place.
fn put(items: &mut Vec<Span>, place: usize, span: Option<Span>)
    requires place { place ≤ vec_len items.old }
    requires room { vec_len items.old + length (option_to_list span) ≤ vec_capacity items.old }
    ensures items { items.new.items ≡ take place items.old.items ++ (option_to_list span ++ drop place items.old.items) }
    ensures len { vec_len items.new ≡ vec_len items.old + length (option_to_list span) }
    ensures capacity { vec_capacity items.new ≡ vec_capacity items.old }
{
    if let Some(span) = span {
        let _ = items.insert(place, span);
    }
}

/// Takes the spans from `start` to before `end` out.
fn remove(items: &mut Vec<Span>, start: usize, end: usize)
    requires order { start ≤ end }
    requires within { end ≤ vec_len items.old }
    ensures items { items.new.items ≡ take start items.old.items ++ drop end items.old.items }
    ensures len { vec_len items.new + (end - start) ≡ vec_len items.old }
    ensures capacity { vec_capacity items.new ≡ vec_capacity items.old }
{
    drop(items.drain(start..end));
}

/// Puts the pieces in place of the spans from `start` to before `end`.
fn replace(
    items: &mut Vec<Span>,
    start: usize,
    end: usize,
    left: Option<Span>,
    middle: Option<Span>,
    right: Option<Span>,
)
    requires order { start ≤ end }
    requires within { end ≤ vec_len items.old }
    requires room { vec_len items.old + length (listed left middle right) ≤ vec_capacity items.old + (end - start) }
    ensures items { items.new.items ≡ take start items.old.items ++ (listed left middle right ++ drop end items.old.items) }
    ensures len { vec_len items.new + (end - start) ≡ vec_len items.old + length (listed left middle right) }
    ensures capacity { vec_capacity items.new ≡ vec_capacity items.old }
{
    remove(items, start, end);
    put(items, start, right);
    put(items, start, middle);
    put(items, start, left);
}

/// Where the spans that the range touches begin and end in the list: those that have a byte in it, or right beside it.
fn touched_places(spans: &[Span], first: u64, last: u64) -> (usize, usize)
    requires ends { first ≤ last }
    requires canonical { IsCanonical spans.now }
    ensures start { result.0 ≡ prefix_len (ends_before (first - 1)) spans.now }
    ensures end { result.1 ≡ prefix_len (begins_by (min (last + 1) (2 ^ 64 - 1))) spans.now }
    ensures order { result.0 ≤ result.1 }
    ensures within { result.1 ≤ length spans.now }
    ensures below { EndsBelow (2 ^ 64) spans.now }
{
    let start = ending_before(spans, first.saturating_sub(1));
    let end = beginning_by(spans, last.saturating_add(1));
    // The read shows that no span reaches byte 2^64, so that none lies past a range that ends there.
    let _ = last_byte(spans);
    (start, end)
}

/// Cuts the range out of the spans, puts what is asked in its place, and makes one what is one run.
fn cut_and_join(items: &mut Vec<Span>, first: u64, last: u64, mode: Option<Mode>)
    requires ends { first ≤ last }
    requires canonical { IsCanonical items.old.items }
    requires room { vec_len items.old + 2 ≤ vec_capacity items.old }
    ensures spans { items.new.items ≡ relocked items.old.items first last mode }
    ensures grown { vec_len items.new ≤ vec_len items.old + 1 + length (asked first last mode) }
    ensures capacity { vec_capacity items.new ≡ vec_capacity items.old }
{
    let (start, end) = touched_places(items, first, last);
    let touched = &items[start..end];
    let left = left_part(touched, first);
    let right = right_part(touched, last);
    let asked = asked_span(first, last, mode);
    let (left, asked, right) = pieces(left, asked, right);
    replace(items, start, end, left, asked, right);
}

/// Gives the range the mode, or none, in place of the modes that it had.
pub(crate) fn relock(items: &mut Vec<Span>, first: u64, last: u64, mode: Option<Mode>)
    requires ends { first ≤ last }
    requires canonical { IsCanonical items.old.items }
    requires room { vec_len items.old + 2 ≤ vec_capacity items.old }
    ensures spans { items.new.items ≡ relocked items.old.items first last mode }
    ensures bytes { (x : ℕ) → mode_at items.new.items x ≡ (if within first last x then mode else mode_at items.old.items x) }
    ensures canonical { IsCanonical items.new.items }
    ensures grown { vec_len items.new ≤ vec_len items.old + 1 + length (asked first last mode) }
    ensures capacity { vec_capacity items.new ≡ vec_capacity items.old }
{
    cut_and_join(items, first, last, mode);
}
