//! A byte's mode, found by bisection whose looks are counted.
ghost use Rattle.std.specs.Prelude.{◌≡◌, ◌+◌, ◌-◌, ◌*◌, ◌^◌, ◌<◌, ◌≤◌, Some, length};
ghost use Rattle.std.specs.List.{slice_get};
ghost use Rattle.xl_spans.specs.Spans.{IsCanonical, mode_at, most_looks};

use crate::span::{Mode, Span};
use std::sync::ledger::Ledger;
use xl_steps::Steps;

/// The span at this place: one step.
fn look<L: Ledger>(spans: &[Span], place: usize, steps: &mut Steps<L>) -> Span
    requires { place < length spans.now }
    ensures span { slice_get spans.now place ≡ Some result }
    ensures step { steps.new ≡ steps.old + 1 }
{
    steps.tick();
    spans[place]
}

/// The middle of so many places.
fn middle_of(many: usize) -> usize
    requires { 0 < many }
    ensures within { result < many }
    ensures before { result + result ≤ many }
    ensures behind { many ≤ result + result + 1 }
{
    many / 2
}

/// The spans before the one at this place, if that begins past the byte.
#[tactic(auto, using(crate::proofs::Looks::mode_below, crate::proofs::Looks::canonical_before))]
fn before(spans: &[Span], place: usize, span: Span, byte: u64) -> &[Span]
    requires canonical { IsCanonical spans.now }
    requires there { slice_get spans.now place ≡ Some span }
    requires past { byte < span.first }
    requires within { place ≤ length spans.now }
    ensures canonical { IsCanonical result.now }
    ensures mode { mode_at result.now byte ≡ mode_at spans.now byte }
    ensures len { length result.now ≡ place }
{
    &spans[..place]
}

/// The spans behind the one at this place, if that ends before the byte.
#[tactic(auto, using(crate::proofs::Looks::mode_above, crate::proofs::Looks::canonical_behind))]
fn behind(spans: &[Span], place: usize, span: Span, byte: u64) -> &[Span]
    requires canonical { IsCanonical spans.now }
    requires there { slice_get spans.now place ≡ Some span }
    requires past { span.last < byte }
    requires within { place < length spans.now }
    ensures canonical { IsCanonical result.now }
    ensures mode { mode_at result.now byte ≡ mode_at spans.now byte }
    ensures len { length result.now + place + 1 ≡ length spans.now }
{
    &spans[place + 1..]
}

/// The mode of a byte that this span has.
#[tactic(auto, using(crate::proofs::Looks::mode_here))]
fn mode_of(spans: &[Span], place: usize, span: Span, byte: u64) -> Option<Mode>
    requires canonical { IsCanonical spans.now }
    requires there { slice_get spans.now place ≡ Some span }
    requires first { span.first ≤ byte }
    requires last { byte ≤ span.last }
    ensures { result ≡ mode_at spans.now byte }
{
    Some(span.mode)
}

/// The mode in which the byte is locked. After each look at most half of the spans are left.
#[tactic(auto, using(crate::proofs::Looks::one_look_before, crate::proofs::Looks::one_look_behind, crate::proofs::Looks::last_look))]
pub(crate) fn mode_in<L: Ledger>(spans: &[Span], byte: u64, steps: &mut Steps<L>) -> Option<Mode>
    requires { IsCanonical spans.now }
    ensures mode { result ≡ mode_at spans.now byte }
    ensures more { steps.old ≤ steps.new }
    ensures few { 2 ^ (steps.new - steps.old) ≤ most_looks (length spans.now) }
{
    if spans.is_empty() {
        return None;
    }
    let middle = middle_of(spans.len());
    let span = look(spans, middle, steps);
    if byte < span.first {
        let rest = before(spans, middle, span, byte);
        mode_in(rest, byte, steps)
    } else if span.last < byte {
        let rest = behind(spans, middle, span, byte);
        mode_in(rest, byte, steps)
    } else {
        mode_of(spans, middle, span, byte)
    }
}
