//! The definitions of this crate as plain programs: they go over all spans, and make a new list. A test compares the
//! faster bodies with them.
ghost use Rattle.std.specs.Prelude.{◌≡◌, ◌++◌, IfOk, OnOk};
ghost use Rattle.std.specs.List.{filter_map};
ghost use Rattle.xl_spans.specs.Spans.{part_before, part_past, asked, runs, relocked, mode_at, first_conflict};

use crate::span::{Mode, Span, excludes, joins, part_before, part_past};
use std::alloc::{AllocError, Global};

/// The spans after a lock of the bytes from `first` to `last` in this mode, or after their unlock at None.
#[tactic(auto, unfolding(crate::specs::Spans::relocked), using(std::proofs::Common::append_assoc))]
pub fn relocked(
    alloc: Global,
    spans: &[Span],
    first: u64,
    last: u64,
    mode: Option<Mode>,
) -> Result<Vec<Span>, AllocError>
    ensures { IfOk result (λ v. v.items ≡ relocked spans.now first last mode) }
{
    let mut parts = Vec::new(alloc);
    push_before(&mut parts, spans, first)?;
    push_asked(&mut parts, first, last, mode)?;
    push_past(&mut parts, spans, last)?;
    joined(alloc, &parts)
}

/// The mode in which the byte is locked, or None.
pub fn mode_at(spans: &[Span], byte: u64) -> Option<Mode>
    ensures { result ≡ mode_at spans.now byte }
{
    for span in spans {
        if span.first <= byte && byte <= span.last {
            return Some(span.mode);
        }
    }
    None
}

/// The first span that another owner's lock of the bytes from `first` to `last` in this mode conflicts with.
#[tactic(auto, unfolding(crate::specs::Spans::first_conflict))]
pub fn first_conflict(spans: &[Span], first: u64, last: u64, mode: Mode) -> Option<Span>
    ensures { result ≡ first_conflict first last mode spans.now }
{
    for span in spans {
        if span.first <= last && first <= span.last && excludes(mode, span.mode) {
            return Some(*span);
        }
    }
    None
}

fn push_before(out: &mut Vec<Span>, spans: &[Span], first: u64) -> Result<(), AllocError>
    ensures { OnOk result (out.new.items ≡ out.old.items ++ filter_map (part_before first) spans.now) }
{
    for span in spans {
        if let Some(part) = part_before(span, first) {
            out.push(part)?;
        }
    }
    Ok(())
}

fn push_asked(
    out: &mut Vec<Span>,
    first: u64,
    last: u64,
    mode: Option<Mode>,
) -> Result<(), AllocError>
    ensures { OnOk result (out.new.items ≡ out.old.items ++ asked first last mode) }
{
    if let Some(mode) = mode {
        out.push(Span { first, last, mode })?;
    }
    Ok(())
}

fn push_past(out: &mut Vec<Span>, spans: &[Span], last: u64) -> Result<(), AllocError>
    ensures { OnOk result (out.new.items ≡ out.old.items ++ filter_map (part_past last) spans.now) }
{
    for span in spans {
        if let Some(part) = part_past(span, last) {
            out.push(part)?;
        }
    }
    Ok(())
}

/// Makes one what is one run.
#[tactic(auto, using(crate::proofs::Forward::run_grown, crate::proofs::Forward::run_begun))]
fn joined(alloc: Global, parts: &[Span]) -> Result<Vec<Span>, AllocError>
    ensures { IfOk result (λ v. v.items ≡ runs parts.now) }
{
    let mut out = Vec::new(alloc);
    let Some((start, rest)) = parts.split_first() else {
        return Ok(out);
    };
    let mut run = *start;
    for next in rest {
        if joins(&run, next) {
            run.last = next.last;
        } else {
            out.push(run)?;
            run = *next;
        }
    }
    out.push(run)?;
    Ok(out)
}
