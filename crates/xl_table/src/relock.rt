//! An owner's spans, as they are read from the claims, changed and made claims again; and its share.
ghost use Rattle.std.specs.Prelude.{◌≡◌, ℕ, List, ◌-◌, ◌≤◌, ◌++◌, [], length, map, slice_range, true, IfOk, OnOk};
ghost use Rattle.std.specs.List.{AllByRecursion, filter, find, list_any, prefix_len};
ghost use Rattle.xl_matrix.specs.declared.claim.Claim.{Claim};
ghost use Rattle.xl_spans.specs.Spans.{IsCanonical, meets, relocked};
ghost use Rattle.xl_table.specs.Flat.{with_what};
ghost use Rattle.xl_table.specs.Held.{is_of, is_range, is_share, with_span, spans_of, mode_of};
ghost use Rattle.xl_table.specs.Relock.{is_exclusive, range_claim, is_range_of, is_share_of, old_shares, either_right, united_what, united_with, unites, united_by};
ghost use Rattle.xl_table.specs.Sections.{range_ends_before, range_begins_by, spans_in};
ghost use Rattle.xl_index.specs.Parted.{IsParted};

use std::alloc::{AllocError, Global};
use xl_base::{Owner, Protocol};
use xl_matrix::{Claim, Extent, Rwd, What, same_owner};
use xl_spans::{Mode, Span, Spans};

pub(crate) fn mode_of(exclusive: bool) -> Mode
    ensures { result ≡ mode_of exclusive }
{
    if exclusive {
        Mode::Exclusive
    } else {
        Mode::Shared
    }
}

/// Adds the span that is claimed, if it is a range with bytes.
fn push_span(spans: &mut Vec<Span>, what: What) -> Result<(), AllocError>
    ensures { OnOk result (spans.new.items ≡ spans.old.items ++ with_span what []) }
{
    if let What::Range(Extent::Bytes(first, last), exclusive) = what {
        spans.push(Span {
            first,
            last,
            mode: mode_of(exclusive),
        })?;
    }
    Ok(())
}

/// The spans of these claims.
#[tactic(auto, using(crate::proofs::SpanLaws::spans_more))]
pub(crate) fn spans_in(alloc: Global, claims: &[Claim]) -> Result<Vec<Span>, AllocError>
    ensures { IfOk result (λ v. v.items ≡ spans_in claims.now) }
{
    let mut spans = Vec::new(alloc);
    for claim in claims {
        push_span(&mut spans, claim.what)?;
    }
    Ok(spans)
}

pub(crate) fn ends_before(byte: u64, what: What) -> bool
    ensures { result ≡ range_ends_before byte what }
{
    match what {
        What::Range(Extent::Bytes(_, last), _) => last < byte,
        _ => false,
    }
}

pub(crate) fn begins_by(byte: u64, what: What) -> bool
    ensures { result ≡ range_begins_by byte what }
{
    match what {
        What::Range(Extent::Bytes(first, _), _) => first.saturating_sub(1) <= byte,
        _ => false,
    }
}

/// The spans once the range has this mode, or none.
fn relocked(
    spans: Vec<Span>,
    first: u64,
    last: u64,
    mode: Option<Mode>,
) -> Result<Vec<Span>, AllocError>
    requires ends { first ≤ last }
    requires canonical { IsCanonical spans.items }
    ensures { IfOk result (λ v. v.items ≡ relocked spans.items first last mode) }
{
    let mut spans = Spans::from_vec(spans);
    spans.reserve(2)?;
    match mode {
        Some(mode) => spans.lock(first, last, mode),
        None => spans.unlock(first, last),
    }
    Ok(spans.into_vec())
}

/// A span as a claim of the asker.
fn range_claim(ask: &Claim, span: &Span) -> Claim
    ensures { result ≡ range_claim ask.now.file ask.now.owner ask.now.party span.now }
{
    Claim {
        file: ask.file,
        owner: ask.owner,
        party: ask.party,
        what: What::Range(
            Extent::Bytes(span.first, span.last),
            matches!(span.mode, Mode::Exclusive),
        ),
    }
}

/// Spans as claims of the asker.
fn range_claims(alloc: Global, ask: &Claim, spans: &[Span]) -> Result<Vec<Claim>, AllocError>
    ensures { IfOk result (λ v. v.items ≡ map (range_claim ask.now.file ask.now.owner ask.now.party) spans.now) }
{
    spans
        .iter()
        .map(|span| range_claim(ask, span))
        .collect(alloc)
}

/// What the touched ranges give way to.
pub(crate) fn fresh_claims(
    alloc: Global,
    ask: &Claim,
    touched: &[Claim],
    first: u64,
    last: u64,
    mode: Option<Mode>,
) -> Result<Vec<Claim>, AllocError>
    requires ends { first ≤ last }
    requires canonical { IsCanonical (spans_in touched.now) }
    ensures { IfOk result (λ v. v.items ≡ map (range_claim ask.now.file ask.now.owner ask.now.party) (relocked (spans_in touched.now) first last mode)) }
{
    let runs = relocked(spans_in(alloc, touched)?, first, last, mode)?;
    range_claims(alloc, ask, &runs)
}

pub(crate) fn meets(first: u64, last: u64, what: What) -> bool
    ensures { result ≡ list_any (meets first last) (with_span what []) }
{
    match what {
        What::Range(Extent::Bytes(start, end), _) => start <= last && first <= end,
        _ => false,
    }
}

// ---- shares

/// The rights of both.
pub(crate) fn either_right(p: Rwd, q: Rwd) -> Rwd
    ensures { result ≡ either_right p q }
{
    Rwd {
        r: p.r || q.r,
        w: p.w || q.w,
        d: p.d || q.d,
    }
}

/// One share with the access and the deny of both.
fn united_what(what: What, other: What) -> What
    ensures { result ≡ united_what what other }
{
    match (what, other) {
        (What::Share(access, deny), What::Share(rights, denied)) => What::Share(
            either_right(access, rights),
            either_right(deny, denied),
        ),
        _ => what,
    }
}

fn united_with(what: What, held: &[Claim]) -> What
    ensures { result ≡ united_with what held.now }
{
    let mut whole = what;
    for claim in held {
        whole = united_what(whole, claim.what);
    }
    whole
}

/// Whether shares of this owner are united.
fn unites(owner: Owner) -> bool
    ensures { result ≡ unites owner }
{
    match owner {
        Owner::Name(Protocol::Nfs, _) => true,
        _ => false,
    }
}

/// The share that its owner has once this one is granted, if these are the owner's.
#[tactic(auto, unfolding(crate::specs::Relock::united_by))]
pub(crate) fn united(claim: &Claim, old: &[Claim]) -> Claim
    ensures { result ≡ with_what claim.now (united_by claim.now.owner claim.now.what old.now) }
{
    Claim {
        file: claim.file,
        owner: claim.owner,
        party: claim.party,
        what: if unites(claim.owner) {
            united_with(claim.what, old)
        } else {
            claim.what
        },
    }
}
