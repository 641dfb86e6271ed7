//! The least of some claims, as a blocker is reported.
ghost use Rattle.std.specs.Prelude.{◌≡◌, IfOk};
ghost use Rattle.std.specs.Ordering.{nat_cmp, is_lt};
ghost use Rattle.std.specs.Cmp.Lexicographic.{slice_cmp};
ghost use Rattle.xl_names.specs.Texts.{owner_text};
ghost use Rattle.std.specs.List.{filter};
ghost use Rattle.xl_base.specs.Leasts.{lesser, least_from};
ghost use Rattle.xl_table.specs.Files.{joined, IsFiled};
ghost use Rattle.xl_table.specs.Least.{range_key, range_before, least, counts, begins_behind, is_beyond};
ghost use Rattle.xl_table.specs.Pages.{paged};

use crate::bounds::Bounds;
use crate::files::{OnFile, on_file};
use crate::listing::blocks;
use crate::page::Page;
use std::alloc::{AllocError, Global};
use xl_base::Owner;
use xl_matrix::{Claim, Extent, What, is_a_range};
use xl_names::{Names, owner_text};

/// What orders ranges: the first byte, whether there are bytes, the last, and 0 if it is exclusive.
fn range_key(claim: &Claim) -> (u64, u8, u64, u8)
    ensures { (result.0, result.1, result.2, result.3) ≡ range_key claim.now.what }
{
    match claim.what {
        What::Range(Extent::Bytes(first, last), exclusive) => (
            first,
            1,
            last,
            if exclusive { 0 } else { 1 },
        ),
        What::Range(Extent::Empty(offset), exclusive) => (
            offset,
            0,
            0,
            if exclusive { 0 } else { 1 },
        ),
        _ => (0, 0, 0, 0),
    }
}

/// Whether the first owner's text comes before the second's.
fn text_before(alloc: Global, names: &Names, a: Owner, b: Owner) -> Result<bool, AllocError>
    ensures { IfOk result (λ before. before ≡ is_lt (slice_cmp nat_cmp (owner_text names.now a) (owner_text names.now b))) }
{
    let first = owner_text(alloc, names, a)?;
    let second = owner_text(alloc, names, b)?;
    Ok(first.as_bytes().cmp(second.as_bytes()).is_lt())
}

/// Whether the first range comes before the second.
fn range_before(alloc: Global, names: &Names, a: &Claim, b: &Claim) -> Result<bool, AllocError>
    ensures { IfOk result (λ before. before ≡ range_before names.now a.now b.now) }
{
    let first = range_key(a);
    let second = range_key(b);
    if first.0 != second.0 {
        return Ok(first.0 < second.0);
    }
    if first.1 != second.1 {
        return Ok(first.1 < second.1);
    }
    if first.2 != second.2 {
        return Ok(first.2 < second.2);
    }
    if first.3 != second.3 {
        return Ok(first.3 < second.3);
    }
    text_before(alloc, names, a.owner, b.owner)
}

/// The lesser of the least so far and one more.
fn lesser(
    alloc: Global,
    names: &Names,
    least: Option<Claim>,
    claim: &Claim,
) -> Result<Option<Claim>, AllocError>
    ensures { IfOk result (λ c. c ≡ lesser (range_before names.now) least claim.now) }
{
    if let Some(before) = least {
        if !range_before(alloc, names, claim, &before)? {
            return Ok(least);
        }
    }
    Ok(Some(*claim))
}

/// Whether the claim begins behind the least so far: then it doesn't come before it, whatever else is true of it.
fn begins_behind(least: &Option<Claim>, claim: &Claim) -> bool
    ensures { result ≡ begins_behind least.now claim.now }
{
    match least {
        Some(before) => range_key(before).0 < range_key(claim).0,
        None => false,
    }
}

/// Whether no claim within these bounds comes before the least so far: each is a range that begins behind it.
pub(crate) fn is_beyond(least: Option<Claim>, bounds: Bounds) -> bool
    ensures { result ≡ is_beyond least bounds }
{
    match least {
        Some(claim) => !bounds.mixed && range_key(&claim).0 < bounds.low,
        None => false,
    }
}

/// Whether a held claim blocks the ask, and is a range if ranges alone count.
fn counts(ask: &Claim, ranges: bool, held: &Claim) -> bool
    ensures { result ≡ counts ask.now ranges held.now }
{
    blocks(ask, held) && (!ranges || is_a_range(held.what))
}

/// The lesser of the least so far, and those of these claims that count. What begins behind the least is passed by.
#[tactic(auto, using(crate::proofs::BeyondLaws::behind_stays))]
pub(crate) fn least_among(
    alloc: Global,
    names: &Names,
    least: Option<Claim>,
    claims: &[Claim],
    ask: &Claim,
    ranges: bool,
) -> Result<Option<Claim>, AllocError>
    ensures { IfOk result (λ c. c ≡ least_from (range_before names.now) least (filter (counts ask.now ranges) claims.now)) }
{
    let mut least = least;
    for claim in claims {
        if !begins_behind(&least, claim) && counts(ask, ranges, claim) {
            least = lesser(alloc, names, least, claim)?;
        }
    }
    Ok(least)
}

/// The least of those in these pages that count. A page is passed by if all of it begins behind the least so far.
#[tactic(auto, unfolding(crate::specs::Least::least))]
fn least_in(
    alloc: Global,
    names: &Names,
    pages: &[Page],
    ask: &Claim,
    ranges: bool,
) -> Result<Option<Claim>, AllocError>
    ensures { IfOk result (λ c. c ≡ least names.now (filter (counts ask.now ranges) (paged pages.now))) }
{
    let mut least = None;
    for page in pages {
        least = page.least_with(alloc, names, least, ask, ranges)?;
    }
    Ok(least)
}

/// The least of the held claims that block the ask, or of the ranges that do.
pub(crate) fn least_on(
    alloc: Global,
    names: &Names,
    lists: &[OnFile],
    ask: &Claim,
    ranges: bool,
) -> Result<Option<Claim>, AllocError>
    requires { IsFiled lists.now }
    ensures { IfOk result (λ c. c ≡ least names.now (filter (counts ask.now ranges) (joined lists.now))) }
{
    let least = least_in(alloc, names, on_file(lists, ask.file), ask, ranges)?;
    Ok(least)
}

/// The least of these claims: by first byte, then by last (a range without bytes before all that begin there), then exclusive
/// before shared, then by the text of the owner. Shares stand before ranges.
#[tactic(auto, unfolding(crate::specs::Least::least))]
pub fn least_of(alloc: Global, names: &Names, claims: &[Claim]) -> Result<Option<Claim>, AllocError>
    ensures { IfOk result (λ c. c ≡ least names.now claims.now) }
{
    let mut least = None;
    for claim in claims {
        least = lesser(alloc, names, least, claim)?;
    }
    Ok(least)
}
