//! An SMB open's ranges on a file as one list of elements, from which an unlock takes one.
ghost use Rattle.std.specs.Prelude.{◌≡◌, ◌++◌, [], false, IfOk, IfSome, OnOk};
ghost use Rattle.std.specs.List.{slice_get};
ghost use Rattle.xl_exact.specs.Elements.{IsRange, AreRanges};
ghost use Rattle.xl_matrix.specs.Owners.{posix};
ghost use Rattle.xl_table.specs.Elements.{element_held};
ghost use Rattle.xl_table.specs.Exact.{is_counted, element_of, with_element, elements_in, AreElements, first_unlocked};
ghost use Rattle.xl_matrix.specs.declared.claim.Extent.TheVariants.{Bytes};
ghost use Rattle.xl_matrix.specs.declared.claim.What.TheVariants.{Range};
ghost use Rattle.xl_table.specs.Files.{joined, IsFiled};
ghost use Rattle.xl_table.specs.Held.{IsKept};

use crate::files::OnFile;
use crate::section::ranges_by;
use std::alloc::{AllocError, Global};
use xl_exact::{Element, Exact};
use xl_matrix::{Claim, Extent, What};

/// Whether the bytes stand in order and are not all bytes, so that 64 bits count them.
fn is_counted(first: u64, last: u64) -> bool
    ensures { result ≡ is_counted first last }
{
    first <= last && !(first == 0 && last == u64::MAX)
}

/// The element of these bytes, if it is one.
fn element_at(first: u64, last: u64, exclusive: bool) -> Option<Element>
    ensures value { result ≡ element_of (Range (Bytes first last) exclusive) }
    ensures range { IfSome result (λ e. IsRange e.first e.len) }
{
    if !is_counted(first, last) {
        return None;
    }
    Some(Element {
        first,
        len: last - first + 1,
        exclusive,
    })
}

/// What is claimed as an element, if it is one: a range that an SMB open may have.
fn element_of(what: What) -> Option<Element>
    ensures value { result ≡ element_of what }
    ensures range { IfSome result (λ e. IsRange e.first e.len) }
{
    match what {
        What::Range(Extent::Bytes(first, last), exclusive) => element_at(first, last, exclusive),
        What::Range(Extent::Empty(offset), exclusive) => Some(Element {
            first: offset,
            len: 0,
            exclusive,
        }),
        _ => None,
    }
}

/// Adds what is claimed, if it is an element.
fn push_element(elements: &mut Vec<Element>, what: What) -> Result<(), AllocError>
    requires ranges { AreRanges elements.old.items }
    ensures elements { OnOk result (elements.new.items ≡ elements.old.items ++ with_element (element_of what) []) }
    ensures ranges { OnOk result (AreRanges elements.new.items) }
{
    if let Some(element) = element_of(what) {
        elements.push(element)?;
    }
    Ok(())
}

/// The elements of these claims.
#[tactic(auto, using(crate::proofs::ExactLaws::elements_more))]
fn elements_in(alloc: Global, claims: &[Claim]) -> Result<Vec<Element>, AllocError>
    ensures elements { IfOk result (λ v. v.items ≡ elements_in claims.now) }
    ensures ranges { IfOk result (λ v. AreRanges v.items) }
{
    let mut elements = Vec::new(alloc);
    for claim in claims {
        push_element(&mut elements, claim.what)?;
    }
    Ok(elements)
}

fn claim_at(claims: &[Claim], place: usize) -> Option<Claim>
    ensures { result ≡ slice_get claims.now place }
{
    claims.get(place).copied()
}

/// The one of an open's ranges on a file, as they were locked, that its unlock of this range takes out.
#[tactic(auto, using(crate::proofs::ExactLaws::none_unlocked, crate::proofs::ExactLaws::unlocked_there, crate::proofs::ExactLaws::unlocked_nowhere))]
fn unlocked_of(alloc: Global, ranges: &[Claim], extent: Extent) -> Result<Option<Claim>, AllocError>
    requires ranges { AreElements ranges.now }
    ensures { IfOk result (λ claim. claim ≡ first_unlocked extent ranges.now) }
{
    let Some(element) = element_of(What::Range(extent, false)) else {
        return Ok(None);
    };
    let mut exact = Exact::from_vec(elements_in(alloc, ranges)?);
    match exact.take_out(element.first, element.len) {
        Some(place) => Ok(claim_at(ranges, place)),
        None => Ok(None),
    }
}

/// The held claim that an open's unlock of a range takes out.
#[tactic(auto, using(crate::proofs::ExactLaws::opens_elements, crate::proofs::ExactLaws::first_is_held))]
pub(crate) fn find_unlocked(
    alloc: Global,
    lists: &[OnFile],
    ask: &Claim,
    extent: Extent,
) -> Result<Option<Claim>, AllocError>
    requires filed { IsFiled lists.now }
    requires kept { IsKept (joined lists.now) }
    requires open { posix ask.now.owner ≡ false }
    ensures { IfOk result (λ claim. claim ≡ element_held ask.now extent (joined lists.now)) }
{
    let ranges = ranges_by(alloc, lists, ask.file, ask.owner)?;
    unlocked_of(alloc, &ranges, extent)
}
