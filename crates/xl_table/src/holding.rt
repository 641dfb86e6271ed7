//! Who has a byte.
ghost use Rattle.std.specs.Prelude.{◌≡◌, Some};
ghost use Rattle.xl_table.specs.Files.{joined, IsFiled};
ghost use Rattle.xl_table.specs.Pages.{paged};
ghost use Rattle.xl_base.specs.Leasts.{lesser};
ghost use Rattle.xl_table.specs.Flat.{locks_by, locks, range_key_by, comes_before, holder_from, holder};

use crate::files::{OnFile, on_file};
use crate::ordering::is_no_later;
use crate::page::Page;
use xl_matrix::{Claim, Extent, What, covers};

fn locks_byte(what: What, byte: u64) -> bool
    ensures { result ≡ locks_by what byte }
{
    match what {
        What::Range(extent, _) => covers(extent, byte),
        _ => false,
    }
}

/// Whether the claim is a range on this file that has the byte.
fn is_lock_on(file: u32, byte: u64, claim: &Claim) -> bool
    ensures { result ≡ locks file byte claim.now }
{
    claim.file == file && locks_byte(claim.what, byte)
}

fn key_of_range(what: What) -> [u64; 3]
    ensures { result ≡ range_key_by what }
{
    match what {
        What::Range(Extent::Bytes(first, last), true) => [first, last, 0],
        What::Range(Extent::Bytes(first, last), false) => [first, last, 1],
        _ => [0, 0, 0],
    }
}

/// The lesser of the least range so far and one more; of equal ones the earlier.
fn lesser_of(least: Option<Claim>, claim: Claim) -> Claim
    ensures { lesser comes_before least claim ≡ Some result }
{
    match least {
        None => claim,
        Some(found) => {
            if is_no_later(&key_of_range(found.what), &key_of_range(claim.what)) {
                found
            } else {
                claim
            }
        }
    }
}

/// The lesser of the least range so far that has the byte, and those of these claims.
pub(crate) fn holder_with(
    least: Option<Claim>,
    claims: &[Claim],
    file: u32,
    byte: u64,
) -> Option<Claim>
    ensures { result ≡ holder_from least file byte claims.now }
{
    let mut least = least;
    'claims: for claim in claims {
        if is_lock_on(file, byte, claim) {
            least = Some(lesser_of(least, *claim));
        }
    }
    least
}

/// The least range in these pages that has the byte.
#[tactic(auto, using(crate::proofs::PlaceLaws::holder_more), unfolding(crate::specs::Flat::holder))]
fn holder_among(pages: &[Page], file: u32, byte: u64) -> Option<Claim>
    ensures { result ≡ holder file byte (paged pages.now) }
{
    let mut least = None;
    for page in pages {
        least = page.holder_with(least, file, byte);
    }
    least
}

/// The least range on the file that has the byte.
#[tactic(auto, using(crate::proofs::PlaceLaws::holder_on_file))]
pub(crate) fn find_holder(lists: &[OnFile], file: u32, byte: u64) -> Option<Claim>
    requires { IsFiled lists.now }
    ensures { result ≡ holder file byte (joined lists.now) }
{
    holder_among(on_file(lists, file), file, byte)
}
