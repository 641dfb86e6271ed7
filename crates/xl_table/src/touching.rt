//! What of an owner's ranges a range touches.
ghost use Rattle.std.specs.Prelude.{◌≡◌, ◌-◌, ◌≤◌, ◌<◌, ◌^◌, ◌&&◌, true, length};
ghost use Rattle.std.specs.List.{list_any, prefix_len};
ghost use Rattle.xl_matrix.specs.Owners.{posix};
ghost use Rattle.xl_base.specs.Lists.{Pairwise};
ghost use Rattle.xl_table.specs.Files.{joined, IsFiled};
ghost use Rattle.xl_table.specs.Held.{IsKept, most_claims};
ghost use Rattle.xl_table.specs.Order.{goes_first};
ghost use Rattle.xl_table.specs.Pages.{paged, AreFull, passes, is_met, is_met_there};
ghost use Rattle.xl_table.specs.Relock.{holds_byte, is_range_of, holds_range};
ghost use Rattle.xl_table.specs.Sections.{group};
ghost use Rattle.xl_index.specs.Parted.{IsParted};
ghost use Rattle.xl_table.specs.declared.marks.Mark.TheVariants.{Ending, Beginning};

use crate::files::{OnFile, on_file};
use crate::marks::Mark;
use crate::page::Page;
use crate::pages::{count_both, first_failing};
use crate::relock::meets;
use crate::section::{group_of, group_places};
use xl_base::Owner;
use xl_matrix::{Claim, What, is_a_range, is_posix, same_owner};

/// Where those of an owner's ranges on a file begin and end that have a byte of the range, or lie right beside it.
pub(crate) fn touched_places(
    pages: &[Page],
    file: u32,
    owner: Owner,
    first: u64,
    last: u64,
) -> (usize, usize)
    requires full { AreFull pages.now }
    requires room { length (paged pages.now) < 2 ^ 32 }
    requires ending { IsParted (passes (Ending (first - 1)) (group file 1 owner)) (paged pages.now) }
    requires beginning { IsParted (passes (Beginning last) (group file 1 owner)) (paged pages.now) }
    requires order { prefix_len (passes (Ending (first - 1)) (group file 1 owner)) (paged pages.now) ≤ prefix_len (passes (Beginning last) (group file 1 owner)) (paged pages.now) }
    ensures start { result.0 ≡ prefix_len (passes (Ending (first - 1)) (group file 1 owner)) (paged pages.now) }
    ensures end { result.1 ≡ prefix_len (passes (Beginning last) (group file 1 owner)) (paged pages.now) }
    ensures within { result.1 ≤ length (paged pages.now) }
{
    let front = group_of(file, 1, owner);
    let near = Mark::Ending(first.saturating_sub(1));
    count_both(pages, near, Mark::Beginning(last), &front)
}

/// Whether the claim is a range of the owner on the file, and has a byte of the range.
fn is_met(file: u32, owner: Owner, first: u64, last: u64, claim: &Claim) -> bool
    ensures { result ≡ is_met file owner first last claim.now }
{
    claim.file == file
        && same_owner(claim.owner, owner)
        && is_a_range(claim.what)
        && meets(first, last, claim.what)
}

/// Whether one of these claims is such a range.
fn any_met(claims: &[Claim], file: u32, owner: Owner, first: u64, last: u64) -> bool
    ensures { result ≡ list_any (is_met file owner first last) claims.now }
{
    claims
        .iter()
        .any(|claim| is_met(file, owner, first, last, claim))
}

/// Whether one of the claims in these pages is such a range.
#[tactic(auto, using(crate::proofs::PageLaws::any_more))]
fn any_met_in(pages: &[Page], file: u32, owner: Owner, first: u64, last: u64) -> bool
    ensures { result ≡ list_any (is_met file owner first last) (paged pages.now) }
{
    for page in pages {
        if any_met(page.as_slice(), file, owner, first, last) {
            return true;
        }
    }
    false
}

/// Whether there is a claim, and it is such a range.
fn is_met_there(claim: Option<Claim>, file: u32, owner: Owner, first: u64, last: u64) -> bool
    ensures { result ≡ is_met_there file owner first last claim }
{
    match claim {
        Some(claim) => is_met(file, owner, first, last, &claim),
        None => false,
    }
}

/// Whether an NLM or NFSv4 owner has a byte of the range: the first of its ranges that does not end before it has one
/// or none has.
fn has_byte_posix(pages: &[Page], file: u32, owner: Owner, first: u64, last: u64) -> bool
    requires kept { IsKept (paged pages.now) }
    requires full { AreFull pages.now }
    requires posix { posix owner ≡ true }
    ensures { result ≡ holds_byte file owner first last (paged pages.now) }
{
    let front = group_of(file, 1, owner);
    let claim = first_failing(pages, Mark::Ending(first), &front);
    is_met_there(claim, file, owner, first, last)
}

/// Whether the owner has a byte of the range on the file.
#[tactic(auto, using(crate::proofs::TouchLaws::any_holds, crate::proofs::TouchLaws::holds_here, crate::proofs::GrantLaws::kept_here))]
pub(crate) fn has_byte(lists: &[OnFile], file: u32, owner: Owner, first: u64, last: u64) -> bool
    requires filed { IsFiled lists.now }
    requires kept { IsKept (joined lists.now) }
    ensures { result ≡ holds_byte file owner first last (joined lists.now) }
{
    let pages = on_file(lists, file);
    if is_posix(owner) {
        has_byte_posix(pages, file, owner, first, last)
    } else {
        any_met_in(pages, file, owner, first, last)
    }
}

/// Whether the owner has a range among a file's claims.
#[tactic(auto, using(crate::proofs::TouchLaws::some_range))]
fn has_range_in(pages: &[Page], file: u32, owner: Owner) -> bool
    requires ordered { Pairwise goes_first (paged pages.now) }
    requires full { AreFull pages.now }
    requires room { length (paged pages.now) < 2 ^ 32 }
    ensures { result ≡ list_any (is_range_of file owner) (paged pages.now) }
{
    let (start, end) = group_places(pages, file, 1, owner);
    start < end
}

/// Whether the owner has a range on some file.
#[tactic(auto, using(crate::proofs::TouchLaws::all_left))]
pub(crate) fn has_range(lists: &[OnFile], owner: Owner) -> bool
    requires filed { IsFiled lists.now }
    requires ordered { Pairwise goes_first (joined lists.now) }
    requires room { length (joined lists.now) ≤ most_claims }
    ensures { result ≡ holds_range owner (joined lists.now) }
{
    for list in lists {
        if has_range_in(&list.pages, list.file, owner) {
            return true;
        }
    }
    false
}
