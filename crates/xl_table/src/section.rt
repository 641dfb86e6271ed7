//! Parts of a file's claims, found by bisection.
ghost use Rattle.std.specs.Prelude.{◌≡◌, ◌≤◌, ◌==◌, ◌&&◌, ◌∷◌, ◌<◌, ◌^◌, [], length, slice_range, IfOk};
ghost use Rattle.std.specs.List.{filter, find, list_any, prefix_len, slice_get};
ghost use Rattle.xl_base.specs.Lists.{Pairwise};
ghost use Rattle.xl_table.specs.Order.{goes_first};
ghost use Rattle.xl_table.specs.Files.{joined, AreOn, IsFiled};
ghost use Rattle.xl_table.specs.Pages.{paged, AreFull};
ghost use Rattle.xl_table.specs.Held.{is_cache, is_share, most_claims};
ghost use Rattle.xl_table.specs.Relock.{is_share_of, is_range_of};
ghost use Rattle.xl_table.specs.Sections.{group, party_group, is_before, is_upto, is_cache_by, ends_in_cache};

use crate::files::{OnFile, on_file};
use crate::marks::Mark;
use crate::ordering::{key_of_owner, key_of_party};
use crate::page::Page;
use crate::pages::{between, claim_at, count_both, count_passing};
use std::alloc::{AllocError, Global};
use xl_base::{Owner, Party};
use xl_matrix::Claim;

/// How many claims stand before those whose numbers begin with these.
#[tactic(auto, using(crate::proofs::SectionLaws::before_parted))]
fn count_before(pages: &[Page], front: &[u64]) -> usize
    requires ordered { Pairwise goes_first (paged pages.now) }
    requires full { AreFull pages.now }
    requires room { length (paged pages.now) < 2 ^ 32 }
    ensures count { result ≡ prefix_len (is_before front.now) (paged pages.now) }
    ensures within { result ≤ length (paged pages.now) }
{
    count_passing(pages, Mark::Before, front)
}

/// How many claims stand before those whose numbers begin with these, or among them.
#[tactic(auto, using(crate::proofs::SectionLaws::upto_parted))]
fn count_upto(pages: &[Page], front: &[u64]) -> usize
    requires ordered { Pairwise goes_first (paged pages.now) }
    requires full { AreFull pages.now }
    requires room { length (paged pages.now) < 2 ^ 32 }
    ensures count { result ≡ prefix_len (is_upto front.now) (paged pages.now) }
    ensures within { result ≤ length (paged pages.now) }
{
    count_passing(pages, Mark::Upto, front)
}

/// Where the claims whose numbers begin with these begin, and where they end.
#[tactic(auto, using(crate::proofs::SectionLaws::section_order))]
pub(crate) fn places(pages: &[Page], front: &[u64]) -> (usize, usize)
    requires ordered { Pairwise goes_first (paged pages.now) }
    requires full { AreFull pages.now }
    requires room { length (paged pages.now) < 2 ^ 32 }
    ensures start { result.0 ≡ prefix_len (is_before front.now) (paged pages.now) }
    ensures end { result.1 ≡ prefix_len (is_upto front.now) (paged pages.now) }
    ensures order { result.0 ≤ result.1 }
    ensures within { result.1 ≤ length (paged pages.now) }
{
    (count_before(pages, front), count_upto(pages, front))
}

/// The same if those are few: behind the first they are looked at one by one.
#[tactic(auto, using(crate::proofs::SectionLaws::before_parted, crate::proofs::SectionLaws::upto_parted))]
pub(crate) fn few_places(pages: &[Page], front: &[u64]) -> (usize, usize)
    requires ordered { Pairwise goes_first (paged pages.now) }
    requires full { AreFull pages.now }
    requires room { length (paged pages.now) < 2 ^ 32 }
    ensures start { result.0 ≡ prefix_len (is_before front.now) (paged pages.now) }
    ensures end { result.1 ≡ prefix_len (is_upto front.now) (paged pages.now) }
    ensures order { result.0 ≤ result.1 }
    ensures within { result.1 ≤ length (paged pages.now) }
{
    count_both(pages, Mark::Before, Mark::Upto, front)
}

/// The shares among a file's claims.
fn shares_in(alloc: Global, pages: &[Page], file: u32) -> Result<Vec<Claim>, AllocError>
    requires ordered { Pairwise goes_first (paged pages.now) }
    requires full { AreFull pages.now }
    requires room { length (paged pages.now) < 2 ^ 32 }
    ensures { IfOk result (λ v. v.items ≡ filter (λ c. (c.file == file) && is_share c.what) (paged pages.now)) }
{
    let (start, end) = places(pages, &[u64::from(file), 0]);
    let shares = between(alloc, pages, start, end)?;
    Ok(shares)
}

/// The shares on the file.
#[tactic(auto, using(crate::proofs::FileLaws::ordered_here, crate::proofs::FileLaws::room_here))]
pub(crate) fn shares_on(
    alloc: Global,
    lists: &[OnFile],
    file: u32,
) -> Result<Vec<Claim>, AllocError>
    requires filed { IsFiled lists.now }
    requires ordered { Pairwise goes_first (joined lists.now) }
    requires room { length (joined lists.now) ≤ most_claims }
    ensures { IfOk result (λ v. v.items ≡ filter (λ c. (c.file == file) && is_share c.what) (joined lists.now)) }
{
    let shares = shares_in(alloc, on_file(lists, file), file)?;
    Ok(shares)
}

/// The caches among a file's claims.
fn caches_in(alloc: Global, pages: &[Page], file: u32) -> Result<Vec<Claim>, AllocError>
    requires ordered { Pairwise goes_first (paged pages.now) }
    requires full { AreFull pages.now }
    requires room { length (paged pages.now) < 2 ^ 32 }
    ensures { IfOk result (λ v. v.items ≡ filter (λ c. (c.file == file) && is_cache c.what) (paged pages.now)) }
{
    let (start, end) = places(pages, &[u64::from(file), 2]);
    let caches = between(alloc, pages, start, end)?;
    Ok(caches)
}

/// The caches on the file.
#[tactic(auto, using(crate::proofs::FileLaws::ordered_here, crate::proofs::FileLaws::room_here))]
pub(crate) fn caches_on(
    alloc: Global,
    lists: &[OnFile],
    file: u32,
) -> Result<Vec<Claim>, AllocError>
    requires filed { IsFiled lists.now }
    requires ordered { Pairwise goes_first (joined lists.now) }
    requires room { length (joined lists.now) ≤ most_claims }
    ensures { IfOk result (λ v. v.items ≡ filter (λ c. (c.file == file) && is_cache c.what) (joined lists.now)) }
{
    let caches = caches_in(alloc, on_file(lists, file), file)?;
    Ok(caches)
}

/// Whether the last of a file's claims is a cache.
fn last_is_cache(pages: &[Page]) -> bool
    requires some { 0 < length pages.now }
    requires full { AreFull pages.now }
    ensures { result ≡ ends_in_cache (paged pages.now) }
{
    let last = pages.len() - 1;
    pages[last].ends_in_cache()
}

/// Whether there is a cache among a file's claims: caches stand behind all others.
#[tactic(auto, using(crate::proofs::CacheLaws::cache_is_last))]
fn is_cache_in(pages: &[Page], file: u32) -> bool
    requires own { AreOn file (paged pages.now) }
    requires ordered { Pairwise goes_first (paged pages.now) }
    requires full { AreFull pages.now }
    ensures { result ≡ list_any (λ c. (c.file == file) && is_cache c.what) (paged pages.now) }
{
    if pages.is_empty() {
        return false;
    }
    last_is_cache(pages)
}

/// Whether there is a cache on the file.
#[tactic(auto, using(crate::proofs::FileLaws::ordered_here, crate::proofs::FileLaws::own_here))]
pub(crate) fn has_cache(lists: &[OnFile], file: u32) -> bool
    requires filed { IsFiled lists.now }
    requires ordered { Pairwise goes_first (joined lists.now) }
    requires room { length (joined lists.now) ≤ most_claims }
    ensures { result ≡ list_any (λ c. (c.file == file) && is_cache c.what) (joined lists.now) }
{
    is_cache_in(on_file(lists, file), file)
}

pub(crate) fn group_of(file: u32, class: u64, owner: Owner) -> [u64; 5]
    ensures { result ≡ group file class owner }
{
    let [protocol, number, sort] = key_of_owner(owner);
    [u64::from(file), class, protocol, number, sort]
}

pub(crate) fn party_group(file: u32, party: Party) -> [u64; 5]
    ensures { result ≡ party_group file party }
{
    let [protocol, number, sort] = key_of_party(party);
    [u64::from(file), 2, protocol, number, sort]
}

/// Where the owner's shares on the file (class 0), or its ranges there (class 1), begin and end.
pub(crate) fn group_places(pages: &[Page], file: u32, class: u64, owner: Owner) -> (usize, usize)
    requires ordered { Pairwise goes_first (paged pages.now) }
    requires full { AreFull pages.now }
    requires room { length (paged pages.now) < 2 ^ 32 }
    ensures start { result.0 ≡ prefix_len (is_before (group file class owner)) (paged pages.now) }
    ensures end { result.1 ≡ prefix_len (is_upto (group file class owner)) (paged pages.now) }
    ensures order { result.0 ≤ result.1 }
    ensures within { result.1 ≤ length (paged pages.now) }
{
    places(pages, &group_of(file, class, owner))
}

/// The owner's ranges among a file's claims.
#[tactic(auto, using(crate::proofs::SectionLaws::range_section))]
fn ranges_in(
    alloc: Global,
    pages: &[Page],
    file: u32,
    owner: Owner,
) -> Result<Vec<Claim>, AllocError>
    requires ordered { Pairwise goes_first (paged pages.now) }
    requires full { AreFull pages.now }
    requires room { length (paged pages.now) < 2 ^ 32 }
    ensures { IfOk result (λ v. v.items ≡ filter (is_range_of file owner) (paged pages.now)) }
{
    let (start, end) = group_places(pages, file, 1, owner);
    let ranges = between(alloc, pages, start, end)?;
    Ok(ranges)
}

/// The owner's ranges on the file.
#[tactic(auto, using(crate::proofs::FileLaws::ordered_here, crate::proofs::FileLaws::room_here))]
pub(crate) fn ranges_by(
    alloc: Global,
    lists: &[OnFile],
    file: u32,
    owner: Owner,
) -> Result<Vec<Claim>, AllocError>
    requires filed { IsFiled lists.now }
    requires ordered { Pairwise goes_first (joined lists.now) }
    requires room { length (joined lists.now) ≤ most_claims }
    ensures { IfOk result (λ v. v.items ≡ filter (is_range_of file owner) (joined lists.now)) }
{
    let ranges = ranges_in(alloc, on_file(lists, file), file, owner)?;
    Ok(ranges)
}

/// The first of the claims from one place to before another, if there is one.
#[tactic(auto, using(crate::proofs::SectionLaws::range_first, crate::proofs::SectionLaws::range_none))]
fn first_between(pages: &[Page], start: usize, end: usize) -> Option<Claim>
    ensures { result ≡ slice_get (slice_range (paged pages.now) start end) 0 }
{
    if start < end {
        claim_at(pages, start)
    } else {
        None
    }
}

/// The owner's first share among a file's claims.
fn share_in(pages: &[Page], file: u32, owner: Owner) -> Option<Claim>
    requires ordered { Pairwise goes_first (paged pages.now) }
    requires full { AreFull pages.now }
    requires room { length (paged pages.now) < 2 ^ 32 }
    ensures { result ≡ find (is_share_of file owner) (paged pages.now) }
{
    let (start, end) = group_places(pages, file, 0, owner);
    first_between(pages, start, end)
}

/// The owner's first share on the file.
#[tactic(auto, using(crate::proofs::FileLaws::ordered_here, crate::proofs::FileLaws::room_here, crate::proofs::SectionLaws::share_here))]
pub(crate) fn find_share(lists: &[OnFile], file: u32, owner: Owner) -> Option<Claim>
    requires filed { IsFiled lists.now }
    requires ordered { Pairwise goes_first (joined lists.now) }
    requires room { length (joined lists.now) ≤ most_claims }
    ensures { result ≡ find (is_share_of file owner) (joined lists.now) }
{
    share_in(on_file(lists, file), file, owner)
}

/// Where the party's caches on the file begin and end.
fn party_places(pages: &[Page], file: u32, party: Party) -> (usize, usize)
    requires ordered { Pairwise goes_first (paged pages.now) }
    requires full { AreFull pages.now }
    requires room { length (paged pages.now) < 2 ^ 32 }
    ensures start { result.0 ≡ prefix_len (is_before (party_group file party)) (paged pages.now) }
    ensures end { result.1 ≡ prefix_len (is_upto (party_group file party)) (paged pages.now) }
{
    places(pages, &party_group(file, party))
}

/// The party's first cache among a file's claims.
fn cache_in(pages: &[Page], file: u32, party: Party) -> Option<Claim>
    requires ordered { Pairwise goes_first (paged pages.now) }
    requires full { AreFull pages.now }
    requires room { length (paged pages.now) < 2 ^ 32 }
    ensures { result ≡ find (is_cache_by file party) (paged pages.now) }
{
    let (start, end) = party_places(pages, file, party);
    first_between(pages, start, end)
}

/// The party's first cache on the file.
#[tactic(auto, using(crate::proofs::FileLaws::ordered_here, crate::proofs::FileLaws::room_here, crate::proofs::DropLaws::cache_here))]
pub(crate) fn find_cache(lists: &[OnFile], file: u32, party: Party) -> Option<Claim>
    requires filed { IsFiled lists.now }
    requires ordered { Pairwise goes_first (joined lists.now) }
    requires room { length (joined lists.now) ≤ most_claims }
    ensures { result ≡ find (is_cache_by file party) (joined lists.now) }
{
    cache_in(on_file(lists, file), file, party)
}
