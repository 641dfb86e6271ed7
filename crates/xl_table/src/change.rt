//! What a grant or an unlock changes, worked out once and then written.
ghost use Rattle.std.specs.Prelude.{◌≡◌, ℕ, Bool, ◌+◌, ◌-◌, ◌≤◌, ◌<◌, ◌++◌, ◌∷◌, [], length, map, take, drop, true, None, Some, Option, IfOk, OnOk, OnErr, vec_len, vec_capacity, slice_range};
ghost use Rattle.std.specs.List.{AllByRecursion};
ghost use Rattle.xl_matrix.specs.Owners.{posix};
ghost use Rattle.xl_spans.specs.declared.span.Mode.{Mode};
ghost use Rattle.xl_table.specs.Held.{IsKept, IsGrantable, is_range, is_share, has_one_party, mode_of, most_claims};
ghost use Rattle.xl_table.specs.Relock.{relocked_in, shared_in, granted_claims};
ghost use Rattle.xl_table.specs.Files.{joined, IsFiled, IsAt, here};
ghost use Rattle.xl_table.specs.Flat.{inserted};
ghost use Rattle.xl_table.specs.Pages.{paged, AreFull};
ghost use Rattle.xl_table.specs.Changes.{spliced, written, IsOn, MayBeWritten};
ghost use Rattle.xl_table.specs.Order.{goes_first};
ghost use Rattle.xl_base.specs.Lists.{Pairwise};

use crate::files::{OnFile, on_file, open_file};
use crate::page::Page;
use crate::pages::{between, splice as splice_pages};
use crate::placing::place_of;
use crate::relock::{fresh_claims, mode_of, united};
use crate::section::group_places;
use crate::touching::touched_places;
use std::alloc::{AllocError, Global};
use xl_matrix::{Claim, Extent, What, is_posix};
use xl_spans::Mode;

/// What a grant or an unlock makes of a table's claims. It is worked out before it is written, so that the room that it
/// takes can be asked of it; it speaks of the claims that the table held then: of one file's, by their places among them.
#[derive(Drop)]
pub struct Change {
    file: u32,
    start: usize,
    end: usize,
    pub(crate) entered: Vec<Claim>,
    /// How many claims there are afterwards.
    pub held: usize,
}

/// A file's claims from one place to before another give way to these, if `count` claims are held on all files.
fn make_change(file: u32, count: usize, start: usize, end: usize, entered: Vec<Claim>) -> Change
    requires order { start ≤ end }
    requires within { end ≤ count }
    requires room { count ≤ most_claims }
    ensures file { result.file ≡ file }
    ensures start { result.start ≡ start }
    ensures end { result.end ≡ end }
    ensures entered { result.entered.items ≡ entered.items }
    ensures held { result.held + (end - start) ≡ count + length entered.items }
{
    let held = count - (end - start) + entered.len();
    Change {
        file,
        start,
        end,
        entered,
        held,
    }
}

/// The owner's range on the file locked in this mode, or unlocked at None. These are the file's claims, of `count` on all
/// files.
fn relock(
    alloc: Global,
    pages: &[Page],
    count: usize,
    ask: &Claim,
    first: u64,
    last: u64,
    mode: Option<Mode>,
) -> Result<Change, AllocError>
    requires full { AreFull pages.now }
    requires kept { IsKept (paged pages.now) }
    requires posix { posix ask.now.owner ≡ true }
    requires range { is_range ask.now.what ≡ true }
    requires ends { first ≤ last }
    requires party { AllByRecursion (λ c. has_one_party ask.now c ≡ true) (paged pages.now) }
    requires count { length (paged pages.now) ≤ count }
    requires room { count ≤ most_claims }
    ensures claims { IfOk result (λ change. spliced change (paged pages.now) ≡ relocked_in ask.now.file ask.now.owner ask.now.party first last mode (paged pages.now)) }
    ensures on { IfOk result (λ change. IsOn ask.now.file count (paged pages.now) change) }
{
    let (near, far) = touched_places(pages, ask.file, ask.owner, first, last);
    let touched = between(alloc, pages, near, far)?;
    let entered = fresh_claims(alloc, ask, &touched, first, last, mode)?;
    Ok(make_change(ask.file, count, near, far, entered))
}

fn one(alloc: Global, claim: Claim) -> Result<Vec<Claim>, AllocError>
    ensures { IfOk result (λ v. v.items ≡ claim ∷ []) }
{
    let mut claims = Vec::new(alloc);
    claims.push(claim)?;
    Ok(claims)
}

/// A share in the place of its owner's on the file, or united with it. These are the file's claims, of `count` on all files.
fn share(alloc: Global, pages: &[Page], count: usize, claim: &Claim) -> Result<Change, AllocError>
    requires full { AreFull pages.now }
    requires kept { IsKept (paged pages.now) }
    requires share { is_share claim.now.what ≡ true }
    requires count { length (paged pages.now) ≤ count }
    requires room { count ≤ most_claims }
    ensures claims { IfOk result (λ change. spliced change (paged pages.now) ≡ shared_in claim.now (paged pages.now)) }
    ensures on { IfOk result (λ change. IsOn claim.now.file count (paged pages.now) change) }
{
    let (start, end) = group_places(pages, claim.file, 0, claim.owner);
    let old = between(alloc, pages, start, end)?;
    let entered = one(alloc, united(claim, &old))?;
    Ok(make_change(claim.file, count, start, end, entered))
}

/// A range of an SMB open behind those that it has on the file. These are the file's claims, of `count` on all files.
fn element(alloc: Global, pages: &[Page], count: usize, claim: &Claim) -> Result<Change, AllocError>
    requires full { AreFull pages.now }
    requires kept { IsKept (paged pages.now) }
    requires count { length (paged pages.now) ≤ count }
    requires room { count ≤ most_claims }
    ensures claims { IfOk result (λ change. spliced change (paged pages.now) ≡ inserted claim.now (paged pages.now)) }
    ensures on { IfOk result (λ change. IsOn claim.now.file count (paged pages.now) change) }
{
    let place = place_of(pages, claim);
    let entered = one(alloc, *claim)?;
    Ok(make_change(claim.file, count, place, place, entered))
}

/// What a grant changes. These are the file's claims, of `count` on all files.
#[tactic(auto, unfolding(crate::specs::Relock::granted_claims))]
fn grant_on(
    alloc: Global,
    pages: &[Page],
    count: usize,
    claim: &Claim,
) -> Result<Change, AllocError>
    requires full { AreFull pages.now }
    requires kept { IsKept (paged pages.now) }
    requires grantable { IsGrantable claim.now }
    requires party { AllByRecursion (λ c. has_one_party claim.now c ≡ true) (paged pages.now) }
    requires count { length (paged pages.now) ≤ count }
    requires room { count ≤ most_claims }
    ensures claims { IfOk result (λ change. spliced change (paged pages.now) ≡ granted_claims claim.now (paged pages.now)) }
    ensures on { IfOk result (λ change. IsOn claim.now.file count (paged pages.now) change) }
{
    match claim.what {
        What::Share(_, _) => Ok(share(alloc, pages, count, claim)?),
        What::Range(Extent::Bytes(first, last), exclusive) => {
            if !is_posix(claim.owner) {
                return Ok(element(alloc, pages, count, claim)?);
            }
            let mode = Some(mode_of(exclusive));
            Ok(relock(alloc, pages, count, claim, first, last, mode)?)
        }
        What::Range(Extent::Empty(_), _) => Ok(element(alloc, pages, count, claim)?),
        What::Cache(_, _) => Ok(make_change(claim.file, count, 0, 0, Vec::new(alloc))),
    }
}

/// What a grant changes.
pub(crate) fn grant(
    alloc: Global,
    lists: &[OnFile],
    count: usize,
    claim: &Claim,
) -> Result<Change, AllocError>
    requires filed { IsFiled lists.now }
    requires kept { IsKept (joined lists.now) }
    requires count { count ≡ length (joined lists.now) }
    requires grantable { IsGrantable claim.now }
    requires party { AllByRecursion (λ c. has_one_party claim.now c ≡ true) (joined lists.now) }
    ensures claims { IfOk result (λ change. written change (joined lists.now) ≡ granted_claims claim.now (joined lists.now)) }
    ensures fits { IfOk result (λ change. MayBeWritten change (joined lists.now)) }
{
    let change = grant_on(alloc, on_file(lists, claim.file), count, claim)?;
    Ok(change)
}

/// What an unlock changes.
pub(crate) fn unlock(
    alloc: Global,
    lists: &[OnFile],
    count: usize,
    ask: &Claim,
    first: u64,
    last: u64,
) -> Result<Change, AllocError>
    requires filed { IsFiled lists.now }
    requires kept { IsKept (joined lists.now) }
    requires count { count ≡ length (joined lists.now) }
    requires posix { posix ask.now.owner ≡ true }
    requires range { is_range ask.now.what ≡ true }
    requires ends { first ≤ last }
    requires party { AllByRecursion (λ c. has_one_party ask.now c ≡ true) (joined lists.now) }
    ensures claims { IfOk result (λ change. written change (joined lists.now) ≡ relocked_in ask.now.file ask.now.owner ask.now.party first last None (joined lists.now)) }
    ensures fits { IfOk result (λ change. MayBeWritten change (joined lists.now)) }
{
    let pages = on_file(lists, ask.file);
    let change = relock(alloc, pages, count, ask, first, last, None)?;
    Ok(change)
}

/// Those claims that give way once the change is written.
pub(crate) fn gone_by(
    alloc: Global,
    lists: &[OnFile],
    change: &Change,
) -> Result<Vec<Claim>, AllocError>
    requires filed { IsFiled lists.now }
    requires fits { MayBeWritten change.now (joined lists.now) }
    ensures { IfOk result (λ v. v.items ≡ slice_range (here change.now.file (joined lists.now)) change.now.start change.now.end) }
{
    let gone = between(alloc, on_file(lists, change.file), change.start, change.end)?;
    Ok(gone)
}

/// Takes the claims from `start` to before `end` out.
pub(crate) fn take_between(claims: &mut Vec<Claim>, start: usize, end: usize)
    requires order { start ≤ end }
    requires within { end ≤ vec_len claims.old }
    ensures items { claims.new.items ≡ take start claims.old.items ++ drop end claims.old.items }
    ensures len { vec_len claims.new + (end - start) ≡ vec_len claims.old }
    ensures capacity { vec_capacity claims.new ≡ vec_capacity claims.old }
{
    drop(claims.drain(start..end));
}

/// Puts a claim, for which the list has room, at the place.
fn put_one(claims: &mut Vec<Claim>, place: usize, claim: Claim)
    requires place { place ≤ vec_len claims.old }
    requires room { vec_len claims.old < vec_capacity claims.old }
    ensures items { claims.new.items ≡ take place claims.old.items ++ claim ∷ drop place claims.old.items }
    ensures len { vec_len claims.new ≡ vec_len claims.old + 1 }
    ensures capacity { vec_capacity claims.new ≡ vec_capacity claims.old }
{
    let _ = claims.insert(place, claim);
}

/// Puts claims, for which the list has room, at the place.
pub(crate) fn put_all(claims: &mut Vec<Claim>, place: usize, entered: &[Claim])
    requires place { place ≤ vec_len claims.old }
    requires room { vec_len claims.old + length entered.now ≤ vec_capacity claims.old }
    ensures items { claims.new.items ≡ take place claims.old.items ++ (entered.now ++ drop place claims.old.items) }
    ensures len { vec_len claims.new ≡ vec_len claims.old + length entered.now }
    ensures capacity { vec_capacity claims.new ≡ vec_capacity claims.old }
{
    if let [claim, rest @ ..] = entered {
        put_all(claims, place, rest);
        put_one(claims, place, *claim);
    }
}

/// Changes a file's claims. After an error they are as they were.
#[tactic(auto, unfolding(crate::specs::Changes::spliced))]
fn splice(pages: &mut Vec<Page>, change: &Change) -> Result<(), AllocError>
    requires order { change.now.start ≤ change.now.end }
    requires within { change.now.end ≤ length (paged pages.old.items) }
    requires full { AreFull pages.old.items }
    ensures ok { OnOk result (paged pages.new.items ≡ spliced change.now (paged pages.old.items)) }
    ensures err { OnErr result (paged pages.new.items ≡ paged pages.old.items) }
    ensures full { AreFull pages.new.items }
{
    let alloc = *pages.allocator();
    splice_pages(alloc, pages, change.start, change.end, &change.entered)?;
    Ok(())
}

fn write_at(lists: &mut Vec<OnFile>, at: usize, change: &Change) -> Result<(), AllocError>
    requires filed { IsFiled lists.old.items }
    requires at { IsAt change.now.file at lists.old.items }
    requires bound { at < vec_len lists.old }
    requires fits { MayBeWritten change.now (joined lists.old.items) }
    ensures ok { OnOk result (joined lists.new.items ≡ written change.now (joined lists.old.items)) }
    ensures err { OnErr result (joined lists.new.items ≡ joined lists.old.items) }
    ensures filed { IsFiled lists.new.items }
{
    splice(&mut lists[at].pages, change)?;
    Ok(())
}

/// Writes the change. After an error the claims are as they were.
pub(crate) fn write(
    alloc: Global,
    lists: &mut Vec<OnFile>,
    change: &Change,
) -> Result<(), AllocError>
    requires filed { IsFiled lists.old.items }
    requires fits { MayBeWritten change.now (joined lists.old.items) }
    ensures ok { OnOk result (joined lists.new.items ≡ written change.now (joined lists.old.items)) }
    ensures err { OnErr result (joined lists.new.items ≡ joined lists.old.items) }
    ensures filed { IsFiled lists.new.items }
{
    let at = open_file(alloc, lists, change.file)?;
    write_at(lists, at, change)?;
    Ok(())
}
