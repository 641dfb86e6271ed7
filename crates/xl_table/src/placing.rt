//! Where a claim stands among those of its file.
ghost use Rattle.std.specs.Prelude.{◌≡◌, ◌+◌, ◌<◌, ◌≤◌, ◌^◌, ◌∷◌, ◌++◌, true, false, length, take, drop, vec_len, IfSome, IfNone, IsTrue, ◌↔◌, OnOk, OnErr};
ghost use Rattle.std.specs.List.{list_any, prefix_len, remove};
ghost use Rattle.xl_table.specs.Pages.{paged, AreFull, IsFoundAt};
ghost use Rattle.xl_matrix.specs.Equal.{same_claims};
ghost use Rattle.xl_base.specs.Lists.{IsIn, Pairwise};
ghost use Rattle.xl_table.specs.Order.{goes_first};
ghost use Rattle.xl_table.specs.Files.{joined, IsFiled, IsAt};
ghost use Rattle.xl_table.specs.Flat.{inserted, removed, changed, with_what};
ghost use Rattle.xl_table.specs.Held.{most_claims};
ghost use Rattle.xl_table.specs.Elements.{is_held, taken_back, CameLast};

use crate::files::{OnFile, find_file, on_file};
use crate::marks::Mark;
use crate::ordering::key_of;
use crate::page::Page;
use crate::pages::{count_front, count_passing, count_whole, move_claim, splice, take_between};
use std::alloc::AllocError;
use xl_matrix::{Claim, What, same_claim};

/// The place of a claim: behind all that stand no later.
#[tactic(auto, using(crate::proofs::SectionLaws::upto_parted, crate::proofs::PlaceLaws::placed_upto))]
pub(crate) fn place_of(pages: &[Page], claim: &Claim) -> usize
    requires ordered { Pairwise goes_first (paged pages.now) }
    requires full { AreFull pages.now }
    requires room { length (paged pages.now) < 2 ^ 32 }
    ensures count { result ≡ prefix_len (λ held. goes_first held claim.now) (paged pages.now) }
    ensures within { result ≤ length (paged pages.now) }
{
    let key = key_of(claim);
    count_passing(pages, Mark::Upto, &key)
}

/// The place of a claim once the one at this place is gone.
#[tactic(auto, using(crate::proofs::PlaceLaws::placed_without_early, crate::proofs::PlaceLaws::placed_without_late))]
fn place_without(pages: &[Page], place: usize, claim: &Claim) -> usize
    requires ordered { Pairwise goes_first (paged pages.now) }
    requires full { AreFull pages.now }
    requires room { length (paged pages.now) < 2 ^ 32 }
    requires place { place < length (paged pages.now) }
    ensures place { inserted claim.now (remove (paged pages.now) place) ≡ take result (remove (paged pages.now) place) ++ claim.now ∷ drop result (remove (paged pages.now) place) }
    ensures within { result < length (paged pages.now) }
{
    let all = place_of(pages, claim);
    if place < all { all - 1 } else { all }
}

/// The place of the first claim equal to this one, if there is one.
fn find_equal(claims: &[Claim], claim: &Claim) -> Option<usize>
    ensures found { IfSome result (λ i. (i < length claims.now) × (list_any (λ held. same_claims held claim.now) claims.now ≡ true) × (removed claim.now claims.now ≡ take i claims.now ++ drop (i + 1) claims.now)) }
    ensures none { IfNone result (list_any (λ held. same_claims held claim.now) claims.now ≡ false) }
{
    'claims: for (i, held) in claims.iter().enumerate() {
        if same_claim(held, claim) {
            return Some(i);
        }
    }
    None
}

/// The place of the first claim in these pages that is equal to this one, if there is one.
#[tactic(auto, using(crate::proofs::PlaceLaws::found_early, crate::proofs::PlaceLaws::found_late, crate::proofs::PlaceLaws::found_nowhere))]
fn find_from(pages: &[Page], claim: &Claim) -> Option<usize>
    requires { length (paged pages.now) < 2 ^ 32 }
    ensures found { IfSome result (λ i. IsFoundAt claim.now i (paged pages.now)) }
    ensures none { IfNone result (list_any (λ held. same_claims held claim.now) (paged pages.now) ≡ false) }
{
    match pages {
        [] => None,
        [page, rest @ ..] => match find_equal(page.as_slice(), claim) {
            Some(i) => Some(i),
            None => match find_from(rest, claim) {
                Some(i) => Some(page.len() + i),
                None => None,
            },
        },
    }
}

/// The same. It is looked for from that page on in which its numbers may stand first.
#[tactic(auto, using(crate::proofs::SectionLaws::before_parted))]
fn find_in(pages: &[Page], claim: &Claim) -> Option<usize>
    requires ordered { Pairwise goes_first (paged pages.now) }
    requires full { AreFull pages.now }
    requires room { length (paged pages.now) < 2 ^ 32 }
    ensures found { IfSome result (λ i. IsFoundAt claim.now i (paged pages.now)) }
    ensures none { IfNone result (list_any (λ held. same_claims held claim.now) (paged pages.now) ≡ false) }
{
    let key = key_of(claim);
    let at = count_whole(pages, Mark::Before, &key);
    let front = count_front(pages, at);
    match find_from(&pages[at..], claim) {
        Some(i) => Some(front + i),
        None => None,
    }
}

/// Whether one of the claims in these pages is equal to this one.
#[tactic(auto, using(crate::proofs::PlaceLaws::found_is_held))]
fn has_in(pages: &[Page], claim: &Claim) -> bool
    requires ordered { Pairwise goes_first (paged pages.now) }
    requires full { AreFull pages.now }
    requires room { length (paged pages.now) < 2 ^ 32 }
    ensures { result ≡ list_any (λ held. same_claims held claim.now) (paged pages.now) }
{
    match find_in(pages, claim) {
        Some(_) => true,
        None => false,
    }
}

/// Whether a claim is held.
#[tactic(auto, using(crate::proofs::FileLaws::ordered_here, crate::proofs::FileLaws::room_here))]
pub(crate) fn is_held(lists: &[OnFile], claim: &Claim) -> bool
    requires filed { IsFiled lists.now }
    requires ordered { Pairwise goes_first (joined lists.now) }
    requires room { length (joined lists.now) ≤ most_claims }
    ensures test { result ≡ is_held claim.now (joined lists.now) }
    ensures held { IsTrue result ↔ IsIn claim.now (joined lists.now) }
{
    has_in(on_file(lists, claim.file), claim)
}

/// Puts a claim at its place among its file's. After an error they are as they were.
#[tactic(auto, using(crate::proofs::PlaceLaws::put_at_place))]
fn put_in(pages: &mut Vec<Page>, claim: Claim) -> Result<(), AllocError>
    requires ordered { Pairwise goes_first (paged pages.old.items) }
    requires full { AreFull pages.old.items }
    requires room { length (paged pages.old.items) < 2 ^ 32 }
    ensures ok { OnOk result (paged pages.new.items ≡ inserted claim (paged pages.old.items)) }
    ensures err { OnErr result (paged pages.new.items ≡ paged pages.old.items) }
    ensures full { AreFull pages.new.items }
{
    let alloc = *pages.allocator();
    let place = place_of(pages.as_slice(), &claim);
    splice(alloc, pages, place, place, &[claim])?;
    Ok(())
}

/// Puts a claim at its place, if `at` is the place of its file's list. After an error the claims are as they were.
pub(crate) fn put(lists: &mut Vec<OnFile>, at: usize, claim: Claim) -> Result<(), AllocError>
    requires filed { IsFiled lists.old.items }
    requires at { IsAt claim.file at lists.old.items }
    requires within { at < vec_len lists.old }
    requires ordered { Pairwise goes_first (joined lists.old.items) }
    requires room { length (joined lists.old.items) ≤ most_claims }
    ensures ok { OnOk result (joined lists.new.items ≡ inserted claim (joined lists.old.items)) }
    ensures err { OnErr result (joined lists.new.items ≡ joined lists.old.items) }
    ensures filed { IsFiled lists.new.items }
{
    put_in(&mut lists[at].pages, claim)?;
    Ok(())
}

/// Takes out the first of a file's claims equal to this one, and answers whether there is one.
#[tactic(auto, using(crate::proofs::PlaceLaws::found_there, crate::proofs::PlaceLaws::found_is_held, crate::proofs::PlaceLaws::found_removed))]
fn take_from(pages: &mut Vec<Page>, claim: &Claim) -> bool
    requires ordered { Pairwise goes_first (paged pages.old.items) }
    requires full { AreFull pages.old.items }
    requires room { length (paged pages.old.items) < 2 ^ 32 }
    ensures claims { paged pages.new.items ≡ removed claim.now (paged pages.old.items) }
    ensures held { result ≡ list_any (λ held. same_claims held claim.now) (paged pages.old.items) }
    ensures full { AreFull pages.new.items }
{
    match find_in(pages.as_slice(), claim) {
        Some(place) => {
            take_between(pages, place, place + 1);
            true
        }
        None => false,
    }
}

/// Takes out the first claim equal to this one, and answers whether there is one.
pub(crate) fn take_out(lists: &mut Vec<OnFile>, claim: &Claim) -> bool
    requires filed { IsFiled lists.old.items }
    requires ordered { Pairwise goes_first (joined lists.old.items) }
    requires room { length (joined lists.old.items) ≤ most_claims }
    ensures claims { joined lists.new.items ≡ removed claim.now (joined lists.old.items) }
    ensures held { result ≡ list_any (λ held. same_claims held claim.now) (joined lists.old.items) }
    ensures filed { IsFiled lists.new.items }
{
    match find_file(lists.as_slice(), claim.file) {
        Some(at) => take_from(&mut lists[at].pages, claim),
        None => false,
    }
}

/// Takes out that of a file's claims which stands last of those no later than this one.
fn take_last(pages: &mut Vec<Page>, claim: &Claim)
    requires some { 0 < prefix_len (λ held. goes_first held claim.now) (paged pages.old.items) }
    requires ordered { Pairwise goes_first (paged pages.old.items) }
    requires full { AreFull pages.old.items }
    requires room { length (paged pages.old.items) < 2 ^ 32 }
    ensures claims { paged pages.new.items ≡ taken_back claim.now (paged pages.old.items) }
    ensures full { AreFull pages.new.items }
{
    let place = place_of(pages.as_slice(), claim);
    take_between(pages, place - 1, place);
}

/// Takes a claim back that was the last to come among its like.
pub(crate) fn take_back(lists: &mut Vec<OnFile>, claim: &Claim)
    requires filed { IsFiled lists.old.items }
    requires last { CameLast claim.now (joined lists.old.items) }
    requires room { length (joined lists.old.items) ≤ most_claims }
    ensures claims { joined lists.new.items ≡ taken_back claim.now (joined lists.old.items) }
    ensures filed { IsFiled lists.new.items }
{
    if let Some(at) = find_file(lists.as_slice(), claim.file) {
        take_last(&mut lists[at].pages, claim);
    }
}

/// Gives the first of a file's claims equal to this one something else to claim, and puts it at its place then.
#[tactic(auto, using(crate::proofs::PlaceLaws::found_there, crate::proofs::PlaceLaws::found_changed))]
fn replace_in(pages: &mut Vec<Page>, claim: &Claim, to: What)
    requires held { IsIn claim.now (paged pages.old.items) }
    requires ordered { Pairwise goes_first (paged pages.old.items) }
    requires full { AreFull pages.old.items }
    requires room { length (paged pages.old.items) < 2 ^ 32 }
    ensures changed { paged pages.new.items ≡ changed claim.now to (paged pages.old.items) }
    ensures full { AreFull pages.new.items }
{
    if let Some(place) = find_in(pages.as_slice(), claim) {
        let moved = Claim {
            file: claim.file,
            owner: claim.owner,
            party: claim.party,
            what: to,
        };
        let there = place_without(pages.as_slice(), place, &moved);
        move_claim(pages, place, there, moved);
    }
}

/// Gives the first claim equal to this one something else to claim, and puts it at its place then.
pub(crate) fn replace(lists: &mut Vec<OnFile>, claim: &Claim, to: What)
    requires filed { IsFiled lists.old.items }
    requires held { IsIn claim.now (joined lists.old.items) }
    requires ordered { Pairwise goes_first (joined lists.old.items) }
    requires room { length (joined lists.old.items) ≤ most_claims }
    ensures claims { joined lists.new.items ≡ changed claim.now to (joined lists.old.items) }
    ensures filed { IsFiled lists.new.items }
{
    if let Some(at) = find_file(lists.as_slice(), claim.file) {
        replace_in(&mut lists[at].pages, claim, to);
    }
}
