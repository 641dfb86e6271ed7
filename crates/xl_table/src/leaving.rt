//! What is done, and listed, file by file: only those files are gone through on which the index says that someone stands.
ghost use Rattle.std.specs.Prelude.{◌≡◌, ◌≤◌, ◌<◌, ◌^◌, ◌&&◌, ◌++◌, Bool, [], ◌∷◌, false, true, not, List, length, take, drop, slice_range, IfOk};
ghost use Rattle.std.specs.List.{AllByRecursion, filter};
ghost use Rattle.xl_base.specs.Lists.{Pairwise};
ghost use Rattle.xl_index.specs.Index.{Has, HasLeft, IsIndexOf};
ghost use Rattle.xl_index.specs.Stands.{is_by};
ghost use Rattle.xl_matrix.specs.Equal.{same_parties};
ghost use Rattle.xl_matrix.specs.declared.claim.Claim.{Claim};
ghost use Rattle.xl_table.specs.Files.{joined, AreOn, IsFiled};
ghost use Rattle.xl_table.specs.Held.{most_claims};
ghost use Rattle.xl_table.specs.Leaving.{goes, goes_on, in_group, owned, all_owned, earlier, IsNextLeft};
ghost use Rattle.xl_table.specs.declared.leaver.Leaver.TheVariants as Leaver;
ghost use Rattle.xl_table.specs.Order.{goes_first};
ghost use Rattle.xl_table.specs.Pages.{paged, AreFull};

use crate::files::{OnFile, find_file, on_file};
use crate::leaver::{Leaver, goes};
use crate::listing::{drop_in, push_party_in};
use crate::page::Page;
use crate::pages::take_between;
use crate::section::{few_places, group_of, party_group};
use std::alloc::{AllocError, Global};
use xl_base::{Owner, Party};
use xl_index::{Index, leave_all, who_of, who_opens};
use xl_matrix::Claim;

/// Takes a claim out of the index, if it goes.
#[tactic(auto, using(crate::proofs::LeavingLaws::one_goes, crate::proofs::LeavingLaws::one_stays, crate::proofs::LeavingLaws::one_has))]
fn leave_one(index: &mut Index, claim: &Claim, leaver: Leaver)
    requires { Has index.old (filter (goes leaver) (claim.now ∷ [])) }
    ensures { HasLeft index.old index.new (filter (goes leaver) (claim.now ∷ [])) }
{
    if goes(leaver, claim) {
        index.leave(claim);
    }
}

/// Takes those of these claims out of the index that go.
#[tactic(auto, using(crate::proofs::LeavingLaws::claim_first, crate::proofs::LeavingLaws::claim_rest, crate::proofs::LeavingLaws::claim_both, crate::proofs::IndexedLaws::none_left))]
fn leave_page(index: &mut Index, claims: &[Claim], leaver: Leaver)
    requires { Has index.old (filter (goes leaver) claims.now) }
    ensures { HasLeft index.old index.new (filter (goes leaver) claims.now) }
{
    if let [claim, rest @ ..] = claims {
        leave_one(index, claim, leaver);
        leave_page(index, rest, leaver);
    }
}

/// Takes those of the claims in these pages out of the index that go.
#[tactic(auto, using(crate::proofs::LeavingLaws::first_has, crate::proofs::LeavingLaws::rest_has, crate::proofs::LeavingLaws::both_left, crate::proofs::IndexedLaws::none_left))]
fn leave_file(index: &mut Index, pages: &[Page], leaver: Leaver)
    requires { Has index.old (filter (goes leaver) (paged pages.now)) }
    ensures { HasLeft index.old index.new (filter (goes leaver) (paged pages.now)) }
{
    if let [page, rest @ ..] = pages {
        leave_page(index, page.as_slice(), leaver);
        leave_file(index, rest, leaver);
    }
}

/// Takes the claims from one place to before another out of the index.
#[tactic(auto, using(crate::proofs::IndexedLaws::none_left))]
fn leave_between(index: &mut Index, pages: &[Page], start: usize, end: usize)
    requires order { start ≤ end }
    requires within { end ≤ length (paged pages.now) }
    requires has { Has index.old (slice_range (paged pages.now) start end) }
    ensures { HasLeft index.old index.new (slice_range (paged pages.now) start end) }
{
    if let [page, rest @ ..] = pages {
        let len = page.len();
        if len <= start {
            leave_between(index, rest, start - len, end - len);
        } else if end <= len {
            leave_all(index, &page.as_slice()[start..end]);
        } else {
            leave_all(index, &page.as_slice()[start..]);
            leave_between(index, rest, 0, end - len);
        }
    }
}

/// Takes out the claims from one place to before another, if there are any between.
fn drop_between(pages: &mut Vec<Page>, index: &mut Index, start: usize, end: usize)
    requires order { start ≤ end }
    requires within { end ≤ length (paged pages.old.items) }
    requires full { AreFull pages.old.items }
    requires has { Has index.old (slice_range (paged pages.old.items) start end) }
    ensures taken { paged pages.new.items ≡ take start (paged pages.old.items) ++ drop end (paged pages.old.items) }
    ensures full { AreFull pages.new.items }
    ensures index { HasLeft index.old index.new (slice_range (paged pages.old.items) start end) }
{
    if start < end {
        leave_between(index, pages.as_slice(), start, end);
        take_between(pages, start, end);
    }
}

/// Takes out a file's claims whose numbers begin with these.
fn drop_group(pages: &mut Vec<Page>, index: &mut Index, front: &[u64])
    requires ordered { Pairwise goes_first (paged pages.old.items) }
    requires full { AreFull pages.old.items }
    requires room { length (paged pages.old.items) < 2 ^ 32 }
    requires has { Has index.old (filter (in_group front.now) (paged pages.old.items)) }
    ensures claims { paged pages.new.items ≡ filter (λ c. not (in_group front.now c)) (paged pages.old.items) }
    ensures full { AreFull pages.new.items }
    ensures index { HasLeft index.old index.new (filter (in_group front.now) (paged pages.old.items)) }
{
    let (start, end) = few_places(pages.as_slice(), front);
    drop_between(pages, index, start, end);
}

/// Takes out an SMB open's share on a file, and its ranges there.
fn drop_owned(pages: &mut Vec<Page>, index: &mut Index, file: u32, number: u32)
    requires ordered { Pairwise goes_first (paged pages.old.items) }
    requires full { AreFull pages.old.items }
    requires room { length (paged pages.old.items) < 2 ^ 32 }
    requires has { Has index.old (filter (owned file number) (paged pages.old.items)) }
    ensures claims { paged pages.new.items ≡ filter (λ c. not (owned file number c)) (paged pages.old.items) }
    ensures full { AreFull pages.new.items }
    ensures index { HasLeft index.old index.new (filter (owned file number) (paged pages.old.items)) }
{
    drop_group(pages, index, &group_of(file, 0, Owner::Open(number)));
    drop_group(pages, index, &group_of(file, 1, Owner::Open(number)));
}

/// The same, and the caches that the party has there.
fn drop_all_owned(pages: &mut Vec<Page>, index: &mut Index, file: u32, number: u32, party: Party)
    requires ordered { Pairwise goes_first (paged pages.old.items) }
    requires full { AreFull pages.old.items }
    requires room { length (paged pages.old.items) < 2 ^ 32 }
    requires has { Has index.old (filter (all_owned file number party) (paged pages.old.items)) }
    ensures claims { paged pages.new.items ≡ filter (λ c. not (all_owned file number party c)) (paged pages.old.items) }
    ensures full { AreFull pages.new.items }
    ensures index { HasLeft index.old index.new (filter (all_owned file number party) (paged pages.old.items)) }
{
    drop_owned(pages, index, file, number);
    drop_group(pages, index, &party_group(file, party));
}

/// Takes out those of a file's claims that go with an SMB open, and with the party that goes with it, if one does.
fn drop_open_there(
    pages: &mut Vec<Page>,
    index: &mut Index,
    file: u32,
    number: u32,
    party: Option<Party>,
)
    requires own { AreOn file (paged pages.old.items) }
    requires ordered { Pairwise goes_first (paged pages.old.items) }
    requires full { AreFull pages.old.items }
    requires room { length (paged pages.old.items) < 2 ^ 32 }
    requires has { Has index.old (filter (goes (Leaver.Open number party)) (paged pages.old.items)) }
    ensures claims { paged pages.new.items ≡ filter (λ c. not (goes (Leaver.Open number party) c)) (paged pages.old.items) }
    ensures full { AreFull pages.new.items }
    ensures index { HasLeft index.old index.new (filter (goes (Leaver.Open number party)) (paged pages.old.items)) }
{
    match party {
        None => drop_owned(pages, index, file, number),
        Some(party) => drop_all_owned(pages, index, file, number, party),
    }
}

/// Takes out those of a file's claims that go: of an SMB open where they stand, of a party wherever they do.
fn drop_there(pages: &mut Vec<Page>, index: &mut Index, file: u32, leaver: Leaver)
    requires own { AreOn file (paged pages.old.items) }
    requires ordered { Pairwise goes_first (paged pages.old.items) }
    requires full { AreFull pages.old.items }
    requires room { length (paged pages.old.items) < 2 ^ 32 }
    requires has { Has index.old (filter (goes leaver) (paged pages.old.items)) }
    ensures claims { paged pages.new.items ≡ filter (λ c. not (goes leaver c)) (paged pages.old.items) }
    ensures full { AreFull pages.new.items }
    ensures index { HasLeft index.old index.new (filter (goes leaver) (paged pages.old.items)) }
{
    match leaver {
        Leaver::Party(_) => {
            leave_file(index, pages.as_slice(), leaver);
            drop_in(pages, leaver);
        }
        Leaver::Open(number, party) => drop_open_there(pages, index, file, number, party),
    }
}

/// Takes the claims on a file out that go.
fn drop_on(lists: &mut Vec<OnFile>, index: &mut Index, file: u32, leaver: Leaver)
    requires filed { IsFiled lists.old.items }
    requires ordered { Pairwise goes_first (joined lists.old.items) }
    requires room { length (joined lists.old.items) ≤ most_claims }
    requires index { IsIndexOf index.old (joined lists.old.items) }
    ensures claims { joined lists.new.items ≡ filter (λ c. not (goes_on leaver file c)) (joined lists.old.items) }
    ensures filed { IsFiled lists.new.items }
    ensures index { IsIndexOf index.new (joined lists.new.items) }
{
    if let Some(at) = find_file(lists.as_slice(), file) {
        drop_there(&mut lists[at].pages, index, file, leaver);
    }
}

/// Takes the claims out that go, on each file on which this one stands.
#[tactic(auto, using(crate::proofs::LeavingLaws::dropping_first, crate::proofs::LeavingLaws::dropping_more, crate::proofs::LeavingLaws::dropping_done, crate::proofs::LeavingLaws::fewer_left))]
fn drop_by(lists: &mut Vec<OnFile>, index: &mut Index, leaver: Leaver, who: u64)
    requires filed { IsFiled lists.old.items }
    requires ordered { Pairwise goes_first (joined lists.old.items) }
    requires room { length (joined lists.old.items) ≤ most_claims }
    requires index { IsIndexOf index.old (joined lists.old.items) }
    ensures gone { AllByRecursion (λ c. (goes leaver c && is_by who c) ≡ false) (joined lists.new.items) }
    ensures fewer { (p : Claim → Bool) → AllByRecursion (λ c. p c ≡ true) (joined lists.old.items) → AllByRecursion (λ c. p c ≡ true) (joined lists.new.items) }
    ensures still { filter (λ c. not (goes leaver c)) (joined lists.new.items) ≡ filter (λ c. not (goes leaver c)) (joined lists.old.items) }
    ensures filed { IsFiled lists.new.items }
    ensures ordered { Pairwise goes_first (joined lists.new.items) }
    ensures room { length (joined lists.new.items) ≤ most_claims }
    ensures index { IsIndexOf index.new (joined lists.new.items) }
{
    let mut past = None;
    'files: while let Some(file) = index.next_file(who, past) {
        drop_on(lists, index, file, leaver);
        past = Some(file);
    }
}

/// Takes the claims out that go with an SMB open, and with the party that goes with it, if one does.
fn drop_open(lists: &mut Vec<OnFile>, index: &mut Index, number: u32, party: Option<Party>)
    requires filed { IsFiled lists.old.items }
    requires ordered { Pairwise goes_first (joined lists.old.items) }
    requires room { length (joined lists.old.items) ≤ most_claims }
    requires index { IsIndexOf index.old (joined lists.old.items) }
    ensures claims { joined lists.new.items ≡ filter (λ held. not (goes (Leaver.Open number party) held)) (joined lists.old.items) }
    ensures filed { IsFiled lists.new.items }
    ensures index { IsIndexOf index.new (joined lists.new.items) }
{
    match party {
        None => drop_by(lists, index, Leaver::Open(number, None), who_opens(number)),
        Some(own) => {
            let leaver = Leaver::Open(number, Some(own));
            drop_by(lists, index, leaver, who_opens(number));
            drop_by(lists, index, leaver, who_of(own));
        }
    }
}

/// Takes the claims out that go.
pub(crate) fn drop_leaver(lists: &mut Vec<OnFile>, index: &mut Index, leaver: Leaver)
    requires filed { IsFiled lists.old.items }
    requires ordered { Pairwise goes_first (joined lists.old.items) }
    requires room { length (joined lists.old.items) ≤ most_claims }
    requires index { IsIndexOf index.old (joined lists.old.items) }
    ensures claims { joined lists.new.items ≡ filter (λ held. not (goes leaver held)) (joined lists.old.items) }
    ensures filed { IsFiled lists.new.items }
    ensures index { IsIndexOf index.new (joined lists.new.items) }
{
    match leaver {
        Leaver::Party(party) => drop_by(lists, index, leaver, who_of(party)),
        Leaver::Open(number, party) => drop_open(lists, index, number, party),
    }
}

/// The earlier of two files, as far as they are there.
fn earlier(one: Option<u32>, other: Option<u32>) -> Option<u32>
    ensures { result ≡ earlier one other }
{
    let Some(first) = one else {
        return other;
    };
    let Some(second) = other else {
        return one;
    };
    if first < second { one } else { other }
}

/// The first file, or the first past this one, from which something goes with an SMB open, or with the party that goes with it.
#[tactic(auto, using(crate::proofs::LeavingLaws::open_first, crate::proofs::LeavingLaws::both_first))]
fn next_open(index: &Index, number: u32, party: Option<Party>, past: Option<u32>) -> Option<u32>
    ensures { (cs : List Claim) → IsIndexOf index.now cs → IsNextLeft result (Leaver.Open number party) past cs }
{
    let owned = index.next_file(who_opens(number), past);
    match party {
        None => owned,
        Some(own) => earlier(owned, index.next_file(who_of(own), past)),
    }
}

/// The first file, or the first past this one, from which something goes with who leaves.
#[tactic(auto, using(crate::proofs::LeavingLaws::party_first))]
pub(crate) fn next_left(index: &Index, leaver: Leaver, past: Option<u32>) -> Option<u32>
    ensures { (cs : List Claim) → IsIndexOf index.now cs → IsNextLeft result leaver past cs }
{
    match leaver {
        Leaver::Party(party) => index.next_file(who_of(party), past),
        Leaver::Open(number, party) => next_open(index, number, party, past),
    }
}

/// Those of the party.
pub(crate) fn list_party(
    alloc: Global,
    lists: &[OnFile],
    index: &Index,
    party: Party,
) -> Result<Vec<Claim>, AllocError>
    requires filed { IsFiled lists.now }
    requires ordered { Pairwise goes_first (joined lists.now) }
    requires index { IsIndexOf index.now (joined lists.now) }
    ensures { IfOk result (λ v. v.items ≡ filter (λ held. same_parties held.party party) (joined lists.now)) }
{
    let who = who_of(party);
    let mut found = Vec::new(alloc);
    let mut past = None;
    'files: while let Some(file) = index.next_file(who, past) {
        push_party_in(alloc, &mut found, on_file(lists, file), party)?;
        past = Some(file);
    }
    Ok(found)
}
