//! A file's claims in pages: what is found in them, and what is put in and taken out.
ghost use Rattle.std.specs.Prelude.{◌≡◌, true, false, ℕ, ◌+◌, ◌-◌, ◌<◌, ◌≤◌, ◌^◌, ◌++◌, ◌∷◌, [], Some, length, take, drop, IfOk, OnOk, OnErr, slice_range, vec_len};
ghost use Rattle.std.specs.List.{prefix_len, remove, slice_get};
ghost use Rattle.std.proofs.Math.ListN.{set};
ghost use Rattle.xl_table.specs.Pages.{paged, AreFull, IsBehind, IsInside, IsThere, IsFullBut, IsShifting, passes, ends, count_at};
ghost use Rattle.xl_index.specs.Parted.{IsParted};
ghost use Rattle.xl_matrix.specs.declared.claim.Claim.{Claim};

use crate::marks::Mark;
use crate::page::Page;
use std::alloc::{AllocError, Global};
use xl_matrix::Claim;

/// With how many claims a page is cut in two before more are put in, and how many of them stay (TABLE-11).
const FULL: usize = 128;

const HALF: usize = 64;

/// How many claims there are.
pub(crate) fn count_claims(pages: &[Page]) -> usize
    requires { length (paged pages.now) < 2 ^ 32 }
    ensures { result ≡ length (paged pages.now) }
{
    let mut count = 0;
    for page in pages {
        count += page.len();
    }
    count
}

/// How many claims stand in the pages before this one.
#[tactic(auto, using(crate::proofs::PageLaws::front_within))]
pub(crate) fn count_front(pages: &[Page], at: usize) -> usize
    requires at { at ≤ length pages.now }
    requires room { length (paged pages.now) < 2 ^ 32 }
    ensures { result ≡ length (paged (take at pages.now)) }
{
    count_claims(&pages[..at])
}

/// Whether the last page passes the mark with all its claims, and so all do.
#[tactic(auto, using(crate::proofs::PageLaws::last_whole))]
fn last_ends(pages: &[Page], mark: Mark, front: &[u64]) -> bool
    requires full { AreFull pages.now }
    requires parted { IsParted (passes mark front.now) (paged pages.now) }
    ensures { result ≡ true → prefix_len (ends (passes mark front.now)) pages.now ≡ length pages.now }
{
    if pages.is_empty() {
        return false;
    }
    let last = pages.len() - 1;
    pages[last].ends(mark, front)
}

/// How many pages pass the mark with all their claims.
pub(crate) fn count_whole(pages: &[Page], mark: Mark, front: &[u64]) -> usize
    requires full { AreFull pages.now }
    requires parted { IsParted (passes mark front.now) (paged pages.now) }
    ensures count { result ≡ prefix_len (ends (passes mark front.now)) pages.now }
    ensures within { result ≤ length pages.now }
{
    if last_ends(pages, mark, front) {
        return pages.len();
    }
    pages.partition_point(|page| page.ends(mark, front))
}

/// How many claims of the page at this place pass the mark.
#[tactic(auto, using(crate::proofs::PageLaws::parted_at, crate::proofs::PageLaws::counted_at, crate::proofs::PageLaws::counted_past))]
fn count_at(pages: &[Page], at: usize, mark: Mark, front: &[u64]) -> usize
    requires parted { IsParted (passes mark front.now) (paged pages.now) }
    ensures count { result ≡ count_at (passes mark front.now) pages.now at }
{
    if at < pages.len() {
        pages[at].count(mark, front)
    } else {
        0
    }
}

/// How many claims pass the mark.
pub(crate) fn count_passing(pages: &[Page], mark: Mark, front: &[u64]) -> usize
    requires full { AreFull pages.now }
    requires room { length (paged pages.now) < 2 ^ 32 }
    requires parted { IsParted (passes mark front.now) (paged pages.now) }
    ensures count { result ≡ prefix_len (passes mark front.now) (paged pages.now) }
    ensures within { result ≤ length (paged pages.now) }
{
    let at = count_whole(pages, mark, front);
    count_front(pages, at) + count_at(pages, at, mark, front)
}

/// How many claims pass the mark, if those are known to that stand before the place in this page: the others of the
/// page are looked at one by one, and the pages behind it by bisection, if all of these pass.
#[tactic(auto, using(crate::proofs::AlongLaws::there_fits))]
fn count_on(
    pages: &[Page],
    at: usize,
    left: usize,
    known: usize,
    mark: Mark,
    front: &[u64],
) -> usize
    requires full { AreFull pages.now }
    requires room { length (paged pages.now) < 2 ^ 32 }
    requires parted { IsParted (passes mark front.now) (paged pages.now) }
    requires there { at < length pages.now → IsThere at left pages.now }
    requires sum { known ≡ length (paged (take at pages.now)) + left }
    requires known { known ≤ prefix_len (passes mark front.now) (paged pages.now) }
    ensures count { result ≡ prefix_len (passes mark front.now) (paged pages.now) }
    ensures within { result ≤ length (paged pages.now) }
{
    if at < pages.len() {
        let page = &pages[at];
        let more = page.count_from(left, mark, front);
        if left + more < page.len() {
            return known + more;
        }
    }
    count_passing(pages, mark, front)
}

/// How many claims pass one mark, and how many a later one.
#[tactic(auto, using(crate::proofs::AlongLaws::there_counted))]
pub(crate) fn count_both(pages: &[Page], near: Mark, far: Mark, front: &[u64]) -> (usize, usize)
    requires full { AreFull pages.now }
    requires room { length (paged pages.now) < 2 ^ 32 }
    requires near { IsParted (passes near front.now) (paged pages.now) }
    requires far { IsParted (passes far front.now) (paged pages.now) }
    requires order { prefix_len (passes near front.now) (paged pages.now) ≤ prefix_len (passes far front.now) (paged pages.now) }
    ensures near { result.0 ≡ prefix_len (passes near front.now) (paged pages.now) }
    ensures far { result.1 ≡ prefix_len (passes far front.now) (paged pages.now) }
    ensures within { result.1 ≤ length (paged pages.now) }
{
    let at = count_whole(pages, near, front);
    let left = count_at(pages, at, near, front);
    let known = count_front(pages, at) + left;
    (known, count_on(pages, at, left, known, far, front))
}

/// The first claim that does not pass the mark, if there is one.
#[tactic(auto, using(crate::proofs::PageLaws::parted_at, crate::proofs::PageLaws::failing_in, crate::proofs::PageLaws::failing_past))]
pub(crate) fn first_failing(pages: &[Page], mark: Mark, front: &[u64]) -> Option<Claim>
    requires full { AreFull pages.now }
    requires parted { IsParted (passes mark front.now) (paged pages.now) }
    ensures { result ≡ slice_get (paged pages.now) (prefix_len (passes mark front.now) (paged pages.now)) }
{
    let at = count_whole(pages, mark, front);
    if at < pages.len() {
        pages[at].first_failing(mark, front)
    } else {
        None
    }
}

/// The claim at this place.
#[tactic(auto, using(crate::proofs::PageLaws::get_early, crate::proofs::PageLaws::get_late))]
pub(crate) fn claim_at(pages: &[Page], place: usize) -> Option<Claim>
    ensures { result ≡ slice_get (paged pages.now) place }
{
    match pages {
        [] => None,
        [page, rest @ ..] => {
            if place < page.len() {
                page.as_slice().get(place).copied()
            } else {
                claim_at(rest, place - page.len())
            }
        }
    }
}

/// Adds a page's claims from a place on.
fn push_tail(found: &mut Vec<Claim>, page: &Page, start: usize) -> Result<(), AllocError>
    requires { start ≤ length page.now }
    ensures { OnOk result (found.new.items ≡ found.old.items ++ drop start page.now) }
{
    found.extend_from_slice(&page.as_slice()[start..])?;
    Ok(())
}

/// Adds a page's claims from one place to before another.
fn push_part(
    found: &mut Vec<Claim>,
    page: &Page,
    start: usize,
    end: usize,
) -> Result<(), AllocError>
    requires order { start ≤ end }
    requires within { end ≤ length page.now }
    ensures { OnOk result (found.new.items ≡ found.old.items ++ slice_range page.now start end) }
{
    found.extend_from_slice(&page.as_slice()[start..end])?;
    Ok(())
}

/// Adds the claims from one place to before another.
#[tactic(auto, using(crate::proofs::PageLaws::range_late_by, crate::proofs::PageLaws::range_early, crate::proofs::PageLaws::range_across_by))]
fn push_between(
    found: &mut Vec<Claim>,
    pages: &[Page],
    start: usize,
    end: usize,
) -> Result<(), AllocError>
    requires order { start ≤ end }
    requires within { end ≤ length (paged pages.now) }
    ensures { OnOk result (found.new.items ≡ found.old.items ++ slice_range (paged pages.now) start end) }
{
    match pages {
        [] => Ok(()),
        [page, rest @ ..] => {
            let len = page.len();
            if len <= start {
                push_between(found, rest, start - len, end - len)?;
                Ok(())
            } else if end <= len {
                push_part(found, page, start, end)?;
                Ok(())
            } else {
                push_tail(found, page, start)?;
                push_between(found, rest, 0, end - len)?;
                Ok(())
            }
        }
    }
}

/// The claims from one place to before another.
#[tactic(auto, using(crate::proofs::AlongLaws::nothing_between))]
pub(crate) fn between(
    alloc: Global,
    pages: &[Page],
    start: usize,
    end: usize,
) -> Result<Vec<Claim>, AllocError>
    requires order { start ≤ end }
    requires within { end ≤ length (paged pages.now) }
    ensures { IfOk result (λ v. v.items ≡ slice_range (paged pages.now) start end) }
{
    if start == end {
        return Ok(Vec::new(alloc));
    }
    let mut found = Vec::with_capacity(alloc, end - start)?;
    push_between(&mut found, pages, start, end)?;
    Ok(found)
}

/// Whether the page at this place has no more claims than so many.
#[tactic(auto, using(crate::proofs::PageLaws::behind_at, crate::proofs::PageLaws::inside_at))]
fn lies_behind(pages: &[Page], at: usize, left: usize) -> bool
    ensures yes { result ≡ true → IsBehind at left pages.now }
    ensures no { result ≡ false → at < length pages.now → IsInside at left pages.now }
{
    at < pages.len() && pages[at].len() <= left
}

/// The page in which a place lies, and the place there; behind all claims there is no page.
#[tactic(auto, using(crate::proofs::PageLaws::behind_within, crate::proofs::PageLaws::behind_len, crate::proofs::PageLaws::front_more))]
fn locate(pages: &[Page], place: usize) -> (usize, usize)
    ensures sum { place ≡ length (paged (take result.0 pages.now)) + result.1 }
    ensures at { result.0 ≤ length pages.now }
    ensures inside { result.0 < length pages.now → IsInside result.0 result.1 pages.now }
{
    let mut at = 0;
    let mut left = place;
    'pages: while lies_behind(pages, at, left) {
        left -= pages[at].len();
        at += 1;
    }
    (at, left)
}

/// Where a place lies in a page: in the last one if it is behind all claims.
#[tactic(auto, using(crate::proofs::PageLaws::inside_there, crate::proofs::PageLaws::last_there, crate::proofs::PageLaws::last_sum))]
fn find_seat(pages: &[Page], place: usize) -> (usize, usize)
    requires some { 0 < length pages.now }
    requires within { place ≤ length (paged pages.now) }
    ensures sum { place ≡ length (paged (take result.0 pages.now)) + result.1 }
    ensures at { result.0 < length pages.now }
    ensures there { IsThere result.0 result.1 pages.now }
{
    let (at, left) = locate(pages, place);
    if at < pages.len() {
        return (at, left);
    }
    let last = pages.len() - 1;
    (last, pages[last].len())
}

/// Makes two pages of one. After an error the pages are as they were.
fn halve(pages: &mut Vec<Page>, at: usize) -> Result<(), AllocError>
    requires at { at < vec_len pages.old }
    requires long { IsThere at 128 pages.old.items }
    requires full { AreFull pages.old.items }
    ensures same { paged pages.new.items ≡ paged pages.old.items }
    ensures full { AreFull pages.new.items }
{
    let tail = pages[at].tail(HALF)?;
    pages.insert(at + 1, tail)?;
    let len = pages[at].len();
    pages[at].take_out(HALF, len);
    Ok(())
}

/// Puts claims in at a place of a page. After an error the claims are as they were.
#[tactic(auto, using(crate::proofs::PageLaws::there_fits))]
fn put_there(
    pages: &mut Vec<Page>,
    at: usize,
    left: usize,
    entered: &[Claim],
) -> Result<(), AllocError>
    requires at { at < vec_len pages.old }
    requires there { IsThere at left pages.old.items }
    requires full { AreFull pages.old.items }
    ensures ok { (place : ℕ) → OnOk result (place ≡ length (paged (take at pages.old.items)) + left → paged pages.new.items ≡ take place (paged pages.old.items) ++ (entered.now ++ drop place (paged pages.old.items))) }
    ensures err { OnErr result (paged pages.new.items ≡ paged pages.old.items) }
    ensures full { AreFull pages.new.items }
{
    pages[at].put(left, entered)?;
    Ok(())
}

/// Whether the page is full.
#[tactic(auto, using(crate::proofs::PageLaws::there_at))]
fn is_full(pages: &[Page], at: usize) -> bool
    requires { at < length pages.now }
    ensures { result ≡ true → IsThere at 128 pages.now }
{
    FULL <= pages[at].len()
}

/// Makes two pages of the one in which a place lies, if it is full. After an error the claims are as they were.
#[tactic(auto, using(crate::proofs::PageLaws::some_still))]
fn make_room(pages: &mut Vec<Page>, place: usize) -> Result<(), AllocError>
    requires some { 0 < length pages.old.items }
    requires within { place ≤ length (paged pages.old.items) }
    requires full { AreFull pages.old.items }
    ensures same { paged pages.new.items ≡ paged pages.old.items }
    ensures full { AreFull pages.new.items }
    ensures some { 0 < length pages.new.items }
{
    let (at, _) = find_seat(pages.as_slice(), place);
    if is_full(pages.as_slice(), at) {
        halve(pages, at)?;
    }
    Ok(())
}

/// Puts claims in at a place that lies in a full page, once that is made two. After an error the claims are as they were.
fn put_halved(pages: &mut Vec<Page>, place: usize, entered: &[Claim]) -> Result<(), AllocError>
    requires some { 0 < length pages.old.items }
    requires within { place ≤ length (paged pages.old.items) }
    requires full { AreFull pages.old.items }
    ensures ok { OnOk result (paged pages.new.items ≡ take place (paged pages.old.items) ++ (entered.now ++ drop place (paged pages.old.items))) }
    ensures err { OnErr result (paged pages.new.items ≡ paged pages.old.items) }
    ensures full { AreFull pages.new.items }
{
    make_room(pages, place)?;
    let (at, left) = find_seat(pages.as_slice(), place);
    put_there(pages, at, left, entered)?;
    Ok(())
}

/// Puts claims in at a place, if there are some already. After an error the claims are as they were.
fn put_among(pages: &mut Vec<Page>, place: usize, entered: &[Claim]) -> Result<(), AllocError>
    requires some { 0 < length pages.old.items }
    requires within { place ≤ length (paged pages.old.items) }
    requires full { AreFull pages.old.items }
    ensures ok { OnOk result (paged pages.new.items ≡ take place (paged pages.old.items) ++ (entered.now ++ drop place (paged pages.old.items))) }
    ensures err { OnErr result (paged pages.new.items ≡ paged pages.old.items) }
    ensures full { AreFull pages.new.items }
{
    let (at, left) = find_seat(pages.as_slice(), place);
    if is_full(pages.as_slice(), at) {
        put_halved(pages, place, entered)?;
    } else {
        put_there(pages, at, left, entered)?;
    }
    Ok(())
}

/// Puts the first claims in. After an error there are none.
fn put_first(alloc: Global, pages: &mut Vec<Page>, entered: &[Claim]) -> Result<(), AllocError>
    requires none { length pages.old.items ≡ 0 }
    requires some { 0 < length entered.now }
    ensures ok { OnOk result (paged pages.new.items ≡ entered.now) }
    ensures err { OnErr result (paged pages.new.items ≡ []) }
    ensures full { AreFull pages.new.items }
{
    let page = Page::of(Vec::from_slice(alloc, entered)?);
    pages.push(page)?;
    Ok(())
}

/// Puts claims in at a place. After an error the claims are as they were.
#[tactic(auto, using(crate::proofs::PageLaws::first_put, crate::proofs::PageLaws::none_paged))]
fn put(
    alloc: Global,
    pages: &mut Vec<Page>,
    place: usize,
    entered: &[Claim],
) -> Result<(), AllocError>
    requires some { 0 < length entered.now }
    requires within { place ≤ length (paged pages.old.items) }
    requires full { AreFull pages.old.items }
    ensures ok { OnOk result (paged pages.new.items ≡ take place (paged pages.old.items) ++ (entered.now ++ drop place (paged pages.old.items))) }
    ensures err { OnErr result (paged pages.new.items ≡ paged pages.old.items) }
    ensures full { AreFull pages.new.items }
{
    if pages.as_slice().is_empty() {
        put_first(alloc, pages, entered)?;
    } else {
        put_among(pages, place, entered)?;
    }
    Ok(())
}

/// Takes a page out that has no claims left.
#[tactic(auto, using(crate::proofs::PageLaws::empty_out, crate::proofs::PageLaws::full_at_last))]
fn drop_empty(pages: &mut Vec<Page>, at: usize)
    requires at { at < length pages.old.items }
    requires full { IsFullBut at pages.old.items }
    ensures same { paged pages.new.items ≡ paged pages.old.items }
    ensures full { AreFull pages.new.items }
{
    if pages[at].len() == 0 {
        pages.remove(at);
    }
}

/// Takes claims out of a page.
#[tactic(auto, using(crate::proofs::PageLaws::there_fits, crate::proofs::PageLaws::full_but))]
fn take_from(pages: &mut Vec<Page>, at: usize, from: usize, to: usize)
    requires at { at < length pages.old.items }
    requires there { IsThere at to pages.old.items }
    requires order { from ≤ to }
    requires full { AreFull pages.old.items }
    ensures taken { (start : ℕ) → start ≡ length (paged (take at pages.old.items)) + from → paged pages.new.items ≡ take start (paged pages.old.items) ++ drop (start + (to - from)) (paged pages.old.items) }
    ensures full { IsFullBut at pages.new.items }
    ensures at { at < length pages.new.items }
{
    pages[at].take_out(from, to);
}

fn least(a: usize, b: usize) -> usize
    ensures left { result ≤ a }
    ensures right { result ≤ b }
    ensures some { 0 < a → 0 < b → 0 < result }
{
    if a < b { a } else { b }
}

/// How many claims a page has behind a place.
#[tactic(auto, using(crate::proofs::PageLaws::there_at, crate::proofs::PageLaws::inside_len))]
fn count_behind(pages: &[Page], at: usize, left: usize) -> usize
    requires inside { IsInside at left pages.now }
    requires at { at < length pages.now }
    ensures some { 0 < result }
    ensures there { (n : ℕ) → n ≤ result → IsThere at (left + n) pages.now }
    ensures fits { left + result < 2 ^ 64 }
{
    pages[at].len() - left
}

/// Takes some of the claims from one place to before another out, and answers how many.
#[tactic(auto, using(crate::proofs::PageLaws::located_within))]
fn take_some(pages: &mut Vec<Page>, start: usize, end: usize) -> usize
    requires order { start < end }
    requires within { end ≤ length (paged pages.old.items) }
    requires full { AreFull pages.old.items }
    ensures some { 0 < result }
    ensures most { result ≤ end - start }
    ensures taken { paged pages.new.items ≡ take start (paged pages.old.items) ++ drop (start + result) (paged pages.old.items) }
    ensures full { AreFull pages.new.items }
{
    let (at, left) = locate(pages.as_slice(), start);
    let n = least(end - start, count_behind(pages.as_slice(), at, left));
    take_from(pages, at, left, left + n);
    drop_empty(pages, at);
    n
}

/// Takes out the claims from one place to before another.
#[tactic(auto, using(crate::proofs::PageLaws::take_more, crate::proofs::PageLaws::take_done))]
pub(crate) fn take_between(pages: &mut Vec<Page>, start: usize, end: usize)
    requires order { start ≤ end }
    requires within { end ≤ length (paged pages.old.items) }
    requires full { AreFull pages.old.items }
    ensures taken { paged pages.new.items ≡ take start (paged pages.old.items) ++ drop end (paged pages.old.items) }
    ensures full { AreFull pages.new.items }
{
    let mut end = end;
    'claims: while start < end {
        let n = take_some(pages, start, end);
        end -= n;
    }
}

/// Puts claims in the place of those from one place to before another. After an error the claims are as they were.
#[tactic(auto, using(crate::proofs::PageLaws::spliced_is, crate::proofs::PageLaws::nothing_put, crate::proofs::PageLaws::put_length))]
pub(crate) fn splice(
    alloc: Global,
    pages: &mut Vec<Page>,
    start: usize,
    end: usize,
    entered: &[Claim],
) -> Result<(), AllocError>
    requires order { start ≤ end }
    requires within { end ≤ length (paged pages.old.items) }
    requires full { AreFull pages.old.items }
    ensures ok { OnOk result (paged pages.new.items ≡ take start (paged pages.old.items) ++ (entered.now ++ drop end (paged pages.old.items))) }
    ensures err { OnErr result (paged pages.new.items ≡ paged pages.old.items) }
    ensures full { AreFull pages.new.items }
{
    if !entered.is_empty() {
        put(alloc, pages, end, entered)?;
    }
    take_between(pages, start, end);
    Ok(())
}

/// Puts a claim in the place of one of a page.
#[tactic(auto, using(crate::proofs::PageLaws::inside_len))]
fn set_there(pages: &mut Vec<Page>, at: usize, left: usize, claim: Claim)
    requires at { at < length pages.old.items }
    requires inside { IsInside at left pages.old.items }
    requires full { AreFull pages.old.items }
    ensures set { (place : ℕ) → place ≡ length (paged (take at pages.old.items)) + left → paged pages.new.items ≡ set (paged pages.old.items) place claim }
    ensures full { AreFull pages.new.items }
{
    pages[at].set(left, claim);
}

/// Puts a claim in the place of another.
#[tactic(auto, using(crate::proofs::PageLaws::located_within))]
fn set(pages: &mut Vec<Page>, place: usize, claim: Claim)
    requires within { place < length (paged pages.old.items) }
    requires full { AreFull pages.old.items }
    ensures set { paged pages.new.items ≡ set (paged pages.old.items) place claim }
    ensures full { AreFull pages.new.items }
{
    let (at, left) = locate(pages.as_slice(), place);
    set_there(pages, at, left, claim);
}

/// Puts the claim at one place in that of another too.
fn copy(pages: &mut Vec<Page>, from: usize, to: usize)
    requires from { from < length (paged pages.old.items) }
    requires to { to < length (paged pages.old.items) }
    requires full { AreFull pages.old.items }
    ensures set { (x : Claim) → slice_get (paged pages.old.items) from ≡ Some x → paged pages.new.items ≡ set (paged pages.old.items) to x }
    ensures full { AreFull pages.new.items }
{
    if let Some(claim) = claim_at(pages.as_slice(), from) {
        set(pages, to, claim);
    }
}

/// Moves the claims behind a place, up to another, one place down.
fn shift_up(pages: &mut Vec<Page>, from: usize, to: usize)
    requires order { from ≤ to }
    requires within { to < length (paged pages.old.items) }
    requires full { AreFull pages.old.items }
    ensures { IsShifting from to pages.old.items pages.new.items }
{
    let mut at = from;
    'claims: while at < to {
        copy(pages, at + 1, at);
        at += 1;
    }
}

/// Moves the claims before a place, down to another, one place up.
fn shift_down(pages: &mut Vec<Page>, from: usize, to: usize)
    requires order { to ≤ from }
    requires within { from < length (paged pages.old.items) }
    requires full { AreFull pages.old.items }
    ensures { IsShifting from to pages.old.items pages.new.items }
{
    let mut at = from;
    'claims: while to < at {
        copy(pages, at - 1, at);
        at -= 1;
    }
}

/// Moves a claim from one place to another, as what it has become.
#[tactic(auto, using(crate::proofs::PageLaws::shifted_set))]
pub(crate) fn move_claim(pages: &mut Vec<Page>, from: usize, to: usize, claim: Claim)
    requires from { from < length (paged pages.old.items) }
    requires to { to < length (paged pages.old.items) }
    requires full { AreFull pages.old.items }
    ensures moved { paged pages.new.items ≡ take to (remove (paged pages.old.items) from) ++ claim ∷ drop to (remove (paged pages.old.items) from) }
    ensures full { AreFull pages.new.items }
{
    if from < to {
        shift_up(pages, from, to);
    } else {
        shift_down(pages, from, to);
    }
    set(pages, to, claim);
}
