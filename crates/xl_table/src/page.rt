//! A page: some of a file's claims, in their order.
ghost use Rattle.std.specs.Prelude.{◌≡◌, ℕ, ◌+◌, ◌<◌, ◌≤◌, ◌++◌, ◌∷◌, [], not, length, take, drop, IfOk, OnOk, OnErr, IfSome, slice_range};
ghost use Rattle.std.specs.List.{filter, list_any, prefix_len, slice_get};
ghost use Rattle.std.proofs.Math.ListN.{set};
ghost use Rattle.xl_table.specs.Flat.{blocks, is_blocked, may_obstruct, is_due, holder_from};
ghost use Rattle.xl_table.specs.Leaving.{goes};
ghost use Rattle.xl_table.specs.Pages.{passes, passes_side, ends};
ghost use Rattle.xl_table.specs.Held.{is_cache};
ghost use Rattle.xl_base.specs.Leasts.{least_from};
ghost use Rattle.xl_table.specs.Least.{range_before, counts};
ghost use Rattle.xl_table.specs.Sections.{ends_in_cache};
ghost use Rattle.xl_index.specs.Parted.{IsParted};

use crate::bounds::{Bounds, any_edge, bounds_of, is_past, is_quiet, widened, widened_by};
use crate::change::{put_all, take_between};
use crate::due::is_asleep;
use crate::holding::holder_with;
use crate::least::{is_beyond, least_among};
use crate::leaver::Leaver;
use crate::listing::{any_blocks, drop_from, push_blockers, push_due, push_obstacles};
use crate::marks::Mark;
use crate::ordering::{Side, key_of, side_of};
use crate::relock::{begins_by, ends_before};
use std::alloc::{AllocError, Global};
use std::marker::Model;
use std::sync::ledger::Ledger;
use xl_base::Moment;
use xl_matrix::{Claim, Extent, What};
use xl_names::Names;
use xl_steps::Steps;

/// Some of a file's claims. A contract sees their list.
#[derive(Drop)]
pub struct Page {
    claims: Vec<Claim>,
    bounds: Bounds,
}

impl Model for Page {
    ghost use Rattle.std.specs.Prelude.{List};
    ghost use Rattle.xl_matrix.specs.declared.claim.Claim.{Claim};
    ghost use Rattle.xl_table.specs.Bounds.{AreWithin};

    ghost Value = { List Claim };

    ghost view = { λ p. p.claims.items };

    ghost invariant = { λ p. AreWithin p.bounds p.claims.items };
}

/// Whether a claim passes the mark that stands on this side of those whose numbers begin with some.
fn passes_side(mark: Mark, side: Side, claim: &Claim) -> bool
    ensures { result ≡ passes_side mark side claim.now }
{
    match side {
        Side::Earlier => true,
        Side::Later => false,
        Side::Among => match mark {
            Mark::Before => false,
            Mark::Upto => true,
            Mark::Ending(byte) => ends_before(byte, claim.what),
            Mark::Beginning(byte) => begins_by(byte, claim.what),
        },
    }
}

#[tactic(auto, using(crate::proofs::SideLaws::passes_sided))]
fn passes(mark: Mark, front: &[u64], claim: &Claim) -> bool
    ensures { result ≡ passes mark front.now claim.now }
{
    let key = key_of(claim);
    passes_side(mark, side_of(front, &key), claim)
}

/// How many of the claims pass the mark.
fn count_passing(claims: &[Claim], mark: Mark, front: &[u64]) -> usize
    requires { IsParted (passes mark front.now) claims.now }
    ensures count { result ≡ prefix_len (passes mark front.now) claims.now }
    ensures within { result ≤ length claims.now }
{
    claims.partition_point(|claim| passes(mark, front, claim))
}

/// How many of these claims pass the mark before the first that does not; they are looked at one by one.
#[tactic(auto, using(crate::proofs::AlongLaws::along_on, crate::proofs::AlongLaws::along_stop))]
fn count_along(claims: &[Claim], mark: Mark, front: &[u64]) -> usize
    ensures count { result ≡ prefix_len (passes mark front.now) claims.now }
    ensures within { result ≤ length claims.now }
{
    let mut count = 0;
    for claim in claims {
        if !passes(mark, front, claim) {
            return count;
        }
        count += 1;
    }
    count
}

fn last_passes(claims: &[Claim], mark: Mark, front: &[u64]) -> bool
    ensures { result ≡ ends (passes mark front.now) claims.now }
{
    match claims.last() {
        Some(claim) => passes(mark, front, claim),
        None => true,
    }
}

/// Puts claims in at the place. After an error the list is as it was.
fn enter(claims: &mut Vec<Claim>, place: usize, entered: &[Claim]) -> Result<(), AllocError>
    requires { place ≤ length claims.old.items }
    ensures ok { OnOk result (claims.new.items ≡ take place claims.old.items ++ (entered.now ++ drop place claims.old.items)) }
    ensures err { OnErr result (claims.new.items ≡ claims.old.items) }
{
    claims.reserve(entered.len())?;
    put_all(claims, place, entered);
    Ok(())
}

/// A list of the claims from the place on.
fn tail_from(claims: &Vec<Claim>, place: usize) -> Result<Vec<Claim>, AllocError>
    requires { place ≤ length claims.now.items }
    ensures { IfOk result (λ v. v.items ≡ drop place claims.now.items) }
{
    let alloc = *claims.allocator();
    Vec::from_slice(alloc, &claims[place..])
}

fn set_at(claims: &mut Vec<Claim>, place: usize, claim: Claim)
    requires { place < length claims.old.items }
    ensures { claims.new.items ≡ set claims.old.items place claim }
{
    claims[place] = claim;
}

fn is_cache(what: What) -> bool
    ensures { result ≡ is_cache what }
{
    matches!(what, What::Cache(_, _))
}

fn ends_in_cache(claims: &[Claim]) -> bool
    ensures { result ≡ ends_in_cache claims.now }
{
    match claims.last() {
        Some(claim) => is_cache(claim.what),
        None => false,
    }
}

impl Page {
    /// A page of these claims.
    #[tactic(auto, using(crate::proofs::WithinLaws::within_of))]
    pub(crate) fn of(claims: Vec<Claim>) -> Page
        ensures { result ≡ claims.items }
    {
        let bounds = bounds_of(claims.as_slice());
        Page { claims, bounds }
    }

    /// How many claims there are.
    pub(crate) fn len(&self) -> usize
        ensures { result ≡ length self.now }
    {
        self.claims.len()
    }

    /// The claims.
    pub(crate) fn as_slice(&self) -> &[Claim]
        ensures { result.now ≡ self.now }
    {
        self.claims.as_slice()
    }

    /// Whether the last of the claims passes the mark.
    pub(crate) fn ends(&self, mark: Mark, front: &[u64]) -> bool
        ensures { result ≡ ends (passes mark front.now) self.now }
    {
        last_passes(self.claims.as_slice(), mark, front)
    }

    /// Whether the last of the claims is a cache.
    pub(crate) fn ends_in_cache(&self) -> bool
        ensures { result ≡ ends_in_cache self.now }
    {
        ends_in_cache(self.claims.as_slice())
    }

    /// How many of the claims pass the mark.
    pub(crate) fn count(&self, mark: Mark, front: &[u64]) -> usize
        requires { IsParted (passes mark front.now) self.now }
        ensures count { result ≡ prefix_len (passes mark front.now) self.now }
        ensures within { result ≤ length self.now }
    {
        count_passing(self.claims.as_slice(), mark, front)
    }

    /// How many of the claims from the place on pass the mark before the first that does not.
    #[tactic(auto, using(crate::proofs::AlongLaws::along_within))]
    pub(crate) fn count_from(&self, place: usize, mark: Mark, front: &[u64]) -> usize
        requires { place ≤ length self.now }
        ensures count { result ≡ prefix_len (passes mark front.now) (drop place self.now) }
        ensures within { place + result ≤ length self.now }
    {
        count_along(&self.claims[place..], mark, front)
    }

    /// The first of the claims that does not pass the mark, if there is one.
    pub(crate) fn first_failing(&self, mark: Mark, front: &[u64]) -> Option<Claim>
        requires { IsParted (passes mark front.now) self.now }
        ensures { result ≡ slice_get self.now (prefix_len (passes mark front.now) self.now) }
    {
        let at = count_passing(self.claims.as_slice(), mark, front);
        self.claims.get(at).copied()
    }

    /// Puts claims in at the place. After an error the page is as it was.
    #[tactic(auto, using(crate::proofs::WithinLaws::within_put))]
    pub(crate) fn put(&mut self, place: usize, entered: &[Claim]) -> Result<(), AllocError>
        requires { place ≤ length self.old }
        ensures ok { OnOk result (self.new ≡ take place self.old ++ (entered.now ++ drop place self.old)) }
        ensures err { OnErr result (self.new ≡ self.old) }
    {
        enter(&mut self.claims, place, entered)?;
        self.bounds = widened_by(self.bounds, entered);
        Ok(())
    }

    /// Takes out the claims from `start` to before `end`. The bounds are worked out anew if these bore them.
    #[tactic(auto, using(crate::proofs::WithinLaws::within_of, crate::proofs::WithinLaws::within_out))]
    pub(crate) fn take_out(&mut self, start: usize, end: usize)
        requires order { start ≤ end }
        requires within { end ≤ length self.old }
        ensures { self.new ≡ take start self.old ++ drop end self.old }
    {
        let narrower = any_edge(self.bounds, &self.claims[start..end]);
        take_between(&mut self.claims, start, end);
        if narrower {
            self.bounds = bounds_of(self.claims.as_slice());
        }
    }

    /// A page of the claims from the place on.
    pub(crate) fn tail(&self, place: usize) -> Result<Page, AllocError>
        requires { place ≤ length self.now }
        ensures { IfOk result (λ page. page ≡ drop place self.now) }
    {
        Ok(Page::of(tail_from(&self.claims, place)?))
    }

    /// Puts a claim in the place of another. The bounds are worked out anew if that bore them.
    #[tactic(auto, using(crate::proofs::WithinLaws::within_of, crate::proofs::WithinLaws::within_set))]
    pub(crate) fn set(&mut self, place: usize, claim: Claim)
        requires { place < length self.old }
        ensures { self.new ≡ set self.old place claim }
    {
        let narrower = any_edge(self.bounds, &self.claims[place..place + 1]);
        set_at(&mut self.claims, place, claim);
        self.bounds = if narrower {
            bounds_of(self.claims.as_slice())
        } else {
            widened(self.bounds, claim.what)
        };
    }

    /// Takes out the claims that go.
    #[tactic(auto, using(crate::proofs::WithinLaws::within_of))]
    pub(crate) fn drop_leaver(&mut self, leaver: Leaver)
        ensures { self.new ≡ filter (λ held. not (goes leaver held)) self.old }
    {
        drop_from(&mut self.claims, leaver);
        self.bounds = bounds_of(self.claims.as_slice());
    }

    /// Whether one of the claims blocks the ask.
    #[tactic(auto, using(crate::proofs::ClearLaws::quiet_is_free))]
    pub(crate) fn blocks(&self, ask: &Claim) -> bool
        ensures { result ≡ is_blocked self.now ask.now }
    {
        if is_quiet(ask.what, self.bounds) {
            return false;
        }
        any_blocks(self.claims.as_slice(), ask)
    }

    /// The lesser of the least so far, and those of the claims that count.
    pub(crate) fn least_with(
        &self,
        alloc: Global,
        names: &Names,
        least: Option<Claim>,
        ask: &Claim,
        ranges: bool,
    ) -> Result<Option<Claim>, AllocError>
        ensures { IfOk result (λ c. c ≡ least_from (range_before names.now) least (filter (counts ask.now ranges) self.now)) }
    {
        if is_beyond(least, self.bounds) {
            return Ok(least);
        }
        if is_quiet(ask.what, self.bounds) {
            return Ok(least);
        }
        let least = least_among(alloc, names, least, self.claims.as_slice(), ask, ranges)?;
        Ok(least)
    }

    /// Adds those of the claims that block the ask: one step for each of them at most.
    #[tactic(auto, using(crate::proofs::ClearLaws::quiet_is_none))]
    pub(crate) fn push_blockers<L: Ledger>(
        &self,
        found: &mut Vec<Claim>,
        ask: &Claim,
        steps: &mut Steps<L>,
    ) -> Result<(), AllocError>
        ensures found { OnOk result (found.new.items ≡ found.old.items ++ filter (λ held. blocks ask.now held) self.now) }
        ensures more { steps.old ≤ steps.new }
        ensures few { steps.new ≤ steps.old + length self.now }
    {
        if is_quiet(ask.what, self.bounds) {
            return Ok(());
        }
        push_blockers(found, self.claims.as_slice(), ask, steps)?;
        Ok(())
    }

    /// Adds those of the claims that block the ask, and the caches on its file.
    pub(crate) fn push_obstacles(
        &self,
        found: &mut Vec<Claim>,
        ask: &Claim,
    ) -> Result<(), AllocError>
        ensures { OnOk result (found.new.items ≡ found.old.items ++ filter (may_obstruct ask.now) self.now) }
    {
        if is_past(ask.what, self.bounds) {
            return Ok(());
        }
        push_obstacles(found, self.claims.as_slice(), ask)?;
        Ok(())
    }

    /// The lesser of the least range so far that has the byte, and those of the claims.
    #[tactic(auto, using(crate::proofs::ClearLaws::past_holds_none))]
    pub(crate) fn holder_with(&self, least: Option<Claim>, file: u32, byte: u64) -> Option<Claim>
        ensures { result ≡ holder_from least file byte self.now }
    {
        if is_past(What::Range(Extent::Bytes(byte, byte), true), self.bounds) {
            return least;
        }
        holder_with(least, self.claims.as_slice(), file, byte)
    }

    /// Adds those of the claims whose answer is due.
    pub(crate) fn push_due(
        &self,
        alloc: Global,
        due: &mut Vec<Claim>,
        now: Moment,
    ) -> Result<(), AllocError>
        ensures { OnOk result (due.new.items ≡ due.old.items ++ filter (λ held. is_due now held) self.now) }
    {
        if is_asleep(now, self.bounds.due) {
            return Ok(());
        }
        push_due(alloc, due, self.claims.as_slice(), now)?;
        Ok(())
    }
}
