//! What stands against an ask: shares and ranges that are held, ranges of those who wait in front of it, and caches.
ghost use Rattle.std.specs.Prelude.{◌≡◌, ◌&&◌, [], None, IfOk};
ghost use Rattle.std.specs.List.{filter, list_any};
ghost use Rattle.xl_table.specs.Flat.{blocks};
ghost use Rattle.xl_table.specs.Relock.{is_range_by};
ghost use Rattle.xl_wait.specs.Waiting.{waiting_on};
ghost use Rattle.xl_core.specs.Blockers.{is_blocked_by, waits_for_asker, is_against, ranges_of, ranges_of_all, range_ahead, first_claim, first_broken, cache_in, passage_of};
ghost use Rattle.xl_core.specs.InFront.{ends_at, in_front_of, IsInLine};
ghost use Rattle.xl_core.specs.Whole.{state_of};

use crate::parts::Parts;
use std::alloc::{AllocError, Global};
use xl_base::{Owner, Sequence};
use xl_cache::{BreakPlan, final_blockers, plan_breaks};
use xl_matrix::{CacheKind, Claim, compatible, is_a_range, same_owner};
use xl_table::least_of;
use xl_wait::Waiter;

/// Who of those that wait stands in front of one who asks, or of one who waits too.
#[derive(Clone, Copy)]
pub(crate) enum Front {
    /// Nobody: it reclaims.
    Nobody,
    /// All who wait.
    Everybody,
    /// Those before the waiter of this number, who is the one.
    Before(u32),
}

/// How the way of a claim stands.
#[derive(Drop)]
pub(crate) enum Passage {
    /// It is barred: of what blocks the claim for good this is named.
    Barred(Claim),
    /// It is open, once the caches in it are broken by this plan and their breaks are answered.
    Open(BreakPlan),
}

/// Whether the claim is a range of this owner.
fn is_range_by(owner: Owner, claim: &Claim) -> bool
    ensures { result ≡ is_range_by owner claim.now }
{
    same_owner(claim.owner, owner) && is_a_range(claim.what)
}

/// Whether one of these claims is.
fn any_range_by(owner: Owner, claims: &[Claim]) -> bool
    ensures { result ≡ list_any (is_range_by owner) claims.now }
{
    claims.iter().any(|claim| is_range_by(owner, claim))
}

/// Whether a range of this owner is held that blocks what is asked for.
#[tactic(auto, using(crate::proofs::LineLaws::any_blocking))]
fn has_blocking(
    alloc: Global,
    parts: &Parts,
    owner: Owner,
    asked: &Claim,
) -> Result<bool, AllocError>
    ensures { IfOk result (λ b. b ≡ list_any (λ d. is_range_by owner d && blocks asked.now d) parts.now.table) }
{
    let blocking = parts.table.blockers(alloc, asked)?;
    Ok(any_range_by(owner, &blocking))
}

/// Whether a range that the asker holds blocks what is asked for on its file.
fn is_blocked_by(
    alloc: Global,
    parts: &Parts,
    ask: &Claim,
    asked: &Claim,
) -> Result<bool, AllocError>
    ensures { IfOk result (λ b. b ≡ is_blocked_by parts.now.table ask.now asked.now) }
{
    if asked.file != ask.file {
        return Ok(false);
    }
    has_blocking(alloc, parts, ask.owner, asked)
}

/// Whether it blocks one of these.
fn is_any_blocked_by(
    alloc: Global,
    parts: &Parts,
    ask: &Claim,
    asked: &[Claim],
) -> Result<bool, AllocError>
    ensures { IfOk result (λ b. b ≡ list_any (is_blocked_by parts.now.table ask.now) asked.now) }
{
    'asked: for claim in asked {
        if is_blocked_by(alloc, parts, ask, claim)? {
            return Ok(true);
        }
    }
    Ok(false)
}

/// Whether the waiter waits for the asker, which then goes ahead of it. Most who ask hold no range.
#[tactic(auto, using(crate::proofs::LineLaws::none_holds))]
fn waits_for_asker(
    alloc: Global,
    parts: &Parts,
    ask: &Claim,
    waiter: &Waiter,
) -> Result<bool, AllocError>
    ensures { IfOk result (λ b. b ≡ waits_for_asker parts.now.table ask.now waiter.now) }
{
    if !parts.table.holds_range(ask.owner) {
        return Ok(false);
    }
    is_any_blocked_by(alloc, parts, ask, waiter.asked.as_slice())
}

/// Whether this claim of a waiter is a range of another owner beside which the ask's range may not be held.
fn is_against(ask: &Claim, asked: &Claim) -> bool
    ensures { result ≡ is_against ask.now asked.now }
{
    is_a_range(asked.what) && !same_owner(asked.owner, ask.owner) && !compatible(ask, asked)
}

/// The first such of these.
fn first_against(ask: &Claim, asked: &[Claim]) -> Option<Claim>
    ensures { result ≡ first_claim (filter (is_against ask.now) asked.now) }
{
    'asked: for claim in asked {
        if is_against(ask, claim) {
            return Some(*claim);
        }
    }
    None
}

/// The first range of the waiter that blocks the ask of who comes later, unless the waiter waits for that one.
fn range_of(
    alloc: Global,
    parts: &Parts,
    ask: &Claim,
    waiter: &Waiter,
) -> Result<Option<Claim>, AllocError>
    ensures { IfOk result (λ r. r ≡ first_claim (ranges_of parts.now.table ask.now waiter.now)) }
{
    let Some(range) = first_against(ask, waiter.asked.as_slice()) else {
        return Ok(None);
    };
    if waits_for_asker(alloc, parts, ask, waiter)? {
        return Ok(None);
    }
    Ok(Some(range))
}

/// Whether those who stand in front end before the waiter of this number.
fn ends_at(front: Front, id: u32) -> bool
    ensures { result ≡ ends_at front id }
{
    match front {
        Front::Nobody => true,
        Front::Everybody => false,
        Front::Before(own) => id == own,
    }
}

/// The first range that blocks the ask of those who wait on its file in front of it: they are gone through, as far as there is none.
fn first_in_front(
    alloc: Global,
    parts: &Parts,
    front: Front,
    ask: &Claim,
) -> Result<Option<Claim>, AllocError>
    ensures { IfOk result (λ r. r ≡ first_claim (ranges_of_all parts.now.table ask.now (in_front_of front (waiting_on ask.now.file parts.now.queue)))) }
{
    'waiters: for count in 0..parts.queue.len() {
        let Some(waiter) = parts.queue.nth_on(ask.file, count) else {
            return Ok(None);
        };
        if ends_at(front, waiter.id) {
            return Ok(None);
        }
        if let Some(range) = range_of(alloc, parts, ask, waiter)? {
            return Ok(Some(range));
        }
    }
    Ok(None)
}

/// The first range of those who wait in front of the ask that blocks it, if a range is asked for.
#[tactic(auto, using(crate::proofs::LineLaws::range_is_first, crate::proofs::LineLaws::no_range_ahead))]
pub(crate) fn range_ahead(
    alloc: Global,
    parts: &Parts,
    front: Front,
    ask: &Claim,
) -> Result<Option<Claim>, AllocError>
    requires line { IsInLine front parts.now.queue ask.now }
    ensures { IfOk result (λ r. r ≡ range_ahead (in_front_of front parts.now.queue) (state_of parts.now) ask.now) }
{
    if !is_a_range(ask.what) {
        return Ok(None);
    }
    let first = first_in_front(alloc, parts, front, ask)?;
    Ok(first)
}

/// Looks at all that may stand in the way of the claim, once.
pub(crate) fn look(
    alloc: Global,
    parts: &Parts,
    front: Front,
    claim: &Claim,
) -> Result<Passage, AllocError>
    requires line { IsInLine front parts.now.queue claim.now }
    ensures { IfOk result (λ passage. passage ≡ passage_of (in_front_of front parts.now.queue) (state_of parts.now) claim.now) }
{
    let held = parts.table.obstacles(alloc, claim)?;
    let finals = final_blockers(alloc, claim, &held)?;
    if let Some(blocker) = least_of(alloc, &parts.names, &finals)? {
        return Ok(Passage::Barred(blocker));
    }
    if let Some(range) = range_ahead(alloc, parts, front, claim)? {
        return Ok(Passage::Barred(range));
    }
    let plan = plan_breaks(alloc, claim, &held)?;
    Ok(Passage::Open(plan))
}

/// The plan that breaks nothing and waits for nothing.
fn no_plan(alloc: Global) -> BreakPlan
    ensures { result ≡ record { breaks = []; awaited = None; left = None } }
{
    BreakPlan {
        breaks: Sequence::new(alloc),
        awaited: None,
        left: None,
    }
}

/// How the way of the claim stands. Most often nothing is in it.
#[tactic(auto, using(crate::proofs::PassageLaws::free_barred, crate::proofs::PassageLaws::free_open))]
pub(crate) fn passage_of(
    alloc: Global,
    parts: &Parts,
    front: Front,
    claim: &Claim,
) -> Result<Passage, AllocError>
    requires line { IsInLine front parts.now.queue claim.now }
    ensures { IfOk result (λ passage. passage ≡ passage_of (in_front_of front parts.now.queue) (state_of parts.now) claim.now) }
{
    if parts.table.is_blocked(claim) {
        return look(alloc, parts, front, claim);
    }
    match range_ahead(alloc, parts, front, claim)? {
        Some(range) => Ok(Passage::Barred(range)),
        None => Ok(Passage::Open(no_plan(alloc))),
    }
}

pub(crate) fn first_broken(breaks: &[(Claim, Option<CacheKind>)]) -> Option<Claim>
    ensures { result ≡ first_broken breaks.now }
{
    match breaks {
        [] => None,
        [begun, ..] => Some(begun.0),
    }
}

/// The cache that a plan waits for, or else the first that it breaks.
pub(crate) fn cache_in(plan: &BreakPlan) -> Option<Claim>
    ensures { result ≡ cache_in plan.now }
{
    match plan.awaited {
        Some(cache) => Some(cache),
        None => first_broken(plan.breaks.as_slice()),
    }
}
