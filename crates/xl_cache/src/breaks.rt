//! Which caches an ask breaks, and which it waits for.
ghost use Rattle.std.specs.Prelude.{◌≡◌, ◌&&◌, Bool, true, false, None, IfOk, IfSome, IsSome, filter, find};
ghost use Rattle.std.specs.List.{AllByRecursion, filter_map, list_any};
ghost use Rattle.xl_matrix.specs.Blocks.{is_share, is_range, is_cache, blocks};
ghost use Rattle.xl_cache.specs.BreakPlans.{keeps_handle_by, is_running, is_oplock, keeps_open, is_covered, is_final, blocking_shares, break_by, is_left_by, planned, NamesAll, NamesOnly, MakesWay, IsFreeUnlessRecalled};
ghost use Rattle.xl_cache.specs.Holders.{is_keeper, is_final_beside, covers_beside, stands_so, need_so, break_so, is_awaited_beside, is_left_beside};

use crate::break_plan::BreakPlan;
use crate::holders::{Holders, holders_of, is_among};
use crate::need::{Need, answer_needed, target};
use std::alloc::{AllocError, Global};
use xl_base::{Party, Sequence};
use xl_matrix::{
    CacheKind, Claim, What, has_handle, is_a_cache, is_a_range, is_a_share, is_blocked_by,
    same_party,
};

fn has_handle_in(what: What) -> bool
    ensures { result ≡ keeps_handle_by what }
{
    match what {
        What::Cache(kind, _) => has_handle(kind),
        What::Share(_, _) | What::Range(_, _) => false,
    }
}

/// Whether what is claimed is a cache whose break runs.
pub fn is_break_running(what: What) -> bool
    ensures { result ≡ is_running what }
{
    match what {
        What::Cache(_, running) => running.is_some(),
        What::Share(_, _) | What::Range(_, _) => false,
    }
}

/// Whether a cache of this party is an oplock: the party is an SMB open without a lease.
pub fn is_oplock_party(party: Party) -> bool
    ensures { result ≡ is_oplock party }
{
    match party {
        Party::Open(_) => true,
        Party::Name(_, _) => false,
    }
}

/// Whether the cache keeps the handle of this share.
fn is_open_by(share: &Claim, cache: &Claim) -> bool
    ensures { result ≡ keeps_open share.now cache.now }
{
    has_handle_in(cache.what) && share.file == cache.file && same_party(share.party, cache.party)
}

fn has_keeper(share: &Claim, held: &[Claim]) -> bool
    ensures { result ≡ list_any (keeps_open share.now) held.now }
{
    held.iter().any(|cache| is_open_by(share, cache))
}

/// Whether a share that blocks the ask is covered: its party, another than the asker's, has a cache on the file that
/// keeps the handle. The break of that cache may make way, as its party may close what it has open only for later use
/// (MS-FSA 2.1.4.12). Blockers other than caches never make way. It takes no memory.
#[tactic(auto, unfolding(crate::specs::BreakPlans::is_covered))]
pub fn is_share_covered(ask: &Claim, held: &[Claim], share: &Claim) -> bool
    ensures { result ≡ is_covered ask.now held.now share.now }
{
    is_a_share(share.what) && !same_party(share.party, ask.party) && has_keeper(share, held)
}

/// Whether the claim blocks the ask for good: it is a share or a range, and not covered, so that no break makes way. An
/// ask that such a claim blocks is refused or waits, and breaks nothing. It takes no memory.
pub fn is_final_blocker(ask: &Claim, held: &[Claim], claim: &Claim) -> bool
    ensures { result ≡ is_final ask.now held.now claim.now }
{
    is_blocked_by(ask, claim) && !is_a_cache(claim.what) && !is_share_covered(ask, held, claim)
}

/// The same of one claim, if those who keep a handle on a file are known.
fn is_final_beside(ask: &Claim, keepers: &Holders, claim: &Claim) -> bool
    ensures { result ≡ is_final_beside ask.now keepers.now.keys claim.now }
{
    is_blocked_by(ask, claim)
        && !is_a_cache(claim.what)
        && !(is_a_share(claim.what)
            && !same_party(claim.party, ask.party)
            && is_among(keepers, claim))
}

fn is_keeper(claim: &Claim) -> bool
    ensures { result ≡ is_keeper claim.now }
{
    has_handle_in(claim.what)
}

fn list_keepers(alloc: Global, held: &[Claim]) -> Result<Vec<Claim>, AllocError>
    ensures { IfOk result (λ v. v.items ≡ filter is_keeper held.now) }
{
    let mut keepers = Vec::new(alloc);
    for claim in held {
        if is_keeper(claim) {
            keepers.push(*claim)?;
        }
    }
    Ok(keepers)
}

fn list_final(
    alloc: Global,
    ask: &Claim,
    keepers: &Holders,
    held: &[Claim],
) -> Result<Vec<Claim>, AllocError>
    ensures { IfOk result (λ v. v.items ≡ filter (is_final_beside ask.now keepers.now.keys) held.now) }
{
    held.iter()
        .filter(|claim| is_final_beside(ask, keepers, claim))
        .copied()
        .collect(alloc)
}

/// The held claims that block the ask for good (see `is_final_blocker`), in their order.
pub fn final_blockers(alloc: Global, ask: &Claim, held: &[Claim]) -> Result<Vec<Claim>, AllocError>
    ensures { IfOk result (λ v. v.items ≡ filter (is_final ask.now held.now) held.now) }
{
    let keepers = list_keepers(alloc, held)?;
    let holders = holders_of(alloc, &keepers)?;
    let blockers = list_final(alloc, ask, &holders, held)?;
    Ok(blockers)
}

fn list_blocking_shares(
    alloc: Global,
    ask: &Claim,
    held: &[Claim],
) -> Result<Vec<Claim>, AllocError>
    ensures { IfOk result (λ v. v.items ≡ blocking_shares ask.now held.now) }
{
    held.iter()
        .filter(|claim| is_a_share(claim.what) && is_blocked_by(ask, claim))
        .copied()
        .collect(alloc)
}

/// Whether the cache covers one of the shares that block the ask, if it is known who has these.
fn does_cover(ask: &Claim, sharers: &Holders, cache: &Claim) -> bool
    ensures { result ≡ covers_beside ask.now sharers.now.keys cache.now }
{
    !same_party(cache.party, ask.party) && has_handle_in(cache.what) && is_among(sharers, cache)
}

/// Whether the claim is a cache that blocks the ask, or covers one of the shares that do.
fn stands_in_the_way(ask: &Claim, covered: bool, claim: &Claim) -> bool
    ensures { result ≡ stands_so ask.now covered claim.now }
{
    (is_a_cache(claim.what) && is_blocked_by(ask, claim)) || covered
}

fn need_for(ask: &Claim, covered: bool, claim: &Claim) -> Need
    ensures { result ≡ need_so ask.now covered claim.now }
{
    Need {
        range: is_a_range(ask.what),
        covered,
        oplock: is_oplock_party(claim.party),
    }
}

fn begin(claim: &Claim, need: Need, what: What) -> Option<(Claim, Option<CacheKind>)>
    ensures { result ≡ break_by claim.now need what }
{
    match what {
        What::Cache(kind, None) => Some((*claim, target(kind, need))),
        _ => None,
    }
}

/// The break of this claim that the ask begins, if it begins one.
fn break_for(ask: &Claim, sharers: &Holders, claim: &Claim) -> Option<(Claim, Option<CacheKind>)>
    ensures { result ≡ break_so ask.now (covers_beside ask.now sharers.now.keys claim.now) claim.now }
{
    let covered = does_cover(ask, sharers, claim);
    if stands_in_the_way(ask, covered, claim) {
        begin(claim, need_for(ask, covered, claim), claim.what)
    } else {
        None
    }
}

fn list_breaks(
    alloc: Global,
    ask: &Claim,
    sharers: &Holders,
    held: &[Claim],
) -> Result<Vec<(Claim, Option<CacheKind>)>, AllocError>
    ensures { IfOk result (λ v. v.items ≡ filter_map (λ c. break_so ask.now (covers_beside ask.now sharers.now.keys c) c) held.now) }
{
    held.iter()
        .filter_map(|claim| break_for(ask, sharers, claim))
        .collect(alloc)
}

fn has_to_wait_for(ask: &Claim, sharers: &Holders, claim: &Claim) -> bool
    ensures { result ≡ is_awaited_beside ask.now sharers.now.keys claim.now }
{
    let covered = does_cover(ask, sharers, claim);
    stands_in_the_way(ask, covered, claim) && is_break_running(claim.what)
}

fn find_awaited(ask: &Claim, sharers: &Holders, held: &[Claim]) -> Option<Claim>
    ensures { result ≡ find (is_awaited_beside ask.now sharers.now.keys) held.now }
{
    'held: for claim in held {
        if has_to_wait_for(ask, sharers, claim) {
            return Some(*claim);
        }
    }
    None
}

fn is_left_by(need: Need, what: What) -> bool
    ensures { result ≡ is_left_by need what }
{
    match what {
        What::Cache(kind, None) => answer_needed(kind, target(kind, need)),
        What::Cache(_, Some(_)) => true,
        What::Share(_, _) | What::Range(_, _) => false,
    }
}

/// Whether the claim is a cache in the way that is held once the breaks have begun.
fn is_left(ask: &Claim, sharers: &Holders, claim: &Claim) -> bool
    ensures { result ≡ is_left_beside ask.now sharers.now.keys claim.now }
{
    let covered = does_cover(ask, sharers, claim);
    stands_in_the_way(ask, covered, claim) && is_left_by(need_for(ask, covered, claim), claim.what)
}

fn find_left(ask: &Claim, sharers: &Holders, held: &[Claim]) -> Option<Claim>
    ensures { result ≡ find (is_left_beside ask.now sharers.now.keys) held.now }
{
    'held: for claim in held {
        if is_left(ask, sharers, claim) {
            return Some(*claim);
        }
    }
    None
}

fn make_plan(alloc: Global, ask: &Claim, held: &[Claim]) -> Result<BreakPlan, AllocError>
    ensures { IfOk result (λ p. p ≡ planned ask.now held.now) }
{
    let shares = list_blocking_shares(alloc, ask, held)?;
    let sharers = holders_of(alloc, &shares)?;
    let breaks = list_breaks(alloc, ask, &sharers, held)?;
    let awaited = find_awaited(ask, &sharers, held);
    let left = find_left(ask, &sharers, held);
    Ok(BreakPlan {
        breaks: Sequence::from_vec(breaks),
        awaited,
        left,
    })
}

/// The breaks that an ask for a share or a range begins, and whether it waits for one that runs (MS-FSA 2.1.4.12,
/// RFC 7530 10.4.4). In the way are the caches that block the ask, and those that cover a share that does. Each of which
/// no break runs is broken, in the order in which they are held; of the others the ask waits for the first. An ask that
/// a claim blocks for good (see `is_final_blocker`) breaks nothing, and its plan is not to be carried out.
pub fn plan_breaks(alloc: Global, ask: &Claim, held: &[Claim]) -> Result<BreakPlan, AllocError>
    ensures is { IfOk result (λ p. p ≡ planned ask.now held.now) }
    ensures all { IfOk result (λ p. NamesAll ask.now held.now p) }
    ensures only { IfOk result (λ p. NamesOnly ask.now held.now p) }
    ensures makes_way { IfOk result (λ p. MakesWay ask.now p) }
    ensures free { IfOk result (λ p. IsFreeUnlessRecalled ask.now held.now p) }
{
    make_plan(alloc, ask, held)
}
