//! What stands against a reclaim, of a delegation with a share too.
ghost use Rattle.std.specs.Prelude.{◌≡◌, ℕ, ◌-◌, ◌^◌, [], length, min, IfOk};
ghost use Rattle.std.specs.List.{filter, list_any};
ghost use Rattle.xl_cache.specs.Wishing.{is_its_cache};
ghost use Rattle.xl_table.specs.Least.{least};
ghost use Rattle.xl_table.specs.Relock.{granted_claims};
ghost use Rattle.xl_core.specs.Judge.{cache_beside, blocks_beside, least_beside, reclaim_blocker, held_then};
ghost use Rattle.xl_core.specs.Whole.{state_of};
ghost use Rattle.xl_core.specs.Wishes.{wish_of};

use crate::parts::Parts;
use std::alloc::{AllocError, Global};
use xl_matrix::{CacheKind, Claim, What, is_a_cache, is_blocked_by, same_party};
use xl_table::least_of;

/// Whether the held claim is the cache that the claim's party has on its file.
fn is_own_cache(claim: &Claim, held: &Claim) -> bool
    ensures { result ≡ is_its_cache (wish_of [] claim.now) held.now }
{
    is_a_cache(held.what) && held.file == claim.file && same_party(held.party, claim.party)
}

/// The cache of this kind beside the claim.
fn cache_beside(kind: CacheKind, claim: &Claim) -> Claim
    ensures { result ≡ cache_beside kind claim.now }
{
    Claim {
        file: claim.file,
        owner: claim.owner,
        party: claim.party,
        what: What::Cache(kind, None),
    }
}

/// What blocks a cache of this kind beside the claim, except the party's own in whose place it comes.
fn others_against(
    alloc: Global,
    parts: &Parts,
    kind: CacheKind,
    claim: &Claim,
) -> Result<Vec<Claim>, AllocError>
    ensures { IfOk result (λ v. v.items ≡ filter (λ held. blocks_beside kind claim.now held) parts.now.table) }
{
    let cache = cache_beside(kind, claim);
    let mut held = parts.table.of_file(alloc, claim.file)?;
    held.retain(|other| !is_own_cache(claim, other) && is_blocked_by(&cache, other));
    Ok(held)
}

/// The least of these.
fn least_against(
    alloc: Global,
    parts: &Parts,
    kind: CacheKind,
    claim: &Claim,
) -> Result<Option<Claim>, AllocError>
    ensures { IfOk result (λ c. c ≡ least parts.now.names (filter (λ held. blocks_beside kind claim.now held) parts.now.table)) }
{
    let others = others_against(alloc, parts, kind, claim)?;
    let least = least_of(alloc, &parts.names, &others)?;
    Ok(least)
}

/// What stands against a reclaim: the least of what blocks the claim, or else the cache that is reclaimed with it.
pub(crate) fn reclaim_blocker(
    alloc: Global,
    parts: &Parts,
    beside: Option<CacheKind>,
    claim: &Claim,
) -> Result<Option<Claim>, AllocError>
    ensures { IfOk result (λ c. c ≡ reclaim_blocker beside claim.now (state_of parts.now)) }
{
    if let Some(blocker) = parts.table.least_blocker(alloc, &parts.names, claim)? {
        return Ok(Some(blocker));
    }
    match beside {
        Some(kind) => least_against(alloc, parts, kind, claim),
        None => Ok(None),
    }
}

/// Whether one of these is the cache that the claim's party has on its file.
fn is_own_among(claim: &Claim, held: &[Claim]) -> bool
    ensures { result ≡ list_any (is_its_cache (wish_of [] claim.now)) held.now }
{
    held.iter().any(|other| is_own_cache(claim, other))
}

/// Whether the claim's party has a cache on its file.
fn has_own_cache(alloc: Global, parts: &Parts, claim: &Claim) -> Result<bool, AllocError>
    ensures { IfOk result (λ b. b ≡ list_any (is_its_cache (wish_of [] claim.now)) parts.now.table) }
{
    let here = parts.table.of_file(alloc, claim.file)?;
    Ok(is_own_among(claim, &here))
}

/// How many claims are held once the claim is granted, which leaves so many, and a cache of this kind beside it; at most 2^64 - 1.
pub(crate) fn held_then(
    alloc: Global,
    parts: &Parts,
    beside: Option<CacheKind>,
    claim: &Claim,
    held: usize,
) -> Result<usize, AllocError>
    requires { held ≡ length (granted_claims claim.now parts.now.table) }
    ensures { IfOk result (λ n. n ≡ min (held_then beside claim.now parts.now.table) (2 ^ 64 - 1)) }
{
    match beside {
        None => Ok(held),
        Some(_) => {
            if has_own_cache(alloc, parts, claim)? {
                Ok(held)
            } else {
                Ok(held.saturating_add(1))
            }
        }
    }
}
