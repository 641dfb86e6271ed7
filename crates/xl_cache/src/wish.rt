//! What a wish for a cache gets.
ghost use Rattle.std.specs.Prelude.{◌≡◌, ◌||◌, true, false, Option, Some, None, IfSome, IfNone, find};
ghost use Rattle.std.specs.Option.{IsSomeAnd};
ghost use Rattle.std.specs.List.{AllByRecursion, filter_map, list_all};
ghost use Rattle.xl_base.specs.Lists.{IsIn};
ghost use Rattle.xl_matrix.specs.declared.claim.CacheKind.{CacheKind};
ghost use Rattle.xl_matrix.specs.Kinds.{kind_lies_within};
ghost use Rattle.xl_matrix.specs.Matrix.{compat};
ghost use Rattle.xl_cache.specs.Targets.{is_delegation};
ghost use Rattle.xl_cache.specs.Wishing.{wished_claim, may_stand, best_of, joined, is_its_cache, may_replace, best_join_of, raised_by, granted_beside, granted_kind, Keeps};

use xl_base::{Owner, Party, Sequence};
use xl_matrix::{CacheKind, Claim, What, compatible, is_a_cache, kind_within, same_party};

/// A wish for a cache. It is granted or not, and breaks nothing.
#[derive(Drop)]
pub struct Wish {
    /// The file's number, from 1.
    pub file: u32,
    /// Who wishes.
    pub owner: Owner,
    /// Whose cache it would be.
    pub party: Party,
    /// The kinds that would do, the first choice first.
    pub kinds: Sequence<CacheKind>,
}

fn claim_of(wanted: &Wish, kind: CacheKind) -> Claim
    ensures { result ≡ wished_claim wanted.now kind }
{
    Claim {
        file: wanted.file,
        owner: wanted.owner,
        party: wanted.party,
        what: What::Cache(kind, None),
    }
}

fn is_compatible_with_all(claim: &Claim, held: &[Claim]) -> bool
    ensures { result ≡ list_all (compat claim.now) held.now }
{
    held.iter().all(|other| compatible(claim, other))
}

fn may_have(wanted: &Wish, held: &[Claim], kind: CacheKind) -> bool
    ensures { result ≡ may_stand wanted.now held.now kind }
{
    is_compatible_with_all(&claim_of(wanted, kind), held)
}

#[tactic(auto, unfolding(crate::specs::Wishing::best_of))]
fn first_choice(wanted: &Wish, held: &[Claim]) -> Option<CacheKind>
    ensures { result ≡ best_of wanted.now held.now }
{
    'kinds: for kind in wanted.kinds.as_slice() {
        if may_have(wanted, held, *kind) {
            return Some(*kind);
        }
    }
    None
}

/// What a party gets that has no cache on the file: the first of its choices that may stand beside all that is held;
/// None if none may (RFC 7530 10.4, MS-SMB2 3.3.5.9). It takes no memory.
pub fn best(wanted: &Wish, held: &[Claim]) -> Option<CacheKind>
    ensures first { result ≡ best_of wanted.now held.now }
    ensures some { IfSome result (λ kind. IsIn kind wanted.now.kinds × (may_stand wanted.now held.now kind ≡ true)) }
    ensures none { IfNone result (AllByRecursion (λ kind. may_stand wanted.now held.now kind ≡ false) wanted.now.kinds) }
{
    first_choice(wanted, held)
}

fn is_deleg(kind: CacheKind) -> bool
    ensures { result ≡ is_delegation kind }
{
    matches!(kind, CacheKind::ReadDeleg | CacheKind::WriteDeleg)
}

fn least_join(kind: CacheKind, other: CacheKind) -> Option<CacheKind>
    ensures { result ≡ joined kind other }
{
    if kind_within(kind, other) {
        Some(other)
    } else if kind_within(other, kind) {
        Some(kind)
    } else if is_deleg(kind) || is_deleg(other) {
        None
    } else {
        Some(CacheKind::RWH)
    }
}

/// The least kind that both lie within: what a lease holds that keeps what it has and gets the other kind as well
/// (MS-SMB2 3.3.5.9.8). None if there is no such kind, as for a delegation and a lease. It takes no memory.
pub fn join(kind: CacheKind, other: CacheKind) -> Option<CacheKind>
    ensures table { result ≡ joined kind other }
    ensures above { IfSome result (λ least. (kind_lies_within kind least ≡ true) × (kind_lies_within other least ≡ true)) }
    ensures least { (upper : CacheKind) → kind_lies_within kind upper ≡ true → kind_lies_within other upper ≡ true → IsSomeAnd result (λ least. kind_lies_within least upper ≡ true) }
{
    least_join(kind, other)
}

/// Whether the claim is the cache that the wish's party has on the file.
fn is_own_cache(wanted: &Wish, claim: &Claim) -> bool
    ensures { result ≡ is_its_cache wanted.now claim.now }
{
    is_a_cache(claim.what) && claim.file == wanted.file && same_party(claim.party, wanted.party)
}

fn may_come_beside(wanted: &Wish, claim: &Claim, other: &Claim) -> bool
    ensures { result ≡ (is_its_cache wanted.now other.now || compat claim.now other.now) }
{
    is_own_cache(wanted, other) || compatible(claim, other)
}

fn may_come(wanted: &Wish, held: &[Claim], kind: CacheKind) -> bool
    ensures { result ≡ may_replace wanted.now held.now kind }
{
    let claim = claim_of(wanted, kind);
    held.iter()
        .all(|other| may_come_beside(wanted, &claim, other))
}

#[tactic(auto, unfolding(crate::specs::Wishing::best_join_of))]
fn first_join(wanted: &Wish, kind: CacheKind, held: &[Claim]) -> Option<CacheKind>
    ensures { result ≡ best_join_of wanted.now kind held.now }
{
    'kinds: for choice in wanted.kinds.as_slice() {
        if let Some(joined) = least_join(kind, *choice) {
            if may_come(wanted, held, joined) {
                return Some(joined);
            }
        }
    }
    None
}

/// What a party gets that has a cache of this kind on the file: of its choices, each joined with that kind, the first
/// that may stand beside all that is held except that cache; None if none may, and then the cache stays. It takes no
/// memory.
pub fn best_join(wanted: &Wish, kind: CacheKind, held: &[Claim]) -> Option<CacheKind>
    ensures first { result ≡ best_join_of wanted.now kind held.now }
    ensures some { IfSome result (λ least. (kind_lies_within kind least ≡ true) × (may_replace wanted.now held.now least ≡ true)) }
{
    first_join(wanted, kind, held)
}

/// The cache that the wish's party has on the file, the first of these if there are more. It takes no memory.
pub fn find_own_cache(wanted: &Wish, held: &[Claim]) -> Option<Claim>
    ensures { result ≡ find (is_its_cache wanted.now) held.now }
{
    'held: for claim in held {
        if is_own_cache(wanted, claim) {
            return Some(*claim);
        }
    }
    None
}

fn raise(wanted: &Wish, held: &[Claim], what: What) -> Option<CacheKind>
    ensures { result ≡ raised_by wanted.now held.now what }
{
    match what {
        What::Cache(kind, None) => first_join(wanted, kind, held),
        _ => None,
    }
}

#[tactic(auto, unfolding(crate::specs::Wishing::granted_kind))]
fn new_kind(wanted: &Wish, held: &[Claim]) -> Option<CacheKind>
    ensures { result ≡ granted_kind wanted.now held.now }
{
    match find_own_cache(wanted, held) {
        None => first_choice(wanted, held),
        Some(claim) => raise(wanted, held, claim.what),
    }
}

/// The kind of the cache that the party is to have on the file from now on, if the wish changes that: the best of its
/// choices if it has none there, the best join if it has one whose break does not run. It may stand beside all
/// that is held except the party's own cache, in whose place it comes, and is no less than that. It takes no memory.
pub fn kind_for(wanted: &Wish, held: &[Claim]) -> Option<CacheKind>
    ensures is { result ≡ granted_kind wanted.now held.now }
    ensures stands { IfSome result (λ kind. may_replace wanted.now held.now kind ≡ true) }
    ensures keeps { IfSome result (λ kind. IfSome (find (is_its_cache wanted.now) held.now) (λ c. Keeps c.what kind)) }
{
    new_kind(wanted, held)
}
