//! What a break leaves of a cache.
ghost use Rattle.std.specs.Prelude.{◌≡◌, true, false, Option, Some, None, IfSome};
ghost use Rattle.xl_matrix.specs.declared.claim.Rwd.{Rwd};
ghost use Rattle.xl_matrix.specs.Kinds.{guarding, keeps_handle, kind_lies_within};
ghost use Rattle.xl_cache.specs.Targets.{is_delegation, loses_handle, target_of, needs_answer, rest_lies_within};

use xl_matrix::{CacheKind, kind_within};

/// Why a cache of another party is broken.
#[derive(Clone, Copy)]
pub struct Need {
    /// A byte range is asked for; if this is false, a share is.
    pub range: bool,
    /// The cache covers a share that blocks the ask.
    pub covered: bool,
    /// The cache is an oplock: its party is an open without a lease.
    pub oplock: bool,
}

/// What a break leaves of a cache, None if it leaves nothing (MS-FSA 2.1.4.12, RFC 7530 10.4.4):
///
/// | kind | for a range | for a share | for a share, if an oplock is broken or the cache covers a blocking share |
/// |---|---|---|---|
/// | R | none | R | R |
/// | RH | none | RH | R |
/// | RW | none | R | R |
/// | RWH | none | RH | R |
/// | read delegation | none | none | none |
/// | write delegation | none | none | none |
///
/// It takes no memory.
#[tactic(auto, unfolding(crate::specs::Targets::target_of))]
pub fn target(kind: CacheKind, need: Need) -> Option<CacheKind>
    ensures table { result ≡ target_of kind need }
    ensures within { IfSome result (λ left. kind_lies_within left kind ≡ true) }
    ensures range { need.range ≡ true → result ≡ None }
    ensures delegation { is_delegation kind ≡ true → result ≡ None }
    ensures share { IfSome result (λ left. (access deny : Rwd) → guarding left access deny ≡ false) }
    ensures handle { loses_handle need ≡ true → IfSome result (λ left. keeps_handle left ≡ false) }
{
    if need.range {
        return None;
    }
    let keeps_handle = !need.covered && !need.oplock;
    match kind {
        CacheKind::RH | CacheKind::RWH if keeps_handle => Some(CacheKind::RH),
        CacheKind::R | CacheKind::RH | CacheKind::RW | CacheKind::RWH => Some(CacheKind::R),
        CacheKind::ReadDeleg | CacheKind::WriteDeleg => None,
    }
}

/// Whether a break of this kind to this target takes effect only once its party has answered. Only R to none does not:
/// its party is sent the break, and the cache has ended (MS-SMB2 3.3.4.6). It takes no memory.
pub fn answer_needed(kind: CacheKind, target: Option<CacheKind>) -> bool
    ensures { result ≡ needs_answer kind target }
{
    match (kind, target) {
        (CacheKind::R, None) => false,
        _ => true,
    }
}

/// Whether the first, which may be left of a cache, is no more than the second. None is left of one that ends. A party
/// may keep no more of a broken cache than the break's target.
pub fn rest_within(a: Option<CacheKind>, b: Option<CacheKind>) -> bool
    ensures { result ≡ rest_lies_within a b }
{
    match (a, b) {
        (None, _) => true,
        (Some(_), None) => false,
        (Some(kind), Some(other)) => kind_within(kind, other),
    }
}
