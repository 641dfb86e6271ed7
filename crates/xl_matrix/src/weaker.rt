//! Which claim is no more than another.
ghost use Rattle.std.specs.Prelude.{◌≡◌};
ghost use Rattle.xl_matrix.specs.Kinds.{kind_lies_within};
ghost use Rattle.xl_matrix.specs.Weaker.{weaker};

use crate::claim::{CacheKind, Claim, What};
use crate::equal::{same_owner, same_party};
use crate::extent::extent_within;
use crate::right::{follows, rights_within};

/// Whether what the first allows the second allows too: R lies within RH and RW, these within RWH, a read delegation
/// within a write delegation, and each within itself.
pub fn kind_within(a: CacheKind, b: CacheKind) -> bool
    ensures { result ≡ kind_lies_within a b }
{
    match (a, b) {
        (CacheKind::R, CacheKind::R | CacheKind::RH | CacheKind::RW | CacheKind::RWH) => true,
        (CacheKind::RH, CacheKind::RH | CacheKind::RWH) => true,
        (CacheKind::RW, CacheKind::RW | CacheKind::RWH) => true,
        (CacheKind::RWH, CacheKind::RWH) => true,
        (CacheKind::ReadDeleg, CacheKind::ReadDeleg | CacheKind::WriteDeleg) => true,
        (CacheKind::WriteDeleg, CacheKind::WriteDeleg) => true,
        _ => false,
    }
}

/// Whether the first claim is no more than the second, of the same file and names: of a share its access and deny, of
/// a range its bytes in no stronger mode (an empty range is no more than itself alone), of a cache its kind. A running
/// break changes nothing, and a cache goes by its party alone.
#[tactic(auto, unfolding(crate::specs::Weaker::weaker, crate::specs::Weaker::weaker_by))]
pub fn lies_within(a: &Claim, b: &Claim) -> bool
    ensures { result ≡ weaker a.now b.now }
{
    if a.file != b.file || !same_party(a.party, b.party) {
        return false;
    }
    match (a.what, b.what) {
        (What::Share(access, deny), What::Share(other, denied)) => {
            same_owner(a.owner, b.owner)
                && rights_within(access, other)
                && rights_within(deny, denied)
        }
        (What::Range(extent, exclusive), What::Range(place, alone)) => {
            same_owner(a.owner, b.owner)
                && extent_within(extent, place)
                && follows(exclusive, alone)
        }
        (What::Cache(kind, _), What::Cache(other, _)) => kind_within(kind, other),
        _ => false,
    }
}
