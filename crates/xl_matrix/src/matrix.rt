//! The matrix: which two claims may be held together.
ghost use Rattle.std.specs.Prelude.{◌≡◌};
ghost use Rattle.xl_matrix.specs.Kinds.{writes, keeps_handle, guarding};
ghost use Rattle.xl_matrix.specs.Matrix.{shares_fit, ranges_meet, modes_fit, ranges_fit, fit_by, compat};

use crate::claim::{CacheKind, Claim, Extent, Rwd, What};
use crate::equal::{same_owner, same_party};
use crate::extent::meet;
use crate::owner::is_posix;
use crate::right::{has_common, is_none};
use xl_base::Owner;

/// Whether its party may write without telling: RW, RWH and a write delegation.
pub fn has_write(kind: CacheKind) -> bool
    ensures { result ≡ writes kind }
{
    match kind {
        CacheKind::RW | CacheKind::RWH | CacheKind::WriteDeleg => true,
        CacheKind::R | CacheKind::RH | CacheKind::ReadDeleg => false,
    }
}

/// Whether its party may keep the file open without telling: RH, RWH and both delegations.
pub fn has_handle(kind: CacheKind) -> bool
    ensures { result ≡ keeps_handle kind }
{
    match kind {
        CacheKind::RH | CacheKind::RWH | CacheKind::ReadDeleg | CacheKind::WriteDeleg => true,
        CacheKind::R | CacheKind::RW => false,
    }
}

/// Whether a cache of this kind stands against a share of another party, with this access and deny. R and RH stand
/// against none; a read delegation against one that may write or denies reading (RFC 7530 10.4); a kind that may
/// write against each share except one that has no access and denies nothing.
pub fn guards(kind: CacheKind, access: Rwd, deny: Rwd) -> bool
    ensures { result ≡ guarding kind access deny }
{
    match kind {
        CacheKind::R | CacheKind::RH => false,
        CacheKind::ReadDeleg => access.w || deny.r,
        CacheKind::RW | CacheKind::RWH | CacheKind::WriteDeleg => !(is_none(access)
            && is_none(deny)),
    }
}

fn do_shares_fit(access: Rwd, deny: Rwd, other: Rwd, denied: Rwd) -> bool
    ensures { result ≡ shares_fit access deny other denied }
{
    !has_common(access, denied) && !has_common(other, deny)
}

fn do_ranges_meet(owner: Owner, extent: Extent, other: Owner, place: Extent) -> bool
    ensures { result ≡ ranges_meet owner extent other place }
{
    meet(!is_posix(owner) && !is_posix(other), extent, place)
}

fn do_modes_fit(owner: Owner, exclusive: bool, other: Owner, alone: bool) -> bool
    ensures { result ≡ modes_fit owner exclusive other alone }
{
    if same_owner(owner, other) {
        !is_posix(owner) && !(exclusive && alone)
    } else {
        !exclusive && !alone
    }
}

fn do_ranges_fit(
    owner: Owner,
    extent: Extent,
    exclusive: bool,
    other: Owner,
    place: Extent,
    alone: bool,
) -> bool
    ensures { result ≡ ranges_fit owner extent exclusive other place alone }
{
    !do_ranges_meet(owner, extent, other, place) || do_modes_fit(owner, exclusive, other, alone)
}

#[tactic(auto, unfolding(crate::specs::Matrix::fit_by))]
fn do_fit(a: &Claim, b: &Claim) -> bool
    ensures { result ≡ fit_by a.now b.now a.now.what b.now.what }
{
    match (a.what, b.what) {
        (What::Share(access, deny), What::Share(other, denied)) => do_shares_fit(
            access, deny, other, denied,
        ),
        (What::Range(extent, exclusive), What::Range(place, alone)) => do_ranges_fit(
            a.owner, extent, exclusive, b.owner, place, alone,
        ),
        (What::Share(_, _), What::Range(_, _)) | (What::Range(_, _), What::Share(_, _)) => true,
        (What::Cache(kind, _), What::Share(access, deny))
        | (What::Share(access, deny), What::Cache(kind, _)) => {
            same_party(a.party, b.party) || !guards(kind, access, deny)
        }
        (What::Cache(_, _), What::Range(_, _)) | (What::Range(_, _), What::Cache(_, _)) =>
            same_party(a.party, b.party),
        (What::Cache(kind, _), What::Cache(other, _)) => !same_party(a.party, b.party)
            && !has_write(kind)
            && !has_write(other),
    }
}

/// Whether two claims may be held together. Claims on two files always may. On one file:
///
/// | pair | if |
/// |---|---|
/// | two shares | neither's access meets what the other denies |
/// | ranges of two owners | they do not meet, or both are shared |
/// | ranges of one NLM or NFSv4 owner | they do not meet |
/// | ranges of one SMB open | they do not meet, or not both are exclusive |
/// | a share and a range | always |
/// | a cache and a share | both are of one party, or the kind does not guard against the share |
/// | a cache and a range | both are of one party |
/// | two caches | they are of two parties, and neither may write |
///
/// A running break changes nothing. It takes no memory.
#[tactic(auto, unfolding(crate::specs::Matrix::compat))]
pub fn compatible(a: &Claim, b: &Claim) -> bool
    ensures { result ≡ compat a.now b.now }
{
    a.file != b.file || do_fit(a, b)
}
