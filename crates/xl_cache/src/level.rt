//! Kinds of caches as SMB numbers them.
ghost use Rattle.std.specs.Prelude.{◌≡◌, IfOk};
ghost use Rattle.xl_cache.specs.Levels.{state_of, kind_of_state, level_of, choices_of_kind, lease_choices, oplock_choices};

use std::alloc::{AllocError, Global};
use xl_base::Sequence;
use xl_matrix::CacheKind;

/// The lease state of a kind, or of none: bit 1 for reading, 2 for the handle, 4 for writing (MS-SMB2 2.2.13.2.8). It
/// is 0 for a delegation, which is no lease.
pub fn lease_state(kind: Option<CacheKind>) -> u32
    ensures { result ≡ state_of kind }
{
    match kind {
        Some(CacheKind::R) => 1,
        Some(CacheKind::RH) => 3,
        Some(CacheKind::RW) => 5,
        Some(CacheKind::RWH) => 7,
        Some(CacheKind::ReadDeleg | CacheKind::WriteDeleg) | None => 0,
    }
}

/// The kind of a lease state; None if the state is not 1, 3, 5 or 7.
#[tactic(auto, unfolding(crate::specs::Levels::kind_of_state))]
pub fn kind_in_lease(state: u32) -> Option<CacheKind>
    ensures { result ≡ kind_of_state state }
{
    match state {
        1 => Some(CacheKind::R),
        3 => Some(CacheKind::RH),
        5 => Some(CacheKind::RW),
        7 => Some(CacheKind::RWH),
        _ => None,
    }
}

/// The oplock level of a kind, or of none: 0 none, 1 level II, 8 exclusive, 9 batch (MS-SMB2 2.2.14). No oplock has the
/// kind RH; it counts as level II.
pub fn oplock_level(kind: Option<CacheKind>) -> u8
    ensures { result ≡ level_of kind }
{
    match kind {
        Some(CacheKind::R | CacheKind::RH) => 1,
        Some(CacheKind::RW) => 8,
        Some(CacheKind::RWH) => 9,
        Some(CacheKind::ReadDeleg | CacheKind::WriteDeleg) | None => 0,
    }
}

fn choices(alloc: Global, kind: Option<CacheKind>) -> Result<Vec<CacheKind>, AllocError>
    ensures { IfOk result (λ v. v.items ≡ choices_of_kind kind) }
{
    match kind {
        Some(CacheKind::RWH) => Vec::from_slice(
            alloc,
            &[CacheKind::RWH, CacheKind::RH, CacheKind::R],
        ),
        Some(CacheKind::RW) => Vec::from_slice(alloc, &[CacheKind::RW, CacheKind::R]),
        Some(CacheKind::RH) => Vec::from_slice(alloc, &[CacheKind::RH, CacheKind::R]),
        Some(CacheKind::R) => Vec::from_slice(alloc, &[CacheKind::R]),
        _ => Ok(Vec::new(alloc)),
    }
}

/// The kinds that one who asks for a lease of this state wishes for, the first choice first (MS-SMB2 3.3.5.9.8): of 7
/// RWH, RH, R; of 5 RW, R; of 3 RH, R; of 1 R; of another state none.
pub fn wish_of_lease(alloc: Global, state: u32) -> Result<Sequence<CacheKind>, AllocError>
    ensures { IfOk result (λ kinds. kinds ≡ lease_choices state) }
{
    Ok(Sequence::from_vec(choices(alloc, kind_in_lease(state))?))
}

/// The kinds that one who asks for an oplock of this level wishes for, the first choice first (MS-SMB2 3.3.5.9): of 9
/// RWH, R; of 8 RW, R; of 1 R; of another level none.
#[tactic(auto, unfolding(crate::specs::Levels::oplock_choices))]
pub fn wish_of_oplock(alloc: Global, level: u8) -> Result<Sequence<CacheKind>, AllocError>
    ensures { IfOk result (λ kinds. kinds ≡ oplock_choices level) }
{
    match level {
        9 => Sequence::from_slice(alloc, &[CacheKind::RWH, CacheKind::R]),
        8 => Sequence::from_slice(alloc, &[CacheKind::RW, CacheKind::R]),
        1 => Sequence::from_slice(alloc, &[CacheKind::R]),
        _ => Ok(Sequence::new(alloc)),
    }
}
