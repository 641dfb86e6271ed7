//! What the core is asked for a lock owner.
ghost use Rattle.std.specs.Prelude.{◌≡◌, ◌≤◌, IfOk};
ghost use Rattle.xl_core.specs.Askers.{IsFit};
ghost use Rattle.xl_nfs_locks.specs.Ranges.{lock_ask, test_ask};
ghost use Rattle.xl_nfs_opens.specs.Short.{IsNfsAsk};

use crate::ranges::is_exclusive;
use std::alloc::{AllocError, Global};
use xl_base::Sequence;
use xl_core::{Act, Ask};
use xl_matrix::Extent;
use xl_nfs::LockType;
use xl_nfs_opens::{Opener, range_ask};

/// What is asked for LOCKT.
pub(crate) fn test_ask(
    alloc: Global,
    owner: &Opener,
    file: u32,
    kind: LockType,
    first: u64,
    last: u64,
) -> Result<Ask, AllocError>
    requires ends { first ≤ last }
    ensures value { IfOk result (λ ask. ask ≡ test_ask owner.now file kind first last) }
    ensures fit { IfOk result (λ ask. IsFit ask) }
    ensures nfs { IfOk result (λ ask. IsNfsAsk ask) }
{
    let act = Act::Test(Extent::Bytes(first, last), is_exclusive(kind));
    range_ask(alloc, owner, file, act, false)
}

/// What is asked for LOCK.
pub(crate) fn lock_ask(
    alloc: Global,
    owner: &Opener,
    file: u32,
    kind: LockType,
    reclaim: bool,
    first: u64,
    last: u64,
) -> Result<Ask, AllocError>
    requires ends { first ≤ last }
    ensures value { IfOk result (λ ask. ask ≡ lock_ask owner.now file kind reclaim first last) }
    ensures fit { IfOk result (λ ask. IsFit ask) }
    ensures nfs { IfOk result (λ ask. IsNfsAsk ask) }
{
    let mut ranges = Sequence::new(alloc);
    ranges.push((Extent::Bytes(first, last), is_exclusive(kind)))?;
    range_ask(alloc, owner, file, Act::Ranges(ranges), reclaim)
}
