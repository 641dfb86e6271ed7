//! The ranges that a LOCK names, and the checks on them.
ghost use Rattle.std.specs.Prelude.{◌≡◌, false, not, length, IfOk};
ghost use Rattle.std.specs.List.{list_any};
ghost use Rattle.xl_smb.specs.Locks.{elements_of};
ghost use Rattle.xl_smb_locks.specs.Elements.{wraps, extent_of, is_unlock, is_locking, is_lock, is_exclusive, may_wait, is_count, unlocks_first, any_waits, unlock_fault, lock_fault};

use crate::status::SmbStatus;
use std::alloc::{AllocError, Global};
use xl_matrix::Extent;
use xl_smb::{LockElement, LockElements};

/// The ranges of a request, in order (MS-SMB2 2.2.26).
#[tactic(auto, using(crate::proofs::LockLaws::next_listed))]
pub fn elements_of(
    alloc: Global,
    elements: LockElements<'_>,
) -> Result<Vec<LockElement>, AllocError>
    ensures { IfOk result (λ v. v.items ≡ elements_of elements.entry.0.now) }
{
    let mut listed = Vec::new(alloc);
    let mut index = 0;
    'elements: while index < elements.len() {
        listed.push(elements.at(index))?;
        index += 1;
    }
    Ok(listed)
}

/// Whether a range reaches past the last byte that there is.
fn wraps(element: &LockElement) -> bool
    ensures { result ≡ wraps element.now }
{
    element.length != 0 && element.offset.checked_add(element.length - 1).is_none()
}

/// The bytes of a range, which doesn't wrap.
pub(crate) fn extent_of(element: &LockElement) -> Extent
    requires { wraps element.now ≡ false }
    ensures { result ≡ extent_of element.now }
{
    if element.length == 0 {
        Extent::Empty(element.offset)
    } else {
        Extent::Bytes(element.offset, element.offset + (element.length - 1))
    }
}

/// Whether a range is to be unlocked.
fn is_unlock(element: &LockElement) -> bool
    ensures { result ≡ is_unlock element.now }
{
    element.flags & 4 != 0
}

/// Whether a range is to be locked.
fn is_locking(element: &LockElement) -> bool
    ensures { result ≡ is_locking element.now }
{
    element.flags & 1 != 0 || element.flags & 2 != 0
}

/// Whether the flags are those of a lock, and no others.
fn is_lock(element: &LockElement) -> bool
    ensures { result ≡ is_lock element.now }
{
    let flags = element.flags;
    flags == 1 || flags == 2 || flags == 0x11 || flags == 0x12
}

/// Whether a lock is exclusive.
pub(crate) fn is_exclusive(element: &LockElement) -> bool
    ensures { result ≡ is_exclusive element.now }
{
    element.flags & 2 != 0
}

/// Whether a lock waits if it can't be had immediately.
fn may_wait(element: &LockElement) -> bool
    ensures { result ≡ may_wait element.now }
{
    element.flags & 0x10 == 0
}

/// Whether a request may have so many ranges: 1 to 64.
pub fn is_count(count: usize) -> bool
    ensures { result ≡ is_count count }
{
    count != 0 && count < 65
}

/// Whether the first range is to be unlocked, and so all.
pub fn unlocks_first(elements: &[LockElement]) -> bool
    ensures { result ≡ unlocks_first elements.now }
{
    match elements {
        [] => false,
        [first, ..] => is_unlock(first),
    }
}

/// Whether any of these isn't just a lock.
fn any_other(elements: &[LockElement]) -> bool
    ensures { result ≡ list_any (λ e. not (is_lock e)) elements.now }
{
    elements.iter().any(|element| !is_lock(element))
}

/// Whether any of these locks waits if it can't be had immediately.
pub(crate) fn any_waits(elements: &[LockElement]) -> bool
    ensures { result ≡ any_waits elements.now }
{
    elements.iter().any(may_wait)
}

/// Whether any of these ranges reaches past the last byte.
fn any_wraps(elements: &[LockElement]) -> bool
    ensures { result ≡ list_any wraps elements.now }
{
    elements.iter().any(wraps)
}

/// Why an unlock is refused before it is asked for; None if it isn't. INVALID_PARAMETER comes for one that locks too,
/// then INVALID_LOCK_RANGE for a range that reaches past the last byte (MS-SMB2 3.3.5.14.1).
#[tactic(auto, unfolding(crate::specs::Elements::unlock_fault))]
pub(crate) fn unlock_fault(element: &LockElement) -> Option<SmbStatus>
    ensures { result ≡ unlock_fault element.now }
{
    if is_locking(element) {
        return Some(SmbStatus::InvalidParameter);
    }
    if wraps(element) {
        return Some(SmbStatus::InvalidLockRange);
    }
    None
}

/// Why locks are refused before they are asked for; None if they aren't. INVALID_PARAMETER comes if one isn't just a
/// lock, or several may wait, then INVALID_LOCK_RANGE if a range reaches past the last byte (MS-SMB2 3.3.5.14.2).
#[tactic(auto, unfolding(crate::specs::Elements::lock_fault))]
pub fn lock_fault(elements: &[LockElement]) -> Option<SmbStatus>
    ensures { result ≡ lock_fault elements.now }
{
    if any_other(elements) {
        return Some(SmbStatus::InvalidParameter);
    }
    if elements.len() > 1 && any_waits(elements) {
        return Some(SmbStatus::InvalidParameter);
    }
    if any_wraps(elements) {
        return Some(SmbStatus::InvalidLockRange);
    }
    None
}
