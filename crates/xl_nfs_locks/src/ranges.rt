//! Ranges of bytes, and what the core is asked for them (RFC 7530 16.10.4).
ghost use Rattle.std.specs.Prelude.{◌≡◌, ◌≤◌, IfSome};
ghost use Rattle.xl_nfs_locks.specs.Ranges.{is_exclusive, last_byte, length_of, may_lock};

use xl_nfs::LockType;
use xl_nfs_opens::{SHARE_BOTH, SHARE_READ, SHARE_WRITE};

/// The last byte of a range, if the length names one: all ones reaches the last byte that there is.
#[tactic(auto, unfolding(crate::specs::Ranges::last_byte))]
pub(crate) fn last_byte(offset: u64, len: u64) -> Option<u64>
    ensures value { result ≡ last_byte offset len }
    ensures ends { IfSome result (λ last. offset ≤ last) }
{
    if len == 0 {
        return None;
    }
    if len == u64::MAX {
        return Some(u64::MAX);
    }
    let past = offset.checked_add(len)?;
    Some(past - 1)
}

/// The length by which a range is sent.
pub(crate) fn length_of(first: u64, last: u64) -> u64
    ensures { result ≡ length_of first last }
{
    if last == u64::MAX {
        u64::MAX
    } else {
        (last + 1).saturating_sub(first)
    }
}

/// Whether a lock of this type is exclusive.
pub(crate) fn is_exclusive(kind: LockType) -> bool
    ensures { result ≡ is_exclusive kind }
{
    matches!(kind, LockType::Write | LockType::WriteWaiting)
}

/// Whether an open of this access has locks of this type.
pub(crate) fn may_lock(kind: LockType, access: u32) -> bool
    ensures { result ≡ may_lock kind access }
{
    if is_exclusive(kind) {
        access == SHARE_WRITE || access == SHARE_BOTH
    } else {
        access == SHARE_READ || access == SHARE_BOTH
    }
}
