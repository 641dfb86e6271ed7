//! What a lock names.
ghost use Rattle.std.specs.Prelude.{◌≡◌};
ghost use Rattle.xl_nlm.specs.Items.{shown_lock};
ghost use Rattle.xl_front_nlm.specs.Aims.{exported, last_of, length_of, aimed};

use crate::outcome::Outcome;
use xl_base::file_of;
use xl_nlm::Lock;

/// The bytes of a file that a lock names.
#[derive(Clone, Copy)]
pub struct Aim {
    /// The file's number, from 1.
    pub file: u32,
    /// The first byte.
    pub first: u64,
    /// The last byte.
    pub last: u64,
}

/// The number of the file of a handle, if it is one of the exported files, of which there are so many.
pub(crate) fn exported(count: usize, fh: &[u8]) -> Option<u32>
    ensures { result ≡ exported count fh.now }
{
    match file_of(fh) {
        Some(file) if file != 0 && file as usize <= count => Some(file),
        _ => None,
    }
}

/// The last byte of a range; a length of 0 reaches the last byte that there is, and none passes it.
fn last_of(offset: u64, len: u64) -> Option<u64>
    ensures { result ≡ last_of offset len }
{
    if len == 0 {
        return Some(u64::MAX);
    }
    offset.checked_add(len - 1)
}

/// The length by which a range is sent.
pub(crate) fn length_of(first: u64, last: u64) -> u64
    ensures { result ≡ length_of first last }
{
    if last == u64::MAX {
        0
    } else {
        (last + 1).saturating_sub(first)
    }
}

/// The bytes that a lock names, or why it names none: the handle is judged before the range.
#[tactic(auto, unfolding(crate::specs::Aims::aimed))]
pub(crate) fn aimed(count: usize, lock: &Lock) -> Result<Aim, Outcome>
    ensures { result ≡ aimed count (shown_lock lock.now) }
{
    let Some(file) = exported(count, lock.fh) else {
        return Err(Outcome::NoFile);
    };
    let Some(last) = last_of(lock.l_offset, lock.l_len) else {
        return Err(Outcome::TooBig);
    };
    Ok(Aim {
        file,
        first: lock.l_offset,
        last,
    })
}
