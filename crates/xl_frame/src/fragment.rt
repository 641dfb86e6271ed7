//! One fragment of a message.
ghost use Rattle.std.specs.Prelude.{◌≡◌, ◌+◌, ◌^◌, ◌<◌, ◌≤◌, length, drop};
ghost use Rattle.xl_base.specs.Limits.{most_message_bytes};
ghost use Rattle.xl_frame.specs.Frames.{is_last, count_of, long_fault, record_fault, fault_of, fragment_at};
ghost use Rattle.xl_frame.specs.Shown.{shown_fragment, IfMore, IfBody};

use crate::fault::FrameBad;
use crate::wrapping::LAST;
use xl_base::{Kind, MOST_MESSAGE_BYTES};

/// How many fragments a record has at most.
pub(crate) const MOST_FRAGMENTS: u32 = 64;

/// What stands at the front of the bytes of a message that are still to be read.
pub(crate) enum Fragment<'a> {
    /// No whole fragment.
    Short,
    /// A header that no stream of frames has.
    Faulty(FrameBad),
    /// The bytes of a fragment that isn't the last, and those behind it.
    More(&'a [u8], &'a [u8]),
    /// The bytes of the last fragment, and those behind it.
    Last(&'a [u8], &'a [u8]),
}

/// The fragment at the front of the bytes, if its message may have so many fragments more and has so many bytes so
/// far.
#[tactic(auto, unfolding(crate::specs::Frames::fragment_at))]
pub(crate) fn fragment_at(kind: Kind, left: u32, sum: usize, bytes: &[u8]) -> Fragment<'_>
    requires { sum ≤ most_message_bytes }
    ensures value { shown_fragment result ≡ fragment_at kind left sum bytes.now }
    ensures more { IfMore (shown_fragment result) (λ body rest. (0 < left) × (sum + length body ≤ most_message_bytes)) }
    ensures body { IfBody (shown_fragment result) (λ body rest. (4 + length body ≤ length bytes.now) × (rest ≡ drop (4 + length body) bytes.now)) }
{
    if bytes.len() < 4 {
        return Fragment::Short;
    }
    let (front, rest) = bytes.split_at(4);
    let number = u32::from_be_bytes([front[0], front[1], front[2], front[3]]);
    if let Some(fault) = fault_of(kind, left, sum, front[0], number) {
        return Fragment::Faulty(fault);
    }
    let count = count_of(kind, number);
    if rest.len() < count {
        return Fragment::Short;
    }
    let (body, rest) = rest.split_at(count);
    if is_last(kind, number) {
        Fragment::Last(body, rest)
    } else {
        Fragment::More(body, rest)
    }
}

/// The bytes from this place on.
pub(crate) fn behind(bytes: &[u8], at: usize) -> &[u8]
    requires { at ≤ length bytes.now }
    ensures { result.now ≡ drop at bytes.now }
{
    bytes.split_at(at).1
}

/// Whether the fragment under this header is the last of its message.
fn is_last(kind: Kind, number: u32) -> bool
    ensures { result ≡ is_last kind number }
{
    match kind {
        Kind::Rpc => number >= LAST,
        Kind::Smb => true,
    }
}

/// How many bytes the fragment under this header has.
fn count_of(kind: Kind, number: u32) -> usize
    ensures { result ≡ count_of kind number }
{
    match kind {
        Kind::Rpc if number >= LAST => (number - LAST) as usize,
        _ => number as usize,
    }
}

/// The fault of a header, whose first byte and whose four bytes as a number these are.
fn fault_of(kind: Kind, left: u32, sum: usize, first: u8, number: u32) -> Option<FrameBad>
    requires { sum ≤ most_message_bytes }
    ensures { result ≡ fault_of kind left sum first number }
{
    match kind {
        Kind::Rpc => record_fault(left, sum, is_last(kind, number), count_of(kind, number)),
        Kind::Smb if first == 0 => long_fault(number as usize),
        Kind::Smb => Some(FrameBad::Marker(first)),
    }
}

/// The fault of a record's fragment.
fn record_fault(left: u32, sum: usize, last: bool, count: usize) -> Option<FrameBad>
    requires sum { sum ≤ most_message_bytes }
    requires count { count < 2 ^ 32 }
    ensures { result ≡ record_fault left sum last count }
{
    if !last && count == 0 {
        Some(FrameBad::Empty)
    } else if left == 0 {
        Some(FrameBad::Fragments(MOST_FRAGMENTS + 1))
    } else {
        long_fault(sum + count)
    }
}

/// The fault of a message that would have so many bytes.
fn long_fault(count: usize) -> Option<FrameBad>
    ensures { result ≡ long_fault count }
{
    if count > MOST_MESSAGE_BYTES {
        Some(FrameBad::Long(count as u64))
    } else {
        None
    }
}
