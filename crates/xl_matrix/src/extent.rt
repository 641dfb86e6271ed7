//! Where ranges lie.
ghost use Rattle.std.specs.Prelude.{◌≡◌};
ghost use Rattle.xl_matrix.specs.Extents.{has_byte, has_both_sides, meeting, lies_in};

use crate::claim::Extent;

/// Whether the byte is in the range; an empty range has none.
pub fn covers(extent: Extent, byte: u64) -> bool
    ensures { result ≡ has_byte extent byte }
{
    match extent {
        Extent::Bytes(first, last) => first <= byte && byte <= last,
        Extent::Empty(_) => false,
    }
}

/// Whether both the byte before the offset and the byte at it are in the range.
fn lies_round(extent: Extent, offset: u64) -> bool
    ensures { result ≡ has_both_sides extent offset }
{
    match extent {
        Extent::Bytes(first, last) => first < offset && offset <= last,
        Extent::Empty(_) => false,
    }
}

/// Whether two ranges meet: if they have a common byte (RFC 7530 16.10), or, if both are SMB ranges, if one
/// is empty and the other has both the byte before its offset and the byte at it. At offset 0 an empty range meets
/// none, and two empty ranges never meet.
pub fn meet(smb: bool, a: Extent, b: Extent) -> bool
    ensures { result ≡ meeting smb a b }
{
    match (a, b) {
        (Extent::Bytes(first, last), Extent::Bytes(start, end)) => first.max(start)
            <= last.min(end),
        (Extent::Bytes(_, _), Extent::Empty(offset)) => smb && lies_round(a, offset),
        (Extent::Empty(offset), Extent::Bytes(_, _)) => smb && lies_round(b, offset),
        (Extent::Empty(_), Extent::Empty(_)) => false,
    }
}

/// Whether the bytes of the first are bytes of the second. An empty range lies within itself alone: it has no byte,
/// and yet may meet what meets no byte of the second.
pub fn extent_within(a: Extent, b: Extent) -> bool
    ensures { result ≡ lies_in a b }
{
    match (a, b) {
        (Extent::Bytes(first, last), Extent::Bytes(start, end)) => start <= first && last <= end,
        (Extent::Empty(offset), Extent::Empty(at)) => offset == at,
        _ => false,
    }
}
