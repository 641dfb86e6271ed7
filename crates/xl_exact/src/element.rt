//! One locked byte range.
ghost use Rattle.std.specs.Prelude.{◌≡◌, ◌+◌, nat_lt};
ghost use Rattle.xl_exact.specs.Elements.{meets, conflicts, conflicts_own, has_range, is_exclusive_at};

/// A range as it was locked (MS-FSA 2.1.5.8): its offset, its length and its mode. A range of length 0 has no byte, yet
/// may meet another.
#[derive(Clone, Copy)]
pub struct Element {
    /// The offset of the first byte.
    pub first: u64,
    /// How many bytes it has; `first + len` is at most 2^64.
    pub len: u64,
    /// Whether it is locked for this open alone; else it is shared.
    pub exclusive: bool,
}

/// Whether the byte lies before the end of the range.
fn is_before_end(byte: u64, first: u64, len: u64) -> bool
    ensures { result ≡ nat_lt byte (first + len) }
{
    byte < first || byte - first < len
}

/// Whether the range meets the element.
#[tactic(auto, unfolding(crate::specs::Elements::meets), using(crate::proofs::ElementLaws::meets_is))]
fn meets(first: u64, len: u64, element: &Element) -> bool
    ensures { result ≡ meets first len element.now }
{
    is_before_end(element.first, first, len) && is_before_end(first, element.first, element.len)
}

/// Whether another open's lock of the range in this mode conflicts with the element.
pub(crate) fn conflicts(first: u64, len: u64, exclusive: bool, element: &Element) -> bool
    ensures { result ≡ conflicts first len exclusive element.now }
{
    meets(first, len, element) && (exclusive || element.exclusive)
}

/// Whether the open's own lock of the range in this mode conflicts with the element.
pub(crate) fn conflicts_own(first: u64, len: u64, exclusive: bool, element: &Element) -> bool
    ensures { result ≡ conflicts_own first len exclusive element.now }
{
    meets(first, len, element) && exclusive
}

/// Whether the element has just this range.
pub(crate) fn has_range(first: u64, len: u64, element: &Element) -> bool
    ensures { result ≡ has_range first len element.now }
{
    element.first == first && element.len == len
}

/// Whether the element has just this range, and is exclusive.
pub(crate) fn is_exclusive_at(first: u64, len: u64, element: &Element) -> bool
    ensures { result ≡ is_exclusive_at first len element.now }
{
    has_range(first, len, element) && element.exclusive
}
