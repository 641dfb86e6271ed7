//! Searches of an open's elements, and what an unlock takes out of them.
ghost use Rattle.std.specs.Prelude.{◌≡◌, ◌+◌, ◌<◌, true, false, length, IfSome, IfNone, if◌then◌else◌, is_some, remove, position, vec_len, vec_capacity};
ghost use Rattle.xl_exact.specs.Elements.{has_range, is_exclusive_at, is_locked, unlocked, place_unlocked, first_conflict, first_own_conflict};

use crate::element::{Element, conflicts, conflicts_own, has_range, is_exclusive_at};

/// The place of the first exclusive element of just this range.
fn exclusive_place(elements: &[Element], first: u64, len: u64) -> Option<usize>
    ensures { result ≡ position (is_exclusive_at first len) elements.now }
{
    elements
        .iter()
        .position(|element| is_exclusive_at(first, len, element))
}

/// The place of the first element of just this range.
fn first_place(elements: &[Element], first: u64, len: u64) -> Option<usize>
    ensures { result ≡ position (has_range first len) elements.now }
{
    elements
        .iter()
        .position(|element| has_range(first, len, element))
}

/// The place of the element that an unlock of the range takes out.
#[tactic(auto, using(crate::proofs::ElementLaws::exclusive_unlocked, crate::proofs::ElementLaws::first_unlocked, crate::proofs::ElementLaws::none_unlocked))]
pub(crate) fn place_to_unlock(elements: &[Element], first: u64, len: u64) -> Option<usize>
    ensures value { result ≡ place_unlocked first len elements.now }
    ensures found { IfSome result (λ i. (i < length elements.now) × (is_locked first len elements.now ≡ true) × (unlocked first len elements.now ≡ remove elements.now i)) }
    ensures none { IfNone result ((is_locked first len elements.now ≡ false) × (unlocked first len elements.now ≡ elements.now)) }
{
    match exclusive_place(elements, first, len) {
        Some(place) => Some(place),
        None => first_place(elements, first, len),
    }
}

/// Takes out what an unlock of the range takes, and gives the place that it had; None if no element has just this
/// range.
pub(crate) fn take_out(items: &mut Vec<Element>, first: u64, len: u64) -> Option<usize>
    ensures value { result ≡ place_unlocked first len items.old.items }
    ensures found { is_some result ≡ is_locked first len items.old.items }
    ensures items { items.new.items ≡ unlocked first len items.old.items }
    ensures len { vec_len items.new + (if is_some result then 1 else 0) ≡ vec_len items.old }
    ensures capacity { vec_capacity items.new ≡ vec_capacity items.old }
{
    match place_to_unlock(items, first, len) {
        Some(place) => {
            let _ = items.remove(place);
            Some(place)
        }
        None => None,
    }
}

/// The first element that another open's lock of the range in this mode conflicts with.
pub(crate) fn first_conflict(
    elements: &[Element],
    first: u64,
    len: u64,
    exclusive: bool,
) -> Option<Element>
    ensures { result ≡ first_conflict first len exclusive elements.now }
{
    'elements: for element in elements {
        if conflicts(first, len, exclusive, element) {
            return Some(*element);
        }
    }
    None
}

/// The first element that the open's own lock of the range in this mode conflicts with.
pub(crate) fn first_own_conflict(
    elements: &[Element],
    first: u64,
    len: u64,
    exclusive: bool,
) -> Option<Element>
    ensures { result ≡ first_own_conflict first len exclusive elements.now }
{
    'elements: for element in elements {
        if conflicts_own(first, len, exclusive, element) {
            return Some(*element);
        }
    }
    None
}
