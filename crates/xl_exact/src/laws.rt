//! Laws of this crate's definitions, for the layers above. The functions do nothing: each has a law as its clause.
ghost use Rattle.std.specs.Prelude.{◌≡◌, ℕ, ◌<◌, ◌-◌, true, false, ◌&&◌, ◌||◌, ◌↔◌, Bool, List, ◌++◌, ◌∷◌, [], length, nat_lt};
ghost use Rattle.xl_exact.specs.declared.element.Element.{Element};
ghost use Rattle.xl_exact.specs.Elements.{covers, meets, conflicts, is_locked, unlocked, undone};

/// Two ranges that have bytes meet exactly if they have a common one.
#[tactic(auto, using(crate::proofs::ElementLaws::meets_by_bytes))]
pub fn ranges_meet_by_their_bytes()
    ensures { (first len : ℕ) (e : Element) → 0 < len → 0 < e.len → (meets first len e ≡ true) ↔ ((x : ℕ) × (covers first len x ≡ true) × (covers e.first e.len x ≡ true)) }
{}

/// A range without a byte meets an element exactly if that has both the byte before its offset and the byte at it; so
/// at offset 0 it meets none, and no other range without a byte.
#[tactic(auto, using(crate::proofs::ElementLaws::empty_meets))]
pub fn empty_ranges_meet_what_lies_on_both_sides()
    ensures { (offset : ℕ) (e : Element) → meets offset 0 e ≡ (nat_lt 0 offset && (covers e.first e.len (offset - 1) && covers e.first e.len offset)) }
{}

/// Which of two ranges is asked for and which is locked makes no difference to whether they meet.
#[tactic(auto, using(crate::proofs::ElementLaws::meets_both_ways))]
pub fn meeting_has_no_sides()
    ensures { (a b : Element) → meets a.first a.len b ≡ meets b.first b.len a }
{}

/// The last locks, once taken back, leave what was there before them.
#[tactic(auto, using(crate::proofs::ElementLaws::undone_locks))]
pub fn undo_takes_back_the_last_locks()
    ensures { (before locks : List Element) → undone (length locks) (before ++ locks) ≡ before }
{}

/// An unlock right after a lock of a range that was not locked leaves what was there before.
#[tactic(auto, using(crate::proofs::ElementLaws::unlocked_lock))]
pub fn unlock_takes_back_a_lock()
    ensures { (es : List Element) (first len : ℕ) (exclusive : Bool) → is_locked first len es ≡ false → unlocked first len (es ++ record { first = first; len = len; exclusive = exclusive } ∷ []) ≡ es }
{}
