//! An open's exact ranges in one file.
ghost use Rattle.std.specs.Prelude.{◌≡◌, ℕ, ◌+◌, ◌-◌, ◌≤◌, ◌↔◌, true, false, List, [], ◌∷◌, ◌++◌, if◌then◌else◌, is_some, length, take, None, IfSome, OnOk, OnErr, vec_len, vec_capacity, IsTrue, not};
ghost use Rattle.std.specs.List.{filter, list_any};
ghost use Rattle.xl_base.specs.Lists.{IsIn};
ghost use Rattle.xl_exact.specs.Elements.{IsRange, AreRanges, conflicts, conflicts_own, first_conflict, first_own_conflict, has_range, is_locked, unlocked, place_unlocked, undone};

use crate::element::Element;
use crate::listing::{first_conflict, first_own_conflict, take_out};
use std::alloc::{AllocError, Global};
use std::marker::Model;

/// The byte ranges that one SMB open has locked in one file, one element for each lock, in the order of locking. Elements
/// may overlap and may be equal (EXACT-1). A contract sees the elements, and how many more fit without memory.
#[derive(Drop)]
pub struct Exact {
    items: Vec<Element>,
}

impl Model for Exact {
    ghost use Rattle.std.specs.Prelude.{◌-◌, vec_len, vec_capacity};
    ghost use Rattle.xl_exact.specs.Elements.{Elements, AreRanges};

    ghost Value = { Elements };

    ghost view = { λ e. record { elements = e.items.items; spare = vec_capacity e.items - vec_len e.items } };

    ghost invariant = { λ e. AreRanges e.items.items };
}

impl Exact {
    /// No elements; it takes no memory.
    pub fn new(alloc: Global) -> Exact
        ensures { result ≡ record { elements = []; spare = 0 } }
    {
        Exact {
            items: Vec::new(alloc),
        }
    }

    /// These elements, of which none wraps, in the order of locking; it takes no memory.
    pub fn from_vec(items: Vec<Element>) -> Exact
        requires { AreRanges items.items }
        ensures { result ≡ record { elements = items.items; spare = vec_capacity items - vec_len items } }
    {
        Exact { items }
    }

    /// The elements as a vector; it takes no memory.
    pub fn into_vec(self) -> Vec<Element>
        ensures elements { result.items ≡ self.elements }
        ensures spare { vec_capacity result - vec_len result ≡ self.spare }
        ensures ranges { AreRanges result.items }
    {
        let Exact { items } = self;
        items
    }

    /// The elements in the order of locking.
    pub fn elements(&self) -> &[Element]
        ensures elements { result.now ≡ self.now.elements }
        ensures ranges { AreRanges result.now }
    {
        &self.items
    }

    /// How many elements there are.
    pub fn len(&self) -> usize
        ensures { result ≡ length self.now.elements }
    {
        self.items.len()
    }

    /// Whether nothing is locked.
    pub fn is_empty(&self) -> bool
        ensures { IsTrue result ↔ (self.now.elements ≡ []) }
    {
        self.items.is_empty()
    }

    /// How many more elements fit without memory.
    pub fn spare(&self) -> usize
        ensures { result ≡ self.now.spare }
    {
        self.items.capacity() - self.items.len()
    }

    /// Makes room for `n` more elements. Want of memory leaves all as it was.
    pub fn reserve(&mut self, n: usize) -> Result<(), AllocError>
        ensures elements { self.new.elements ≡ self.old.elements }
        ensures ok { OnOk result (n ≤ self.new.spare) }
        ensures grows { self.old.spare ≤ self.new.spare }
        ensures err { OnErr result (self.new ≡ self.old) }
    {
        self.items.reserve(n)
    }

    /// Locks the `len` bytes from `first` on, exclusively or shared, as one more element behind the others. The room was
    /// made before, so it cannot fail. Whether the lock may be had is not looked at here.
    #[tactic(auto, using(crate::proofs::ElementLaws::undone_lock, crate::proofs::ElementLaws::unlocked_lock))]
    pub fn lock(&mut self, first: u64, len: u64, exclusive: bool)
        requires range { IsRange first len }
        requires room { 1 ≤ self.old.spare }
        ensures elements { self.new.elements ≡ self.old.elements ++ record { first = first; len = len; exclusive = exclusive } ∷ [] }
        ensures spare { self.new.spare + 1 ≡ self.old.spare }
        ensures undo { undone 1 self.new.elements ≡ self.old.elements }
        ensures unlock { is_locked first len self.old.elements ≡ false → unlocked first len self.new.elements ≡ self.old.elements }
    {
        self.items.push_reserved(Element {
            first,
            len,
            exclusive,
        });
    }

    /// Unlocks the `len` bytes from `first` on: takes out the first exclusive element of just this offset and length,
    /// or if there is none the first shared one (MS-FSA 2.1.5.9). False comes exactly if no element has them; then all
    /// is as it was. A part of an element, or what covers several, is no element.
    pub fn unlock(&mut self, first: u64, len: u64) -> bool
        ensures value { result ≡ is_locked first len self.old.elements }
        ensures elements { self.new.elements ≡ unlocked first len self.old.elements }
        ensures others { filter (λ e. not (has_range first len e)) self.new.elements ≡ filter (λ e. not (has_range first len e)) self.old.elements }
        ensures spare { self.new.spare ≡ self.old.spare + (if result then 1 else 0) }
    {
        self.take_out(first, len).is_some()
    }

    /// Unlocks as `unlock` does, and gives the place that the element had in the order of locking; None if `unlock`
    /// answers false.
    #[tactic(auto, using(crate::proofs::ElementLaws::others_unlocked, crate::proofs::ElementLaws::ranges_unlocked))]
    pub fn take_out(&mut self, first: u64, len: u64) -> Option<usize>
        ensures value { result ≡ place_unlocked first len self.old.elements }
        ensures found { is_some result ≡ is_locked first len self.old.elements }
        ensures elements { self.new.elements ≡ unlocked first len self.old.elements }
        ensures others { filter (λ e. not (has_range first len e)) self.new.elements ≡ filter (λ e. not (has_range first len e)) self.old.elements }
        ensures spare { self.new.spare ≡ self.old.spare + (if is_some result then 1 else 0) }
    {
        take_out(&mut self.items, first, len)
    }

    /// The first element, in the order of locking, that another open's lock of the `len` bytes from `first` on
    /// conflicts with (MS-FSA 2.1.4.10): an exclusive one with any that it meets, a shared one with the exclusive ones.
    /// None exactly if there is none.
    #[tactic(auto, using(crate::proofs::ElementLaws::found_passes, crate::proofs::ElementLaws::none_found))]
    pub fn first_conflict(&self, first: u64, len: u64, exclusive: bool) -> Option<Element>
        ensures value { result ≡ first_conflict first len exclusive self.now.elements }
        ensures found { IfSome result (λ e. IsIn e self.now.elements × (conflicts first len exclusive e ≡ true)) }
        ensures none { (result ≡ None) ↔ (list_any (conflicts first len exclusive) self.now.elements ≡ false) }
    {
        first_conflict(&self.items, first, len, exclusive)
    }

    /// The first element that the open's own lock conflicts with: an exclusive one conflicts with any that it meets,
    /// its own too, and a shared one with none (MS-FSA 2.1.4.10). None exactly if there is none.
    #[tactic(auto, using(crate::proofs::ElementLaws::found_passes, crate::proofs::ElementLaws::none_found, crate::proofs::ElementLaws::none_of_own))]
    pub fn first_own_conflict(&self, first: u64, len: u64, exclusive: bool) -> Option<Element>
        ensures value { result ≡ first_own_conflict first len exclusive self.now.elements }
        ensures found { IfSome result (λ e. IsIn e self.now.elements × (conflicts_own first len exclusive e ≡ true)) }
        ensures none { (result ≡ None) ↔ (list_any (conflicts_own first len exclusive) self.now.elements ≡ false) }
        ensures shared { exclusive ≡ false → result ≡ None }
    {
        first_own_conflict(&self.items, first, len, exclusive)
    }

    /// Takes the last `k` locks back.
    #[tactic(auto, using(crate::proofs::ElementLaws::undone_locks))]
    pub fn undo(&mut self, k: usize)
        requires { k ≤ length self.old.elements }
        ensures elements { self.new.elements ≡ undone k self.old.elements }
        ensures last { (before locks : List Element) → self.old.elements ≡ before ++ locks → length locks ≡ k → self.new.elements ≡ before }
        ensures spare { self.new.spare ≡ self.old.spare + k }
    {
        let kept = self.items.len() - k;
        self.items.truncate(kept);
    }
}
