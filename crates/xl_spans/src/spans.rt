//! An owner's spans in one file.
ghost use Rattle.std.specs.Prelude.{◌≡◌, ℕ, ◌+◌, ◌-◌, ◌*◌, ◌^◌, ◌≤◌, true, ◌↔◌, List, [], if◌then◌else◌, length, Some, None, IfSome, OnOk, OnErr, vec_len, vec_capacity};
ghost use Rattle.xl_base.specs.Lists.{IsIn};
ghost use Rattle.xl_spans.specs.Spans.{IsCanonical, EndsBelow, within, mode_at, relocked, conflicts, leaves_free, first_conflict};

use crate::bisect::{conflict_in, last_byte, mode_of};
use crate::counted::mode_in;
use crate::relock::relock;
use crate::span::{Mode, Span};
use std::alloc::{AllocError, Global};
use std::marker::Model;
use std::sync::ledger::Ledger;
use xl_steps::Steps;

/// The byte ranges that one owner has locked in one file, as maximal runs of one mode in the order of their bytes
/// (XNFS C702, RFC 7530 16.10). A contract sees the runs, and how many more fit without memory.
#[derive(Drop)]
pub struct Spans {
    items: Vec<Span>,
}

impl Model for Spans {
    ghost use Rattle.std.specs.Prelude.{◌-◌, vec_len, vec_capacity};
    ghost use Rattle.xl_spans.specs.Spans.{Ranges, IsCanonical};

    ghost Value = { Ranges };

    ghost view = { λ s. record { spans = s.items.items; spare = vec_capacity s.items - vec_len s.items } };

    ghost invariant = { λ s. IsCanonical s.items.items };
}

impl Spans {
    /// No spans; it takes no memory.
    pub fn new(alloc: Global) -> Spans
        ensures { result ≡ record { spans = []; spare = 0 } }
    {
        Spans {
            items: Vec::new(alloc),
        }
    }

    /// These spans, which are maximal runs in the order of their bytes; it takes no memory.
    pub fn from_vec(items: Vec<Span>) -> Spans
        requires { IsCanonical items.items }
        ensures { result ≡ record { spans = items.items; spare = vec_capacity items - vec_len items } }
    {
        Spans { items }
    }

    /// The spans as a vector; it takes no memory.
    pub fn into_vec(self) -> Vec<Span>
        ensures spans { result.items ≡ self.spans }
        ensures spare { vec_capacity result - vec_len result ≡ self.spare }
        ensures canonical { IsCanonical result.items }
    {
        let Spans { items } = self;
        items
    }

    /// The spans in the order of their bytes.
    pub fn spans(&self) -> &[Span]
        ensures spans { result.now ≡ self.now.spans }
        ensures canonical { IsCanonical result.now }
        ensures below { EndsBelow (2 ^ 64) result.now }
    {
        // The read shows that no span reaches byte 2^64.
        let _ = last_byte(&self.items);
        &self.items
    }

    /// How many more spans fit without memory.
    pub fn spare(&self) -> usize
        ensures { result ≡ self.now.spare }
    {
        self.items.capacity() - self.items.len()
    }

    /// Makes room for `n` more spans. Want of memory leaves all as it was.
    pub fn reserve(&mut self, n: usize) -> Result<(), AllocError>
        ensures spans { self.new.spans ≡ self.old.spans }
        ensures ok { OnOk result (n ≤ self.new.spare) }
        ensures grows { self.old.spare ≤ self.new.spare }
        ensures err { OnErr result (self.new ≡ self.old) }
    {
        self.items.reserve(n)
    }

    /// Locks the bytes from `first` to `last` in this mode, in place of the modes that they had (RFC 7530 16.10). At
    /// most two spans come up: a lock inside one span makes three of it. The room was made before, so it cannot fail
    /// (TABLE-1).
    pub fn lock(&mut self, first: u64, last: u64, mode: Mode)
        requires ends { first ≤ last }
        requires room { 2 ≤ self.old.spare }
        ensures spans { self.new.spans ≡ relocked self.old.spans first last (Some mode) }
        ensures bytes { (x : ℕ) → mode_at self.new.spans x ≡ (if within first last x then Some mode else mode_at self.old.spans x) }
        ensures canonical { IsCanonical self.new.spans }
        ensures spare { self.old.spare ≤ self.new.spare + 2 }
        ensures room { self.new.spare + length self.new.spans ≡ self.old.spare + length self.old.spans }
    {
        relock(&mut self.items, first, last, Some(mode));
    }

    /// Unlocks the bytes from `first` to `last` (RFC 7530 16.12). At most one span comes up; it wants room for two all the
    /// same (TABLE-1).
    pub fn unlock(&mut self, first: u64, last: u64)
        requires ends { first ≤ last }
        requires room { 2 ≤ self.old.spare }
        ensures spans { self.new.spans ≡ relocked self.old.spans first last None }
        ensures bytes { (x : ℕ) → mode_at self.new.spans x ≡ (if within first last x then None else mode_at self.old.spans x) }
        ensures canonical { IsCanonical self.new.spans }
        ensures spare { self.old.spare ≤ self.new.spare + 1 }
        ensures room { self.new.spare + length self.new.spans ≡ self.old.spare + length self.old.spans }
    {
        relock(&mut self.items, first, last, None);
    }

    /// The mode in which the byte is locked, or None.
    pub fn at(&self, byte: u64) -> Option<Mode>
        ensures { result ≡ mode_at self.now.spans byte }
    {
        mode_of(&self.items, byte)
    }

    /// The same as `at`, with each look at a span counted as a step: two to the number of these steps is at most one more
    /// than twice the number of spans (TABLE-18).
    pub fn at_in<L: Ledger>(&self, byte: u64, steps: &mut Steps<L>) -> Option<Mode>
        ensures mode { result ≡ mode_at self.now.spans byte }
        ensures more { steps.old ≤ steps.new }
        ensures few { 2 ^ (steps.new - steps.old) ≤ 2 * length self.now.spans + 1 }
    {
        mode_in(&self.items, byte, steps)
    }

    /// The least span that another owner's lock of the bytes from `first` to `last` in this mode conflicts with: it has
    /// one of these bytes, and one of the two modes is exclusive. None exactly if there is none.
    pub fn first_conflict(&self, first: u64, last: u64, mode: Mode) -> Option<Span>
        requires { first ≤ last }
        ensures value { result ≡ first_conflict first last mode self.now.spans }
        ensures found { IfSome result (λ s. IsIn s self.now.spans × (conflicts first last mode s ≡ true)) }
        ensures least { IfSome result (λ s. (t : Span) → IsIn t self.now.spans → conflicts first last mode t ≡ true → s.first ≤ t.first) }
        ensures none { (result ≡ None) ↔ ((x : ℕ) → within first last x ≡ true → leaves_free mode (mode_at self.now.spans x) ≡ true) }
    {
        conflict_in(&self.items, first, last, mode)
    }
}
