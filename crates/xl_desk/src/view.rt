//! What a pass knows.

use std::collections::LinkedList;
use xl_base::{Entry, Event, Halt};

/// What a pass knows of its desk. It exists in proofs alone: no value of it is made.
pub struct View<O> {
    /// What the machine began from; None once the pass is joined into another.
    pub origin: Option<O>,
    /// The place of the machine's first entry.
    pub first: u64,
    /// How many entries the machine had when the desk was made.
    pub start: u64,
    /// The entries that the pass has seen: a beginning of the journal.
    pub seen: LinkedList<Entry>,
    /// Entries that another pass had seen, which was joined into this one, until the next look.
    pub told: LinkedList<Entry>,
    /// The calls of the pass, and of those joined into it: how many entries stand before the call's, and its event.
    pub mine: LinkedList<(u64, Event)>,
    /// How many calls these are.
    pub made: u64,
    /// How many of the desk's 2^32 shares the pass has.
    pub shares: u64,
    /// Whether the pass has the turn.
    pub turn: bool,
    /// The halt that the pass has seen the machine in, if any; it is final, and the pass has seen the whole journal.
    pub halt: Option<Halt>,
    /// A halt that another pass had seen, which was joined into this one, until the next look.
    pub heard: Option<Halt>,
}
