//! The journal of a run: what it began from, and each event with what it did.

use crate::event::{Event, Moment, Out};
use crate::sequence::Sequence;
use crate::stable::Record;

/// What is exported, and for how long things last.
#[derive(Drop)]
pub struct Exports {
    /// The names of the files, numbered from 1 in this order.
    pub files: Sequence<Sequence<u8>>,
    /// The callback addresses of NLM callers: a caller's name and its address.
    pub addresses: Sequence<(Sequence<u8>, Sequence<u8>)>,
    /// How long an NFSv4 lease lasts, in milliseconds.
    pub lease: u64,
    /// How long grace lasts after a start, in milliseconds.
    pub grace: u64,
    /// How long a break may stay unanswered, in milliseconds.
    pub break_time: u64,
}

/// What a run began from.
#[derive(Drop)]
pub struct Head {
    /// What is exported.
    pub exports: Exports,
    /// The clock at the start.
    pub start: Moment,
    /// The record that the first start loaded.
    pub record: Record,
}

/// One event, and what it did.
#[derive(Drop)]
pub struct Entry {
    /// The event.
    pub event: Event,
    /// How many stores of the record succeeded in it.
    pub stores: u64,
    /// What was sent, in order.
    pub outs: Sequence<Out>,
}

/// A whole run: what it began from, and its entries in order. An entry's place is its index.
#[derive(Drop)]
pub struct Journal {
    /// What it began from.
    pub head: Head,
    /// The entries in order.
    pub entries: Sequence<Entry>,
}
