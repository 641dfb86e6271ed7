//! What the core is made of.
ghost use Rattle.std.specs.Prelude.{◌≡◌};
ghost use Rattle.xl_core.specs.Stores.{made_of};

use crate::lease::Times;
use indexmap::IndexMap;
use xl_base::{Moment, Record, Sequence};
use xl_grace::Grace;
use xl_names::Names;
use xl_table::Table;
use xl_wait::Queue;

/// What the core keeps.
#[derive(Drop)]
pub(crate) struct Parts {
    /// The claims that are held.
    pub table: Table,
    /// Those who wait.
    pub queue: Queue,
    /// The names of owners and parties that were granted something or waited since the start.
    pub names: Names,
    /// The record as it is stored.
    pub stable: Record,
    /// The grace that runs, if one does.
    pub grace: Grace,
    /// The clock.
    pub clock: Moment,
    /// How long leases, grace and breaks last.
    pub times: Times,
    /// By the id string of each NFSv4 client that has a lease the moment at which it ends, in order of arrival.
    pub leases: IndexMap<Sequence<u8>, Moment>,
    /// The last number that was given out; numbers count from 1.
    pub counter: u32,
    /// Whether a store of this step failed; then none is tried any more.
    pub failed: bool,
    /// The records that the keeper was given in this step. All were stored but the last, if that store failed.
    pub given: Vec<Record>,
}

impl Parts {
    /// How many stores this step made.
    pub(crate) fn made(&self) -> u64
        ensures { result ≡ made_of self.now.failed self.now.given.items }
    {
        let given = self.given.len() as u64;
        if self.failed {
            given.saturating_sub(1)
        } else {
            given
        }
    }
}
