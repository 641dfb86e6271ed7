//! One who waits.
ghost use Rattle.std.specs.Prelude.{◌≡◌};
ghost use Rattle.xl_wait.specs.Waiting.{no_rows};

use xl_base::{Mark, Party, Sequence};
use xl_matrix::{CacheKind, Claim};

/// How much room is left in the tables of the fronts, or how many rows of them something takes.
#[derive(Clone, Copy)]
pub struct Rooms {
    /// NLM hosts.
    pub hosts: u32,
    /// NFSv4 owners.
    pub owners: u32,
    /// Opens, of NFSv4 and SMB together.
    pub opens: u32,
}

/// No room, or no rows.
pub const NO_ROWS: Rooms = Rooms {
    hosts: 0,
    owners: 0,
    opens: 0,
};

impl Default for Rooms {
    /// No room, or no rows: `NO_ROWS`.
    fn default() -> Rooms
        ensures { result ≡ no_rows }
    {
        NO_ROWS
    }
}

/// One who waits for claims (TABLE-20).
#[derive(Drop)]
pub struct Waiter {
    /// Its number.
    pub id: u32,
    /// Its party.
    pub party: Party,
    /// The connection that its answer goes to; None if a call of its own carries it.
    pub conn: Option<u64>,
    /// The claims that it asks for, in order.
    pub asked: Sequence<Claim>,
    /// The caches that it wishes for once it is served, the first choice first.
    pub wish: Sequence<CacheKind>,
    /// Whether it asked to wait if something stands in its way; a request that waits for grace may not have.
    pub blocking: bool,
    /// Whether its party's name is to be recorded before it is granted.
    pub monitored: bool,
    /// The mark that it is recorded with, None if it came with none.
    pub mark: Option<Mark>,
    /// The rows of the fronts' tables that its grant adds.
    pub rows: Rooms,
}
