//! The state of an SMB server beside its claims.
ghost use Rattle.std.specs.Prelude.{◌≡◌, length};
ghost use Rattle.xl_smb_state.specs.Links.{IsSound, AreDistinct};
ghost use Rattle.xl_smb_state.specs.State.{nothing};

use crate::opens::Opens;
use crate::row::{Connection, Lease, LeaseKey, Session, Tree, Waiting};
use crate::rows::Rows;
use indexmap::IndexMap;
use std::alloc::Global;
use std::marker::Model;
use xl_base::{MOST_CONNECTIONS, MOST_OPENS, MOST_WAITERS};

/// How many connections there are at most, of all protocols together.
pub const CONNECTIONS: usize = MOST_CONNECTIONS;

/// How many sessions a connection has at most.
pub const SESSIONS: usize = 16;

/// How many tree connects a connection has at most.
pub const TREES: usize = 16;

/// How many opens there are at most, of NFSv4 and SMB together.
pub const OPENS: usize = MOST_OPENS;

/// How many requests wait at most.
pub const WAITING: usize = MOST_WAITERS;

/// The lists that an SMB server keeps (MS-SMB2 3.3.1): connections, sessions, tree connects, opens, leases, and
/// requests that wait. Each row is under its key; a list is in the order in which its rows came. What a row names is
/// there, no two rows of a list have one key, and no list outgrows its limit.
#[derive(Drop)]
pub struct SmbState {
    pub(crate) connections: IndexMap<u64, Connection>,
    pub(crate) sessions: IndexMap<u32, Session>,
    pub(crate) trees: IndexMap<u32, Tree>,
    pub(crate) opens: Opens,
    pub(crate) leases: Rows<LeaseKey, Lease>,
    pub(crate) waiting: IndexMap<u32, Waiting>,
}

impl Model for SmbState {
    ghost use Rattle.xl_smb_state.specs.State.{Lists};
    ghost use Rattle.xl_smb_state.specs.Links.{IsSound};

    ghost Value = { Lists };

    ghost view = { λ s. record {
      connections = s.connections.entries;
      sessions = s.sessions.entries;
      trees = s.trees.entries;
      opens = s.opens;
      leases = s.leases;
      waiting = s.waiting.entries;
    } };

    ghost invariant = { λ s. IsSound (record {
      connections = s.connections.entries;
      sessions = s.sessions.entries;
      trees = s.trees.entries;
      opens = s.opens;
      leases = s.leases;
      waiting = s.waiting.entries;
    }) };
}

impl SmbState {
    /// Does nothing: what holds of the lists at all times is in its clauses. What a row names is there, no list
    /// outgrows its limit, and no two rows of a list have one key.
    pub fn links(&self)
        ensures sound { IsSound self.now }
        ensures distinct { AreDistinct self.now }
    {
        let _ = self.connections.len();
        let _ = self.sessions.len();
        let _ = self.trees.len();
        let _ = self.opens.len();
        self.leases.keys();
        let _ = self.waiting.len();
    }

    /// How many connections there are.
    pub fn count_connections(&self) -> usize
        ensures { result ≡ length self.now.connections }
    {
        self.connections.len()
    }

    /// How many requests wait.
    pub fn count_waiting(&self) -> usize
        ensures { result ≡ length self.now.waiting }
    {
        self.waiting.len()
    }

    /// Nothing in any list; it takes no memory.
    pub fn new(alloc: Global) -> SmbState
        ensures { result ≡ nothing }
    {
        SmbState {
            connections: IndexMap::new(alloc),
            sessions: IndexMap::new(alloc),
            trees: IndexMap::new(alloc),
            opens: Opens::new(alloc),
            leases: Rows::new(alloc),
            waiting: IndexMap::new(alloc),
        }
    }
}
