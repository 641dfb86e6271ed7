//! What an SMB server keeps beside its table of claims (MS-SMB2 3.3.1): connections, sessions, tree connects, opens,
//! leases, and the requests that wait.
#![tactic(auto)]

pub mod laws;
mod leases;
mod listing;
mod open_calls;
mod opens;
mod requests;
mod row;
mod rows;
mod sessions;
mod state;

pub use row::{
    Connection, Header, Holder, Lease, LeaseKey, Open, Place, Request, Scope, Session, Tree,
    Waiting,
};
pub use state::{CONNECTIONS, OPENS, SESSIONS, SmbState, TREES, WAITING};
