//! What an NFSv4.0 server remembers of its clients: their records, the owners of opens and locks, the stateids, and the
//! results that are kept for requests that come again (RFC 7530 9.1, 9.10, 10.4, 16.33).
#![tactic(auto)]

mod bytes;
mod client;
mod filed;
mod kept;
mod listing;
mod owner;
mod picks;
mod seqid;
mod state;
mod stateid;

pub use bytes::ResultBytes;
pub use client::{Callback, ClientDetails, ClientRow};
pub use kept::KeptRow;
pub use owner::{OwnerKind, OwnerName, OwnerNamed, OwnerRow, SeqidState};
pub use seqid::{SeqidVerdict, accepted_seqids_are_not_next, verdict};
pub use state::{MOST_CLIENTS, MOST_OPENS, MOST_OWNERS, NfsState, NfsStateErr};
pub use stateid::{Holder, Standing, StateidRow, Whose};
