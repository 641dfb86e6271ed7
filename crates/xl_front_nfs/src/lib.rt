//! The NFS front: what a call of NFS version 4.0 is answered (RFC 7530), over the core.
#![tactic(auto)]

mod clients;
mod compound;
mod confirming;
mod ending;
mod front;
mod handles;
mod recalling;
mod rows;
mod serving;
mod setting;
mod step;

pub use front::{NfsFront, nfs_shown, nfs_tick};
pub use recalling::recalls;
pub use step::{Arrival, nfs_step};
