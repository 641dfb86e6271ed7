//! Which programs of ONC RPC are served, in which version, with which procedures (RFC 5531 9), and what becomes of a
//! record before the front of its program reads the arguments. A program more is one row more in each table.
#![tactic(auto)]

mod incoming;
mod program;
mod sent;

pub use incoming::{Incoming, Request, read_incoming, refusal};
pub use program::{NFS, NFS_VERSION, NLM, NLM_VERSION, Program};
pub use sent::sent_to;
