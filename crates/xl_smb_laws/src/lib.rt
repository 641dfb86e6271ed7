//! Laws of SMB 2.1 over the core. The functions do nothing: their clauses are the laws.
#![tactic(auto)]

pub mod asking;
pub mod awaiting;
pub mod beginnings;
pub mod cancelling;
pub mod ending;
pub mod in_grace;
pub mod locking;
pub mod opens;
pub mod replying;
pub mod requests;
pub mod telling;
pub mod tying;
