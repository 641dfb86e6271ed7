//! What stands beside a list of claims, so that a call costs what it touches: the deadlines of the breaks that run, in
//! order, and how many claims a party, or an SMB open, has on each file.
#![tactic(auto)]

mod index;
mod moments;
mod stands;

pub use index::{Index, enter_all, leave_all};
pub use stands::{who_of, who_opens};
