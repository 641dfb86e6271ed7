//! The queue of those who wait for a claim, in order of arrival.
#![tactic(auto)]

mod changing;
mod files;
mod line;
mod listing;
mod queue;
mod waiter;

pub use queue::{Queue, QueueErr};
pub use waiter::{NO_ROWS, Rooms, Waiter};
