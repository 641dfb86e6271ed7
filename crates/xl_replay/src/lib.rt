//! The replay of a capture: its steps through a desk up to each start of the server, and the transcript of its journal.
#![tactic(auto)]

mod captures;
mod replayer;
mod step;

pub use captures::replay;
