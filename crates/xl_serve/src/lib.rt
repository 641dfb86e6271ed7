//! A house that is served: its lanes and callers, and the capture of its journal.
#![tactic(auto)]

mod serving;

pub use serving::{Done, Outside, idle_lanes, serve};
