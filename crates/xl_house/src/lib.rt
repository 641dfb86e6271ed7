//! The house: the machine with its journal. It steps events over the NLM front and the core, one entry each.
#![tactic(auto)]

pub mod compounds;
mod connections;
mod frames;
mod house;
pub mod law;
mod layers;
mod machine;
mod outs;
mod settling;
mod start;

pub use connections::Connection;
pub use house::{House, MOST_ENTRIES};
pub use start::Ended;
