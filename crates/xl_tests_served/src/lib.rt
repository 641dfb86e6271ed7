#![tactic(auto)]
//! Tests of captures that are built in loops and that `run` replays: the most that there may be of all that is counted, who
//! waits for the end of grace, and shares of two protocols. What replays a capture is public, for other tests too.

#[cfg(test)]
mod grace;
#[cfg(test)]
mod limits;
mod replays;
#[cfg(test)]
mod sharing;

pub use replays::{ended, is_answered, nobody, replayed, wrong_case};
