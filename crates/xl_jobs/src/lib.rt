//! What the jobs share: a house over a keeper in memory, and how a job ends.
#![tactic(auto)]

mod endings;
mod seated;
mod starts;

pub use endings::{Report, Written, idle, journal_in};
pub use seated::{Seated, close, seat};
pub use starts::{exports_with, start};
