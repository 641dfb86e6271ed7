//! A large input from a number: the calls that its draws give, stepped one after the other, and the summary of their journal.
#![tactic(auto)]

mod made;
mod summaries;

pub use summaries::make;
