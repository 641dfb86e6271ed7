//! The byte ranges that one owner has locked in one file: maximal runs of one mode, found by bisection and changed in
//! place.
#![tactic(auto)]

mod bisect;
mod counted;
pub mod laws;
pub mod plain;
mod relock;
mod span;
mod spans;

pub use span::{Mode, Span};
pub use spans::Spans;
