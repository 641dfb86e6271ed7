#![tactic(auto)]
//! Tests of the texts of captures and transcripts, and of the house: how it starts, what is reclaimed after a crash, and how a
//! lane and a caller serve it. What a call that fails comes to, and what a crash leaves, is public, for the table of hostile use.

#[cfg(test)]
mod captures;
mod crashes;
mod exports;
#[cfg(test)]
mod house;
mod lanes;
#[cfg(test)]
mod transcripts;

pub use crashes::{clients_recover, expired_client_recovers};
pub use lanes::keeps_what_a_failed_call_tells_of;
