#![tactic(auto)]
//! Tests of the messages of the protocols and of their frames.

#[cfg(test)]
mod wire;
