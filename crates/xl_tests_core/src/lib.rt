#![tactic(auto)]
//! Tests of the core: what is asked, turns, wishes, the clock.

#[cfg(test)]
mod calls;
