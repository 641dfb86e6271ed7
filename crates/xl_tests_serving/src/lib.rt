#![tactic(auto)]
//! Tests of `serve` over lanes, a keeper and a clock in memory: what it writes and hands back, and lanes that wait for each
//! other; and hostile use of `serve` and of replays, in one table.

#[cfg(test)]
mod hostile;
#[cfg(test)]
mod meeting;
#[cfg(test)]
mod serving;
