//! Tests of the desk and of what threads do with it.
#![tactic(auto)]

#[cfg(test)]
mod calls;
#[cfg(test)]
mod crews;
#[cfg(test)]
mod desk;
#[cfg(test)]
mod echo;
#[cfg(test)]
mod lanes;
#[cfg(test)]
mod memory;
