//! Steps that are counted in a proof alone: a counter takes no bytes, and counting does nothing at run time.
#![tactic(auto)]

mod steps;

pub use steps::Steps;
