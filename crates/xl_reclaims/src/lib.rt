//! Laws of reclaims while grace runs, over the core: those that tell the truth never collide. The functions do nothing: their clauses
//! are the laws.
#![tactic(auto)]

pub mod law;
