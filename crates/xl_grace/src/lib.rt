//! Grace after a restart: who may reclaim what it held, and when that ends (RFC 7530 9.6.2, 9.6.3).
#![tactic(auto)]

mod grace;
pub mod laws;
mod reclaimant;

pub use grace::{Admission, Grace};
pub use reclaimant::Reclaimant;
