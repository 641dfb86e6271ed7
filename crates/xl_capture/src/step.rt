//! The steps that a capture has a machine make.

use xl_base::Event;

/// As many stores as this no step makes: each of them succeeds.
pub const ALL_STORES: u64 = u64::MAX;

/// An event of a capture, and how many stores of the record succeed in it.
#[derive(Drop)]
pub struct Step {
    /// The event.
    pub event: Event,
    /// So many stores succeed in it, from its first one on, and no further one: at most 9,999, or `ALL_STORES`.
    pub stores: u64,
}
