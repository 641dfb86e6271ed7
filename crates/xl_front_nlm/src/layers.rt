//! The front and the core, which travel together.

use crate::front::Front;
use xl_core::Core;

/// The front of NLM and the core, which travel together.
#[derive(Drop)]
pub struct NlmLayers<'a> {
    /// What the front keeps.
    pub front: &'a mut Front,
    /// The core.
    pub core: &'a mut Core,
}
