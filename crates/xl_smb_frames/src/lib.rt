//! Frames of several SMB messages: which of their parts are done and how each is answered (MS-SMB2 3.3.5.2.7), and what
//! stands behind a part that waits. Each part that is done is a message alone.
#![tactic(auto)]

mod answers;
mod frame;
mod steps;
mod waking;

pub use answers::answer;
pub use frame::{Frame, MOST_PARTS, Paused, frame_sent, is_alone, open};
pub use steps::{Step, next_step};
pub use waking::{async_id, wake};
