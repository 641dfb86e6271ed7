//! What became of a call.

use xl_core::Answer;

/// What became of a call.
#[derive(Clone, Copy)]
pub enum Outcome {
    /// The handle is of no exported file.
    NoFile,
    /// The range passes the last byte that there is.
    TooBig,
    /// The owner waits for the very bytes in this mode already.
    Waits,
    /// The owner doesn't wait for the very bytes in this mode.
    NotWaiting,
    /// The core was asked, and answered so.
    Answered(Answer),
    /// What the call gives up is given up, if it stood.
    Ended,
    /// There was nothing to do.
    Nothing,
}
