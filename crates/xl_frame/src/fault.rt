//! Why a stream is no stream of frames.
ghost use Rattle.std.specs.Prelude.{◌≡◌};
ghost use Rattle.xl_frame.specs.declared.fault.FeedErr.TheVariants.{NoMemory};

use std::alloc::{AllocError, AllocFailed};
use thiserror::Error;

/// Why a stream is no stream of frames. Each is judged once the four bytes of a header stand, the first that applies in
/// the order Marker, Empty, Fragments, Long.
#[derive(Clone, Copy, Debug, Error)]
pub enum FrameBad {
    /// A message of so many bytes, more than 65,536; for ONC RPC the sum of its fragments so far.
    #[error("a message of {0} bytes")]
    Long(u64),
    /// So many fragments of one record, one more than 64 (RFC 5531 11).
    #[error("a record of {0} fragments")]
    Fragments(u32),
    /// A fragment without bytes that isn't its record's last (RFC 5531 11).
    #[error("an empty fragment")]
    Empty,
    /// A byte other than zero in front of an SMB message (MS-SMB2 2.1).
    #[error("the byte {0} in front of a message")]
    Marker(u8),
}

/// Why a piece of a stream could not be taken.
#[derive(Clone, Copy, Debug, Error)]
pub enum FeedErr {
    /// Memory ran out; nothing of the piece is taken.
    #[error("no memory")]
    NoMemory,
    /// The stream is no stream of frames; nothing behind the bad place is taken.
    #[error("{0}")]
    Bad(FrameBad),
}

impl From<AllocError> for FeedErr {
    ghost from_gives = { λ _ e. e ≡ NoMemory };

    fn from(_e: AllocError) -> FeedErr {
        FeedErr::NoMemory
    }
}
