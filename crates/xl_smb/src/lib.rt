//! The messages of SMB 2.1 both ways: requests, replies and notices in one frame each (MS-SMB2 2.2, dialect 0x0210).
//!
//! Numbers are little-endian, and the layouts name places: a header of 64 bytes, a body that begins with its size, and
//! parts that stand where an offset of the body says. Reading takes no memory: what is as long as its sender likes is
//! borrowed from the frame.
#![tactic(auto)]

mod body;
mod breaks;
mod call;
mod command;
mod compound;
mod create;
mod fault;
mod file;
mod head;
mod lease;
mod lock;
mod message;
mod related;
mod reply;
mod session;

pub use breaks::{Break, LeaseNotice, Notice};
pub use call::SmbCall;
pub use command::Command;
pub use compound::{Behind, MOST_PARTS, SmbPart, is_over, join, part_at, split};
pub use create::{CreateCall, CreateReply};
pub use fault::SmbBad;
pub use file::{FileId, FileStatus};
pub use head::{ASYNC_COMMAND, Route, SERVER_TO_REDIR, SmbHead, head_at, read_head};
pub use lease::{Contexts, Lease, lease_context};
pub use lock::{CloseCall, CloseReply, LockCall, LockElement, LockElements};
pub use message::{SmbMessage, read, write};
pub use related::{
    Before, RELATED_OPERATIONS, failure_in, is_nameless, left_by, related_head, resolved,
    resolved_head, taken_over, with_head,
};
pub use reply::SmbReply;
pub use session::{
    Dialects, NegotiateCall, NegotiateReply, SessionSetupCall, SessionSetupReply, TreeConnectReply,
};
