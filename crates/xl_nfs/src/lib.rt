//! The messages of NFS version 4.0 (RFC 7530, RFC 7531), read from XDR and written to it.
#![tactic(auto)]

mod basics;
mod callback;
mod clients;
mod compound;
mod law;
mod locks;
mod op;
mod opened;
mod opens;
pub mod operation;
mod outcome;
mod result;
mod status;

pub use basics::{Bitmap, LockType, MOST_TEXT_BYTES, Owner, Stateid};
pub use callback::{RecallReply, RecallResult, read_recall_reply, recall_call};
pub use clients::{ClientConfirm, SetClientIdArgs};
pub use compound::{CompoundHead, read_head};
pub use law::{one_spelling, spellings_are_read};
pub use locks::{Denied, KnownLocker, LockArgs, LockTestArgs, Locker, NewLocker, UnlockArgs};
pub use op::{NfsOp, next_op, write_op};
pub use opened::{Ace, ChangeInfo, Delegation, OpenResult, ReadDelegation, WriteDelegation};
pub use opens::{
    Attributes, CloseArgs, CreateHow, DelegationType, NamedDelegation, OpenArgs, OpenClaim,
    OpenConfirmArgs, OpenDowngradeArgs, OpenHow,
};
pub use outcome::LockFault;
pub use result::{NfsResult, read_result, write_result};
pub use status::NfsStatus;
