//! The messages of the Network Lock Manager, version 4 (XNFS C702, chapter 14), read from XDR and written to it.
#![tactic(auto)]

mod granted;
mod item;
mod law;
pub mod procedure;
mod reading;
mod results;
mod writing;

pub use granted::granted_call;
pub use item::{
    CancelArgs, Holder, Lock, LockArgs, NlmCall, NlmReply, NlmStatus, Notify, Res, Rights,
    ShareArgs, ShareRes, TestArgs, TestRes, UnlockArgs,
};
pub use law::{one_spelling, spellings_are_read};
pub use reading::{is_known, read};
pub use results::read_result;
pub use writing::{write, write_result};
