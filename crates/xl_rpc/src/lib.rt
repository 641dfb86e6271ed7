//! ONC RPC version 2 (RFC 5531) over XDR (RFC 4506): calls and replies, read from bytes and written to them.
#![tactic(auto)]

mod call;
mod fault;
mod law;
mod reply;
mod writer;
mod xdr;

pub use call::{Auth, Call, CallHead, RPC_VERSION, read_call, write_call};
pub use fault::RpcBad;
pub use law::{one_call_spelling, one_reply_spelling, spellings_are_read};
pub use reply::{Reply, Verdict, read_reply, write_reply};
pub use writer::XdrOut;
pub use xdr::Xdr;
