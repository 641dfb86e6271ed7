//! Frames of a byte stream: how a message is marked off on a connection of ONC RPC (RFC 5531 11) and of SMB 2
//! (MS-SMB2 2.1).
#![tactic(auto)]

mod cutter;
mod cutting;
mod fault;
mod fragment;
mod law;
mod message;
mod wrapping;

pub use cutter::Cutter;
pub use fault::{FeedErr, FrameBad};
pub use law::{
    handed_messages_are_the_streams, packets_are_cut_out, records_are_cut_out,
    streams_are_cut_anywhere, wrapped_messages_are_cut_out,
};
pub use wrapping::wrap;
