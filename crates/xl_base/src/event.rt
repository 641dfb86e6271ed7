//! What comes in and what goes out, as plain data.

use crate::sequence::Sequence;

/// A moment of the machine's clock, in milliseconds.
#[derive(Clone, Copy)]
pub struct Moment(pub u64);

/// What a connection speaks: ONC RPC over TCP (RFC 5531), or SMB 2 over TCP (MS-SMB2 2.1).
#[derive(Clone, Copy)]
pub enum Kind {
    /// ONC RPC with record marking.
    Rpc,
    /// SMB 2 with its four-byte frame header.
    Smb,
}

/// Where an out goes.
#[derive(Clone, Copy)]
pub enum Dest {
    /// To the connection of this number, which is the place of its Open in the journal.
    Conn(u64),
    /// The call of this number, to a client's callback address.
    Back(u64),
}

/// One message that the machine sends.
#[derive(Drop)]
pub struct Out {
    /// Where it goes.
    pub dest: Dest,
    /// The address of a call to a callback; empty if it goes to a connection.
    pub to: Sequence<u8>,
    /// The bytes: framed if they go to a connection, a bare record if they are a call.
    pub bytes: Sequence<u8>,
}

/// One event of the machine.
#[derive(Drop)]
pub enum Event {
    /// A connection of this kind is opened; its number is the place of this event.
    Open(Kind),
    /// A whole message, without its frame, comes from the connection.
    Message(u64, Sequence<u8>),
    /// The connection ends.
    End(u64),
    /// The call of this number is over: with a reply, or without one.
    Called(u64, Option<Sequence<u8>>),
    /// The clock is read.
    Tick(Moment),
    /// The server starts again from its record.
    Restart,
}
