//! Requests.
ghost use Rattle.std.specs.Prelude.{Some};
ghost use Rattle.xl_base.specs.Results.{Gives};
ghost use Rattle.xl_layout.specs.Forms.{size_found, Puts};
ghost use Rattle.xl_smb.specs.Bodies.{body_at};
ghost use Rattle.xl_smb.specs.Heads.{number_of};
ghost use Rattle.xl_smb.specs.Calls.{shown_call, call_body, call_spelling, CallHas};

use crate::breaks::{Break, break_at, put_break};
use crate::command::Command;
use crate::create::{CreateCall, create_call_at, put_create_call};
use crate::fault::SmbBad;
use crate::lock::{
    CloseCall, LockCall, close_call_at, lock_call_at, put_close_call, put_lock_call,
};
use crate::session::{
    NegotiateCall, SessionSetupCall, empty_at, negotiate_call_at, path_at, put_empty,
    put_negotiate_call, put_setup_call, put_tree_call, setup_call_at,
};
use std::alloc::AllocError;

/// What a request asks, by its command.
#[derive(Clone, Copy)]
pub enum SmbCall<'a> {
    /// Agree on a dialect.
    Negotiate(NegotiateCall<'a>),
    /// Begin a session.
    SessionSetup(SessionSetupCall<'a>),
    /// End a session.
    Logoff,
    /// Connect to the share of this path, UTF-16LE.
    TreeConnect(&'a [u8]),
    /// Leave a share.
    TreeDisconnect,
    /// Open a file.
    Create(CreateCall<'a>),
    /// Close an open.
    Close(CloseCall),
    /// Lock or unlock ranges of bytes.
    Lock(LockCall<'a>),
    /// Cancel a request.
    Cancel,
    /// Ask whether the server is there.
    Echo,
    /// Acknowledge a break.
    OplockBreak(Break),
    /// Of a command whose messages aren't read.
    Other,
}

/// The request of a command. The body is what stands behind the header.
pub(crate) fn call_at<'a>(
    command: Command,
    frame: &'a [u8],
    body: &'a [u8],
) -> Result<SmbCall<'a>, SmbBad>
    ensures { Gives shown_call result (body_at (call_body (size_found body.now) (Some command)) (number_of command) frame.now body.now) }
{
    match command {
        Command::Negotiate => Ok(SmbCall::Negotiate(negotiate_call_at(body)?)),
        Command::SessionSetup => Ok(SmbCall::SessionSetup(setup_call_at(frame, body)?)),
        Command::TreeConnect => Ok(SmbCall::TreeConnect(path_at(frame, body)?)),
        Command::Create => Ok(SmbCall::Create(create_call_at(frame, body)?)),
        Command::Close => Ok(SmbCall::Close(close_call_at(body)?)),
        Command::Lock => Ok(SmbCall::Lock(lock_call_at(body)?)),
        Command::OplockBreak => Ok(SmbCall::OplockBreak(break_at(body)?)),
        Command::Logoff => Ok(empty_at(command, body, SmbCall::Logoff)?),
        Command::TreeDisconnect => Ok(empty_at(command, body, SmbCall::TreeDisconnect)?),
        Command::Cancel => Ok(empty_at(command, body, SmbCall::Cancel)?),
        Command::Echo => Ok(empty_at(command, body, SmbCall::Echo)?),
    }
}

/// Writes the body of a request.
pub(crate) fn put_call(out: &mut Vec<u8>, call: SmbCall<'_>) -> Result<(), AllocError>
    requires { CallHas (shown_call call) }
    ensures { Puts (call_spelling (shown_call call.entry)) result out.old.items out.new.items }
{
    match call {
        SmbCall::Negotiate(call) => put_negotiate_call(out, call),
        SmbCall::SessionSetup(call) => put_setup_call(out, call),
        SmbCall::TreeConnect(path) => put_tree_call(out, path),
        SmbCall::Create(call) => put_create_call(out, call),
        SmbCall::Close(call) => put_close_call(out, call),
        SmbCall::Lock(call) => put_lock_call(out, call),
        SmbCall::OplockBreak(held) => put_break(out, held),
        SmbCall::Logoff | SmbCall::TreeDisconnect | SmbCall::Cancel | SmbCall::Echo => {
            put_empty(out)
        }
        SmbCall::Other => Ok(()),
    }
}
