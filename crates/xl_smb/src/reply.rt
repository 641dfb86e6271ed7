//! Replies.
ghost use Rattle.std.specs.Prelude.{ℕ, List, Some};
ghost use Rattle.xl_base.specs.Results.{Gives};
ghost use Rattle.xl_layout.specs.Forms.{size_found, by_form, Puts};
ghost use Rattle.xl_smb.specs.Bodies.{body_at};
ghost use Rattle.xl_smb.specs.Heads.{number_of};
ghost use Rattle.xl_smb.specs.Replies.{shown_reply, success_body, error, error_body, reply_spelling, ReplyHas};

use crate::body::check_fixed;
use crate::breaks::{Break, break_at, put_break};
use crate::command::Command;
use crate::create::{CreateReply, create_reply_at, put_create_reply};
use crate::fault::SmbBad;
use crate::lock::{CloseReply, close_reply_at, put_close_reply};
use crate::session::{
    NegotiateReply, SessionSetupReply, TreeConnectReply, empty_at, negotiate_reply_at, put_empty,
    put_negotiate_reply, put_setup_reply, put_tree_reply, setup_reply_at, tree_reply_at,
};
use std::alloc::AllocError;
use xl_layout::{put_all, u16_bytes};

/// What a reply answers, by its command at status 0.
#[derive(Clone, Copy)]
pub enum SmbReply<'a> {
    /// The dialect that was agreed on.
    Negotiate(NegotiateReply<'a>),
    /// The session that began.
    SessionSetup(SessionSetupReply<'a>),
    /// The session ended.
    Logoff,
    /// The share that was connected.
    TreeConnect(TreeConnectReply),
    /// The share was left.
    TreeDisconnect,
    /// The open that was made.
    Create(CreateReply<'a>),
    /// The open was closed.
    Close(CloseReply),
    /// The ranges were locked or unlocked.
    Lock,
    /// The server is there.
    Echo,
    /// What is now held.
    OplockBreak(Break),
    /// The form of every reply whose status isn't 0 (MS-SMB2 2.2.2).
    Error,
    /// At status 0, of CANCEL, which has no reply, or of a command whose messages aren't read.
    Other,
}

/// The reply of a command at status 0. The body is what stands behind the header.
pub(crate) fn success_at<'a>(
    command: Command,
    frame: &'a [u8],
    body: &'a [u8],
) -> Result<SmbReply<'a>, SmbBad>
    ensures { Gives shown_reply result (body_at (success_body (size_found body.now) (Some command)) (number_of command) frame.now body.now) }
{
    match command {
        Command::Negotiate => Ok(SmbReply::Negotiate(negotiate_reply_at(frame, body)?)),
        Command::SessionSetup => Ok(SmbReply::SessionSetup(setup_reply_at(frame, body)?)),
        Command::TreeConnect => Ok(SmbReply::TreeConnect(tree_reply_at(body)?)),
        Command::Create => Ok(SmbReply::Create(create_reply_at(frame, body)?)),
        Command::Close => Ok(SmbReply::Close(close_reply_at(body)?)),
        Command::OplockBreak => Ok(SmbReply::OplockBreak(break_at(body)?)),
        Command::Cancel => Ok(SmbReply::Other),
        Command::Logoff => Ok(empty_at(command, body, SmbReply::Logoff)?),
        Command::TreeDisconnect => Ok(empty_at(command, body, SmbReply::TreeDisconnect)?),
        Command::Lock => Ok(empty_at(command, body, SmbReply::Lock)?),
        Command::Echo => Ok(empty_at(command, body, SmbReply::Echo)?),
    }
}

/// The reply of a command, by its number, at another status.
#[tactic(auto, unfolding(xl_layout::specs::Forms::form_read, crate::specs::Replies::error))]
pub(crate) fn error_at<'a>(command: u16, body: &[u8]) -> Result<SmbReply<'a>, SmbBad>
    ensures { (frame : List ℕ) → Gives shown_reply result (body_at error_body command frame body.now) }
{
    check_fixed(command, 9, 8, body)?;
    Ok(SmbReply::Error)
}

/// Writes the error form, whose data is one zero byte.
#[tactic(auto, unfolding(xl_layout::specs::Forms::form_text, crate::specs::Replies::error))]
fn put_error(out: &mut Vec<u8>) -> Result<(), AllocError>
    ensures { Puts (by_form error tt) result out.old.items out.new.items }
{
    put_all(out, &[&u16_bytes(9), &[0; 7]])
}

/// Writes the body of a reply.
pub(crate) fn put_reply(out: &mut Vec<u8>, reply: SmbReply<'_>) -> Result<(), AllocError>
    requires { ReplyHas (shown_reply reply) }
    ensures { Puts (reply_spelling (shown_reply reply.entry)) result out.old.items out.new.items }
{
    match reply {
        SmbReply::Negotiate(reply) => put_negotiate_reply(out, reply),
        SmbReply::SessionSetup(reply) => put_setup_reply(out, reply),
        SmbReply::TreeConnect(reply) => put_tree_reply(out, reply),
        SmbReply::Create(reply) => put_create_reply(out, reply),
        SmbReply::Close(reply) => put_close_reply(out, reply),
        SmbReply::OplockBreak(held) => put_break(out, held),
        SmbReply::Logoff | SmbReply::TreeDisconnect | SmbReply::Lock | SmbReply::Echo => {
            put_empty(out)
        }
        SmbReply::Error => put_error(out),
        SmbReply::Other => Ok(()),
    }
}
