//! Whole messages.
ghost use Rattle.std.specs.Prelude.{◌≡◌, ◌++◌, length, Ok, OnOk, IfOk};
ghost use Rattle.std.specs.Result.{result_err};
ghost use Rattle.xl_base.specs.Results.{Gives};
ghost use Rattle.xl_layout.specs.Forms.{size_found};
ghost use Rattle.xl_smb.specs.Bodies.{body_at};
ghost use Rattle.xl_smb.specs.Calls.{shown_call, call_at};
ghost use Rattle.xl_smb.specs.Faults.{fault_of};
ghost use Rattle.xl_smb.specs.Heads.{command_of, head_at};
ghost use Rattle.xl_smb.specs.Lengths.{message_length};
ghost use Rattle.xl_smb.specs.Messages.{MessageItem, IsOf, shown, reply_at, told_at, message_at, notice_head, spelling, Fits, HasSpelling};
ghost use Rattle.xl_smb.specs.Replies.{shown_reply, success_body};

use crate::breaks::{Notice, notice_at, put_notice};
use crate::call::{SmbCall, call_at, put_call};
use crate::command::Command;
use crate::fault::SmbBad;
use crate::head::{Route, SERVER_TO_REDIR, SmbHead, is_notice, put_head, read_head};
use crate::reply::{SmbReply, error_at, put_reply, success_at};
use std::alloc::{AllocError, Global};

/// One message: all of a frame, without the frame's own header.
#[derive(Clone, Copy)]
pub enum SmbMessage<'a> {
    /// A request.
    Call(SmbHead, SmbCall<'a>),
    /// A reply, SERVER_TO_REDIR.
    Reply(SmbHead, SmbReply<'a>),
    /// What the server sends without a request. Its header is a reply's to command 18 at status 0 with SERVER_TO_REDIR alone, no
    /// credits, no session, no tree, and a message number of all ones.
    Notice(Notice),
}

#[tactic(auto, using(crate::proofs::HeadLaws::numbered), unfolding(crate::specs::Calls::call_at))]
fn call_of<'a>(command: u16, frame: &'a [u8], body: &'a [u8]) -> Result<SmbCall<'a>, SmbBad>
    ensures { Gives shown_call result (call_at command frame.now body.now) }
{
    match Command::of(command) {
        Some(command) => call_at(command, frame, body),
        None => Ok(SmbCall::Other),
    }
}

#[tactic(auto, using(crate::proofs::HeadLaws::numbered))]
fn success_of<'a>(command: u16, frame: &'a [u8], body: &'a [u8]) -> Result<SmbReply<'a>, SmbBad>
    ensures { Gives shown_reply result (body_at (success_body (size_found body.now) (command_of command)) command frame.now body.now) }
{
    match Command::of(command) {
        Some(command) => success_at(command, frame, body),
        None => Ok(SmbReply::Other),
    }
}

#[tactic(auto, unfolding(crate::specs::Messages::reply_at))]
fn reply_at<'a>(head: &SmbHead, frame: &'a [u8], body: &'a [u8]) -> Result<SmbReply<'a>, SmbBad>
    ensures { Gives shown_reply result (reply_at head.now frame.now body.now) }
{
    if head.status == 0 {
        success_of(head.command, frame, body)
    } else {
        error_at(head.command, body)
    }
}

/// What a header and a body tell.
#[tactic(auto, unfolding(crate::specs::Messages::told_at))]
fn told_at<'a>(head: SmbHead, frame: &'a [u8], body: &'a [u8]) -> Result<SmbMessage<'a>, SmbBad>
    ensures { Gives shown result (told_at head frame.now body.now) }
{
    if is_notice(&head) {
        return Ok(SmbMessage::Notice(notice_at(body)?));
    }
    if head.is_reply() {
        return Ok(SmbMessage::Reply(head, reply_at(&head, frame, body)?));
    }
    Ok(SmbMessage::Call(head, call_of(head.command, frame, body)?))
}

/// Reads a message, all of the frame. Nothing is copied except numbers: what is as long as its sender likes is
/// borrowed.
#[tactic(auto, using(crate::proofs::MessageLaws::message_fault, crate::proofs::MessageLaws::message_only))]
pub fn read(frame: &[u8]) -> Result<SmbMessage<'_>, SmbBad>
    // Which message, or which fault, it is.
    ensures exact { Gives shown result (message_at frame.now) }
    // The fault is the first that the bytes show, and there is a message just if they show none.
    ensures fault { result_err result ≡ fault_of frame.now }
    // What is read is of its header, and can be written.
    ensures found { IfOk result (λ message. IsOf (head_at frame.now) (shown message) × HasSpelling (shown message)) }
    // What was written is read.
    ensures only { (m : MessageItem) → Fits m → HasSpelling m → frame.now ≡ spelling m → Gives shown result (Ok m) }
{
    message_at(frame)
}

#[tactic(auto, unfolding(crate::specs::Messages::message_at))]
fn message_at(frame: &[u8]) -> Result<SmbMessage<'_>, SmbBad>
    ensures { Gives shown result (message_at frame.now) }
{
    let head = read_head(frame)?;
    told_at(head, frame, frame.split_at(64).1)
}

/// The header of a notice.
#[tactic(auto, unfolding(crate::specs::Messages::notice_head))]
fn notice_head() -> SmbHead
    ensures { result ≡ notice_head }
{
    SmbHead {
        credit_charge: 0,
        status: 0,
        command: Command::OplockBreak.number(),
        credits: 0,
        flags: SERVER_TO_REDIR,
        next_command: 0,
        message_id: u64::MAX,
        route: Route::Tree(0),
        session_id: 0,
        signature: [0; 16],
    }
}

#[tactic(auto, unfolding(crate::specs::Messages::spelling, crate::specs::Messages::HasSpelling))]
fn put_message(out: &mut Vec<u8>, message: SmbMessage<'_>) -> Result<(), AllocError>
    requires { HasSpelling (shown message) }
    ensures ok { OnOk result (out.new.items ≡ out.old.items ++ spelling (shown message.entry)) }
    ensures fits { OnOk result (Fits (shown message.entry)) }
{
    match message {
        SmbMessage::Call(head, call) => {
            put_head(out, head)?;
            put_call(out, call)?;
        }
        SmbMessage::Reply(head, reply) => {
            put_head(out, head)?;
            put_reply(out, reply)?;
        }
        SmbMessage::Notice(notice) => {
            put_head(out, notice_head())?;
            put_notice(out, notice)?;
        }
    }
    Ok(())
}

/// Writes a message; the bytes that no field names are zeros. The message has a spelling: its header's flags say
/// whether it is a reply and which form the header has, its command is that of what it asks or answers, a reply is of
/// the error form just if its status isn't 0, and none has a notice's header; each length fits its number, ranges and
/// dialects are whole, and contexts lie within their list.
#[tactic(auto, using(crate::proofs::MessageLaws::message_again, crate::proofs::MessageLaws::message_has))]
pub fn write(alloc: Global, message: &SmbMessage<'_>) -> Result<Vec<u8>, AllocError>
    requires { HasSpelling (shown message.now) }
    ensures spelled { IfOk result (λ frame. frame.items ≡ spelling (shown message.now)) }
    ensures long { IfOk result (λ frame. length frame.items ≡ message_length (shown message.now)) }
    // What was written is read again.
    ensures again { IfOk result (λ frame. message_at frame.items ≡ Ok (shown message.now)) }
{
    let mut out = Vec::new(alloc);
    put_message(&mut out, *message)?;
    Ok(out)
}
