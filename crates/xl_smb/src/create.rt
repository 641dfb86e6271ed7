//! CREATE.
ghost use Rattle.std.specs.Prelude.{◌≡◌, ◌+◌, ◌≤◌, ◌<◌, ◌^◌, true, false, Some, length, IfOk, IfErr};
ghost use Rattle.xl_base.specs.Results.{Gives};
ghost use Rattle.xl_layout.specs.Places.{bytes_at, u32_at};
ghost use Rattle.xl_layout.specs.Layouts.{stands, padding, place_if_any};
ghost use Rattle.xl_layout.specs.Forms.{by_form, Puts};
ghost use Rattle.xl_smb.specs.Bodies.{form_at};
ghost use Rattle.xl_smb.specs.Creates.{shown_create_call, create_call, CreateCallHas, shown_create_reply, create_reply, CreateReplyHas};
ghost use Rattle.xl_smb.specs.Leases.{are_contexts};
ghost use Rattle.xl_smb.specs.Heads.{number_of};
ghost use Rattle.xl_smb.specs.declared.command.Command.TheVariants as Command;

use crate::body::{buffer_at, check_fixed, part_at};
use crate::command::Command;
use crate::fault::SmbBad;
use crate::file::{FileId, FileStatus, file_id_at, status_at};
use crate::lease::{Contexts, are_contexts};
use std::alloc::AllocError;
use xl_layout::{put_all, u16_at, u16_bytes, u32_at, u32_bytes, u64_bytes};

/// What a client asks with CREATE, which opens a file (MS-SMB2 2.2.13).
#[derive(Clone, Copy)]
pub struct CreateCall<'a> {
    /// The oplock that is wished for: 0 none, 1 II, 8 exclusive, 9 batch, 0xFF a lease.
    pub oplock_level: u8,
    /// What the open is for (MS-SMB2 2.2.13.1).
    pub desired_access: u32,
    /// What others may open it for: 1 read, 2 write, 4 delete.
    pub share_access: u32,
    /// What to do if the file is there or isn't, 0 to 5.
    pub disposition: u32,
    /// How to open it.
    pub options: u32,
    /// The file's name, UTF-16LE.
    pub name: &'a [u8],
    /// What else is asked.
    pub contexts: Contexts<'a>,
}

/// What a server answers to CREATE (MS-SMB2 2.2.14).
#[derive(Clone, Copy)]
pub struct CreateReply<'a> {
    /// The oplock that is granted.
    pub oplock_level: u8,
    /// What was done: 0 superseded, 1 opened, 2 made, 3 overwritten.
    pub action: u32,
    /// What the file is.
    pub status: FileStatus,
    /// The open.
    pub file_id: FileId,
    /// What else is answered.
    pub contexts: Contexts<'a>,
}

/// The contexts whose offset and length stand, in four bytes each, at a place of the body; each lies within them.
fn contexts_at<'a>(frame: &'a [u8], body: &[u8], place: usize) -> Result<&'a [u8], SmbBad>
    requires { place + 8 ≤ length body.now }
    ensures ok { IfOk result (λ list. (stands (Some are_contexts) (u32_at place body.now) (u32_at (place + 4) body.now) frame.now ≡ true) × (list.now ≡ bytes_at (u32_at (place + 4) body.now) (u32_at place body.now) frame.now)) }
    ensures err { IfErr result (λ e. (stands (Some are_contexts) (u32_at place body.now) (u32_at (place + 4) body.now) frame.now ≡ false) × (e ≡ SmbBad.Offset)) }
{
    let list = part_at(frame, u32_at(body, place), u32_at(body, place + 4))?;
    if !are_contexts(list) {
        return Err(SmbBad::Offset);
    }
    Ok(list)
}

#[tactic(auto, unfolding(xl_layout::specs::Forms::form_read, crate::specs::Creates::create_call))]
pub(crate) fn create_call_at<'a>(frame: &'a [u8], body: &[u8]) -> Result<CreateCall<'a>, SmbBad>
    ensures { Gives shown_create_call result (form_at create_call (number_of Command.Create) frame.now body.now) }
{
    check_fixed(Command::Create.number(), 57, 56, body)?;
    let name = buffer_at(frame, body, 44)?;
    let contexts = contexts_at(frame, body, 48)?;
    Ok(CreateCall {
        oplock_level: body[3],
        desired_access: u32_at(body, 24),
        share_access: u32_at(body, 32),
        disposition: u32_at(body, 36),
        options: u32_at(body, 40),
        name,
        contexts: Contexts(contexts),
    })
}

#[tactic(auto, unfolding(xl_layout::specs::Forms::form_read, crate::specs::Creates::create_reply))]
pub(crate) fn create_reply_at<'a>(frame: &'a [u8], body: &[u8]) -> Result<CreateReply<'a>, SmbBad>
    ensures { Gives shown_create_reply result (form_at create_reply (number_of Command.Create) frame.now body.now) }
{
    check_fixed(Command::Create.number(), 89, 88, body)?;
    let contexts = contexts_at(frame, body, 80)?;
    Ok(CreateReply {
        oplock_level: body[2],
        action: u32_at(body, 4),
        status: status_at(body),
        file_id: file_id_at(body, 64),
        contexts: Contexts(contexts),
    })
}

/// How many zeros stand before contexts of this length, which begin at a multiple of 8 from this place on; none if there
/// are no contexts.
#[tactic(auto, unfolding(xl_layout::specs::Layouts::padding))]
fn padding(start: usize, contexts: usize) -> usize
    ensures is { result ≡ padding start contexts }
    ensures short { result < 8 }
{
    if contexts == 0 {
        return 0;
    }
    (8 - start % 8) % 8
}

/// Where the contexts begin that stand behind so many bytes of the frame, 0 if there are none.
#[tactic(auto, unfolding(xl_layout::specs::Layouts::place_if_any))]
fn contexts_place(before: usize, contexts: usize) -> u32
    requires { before < 2 ^ 32 }
    ensures { result ≡ place_if_any before contexts }
{
    if contexts == 0 { 0 } else { before as u32 }
}

/// Writes a CREATE request.
#[tactic(auto, unfolding(xl_layout::specs::Forms::form_text, crate::specs::Creates::create_call))]
pub(crate) fn put_create_call(out: &mut Vec<u8>, call: CreateCall<'_>) -> Result<(), AllocError>
    requires { CreateCallHas (shown_create_call call) }
    ensures { Puts (by_form create_call (shown_create_call call.entry)) result out.old.items out.new.items }
{
    let Contexts(contexts) = call.contexts;
    let start = 120 + call.name.len();
    let padding = padding(start, contexts.len());
    let place = contexts_place(start + padding, contexts.len());
    let zeros = [0; 8];
    put_all(
        out,
        &[
            &u16_bytes(57),
            &[0],
            &[call.oplock_level],
            &[0; 20],
            &u32_bytes(call.desired_access),
            &[0; 4],
            &u32_bytes(call.share_access),
            &u32_bytes(call.disposition),
            &u32_bytes(call.options),
            &u16_bytes(120),
            &u16_bytes(call.name.len() as u16),
            &u32_bytes(place),
            &u32_bytes(contexts.len() as u32),
            call.name,
            &zeros[..padding],
            contexts,
        ],
    )
}

/// Writes a CREATE reply.
#[tactic(auto, unfolding(xl_layout::specs::Forms::form_text, crate::specs::Creates::create_reply))]
pub(crate) fn put_create_reply(out: &mut Vec<u8>, reply: CreateReply<'_>) -> Result<(), AllocError>
    requires { CreateReplyHas (shown_create_reply reply) }
    ensures { Puts (by_form create_reply (shown_create_reply reply.entry)) result out.old.items out.new.items }
{
    let Contexts(contexts) = reply.contexts;
    let status = reply.status;
    put_all(
        out,
        &[
            &u16_bytes(89),
            &[reply.oplock_level],
            &[0],
            &u32_bytes(reply.action),
            &u64_bytes(status.created),
            &u64_bytes(status.accessed),
            &u64_bytes(status.written),
            &u64_bytes(status.changed),
            &u64_bytes(status.allocated),
            &u64_bytes(status.end_of_file),
            &u32_bytes(status.attributes),
            &[0; 4],
            &u64_bytes(reply.file_id.persistent),
            &u64_bytes(reply.file_id.volatile),
            &u32_bytes(contexts_place(152, contexts.len())),
            &u32_bytes(contexts.len() as u32),
            contexts,
        ],
    )
}
