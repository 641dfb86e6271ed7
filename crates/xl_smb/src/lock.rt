//! CLOSE and LOCK.
ghost use Rattle.std.specs.Prelude.{◌≡◌, ℕ, List, ◌<◌, ◌≤◌, length, slice_index_or, IsTrue, ◌↔◌};
ghost use Rattle.xl_base.specs.Results.{Gives};
ghost use Rattle.xl_layout.specs.Layouts.{IsCounted};
ghost use Rattle.xl_layout.specs.Forms.{by_form, Puts};
ghost use Rattle.xl_smb.specs.Bodies.{form_at};
ghost use Rattle.xl_smb.specs.Locks.{close_call, close_reply, shown_lock, lock_call, element_at};
ghost use Rattle.xl_smb.specs.Heads.{number_of};
ghost use Rattle.xl_smb.specs.declared.command.Command.TheVariants as Command;

use crate::body::{check_fixed, part_at};
use crate::command::Command;
use crate::fault::SmbBad;
use crate::file::{FileId, FileStatus, file_id_at, status_at};
use std::alloc::AllocError;
use xl_layout::{put_all, u16_at, u16_bytes, u32_at, u32_bytes, u64_at, u64_bytes};

/// What a client asks with CLOSE (MS-SMB2 2.2.15).
#[derive(Clone, Copy)]
pub struct CloseCall {
    /// 1 asks for the file's status.
    pub flags: u16,
    /// The open.
    pub file_id: FileId,
}

/// What a server answers to CLOSE (MS-SMB2 2.2.16).
#[derive(Clone, Copy)]
pub struct CloseReply {
    /// 1 if the status was asked for.
    pub flags: u16,
    /// What the file was, zeros if that wasn't asked for.
    pub status: FileStatus,
}

/// One range of a LOCK request (MS-SMB2 2.2.26.1).
#[derive(Clone, Copy)]
pub struct LockElement {
    /// The first byte.
    pub offset: u64,
    /// How many bytes.
    pub length: u64,
    /// 1 shared, 2 exclusive, 4 unlock, 0x10 don't wait.
    pub flags: u32,
}

/// The ranges of a LOCK request, 24 bytes each.
#[derive(Clone, Copy)]
pub struct LockElements<'a>(pub &'a [u8]);

/// What a client asks with LOCK (MS-SMB2 2.2.26).
#[derive(Clone, Copy)]
pub struct LockCall<'a> {
    /// Which replay of a lock this is.
    pub sequence: u32,
    /// The open.
    pub file_id: FileId,
    /// The ranges.
    pub elements: LockElements<'a>,
}

impl LockElements<'_> {
    ghost use Rattle.xl_smb.specs.Locks.{elements_of};

    /// How many ranges there are.
    #[tactic(auto, using(xl_layout::proofs::PlaceLaws::each_length))]
    pub fn len(&self) -> usize
        ensures { result ≡ length (elements_of self.now.0.now) }
    {
        self.0.len() / 24
    }

    /// Whether there is no range.
    #[tactic(auto, using(xl_layout::proofs::PlaceLaws::each_length))]
    pub fn is_empty(&self) -> bool
        ensures { IsTrue result ↔ (length (elements_of self.now.0.now) ≡ 0) }
    {
        self.0.len() < 24
    }

    /// The range of this index, counted from 0.
    #[tactic(auto, using(xl_layout::proofs::PlaceLaws::each_length))]
    pub fn at(&self, index: usize) -> LockElement
        requires { index < length (elements_of self.now.0.now) }
        ensures { (d : LockElement) → slice_index_or (elements_of self.now.0.now) index d ≡ result }
    {
        element_at(&self.0[24 * index..])
    }
}

#[tactic(auto, unfolding(crate::specs::Locks::element_at))]
fn element_at(bytes: &[u8]) -> LockElement
    requires { 24 ≤ length bytes.now }
    ensures { result ≡ element_at bytes.now }
{
    LockElement {
        offset: u64_at(bytes, 0),
        length: u64_at(bytes, 8),
        flags: u32_at(bytes, 16),
    }
}

#[tactic(auto, unfolding(xl_layout::specs::Forms::form_read, crate::specs::Locks::close_call))]
pub(crate) fn close_call_at(body: &[u8]) -> Result<CloseCall, SmbBad>
    ensures { (frame : List ℕ) → Gives (λ call. call) result (form_at close_call (number_of Command.Close) frame body.now) }
{
    check_fixed(Command::Close.number(), 24, 24, body)?;
    Ok(CloseCall {
        flags: u16_at(body, 2),
        file_id: file_id_at(body, 8),
    })
}

#[tactic(auto, unfolding(xl_layout::specs::Forms::form_read, crate::specs::Locks::close_reply))]
pub(crate) fn close_reply_at(body: &[u8]) -> Result<CloseReply, SmbBad>
    ensures { (frame : List ℕ) → Gives (λ reply. reply) result (form_at close_reply (number_of Command.Close) frame body.now) }
{
    check_fixed(Command::Close.number(), 60, 60, body)?;
    Ok(CloseReply {
        flags: u16_at(body, 2),
        status: status_at(body),
    })
}

#[tactic(auto, unfolding(xl_layout::specs::Forms::form_read, crate::specs::Locks::lock_call))]
pub(crate) fn lock_call_at(body: &[u8]) -> Result<LockCall<'_>, SmbBad>
    ensures { (frame : List ℕ) → Gives shown_lock result (form_at lock_call (number_of Command.Lock) frame body.now) }
{
    check_fixed(Command::Lock.number(), 48, 24, body)?;
    let elements = part_at(body, 24, 24 * u32::from(u16_at(body, 2)))?;
    Ok(LockCall {
        sequence: u32_at(body, 4),
        file_id: file_id_at(body, 8),
        elements: LockElements(elements),
    })
}

/// Writes a CLOSE request.
#[tactic(auto, unfolding(xl_layout::specs::Forms::form_text, crate::specs::Locks::close_call))]
pub(crate) fn put_close_call(out: &mut Vec<u8>, call: CloseCall) -> Result<(), AllocError>
    ensures { Puts (by_form close_call call) result out.old.items out.new.items }
{
    put_all(
        out,
        &[
            &u16_bytes(24),
            &u16_bytes(call.flags),
            &[0; 4],
            &u64_bytes(call.file_id.persistent),
            &u64_bytes(call.file_id.volatile),
        ],
    )
}

/// Writes a CLOSE reply.
#[tactic(auto, unfolding(xl_layout::specs::Forms::form_text, crate::specs::Locks::close_reply))]
pub(crate) fn put_close_reply(out: &mut Vec<u8>, reply: CloseReply) -> Result<(), AllocError>
    ensures { Puts (by_form close_reply reply) result out.old.items out.new.items }
{
    let status = reply.status;
    put_all(
        out,
        &[
            &u16_bytes(60),
            &u16_bytes(reply.flags),
            &[0; 4],
            &u64_bytes(status.created),
            &u64_bytes(status.accessed),
            &u64_bytes(status.written),
            &u64_bytes(status.changed),
            &u64_bytes(status.allocated),
            &u64_bytes(status.end_of_file),
            &u32_bytes(status.attributes),
        ],
    )
}

/// Writes a LOCK request.
#[tactic(auto, unfolding(xl_layout::specs::Forms::form_text, crate::specs::Locks::lock_call))]
pub(crate) fn put_lock_call(out: &mut Vec<u8>, call: LockCall<'_>) -> Result<(), AllocError>
    requires { IsCounted 24 (shown_lock call).elements }
    ensures { Puts (by_form lock_call (shown_lock call.entry)) result out.old.items out.new.items }
{
    let LockElements(elements) = call.elements;
    let count = (elements.len() / 24) as u16;
    put_all(
        out,
        &[
            &u16_bytes(48),
            &u16_bytes(count),
            &u32_bytes(call.sequence),
            &u64_bytes(call.file_id.persistent),
            &u64_bytes(call.file_id.volatile),
            elements,
        ],
    )
}
