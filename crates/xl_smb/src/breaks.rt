//! OPLOCK_BREAK: acknowledgements, their replies, and the notices that ask for them.
ghost use Rattle.std.specs.Prelude.{ℕ, List};
ghost use Rattle.xl_base.specs.Results.{Gives};
ghost use Rattle.xl_layout.specs.Forms.{size_found, by_form, Puts};
ghost use Rattle.xl_smb.specs.Bodies.{form_at};
ghost use Rattle.xl_smb.specs.Breaks.{oplock_break, lease_break, break_form, break_spelling, oplock_notice, lease_notice, notice_form, notice_spelling};
ghost use Rattle.xl_smb.specs.Heads.{number_of};
ghost use Rattle.xl_smb.specs.declared.command.Command.TheVariants as Command;

use crate::body::{check_fixed, size_found};
use crate::command::Command;
use crate::fault::SmbBad;
use crate::file::{FileId, file_id_at};
use crate::lease::Lease;
use std::alloc::AllocError;
use xl_layout::{bytes_at, put_all, u16_bytes, u32_at, u32_bytes, u64_at, u64_bytes};

/// What a client keeps after a break, and, in the reply, what it now holds.
#[derive(Clone, Copy)]
pub enum Break {
    /// Of an oplock: the level, 0 none, 1 II, 8 exclusive, 9 batch, 0xFF a lease; and the open (MS-SMB2 2.2.24.1,
    /// 2.2.25.1).
    Oplock(u8, FileId),
    /// Of a lease (MS-SMB2 2.2.24.2, 2.2.25.2).
    Lease(Lease),
}

/// What the server sends a client whose cache is broken.
#[derive(Clone, Copy)]
pub enum Notice {
    /// Of an oplock: the level that may be kept, and the open (MS-SMB2 2.2.23.1).
    Oplock(u8, FileId),
    /// Of a lease (MS-SMB2 2.2.23.2).
    Lease(LeaseNotice),
}

/// The break of a lease.
#[derive(Clone, Copy)]
pub struct LeaseNotice {
    /// 1 if an acknowledgement is awaited.
    pub flags: u32,
    /// The lease's key.
    pub key: [u8; 16],
    /// What was held: 1 read, 2 handle, 4 write.
    pub current: u32,
    /// What may be kept.
    pub new: u32,
}

/// An acknowledgement or the reply to one, which have the same form.
#[tactic(auto, unfolding(xl_layout::specs::Forms::form_read, crate::specs::Breaks::oplock_break, crate::specs::Breaks::lease_break))]
pub(crate) fn break_at(body: &[u8]) -> Result<Break, SmbBad>
    ensures { (frame : List ℕ) → Gives (λ held. held) result (form_at (break_form (size_found body.now)) (number_of Command.OplockBreak) frame body.now) }
{
    if size_found(body) == 36 {
        check_fixed(Command::OplockBreak.number(), 36, 36, body)?;
        return Ok(Break::Lease(Lease {
            key: bytes_at(body, 8),
            state: u32_at(body, 24),
            flags: u32_at(body, 4),
            duration: u64_at(body, 28),
        }));
    }
    check_fixed(Command::OplockBreak.number(), 24, 24, body)?;
    Ok(Break::Oplock(body[2], file_id_at(body, 8)))
}

/// A notice, by its body.
#[tactic(auto, unfolding(xl_layout::specs::Forms::form_read, crate::specs::Breaks::oplock_notice, crate::specs::Breaks::lease_notice))]
pub(crate) fn notice_at(body: &[u8]) -> Result<Notice, SmbBad>
    ensures { (frame : List ℕ) → Gives (λ told. told) result (form_at (notice_form (size_found body.now)) (number_of Command.OplockBreak) frame body.now) }
{
    if size_found(body) == 44 {
        check_fixed(Command::OplockBreak.number(), 44, 44, body)?;
        return Ok(Notice::Lease(LeaseNotice {
            flags: u32_at(body, 4),
            key: bytes_at(body, 8),
            current: u32_at(body, 24),
            new: u32_at(body, 28),
        }));
    }
    check_fixed(Command::OplockBreak.number(), 24, 24, body)?;
    Ok(Notice::Oplock(body[2], file_id_at(body, 8)))
}

/// Writes the form of an oplock's break, which acknowledgements, replies and notices share.
#[tactic(auto, unfolding(xl_layout::specs::Forms::form_text, crate::specs::Breaks::oplock_break, crate::specs::Breaks::oplock_notice))]
fn put_oplock(out: &mut Vec<u8>, level: u8, file_id: FileId) -> Result<(), AllocError>
    ensures held { Puts (by_form oplock_break (Break.Oplock level file_id)) result out.old.items out.new.items }
    ensures told { Puts (by_form oplock_notice (Notice.Oplock level file_id)) result out.old.items out.new.items }
{
    put_all(
        out,
        &[
            &u16_bytes(24),
            &[level],
            &[0; 5],
            &u64_bytes(file_id.persistent),
            &u64_bytes(file_id.volatile),
        ],
    )
}

#[tactic(auto, unfolding(xl_layout::specs::Forms::form_text, crate::specs::Breaks::lease_break))]
fn put_lease(out: &mut Vec<u8>, lease: Lease) -> Result<(), AllocError>
    ensures { Puts (by_form lease_break (Break.Lease lease)) result out.old.items out.new.items }
{
    put_all(
        out,
        &[
            &u16_bytes(36),
            &[0; 2],
            &u32_bytes(lease.flags),
            &lease.key,
            &u32_bytes(lease.state),
            &u64_bytes(lease.duration),
        ],
    )
}

#[tactic(auto, unfolding(xl_layout::specs::Forms::form_text, crate::specs::Breaks::lease_notice))]
fn put_lease_notice(out: &mut Vec<u8>, told: LeaseNotice) -> Result<(), AllocError>
    ensures { Puts (by_form lease_notice (Notice.Lease told)) result out.old.items out.new.items }
{
    put_all(
        out,
        &[
            &u16_bytes(44),
            &[0; 2],
            &u32_bytes(told.flags),
            &told.key,
            &u32_bytes(told.current),
            &u32_bytes(told.new),
            &[0; 12],
        ],
    )
}

/// Writes an acknowledgement or the reply to one.
pub(crate) fn put_break(out: &mut Vec<u8>, held: Break) -> Result<(), AllocError>
    ensures { Puts (break_spelling held) result out.old.items out.new.items }
{
    match held {
        Break::Oplock(level, file_id) => put_oplock(out, level, file_id),
        Break::Lease(lease) => put_lease(out, lease),
    }
}

/// Writes the body of a notice.
pub(crate) fn put_notice(out: &mut Vec<u8>, told: Notice) -> Result<(), AllocError>
    ensures { Puts (notice_spelling told) result out.old.items out.new.items }
{
    match told {
        Notice::Oplock(level, file_id) => put_oplock(out, level, file_id),
        Notice::Lease(lease) => put_lease_notice(out, lease),
    }
}
