//! NEGOTIATE, SESSION_SETUP and TREE_CONNECT, and the commands whose messages have no field.
ghost use Rattle.std.specs.Prelude.{◌≡◌, ℕ, List, ◌==◌, ◌<◌, ◌^◌, length, Ok, Err, IfOk, IfErr, IsTrue, ◌↔◌};
ghost use Rattle.std.specs.List.{list_any};
ghost use Rattle.xl_base.specs.Results.{Gives};
ghost use Rattle.xl_layout.specs.Layouts.{IsCounted};
ghost use Rattle.xl_layout.specs.Forms.{by_form, Puts};
ghost use Rattle.xl_smb.specs.Bodies.{form_at};
ghost use Rattle.xl_smb.specs.Heads.{number_of};
ghost use Rattle.xl_smb.specs.Sessions.{shown_negotiate_call, negotiate_call, shown_negotiate_reply, negotiate_reply, shown_setup_call, setup_call, shown_setup_reply, setup_reply, tree_call, tree_reply, empty};
ghost use Rattle.xl_smb.specs.Heads.{number_of};
ghost use Rattle.xl_smb.specs.declared.command.Command.TheVariants as Command;

use crate::body::{buffer_at, check_fixed, part_at};
use crate::command::Command;
use crate::fault::SmbBad;
use std::alloc::AllocError;
use xl_layout::{bytes_at, put_all, u16_at, u16_bytes, u32_at, u32_bytes, u64_at, u64_bytes};

/// The dialects that a client offers, two bytes each, lowest byte first.
#[derive(Clone, Copy)]
pub struct Dialects<'a>(pub &'a [u8]);

/// What a client asks with NEGOTIATE (MS-SMB2 2.2.3).
#[derive(Clone, Copy)]
pub struct NegotiateCall<'a> {
    /// 1 signing is enabled, 2 it is required.
    pub security_mode: u16,
    /// What the client can do.
    pub capabilities: u32,
    /// Who the client is.
    pub client_guid: [u8; 16],
    /// The dialects that it speaks.
    pub dialects: Dialects<'a>,
}

/// What a server answers to NEGOTIATE (MS-SMB2 2.2.4).
#[derive(Clone, Copy)]
pub struct NegotiateReply<'a> {
    /// 1 signing is enabled, 2 it is required.
    pub security_mode: u16,
    /// The dialect that was chosen, 0x0210 for SMB 2.1.
    pub dialect: u16,
    /// Who the server is.
    pub server_guid: [u8; 16],
    /// What the server can do.
    pub capabilities: u32,
    /// The longest buffer of a query or a change, in bytes.
    pub max_transact: u32,
    /// The longest read, in bytes.
    pub max_read: u32,
    /// The longest write, in bytes.
    pub max_write: u32,
    /// The server's clock, in units of 100 ns since 1601.
    pub system_time: u64,
    /// When the server started, in the same units.
    pub start_time: u64,
    /// The security token.
    pub buffer: &'a [u8],
}

/// What a client asks with SESSION_SETUP (MS-SMB2 2.2.5).
#[derive(Clone, Copy)]
pub struct SessionSetupCall<'a> {
    /// 1 binds a session to a further connection.
    pub flags: u8,
    /// 1 signing is enabled, 2 it is required.
    pub security_mode: u8,
    /// The session that this one replaces, 0 for none.
    pub previous_session: u64,
    /// The security token.
    pub buffer: &'a [u8],
}

/// What a server answers to SESSION_SETUP (MS-SMB2 2.2.6).
#[derive(Clone, Copy)]
pub struct SessionSetupReply<'a> {
    /// 1 a guest session, 2 an anonymous one.
    pub flags: u16,
    /// The security token.
    pub buffer: &'a [u8],
}

/// What a server answers to TREE_CONNECT (MS-SMB2 2.2.10).
#[derive(Clone, Copy)]
pub struct TreeConnectReply {
    /// 1 a disk, 2 a named pipe, 3 a printer.
    pub share_type: u8,
    /// What the share is, as its caching.
    pub flags: u32,
    /// What the share can do.
    pub capabilities: u32,
    /// The most that this user may ask for.
    pub maximal_access: u32,
}

impl Dialects<'_> {
    ghost use Rattle.xl_smb.specs.Sessions.{dialects_of};

    /// How many dialects there are.
    #[tactic(auto, using(xl_layout::proofs::PlaceLaws::each_length))]
    pub fn len(&self) -> usize
        ensures { result ≡ length (dialects_of self.now.0.now) }
    {
        self.0.len() / 2
    }

    /// Whether there is no dialect.
    #[tactic(auto, using(xl_layout::proofs::PlaceLaws::each_length))]
    pub fn is_empty(&self) -> bool
        ensures { IsTrue result ↔ (length (dialects_of self.now.0.now) ≡ 0) }
    {
        self.0.len() < 2
    }

    /// Whether a dialect is among them.
    #[tactic(auto, using(xl_layout::proofs::PlaceLaws::whole_more, xl_layout::proofs::PlaceLaws::whole_none))]
    pub fn contains(&self, dialect: u16) -> bool
        ensures { result ≡ list_any (λ offered. offered == dialect) (dialects_of self.now.0.now) }
    {
        let mut rest = self.0;
        'dialects: while rest.len() >= 2 {
            if u16_at(rest, 0) == dialect {
                return true;
            }
            rest = rest.split_at(2).1;
        }
        false
    }
}

#[tactic(auto, unfolding(xl_layout::specs::Forms::form_read, crate::specs::Sessions::negotiate_call))]
pub(crate) fn negotiate_call_at(body: &[u8]) -> Result<NegotiateCall<'_>, SmbBad>
    ensures { (frame : List ℕ) → Gives shown_negotiate_call result (form_at negotiate_call (number_of Command.Negotiate) frame body.now) }
{
    check_fixed(Command::Negotiate.number(), 36, 36, body)?;
    let dialects = part_at(body, 36, 2 * u32::from(u16_at(body, 2)))?;
    Ok(NegotiateCall {
        security_mode: u16_at(body, 4),
        capabilities: u32_at(body, 8),
        client_guid: bytes_at(body, 12),
        dialects: Dialects(dialects),
    })
}

#[tactic(auto, unfolding(xl_layout::specs::Forms::form_read, crate::specs::Sessions::negotiate_reply))]
pub(crate) fn negotiate_reply_at<'a>(
    frame: &'a [u8],
    body: &[u8],
) -> Result<NegotiateReply<'a>, SmbBad>
    ensures { Gives shown_negotiate_reply result (form_at negotiate_reply (number_of Command.Negotiate) frame.now body.now) }
{
    check_fixed(Command::Negotiate.number(), 65, 64, body)?;
    let buffer = buffer_at(frame, body, 56)?;
    Ok(NegotiateReply {
        security_mode: u16_at(body, 2),
        dialect: u16_at(body, 4),
        server_guid: bytes_at(body, 8),
        capabilities: u32_at(body, 24),
        max_transact: u32_at(body, 28),
        max_read: u32_at(body, 32),
        max_write: u32_at(body, 36),
        system_time: u64_at(body, 40),
        start_time: u64_at(body, 48),
        buffer,
    })
}

#[tactic(auto, unfolding(xl_layout::specs::Forms::form_read, crate::specs::Sessions::setup_call))]
pub(crate) fn setup_call_at<'a>(
    frame: &'a [u8],
    body: &[u8],
) -> Result<SessionSetupCall<'a>, SmbBad>
    ensures { Gives shown_setup_call result (form_at setup_call (number_of Command.SessionSetup) frame.now body.now) }
{
    check_fixed(Command::SessionSetup.number(), 25, 24, body)?;
    let buffer = buffer_at(frame, body, 12)?;
    Ok(SessionSetupCall {
        flags: body[2],
        security_mode: body[3],
        previous_session: u64_at(body, 16),
        buffer,
    })
}

#[tactic(auto, unfolding(xl_layout::specs::Forms::form_read, crate::specs::Sessions::setup_reply))]
pub(crate) fn setup_reply_at<'a>(
    frame: &'a [u8],
    body: &[u8],
) -> Result<SessionSetupReply<'a>, SmbBad>
    ensures { Gives shown_setup_reply result (form_at setup_reply (number_of Command.SessionSetup) frame.now body.now) }
{
    check_fixed(Command::SessionSetup.number(), 9, 8, body)?;
    let buffer = buffer_at(frame, body, 4)?;
    Ok(SessionSetupReply {
        flags: u16_at(body, 2),
        buffer,
    })
}

/// The path of a TREE_CONNECT request (MS-SMB2 2.2.9).
#[tactic(auto, unfolding(xl_layout::specs::Forms::form_read, crate::specs::Sessions::tree_call))]
pub(crate) fn path_at<'a>(frame: &'a [u8], body: &[u8]) -> Result<&'a [u8], SmbBad>
    ensures { Gives (λ path. path.now) result (form_at tree_call (number_of Command.TreeConnect) frame.now body.now) }
{
    check_fixed(Command::TreeConnect.number(), 9, 8, body)?;
    buffer_at(frame, body, 4)
}

#[tactic(auto, unfolding(xl_layout::specs::Forms::form_read, crate::specs::Sessions::tree_reply))]
pub(crate) fn tree_reply_at(body: &[u8]) -> Result<TreeConnectReply, SmbBad>
    ensures { (frame : List ℕ) → Gives (λ reply. reply) result (form_at tree_reply (number_of Command.TreeConnect) frame body.now) }
{
    check_fixed(Command::TreeConnect.number(), 16, 16, body)?;
    Ok(TreeConnectReply {
        share_type: body[2],
        flags: u32_at(body, 4),
        capabilities: u32_at(body, 8),
        maximal_access: u32_at(body, 12),
    })
}

/// Writes a NEGOTIATE request.
#[tactic(auto, unfolding(xl_layout::specs::Forms::form_text, crate::specs::Sessions::negotiate_call))]
pub(crate) fn put_negotiate_call(
    out: &mut Vec<u8>,
    call: NegotiateCall<'_>,
) -> Result<(), AllocError>
    requires { IsCounted 2 (shown_negotiate_call call).dialects }
    ensures { Puts (by_form negotiate_call (shown_negotiate_call call.entry)) result out.old.items out.new.items }
{
    let Dialects(dialects) = call.dialects;
    let guid = call.client_guid;
    let count = (dialects.len() / 2) as u16;
    put_all(
        out,
        &[
            &u16_bytes(36),
            &u16_bytes(count),
            &u16_bytes(call.security_mode),
            &[0; 2],
            &u32_bytes(call.capabilities),
            &guid,
            &[0; 8],
            dialects,
        ],
    )
}

/// Writes a NEGOTIATE reply.
#[tactic(auto, unfolding(xl_layout::specs::Forms::form_text, crate::specs::Sessions::negotiate_reply))]
pub(crate) fn put_negotiate_reply(
    out: &mut Vec<u8>,
    reply: NegotiateReply<'_>,
) -> Result<(), AllocError>
    requires { length (shown_negotiate_reply reply).buffer < 2 ^ 16 }
    ensures { Puts (by_form negotiate_reply (shown_negotiate_reply reply.entry)) result out.old.items out.new.items }
{
    let guid = reply.server_guid;
    put_all(
        out,
        &[
            &u16_bytes(65),
            &u16_bytes(reply.security_mode),
            &u16_bytes(reply.dialect),
            &[0; 2],
            &guid,
            &u32_bytes(reply.capabilities),
            &u32_bytes(reply.max_transact),
            &u32_bytes(reply.max_read),
            &u32_bytes(reply.max_write),
            &u64_bytes(reply.system_time),
            &u64_bytes(reply.start_time),
            &u16_bytes(128),
            &u16_bytes(reply.buffer.len() as u16),
            &[0; 4],
            reply.buffer,
        ],
    )
}

/// Writes a SESSION_SETUP request.
#[tactic(auto, unfolding(xl_layout::specs::Forms::form_text, crate::specs::Sessions::setup_call))]
pub(crate) fn put_setup_call(
    out: &mut Vec<u8>,
    call: SessionSetupCall<'_>,
) -> Result<(), AllocError>
    requires { length (shown_setup_call call).buffer < 2 ^ 16 }
    ensures { Puts (by_form setup_call (shown_setup_call call.entry)) result out.old.items out.new.items }
{
    put_all(
        out,
        &[
            &u16_bytes(25),
            &[call.flags],
            &[call.security_mode],
            &[0; 8],
            &u16_bytes(88),
            &u16_bytes(call.buffer.len() as u16),
            &u64_bytes(call.previous_session),
            call.buffer,
        ],
    )
}

/// Writes a SESSION_SETUP reply.
#[tactic(auto, unfolding(xl_layout::specs::Forms::form_text, crate::specs::Sessions::setup_reply))]
pub(crate) fn put_setup_reply(
    out: &mut Vec<u8>,
    reply: SessionSetupReply<'_>,
) -> Result<(), AllocError>
    requires { length (shown_setup_reply reply).buffer < 2 ^ 16 }
    ensures { Puts (by_form setup_reply (shown_setup_reply reply.entry)) result out.old.items out.new.items }
{
    put_all(
        out,
        &[
            &u16_bytes(9),
            &u16_bytes(reply.flags),
            &u16_bytes(72),
            &u16_bytes(reply.buffer.len() as u16),
            reply.buffer,
        ],
    )
}

/// Writes a TREE_CONNECT request for this path.
#[tactic(auto, unfolding(xl_layout::specs::Forms::form_text, crate::specs::Sessions::tree_call))]
pub(crate) fn put_tree_call(out: &mut Vec<u8>, path: &[u8]) -> Result<(), AllocError>
    requires { length path.now < 2 ^ 16 }
    ensures { Puts (by_form tree_call path.now) result out.old.items out.new.items }
{
    put_all(
        out,
        &[
            &u16_bytes(9),
            &[0; 2],
            &u16_bytes(72),
            &u16_bytes(path.len() as u16),
            path,
        ],
    )
}

/// Writes a TREE_CONNECT reply.
#[tactic(auto, unfolding(xl_layout::specs::Forms::form_text, crate::specs::Sessions::tree_reply))]
pub(crate) fn put_tree_reply(out: &mut Vec<u8>, reply: TreeConnectReply) -> Result<(), AllocError>
    ensures { Puts (by_form tree_reply reply) result out.old.items out.new.items }
{
    put_all(
        out,
        &[
            &u16_bytes(16),
            &[reply.share_type],
            &[0],
            &u32_bytes(reply.flags),
            &u32_bytes(reply.capabilities),
            &u32_bytes(reply.maximal_access),
        ],
    )
}

/// What a message without fields tells, if its body is whole.
#[tactic(auto, unfolding(xl_layout::specs::Forms::form_read, crate::specs::Sessions::empty))]
pub(crate) fn empty_at<T: Copy>(command: Command, body: &[u8], told: T) -> Result<T, SmbBad>
    ensures ok { (frame : List ℕ) → IfOk result (λ x. (x ≡ told) × (form_at empty (number_of command) frame body.now ≡ Ok tt)) }
    ensures err { (frame : List ℕ) → IfErr result (λ e. form_at empty (number_of command) frame body.now ≡ Err e) }
{
    check_fixed(command.number(), 4, 4, body)?;
    Ok(told)
}

/// Writes the body of a message without fields.
#[tactic(auto, unfolding(xl_layout::specs::Forms::form_text, crate::specs::Sessions::empty))]
pub(crate) fn put_empty(out: &mut Vec<u8>) -> Result<(), AllocError>
    ensures { Puts (by_form empty tt) result out.old.items out.new.items }
{
    put_all(out, &[&u16_bytes(4), &[0; 2]])
}
