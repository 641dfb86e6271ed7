//! The header of a message.
ghost use Rattle.std.specs.Prelude.{◌≡◌, ◌≤◌, ◌++◌, length, OnOk};
ghost use Rattle.xl_base.specs.Results.{Gives};
ghost use Rattle.xl_smb.specs.Heads.{is_set, is_reply, reply_flags, is_notice, has_mark, route_of, head_at, head_of, route, head, RouteFits, HeadFits};

use crate::command::Command;
use crate::fault::SmbBad;
use std::alloc::AllocError;
use xl_layout::{bytes_at, put_all, u16_at, u16_bytes, u32_at, u32_bytes, u64_at, u64_bytes};

/// SMB2_FLAGS_SERVER_TO_REDIR, of a reply or a notice (MS-SMB2 2.2.1.1).
pub const SERVER_TO_REDIR: u32 = 1;
/// SMB2_FLAGS_ASYNC_COMMAND, of the asynchronous form (MS-SMB2 2.2.1.1).
pub const ASYNC_COMMAND: u32 = 2;

/// What a message belongs to, by the form of its header.
#[derive(Clone, Copy)]
pub enum Route {
    /// The synchronous form: the tree of this number, 0 for none (MS-SMB2 2.2.1.2).
    Tree(u32),
    /// The asynchronous form: the pending request of this number (MS-SMB2 2.2.1.1).
    Async(u64),
}

/// The header of a message (MS-SMB2 2.2.1).
#[derive(Clone, Copy)]
pub struct SmbHead {
    /// How many credits the request costs; not used here.
    pub credit_charge: u16,
    /// The status of a reply, 0 for success (MS-ERREF 2.3).
    pub status: u32,
    /// The command's number.
    pub command: u16,
    /// The credits that a request asks for, or that a reply grants.
    pub credits: u16,
    /// SERVER_TO_REDIR, ASYNC_COMMAND; 4 related to the part before it, 8 signed.
    pub flags: u32,
    /// The way to the next part of the frame, 0 in the last.
    pub next_command: u32,
    /// The request's number, repeated in its replies; all ones in a notice.
    pub message_id: u64,
    /// The tree, or the pending request.
    pub route: Route,
    /// The session, 0 for none.
    pub session_id: u64,
    /// The signature, zeros if the message isn't signed.
    pub signature: [u8; 16],
}

impl SmbHead {
    /// Whether SERVER_TO_REDIR is set, so that the message is a reply or a notice.
    pub fn is_reply(&self) -> bool
        ensures { result ≡ is_reply self.now }
    {
        is_set(SERVER_TO_REDIR, self.flags)
    }
}

impl Route {
    /// The flags of a reply in the form of this route.
    pub fn reply_flags(self) -> u32
        ensures { result ≡ reply_flags self }
    {
        match self {
            Route::Tree(_) => SERVER_TO_REDIR,
            Route::Async(_) => SERVER_TO_REDIR + ASYNC_COMMAND,
        }
    }
}

/// Whether this flag is set.
fn is_set(flag: u32, flags: u32) -> bool
    ensures { result ≡ is_set flag flags }
{
    flags & flag != 0
}

/// Whether a frame begins with the mark and the header's size.
#[tactic(auto, unfolding(crate::specs::Heads::has_mark))]
fn has_mark(frame: &[u8]) -> bool
    requires { 64 ≤ length frame.now }
    ensures { result ≡ has_mark frame.now }
{
    frame[..6] == [0xFE, 0x53, 0x4D, 0x42, 64, 0]
}

/// Whether a header is that of a notice, which the server sends without a request (MS-SMB2 2.2.23).
#[tactic(auto, unfolding(crate::specs::Heads::is_notice))]
pub(crate) fn is_notice(head: &SmbHead) -> bool
    ensures { result ≡ is_notice head.now }
{
    head.status == 0
        && head.command == Command::OplockBreak.number()
        && head.flags == SERVER_TO_REDIR
        && head.credits == 0
        && head.message_id == u64::MAX
        && head.session_id == 0
        && matches!(head.route, Route::Tree(0))
}

/// The tree or the pending request of eight bytes.
fn route_of(flags: u32, bytes: &[u8]) -> Route
    requires { 8 ≤ length bytes.now }
    ensures { result ≡ route_of flags bytes.now }
{
    if is_set(ASYNC_COMMAND, flags) {
        Route::Async(u64_at(bytes, 0))
    } else {
        Route::Tree(u32_at(bytes, 4))
    }
}

/// Reads the header of a message, whatever stands behind it: Short if there are fewer than 64 bytes, else Magic if
/// the first six aren't the mark and the header's size.
#[tactic(auto, unfolding(crate::specs::Heads::head_of))]
pub fn read_head(frame: &[u8]) -> Result<SmbHead, SmbBad>
    ensures exact { Gives (λ head. head) result (head_of frame.now) }
    ensures long { OnOk result (64 ≤ length frame.now) }
{
    if frame.len() < 64 {
        return Err(SmbBad::Short);
    }
    if !has_mark(frame) {
        return Err(SmbBad::Magic);
    }
    Ok(head_at(frame))
}

/// The header at the front of at least 64 bytes, whatever mark they have.
#[tactic(auto, unfolding(crate::specs::Heads::head_at, crate::specs::Heads::head_fields))]
pub fn head_at(frame: &[u8]) -> SmbHead
    requires { 64 ≤ length frame.now }
    ensures { result ≡ head_at frame.now }
{
    let flags = u32_at(frame, 16);
    let route: [u8; 8] = bytes_at(frame, 32);
    SmbHead {
        credit_charge: u16_at(frame, 6),
        status: u32_at(frame, 8),
        command: u16_at(frame, 12),
        credits: u16_at(frame, 14),
        flags,
        next_command: u32_at(frame, 20),
        message_id: u64_at(frame, 24),
        route: route_of(flags, &route),
        session_id: u64_at(frame, 40),
        signature: bytes_at(frame, 48),
    }
}

/// The tree or the pending request in eight bytes.
#[tactic(auto, unfolding(crate::specs::Heads::route, xl_base::specs::Codec::little_endian))]
fn route_bytes(to: Route) -> [u8; 8]
    ensures spelled { result ≡ route to }
    ensures fits { RouteFits to }
{
    match to {
        Route::Tree(tree) => {
            let [a, b, c, d] = tree.to_le_bytes();
            [0, 0, 0, 0, a, b, c, d]
        }
        Route::Async(pending) => pending.to_le_bytes(),
    }
}

/// Writes a header.
#[tactic(auto, unfolding(crate::specs::Heads::head, crate::specs::Heads::head_fields))]
pub(crate) fn put_head(out: &mut Vec<u8>, h: SmbHead) -> Result<(), AllocError>
    ensures ok { OnOk result (out.new.items ≡ out.old.items ++ head h) }
    ensures fits { HeadFits h }
{
    let route = route_bytes(h.route);
    put_all(
        out,
        &[
            &[0xFE, 0x53, 0x4D, 0x42, 64, 0],
            &u16_bytes(h.credit_charge),
            &u32_bytes(h.status),
            &u16_bytes(h.command),
            &u16_bytes(h.credits),
            &u32_bytes(h.flags),
            &u32_bytes(h.next_command),
            &u64_bytes(h.message_id),
            &route,
            &u64_bytes(h.session_id),
            &h.signature,
        ],
    )
}
