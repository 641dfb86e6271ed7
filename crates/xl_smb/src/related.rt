//! What a related part takes over from the part before it.
ghost use Rattle.std.specs.Prelude.{◌≡◌, ◌≤◌, ◌++◌, false, length, Ok, OnOk, IfOk, IfSome};
ghost use Rattle.xl_smb.specs.Heads.{is_reply, head_of};
ghost use Rattle.xl_smb.specs.Related.{is_related, taken_over, resolved_head, is_unnamed, file_or_none, is_of_open, open_in, with_open, body_by, resolved_body, resolved, lacks_open, is_unnamed_in, is_nameless, route_tree, tree_left, made_in, either_file, failure_in, left_by, with_head, related_head};
ghost use Rattle.xl_smb.specs.declared.head.SmbHead.{SmbHead as Head};

use crate::body::size_found;
use crate::command::Command;
use crate::file::{FileId, file_id_at};
use crate::head::{Route, SmbHead, put_head, read_head};
use std::alloc::{AllocError, Global};
use xl_layout::{put_all, u64_bytes};

/// SMB2_FLAGS_RELATED_OPERATIONS, of a part that takes over what the part before it has (MS-SMB2 2.2.1.2).
pub const RELATED_OPERATIONS: u32 = 4;

/// What a part leaves to a related one behind it: what it had or was given (MS-SMB2 3.3.5.2.7.2).
#[derive(Clone, Copy)]
pub struct Before {
    /// Its session, 0 for none.
    pub session_id: u64,
    /// Its tree connect, 0 for none.
    pub tree_id: u32,
    /// The open that it named or made.
    pub file_id: Option<FileId>,
    /// The status of its reply, if that is an error.
    pub failed: Option<u32>,
}

impl SmbHead {
    /// Whether the part is related to the one before it.
    pub fn is_related(&self) -> bool
        ensures { result ≡ is_related self.now }
    {
        self.flags & RELATED_OPERATIONS != 0
    }
}

/// What a part of this header takes over, if it is related to the part before it.
pub fn taken_over(head: &SmbHead, before: Option<Before>) -> Option<Before>
    ensures { result ≡ taken_over head.now before }
{
    if head.is_related() { before } else { None }
}

/// The header of a part as that of a message alone, with the session and the tree connect that it takes over.
#[tactic(auto, unfolding(crate::specs::Related::resolved_head), using(crate::proofs::RelatedLaws::keeps_request, crate::proofs::RelatedLaws::keeps_taken_request, crate::proofs::RelatedLaws::is_alone, crate::proofs::RelatedLaws::is_taken_alone))]
pub fn resolved_head(before: Option<Before>, head: &SmbHead) -> SmbHead
    ensures value { result ≡ resolved_head before head.now }
    // A request stays one, and it is not related.
    ensures request { is_reply result ≡ is_reply head.now }
    ensures alone { is_related result ≡ false }
{
    match before {
        Some(before) => SmbHead {
            flags: head.flags & 0xFFFF_FFF9,
            next_command: 0,
            route: Route::Tree(before.tree_id),
            session_id: before.session_id,
            ..*head
        },
        None => SmbHead {
            flags: head.flags & 0xFFFF_FFFB,
            next_command: 0,
            ..*head
        },
    }
}

/// Whether a FileId is all ones, in the place of the open of the part before.
fn is_unnamed(id: FileId) -> bool
    ensures { result ≡ is_unnamed id }
{
    id.persistent == u64::MAX && id.volatile == u64::MAX
}

/// The open of the part before, or what no open is called.
fn file_or_none(file: Option<FileId>) -> FileId
    ensures { result ≡ file_or_none file }
{
    match file {
        Some(id) => id,
        None => FileId {
            persistent: 0,
            volatile: u64::MAX,
        },
    }
}

/// Whether a body of this command names an open.
fn is_of_open(command: u16, body: &[u8]) -> bool
    ensures { result ≡ is_of_open command body.now }
{
    command == Command::Close.number()
        || command == Command::Lock.number()
        || (command == Command::OplockBreak.number() && size_found(body) != 36)
}

/// The open that a body of this command names.
fn open_in(command: u16, body: &[u8]) -> Option<FileId>
    ensures is { result ≡ open_in command body.now }
    ensures long { IfSome result (λ id. 24 ≤ length body.now) }
{
    if body.len() < 24 {
        return None;
    }
    if is_of_open(command, body) {
        Some(file_id_at(body, 8))
    } else {
        None
    }
}

/// Writes a body that names this open.
#[tactic(auto, unfolding(crate::specs::Related::with_open))]
fn put_open(out: &mut Vec<u8>, id: FileId, body: &[u8]) -> Result<(), AllocError>
    requires { 24 ≤ length body.now }
    ensures { OnOk result (out.new.items ≡ out.old.items ++ with_open id body.now) }
{
    put_all(
        out,
        &[
            body.split_at(8).0,
            &u64_bytes(id.persistent),
            &u64_bytes(id.volatile),
            body.split_at(24).1,
        ],
    )?;
    Ok(())
}

/// Writes a body, of the open of the part before if it names one by all ones.
fn put_body_by(
    out: &mut Vec<u8>,
    file: Option<FileId>,
    command: u16,
    body: &[u8],
) -> Result<(), AllocError>
    ensures { OnOk result (out.new.items ≡ out.old.items ++ body_by file body.now (open_in command body.now)) }
{
    match open_in(command, body) {
        Some(id) => {
            if is_unnamed(id) {
                put_open(out, file_or_none(file), body)?;
            } else {
                out.extend_from_slice(body)?;
            }
        }
        None => out.extend_from_slice(body)?,
    }
    Ok(())
}

/// Writes a body with the open that it takes over.
fn put_body(
    out: &mut Vec<u8>,
    before: Option<Before>,
    command: u16,
    body: &[u8],
) -> Result<(), AllocError>
    ensures { OnOk result (out.new.items ≡ out.old.items ++ resolved_body before command body.now) }
{
    match before {
        Some(before) => put_body_by(out, before.file_id, command, body)?,
        None => out.extend_from_slice(body)?,
    }
    Ok(())
}

/// Writes a part as a message alone.
#[tactic(auto, unfolding(crate::specs::Related::resolved), using(crate::proofs::RelatedLaws::resolved_reads, crate::proofs::RelatedLaws::unread_reads))]
fn put_resolved(out: &mut Vec<u8>, before: Option<Before>, bytes: &[u8]) -> Result<(), AllocError>
    ensures value { OnOk result (out.new.items ≡ out.old.items ++ resolved before bytes.now) }
    ensures head { OnOk result ((h : Head) → head_of bytes.now ≡ Ok h → head_of (resolved before bytes.now) ≡ Ok (resolved_head before h)) }
{
    match read_head(bytes) {
        Ok(head) => {
            put_head(out, resolved_head(before, &head))?;
            put_body(out, before, head.command, bytes.split_at(64).1)?;
        }
        Err(_) => out.extend_from_slice(bytes)?,
    }
    Ok(())
}

/// A part as a message alone (MS-SMB2 3.3.5.2.7.2): without NextCommand and the flag of a related part, and with what it takes
/// over in the place of its session, its tree connect, and an open that is all ones. If the part before neither named nor made
/// an open, that names none. Bytes without a header stay.
#[tactic(auto, using(crate::proofs::RelatedLaws::message_reads))]
pub fn resolved(alloc: Global, before: Option<Before>, bytes: &[u8]) -> Result<Vec<u8>, AllocError>
    ensures value { IfOk result (λ message. message.items ≡ resolved before bytes.now) }
    // Its header is the part's, with what is taken over.
    ensures head { IfOk result (λ message. (h : Head) → head_of bytes.now ≡ Ok h → head_of message.items ≡ Ok (resolved_head before h)) }
{
    let mut out = Vec::new(alloc);
    put_resolved(&mut out, before, bytes)?;
    Ok(out)
}

/// Whether no open is left to a related part.
fn lacks_open(file: Option<FileId>) -> bool
    ensures { result ≡ lacks_open file }
{
    file.is_none()
}

/// Whether this FileId is there and all ones.
fn is_unnamed_in(id: Option<FileId>) -> bool
    ensures { result ≡ is_unnamed_in id }
{
    match id {
        Some(id) => is_unnamed(id),
        None => false,
    }
}

/// Whether a part names the open of a part before it that neither named nor made one. The body is what stands behind the
/// header.
pub fn is_nameless(before: Option<Before>, command: u16, body: &[u8]) -> bool
    ensures { result ≡ is_nameless before command body.now }
{
    match before {
        Some(before) => lacks_open(before.file_id) && is_unnamed_in(open_in(command, body)),
        None => false,
    }
}

/// The tree connect that a header names, 0 for none.
fn route_tree(route: Route) -> u32
    ensures { result ≡ route_tree route }
{
    match route {
        Route::Tree(id) => id,
        Route::Async(_) => 0,
    }
}

/// The tree connect that a reply names, or that of its request if it names none.
fn tree_left(reply: Route, request: Route) -> u32
    ensures { result ≡ tree_left reply request }
{
    match reply {
        Route::Tree(id) => id,
        Route::Async(_) => route_tree(request),
    }
}

/// The open that a reply to CREATE says was made.
fn made_in(reply: &SmbHead, told: &[u8]) -> Option<FileId>
    ensures { result ≡ made_in reply.now told.now }
{
    if reply.command == Command::Create.number() && reply.status == 0 && told.len() >= 88 {
        Some(file_id_at(told, 64))
    } else {
        None
    }
}

/// The open that was made, or else that was named.
fn either_file(made: Option<FileId>, named: Option<FileId>) -> Option<FileId>
    ensures { result ≡ either_file made named }
{
    match made {
        Some(id) => Some(id),
        None => named,
    }
}

/// The status, if it is of severity error (MS-ERREF 2.3).
pub fn failure_in(status: u32) -> Option<u32>
    ensures { result ≡ failure_in status }
{
    if status < 0xC000_0000 {
        None
    } else {
        Some(status)
    }
}

/// What a part leaves to a related one behind it: by the header of its request and what stands behind that, and the same of
/// its reply.
#[tactic(auto, unfolding(crate::specs::Related::left_by))]
pub fn left_by(request: &SmbHead, asked: &[u8], reply: &SmbHead, told: &[u8]) -> Before
    ensures { result ≡ left_by request.now asked.now reply.now told.now }
{
    Before {
        session_id: reply.session_id,
        tree_id: tree_left(reply.route, request.route),
        file_id: either_file(made_in(reply, told), open_in(request.command, asked)),
        failed: failure_in(reply.status),
    }
}

/// A message with another header. That of a reply to a related part has the flag of one.
#[tactic(auto, unfolding(crate::specs::Related::with_head))]
pub fn with_head(alloc: Global, head: SmbHead, bytes: &[u8]) -> Result<Vec<u8>, AllocError>
    requires { 64 ≤ length bytes.now }
    ensures { IfOk result (λ message. message.items ≡ with_head head bytes.now) }
{
    let mut out = Vec::new(alloc);
    put_head(&mut out, head)?;
    out.extend_from_slice(bytes.split_at(64).1)?;
    Ok(out)
}

/// The header of a reply to a related part.
pub fn related_head(head: &SmbHead) -> SmbHead
    ensures { result ≡ related_head head.now }
{
    SmbHead {
        flags: head.flags | RELATED_OPERATIONS,
        ..*head
    }
}
