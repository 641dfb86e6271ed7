//! Frames that are being answered.
ghost use Rattle.std.specs.Prelude.{◌≡◌, ◌≤◌, ◌==◌, not, false, length, is_some, IsTrue, IfOk, IfSome};
ghost use Rattle.std.specs.List.{AllByRecursion, list_any};
ghost use Rattle.xl_base.specs.Limits.{most_message_bytes};
ghost use Rattle.xl_programs.specs.Sent.{FitsFrame};
ghost use Rattle.xl_smb.specs.Compounds.{IsWhole, compound, part_at, shown_part};
ghost use Rattle.xl_front_smb.specs.Replies.{credits_for, reply_head, tree_id};
ghost use Rattle.xl_smb_frames.specs.Frames.{leads_on, is_alone, refusal, refused_by, opened, is_whole, may_be_sent, frame_sent};

use std::alloc::{AllocError, Global};
use xl_base::{MOST_MESSAGE_BYTES, Out, Sequence};
use xl_front_smb::SmbStatus;
use xl_programs::sent_to;
use xl_smb::{
    Before, Route, SmbHead, SmbMessage, SmbPart, SmbReply, is_over, join, part_at, resolved_head,
    write,
};

/// How many parts of a frame are done.
pub const MOST_PARTS: u32 = 64;

/// A frame that is being answered.
#[derive(Drop)]
pub struct Frame {
    /// The connection that it came by.
    pub conn: u64,
    /// What the part before the next leaves; None before the first.
    pub before: Option<Before>,
    /// The bytes from the next part's header on; empty behind the last.
    pub rest: Sequence<u8>,
    /// How many parts may be done yet, at most 64.
    pub left: u32,
    /// The replies to the parts that are done.
    pub replies: Sequence<Sequence<u8>>,
    /// What is sent right behind its replies, as it stands.
    pub after: Sequence<Out>,
}

/// What stands behind a part that waits.
#[derive(Drop)]
pub struct Paused {
    /// The connection that its frame came by.
    pub conn: u64,
    /// The AsyncId of the part that waits.
    pub waiter: u64,
    /// Whether that part is related to one before it.
    pub related: bool,
    /// What it leaves to the part behind it, as long as it waits.
    pub before: Before,
    /// The bytes from the next part's header on; empty if there is none.
    pub rest: Sequence<u8>,
    /// How many parts may be done yet.
    pub left: u32,
}

/// Whether a part leads on to another.
pub(crate) fn leads_on(part: &SmbPart<'_>) -> bool
    ensures { result ≡ leads_on (shown_part part.now) }
{
    part.behind.next().is_some()
}

/// Whether a frame has one message, which is related to none. So has one that isn't a request.
#[tactic(auto, unfolding(crate::specs::Frames::is_alone))]
pub fn is_alone(bytes: &[u8]) -> bool
    ensures { result ≡ is_alone bytes.now }
{
    match part_at(bytes) {
        Some(part) => !leads_on(&part) && !part.head.is_related(),
        None => true,
    }
}

/// The credits that are granted if so many are asked for.
#[tactic(auto, unfolding(xl_front_smb::specs::Replies::credits_for))]
fn credits_for(asked: u16) -> u16
    ensures { result ≡ credits_for asked }
{
    asked.max(1).min(512)
}

/// The tree connect that a request names, 0 for none.
fn tree_id(route: Route) -> u32
    ensures { result ≡ tree_id route }
{
    match route {
        Route::Tree(id) => id,
        Route::Async(_) => 0,
    }
}

/// The header of a reply.
#[tactic(auto, unfolding(xl_front_smb::specs::Replies::reply_head))]
fn reply_head(head: &SmbHead, status: u32) -> SmbHead
    ensures { result ≡ reply_head head.now status (tree_id head.now.route) head.now.session_id }
{
    SmbHead {
        credit_charge: head.credit_charge,
        status,
        command: head.command,
        credits: credits_for(head.credits),
        flags: 1,
        next_command: 0,
        message_id: head.message_id,
        route: Route::Tree(tree_id(head.route)),
        session_id: head.session_id,
        signature: [0; 16],
    }
}

/// The reply to a request of this header that fails so.
#[tactic(auto, unfolding(crate::specs::Frames::refusal))]
pub(crate) fn refusal(
    alloc: Global,
    head: &SmbHead,
    status: u32,
) -> Result<Sequence<u8>, AllocError>
    requires { (status == 0) ≡ false }
    ensures { IfOk result (λ reply. reply ≡ refusal head.now status) }
{
    let message = SmbMessage::Reply(reply_head(head, status), SmbReply::Error);
    Ok(Sequence::from_vec(write(alloc, &message)?))
}

/// The refusal of the first part of a frame that has too many.
fn refused(alloc: Global, bytes: &[u8]) -> Result<Sequence<Sequence<u8>>, AllocError>
    ensures { IfOk result (λ replies. replies ≡ refused_by (part_at bytes.now)) }
{
    let mut replies = Sequence::new(alloc);
    if let Some(part) = part_at(bytes) {
        let head = resolved_head(None, &part.head);
        let status = SmbStatus::InvalidParameter.number();
        replies.push(refusal(alloc, &head, status)?)?;
    }
    Ok(replies)
}

/// A frame that came by a connection. If it has over 64 parts its first is refused, and nothing of it is done.
#[tactic(auto, unfolding(crate::specs::Frames::opened))]
pub fn open(alloc: Global, conn: u64, bytes: &[u8]) -> Result<Frame, AllocError>
    ensures { IfOk result (λ frame. frame ≡ opened conn bytes.now) }
{
    if is_over(bytes) {
        return Ok(Frame {
            conn,
            before: None,
            rest: Sequence::new(alloc),
            left: 0,
            replies: refused(alloc, bytes)?,
            after: Sequence::new(alloc),
        });
    }
    Ok(Frame {
        conn,
        before: None,
        rest: Sequence::from_slice(alloc, bytes)?,
        left: MOST_PARTS,
        replies: Sequence::new(alloc),
        after: Sequence::new(alloc),
    })
}

/// Whether this may stand in a frame: it has a header, and isn't too long.
fn is_whole(reply: &[u8]) -> bool
    ensures value { result ≡ is_whole reply.now }
    ensures whole { IsTrue result → IsWhole reply.now }
{
    reply.len() >= 64 && reply.len() <= MOST_MESSAGE_BYTES
}

/// Whether one of these may not stand in a frame.
fn has_other(replies: &[Sequence<u8>]) -> bool
    ensures { result ≡ list_any (λ r. not (is_whole r)) replies.now }
{
    replies.iter().any(|reply| !is_whole(reply.as_slice()))
}

/// The frame of these replies, if there are any.
#[tactic(auto, using(crate::proofs::FrameLaws::all_whole))]
fn joined(alloc: Global, replies: &[Sequence<u8>]) -> Result<Option<Vec<u8>>, AllocError>
    ensures none { IfOk result (λ frame. may_be_sent replies.now ≡ is_some frame) }
    ensures joined { IfOk result (λ frame. IfSome frame (λ v. v.items ≡ compound replies.now)) }
    ensures little { IfOk result (λ frame. IfSome frame (λ v. length v.items ≤ most_message_bytes)) }
{
    if replies.is_empty() || has_other(replies) {
        return Ok(None);
    }
    let frame = join(alloc, replies)?;
    if frame.len() > MOST_MESSAGE_BYTES {
        return Ok(None);
    }
    Ok(Some(frame))
}

/// The replies to the parts of a frame, which are sent as one, without its own frame; nothing if there are none.
#[tactic(auto, unfolding(crate::specs::Frames::frame_sent))]
pub fn frame_sent(alloc: Global, frame: &Frame) -> Result<Sequence<Out>, AllocError>
    ensures sent { IfOk result (λ outs. outs ≡ frame_sent frame.now) }
    ensures little { IfOk result (λ outs. AllByRecursion FitsFrame outs) }
{
    match joined(alloc, frame.replies.as_slice())? {
        Some(bytes) => Ok(sent_to(alloc, frame.conn, bytes)?),
        None => Ok(Sequence::new(alloc)),
    }
}
