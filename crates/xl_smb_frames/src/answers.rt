//! A part of a frame is answered.
ghost use Rattle.std.specs.Prelude.{◌≡◌, drop, IfOk};
ghost use Rattle.xl_smb.specs.Compounds.{shown_part};
ghost use Rattle.xl_smb.specs.Heads.{head_of};
ghost use Rattle.xl_smb.specs.Related.{taken_over};
ghost use Rattle.xl_smb_frames.specs.Answers.{named_head, marked_by, said, left_in, waits_at, waits, rest_of, fewer, paused, reply_added, turned, ended, part_answered, answered};

use crate::frame::{Frame, Paused};
use std::alloc::{AllocError, Global};
use xl_base::{Out, Sequence};
use xl_front_smb::SmbStatus;
use xl_smb::{
    Before, Route, SmbHead, SmbPart, is_nameless, left_by, part_at, read_head, related_head,
    resolved, resolved_head, taken_over, with_head,
};
use xl_smb_locks::PENDING;

/// What stands behind a header.
#[tactic(auto, using(crate::proofs::AnswerLaws::short_drop))]
pub(crate) fn body_of(bytes: &[u8]) -> &[u8]
    ensures { result.now ≡ drop 64 bytes.now }
{
    if bytes.len() < 64 {
        &[]
    } else {
        bytes.split_at(64).1
    }
}

/// The header of a reply; what names the open of a part that has none is refused.
fn named_head(before: Option<Before>, part: &SmbPart<'_>, head: &SmbHead) -> SmbHead
    ensures { result ≡ named_head before (shown_part part.now) head.now }
{
    if is_nameless(before, part.head.command, body_of(part.bytes))
        && head.status == SmbStatus::FileClosed.number()
    {
        SmbHead {
            status: SmbStatus::InvalidParameter.number(),
            ..*head
        }
    } else {
        *head
    }
}

/// The reply to a related part.
fn marked(
    alloc: Global,
    before: Option<Before>,
    part: &SmbPart<'_>,
    reply: &[u8],
) -> Result<Sequence<u8>, AllocError>
    ensures { IfOk result (λ r. r ≡ marked_by (taken_over part.now.head before) (shown_part part.now) reply.now (head_of reply.now)) }
{
    match read_head(reply) {
        Ok(head) => {
            let taken = taken_over(&part.head, before);
            let head = related_head(&named_head(taken, part, &head));
            Ok(Sequence::from_vec(with_head(alloc, head, reply)?))
        }
        Err(_) => Ok(Sequence::from_slice(alloc, reply)?),
    }
}

/// The reply to a part as that of a message alone; a related one has the flag of one.
#[tactic(auto, unfolding(crate::specs::Answers::said))]
fn said(
    alloc: Global,
    before: Option<Before>,
    part: &SmbPart<'_>,
    reply: &[u8],
) -> Result<Sequence<u8>, AllocError>
    ensures { IfOk result (λ r. r ≡ said before (shown_part part.now) reply.now) }
{
    if part.head.is_related() {
        Ok(marked(alloc, before, part, reply)?)
    } else {
        Ok(Sequence::from_slice(alloc, reply)?)
    }
}

/// What a part leaves to the part behind it, by its reply.
fn left_in(
    alloc: Global,
    before: Option<Before>,
    part: &SmbPart<'_>,
    reply: &[u8],
) -> Result<Option<Before>, AllocError>
    ensures { IfOk result (λ b. b ≡ left_in before (shown_part part.now) reply.now) }
{
    match read_head(reply) {
        Ok(head) => {
            let taken = taken_over(&part.head, before);
            let asked = resolved(alloc, taken, part.bytes)?;
            let request = resolved_head(taken, &part.head);
            Ok(Some(left_by(&request, body_of(&asked), &head, body_of(reply))))
        }
        Err(_) => Ok(None),
    }
}

/// The AsyncId of a request that waits, by the header of its reply.
fn waits_at(head: &SmbHead) -> Option<u64>
    ensures { result ≡ waits_at head.now head.now.route }
{
    match head.route {
        Route::Tree(_) => None,
        Route::Async(id) => {
            if head.status == PENDING {
                Some(id)
            } else {
                None
            }
        }
    }
}

/// The AsyncId, if this is the reply to a request that waits.
#[tactic(auto, unfolding(crate::specs::Answers::waits))]
fn waits(reply: &[u8]) -> Option<u64>
    ensures { result ≡ waits reply.now }
{
    match read_head(reply) {
        Ok(head) => waits_at(&head),
        Err(_) => None,
    }
}

/// The bytes behind a part, from the next header on; empty if there are none.
fn rest_of(alloc: Global, part: &SmbPart<'_>) -> Result<Sequence<u8>, AllocError>
    ensures { IfOk result (λ rest. rest ≡ rest_of (shown_part part.now)) }
{
    match part.behind.next() {
        Some(bytes) => Ok(Sequence::from_slice(alloc, bytes)?),
        None => Ok(Sequence::new(alloc)),
    }
}

/// How far a frame is.
#[derive(Clone, Copy)]
pub(crate) struct Course {
    /// The connection that it came by.
    pub conn: u64,
    /// What the part before leaves.
    pub before: Option<Before>,
    /// How many parts may be done yet.
    pub left: u32,
}

/// What a frame sends at its end.
#[derive(Drop)]
pub(crate) struct Told {
    /// The replies to the parts that are done.
    pub replies: Sequence<Sequence<u8>>,
    /// What is sent right behind them.
    pub after: Sequence<Out>,
}

/// One reply more.
fn add_reply(told: Told, reply: Sequence<u8>) -> Result<Told, AllocError>
    ensures { IfOk result (λ t. t ≡ reply_added told reply) }
{
    let Told { replies, after } = told;
    let mut replies = replies;
    replies.push(reply)?;
    Ok(Told { replies, after })
}

/// How many parts may be done behind a part, if so many with it.
fn fewer(left: u32, rest: &[u8]) -> u32
    ensures { result ≡ fewer left rest.now }
{
    if rest.is_empty() {
        0
    } else {
        left.saturating_sub(1)
    }
}

/// What stands with a part that waits under this AsyncId, and leaves this; a message alone leaves nothing there.
fn paused(
    course: &Course,
    part: &SmbPart<'_>,
    waiter: u64,
    before: Option<Before>,
    rest: Sequence<u8>,
) -> Option<Paused>
    ensures { result ≡ paused course.now (shown_part part.now) waiter rest before }
{
    if !part.head.is_related() && rest.is_empty() {
        return None;
    }
    let before = before?;
    let left = fewer(course.left, rest.as_slice());
    Some(Paused {
        conn: course.conn,
        waiter,
        related: part.head.is_related(),
        before,
        rest,
        left,
    })
}

/// A frame behind a part that leaves this, with these replies. With a part that waits it ends.
fn turned(
    alloc: Global,
    course: &Course,
    part: &SmbPart<'_>,
    waiter: Option<u64>,
    before: Option<Before>,
    told: Told,
) -> Result<(Frame, Option<Paused>), AllocError>
    ensures { IfOk result (λ r. r ≡ turned course.now (shown_part part.now) told before waiter) }
{
    let conn = course.conn;
    let rest = rest_of(alloc, part)?;
    match waiter {
        Some(id) => {
            let kept = paused(course, part, id, before, rest);
            Ok((ended(alloc, course, told), kept))
        }
        None => {
            let left = fewer(course.left, rest.as_slice());
            let frame = Frame {
                conn,
                before,
                rest,
                left,
                replies: told.replies,
                after: told.after,
            };
            Ok((frame, None))
        }
    }
}

/// A frame of which nothing more is done.
fn ended(alloc: Global, course: &Course, told: Told) -> Frame
    ensures { result ≡ ended course.now told }
{
    Frame {
        conn: course.conn,
        before: course.before,
        rest: Sequence::new(alloc),
        left: 0,
        replies: told.replies,
        after: told.after,
    }
}

/// A part of a frame is answered so.
fn answer_part(
    alloc: Global,
    course: &Course,
    part: &SmbPart<'_>,
    reply: &[u8],
    told: Told,
) -> Result<(Frame, Option<Paused>), AllocError>
    ensures { IfOk result (λ r. r ≡ part_answered course.now (shown_part part.now) told reply.now) }
{
    let own = said(alloc, course.before, part, reply)?;
    let before = left_in(alloc, course.before, part, own.as_slice())?;
    let told = add_reply(told, own)?;
    Ok(turned(alloc, course, part, waits(reply), before, told)?)
}

/// The next part of a frame is answered so, as a message alone: the frame behind it, and if the part waits what stands with it.
#[tactic(auto, unfolding(crate::specs::Answers::answered))]
pub fn answer(
    alloc: Global,
    frame: Frame,
    reply: &[u8],
) -> Result<(Frame, Option<Paused>), AllocError>
    ensures { IfOk result (λ r. r ≡ answered frame reply.now) }
{
    let Frame {
        conn,
        before,
        rest,
        left,
        replies,
        after,
    } = frame;
    let course = Course { conn, before, left };
    let told = Told { replies, after };
    match part_at(rest.as_slice()) {
        Some(part) => Ok(answer_part(alloc, &course, &part, reply, told)?),
        None => Ok((ended(alloc, &course, told), None)),
    }
}
