//! A request that waited is answered at last, and its frame goes on.
ghost use Rattle.std.specs.Prelude.{◌≡◌, ◌≤◌, length, IfOk};
ghost use Rattle.xl_smb_frames.specs.Waking.{async_in, async_id, before_by, final_by, woken};

use crate::answers::body_of;
use crate::frame::{Frame, Paused};
use std::alloc::{AllocError, Global};
use xl_base::Sequence;
use xl_smb::{Before, Route, SmbHead, failure_in, left_by, read_head, related_head, with_head};

/// The AsyncId that a route names.
fn async_in(route: Route) -> Option<u64>
    ensures { result ≡ async_in route }
{
    match route {
        Route::Tree(_) => None,
        Route::Async(id) => Some(id),
    }
}

/// The AsyncId that a message names.
#[tactic(auto, unfolding(crate::specs::Waking::async_id))]
pub fn async_id(bytes: &[u8]) -> Option<u64>
    ensures { result ≡ async_id bytes.now }
{
    match read_head(bytes) {
        Ok(head) => async_in(head.route),
        Err(_) => None,
    }
}

/// The open that was made, or else that was named.
fn before_by(before: &Before, head: &SmbHead, body: &[u8]) -> Before
    ensures { result ≡ before_by before.now head.now body.now }
{
    let left = left_by(head, &[], head, body);
    Before {
        file_id: match left.file_id {
            Some(id) => Some(id),
            None => before.file_id,
        },
        failed: failure_in(head.status),
        ..*before
    }
}

/// The final reply to a request that waited; that to a related part has the flag of one.
fn final_by(
    alloc: Global,
    related: bool,
    head: &SmbHead,
    reply: &[u8],
) -> Result<Sequence<u8>, AllocError>
    requires { 64 ≤ length reply.now }
    ensures { IfOk result (λ r. r ≡ final_by related reply.now head.now) }
{
    if related {
        let marked = with_head(alloc, related_head(head), reply)?;
        Ok(Sequence::from_vec(marked))
    } else {
        Ok(Sequence::from_slice(alloc, reply)?)
    }
}

/// A request that waited has this final reply: its frame goes on with the parts behind it.
#[tactic(auto, unfolding(crate::specs::Waking::woken))]
pub fn wake(alloc: Global, paused: &Paused, reply: &[u8]) -> Result<Frame, AllocError>
    ensures { IfOk result (λ frame. frame ≡ woken paused.now reply.now) }
{
    let conn = paused.conn;
    let mut replies = Sequence::new(alloc);
    match read_head(reply) {
        Ok(head) => {
            replies.push(final_by(alloc, paused.related, &head, reply)?)?;
            Ok(Frame {
                conn,
                before: Some(before_by(&paused.before, &head, body_of(reply))),
                rest: Sequence::from_slice(alloc, paused.rest.as_slice())?,
                left: paused.left,
                replies,
                after: Sequence::new(alloc),
            })
        }
        Err(_) => {
            replies.push(Sequence::from_slice(alloc, reply)?)?;
            Ok(Frame {
                conn,
                before: Some(paused.before),
                rest: Sequence::new(alloc),
                left: 0,
                replies,
                after: Sequence::new(alloc),
            })
        }
    }
}
