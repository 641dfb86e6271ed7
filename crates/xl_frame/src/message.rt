//! The message at the front of a stream.
ghost use Rattle.std.specs.Prelude.{◌≡◌, ◌≤◌, length, drop, IfOk};
ghost use Rattle.xl_frame.specs.Frames.{Whole, front_of};
ghost use Rattle.xl_frame.specs.Progress.{IsWhole, sight, shown_sight, Resumes, IfPart};

use crate::fault::FrameBad;
use crate::fragment::{Fragment, MOST_FRAGMENTS, behind, fragment_at};
use std::alloc::{AllocError, Global};
use xl_base::Kind;

/// How far a message is read: where its next header stands, how many fragments may still come, and the sum of bytes of
/// those before.
#[derive(Clone, Copy)]
pub(crate) struct Progress {
    pub(crate) at: usize,
    pub(crate) left: u32,
    pub(crate) sum: usize,
}

/// What is seen at the front of a stream.
pub(crate) enum Sight {
    /// A whole message.
    Whole,
    /// Less than a whole frame, read so far.
    Part(Progress),
    /// A bad place.
    Broken(FrameBad),
}

/// A message of which nothing is read.
pub(crate) fn beginning() -> Progress
    ensures { result ≡ record { at = 0; left = 64; sum = 0 } }
{
    Progress {
        at: 0,
        left: MOST_FRAGMENTS,
        sum: 0,
    }
}

/// What stands at the front of the bytes, of which so much is read already. It takes no memory.
pub(crate) fn look(kind: Kind, bytes: &[u8], read: Progress) -> Sight
    requires { Resumes kind read bytes.now }
    ensures sight { shown_sight result ≡ sight (front_of kind bytes.now) }
    ensures part { IfPart result (λ progress. Resumes kind progress bytes.now) }
{
    let Progress {
        mut at,
        mut left,
        mut sum,
    } = read;
    'fragments: loop {
        match fragment_at(kind, left, sum, behind(bytes, at)) {
            Fragment::Short => return Sight::Part(Progress { at, left, sum }),
            Fragment::Faulty(fault) => return Sight::Broken(fault),
            Fragment::Last(_, _) => return Sight::Whole,
            Fragment::More(body, _) => {
                at += 4 + body.len();
                left -= 1;
                sum += body.len();
            }
        }
    }
}

/// The whole message at the front of the bytes, and how many bytes its frame has.
pub(crate) fn message_of(
    alloc: Global,
    kind: Kind,
    bytes: &[u8],
) -> Result<(Vec<u8>, usize), AllocError>
    requires { sight (front_of kind bytes.now) ≡ IsWhole }
    ensures message { IfOk result (λ x. front_of kind bytes.now ≡ Whole x.0.items (drop x.1 bytes.now)) }
    ensures size { IfOk result (λ x. (4 ≤ x.1) × (x.1 ≤ length bytes.now)) }
{
    let mut message = Vec::new(alloc);
    let Progress {
        mut at,
        mut left,
        mut sum,
    } = beginning();
    'fragments: loop {
        match fragment_at(kind, left, sum, behind(bytes, at)) {
            Fragment::More(body, _) => {
                message.extend_from_slice(body)?;
                at += 4 + body.len();
                left -= 1;
                sum += body.len();
            }
            Fragment::Last(end, _) => {
                message.extend_from_slice(end)?;
                return Ok((message, at + 4 + end.len()));
            }
            Fragment::Short | Fragment::Faulty(_) => unreachable!(),
        }
    }
}
