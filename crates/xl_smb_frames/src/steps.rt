//! What is done next of a frame.
ghost use Rattle.std.specs.Prelude.{◌≡◌, ◌==◌, ◌≤◌, false, IfOk, IfSome, nat_lt};
ghost use Rattle.xl_smb.specs.Compounds.{shown_part, shown_rest};
ghost use Rattle.xl_smb_frames.specs.Steps.{is_first, is_astray, is_unfit, is_silent, is_refused, failed_before, error_by, undone_by, judged, next_step};

use crate::frame::{Frame, leads_on, refusal};
use std::alloc::{AllocError, Global};
use xl_base::Sequence;
use xl_front_smb::SmbStatus;
use xl_smb::{
    Before, Behind, Command, SmbPart, failure_in, part_at, resolved, resolved_head, taken_over,
};

/// What is done next of a frame.
#[derive(Drop)]
pub enum Step {
    /// Nothing: its parts are done.
    Ends,
    /// The next part isn't done: this is its reply.
    Replied(Sequence<u8>),
    /// The next part is done, as this message alone.
    Asked(Sequence<u8>),
}

/// Whether no part of a frame is done yet.
fn is_first(frame: &Frame) -> bool
    ensures { result ≡ is_first frame.now }
{
    frame.before.is_none()
}

/// Whether the NextCommand of a part is out of order.
fn is_astray(behind: Behind<'_>) -> bool
    ensures { result ≡ is_astray (shown_rest behind.entry) }
{
    match behind {
        Behind::Astray => true,
        Behind::Last | Behind::Next(_) => false,
    }
}

/// Whether a request of this command can't be one of several.
fn is_unfit(command: u16) -> bool
    ensures { result ≡ is_unfit command }
{
    command == Command::Negotiate.number() || command == Command::Cancel.number()
}

/// Whether a part is a CANCEL that is alone in its frame, which gets no reply (MS-SMB2 3.3.5.16).
fn is_silent(frame: &Frame, part: &SmbPart<'_>) -> bool
    ensures { result ≡ is_silent frame.now (shown_part part.now) }
{
    is_first(frame) && !leads_on(part) && part.head.command == Command::Cancel.number()
}

/// Whether a part is out of order among several, or related to none.
fn is_refused(frame: &Frame, part: &SmbPart<'_>) -> bool
    ensures { result ≡ is_refused frame.now (shown_part part.now) }
{
    is_astray(part.behind)
        || is_unfit(part.head.command)
        || (is_first(frame) && part.head.is_related())
}

/// The error of the part before, if it is one.
fn error_before(before: Option<Before>) -> Option<u32>
    ensures value { result ≡ error_by (failed_before before) }
    ensures error { IfSome result (λ status. (status == 0) ≡ false) }
{
    let Some(before) = before else {
        return None;
    };
    match before.failed {
        Some(status) => failure_in(status),
        None => None,
    }
}

/// Why a part isn't done, if it isn't.
fn undone(frame: &Frame, part: &SmbPart<'_>) -> Option<u32>
    ensures value { result ≡ undone_by frame.now (shown_part part.now) }
    ensures error { IfSome result (λ status. (status == 0) ≡ false) }
{
    if is_refused(frame, part) {
        Some(SmbStatus::InvalidParameter.number())
    } else {
        error_before(taken_over(&part.head, frame.before))
    }
}

/// A part is done, or isn't for this cause.
fn judged(
    alloc: Global,
    frame: &Frame,
    part: &SmbPart<'_>,
    cause: Option<u32>,
) -> Result<Step, AllocError>
    requires { IfSome cause (λ status. (status == 0) ≡ false) }
    ensures { IfOk result (λ next. next ≡ judged frame.now (shown_part part.now) cause) }
{
    let before = taken_over(&part.head, frame.before);
    match cause {
        Some(status) => {
            let head = resolved_head(before, &part.head);
            Ok(Step::Replied(refusal(alloc, &head, status)?))
        }
        None => {
            let message = resolved(alloc, before, part.bytes)?;
            Ok(Step::Asked(Sequence::from_vec(message)))
        }
    }
}

/// What is done next of a frame (MS-SMB2 3.3.5.2.7). A part is refused with STATUS_INVALID_PARAMETER if its NextCommand is
/// out of order, if it is NEGOTIATE or CANCEL, or if it is the first and related; one that is related to a part that failed
/// is answered the same.
#[tactic(auto, unfolding(crate::specs::Steps::next_step))]
pub fn next_step(alloc: Global, frame: &Frame) -> Result<Step, AllocError>
    ensures { IfOk result (λ next. next ≡ next_step frame.now) }
{
    if frame.left == 0 {
        return Ok(Step::Ends);
    }
    let Some(part) = part_at(frame.rest.as_slice()) else {
        return Ok(Step::Ends);
    };
    if is_silent(frame, &part) {
        return Ok(Step::Ends);
    }
    let cause = undone(frame, &part);
    Ok(judged(alloc, frame, &part, cause)?)
}
