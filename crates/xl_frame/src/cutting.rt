//! Bytes cut into frames.
ghost use Rattle.std.specs.Prelude.{◌≡◌, ◌++◌, ◌≤◌, List, length, drop, IfOk, OnErr};
ghost use Rattle.xl_frame.specs.Frames.{Framed, frames, with_frames};
ghost use Rattle.xl_frame.specs.Progress.{Resumes};

use crate::fault::FrameBad;
use crate::fragment::behind;
use crate::message::{Progress, Sight, beginning, look, message_of};
use std::alloc::{AllocError, Global};
use std::collections::VecDeque;
use xl_base::{Kind, Sequence};

/// What bytes were cut into: the messages of their whole frames, where the bytes behind these begin, how far the message
/// there is read, and the fault of a bad place.
#[derive(Drop)]
pub(crate) struct Cut {
    pub(crate) frames: Vec<Sequence<u8>>,
    pub(crate) begin: usize,
    pub(crate) read: Progress,
    pub(crate) bad: Option<FrameBad>,
}

/// Cuts bytes into frames, if so much of the first is read already.
pub(crate) fn cut_frames(
    alloc: Global,
    kind: Kind,
    bytes: &[u8],
    read: Progress,
) -> Result<Cut, AllocError>
    requires { Resumes kind read bytes.now }
    ensures framed { IfOk result (λ c. record { frames = c.frames.items; rest = drop c.begin bytes.now; bad = c.bad } ≡ frames kind bytes.now) }
    ensures begin { IfOk result (λ c. c.begin ≤ length bytes.now) }
    ensures read { IfOk result (λ c. Resumes kind c.read (drop c.begin bytes.now)) }
{
    let mut frames = Vec::new(alloc);
    let mut begin = 0;
    let mut read = read;
    'frames: loop {
        match look(kind, behind(bytes, begin), read) {
            Sight::Whole => {
                let (message, size) = message_of(alloc, kind, behind(bytes, begin))?;
                frames.push(Sequence::from_vec(message))?;
                begin += size;
                read = beginning();
            }
            Sight::Part(read) => {
                return Ok(Cut {
                    frames,
                    begin,
                    read,
                    bad: None,
                });
            }
            Sight::Broken(fault) => {
                return Ok(Cut {
                    frames,
                    begin: bytes.len(),
                    read: beginning(),
                    bad: Some(fault),
                });
            }
        }
    }
}
