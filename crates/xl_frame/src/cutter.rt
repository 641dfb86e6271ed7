//! The cutter of a stream that comes in pieces.
ghost use Rattle.std.specs.Prelude.{◌≡◌, ◌++◌, List, [], None, take, drop, option_map, IfOk, OnErr, IfSome};
ghost use Rattle.xl_frame.specs.Frames.{Framed, frames};
ghost use Rattle.xl_frame.specs.Progress.{Resumes};

use crate::cutting::{Cut, cut_frames};
use crate::fault::{FeedErr, FrameBad};
use crate::fragment::behind;
use crate::message::{Progress, beginning};
use std::alloc::{AllocError, Global};
use std::collections::VecDeque;
use std::marker::Model;
use xl_base::{Kind, Sequence};

/// Cuts the bytes of a connection, in whatever pieces they come, into the messages of their frames: records of ONC RPC
/// (RFC 5531 11), or messages of SMB 2 over TCP (MS-SMB2 2.1). A message under way is read on from where it was, and
/// each byte is copied three times at most, except for what the growth of vectors copies.
#[derive(Drop)]
pub struct Cutter {
    kind: Kind,
    ready: VecDeque<Sequence<u8>>,
    held: Vec<u8>,
    read: Progress,
    bad: Option<FrameBad>,
}

impl Model for Cutter {
    ghost use Rattle.xl_frame.specs.Cutting.{Cutting};

    ghost Value = { Cutting };

    ghost use Rattle.xl_frame.specs.Progress.{Resumes};

    ghost view = { λ c. record { kind = c.kind; ready = c.ready.items; rest = c.held.items; bad = c.bad } };

    ghost invariant = { λ c. Resumes c.kind c.read c.held.items };
}

impl Cutter {
    ghost use Rattle.xl_frame.specs.Cutting.{Cutting, fed, Feeds, without_first};
    ghost use Rattle.xl_frame.specs.declared.fault.FeedErr.TheVariants.{Bad};
    ghost use Rattle.std.specs.Prelude.{Err, slice_get};

    /// A cutter of a stream of this kind, before its first byte; it takes no memory.
    pub fn new(alloc: Global, kind: Kind) -> Cutter
        ensures { result ≡ record { kind = kind; ready = []; rest = []; bad = None } }
    {
        Cutter {
            kind,
            ready: VecDeque::new(alloc),
            held: Vec::new(alloc),
            read: beginning(),
            bad: None,
        }
    }

    /// Takes the next piece of the stream. Bad comes from the first bad place on, with the same fault ever after; the
    /// messages before it are still handed out. After want of memory the cutter is as it was.
    pub fn feed(&mut self, alloc: Global, piece: &[u8]) -> Result<(), FeedErr>
        ensures feeds { Feeds self.old piece.now result self.new }
        ensures stays { IfSome self.old.bad (λ fault. result ≡ Err (Bad fault)) }
    {
        if let Some(fault) = self.bad {
            return Err(FeedErr::Bad(fault));
        }
        let kind = self.kind;
        let taken = take_in(
            alloc,
            kind,
            &mut self.ready,
            &mut self.held,
            &mut self.read,
            piece,
        )?;
        self.bad = taken;
        match taken {
            None => Ok(()),
            Some(fault) => Err(FeedErr::Bad(fault)),
        }
    }

    /// The next message, in the order of the stream; None exactly if no whole frame stands. It takes no memory.
    pub fn next(&mut self) -> Option<Vec<u8>>
        ensures first { option_map (λ message. message.items) result ≡ slice_get self.old.ready 0 }
        ensures rest { self.new ≡ without_first self.old }
    {
        let message = self.ready.pop_front()?;
        Some(message.into_vec())
    }
}

/// Puts the messages that are whole with this piece behind those that are ready, and holds the bytes behind them. The
/// fault of a bad place is answered. After want of memory all is as it was.
fn take_in(
    alloc: Global,
    kind: Kind,
    ready: &mut VecDeque<Sequence<u8>>,
    held: &mut Vec<u8>,
    read: &mut Progress,
    piece: &[u8],
) -> Result<Option<FrameBad>, AllocError>
    requires { Resumes kind read.old held.old.items }
    ensures ready { IfOk result (λ bad. ready.new.items ≡ ready.old.items ++ (frames kind (held.old.items ++ piece.now)).frames) }
    ensures rest { IfOk result (λ bad. held.new.items ≡ (frames kind (held.old.items ++ piece.now)).rest) }
    ensures bad { IfOk result (λ bad. bad ≡ (frames kind (held.old.items ++ piece.now)).bad) }
    ensures read { Resumes kind read.new held.new.items }
    ensures err_ready { OnErr result (ready.new.items ≡ ready.old.items) }
    ensures err_held { OnErr result (held.new.items ≡ held.old.items) }
{
    let before = held.len();
    held.extend_from_slice(piece)?;
    match cut_off(alloc, kind, ready, held, read) {
        Ok(bad) => Ok(bad),
        Err(e) => {
            held.truncate(before);
            Err(e)
        }
    }
}

/// Moves the messages that are whole out of what is held. After want of memory all is as it was.
fn cut_off(
    alloc: Global,
    kind: Kind,
    ready: &mut VecDeque<Sequence<u8>>,
    held: &mut Vec<u8>,
    read: &mut Progress,
) -> Result<Option<FrameBad>, AllocError>
    requires { Resumes kind read.old held.old.items }
    ensures ready { IfOk result (λ bad. ready.new.items ≡ ready.old.items ++ (frames kind held.old.items).frames) }
    ensures rest { IfOk result (λ bad. held.new.items ≡ (frames kind held.old.items).rest) }
    ensures bad { IfOk result (λ bad. bad ≡ (frames kind held.old.items).bad) }
    ensures read { Resumes kind read.new held.new.items }
    ensures err_ready { OnErr result (ready.new.items ≡ ready.old.items) }
    ensures err_held { OnErr result (held.new.items ≡ held.old.items) }
    ensures err_read { OnErr result (read.new ≡ read.old) }
{
    let Cut {
        frames,
        begin,
        read: next,
        bad,
    } = cut_frames(alloc, kind, held, *read)?;
    if begin == 0 {
        ready.append(&mut VecDeque::from_vec(frames))?;
    } else {
        let rest = Vec::from_slice(alloc, behind(held, begin))?;
        ready.append(&mut VecDeque::from_vec(frames))?;
        *held = rest;
    }
    *read = next;
    Ok(bad)
}
