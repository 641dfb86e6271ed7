//! Several messages in one frame: a frame's parts, and frames of messages.
ghost use Rattle.std.specs.Prelude.{◌≡◌, ◌<◌, ◌≤◌, [], ◌∷◌, ◌++◌, length, take, map, nat_lt, option_map, OnOk, IfOk};
ghost use Rattle.std.specs.List.{AllByRecursion};
ghost use Rattle.xl_base.specs.Limits.{most_message_bytes};
ghost use Rattle.xl_smb.specs.Compounds.{shown_rest, shown_part, leads_on, own_bytes, rest_at, part_at, parts_of, bytes_of, is_over, next_of, next_at, Last, gap, way, linked, linked_if, compound, IsWhole, IsAlone, IsRequest, pieces, links, parts_in};
ghost use Rattle.xl_smb.specs.Heads.{head_at};

use crate::head::{SmbHead, read_head};
use std::alloc::{AllocError, Global};
use xl_base::Sequence;
use xl_layout::{put_all, u32_bytes};

/// How many parts of a frame are done.
pub const MOST_PARTS: usize = 64;

/// What stands behind a part in its frame.
#[derive(Clone, Copy)]
pub enum Behind<'a> {
    /// Nothing: NextCommand is 0.
    Last,
    /// Nothing that is read: NextCommand isn't a multiple of 8, is less than a header, or leaves less than one.
    Astray,
    /// These bytes, from the next header on.
    Next(&'a [u8]),
}

/// A part of a frame: a request (MS-SMB2 3.3.5.2.7).
#[derive(Clone, Copy)]
pub struct SmbPart<'a> {
    /// Its header.
    pub head: SmbHead,
    /// Its bytes, from its header to the next one, or to the frame's end.
    pub bytes: &'a [u8],
    /// What stands behind it.
    pub behind: Behind<'a>,
}

impl<'a> Behind<'a> {
    /// The bytes from the next header on, if there is one.
    pub fn next(self) -> Option<&'a [u8]>
        ensures { option_map (λ next. next.now) result ≡ next_of (shown_rest self.entry) }
    {
        match self {
            Behind::Next(bytes) => Some(bytes),
            Behind::Last | Behind::Astray => None,
        }
    }
}

/// Whether NextCommand leads to another header in so many bytes.
fn leads_on(way: u32, count: usize) -> bool
    ensures { result ≡ leads_on way count }
{
    way % 8 == 0 && way >= 64 && count >= way as usize + 64
}

/// The bytes of a part whose NextCommand is this.
fn own_bytes(way: u32, bytes: &[u8]) -> &[u8]
    ensures { result.now ≡ own_bytes way bytes.now }
{
    if leads_on(way, bytes.len()) {
        bytes.split_at(way as usize).0
    } else {
        bytes
    }
}

/// What stands behind a part whose NextCommand is this.
fn rest_at(way: u32, bytes: &[u8]) -> Behind<'_>
    ensures { shown_rest result ≡ rest_at way bytes.now }
{
    if leads_on(way, bytes.len()) {
        return Behind::Next(bytes.split_at(way as usize).1);
    }
    if way == 0 {
        Behind::Last
    } else {
        Behind::Astray
    }
}

/// The part at the front of these bytes. None if there is no header, or one of a reply.
#[tactic(auto, unfolding(crate::specs::Compounds::part_at))]
pub fn part_at(bytes: &[u8]) -> Option<SmbPart<'_>>
    ensures { option_map shown_part result ≡ part_at bytes.now }
{
    let Ok(head) = read_head(bytes) else {
        return None;
    };
    if head.is_reply() {
        return None;
    }
    Some(SmbPart {
        head,
        bytes: own_bytes(head.next_command, bytes),
        behind: rest_at(head.next_command, bytes),
    })
}

/// What stands behind the part at the front of these bytes, if that leads on.
#[tactic(auto, unfolding(crate::specs::Compounds::next_at))]
fn next_at(bytes: &[u8]) -> Option<&[u8]>
    ensures { option_map (λ next. next.now) result ≡ next_at bytes.now }
{
    match part_at(bytes) {
        Some(part) => part.behind.next(),
        None => None,
    }
}

/// Whether a frame has more than 64 parts: the 64th leads on, whatever stands there.
#[tactic(auto, using(crate::proofs::CompoundLaws::over_out, crate::proofs::CompoundLaws::over_none, crate::proofs::CompoundLaws::over_goes))]
pub fn is_over(frame: &[u8]) -> bool
    ensures { result ≡ is_over frame.now }
{
    let mut rest = frame;
    let mut left = MOST_PARTS;
    'parts: while left > 0 {
        match next_at(rest) {
            Some(next) => rest = next,
            None => return false,
        }
        left -= 1;
    }
    true
}

/// The parts of a frame, up to the 64th.
#[tactic(auto, using(crate::proofs::CompoundLaws::parts_out, crate::proofs::CompoundLaws::parts_none, crate::proofs::CompoundLaws::parts_end, crate::proofs::CompoundLaws::parts_go))]
fn parts_of<'a>(alloc: Global, frame: &'a [u8]) -> Result<Vec<SmbPart<'a>>, AllocError>
    ensures { IfOk result (λ parts. map shown_part parts.items ≡ parts_of frame.now) }
{
    let mut parts = Vec::new(alloc);
    let mut rest = frame;
    let mut left = MOST_PARTS;
    'parts: while left > 0 {
        match part_at(rest) {
            Some(part) => {
                parts.push(part)?;
                match part.behind.next() {
                    Some(next) => rest = next,
                    None => return Ok(parts),
                }
            }
            None => return Ok(parts),
        }
        left -= 1;
    }
    Ok(parts)
}

/// The parts of a frame, of which at most 64 are read: each leads to the next by its NextCommand, and what is no request
/// ends the reading (MS-SMB2 3.3.5.2.7).
#[tactic(auto, using(crate::proofs::CompoundLaws::parts_alone, crate::proofs::CompoundLaws::parts_begin))]
pub fn split(alloc: Global, frame: &[u8]) -> Result<Vec<SmbPart<'_>>, AllocError>
    ensures parts { IfOk result (λ parts. map shown_part parts.items ≡ parts_of frame.now) }
    // One behind the other they are a beginning of the frame.
    ensures begin { IfOk result (λ parts. take (length (bytes_of (map shown_part parts.items))) frame.now ≡ bytes_of (map shown_part parts.items)) }
    // A request that is alone in its frame is one part.
    ensures alone { IfOk result (λ parts. IsRequest frame.now → map shown_part parts.items ≡ record { head = head_at frame.now; bytes = frame.now; behind = Last } ∷ []) }
{
    parts_of(alloc, frame)
}

/// How many zeros bring so many bytes to a multiple of 8.
#[tactic(auto, unfolding(crate::specs::Compounds::gap))]
fn gap(count: usize) -> usize
    ensures is { result ≡ gap count }
    ensures few { result < 8 }
{
    (8 - count % 8) % 8
}

/// How far it is from the header of a message of so many bytes to the next one.
fn way(count: usize) -> u32
    requires { count ≤ most_message_bytes }
    ensures { result ≡ way count }
{
    (count + gap(count)) as u32
}

/// Writes a message with its NextCommand, padded.
#[tactic(auto, unfolding(crate::specs::Compounds::linked))]
fn put_linked(out: &mut Vec<u8>, message: &[u8]) -> Result<(), AllocError>
    requires { IsWhole message.now }
    ensures { OnOk result (out.new.items ≡ out.old.items ++ linked message.now) }
{
    let zeros = [0; 8];
    put_all(
        out,
        &[
            message.split_at(20).0,
            &u32_bytes(way(message.len())),
            message.split_at(24).1,
            &zeros[..gap(message.len())],
        ],
    )?;
    Ok(())
}

/// Writes a message, which leads to the next if there is one.
fn put_next(out: &mut Vec<u8>, message: &[u8], followed: bool) -> Result<(), AllocError>
    requires { IsWhole message.now }
    ensures { OnOk result (out.new.items ≡ out.old.items ++ linked_if followed message.now) }
{
    if followed {
        put_linked(out, message)
    } else {
        out.extend_from_slice(message)
    }
}

/// Writes messages, each of which leads to the next.
#[tactic(auto, using(crate::proofs::CompoundLaws::compound_more))]
fn put_messages(out: &mut Vec<u8>, messages: &[Sequence<u8>]) -> Result<(), AllocError>
    requires { AllByRecursion IsWhole messages.now }
    ensures { OnOk result (out.new.items ≡ out.old.items ++ compound messages.now) }
{
    let mut rest = messages;
    'messages: while let Some((message, more)) = rest.split_first() {
        put_next(out, message.as_slice(), !more.is_empty())?;
        rest = more;
    }
    Ok(())
}

/// Puts messages into one frame (MS-SMB2 3.3.4.1.3): each but the last is padded to a multiple of 8 bytes, and its
/// NextCommand leads to the next. Each has a header, and at most 65,536 bytes.
#[tactic(auto, using(crate::proofs::CompoundLaws::parts_joined, crate::proofs::CompoundLaws::over_joined, crate::proofs::CompoundLaws::pieces_joined))]
pub fn join(alloc: Global, messages: &[Sequence<u8>]) -> Result<Vec<u8>, AllocError>
    requires { AllByRecursion IsWhole messages.now }
    ensures joined { IfOk result (λ frame. frame.items ≡ compound messages.now) }
    // Requests are the frame's parts, up to the 64th.
    ensures parts { IfOk result (λ frame. AllByRecursion IsRequest messages.now → parts_of frame.items ≡ take 64 (parts_in messages.now)) }
    // It has more than 64 parts just if there are more requests.
    ensures over { IfOk result (λ frame. AllByRecursion IsRequest messages.now → is_over frame.items ≡ nat_lt 64 (length messages.now)) }
    // Each message stands where the NextCommand of the one before says.
    ensures pieces { IfOk result (λ frame. AllByRecursion IsAlone messages.now → 0 < length messages.now → pieces (length messages.now) frame.items ≡ links messages.now) }
{
    let mut out = Vec::new(alloc);
    put_messages(&mut out, messages)?;
    Ok(out)
}
