//! Several messages in one frame, laid out by hand from MS-SMB2 2.2.1, 3.3.4.1.3 and 3.3.5.2.7.
ghost use Rattle.std.specs.Prelude.{IfOk};
ghost use Rattle.xl_smb.specs.Compounds.{IsWhole};

use crate::wire::bytes_of;
use std::alloc::{AllocError, Global};
use xl_base::{MOST_MESSAGE_BYTES, Sequence};
use xl_smb::*;

/// A message is its command, its flags, NextCommand (four bytes), its tree, its session (a byte each), how many bytes stand
/// behind the header, and these. The rest of the header is that of message 5.
///
/// Behind d0: a place of the frame and the byte that is put there, how many parts there are, for each its length and what
/// stands behind it (00 nothing, 01 nothing that is read, 02 a part), and the messages that the frame has in a row.
///
/// Behind d1: messages as they stand in one frame, but for the zeros up to the next.
///
/// Behind d2: 00, or 01 and what the part before leaves: its session, its tree, and its open, 00 if none; whether the part
/// names an open that isn't there (01); the part; and the message alone that it is then.
///
/// Behind d3: the reply's status, a request, its reply, and what these leave: the session, the tree, the open, and the status
/// if it is an error.
///
/// Behind d4: a reply alone, and the reply to a related part.
const ROWS: &str = "\
# a message alone
d0 00 fe 01 44 00 0d 00 00000000 07 09 04 04000000
d0 00 fe 01 40 00 0d 00 00000000 07 09 00
# bytes behind its body
d0 00 fe 01 48 00 0d 00 00000000 07 09 08 0400000000000000
# nothing, when the mark or the size of the header is another, or it is a reply
d0 03 43 00 0d 00 00000000 07 09 04 04000000
d0 04 41 00 0d 00 48000000 07 09 08 0400000000000000 0d 00 00000000 07 09 04 04000000
d0 00 fe 00 0d 01 48000000 07 09 08 0400000000000000 0d 00 00000000 07 09 04 04000000
# two parts, of which the first is padded, or is a header and no more
d0 00 fe 02 48 02 44 00 0d 00 48000000 07 09 08 0400000000000000 0d 00 00000000 07 09 04 04000000
d0 00 fe 02 40 02 44 00 0d 00 40000000 07 09 00 0d 00 00000000 07 09 04 04000000
# NextCommand leads to a header and no more, and to a byte less
d0 00 fe 02 48 02 40 00 0d 00 48000000 07 09 08 0400000000000000 0d 00 00000000 07 09 00
d0 00 fe 01 8f 01 0d 00 50000000 07 09 4f 0400000000000000 00000000000000000000000000000000000000000000000000000000000000 \
00000000000000000000000000000000000000000000000000000000000000000000000000000000
# it isn't a multiple of 8
d0 00 fe 01 88 01 0d 00 44000000 07 09 04 04000000 0d 00 00000000 07 09 04 04000000
d0 00 fe 01 8c 01 0d 00 49000000 07 09 08 0400000000000000 0d 00 00000000 07 09 04 04000000
d0 00 fe 01 8c 01 0d 00 4c000000 07 09 08 0400000000000000 0d 00 00000000 07 09 04 04000000
# it is less than a header
d0 00 fe 01 8c 01 0d 00 08000000 07 09 08 0400000000000000 0d 00 00000000 07 09 04 04000000
d0 00 fe 01 8c 01 0d 00 38000000 07 09 08 0400000000000000 0d 00 00000000 07 09 04 04000000
# it leads out of the frame
d0 00 fe 01 8c 01 0d 00 90000000 07 09 08 0400000000000000 0d 00 00000000 07 09 04 04000000
d0 00 fe 01 8c 01 0d 00 f8ffffff 07 09 08 0400000000000000 0d 00 00000000 07 09 04 04000000
# the second part's is out of order
d0 00 fe 02 48 02 8c 01 0d 00 48000000 07 09 08 0400000000000000 0d 00 41000000 07 09 08 0400000000000000 \
0d 00 00000000 07 09 04 04000000
# the second part has another mark or is a reply: it is none, and ends the reading
d0 49 00 01 48 02 0d 00 48000000 07 09 08 0400000000000000 0d 00 48000000 07 09 08 0400000000000000 \
0d 00 00000000 07 09 04 04000000
d0 00 fe 01 48 02 0d 00 48000000 07 09 08 0400000000000000 0d 01 48000000 07 09 08 0400000000000000 \
0d 00 00000000 07 09 04 04000000
# NEGOTIATE, CANCEL and a command without a number are parts as any, and so is a first part that is related
d0 00 fe 03 68 02 48 02 40 00 00 00 68000000 00 00 28 2400 0200 0100 0000 00000000 11111111111111111111111111111111 \
0000000000000000 0202 1002 0c 02 48000000 07 09 08 0400000000000000 13 04 00000000 07 09 00
d0 00 fe 02 48 02 44 00 0d 04 48000000 07 09 08 0400000000000000 0d 04 00000000 07 09 04 04000000
# CREATE of the file a, QUERY_INFO of its basic information, CLOSE, the last two of the open that is made
d0 00 fe 03 80 02 68 02 58 00 05 00 80000000 07 09 40 3900 00 00 02000000 0000000000000000 0000000000000000 80001200 00000000 \
07000000 01000000 00000000 7800 0200 00000000 00000000 6100 000000000000 \
10 04 68000000 07 09 28 2900 01 04 28000000 6800 0000 00000000 00000000 00000000 ffffffffffffffff ffffffffffffffff \
06 04 00000000 07 09 18 1800 0000 00000000 ffffffffffffffff ffffffffffffffff
# no message, one, and ones of 68, 72 and 73 bytes; replies to CREATE, LOCK and CLOSE
d1
d1 0d 01 00000000 07 09 04 04000000
d1 0d 01 48000000 07 09 04 04000000 0d 01 00000000 07 09 04 04000000
d1 01 01 48000000 07 09 08 0900010048000000 0d 01 00000000 07 09 04 04000000
d1 05 01 50000000 07 09 09 0900 0000 00000000 00 06 05 50000000 07 09 09 0900 0000 00000000 00 0d 01 00000000 07 09 04 04000000
d1 05 01 98000000 07 09 58 5900 00 00 01000000 0000000000000000 0000000000000000 0000000000000000 0000000000000000 \
0000000000000000 0000000000000000 80000000 00000000 0300000001000000 0300000001000000 00000000 00000000 \
0a 05 48000000 07 09 04 0400 0000 \
06 05 00000000 07 09 3c 3c00 0000 00000000 0000000000000000 0000000000000000 0000000000000000 0000000000000000 \
0000000000000000 0000000000000000 00000000
# a part that isn't related takes nothing over, not even for an open that is all ones
d2 01 0a 08 03 00 06 00 00000000 07 09 18 1800 0000 00000000 ffffffffffffffff ffffffffffffffff \
06 00 00000000 07 09 18 1800 0000 00000000 ffffffffffffffff ffffffffffffffff
d2 01 0a 08 00 00 06 08 58000000 07 09 18 1800 0000 00000000 ffffffffffffffff ffffffffffffffff \
06 08 00000000 07 09 18 1800 0000 00000000 ffffffffffffffff ffffffffffffffff
# nor does a first one
d2 00 00 0d 04 48000000 07 09 04 04000000 0d 00 00000000 07 09 04 04000000
d2 00 00 06 04 00000000 07 09 18 1800 0000 00000000 ffffffffffffffff ffffffffffffffff \
06 00 00000000 07 09 18 1800 0000 00000000 ffffffffffffffff ffffffffffffffff
# session and tree, whatever the part names itself
d2 01 0a 08 00 00 0d 04 48000000 00 00 08 0400000000000000 0d 00 00000000 08 0a 08 0400000000000000
d2 01 00 00 03 00 0d 0c 00000000 07 09 04 04000000 0d 08 00000000 00 00 04 04000000
# also in place of an AsyncId
d2 01 0a 08 00 00 0c 06 00000000 07 09 04 04000000 0c 00 00000000 08 0a 04 04000000
# the open of the part before: CLOSE, LOCK, an acknowledgement
d2 01 0a 08 03 00 06 04 00000000 07 09 18 1800 0100 00000000 ffffffffffffffff ffffffffffffffff \
06 00 00000000 08 0a 18 1800 0100 00000000 0300000001000000 0300000001000000
d2 01 0a 08 03 00 0a 04 70000000 07 09 30 3000 0100 06000000 ffffffffffffffff ffffffffffffffff 0100000000000000 \
0a00000000000000 12000000 00000000 \
0a 00 00000000 08 0a 30 3000 0100 06000000 0300000001000000 0300000001000000 0100000000000000 \
0a00000000000000 12000000 00000000
d2 01 0a 08 03 00 12 04 00000000 07 09 18 1800 01 00 00000000 ffffffffffffffff ffffffffffffffff \
12 00 00000000 08 0a 18 1800 01 00 00000000 0300000001000000 0300000001000000
# one that the part names itself stays, also if one half is all ones
d2 01 0a 08 03 00 06 04 00000000 07 09 18 1800 0000 00000000 0400000001000000 0400000001000000 \
06 00 00000000 08 0a 18 1800 0000 00000000 0400000001000000 0400000001000000
d2 01 0a 08 03 00 06 04 00000000 07 09 18 1800 0000 00000000 0400000001000000 ffffffffffffffff \
06 00 00000000 08 0a 18 1800 0000 00000000 0400000001000000 ffffffffffffffff
d2 01 0a 08 00 00 06 04 00000000 07 09 18 1800 0000 00000000 ffffffffffffffff 0400000001000000 \
06 00 00000000 08 0a 18 1800 0000 00000000 ffffffffffffffff 0400000001000000
# the part before has none
d2 01 0a 08 00 01 06 04 00000000 07 09 18 1800 0000 00000000 ffffffffffffffff ffffffffffffffff \
06 00 00000000 08 0a 18 1800 0000 00000000 0000000000000000 ffffffffffffffff
# what names no open: the acknowledgement of a lease, a body that is cut, CREATE, QUERY_INFO
d2 01 0a 08 03 00 12 04 00000000 07 09 24 2400 0000 02000000 ffffffffffffffff ffffffffffffffff 03000000 0000000000000000 \
12 00 00000000 08 0a 24 2400 0000 02000000 ffffffffffffffff ffffffffffffffff 03000000 0000000000000000
d2 01 0a 08 00 00 06 04 00000000 07 09 17 1800 0000 00000000 ffffffffffffffff ffffffffffffff \
06 00 00000000 08 0a 17 1800 0000 00000000 ffffffffffffffff ffffffffffffff
d2 01 0a 08 00 00 05 04 00000000 07 09 1a 3900 00 ff 00000000 ffffffffffffffff ffffffffffffffff 0000 \
05 00 00000000 08 0a 1a 3900 00 ff 00000000 ffffffffffffffff ffffffffffffffff 0000
d2 01 0a 08 03 00 10 04 68000000 07 09 28 2900 01 04 28000000 6800 0000 00000000 00000000 00000000 ffffffffffffffff \
ffffffffffffffff \
10 00 00000000 08 0a 28 2900 01 04 28000000 6800 0000 00000000 00000000 00000000 ffffffffffffffff ffffffffffffffff
# what is left: session and tree of the reply, its CREATE's open
d3 00000000 05 00 80000000 07 09 02 3900 \
05 01 00000000 07 09 58 5900 00 00 01000000 0000000000000000 0000000000000000 0000000000000000 0000000000000000 \
0000000000000000 0000000000000000 80000000 00000000 0300000001000000 0300000001000000 00000000 00000000 09 07 03 00000000
d3 00000000 01 00 60000000 00 00 02 1900 01 01 00000000 00 09 08 0900 0100 4800 0000 09 00 00 00000000
d3 00000000 03 00 50000000 00 09 02 0900 03 01 00000000 07 09 02 1000 09 07 00 00000000
# the open that a request names
d3 00000000 06 00 00000000 07 09 18 1800 0000 00000000 0400000001000000 0400000001000000 \
06 01 00000000 07 09 04 3c000000 09 07 04 00000000
d3 00000000 0d 00 48000000 07 09 04 04000000 0d 01 00000000 07 09 04 04000000 09 07 00 00000000
# the error of a reply, and not what it asks to wait for
d3 340000c0 05 00 80000000 07 09 02 3900 05 01 00000000 07 09 09 0900 0000 00000000 00 09 07 00 340000c0
d3 bb0000c0 10 04 00000000 07 09 02 2900 10 05 00000000 07 09 09 0900 0000 00000000 00 09 07 00 bb0000c0
d3 550000c0 0a 00 00000000 07 09 18 3000 0100 00000000 0400000001000000 0400000001000000 \
0a 01 00000000 07 09 09 0900 0000 00000000 00 09 07 04 550000c0
d3 ffffffbf 0d 00 00000000 07 09 04 04000000 0d 01 00000000 07 09 04 04000000 09 07 00 00000000
d3 000000c0 0d 00 00000000 07 09 04 04000000 0d 01 00000000 07 09 04 04000000 09 07 00 000000c0
# an asynchronous reply names no tree, and an asynchronous request none either
d3 200100c0 0a 00 00000000 07 09 18 3000 0100 00000000 0400000001000000 0400000001000000 \
0a 03 00000000 06 09 09 0900 0000 00000000 00 09 07 04 200100c0
d3 0d0000c0 0c 02 48000000 07 09 04 04000000 0c 01 00000000 00 09 09 0900 0000 00000000 00 09 00 00 0d0000c0
# a reply to a related part has its flag
d4 0d 01 00000000 07 09 04 04000000 0d 05 00000000 07 09 04 04000000
d4 0a 03 00000000 07 09 09 0900 0000 00000000 00 0a 07 00000000 07 09 09 0900 0000 00000000 00
d4 0d 05 00000000 07 09 00 0d 05 00000000 07 09 00";

/// The header of message 5, except for its command, its flags, NextCommand, the tree and the session.
const HEADER: [u8; 64] = [
    0xFE, b'S', b'M', b'B', 64, 0, 0, 0, 0, 0, 0, 0, 0, 0, 1, 0, //
    0, 0, 0, 0, 0, 0, 0, 0, 5, 0, 0, 0, 0, 0, 0, 0, //
    0, 0, 0, 0, 0, 0, 0, 0, 0, 0, 0, 0, 0, 0, 0, 0, //
    0, 0, 0, 0, 0, 0, 0, 0, 0, 0, 0, 0, 0, 0, 0, 0,
];

/// A message of a row.
#[derive(Clone, Copy)]
struct Laid<'a> {
    head: [u8; 64],
    body: &'a [u8],
}

fn join_bytes(alloc: Global, head: &[u8], body: &[u8]) -> Result<Vec<u8>, AllocError> {
    let mut bytes = Vec::from_slice(alloc, head)?;
    bytes.extend_from_slice(body)?;
    Ok(bytes)
}

impl Laid<'_> {
    /// How far it is to the next one.
    fn way(&self) -> usize {
        usize::from(u16::from_le_bytes([self.head[20], self.head[21]]))
    }

    fn bytes(&self, alloc: Global) -> Result<Vec<u8>, AllocError> {
        join_bytes(alloc, &self.head, self.body)
    }

    /// The message alone, without NextCommand.
    fn alone(&self, alloc: Global) -> Result<Vec<u8>, AllocError> {
        let mut head = self.head;
        head[20] = 0;
        head[21] = 0;
        head[22] = 0;
        head[23] = 0;
        join_bytes(alloc, &head, self.body)
    }

    /// The message, and zeros up to the next.
    fn padded(&self, alloc: Global) -> Result<Vec<u8>, AllocError> {
        let mut bytes = self.bytes(alloc)?;
        for _ in bytes.len()..self.way() {
            bytes.push(0)?;
        }
        Ok(bytes)
    }
}

/// The header of a message whose fields are these.
fn header(fields: [u8; 8]) -> [u8; 64] {
    let [command, flags, a, b, c, d, tree, session] = fields;
    let mut head = HEADER;
    head[12] = command;
    head[16] = flags;
    head[20] = a;
    head[21] = b;
    head[22] = c;
    head[23] = d;
    head[36] = tree;
    head[40] = session;
    head
}

/// The first message of a row, and the rest of the row.
fn first_of(row: &[u8]) -> Option<(Laid<'_>, &[u8])> {
    match row {
        [c, f, n, o, p, q, t, s, count, rest @ ..] => {
            let (body, rest) = rest.split_at_checked(usize::from(*count))?;
            let head = header([*c, *f, *n, *o, *p, *q, *t, *s]);
            Some((Laid { head, body }, rest))
        }
        _ => None,
    }
}

/// The messages of a row; as many as a row has at most.
fn messages_of(alloc: Global, row: &[u8]) -> Result<Vec<Laid<'_>>, AllocError> {
    let mut messages = Vec::new(alloc);
    let mut rest = row;
    for _ in 0..4 {
        match first_of(rest) {
            Some((message, more)) => {
                messages.push(message)?;
                rest = more;
            }
            None => break,
        }
    }
    Ok(messages)
}

/// The messages of a row, one behind the other.
fn frame_of(alloc: Global, row: &[u8]) -> Result<Vec<u8>, AllocError> {
    let mut frame = Vec::new(alloc);
    for message in &messages_of(alloc, row)? {
        frame.extend_from_slice(&message.bytes(alloc)?)?;
    }
    Ok(frame)
}

/// The messages of a row as they stand in one frame.
fn joined_of(alloc: Global, messages: &[Laid]) -> Result<Vec<u8>, AllocError> {
    let mut frame = Vec::new(alloc);
    for message in messages {
        frame.extend_from_slice(&message.padded(alloc)?)?;
    }
    Ok(frame)
}

fn behind_number(behind: Behind) -> u8 {
    match behind {
        Behind::Last => 0,
        Behind::Astray => 1,
        Behind::Next(_) => 2,
    }
}

/// Whether the parts have these lengths, with that behind them.
fn are_parts(parts: &[SmbPart], wanted: &[u8]) -> bool {
    let mut rest = wanted;
    for part in parts {
        match rest {
            [count, behind, more @ ..] => {
                if part.bytes.len() != usize::from(*count)
                    || behind_number(part.behind) != *behind
                {
                    return false;
                }
                rest = more;
            }
            _ => return false,
        }
    }
    rest.is_empty()
}

/// Whether the frame has these parts, and not more than 64.
fn is_split(alloc: Global, frame: &[u8], wanted: &[u8]) -> Result<bool, AllocError> {
    let parts = split(alloc, frame)?;
    Ok(
        are_parts(&parts, wanted)
            && part_at(frame).is_some() != wanted.is_empty()
            && !is_over(frame),
    )
}

fn is_changed_split(
    alloc: Global,
    place: u8,
    byte: u8,
    wanted: &[u8],
    row: &[u8],
) -> Result<bool, AllocError> {
    let mut frame = frame_of(alloc, row)?;
    match frame.get_mut(usize::from(place)) {
        Some(old) => *old = byte,
        None => return Ok(false),
    }
    is_split(alloc, &frame, wanted)
}

fn is_split_row(alloc: Global, row: &[u8]) -> Result<bool, AllocError> {
    match row {
        [place, byte, count, rest @ ..] => {
            match rest.split_at_checked(usize::from(*count).wrapping_mul(2)) {
                Some((wanted, row)) => is_changed_split(alloc, *place, *byte, wanted, row),
                None => Ok(false),
            }
        }
        _ => Ok(false),
    }
}

/// A message that may be put into a frame; an error too if it may not.
fn whole(bytes: Vec<u8>) -> Result<Sequence<u8>, AllocError>
    ensures { IfOk result (λ message. IsWhole message) }
{
    if bytes.len() < 64 || bytes.len() > MOST_MESSAGE_BYTES {
        return Err(AllocError);
    }
    Ok(Sequence::from_vec(bytes))
}

/// These messages in one frame; there are at most three.
fn join_laid(alloc: Global, messages: &[Laid]) -> Result<Vec<u8>, AllocError> {
    match messages {
        [] => join(alloc, &[]),
        [a] => join(alloc, &[whole(a.alone(alloc)?)?]),
        [a, b] => join(alloc, &[whole(a.alone(alloc)?)?, whole(b.alone(alloc)?)?]),
        [a, b, c] => join(
            alloc,
            &[
                whole(a.alone(alloc)?)?,
                whole(b.alone(alloc)?)?,
                whole(c.alone(alloc)?)?,
            ],
        ),
        _ => Err(AllocError),
    }
}

/// Whether the messages of a row are joined to the frame that it tells.
fn is_joined(alloc: Global, row: &[u8]) -> Result<bool, AllocError> {
    let messages = messages_of(alloc, row)?;
    let frame = join_laid(alloc, &messages)?;
    Ok(
        frame.as_slice() == joined_of(alloc, &messages)?.as_slice()
            && messages.is_empty() == row.is_empty(),
    )
}

/// The open of this number in epoch 1.
fn open_of(number: u8) -> Option<FileId> {
    let id = 0x1_0000_0000 | u64::from(number);
    if number == 0 {
        return None;
    }
    Some(FileId {
        persistent: id,
        volatile: id,
    })
}

/// What the part before leaves.
fn before(row: &[u8]) -> Option<(Option<Before>, &[u8])> {
    match row {
        [0, rest @ ..] => Some((None, rest)),
        [1, session, tree, open, rest @ ..] => {
            let before = Before {
                session_id: u64::from(*session),
                tree_id: u32::from(*tree),
                file_id: open_of(*open),
                failed: None,
            };
            Some((Some(before), rest))
        }
        _ => None,
    }
}

/// Whether a part is that message alone, and names an open that isn't there or doesn't.
fn is_resolved(
    alloc: Global,
    before: Option<Before>,
    nameless: u8,
    part: &Laid,
    alone: &Laid,
) -> Result<bool, AllocError> {
    let bytes = part.bytes(alloc)?;
    let Ok(head) = read_head(&bytes) else {
        return Ok(false);
    };
    let taken = taken_over(&head, before);
    let message = resolved(alloc, taken, &bytes)?;
    Ok(
        message.as_slice() == alone.bytes(alloc)?.as_slice()
            && is_nameless(taken, head.command, part.body) == (nameless == 1)
            && head.is_related() == (part.head[16] & 4 == 4),
    )
}

fn is_resolved_row(alloc: Global, row: &[u8]) -> Result<bool, AllocError> {
    let Some((before, [nameless, rest @ ..])) = before(row) else {
        return Ok(false);
    };
    let Some((part, rest)) = first_of(rest) else {
        return Ok(false);
    };
    match first_of(rest) {
        Some((alone, [])) => is_resolved(alloc, before, *nameless, &part, &alone),
        _ => Ok(false),
    }
}

fn is_open(id: Option<FileId>, number: u8) -> bool {
    match (id, open_of(number)) {
        (Some(id), Some(wanted)) => {
            (id.persistent, id.volatile) == (wanted.persistent, wanted.volatile)
        }
        (None, None) => true,
        _ => false,
    }
}

/// Whether these are the session, the tree, the open and the error that are left.
fn is_left(before: Before, wanted: &[u8]) -> bool {
    match wanted {
        [session, tree, open, a, b, c, d] => {
            before.session_id == u64::from(*session)
                && before.tree_id == u32::from(*tree)
                && is_open(before.file_id, *open)
                && before.failed.unwrap_or(0) == u32::from_le_bytes([*a, *b, *c, *d])
        }
        _ => false,
    }
}

/// Whether a request and its reply of this status leave what is wanted.
fn leaves(status: u32, request: &Laid, reply: &Laid, wanted: &[u8]) -> bool {
    let (Ok(asked), Ok(head)) = (read_head(&request.head), read_head(&reply.head)) else {
        return false;
    };
    let told = SmbHead { status, ..head };
    failure_in(status).is_some() == (status >= 0xC000_0000)
        && is_left(left_by(&asked, request.body, &told, reply.body), wanted)
}

fn is_left_row(row: &[u8]) -> bool {
    let [a, b, c, d, rest @ ..] = row else {
        return false;
    };
    let Some((request, rest)) = first_of(rest) else {
        return false;
    };
    let Some((reply, wanted)) = first_of(rest) else {
        return false;
    };
    leaves(
        u32::from_le_bytes([*a, *b, *c, *d]),
        &request,
        &reply,
        wanted,
    )
}

/// A reply with the header of one to a related part, if it has one.
fn marked(alloc: Global, bytes: &[u8]) -> Result<Vec<u8>, AllocError> {
    match read_head(bytes) {
        Ok(head) => with_head(alloc, related_head(&head), bytes),
        Err(_) => Ok(Vec::new(alloc)),
    }
}

fn is_marked_row(alloc: Global, row: &[u8]) -> Result<bool, AllocError> {
    let Some((reply, rest)) = first_of(row) else {
        return Ok(false);
    };
    let marked = marked(alloc, &reply.bytes(alloc)?)?;
    match first_of(rest) {
        Some((wanted, [])) => Ok(marked.as_slice() == wanted.bytes(alloc)?.as_slice()),
        _ => Ok(false),
    }
}

fn is_row(alloc: Global, row: &[u8]) -> Result<bool, AllocError> {
    match row {
        [] => Ok(true),
        [0xD0, row @ ..] => is_split_row(alloc, row),
        [0xD1, row @ ..] => is_joined(alloc, row),
        [0xD2, row @ ..] => is_resolved_row(alloc, row),
        [0xD3, row @ ..] => Ok(is_left_row(row)),
        [0xD4, row @ ..] => is_marked_row(alloc, row),
        _ => Ok(false),
    }
}

/// The first row that isn't as told, or for which memory runs out.
fn wrong_row(alloc: Global) -> Option<&'static str> {
    for row in ROWS.lines() {
        match bytes_of(alloc, row) {
            Ok(bytes) if matches!(is_row(alloc, &bytes), Ok(true)) => {}
            _ => return Some(row),
        }
    }
    None
}

#[test]
fn rows(rt: HostRuntime) {
    let wrong = wrong_row(rt.alloc());
    assert!(rt; wrong.is_none(), "{wrong:?}");
}

/// A frame of so many headers, and one behind the last by which it leads on or doesn't.
fn headers(alloc: Global, count: usize, last: [u8; 8]) -> Result<Vec<u8>, AllocError> {
    let mut frame = Vec::new(alloc);
    for _ in 0..count {
        frame.extend_from_slice(&header([13, 0, 64, 0, 0, 0, 7, 9]))?;
    }
    frame.extend_from_slice(&header(last))?;
    Ok(frame)
}

/// How many parts a frame has, what stands behind the last, and whether there are more than 64.
fn counted(alloc: Global, frame: &[u8]) -> Result<(usize, u8, bool), AllocError> {
    let parts = split(alloc, frame)?;
    let behind = match parts.last() {
        Some(part) => behind_number(part.behind),
        None => 9,
    };
    Ok((parts.len(), behind, is_over(frame)))
}

/// Whether so many headers and a last one are so many parts.
fn is_counted(
    alloc: Global,
    count: usize,
    last: [u8; 8],
    wanted: (usize, u8, bool),
) -> Result<bool, AllocError> {
    Ok(counted(alloc, &headers(alloc, count, last)?)? == wanted)
}

/// The last header leads nowhere, or NextCommand is out of order, or it is one of a reply.
fn are_counted(alloc: Global) -> Result<bool, AllocError> {
    let last = [13, 0, 0, 0, 0, 0, 7, 9];
    let astray = [13, 0, 64, 0, 0, 0, 7, 9];
    let reply = [13, 1, 0, 0, 0, 0, 7, 9];
    Ok(
        is_counted(alloc, 63, last, (64, 0, false))?
            && is_counted(alloc, 64, last, (64, 2, true))?
            && is_counted(alloc, 63, astray, (64, 1, false))?
            && is_counted(alloc, 64, astray, (64, 2, true))?
            && is_counted(alloc, 63, reply, (63, 2, false))?
            && is_counted(alloc, 64, reply, (64, 2, true))?,
    )
}

#[test]
fn at_most_64_parts(rt: HostRuntime) {
    assert!(rt; matches!(are_counted(rt.alloc()), Ok(true)));
}
