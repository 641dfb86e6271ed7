//! Messages of SMB 2.1, laid out by hand from MS-SMB2 2.2.
use crate::wire::{bytes_of, has_bytes};
use std::alloc::{AllocError, Global};
use xl_smb::*;

mod compounds;
mod meaning;

/// Whole frames; and, for the header of message 5 in tree 7 and session 9, its command, its flags and the body. Each means
/// what `meaning` says.
///
/// Behind c0: which of `FRAMES` is changed, at which place to which byte, and the fault that it then has, if any: its
/// number, and of a wrong size the command and the size.
///
/// Behind c1: whether a header is a reply's (01), its command and its flags.
///
/// Behind c2: whether the lease is found (01), how many bytes the context of another name has, and the contexts.
pub(crate) const MESSAGES: &str = "\
# NEGOTIATE
fe534d42 40000000 00000000 00000100 00000000 00000000 0000000000000000 00000000 00000000 0000000000000000 \
0000000000000000 0000000000000000 2400 0100 0100 0000 00000000 11111111111111111111111111111111 0000000000000000 1002
fe534d42 40000000 00000000 00000100 01000000 00000000 0000000000000000 00000000 00000000 0000000000000000 \
0000000000000000 0000000000000000 4100 0100 1002 0000 00000000000000000000000000000000 02000000 00000100 00000100 \
00000100 0000000000000000 0000000000000000 8000 0000 00000000
# SESSION_SETUP
01 00 1900 01 02 00000000 00000000 5800 0300 0800000000000000 616263
01 01 0900 0100 4800 0200 6162
# LOGOFF
02 00 0400 0000
02 01 0400 0000
# TREE_CONNECT
03 00 0900 0000 4800 0400 5c007800
03 01 1000 01 00 00000000 00000000 ff011f00
# TREE_DISCONNECT
04 00 0400 0000
04 01 0400 0000
# CREATE
05 00 3900 00 ff 00000000 0000000000000000 0000000000000000 03000000 00000000 07000000 01000000 40000000 7800 0400 \
80000000 38000000 66003000 00000000 00000000 1000 0400 0000 1800 20000000 52714c73 00000000 \
22222222222222222222222222222222 07000000 00000000 0000000000000000
05 01 5900 ff 00 01000000 0100000000000000 0200000000000000 0300000000000000 0400000000000000 0500000000000000 \
0600000000000000 80000000 00000000 0300000001000000 0300000001000000 98000000 38000000 00000000 1000 0400 0000 1800 \
20000000 52714c73 00000000 22222222222222222222222222222222 07000000 00000000 0000000000000000
# CLOSE
06 00 1800 0100 00000000 0300000001000000 0300000001000000
06 01 3c00 0100 00000000 0100000000000000 0200000000000000 0300000000000000 0400000000000000 0500000000000000 \
0600000000000000 80000000
# LOCK of bytes 1 to 10 and of byte 2^32 alone, neither of which waits
0a 00 3000 0200 06000000 0300000001000000 0300000001000000 0100000000000000 0a00000000000000 12000000 00000000 \
0000000001000000 0100000000000000 11000000 00000000
0a 01 0400 0000
# its asynchronous reply in the error form, and the same header with the status of success
fe534d42 40000000 03010000 0a000100 03000000 00000000 0500000000000000 0600000007000000 0900000000000000 \
0000000000000000 0000000000000000 0900 0000 00000000 00
fe534d42 40000000 00000000 0a000100 03000000 00000000 0500000000000000 0600000007000000 0900000000000000 \
0000000000000000 0000000000000000 0400 0000
# CANCEL
0c 00 0400 0000
0c 01
# ECHO
0d 00 0400 0000
0d 01 0400 0000
# a command whose messages are not read
0e 00
0e 01
# OPLOCK_BREAK of an oplock
12 00 1800 01 00 00000000 0300000001000000 0300000001000000
12 01 1800 01 00 00000000 0300000001000000 0300000001000000
fe534d42 40000000 00000000 12000000 01000000 00000000 ffffffffffffffff 00000000 00000000 0000000000000000 \
0000000000000000 0000000000000000 1800 01 00 00000000 0300000001000000 0300000001000000
# OPLOCK_BREAK of a lease
12 00 2400 0000 02000000 22222222222222222222222222222222 03000000 0000000000000000
12 01 2400 0000 02000000 22222222222222222222222222222222 03000000 0000000000000000
fe534d42 40000000 00000000 12000000 01000000 00000000 ffffffffffffffff 00000000 00000000 0000000000000000 \
0000000000000000 0000000000000000 2c00 0000 01000000 22222222222222222222222222222222 07000000 01000000 00000000 \
00000000 00000000
# changes
c0 00 05 01 02
c0 00 40 25 03 00 25
c0 00 42 01
c0 00 42 02 04
c0 01 4e 03
c0 01 4e 04 04
c0 01 4c 59 04
c0 01 4d ff 04
c0 01 4e 00
c0 02 44 49 04
c0 02 46 03 04
c0 03 42 01
c0 03 42 02 04
c0 04 6e 40
c0 04 6e 41 04
c0 04 74 39 04
c0 04 70 81 04
# the lease's context: its next, and the ends of its name and its data
c0 04 80 28 04
c0 04 80 39 04
c0 04 86 28
c0 04 86 29 04
c0 04 8c 21 04
c0 05 08 01
c0 05 08 00 03 05 09
# headers alone
c1 00 02 00
c1 01 02 01
c1 00 02 02
# no context, the lease's, that behind one of another name, and one of the lease's name with 31 bytes
c2 00 00
c2 01 00 00000000 1000 0400 0000 1800 20000000 52714c73 00000000 22222222222222222222222222222222 07000000 00000000 \
0000000000000000
c2 01 20 38000000 1000 0400 0000 1800 20000000 4d714c73 00000000 22222222222222222222222222222222 07000000 00000000 \
0000000000000000 \
00000000 1000 0400 0000 1800 20000000 52714c73 00000000 22222222222222222222222222222222 07000000 00000000 \
0000000000000000
c2 00 00 38000000 1000 0400 0000 1800 1f000000 52714c73 00000000 22222222222222222222222222222222 07000000 00000000 \
0000000000000000";

/// Messages that are read: NEGOTIATE, SESSION_SETUP, TREE_CONNECT, LOCK, CREATE, and the error form of CREATE.
const FRAMES: [&str; 6] = [
    "00 00 2400 01 000000000000000000000000000000000000000000000000000000000000000000 1002",
    "01 00 19 0000000000000000000000 5800 03 000000000000000000 616263",
    "03 00 0900 0000 4800 0200 7800",
    "0a 00 3000 01 000000000000000000000000000000000000000000 000000000000000000000000000000000000000000000000",
    "05 00 3900 00 ff 00000000 000000000000000000000000000000000000000000000000000000000000000000000000 7800 0400 \
    80000000 38000000 66003000 00000000 00000000 1000 0400 0000 1800 20000000 52714c73 00000000 \
    22222222222222222222222222222222 07000000 00000000 0000000000000000",
    "05 01 0900 0000 00000000",
];

/// The header of message 5 in tree 7 and session 9, except for its command and its flags.
const HEADER: [u8; 64] = [
    0xFE, b'S', b'M', b'B', 64, 0, 0, 0, 0, 0, 0, 0, 0, 0, 1, 0, //
    0, 0, 0, 0, 0, 0, 0, 0, 5, 0, 0, 0, 0, 0, 0, 0, //
    0, 0, 0, 0, 7, 0, 0, 0, 9, 0, 0, 0, 0, 0, 0, 0, //
    0, 0, 0, 0, 0, 0, 0, 0, 0, 0, 0, 0, 0, 0, 0, 0,
];

/// The header with a command and flags, and the body behind them.
fn with_header(alloc: Global, bytes: &[u8]) -> Result<Vec<u8>, AllocError> {
    let mut frame = Vec::from_slice(alloc, &HEADER)?;
    if let [command, flags, body @ ..] = bytes {
        frame[12] = *command;
        frame[16] = *flags;
        frame.extend_from_slice(body)?;
    }
    Ok(frame)
}

/// The frame of a command, flags and a body.
fn frame_of(alloc: Global, row: &str) -> Result<Vec<u8>, AllocError> {
    with_header(alloc, &bytes_of(alloc, row)?)
}

/// Whether a frame is read as what it means, and the message is written as the frame.
fn is_message(alloc: Global, frame: &[u8]) -> Result<bool, AllocError> {
    match read(frame) {
        Ok(message) => Ok(
            meaning::is_meant(&message) && write(alloc, &message)?.as_slice() == frame,
        ),
        Err(_) => Ok(false),
    }
}

fn is_fault(found: SmbBad, fault: &[u8]) -> bool {
    match (found, fault) {
        (SmbBad::Size(command, size), [3, of, wrong]) => {
            (command, size) == (u16::from(*of), u16::from(*wrong))
        }
        (_, [number]) => found.number() == u32::from(*number),
        _ => false,
    }
}

/// Whether a frame has this fault, or none.
fn has_fault(frame: &[u8], fault: &[u8]) -> bool {
    match read(frame) {
        Ok(_) => fault.is_empty(),
        Err(found) => is_fault(found, fault),
    }
}

/// Whether a change of a frame leads to a fault, or to none.
fn leads_to(frame: &mut [u8], place: u8, byte: u8, fault: &[u8]) -> bool {
    match frame.get_mut(usize::from(place)) {
        Some(old) => *old = byte,
        None => return false,
    }
    has_fault(frame, fault)
}

fn frame_at(alloc: Global, which: u8) -> Result<Vec<u8>, AllocError> {
    match FRAMES.get(usize::from(which)) {
        Some(row) => frame_of(alloc, row),
        None => Ok(Vec::new(alloc)),
    }
}

/// How many bytes the context of another name has, 0 if it is not found.
fn size_of_other(contexts: &[u8]) -> usize {
    match Contexts(contexts).find(b"MqLs", 32) {
        Some(content) => content.len(),
        None => 0,
    }
}

fn are_contexts(contexts: &[u8], found: u8, size: u8) -> bool {
    meaning::has_lease(Contexts(contexts)) == (found == 1)
        && size_of_other(contexts) == usize::from(size)
}

/// Whether a header alone, of LOGOFF, is read, as a reply's or not.
fn is_header(frame: &[u8], reply: u8) -> bool {
    match read_head(frame) {
        Ok(head) => {
            (head.command, head.status, head.is_reply()) == (2, 0, reply == 1)
                && (meaning::is_head(&head) || head.flags == 2)
        }
        Err(_) => false,
    }
}

/// Whether a change of one of `FRAMES` leads to a fault, or to none.
fn is_change(alloc: Global, change: &[u8]) -> Result<bool, AllocError> {
    match change {
        [which, place, byte, fault @ ..] => Ok(leads_to(
            &mut frame_at(alloc, *which)?,
            *place,
            *byte,
            fault,
        )),
        _ => Ok(false),
    }
}

pub(crate) fn is_row(alloc: Global, row: &[u8]) -> Result<bool, AllocError> {
    match row {
        [] => Ok(true),
        [0xFE, ..] => is_message(alloc, row),
        [0xC0, change @ ..] => is_change(alloc, change),
        [0xC1, reply, head @ ..] => Ok(is_header(&with_header(alloc, head)?, *reply)),
        [0xC2, found, size, contexts @ ..] => Ok(are_contexts(contexts, *found, *size)),
        _ => is_message(alloc, &with_header(alloc, row)?),
    }
}

fn are_cut(alloc: Global) -> Result<bool, AllocError> {
    Ok(
        has_fault(&[0], &[1])
            && has_fault(&[0; 63], &[1])
            && has_fault(&[0; 64], &[2])
            && has_fault(&frame_of(alloc, "02 00")?, &[3, 2, 0]),
    )
}

/// The lease's context.
const LEASE: &str = "\
00000000 1000 0400 0000 1800 20000000 52714c73 00000000 22222222222222222222222222222222 07000000 00000000 \
0000000000000000";

fn is_lease(alloc: Global) -> Result<bool, AllocError> {
    has_bytes(alloc, LEASE, &lease_context(alloc, meaning::LEASE)?)
}

fn offers(dialects: Dialects, dialect: u16) -> (usize, bool, bool) {
    (
        dialects.len(),
        dialects.is_empty(),
        dialects.contains(dialect),
    )
}

fn are_dialects(offered: Dialects) -> bool {
    offers(offered, 0x0210) == (2, false, true)
        && offers(offered, 0x0010) == (2, false, false)
        && offers(Dialects(&[]), 0) == (0, true, false)
}

fn are_numbers() -> bool {
    SmbBad::Short.number() == 1
        && SmbBad::Magic.number() == 2
        && SmbBad::Size(1, 2).number() == 3
        && SmbBad::Offset.number() == 4
        && matches!(Command::of(18), Some(command) if command.number() == 18)
        && Command::of(7).is_none()
}

#[test]
fn parts_of_messages(rt: HostRuntime) {
    assert!(rt; are_dialects(Dialects(&[2, 2, 0x10, 2, 0])) && are_numbers());
    assert!(rt; matches!(are_cut(rt.alloc()), Ok(true)));
    assert!(rt; matches!(is_lease(rt.alloc()), Ok(true)));
}
