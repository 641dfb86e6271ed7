//! Frames of a byte stream, of ONC RPC (RFC 5531 11) and of SMB 2 (MS-SMB2 2.1).
use crate::wire::{bytes_of, has_bytes};
use std::alloc::{AllocError, Global};
use xl_base::{Kind, MOST_MESSAGE_BYTES};
use xl_frame::*;

/// Streams in pieces, and what comes of each piece: the messages with `7c` behind each, and then the fault, if any: 1 and
/// how long the message is, 2 and how many fragments there are, 3 for an empty one, 4 and the marker.
pub(crate) const STREAMS: &str = "\
80|00000361 62|63 = 616263 7c
00000001 61 8000|0002|6263 = 616263 7c
00000003 616263|80000000| = 616263 7c
80000000||80000001 = 7c
80000001 61 80000001 62 80|000001|63 = 61 7c 62 7c 63 7c
80010000|| =
80010001|| = 01 00010001 01 00010001 01 00010001
7fffffff|| = 01 7fffffff 01 7fffffff 01 7fffffff
00000002 6162|8000ffff| = 01 00010001 01 00010001
00000000|| = 03 00000000 03 00000000 03 00000000
80000001 61 0000|0000|80000001 62 = 61 7c 03 00000000 03 00000000
smb 00000001 61 00|000002 62|63 = 61 7c 6263 7c
smb 01000000||00000000 = 04 00000001 04 00000001 04 00000001
smb 00010000|| =
smb 00010001|| = 01 00010001 01 00010001 01 00010001
80|00|00|18|00|00|00|01|00|00|00|00|00|00|00|02|00|01|86|b5|00|00|00|04|00|00|00|02 \
= 00000001 00000000 00000002 000186b5 00000004 00000002 7c
00000001 61 00000001 61 00000001 61 00000001 61 00000001 61 00000001 61 00000001 61 00000001 61 00000001 61 \
00000001 61 00000001 61 00000001 61 00000001 61 00000001 61 00000001 61 00000001 61 00000001 61 00000001 61 \
00000001 61 00000001 61 00000001 61 00000001 61 00000001 61 00000001 61 00000001 61 00000001 61 00000001 61 \
00000001 61 00000001 61 00000001 61 00000001 61 00000001 61 00000001 61 00000001 61 00000001 61 00000001 61 \
00000001 61 00000001 61 00000001 61 00000001 61 00000001 61 00000001 61 00000001 61 00000001 61 00000001 61 \
00000001 61 00000001 61 00000001 61 00000001 61 00000001 61 00000001 61 00000001 61 00000001 61 00000001 61 \
00000001 61 00000001 61 00000001 61 00000001 61 00000001 61 00000001 61 00000001 61 00000001 61 00000001 61 \
00000001 61 \
|80000001 61|80000001 61 = 02 00000041 02 00000041";

/// Messages and their frames.
pub(crate) const FRAMES: &str = "\
616263 = 80000003 616263
smb 616263 = 00000003 616263
 = 80000000
smb  = 00000000
00000001 00000000 00000002 000186b5 00000004 00000002 \
= 80000018 00000001 00000000 00000002 000186b5 00000004 00000002";

/// The protocol of a row, and its parts.
fn parts_of(row: &str) -> Option<(Kind, &str, &str)> {
    let (kind, row) = match row.strip_prefix("smb ") {
        Some(rest) => (Kind::Smb, rest),
        None => (Kind::Rpc, row),
    };
    let (left, right) = row.split_once('=')?;
    Some((kind, left, right))
}

/// The number of a fault, and what it tells.
fn shown(fault: FrameBad) -> (u8, u32) {
    match fault {
        FrameBad::Long(count) => (1, u32::try_from(count).unwrap_or(0)),
        FrameBad::Fragments(count) => (2, count),
        FrameBad::Empty => (3, 0),
        FrameBad::Marker(byte) => (4, u32::from(byte)),
    }
}

fn put_fault(told: &mut Vec<u8>, fault: FrameBad) -> Result<(), AllocError> {
    let (number, count) = shown(fault);
    told.push(number)?;
    told.extend_from_slice(&count.to_be_bytes())
}

fn put_message(told: &mut Vec<u8>, message: &[u8]) -> Result<(), AllocError> {
    told.extend_from_slice(message)?;
    Ok(told.push(0x7C)?)
}

fn put_messages(told: &mut Vec<u8>, cutter: &mut Cutter) -> Result<(), AllocError> {
    for _ in 0..5 {
        match cutter.next() {
            Some(message) => put_message(told, &message)?,
            None => break,
        }
    }
    Ok(())
}

/// Tells what comes of a piece.
fn tell(
    alloc: Global,
    told: &mut Vec<u8>,
    cutter: &mut Cutter,
    piece: &[u8],
) -> Result<(), AllocError> {
    match cutter.feed(alloc, piece) {
        Ok(()) => put_messages(told, cutter),
        Err(FeedErr::Bad(fault)) => {
            put_messages(told, cutter)?;
            put_fault(told, fault)
        }
        Err(FeedErr::NoMemory) => Err(AllocError),
    }
}

fn tell_piece(
    alloc: Global,
    told: &mut Vec<u8>,
    cutter: &mut Cutter,
    piece: &str,
) -> Result<(), AllocError> {
    tell(alloc, told, cutter, &bytes_of(alloc, piece)?)
}

fn tell_pieces(
    alloc: Global,
    told: &mut Vec<u8>,
    cutter: &mut Cutter,
    pieces: &str,
) -> Result<(), AllocError> {
    for piece in pieces.split('|') {
        tell_piece(alloc, told, cutter, piece)?;
    }
    Ok(())
}

/// What comes of pieces.
fn told_of(alloc: Global, kind: Kind, pieces: &str) -> Result<Vec<u8>, AllocError> {
    let mut told = Vec::new(alloc);
    tell_pieces(alloc, &mut told, &mut Cutter::new(alloc, kind), pieces)?;
    Ok(told)
}

pub(crate) fn is_stream(alloc: Global, row: &str) -> Result<bool, AllocError> {
    match parts_of(row) {
        Some((kind, pieces, wanted)) => has_bytes(alloc, wanted, &told_of(alloc, kind, pieces)?),
        None => Ok(false),
    }
}

/// The frame of a message that is not too long.
fn wrapped(alloc: Global, kind: Kind, bytes: &[u8]) -> Result<Vec<u8>, AllocError> {
    if bytes.len() > MOST_MESSAGE_BYTES {
        return Err(AllocError);
    }
    wrap(alloc, kind, bytes)
}

pub(crate) fn is_frame(alloc: Global, row: &str) -> Result<bool, AllocError> {
    match parts_of(row) {
        Some((kind, message, frame)) => {
            has_bytes(
                alloc,
                frame,
                &wrapped(alloc, kind, &bytes_of(alloc, message)?)?,
            )
        }
        None => Ok(false),
    }
}

/// Whether the frame of the longest message has this header.
fn is_long_frame(alloc: Global, kind: Kind, header: [u8; 4]) -> Result<bool, AllocError> {
    let mut bytes = Vec::new(alloc);
    bytes.resize(MOST_MESSAGE_BYTES, 7)?;
    let frame = wrapped(alloc, kind, &bytes)?;
    Ok(frame.len() == 65540 && frame.starts_with(&header))
}

#[test]
fn long_frames(rt: HostRuntime) {
    assert!(rt;
        matches!(
            is_long_frame(rt.alloc(), Kind::Rpc, [0x80, 1, 0, 0]),
            Ok(true)
        )
    );
    assert!(rt; matches!(is_long_frame(rt.alloc(), Kind::Smb, [0, 1, 0, 0]), Ok(true)));
}
