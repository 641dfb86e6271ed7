//! The messages of the protocols and their frames, against vectors that were laid out by hand from the standards.
use std::alloc::{AllocError, Global};
use xl_rpc::{RpcBad, Xdr, XdrOut};

mod frame;
mod nfs;
mod nlm;
mod rpc;
mod smb;

/// What stands behind a message in a table of those that are read, and is left.
pub(crate) const WORD: &[u8] = &[0, 0, 0, 9];

/// What a table is of.
#[derive(Clone, Copy)]
enum Table {
    Streams,
    Frames,
    Rpc,
    Nlm,
    Nfs,
    Smb,
}

const TABLES: [(Table, &str); 6] = [
    (Table::Streams, frame::STREAMS),
    (Table::Frames, frame::FRAMES),
    (Table::Rpc, rpc::MESSAGES),
    (Table::Nlm, nlm::MESSAGES),
    (Table::Nfs, nfs::MESSAGES),
    (Table::Smb, smb::MESSAGES),
];

/// Puts the bytes of a word, two digits each.
fn put_word(alloc: Global, bytes: &mut Vec<u8>, word: &str) -> Result<(), AllocError> {
    match hex::decode(alloc, word) {
        Ok(part) => bytes.extend_from_slice(&part),
        Err(_) => Err(AllocError),
    }
}

fn put_words(alloc: Global, bytes: &mut Vec<u8>, row: &str) -> Result<(), AllocError> {
    for word in row.split(' ') {
        if word == "#" {
            break;
        }
        put_word(alloc, bytes, word)?;
    }
    Ok(())
}

/// The bytes of a row of a table. Blanks are skipped, and all from a word `#` on; an error too if a word is not in hex.
pub(crate) fn bytes_of(alloc: Global, row: &str) -> Result<Vec<u8>, AllocError> {
    let mut bytes = Vec::new(alloc);
    put_words(alloc, &mut bytes, row)?;
    Ok(bytes)
}

/// Whether a row has these bytes.
pub(crate) fn has_bytes(alloc: Global, row: &str, bytes: &[u8]) -> Result<bool, AllocError> {
    Ok(bytes_of(alloc, row)?.as_slice() == bytes)
}

/// Whether a word is left of what was read, and the rest is what was written again.
pub(crate) fn is_again(left: &[u8], out: &XdrOut, bytes: &[u8]) -> bool {
    left == WORD && bytes.strip_suffix(WORD) == Some(out.as_slice())
}

/// Whether it is the fault of this number, and all is left.
pub(crate) fn is_refused(fault: RpcBad, number: u8, args: &Xdr, bytes: &[u8]) -> bool {
    fault.number() == u32::from(number) && args.left() == bytes
}

fn is_item(out: &mut XdrOut, table: Table, bytes: &[u8]) -> Result<bool, AllocError> {
    match table {
        Table::Rpc => rpc::is_message(out, bytes),
        Table::Nlm => nlm::is_message(out, bytes),
        _ => nfs::is_message(out, bytes),
    }
}

fn is_right(alloc: Global, table: Table, row: &str) -> Result<bool, AllocError> {
    match table {
        Table::Streams => frame::is_stream(alloc, row),
        Table::Frames => frame::is_frame(alloc, row),
        Table::Smb => smb::is_row(alloc, &bytes_of(alloc, row)?),
        _ => is_item(&mut XdrOut::new(alloc), table, &bytes_of(alloc, row)?),
    }
}

/// The first row of a table that isn't as told, or for which memory runs out.
fn wrong_row(alloc: Global, table: Table, rows: &'static str) -> Option<&'static str> {
    for row in rows.lines() {
        if !matches!(is_right(alloc, table, row), Ok(true)) {
            return Some(row);
        }
    }
    None
}

#[test]
fn tables(rt: HostRuntime) {
    for (table, rows) in TABLES {
        let wrong = wrong_row(rt.alloc(), table, rows);
        assert!(rt; wrong.is_none(), "{wrong:?}");
    }
}
