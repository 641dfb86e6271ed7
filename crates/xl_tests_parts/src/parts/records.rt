//! The record as a file.

use super::number;
use std::alloc::{AllocError, Global};
use std::test::Fail;
use xl_base::{
    MOST_RECORD_BYTES, Mark, Protocol, Record, RecordNameError, Recorded, Sequence, agree,
    has_file, length_with, read_record, record_bytes, record_length,
};

/// How a file begins, how many bytes it has at least, with zeros behind, and what is read of it: the epoch with the names and
/// their marks, `whole` for a record that is not told, or the fault.
pub(super) const FILES: &str = "\
584c52320000000000000000 0 0
584c5232ffffffff00000000 0 4294967295
584c523200000002000000010100016300 0 2 nfs:63
584c523200000002000000010100016308000000000000 0 the record file is cut
584c5232000000020000000101000163080000000000000000 0 2 nfs:63+0000000000000000
584c523200000002000000020100016300020001630400000003 0 2 nfs:63 nlm:63+00000003
584c523200000002000000030200000001000008010203040506070802000200ff00 0 2 nlm: nfs:+0102030405060708 nlm:00ff
584c52310000000000000000 0 0
584c5231ffffffff00000000 0 4294967295
584c5231000000020000000101000163 0 2 nfs:63
584c523100000002000000020100016302000163 0 2 nfs:63 nlm:63
584c5231000000020000000302000001000002000200ff 0 2 nlm: nfs: nlm:00ff
- 0 no mark of a record file
584c52 0 no mark of a record file
584c523300000000 0 no mark of a record file
594c52310000000000000000 0 no mark of a record file
584c5231 0 the record file is cut
584c5231000000 0 the record file is cut
584c523100000002000000 0 the record file is cut
584c52310000000200000001 0 the record file is cut
584c5231000000020000000101 0 the record file is cut
584c523100000002000000010100 0 the record file is cut
584c52310000000200000001010001 0 the record file is cut
584c5231000000020000000101000263 0 the record file is cut
584c5231000000020000000201000163 0 the record file is cut
584c523100000002ffffffff01000163 0 the record file is cut
584c5231000000020000000100 0 a name of the kind 0
584c5231000000020000000103000163 0 a name of the kind 3
584c52310000000200000002010001630301 0 a name of the kind 3
584c523100000002000000010100016303 0 bytes stand behind the last name
584c523100000002000000020100016301000163 0 a name stands twice
584c52310000000200000003010001630100016304 0 a name stands twice
584c52310000000200000002020000020000ff 0 a name stands twice
5a4c5231000000020000000201000163 0 no mark of a record file
584c5231000000000000000000 0 bytes stand behind the last name
584c5231000000020000000101000163010001 0 bytes stand behind the last name
584c523100000002000000010100016300 0 bytes stand behind the last name
584c5232 0 the record file is cut
584c523200000002000000 0 the record file is cut
584c52320000000200000001010001 0 the record file is cut
584c5232000000020000000101000163 0 the record file is cut
584c523200000002000000010100016308 0 the record file is cut
584c5232000000020000000102000163040000 0 the record file is cut
584c52320000000200000002010001630000 0 a name of the kind 0
584c523200000002000000010100016301ff 0 a mark of 1 bytes
584c5232000000020000000101000163040000000300 0 a mark of 4 bytes
584c5232000000020000000102000163080000000000000000 0 a mark of 8 bytes
584c523200000002000000010100016309000000000000000000 0 a mark of 9 bytes
584c5232000000020000000102000163ff 0 a mark of 255 bytes
584c52320000000200000002010001630001000163080000000000000001 0 a name stands twice
584c52320000000200000002010001630001000163 0 the record file is cut
584c52320000000200000001010001630000 0 bytes stand behind the last name
584c5231000000020000000101fff1 65536 whole
584c5231000000020000000101fff1 65535 the record file is cut
584c5231000000020000000101fff0 65536 bytes stand behind the last name
584c5231000000020000000101fff2 65536 the record file is cut
584c5231000000020000000101fff2 65537 a record file of 65537 bytes
584c523200000002 65536 bytes stand behind the last name
584c523200000002 131072 bytes stand behind the last name
584c523200000002 131073 a record file of 131073 bytes
584c523300000002 131072 no mark of a record file
584c523300000002 131073 a record file of 131073 bytes";

/// The bytes of a file; none if the word has no bytes.
fn bytes(alloc: Global, word: &str, total: usize) -> Result<Vec<u8>, AllocError> {
    let mut bytes = hex::decode(alloc, word).unwrap_or(Vec::new(alloc));
    if bytes.len() < total {
        bytes.resize(total, 0)?;
    }
    Ok(bytes)
}

fn protocol(name: &Recorded) -> &'static str {
    match name.protocol {
        Protocol::Nfs => "nfs",
        Protocol::Nlm => "nlm",
        Protocol::Smb => "smb",
    }
}

/// The mark behind a plus; nothing if there is none.
fn mark(alloc: Global, name: &Recorded) -> Result<String, AllocError> {
    match &name.mark {
        Some(mark) => {
            let shown = hex::encode(alloc, mark.as_bytes())?;
            Ok(format!(in alloc; "+{shown}")?)
        }
        None => Ok(String::new(alloc)),
    }
}

/// The epoch, and each name behind it.
fn shown(alloc: Global, stable: &Record) -> Result<String, AllocError> {
    let mut text = format!(in alloc; "{}", stable.epoch())?;
    for name in stable.names() {
        let shown = hex::encode(alloc, name.name.as_slice())?;
        let mark = mark(alloc, name)?;
        text.push_str(&format!(in alloc; " {}:{}{}", protocol(name), shown, mark)?)?;
    }
    Ok(text)
}

/// The file of a record in the newer form; none if it has no file.
fn written(alloc: Global, stable: &Record) -> Result<Vec<u8>, AllocError> {
    if has_file(stable) {
        record_bytes(alloc, stable)
    } else {
        Ok(Vec::new(alloc))
    }
}

/// Whether a record that was read of this file is written as it again, or as a longer one of the newer form, which is read as the same
/// record.
fn is_again(alloc: Global, stable: &Record, file: &[u8]) -> Result<bool, AllocError> {
    let written = written(alloc, stable)?;
    if written.len() as u64 != record_length(stable) {
        return Ok(false);
    }
    if file.starts_with(b"XLR2") {
        return Ok(written.as_slice() == file);
    }
    let longer = file.len() + stable.names().len();
    match read_record(alloc, &written) {
        Ok(again) => Ok(
            written.starts_with(b"XLR2")
                && written.len() == longer
                && shown(alloc, &again)?.as_str() == shown(alloc, stable)?.as_str(),
        ),
        Err(_) => Ok(false),
    }
}

/// Whether this is read of the file, and what is read is written again.
fn is_read(alloc: Global, file: &[u8], want: &str) -> Result<bool, AllocError> {
    match read_record(alloc, file) {
        Ok(stable) => Ok(
            is_again(alloc, &stable, file)?
                && (want == "whole" || shown(alloc, &stable)?.as_str() == want),
        ),
        Err(bad) => Ok(format!(in alloc; "{bad}")?.as_str() == want),
    }
}

pub(super) fn is_as_told(alloc: Global, row: &str) -> Result<bool, AllocError> {
    let (word, rest) = row.split_once(' ').unwrap_or(("", ""));
    let (total, want) = rest.split_once(' ').unwrap_or(("", ""));
    is_read(alloc, &bytes(alloc, word, number(total) as usize)?, want)
}

/// A record with one name of so many bytes.
fn with_one(alloc: Global, count: usize) -> Result<Record, AllocError> {
    let mut name = Vec::new(alloc);
    name.resize(count, 0u8)?;
    let mut stable = Record::new(alloc);
    let recorded = Recorded {
        protocol: Protocol::Nlm,
        name: Sequence::from_vec(name),
        mark: None,
    };
    match stable.add(recorded) {
        Ok(()) => Ok(stable),
        Err(_) => Err(AllocError),
    }
}

fn length_with_one(alloc: Global, count: usize) -> u64 {
    match with_one(alloc, count) {
        Ok(stable) => record_length(&stable),
        Err(_) => 0,
    }
}

/// A record is as long as its file would be, also if it is too long for one, or if its name is.
fn are_lengths(alloc: Global) -> bool {
    record_length(&Record::new(alloc)) == 12
        && length_with_one(alloc, 65_535) == 65_551
        && length_with_one(alloc, 131_056) == MOST_RECORD_BYTES as u64
        && length_with_one(alloc, 131_057) == 131_073
}

fn has_file_with_one(alloc: Global, count: usize) -> bool {
    match with_one(alloc, count) {
        Ok(stable) => has_file(&stable),
        Err(_) => false,
    }
}

/// A name of more than 65,535 bytes has no file.
fn are_files(alloc: Global) -> bool {
    has_file_with_one(alloc, 65_535)
        && !has_file_with_one(alloc, 65_536)
        && !has_file_with_one(alloc, 131_057)
}

/// What a client comes with, its protocol, name and mark or a dash; whether the record keeps that, or is to have it, or may not; and
/// what the record has then.
const PUTS: &str = "\
nlm 61 - put 0 nlm:61
nlm 61 - kept 0 nlm:61
nfs 61 0102030405060708 put 0 nlm:61 nfs:61+0102030405060708
nlm 61 00000003 put 0 nlm:61+00000003 nfs:61+0102030405060708
nlm 61 00000003 kept 0 nlm:61+00000003 nfs:61+0102030405060708
nlm 61 - kept 0 nlm:61+00000003 nfs:61+0102030405060708
nlm 61 00000005 put 0 nlm:61+00000005 nfs:61+0102030405060708
nfs 61 - kept 0 nlm:61+00000005 nfs:61+0102030405060708
nfs 61 0102030405060709 put 0 nlm:61+00000005 nfs:61+0102030405060709
nlm - 00000000 put 0 nlm:61+00000005 nfs:61+0102030405060709 nlm:+00000000
nfs 61 00000003 unfit 0 nlm:61+00000005 nfs:61+0102030405060709 nlm:+00000000
nlm 62 0102030405060708 unfit 0 nlm:61+00000005 nfs:61+0102030405060709 nlm:+00000000
smb 61 - unfit 0 nlm:61+00000005 nfs:61+0102030405060709 nlm:+00000000";

fn mark_in(bytes: &[u8]) -> Option<Mark> {
    match bytes {
        [a, b, c, d] => Some(Mark::State([*a, *b, *c, *d])),
        [a, b, c, d, e, f, g, h] => Some(Mark::Verifier([*a, *b, *c, *d, *e, *f, *g, *h])),
        _ => None,
    }
}

fn client(alloc: Global, protocol: &str, name: &str, mark: &str) -> Result<Recorded, AllocError> {
    Ok(Recorded {
        protocol: match protocol {
            "nfs" => Protocol::Nfs,
            "nlm" => Protocol::Nlm,
            _ => Protocol::Smb,
        },
        name: Sequence::from_vec(bytes(alloc, name, 0)?),
        mark: mark_in(&bytes(alloc, mark, 0)?),
    })
}

/// What becomes of the client's name: it is put where it isn't kept, and the record is then as long as it was said to be.
fn put(stable: &mut Record, client: Recorded) -> Result<&'static str, AllocError> {
    if stable.keeps(&client) {
        return Ok("kept");
    }
    let length = length_with(stable, &client);
    Ok(match stable.put(client) {
        Ok(()) if length == record_length(stable) => "put",
        Ok(()) => "long",
        Err(RecordNameError::Unfit) => "unfit",
        Err(_) => return Err(AllocError),
    })
}

/// The row of the first client that comes to something else; none if all come to what they say.
fn first_wrong_put(alloc: Global) -> Result<Option<&'static str>, AllocError> {
    let mut stable = Record::new(alloc);
    for row in PUTS.lines() {
        let mut words = row.splitn(4, ' ');
        let protocol = words.next().unwrap_or("");
        let name = words.next().unwrap_or("");
        let mark = words.next().unwrap_or("");
        let said = put(&mut stable, client(alloc, protocol, name, mark)?)?;
        let shown = shown(alloc, &stable)?;
        let told = format!(in alloc; "{said} {shown}")?;
        if words.next() != Some(told.as_str()) {
            return Ok(Some(row));
        }
    }
    Ok(None)
}

/// Two marks, a dash for a missing one, and whether they agree.
const AGREED: [(&str, &str, bool); 7] = [
    ("-", "-", true),
    ("-", "00000003", true),
    ("0102030405060708", "-", true),
    ("00000003", "00000003", true),
    ("00000003", "00000005", false),
    ("0102030405060708", "0102030405060708", true),
    ("0102030405060708", "0102030405060709", false),
];

fn are_agreed(alloc: Global) -> Result<bool, AllocError> {
    for (kept, mark, agreed) in &AGREED {
        let (kept, mark) = (bytes(alloc, kept, 0)?, bytes(alloc, mark, 0)?);
        if agree(&mark_in(&kept), &mark_in(&mark)) != *agreed {
            return Ok(false);
        }
    }
    Ok(true)
}

#[test]
fn names_are_put_with_marks(rt: HostRuntime) -> Result<(), Fail> {
    let wrong = first_wrong_put(rt.alloc())?;
    assert!(rt; wrong.is_none(), "{wrong:?}");
    assert!(rt; are_agreed(rt.alloc())?);
    Ok(())
}

#[test]
fn record_files(rt: HostRuntime) {
    assert!(rt; are_files(rt.alloc()));
}

#[test]
fn record_lengths(rt: HostRuntime) {
    assert!(rt; are_lengths(rt.alloc()));
}
