//! Handles, the record, and the outside in memory.

use super::{next, number};
use std::alloc::{AllocError, Global};
use xl_base::{
    Keeper, LoadOutcome, MemoryKeeper, MemorySink, MemorySource, Protocol, ReadOutcome, Record,
    RecordNameError, Recorded, Sequence, Sink, Source, StoreOutcome, WriteOutcome, file_of,
    handle_of,
};

/// Bytes, and the number of the file whose handle they are; a dash if they are none.
pub(super) const HANDLES: &str = "\
XLK1\0\0\0\x01 1
XLK1\x01\x02\x03\x04 16909060
XLK1\0\0\0\x07 7
XLK1\0\0\0\0 0
XLK2\0\0\0\x07 -
XLK1\0\0\x07 -
XLK1\0\0\0\x07\0 -
 -";

fn is_file(bytes: &[u8], file: &str) -> bool {
    match file_of(bytes) {
        Some(found) => found as u64 == number(file) && handle_of(found).as_slice() == bytes,
        None => file == "-",
    }
}

pub(super) fn is_handle(row: &str) -> bool {
    match row.split_once(' ') {
        Some((bytes, file)) => is_file(bytes.as_bytes(), file),
        None => false,
    }
}

fn recorded(alloc: Global, protocol: Protocol, name: &str) -> Result<Recorded, AllocError> {
    Ok(Recorded {
        protocol,
        name: Sequence::from_slice(alloc, name.as_bytes())?,
        mark: None,
    })
}

fn word(added: Result<(), RecordNameError>) -> &'static str {
    match added {
        Ok(()) => "added",
        Err(RecordNameError::NoMemory) => "no memory",
        Err(RecordNameError::Unfit) => "unfit",
        Err(RecordNameError::Twice) => "twice",
    }
}

fn add(
    alloc: Global,
    record: &mut Record,
    protocol: Protocol,
    name: &str,
) -> Result<(), RecordNameError> {
    match recorded(alloc, protocol, name) {
        Ok(name) => record.add(name),
        Err(_) => Err(RecordNameError::NoMemory),
    }
}

fn is_recorded(alloc: Global, record: &Record, protocol: Protocol, name: &str) -> bool {
    match recorded(alloc, protocol, name) {
        Ok(name) => record.contains(&name),
        Err(_) => false,
    }
}

fn protocol(word: &str) -> Protocol {
    match word {
        "nlm" => Protocol::Nlm,
        "nfs" => Protocol::Nfs,
        _ => Protocol::Smb,
    }
}

/// How a name is recorded, its protocol, and the name; one after the other.
const NAMES: &str = "\
added nfs c
added nlm c
twice nfs c
unfit smb d
added nlm ";

/// Whether the row's name is recorded as it says; all except SMB names are held then.
fn is_added(alloc: Global, record: &mut Record, row: &str) -> bool {
    let mut words = row.split(' ');
    let answer = next(&mut words);
    let protocol = protocol(next(&mut words));
    let name = next(&mut words);
    word(add(alloc, record, protocol, name)) == answer
        && is_recorded(alloc, record, protocol, name) == (answer != "unfit")
}

fn are_three(record: &Record) -> bool {
    record.names().len() == 3 && record.epoch() == 3
}

fn are_recorded(alloc: Global, record: &mut Record) -> bool {
    record.set_epoch(3);
    for row in NAMES.lines() {
        if !is_added(alloc, record, row) {
            return false;
        }
    }
    are_three(record)
}

/// How many bytes a read gives; 9 if it fails.
fn reads(source: &mut MemorySource, buffer: &mut [u8; 3]) -> usize {
    match source.read(buffer) {
        ReadOutcome::Got(count) => count,
        ReadOutcome::End => 0,
        ReadOutcome::Failed => 9,
    }
}

fn are(bytes: &[u8], text: &str) -> bool {
    bytes == text.as_bytes()
}

/// What four reads give, what the buffer then has, and how many failed: the second does, and the third gives the one byte that
/// is left.
const READS: [(usize, &str, u64); 4] = [(3, "abc", 0), (9, "abc", 1), (1, "dbc", 1), (0, "dbc", 1)];

fn is_read(source: &mut MemorySource, buffer: &mut [u8; 3], row: &(usize, &str, u64)) -> bool {
    let (count, text, faults) = row;
    reads(source, buffer) == *count && are(buffer, text) && source.faults() == *faults
}

fn are_read(source: &mut MemorySource) -> bool {
    let mut buffer = [0u8; 3];
    for row in &READS {
        if !is_read(source, &mut buffer, row) {
            return false;
        }
    }
    true
}

fn writes(sink: &mut MemorySink, bytes: &str) -> bool {
    matches!(sink.write(bytes.as_bytes()), WriteOutcome::Wrote)
}

/// What three writes hold, of which the second fails.
fn are_written(sink: &mut MemorySink) -> bool {
    writes(sink, "ab")
        && !writes(sink, "cdef")
        && writes(sink, "g")
        && are(sink.bytes(), "abcdg")
        && sink.faults() == 1
}

fn sources(alloc: Global) -> Result<bool, AllocError> {
    let failing = Vec::from_slice(alloc, &[2])?;
    let mut source = MemorySource::new(Vec::from_slice(alloc, b"abcd")?, failing);
    Ok(are_read(&mut source))
}

fn sinks(alloc: Global) -> Result<bool, AllocError> {
    let mut sink = MemorySink::new(alloc, Vec::from_slice(alloc, &[2])?);
    Ok(are_written(&mut sink))
}

fn is_name(name: &Recorded, text: &str) -> bool {
    matches!(name.protocol, Protocol::Nlm) && are(name.name.as_slice(), text)
}

fn has_one_name(record: &Record) -> bool {
    match record.names().first() {
        Some(name) => record.names().len() == 1 && is_name(name, "c"),
        None => false,
    }
}

fn loads(alloc: Global, keeper: &mut MemoryKeeper) -> bool {
    let outcome = keeper.load(alloc);
    match &outcome {
        LoadOutcome::Loaded(record) => record.epoch() == 0 && has_one_name(record),
        _ => false,
    }
}

fn stores(alloc: Global, keeper: &mut MemoryKeeper, record: &Record) -> bool {
    matches!(keeper.store(alloc, record), StoreOutcome::Stored)
}

fn raised(record: &mut Record, epoch: u32) -> u32 {
    record.set_epoch(epoch);
    record.raise_epoch();
    record.epoch()
}

fn were_given(given: &[Record], one: u32, other: u32) -> bool {
    matches!(given, [first, second] if first.epoch() == one && second.epoch() == other)
}

/// The third call and the fourth, a load and a store of another epoch.
fn fail(alloc: Global, keeper: &mut MemoryKeeper, record: &mut Record) -> bool {
    record.set_epoch(9);
    matches!(keeper.load(alloc), LoadOutcome::Failed)
        && matches!(keeper.store(alloc, record), StoreOutcome::Failed)
}

fn is_raised(record: &mut Record) -> bool {
    raised(record, 0) == 1 && raised(record, u32::MAX) == 1 && raised(record, 7) == 8
}

/// The first call and the second, a load and a store.
fn is_stored(alloc: Global, keeper: &mut MemoryKeeper, record: &mut Record) -> bool {
    loads(alloc, keeper) && is_raised(record) && stores(alloc, keeper, record)
}

fn holds(keeper: &MemoryKeeper) -> bool {
    keeper.faults() == 2 && keeper.held().epoch() == 8 && were_given(keeper.given(), 8, 9)
}

fn are_kept(alloc: Global, keeper: &mut MemoryKeeper, record: &mut Record) -> bool {
    is_stored(alloc, keeper, record)
        && keeper.faults() == 0
        && fail(alloc, keeper, record)
        && holds(keeper)
}

fn keeps_copy(alloc: Global, copy: Record, failing: Vec<u64>, record: &mut Record) -> bool {
    let mut keeper = MemoryKeeper::new(alloc, copy, failing);
    are_kept(alloc, &mut keeper, record)
}

fn keeps(alloc: Global, record: &mut Record) -> Result<bool, AllocError> {
    let failing = Vec::from_slice(alloc, &[3, 4])?;
    let copy = record.copy(alloc)?;
    Ok(keeps_copy(alloc, copy, failing, record))
}

fn is_keeper(alloc: Global, record: &mut Record) -> Result<bool, AllocError> {
    Ok(add(alloc, record, Protocol::Nlm, "c").is_ok() && keeps(alloc, record)?)
}

fn pushes(list: &mut Sequence<u8>, item: u8, want: &str) -> bool {
    list.push(item).is_ok() && list.len() == want.len() && are(list.as_slice(), want)
}

fn is_same(alloc: Global, list: &Sequence<u8>, items: &str) -> bool {
    match Vec::from_slice(alloc, items.as_bytes()) {
        Ok(items) => *list == Sequence::from_vec(items),
        Err(_) => false,
    }
}

fn grows(alloc: Global, list: &mut Sequence<u8>) -> bool {
    pushes(list, b'a', "a")
        && is_same(alloc, list, "a")
        && pushes(list, b'b', "ab")
        && !is_same(alloc, list, "a")
}

fn is_list(alloc: Global) -> bool {
    let mut list: Sequence<u8> = Sequence::new(alloc);
    list.is_empty() && grows(alloc, &mut list) && are(list.into_vec().as_slice(), "ab")
}

#[test]
fn the_outside_in_memory(rt: HostRuntime) {
    assert!(rt; matches!(sources(rt.alloc()), Ok(true)));
    assert!(rt; matches!(sinks(rt.alloc()), Ok(true)));
    assert!(rt;
        matches!(
            is_keeper(rt.alloc(), &mut Record::new(rt.alloc())),
            Ok(true)
        )
    );
}

#[test]
fn records_and_sequences(rt: HostRuntime) {
    assert!(rt; are_recorded(rt.alloc(), &mut Record::new(rt.alloc())));
    assert!(rt; is_list(rt.alloc()));
}
