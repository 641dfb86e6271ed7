//! The house: how it starts and ends.

use crate::exports::{exports, told};
use std::alloc::Global;
use std::test::Fail;
use xl_base::{Event, Halt, Journal, Kind, MemoryKeeper, Moment, Record, Sequence};
use xl_house::{Ended, House};

/// A house whose keeper holds epoch 7, and of whose calls this one fails.
fn start(
    alloc: Global,
    failing: u64,
) -> Result<Result<House<MemoryKeeper>, Ended<MemoryKeeper>>, Fail> {
    let failing = Vec::from_slice(alloc, &[failing])?;
    let exports = exports(alloc, b"F a.txt\n")?;
    let mut stable = Record::new(alloc);
    stable.set_epoch(7);
    let keeper = MemoryKeeper::new(alloc, stable, failing);
    Ok(House::start(alloc, exports, keeper, Moment(5)))
}

/// Readings of the clock, each with a record that comes behind it and its reply. SETCLIENTID gives a clientid of epoch
/// 8; a confirmation of one of epoch 1 is stale, and that of its own is OK. The lease runs from the start, at 5: RENEW
/// just before it ends, just before that ends, and once the last one has ended.
const CLIENT: [(u64, &str, &str); 6] = [
    (
        0,
        "000000090000000000000002000186a3000000040000000100000000000000000000000000000000000000000000000000000001000000230000000000000000000000016300000000000000000000000000000000000000",
        "8000003c000000090000000100000000000000000000000000000000000000000000000000000001000000230000000000000008000000010000000000000002",
    ),
    (
        0,
        "000000090000000000000002000186a30000000400000001000000000000000000000000000000000000000000000000000000010000002400000001000000010000000000000002",
        "8000002c0000000900000001000000000000000000000000000000000000272600000000000000010000002400002726",
    ),
    (
        0,
        "000000090000000000000002000186a30000000400000001000000000000000000000000000000000000000000000000000000010000002400000008000000010000000000000002",
        "8000002c0000000900000001000000000000000000000000000000000000000000000000000000010000002400000000",
    ),
    (
        90004,
        "000000090000000000000002000186a30000000400000001000000000000000000000000000000000000000000000000000000010000001e0000000800000001",
        "8000002c0000000900000001000000000000000000000000000000000000000000000000000000010000001e00000000",
    ),
    (
        180003,
        "000000090000000000000002000186a30000000400000001000000000000000000000000000000000000000000000000000000010000001e0000000800000001",
        "8000002c0000000900000001000000000000000000000000000000000000000000000000000000010000001e00000000",
    ),
    (
        270003,
        "000000090000000000000002000186a30000000400000001000000000000000000000000000000000000000000000000000000010000001e0000000800000001",
        "8000002c0000000900000001000000000000000000000000000000000000272600000000000000010000001e00002726",
    ),
];

/// Whether each record that comes at its moment has its reply.
fn are_told(alloc: Global, house: &mut House<MemoryKeeper>) -> Result<bool, Fail> {
    for (moment, record, reply) in CLIENT {
        let bytes = Sequence::from_vec(hex::decode(alloc, record)?);
        let ticked = house.step(alloc, Event::Tick(Moment(moment))).is_ok();
        let wanted = format!(in alloc; "0 c0 {reply}\n")?;
        if !ticked || told(alloc, house, bytes)?.as_slice() != wanted.as_bytes() {
            return Ok(false);
        }
    }
    Ok(true)
}

/// A connection's opening and two entries of each record, behind a head of the moment and the record of the start.
fn is_journal(journal: &Journal) -> bool {
    journal.entries.len() == 13 && journal.head.start.0 == 5 && journal.head.record.epoch() == 7
}

/// Whether a house that started goes on so, and has at its end the journal, and in its keeper the epoch of its start.
fn is_served(alloc: Global, mut house: House<MemoryKeeper>) -> Result<bool, Fail> {
    let _ = house.step(alloc, Event::Open(Kind::Rpc));
    let told = are_told(alloc, &mut house);
    let (journal, keeper) = house.end();
    Ok(told? && is_journal(&journal) && keeper.held().epoch() == 8)
}

/// The epoch of the one record that was given to a keeper; 0 if none was.
fn given_to(keeper: &MemoryKeeper) -> u32 {
    match keeper.given() {
        [] => 0,
        [record] => record.epoch(),
        _ => u32::MAX,
    }
}

/// Whether a start ended at one fault, with this epoch in the journal's head and with a record of this epoch given to the
/// keeper, which holds what it held.
fn is_halted(ended: &Ended<MemoryKeeper>, loaded: u32, given: u32) -> bool {
    matches!(ended.halt, Halt::StartStore(1))
        && ended.journal.entries.is_empty()
        && ended.journal.head.record.epoch() == loaded
        && ended.keeper.held().epoch() == 7
        && given_to(&ended.keeper) == given
}

/// Whether a start whose keeper fails at this call ends so, with these epochs; one that doesn't fail goes on.
fn starts_so(alloc: Global, failing: u64, loaded: u32, given: u32) -> Result<bool, Fail> {
    match start(alloc, failing)? {
        Ok(house) => Ok(is_served(alloc, house)? && failing == 0),
        Err(ended) => Ok(is_halted(&ended, loaded, given) && failing != 0),
    }
}

/// No call of the keeper fails; then the load does, and the store.
#[test]
fn starts(rt: HostRuntime) -> Result<(), Fail> {
    for (failing, loaded, given) in [(0, 7, 8), (1, 0, 0), (2, 7, 8)] {
        assert!(rt; starts_so(rt.alloc(), failing, loaded, given)?, "{failing}");
    }
    Ok(())
}
