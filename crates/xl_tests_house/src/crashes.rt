//! Crashes. A house is let go in the midst of an entry: what the entry would have done is lost, except for its first stores. One that
//! starts on the record that these left has each client reclaim what it held at the free moment before, and lets it in.

use crate::exports::{exports, told};
use std::alloc::Global;
use std::test::Fail;
use xl_base::{Event, Kind, MemoryKeeper, Moment, Record, Sequence};
use xl_house::{Ended, House};

/// A record that comes by connection 0, and its reply.
type Heard = (&'static str, &'static str);

/// SETCLIENTID of `c` and its confirmation, at epoch 1.
const SETS_UP: Heard = (
    "000000090000000000000002000186a30000000400000001000000000000000000000000000000000000000000000000000000020000002300000000000000000000000163000000000000000000000000000000000000000000002400000001000000010000000000000002",
    "800000440000000900000001000000000000000000000000000000000000000000000000000000020000002300000000000000010000000100000000000000020000002400000000",
);

/// OPEN of the first file for writing by `c`, which has it recorded.
const OPENS: Heard = (
    "000000090000000000000002000186a300000004000000010000000000000000000000000000000000000000000000000000000200000018000000120000000100000002000000000000000100000001000000016f000000000000000000000000000005612e747874000000",
    "8000006400000009000000010000000000000000000000000000000000000000000000000000000200000018000000000000001200000000000000010000000100000000000000030000000100000000000000000000000000000000000000020000000000000000",
);

/// OPEN_CONFIRM, and LOCK of the bytes from 0 to 9 by `c`.
const LOCKS: Heard = (
    "000000090000000000000002000186a30000000400000001000000000000000000000000000000000000000000000000000000030000001600000008584c4b31000000010000001400000001000000010000000000000003000000020000000c00000002000000000000000000000000000000000000000a000000010000000300000002000000010000000000000003000000000000000100000001000000016c000000",
    "8000005c00000009000000010000000000000000000000000000000000000000000000000000000300000016000000000000001400000000000000020000000100000000000000030000000c0000000000000001000000010000000000000004",
);

/// LOCK of the bytes from 20 to 29 by `a`, which has it recorded.
const A_LOCKS: Heard = (
    "000000090000000000000002000186b5000000040000000200000000000000000000000000000000000000000000000000000001000000016100000000000008584c4b310000000100000000000000070000000000000014000000000000000a0000000000000000",
    "800000200000000900000001000000000000000000000000000000000000000000000000",
);

/// SHARE of the second file by `b`, which has it recorded.
const B_SHARES: Heard = (
    "000000090000000000000002000186b500000004000000140000000000000000000000000000000000000000000000016200000000000008584c4b310000000200000000000000020000000100000000",
    "80000024000000090000000100000000000000000000000000000000000000000000000000000000",
);

/// SETCLIENTID of `c` and its confirmation, at epoch 2.
const SETS_UP_AGAIN: Heard = (
    "000000090000000000000002000186a30000000400000001000000000000000000000000000000000000000000000000000000020000002300000000000000000000000163000000000000000000000000000000000000000000002400000002000000010000000000000002",
    "800000440000000900000001000000000000000000000000000000000000000000000000000000020000002300000000000000020000000100000000000000020000002400000000",
);

/// OPEN by `c` as a reclaim.
const REOPENS: Heard = (
    "000000090000000000000002000186a30000000400000001000000000000000000000000000000000000000000000000000000020000001600000008584c4b3100000001000000120000000100000002000000000000000200000001000000016f000000000000000000000100000000",
    "8000006400000009000000010000000000000000000000000000000000000000000000000000000200000016000000000000001200000000000000010000000200000000000000030000000100000000000000000000000000000000000000000000000000000000",
);

/// LOCK by `c` as a reclaim.
const RELOCKS: Heard = (
    "000000090000000000000002000186a30000000400000001000000000000000000000000000000000000000000000000000000020000001600000008584c4b31000000010000000c00000002000000010000000000000000000000000000000a000000010000000200000001000000020000000000000003000000000000000200000001000000016c000000",
    "8000004400000009000000010000000000000000000000000000000000000000000000000000000200000016000000000000000c0000000000000001000000020000000000000004",
);

/// LOCK by `a` as a reclaim.
const A_RELOCKS: Heard = (
    "000000090000000000000002000186b5000000040000000200000000000000000000000000000000000000000000000000000001000000016100000000000008584c4b310000000100000000000000070000000000000014000000000000000a0000000100000000",
    "800000200000000900000001000000000000000000000000000000000000000000000000",
);

/// SHARE by `b` as a reclaim.
const B_RESHARES: Heard = (
    "000000090000000000000002000186b500000004000000140000000000000000000000000000000000000000000000016200000000000008584c4b310000000200000000000000020000000100000001",
    "80000024000000090000000100000000000000000000000000000000000000000000000000000000",
);

/// The same of a client that the record lacks, while grace runs: NFS4ERR_RECLAIM_BAD.
const REOPENS_UNRECORDED: Heard = (
    "000000090000000000000002000186a30000000400000001000000000000000000000000000000000000000000000000000000020000001600000008584c4b3100000001000000120000000100000002000000000000000200000001000000016f000000000000000000000100000000",
    "8000003400000009000000010000000000000000000000000000000000002732000000000000000200000016000000000000001200002732",
);

/// And where no grace runs: NFS4ERR_NO_GRACE.
const REOPENS_LATE: Heard = (
    "000000090000000000000002000186a30000000400000001000000000000000000000000000000000000000000000000000000020000001600000008584c4b3100000001000000120000000100000002000000000000000200000001000000016f000000000000000000000100000000",
    "8000003400000009000000010000000000000000000000000000000000002731000000000000000200000016000000000000001200002731",
);

/// What three clients do before the clock reads 90,000, by when the lease of `c` has ended: it expires then. There are five stores,
/// each the first of its entry: the start's, those of the three names, and that of the expiry.
const RUN: [Heard; 5] = [SETS_UP, OPENS, LOCKS, A_LOCKS, B_SHARES];

/// With which stores made the run is cut, and what those reclaim then who held something.
const CUTS: [(usize, &[Heard]); 7] = [
    // in the start; in the OPEN, when nothing was held
    (1, &[]),
    (2, &[]),
    // in the LOCK of `a`: `c` held its share and its range
    (3, &[SETS_UP_AGAIN, REOPENS, RELOCKS]),
    // what nobody held is reclaimed so too, by who is recorded: `a` has its name from the lost entry
    (3, &[A_RELOCKS]),
    // in the SHARE of `b`
    (4, &[SETS_UP_AGAIN, REOPENS, RELOCKS, A_RELOCKS]),
    // at 90,000, before the store of the expiry, and behind it: then `c` is no more recorded
    (4, &[SETS_UP_AGAIN, REOPENS, RELOCKS, A_RELOCKS, B_RESHARES]),
    (
        5,
        &[SETS_UP_AGAIN, REOPENS_UNRECORDED, A_RELOCKS, B_RESHARES],
    ),
];

/// A run of `c` alone, cut at 90,000 before the store of its expiry, and behind it: then the record has nobody, and no grace runs.
const ALONE: [(usize, &[Heard]); 2] = [
    (2, &[SETS_UP_AGAIN, REOPENS, RELOCKS]),
    (3, &[SETS_UP_AGAIN, REOPENS_LATE]),
];

/// A house that starts on this record.
fn start(
    alloc: Global,
    record: Record,
) -> Result<Result<House<MemoryKeeper>, Ended<MemoryKeeper>>, Fail> {
    let exports = exports(alloc, b"F a.txt\nF b.txt\n")?;
    let keeper = MemoryKeeper::new(alloc, record, Vec::new(alloc));
    Ok(House::start(alloc, exports, keeper, Moment(0)))
}

/// Whether each of these has its reply.
fn are_told(alloc: Global, house: &mut House<MemoryKeeper>, heard: &[Heard]) -> Result<bool, Fail> {
    let _ = house.step(alloc, Event::Open(Kind::Rpc));
    for (record, reply) in heard {
        let bytes = Sequence::from_vec(hex::decode(alloc, *record)?);
        let wanted = format!(in alloc; "0 c0 {reply}\n")?;
        if told(alloc, house, bytes)?.as_slice() != wanted.as_bytes() {
            return Ok(false);
        }
    }
    Ok(true)
}

/// Whether these have their replies; and the keeper, once the clock read 90,000.
fn run(
    alloc: Global,
    mut house: House<MemoryKeeper>,
    heard: &[Heard],
) -> (Result<bool, Fail>, MemoryKeeper) {
    let told = are_told(alloc, &mut house, heard);
    let _ = house.step(alloc, Event::Tick(Moment(90_000)));
    let (_, keeper) = house.end();
    (told, keeper)
}

/// Whether these have their replies by a house, which ends then.
fn is_let_in(alloc: Global, mut house: House<MemoryKeeper>, heard: &[Heard]) -> Result<bool, Fail> {
    let told = are_told(alloc, &mut house, heard);
    let (_, _) = house.end();
    told
}

/// Whether the clients are let in once the last of these records was stored.
fn recovers(alloc: Global, given: &[Record], heard: &[Heard]) -> Result<bool, Fail> {
    let Some(record) = given.last() else {
        return Ok(false);
    };
    match start(alloc, record.copy(alloc)?)? {
        Ok(house) => is_let_in(alloc, house, heard),
        Err(_) => Ok(false),
    }
}

/// Whether they are, cut by cut, of these that a keeper was given.
fn all_recover(alloc: Global, given: &[Record], cuts: &[(usize, &[Heard])]) -> Result<bool, Fail> {
    for (stores, heard) in cuts {
        let Some(made) = given.get(..*stores) else {
            return Ok(false);
        };
        if !recovers(alloc, made, heard)? {
            return Ok(false);
        }
    }
    Ok(true)
}

/// Whether a run goes so, with as many stores as that, and each of its cuts.
fn is_cut_so(
    alloc: Global,
    heard: &[Heard],
    stores: usize,
    cuts: &[(usize, &[Heard])],
) -> Result<bool, Fail> {
    match start(alloc, Record::new(alloc))? {
        Ok(house) => {
            let (told, keeper) = run(alloc, house, heard);
            let given = keeper.given();
            Ok(told? && given.len() == stores && all_recover(alloc, given, cuts)?)
        }
        Err(_) => Ok(false),
    }
}

/// Whether three clients, who hold a share and ranges of NFS version 4, a range of NLM and a share, recover from each cut of what they do.
pub fn clients_recover(alloc: Global) -> Result<bool, Fail> {
    is_cut_so(alloc, &RUN, 5, &CUTS)
}

/// Whether a client alone whose lease ends recovers from a cut before the store of its expiry, and is turned away behind it.
pub fn expired_client_recovers(alloc: Global) -> Result<bool, Fail> {
    is_cut_so(alloc, &[SETS_UP, OPENS, LOCKS], 3, &ALONE)
}
