//! Cases of grace, of the record and its stores (RFC 7530 9.6.2, 9.6.3; XNFS C702, NLM_LOCK).

use super::asks::{Asked, NONE, READ, WRITE};
use super::steps::{Start, Step, Told, wrong_from};
use std::test::Fail;
use xl_base::{Party, Protocol};

/// In grace a client of the record reclaims, and nobody else asks for anything: a name of the other protocol isn't the recorded
/// one, an ask of SMB waits, its wish is refused. A reclaim that something stands against is refused, also if it would wait.
const RECLAIMS: &[Step] = &[
    Step::Ask(Asked::ClientShare(b'c'), Told::Grace(107), 0),
    Step::Ask(Asked::Test(b'a'), Told::Grace(107), 0),
    Step::Ask(Asked::Wish(1), Told::Grace(107), 0),
    Step::Ask(
        Asked::ReclaimedShare(b'e', READ, NONE),
        Told::NotRecorded,
        0,
    ),
    Step::Ask(Asked::ReclaimedLock(b'c'), Told::NotRecorded, 0),
    Step::Ask(Asked::ReclaimedShare(b'c', READ, WRITE), Told::Granted, 0),
    Step::Ask(Asked::ReclaimedShare(b'd', WRITE, NONE), Told::Conflict, 0),
    Step::Ask(Asked::ReclaimedLock(b'a'), Told::Granted, 0),
    Step::Ask(Asked::ReclaimedLock(b'b'), Told::Conflict, 0),
    Step::Counts(2, 4, 0),
    Step::Ask(Asked::Share(1, READ, NONE), Told::Queued, 0),
    Step::Turn(0),
];

/// Grace ends at its moment, not before, with a store of the record without the names that reclaimed nothing; who waited has its
/// turn then, and a reclaim comes too late. One who comes anew is recorded behind the others.
const GRACE_ENDS: &[Step] = &[
    Step::Reads(106, 0),
    Step::Ask(Asked::Test(b'a'), Told::Grace(107), 0),
    Step::Stored(b"cdab", 0, 0),
    Step::Reads(107, 0),
    Step::Stored(b"ca", 1, 1),
    Step::Turn(1),
    Step::Ask(
        Asked::ReclaimedShare(b'c', READ, WRITE),
        Told::NoGrace(107),
        0,
    ),
    Step::Ask(Asked::ClientShare(b'd'), Told::Granted, 0),
    Step::Stored(b"cad", 2, 2),
    Step::Ask(Asked::ClientShare(b'd'), Told::Granted, 0),
    Step::Stored(b"cad", 2, 2),
];

/// A delegation is reclaimed with its share; then it stands against another's, whose break it isn't.
const BOTH_COME: &[Step] = &[
    Step::Ask(Asked::ReclaimedDelegation(b'c'), Told::Granted, 0),
    Step::Has(Party::Name(Protocol::Nfs, 1), "write"),
    Step::Ask(Asked::ReclaimedDelegation(b'd'), Told::Conflict, 0),
    Step::Has(Party::Name(Protocol::Nfs, 1), "write"),
    Step::Counts(2, 2, 0),
];

/// A share that fits isn't reclaimed without its delegation that doesn't. Out of grace it is granted without.
const NEITHER_COMES: &[Step] = &[
    Step::Ask(Asked::ReclaimedShare(b'd', READ, NONE), Told::Granted, 0),
    Step::Ask(Asked::ReclaimedDelegation(b'c'), Told::Conflict, 0),
    Step::Counts(1, 2, 0),
    Step::Reads(107, 0),
    Step::Stored(b"d", 1, 1),
    Step::Ask(Asked::Delegation(b'c'), Told::Granted, 0),
    Step::Has(Party::Name(Protocol::Nfs, 3), "-"),
    Step::Counts(2, 4, 0),
];

/// A mark that agrees with the kept one lets a reclaim in: the same, or any if one is missing. What is let in stores nothing, and
/// leaves the kept marks.
const MARKED_RECLAIMS: &[Step] = &[
    Step::Ask(Asked::StateLock(b'a', b'5', true), Told::NotRecorded, 0),
    Step::Ask(Asked::StateLock(b'a', b'3', true), Told::Granted, 0),
    Step::Ask(Asked::ReclaimedLock(b'a'), Told::Granted, 0),
    Step::Ask(Asked::StateLock(b'b', b'5', true), Told::Conflict, 0),
    Step::Ask(Asked::VerifierShare(b'c', b'5', true), Told::NotRecorded, 0),
    Step::Ask(Asked::VerifierShare(b'c', b'3', true), Told::Granted, 0),
    Step::Ask(Asked::ReclaimedShare(b'c', READ, NONE), Told::Granted, 0),
    Step::Ask(Asked::VerifierShare(b'd', b'5', true), Told::Granted, 0),
    Step::Stored(b"dbca", 0, 0),
    Step::Marks(b"--33"),
];

/// Out of grace a mark that is missing or another is stored, in its name's place, and once; an ask without a mark, or with the same,
/// stores nothing. One who waited is recorded with the mark that it came with.
const MARKS_CHANGE: &[Step] = &[
    Step::Reads(107, 0),
    Step::Stored(b"dca", 1, 1),
    Step::Marks(b"-33"),
    Step::Ask(Asked::VerifierShare(b'c', b'5', false), Told::Granted, 0),
    Step::Marks(b"-53"),
    Step::Ask(Asked::VerifierShare(b'c', b'5', false), Told::Granted, 0),
    Step::Ask(Asked::ClientShare(b'c'), Told::Granted, 0),
    Step::Stored(b"dca", 2, 2),
    Step::Ask(Asked::VerifierShare(b'd', b'7', false), Told::Granted, 0),
    Step::Ask(Asked::StateLock(b'a', b'3', false), Told::Granted, 0),
    Step::Stored(b"dca", 3, 3),
    Step::Ask(Asked::StateLock(b'a', b'4', false), Told::Granted, 0),
    Step::Marks(b"754"),
    Step::Ask(Asked::StateLock(b'b', b'6', false), Told::Queued, 0),
    Step::Stored(b"dca", 4, 4),
    Step::Leaves(Party::Name(Protocol::Nlm, 1), 0),
    Step::Turn(1),
    Step::Stored(b"dcab", 5, 5),
    Step::Marks(b"7546"),
];

/// A mark whose store fails isn't kept, and its ask isn't granted.
const MARK_FAILS: &[Step] = &[
    Step::Ask(Asked::ClientShare(b'c'), Told::Granted, 0),
    Step::Ask(
        Asked::VerifierShare(b'c', b'3', false),
        Told::StoreFailed,
        0,
    ),
    Step::Stored(b"c", 2, 1),
    Step::Marks(b"-"),
    Step::Begins,
    Step::Ask(Asked::VerifierShare(b'c', b'3', false), Told::Granted, 0),
    Step::Stored(b"c", 3, 1),
    Step::Marks(b"3"),
];

/// Two recorded clients reclaim a share each, and a third that isn't recorded has a lease: all three end at moment 100, as grace
/// does, in which a fourth that is recorded doesn't come back.
const THREE_COME: &[Step] = &[
    Step::Ask(Asked::ReclaimedShare(b'a', READ, NONE), Told::Granted, 0),
    Step::Ask(Asked::ReclaimedShare(b'c', READ, NONE), Told::Granted, 0),
    Step::Renews(b'a'),
    Step::Renews(b'b'),
    Step::Renews(b'c'),
    Step::Reads(99, 0),
    Step::Begins,
];

/// No store succeeds at their end: the one that isn't recorded expires, and behind the store that failed none is tried. The next
/// step makes up for it.
const NO_STORE: &[Step] = &[
    Step::Expire(100, b"b"),
    Step::Stored(b"acd", 1, 0),
    Step::Counts(2, 4, 0),
    Step::Ask(Asked::Test(b'a'), Told::Grace(100), 0),
    Step::Begins,
    Step::Expire(100, b"ac"),
    Step::Stored(b"", 4, 3),
    Step::Ask(Asked::Test(b'a'), Told::Granted, 0),
];

const ONE_STORE: &[Step] = &[
    Step::Expire(100, b"ab"),
    Step::Stored(b"cd", 2, 1),
    Step::Counts(1, 4, 0),
    Step::Ask(Asked::Test(b'a'), Told::Grace(100), 0),
];

/// Grace goes on, which no longer lets the expired ones in.
const TWO_STORES: &[Step] = &[
    Step::Expire(100, b"abc"),
    Step::Stored(b"d", 3, 2),
    Step::Counts(0, 4, 0),
    Step::Ask(
        Asked::ReclaimedShare(b'a', READ, NONE),
        Told::NotRecorded,
        0,
    ),
    Step::Ask(Asked::ReclaimedShare(b'd', READ, NONE), Told::Granted, 0),
];

const THREE_STORES: &[Step] = &[
    Step::Expire(100, b"abc"),
    Step::Stored(b"", 3, 3),
    Step::Counts(0, 4, 0),
    Step::Ask(Asked::Test(b'a'), Told::Granted, 0),
];

/// Two clients have a share each and a lease, which end at moment 100: four stores, in the second step the last two.
const TWO_COME: &[Step] = &[
    Step::Ask(Asked::ClientShare(b'c'), Told::Granted, 0),
    Step::Ask(Asked::ClientShare(b'd'), Told::Granted, 0),
    Step::Stored(b"cd", 2, 2),
    Step::Renews(b'c'),
    Step::Renews(b'd'),
    Step::Begins,
];

/// Nothing is granted whose store fails, nor behind it in that step.
const FIRST_FAILS: &[Step] = &[
    Step::Ask(Asked::ClientShare(b'c'), Told::StoreFailed, 0),
    Step::Ask(Asked::ClientShare(b'd'), Told::StoreFailed, 0),
    Step::Stored(b"", 1, 0),
    Step::Counts(0, 0, 0),
    Step::Begins,
    Step::Ask(Asked::ClientShare(b'd'), Told::Granted, 0),
    Step::Stored(b"d", 2, 1),
];

const SECOND_FAILS: &[Step] = &[
    Step::Ask(Asked::ClientShare(b'c'), Told::Granted, 0),
    Step::Ask(Asked::ClientShare(b'd'), Told::StoreFailed, 0),
    Step::Ask(Asked::ClientShare(b'c'), Told::Granted, 0),
    Step::Stored(b"c", 2, 1),
    Step::Counts(1, 2, 0),
];

/// All that a client has stays if its store fails.
const THIRD_FAILS: &[Step] = &[
    Step::Expire(100, b""),
    Step::Stored(b"cd", 3, 0),
    Step::Counts(2, 4, 0),
    Step::Begins,
    Step::Expire(100, b"cd"),
    Step::Stored(b"", 5, 2),
    Step::Counts(0, 4, 0),
];

const FOURTH_FAILS: &[Step] = &[
    Step::Expire(100, b"c"),
    Step::Stored(b"d", 4, 1),
    Step::Counts(1, 4, 0),
];

const NONE_FAILS: &[Step] = &[
    Step::Expire(100, b"cd"),
    Step::Stored(b"", 4, 2),
    Step::Counts(0, 4, 0),
];

/// With two clients of NFSv4 and two callers of NLM in the record.
const IN_GRACE: [&[&[Step]]; 3] = [&[RECLAIMS, GRACE_ENDS], &[BOTH_COME], &[NEITHER_COMES]];

/// The first store that fails, and what comes of those before it.
const EXPIRIES: [(u64, &[Step]); 4] = [
    (1, NO_STORE),
    (2, ONE_STORE),
    (3, TWO_STORES),
    (4, THREE_STORES),
];

/// Which call of the keeper fails, and what comes of it.
const FAILURES: [(u64, &[&[Step]]); 6] = [
    (1, &[FIRST_FAILS]),
    (2, &[SECOND_FAILS]),
    (2, &[MARK_FAILS]),
    (3, &[TWO_COME, THIRD_FAILS]),
    (4, &[TWO_COME, FOURTH_FAILS]),
    (5, &[TWO_COME, NONE_FAILS]),
];

#[test]
fn reclaims(rt: HostRuntime) -> Result<(), Fail> {
    let start = Start {
        moment: 7,
        clients: b"cd",
        callers: b"ab",
        marked: &[],
        failing: &[],
    };
    for (case, rows) in IN_GRACE.iter().enumerate() {
        let wrong = wrong_from(rt.alloc(), &start, rows)?;
        assert!(rt; wrong.is_none(), "{case}: {wrong:?}");
    }
    Ok(())
}

#[test]
fn marks_agree_and_change(rt: HostRuntime) -> Result<(), Fail> {
    let start = Start {
        moment: 7,
        clients: b"d",
        callers: b"b",
        marked: &[(Protocol::Nfs, b'c', b'3'), (Protocol::Nlm, b'a', b'3')],
        failing: &[],
    };
    let wrong = wrong_from(rt.alloc(), &start, &[MARKED_RECLAIMS, MARKS_CHANGE])?;
    assert!(rt; wrong.is_none(), "{wrong:?}");
    Ok(())
}

#[test]
fn expiries_wait_for_their_stores(rt: HostRuntime) -> Result<(), Fail> {
    for (first, steps) in EXPIRIES.iter() {
        let start = Start {
            moment: 0,
            clients: b"acd",
            callers: b"",
            marked: &[],
            failing: &[*first],
        };
        let wrong = wrong_from(rt.alloc(), &start, &[THREE_COME, steps])?;
        assert!(rt; wrong.is_none(), "{first}: {wrong:?}");
    }
    Ok(())
}

#[test]
fn keeper_fails(rt: HostRuntime) -> Result<(), Fail> {
    for (call, rows) in FAILURES.iter() {
        let start = Start {
            moment: 0,
            clients: b"",
            callers: b"",
            marked: &[],
            failing: &[*call],
        };
        let wrong = wrong_from(rt.alloc(), &start, rows)?;
        assert!(rt; wrong.is_none(), "{call}: {wrong:?}");
    }
    Ok(())
}
