//! Cases of the core's calls, one after another.

use super::asks::{Asked, BOTH, NONE, Place, READ, WRITE};
use super::steps::{Start, Step, Told, wrong_from};
use std::test::Fail;
use xl_base::{Party, Protocol};
use xl_matrix::CacheKind;

/// A new core has no turn, and tells nothing of a party's end. It grants a test, and keeps nothing of it.
const NEW: &[Step] = &[
    Step::Turn(0),
    Step::Leaves(Party::Open(3), 0),
    Step::Begins,
    Step::Counts(0, 0, 0),
    Step::Ask(Asked::Test(b'a'), Told::Granted, 0),
    Step::Counts(0, 0, 0),
];

/// An open locks a range exclusively, then shared, and no longer exclusively. An unlock takes out one range that is
/// equal, the exclusive one first, and none that isn't. A range without a byte is stopped if it lies between two locked
/// bytes, and at offset 0 by none.
const ONE_OPEN: &[Step] = &[
    Step::Ask(Asked::Range(3, Place::Whole, true), Told::Granted, 0),
    Step::Ask(Asked::Range(3, Place::Whole, false), Told::Granted, 0),
    Step::Ask(Asked::Range(3, Place::Whole, true), Told::Conflict, 0),
    Step::Ask(Asked::Unlock(3, Place::Start), Told::NotHeld, 0),
    Step::Ask(Asked::Unlock(3, Place::Whole), Told::Granted, 0),
    Step::HasRange(false),
    Step::Ask(Asked::Unlock(3, Place::Whole), Told::Granted, 0),
    Step::Ask(Asked::Unlock(3, Place::Whole), Told::NotHeld, 0),
    Step::Ask(Asked::Range(3, Place::Whole, true), Told::Granted, 0),
    Step::Ask(Asked::Range(4, Place::Inside, true), Told::Conflict, 0),
    Step::Ask(Asked::Range(4, Place::Before, true), Told::Granted, 0),
    Step::Counts(2, 0, 0),
];

/// Several locks of one request are all held, or none is.
const SEVERAL: &[Step] = &[
    Step::Ask(Asked::Three(3, 5), Told::Conflict, 0),
    Step::Counts(0, 0, 0),
    Step::Ask(Asked::Three(3, 40), Told::Granted, 0),
    Step::Counts(3, 0, 0),
    Step::Ask(Asked::Three(3, 60), Told::Conflict, 0),
    Step::Counts(3, 0, 0),
];

/// An NLM caller's lock stops an open's of a common byte, and no other of its ranges.
const TWO_PROTOCOLS: &[Step] = &[
    Step::Ask(Asked::Lock(1, b'a'), Told::Granted, 0),
    Step::Ask(Asked::Range(3, Place::Across, true), Told::Conflict, 0),
    Step::Ask(Asked::Range(3, Place::Inside, true), Told::Granted, 0),
    Step::Ask(Asked::Range(3, Place::Behind, true), Told::Granted, 0),
    Step::Counts(3, 2, 0),
];

/// An open's share stands against another's until its own next one takes its place, or it ends.
const SHARES: &[Step] = &[
    Step::Ask(Asked::Share(1, READ, WRITE), Told::Granted, 0),
    Step::Ask(Asked::Share(2, WRITE, NONE), Told::Against(1), 0),
    Step::Ask(Asked::Share(1, READ, READ), Told::Granted, 0),
    Step::Ask(Asked::Share(2, WRITE, NONE), Told::Granted, 0),
    Step::Ask(Asked::Share(3, READ, NONE), Told::Against(1), 0),
    Step::Leaves(Party::Open(1), 0),
    Step::Ask(Asked::Share(3, READ, NONE), Told::Granted, 0),
    Step::Counts(2, 0, 0),
    Step::Counter(0),
];

/// Leases end at their last moment, in the order of the id strings, and the clock doesn't go back (RFC 7530 9.5).
const LEASES: &[Step] = &[
    Step::Renews(b'b'),
    Step::Renews(b'a'),
    Step::Reads(106, 0),
    Step::Expire(107, b"ab"),
    Step::Reads(50, 0),
    Step::Clock(107),
];

/// What a client has goes with its lease, and not before; a lease that is renewed runs on. The clock begins at 0.
const GOES_WITH_LEASE: &[Step] = &[
    Step::Ask(Asked::ClientShare(b'c'), Told::Granted, 0),
    Step::Renews(b'c'),
    Step::Reads(99, 0),
    Step::Renews(b'c'),
    Step::Reads(198, 0),
    Step::Counts(1, 2, 0),
    Step::Reads(199, 1),
    Step::Counts(0, 2, 0),
];

/// Who waits on two files has a turn on each once the one who holds both leaves.
const TURNS: &[Step] = &[
    Step::Ask(Asked::Lock(1, b'a'), Told::Granted, 0),
    Step::Ask(Asked::Lock(2, b'a'), Told::Granted, 0),
    Step::Ask(Asked::Lock(1, b'b'), Told::Queued, 0),
    Step::Ask(Asked::Lock(2, b'b'), Told::Queued, 0),
    Step::Turn(0),
    Step::Leaves(Party::Name(Protocol::Nlm, 1), 0),
    Step::Turn(1),
    Step::Turn(2),
    Step::Turn(0),
];

/// The first open gets its oplock, the second waits for the answer to its break. The only answer that counts is one by which no
/// more is left than goes beside the second, which has its turn then, with what goes beside the first (MS-SMB2 3.3.4.6,
/// 3.3.5.9, 3.3.5.22).
const ANSWERED: &[Step] = &[
    Step::Ask(Asked::Oplock(1, NONE), Told::Granted, 0),
    Step::Has(Party::Open(1), "RWH"),
    Step::Ask(Asked::OplockThatWaits(2), Told::Queued, 1),
    Step::Has(Party::Open(1), "RWH breaks"),
    Step::Turn(0),
    Step::Answers(1, Some(CacheKind::RH), false),
    Step::Answers(1, Some(CacheKind::R), true),
    Step::Turn(1),
    Step::Has(Party::Open(1), "R"),
    Step::Has(Party::Open(2), "R"),
];

/// An open's lock ends the cache of another with its notice, so that it is granted at once; its own it keeps.
const ENDS_AT_ONCE: &[Step] = &[
    Step::Ask(Asked::Oplock(1, NONE), Told::Granted, 0),
    Step::Ask(Asked::OplockThatWaits(2), Told::Queued, 1),
    Step::Answers(1, Some(CacheKind::R), true),
    Step::Turn(1),
    Step::Ask(Asked::Range(1, Place::Whole, true), Told::Granted, 1),
    Step::Has(Party::Open(1), "R"),
    Step::Has(Party::Open(2), "-"),
];

/// Who waits for a cache has a turn once it is given back.
const GIVEN_BACK: &[Step] = &[
    Step::Ask(Asked::Oplock(1, NONE), Told::Granted, 0),
    Step::Ask(Asked::OplockThatWaits(2), Told::Queued, 1),
    Step::Turn(0),
    Step::GivesBack(Party::Open(1)),
    Step::Turn(1),
];

/// Two that don't wait are answered with the cache, whose break the first of them begins; it is over at its deadline,
/// not before.
const OVER: &[Step] = &[
    Step::Ask(Asked::Oplock(1, NONE), Told::Granted, 0),
    Step::Ask(Asked::Oplock(2, NONE), Told::Recall, 1),
    Step::Ask(Asked::Oplock(3, NONE), Told::Recall, 0),
    Step::Reads(16, 0),
    Step::Has(Party::Open(1), "RWH breaks"),
    Step::Reads(17, 0),
    Step::Has(Party::Open(1), "-"),
    Step::Ask(Asked::Oplock(2, NONE), Told::Granted, 0),
];

/// A lock breaks the oplock for good. The only answer that counts is one by which nothing is left; the lock is granted then.
const GIVES_WAY: &[Step] = &[
    Step::Ask(Asked::Oplock(1, NONE), Told::Granted, 0),
    Step::Ask(Asked::Lock(1, b'a'), Told::Queued, 1),
    Step::Answers(1, Some(CacheKind::R), false),
    Step::Answers(1, None, true),
    Step::Turn(1),
    Step::Has(Party::Open(1), "-"),
];

/// A second open waits for the first, which denies it whatever it answers. A wish gets nothing beside another who waits, and
/// its oplock once nobody does.
const STANDS_BACK: &[Step] = &[
    Step::Ask(Asked::Oplock(1, BOTH), Told::Granted, 0),
    Step::Ask(Asked::OplockThatWaits(2), Told::Queued, 1),
    Step::Answers(1, None, true),
    Step::Turn(0),
    Step::Ask(Asked::Wish(1), Told::Granted, 0),
    Step::Has(Party::Open(1), "-"),
    Step::Leaves(Party::Open(2), 1),
    Step::Ask(Asked::Wish(1), Told::Granted, 0),
    Step::Has(Party::Open(1), "RWH"),
];

/// A caller is answered with the least limit that its wait would pass, and no break begins; if the limit has room it
/// waits, and the break begins.
const LIMITS: &[Step] = &[
    Step::Ask(Asked::Oplock(1, NONE), Told::Granted, 0),
    Step::AskInVain(Asked::HostShare(b'a'), Told::Full, 0),
    Step::Has(Party::Open(1), "RWH"),
    Step::Ask(Asked::HostShare(b'a'), Told::Queued, 1),
    Step::Has(Party::Open(1), "RWH breaks"),
];

/// A client gets its delegation, which another's open recalls; it expires at the deadline, not before, if it doesn't
/// return it (RFC 7530 10.4).
const RECALLED: &[Step] = &[
    Step::Ask(Asked::Delegation(b'c'), Told::Granted, 0),
    Step::Has(Party::Name(Protocol::Nfs, 1), "write"),
    Step::Ask(Asked::Oplock(1, NONE), Told::Recall, 1),
    Step::Reads(16, 0),
    Step::Has(Party::Name(Protocol::Nfs, 1), "write breaks"),
    Step::Reads(17, 1),
    Step::Counts(0, 2, 0),
];

/// The moment at which the clock begins, and the steps.
const CASES: [(u64, &[Step]); 16] = [
    (7, NEW),
    (7, ONE_OPEN),
    (7, SEVERAL),
    (7, TWO_PROTOCOLS),
    (7, SHARES),
    (7, LEASES),
    (0, GOES_WITH_LEASE),
    (7, TURNS),
    (7, ANSWERED),
    (7, ENDS_AT_ONCE),
    (7, GIVEN_BACK),
    (7, OVER),
    (7, GIVES_WAY),
    (7, STANDS_BACK),
    (7, LIMITS),
    (7, RECALLED),
];

#[test]
fn calls(rt: HostRuntime) -> Result<(), Fail> {
    for (case, (moment, steps)) in CASES.iter().enumerate() {
        let start = Start {
            moment: *moment,
            clients: b"",
            callers: b"",
            marked: &[],
            failing: &[],
        };
        let wrong = wrong_from(rt.alloc(), &start, &[steps])?;
        assert!(rt; wrong.is_none(), "{case}: {wrong:?}");
    }
    Ok(())
}
