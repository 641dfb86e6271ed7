//! Ranges are granted in the order in which they were asked for.

use super::asks::{Asked, Place};
use super::steps::{Start, Step, Told, wrong_from};
use std::alloc::{AllocError, Global};
use std::test::Fail;
use xl_base::{Party, Protocol};

const SHARED: bool = false;

const EXCLUSIVE: bool = true;

const WAITS: bool = true;

const AT_ONCE: bool = false;

const START: Start = Start {
    moment: 7,
    clients: b"",
    callers: b"",
    marked: &[],
    failing: &[],
};

/// A reader that comes later doesn't pass a writer that waits, though it is told by a test that nothing is held against it. It
/// waits behind the writer, and has its turn once that unlocks.
const BEHIND_A_WRITER: &[Step] = &[
    Step::Ask(
        Asked::Bytes(b'a', Place::Whole, SHARED, AT_ONCE),
        Told::Granted,
        0,
    ),
    Step::Ask(
        Asked::Bytes(b'b', Place::Whole, EXCLUSIVE, WAITS),
        Told::Queued,
        0,
    ),
    Step::Ask(
        Asked::Bytes(b'c', Place::Whole, SHARED, AT_ONCE),
        Told::Conflict,
        0,
    ),
    Step::Ask(Asked::SharedTest(b'c'), Told::Granted, 0),
    Step::Ask(
        Asked::Bytes(b'c', Place::Whole, SHARED, WAITS),
        Told::Queued,
        0,
    ),
    Step::Turn(0),
    Step::Ask(Asked::Free(b'a', Place::Whole), Told::Granted, 0),
    Step::Turn(1),
    Step::Turn(0),
    Step::Ask(Asked::Free(b'b', Place::Whole), Told::Granted, 0),
    Step::Turn(2),
    Step::Turn(0),
    Step::Counts(1, 6, 0),
];

/// Who is waited for goes ahead of who waits for it.
const WAITED_FOR: &[Step] = &[
    Step::Ask(
        Asked::Bytes(b'a', Place::Whole, SHARED, AT_ONCE),
        Told::Granted,
        0,
    ),
    Step::Ask(
        Asked::Bytes(b'b', Place::Whole, EXCLUSIVE, WAITS),
        Told::Queued,
        0,
    ),
    Step::Ask(
        Asked::Bytes(b'a', Place::Across, SHARED, AT_ONCE),
        Told::Granted,
        0,
    ),
    Step::Ask(
        Asked::Bytes(b'a', Place::Start, EXCLUSIVE, AT_ONCE),
        Told::Granted,
        0,
    ),
    Step::Turn(0),
];

/// So it is for an open's lock, and only as long as the one in front waits: once that cancels, or its party leaves, who waited for
/// it has its turn. Bytes that nobody in front asks for are granted, and so is a share.
const IN_FRONT_NO_MORE: &[Step] = &[
    Step::Ask(
        Asked::Bytes(b'a', Place::Whole, SHARED, AT_ONCE),
        Told::Granted,
        0,
    ),
    Step::Ask(
        Asked::Bytes(b'b', Place::Whole, EXCLUSIVE, WAITS),
        Told::Queued,
        0,
    ),
    Step::Ask(Asked::Range(3, Place::Start, SHARED), Told::Conflict, 0),
    Step::Ask(Asked::Range(3, Place::Behind, SHARED), Told::Granted, 0),
    Step::Ask(Asked::HostShare(b'd'), Told::Granted, 0),
    Step::Ask(
        Asked::Bytes(b'c', Place::Start, SHARED, WAITS),
        Told::Queued,
        0,
    ),
    Step::Turn(0),
    Step::Cancels(1),
    Step::Turn(2),
    Step::Turn(0),
    Step::Ask(Asked::Range(3, Place::Start, SHARED), Told::Granted, 0),
    Step::Ask(
        Asked::Bytes(b'b', Place::Whole, EXCLUSIVE, WAITS),
        Told::Queued,
        0,
    ),
    Step::Ask(
        Asked::Bytes(b'd', Place::Whole, SHARED, WAITS),
        Told::Queued,
        0,
    ),
    Step::Turn(0),
    Step::Leaves(Party::Name(Protocol::Nlm, 3), 1),
    Step::Turn(4),
    Step::Turn(0),
];

#[test]
fn ranges_in_order(rt: HostRuntime) -> Result<(), Fail> {
    for (case, steps) in [BEHIND_A_WRITER, WAITED_FOR, IN_FRONT_NO_MORE]
        .iter()
        .enumerate()
    {
        let wrong = wrong_from(rt.alloc(), &START, &[steps])?;
        assert!(rt; wrong.is_none(), "{case}: {wrong:?}");
    }
    Ok(())
}

/// One who asks for the ten bytes, and who waits then.
fn asks(caller: u8, exclusive: bool, waits: bool) -> Step {
    let told = if waits { Told::Queued } else { Told::Granted };
    Step::Ask(
        Asked::Bytes(caller, Place::Whole, exclusive, WAITS),
        told,
        0,
    )
}

/// The owner `a` holds the ten bytes in this mode; then two others ask for them, one after the other, each in its mode; then `a`
/// unlocks, and then each of the two, the first first.
fn wrong_for(
    alloc: Global,
    held: bool,
    first: (u8, bool),
    second: (u8, bool),
) -> Result<Option<(usize, usize)>, AllocError> {
    let first_waits = held || first.1;
    let second_waits = held || first.1 || second.1;
    // the numbers under which they wait
    let number = if first_waits { 1 } else { 0 };
    let behind = if second_waits { number + 1 } else { 0 };
    // once `a` unlocked the first has what it asked for, and the second too, if both read
    let both_read = !first.1 && !second.1;
    let then = if both_read { behind } else { 0 };
    let last = if both_read { 0 } else { behind };
    let steps = [
        asks(b'a', held, false),
        asks(first.0, first.1, first_waits),
        asks(second.0, second.1, second_waits),
        Step::Turn(0),
        Step::Ask(Asked::Free(b'a', Place::Whole), Told::Granted, 0),
        Step::Turn(number),
        Step::Turn(then),
        Step::Turn(0),
        Step::Ask(Asked::Free(first.0, Place::Whole), Told::Granted, 0),
        Step::Turn(last),
        Step::Turn(0),
        Step::Ask(Asked::Free(second.0, Place::Whole), Told::Granted, 0),
        Step::Turn(0),
        Step::Counts(0, 6, 0),
    ];
    wrong_from(alloc, &START, &[&steps])
}

/// Three owners, each pair of modes, and either of the two first.
#[test]
fn three_owners(rt: HostRuntime) -> Result<(), Fail> {
    for held in [SHARED, EXCLUSIVE] {
        for (first, second) in [
            (SHARED, SHARED),
            (SHARED, EXCLUSIVE),
            (EXCLUSIVE, SHARED),
            (EXCLUSIVE, EXCLUSIVE),
        ] {
            let wrong = wrong_for(rt.alloc(), held, (b'b', first), (b'c', second))?;
            assert!(rt;
                wrong.is_none(),
                "b first, {held} {first} {second}: {wrong:?}"
            );
            let wrong = wrong_for(rt.alloc(), held, (b'c', second), (b'b', first))?;
            assert!(rt;
                wrong.is_none(),
                "c first, {held} {second} {first}: {wrong:?}"
            );
        }
    }
    Ok(())
}
