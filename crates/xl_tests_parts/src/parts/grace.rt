//! Grace after a start.

use super::{next, number};
use std::alloc::{AllocError, Global};
use std::str::Split;
use xl_base::{Mark, Moment, Protocol, Record, Recorded, Sequence};
use xl_grace::{Admission, Grace};

/// The mark of this protocol that is made of the word's byte; none for no word.
fn mark_of(protocol: Protocol, word: &str) -> Option<Mark> {
    let byte = word.as_bytes().first()?;
    Some(match protocol {
        Protocol::Nfs => Mark::Verifier([*byte; 8]),
        _ => Mark::State([*byte; 4]),
    })
}

/// A name by its protocol and itself, with its mark behind a plus if it has one.
fn name_in(alloc: Global, words: &mut Split<'_, char>) -> Result<Recorded, AllocError> {
    let protocol = match next(words) {
        "nfs" => Protocol::Nfs,
        _ => Protocol::Nlm,
    };
    let word = next(words);
    let (name, mark) = word.split_once('+').unwrap_or((word, ""));
    Ok(Recorded {
        protocol,
        name: Sequence::from_slice(alloc, name.as_bytes())?,
        mark: mark_of(protocol, mark),
    })
}

fn is_admission(admission: Admission, words: &mut Split<'_, char>) -> bool {
    match (admission, next(words)) {
        (Admission::Enters, "enters") => true,
        (Admission::NoGrace, "none") => true,
        (Admission::NotRecorded, "unrecorded") => true,
        (Admission::Grace(end), word) => end.0 == number(word),
        _ => false,
    }
}

/// The names that the record would have, one after the other, each behind a blank.
fn are_kept(alloc: Global, grace: &Grace, stable: &Record, want: &str) -> Result<bool, AllocError> {
    let shorter = grace.shorter(alloc, stable)?;
    let mut names = String::new(alloc);
    for name in shorter.names() {
        for byte in name.name.as_slice() {
            names.push(char::from(*byte))?;
        }
    }
    Ok(names.as_str() == want && shorter.epoch() == stable.epoch())
}

/// What is asked of the grace, and what comes of it. An ask: the protocol and the name, whether it reclaims, and what becomes
/// of it, of Grace its end. What ends: the moment, and whether it does. What is kept: the names of the record to be stored.
const STEPS: &str = "\
ask nfs c true enters
ask nfs c+7 true enters
ask nlm a true enters
ask nlm a+3 true enters
ask nlm a+5 true unrecorded
ask nlm a+5 false 150
ask nlm c true unrecorded
ask nlm c+3 true unrecorded
ask nfs c false 150
ask nlm x false 150
kept 
back nfs c false
reclaimed nfs c
reclaimed nfs c
reclaimed nlm x
back nfs c true
back nlm a false
ask nfs c true enters
kept c
reclaimed nlm a+5
reclaimed nlm b
kept cab
expired nlm a
ask nlm a true unrecorded
ask nlm a+3 true unrecorded
reclaimed nlm a
back nlm a false
kept cb
over 149 false
end 149 false
ask nlm b true enters
over 150 true
ask nlm b true enters
end 150 true
over 150 false
ask nlm b true none
ask nfs c true none
ask nfs c false enters
back nfs c false
end 151 false";

fn is_step(
    alloc: Global,
    stable: &Record,
    grace: &mut Grace,
    row: &str,
) -> Result<bool, AllocError> {
    let mut words = row.split(' ');
    match next(&mut words) {
        "over" => Ok(
            grace.is_over(Moment(number(next(&mut words)))) == (next(&mut words) == "true"),
        ),
        "end" => Ok(grace.end(Moment(number(next(&mut words)))) == (next(&mut words) == "true")),
        "kept" => are_kept(alloc, grace, stable, next(&mut words)),
        step => is_named_step(alloc, grace, step, &mut words),
    }
}

fn is_named_step(
    alloc: Global,
    grace: &mut Grace,
    step: &str,
    words: &mut Split<'_, char>,
) -> Result<bool, AllocError> {
    let name = name_in(alloc, words)?;
    match step {
        "reclaimed" => grace.reclaimed(&name),
        "expired" => grace.expired(&name),
        "back" => return Ok(grace.is_back(&name) == (next(words) == "true")),
        _ => {
            let reclaim = next(words) == "true";
            return Ok(is_admission(grace.may_enter(&name, reclaim), words));
        }
    }
    Ok(true)
}

fn are_steps(alloc: Global, stable: &Record) -> Result<bool, AllocError> {
    let mut grace = Grace::start(alloc, stable, Moment(100), 50)?;
    for row in STEPS.lines() {
        if !is_step(alloc, stable, &mut grace, row)? {
            return Ok(false);
        }
    }
    Ok(!grace.runs())
}

/// The record of these names.
fn record_of(alloc: Global, names: &str) -> Result<Record, AllocError> {
    let mut stable = Record::new(alloc);
    stable.set_epoch(7);
    for row in names.lines() {
        let name = name_in(alloc, &mut row.split(' '))?;
        if stable.add(name).is_err() {
            return Err(AllocError);
        }
    }
    Ok(stable)
}

fn goes_on(alloc: Global) -> Result<bool, AllocError> {
    let stable = record_of(alloc, "nfs c\nnlm a+3\nnlm b")?;
    are_steps(alloc, &stable)
}

/// Where grace begins, how long it is, a moment before it may end, and the moment from which on it may.
const ENDS: [(u64, u64, u64, u64); 4] = [
    (0, 90_000, 89_999, 90_000),
    (7, 1, 7, 8),
    (u64::MAX - 1, 50, u64::MAX - 1, u64::MAX),
    (1, u64::MAX, u64::MAX - 1, u64::MAX),
];

fn is_end(alloc: Global, stable: &Record, row: &(u64, u64, u64, u64)) -> Result<bool, AllocError> {
    let (now, length, before, end) = row;
    let mut grace = Grace::start(alloc, stable, Moment(*now), *length)?;
    Ok(!grace.end(Moment(*before)) && grace.runs() && grace.end(Moment(*end)) && !grace.runs())
}

fn are_ends(alloc: Global) -> Result<bool, AllocError> {
    let stable = record_of(alloc, "nfs c")?;
    for row in &ENDS {
        if !is_end(alloc, &stable, row)? {
            return Ok(false);
        }
    }
    Ok(true)
}

/// With an empty record none runs, and who asks anew enters at once.
fn is_none(alloc: Global) -> Result<bool, AllocError> {
    let stable = record_of(alloc, "")?;
    let grace = Grace::start(alloc, &stable, Moment(0), 50)?;
    let name = name_in(alloc, &mut "nfs c".split(' '))?;
    Ok(
        !grace.runs()
            && matches!(grace.may_enter(&name, true), Admission::NoGrace)
            && matches!(grace.may_enter(&name, false), Admission::Enters),
    )
}

#[test]
fn grace_runs_and_ends(rt: HostRuntime) {
    assert!(rt; matches!(goes_on(rt.alloc()), Ok(true)));
    assert!(rt; matches!(are_ends(rt.alloc()), Ok(true)));
    assert!(rt; matches!(is_none(rt.alloc()), Ok(true)));
}
