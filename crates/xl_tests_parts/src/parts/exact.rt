//! The byte ranges that one SMB open has locked in one file.

use super::{next, number};
use std::alloc::{AllocError, Global};
use std::str::Split;
use xl_exact::{Element, Exact};

/// What is done, one row after the other, and what is answered: `lock` asks for a range of the open itself and locks it
/// if nothing of its own stands against it; `other` asks for another open; `unlock` and `undo` take out; `held` gives
/// the element at a place; `new` begins with no ranges, and `#` begins a remark.
const ROWS: &str = "\
# Only the very range is unlocked.
lock x 0 10 yes
unlock 0 5 no
unlock 1 9 no
unlock 0 11 no
unlock 0 10 yes
unlock 0 10 no
# A shared range is stacked on an exclusive one of the same open; the exclusive one goes first.
lock x 0 10 yes
lock s 0 10 yes
lock x 0 10 no
other s 0 10 no
unlock 0 10 yes
held s 0 10 0
other s 0 10 yes
other x 9 1 no
unlock 0 10 yes
unlock 0 10 no
# A range without a byte meets what lies on both sides of it.
lock x 0 10 yes
other x 5 0 no
other s 5 0 no
other x 0 0 yes
other x 10 0 yes
other x 9 0 no
lock x 5 0 no
lock s 5 0 yes
unlock 0 10 yes
other x 5 1 yes
other x 4 1 yes
other x 4 2 no
other s 4 2 yes
other x 5 0 yes
# Two of them don't meet. The exclusive one goes first, though it came last.
lock x 5 0 yes
unlock 5 0 yes
held s 5 0 0
new
# The last byte, and the longest ranges.
lock x 18446744073709551615 1 yes
other x 0 18446744073709551615 yes
other s 1 18446744073709551615 no
lock s 0 18446744073709551615 yes
held x 18446744073709551615 1 0
held s 0 18446744073709551615 1
# The last locks are taken back.
lock s 3 4 yes
lock s 3 4 yes
undo 2 yes
unlock 3 4 no
undo 3 no
held s 0 18446744073709551615 1
undo 2 yes";

fn is_exclusive(word: &str) -> bool {
    word == "x"
}

fn is_range(first: u64, len: u64) -> bool {
    len == 0 || len - 1 <= u64::MAX - first
}

/// Locks a range that nothing of the open itself stands against.
fn lock(exact: &mut Exact, first: u64, len: u64, exclusive: bool) -> Result<bool, AllocError> {
    exact.reserve(1)?;
    if exact.first_own_conflict(first, len, exclusive).is_some() {
        return Ok(false);
    }
    if len == 0 || len - 1 <= u64::MAX - first {
        exact.lock(first, len, exclusive);
    }
    Ok(is_range(first, len))
}

fn is_same(element: &Element, first: u64, len: u64, exclusive: bool) -> bool {
    element.first == first && element.len == len && element.exclusive == exclusive
}

fn is_held(exact: &Exact, element: &Element, place: usize) -> bool {
    match exact.elements().get(place) {
        Some(held) => is_same(held, element.first, element.len, element.exclusive),
        None => false,
    }
}

fn undo(exact: &mut Exact, k: usize) -> bool {
    if exact.len() < k {
        return false;
    }
    exact.undo(k);
    true
}

fn is_element_held(exact: &Exact, element: &Element, words: &mut Split<'_, char>) -> bool {
    is_held(exact, element, number(next(words)) as usize)
}

fn element(words: &mut Split<'_, char>) -> Element {
    Element {
        exclusive: is_exclusive(next(words)),
        first: number(next(words)),
        len: number(next(words)),
    }
}

/// What the act answers, with what a row tells of it.
fn is_done(exact: &mut Exact, act: &str, words: &mut Split<'_, char>) -> bool {
    match act {
        "undo" => undo(exact, number(next(words)) as usize),
        "unlock" => exact.unlock(number(next(words)), number(next(words))),
        _ => is_asked(exact, act, &element(words), words),
    }
}

/// What an act on this range answers.
fn is_asked(exact: &mut Exact, act: &str, of: &Element, words: &mut Split<'_, char>) -> bool {
    match act {
        "lock" => matches!(lock(exact, of.first, of.len, of.exclusive), Ok(true)),
        "other" => exact
            .first_conflict(of.first, of.len, of.exclusive)
            .is_none(),
        _ => is_element_held(exact, of, words),
    }
}

/// Whether one row's act answers as the row says; of `held` a row says no more.
fn is_act(exact: &mut Exact, row: &str) -> bool {
    let mut words = row.split(' ');
    let act = next(&mut words);
    is_done(exact, act, &mut words) == (act == "held" || next(&mut words) == "yes")
}

fn begins_anew(alloc: Global, exact: &mut Exact) -> bool {
    *exact = Exact::new(alloc);
    exact.is_empty() && exact.spare() == 0
}

fn passes(alloc: Global, exact: &mut Exact, row: &str) -> bool {
    if row.starts_with('#') {
        return true;
    }
    if row == "new" {
        return begins_anew(alloc, exact);
    }
    is_act(exact, row)
}

/// The first row that is answered otherwise.
fn wrong_row(alloc: Global, exact: &mut Exact) -> Option<&'static str> {
    for row in ROWS.lines() {
        if !passes(alloc, exact, row) {
            return Some(row);
        }
    }
    None
}

/// Whether nothing is left at the end.
fn is_ended(exact: Exact) -> bool {
    exact.into_vec().is_empty()
}

#[test]
fn exact_ranges_answer_as_the_rows_say(rt: HostRuntime) {
    let mut exact = Exact::from_vec(Vec::new(rt.alloc()));
    let wrong = wrong_row(rt.alloc(), &mut exact);
    assert!(rt; wrong.is_none() && is_ended(exact), "{wrong:?}");
}
