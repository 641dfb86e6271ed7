//! The line of those who wait: who comes, and who goes from where.
ghost use Rattle.std.specs.Prelude.{◌≡◌, ◌∷◌, ◌++◌, ◌+◌, ◌≤◌, ◌<◌, [], length, slice_get, option_copied, OnOk, OnErr};
ghost use Rattle.std.specs.List.{remove};
ghost use Rattle.xl_base.specs.Limits.{most_waiters};
ghost use Rattle.xl_wait.specs.Lines.{standing, last_first, IsLine};
ghost use Rattle.xl_wait.specs.Waiting.{places_in, waiting_on};

use crate::files::{Queues, enter_place, first_file, leave_place, pass_place, places_on};
use crate::waiter::Waiter;
use std::alloc::{AllocError, Global};
use std::collections::BTreeMap;

/// The last place that the first of them has, before places are counted from it on.
const LAST_FIRST: usize = 1 << 32;

/// Those who wait, in order of arrival. Who goes from the front keeps its room until as many went as wait, so that nobody behind
/// moves at each such turn.
#[derive(Drop)]
pub(crate) struct Line {
    /// Those who went from the front, and behind them those who wait.
    pub all: Vec<Waiter>,
    /// How many of them went.
    pub gone: usize,
    /// The place of the first who waits. Each other's is one above that of the one before it.
    pub first: usize,
    /// The queue of each file on which some of them wait: their places.
    pub queues: Queues,
}

/// The line where nobody waits; it takes no memory.
pub(crate) fn empty(alloc: Global) -> Line
    ensures standing { standing result ≡ [] }
    ensures line { IsLine result }
{
    Line {
        all: Vec::new(alloc),
        gone: 0,
        first: 0,
        queues: BTreeMap::new(alloc),
    }
}

/// Those who wait.
pub(crate) fn standing(line: &Line) -> &[Waiter]
    requires line { IsLine line.now }
    ensures { result.now ≡ standing line.now }
{
    &line.all[line.gone..]
}

/// The one who waits behind so many others; None exactly if no more wait.
pub(crate) fn nth(line: &Line, count: usize) -> Option<&Waiter>
    requires line { IsLine line.now }
    ensures { option_copied result ≡ slice_get (standing line.now) count }
{
    standing(line).get(count)
}

/// The place that stands behind so many others in the queue of this file.
fn nth_place(line: &Line, file: u32, count: usize) -> Option<usize>
    ensures { result ≡ slice_get (places_in line.now.queues file) count }
{
    places_on(&line.queues, file).get(count).copied()
}

/// The one who waits on this file behind so many others; None exactly if no more wait there.
pub(crate) fn nth_on(line: &Line, file: u32, count: usize) -> Option<&Waiter>
    requires line { IsLine line.now }
    ensures { option_copied result ≡ slice_get (waiting_on file (standing line.now)) count }
{
    let Some(place) = nth_place(line, file, count) else {
        return None;
    };
    nth(line, place.saturating_sub(line.first))
}

/// Enters a waiter behind the others. After an error the same wait as before.
pub(crate) fn enter(line: &mut Line, waiter: Waiter) -> Result<(), AllocError>
    requires line { IsLine line.old }
    requires few { length (standing line.old) ≤ most_waiters }
    ensures ok { OnOk result (standing line.new ≡ standing line.old ++ waiter ∷ []) }
    ensures err { OnErr result (standing line.new ≡ standing line.old) }
    ensures line { IsLine line.new }
{
    let alloc = *line.all.allocator();
    let file = first_file(waiter.asked.as_slice());
    line.all.reserve(1)?;
    let place = line.first + (line.all.len() - line.gone);
    enter_place(alloc, &mut line.queues, file, place)?;
    line.all.push_reserved(waiter);
    Ok(())
}

/// Drops those who went.
pub(crate) fn drop_gone(line: &mut Line)
    requires within { line.old.gone ≤ length line.old.all.items }
    ensures all { line.new.all.items ≡ standing line.old }
    ensures none { line.new.gone ≡ 0 }
    ensures rest { (line.new.first ≡ line.old.first) × (line.new.queues ≡ line.old.queues) }
{
    line.all.drain(..line.gone);
    line.gone = 0;
}

/// Drops those who went, if they are as many as those who wait.
fn close_gap(line: &mut Line)
    requires within { line.old.gone ≤ length line.old.all.items }
    ensures standing { standing line.new ≡ standing line.old }
    ensures within { line.new.gone ≤ length line.new.all.items }
    ensures few { line.new.gone ≤ length (standing line.new) }
    ensures rest { (line.new.first ≡ line.old.first) × (line.new.queues ≡ line.old.queues) }
{
    if line.gone >= line.all.len() - line.gone {
        drop_gone(line);
    }
}

/// The first of them goes; nobody else moves.
fn pass_first(line: &mut Line)
    requires line { IsLine line.old }
    requires some { 0 < length (standing line.old) }
    requires early { line.old.first < last_first }
    ensures standing { standing line.new ≡ remove (standing line.old) 0 }
    ensures line { IsLine line.new }
{
    let alloc = *line.all.allocator();
    let file = first_file(line.all[line.gone].asked.as_slice());
    pass_place(alloc, &mut line.queues, file);
    line.gone += 1;
    line.first += 1;
    close_gap(line);
}

/// Who stands behind so many others goes, and those behind come one nearer.
fn leave_at(line: &mut Line, count: usize)
    requires line { IsLine line.old }
    requires few { length (standing line.old) ≤ most_waiters }
    requires count { count < length (standing line.old) }
    ensures standing { standing line.new ≡ remove (standing line.old) count }
    ensures line { IsLine line.new }
{
    let alloc = *line.all.allocator();
    let waiter = line.all.remove(line.gone + count);
    let file = first_file(waiter.asked.as_slice());
    leave_place(alloc, &mut line.queues, file, line.first + count);
    close_gap(line);
}

/// The same; the first goes without moving the others.
pub(crate) fn leave(line: &mut Line, count: usize)
    requires line { IsLine line.old }
    requires few { length (standing line.old) ≤ most_waiters }
    requires count { count < length (standing line.old) }
    ensures standing { standing line.new ≡ remove (standing line.old) count }
    ensures line { IsLine line.new }
{
    if count == 0 && line.first < LAST_FIRST {
        pass_first(line);
    } else {
        leave_at(line, count);
    }
}
