//! Who is taken out of the line, by number.
ghost use Rattle.std.specs.Prelude.{◌≡◌, ◌≤◌, [], length, OnOk, OnErr};
ghost use Rattle.xl_base.specs.Limits.{most_waiters};
ghost use Rattle.xl_wait.specs.Lines.{standing, IsLine};
ghost use Rattle.xl_wait.specs.Waiting.{is_waiting, cancelled, is_first, rest_of, without_all};

use crate::line::{Line, drop_gone, enter, leave, standing};
use crate::listing::find_waiter;
use crate::waiter::Waiter;
use std::alloc::AllocError;
use std::collections::BTreeMap;
use std::mem;

/// Takes out the first waiter of this number; false if none has it.
pub(crate) fn take_out(line: &mut Line, id: u32) -> bool
    requires line { IsLine line.old }
    requires few { length (standing line.old) ≤ most_waiters }
    ensures waiting { result ≡ is_waiting id (standing line.old) }
    ensures after { standing line.new ≡ cancelled id (standing line.old) }
    ensures fewer { length (standing line.new) ≤ length (standing line.old) }
    ensures line { IsLine line.new }
{
    match find_waiter(standing(line), id) {
        Some(count) => {
            leave(line, count);
            true
        }
        None => false,
    }
}

/// Whether the first of these numbers is this one.
fn is_first(id: u32, ids: &[u32]) -> bool
    ensures { result ≡ is_first id ids.now }
{
    match ids {
        [first, ..] => id == *first,
        [] => false,
    }
}

/// The numbers behind the first.
fn rest_of(ids: &[u32]) -> &[u32]
    ensures { result.now ≡ rest_of ids.now }
{
    match ids {
        [_, rest @ ..] => rest,
        [] => ids,
    }
}

/// Enters those of these waiters whose numbers aren't listed, in one pass: the numbers stand in the waiters' order.
fn enter_others(line: &mut Line, all: Vec<Waiter>, ids: &[u32]) -> Result<(), AllocError>
    requires none { standing line.old ≡ [] }
    requires line { IsLine line.old }
    requires few { length all.items ≤ most_waiters }
    ensures ok { OnOk result (standing line.new ≡ without_all ids.now all.items) }
    ensures fewer { length (standing line.new) ≤ length all.items }
    ensures line { IsLine line.new }
{
    let mut left = ids;
    'all: for waiter in all {
        if is_first(waiter.id, left) {
            left = rest_of(left);
        } else {
            enter(line, waiter)?;
        }
    }
    Ok(())
}

/// Takes out the waiters of these numbers, which stand in the waiters' order, in one pass.
fn pass_through(line: &mut Line, ids: &[u32]) -> Result<(), AllocError>
    requires line { IsLine line.old }
    requires few { length (standing line.old) ≤ most_waiters }
    ensures ok { OnOk result (standing line.new ≡ without_all ids.now (standing line.old)) }
    ensures fewer { length (standing line.new) ≤ length (standing line.old) }
    ensures line { IsLine line.new }
{
    let alloc = *line.all.allocator();
    drop_gone(line);
    let all = mem::replace(&mut line.all, Vec::new(alloc));
    line.first = 0;
    line.queues = BTreeMap::new(alloc);
    enter_others(line, all, ids)?;
    Ok(())
}

/// The same; one alone is taken out where it stands.
#[tactic(auto, using(crate::proofs::PassLaws::none_go, crate::proofs::PassLaws::one_goes))]
pub(crate) fn take_all_out(line: &mut Line, ids: &[u32]) -> Result<(), AllocError>
    requires line { IsLine line.old }
    requires few { length (standing line.old) ≤ most_waiters }
    ensures ok { OnOk result (standing line.new ≡ without_all ids.now (standing line.old)) }
    ensures fewer { length (standing line.new) ≤ length (standing line.old) }
    ensures line { IsLine line.new }
{
    match ids {
        [] => {}
        [id] => {
            take_out(line, *id);
        }
        [_, _, ..] => pass_through(line, ids)?,
    }
    Ok(())
}
