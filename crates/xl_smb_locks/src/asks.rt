//! What the core is asked for an open's ranges.
ghost use Rattle.std.specs.Prelude.{◌≡◌, map, None, false, length, ◌≤◌, IfOk};
ghost use Rattle.std.specs.List.{list_any};
ghost use Rattle.xl_core.specs.Askers.{may_ask, IsFitAct};
ghost use Rattle.xl_core.specs.declared.ask.Who.TheVariants as who;
ghost use Rattle.xl_smb_locks.specs.Elements.{wraps, unlock_fault, lock_fault, any_waits};
ghost use Rattle.xl_smb_locks.specs.Locks.{range_ask, range_of, unlock_ask, lock_ask};
ghost use Rattle.xl_smb_locks.specs.Short.{IsOpenAsk};

use crate::elements::{any_waits, extent_of, is_exclusive};
use crate::levels::party_for;
use std::alloc::{AllocError, Global};
use xl_base::Sequence;
use xl_core::{Act, Ask, Who};
use xl_matrix::Extent;
use xl_smb::LockElement;
use xl_smb_state::Open;
use xl_wait::NO_ROWS;

/// An ask of the open of this number. It waits for answers to breaks in any case.
fn range_ask(
    alloc: Global,
    conn: Option<u64>,
    number: u32,
    row: &Open,
    act: Act,
    blocking: bool,
) -> Ask
    ensures { result ≡ range_ask conn number row.now act blocking }
{
    Ask {
        file: row.file,
        owner: Who::Open(number),
        party: party_for(number, row),
        act,
        wish: Sequence::new(alloc),
        conn,
        blocking,
        awaits: true,
        reclaim: false,
        monitored: false,
        mark: None,
        rows: NO_ROWS,
    }
}

/// What is asked for to unlock one range.
#[tactic(auto, unfolding(crate::specs::Locks::unlock_ask), using(crate::proofs::FitLaws::unlock_is))]
pub(crate) fn unlock_ask(alloc: Global, number: u32, row: &Open, element: &LockElement) -> Ask
    requires { wraps element.now ≡ false }
    ensures value { result ≡ unlock_ask number row.now element.now }
    ensures open { IsOpenAsk result }
{
    let act = Act::Unlock(extent_of(element));
    range_ask(alloc, None, number, row, act, false)
}

/// The ranges of locks, in order.
#[tactic(auto, using(crate::proofs::FitLaws::next_within))]
fn ranges_of(
    alloc: Global,
    elements: &[LockElement],
) -> Result<Sequence<(Extent, bool)>, AllocError>
    requires { list_any wraps elements.now ≡ false }
    ensures { IfOk result (λ ranges. ranges ≡ map range_of elements.now) }
{
    let mut ranges = Sequence::new(alloc);
    'elements: for element in elements {
        ranges.push((extent_of(element), is_exclusive(element)))?;
    }
    Ok(ranges)
}

/// What is asked for to lock all of these ranges, or none.
#[tactic(auto, unfolding(crate::specs::Locks::lock_ask), using(crate::proofs::FitLaws::lock_is, crate::proofs::FitLaws::none_wraps))]
pub(crate) fn lock_ask(
    alloc: Global,
    conn: u64,
    number: u32,
    row: &Open,
    elements: &[LockElement],
) -> Result<Ask, AllocError>
    requires sound { lock_fault elements.now ≡ None }
    requires some { 1 ≤ length elements.now }
    ensures value { IfOk result (λ ask. ask ≡ lock_ask conn number row.now elements.now) }
    ensures open { IfOk result (λ ask. IsOpenAsk ask) }
{
    let ranges = ranges_of(alloc, elements)?;
    let blocking = any_waits(elements);
    Ok(range_ask(
        alloc,
        Some(conn),
        number,
        row,
        Act::Ranges(ranges),
        blocking,
    ))
}
