//! The deadlines of the breaks that run, in order.
ghost use Rattle.std.specs.Prelude.{◌≡◌, ℕ, ◌+◌, ◌≤◌, ◌<◌, ◌==◌, ◌++◌, ◌∷◌, Bool, nat_le, nat_lt, length, take, drop, vec_capacity, OnOk};
ghost use Rattle.std.specs.List.{prefix_len, remove};
ghost use Rattle.xl_index.specs.Totals.{one};
ghost use Rattle.xl_index.specs.Moments.{passing, runs, AreRising};

use std::alloc::AllocError;
use std::sync::ledger::Ledger;
use xl_base::Moment;
use xl_matrix::What;
use xl_steps::Steps;

/// How many of the moments are no later than this one.
fn count_upto(moments: &[u64], moment: u64) -> usize
    requires { AreRising moments.now }
    ensures count { result ≡ prefix_len (λ m. nat_le m moment) moments.now }
    ensures within { result ≤ length moments.now }
{
    moments.partition_point(|own| *own <= moment)
}

/// How many of the moments are earlier than this one.
fn count_before(moments: &[u64], moment: u64) -> usize
    requires { AreRising moments.now }
    ensures count { result ≡ prefix_len (λ m. nat_lt m moment) moments.now }
    ensures within { result ≤ length moments.now }
{
    moments.partition_point(|own| *own < moment)
}

/// Puts a moment, for which the list has room, at this place.
fn put_at(moments: &mut Vec<u64>, place: usize, moment: u64)
    requires place { place ≤ length moments.old.items }
    requires room { length moments.old.items < vec_capacity moments.old }
    ensures items { moments.new.items ≡ take place moments.old.items ++ moment ∷ drop place moments.old.items }
    ensures capacity { vec_capacity moments.new ≡ vec_capacity moments.old }
{
    let _ = moments.insert(place, moment);
}

/// Takes the moment at this place out.
fn take_at(moments: &mut Vec<u64>, place: usize)
    requires place { place < length moments.old.items }
    ensures items { moments.new.items ≡ remove moments.old.items place }
    ensures capacity { vec_capacity moments.new ≡ vec_capacity moments.old }
{
    moments.remove(place);
}

/// Puts a moment, for which the list has room, behind those that are no later.
#[tactic(auto, using(crate::proofs::MomentLaws::put_rising, crate::proofs::MomentLaws::put_counted))]
fn put(moments: &mut Vec<u64>, moment: u64)
    requires rising { AreRising moments.old.items }
    requires room { length moments.old.items < vec_capacity moments.old }
    ensures rising { AreRising moments.new.items }
    ensures more { (p : ℕ → Bool) → passing p moments.new.items ≡ one (p moment) + passing p moments.old.items }
    ensures capacity { vec_capacity moments.new ≡ vec_capacity moments.old }
{
    let place = count_upto(moments.as_slice(), moment);
    put_at(moments, place, moment);
}

/// Takes one of the moments out that are equal to this one.
#[tactic(auto, using(crate::proofs::MomentLaws::found_within, crate::proofs::MomentLaws::take_rising, crate::proofs::MomentLaws::take_counted))]
fn take_one(moments: &mut Vec<u64>, moment: u64)
    requires rising { AreRising moments.old.items }
    requires some { 0 < passing (λ m. m == moment) moments.old.items }
    ensures rising { AreRising moments.new.items }
    ensures fewer { (p : ℕ → Bool) → one (p moment) + passing p moments.new.items ≡ passing p moments.old.items }
    ensures capacity { vec_capacity moments.new ≡ vec_capacity moments.old }
{
    let place = count_before(moments.as_slice(), moment);
    take_at(moments, place);
}

/// Enters the deadline of what is claimed, if it is a cache whose break runs. The list has room for it.
pub(crate) fn enter_moment(moments: &mut Vec<u64>, what: What)
    requires rising { AreRising moments.old.items }
    requires room { length moments.old.items < vec_capacity moments.old }
    ensures rising { AreRising moments.new.items }
    ensures more { (p : ℕ → Bool) → passing p moments.new.items ≡ one (runs p what) + passing p moments.old.items }
    ensures capacity { vec_capacity moments.new ≡ vec_capacity moments.old }
{
    match what {
        What::Cache(_, Some(running)) => put(moments, running.deadline.0),
        _ => {}
    }
}

/// Takes the deadline of what was claimed out again.
#[tactic(auto, using(crate::proofs::MomentLaws::some_equal))]
pub(crate) fn leave_moment(moments: &mut Vec<u64>, what: What)
    requires rising { AreRising moments.old.items }
    requires some { (p : ℕ → Bool) → one (runs p what) ≤ passing p moments.old.items }
    ensures rising { AreRising moments.new.items }
    ensures fewer { (p : ℕ → Bool) → one (runs p what) + passing p moments.new.items ≡ passing p moments.old.items }
    ensures capacity { vec_capacity moments.new ≡ vec_capacity moments.old }
{
    match what {
        What::Cache(_, Some(running)) => take_one(moments, running.deadline.0),
        _ => {}
    }
}

/// Makes room for so many moments in all.
pub(crate) fn make_room(moments: &mut Vec<u64>, all: usize) -> Result<(), AllocError>
    ensures items { moments.new.items ≡ moments.old.items }
    ensures room { OnOk result (all ≤ vec_capacity moments.new) }
    ensures capacity { vec_capacity moments.old ≤ vec_capacity moments.new }
{
    moments.reserve(all.saturating_sub(moments.len()))?;
    Ok(())
}

/// Whether the first of the moments has come.
#[tactic(auto, using(crate::proofs::MomentLaws::first_come))]
pub(crate) fn has_come(moments: &[u64], now: Moment) -> bool
    requires { AreRising moments.now }
    ensures { result ≡ nat_lt 0 (passing (λ m. nat_le m now.0) moments.now) }
{
    match moments {
        [] => false,
        [first, ..] => *first <= now.0,
    }
}

/// Whether the moment has come: one step.
fn look<L: Ledger>(moment: u64, now: Moment, steps: &mut Steps<L>) -> bool
    ensures test { result ≡ nat_le moment now.0 }
    ensures step { steps.new ≡ steps.old + 1 }
{
    steps.tick();
    moment <= now.0
}

/// How many of the moments have come: they are looked at one by one, and one more.
#[tactic(auto, using(crate::proofs::MomentLaws::come_on, crate::proofs::MomentLaws::come_stop))]
pub(crate) fn count_come<L: Ledger>(moments: &[u64], now: Moment, steps: &mut Steps<L>) -> usize
    requires { AreRising moments.now }
    ensures count { result ≡ passing (λ m. nat_le m now.0) moments.now }
    ensures more { steps.old ≤ steps.new }
    ensures few { steps.new ≤ steps.old + result + 1 }
{
    let mut count = 0;
    for moment in moments {
        if !look(*moment, now, steps) {
            return count;
        }
        count += 1;
    }
    count
}
