//! Who waits no more, who leaves, and who has less from now on.
ghost use Rattle.std.specs.Prelude.{◌≡◌, ℕ, ◌++◌, List, [], ◌∷◌, true, length, map, OnOk, IfOk};
ghost use Rattle.std.specs.List.{filter, list_any};
ghost use Rattle.xl_matrix.specs.Equal.{same_owners, same_parties};
ghost use Rattle.xl_wait.specs.Waiting.{cancelled};
ghost use Rattle.xl_core.specs.Good.{IsGood};
ghost use Rattle.xl_base.specs.Lists.{IsIn};
ghost use Rattle.xl_core.specs.BreakAnswers.{ack};
ghost use Rattle.xl_core.specs.Frames.{with_told, who_left};
ghost use Rattle.xl_core.specs.Settle.{waits_for, waits_as, waits_with, gone, told_with, told_of_one, cancel, give_back, weaken, departed};
ghost use Rattle.xl_core.specs.Whole.{state_of};

use crate::ask::Effect;
use crate::parts::Parts;
use std::alloc::{AllocError, Global};
use xl_base::{Owner, Party, Sequence};
use xl_matrix::{CacheKind, Claim, Rwd, What, same_owner, same_party};
use xl_table::Leaver;
use xl_wait::Waiter;

fn gone(waiter: &Waiter) -> Effect
    ensures { result ≡ gone waiter.now }
{
    Effect::Cancelled(waiter.party, waiter.id)
}

/// This effect alone.
fn alone(alloc: Global, effect: Effect) -> Result<Sequence<Effect>, AllocError>
    ensures { IfOk result (λ effects. effects ≡ effect ∷ []) }
{
    let mut effects = Sequence::new(alloc);
    effects.push(effect)?;
    Ok(effects)
}

/// What is told of the first waiter of this number, who waits no more.
fn told_of_one(alloc: Global, id: u32, waiters: &[Waiter]) -> Result<Sequence<Effect>, AllocError>
    ensures { IfOk result (λ effects. effects ≡ told_of_one id waiters.now) }
{
    for waiter in waiters {
        if waiter.id == id {
            return alone(alloc, gone(waiter));
        }
    }
    Ok(Sequence::new(alloc))
}

/// Takes one waiter out.
#[tactic(auto, unfolding(crate::specs::Settle::cancel))]
pub(crate) fn cancel(
    alloc: Global,
    parts: &mut Parts,
    id: u32,
) -> Result<Sequence<Effect>, AllocError>
    ensures { IfOk result (λ effects. cancel (state_of parts.old) id ≡ (effects, state_of parts.new)) }
{
    let effects = told_of_one(alloc, id, parts.queue.waiters())?;
    parts.queue.cancel(id);
    Ok(effects)
}

/// Takes one claim out.
#[tactic(auto, unfolding(crate::specs::Settle::give_back))]
pub(crate) fn give_back(alloc: Global, parts: &mut Parts, claim: &Claim) -> Sequence<Effect>
    ensures { give_back (state_of parts.old) claim.now ≡ (result, state_of parts.new) }
{
    parts.table.remove(claim);
    Sequence::new(alloc)
}

/// Gives a share this access and deny in place of its own.
#[tactic(auto, unfolding(crate::specs::Settle::weaken), using(crate::proofs::WeakenLaws::weakened_sound))]
pub(crate) fn weaken(
    alloc: Global,
    parts: &mut Parts,
    share: &Claim,
    access: Rwd,
    deny: Rwd,
) -> Sequence<Effect>
    requires held { IsIn share.now parts.old.table }
    requires good { IsGood (state_of parts.old) }
    ensures { weaken (state_of parts.old) share.now access deny ≡ (result, state_of parts.new) }
{
    parts.table.change(share, What::Share(access, deny));
    Sequence::new(alloc)
}

/// Leaves this much of a cache.
#[tactic(auto, unfolding(crate::specs::BreakAnswers::ack), using(crate::proofs::BreakAnswerLaws::acked_sound))]
pub(crate) fn ack(
    alloc: Global,
    parts: &mut Parts,
    cache: &Claim,
    to: Option<CacheKind>,
) -> Sequence<Effect>
    requires held { IsIn cache.now parts.old.table }
    requires good { IsGood (state_of parts.old) }
    ensures { ack (state_of parts.old) cache.now to ≡ (result, state_of parts.new) }
{
    match to {
        Some(kind) => parts.table.change(cache, What::Cache(kind, None)),
        None => parts.table.remove(cache),
    }
    Sequence::new(alloc)
}

#[tactic(auto, unfolding(crate::specs::Settle::waits_for))]
fn waits_for(party: Party, waiter: &Waiter) -> bool
    ensures { result ≡ waits_for party waiter.now }
{
    waiter
        .asked
        .as_slice()
        .iter()
        .any(|claim| same_party(claim.party, party))
}

#[tactic(auto, unfolding(crate::specs::Settle::waits_as))]
fn waits_as(number: u32, waiter: &Waiter) -> bool
    ensures { result ≡ waits_as number waiter.now }
{
    waiter
        .asked
        .as_slice()
        .iter()
        .any(|claim| same_owner(claim.owner, Owner::Open(number)))
}

/// Whether a waiter waits no more once this one leaves.
#[inline(always)]
pub(crate) fn waits_with(leaver: Leaver, waiter: &Waiter) -> bool
    ensures { result ≡ waits_with leaver waiter.now }
{
    match leaver {
        Leaver::Party(party) => waits_for(party, waiter),
        Leaver::Open(number, _) => waits_as(number, waiter),
    }
}

/// What is told of those who wait no more once this one leaves.
#[tactic(auto, unfolding(crate::specs::Settle::told_with))]
pub(crate) fn told_with(
    alloc: Global,
    leaver: Leaver,
    waiters: &[Waiter],
) -> Result<Sequence<Effect>, AllocError>
    ensures { IfOk result (λ effects. effects ≡ told_with leaver waiters.now) }
{
    let mut effects = Sequence::new(alloc);
    for waiter in waiters {
        if waits_with(leaver, waiter) {
            effects.push(gone(waiter))?;
        }
    }
    Ok(effects)
}

/// Adds the number of the waiter of whom this tells that it waits no more, if it does.
fn push_left(numbers: &mut Vec<u32>, effect: &Effect) -> Result<(), AllocError>
    ensures { OnOk result ((rest : List ℕ) → numbers.new.items ++ rest ≡ numbers.old.items ++ with_told effect.now rest) }
{
    match effect {
        Effect::Served(_, id, _) => numbers.push(*id)?,
        Effect::Cancelled(_, id) => numbers.push(*id)?,
        Effect::Begun(_, _, _) => {}
        Effect::Expired(_) => {}
    }
    Ok(())
}

/// The numbers of the waiters of whom these tell that they wait no more.
fn who_left(alloc: Global, told: &[Effect]) -> Result<Vec<u32>, AllocError>
    ensures { IfOk result (λ v. v.items ≡ who_left told.now) }
{
    let mut numbers = Vec::new(alloc);
    for effect in told {
        push_left(&mut numbers, effect)?;
    }
    Ok(numbers)
}

/// Takes out the claims and the waiters that go with who leaves, these in one pass: so much is told of them.
#[tactic(auto, using(crate::proofs::SettleLaws::passed_out))]
pub(crate) fn leave(
    alloc: Global,
    parts: &mut Parts,
    leaver: Leaver,
    told: Sequence<Effect>,
) -> Result<Sequence<Effect>, AllocError>
    requires good { IsGood (state_of parts.old) }
    requires told { told ≡ told_with leaver parts.old.queue }
    ensures { IfOk result (λ effects. departed (state_of parts.old) leaver ≡ (effects, state_of parts.new)) }
{
    let numbers = who_left(alloc, told.as_slice())?;
    parts.table.remove_leaver(leaver);
    parts.queue.cancel_all(&numbers)?;
    Ok(told)
}
