//! What is done to the core, and the files that it leaves unsettled.
ghost use Rattle.std.specs.Prelude.{◌≡◌, ℕ, ◌+◌, ◌<◌, ◌^◌, if◌then◌else◌, [], Ok, None, option_map, IfOk, OnOk};
ghost use Rattle.xl_base.specs.Limits.{numbers_left};
ghost use Rattle.xl_base.specs.Lists.{IsIn};
ghost use Rattle.xl_core.specs.Askers.{IsFit};
ghost use Rattle.xl_core.specs.BreakAnswers.{ack};
ghost use Rattle.xl_core.specs.Decide.{ask};
ghost use Rattle.xl_core.specs.Good.{IsGood};
ghost use Rattle.xl_core.specs.Settle.{settle, cancel, give_back, weaken, departed};
ghost use Rattle.xl_core.specs.Ticks.{renew};
ghost use Rattle.xl_core.specs.Passed.{ArePassed};
ghost use Rattle.xl_core.specs.Unsettled.{AreHeldUp};
ghost use Rattle.xl_core.specs.State.{MayBe, GoesOn};
ghost use Rattle.xl_core.specs.Stores.{HandsOn};
ghost use Rattle.xl_core.specs.Whole.{state_of};
ghost use Rattle.xl_core.specs.declared.unsettled.Unsettled.TheVariants.{Files};

use crate::ask::{Answer, Ask, Effect};
use crate::leaving::told_with;
use crate::parts::Parts;
use crate::passed::{NOBODY, Passed};
use crate::unsettled::{Unsettled, is_none, note, note_asked, note_gone, note_left, note_one};
use crate::{decide, leaving, settling, ticking};
use std::alloc::{AllocError, Global};
use std::mem;
use xl_base::{Keeper, Sequence};
use xl_matrix::{CacheKind, Claim, Rwd};
use xl_table::Leaver;
use xl_wait::Rooms;

/// Answers an ask, and tells of the breaks that it begins. Its file is noted, if some began, or if it was granted what
/// changes it.
#[tactic(auto, using(crate::proofs::HeldUpLaws::any_up))]
pub(crate) fn answer<K: Keeper>(
    alloc: Global,
    parts: &mut Parts,
    unsettled: &mut Unsettled,
    keeper: &mut K,
    left: &Rooms,
    request: &Ask,
) -> Result<(Answer, Sequence<Effect>), AllocError>
    requires fit { IsFit request.now }
    requires good { IsGood (state_of parts.old) }
    requires numbers { parts.old.counter + numbers_left < 2 ^ 32 }
    requires held_up { AreHeldUp unsettled.old (state_of parts.old) }
    ensures answer { (n : ℕ) → IfOk result (λ r. MayBe n (state_of parts.new) → ask n left.now (state_of parts.old) request.now ≡ (r.0, r.1, state_of parts.new)) }
    ensures on { OnOk result (GoesOn (state_of parts.old) (state_of parts.new)) }
    ensures keeper { OnOk result (HandsOn (state_of parts.old) (state_of parts.new) (record { held = K.held keeper.old; given = K.given keeper.old; faults = K.faults keeper.old; left = K.left keeper.old }) (record { held = K.held keeper.new; given = K.given keeper.new; faults = K.faults keeper.new; left = K.left keeper.new })) }
    ensures held_up { AreHeldUp unsettled.new (state_of parts.new) }
{
    let before = mem::replace(unsettled, Unsettled::All);
    let (answer, told) = decide::answer(alloc, parts, keeper, left, request)?;
    *unsettled = before;
    note_asked(&parts.queue, unsettled, request, answer, told.as_slice());
    Ok((answer, told))
}

/// The unsettled files after a turn: if there was none there are none.
fn left_by_turn(alloc: Global, had_turn: bool, before: Unsettled) -> Unsettled
    ensures { result ≡ (if had_turn then before else Files []) }
{
    if had_turn {
        before
    } else {
        Unsettled::Files(Sequence::new(alloc))
    }
}

/// One turn, if a waiter has one. It is looked for among those alone who wait on an unsettled file, behind those who were passed.
#[tactic(auto, using(crate::proofs::PassedLaws::nobody_passed))]
pub(crate) fn settle<K: Keeper>(
    alloc: Global,
    parts: &mut Parts,
    unsettled: &mut Unsettled,
    passed: &mut Passed,
    keeper: &mut K,
    left: &Rooms,
) -> Result<Option<Sequence<Effect>>, AllocError>
    requires good { IsGood (state_of parts.old) }
    requires numbers { parts.old.counter + numbers_left < 2 ^ 32 }
    requires held_up { AreHeldUp unsettled.old (state_of parts.old) }
    requires passed { ArePassed passed.old (state_of parts.old) }
    ensures turn { (n : ℕ) → IfOk result (λ r. MayBe n (state_of parts.new) → settle n left.now (state_of parts.old) ≡ option_map (λ effects. (effects, state_of parts.new)) r) }
    ensures none { result ≡ Ok None → parts.new ≡ parts.old }
    ensures on { OnOk result (GoesOn (state_of parts.old) (state_of parts.new)) }
    ensures keeper { OnOk result (HandsOn (state_of parts.old) (state_of parts.new) (record { held = K.held keeper.old; given = K.given keeper.old; faults = K.faults keeper.old; left = K.left keeper.old }) (record { held = K.held keeper.new; given = K.given keeper.new; faults = K.faults keeper.new; left = K.left keeper.new })) }
    ensures held_up { AreHeldUp unsettled.new (state_of parts.new) }
    ensures passed { ArePassed passed.new (state_of parts.new) }
{
    if is_none(unsettled) {
        return Ok(None);
    }
    let before = mem::replace(unsettled, Unsettled::All);
    let front = mem::replace(passed, NOBODY);
    let turn = settling::settle(alloc, parts, &before, front, keeper, left)?;
    *unsettled = left_by_turn(alloc, turn.is_some(), before);
    let Some((effects, stay)) = turn else {
        return Ok(None);
    };
    *passed = stay;
    Ok(Some(effects))
}

/// Takes one waiter out, and notes its file: who waits behind it there may have waited for it.
#[tactic(auto, using(crate::proofs::HeldUpLaws::any_up))]
pub(crate) fn cancel(
    alloc: Global,
    parts: &mut Parts,
    unsettled: &mut Unsettled,
    id: u32,
) -> Result<Sequence<Effect>, AllocError>
    requires good { IsGood (state_of parts.old) }
    requires held_up { AreHeldUp unsettled.old (state_of parts.old) }
    ensures state { IfOk result (λ effects. cancel (state_of parts.old) id ≡ (effects, state_of parts.new)) }
    ensures held_up { AreHeldUp unsettled.new (state_of parts.new) }
{
    let mut before = mem::replace(unsettled, Unsettled::All);
    note_one(&mut before, id, parts.queue.waiters());
    let effects = leaving::cancel(alloc, parts, id)?;
    *unsettled = before;
    Ok(effects)
}

/// Takes one claim out, and notes its file.
pub(crate) fn give_back(
    alloc: Global,
    parts: &mut Parts,
    unsettled: &mut Unsettled,
    claim: &Claim,
) -> Sequence<Effect>
    requires held_up { AreHeldUp unsettled.old (state_of parts.old) }
    ensures state { give_back (state_of parts.old) claim.now ≡ (result, state_of parts.new) }
    ensures held_up { AreHeldUp unsettled.new (state_of parts.new) }
{
    note(&parts.queue, unsettled, claim.file);
    leaving::give_back(alloc, parts, claim)
}

/// Gives a share this access and deny in place of its own, and notes its file.
pub(crate) fn weaken(
    alloc: Global,
    parts: &mut Parts,
    unsettled: &mut Unsettled,
    share: &Claim,
    access: Rwd,
    deny: Rwd,
) -> Sequence<Effect>
    requires held { IsIn share.now parts.old.table }
    requires good { IsGood (state_of parts.old) }
    requires held_up { AreHeldUp unsettled.old (state_of parts.old) }
    ensures state { weaken (state_of parts.old) share.now access deny ≡ (result, state_of parts.new) }
    ensures held_up { AreHeldUp unsettled.new (state_of parts.new) }
{
    note(&parts.queue, unsettled, share.file);
    leaving::weaken(alloc, parts, share, access, deny)
}

/// Leaves this much of a cache, and notes its file.
pub(crate) fn ack(
    alloc: Global,
    parts: &mut Parts,
    unsettled: &mut Unsettled,
    cache: &Claim,
    to: Option<CacheKind>,
) -> Sequence<Effect>
    requires held { IsIn cache.now parts.old.table }
    requires good { IsGood (state_of parts.old) }
    requires held_up { AreHeldUp unsettled.old (state_of parts.old) }
    ensures state { ack (state_of parts.old) cache.now to ≡ (result, state_of parts.new) }
    ensures held_up { AreHeldUp unsettled.new (state_of parts.new) }
{
    note(&parts.queue, unsettled, cache.file);
    leaving::ack(alloc, parts, cache, to)
}

/// Takes out the claims and the waiters that go with who leaves, and notes their files.
#[tactic(auto, using(crate::proofs::HeldUpLaws::any_up))]
pub(crate) fn leave(
    alloc: Global,
    parts: &mut Parts,
    unsettled: &mut Unsettled,
    leaver: Leaver,
) -> Result<Sequence<Effect>, AllocError>
    requires good { IsGood (state_of parts.old) }
    requires held_up { AreHeldUp unsettled.old (state_of parts.old) }
    ensures state { IfOk result (λ effects. departed (state_of parts.old) leaver ≡ (effects, state_of parts.new)) }
    ensures held_up { AreHeldUp unsettled.new (state_of parts.new) }
{
    let mut before = mem::replace(unsettled, Unsettled::All);
    note_left(&parts.table, &parts.queue, &mut before, leaver);
    let told = told_with(alloc, leaver, parts.queue.waiters())?;
    note_gone(&mut before, leaver, told.as_slice(), parts.queue.waiters());
    let effects = leaving::leave(alloc, parts, leaver, told)?;
    *unsettled = before;
    Ok(effects)
}

/// Renews a client's lease.
#[tactic(auto, using(crate::proofs::HeldUpLaws::any_up))]
pub(crate) fn renew(
    alloc: Global,
    parts: &mut Parts,
    unsettled: &mut Unsettled,
    client: &[u8],
) -> Result<Sequence<Effect>, AllocError>
    requires held_up { AreHeldUp unsettled.old (state_of parts.old) }
    ensures state { IfOk result (λ effects. renew (state_of parts.old) client.now ≡ (effects, state_of parts.new)) }
    ensures held_up { AreHeldUp unsettled.new (state_of parts.new) }
{
    let before = mem::replace(unsettled, Unsettled::All);
    let effects = ticking::renew(alloc, parts, client)?;
    *unsettled = before;
    Ok(effects)
}
