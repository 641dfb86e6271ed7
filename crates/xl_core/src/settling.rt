//! Whose turn comes, and what it gets.
ghost use Rattle.std.specs.Prelude.{◌≡◌, ◌+◌, ◌<◌, ◌^◌, ℕ, true, false, List, [], ◌∷◌, Ok, None, take, is_some, option_map, IfOk, IfSome, OnOk};
ghost use Rattle.std.specs.List.{AllByRecursion};
ghost use Rattle.xl_base.specs.Limits.{numbers_left};
ghost use Rattle.xl_wait.specs.Waiting.{waiting_on};
ghost use Rattle.xl_wait.specs.declared.waiter.Waiter.{Waiter};
ghost use Rattle.xl_core.specs.Blockers.{before_number};
ghost use Rattle.xl_core.specs.InFront.{IsInLine};
ghost use Rattle.xl_core.specs.declared.blockers.Front.TheVariants.{Before};
ghost use Rattle.xl_core.specs.Good.{holds_back, is_held_up, holds_up, IsGood};
ghost use Rattle.xl_core.specs.Passed.{is_shut_out, ArePassed, FreesNobody, StandBefore};
ghost use Rattle.xl_core.specs.Ways.{made_way};
ghost use Rattle.xl_table.specs.Flat.{is_blocked};
ghost use Rattle.xl_core.specs.Settle.{plea_again, all_of, turned, settle, called_of, first_called, first_free, is_up};
ghost use Rattle.xl_core.specs.Unsettled.{IsHeldUp, AreUp, AreHeldUp};
ghost use Rattle.xl_core.specs.declared.unsettled.Unsettled.TheVariants.{Files};
ghost use Rattle.xl_core.specs.State.{MayBe, GoesOn};
ghost use Rattle.xl_core.specs.Stores.{HandsOn};
ghost use Rattle.xl_core.specs.Whole.{state_of};

use crate::ask::{Answer, Effect};
use crate::blockers::{Front, Passage, first_broken, look, range_ahead};
use crate::judge::{Plea, Ruling, judge_all};
use crate::parts::Parts;
use crate::passed::{NOBODY, Passed, frees_nobody, is_shut_out, known_on, passed_then, shut_then};
use crate::standings::{marked, recorded_at, standing_again};
use crate::stores::unrecorded;
use crate::unsettled::{Unsettled, is_among, only_file};
use crate::ways::make_way;
use crate::wishes::grant_for;
use std::alloc::{AllocError, Global};
use xl_base::{Keeper, Party, Sequence};
use xl_matrix::{CacheKind, Claim};
use xl_wait::{Rooms, Waiter};

/// A waiter whose turn has come.
#[derive(Drop)]
pub(crate) struct Called {
    /// The waiter's number.
    pub id: u32,
    /// Its party.
    pub party: Party,
    /// The claims that it asks for.
    pub asked: Sequence<Claim>,
    /// The caches that it wishes for.
    pub wish: Sequence<CacheKind>,
    /// What it pleads.
    pub plea: Plea,
}

/// What a waiter pleads.
#[tactic(auto, unfolding(crate::specs::Settle::plea_again))]
fn plea_again(alloc: Global, parts: &Parts, waiter: &Waiter) -> Result<Plea, AllocError>
    ensures { IfOk result (λ p. p ≡ plea_again (state_of parts.now) waiter.now) }
{
    Ok(Plea {
        blocking: waiter.blocking,
        awaits: true,
        standing: standing_again(parts),
        beside: None,
        unrecorded: unrecorded(
            &parts.stable,
            waiter.monitored,
            marked(
                recorded_at(alloc, &parts.names, waiter.party)?,
                &waiter.mark,
            ),
        ),
        rows: waiter.rows,
        kept: parts.names.as_slice().len(),
        crowded: None,
    })
}

/// Whether the waiter waits on where the way of its claim stands so: barred, if it waits for that, or open with no break to
/// begin.
fn holds_back(waiter: &Waiter, passage: &Passage) -> bool
    ensures { result ≡ holds_back waiter.now passage.now }
{
    match passage {
        Passage::Barred(_) => waiter.blocking,
        Passage::Open(plan) => first_broken(plan.breaks.as_slice()).is_none(),
    }
}

/// Whether the range of one who waits in front of the waiter blocks the claim, and the waiter waits for that.
fn waits_behind(
    alloc: Global,
    parts: &Parts,
    waiter: &Waiter,
    claim: &Claim,
) -> Result<bool, AllocError>
    requires free { is_blocked parts.now.table claim.now ≡ false }
    requires line { IsInLine (Before waiter.now.id) parts.now.queue claim.now }
    ensures { IfOk result (λ b. b ≡ is_held_up (before_number waiter.now.id parts.now.queue) (state_of parts.now) waiter.now claim.now) }
{
    match range_ahead(alloc, parts, Front::Before(waiter.id), claim)? {
        Some(_) => Ok(waiter.blocking),
        None => Ok(false),
    }
}

/// Whether the claim is held up: something held blocks it for good, or the range of one who waits in front, if the waiter waits for
/// that; or caches alone do, all of whose breaks run.
fn is_held_up(
    alloc: Global,
    parts: &Parts,
    waiter: &Waiter,
    claim: &Claim,
) -> Result<bool, AllocError>
    requires line { IsInLine (Before waiter.now.id) parts.now.queue claim.now }
    ensures { IfOk result (λ b. b ≡ is_held_up (before_number waiter.now.id parts.now.queue) (state_of parts.now) waiter.now claim.now) }
{
    if !parts.table.is_blocked(claim) {
        return waits_behind(alloc, parts, waiter, claim);
    }
    if !parts.table.has_cache(claim.file) {
        return Ok(waiter.blocking);
    }
    let passage = look(alloc, parts, Front::Before(waiter.id), claim)?;
    Ok(holds_back(waiter, &passage))
}

/// Whether the first claim that the waiter asks for is held up.
fn is_up(alloc: Global, parts: &Parts, waiter: &Waiter) -> Result<bool, AllocError>
    requires calm { is_some parts.now.grace ≡ false }
    requires line { AllByRecursion (IsInLine (Before waiter.now.id) parts.now.queue) waiter.now.asked }
    ensures { IfOk result (λ b. b ≡ is_up (state_of parts.now) waiter.now) }
{
    match waiter.asked.as_slice() {
        [claim, ..] => is_held_up(alloc, parts, waiter, claim),
        [] => Ok(false),
    }
}

/// The same. What is held on its file, and who waits there in front of it, is looked at only if that is one of the unsettled files.
fn holds_up(
    alloc: Global,
    parts: &Parts,
    unsettled: &Unsettled,
    waiter: &Waiter,
) -> Result<bool, AllocError>
    requires calm { is_some parts.now.grace ≡ false }
    requires line { AllByRecursion (IsInLine (Before waiter.now.id) parts.now.queue) waiter.now.asked }
    requires up { IsHeldUp unsettled.now (before_number waiter.now.id parts.now.queue) (state_of parts.now) waiter.now waiter.now.asked }
    ensures { IfOk result (λ b. b ≡ is_up (state_of parts.now) waiter.now) }
{
    if let [claim, ..] = waiter.asked.as_slice() {
        if !is_among(unsettled, claim.file) {
            return Ok(true);
        }
    }
    is_up(alloc, parts, waiter)
}

/// The waiter, as it is called.
fn called_of(alloc: Global, parts: &Parts, waiter: &Waiter) -> Result<Called, AllocError>
    ensures { IfOk result (λ called. called ≡ called_of (state_of parts.now) waiter.now) }
{
    Ok(Called {
        id: waiter.id,
        party: waiter.party,
        asked: Sequence::from_slice(alloc, waiter.asked.as_slice())?,
        wish: Sequence::from_slice(alloc, waiter.wish.as_slice())?,
        plea: plea_again(alloc, parts, waiter)?,
    })
}

/// The first who waits on this file and isn't held up, and who waits there before it, as far as they are shut out by what is held; the
/// first so many are known to be.
fn first_on(
    alloc: Global,
    parts: &Parts,
    file: u32,
    known: usize,
) -> Result<Option<(Called, Passed)>, AllocError>
    requires calm { is_some parts.now.grace ≡ false }
    requires good { IsGood (state_of parts.now) }
    requires shut { AllByRecursion (λ w. is_shut_out (state_of parts.now) w ≡ true) (take known (waiting_on file parts.now.queue)) }
    requires up { AllByRecursion (λ w. is_up (state_of parts.now) w ≡ true) (take known (waiting_on file parts.now.queue)) }
    ensures called { IfOk result (λ r. option_map (λ x. x.0) r ≡ first_free (state_of parts.now) (waiting_on file parts.now.queue)) }
    ensures before { IfOk result (λ r. IfSome r (λ x. StandBefore x.0 x.1 (state_of parts.now))) }
{
    let mut shut = known;
    'waiters: for count in known..parts.queue.len() {
        let Some(waiter) = parts.queue.nth_on(file, count) else {
            return Ok(None);
        };
        if !is_up(alloc, parts, waiter)? {
            let called = called_of(alloc, parts, waiter)?;
            return Ok(Some((called, Passed { file, count: shut })));
        }
        shut = shut_then(parts, waiter, shut, count);
    }
    Ok(None)
}

/// The first who isn't held up, if this is the one unsettled file: the first such of those who wait on it.
fn called_on(
    alloc: Global,
    parts: &Parts,
    file: u32,
    passed: Passed,
) -> Result<Option<(Called, Passed)>, AllocError>
    requires calm { is_some parts.now.grace ≡ false }
    requires good { IsGood (state_of parts.now) }
    requires held_up { AreHeldUp (Files (file ∷ [])) (state_of parts.now) }
    requires passed { ArePassed passed (state_of parts.now) }
    ensures called { IfOk result (λ r. option_map (λ x. x.0) r ≡ first_free (state_of parts.now) parts.now.queue) }
    ensures before { IfOk result (λ r. IfSome r (λ x. StandBefore x.0 x.1 (state_of parts.now))) }
{
    let called = first_on(alloc, parts, file, known_on(parts, file, passed))?;
    Ok(called)
}

/// The first of these that isn't held up, who waits on one of the unsettled files.
#[tactic(auto, using(crate::proofs::PassedLaws::nobody_before))]
fn first_free(
    alloc: Global,
    parts: &Parts,
    unsettled: &Unsettled,
    waiters: &[Waiter],
) -> Result<Option<(Called, Passed)>, AllocError>
    requires calm { is_some parts.now.grace ≡ false }
    requires line { AllByRecursion (λ w. AllByRecursion (IsInLine (Before w.id) parts.now.queue) w.asked) waiters.now }
    requires up { AreUp unsettled.now (state_of parts.now) waiters.now }
    ensures called { IfOk result (λ r. option_map (λ x. x.0) r ≡ first_free (state_of parts.now) waiters.now) }
    ensures before { IfOk result (λ r. IfSome r (λ x. StandBefore x.0 x.1 (state_of parts.now))) }
{
    for waiter in waiters {
        if !holds_up(alloc, parts, unsettled, waiter)? {
            let called = called_of(alloc, parts, waiter)?;
            return Ok(Some((called, NOBODY)));
        }
    }
    Ok(None)
}

/// The first who isn't held up, as it is called, and who waits on its file before it; none while grace runs. It is looked for among
/// those alone who wait on an unsettled file: in its queue, behind those who are known to be held up, if it is one, and else in
/// the order of arrival.
#[tactic(auto, using(crate::proofs::UnsettledLaws::none_free))]
fn next_called(
    alloc: Global,
    parts: &Parts,
    unsettled: &Unsettled,
    passed: Passed,
) -> Result<Option<(Called, Passed)>, AllocError>
    requires good { IsGood (state_of parts.now) }
    requires held_up { AreHeldUp unsettled.now (state_of parts.now) }
    requires passed { ArePassed passed (state_of parts.now) }
    ensures called { IfOk result (λ r. option_map (λ x. x.0) r ≡ first_free (state_of parts.now) parts.now.queue) }
    ensures before { IfOk result (λ r. IfSome r (λ x. StandBefore x.0 x.1 (state_of parts.now))) }
{
    if parts.grace.runs() {
        return Ok(None);
    }
    match only_file(unsettled) {
        Some(file) => called_on(alloc, parts, file, passed),
        None => first_free(alloc, parts, unsettled, parts.queue.waiters()),
    }
}

fn all_of(asked: &[Claim]) -> Answer
    ensures { result ≡ all_of asked.now }
{
    match asked {
        [] => Answer::NotHeld,
        [claim, ..] => Answer::Granted(*claim),
    }
}

/// Takes the waiter out and answers what was ruled, behind the breaks that began, unless it waits on. Then its wish is
/// granted, if it has what it asked for.
fn serve(
    alloc: Global,
    parts: &mut Parts,
    called: &Called,
    ruling: Ruling,
    begun: Sequence<Effect>,
) -> Result<Sequence<Effect>, AllocError>
    ensures turned { (w : Waiter) → w.id ≡ called.now.id → w.party ≡ called.now.party → w.asked ≡ called.now.asked → w.wish ≡ called.now.wish → IfOk result (λ effects. turned w ruling begun (state_of parts.old) ≡ (effects, state_of parts.new)) }
    ensures stable { parts.new.stable ≡ parts.old.stable }
    ensures given { parts.new.given ≡ parts.old.given }
    ensures failed { parts.new.failed ≡ parts.old.failed }
{
    let mut effects = begun;
    match ruling {
        Ruling::Gets => {
            let answer = all_of(called.asked.as_slice());
            parts.queue.cancel(called.id);
            effects.push(Effect::Served(called.party, called.id, answer))?;
            grant_for(alloc, parts, called.wish.as_slice(), answer)?;
        }
        Ruling::Waits => {}
        Ruling::Told(answer) => {
            parts.queue.cancel(called.id);
            effects.push(Effect::Served(called.party, called.id, answer))?;
        }
    }
    Ok(effects)
}

/// One turn, if a waiter has one, and who waits before it and stays held up. It is looked for among those who wait on the unsettled
/// files.
#[tactic(auto, unfolding(crate::specs::Settle::settle))]
pub(crate) fn settle<K: Keeper>(
    alloc: Global,
    parts: &mut Parts,
    unsettled: &Unsettled,
    passed: Passed,
    keeper: &mut K,
    left: &Rooms,
) -> Result<Option<(Sequence<Effect>, Passed)>, AllocError>
    requires good { IsGood (state_of parts.old) }
    requires held_up { AreHeldUp unsettled.now (state_of parts.old) }
    requires passed { ArePassed passed (state_of parts.old) }
    requires numbers { parts.old.counter + numbers_left < 2 ^ 32 }
    ensures turn { (n : ℕ) → IfOk result (λ r. MayBe n (state_of parts.new) → settle n left.now (state_of parts.old) ≡ option_map (λ x. (x.0, state_of parts.new)) r) }
    ensures none { result ≡ Ok None → parts.new ≡ parts.old }
    ensures before { IfOk result (λ r. IfSome r (λ x. 0 < x.1.count → IfSome (first_called (state_of parts.old) [] parts.old.queue) (λ called. FreesNobody called x.1.file (state_of parts.old) × StandBefore called x.1 (state_of parts.old) × ((made_way (before_number called.id parts.old.queue) called.plea called.asked (state_of parts.old)).0 ≡ [])))) }
    ensures on { OnOk result (GoesOn (state_of parts.old) (state_of parts.new)) }
    ensures keeper { OnOk result (HandsOn (state_of parts.old) (state_of parts.new) (record { held = K.held keeper.old; given = K.given keeper.old; faults = K.faults keeper.old; left = K.left keeper.old }) (record { held = K.held keeper.new; given = K.given keeper.new; faults = K.faults keeper.new; left = K.left keeper.new })) }
{
    let Some((called, front)) = next_called(alloc, parts, unsettled, passed)? else {
        return Ok(None);
    };
    let frees_nobody = frees_nobody(alloc, parts, &called, front.file)?;
    let place = Front::Before(called.id);
    let (begun, known) = make_way(alloc, parts, place, &called.plea, called.asked.as_slice())?;
    let stay = passed_then(front, frees_nobody, begun.as_slice());
    let ruling = judge_all(
        alloc,
        parts,
        keeper,
        left,
        place,
        &called.plea,
        called.asked.as_slice(),
        known,
    )?;
    Ok(Some((serve(alloc, parts, &called, ruling, begun)?, stay)))
}
