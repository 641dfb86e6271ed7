//! What an ask is answered.
ghost use Rattle.std.specs.Prelude.{◌≡◌, ℕ, ◌+◌, ◌<◌, ◌≤◌, ◌^◌, true, false, [], ◌∷◌, length, None, IfOk, IfSome, OnOk};
ghost use Rattle.std.specs.List.{AllByRecursion};
ghost use Rattle.xl_base.specs.Limits.{most_waiters, numbers_left};
ghost use Rattle.xl_matrix.specs.Owners.{posix};
ghost use Rattle.xl_names.specs.Names.{most_names};
ghost use Rattle.xl_table.specs.Held.{is_range, has_one_party, IsShareOrLock, IsGrantable};
ghost use Rattle.xl_table.specs.Relock.{most_claims};
ghost use Rattle.xl_core.specs.Askers.{both_entered, asked_whats, asked_claims, IsFitAct, IsFit, IsOrdered, is_client, may_hold, may_hold_all};
ghost use Rattle.xl_core.specs.Decide.{plea_of, waiter_of, waiting, claims_asked, tested, beside_of, is_back, unlocked_bytes, unlocked_one, unlocked, wish_asked, decided, way, before_wish, does_wish, wish_after, ask};
ghost use Rattle.xl_core.specs.InFront.{IsKnown};
ghost use Rattle.xl_core.specs.Good.{IsGood};
ghost use Rattle.xl_core.specs.Judge.{IsRow};
ghost use Rattle.xl_core.specs.State.{MayBe, GoesOn};
ghost use Rattle.xl_core.specs.Stores.{HandsOn};
ghost use Rattle.xl_core.specs.Whole.{state_of};
ghost use Rattle.xl_core.specs.declared.ask.Act.TheVariants.{Ranges};

use crate::ask::{Act, Answer, Ask, Effect};
use crate::askers::{
    asked_claim, asked_claims, asking_party, count_names, enter_both, known_claim,
};
use crate::blockers::{Front, Passage};
use crate::judge::{Plea, Ruling, front_by, judge_all};
use crate::limits::{passed_by_wait, passed_by_wish};
use crate::parts::Parts;
use crate::standings::{asker_as, is_smb, recorded_as, refusal, standing_of, stores_name};
use crate::stores::unrecorded;
use crate::ways::make_way;
use crate::wishes::grant_for;
use std::alloc::{AllocError, Global};
use xl_base::{Keeper, Party, Sequence};
use xl_matrix::{CacheKind, Claim, Extent, What, is_posix};
use xl_table::CLAIMS;
use xl_wait::{QueueErr, Rooms, Waiter};

/// The cache that is reclaimed with what is asked for.
fn beside_of(ask: &Ask) -> Option<CacheKind>
    ensures { result ≡ beside_of ask.now.reclaim ask.now.wish }
{
    match ask.wish.as_slice() {
        [kind, ..] if ask.reclaim => Some(*kind),
        _ => None,
    }
}

/// What an ask pleads.
#[tactic(auto, unfolding(crate::specs::Decide::plea_of), using(crate::proofs::LimitLaws::wait_fits))]
fn plea_of(alloc: Global, parts: &Parts, left: &Rooms, ask: &Ask) -> Result<Plea, AllocError>
    requires { is_client ask.now.owner ask.now.party ≡ true }
    ensures plea { IfOk result (λ p. p ≡ plea_of left.now (state_of parts.now) ask.now) }
    ensures kept { IfOk result (λ p. p.kept ≡ length (both_entered ask.now parts.now.names)) }
    ensures room { IfOk result (λ p. p.crowded ≡ None → (length parts.now.queue < most_waiters) × (length (both_entered ask.now parts.now.names) ≤ most_names)) }
{
    let kept = count_names(&parts.names, ask);
    Ok(Plea {
        blocking: ask.blocking,
        awaits: ask.awaits,
        standing: standing_of(alloc, parts, ask, is_smb(&ask.party))?,
        beside: beside_of(ask),
        unrecorded: unrecorded(&parts.stable, stores_name(ask), asker_as(alloc, ask)?),
        rows: ask.rows,
        kept,
        crowded: passed_by_wait(left, &ask.rows, parts.queue.len(), kept),
    })
}

/// Notes that the client has reclaimed something in the grace that runs, if this ask is a reclaim.
fn note_back(alloc: Global, parts: &mut Parts, ask: &Ask) -> Result<(), AllocError>
    ensures { OnOk result (state_of parts.new ≡ is_back ask.now (state_of parts.old)) }
{
    if ask.reclaim {
        parts.grace.reclaimed(&recorded_as(alloc, &ask.party)?);
    }
    Ok(())
}

/// This party, which waits for these claims.
fn waiter_of(
    alloc: Global,
    id: u32,
    ask: &Ask,
    party: Party,
    claims: &[Claim],
) -> Result<Waiter, AllocError>
    ensures { IfOk result (λ w. w ≡ waiter_of id ask.now party claims.now) }
{
    Ok(Waiter {
        id,
        party,
        conn: ask.conn,
        asked: Sequence::from_slice(alloc, claims)?,
        wish: Sequence::from_slice(alloc, ask.wish.as_slice())?,
        blocking: ask.blocking,
        monitored: stores_name(ask),
        mark: ask.mark,
        rows: Rooms {
            hosts: 0,
            owners: ask.rows.owners,
            opens: ask.rows.opens,
        },
    })
}

/// Lets the asker wait, for which there is room.
fn wait(alloc: Global, parts: &mut Parts, ask: &Ask, claims: &[Claim]) -> Result<Answer, AllocError>
    requires room { length parts.old.queue < most_waiters }
    requires names { length (both_entered ask.now parts.old.names) ≤ most_names }
    requires numbers { parts.old.counter + 1 < 2 ^ 32 }
    ensures state { IfOk result (λ answer. state_of parts.new ≡ waiting ask.now claims.now (state_of parts.old)) }
    ensures answer { IfOk result (λ answer. answer ≡ Answer.Queued (parts.old.counter + 1)) }
    ensures stable { parts.new.stable ≡ parts.old.stable }
    ensures given { parts.new.given ≡ parts.old.given }
    ensures failed { parts.new.failed ≡ parts.old.failed }
{
    let id = parts.counter + 1;
    let party = asking_party(&parts.names, ask);
    let waiter = waiter_of(alloc, id, ask, party, claims)?;
    enter_both(&mut parts.names, ask)?;
    match parts.queue.push(waiter) {
        Ok(()) => {}
        Err(QueueErr::NoMemory) => return Err(AllocError),
        Err(QueueErr::Full(_)) => unreachable!(),
    }
    parts.counter = id;
    Ok(Answer::Queued(id))
}

/// Answers an ask for these claims. It may be known how the way of the first stands.
#[tactic(auto, unfolding(crate::specs::Decide::claims_asked))]
fn ask_claims<K: Keeper>(
    alloc: Global,
    parts: &mut Parts,
    keeper: &mut K,
    left: &Rooms,
    ask: &Ask,
    claims: &[Claim],
    known: Option<Passage>,
) -> Result<Answer, AllocError>
    requires known { IsKnown parts.old.queue known (state_of parts.old) claims.now }
    requires back { ask.now.reclaim ≡ true → known ≡ None }
    requires client { is_client ask.now.owner ask.now.party ≡ true }
    requires row { IsRow claims.now }
    requires party { AllByRecursion (λ c. AllByRecursion (λ d. has_one_party c d ≡ true) parts.old.table) claims.now }
    requires numbers { parts.old.counter + 1 < 2 ^ 32 }
    ensures answer { (n : ℕ) → IfOk result (λ answer. MayBe n (state_of parts.new) → claims_asked n left.now (state_of parts.old) ask.now claims.now ≡ (answer, [], state_of parts.new)) }
    ensures on { OnOk result (GoesOn (state_of parts.old) (state_of parts.new)) }
    ensures keeper { OnOk result (HandsOn (state_of parts.old) (state_of parts.new) (record { held = K.held keeper.old; given = K.given keeper.old; faults = K.faults keeper.old; left = K.left keeper.old }) (record { held = K.held keeper.new; given = K.given keeper.new; faults = K.faults keeper.new; left = K.left keeper.new })) }
{
    let [first, ..] = claims else {
        return Ok(Answer::NotHeld);
    };
    let plea = plea_of(alloc, parts, left, ask)?;
    let front = front_by(plea.standing, Front::Everybody);
    match judge_all(alloc, parts, keeper, left, front, &plea, claims, known)? {
        Ruling::Gets => {
            note_back(alloc, parts, ask)?;
            enter_both(&mut parts.names, ask)?;
            Ok(Answer::Granted(*first))
        }
        Ruling::Waits => wait(alloc, parts, ask, claims),
        Ruling::Told(answer) => Ok(answer),
    }
}

/// Answers a test of a range.
#[tactic(auto, unfolding(crate::specs::Decide::tested, crate::specs::Blockers::test_blockers))]
fn test(alloc: Global, parts: &Parts, ask: &Ask, claim: &Claim) -> Result<Answer, AllocError>
    ensures { IfOk result (λ answer. answer ≡ tested (state_of parts.now) ask.now claim.now) }
{
    if let Some(answer) = refusal(standing_of(alloc, parts, ask, false)?) {
        return Ok(answer);
    }
    Ok(match parts.table.least_range(alloc, &parts.names, claim)? {
        Some(blocker) => Answer::Conflict(blocker),
        None => Answer::Granted(*claim),
    })
}

/// Unlocks bytes.
fn unlock_bytes(
    alloc: Global,
    parts: &mut Parts,
    claim: &Claim,
    first: u64,
    last: u64,
) -> Result<Answer, AllocError>
    requires range { is_range claim.now.what ≡ true }
    requires posix { posix claim.now.owner ≡ true }
    requires ends { first ≤ last }
    requires party { AllByRecursion (λ c. has_one_party claim.now c ≡ true) parts.old.table }
    ensures answer { IfOk result (λ answer. unlocked_bytes (state_of parts.old) claim.now first last ≡ (answer, [], state_of parts.new)) }
    ensures stable { parts.new.stable ≡ parts.old.stable }
    ensures given { parts.new.given ≡ parts.old.given }
    ensures failed { parts.new.failed ≡ parts.old.failed }
{
    if !parts.table.holds_byte(claim.file, claim.owner, first, last) {
        return Ok(Answer::NotHeld);
    }
    let change = parts.table.unlocked(alloc, claim, first, last)?;
    if change.held > CLAIMS {
        return Ok(Answer::Full(CLAIMS as u32));
    }
    parts.table.write(&change)?;
    Ok(Answer::Granted(*claim))
}

/// Gives up one range of an SMB open.
#[tactic(auto, unfolding(crate::specs::Decide::unlocked_one))]
fn unlock_one(
    alloc: Global,
    parts: &mut Parts,
    claim: &Claim,
    extent: Extent,
) -> Result<Answer, AllocError>
    requires open { posix claim.now.owner ≡ false }
    ensures answer { IfOk result (λ answer. unlocked_one (state_of parts.old) claim.now extent ≡ (answer, [], state_of parts.new)) }
    ensures stable { parts.new.stable ≡ parts.old.stable }
    ensures given { parts.new.given ≡ parts.old.given }
    ensures failed { parts.new.failed ≡ parts.old.failed }
{
    match parts.table.element_held(alloc, claim, extent)? {
        Some(held) => {
            parts.table.remove(&held);
            Ok(Answer::Granted(*claim))
        }
        None => Ok(Answer::NotHeld),
    }
}

/// Answers an unlock of a range. One without bytes is an SMB open's alone.
#[tactic(auto, unfolding(crate::specs::Decide::unlocked))]
fn unlock(
    alloc: Global,
    parts: &mut Parts,
    claim: &Claim,
    extent: Extent,
) -> Result<Answer, AllocError>
    requires range { is_range claim.now.what ≡ true }
    requires order { IsOrdered extent }
    requires party { AllByRecursion (λ c. has_one_party claim.now c ≡ true) parts.old.table }
    requires good { IsGood (state_of parts.old) }
    ensures answer { IfOk result (λ answer. unlocked (state_of parts.old) claim.now extent ≡ (answer, [], state_of parts.new)) }
    ensures stable { parts.new.stable ≡ parts.old.stable }
    ensures given { parts.new.given ≡ parts.old.given }
    ensures failed { parts.new.failed ≡ parts.old.failed }
{
    match extent {
        Extent::Bytes(first, last) => {
            if is_posix(claim.owner) {
                unlock_bytes(alloc, parts, claim, first, last)
            } else {
                unlock_one(alloc, parts, claim, extent)
            }
        }
        Extent::Empty(_) => {
            if is_posix(claim.owner) {
                Ok(Answer::NotHeld)
            } else {
                unlock_one(alloc, parts, claim, extent)
            }
        }
    }
}

/// Answers an ask for what is to be held.
fn ask_for<K: Keeper>(
    alloc: Global,
    parts: &mut Parts,
    keeper: &mut K,
    left: &Rooms,
    ask: &Ask,
    what: What,
    known: Option<Passage>,
) -> Result<Answer, AllocError>
    requires known { IsKnown parts.old.queue known (state_of parts.old) (asked_claims ask.now (what ∷ []) parts.old.names) }
    requires back { ask.now.reclaim ≡ true → known ≡ None }
    requires client { is_client ask.now.owner ask.now.party ≡ true }
    requires own { may_hold ask.now.owner what ≡ true }
    requires real { IsShareOrLock what }
    requires good { IsGood (state_of parts.old) }
    requires numbers { parts.old.counter + 1 < 2 ^ 32 }
    ensures answer { (n : ℕ) → IfOk result (λ answer. MayBe n (state_of parts.new) → claims_asked n left.now (state_of parts.old) ask.now (asked_claims ask.now (what ∷ []) parts.old.names) ≡ (answer, [], state_of parts.new)) }
    ensures on { OnOk result (GoesOn (state_of parts.old) (state_of parts.new)) }
    ensures keeper { OnOk result (HandsOn (state_of parts.old) (state_of parts.new) (record { held = K.held keeper.old; given = K.given keeper.old; faults = K.faults keeper.old; left = K.left keeper.old }) (record { held = K.held keeper.new; given = K.given keeper.new; faults = K.faults keeper.new; left = K.left keeper.new })) }
{
    let claims = [asked_claim(&parts.names, ask, what)];
    ask_claims(alloc, parts, keeper, left, ask, &claims, known)
}

/// Answers an ask for ranges.
fn ask_ranges<K: Keeper>(
    alloc: Global,
    parts: &mut Parts,
    keeper: &mut K,
    left: &Rooms,
    ask: &Ask,
    ranges: &[(Extent, bool)],
    known: Option<Passage>,
) -> Result<Answer, AllocError>
    requires known { IsKnown parts.old.queue known (state_of parts.old) (asked_claims ask.now (asked_whats (Ranges ranges.now)) parts.old.names) }
    requires back { ask.now.reclaim ≡ true → known ≡ None }
    requires fit { IsFitAct ask.now.owner ask.now.blocking (Ranges ranges.now) }
    requires client { is_client ask.now.owner ask.now.party ≡ true }
    requires own { may_hold_all ask.now.owner ranges.now ≡ true }
    requires good { IsGood (state_of parts.old) }
    requires numbers { parts.old.counter + 1 < 2 ^ 32 }
    ensures answer { (n : ℕ) → IfOk result (λ answer. MayBe n (state_of parts.new) → claims_asked n left.now (state_of parts.old) ask.now (asked_claims ask.now (asked_whats (Ranges ranges.now)) parts.old.names) ≡ (answer, [], state_of parts.new)) }
    ensures on { OnOk result (GoesOn (state_of parts.old) (state_of parts.new)) }
    ensures keeper { OnOk result (HandsOn (state_of parts.old) (state_of parts.new) (record { held = K.held keeper.old; given = K.given keeper.old; faults = K.faults keeper.old; left = K.left keeper.old }) (record { held = K.held keeper.new; given = K.given keeper.new; faults = K.faults keeper.new; left = K.left keeper.new })) }
{
    let claims = asked_claims(alloc, &parts.names, ask, ranges)?;
    ask_claims(alloc, parts, keeper, left, ask, &claims, known)
}

/// Answers a wish by itself.
#[tactic(auto, unfolding(crate::specs::Decide::wish_asked), using(crate::proofs::LimitLaws::wish_fits))]
fn wish_alone(
    alloc: Global,
    parts: &mut Parts,
    left: &Rooms,
    ask: &Ask,
) -> Result<Answer, AllocError>
    requires client { is_client ask.now.owner ask.now.party ≡ true }
    ensures answer { IfOk result (λ answer. wish_asked left.now (state_of parts.old) ask.now ask.now.wish ≡ (answer, [], state_of parts.new)) }
    ensures stable { parts.new.stable ≡ parts.old.stable }
    ensures given { parts.new.given ≡ parts.old.given }
    ensures failed { parts.new.failed ≡ parts.old.failed }
{
    let [kind, ..] = ask.wish.as_slice() else {
        return Ok(Answer::NotHeld);
    };
    if let Some(answer) = refusal(standing_of(alloc, parts, ask, false)?) {
        return Ok(answer);
    }
    let claim = asked_claim(&parts.names, ask, What::Cache(*kind, None));
    let kept = count_names(&parts.names, ask);
    if let Some(limit) = passed_by_wish(left, &ask.rows, kept) {
        return Ok(Answer::Full(limit));
    }
    enter_both(&mut parts.names, ask)?;
    Ok(Answer::Granted(claim))
}

/// Answers an ask, once its way is made, of which it may be known how it stands.
#[tactic(auto, unfolding(crate::specs::Decide::decided))]
fn decided<K: Keeper>(
    alloc: Global,
    parts: &mut Parts,
    keeper: &mut K,
    left: &Rooms,
    request: &Ask,
    known: Option<Passage>,
) -> Result<Answer, AllocError>
    requires known { IsKnown parts.old.queue known (state_of parts.old) (asked_claims request.now (asked_whats request.now.act) parts.old.names) }
    requires back { request.now.reclaim ≡ true → known ≡ None }
    requires fit { IsFit request.now }
    requires good { IsGood (state_of parts.old) }
    requires numbers { parts.old.counter + 1 < 2 ^ 32 }
    ensures answer { (n : ℕ) → IfOk result (λ answer. MayBe n (state_of parts.new) → decided n left.now (state_of parts.old) request.now ≡ (answer, [], state_of parts.new)) }
    ensures on { OnOk result (GoesOn (state_of parts.old) (state_of parts.new)) }
    ensures keeper { OnOk result (HandsOn (state_of parts.old) (state_of parts.new) (record { held = K.held keeper.old; given = K.given keeper.old; faults = K.faults keeper.old; left = K.left keeper.old }) (record { held = K.held keeper.new; given = K.given keeper.new; faults = K.faults keeper.new; left = K.left keeper.new })) }
{
    match &request.act {
        Act::Share(access, deny) => {
            let what = What::Share(*access, *deny);
            ask_for(alloc, parts, keeper, left, request, what, known)
        }
        Act::Ranges(ranges) => {
            ask_ranges(
                alloc,
                parts,
                keeper,
                left,
                request,
                ranges.as_slice(),
                known,
            )
        }
        Act::Test(extent, exclusive) => {
            let claim = known_claim(&parts.names, request, *extent, *exclusive);
            test(alloc, parts, request, &claim)
        }
        Act::Unlock(extent) => {
            let claim = known_claim(&parts.names, request, *extent, false);
            unlock(alloc, parts, &claim, *extent)
        }
        Act::Wish => wish_alone(alloc, parts, left, request),
    }
}

/// Begins the breaks that an ask begins, and gives their effects, and how its way stands then, if a cache stands on its
/// file. A reclaim begins none.
#[tactic(auto, unfolding(crate::specs::Ways::made_way))]
fn make_way_for(
    alloc: Global,
    parts: &mut Parts,
    left: &Rooms,
    request: &Ask,
) -> Result<(Sequence<Effect>, Option<Passage>), AllocError>
    requires fit { IsFit request.now }
    requires good { IsGood (state_of parts.old) }
    requires numbers { parts.old.counter + numbers_left < 2 ^ 32 }
    ensures way { IfOk result (λ r. way left.now (state_of parts.old) request.now ≡ (r.0, state_of parts.new)) }
    ensures known { IfOk result (λ r. IsKnown parts.new.queue r.1 (state_of parts.new) (asked_claims request.now (asked_whats request.now.act) parts.new.names)) }
    ensures back { request.now.reclaim ≡ true → IfOk result (λ r. r.1 ≡ None) }
    ensures few { OnOk result (parts.new.counter ≤ parts.old.counter + most_claims) }
    ensures stable { parts.new.stable ≡ parts.old.stable }
    ensures given { parts.new.given ≡ parts.old.given }
    ensures failed { parts.new.failed ≡ parts.old.failed }
{
    if request.reclaim {
        return Ok((Sequence::new(alloc), None));
    }
    if !parts.table.has_cache(request.file) {
        return Ok((Sequence::new(alloc), None));
    }
    match &request.act {
        Act::Share(access, deny) => {
            let claims = [asked_claim(&parts.names, request, What::Share(*access, *deny))];
            let plea = plea_of(alloc, parts, left, request)?;
            make_way(alloc, parts, Front::Everybody, &plea, &claims)
        }
        Act::Ranges(ranges) => {
            let claims = asked_claims(alloc, &parts.names, request, ranges.as_slice())?;
            let plea = plea_of(alloc, parts, left, request)?;
            make_way(alloc, parts, Front::Everybody, &plea, &claims)
        }
        _ => Ok((Sequence::new(alloc), None)),
    }
}

fn does_wish(act: &Act) -> bool
    ensures { result ≡ does_wish act.now }
{
    matches!(act, Act::Share(_, _) | Act::Wish)
}

/// Grants the wish of an ask that is answered so, if it is granted and its wish comes with what it asks for.
fn wish_after(
    alloc: Global,
    parts: &mut Parts,
    request: &Ask,
    answer: Answer,
) -> Result<(), AllocError>
    ensures state { OnOk result (state_of parts.new ≡ wish_after request.now answer (state_of parts.old)) }
    ensures stable { parts.new.stable ≡ parts.old.stable }
    ensures given { parts.new.given ≡ parts.old.given }
    ensures failed { parts.new.failed ≡ parts.old.failed }
{
    if does_wish(&request.act) {
        grant_for(alloc, parts, request.wish.as_slice(), answer)
    } else {
        Ok(())
    }
}

/// Answers an ask, tells of the breaks that it begins, and grants its wish if it is granted.
#[tactic(auto, unfolding(crate::specs::Decide::before_wish, crate::specs::Decide::ask))]
pub(crate) fn answer<K: Keeper>(
    alloc: Global,
    parts: &mut Parts,
    keeper: &mut K,
    left: &Rooms,
    request: &Ask,
) -> Result<(Answer, Sequence<Effect>), AllocError>
    requires fit { IsFit request.now }
    requires good { IsGood (state_of parts.old) }
    requires numbers { parts.old.counter + numbers_left < 2 ^ 32 }
    ensures answer { (n : ℕ) → IfOk result (λ r. MayBe n (state_of parts.new) → ask n left.now (state_of parts.old) request.now ≡ (r.0, r.1, state_of parts.new)) }
    ensures on { OnOk result (GoesOn (state_of parts.old) (state_of parts.new)) }
    ensures keeper { OnOk result (HandsOn (state_of parts.old) (state_of parts.new) (record { held = K.held keeper.old; given = K.given keeper.old; faults = K.faults keeper.old; left = K.left keeper.old }) (record { held = K.held keeper.new; given = K.given keeper.new; faults = K.faults keeper.new; left = K.left keeper.new })) }
{
    let (told, known) = make_way_for(alloc, parts, left, request)?;
    let answer = decided(alloc, parts, keeper, left, request, known)?;
    wish_after(alloc, parts, request, answer)?;
    Ok((answer, told))
}
