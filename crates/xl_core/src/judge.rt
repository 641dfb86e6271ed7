//! The order of decisions, read for those who ask and for those who wait.
ghost use Rattle.std.specs.Prelude.{◌≡◌, ℕ, ◌≤◌, List, [], ◌∷◌, length, true, false, Option, Some, None, Ok, option_map, IfOk, IfSome, if◌then◌else◌, OnOk};
ghost use Rattle.std.specs.List.{AllByRecursion};
ghost use Rattle.xl_table.specs.Held.{has_one_party, IsGrantable, IsKept};
ghost use Rattle.xl_table.specs.Relock.{granted_claims, most_claims};
ghost use Rattle.xl_wait.specs.declared.waiter.Waiter.{Waiter};
ghost use Rattle.xl_core.specs.Blockers.{passage_of};
ghost use Rattle.xl_core.specs.InFront.{in_front_of, IsInLine, IsKnown, front_by};
ghost use Rattle.xl_core.specs.Judge.{after, check_grace, check_reclaim, check_row, recorded_by, record_name, enter_all, stopped, waits, check_held, kept_off, check_caches, check_room, at_once, those_before, judged, or_else, stop_of, stop_by, first_stop, stop_left, IsRow, IsFew};
ghost use Rattle.xl_base.specs.Stable.{is_recordable};
ghost use Rattle.xl_core.specs.State.{CoreState, MayBe, GoesOn};
ghost use Rattle.xl_core.specs.Stores.{HandsOn};
ghost use Rattle.xl_core.specs.declared.ask.Answer.TheVariants.{StoreFailed};
ghost use Rattle.xl_core.specs.Whole.{state_of};
ghost use Rattle.xl_core.specs.declared.judge.Ruling.{Ruling};
ghost use Rattle.xl_core.specs.declared.judge.Ruling.TheVariants.{Gets, Waits, Told};

use crate::ask::Answer;
use crate::blockers::{Front, Passage, cache_in, look, range_ahead};
use crate::limits::passed_by_grant;
use crate::parts::Parts;
use crate::reclaims::{held_then, reclaim_blocker};
use crate::standings::Standing;
use crate::stores::{bytes_with, store, with_name};
use std::alloc::{AllocError, Global};
use xl_base::{Keeper, Recorded};
use xl_matrix::{CacheKind, Claim};
use xl_table::Change;
use xl_wait::Rooms;

/// What comes of a plea.
#[derive(Clone, Copy)]
pub(crate) enum Ruling {
    /// It has what it pleads for.
    Gets,
    /// It waits.
    Waits,
    /// It is refused, and answered so.
    Told(Answer),
}

/// What is judged besides the claims: of one who asks, or of one who waits already.
#[derive(Drop)]
pub(crate) struct Plea {
    /// Whether it waits if something blocks it for good.
    pub blocking: bool,
    /// Whether it waits for the answer to a break.
    pub awaits: bool,
    /// How it stands to grace.
    pub standing: Standing,
    /// The cache that is reclaimed with what is asked for.
    pub beside: Option<CacheKind>,
    /// The name that is to be recorded before the grant, with its mark.
    pub unrecorded: Option<Recorded>,
    /// The rows of the fronts' tables that its grant adds.
    pub rows: Rooms,
    /// How many names are kept once it is granted or waits.
    pub kept: usize,
    /// The least limit that its wait would pass; None of one who waits already.
    pub crowded: Option<u32>,
}

/// Who may wait waits, if its wait passes no limit.
fn wait_for(plea: &Plea) -> Ruling
    ensures ruling { result ≡ waits plea.now.crowded }
{
    match plea.crowded {
        Some(limit) => Ruling::Told(Answer::Full(limit)),
        None => Ruling::Waits,
    }
}

/// Grace lets nobody in but those who reclaim.
#[tactic(auto, unfolding(crate::specs::Judge::check_grace))]
fn check_grace(plea: &Plea) -> Option<Ruling>
    ensures ruling { (s : CoreState) → check_grace plea.now s ≡ (result, [], s) }
    ensures gets { result ≡ Some Gets → ⊥ }
    ensures waits { result ≡ Some Waits → plea.now.crowded ≡ None }
{
    match plea.standing {
        Standing::Timely | Standing::Reclaims => None,
        Standing::Stays => Some(wait_for(plea)),
        Standing::Early(until) => Some(Ruling::Told(Answer::Grace(until))),
        Standing::Late(clock) => Some(Ruling::Told(Answer::NoGrace(clock))),
        Standing::Unrecorded => Some(Ruling::Told(Answer::NotRecorded)),
    }
}

/// Anything held that blocks a claim which is reclaimed, or the cache that is reclaimed with it, is a conflict.
#[tactic(auto, unfolding(crate::specs::Judge::check_reclaim))]
fn check_reclaim(
    alloc: Global,
    parts: &Parts,
    plea: &Plea,
    claims: &[Claim],
) -> Result<Option<Ruling>, AllocError>
    ensures ruling { IfOk result (λ r. check_reclaim plea.now claims.now (state_of parts.now) ≡ (r, [], state_of parts.now)) }
    ensures told { IfOk result (λ o. IfSome o (λ r. (r ≡ Gets → ⊥) × (r ≡ Waits → ⊥))) }
{
    if !matches!(plea.standing, Standing::Reclaims) {
        return Ok(None);
    }
    let [claim, ..] = claims else {
        return Ok(None);
    };
    match reclaim_blocker(alloc, parts, plea.beside, claim)? {
        Some(blocker) => Ok(Some(Ruling::Told(Answer::Conflict(blocker)))),
        None => Ok(None),
    }
}

/// Who is stopped by a claim that no break moves waits, if it may.
fn stopped(plea: &Plea, blocker: Claim) -> Ruling
    ensures ruling { result ≡ stopped plea.now blocker }
{
    if plea.blocking {
        wait_for(plea)
    } else {
        Ruling::Told(Answer::Conflict(blocker))
    }
}

/// Who is kept off by a cache waits for the answer to its break, if it awaits that.
fn kept_off(plea: &Plea, cache: Claim) -> Ruling
    ensures ruling { result ≡ kept_off plea.now cache }
{
    if plea.awaits {
        wait_for(plea)
    } else {
        Ruling::Told(Answer::Recall(cache))
    }
}

/// What stops a claim whose way stands so, unless a limit does.
fn stop_by(plea: &Plea, passage: &Passage) -> Option<Ruling>
    ensures { result ≡ stop_by plea.now passage.now }
{
    match passage {
        Passage::Barred(blocker) => Some(stopped(plea, *blocker)),
        Passage::Open(plan) => match cache_in(plan) {
            Some(cache) => Some(kept_off(plea, cache)),
            None => None,
        },
    }
}

/// Who meets the range of one who waits in front of it waits, if it may.
fn stopped_by_range(plea: &Plea, range: Option<Claim>) -> Option<Ruling>
    ensures ruling { result ≡ option_map (stopped plea.now) range }
{
    match range {
        Some(blocker) => Some(stopped(plea, blocker)),
        None => None,
    }
}

/// What stands against the claim: what no break moves, or else a cache. Most often nothing is held against it, or no cache stands on
/// the file.
#[tactic(auto, using(crate::proofs::PassageLaws::stopped_behind, crate::proofs::RowLaws::held_for_good, crate::proofs::PassageLaws::stopped_so))]
fn check_claim(
    alloc: Global,
    parts: &Parts,
    front: Front,
    plea: &Plea,
    claim: &Claim,
) -> Result<Option<Ruling>, AllocError>
    requires line { IsInLine front parts.now.queue claim.now }
    ensures ruling { (later : Option Ruling) → IfOk result (λ r. or_else (check_held (in_front_of front parts.now.queue) plea.now claim.now (state_of parts.now)) (or_else (check_caches plea.now claim.now (state_of parts.now)) later) ≡ or_else r later) }
{
    let Some(blocker) = parts.table.least_blocker(alloc, &parts.names, claim)? else {
        let range = range_ahead(alloc, parts, front, claim)?;
        return Ok(stopped_by_range(plea, range));
    };
    if !parts.table.has_cache(claim.file) {
        return Ok(Some(stopped(plea, blocker)));
    }
    let passage = look(alloc, parts, front, claim)?;
    Ok(stop_by(plea, &passage))
}

/// The same, by how the way of the claim stands, if that is known.
#[tactic(auto, using(crate::proofs::PassageLaws::stopped_so))]
fn check_known(
    alloc: Global,
    parts: &Parts,
    front: Front,
    plea: &Plea,
    claim: &Claim,
    known: Option<Passage>,
) -> Result<Option<Ruling>, AllocError>
    requires line { IsInLine front parts.now.queue claim.now }
    requires known { IfSome known (λ passage. passage ≡ passage_of (in_front_of front parts.now.queue) (state_of parts.now) claim.now) }
    ensures ruling { (later : Option Ruling) → IfOk result (λ r. or_else (check_held (in_front_of front parts.now.queue) plea.now claim.now (state_of parts.now)) (or_else (check_caches plea.now claim.now (state_of parts.now)) later) ≡ or_else r later) }
{
    match known {
        Some(passage) => Ok(stop_by(plea, &passage)),
        None => check_claim(alloc, parts, front, plea, claim),
    }
}

/// What is pleaded of the claims behind the first, of which none may wait (MS-SMB2 3.3.5.14.2).
fn at_once(plea: &Plea) -> Plea
    ensures { result ≡ at_once plea.now }
{
    Plea {
        blocking: false,
        awaits: false,
        standing: plea.standing,
        beside: None,
        unrecorded: None,
        rows: plea.rows,
        kept: plea.kept,
        crowded: plea.crowded,
    }
}

/// The least limit that the claim passes.
#[tactic(auto, unfolding(crate::specs::Judge::check_room))]
fn check_room(
    alloc: Global,
    parts: &Parts,
    left: &Rooms,
    plea: &Plea,
    claim: &Claim,
    change: &Change,
) -> Result<Option<Ruling>, AllocError>
    requires change { change.now.held ≡ length (granted_claims claim.now parts.now.table) }
    ensures room { IfOk result (λ r. check_room left.now plea.now claim.now (state_of parts.now) ≡ r) }
    ensures fits { result ≡ Ok None → change.now.held ≤ most_claims }
{
    let held = held_then(alloc, parts, plea.beside, claim, change.held)?;
    let bytes = bytes_with(&parts.stable, &plea.unrecorded);
    match passed_by_grant(left, &plea.rows, held, bytes, plea.kept) {
        Some(limit) => Ok(Some(Ruling::Told(Answer::Full(limit)))),
        None => Ok(None),
    }
}

/// What stops a claim once those before it are held. If nothing does, it is held too.
#[tactic(auto, unfolding(crate::specs::Judge::held_with))]
fn judge_one(
    alloc: Global,
    parts: &mut Parts,
    left: &Rooms,
    front: Front,
    plea: &Plea,
    claim: &Claim,
    known: Option<Passage>,
) -> Result<Option<Ruling>, AllocError>
    requires line { IsInLine front parts.old.queue claim.now }
    requires known { IfSome known (λ passage. passage ≡ passage_of (in_front_of front parts.old.queue) (state_of parts.old) claim.now) }
    requires grantable { IsGrantable claim.now }
    requires party { AllByRecursion (λ c. has_one_party claim.now c ≡ true) parts.old.table }
    ensures stop { IfOk result (λ r. stop_of (in_front_of front parts.old.queue) left.now plea.now claim.now (state_of parts.old) ≡ r) }
    ensures state { IfOk result (λ r. state_of parts.new ≡ stop_left r (claim.now ∷ []) (state_of parts.old)) }
    ensures kept { result ≡ Ok None → IsKept parts.old.table }
    ensures queue { parts.new.queue ≡ parts.old.queue }
    ensures names { parts.new.names ≡ parts.old.names }
    ensures counter { parts.new.counter ≡ parts.old.counter }
    ensures stable { parts.new.stable ≡ parts.old.stable }
    ensures given { parts.new.given ≡ parts.old.given }
    ensures failed { parts.new.failed ≡ parts.old.failed }
{
    if let Some(ruling) = check_known(alloc, parts, front, plea, claim, known)? {
        return Ok(Some(ruling));
    }
    let change = parts.table.granted(alloc, claim)?;
    if let Some(ruling) = check_room(alloc, parts, left, plea, claim, &change)? {
        return Ok(Some(ruling));
    }
    parts.table.write(&change)?;
    Ok(None)
}

/// What stops the first of these claims that is stopped, each once those before it are held. All of them are held then, or none.
/// It may be known how the way of the first stands; that of each other is looked at once those before it are held.
fn judge_row(
    alloc: Global,
    parts: &mut Parts,
    left: &Rooms,
    front: Front,
    plea: &Plea,
    claims: &[Claim],
    known: Option<Passage>,
) -> Result<Option<Ruling>, AllocError>
    requires line { AllByRecursion (IsInLine front parts.old.queue) claims.now }
    requires known { IsKnown (in_front_of front parts.old.queue) known (state_of parts.old) claims.now }
    requires row { IsRow claims.now }
    requires party { AllByRecursion (λ c. AllByRecursion (λ d. has_one_party c d ≡ true) parts.old.table) claims.now }
    ensures stop { IfOk result (λ r. first_stop (in_front_of front parts.old.queue) left.now plea.now claims.now (state_of parts.old) ≡ r) }
    ensures state { IfOk result (λ r. state_of parts.new ≡ stop_left r claims.now (state_of parts.old)) }
    ensures queue { parts.new.queue ≡ parts.old.queue }
    ensures names { parts.new.names ≡ parts.old.names }
    ensures counter { parts.new.counter ≡ parts.old.counter }
    ensures stable { parts.new.stable ≡ parts.old.stable }
    ensures given { parts.new.given ≡ parts.old.given }
    ensures failed { parts.new.failed ≡ parts.old.failed }
{
    let [claim, rest @ ..] = claims else {
        return Ok(None);
    };
    if let Some(ruling) = judge_one(alloc, parts, left, front, plea, claim, known)? {
        return Ok(Some(ruling));
    }
    if let Some(ruling) = judge_row(alloc, parts, left, front, &at_once(plea), rest, None)? {
        parts.table.take_back(claim);
        return Ok(Some(ruling));
    }
    Ok(None)
}

/// Stores the name that is to be recorded before the grant, if there is one, and whether all is as it is to be then.
#[tactic(auto, unfolding(crate::specs::Stores::stored, crate::specs::Stores::store_failed), using(crate::proofs::RowLaws::recorded_some))]
fn record_name<K: Keeper>(
    alloc: Global,
    parts: &mut Parts,
    keeper: &mut K,
    plea: &Plea,
) -> Result<bool, AllocError>
    requires new { IfSome plea.now.unrecorded (λ name. is_recordable name ≡ true) }
    ensures recorded { (n : ℕ) → IfOk result (λ ok. MayBe n (state_of parts.new) → recorded_by n plea.now.unrecorded (state_of parts.old) ≡ (if ok then None else Some (Told StoreFailed), [], state_of parts.new)) }
    ensures table { OnOk result (parts.new.table ≡ parts.old.table) }
    ensures queue { OnOk result (parts.new.queue ≡ parts.old.queue) }
    ensures names { OnOk result (parts.new.names ≡ parts.old.names) }
    ensures counter { OnOk result (parts.new.counter ≡ parts.old.counter) }
    ensures on { OnOk result (GoesOn (state_of parts.old) (state_of parts.new)) }
    ensures keeper { OnOk result (HandsOn (state_of parts.old) (state_of parts.new) (record { held = K.held keeper.old; given = K.given keeper.old; faults = K.faults keeper.old; left = K.left keeper.old }) (record { held = K.held keeper.new; given = K.given keeper.new; faults = K.faults keeper.new; left = K.left keeper.new })) }
{
    let Some(name) = &plea.unrecorded else {
        return Ok(true);
    };
    let same = name.copy(alloc)?;
    let longer = with_name(alloc, &parts.stable, same)?;
    let ok = store(alloc, parts, keeper, longer)?;
    Ok(ok)
}

/// What comes of a plea for one claim alone: what stops it is looked for, then the name is recorded, and only then is the claim
/// held.
#[tactic(auto, unfolding(crate::specs::Judge::check_row, crate::specs::Judge::record_name, crate::specs::Judge::enter_all, crate::specs::Judge::held_with))]
fn judge_alone<K: Keeper>(
    alloc: Global,
    parts: &mut Parts,
    keeper: &mut K,
    left: &Rooms,
    front: Front,
    plea: &Plea,
    claim: &Claim,
    known: Option<Passage>,
) -> Result<Ruling, AllocError>
    requires line { IsInLine front parts.old.queue claim.now }
    requires known { IfSome known (λ passage. passage ≡ passage_of (in_front_of front parts.old.queue) (state_of parts.old) claim.now) }
    requires grantable { IsGrantable claim.now }
    requires party { AllByRecursion (λ c. has_one_party claim.now c ≡ true) parts.old.table }
    requires new { IfSome plea.now.unrecorded (λ name. is_recordable name ≡ true) }
    ensures ruled { (n : ℕ) → IfOk result (λ r. MayBe n (state_of parts.new) → after (check_row (in_front_of front parts.old.queue) left.now plea.now (claim.now ∷ [])) (after (record_name n plea.now (claim.now ∷ [])) (enter_all (claim.now ∷ []))) (state_of parts.old) ≡ (r, [], state_of parts.new)) }
    ensures few { result ≡ Ok Gets → IsFew plea.now (claim.now ∷ []) }
    ensures waits { result ≡ Ok Waits → plea.now.crowded ≡ None }
    ensures queue { OnOk result (parts.new.queue ≡ parts.old.queue) }
    ensures names { OnOk result (parts.new.names ≡ parts.old.names) }
    ensures counter { OnOk result (parts.new.counter ≡ parts.old.counter) }
    ensures on { OnOk result (GoesOn (state_of parts.old) (state_of parts.new)) }
    ensures keeper { OnOk result (HandsOn (state_of parts.old) (state_of parts.new) (record { held = K.held keeper.old; given = K.given keeper.old; faults = K.faults keeper.old; left = K.left keeper.old }) (record { held = K.held keeper.new; given = K.given keeper.new; faults = K.faults keeper.new; left = K.left keeper.new })) }
{
    if let Some(ruling) = check_known(alloc, parts, front, plea, claim, known)? {
        return Ok(ruling);
    }
    let change = parts.table.granted(alloc, claim)?;
    if let Some(ruling) = check_room(alloc, parts, left, plea, claim, &change)? {
        return Ok(ruling);
    }
    if !record_name(alloc, parts, keeper, plea)? {
        return Ok(Ruling::Told(Answer::StoreFailed));
    }
    parts.table.write(&change)?;
    Ok(Ruling::Gets)
}

/// Who stands in front of one who stands so to grace: nobody, if it reclaims, as it had what it asks for before all who wait.
pub(crate) fn front_by(standing: Standing, front: Front) -> Front
    ensures { result ≡ front_by standing front }
{
    match standing {
        Standing::Reclaims => Front::Nobody,
        _ => front,
    }
}

/// What comes of a plea for these claims, of which there is one at least, behind those who stand in front. It may be known how the
/// way of the first stands.
/// Only what is held changes.
#[tactic(auto, unfolding(crate::specs::Judge::judged, crate::specs::Judge::check_row, crate::specs::Judge::record_name, crate::specs::Judge::enter_all))]
pub(crate) fn judge_all<K: Keeper>(
    alloc: Global,
    parts: &mut Parts,
    keeper: &mut K,
    left: &Rooms,
    front: Front,
    plea: &Plea,
    claims: &[Claim],
    known: Option<Passage>,
) -> Result<Ruling, AllocError>
    requires line { AllByRecursion (IsInLine front parts.old.queue) claims.now }
    requires known { IsKnown (in_front_of front parts.old.queue) known (state_of parts.old) claims.now }
    requires row { IsRow claims.now }
    requires party { AllByRecursion (λ c. AllByRecursion (λ d. has_one_party c d ≡ true) parts.old.table) claims.now }
    requires new { IfSome plea.now.unrecorded (λ name. is_recordable name ≡ true) }
    ensures judged { (n : ℕ) (earlier : List Waiter) → those_before plea.now.standing earlier ≡ in_front_of front parts.old.queue → IfOk result (λ r. MayBe n (state_of parts.new) → judged n earlier left.now plea.now claims.now (state_of parts.old) ≡ (r, [], state_of parts.new)) }
    ensures few { result ≡ Ok Gets → IsFew plea.now claims.now }
    ensures waits { result ≡ Ok Waits → plea.now.crowded ≡ None }
    ensures queue { OnOk result (parts.new.queue ≡ parts.old.queue) }
    ensures names { OnOk result (parts.new.names ≡ parts.old.names) }
    ensures counter { OnOk result (parts.new.counter ≡ parts.old.counter) }
    ensures on { OnOk result (GoesOn (state_of parts.old) (state_of parts.new)) }
    ensures keeper { OnOk result (HandsOn (state_of parts.old) (state_of parts.new) (record { held = K.held keeper.old; given = K.given keeper.old; faults = K.faults keeper.old; left = K.left keeper.old }) (record { held = K.held keeper.new; given = K.given keeper.new; faults = K.faults keeper.new; left = K.left keeper.new })) }
{
    if let Some(ruling) = check_grace(plea) {
        return Ok(ruling);
    }
    if let Some(ruling) = check_reclaim(alloc, parts, plea, claims)? {
        return Ok(ruling);
    }
    if let [claim] = claims {
        return judge_alone(alloc, parts, keeper, left, front, plea, claim, known);
    }
    let stop = judge_row(alloc, parts, left, front, plea, claims, known)?;
    Ok(stop.unwrap_or(Ruling::Gets))
}
