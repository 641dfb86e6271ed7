//! What breaks leave, which breaks an ask begins, and what a wish for a cache gets.

use super::matrix::{claim_in, kind};
use super::next;
use std::alloc::{AllocError, Global};
use std::str::Split;
use xl_base::Sequence;
use xl_cache::{
    BreakPlan, CacheKind, Need, Wish, answer_needed, best, best_join, final_blockers, guards,
    is_final_blocker, is_oplock_party, is_share_covered, join, kind_for, kind_in_lease,
    kinds_go_by_party, lease_kinds_have_states, lease_state, leaves_what_all_leave, oplock_level,
    plan_breaks, recalled, rest_within, target, wish_of_lease, wish_of_oplock,
};
use xl_matrix::{Claim, What, is_a_cache, is_a_range, is_a_share, is_blocked_by, same_claim};

/// The kind that a word names, none for `-`.
fn kind_or_none(word: &str) -> Option<CacheKind> {
    if word == "-" { None } else { Some(kind(word)) }
}

fn is_same_kind(a: Option<CacheKind>, b: Option<CacheKind>) -> bool {
    rest_within(a, b) && rest_within(b, a)
}

/// A kind, who has it, why it is broken, what is left, and whether its party has to answer.
pub(super) const TARGETS: &str = "\
R lease share R asked
R lease covered R asked
R lease range - told
R oplock share R asked
R oplock covered R asked
R oplock range - told
RH lease share RH asked
RH lease covered R asked
RH lease range - asked
RH oplock share R asked
RH oplock covered R asked
RH oplock range - asked
RW lease share R asked
RW lease covered R asked
RW lease range - asked
RW oplock share R asked
RW oplock covered R asked
RW oplock range - asked
RWH lease share RH asked
RWH lease covered R asked
RWH lease range - asked
RWH oplock share R asked
RWH oplock covered R asked
RWH oplock range - asked
read client share - asked
read client covered - asked
read client range - asked
write client share - asked
write client covered - asked
write client range - asked";

pub(super) fn is_target(row: &str) -> bool {
    let mut words = row.split(' ');
    let broken = kind(next(&mut words));
    let holder = next(&mut words);
    let reason = next(&mut words);
    let need = Need {
        range: reason == "range",
        covered: reason == "covered",
        oplock: holder == "oplock",
    };
    let left = target(broken, need);
    is_same_kind(left, kind_or_none(next(&mut words)))
        && answer_needed(broken, left) == (next(&mut words) == "asked")
}

/// What is asked; what is held; the places there of the caches that are broken, with what is left; the place of the
/// cache whose break runs already and is waited for; the place of the one that is recalled; and that of the first that is held
/// once the breaks have begun. `open` and `lease` have
/// leases, `other` is an open without one.
pub(super) const PLANS: &str = "\
nfs share r -|other share rw -;other cache RWH|1>R|-|1|1
nfs share r -|open share rw -;open cache RWH|1>RH|-|1|1
nfs share r -|open share r r;open cache RWH|1>R|-|1|1
nfs share w -|open share r w;open cache RH|1>R|-|1|1
nfs share w -|open share r -;open cache RH||-|-|-
nfs share w -|other share r w;other cache RW|1>R|-|1|1
nfs share - -|other cache RW||-|-|-
nfs lock 0 9|other cache R;open cache RH|0>- 1>-|-|1|1
nfs lock 0 9|other cache R;open cache R|0>- 1>-|-|-|-
nfs read 0 9|client cache read|0>-|-|0|0
open share r -|client share w -;client cache write|1>-|-|1|1
open share r -|client cache read||-|-|-
open share w -|client cache read|0>-|-|0|0
open share w -|client share r w;client cache read|1>-|-|1|1
open share w -|lease cache RWH;client share r w;lease share r w|0>R|-|0|0
open share w -|open cache RWH;open share rw -||-|-|-
nlm lock 0 0|nlm read 0 9;other cache R|1>-|-|-|-
nfs share r -|open break RWH 7||0|0|0
nfs share w -|open share r w;open break RH 7||1|1|1
nfs lock 0 9|other cache R;open break RWH 7;lease cache RH|0>- 2>-|1|1|1
open share w -|away cache write||-|-|-
open share w -|away share r w;client cache R||-|-|-
nfs lock 0 9|other cache RH;open break RWH 7|0>-|1|1|0";

fn claims_in(alloc: Global, rows: &str) -> Result<Vec<Claim>, AllocError> {
    let mut claims = Vec::new(alloc);
    for row in rows.split(';') {
        if !row.is_empty() {
            claims.push(claim_in(row))?;
        }
    }
    Ok(claims)
}

fn place_in(word: &str) -> usize {
    word.parse().unwrap_or(99)
}

/// Whether the claim is the one at this place of the list, and none if the word is `-`.
fn is_at(claims: &[Claim], claim: Option<Claim>, place: &str) -> bool {
    match claim {
        None => place == "-",
        Some(claim) => {
            matches!(claims.get(place_in(place)), Some(held) if same_claim(held, &claim))
        }
    }
}

fn is_break(claims: &[Claim], begun: &(Claim, Option<CacheKind>), word: &str) -> bool {
    let mut parts = word.split('>');
    is_at(claims, Some(begun.0), next(&mut parts))
        && is_same_kind(begun.1, kind_or_none(next(&mut parts)))
}

fn are_breaks(claims: &[Claim], breaks: &[(Claim, Option<CacheKind>)], row: &str) -> bool {
    let mut words = row.split(' ');
    for begun in breaks {
        if !is_break(claims, begun, next(&mut words)) {
            return false;
        }
    }
    next(&mut words).is_empty()
}

fn is_plan(held: &[Claim], plan: &BreakPlan, words: &mut Split<'_, char>) -> bool {
    are_breaks(held, plan.breaks.as_slice(), next(words))
        && is_at(held, plan.awaited, next(words))
        && is_at(held, recalled(plan), next(words))
        && is_at(held, plan.left, next(words))
}

pub(super) fn plans(alloc: Global, row: &str) -> Result<bool, AllocError> {
    let mut words = row.split('|');
    let ask = claim_in(next(&mut words));
    let held = claims_in(alloc, next(&mut words))?;
    let plan = plan_breaks(alloc, &ask, &held)?;
    Ok(is_plan(&held, &plan, &mut words))
}

/// What is asked, what is held, and whether the claim that stands first there blocks, is covered, and blocks for good.
pub(super) const COVERED: &str = "\
nfs share w -|open share r w;open cache RH|yes|yes|no
nfs share w -|open share r w;lease cache RH|yes|no|yes
nfs share w -|open share r w;open cache RW|yes|no|yes
nfs share w -|open share r w;open break RWH 7|yes|yes|no
open share w -|open share r w;open cache RH|no|no|no
lease share w -|client share r w;client cache read|yes|yes|no
nfs share w -|open share r -;open cache RH|no|yes|no
nfs lock 0 9|open lock 0 9;open cache RWH|yes|no|yes
nfs lock 0 9|open cache RWH;open share r w|yes|no|no";

fn has_claim(claims: &[Claim], claim: &Claim) -> bool {
    claims.iter().any(|other| same_claim(other, claim))
}

fn is_blocker(ask: &Claim, held: &[Claim], finals: &[Claim], words: &mut Split<'_, char>) -> bool {
    match held.first() {
        None => false,
        Some(first) => is_blocked_by(ask, first) == (next(words) == "yes")
            && is_share_covered(ask, held, first) == (next(words) == "yes")
            && is_final_blocker(ask, held, first) == (next(words) == "yes")
            && has_claim(finals, first) == is_final_blocker(ask, held, first),
    }
}

pub(super) fn blocks(alloc: Global, row: &str) -> Result<bool, AllocError> {
    let mut words = row.split('|');
    let ask = claim_in(next(&mut words));
    let held = claims_in(alloc, next(&mut words))?;
    let finals = final_blockers(alloc, &ask, &held)?;
    Ok(is_blocker(&ask, &held, &finals, &mut words))
}

fn is_guarded(what: What) -> bool {
    match what {
        What::Share(access, deny) => guards(CacheKind::RW, access, deny)
            && !guards(CacheKind::RH, access, deny),
        _ => false,
    }
}

fn has_words(share: &Claim, cache: &Claim) -> bool {
    is_guarded(share.what)
        && is_a_share(share.what)
        && !is_a_range(share.what)
        && is_a_cache(cache.what)
        && is_oplock_party(cache.party)
        && !is_oplock_party(share.party)
}

/// Who wishes, the choices, what is held, and the kind that the party gets, `-` if nothing changes.
pub(super) const WISHES: &str = "\
open|RWH RH R||RWH
open|RWH RH R|open share rw -|RWH
open|RWH RH R|client share r -|RH
open|RWH RH R|lease cache R|RH
open|RWH RH R|lease cache RW|-
other|RWH R|client share r -|R
other|RW R|client share - -|RW
other|R|nlm read 0 0|-
other|R|other read 0 0|R
client|write|open share r -|-
client|read|open share r -|read
client|read|open share w -|-
open|RH R|open cache R|RH
open|RH R|open cache RW|RWH
open|RW R|open cache RH;lease cache R|RH
open|RWH RH R|open cache R;lease cache R|RH
open|R|open cache RWH|RWH
open|RWH|open cache R;lease cache R|-
open|RWH RH R|open break RH 7|-
open||lease cache R|-";

fn wish(alloc: Global, who: &str, choices: &str) -> Result<Wish, AllocError> {
    let mut kinds = Sequence::new(alloc);
    for word in choices.split(' ') {
        if !word.is_empty() {
            kinds.push(kind(word))?;
        }
    }
    let wisher = match who {
        "open" => claim_in("open share r -"),
        "other" => claim_in("other share r -"),
        _ => claim_in("client share r -"),
    };
    Ok(Wish {
        file: wisher.file,
        owner: wisher.owner,
        party: wisher.party,
        kinds,
    })
}

pub(super) fn gets(alloc: Global, row: &str) -> Result<bool, AllocError> {
    let mut words = row.split('|');
    let who = next(&mut words);
    let wanted = wish(alloc, who, next(&mut words))?;
    let held = claims_in(alloc, next(&mut words))?;
    Ok(is_same_kind(kind_for(&wanted, &held), kind_or_none(next(&mut words))))
}

fn best_of_each(alloc: Global) -> Result<bool, AllocError> {
    let wanted = wish(alloc, "open", "RWH RH R")?;
    let held = claims_in(alloc, "lease cache R")?;
    Ok(
        is_same_kind(best(&wanted, &held), Some(CacheKind::RH))
            && is_same_kind(best_join(&wanted, CacheKind::R, &held), Some(CacheKind::RH))
            && is_same_kind(best_join(&wanted, CacheKind::RW, &held), None),
    )
}

/// Two kinds, and the least that both lie within.
pub(super) const JOINS: &str = "\
R R R
R RH RH
RW R RW
RH RW RWH
RWH RW RWH
read write write
read read read
read R -
RW write -";

pub(super) fn is_join(row: &str) -> bool {
    let mut words = row.split(' ');
    let a = kind(next(&mut words));
    let b = kind(next(&mut words));
    let least = kind_or_none(next(&mut words));
    is_same_kind(join(a, b), least) && is_same_kind(join(b, a), least)
}

/// A lease state or an oplock level, the kind that it stands for, and the choices of one who asks for it.
pub(super) const LEVELS: &str = "\
lease|0|-|
lease|1|R|R
lease|2|-|
lease|3|RH|RH R
lease|4|-|
lease|5|RW|RW R
lease|6|-|
lease|7|RWH|RWH RH R
lease|8|-|
oplock|0|-|
oplock|1|R|R
oplock|2|-|
oplock|8|RW|RW R
oplock|9|RWH|RWH R
oplock|255|-|";

fn are_choices(kinds: &[CacheKind], row: &str) -> bool {
    let mut words = row.split(' ');
    for kind in kinds {
        if !is_same_kind(Some(*kind), kind_or_none(next(&mut words))) {
            return false;
        }
    }
    next(&mut words).is_empty()
}

fn is_state(
    alloc: Global,
    word: &str,
    shown: Option<CacheKind>,
    row: &str,
) -> Result<bool, AllocError> {
    let state = word.parse().unwrap_or(99);
    let choices = wish_of_lease(alloc, state)?;
    Ok(
        is_same_kind(kind_in_lease(state), shown)
            && (shown.is_none() || lease_state(shown) == state)
            && are_choices(choices.as_slice(), row),
    )
}

fn is_level(
    alloc: Global,
    word: &str,
    shown: Option<CacheKind>,
    row: &str,
) -> Result<bool, AllocError> {
    let level = word.parse().unwrap_or(99);
    let choices = wish_of_oplock(alloc, level)?;
    Ok((shown.is_none() || oplock_level(shown) == level) && are_choices(choices.as_slice(), row))
}

pub(super) fn is_numbered(alloc: Global, row: &str) -> Result<bool, AllocError> {
    let mut words = row.split('|');
    let is_lease = next(&mut words) == "lease";
    let value = next(&mut words);
    let shown = kind_or_none(next(&mut words));
    let choices = next(&mut words);
    if is_lease {
        is_state(alloc, value, shown, choices)
    } else {
        is_level(alloc, value, shown, choices)
    }
}

fn are_levels() -> bool {
    lease_state(Some(CacheKind::ReadDeleg)) == 0 && oplock_level(None) == 0
}

#[test]
fn caches(rt: HostRuntime) {
    assert!(rt; are_levels() && has_words(&claim_in("nfs share r w"), &claim_in("other cache R")));
    assert!(rt; matches!(best_of_each(rt.alloc()), Ok(true)));
    leaves_what_all_leave();
    lease_kinds_have_states();
    kinds_go_by_party();
}
