//! Wishes for caches.
ghost use Rattle.std.specs.Prelude.{◌≡◌, ◌<◌, true, OnOk, length, find};
ghost use Rattle.xl_cache.specs.Wishing.{wished_claim, is_its_cache};
ghost use Rattle.xl_table.specs.Flat.{inserted};
ghost use Rattle.xl_table.specs.Held.{IsKept};
ghost use Rattle.xl_table.specs.Relock.{most_claims};
ghost use Rattle.xl_core.specs.Whole.{state_of};
ghost use Rattle.xl_core.specs.Wishes.{has_room, is_waited_for, wished_kind, cached, wish_granted, wish_for};

use crate::ask::Answer;
use crate::parts::Parts;
use std::alloc::{AllocError, Global};
use xl_base::Sequence;
use xl_cache::{Wish, find_own_cache, kind_for};
use xl_matrix::{CacheKind, Claim, What};
use xl_table::{CLAIMS, Table, TableErr};

/// Whether there is room for the cache of a party that has this one on the file.
fn has_room(own: Option<Claim>, table: &Table) -> bool
    ensures room { result ≡ has_room own table.now }
    ensures kept { IsKept table.now }
{
    let held = table.len();
    own.is_some() || held < CLAIMS
}

/// Enters a first cache of this kind.
fn enter_cache(table: &mut Table, wanted: &Wish, kind: CacheKind) -> Result<(), AllocError>
    requires room { length table.old < most_claims }
    requires kept { IsKept table.old }
    ensures { OnOk result (table.new ≡ inserted (wished_claim wanted.now kind) table.old) }
{
    let claim = Claim {
        file: wanted.file,
        owner: wanted.owner,
        party: wanted.party,
        what: What::Cache(kind, None),
    };
    match table.insert(claim) {
        Ok(()) => Ok(()),
        Err(TableErr::NoMemory) => Err(AllocError),
        Err(TableErr::Full(_)) => unreachable!(),
    }
}

/// Has the party's cache on the file, if this is what it has there, be of this kind.
fn put_cache(
    table: &mut Table,
    wanted: &Wish,
    own: Option<Claim>,
    kind: CacheKind,
) -> Result<(), AllocError>
    requires own { own ≡ find (is_its_cache wanted.now) table.old }
    requires room { has_room own table.old ≡ true }
    requires kept { IsKept table.old }
    ensures { OnOk result (table.new ≡ cached wanted.now kind own table.old) }
{
    match own {
        Some(claim) => {
            table.change(&claim, What::Cache(kind, None));
            Ok(())
        }
        None => {
            enter_cache(table, wanted, kind)?;
            Ok(())
        }
    }
}

/// Whether someone waits on the file for what a cache would keep from it: who waits while grace runs waits for its end.
fn is_waited_for(parts: &Parts, file: u32) -> bool
    ensures { result ≡ is_waited_for file (state_of parts.now) }
{
    !parts.grace.runs() && parts.queue.waits_on(file)
}

/// Grants a wish, as far as it may be: the party's cache on the file is of the best kind that goes with all that is
/// held, if nobody waits on the file, grace aside, and there is room. It breaks nothing, and there is nothing to tell.
#[tactic(auto, unfolding(crate::specs::Wishes::wished_kind, crate::specs::Wishes::wish_granted))]
pub(crate) fn grant_wish(alloc: Global, parts: &mut Parts, wanted: &Wish) -> Result<(), AllocError>
    ensures state { OnOk result (state_of parts.new ≡ wish_granted wanted.now (state_of parts.old)) }
    ensures queue { parts.new.queue ≡ parts.old.queue }
    ensures names { parts.new.names ≡ parts.old.names }
    ensures counter { parts.new.counter ≡ parts.old.counter }
    ensures stable { parts.new.stable ≡ parts.old.stable }
    ensures given { parts.new.given ≡ parts.old.given }
    ensures failed { parts.new.failed ≡ parts.old.failed }
{
    if is_waited_for(parts, wanted.file) {
        return Ok(());
    }
    let held = parts.table.of_file(alloc, wanted.file)?;
    let own = find_own_cache(wanted, &held);
    if !has_room(own, &parts.table) {
        return Ok(());
    }
    if let Some(kind) = kind_for(wanted, &held) {
        put_cache(&mut parts.table, wanted, own, kind)?;
    }
    Ok(())
}

/// Grants the wish for these kinds of one who is answered so, if that is granted.
pub(crate) fn grant_for(
    alloc: Global,
    parts: &mut Parts,
    kinds: &[CacheKind],
    answer: Answer,
) -> Result<(), AllocError>
    ensures state { OnOk result (state_of parts.new ≡ wish_for kinds.now answer (state_of parts.old)) }
    ensures stable { parts.new.stable ≡ parts.old.stable }
    ensures given { parts.new.given ≡ parts.old.given }
    ensures failed { parts.new.failed ≡ parts.old.failed }
{
    let Answer::Granted(claim) = answer else {
        return Ok(());
    };
    if kinds.is_empty() {
        return Ok(());
    }
    let wanted = Wish {
        file: claim.file,
        owner: claim.owner,
        party: claim.party,
        kinds: Sequence::from_slice(alloc, kinds)?,
    };
    grant_wish(alloc, parts, &wanted)
}
