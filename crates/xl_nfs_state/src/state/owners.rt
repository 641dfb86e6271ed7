//! The owners among the lists.
ghost use Rattle.std.specs.Prelude.{◌≡◌, ◌≤◌, ◌++◌, ◌∷◌, [], ◌==◌, true, length, map, None, Some, IsSome, IsTrue, ◌↔◌, OnOk, OnErr, option_copied};
ghost use Rattle.std.specs.List.{AllByRecursion, IsDistinct, find};
ghost use Rattle.xl_nfs_state.specs.Filed.{changed};
ghost use Rattle.xl_nfs_state.specs.Keys.{owner_key, owner_name, same_owner_name};
ghost use Rattle.xl_nfs_state.specs.Rows.{with_seqids};
ghost use Rattle.xl_nfs_state.specs.State.{IsIdleOwner, has_client, is_client, is_kept, is_owner, hangs_on, is_owner_named, most_owners, last_number, next_owner, with_owners, without};

use super::{NfsState, NfsStateErr};
use crate::filed::Filed;
use crate::listing::has_any;
use crate::owner::{OwnerNamed, OwnerRow, SeqidState};
use crate::picks::OneOwner;
use crate::stateid::Whose;
use std::alloc::Global;
use xl_base::MOST_OWNERS;

impl NfsState {
    /// How many owners there are. No two have one number, or one client, kind and bytes; and the client of each is
    /// confirmed.
    pub fn owner_count(&self) -> usize
        ensures count { result ≡ length self.now.owners }
        ensures room { result ≤ most_owners }
        ensures numbers { IsDistinct ◌==◌ (map owner_key self.now.owners) }
        ensures names { IsDistinct same_owner_name (map owner_name self.now.owners) }
        ensures clients { AllByRecursion (λ o. has_client o.name.client self.now.clients ≡ true) self.now.owners }
    {
        self.owners.len()
    }

    /// The owner of this number; None exactly if there is none.
    pub fn find_owner(&self, number: u64) -> Option<&OwnerRow>
        ensures { option_copied result ≡ find (is_owner number) self.now.owners }
    {
        self.owners.find_number(&number)
    }

    /// The client's owner of this kind and these bytes; None exactly if there is none.
    pub fn find_owner_named(&self, name: OwnerNamed<'_>) -> Option<&OwnerRow>
        ensures { option_copied result ≡ find (is_owner_named name.entry.client name.entry.kind name.entry.owner.now) self.now.owners }
    {
        self.owners.find_name(name)
    }

    /// The number that a new owner takes: the one after the last owner's. None if 8,192 owners are there, or if no
    /// number is left below 2^64.
    pub fn next_owner(&self) -> Option<u64>
        ensures { result ≡ next_owner self.now.owners }
    {
        next_number(&self.owners)
    }

    /// Adds an owner of a confirmed client behind the others, under the next number. None has its client, kind and bytes.
    /// Want of memory changes nothing.
    pub fn add_owner(&mut self, alloc: Global, row: OwnerRow) -> Result<(), NfsStateErr>
        requires room { next_owner self.old.owners ≡ Some row.number }
        requires name { find (is_owner_named row.name.client row.name.kind row.name.owner) self.old.owners ≡ None }
        requires client { IsSome (find (is_client row.name.client true) self.old.clients) }
        ensures ok { OnOk result (self.new ≡ with_owners self.old (self.old.owners ++ row ∷ [])) }
        ensures err { OnErr result (self.new ≡ self.old) }
    {
        self.owners.add(alloc, row)?;
        Ok(())
    }

    /// Sets how far the requests of the owner of this number, which is there, have come.
    pub fn change_owner(&mut self, number: u64, seqids: SeqidState)
        requires { IsSome (find (is_owner number) self.old.owners) }
        ensures { self.new ≡ with_owners self.old (changed (is_owner number) (with_seqids seqids) self.old.owners) }
    {
        self.owners.change(&number, seqids);
    }

    /// Whether no stateid hangs on the owner of this number, and no result is kept for it. It walks over the stateids.
    pub fn is_owner_idle(&self, number: u64) -> bool
        ensures { IsTrue result ↔ IsIdleOwner number self.now }
    {
        !has_any(&self.stateids, &Whose::Owner(number)) && !self.kept.has(number)
    }

    /// Drops the owner of this number, which is there and has no stateid and no kept result.
    pub fn drop_owner(&mut self, number: u64)
        requires there { IsSome (find (is_owner number) self.old.owners) }
        requires idle { IsIdleOwner number self.old }
        ensures { self.new ≡ with_owners self.old (without (is_owner number) self.old.owners) }
    {
        self.owners.drop_picked(&OneOwner(number));
    }
}

fn next_number(owners: &Filed<OwnerRow>) -> Option<u64>
    ensures { result ≡ next_owner owners.now }
{
    let count = owners.len();
    if count >= MOST_OWNERS {
        return None;
    }
    last_number(owners).checked_add(1)
}

/// The number of the last owner that came, or 0.
fn last_number(owners: &Filed<OwnerRow>) -> u64
    ensures { result ≡ last_number owners.now }
{
    match owners.at(owners.len().saturating_sub(1)) {
        Some(row) => row.number,
        None => 0,
    }
}
