//! The results that are kept for requests that come again.
ghost use Rattle.std.specs.Prelude.{◌≡◌, ◌++◌, ◌∷◌, [], ◌==◌, not, length, map, None, is_some, IsSome, OnOk, OnErr, option_copied, filter};
ghost use Rattle.std.specs.List.{IsDistinct, find, list_any};
ghost use Rattle.std.specs.Option.{option_map};
ghost use Rattle.xl_nfs_state.specs.Filed.{changed};
ghost use Rattle.xl_nfs_state.specs.State.{is_kept, is_owner, without};
ghost use Rattle.xl_nfs_state.specs.Rows.{kept_row, with_result};

use crate::bytes::ResultBytes;
use crate::filed::Filed;
use crate::owner::OwnerRow;
use indexmap::IndexMap;
use std::alloc::{AllocError, Global};
use std::marker::Model;

/// A result that is kept: it answers its owner's last request if that comes again (RFC 7530 9.1.8).
#[derive(Drop)]
pub struct KeptRow {
    /// The number of the owner.
    pub owner: u64,
    /// The bytes of the result.
    pub result: ResultBytes,
}

/// The kept results in order of arrival, one an owner.
#[derive(Drop)]
pub(crate) struct Kept {
    results: IndexMap<u64, ResultBytes>,
}

impl Model for Kept {
    ghost use Rattle.std.specs.Prelude.{List, map};
    ghost use Rattle.xl_nfs_state.specs.declared.kept.KeptRow.{KeptRow};

    ghost Value = { List KeptRow };

    ghost use Rattle.xl_nfs_state.specs.Rows.{kept_row};

    ghost view = { λ k. map kept_row k.results.entries };
}

impl Kept {
    /// No results; it takes no memory.
    pub(crate) fn new(alloc: Global) -> Kept
        ensures { result ≡ [] }
    {
        Kept {
            results: IndexMap::new(alloc),
        }
    }

    /// How many results there are, no two of one owner.
    pub(crate) fn len(&self) -> usize
        ensures len { result ≡ length self.now }
        ensures owners { IsDistinct ◌==◌ (map (λ k. k.owner) self.now) }
    {
        self.results.len()
    }

    /// The result that is kept for the owner.
    pub(crate) fn find(&self, owner: u64) -> Option<&ResultBytes>
        ensures { option_copied result ≡ option_map (λ k. k.result) (find (is_kept owner) self.now) }
    {
        self.results.get(&owner)
    }

    /// Whether a result is kept for the owner.
    pub(crate) fn has(&self, owner: u64) -> bool
        ensures { result ≡ list_any (is_kept owner) self.now }
    {
        self.find(owner).is_some()
    }

    /// Keeps a result for an owner that has none. Want of memory changes nothing.
    pub(crate) fn add(&mut self, row: KeptRow) -> Result<(), AllocError>
        requires { find (is_kept row.owner) self.old ≡ None }
        ensures ok { OnOk result (self.new ≡ self.old ++ row ∷ []) }
        ensures err { OnErr result (self.new ≡ self.old) }
    {
        let KeptRow {
            owner,
            result: bytes,
        } = row;
        self.results.insert(owner, bytes)?;
        Ok(())
    }

    /// Keeps another result for an owner that has one.
    pub(crate) fn change(&mut self, owner: u64, bytes: ResultBytes)
        requires { IsSome (find (is_kept owner) self.old) }
        ensures { self.new ≡ changed (is_kept owner) (with_result bytes) self.old }
    {
        let _ = self.results.insert(owner, bytes);
    }

    /// Drops the result that is kept for the owner.
    pub(crate) fn drop(&mut self, owner: u64)
        ensures { self.new ≡ without (is_kept owner) self.old }
    {
        drop_result(&mut self.results, owner);
    }

    /// Drops the results of owners that aren't there.
    pub(crate) fn keep_owners(&mut self, owners: &Filed<OwnerRow>)
        ensures { self.new ≡ filter (λ k. list_any (is_owner k.owner) owners.now) self.old }
    {
        keep_results(&mut self.results, owners);
    }
}

fn drop_result(results: &mut IndexMap<u64, ResultBytes>, owner: u64)
    ensures { results.new.entries ≡ filter (λ e. not (owner == e.0)) results.old.entries }
{
    results.retain(
        |kept: &u64, bytes: &mut ResultBytes| -> bool
            ensures { (result ≡ not (owner == kept.now)) × (bytes.new ≡ bytes.old) }
        { *kept != owner },
    );
}

fn keep_results(results: &mut IndexMap<u64, ResultBytes>, owners: &Filed<OwnerRow>)
    ensures { results.new.entries ≡ filter (λ e. list_any (is_owner e.0) owners.now) results.old.entries }
{
    results.retain(
        |kept: &u64, bytes: &mut ResultBytes| -> bool
            ensures { (result ≡ list_any (is_owner kept.now) owners.entry.now) × (bytes.new ≡ bytes.old) }
        { has_owner(owners, *kept) },
    );
}

fn has_owner(owners: &Filed<OwnerRow>, number: u64) -> bool
    ensures { result ≡ list_any (is_owner number) owners.now }
{
    owners.find_number(&number).is_some()
}
