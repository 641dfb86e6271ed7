//! The kept results among the lists.
ghost use Rattle.std.specs.Prelude.{◌≡◌, ◌++◌, ◌∷◌, [], ◌==◌, true, length, map, None, IsSome, OnOk, OnErr, option_copied};
ghost use Rattle.std.specs.List.{AllByRecursion, IsDistinct, find, list_any};
ghost use Rattle.std.specs.Option.{option_map};
ghost use Rattle.xl_nfs_state.specs.Filed.{changed};
ghost use Rattle.xl_nfs_state.specs.Rows.{with_result};
ghost use Rattle.xl_nfs_state.specs.State.{is_kept, is_owner, with_kept, without};

use super::{NfsState, NfsStateErr};
use crate::bytes::ResultBytes;
use crate::kept::KeptRow;

impl NfsState {
    /// How many results are kept, at most one an owner; and the owner of each is there.
    pub fn kept_count(&self) -> usize
        ensures count { result ≡ length self.now.kept }
        ensures owners { IsDistinct ◌==◌ (map (λ k. k.owner) self.now.kept) }
        ensures hanging { AllByRecursion (λ k. list_any (is_owner k.owner) self.now.owners ≡ true) self.now.kept }
    {
        self.kept.len()
    }

    /// The bytes of the result that is kept for the owner; None exactly if none is.
    pub fn find_kept(&self, owner: u64) -> Option<&ResultBytes>
        ensures { option_copied result ≡ option_map (λ k. k.result) (find (is_kept owner) self.now.kept) }
    {
        self.kept.find(owner)
    }

    /// Keeps a result for an owner that is there and has none. Want of memory changes nothing.
    pub fn add_kept(&mut self, row: KeptRow) -> Result<(), NfsStateErr>
        requires new { find (is_kept row.owner) self.old.kept ≡ None }
        requires owner { IsSome (find (is_owner row.owner) self.old.owners) }
        ensures ok { OnOk result (self.new ≡ with_kept self.old (self.old.kept ++ row ∷ [])) }
        ensures err { OnErr result (self.new ≡ self.old) }
    {
        self.kept.add(row)?;
        Ok(())
    }

    /// Keeps another result for an owner that has one.
    pub fn change_kept(&mut self, owner: u64, bytes: ResultBytes)
        requires { IsSome (find (is_kept owner) self.old.kept) }
        ensures { self.new ≡ with_kept self.old (changed (is_kept owner) (with_result bytes) self.old.kept) }
    {
        self.kept.change(owner, bytes);
    }

    /// Drops the result that is kept for the owner, which has one.
    pub fn drop_kept(&mut self, owner: u64)
        requires { IsSome (find (is_kept owner) self.old.kept) }
        ensures { self.new ≡ with_kept self.old (without (is_kept owner) self.old.kept) }
    {
        self.kept.drop(owner);
    }
}
