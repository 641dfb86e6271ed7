//! The table of claims.
ghost use Rattle.std.specs.Prelude.{◌≡◌, ℕ, ◌+◌, ◌≤◌, ◌==◌, ◌&&◌, not, true, false, List, [], length, None, IsTrue, ◌↔◌, IfOk, IfSome, OnOk, OnErr};
ghost use Rattle.std.specs.List.{AllByRecursion, filter, find, list_any};
ghost use Rattle.xl_table.specs.Flat.{with_what};
ghost use Rattle.xl_table.specs.declared.table.TableErr.TheVariants.{NoMemory};

use crate::change::{Change, gone_by, grant, unlock, write};
use crate::exact::find_unlocked;
use crate::files::{OnFile, open_file};
use crate::holding::find_holder;
use crate::least::least_on;
use crate::leaver::Leaver;
use crate::leaving::{drop_leaver, list_party, next_left};
use crate::listing::{
    is_blocked, list_all, list_blockers, list_blockers_in, list_due, list_file, list_obstacles,
};
use crate::placing::{is_held, put, replace, take_back, take_out};
use crate::relock::spans_in;
use crate::section::{caches_on, find_cache, find_share, has_cache, ranges_by, shares_on};
use crate::touching::{has_byte, has_range};
use std::alloc::{AllocError, AllocFailed, Global};
use std::marker::Model;
use std::sync::ledger::Ledger;
use thiserror::Error;
use xl_base::{Moment, Owner, Party};
use xl_index::{Index, enter_all, leave_all};
use xl_matrix::{Claim, Extent, What};
use xl_names::Names;
use xl_spans::Span;
use xl_steps::Steps;

/// How many claims a table holds.
pub const CLAIMS: usize = 16_384;

/// Why a claim could not be entered.
#[derive(Clone, Copy, Debug, Error)]
pub enum TableErr {
    /// Memory ran out.
    #[error("no memory")]
    NoMemory,
    /// The table holds so many claims, and no more.
    #[error("the table is full at {0} claims")]
    Full(u32),
}

impl<T: Drop> From<AllocFailed<T>> for TableErr {
    ghost from_gives = { λ _ e. e ≡ NoMemory };

    fn from(_e: AllocFailed<T>) -> TableErr {
        TableErr::NoMemory
    }
}

impl From<AllocError> for TableErr {
    ghost from_gives = { λ _ e. e ≡ NoMemory };

    fn from(_e: AllocError) -> TableErr {
        TableErr::NoMemory
    }
}

/// The claims that are held, at most 16,384. A contract sees their flat list, which stands in this order: by file;
/// then shares, ranges, caches; then by owner (shares, ranges) or party (caches), in the order of their protocol (NLM,
/// NFSv4, SMB) and number; the ranges of an NLM or NFSv4 owner by first byte, those of an SMB open as they were locked.
#[derive(Drop)]
pub struct Table {
    /// A list of each file's claims, by file. A list may be without claims (TABLE-10).
    lists: Vec<OnFile>,
    /// How many claims there are, the deadlines of the breaks that run, and on which files each party stands.
    index: Index,
}

impl Model for Table {
    ghost use Rattle.std.specs.Prelude.{List};
    ghost use Rattle.xl_matrix.specs.declared.claim.Claim.{Claim};
    ghost use Rattle.xl_table.specs.Held.{IsKept};
    ghost use Rattle.xl_table.specs.Files.{joined, IsFiled};
    ghost use Rattle.xl_index.specs.Index.{IsIndexOf};

    ghost Value = { List Claim };

    ghost view = { λ t. joined t.lists.items };

    ghost invariant = { λ t. IsFiled t.lists.items × IsKept (joined t.lists.items) × IsIndexOf t.index (joined t.lists.items) };
}

#[tactic(auto, using(crate::proofs::KeptLaws::kept_empty))]
impl Table {
    ghost use Rattle.xl_base.specs.Lists.{IsIn};
    ghost use Rattle.xl_matrix.specs.Equal.{same_parties};
    ghost use Rattle.xl_table.specs.Order.{no_later};
    ghost use Rattle.xl_matrix.specs.Owners.{posix};
    ghost use Rattle.xl_table.specs.Flat.{inserted, removed, changed, blocks, is_blocked, may_obstruct, is_due, locks, range_key, holder};
    ghost use Rattle.xl_table.specs.Held.{is_range, is_share, is_cache, has_one_party, spans_of, IsGrantable, IsSound, IsKept};
    ghost use Rattle.xl_table.specs.Leaving.{goes, IsNextLeft};
    ghost use Rattle.xl_table.specs.Sections.{is_cache_by};
    ghost use Rattle.xl_table.specs.Relock.{is_share_of, holds_byte, holds_range, relocked_in, granted_claims, most_claims};
    ghost use Rattle.xl_table.specs.Changes.{written, MayBeWritten};
    ghost use Rattle.xl_table.specs.Elements.{is_held, element_held, taken_back, CameLast};
    ghost use Rattle.xl_table.specs.Least.{least};

    /// The table without claims; it takes no memory.
    pub fn new(alloc: Global) -> Table
        ensures { result ≡ [] }
    {
        Table {
            lists: Vec::new(alloc),
            index: Index::new(alloc),
        }
    }

    /// A list of the claims in their order, for who shows them all.
    pub fn claims(&self, alloc: Global) -> Result<Vec<Claim>, AllocError>
        ensures { IfOk result (λ v. v.items ≡ self.now) }
    {
        list_all(alloc, &self.lists, self.index.len())
    }

    /// How many claims there are; and what a table keeps of them.
    pub fn len(&self) -> usize
        ensures len { result ≡ length self.now }
        ensures kept { IsKept self.now }
    {
        self.index.len()
    }

    /// Whether there is no claim.
    pub fn is_empty(&self) -> bool
        ensures { IsTrue result ↔ (self.now ≡ []) }
    {
        self.index.len() == 0
    }

    /// Whether this claim is held. It takes no memory.
    pub fn contains(&self, claim: &Claim) -> bool
        ensures test { result ≡ is_held claim.now self.now }
        ensures held { IsTrue result ↔ IsIn claim.now self.now }
    {
        is_held(&self.lists, claim)
    }

    /// The held claims that block the ask (see `is_blocked_by`), in the table's order.
    pub fn blockers(&self, alloc: Global, ask: &Claim) -> Result<Vec<Claim>, AllocError>
        ensures { IfOk result (λ v. v.items ≡ filter (λ held. blocks ask.now held) self.now) }
    {
        list_blockers(alloc, &self.lists, ask)
    }

    /// The same as `blockers`, with each look at a claim counted as a step: there are no more steps than claims on the
    /// ask's file (TABLE-18).
    pub fn blockers_in<L: Ledger>(
        &self,
        alloc: Global,
        ask: &Claim,
        steps: &mut Steps<L>,
    ) -> Result<Vec<Claim>, AllocError>
        ensures blockers { IfOk result (λ v. v.items ≡ filter (λ held. blocks ask.now held) self.now) }
        ensures more { steps.old ≤ steps.new }
        ensures few { steps.new ≤ steps.old + length (filter (λ held. held.file == ask.now.file) self.now) }
    {
        list_blockers_in(alloc, &self.lists, ask, steps)
    }

    /// The held claims that may stand in the ask's way: those that block it, and the caches on its file; in the table's
    /// order.
    pub fn obstacles(&self, alloc: Global, ask: &Claim) -> Result<Vec<Claim>, AllocError>
        ensures { IfOk result (λ v. v.items ≡ filter (may_obstruct ask.now) self.now) }
    {
        list_obstacles(alloc, &self.lists, ask)
    }

    /// Whether something held blocks the ask. It takes no memory.
    pub fn is_blocked(&self, ask: &Claim) -> bool
        ensures { result ≡ is_blocked self.now ask.now }
    {
        is_blocked(&self.lists, ask)
    }

    /// The least of the held claims that block the ask: by first byte, then by last (a range without bytes before all
    /// that begin there), then exclusive before shared, then by the text of the owner.
    pub fn least_blocker(
        &self,
        alloc: Global,
        names: &Names,
        ask: &Claim,
    ) -> Result<Option<Claim>, AllocError>
        ensures { IfOk result (λ c. c ≡ least names.now (filter (λ held. blocks ask.now held) self.now)) }
    {
        let least = least_on(alloc, names, &self.lists, ask, false)?;
        Ok(least)
    }

    /// The least of the held ranges that block the ask, which a test is answered with.
    pub fn least_range(
        &self,
        alloc: Global,
        names: &Names,
        ask: &Claim,
    ) -> Result<Option<Claim>, AllocError>
        ensures { IfOk result (λ c. c ≡ least names.now (filter (λ held. is_range held.what) (filter (λ held. blocks ask.now held) self.now))) }
    {
        let least = least_on(alloc, names, &self.lists, ask, true)?;
        Ok(least)
    }

    /// The spans of an NLM or NFSv4 owner's ranges on a file: maximal runs of one mode, in the order of their bytes. They are
    /// read from the claims, and kept nowhere else (TABLE-13).
    #[tactic(auto, using(crate::proofs::SectionLaws::spans_on_file))]
    pub fn spans_of(&self, alloc: Global, file: u32, owner: Owner) -> Result<Vec<Span>, AllocError>
        ensures { IfOk result (λ v. v.items ≡ spans_of file owner self.now) }
    {
        let ranges = ranges_by(alloc, &self.lists, file, owner)?;
        spans_in(alloc, &ranges)
    }

    /// Whether the owner has a byte of the range on the file. It takes no memory.
    pub fn holds_byte(&self, file: u32, owner: Owner, first: u64, last: u64) -> bool
        ensures { result ≡ holds_byte file owner first last self.now }
    {
        has_byte(&self.lists, file, owner, first, last)
    }

    /// Whether the owner has a range on some file. It takes no memory.
    pub fn holds_range(&self, owner: Owner) -> bool
        ensures { result ≡ holds_range owner self.now }
    {
        has_range(&self.lists, owner)
    }

    /// The owner's share on the file, of which it has one at most; the first if there are more. It takes no memory.
    pub fn share_of(&self, file: u32, owner: Owner) -> Option<Claim>
        ensures share { result ≡ find (is_share_of file owner) self.now }
        ensures held { IfSome result (λ c. IsIn c self.now) }
    {
        find_share(&self.lists, file, owner)
    }

    /// The shares on a file, in the table's order.
    pub fn shares_on(&self, alloc: Global, file: u32) -> Result<Vec<Claim>, AllocError>
        ensures { IfOk result (λ v. v.items ≡ filter (λ held. (held.file == file) && is_share held.what) self.now) }
    {
        shares_on(alloc, &self.lists, file)
    }

    /// The caches on a file, in the table's order.
    pub fn caches_on(&self, alloc: Global, file: u32) -> Result<Vec<Claim>, AllocError>
        ensures { IfOk result (λ v. v.items ≡ filter (λ held. (held.file == file) && is_cache held.what) self.now) }
    {
        caches_on(alloc, &self.lists, file)
    }

    /// The party's cache on the file, of which it has one at most; the first if there are more. It takes no memory.
    pub fn cache_of(&self, file: u32, party: Party) -> Option<Claim>
        ensures cache { result ≡ find (is_cache_by file party) self.now }
        ensures held { IfSome result (λ c. IsIn c self.now) }
    {
        find_cache(&self.lists, file, party)
    }

    /// Whether there is a cache on the file. It takes no memory.
    pub fn has_cache(&self, file: u32) -> bool
        ensures { result ≡ list_any (λ held. (held.file == file) && is_cache held.what) self.now }
    {
        has_cache(&self.lists, file)
    }

    /// The held claim that the unlock of a range by an SMB open takes out: one of just this range, an exclusive one
    /// before a shared one (MS-FSA 2.1.5.9), by the list of all that the open has on the file. None if it holds none; a
    /// part of a range, or what covers several, is none. `ask` names the open and the file.
    pub fn element_held(
        &self,
        alloc: Global,
        ask: &Claim,
        extent: Extent,
    ) -> Result<Option<Claim>, AllocError>
        requires open { posix ask.now.owner ≡ false }
        ensures { IfOk result (λ claim. claim ≡ element_held ask.now extent self.now) }
    {
        find_unlocked(alloc, &self.lists, ask, extent)
    }

    /// What a grant of the claim changes, once nothing stands in its way: a share takes the place of its owner's on the
    /// file, or is united with it (NFSv4); a range of an NLM or NFSv4 owner gets its mode, in place of those it had; a range
    /// of an SMB open comes behind those that it has on the file (MS-FSA 2.1.5.8).
    pub fn granted(&self, alloc: Global, claim: &Claim) -> Result<Change, AllocError>
        requires grantable { IsGrantable claim.now }
        requires party { AllByRecursion (λ c. has_one_party claim.now c ≡ true) self.now }
        ensures claims { IfOk result (λ change. written change self.now ≡ granted_claims claim.now self.now) }
        ensures fits { IfOk result (λ change. MayBeWritten change self.now) }
        ensures kept { IsKept self.now }
    {
        Ok(grant(alloc, &self.lists, self.index.len(), claim)?)
    }

    /// What an unlock of this range of an NLM or NFSv4 owner changes. `ask` is a range of the owner on the file.
    pub fn unlocked(
        &self,
        alloc: Global,
        ask: &Claim,
        first: u64,
        last: u64,
    ) -> Result<Change, AllocError>
        requires posix { posix ask.now.owner ≡ true }
        requires range { is_range ask.now.what ≡ true }
        requires ends { first ≤ last }
        requires party { AllByRecursion (λ c. has_one_party ask.now c ≡ true) self.now }
        ensures claims { IfOk result (λ change. written change self.now ≡ relocked_in ask.now.file ask.now.owner ask.now.party first last None self.now) }
        ensures fits { IfOk result (λ change. MayBeWritten change self.now) }
    {
        Ok(unlock(alloc, &self.lists, self.index.len(), ask, first, last)?)
    }

    /// Writes a change that was worked out on these claims, if there is room for what it leaves. After an error the
    /// table is as it was.
    #[tactic(auto, using(crate::proofs::IndexedLaws::has_none, crate::proofs::IndexedLaws::few_written, crate::proofs::IndexedLaws::has_come, crate::proofs::IndexedLaws::back_again, crate::proofs::IndexedLaws::still, crate::proofs::IndexedLaws::has_gone))]
    pub fn write(&mut self, change: &Change) -> Result<(), AllocError>
        requires fits { MayBeWritten change.now self.old }
        requires room { change.now.held ≤ most_claims }
        ensures ok { OnOk result (self.new ≡ written change.now self.old) }
        ensures err { OnErr result (self.new ≡ self.old) }
    {
        let alloc = *self.lists.allocator();
        let gone = gone_by(alloc, &self.lists, change)?;
        enter_all(&mut self.index, &change.entered)?;
        if let Err(error) = write(alloc, &mut self.lists, change) {
            leave_all(&mut self.index, &change.entered);
            return Err(error);
        }
        leave_all(&mut self.index, &gone);
        Ok(())
    }

    /// Takes out the claims that go with who leaves: on those files alone on which that party, or that open, stands. It
    /// takes no memory.
    #[tactic(auto, using(crate::proofs::WriteBack::kept_filter))]
    pub fn remove_leaver(&mut self, leaver: Leaver)
        ensures { self.new ≡ filter (λ held. not (goes leaver held)) self.old }
    {
        drop_leaver(&mut self.lists, &mut self.index, leaver);
    }

    /// The first file, or the first past this one, from which claims go with who leaves. It takes no memory.
    pub fn next_left(&self, leaver: Leaver, past: Option<u32>) -> Option<u32>
        ensures { IsNextLeft result leaver past self.now }
    {
        next_left(&self.index, leaver, past)
    }

    /// Enters a claim at its place: behind all that stand no later. Full comes exactly if the table holds 16,384.
    /// After an error the table is as it was.
    ///
    /// Afterwards each range with bytes must have a first byte no later than its last, and an owner's ranges on a file
    /// one party; the ranges of an NLM or NFSv4 owner on a file must be maximal runs of one mode, none of them empty;
    /// and no SMB range may have all bytes from 0 to 2^64 - 1.
    #[tactic(auto, using(crate::proofs::KeptLaws::kept_inserted, crate::proofs::IndexedLaws::has_none, crate::proofs::IndexedLaws::one_come, crate::proofs::IndexedLaws::back_again, crate::proofs::IndexedLaws::still, crate::proofs::IndexedLaws::index_inserted))]
    pub fn insert(&mut self, claim: Claim) -> Result<(), TableErr>
        requires { IsSound (inserted claim self.old) }
        ensures ok { OnOk result (self.new ≡ inserted claim self.old) }
        ensures full { (n : ℕ) → (result ≡ Err (TableErr.Full n)) ↔ ((n ≡ most_claims) × (length self.old ≡ most_claims)) }
        ensures err { OnErr result (self.new ≡ self.old) }
    {
        if self.index.len() >= CLAIMS {
            return Err(TableErr::Full(CLAIMS as u32));
        }
        let alloc = *self.lists.allocator();
        let at = open_file(alloc, &mut self.lists, claim.file)?;
        self.index.enter(&claim)?;
        if let Err(error) = put(&mut self.lists, at, claim) {
            self.index.leave(&claim);
            return Err(TableErr::from(error));
        }
        Ok(())
    }

    /// Gives the first claim equal to this one something else to claim, and puts it at its place then. It takes no
    /// memory. Afterwards the same must hold as after `insert`.
    #[tactic(auto, using(crate::proofs::KeptLaws::kept_changed, crate::proofs::IndexedLaws::has_held, crate::proofs::IndexedLaws::index_changed))]
    pub fn change(&mut self, claim: &Claim, to: What)
        requires held { IsIn claim.now self.old }
        requires sound { IsSound (changed claim.now to self.old) }
        ensures { self.new ≡ changed claim.now to self.old }
    {
        replace(&mut self.lists, claim, to);
        self.index.recast(claim, to);
    }

    /// Takes out the first claim equal to this one; the table is as it was if none is. It takes no memory.
    #[tactic(auto, using(crate::proofs::KeptLaws::kept_removed, crate::proofs::FlatLaws::removed_none, crate::proofs::IndexedLaws::has_equal, crate::proofs::IndexedLaws::index_removed, crate::proofs::IndexedLaws::index_none))]
    pub fn remove(&mut self, claim: &Claim)
        ensures { self.new ≡ removed claim.now self.old }
    {
        if take_out(&mut self.lists, claim) {
            self.index.leave(claim);
        }
    }

    /// Takes back a claim that was the last to come among those that stand at its place: the table is then as it was before
    /// that came. It takes no memory.
    #[tactic(auto, using(crate::proofs::ElementLaws::last_kept, crate::proofs::ElementLaws::last_before, crate::proofs::IndexedLaws::has_last, crate::proofs::IndexedLaws::index_back))]
    pub fn take_back(&mut self, claim: &Claim)
        requires last { CameLast claim.now self.old }
        ensures claims { self.new ≡ taken_back claim.now self.old }
        ensures before { (before : List Claim) → self.old ≡ inserted claim.now before → self.new ≡ before }
    {
        take_back(&mut self.lists, claim);
        self.index.leave(claim);
    }

    /// The claims of a party, in the table's order: only those files are gone through on which it has some.
    pub fn of_party(&self, alloc: Global, party: Party) -> Result<Vec<Claim>, AllocError>
        ensures { IfOk result (λ v. v.items ≡ filter (λ held. same_parties held.party party) self.now) }
    {
        list_party(alloc, &self.lists, &self.index, party)
    }

    /// The claims on a file, in the table's order.
    pub fn of_file(&self, alloc: Global, file: u32) -> Result<Vec<Claim>, AllocError>
        ensures { IfOk result (λ v. v.items ≡ filter (λ held. held.file == file) self.now) }
    {
        list_file(alloc, &self.lists, file)
    }

    /// The caches whose break runs with a deadline at or before now, in the table's order.
    #[tactic(auto, using(crate::proofs::IndexedLaws::has_none, crate::proofs::IndexedLaws::none_due))]
    pub fn due(&self, alloc: Global, now: Moment) -> Result<Vec<Claim>, AllocError>
        ensures { IfOk result (λ v. v.items ≡ filter (λ held. is_due now held) self.now) }
    {
        if !self.index.has_due(now) {
            return Ok(Vec::new(alloc));
        }
        list_due(alloc, &self.lists, now)
    }

    /// The same as `due`, with each look at a deadline counted as a step: there is at most one more than claims are due
    /// (TABLE-18).
    #[tactic(auto, using(crate::proofs::IndexedLaws::has_none, crate::proofs::IndexedLaws::none_counted, crate::proofs::IndexedLaws::few_due))]
    pub fn due_in<L: Ledger>(
        &self,
        alloc: Global,
        now: Moment,
        steps: &mut Steps<L>,
    ) -> Result<Vec<Claim>, AllocError>
        ensures due { IfOk result (λ v. v.items ≡ filter (λ held. is_due now held) self.now) }
        ensures more { steps.old ≤ steps.new }
        ensures few { steps.new ≤ steps.old + length (filter (λ held. is_due now held) self.now) + 1 }
    {
        if self.index.count_due(now, steps) == 0 {
            return Ok(Vec::new(alloc));
        }
        list_due(alloc, &self.lists, now)
    }

    /// The range on the file that has the byte: the least by first byte, then by last, then exclusive before shared; of
    /// equal ones the first in the table's order. None comes exactly if no range has it. It takes no memory.
    pub fn holder_of(&self, file: u32, byte: u64) -> Option<Claim>
        ensures value { result ≡ holder file byte self.now }
        ensures none { (result ≡ None) ↔ AllByRecursion (λ c. locks file byte c ≡ false) self.now }
        ensures found { IfSome result (λ c. IsIn c self.now × (locks file byte c ≡ true)) }
        ensures least { IfSome result (λ c. AllByRecursion (λ d. locks file byte d ≡ true → no_later (range_key c) (range_key d) ≡ true) self.now) }
    {
        find_holder(&self.lists, file, byte)
    }
}
