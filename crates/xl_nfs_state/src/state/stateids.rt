//! The stateids among the lists.
ghost use Rattle.std.specs.Prelude.{◌≡◌, ◌<◌, ◌≤◌, ◌++◌, ◌∷◌, [], ◌==◌, ◌&&◌, true, length, map, filter, None, Some, IfSome, IfOk, OnOk, OnErr, IsSome, IsTrue, ◌↔◌, option_copied};
ghost use Rattle.std.specs.List.{AllByRecursion, IsDistinct, find};
ghost use Rattle.xl_nfs_state.specs.Filed.{changed};
ghost use Rattle.xl_nfs_state.specs.Keys.{stateid_key, place_of, same_place};
ghost use Rattle.xl_nfs_state.specs.Rows.{with_standing};
ghost use Rattle.xl_nfs_state.specs.State.{IsIdleStateid, IsSound, can_hang, hangs, is_live, is_open_by, is_stateid, is_whose, most_opens, open_fits, opens, owner_fits, owned_on, delegated_on, with_stateids, without};

use super::{NfsState, NfsStateErr};
use crate::filed::{Filed, Picks};
use crate::listing::{count_opens, has_any, is_live, list_stateids};
use crate::owner::{OwnerKind, OwnerRow};
use crate::picks::OneStateid;
use crate::stateid::{Holder, Place, Standing, StateidRow, Whose};
use std::alloc::{AllocError, Global};

impl NfsState {
    /// How many stateids there are. No two have one number; an owner has one on a file, and so has a client one
    /// delegation. The client of each is confirmed; its owner, if it has one, is the client's; and locks hang under an
    /// open of the client's on their file.
    pub fn stateid_count(&self) -> usize
        ensures count { result ≡ length self.now.stateids }
        ensures numbers { IsDistinct ◌==◌ (map stateid_key self.now.stateids) }
        ensures places { IsDistinct same_place (map place_of self.now.stateids) }
        ensures hanging { AllByRecursion (λ s. hangs self.now s ≡ true) self.now.stateids }
    {
        self.stateids.len()
    }

    /// How many opens there are, closed ones aside. What holds of the lists at all times is ensured with it.
    pub fn open_count(&self) -> usize
        ensures count { result ≡ opens self.now.stateids }
        ensures room { result ≤ most_opens }
        ensures sound { IsSound self.now }
    {
        self.live
    }

    /// The stateid of this number; None exactly if there is none.
    pub fn find_stateid(&self, number: u64) -> Option<&StateidRow>
        ensures { option_copied result ≡ find (is_stateid number) self.now.stateids }
    {
        self.stateids.find_number(&number)
    }

    /// What the owner has on the file: an open owner its open, closed or not, and a lock owner its locks. None exactly
    /// if it has nothing there.
    pub fn find_owned(&self, owner: u64, file: u32) -> Option<&StateidRow>
        ensures { option_copied result ≡ find (owned_on owner file) self.now.stateids }
    {
        self.stateids.find_name(&Place::Owned(owner, file))
    }

    /// The client's delegation on the file; None exactly if it has none.
    pub fn find_delegation(&self, client: u32, file: u32) -> Option<&StateidRow>
        ensures { option_copied result ≡ find (delegated_on client file) self.now.stateids }
    {
        self.stateids.find_name(&Place::Delegated(client, file))
    }

    /// Whether what the stateid hangs on is there: its client, confirmed; its owner, which is the client's and of its kind;
    /// and for locks their open, which is the client's, on their file and of the owner that is named.
    pub fn can_hang(&self, row: &StateidRow) -> bool
        ensures { result ≡ can_hang self.now row.now }
    {
        self.find_client(row.client, true).is_some()
            && match row.holder {
                Holder::Open(owner) => owner_fits(
                    row.client,
                    OwnerKind::Open,
                    self.find_owner(owner),
                ),
                Holder::Lock {
                    owner,
                    under,
                    opener,
                } => {
                    owner_fits(row.client, OwnerKind::Lock, self.find_owner(owner))
                        && open_fits(opener, row.client, row.file, self.find_stateid(under))
                }
                Holder::Delegation { write: _ } => true,
            }
    }

    /// Adds a stateid behind the others. None has its number; its owner has none on that file, or its client no delegation
    /// there; what it hangs on is there; and of opens that aren't closed there are fewer than 4,096. Want of memory changes
    /// nothing.
    pub fn add_stateid(&mut self, alloc: Global, row: StateidRow) -> Result<(), NfsStateErr>
        requires number { find (is_stateid row.number) self.old.stateids ≡ None }
        requires place { find (λ s. same_place (place_of row) (place_of s)) self.old.stateids ≡ None }
        requires hanging { can_hang self.old row ≡ true }
        requires room { is_live row ≡ true → opens self.old.stateids < most_opens }
        ensures ok { OnOk result (self.new ≡ with_stateids self.old (self.old.stateids ++ row ∷ [])) }
        ensures err { OnErr result (self.new ≡ self.old) }
    {
        enter(alloc, &mut self.stateids, &mut self.live, row)?;
        Ok(())
    }

    /// Changes what changes of the stateid of this number, which is there. A closed open stays closed.
    pub fn change_stateid(&mut self, number: u64, standing: Standing)
        requires closing { (row : StateidRow) → find (is_stateid number) self.old.stateids ≡ Some row → row.standing.closed ≡ true → standing.closed ≡ true }
        requires there { IsSome (find (is_stateid number) self.old.stateids) }
        ensures { self.new ≡ with_stateids self.old (changed (is_stateid number) (with_standing standing) self.old.stateids) }
    {
        change(&mut self.stateids, &mut self.live, number, standing);
    }

    /// Whether no locks hang under the stateid of this number. It walks over the list.
    pub fn is_stateid_idle(&self, number: u64) -> bool
        ensures { IsTrue result ↔ IsIdleStateid number self.now }
    {
        !has_any(&self.stateids, &Whose::Under(number))
    }

    /// Drops the stateid of this number, which is there and has no locks under it.
    pub fn drop_stateid(&mut self, number: u64)
        requires there { IsSome (find (is_stateid number) self.old.stateids) }
        requires idle { IsIdleStateid number self.old }
        ensures { self.new ≡ with_stateids self.old (without (is_stateid number) self.old.stateids) }
    {
        drop(&mut self.stateids, &mut self.live, &OneStateid(number));
    }

    /// The stateids that are meant, in order of arrival.
    pub fn list_stateids(&self, alloc: Global, whose: Whose) -> Result<Vec<StateidRow>, NfsStateErr>
        ensures { IfOk result (λ rows. rows.items ≡ filter (is_whose whose) self.now.stateids) }
    {
        Ok(list_stateids(alloc, &self.stateids, whose)?)
    }

    /// Drops the stateids that are meant; what hangs on them is among them.
    pub fn drop_stateids(&mut self, whose: Whose)
        ensures { self.new ≡ with_stateids self.old (without (is_whose whose) self.old.stateids) }
    {
        drop(&mut self.stateids, &mut self.live, &whose);
    }
}

fn owner_fits(client: u32, kind: OwnerKind, owner: Option<&OwnerRow>) -> bool
    ensures { result ≡ owner_fits client kind (option_copied owner.entry) }
{
    match owner {
        Some(row) => client == row.name.client && kind == row.name.kind,
        None => false,
    }
}

fn is_open_by(owner: u64, holder: Holder) -> bool
    ensures { result ≡ is_open_by owner holder }
{
    match holder {
        Holder::Open(by) => owner == by,
        _ => false,
    }
}

fn open_fits(owner: u64, client: u32, file: u32, at: Option<&StateidRow>) -> bool
    ensures { result ≡ open_fits owner client file (option_copied at.entry) }
{
    match at {
        Some(row) => is_open_by(owner, row.holder) && client == row.client && file == row.file,
        None => false,
    }
}

/// Adds a stateid behind the others, and counts it.
fn enter(
    alloc: Global,
    stateids: &mut Filed<StateidRow>,
    live: &mut usize,
    row: StateidRow,
) -> Result<(), AllocError>
    requires number { find (is_stateid row.number) stateids.old ≡ None }
    requires place { find (λ s. same_place (place_of row) (place_of s)) stateids.old ≡ None }
    requires count { live.old ≡ opens stateids.old }
    requires room { is_live row ≡ true → opens stateids.old < most_opens }
    ensures ok { OnOk result (stateids.new ≡ stateids.old ++ row ∷ []) }
    ensures err { OnErr result (stateids.new ≡ stateids.old) }
    ensures count { live.new ≡ opens stateids.new }
{
    stateids.add(alloc, row)?;
    if is_live(&row) {
        *live += 1;
    }
    Ok(())
}

/// Changes what changes of the stateid of this number, and counts it no more if it closes.
fn change(stateids: &mut Filed<StateidRow>, live: &mut usize, number: u64, standing: Standing)
    requires there { IsSome (find (is_stateid number) stateids.old) }
    requires closing { (row : StateidRow) → find (is_stateid number) stateids.old ≡ Some row → row.standing.closed ≡ true → standing.closed ≡ true }
    requires count { live.old ≡ opens stateids.old }
    ensures changed { stateids.new ≡ changed (is_stateid number) (with_standing standing) stateids.old }
    ensures count { live.new ≡ opens stateids.new }
{
    let closes = is_closed_by(stateids, number, standing);
    stateids.change(&number, standing);
    if closes {
        *live -= 1;
    }
}

/// Whether the stateid of this number is an open that wasn't closed, and is then.
fn is_closed_by(stateids: &Filed<StateidRow>, number: u64, standing: Standing) -> bool
    ensures { (row : StateidRow) → find (is_stateid number) stateids.now ≡ Some row → result ≡ (is_live row && standing.closed) }
{
    match stateids.find_number(&number) {
        Some(row) => is_live(row) && standing.closed,
        None => false,
    }
}

/// Drops the chosen stateids, and counts the others.
pub(super) fn drop<P: Picks<StateidRow>>(
    stateids: &mut Filed<StateidRow>,
    live: &mut usize,
    which: &P,
)
    ensures dropped { stateids.new ≡ without (P.picks which.now) stateids.old }
    ensures count { live.new ≡ opens stateids.new }
{
    stateids.drop_picked(which);
    *live = count_opens(stateids);
}
