//! Laws of the statuses with which a request on a stateid is refused. The functions do nothing: each has laws as its clauses.
ghost use Rattle.std.specs.Prelude.{◌≡◌, ◌↔◌, ◌<◌, ◌≤◌, ◌-◌, ◌^◌, ◌⊎◌, ℕ, Bool, true, false, List, [], Option, Some, None, Err, is_some};
ghost use Rattle.xl_nfs.specs.Locks.{LockArgsItem, NewLockerItem};
ghost use Rattle.xl_nfs.specs.declared.basics.Stateid.{Stateid};
ghost use Rattle.xl_nfs.specs.declared.locks.KnownLocker.{KnownLocker as Locker};
ghost use Rattle.xl_nfs.specs.declared.locks.UnlockArgs.{UnlockArgs as Unlocked};
ghost use Rattle.xl_nfs.specs.declared.opens.CloseArgs.{CloseArgs};
ghost use Rattle.xl_nfs.specs.declared.opens.OpenConfirmArgs.{OpenConfirmArgs};
ghost use Rattle.xl_nfs.specs.declared.opens.OpenDowngradeArgs.{OpenDowngradeArgs};
ghost use Rattle.xl_nfs.specs.declared.status.NfsStatus.{NfsStatus as Status};
ghost use Rattle.xl_nfs.specs.declared.status.NfsStatus.TheVariants.{BadSeqid, BadStateid, Inval, NoFileHandle, OldStateid, OpenMode, StaleStateid};
ghost use Rattle.xl_nfs_state.specs.State.{NfsLists};
ghost use Rattle.xl_nfs_state.specs.declared.client.ClientRow.{ClientRow};
ghost use Rattle.xl_nfs_state.specs.declared.owner.SeqidState.{SeqidState as OwnerSeqids};
ghost use Rattle.xl_nfs_state.specs.declared.stateid.StateidRow.{StateidRow};
ghost use Rattle.xl_core.specs.State.{CoreState};
ghost use Rattle.xl_nfs_locks.specs.Checks.{locks_found};
ghost use Rattle.xl_nfs_locks.specs.FirstLocks.{join_checked, join_in, join_of, locker_under};
ghost use Rattle.xl_nfs.specs.declared.basics.LockType.{LockType};
ghost use Rattle.xl_nfs_locks.specs.Locks.{access_above, lock_end, lock_found, lock_standing};
ghost use Rattle.xl_nfs_locks.specs.Ranges.{last_byte};
ghost use Rattle.xl_nfs_locks.specs.Unlocks.{unlock_found, unlock_standing};
ghost use Rattle.xl_nfs_locks.specs.declared.joining.BothOwners.{BothOwners as Owners};
ghost use Rattle.xl_nfs_opens.specs.Closing.{checked, close_by, confirm_by, standing_fault};
ghost use Rattle.xl_nfs_opens.specs.Downgrades.{downgrade_by};
ghost use Rattle.xl_nfs_opens.specs.Plans.{carried};
ghost use Rattle.xl_nfs_opens.specs.Renewing.{number_of};
ghost use Rattle.xl_nfs_opens.specs.declared.opener.Checked.TheVariants.{Passed, Refused};
ghost use Rattle.xl_nfs_opens.specs.declared.opener.Opener.{Opener as LockOwner};
ghost use Rattle.xl_nfs_opens.specs.declared.told.Told.TheVariants.{Ended};
ghost use Rattle.xl_nfs_laws.specs.AnsweredStateids.{AreLocksOutOfOrder, IsBeyond, IsCheckStatus, IsNextOnOpen, IsNoRange, IsOutOfOrder};

/// OPEN_CONFIRM, OPEN_DOWNGRADE, CLOSE, and a LOCK under an open, are judged further exactly if their stateid is of this
/// start, and of an open on the current file that isn't closed, and their seqid is the one after its owner's last. Else,
/// unless they repeat the last, they are refused: NOFILEHANDLE exactly if there is no current file; STALE_STATEID exactly if
/// the stateid is of another start; BAD_SEQID exactly if it is of such an open, and the seqid is neither the next nor the
/// last by the same operation; and BAD_STATEID is all that is left (RFC 7530 9.1.4, 9.1.7).
pub fn opens_are_refused_so()
    ensures passed { (s : CoreState) (l : NfsLists) (current : Option ℕ) (op seqid : ℕ) (stateid : Stateid) (r : StateidRow) (w : ℕ) (seqids : OwnerSeqids) → (checked s l current op seqid stateid ≡ Passed r w seqids) ↔ IsNextOnOpen s l current seqid stateid r w seqids }
    ensures no_file { (s : CoreState) (l : NfsLists) (current : Option ℕ) (op seqid : ℕ) (stateid : Stateid) → (checked s l current op seqid stateid ≡ Refused NoFileHandle) ↔ (current ≡ None) }
    ensures stale { (s : CoreState) (l : NfsLists) (current : Option ℕ) (op seqid : ℕ) (stateid : Stateid) → (checked s l current op seqid stateid ≡ Refused StaleStateid) ↔ ((is_some current ≡ true) × (number_of s stateid.other ≡ None)) }
    ensures astray { (s : CoreState) (l : NfsLists) (current : Option ℕ) (op seqid : ℕ) (stateid : Stateid) → (checked s l current op seqid stateid ≡ Refused BadSeqid) ↔ IsOutOfOrder s l current op seqid stateid }
    ensures no_other { (s : CoreState) (l : NfsLists) (current : Option ℕ) (op seqid : ℕ) (stateid : Stateid) (status : Status) → checked s l current op seqid stateid ≡ Refused status → IsCheckStatus status }
{}

/// So are a LOCK by a lock's stateid, and a LOCKU, of locks in place of an open (RFC 7530 9.1.4, 9.1.7); what passes says
/// `known_locks_are_judged`.
pub fn locks_are_refused_so()
    ensures no_file { (s : CoreState) (l : NfsLists) (current : Option ℕ) (op seqid : ℕ) (stateid : Stateid) → (locks_found s l current op seqid stateid ≡ Refused NoFileHandle) ↔ (current ≡ None) }
    ensures stale { (s : CoreState) (l : NfsLists) (current : Option ℕ) (op seqid : ℕ) (stateid : Stateid) → (locks_found s l current op seqid stateid ≡ Refused StaleStateid) ↔ ((is_some current ≡ true) × (number_of s stateid.other ≡ None)) }
    ensures astray { (s : CoreState) (l : NfsLists) (current : Option ℕ) (op seqid : ℕ) (stateid : Stateid) → (locks_found s l current op seqid stateid ≡ Refused BadSeqid) ↔ AreLocksOutOfOrder s l current op seqid stateid }
    ensures no_other { (s : CoreState) (l : NfsLists) (current : Option ℕ) (op seqid : ℕ) (stateid : Stateid) (status : Status) → locks_found s l current op seqid stateid ≡ Refused status → IsCheckStatus status }
{}

/// Of one that is judged further the stateid's own seqid is OLD_STATEID exactly if it is less than what the stateid has now,
/// and BAD_STATEID exactly if it is more, or if it is that and its owner isn't confirmed, or of OPEN_CONFIRM is already (RFC
/// 7530 9.1.4, 16.18).
pub fn stateids_are_old_or_bad()
    ensures old { (r : StateidRow) (seqids : OwnerSeqids) (seqid : ℕ) (confirmed : Bool) → (standing_fault r seqids seqid confirmed ≡ Some OldStateid) ↔ (seqid < r.standing.seqid) }
    ensures bad { (r : StateidRow) (seqids : OwnerSeqids) (seqid : ℕ) (confirmed : Bool) → (standing_fault r seqids seqid confirmed ≡ Some BadStateid) ↔ ((r.standing.seqid < seqid) ⊎ ((seqid ≡ r.standing.seqid) × (seqids.confirmed ≡ confirmed → ⊥))) }
{}

/// A request that is refused so is answered with that status, and changes nothing but the lease that is renewed before.
pub fn refusals_are_told()
    ensures confirms { (n : ℕ) (s : CoreState) (l : NfsLists) (current : Option ℕ) (a : OpenConfirmArgs) (status : Status) → checked s l current 20 a.seqid a.stateid ≡ Refused status → carried n s l (confirm_by s l current a (checked s l current 20 a.seqid a.stateid)) ≡ (Ended status, current, [], l, s) }
    ensures downgrades { (n : ℕ) (s : CoreState) (l : NfsLists) (current : Option ℕ) (a : OpenDowngradeArgs) (status : Status) → checked s l current 21 a.seqid a.stateid ≡ Refused status → carried n s l (downgrade_by s l current a (checked s l current 21 a.seqid a.stateid)) ≡ (Ended status, current, [], l, s) }
    ensures closes { (n : ℕ) (s : CoreState) (l : NfsLists) (current : Option ℕ) (a : CloseArgs) (status : Status) → checked s l current 4 a.seqid a.stateid ≡ Refused status → carried n s l (close_by s l current a (checked s l current 4 a.seqid a.stateid)) ≡ (Ended status, current, [], l, s) }
    ensures locks { (n : ℕ) (s : CoreState) (l : NfsLists) (current : Option ℕ) (a : LockArgsItem) (x : Locker) (status : Status) → locks_found s l current 12 x.seqid x.stateid ≡ Refused status → carried n s l (lock_found s l current a x (locks_found s l current 12 x.seqid x.stateid)) ≡ (Ended status, current, [], l, s) }
    ensures first { (n : ℕ) (s : CoreState) (l : NfsLists) (current : Option ℕ) (a : LockArgsItem) (x : NewLockerItem) (status : Status) → checked s l current 12 x.open_seqid x.open_stateid ≡ Refused status → carried n s l (join_checked s l current a x (checked s l current 12 x.open_seqid x.open_stateid)) ≡ (Ended status, current, [], l, s) }
    ensures unlocks { (n : ℕ) (s : CoreState) (l : NfsLists) (current : Option ℕ) (a : Unlocked) (status : Status) → locks_found s l current 14 a.seqid a.stateid ≡ Refused status → carried n s l (unlock_found s l current a (locks_found s l current 14 a.seqid a.stateid)) ≡ (Ended status, current, [], l, s) }
{}

/// And one whose stateid's own seqid is old or bad is answered so.
pub fn old_stateids_are_told()
    ensures confirms { (n : ℕ) (s : CoreState) (l : NfsLists) (current : Option ℕ) (a : OpenConfirmArgs) (r : StateidRow) (w : ℕ) (seqids : OwnerSeqids) (status : Status) → checked s l current 20 a.seqid a.stateid ≡ Passed r w seqids → standing_fault r seqids a.stateid.seqid false ≡ Some status → (carried n s l (confirm_by s l current a (checked s l current 20 a.seqid a.stateid))).0 ≡ Ended status }
    ensures downgrades { (n : ℕ) (s : CoreState) (l : NfsLists) (current : Option ℕ) (a : OpenDowngradeArgs) (r : StateidRow) (w : ℕ) (seqids : OwnerSeqids) (status : Status) → checked s l current 21 a.seqid a.stateid ≡ Passed r w seqids → standing_fault r seqids a.stateid.seqid true ≡ Some status → (carried n s l (downgrade_by s l current a (checked s l current 21 a.seqid a.stateid))).0 ≡ Ended status }
    ensures closes { (n : ℕ) (s : CoreState) (l : NfsLists) (current : Option ℕ) (a : CloseArgs) (r : StateidRow) (w : ℕ) (seqids : OwnerSeqids) (status : Status) → checked s l current 4 a.seqid a.stateid ≡ Passed r w seqids → standing_fault r seqids a.stateid.seqid true ≡ Some status → (carried n s l (close_by s l current a (checked s l current 4 a.seqid a.stateid))).0 ≡ Ended status }
    ensures locks { (n : ℕ) (s : CoreState) (l : NfsLists) (current : Option ℕ) (a : LockArgsItem) (x : Locker) (r : StateidRow) (w : ℕ) (seqids : OwnerSeqids) (status : Status) → locks_found s l current 12 x.seqid x.stateid ≡ Passed r w seqids → standing_fault r seqids x.stateid.seqid true ≡ Some status → (carried n s l (lock_found s l current a x (locks_found s l current 12 x.seqid x.stateid))).0 ≡ Ended status }
    ensures first { (n : ℕ) (s : CoreState) (l : NfsLists) (current : Option ℕ) (a : LockArgsItem) (x : NewLockerItem) (r : StateidRow) (w : ℕ) (seqids : OwnerSeqids) (status : Status) → checked s l current 12 x.open_seqid x.open_stateid ≡ Passed r w seqids → standing_fault r seqids x.open_stateid.seqid true ≡ Some status → (carried n s l (join_checked s l current a x (checked s l current 12 x.open_seqid x.open_stateid))).0 ≡ Ended status }
    ensures unlocks { (n : ℕ) (s : CoreState) (l : NfsLists) (current : Option ℕ) (a : Unlocked) (r : StateidRow) (w : ℕ) (seqids : OwnerSeqids) (status : Status) → locks_found s l current 14 a.seqid a.stateid ≡ Passed r w seqids → standing_fault r seqids a.stateid.seqid true ≡ Some status → (carried n s l (unlock_found s l current a (locks_found s l current 14 a.seqid a.stateid))).0 ≡ Ended status }
{}

/// The range of a LOCK is INVAL exactly if it has no bytes, or goes past the last byte that there is and its length isn't all
/// ones, and so is that of a LOCKU; its type is OPENMODE exactly if its range isn't INVAL and its open has no such access: a
/// lock for reading wants an open for reading, and one for writing an open for writing (RFC 7530 16.10.4, 16.12).
pub fn ranges_are_refused_so()
    ensures unlocks { (offset len : ℕ) → offset ≤ 2 ^ 64 - 1 → (last_byte offset len ≡ None) ↔ IsNoRange offset len }
    ensures inval { (kind : LockType) (access offset len : ℕ) → offset ≤ 2 ^ 64 - 1 → (lock_end kind access (last_byte offset len) ≡ Err Inval) ↔ IsNoRange offset len }
    ensures mode { (kind : LockType) (access offset len : ℕ) → offset ≤ 2 ^ 64 - 1 → (lock_end kind access (last_byte offset len) ≡ Err OpenMode) ↔ ((IsNoRange offset len → ⊥) × IsBeyond kind access) }
{}

/// A LOCK or a LOCKU whose stateid passed is answered so if its range or its type is refused. So is a LOCK under an open, of
/// which the lock owner's client isn't the open's, exactly: it is INVAL (RFC 7530 16.10).
pub fn refused_ranges_are_told()
    ensures locks { (n : ℕ) (s : CoreState) (l : NfsLists) (current : Option ℕ) (a : LockArgsItem) (r : StateidRow) (w seqid : ℕ) (seqids : OwnerSeqids) (status : Status) → lock_end a.kind (access_above l r.holder) (last_byte a.offset a.len) ≡ Err status → (carried n s l (lock_standing l current a r w seqids seqid None)).0 ≡ Ended status }
    ensures first { (n : ℕ) (s : CoreState) (l : NfsLists) (current : Option ℕ) (a : LockArgsItem) (b : Owners) (o : LockOwner) (r : StateidRow) (q : Option StateidRow) (status : Status) → lock_end a.kind r.standing.access (last_byte a.offset a.len) ≡ Err status → (carried n s l (join_in l current a b o r q)).0 ≡ Ended status }
    ensures unlocks { (n : ℕ) (s : CoreState) (l : NfsLists) (current : Option ℕ) (a : Unlocked) (r : StateidRow) (w : ℕ) (seqids : OwnerSeqids) → last_byte a.offset a.len ≡ None → (carried n s l (unlock_standing l current a r w seqids None)).0 ≡ Ended Inval }
    ensures foreign { (r : StateidRow) (owner : List ℕ) (c : Option ClientRow) → (locker_under r owner c ≡ None) ↔ ((k : ClientRow) → c ≡ Some k → k.number ≡ r.client → ⊥) }
    ensures foreign_told { (n : ℕ) (s : CoreState) (l : NfsLists) (current : Option ℕ) (a : LockArgsItem) (x : NewLockerItem) (b : Owners) (r : StateidRow) (c : Option ClientRow) → ((k : ClientRow) → c ≡ Some k → k.number ≡ r.client → ⊥) → (carried n s l (join_of l current a x b r (locker_under r x.owner.owner c))).0 ≡ Ended Inval }
{}
