//! Laws of lock owners: repeats, and the seqids of LOCK and LOCKU. The functions do nothing: each has laws as its clauses.
ghost use Rattle.std.specs.Prelude.{◌≡◌, ◌<◌, ◌↔◌, ◌^◌, ℕ, true, false, Option, Some, None};
ghost use Rattle.std.specs.List.{find};
ghost use Rattle.xl_core.specs.Good.{IsGood};
ghost use Rattle.xl_core.specs.State.{CoreState};
ghost use Rattle.xl_nfs.specs.Locks.{LockArgsItem, NewLockerItem};
ghost use Rattle.xl_nfs.specs.declared.basics.Stateid.{Stateid};
ghost use Rattle.xl_nfs.specs.declared.locks.KnownLocker.{KnownLocker as Locker};
ghost use Rattle.xl_nfs.specs.declared.locks.UnlockArgs.{UnlockArgs as Unlocked};
ghost use Rattle.xl_nfs.specs.declared.status.NfsStatus.{NfsStatus as Status};
ghost use Rattle.xl_nfs.specs.declared.status.NfsStatus.TheVariants.{BadSeqid, ServerFault};
ghost use Rattle.xl_nfs_state.specs.State.{NfsLists, IsSound, is_kept, is_owner, owned_on};
ghost use Rattle.xl_nfs_state.specs.Verdict.{next_seqid};
ghost use Rattle.xl_nfs_state.specs.declared.kept.KeptRow.{KeptRow};
ghost use Rattle.xl_nfs_state.specs.declared.owner.OwnerKind.TheVariants.{Open as OfOpens};
ghost use Rattle.xl_nfs_state.specs.declared.owner.OwnerRow.{OwnerRow};
ghost use Rattle.xl_nfs_state.specs.declared.owner.SeqidState.{SeqidState as OwnerSeqids};
ghost use Rattle.xl_nfs_state.specs.declared.stateid.StateidRow.{StateidRow};
ghost use Rattle.xl_nfs_locks.specs.Checks.{locks_found};
ghost use Rattle.xl_nfs_locks.specs.FirstLocks.{fits_under, found_joined, join_checked, lock, locker_under};
ghost use Rattle.xl_nfs_laws.specs.LockStateids.{HasComeAgain, IsLocksOf, IsNextOn};
ghost use Rattle.xl_nfs_locks.specs.Locks.{lock_found};
ghost use Rattle.xl_nfs_locks.specs.Unlocks.{unlock, unlock_found};
ghost use Rattle.xl_nfs_locks.specs.declared.joining.Joined.TheVariants.{Again};
ghost use Rattle.xl_nfs_laws.specs.OpenSeqids.{seqids_after, CountsFor};
ghost use Rattle.xl_nfs_opens.specs.Closing.{checked, standing_fault};
ghost use Rattle.xl_nfs_laws.specs.OpenLaws.{IsRepeated};
ghost use Rattle.xl_nfs_opens.specs.Opens.{client_in, live};
ghost use Rattle.xl_nfs_opens.specs.Plans.{carried, status_of};
ghost use Rattle.xl_nfs_opens.specs.Seqids.{advances, is_opener};
ghost use Rattle.xl_nfs_opens.specs.declared.opener.Checked.TheVariants.{Passed, Refused, Repeated};
ghost use Rattle.xl_nfs_opens.specs.declared.opener.Opener.{Opener as LockOwner};
ghost use Rattle.xl_nfs_opens.specs.declared.told.Told.TheVariants.{Ended};

/// A LOCK by a lock's stateid, or a LOCKU, is judged further exactly if its stateid is of this start, of locks that are
/// there, on the current file, and its seqid is the one after their owner's last. By the seqid and the operation of the
/// last it is a repeat; by any other it is BAD_SEQID (RFC 7530 9.1.4, 9.1.7, 9.1.8). One that is refused so doesn't
/// count.
pub fn known_locks_are_judged()
    ensures exactly { (s : CoreState) (l : NfsLists) (current : Option ℕ) (op seqid : ℕ) (stateid : Stateid) (r : StateidRow) (w : ℕ) (seqids : OwnerSeqids) → (locks_found s l current op seqid stateid ≡ Passed r w seqids) ↔ IsNextOn s l current seqid stateid r w seqids }
    ensures last { (s : CoreState) (l : NfsLists) (op seqid : ℕ) (stateid : Stateid) (r : StateidRow) (w : ℕ) (o : OwnerRow) → IsLocksOf s l stateid r w o → seqid ≡ o.seqids.seqid → op ≡ o.seqids.op → seqid < 2 ^ 32 → locks_found s l (Some r.file) op seqid stateid ≡ Repeated w }
    ensures others { (s : CoreState) (l : NfsLists) (op seqid : ℕ) (stateid : Stateid) (r : StateidRow) (w : ℕ) (o : OwnerRow) → IsLocksOf s l stateid r w o → (seqid ≡ next_seqid o.seqids.seqid → ⊥) → (seqid ≡ o.seqids.seqid → op ≡ o.seqids.op → ⊥) → r.standing.closed ≡ false → locks_found s l (Some r.file) op seqid stateid ≡ Refused BadSeqid }
    ensures refused { (s : CoreState) (l : NfsLists) (current : Option ℕ) (op seqid : ℕ) (stateid : Stateid) (status : Status) → locks_found s l current op seqid stateid ≡ Refused status → advances status ≡ false }
{}

/// A LOCK or LOCKU of a lock owner that comes again is sent the bytes that were kept of it, and nothing changes:
/// neither what is remembered nor the core, except for the lease that each request renews before (RFC 7530 9.1.8). So
/// is a LOCK under an open that comes again by the seqid of the open's owner.
pub fn repeated_locks_change_nothing()
    ensures locks { (n : ℕ) (s : CoreState) (l : NfsLists) (current : Option ℕ) (a : LockArgsItem) (x : Locker) (number : ℕ) (k : KeptRow) → find (is_kept number) l.kept ≡ Some k → IsRepeated k.result l s (carried n s l (lock_found s l current a x (Repeated number))) }
    ensures unlocks { (n : ℕ) (s : CoreState) (l : NfsLists) (current : Option ℕ) (a : Unlocked) (number : ℕ) (k : KeptRow) → find (is_kept number) l.kept ≡ Some k → IsRepeated k.result l s (carried n s l (unlock_found s l current a (Repeated number))) }
    ensures first { (n : ℕ) (s : CoreState) (l : NfsLists) (current : Option ℕ) (a : LockArgsItem) (x : NewLockerItem) (number : ℕ) (k : KeptRow) → find (is_kept number) l.kept ≡ Some k → IsRepeated k.result l s (carried n s l (join_checked s l current a x (Repeated number))) }
{}

/// A LOCK by a lock's stateid, or a LOCKU, that is judged further, and ends so that it counts, advances its lock
/// owner's seqid by one, and no other owner's; what it was answered is kept for its owner, and what is kept for others
/// stays (RFC 7530 9.1.7, 9.1.8). One that ends so that it doesn't count leaves what is remembered as it was.
pub fn requests_on_locks_advance_by_one()
    ensures locks { (n : ℕ) (s : CoreState) (l : NfsLists) (current : Option ℕ) (a : LockArgsItem) (x : Locker) (r : StateidRow) (owner : ℕ) (seqids : OwnerSeqids) (o : OwnerRow) → IsSound l → locks_found s l current 12 x.seqid x.stateid ≡ Passed r owner seqids → find (is_owner owner) l.owners ≡ Some o → CountsFor owner o (seqids_after o 12 o.seqids.confirmed None) 12 l (carried n s l (lock_found s l current a x (locks_found s l current 12 x.seqid x.stateid))) }
    ensures unlocks { (n : ℕ) (s : CoreState) (l : NfsLists) (current : Option ℕ) (a : Unlocked) (r : StateidRow) (owner : ℕ) (seqids : OwnerSeqids) (o : OwnerRow) → IsSound l → locks_found s l current 14 a.seqid a.stateid ≡ Passed r owner seqids → find (is_owner owner) l.owners ≡ Some o → CountsFor owner o (seqids_after o 14 o.seqids.confirmed None) 14 l (carried n s l (unlock_found s l current a (locks_found s l current 14 a.seqid a.stateid))) }
    ensures locks_only { (n : ℕ) (s : CoreState) (l : NfsLists) (current : Option ℕ) (a : LockArgsItem) (x : Locker) → advances (status_of (carried n s l (lock_found s l current a x (locks_found s l current 12 x.seqid x.stateid))).0) ≡ false → (carried n s l (lock_found s l current a x (locks_found s l current 12 x.seqid x.stateid))).3 ≡ l }
    ensures unlocks_only { (n : ℕ) (s : CoreState) (l : NfsLists) (current : Option ℕ) (a : Unlocked) → advances (status_of (carried n s l (unlock_found s l current a (locks_found s l current 14 a.seqid a.stateid))).0) ≡ false → (carried n s l (unlock_found s l current a (locks_found s l current 14 a.seqid a.stateid))).3 ≡ l }
{}

/// A LOCK under an open by the seqid after the last of the open's owner, whose lock owner's seqid and operation are its
/// last, is sent what was kept for the lock owner. The open's owner advances by it, and keeps it too; the lock owner
/// stays as it was, and no other owner changes, nor does the core (RFC 7530 9.1.7, 9.1.8). One that fails by the open's
/// stateid, or names another client's lock owner, counts with the open's owner alone; and one that ends so that it
/// doesn't count leaves what is remembered as it was.
pub fn repeated_first_locks_count_with_the_open()
    ensures last { (l : NfsLists) (r : StateidRow) (o : LockOwner) (w : OwnerRow) (seqid : ℕ) → find (is_opener o) l.owners ≡ Some w → fits_under r.number (live (find (owned_on w.number r.file) l.stateids)) ≡ true → seqid ≡ w.seqids.seqid → w.seqids.op ≡ 12 → seqid < 2 ^ 32 → found_joined l r o seqid ≡ Again w.number }
    ensures again { (n : ℕ) (s : CoreState) (l : NfsLists) (current : Option ℕ) (a : LockArgsItem) (x : NewLockerItem) (r : StateidRow) (owner : ℕ) (seqids : OwnerSeqids) (p : OwnerRow) (o : LockOwner) (number : ℕ) (k : KeptRow) → checked s l current 12 x.open_seqid x.open_stateid ≡ Passed r owner seqids → find (is_owner owner) l.owners ≡ Some p → p.name.kind ≡ OfOpens → standing_fault r seqids x.open_stateid.seqid true ≡ None → locker_under r x.owner.owner (client_in s l x.owner.clientid) ≡ Some o → found_joined l r o x.lock_seqid ≡ Again number → find (is_kept number) l.kept ≡ Some k → HasComeAgain owner p o k.result l s (carried n s l (join_checked s l current a x (checked s l current 12 x.open_seqid x.open_stateid))) }
    ensures stale { (n : ℕ) (s : CoreState) (l : NfsLists) (current : Option ℕ) (a : LockArgsItem) (x : NewLockerItem) (r : StateidRow) (owner : ℕ) (seqids : OwnerSeqids) (p : OwnerRow) (status : Status) → checked s l current 12 x.open_seqid x.open_stateid ≡ Passed r owner seqids → find (is_owner owner) l.owners ≡ Some p → standing_fault r seqids x.open_stateid.seqid true ≡ Some status → CountsFor owner p (seqids_after p 12 p.seqids.confirmed None) 12 l (carried n s l (join_checked s l current a x (checked s l current 12 x.open_seqid x.open_stateid))) }
    ensures foreign { (n : ℕ) (s : CoreState) (l : NfsLists) (current : Option ℕ) (a : LockArgsItem) (x : NewLockerItem) (r : StateidRow) (owner : ℕ) (seqids : OwnerSeqids) (p : OwnerRow) → checked s l current 12 x.open_seqid x.open_stateid ≡ Passed r owner seqids → find (is_owner owner) l.owners ≡ Some p → standing_fault r seqids x.open_stateid.seqid true ≡ None → locker_under r x.owner.owner (client_in s l x.owner.clientid) ≡ None → CountsFor owner p (seqids_after p 12 p.seqids.confirmed None) 12 l (carried n s l (join_checked s l current a x (checked s l current 12 x.open_seqid x.open_stateid))) }
    ensures only { (n : ℕ) (s : CoreState) (l : NfsLists) (current : Option ℕ) (a : LockArgsItem) (x : NewLockerItem) (status : Status) → (carried n s l (join_checked s l current a x (checked s l current 12 x.open_seqid x.open_stateid))).0 ≡ Ended status → advances status ≡ false → (carried n s l (join_checked s l current a x (checked s l current 12 x.open_seqid x.open_stateid))).3 ≡ l }
{}

/// A LOCK that is no repeat is answered with SERVERFAULT exactly if a store failed by it, in a step in which none had: that of the
/// record with its client (RFC 7530 9.6.3). A LOCKU never is, as it stores nothing: of each stateid of locks that is there the
/// client and the owner are there. A repeat is sent the bytes that were kept.
pub fn server_faults_are_failed_stores()
    ensures locks { (n : ℕ) (s : CoreState) (l : NfsLists) (current : Option ℕ) (a : LockArgsItem) → IsGood s → IsSound l → s.failed ≡ false → ((carried n s l (lock s l current a)).0 ≡ Ended ServerFault) ↔ ((carried n s l (lock s l current a)).4.failed ≡ true) }
    ensures unlocks { (n : ℕ) (s : CoreState) (l : NfsLists) (current : Option ℕ) (a : Unlocked) → IsGood s → IsSound l → (carried n s l (unlock s l current a)).0 ≡ Ended ServerFault → ⊥ }
{}
