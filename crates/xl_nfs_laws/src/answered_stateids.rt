//! Laws of the stateids that operations are answered. The functions do nothing: each has laws as its clauses.
ghost use Rattle.std.specs.Prelude.{◌≡◌, ◌+◌, ℕ, true, false, Option, Some, None};
ghost use Rattle.std.specs.List.{find};
ghost use Rattle.xl_base.specs.declared.journal.Exports.{Exports};
ghost use Rattle.xl_nfs.specs.Locks.{LockArgsItem, NewLockerItem};
ghost use Rattle.xl_nfs.specs.declared.basics.Stateid.{Stateid};
ghost use Rattle.xl_nfs.specs.declared.locks.KnownLocker.{KnownLocker as Locker};
ghost use Rattle.xl_nfs.specs.declared.locks.UnlockArgs.{UnlockArgs as Unlocked};
ghost use Rattle.xl_nfs.specs.declared.opens.CloseArgs.{CloseArgs};
ghost use Rattle.xl_nfs.specs.declared.opens.OpenConfirmArgs.{OpenConfirmArgs};
ghost use Rattle.xl_nfs.specs.declared.opens.OpenDowngradeArgs.{OpenDowngradeArgs};
ghost use Rattle.xl_nfs_state.specs.State.{NfsLists, is_stateid, owned_on};
ghost use Rattle.xl_nfs_state.specs.Verdict.{next_seqid};
ghost use Rattle.xl_nfs_state.specs.declared.owner.OwnerKind.TheVariants.{Lock as OfLocks};
ghost use Rattle.xl_nfs_state.specs.declared.owner.OwnerRow.{OwnerRow};
ghost use Rattle.xl_nfs_state.specs.declared.owner.SeqidState.{SeqidState as OwnerSeqids};
ghost use Rattle.xl_nfs_state.specs.declared.stateid.StateidRow.{StateidRow};
ghost use Rattle.xl_programs.specs.Programs.{RequestItem};
ghost use Rattle.xl_programs.specs.Sent.{sent_to};
ghost use Rattle.xl_core.specs.Good.{IsGood};
ghost use Rattle.xl_core.specs.State.{CoreState};
ghost use Rattle.xl_nfs_locks.specs.Checks.{locks_found};
ghost use Rattle.xl_nfs_locks.specs.FirstLocks.{found_joined, join_checked, joined_new, locker_under};
ghost use Rattle.xl_nfs_locks.specs.Locks.{lock_found};
ghost use Rattle.xl_nfs_locks.specs.Unlocks.{unlock_found};
ghost use Rattle.xl_nfs_locks.specs.declared.joining.BothOwners.{BothOwners as Owners};
ghost use Rattle.xl_nfs_locks.specs.declared.joining.Joined.TheVariants.{Joins};
ghost use Rattle.xl_nfs_opens.specs.Closing.{checked, close_by, confirm_by};
ghost use Rattle.xl_nfs_opens.specs.Downgrades.{downgrade_by};
ghost use Rattle.xl_nfs_opens.specs.Opens.{client_in};
ghost use Rattle.xl_nfs_opens.specs.Plans.{carried};
ghost use Rattle.xl_nfs_opens.specs.Renewing.{stateid_of};
ghost use Rattle.xl_nfs_opens.specs.Seqids.{is_opener};
ghost use Rattle.xl_nfs_opens.specs.declared.opener.Checked.TheVariants.{Passed};
ghost use Rattle.xl_nfs_opens.specs.declared.opener.Opener.{Opener as LockOwner};
ghost use Rattle.xl_nfs_opens.specs.declared.told.Told.TheVariants.{State};
ghost use Rattle.xl_front_nfs.specs.FrontNfs.{nfs_reply};
ghost use Rattle.xl_front_nfs.specs.State.{FrontNfs};
ghost use Rattle.xl_nfs_laws.specs.AnsweredStateids.{AreLocksUnder, IsAnswered, LockersCloseNothing, can_join, new_locks};
ghost use Rattle.xl_nfs_laws.specs.AsTold.{AreRequestTold};
ghost use Rattle.xl_nfs_laws.specs.Delegated.{AreTied};
ghost use Rattle.xl_nfs_laws.specs.Orderly.{IsOrderly};
ghost use Rattle.xl_nfs_laws.specs.StateidNumbers.{AreGivenOut};

/// What an OPEN_CONFIRM, an OPEN_DOWNGRADE or a CLOSE is answered, once it is OK and no repeat, is the stateid of the open
/// that it named by its own seqid, as that stands then: with its number, and with the seqid that it has then, the one after.
/// It is of the same owner, client and file; it isn't closed, or by a CLOSE it is (RFC 7530 9.1.4, 16.2, 16.18, 16.19).
#[tactic(auto, using(crate::proofs::AnsweredOpenLaws::confirm_names, crate::proofs::AnsweredOpenLaws::downgrade_names, crate::proofs::AnsweredOpenLaws::close_names))]
pub fn answered_opens_stand()
    ensures confirms { (n : ℕ) (s : CoreState) (l : NfsLists) (current : Option ℕ) (a : OpenConfirmArgs) (told : Stateid) → IsOrderly l → (carried n s l (confirm_by s l current a (checked s l current 20 a.seqid a.stateid))).0 ≡ State told → IsAnswered s l a.stateid told false (carried n s l (confirm_by s l current a (checked s l current 20 a.seqid a.stateid))) }
    ensures downgrades { (n : ℕ) (s : CoreState) (l : NfsLists) (current : Option ℕ) (a : OpenDowngradeArgs) (told : Stateid) → IsOrderly l → (carried n s l (downgrade_by s l current a (checked s l current 21 a.seqid a.stateid))).0 ≡ State told → IsAnswered s l a.stateid told false (carried n s l (downgrade_by s l current a (checked s l current 21 a.seqid a.stateid))) }
    ensures closes { (n : ℕ) (s : CoreState) (l : NfsLists) (current : Option ℕ) (a : CloseArgs) (told : Stateid) → IsOrderly l → (carried n s l (close_by s l current a (checked s l current 4 a.seqid a.stateid))).0 ≡ State told → IsAnswered s l a.stateid told true (carried n s l (close_by s l current a (checked s l current 4 a.seqid a.stateid))) }
{}

/// So it is of a LOCK by a lock's stateid and of a LOCKU, with the locks that these named, if owners of locks have closed
/// nothing, as they make no CLOSE (RFC 7530 9.1.4, 16.10, 16.12). One under an open that is OK, of an owner without a stateid
/// there, is answered a new stateid, with the next number: that of its owner's locks on the file, under the open, which isn't
/// closed and has that seqid, if it can come.
pub fn answered_locks_stand()
    ensures locks { (n : ℕ) (s : CoreState) (l : NfsLists) (current : Option ℕ) (a : LockArgsItem) (x : Locker) (told : Stateid) → IsOrderly l → LockersCloseNothing l → (carried n s l (lock_found s l current a x (locks_found s l current 12 x.seqid x.stateid))).0 ≡ State told → IsAnswered s l x.stateid told false (carried n s l (lock_found s l current a x (locks_found s l current 12 x.seqid x.stateid))) }
    ensures unlocks { (n : ℕ) (s : CoreState) (l : NfsLists) (current : Option ℕ) (a : Unlocked) (told : Stateid) → IsOrderly l → LockersCloseNothing l → (carried n s l (unlock_found s l current a (locks_found s l current 14 a.seqid a.stateid))).0 ≡ State told → IsAnswered s l a.stateid told false (carried n s l (unlock_found s l current a (locks_found s l current 14 a.seqid a.stateid))) }
    ensures first { (n : ℕ) (s : CoreState) (l : NfsLists) (current : Option ℕ) (b : Owners) (o : LockOwner) (r : StateidRow) → can_join s l b o r ≡ true → find (is_stateid (s.counter + 1)) (carried n s l (joined_new s l current b o r)).3.stateids ≡ Some (new_locks s l b o r) }
    ensures told { (n : ℕ) (s : CoreState) (l : NfsLists) (current : Option ℕ) (b : Owners) (o : LockOwner) (r : StateidRow) → (carried n s l (joined_new s l current b o r)).0 ≡ State (stateid_of (carried n s l (joined_new s l current b o r)).4 (s.counter + 1) 1) }
{}

/// So it can come at all times: a LOCK under an open that is answered a stateid, by an owner without one there, is answered one that
/// is there from then on, of its owner's locks on the file, under the open. An owner's stateid that stands on the file already is
/// the one that is used again, by its next seqid (RFC 7530 9.1.4, 16.10).
pub fn first_locks_stand()
    ensures comes { (n : ℕ) (s : CoreState) (l : NfsLists) (current : Option ℕ) (a : LockArgsItem) (x : NewLockerItem) (r : StateidRow) (owner : ℕ) (seqids : OwnerSeqids) (o : LockOwner) (told : Stateid) → checked s l current 12 x.open_seqid x.open_stateid ≡ Passed r owner seqids → locker_under r x.owner.owner (client_in s l x.owner.clientid) ≡ Some o → IsGood s → IsOrderly l → LockersCloseNothing l → AreGivenOut s.counter l → found_joined l r o x.lock_seqid ≡ Joins None → (carried n s l (join_checked s l current a x (checked s l current 12 x.open_seqid x.open_stateid))).0 ≡ State told → AreLocksUnder r o told (carried n s l (join_checked s l current a x (checked s l current 12 x.open_seqid x.open_stateid))) }
    ensures again { (n : ℕ) (s : CoreState) (l : NfsLists) (current : Option ℕ) (a : LockArgsItem) (x : NewLockerItem) (r : StateidRow) (owner : ℕ) (seqids : OwnerSeqids) (o : LockOwner) (told : Stateid) → checked s l current 12 x.open_seqid x.open_stateid ≡ Passed r owner seqids → locker_under r x.owner.owner (client_in s l x.owner.clientid) ≡ Some o → (q : StateidRow) → found_joined l r o x.lock_seqid ≡ Joins (Some q) → (carried n s l (join_checked s l current a x (checked s l current 12 x.open_seqid x.open_stateid))).0 ≡ State told → told ≡ stateid_of (carried n s l (join_checked s l current a x (checked s l current 12 x.open_seqid x.open_stateid))).4 q.number (next_seqid q.standing.seqid) }
    ensures stood { (l : NfsLists) (r : StateidRow) (o : LockOwner) (seqid : ℕ) (w : OwnerRow) (q : StateidRow) (j : Option StateidRow) → IsOrderly l → LockersCloseNothing l → o.kind ≡ OfLocks → find (is_opener o) l.owners ≡ Some w → find (owned_on w.number r.file) l.stateids ≡ Some q → found_joined l r o seqid ≡ Joins j → j ≡ Some q }
{}

/// So the reply to a COMPOUND has the results of its operations in order, up to the first that fails, and the stateids that they tell
/// name what is there once each is done: that of an OPEN one open of the owner that it names, on the file that is the current one
/// then, with the access and the deny that were asked, and a delegation that it tells the client's; that of an OPEN_CONFIRM,
/// OPEN_DOWNGRADE, CLOSE, LOCKU or of a LOCK by a lock's stateid the one that was named, by its next seqid; that of a LOCK under an
/// open the one of its lock owner's locks there (RFC 7530 9.1.4, 14.2). And what else they say is done is done: each byte of a LOCK is
/// its lock owner's, in its mode, and of a LOCKU free; of the open of a CLOSE neither its owner's share is left, nor a byte of an owner
/// of locks under it, nor a stateid of these; a LOCKT is OK exactly if no range that is held stands against the lock, and tells the
/// least if one does; after a DELEGRETURN its client has neither a delegation nor a cache on the file; the lease of a RENEW runs anew;
/// and the owner of a RELEASE_LOCKOWNER holds no range and is forgotten (RFC 7530 9.5, 16.2, 16.6, 16.10 to 16.12, 16.28, 16.37).
#[tactic(auto, using(crate::proofs::AsToldLaws::request_told))]
pub fn replies_are_as_told()
    ensures { (n : ℕ) (exports : Exports) (others : ℕ) (f : FrontNfs) (s : CoreState) (conn : ℕ) (r : RequestItem) → IsGood s → IsOrderly f.state → LockersCloseNothing f.state → AreTied s f.state → AreRequestTold n exports others f s conn r (sent_to conn (nfs_reply n exports others f s r)) }
{}
