//! Laws of locks. The functions do nothing: each has laws as its clauses.
ghost use Rattle.std.specs.Prelude.{◌≡◌, ◌≤◌, ◌↔◌, ℕ, true, false, [], Option, Some, None, Ok};
ghost use Rattle.xl_base.specs.Lists.{IsIn};
ghost use Rattle.xl_core.specs.Good.{IsGood};
ghost use Rattle.xl_core.specs.Places.{ByteOf, held_at};
ghost use Rattle.xl_core.specs.State.{CoreState};
ghost use Rattle.xl_nfs.specs.Locks.{LockArgsItem, LockTestArgsItem};
ghost use Rattle.xl_nfs.specs.Outcomes.{is_ok};
ghost use Rattle.xl_nfs.specs.declared.locks.UnlockArgs.{UnlockArgs as Unlocked};
ghost use Rattle.xl_nfs.specs.declared.opens.CloseArgs.{CloseArgs as Closed};
ghost use Rattle.xl_nfs.specs.declared.status.NfsStatus.{NfsStatus as Status};
ghost use Rattle.xl_nfs.specs.declared.status.NfsStatus.TheVariants.{Resource, ServerFault};
ghost use Rattle.xl_nfs_state.specs.State.{NfsLists};
ghost use Rattle.xl_nfs_state.specs.declared.owner.SeqidState.{SeqidState as OwnerSeqids};
ghost use Rattle.xl_nfs_state.specs.declared.stateid.StateidRow.{StateidRow};
ghost use Rattle.xl_nfs_locks.specs.FirstLocks.{join_to};
ghost use Rattle.xl_nfs_laws.specs.LockLaws.{lock_claim, lock_way, owner_of, test_claim, unstored_for, AreFree, AreLocked, IsDenial, IsLockTold, IsTestDenial, IsTestTold};
ghost use Rattle.xl_nfs_locks.specs.Locks.{lock_by_owner};
ghost use Rattle.xl_nfs_locks.specs.Ranges.{lock_ask, test_ask};
ghost use Rattle.xl_nfs_locks.specs.Tests.{test_to};
ghost use Rattle.xl_nfs_locks.specs.Unlocks.{unlock_by_owner};
ghost use Rattle.xl_nfs_locks.specs.declared.joining.BothOwners.{BothOwners as Owners};
ghost use Rattle.xl_nfs_opens.specs.Asks.{all_ones};
ghost use Rattle.xl_nfs_opens.specs.Closing.{close_done, lock_owner, locks_under, opener_by};
ghost use Rattle.xl_nfs_opens.specs.Plans.{carried, status_of};
ghost use Rattle.xl_nfs_opens.specs.Seqids.{is_room_for};
ghost use Rattle.xl_nfs_opens.specs.declared.opener.Opener.{Opener as LockOwner};
ghost use Rattle.xl_nfs_opens.specs.declared.told.HeldLock.{HeldLock as Held};
ghost use Rattle.xl_nfs_opens.specs.declared.told.Told.TheVariants.{Denied, Ended};

/// A LOCK whose checks passed and that is OK leaves each byte of its range to its owner, in its mode, and each other
/// byte, each byte of another owner and of another file as they were (RFC 7530 9.1.2, 16.10). So it is of an owner that
/// has a stateid and of one that gives the open's. One that isn't OK leaves the core as it was once its breaks began:
/// nothing changes except the caches whose breaks began; and if it is SERVERFAULT the store of the record with its client,
/// by its name and verifier, failed besides.
pub fn granted_locks_are_held()
    ensures known { (n : ℕ) (s : CoreState) (l : NfsLists) (current : Option ℕ) (a : LockArgsItem) (r : StateidRow) (owner : ℕ) (seqids : OwnerSeqids) (seqid last : ℕ) (o : LockOwner) → IsGood s → a.offset ≤ last → is_ok (status_of (carried n s l (lock_by_owner l current a r owner seqids seqid last (Some o))).0) ≡ true → AreLocked o r.file a.kind a.offset last s (carried n s l (lock_by_owner l current a r owner seqids seqid last (Some o))).4 }
    ensures first { (n : ℕ) (s : CoreState) (l : NfsLists) (current : Option ℕ) (a : LockArgsItem) (b : Owners) (o : LockOwner) (r : StateidRow) (q : Option StateidRow) (last : ℕ) → IsGood s → a.offset ≤ last → is_room_for o l ≡ true → is_ok (status_of (carried n s l (join_to l current a b o r q (Ok last))).0) ≡ true → AreLocked o r.file a.kind a.offset last s (carried n s l (join_to l current a b o r q (Ok last))).4 }
    ensures known_refused { (n : ℕ) (s : CoreState) (l : NfsLists) (current : Option ℕ) (a : LockArgsItem) (r : StateidRow) (owner : ℕ) (seqids : OwnerSeqids) (seqid last : ℕ) (o : LockOwner) → IsGood s → a.offset ≤ last → is_ok (status_of (carried n s l (lock_by_owner l current a r owner seqids seqid last (Some o))).0) ≡ false → (status_of (carried n s l (lock_by_owner l current a r owner seqids seqid last (Some o))).0 ≡ ServerFault → ⊥) → (carried n s l (lock_by_owner l current a r owner seqids seqid last (Some o))).4 ≡ lock_way s o r.file a.kind a.reclaim a.offset last }
    ensures first_refused { (n : ℕ) (s : CoreState) (l : NfsLists) (current : Option ℕ) (a : LockArgsItem) (b : Owners) (o : LockOwner) (r : StateidRow) (q : Option StateidRow) (last : ℕ) → IsGood s → a.offset ≤ last → is_room_for o l ≡ true → is_ok (status_of (carried n s l (join_to l current a b o r q (Ok last))).0) ≡ false → (status_of (carried n s l (join_to l current a b o r q (Ok last))).0 ≡ ServerFault → ⊥) → (carried n s l (join_to l current a b o r q (Ok last))).4 ≡ lock_way s o r.file a.kind a.reclaim a.offset last }
    ensures known_failed { (n : ℕ) (s : CoreState) (l : NfsLists) (current : Option ℕ) (a : LockArgsItem) (r : StateidRow) (owner : ℕ) (seqids : OwnerSeqids) (seqid last : ℕ) (o : LockOwner) → IsGood s → a.offset ≤ last → status_of (carried n s l (lock_by_owner l current a r owner seqids seqid last (Some o))).0 ≡ ServerFault → (carried n s l (lock_by_owner l current a r owner seqids seqid last (Some o))).4 ≡ unstored_for o (lock_way s o r.file a.kind a.reclaim a.offset last) }
    ensures first_failed { (n : ℕ) (s : CoreState) (l : NfsLists) (current : Option ℕ) (a : LockArgsItem) (b : Owners) (o : LockOwner) (r : StateidRow) (q : Option StateidRow) (last : ℕ) → IsGood s → a.offset ≤ last → is_room_for o l ≡ true → status_of (carried n s l (join_to l current a b o r q (Ok last))).0 ≡ ServerFault → (carried n s l (join_to l current a b o r q (Ok last))).4 ≡ unstored_for o (lock_way s o r.file a.kind a.reclaim a.offset last) }
{}

/// A LOCK whose checks passed is answered with each status exactly if that has its cause, once the breaks of the
/// caches in its way began: OK if grace lets it in, neither what is held nor the range of one who waits stands against it, no limit is
/// passed, and its client is recorded or can be; DENIED if something stands against it for good, and RECLAIM_CONFLICT if anything
/// does against a reclaim; DELAY if a cache keeps it off, RESOURCE at a limit; GRACE in grace if it doesn't reclaim, NO_GRACE out
/// of grace if it does, RECLAIM_BAD if it reclaims and its client isn't recorded, or is with another verifier; SERVERFAULT if the
/// store fails that records its client; and no other (RFC 7530 9.6.2). If there is no room for its owner, RESOURCE, and nothing
/// changes (RFC 7530 16.10). DENIED gives a claim that stands against the lock, with its owner: the least that is held, or else the
/// first range of those who wait.
pub fn lock_statuses_have_causes()
    ensures known { (n : ℕ) (s : CoreState) (l : NfsLists) (current : Option ℕ) (a : LockArgsItem) (r : StateidRow) (owner : ℕ) (seqids : OwnerSeqids) (seqid last : ℕ) (o : LockOwner) (status : Status) → (status_of (carried n s l (lock_by_owner l current a r owner seqids seqid last (Some o))).0 ≡ status) ↔ IsLockTold n (lock_way s o r.file a.kind a.reclaim a.offset last) (lock_ask o r.file a.kind a.reclaim a.offset last) (lock_claim s o r.file a.kind a.offset last) status }
    ensures first { (n : ℕ) (s : CoreState) (l : NfsLists) (current : Option ℕ) (a : LockArgsItem) (b : Owners) (o : LockOwner) (r : StateidRow) (q : Option StateidRow) (last : ℕ) (status : Status) → is_room_for o l ≡ true → (status_of (carried n s l (join_to l current a b o r q (Ok last))).0 ≡ status) ↔ IsLockTold n (lock_way s o r.file a.kind a.reclaim a.offset last) (lock_ask o r.file a.kind a.reclaim a.offset last) (lock_claim s o r.file a.kind a.offset last) status }
    ensures full { (n : ℕ) (s : CoreState) (l : NfsLists) (current : Option ℕ) (a : LockArgsItem) (b : Owners) (o : LockOwner) (r : StateidRow) (q : Option StateidRow) (last : ℕ) → is_room_for o l ≡ false → carried n s l (join_to l current a b o r q (Ok last)) ≡ (Ended Resource, current, [], l, s) }
    ensures known_denied { (n : ℕ) (s : CoreState) (l : NfsLists) (current : Option ℕ) (a : LockArgsItem) (r : StateidRow) (owner : ℕ) (seqids : OwnerSeqids) (seqid last : ℕ) (o : LockOwner) (h : Held) → IsGood s → a.offset ≤ last → (carried n s l (lock_by_owner l current a r owner seqids seqid last (Some o))).0 ≡ Denied h → IsDenial (lock_way s o r.file a.kind a.reclaim a.offset last) l (lock_claim s o r.file a.kind a.offset last) h }
    ensures first_denied { (n : ℕ) (s : CoreState) (l : NfsLists) (current : Option ℕ) (a : LockArgsItem) (b : Owners) (o : LockOwner) (r : StateidRow) (q : Option StateidRow) (last : ℕ) (h : Held) → IsGood s → a.offset ≤ last → is_room_for o l ≡ true → (carried n s l (join_to l current a b o r q (Ok last))).0 ≡ Denied h → IsDenial (lock_way s o r.file a.kind a.reclaim a.offset last) l (lock_claim s o r.file a.kind a.offset last) h }
{}

/// A LOCKT changes nothing, neither what is remembered nor the core, except for the lease that it renews before. Once
/// its checks passed it is GRACE exactly while grace runs; else it is OK exactly if no range that is held stands against it,
/// and DENIED exactly if one does, of which it gives the least with its holder (RFC 7530 16.11).
pub fn tests_tell_and_change_nothing()
    ensures nothing { (n : ℕ) (s : CoreState) (l : NfsLists) (current : Option ℕ) (a : LockTestArgsItem) (file : ℕ) (o : LockOwner) (last : Option ℕ) → ((carried n s l (test_to l current a file o last)).3 ≡ l) × ((carried n s l (test_to l current a file o last)).4 ≡ s) }
    ensures told { (n : ℕ) (s : CoreState) (l : NfsLists) (current : Option ℕ) (a : LockTestArgsItem) (file : ℕ) (o : LockOwner) (last : ℕ) (status : Status) → (status_of (carried n s l (test_to l current a file o (Some last))).0 ≡ status) ↔ IsTestTold s (test_ask o file a.kind a.offset last) (test_claim s o file a.kind a.offset last) status }
    ensures denied { (n : ℕ) (s : CoreState) (l : NfsLists) (current : Option ℕ) (a : LockTestArgsItem) (file : ℕ) (o : LockOwner) (last : ℕ) (h : Held) → (carried n s l (test_to l current a file o (Some last))).0 ≡ Denied h → IsTestDenial s l (test_claim s o file a.kind a.offset last) h }
{}

/// A LOCKU whose checks passed and that is OK leaves its owner no byte of its range, and each other byte, each byte of another
/// owner and of another file as they were, whether they were held or not (RFC 7530 16.12). One that isn't OK leaves the core as
/// it was.
pub fn unlocked_bytes_are_free()
    ensures free { (n : ℕ) (s : CoreState) (l : NfsLists) (current : Option ℕ) (a : Unlocked) (r : StateidRow) (owner : ℕ) (seqids : OwnerSeqids) (last : ℕ) (o : LockOwner) → IsGood s → a.offset ≤ last → is_ok (status_of (carried n s l (unlock_by_owner l current a r owner seqids last (Some o))).0) ≡ true → AreFree o r.file a.offset last s (carried n s l (unlock_by_owner l current a r owner seqids last (Some o))).4 }
    ensures refused { (n : ℕ) (s : CoreState) (l : NfsLists) (current : Option ℕ) (a : Unlocked) (r : StateidRow) (owner : ℕ) (seqids : OwnerSeqids) (last : ℕ) (o : LockOwner) → IsGood s → a.offset ≤ last → is_ok (status_of (carried n s l (unlock_by_owner l current a r owner seqids last (Some o))).0) ≡ false → (carried n s l (unlock_by_owner l current a r owner seqids last (Some o))).4 ≡ s }
{}

/// Once an open is closed each owner of locks under it has no byte of its file, and no stateid of locks is under it (RFC 7530
/// 16.2).
pub fn closed_opens_end_their_locks()
    ensures bytes { (n : ℕ) (s : CoreState) (l : NfsLists) (current : Option ℕ) (a : Closed) (r : StateidRow) (owner : ℕ) (seqids : OwnerSeqids) (q : StateidRow) (o : LockOwner) (byte : ℕ) → IsGood s → IsIn q (locks_under l r.number) → opener_by l r.client (lock_owner q.holder) ≡ Some o → byte ≤ all_ones → held_at (carried n s l (close_done s l current a r owner seqids None)).4 (ByteOf r.file (owner_of s.names o) byte) ≡ [] }
    ensures stateids { (n : ℕ) (s : CoreState) (l : NfsLists) (current : Option ℕ) (a : Closed) (r : StateidRow) (owner : ℕ) (seqids : OwnerSeqids) → locks_under (carried n s l (close_done s l current a r owner seqids None)).3 r.number ≡ [] }
{}
