//! Laws of owners at LOCK and RELEASE_LOCKOWNER. The functions do nothing: each has laws as its clauses.
ghost use Rattle.std.specs.Prelude.{◌≡◌, ℕ, true, false, not, List, map, Option, Some, None, Result};
ghost use Rattle.std.specs.List.{IsDistinct, find};
ghost use Rattle.xl_core.specs.State.{CoreState};
ghost use Rattle.xl_nfs.specs.Locks.{LockArgsItem};
ghost use Rattle.xl_nfs.specs.Outcomes.{is_ok};
ghost use Rattle.xl_nfs.specs.declared.status.NfsStatus.{NfsStatus as Status};
ghost use Rattle.xl_nfs_state.specs.Keys.{owner_name, same_owner_name};
ghost use Rattle.xl_nfs_state.specs.State.{NfsLists, IsRising, is_owner, is_owner_named};
ghost use Rattle.xl_nfs_state.specs.declared.client.ClientRow.{ClientRow};
ghost use Rattle.xl_nfs_state.specs.declared.owner.OwnerKind.TheVariants.{Lock as OfLocks, Open as OfOpens};
ghost use Rattle.xl_nfs_state.specs.declared.owner.OwnerRow.{OwnerRow};
ghost use Rattle.xl_nfs_state.specs.declared.stateid.StateidRow.{StateidRow};
ghost use Rattle.xl_nfs_laws.specs.LockOwners.{CountsWithBoth, IsForgotten};
ghost use Rattle.xl_nfs_locks.specs.FirstLocks.{join_to};
ghost use Rattle.xl_nfs_locks.specs.Releases.{holds_any, release_of};
ghost use Rattle.xl_nfs_locks.specs.declared.joining.BothOwners.{BothOwners as Owners};
ghost use Rattle.xl_nfs_opens.specs.Plans.{carried, status_of};
ghost use Rattle.xl_nfs_opens.specs.Seqids.{advances, is_room_for};
ghost use Rattle.xl_nfs_opens.specs.declared.opener.Opener.{Opener as LockOwner};

/// A LOCK by an owner under an open, once both seqids are the next and there is room for the lock owner, counts with
/// both if it counts, whether it is granted or refused: both owners' requests have come so far, and no other's, and its
/// result is kept for both. If it doesn't count what is remembered stays as it was (RFC 7530 9.1.7, 9.1.8, 16.10).
pub fn first_locks_count_with_both()
    ensures counted { (n : ℕ) (s : CoreState) (l : NfsLists) (current : Option ℕ) (a : LockArgsItem) (b : Owners) (w : OwnerRow) (o : LockOwner) (r : StateidRow) (q : Option StateidRow) (last : Result ℕ Status) → IsRising l.owners → find (is_owner b.number) l.owners ≡ Some w → w.name.kind ≡ OfOpens → o.kind ≡ OfLocks → is_room_for o l ≡ true → CountsWithBoth b o l (carried n s l (join_to l current a b o r q last)) }
    ensures only { (n : ℕ) (s : CoreState) (l : NfsLists) (current : Option ℕ) (a : LockArgsItem) (b : Owners) (o : LockOwner) (r : StateidRow) (q : Option StateidRow) (last : Result ℕ Status) → advances (status_of (carried n s l (join_to l current a b o r q last)).0) ≡ false → (carried n s l (join_to l current a b o r q last)).3 ≡ l }
{}

/// A RELEASE_LOCKOWNER of a client that is OK forgets the lock owner: it isn't there any more, no stateid hangs on it,
/// and no result is kept for it. One that isn't OK changes nothing of what is remembered. It is OK exactly if the owner
/// holds no range (RFC 7530 16.37).
pub fn released_owners_are_forgotten()
    ensures forgotten { (n : ℕ) (s : CoreState) (l : NfsLists) (current : Option ℕ) (owner : List ℕ) (c : ClientRow) (r : OwnerRow) → is_ok (status_of (carried n s l (release_of s l current owner (Some c))).0) ≡ true → find (is_owner_named c.number OfLocks owner) l.owners ≡ Some r → IsForgotten r.number (carried n s l (release_of s l current owner (Some c))).3 }
    ensures named { (n : ℕ) (s : CoreState) (l : NfsLists) (current : Option ℕ) (owner : List ℕ) (c : ClientRow) → is_ok (status_of (carried n s l (release_of s l current owner (Some c))).0) ≡ true → IsDistinct same_owner_name (map owner_name l.owners) → find (is_owner_named c.number OfLocks owner) (carried n s l (release_of s l current owner (Some c))).3.owners ≡ None }
    ensures refused { (n : ℕ) (s : CoreState) (l : NfsLists) (current : Option ℕ) (owner : List ℕ) (c : Option ClientRow) → is_ok (status_of (carried n s l (release_of s l current owner c)).0) ≡ false → (carried n s l (release_of s l current owner c)).3 ≡ l }
    ensures told { (n : ℕ) (s : CoreState) (l : NfsLists) (current : Option ℕ) (owner : List ℕ) (c : ClientRow) → is_ok (status_of (carried n s l (release_of s l current owner (Some c))).0) ≡ not (holds_any s c.id owner) }
{}
