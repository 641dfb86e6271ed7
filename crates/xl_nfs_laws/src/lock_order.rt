//! What holds of owners, stateids and delegations at all times. The functions do nothing: each has laws as its clauses.
ghost use Rattle.std.specs.Prelude.{ℕ, Option};
ghost use Rattle.xl_nfs.specs.Basics.{OwnerItem};
ghost use Rattle.xl_nfs.specs.Locks.{LockArgsItem, LockTestArgsItem};
ghost use Rattle.xl_nfs.specs.declared.locks.UnlockArgs.{UnlockArgs as Unlocked};
ghost use Rattle.xl_nfs_state.specs.State.{NfsLists};
ghost use Rattle.xl_core.specs.Good.{IsGood};
ghost use Rattle.xl_core.specs.State.{CoreState};
ghost use Rattle.xl_nfs_locks.specs.FirstLocks.{lock};
ghost use Rattle.xl_nfs_locks.specs.Releases.{release};
ghost use Rattle.xl_nfs_locks.specs.Tests.{lock_test};
ghost use Rattle.xl_nfs_locks.specs.Unlocks.{unlock};
ghost use Rattle.xl_nfs_laws.specs.Delegated.{AreTied};
ghost use Rattle.xl_nfs_laws.specs.Orderly.{IsOrderly};
ghost use Rattle.xl_nfs_opens.specs.Plans.{carried};

/// Each stateid has a number and a place of its own, and an owner of its client and kind; and one is closed exactly if
/// its owner's last request closed it (RFC 7530 9.1.4, 9.1.8). So it stays whatever an operation on locks comes to.
pub fn stateids_stay_orderly()
    ensures locks { (n : ℕ) (s : CoreState) (l : NfsLists) (current : Option ℕ) (a : LockArgsItem) → IsOrderly l → IsOrderly (carried n s l (lock s l current a)).3 }
    ensures tests { (n : ℕ) (s : CoreState) (l : NfsLists) (current : Option ℕ) (a : LockTestArgsItem) → IsOrderly l → IsOrderly (carried n s l (lock_test s l current a)).3 }
    ensures unlocks { (n : ℕ) (s : CoreState) (l : NfsLists) (current : Option ℕ) (a : Unlocked) → IsOrderly l → IsOrderly (carried n s l (unlock s l current a)).3 }
    ensures releases { (n : ℕ) (s : CoreState) (l : NfsLists) (current : Option ℕ) (a : OwnerItem) → IsOrderly l → IsOrderly (carried n s l (release s l current a)).3 }
{}

/// Each client has a delegation on a file exactly if it has a cache there, both of one kind (RFC 7530 10.4). So it
/// stays whatever an operation on locks comes to.
pub fn delegations_stay_caches()
    ensures locks { (n : ℕ) (s : CoreState) (l : NfsLists) (current : Option ℕ) (a : LockArgsItem) → IsGood s → AreTied s l → AreTied (carried n s l (lock s l current a)).4 (carried n s l (lock s l current a)).3 }
    ensures tests { (n : ℕ) (s : CoreState) (l : NfsLists) (current : Option ℕ) (a : LockTestArgsItem) → IsGood s → AreTied s l → AreTied (carried n s l (lock_test s l current a)).4 (carried n s l (lock_test s l current a)).3 }
    ensures unlocks { (n : ℕ) (s : CoreState) (l : NfsLists) (current : Option ℕ) (a : Unlocked) → IsGood s → AreTied s l → AreTied (carried n s l (unlock s l current a)).4 (carried n s l (unlock s l current a)).3 }
    ensures releases { (n : ℕ) (s : CoreState) (l : NfsLists) (current : Option ℕ) (a : OwnerItem) → IsGood s → AreTied s l → AreTied (carried n s l (release s l current a)).4 (carried n s l (release s l current a)).3 }
{}
