//! Laws of the numbers of stateids. The function does nothing: it has laws as its clauses.
ghost use Rattle.std.specs.Prelude.{ℕ, Option};
ghost use Rattle.xl_nfs.specs.Basics.{OwnerItem};
ghost use Rattle.xl_nfs.specs.Locks.{LockArgsItem, LockTestArgsItem};
ghost use Rattle.xl_nfs.specs.declared.locks.UnlockArgs.{UnlockArgs as Unlocked};
ghost use Rattle.xl_nfs_state.specs.State.{NfsLists};
ghost use Rattle.xl_core.specs.Good.{IsGood};
ghost use Rattle.xl_core.specs.State.{CoreState};
ghost use Rattle.xl_nfs_locks.specs.FirstLocks.{lock};
ghost use Rattle.xl_nfs_locks.specs.Releases.{release};
ghost use Rattle.xl_nfs_locks.specs.Tests.{lock_test};
ghost use Rattle.xl_nfs_locks.specs.Unlocks.{unlock};
ghost use Rattle.xl_nfs_laws.specs.StateidNumbers.{AreGivenOut, StayGivenOut};
ghost use Rattle.xl_nfs_opens.specs.Plans.{carried};

/// Each stateid has a number that the core gave out, and the core gives out none twice (RFC 7530 9.1.4). So it stays whatever
/// an operation on locks comes to.
pub fn stateids_have_given_numbers()
    ensures locks { (n : ℕ) (s : CoreState) (l : NfsLists) (current : Option ℕ) (a : LockArgsItem) → IsGood s → AreGivenOut s.counter l → StayGivenOut s (carried n s l (lock s l current a)) }
    ensures tests { (n : ℕ) (s : CoreState) (l : NfsLists) (current : Option ℕ) (a : LockTestArgsItem) → IsGood s → AreGivenOut s.counter l → StayGivenOut s (carried n s l (lock_test s l current a)) }
    ensures unlocks { (n : ℕ) (s : CoreState) (l : NfsLists) (current : Option ℕ) (a : Unlocked) → IsGood s → AreGivenOut s.counter l → StayGivenOut s (carried n s l (unlock s l current a)) }
    ensures releases { (n : ℕ) (s : CoreState) (l : NfsLists) (current : Option ℕ) (a : OwnerItem) → IsGood s → AreGivenOut s.counter l → StayGivenOut s (carried n s l (release s l current a)) }
{}
