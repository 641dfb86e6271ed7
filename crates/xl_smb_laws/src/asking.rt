//! Laws of what CREATE and LOCK ask the core for, and of the caches that they leave. The functions do nothing: their clauses are
//! the laws.
ghost use Rattle.std.specs.Prelude.{◌≡◌, ℕ, ◌+◌, false, List, Some};
ghost use Rattle.std.specs.List.{AllByRecursion};
ghost use Rattle.xl_core.specs.Good.{IsGood};
ghost use Rattle.xl_core.specs.State.{CoreState};
ghost use Rattle.xl_front_smb.specs.Files.{open_row};
ghost use Rattle.xl_front_smb.specs.Laws.{IsOnTree, outcome_of};
ghost use Rattle.xl_front_smb.specs.Plans.{deeds_of};
ghost use Rattle.xl_front_smb.specs.Requests.{planned};
ghost use Rattle.xl_front_smb.specs.Texts.{file_spelled};
ghost use Rattle.xl_front_smb.specs.declared.told.Told.{Told};
ghost use Rattle.xl_smb.specs.Calls.{CallItem};
ghost use Rattle.xl_smb.specs.Creates.{CreateCallItem};
ghost use Rattle.xl_smb.specs.Locks.{LockItem, elements_of};
ghost use Rattle.xl_smb.specs.declared.head.SmbHead.{SmbHead};
ghost use Rattle.xl_smb_laws.specs.AskedRows.{IsAskOf, OnlyTold};
ghost use Rattle.xl_smb_laws.specs.LockLaws.{IsOfOpen};
ghost use Rattle.xl_smb_locks.specs.Elements.{unlocks_first};
ghost use Rattle.xl_smb_locks.specs.declared.levels.Caching.{Caching};
ghost use Rattle.xl_smb_state.specs.State.{Lists};
ghost use Rattle.xl_smb_state.specs.declared.row.Open.{Open};
ghost use Rattle.xl_smb_state.specs.declared.row.Place.{Place};

/// What LOCK asks for is asked for its open, on the open's file, and for the party that the open's row names (MS-SMB2 3.3.1.12):
/// the lease that it is under, by its key and the open's client, or the open itself if it is under none. So does CREATE for the
/// open of the next number, by the lease that it asks for.
pub fn what_is_asked_is_of_its_open()
    ensures locks { (n : ℕ) (s : CoreState) (files : List (List ℕ)) (others : ℕ) (l : Lists) (conn : ℕ) (h : SmbHead) (client : List ℕ) (c : LockItem) (session : ℕ) (place : Place) (number : ℕ) (row : Open) → IsOfOpen s l conn h client c.file_id session place number row → AllByRecursion (IsAskOf number row) (deeds_of n s l (planned s files others l conn h (CallItem.Lock c))) }
    ensures creates { (n : ℕ) (s : CoreState) (files : List (List ℕ)) (others : ℕ) (l : Lists) (conn : ℕ) (h : SmbHead) (client : List ℕ) (c : CreateCallItem) (session file : ℕ) (place : Place) → IsOnTree s l conn h client session place → file_spelled files c.name ≡ Some file → AllByRecursion (IsAskOf (s.counter + 1) (open_row file client place c)) (deeds_of n s l (planned s files others l conn h (CallItem.Create c))) }
{}

/// A LOCK of locks, whatever it is answered, leaves each cache as it was, except those of whose break it tells, which are left
/// as the break says (MS-SMB2 3.3.5.14, 3.3.4.6, 3.3.4.7); so does a CREATE that is refused, or that waits.
pub fn caches_change_by_breaks_that_are_told()
    ensures locks { (n : ℕ) (s : CoreState) (files : List (List ℕ)) (others : ℕ) (l : Lists) (conn : ℕ) (h : SmbHead) (client : List ℕ) (c : LockItem) (session : ℕ) (place : Place) (number : ℕ) (row : Open) → IsOfOpen s l conn h client c.file_id session place number row → unlocks_first (elements_of c.elements) ≡ false → IsGood s → OnlyTold s (outcome_of n s files others l conn h (CallItem.Lock c)).1 (outcome_of n s files others l conn h (CallItem.Lock c)).3 }
    ensures creates { (n : ℕ) (s : CoreState) (files : List (List ℕ)) (others : ℕ) (l : Lists) (conn : ℕ) (h : SmbHead) (c : CreateCallItem) → IsGood s → ((id : ℕ) (cache : Caching) → (outcome_of n s files others l conn h (CallItem.Create c)).0 ≡ Told.Opened id cache → ⊥) → OnlyTold s (outcome_of n s files others l conn h (CallItem.Create c)).1 (outcome_of n s files others l conn h (CallItem.Create c)).3 }
{}
