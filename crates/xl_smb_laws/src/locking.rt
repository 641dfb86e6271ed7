//! Laws of why LOCK is answered so. The functions do nothing: their clauses are the laws.
ghost use Rattle.std.specs.Prelude.{◌≡◌, ◌↔◌, ◌&&◌, ◌+◌, ◌^◌, ◌<◌, ℕ, not, nat_lt, true, false, List, [], ◌∷◌, length, Some, None};
ghost use Rattle.std.specs.List.{list_any};
ghost use Rattle.xl_core.specs.Good.{IsGood};
ghost use Rattle.xl_core.specs.State.{CoreState};
ghost use Rattle.xl_front_smb.specs.Checks.{open_named, session_named, tree_named};
ghost use Rattle.xl_front_smb.specs.Laws.{IsInSession, IsOnTree, outcome_of};
ghost use Rattle.xl_front_smb.specs.declared.told.Told.{Told};
ghost use Rattle.xl_smb.specs.Calls.{CallItem};
ghost use Rattle.xl_smb.specs.Locks.{LockItem, elements_of};
ghost use Rattle.xl_smb.specs.declared.head.SmbHead.{SmbHead};
ghost use Rattle.xl_smb.specs.declared.lock.LockElement.{LockElement};
ghost use Rattle.xl_smb_laws.specs.LockCauses.{AreDue, IsLockOf, IsOneDue, once_asked, range_claim};
ghost use Rattle.xl_smb_laws.specs.LockLaws.{IsOfOpen};
ghost use Rattle.xl_smb_locks.specs.Elements.{any_waits, is_count, is_lock, is_locking, is_unlock, lock_fault, unlocks_first, wraps};
ghost use Rattle.xl_smb_locks.specs.Locks.{lock_ask};
ghost use Rattle.xl_smb_locks.specs.declared.status.SmbStatus.{SmbStatus};
ghost use Rattle.xl_smb_state.specs.State.{Lists, client_of};
ghost use Rattle.xl_smb_state.specs.declared.row.Open.{Open};
ghost use Rattle.xl_smb_state.specs.declared.row.Place.{Place};

/// What the flags of a range say (MS-SMB2 2.2.26.1): SHARED_LOCK, 1, and EXCLUSIVE_LOCK, 2, lock, and wait, except for
/// FAIL_IMMEDIATELY, 0x10, with them; UNLOCK, 4, unlocks. A range reaches past the last byte exactly if it ends past 2^64.
pub fn ranges_are_read_by_their_flags()
    ensures shared { (e : LockElement) → e.flags ≡ 1 → IsLockOf false true e }
    ensures exclusive { (e : LockElement) → e.flags ≡ 2 → IsLockOf true true e }
    ensures shared_now { (e : LockElement) → e.flags ≡ 0x11 → IsLockOf false false e }
    ensures exclusive_now { (e : LockElement) → e.flags ≡ 0x12 → IsLockOf true false e }
    ensures unlock { (e : LockElement) → e.flags ≡ 4 → (is_unlock e ≡ true) × (is_locking e ≡ false) × (is_lock e ≡ false) }
    ensures past { (e : LockElement) → e.offset < 2 ^ 64 → e.length < 2 ^ 64 → (wraps e ≡ true) ↔ (2 ^ 64 < e.offset + e.length) }
{}

/// LOCK is answered with its status exactly if that has its cause, in the order of its checks (MS-SMB2 3.3.5.14): in no session
/// USER_SESSION_DELETED, on no tree connect of it NETWORK_NAME_DELETED, of no open under the connection FILE_CLOSED;
/// INVALID_PARAMETER if one of several locks is not just a lock, or they may wait; INVALID_LOCK_RANGE if one reaches past the
/// last byte. None of these changes anything. Else one lock is answered, by what is held once its breaks began and by who waits, that it
/// is locked if the core is due to grant it, that it is pending if it is due to let it wait, LOCK_NOT_GRANTED if something stands
/// against it for good, INSUFFICIENT_RESOURCES if it passes a limit; and several as the first of them that is stopped, once
/// those before it are held. While grace runs one is due to wait, and so are several.
pub fn locks_have_causes()
    ensures lost { (n : ℕ) (s : CoreState) (files : List (List ℕ)) (others : ℕ) (l : Lists) (conn : ℕ) (h : SmbHead) (client : List ℕ) (c : LockItem) → client_of conn l ≡ Some client → session_named s l conn h.session_id ≡ None → outcome_of n s files others l conn h (CallItem.Lock c) ≡ (Told.Failed SmbStatus.UserSessionDeleted, [], l, s) }
    ensures apart { (n : ℕ) (s : CoreState) (files : List (List ℕ)) (others : ℕ) (l : Lists) (conn : ℕ) (h : SmbHead) (client : List ℕ) (c : LockItem) (session : ℕ) → IsInSession s l conn h client session → tree_named l conn client h session ≡ None → outcome_of n s files others l conn h (CallItem.Lock c) ≡ (Told.Failed SmbStatus.NetworkNameDeleted, [], l, s) }
    ensures closed { (n : ℕ) (s : CoreState) (files : List (List ℕ)) (others : ℕ) (l : Lists) (conn : ℕ) (h : SmbHead) (client : List ℕ) (c : LockItem) (session : ℕ) (place : Place) → IsOnTree s l conn h client session place → open_named s l conn c.file_id ≡ None → outcome_of n s files others l conn h (CallItem.Lock c) ≡ (Told.Failed SmbStatus.FileClosed, [], l, s) }
    ensures flags { (n : ℕ) (s : CoreState) (files : List (List ℕ)) (others : ℕ) (l : Lists) (conn : ℕ) (h : SmbHead) (client : List ℕ) (c : LockItem) (session : ℕ) (place : Place) (number : ℕ) (row : Open) → IsOfOpen s l conn h client c.file_id session place number row → unlocks_first (elements_of c.elements) ≡ false → list_any (λ e. not (is_lock e)) (elements_of c.elements) ≡ true → outcome_of n s files others l conn h (CallItem.Lock c) ≡ (Told.Failed SmbStatus.InvalidParameter, [], l, s) }
    ensures many { (n : ℕ) (s : CoreState) (files : List (List ℕ)) (others : ℕ) (l : Lists) (conn : ℕ) (h : SmbHead) (client : List ℕ) (c : LockItem) (session : ℕ) (place : Place) (number : ℕ) (row : Open) → IsOfOpen s l conn h client c.file_id session place number row → unlocks_first (elements_of c.elements) ≡ false → nat_lt 1 (length (elements_of c.elements)) ≡ true → any_waits (elements_of c.elements) ≡ true → outcome_of n s files others l conn h (CallItem.Lock c) ≡ (Told.Failed SmbStatus.InvalidParameter, [], l, s) }
    ensures past { (n : ℕ) (s : CoreState) (files : List (List ℕ)) (others : ℕ) (l : Lists) (conn : ℕ) (h : SmbHead) (client : List ℕ) (c : LockItem) (session : ℕ) (place : Place) (number : ℕ) (row : Open) → IsOfOpen s l conn h client c.file_id session place number row → unlocks_first (elements_of c.elements) ≡ false → is_count (length (elements_of c.elements)) ≡ true → list_any (λ e. not (is_lock e)) (elements_of c.elements) ≡ false → (nat_lt 1 (length (elements_of c.elements)) && any_waits (elements_of c.elements)) ≡ false → list_any wraps (elements_of c.elements) ≡ true → outcome_of n s files others l conn h (CallItem.Lock c) ≡ (Told.Failed SmbStatus.InvalidLockRange, [], l, s) }
    ensures one { (n : ℕ) (s : CoreState) (files : List (List ℕ)) (others : ℕ) (l : Lists) (conn : ℕ) (h : SmbHead) (client : List ℕ) (c : LockItem) (session : ℕ) (place : Place) (number : ℕ) (row : Open) (e : LockElement) (told : Told) → IsOfOpen s l conn h client c.file_id session place number row → elements_of c.elements ≡ e ∷ [] → is_unlock e ≡ false → lock_fault (e ∷ []) ≡ None → ((outcome_of n s files others l conn h (CallItem.Lock c)).0 ≡ told) ↔ IsOneDue n (once_asked s conn number row (e ∷ [])) (lock_ask conn number row (e ∷ [])) (range_claim s.names number row e) told }
    ensures several { (n : ℕ) (s : CoreState) (files : List (List ℕ)) (others : ℕ) (l : Lists) (conn : ℕ) (h : SmbHead) (client : List ℕ) (c : LockItem) (session : ℕ) (place : Place) (number : ℕ) (row : Open) → IsOfOpen s l conn h client c.file_id session place number row → unlocks_first (elements_of c.elements) ≡ false → is_count (length (elements_of c.elements)) ≡ true → lock_fault (elements_of c.elements) ≡ None → IsGood s → AreDue n (once_asked s conn number row (elements_of c.elements)) (lock_ask conn number row (elements_of c.elements)) (elements_of c.elements) (outcome_of n s files others l conn h (CallItem.Lock c)).0 }
{}
