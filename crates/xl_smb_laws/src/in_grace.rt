//! Laws of grace: what becomes of requests while it runs, and that SMB stores nothing. The functions do nothing: their clauses
//! are the laws.
ghost use Rattle.std.specs.Prelude.{◌≡◌, ℕ, ◌+◌, false, true, List, Some, None, is_some, length};
ghost use Rattle.xl_base.specs.declared.journal.Exports.{Exports};
ghost use Rattle.xl_core.specs.Causes.{limits_of_wait};
ghost use Rattle.xl_core.specs.Good.{IsGood};
ghost use Rattle.xl_core.specs.State.{CoreState, aside_of, drawn};
ghost use Rattle.xl_front_smb.specs.Ending.{smb_end};
ghost use Rattle.xl_front_smb.specs.Files.{open_ask, open_row, rooms_left};
ghost use Rattle.xl_front_smb.specs.FrontSmb.{smb_step};
ghost use Rattle.xl_front_smb.specs.Laws.{IsOnTree, outcome_of};
ghost use Rattle.xl_front_smb.specs.State.{FrontSmb};
ghost use Rattle.xl_front_smb.specs.Texts.{file_spelled};
ghost use Rattle.xl_smb.specs.Calls.{CallItem};
ghost use Rattle.xl_smb.specs.Creates.{CreateCallItem};
ghost use Rattle.xl_smb.specs.Locks.{LockItem, elements_of};
ghost use Rattle.xl_smb.specs.declared.head.SmbHead.{SmbHead};
ghost use Rattle.xl_smb_laws.specs.InGrace.{MayAsk, WaitsForGrace};
ghost use Rattle.xl_smb_laws.specs.LockLaws.{IsOfOpen};
ghost use Rattle.xl_smb_locks.specs.Elements.{is_count, lock_fault, unlocks_first};
ghost use Rattle.xl_smb_locks.specs.Locks.{lock_ask};
ghost use Rattle.xl_smb_state.specs.State.{Lists};
ghost use Rattle.xl_smb_state.specs.declared.row.Open.{Open};
ghost use Rattle.xl_smb_state.specs.declared.row.Place.{Place};
ghost use Rattle.xl_wait.specs.Waiting.{no_rows};

/// While grace runs, a CREATE and a LOCK of locks that are in order wait for its end, whatever is held (RFC 7530 9.6.2; MS-SMB2
/// 3.3.5.9, 3.3.5.14): each is pending under the next number, or INSUFFICIENT_RESOURCES exactly if a limit of those who wait is
/// passed. No break begins for it, and nothing is granted.
pub fn requests_wait_for_the_end_of_grace()
    ensures creates { (n : ℕ) (s : CoreState) (files : List (List ℕ)) (others : ℕ) (l : Lists) (conn : ℕ) (h : SmbHead) (client : List ℕ) (c : CreateCallItem) (session file : ℕ) (place : Place) → IsOnTree s l conn h client session place → file_spelled files c.name ≡ Some file → MayAsk s others l client c file → IsGood s → is_some s.grace ≡ true → WaitsForGrace (limits_of_wait (rooms_left others l) (drawn s) (open_ask place.connection (s.counter + 1) (open_row file client place c) c)) (s.counter + 2) s (outcome_of n s files others l conn h (CallItem.Create c)) }
    ensures locks { (n : ℕ) (s : CoreState) (files : List (List ℕ)) (others : ℕ) (l : Lists) (conn : ℕ) (h : SmbHead) (client : List ℕ) (c : LockItem) (session : ℕ) (place : Place) (number : ℕ) (row : Open) → IsOfOpen s l conn h client c.file_id session place number row → unlocks_first (elements_of c.elements) ≡ false → is_count (length (elements_of c.elements)) ≡ true → lock_fault (elements_of c.elements) ≡ None → IsGood s → is_some s.grace ≡ true → WaitsForGrace (limits_of_wait no_rows s (lock_ask conn number row (elements_of c.elements))) (s.counter + 1) s (outcome_of n s files others l conn h (CallItem.Lock c)) }
{}

/// No message of SMB stores anything, nor does the end of a connection: the record, the grace that runs and the stores of the step
/// stay as they are, as no record names a client of SMB, and none of its requests is a reclaim.
#[tactic(auto, using(crate::proofs::GraceLaws::messages_store_none, crate::proofs::GraceLaws::ends_store_none))]
pub fn nothing_of_smb_is_stored()
    ensures messages { (n : ℕ) (exports : Exports) (others : ℕ) (f : FrontSmb) (s : CoreState) (conn : ℕ) (bytes : List ℕ) → IsGood s → aside_of (smb_step n exports others f s conn bytes).3 ≡ aside_of s }
    ensures ends { (f : FrontSmb) (s : CoreState) (conn : ℕ) → IsGood s → aside_of (smb_end f s conn).2 ≡ aside_of s }
{}
