//! Laws of whole messages: what they ask for, and what the replies to them say. The functions do nothing: their clauses are the laws.
ghost use Rattle.std.specs.Prelude.{◌≡◌, ℕ, true, false, List, [], Some};
ghost use Rattle.xl_base.specs.Lists.{IsIn};
ghost use Rattle.xl_base.specs.declared.journal.Exports.{Exports};
ghost use Rattle.xl_base.specs.declared.name.Owner.TheVariants as Owner;
ghost use Rattle.xl_core.specs.Deeds.{Asks, all_done, all_told_of, answers_of};
ghost use Rattle.xl_core.specs.Good.{IsGood};
ghost use Rattle.xl_core.specs.State.{CoreState};
ghost use Rattle.xl_core.specs.declared.ask.Ask.{Ask};
ghost use Rattle.xl_front_smb.specs.FrontSmb.{smb_deeds, smb_replies, smb_step};
ghost use Rattle.xl_front_smb.specs.Laws.{IsAckOf, IsInSession, IsOnTree};
ghost use Rattle.xl_front_smb.specs.Locks.{request_named};
ghost use Rattle.xl_front_smb.specs.State.{FrontSmb};
ghost use Rattle.xl_front_smb.specs.Texts.{file_spelled};
ghost use Rattle.xl_front_smb.specs.declared.told.Told.{Told};
ghost use Rattle.xl_matrix.specs.Blocks.{is_cache};
ghost use Rattle.xl_matrix.specs.declared.claim.Claim.{Claim};
ghost use Rattle.xl_smb.specs.Calls.{CallItem};
ghost use Rattle.xl_smb.specs.Creates.{CreateCallItem};
ghost use Rattle.xl_smb.specs.declared.breaks.Break.TheVariants as Acknowledgement;
ghost use Rattle.xl_smb.specs.declared.file.FileId.{FileId};
ghost use Rattle.xl_smb.specs.declared.head.SmbHead.{SmbHead};
ghost use Rattle.xl_smb_laws.specs.AsTold.{AreAsTold, IsAsTold};
ghost use Rattle.xl_smb_laws.specs.AskedMessages.{AreMessageAsks};
ghost use Rattle.xl_smb_laws.specs.AskedRows.{IsAskOf};
ghost use Rattle.xl_smb_laws.specs.Heard.{IsHeard};
ghost use Rattle.xl_smb_laws.specs.OpenRights.{is_held_under};
ghost use Rattle.xl_smb_locks.specs.Levels.{level_held};
ghost use Rattle.xl_smb_locks.specs.declared.levels.Caching.{Caching};
ghost use Rattle.xl_smb_state.specs.Links.{AreDistinct, IsSound};
ghost use Rattle.xl_smb_state.specs.State.{Lists, client_of, open_of};
ghost use Rattle.xl_smb_state.specs.declared.row.Open.{Open};
ghost use Rattle.xl_smb_state.specs.declared.row.Place.{Place};
ghost use Rattle.xl_smb_state.specs.declared.row.Scope.{Scope};
ghost use Rattle.xl_wait.specs.Waiting.{is_waiting};
ghost use Rattle.xl_wait.specs.declared.waiter.Rooms.{Rooms};

/// What a message asks for is its own (MS-SMB2 3.3.5.9, 3.3.5.14): a LOCK of an open asks for it, on its file and for the party of its
/// row, and a CREATE of a file for the open of the next number there. So a machine that asks on another file than the open's doesn't
/// ask rightly.
#[tactic(auto, using(crate::proofs::AskedMessageLaws::message_asks, crate::proofs::AskedMessageLaws::other_file_is))]
pub fn messages_ask_for_their_own()
    ensures asks { (n : ℕ) (exports : Exports) (others : ℕ) (f : FrontSmb) (s : CoreState) (conn : ℕ) (bytes : List ℕ) → AreMessageAsks exports.files f.state s conn bytes (smb_deeds n exports others f s conn bytes) }
    ensures other { (number : ℕ) (row : Open) (left : Rooms) (a : Ask) → (a.file ≡ row.file → ⊥) → IsAskOf number row (Asks left a) → ⊥ }
{}

/// All that is sent for a message are the final replies to those whom it cancels, each one, to the connection that its request came
/// by, and its own reply, one, with its MessageId, or none if it is a CANCEL or is answered nothing (MS-SMB2 3.3.4.1, 3.3.4.2, 3.3.5.16).
/// Whoever waited is there until it is answered so.
#[tactic(auto, using(crate::proofs::HeardLaws::message_heard))]
pub fn messages_are_answered_once()
    ensures heard { (n : ℕ) (exports : Exports) (others : ℕ) (f : FrontSmb) (s : CoreState) (conn : ℕ) (bytes : List ℕ) → IsHeard exports others f s conn bytes (answers_of n s (smb_deeds n exports others f s conn bytes)) (all_told_of n s (smb_deeds n exports others f s conn bytes)) (all_done n s (smb_deeds n exports others f s conn bytes)) (smb_replies exports others f s conn bytes (answers_of n s (smb_deeds n exports others f s conn bytes)) (all_told_of n s (smb_deeds n exports others f s conn bytes)) (all_done n s (smb_deeds n exports others f s conn bytes))) }
{}

/// The reply to a message tells what became of its request: after a LOCK that is done its ranges are held, or if it unlocks taken out;
/// after a CREATE that is, its open has the share that was asked for, and is in the lists; after a CLOSE neither a share nor a range of
/// its open is held, nor is that in the lists; after a LOGOFF or a TREE_DISCONNECT, if the lists are in order, nothing is left of the
/// session or the tree connect; after an OPLOCK_BREAK that is answered the open or the lease has what is answered; and whom a CANCEL
/// names waits no more (MS-SMB2 3.3.5.6, 3.3.5.8 to 3.3.5.10, 3.3.5.14, 3.3.5.16, 3.3.5.22). So it isn't by a machine that answers a
/// CREATE that its file is open and keeps nothing, that keeps a share or a range behind a LOGOFF, that answers a break with a level
/// which the open doesn't have then, or that lets who is cancelled wait on.
#[tactic(auto, using(crate::proofs::AsToldLaws::message_told))]
pub fn replies_are_as_told()
    ensures told { (n : ℕ) (exports : Exports) (others : ℕ) (f : FrontSmb) (s : CoreState) (conn : ℕ) (bytes : List ℕ) → IsGood s → AreAsTold exports.files f.state s conn bytes (smb_replies exports others f s conn bytes (answers_of n s (smb_deeds n exports others f s conn bytes)) (all_told_of n s (smb_deeds n exports others f s conn bytes)) (all_done n s (smb_deeds n exports others f s conn bytes))) (all_done n s (smb_deeds n exports others f s conn bytes)) (smb_step n exports others f s conn bytes).2.state }
    ensures dropped { (files : List (List ℕ)) (l m : Lists) (s t : CoreState) (conn : ℕ) (h : SmbHead) (c : CreateCallItem) (client : List ℕ) (session file id : ℕ) (cache : Caching) (place : Place) → IsOnTree s l conn h client session place → file_spelled files c.name ≡ Some file → t.claims ≡ [] → IsAsTold files l s conn h (CallItem.Create c) (Told.Opened id cache) t m → ⊥ }
    ensures left_behind { (files : List (List ℕ)) (l m : Lists) (s t : CoreState) (conn : ℕ) (h : SmbHead) (client : List ℕ) (session number : ℕ) (answer : Told) (c : Claim) → IsInSession s l conn h client session → IsSound l → AreDistinct l → is_held_under (Scope.Session session) (open_of number l) ≡ true → IsIn c t.claims → c.owner ≡ Owner.Open number → is_cache c.what ≡ false → IsAsTold files l s conn h CallItem.Logoff answer t m → ⊥ }
    ensures untrue { (files : List (List ℕ)) (l m : Lists) (s t : CoreState) (conn : ℕ) (h : SmbHead) (client : List ℕ) (session level number named left : ℕ) (id : FileId) (row : Open) → IsAckOf s l conn h client id level session number row → (level_held t row.file number ≡ left → ⊥) → IsAsTold files l s conn h (CallItem.OplockBreak (Acknowledgement.Oplock level id)) (Told.Acknowledged named left) t m → ⊥ }
    ensures waits_on { (files : List (List ℕ)) (l m : Lists) (s t : CoreState) (conn : ℕ) (h : SmbHead) (client : List ℕ) (id : ℕ) (answer : Told) → client_of conn l ≡ Some client → request_named conn l h.message_id h.route ≡ Some id → is_waiting id t.waiters ≡ true → IsAsTold files l s conn h CallItem.Cancel answer t m → ⊥ }
{}
