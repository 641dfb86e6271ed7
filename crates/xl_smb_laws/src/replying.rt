//! Laws of replies: what their headers repeat, and what they say. The functions do nothing: their clauses are the laws.
ghost use Rattle.std.specs.Prelude.{◌≡◌, ℕ, ◌==◌, true, false, List, [], ◌∷◌, ◌++◌, Some, None};
ghost use Rattle.xl_core.specs.Good.{IsGood};
ghost use Rattle.xl_core.specs.State.{CoreState};
ghost use Rattle.xl_core.specs.declared.ask.Effect.{Effect};
ghost use Rattle.xl_base.specs.Lists.{IsIn};
ghost use Rattle.xl_front_smb.specs.Ending.{all_dismissed, smb_end};
ghost use Rattle.xl_front_smb.specs.State.{FrontSmb};
ghost use Rattle.xl_front_smb.specs.Laws.{outcome_of};
ghost use Rattle.xl_front_smb.specs.Replies.{reply_of};
ghost use Rattle.xl_front_smb.specs.declared.told.Told.{Told};
ghost use Rattle.xl_smb.specs.Calls.{CallItem};
ghost use Rattle.xl_smb.specs.Heads.{number_of};
ghost use Rattle.xl_smb.specs.declared.command.Command.TheVariants as command;
ghost use Rattle.xl_smb.specs.declared.head.SmbHead.{SmbHead};
ghost use Rattle.xl_smb_laws.specs.ReplyHeads.{IsFinalOf, IsReplyOf, KeepsHead, cancelled_outs, not_cancelled};
ghost use Rattle.xl_smb_laws.specs.WaitingRequests.{AreAwaited};
ghost use Rattle.xl_smb_locks.specs.Finals.{final_reply};
ghost use Rattle.xl_smb_locks.specs.declared.finals.FinalReply.{FinalReply};
ghost use Rattle.xl_smb_state.specs.Links.{AreDistinct};
ghost use Rattle.xl_smb_state.specs.State.{Lists};
ghost use Rattle.xl_smb_state.specs.declared.row.Waiting.{Waiting};

/// The header of a reply is its request's, whatever it is answered (MS-SMB2 3.3.4.1): MessageId, command, charge and credits;
/// its status is that of what is answered; the AsyncId, with the asynchronous flag, is in STATUS_PENDING alone. A CANCEL gets
/// none (3.3.5.16), each other request that is answered one.
pub fn replies_repeat_their_requests()
    ensures carried { (h : SmbHead) (told : Told) (bytes : List ℕ) → reply_of h told ≡ Some bytes → IsReplyOf h told bytes }
    ensures silent { (h : SmbHead) (told : Told) → (h.command == number_of command.Cancel) ≡ true → reply_of h told ≡ None }
    ensures nothing { (h : SmbHead) → reply_of h Told.Nothing ≡ None }
    ensures answered { (h : SmbHead) (told : Told) → (h.command == number_of command.Cancel) ≡ false → reply_of h told ≡ None → told ≡ Told.Nothing }
{}

/// The header of a final reply is that of the request that waited, whatever becomes of it (MS-SMB2 3.3.4.2): its MessageId,
/// session and command, and the AsyncId that STATUS_PENDING named.
pub fn final_replies_repeat_their_requests()
    ensures { (id : ℕ) (row : Waiting) (said : FinalReply) → IsFinalOf id row (final_reply id row said) }
{}

/// A request is answered STATUS_PENDING exactly if a row of it comes among the requests that wait (MS-SMB2 3.3.4.2): one row,
/// behind the others, under the AsyncId that it is given; of a CREATE or a LOCK that came by the connection, with the MessageId
/// and the session of its header, which its final reply repeats. Whatever else a request is answered, no row comes or goes
/// by what it comes to.
pub fn who_is_pending_is_kept()
    ensures comes { (n : ℕ) (s : CoreState) (files : List (List ℕ)) (others : ℕ) (l : Lists) (conn : ℕ) (h : SmbHead) (call : CallItem) (id : ℕ) → IsGood s → AreDistinct l → AreAwaited s l → (outcome_of n s files others l conn h call).0 ≡ Told.Pending id → (row : Waiting) × ((outcome_of n s files others l conn h call).2.waiting ≡ l.waiting ++ (id, row) ∷ []) × KeepsHead h conn call row }
    ensures stays { (n : ℕ) (s : CoreState) (files : List (List ℕ)) (others : ℕ) (l : Lists) (conn : ℕ) (h : SmbHead) (call : CallItem) → ((id : ℕ) → (outcome_of n s files others l conn h call).0 ≡ Told.Pending id → ⊥) → (outcome_of n s files others l conn h call).2.waiting ≡ l.waiting }
{}

/// Of the requests that wait just those go of whom the core tells that they wait no more, each with one final reply,
/// STATUS_CANCELLED, to the connection that it came by, in the order in which they came; all others stay (MS-SMB2 3.3.4.2,
/// 3.3.5.6, 3.3.5.8, 3.3.5.10, 3.3.5.16). With a connection that ends none goes that came by another (3.3.7.1).
pub fn who_waits_no_more_is_answered_once()
    ensures sent { (told : List Effect) (l : Lists) → AreDistinct l → (all_dismissed told l).0 ≡ cancelled_outs told l.waiting }
    ensures left { (told : List Effect) (l : Lists) → AreDistinct l → (all_dismissed told l).1 ≡ record l { waiting = not_cancelled told l.waiting } }
    ensures ends { (f : FrontSmb) (s : CoreState) (conn : ℕ) (e : ℕ × Waiting) → IsGood s → AreDistinct f.state → AreAwaited s f.state → IsIn e f.state.waiting → e.1.place.connection == conn ≡ false → IsIn e (smb_end f s conn).1.state.waiting }
{}
