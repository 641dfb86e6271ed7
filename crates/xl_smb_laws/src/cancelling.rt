//! Laws of what is sent for a CANCEL. The function does nothing: it has laws as its clauses.
ghost use Rattle.std.specs.Prelude.{◌≡◌, ℕ, nat_eq, true, false, List, [], Option, Some, None};
ghost use Rattle.std.specs.List.{IsDistinct};
ghost use Rattle.std.specs.Map.{keys_of};
ghost use Rattle.xl_base.specs.declared.journal.Exports.{Exports};
ghost use Rattle.xl_smb.specs.Calls.{CallItem};
ghost use Rattle.xl_smb.specs.declared.head.Route.{Route};
ghost use Rattle.xl_smb.specs.declared.head.SmbHead.{SmbHead};
ghost use Rattle.xl_smb_state.specs.State.{Lists, client_of, waiting_dropped, waiting_of};
ghost use Rattle.xl_smb_state.specs.declared.row.Waiting.{Waiting};
ghost use Rattle.xl_wait.specs.Waiting.{is_waiting};
ghost use Rattle.xl_core.specs.Settle.{cancel};
ghost use Rattle.xl_core.specs.State.{CoreState};
ghost use Rattle.xl_smb_locks.specs.Finals.{final_outs};
ghost use Rattle.xl_smb_locks.specs.declared.finals.FinalReply.TheVariants as FinalReply;
ghost use Rattle.xl_smb_locks.specs.declared.status.SmbStatus.{SmbStatus};
ghost use Rattle.xl_front_smb.specs.FrontSmb.{smb_step};
ghost use Rattle.xl_front_smb.specs.Laws.{IsRequest};
ghost use Rattle.xl_front_smb.specs.Locks.{came_by, request_named};
ghost use Rattle.xl_front_smb.specs.State.{FrontSmb};

/// What is sent for a CANCEL of a client that names a request which waits is that one's final reply with
/// STATUS_CANCELLED, alone, and the request waits no more; if it names none, or one that doesn't wait any more, nothing
/// is sent, and nothing changes (MS-SMB2 3.3.5.16). What is named came by the connection.
pub fn a_cancel_sends_one_final_reply()
    ensures sent { (n : ℕ) (exports : Exports) (others : ℕ) (f : FrontSmb) (s : CoreState) (conn : ℕ) (bytes : List ℕ) (h : SmbHead) (client : List ℕ) (id : ℕ) (row : Waiting) → IsRequest bytes h CallItem.Cancel → client_of conn f.state ≡ Some client → IsDistinct nat_eq (keys_of f.state.waiting) → request_named conn f.state h.message_id h.route ≡ Some id → waiting_of id f.state ≡ Some row → is_waiting id s.waiters ≡ true → smb_step n exports others f s conn bytes ≡ (final_outs id row (FinalReply.Failed SmbStatus.Cancelled), (cancel s id).0, record { state = waiting_dropped id f.state }, (cancel s id).1) }
    ensures over { (n : ℕ) (exports : Exports) (others : ℕ) (f : FrontSmb) (s : CoreState) (conn : ℕ) (bytes : List ℕ) (h : SmbHead) (client : List ℕ) (id : ℕ) → IsRequest bytes h CallItem.Cancel → client_of conn f.state ≡ Some client → request_named conn f.state h.message_id h.route ≡ Some id → is_waiting id s.waiters ≡ false → smb_step n exports others f s conn bytes ≡ ([], [], f, s) }
    ensures unnamed { (n : ℕ) (exports : Exports) (others : ℕ) (f : FrontSmb) (s : CoreState) (conn : ℕ) (bytes : List ℕ) (h : SmbHead) (client : List ℕ) → IsRequest bytes h CallItem.Cancel → client_of conn f.state ≡ Some client → request_named conn f.state h.message_id h.route ≡ None → smb_step n exports others f s conn bytes ≡ ([], [], f, s) }
    ensures named { (conn : ℕ) (l : Lists) (message : ℕ) (route : Route) (id : ℕ) → IsDistinct nat_eq (keys_of l.waiting) → request_named conn l message route ≡ Some id → came_by conn (waiting_of id l) ≡ true }
{}
