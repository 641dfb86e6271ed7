//! Laws of how connections, sessions, tree connects and opens begin, and of their numbers. The functions do nothing: their
//! clauses are the laws.
ghost use Rattle.std.specs.Prelude.{◌≡◌, ◌==◌, ◌+◌, ◌≤◌, ◌<◌, ℕ, nat_lt, true, false, List, [], ◌∷◌, ◌++◌, length, Some, None, Err, is_some};
ghost use Rattle.xl_base.specs.Lists.{IsIn};
ghost use Rattle.xl_base.specs.declared.journal.Exports.{Exports};
ghost use Rattle.xl_core.specs.Good.{IsGood};
ghost use Rattle.xl_core.specs.Ids.{id_of};
ghost use Rattle.xl_core.specs.State.{CoreState, drawn};
ghost use Rattle.xl_core.specs.declared.ask.Effect.{Effect};
ghost use Rattle.xl_front_smb.specs.Checks.{open_named, session_named};
ghost use Rattle.xl_front_smb.specs.Ending.{smb_end};
ghost use Rattle.xl_front_smb.specs.Files.{all_opens, has_room_for_open};
ghost use Rattle.xl_front_smb.specs.FrontSmb.{head_heard, sent_by, smb_shown, smb_step};
ghost use Rattle.xl_front_smb.specs.Laws.{IsInSession, outcome_of};
ghost use Rattle.xl_front_smb.specs.Replies.{reply_of};
ghost use Rattle.xl_front_smb.specs.Sessions.{has_room_for_session, has_room_for_tree};
ghost use Rattle.xl_front_smb.specs.State.{FrontSmb, empty_smb_front, smb_begin};
ghost use Rattle.xl_front_smb.specs.Texts.{is_share};
ghost use Rattle.xl_front_smb.specs.declared.told.Told.{Told};
ghost use Rattle.xl_smb.specs.Calls.{CallItem};
ghost use Rattle.xl_smb.specs.Heads.{command_of, head_of};
ghost use Rattle.xl_smb.specs.Messages.{message_at};
ghost use Rattle.xl_smb.specs.Sessions.{NegotiateCallItem, SetupCallItem, dialects_of};
ghost use Rattle.xl_smb.specs.declared.fault.SmbBad.{SmbBad};
ghost use Rattle.xl_smb.specs.declared.file.FileId.{FileId};
ghost use Rattle.xl_smb.specs.declared.head.SmbHead.{SmbHead};
ghost use Rattle.xl_smb_laws.specs.Beginnings.{AreNumbered, IsNegotiated, is_negotiate};
ghost use Rattle.xl_smb_locks.specs.declared.status.SmbStatus.{SmbStatus};
ghost use Rattle.xl_smb_state.specs.State.{Lists, client_of, connection_of, open_of, session_of, sessions_on, tree_of, trees_on};
ghost use Rattle.xl_smb_state.specs.declared.row.Open.{Open};

/// NEGOTIATE is answered that it is done exactly on a connection on which nobody has negotiated yet, if it offers SMB 2.1,
/// 0x0210 (MS-SMB2 3.3.5.4): the connection is its client's from then on, and all else stays. Else it is INVALID_PARAMETER on
/// another connection, or if it offers no dialect, and NOT_SUPPORTED if it offers others alone. Until then each other command
/// is INVALID_PARAMETER. What is refused changes nothing.
pub fn a_connection_negotiates_once()
    ensures done { (n : ℕ) (s : CoreState) (files : List (List ℕ)) (others : ℕ) (l : Lists) (conn : ℕ) (h : SmbHead) (c : NegotiateCallItem) → connection_of conn l ≡ Some (record { client = None }) → IsIn 0x0210 (dialects_of c.dialects) → let r = outcome_of n s files others l conn h (CallItem.Negotiate c) in (r.0 ≡ Told.Negotiated) × (r.1 ≡ []) × IsNegotiated l conn c.client_guid r.2 × (r.3 ≡ s) }
    ensures again { (n : ℕ) (s : CoreState) (files : List (List ℕ)) (others : ℕ) (l : Lists) (conn : ℕ) (h : SmbHead) (c : NegotiateCallItem) → (connection_of conn l ≡ Some (record { client = None }) → ⊥) → outcome_of n s files others l conn h (CallItem.Negotiate c) ≡ (Told.Failed SmbStatus.InvalidParameter, [], l, s) }
    ensures bare { (n : ℕ) (s : CoreState) (files : List (List ℕ)) (others : ℕ) (l : Lists) (conn : ℕ) (h : SmbHead) (c : NegotiateCallItem) → dialects_of c.dialects ≡ [] → outcome_of n s files others l conn h (CallItem.Negotiate c) ≡ (Told.Failed SmbStatus.InvalidParameter, [], l, s) }
    ensures others { (n : ℕ) (s : CoreState) (files : List (List ℕ)) (others : ℕ) (l : Lists) (conn : ℕ) (h : SmbHead) (c : NegotiateCallItem) → connection_of conn l ≡ Some (record { client = None }) → (dialects_of c.dialects ≡ [] → ⊥) → (IsIn 0x0210 (dialects_of c.dialects) → ⊥) → outcome_of n s files others l conn h (CallItem.Negotiate c) ≡ (Told.Failed SmbStatus.NotSupported, [], l, s) }
    ensures first { (n : ℕ) (s : CoreState) (files : List (List ℕ)) (others : ℕ) (l : Lists) (conn : ℕ) (h : SmbHead) (call : CallItem) → client_of conn l ≡ None → is_negotiate call ≡ false → outcome_of n s files others l conn h call ≡ (Told.Failed SmbStatus.InvalidParameter, [], l, s) }
{}

/// SESSION_SETUP of no session begins one under the next number, on the connection, if fewer than 16 are on it, and else is
/// INSUFFICIENT_RESOURCES; of a session that is on the connection it is answered that one, whatever its buffer says; of another
/// it is USER_SESSION_DELETED (MS-SMB2 3.3.5.5). All else stays.
pub fn sessions_are_set_up()
    ensures begins { (n : ℕ) (s : CoreState) (files : List (List ℕ)) (others : ℕ) (l : Lists) (conn : ℕ) (h : SmbHead) (client : List ℕ) (c : SetupCallItem) → client_of conn l ≡ Some client → AreNumbered s.counter l → (h.session_id == 0) ≡ true → length (sessions_on conn l) < 16 → outcome_of n s files others l conn h (CallItem.SessionSetup c) ≡ (Told.SetUp (id_of s (s.counter + 1)), [], record l { sessions = l.sessions ++ (s.counter + 1, record { connection = conn }) ∷ [] }, drawn s) }
    ensures full { (n : ℕ) (s : CoreState) (files : List (List ℕ)) (others : ℕ) (l : Lists) (conn : ℕ) (h : SmbHead) (client : List ℕ) (c : SetupCallItem) → client_of conn l ≡ Some client → (h.session_id == 0) ≡ true → 16 ≤ length (sessions_on conn l) → outcome_of n s files others l conn h (CallItem.SessionSetup c) ≡ (Told.Failed SmbStatus.InsufficientResources, [], l, s) }
    ensures again { (n : ℕ) (s : CoreState) (files : List (List ℕ)) (others : ℕ) (l : Lists) (conn : ℕ) (h : SmbHead) (client : List ℕ) (c : SetupCallItem) (session : ℕ) → IsInSession s l conn h client session → (h.session_id == 0) ≡ false → outcome_of n s files others l conn h (CallItem.SessionSetup c) ≡ (Told.SetUp h.session_id, [], l, s) }
    ensures lost { (n : ℕ) (s : CoreState) (files : List (List ℕ)) (others : ℕ) (l : Lists) (conn : ℕ) (h : SmbHead) (client : List ℕ) (c : SetupCallItem) → client_of conn l ≡ Some client → (h.session_id == 0) ≡ false → session_named s l conn h.session_id ≡ None → outcome_of n s files others l conn h (CallItem.SessionSetup c) ≡ (Told.Failed SmbStatus.UserSessionDeleted, [], l, s) }
{}

/// TREE_CONNECT begins a tree connect of its session under the next number, if its path is that of the share (MS-SMB2 3.3.5.7);
/// else it is, in the order of its checks, USER_SESSION_DELETED in no session, INSUFFICIENT_RESOURCES if 16 are on the connection
/// already, and BAD_NETWORK_NAME for another path. All else stays.
pub fn tree_connects_are_made()
    ensures begins { (n : ℕ) (s : CoreState) (files : List (List ℕ)) (others : ℕ) (l : Lists) (conn : ℕ) (h : SmbHead) (client : List ℕ) (path : List ℕ) (session : ℕ) → IsInSession s l conn h client session → AreNumbered s.counter l → length (trees_on conn l) < 16 → is_share path ≡ true → outcome_of n s files others l conn h (CallItem.TreeConnect path) ≡ (Told.Connected (s.counter + 1), [], record l { trees = l.trees ++ (s.counter + 1, record { connection = conn; session = session }) ∷ [] }, drawn s) }
    ensures full { (n : ℕ) (s : CoreState) (files : List (List ℕ)) (others : ℕ) (l : Lists) (conn : ℕ) (h : SmbHead) (client : List ℕ) (path : List ℕ) (session : ℕ) → IsInSession s l conn h client session → 16 ≤ length (trees_on conn l) → outcome_of n s files others l conn h (CallItem.TreeConnect path) ≡ (Told.Failed SmbStatus.InsufficientResources, [], l, s) }
    ensures elsewhere { (n : ℕ) (s : CoreState) (files : List (List ℕ)) (others : ℕ) (l : Lists) (conn : ℕ) (h : SmbHead) (client : List ℕ) (path : List ℕ) (session : ℕ) → IsInSession s l conn h client session → AreNumbered s.counter l → length (trees_on conn l) < 16 → is_share path ≡ false → outcome_of n s files others l conn h (CallItem.TreeConnect path) ≡ (Told.Failed SmbStatus.BadNetworkName, [], l, s) }
    ensures lost { (n : ℕ) (s : CoreState) (files : List (List ℕ)) (others : ℕ) (l : Lists) (conn : ℕ) (h : SmbHead) (client : List ℕ) (path : List ℕ) → client_of conn l ≡ Some client → session_named s l conn h.session_id ≡ None → outcome_of n s files others l conn h (CallItem.TreeConnect path) ≡ (Told.Failed SmbStatus.UserSessionDeleted, [], l, s) }
{}

/// ECHO of a client is answered that, and a command that isn't served NOT_SUPPORTED; neither changes anything (MS-SMB2 3.3.5.17).
pub fn an_echo_changes_nothing()
    ensures echoes { (n : ℕ) (s : CoreState) (files : List (List ℕ)) (others : ℕ) (l : Lists) (conn : ℕ) (h : SmbHead) (client : List ℕ) → client_of conn l ≡ Some client → outcome_of n s files others l conn h CallItem.Echo ≡ (Told.Echoed, [], l, s) }
    ensures others { (n : ℕ) (s : CoreState) (files : List (List ℕ)) (others : ℕ) (l : Lists) (conn : ℕ) (h : SmbHead) (client : List ℕ) → client_of conn l ≡ Some client → outcome_of n s files others l conn h CallItem.Other ≡ (Told.Failed SmbStatus.NotSupported, [], l, s) }
{}

/// A session, a tree connect and an open have numbers that the core gave out, and it gives out none twice. So it is at a start, and
/// stays if a connection opens or ends, whatever a message does, for each effect of the core, and as it gives out more. So
/// nothing has the next number, and of what keeps one from beginning only the want of room is left. What a request names as an
/// open under its connection is there.
pub fn numbers_are_given_once()
    ensures start { (last : ℕ) → AreNumbered last empty_smb_front.state }
    ensures begins { (last : ℕ) (f : FrontSmb) (conn : ℕ) → AreNumbered last f.state → AreNumbered last (smb_begin f conn).state }
    ensures messages { (n : ℕ) (exports : Exports) (others : ℕ) (f : FrontSmb) (s : CoreState) (conn : ℕ) (bytes : List ℕ) → IsGood s → AreNumbered s.counter f.state → (s.counter ≤ (smb_step n exports others f s conn bytes).3.counter) × AreNumbered (smb_step n exports others f s conn bytes).3.counter (smb_step n exports others f s conn bytes).2.state }
    ensures shown { (last : ℕ) (f : FrontSmb) (s : CoreState) (effect : Effect) → AreNumbered last f.state → AreNumbered last (smb_shown f s effect).1.state }
    ensures ends { (last : ℕ) (f : FrontSmb) (s : CoreState) (conn : ℕ) → AreNumbered last f.state → AreNumbered last (smb_end f s conn).1.state }
    ensures later { (last more : ℕ) (l : Lists) → last ≤ more → AreNumbered last l → AreNumbered more l }
    ensures unused { (s : CoreState) (l : Lists) → AreNumbered s.counter l → (session_of (s.counter + 1) l ≡ None) × (tree_of (s.counter + 1) l ≡ None) × (open_of (s.counter + 1) l ≡ None) }
    ensures sessions { (s : CoreState) (l : Lists) (conn : ℕ) → AreNumbered s.counter l → has_room_for_session l conn (s.counter + 1) ≡ nat_lt (length (sessions_on conn l)) 16 }
    ensures trees { (s : CoreState) (l : Lists) (conn : ℕ) → AreNumbered s.counter l → has_room_for_tree l conn (s.counter + 1) ≡ nat_lt (length (trees_on conn l)) 16 }
    ensures opens { (s : CoreState) (l : Lists) (others : ℕ) → AreNumbered s.counter l → has_room_for_open others l (s.counter + 1) ≡ nat_lt (all_opens others l) 4096 }
    ensures named { (s : CoreState) (l : Lists) (conn number : ℕ) (id : FileId) → open_named s l conn id ≡ Some number → (row : Open) × (open_of number l ≡ Some row) }
{}

/// A message that is no request of one's own is met so (MS-SMB2 3.3.5.2): one without a header, or that is a reply, with
/// silence; one of several in a frame, of a command past 18, or with a body that is not in order, with INVALID_PARAMETER; and
/// of a command that isn't served with NOT_SUPPORTED. It changes nothing.
pub fn messages_out_of_order_are_refused()
    ensures silent { (n : ℕ) (exports : Exports) (others : ℕ) (f : FrontSmb) (s : CoreState) (conn : ℕ) (bytes : List ℕ) → head_heard (head_of bytes) ≡ None → smb_step n exports others f s conn bytes ≡ ([], [], f, s) }
    ensures several { (n : ℕ) (exports : Exports) (others : ℕ) (f : FrontSmb) (s : CoreState) (conn : ℕ) (bytes : List ℕ) (h : SmbHead) → head_heard (head_of bytes) ≡ Some h → (h.next_command == 0) ≡ false → smb_step n exports others f s conn bytes ≡ (sent_by conn (reply_of h (Told.Failed SmbStatus.InvalidParameter)), [], f, s) }
    ensures past { (n : ℕ) (exports : Exports) (others : ℕ) (f : FrontSmb) (s : CoreState) (conn : ℕ) (bytes : List ℕ) (h : SmbHead) → head_heard (head_of bytes) ≡ Some h → nat_lt 18 h.command ≡ true → smb_step n exports others f s conn bytes ≡ (sent_by conn (reply_of h (Told.Failed SmbStatus.InvalidParameter)), [], f, s) }
    ensures unserved { (n : ℕ) (exports : Exports) (others : ℕ) (f : FrontSmb) (s : CoreState) (conn : ℕ) (bytes : List ℕ) (h : SmbHead) → head_heard (head_of bytes) ≡ Some h → (h.next_command == 0) ≡ true → nat_lt 18 h.command ≡ false → command_of h.command ≡ None → smb_step n exports others f s conn bytes ≡ (sent_by conn (reply_of h (Told.Failed SmbStatus.NotSupported)), [], f, s) }
    ensures unread { (n : ℕ) (exports : Exports) (others : ℕ) (f : FrontSmb) (s : CoreState) (conn : ℕ) (bytes : List ℕ) (h : SmbHead) (fault : SmbBad) → head_heard (head_of bytes) ≡ Some h → is_some (command_of h.command) ≡ true → message_at bytes ≡ Err fault → smb_step n exports others f s conn bytes ≡ (sent_by conn (reply_of h (Told.Failed SmbStatus.InvalidParameter)), [], f, s) }
{}
