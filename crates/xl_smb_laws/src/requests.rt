//! Laws of the front. The functions do nothing: each has laws as its clauses.
ghost use Rattle.std.specs.Prelude.{◌≡◌, ℕ, ◌+◌, ◌==◌, ◌↔◌, ◌⊎◌, nat_eq, nat_lt, slice_get, true, false, List, [], ◌∷◌, ◌++◌, length, map, Some, None};
ghost use Rattle.std.specs.List.{AllByRecursion, list_any};
ghost use Rattle.xl_base.specs.declared.name.Owner.{Owner};
ghost use Rattle.xl_base.specs.declared.journal.Exports.{Exports};
ghost use Rattle.xl_core.specs.BreaksBegun.{others_of};
ghost use Rattle.xl_core.specs.BreakAnswers.{ack};
ghost use Rattle.xl_core.specs.Deeds.{all_done, all_told_of, answers_of, AreFit};
ghost use Rattle.xl_core.specs.Good.{IsGood};
ghost use Rattle.xl_base.specs.declared.name.Party.{Party};
ghost use Rattle.xl_base.specs.declared.name.Party.TheVariants as Holding;
ghost use Rattle.xl_base.specs.declared.name.Protocol.TheVariants.{Smb};
ghost use Rattle.xl_matrix.specs.Blocks.{is_cache};
ghost use Rattle.xl_names.specs.declared.name.Name.TheVariants.{SmbLease};
ghost use Rattle.xl_cache.specs.Levels.{kind_of_state, state_of};
ghost use Rattle.xl_smb.specs.declared.lease.Lease.{Lease};
ghost use Rattle.xl_smb_state.specs.declared.row.Lease.{Lease as LeaseRow};
ghost use Rattle.xl_core.specs.Places.{CacheOf, RangesOf, ShareOf, held_at};
ghost use Rattle.xl_core.specs.Settle.{cancel};
ghost use Rattle.xl_base.specs.Lists.{IsIn};
ghost use Rattle.xl_wait.specs.Waiting.{is_waiting};
ghost use Rattle.xl_smb.specs.Locks.{LockItem, elements_of};
ghost use Rattle.xl_smb_locks.specs.Elements.{is_count, unlocks_first};
ghost use Rattle.xl_smb_state.specs.declared.row.Open.{Open};
ghost use Rattle.xl_core.specs.State.{CoreState};
ghost use Rattle.xl_matrix.specs.declared.claim.Break.{Break};
ghost use Rattle.xl_matrix.specs.declared.claim.CacheKind.{CacheKind};
ghost use Rattle.xl_matrix.specs.declared.claim.Claim.{Claim};
ghost use Rattle.xl_matrix.specs.declared.claim.What.{What};
ghost use Rattle.xl_smb.specs.Calls.{CallItem};
ghost use Rattle.xl_smb.specs.Creates.{CreateCallItem};
ghost use Rattle.xl_smb.specs.declared.breaks.Break.TheVariants as Acknowledgement;
ghost use Rattle.xl_smb.specs.declared.file.FileId.{FileId};
ghost use Rattle.xl_smb.specs.declared.lock.CloseCall.{CloseCall};
ghost use Rattle.xl_smb.specs.declared.head.SmbHead.{SmbHead};
ghost use Rattle.xl_smb_state.specs.Links.{IsSound, AreDistinct};
ghost use Rattle.xl_smb_state.specs.State.{Lists, client_of, is_last_open, is_listed, key_of, lease_of, open_of, covers_holder, opens_under, waiting_under};
ghost use Rattle.xl_smb_state.specs.declared.row.LeaseKey.{LeaseKey};
ghost use Rattle.xl_smb_state.specs.declared.row.Place.{Place};
ghost use Rattle.xl_smb_state.specs.declared.row.Scope.{Scope};
ghost use Rattle.xl_smb_laws.specs.WaitingRequests.{AreAwaited, AreLeft};
ghost use Rattle.xl_front_smb.specs.Ending.{all_dismissed, leavers_under, numbers_under, party_going, smb_end_deeds, smb_end};
ghost use Rattle.xl_front_smb.specs.Files.{access_of, deny_of, open_row, is_refused, left_at, lease_left, may_keep};
ghost use Rattle.xl_front_smb.specs.FrontSmb.{answered, smb_deeds, smb_replies, smb_step};
ghost use Rattle.xl_front_smb.specs.Checks.{id_of, session_named, tree_named, open_named};
ghost use Rattle.xl_smb_laws.specs.LockLaws.{IsOfOpen, OnlyWaits, held_as, all_unlocked, before_fault, unlocks_told};
ghost use Rattle.xl_front_smb.specs.Laws.{rows_but, Without, OnlyBreaks, IsLeased, goes_among, outcome_of, IsRequest, IsInSession, IsOnTree, IsAckOf, rest_status, IsCreateDue};
ghost use Rattle.xl_front_smb.specs.Owners.{AreOwn, is_end};
ghost use Rattle.xl_front_smb.specs.State.{FrontSmb};
ghost use Rattle.xl_front_smb.specs.Texts.{file_spelled};
ghost use Rattle.xl_smb_locks.specs.Levels.{cache_of, caching, first_kind, lease_party, level_held, oplock_of, party_of};
ghost use Rattle.xl_smb_locks.specs.declared.levels.Caching.{Caching};
ghost use Rattle.xl_smb_locks.specs.declared.status.SmbStatus.{SmbStatus};
ghost use Rattle.xl_front_smb.specs.declared.told.Told.{Told};

/// A message leaves the core as its deeds do, and tells of what they tell of; so does the end of a connection.
#[tactic(auto, using(crate::proofs::RequestDeedLaws::step_does, crate::proofs::RequestDeedLaws::step_tells, crate::proofs::RequestDeedLaws::end_does, crate::proofs::RequestDeedLaws::end_tells))]
pub fn steps_are_their_deeds()
    ensures messages { (n : ℕ) (exports : Exports) (others : ℕ) (f : FrontSmb) (s : CoreState) (conn : ℕ) (bytes : List ℕ) → (smb_step n exports others f s conn bytes).3 ≡ all_done n s (smb_deeds n exports others f s conn bytes) }
    ensures told { (n : ℕ) (exports : Exports) (others : ℕ) (f : FrontSmb) (s : CoreState) (conn : ℕ) (bytes : List ℕ) → (smb_step n exports others f s conn bytes).1 ≡ all_told_of n s (smb_deeds n exports others f s conn bytes) }
    ensures ends { (n : ℕ) (f : FrontSmb) (s : CoreState) (conn : ℕ) → (smb_end f s conn).2 ≡ all_done n s (smb_end_deeds f s conn) }
    ensures ended { (n : ℕ) (f : FrontSmb) (s : CoreState) (conn : ℕ) → (smb_end f s conn).0 ≡ all_told_of n s (smb_end_deeds f s conn) }
{}

/// The core takes these deeds.
#[tactic(auto, using(crate::proofs::RequestOwn::step_takes, crate::proofs::RequestOwn::end_takes))]
pub fn deeds_are_taken()
    ensures messages { (n : ℕ) (exports : Exports) (others : ℕ) (f : FrontSmb) (s : CoreState) (conn : ℕ) (bytes : List ℕ) → AreFit n s (smb_deeds n exports others f s conn bytes) }
    ensures ends { (n : ℕ) (f : FrontSmb) (s : CoreState) (conn : ℕ) → AreFit n s (smb_end_deeds f s conn) }
{}

/// Each deed of a message draws a number, closes an open under the connection that the message came by, or one that a
/// request under it waits to make, cancels a request that came by it, answers the break of an oplock of an open under
/// it or of a lease of its client, or is an ask of an open under it or of a new one: no other open's claims are
/// reached, and no other client's leases. The end of a connection does nothing except close such opens.
#[tactic(auto, using(crate::proofs::RequestOwn::step_own, crate::proofs::RequestOwn::end_own, crate::proofs::RequestOwn::ends_alone))]
pub fn deeds_are_the_connections()
    ensures messages { (n : ℕ) (exports : Exports) (others : ℕ) (f : FrontSmb) (s : CoreState) (conn : ℕ) (bytes : List ℕ) → AreOwn f s conn (smb_deeds n exports others f s conn bytes) }
    ensures ends { (f : FrontSmb) (s : CoreState) (conn : ℕ) → AreOwn f s conn (smb_end_deeds f s conn) }
    ensures alone { (f : FrontSmb) (s : CoreState) (conn : ℕ) → AllByRecursion (λ d. is_end d ≡ true) (smb_end_deeds f s conn) }
{}

/// What is sent for a message are the final replies to those whom it cancels, and behind them one reply at most, which goes
/// back to the connection that it came by: functions of the message, of the state that it meets, of what its deeds are
/// answered and tell of, and of the state that they leave.
#[tactic(auto, using(crate::proofs::RequestDeedLaws::step_replies))]
pub fn replies_go_back()
    ensures { (n : ℕ) (exports : Exports) (others : ℕ) (f : FrontSmb) (s : CoreState) (conn : ℕ) (bytes : List ℕ) → (smb_step n exports others f s conn bytes).0 ≡ smb_replies exports others f s conn bytes (answers_of n s (smb_deeds n exports others f s conn bytes)) (all_told_of n s (smb_deeds n exports others f s conn bytes)) (all_done n s (smb_deeds n exports others f s conn bytes)) }
{}

/// The end of a connection leaves nothing of it, and all else (MS-SMB2 3.3.7.1): of claims and waiters just those of no open
/// under it, and of none that a request under it waits to make, of the lists just the opens that are not under it, and the
/// sessions and tree connects that are not on it; and the connection is gone. Each other open stays under its lease. Of the requests
/// that wait just those stay that wait for none of these opens, and none that came by it.
pub fn an_ended_connection_leaves_nothing()
    ensures core { (f : FrontSmb) (s : CoreState) (conn : ℕ) → Without (leavers_under s.names (Scope.Connection conn) f.state) s (smb_end f s conn).2 }
    ensures opens { (f : FrontSmb) (s : CoreState) (conn : ℕ) → AreDistinct f.state → (smb_end f s conn).1.state.opens ≡ rows_but (λ e. covers_holder (Scope.Connection conn) e.1.holder) f.state.opens }
    ensures sessions { (f : FrontSmb) (s : CoreState) (conn : ℕ) → AreDistinct f.state → (smb_end f s conn).1.state.sessions ≡ rows_but (λ e. e.1.connection == conn) f.state.sessions }
    ensures trees { (f : FrontSmb) (s : CoreState) (conn : ℕ) → IsSound f.state → AreDistinct f.state → (smb_end f s conn).1.state.trees ≡ rows_but (λ e. e.1.connection == conn) f.state.trees }
    ensures leases { (f : FrontSmb) (s : CoreState) (conn number : ℕ) (made : Open) → list_any (nat_eq number) (opens_under (Scope.Connection conn) f.state) ≡ false → IsLeased f.state number made → IsLeased (smb_end f s conn).1.state number made }
    ensures connections { (f : FrontSmb) (s : CoreState) (conn : ℕ) → AreDistinct f.state → (smb_end f s conn).1.state.connections ≡ rows_but (λ e. conn == e.0) f.state.connections }
    ensures waiting { (f : FrontSmb) (s : CoreState) (conn : ℕ) → IsGood s → AreDistinct f.state → AreAwaited s f.state → AreLeft (numbers_under (Scope.Connection conn) f.state) f.state (smb_end f s conn).1.state }
    ensures requests { (f : FrontSmb) (s : CoreState) (conn : ℕ) → AllByRecursion (λ e. e.1.place.connection == conn ≡ false) (smb_end f s conn).1.state.waiting }
{}

/// A message that is a request alone in its frame, of a command that is served, is answered, tells of and leaves what that
/// request comes to (MS-SMB2 3.3.5.2), of which the laws of each command speak.
pub fn requests_come_to_their_outcomes()
    ensures { (n : ℕ) (exports : Exports) (others : ℕ) (f : FrontSmb) (s : CoreState) (conn : ℕ) (bytes : List ℕ) (h : SmbHead) (call : CallItem) → IsRequest bytes h call → smb_step n exports others f s conn bytes ≡ answered conn h (outcome_of n s exports.files others f.state conn h call) }
{}

/// LOGOFF in a session that is there leaves nothing of it, and all else (MS-SMB2 3.3.5.6): of claims and waiters just
/// those of no open under it, and of none that a request under it waits to make, of the lists just the opens that are
/// not under it, the tree connects that are not of it, and the other sessions; each other open stays under its lease;
/// and once who waits no more is answered, of the requests that wait just those that wait for none of these opens. In
/// no session it is refused, and changes nothing.
pub fn a_logoff_leaves_nothing()
    ensures told { (n : ℕ) (s : CoreState) (files : List (List ℕ)) (others : ℕ) (l : Lists) (conn : ℕ) (h : SmbHead) (client : List ℕ) (session : ℕ) → IsInSession s l conn h client session → (outcome_of n s files others l conn h CallItem.Logoff).0 ≡ Told.LoggedOff }
    ensures core { (n : ℕ) (s : CoreState) (files : List (List ℕ)) (others : ℕ) (l : Lists) (conn : ℕ) (h : SmbHead) (client : List ℕ) (session : ℕ) → IsInSession s l conn h client session → Without (leavers_under s.names (Scope.Session session) l) s (outcome_of n s files others l conn h CallItem.Logoff).3 }
    ensures opens { (n : ℕ) (s : CoreState) (files : List (List ℕ)) (others : ℕ) (l : Lists) (conn : ℕ) (h : SmbHead) (client : List ℕ) (session : ℕ) → IsInSession s l conn h client session → AreDistinct l → (outcome_of n s files others l conn h CallItem.Logoff).2.opens ≡ rows_but (λ e. covers_holder (Scope.Session session) e.1.holder) l.opens }
    ensures trees { (n : ℕ) (s : CoreState) (files : List (List ℕ)) (others : ℕ) (l : Lists) (conn : ℕ) (h : SmbHead) (client : List ℕ) (session : ℕ) → IsInSession s l conn h client session → AreDistinct l → (outcome_of n s files others l conn h CallItem.Logoff).2.trees ≡ rows_but (λ e. e.1.session == session) l.trees }
    ensures sessions { (n : ℕ) (s : CoreState) (files : List (List ℕ)) (others : ℕ) (l : Lists) (conn : ℕ) (h : SmbHead) (client : List ℕ) (session : ℕ) → IsInSession s l conn h client session → AreDistinct l → (outcome_of n s files others l conn h CallItem.Logoff).2.sessions ≡ rows_but (λ e. session == e.0) l.sessions }
    ensures leases { (n : ℕ) (s : CoreState) (files : List (List ℕ)) (others : ℕ) (l : Lists) (conn : ℕ) (h : SmbHead) (client : List ℕ) (session : ℕ) → IsInSession s l conn h client session → (number : ℕ) (made : Open) → list_any (nat_eq number) (opens_under (Scope.Session session) l) ≡ false → IsLeased l number made → IsLeased (outcome_of n s files others l conn h CallItem.Logoff).2 number made }
    ensures connections { (n : ℕ) (s : CoreState) (files : List (List ℕ)) (others : ℕ) (l : Lists) (conn : ℕ) (h : SmbHead) (client : List ℕ) (session : ℕ) → IsInSession s l conn h client session → (outcome_of n s files others l conn h CallItem.Logoff).2.connections ≡ l.connections }
    ensures waiting { (n : ℕ) (s : CoreState) (files : List (List ℕ)) (others : ℕ) (l : Lists) (conn : ℕ) (h : SmbHead) (client : List ℕ) (session : ℕ) → IsInSession s l conn h client session → IsGood s → AreDistinct l → AreAwaited s l → AreLeft (numbers_under (Scope.Session session) l) l (all_dismissed (outcome_of n s files others l conn h CallItem.Logoff).1 (outcome_of n s files others l conn h CallItem.Logoff).2).1 }
    ensures refused { (n : ℕ) (s : CoreState) (files : List (List ℕ)) (others : ℕ) (l : Lists) (conn : ℕ) (h : SmbHead) (client : List ℕ) → client_of conn l ≡ Some client → session_named s l conn h.session_id ≡ None → outcome_of n s files others l conn h CallItem.Logoff ≡ (Told.Failed SmbStatus.UserSessionDeleted, [], l, s) }
{}

/// TREE_DISCONNECT on a tree connect that is there leaves nothing of it, and all else (MS-SMB2 3.3.5.8): of claims and
/// waiters just those of no open under it, and of none that a request under it waits to make, of the lists just the
/// opens that are not under it, and the other tree connects; each other open stays under its lease; and once who waits
/// no more is answered, of the requests that wait just those that wait for none of these opens. In no session, or if
/// the tree connect isn't one of it, it is refused, and changes nothing.
pub fn a_tree_disconnect_leaves_nothing()
    ensures told { (n : ℕ) (s : CoreState) (files : List (List ℕ)) (others : ℕ) (l : Lists) (conn : ℕ) (h : SmbHead) (client : List ℕ) (session : ℕ) (place : Place) → IsOnTree s l conn h client session place → (outcome_of n s files others l conn h CallItem.TreeDisconnect).0 ≡ Told.Disconnected }
    ensures core { (n : ℕ) (s : CoreState) (files : List (List ℕ)) (others : ℕ) (l : Lists) (conn : ℕ) (h : SmbHead) (client : List ℕ) (session : ℕ) (place : Place) → IsOnTree s l conn h client session place → Without (leavers_under s.names (Scope.Tree place.tree) l) s (outcome_of n s files others l conn h CallItem.TreeDisconnect).3 }
    ensures opens { (n : ℕ) (s : CoreState) (files : List (List ℕ)) (others : ℕ) (l : Lists) (conn : ℕ) (h : SmbHead) (client : List ℕ) (session : ℕ) (place : Place) → IsOnTree s l conn h client session place → AreDistinct l → (outcome_of n s files others l conn h CallItem.TreeDisconnect).2.opens ≡ rows_but (λ e. covers_holder (Scope.Tree place.tree) e.1.holder) l.opens }
    ensures trees { (n : ℕ) (s : CoreState) (files : List (List ℕ)) (others : ℕ) (l : Lists) (conn : ℕ) (h : SmbHead) (client : List ℕ) (session : ℕ) (place : Place) → IsOnTree s l conn h client session place → AreDistinct l → (outcome_of n s files others l conn h CallItem.TreeDisconnect).2.trees ≡ rows_but (λ e. place.tree == e.0) l.trees }
    ensures sessions { (n : ℕ) (s : CoreState) (files : List (List ℕ)) (others : ℕ) (l : Lists) (conn : ℕ) (h : SmbHead) (client : List ℕ) (session : ℕ) (place : Place) → IsOnTree s l conn h client session place → (outcome_of n s files others l conn h CallItem.TreeDisconnect).2.sessions ≡ l.sessions }
    ensures leases { (n : ℕ) (s : CoreState) (files : List (List ℕ)) (others : ℕ) (l : Lists) (conn : ℕ) (h : SmbHead) (client : List ℕ) (session : ℕ) (place : Place) → IsOnTree s l conn h client session place → (number : ℕ) (made : Open) → list_any (nat_eq number) (opens_under (Scope.Tree place.tree) l) ≡ false → IsLeased l number made → IsLeased (outcome_of n s files others l conn h CallItem.TreeDisconnect).2 number made }
    ensures connections { (n : ℕ) (s : CoreState) (files : List (List ℕ)) (others : ℕ) (l : Lists) (conn : ℕ) (h : SmbHead) (client : List ℕ) (session : ℕ) (place : Place) → IsOnTree s l conn h client session place → (outcome_of n s files others l conn h CallItem.TreeDisconnect).2.connections ≡ l.connections }
    ensures waiting { (n : ℕ) (s : CoreState) (files : List (List ℕ)) (others : ℕ) (l : Lists) (conn : ℕ) (h : SmbHead) (client : List ℕ) (session : ℕ) (place : Place) → IsOnTree s l conn h client session place → IsGood s → AreDistinct l → AreAwaited s l → AreLeft (numbers_under (Scope.Tree place.tree) l) l (all_dismissed (outcome_of n s files others l conn h CallItem.TreeDisconnect).1 (outcome_of n s files others l conn h CallItem.TreeDisconnect).2).1 }
    ensures unnamed { (n : ℕ) (s : CoreState) (files : List (List ℕ)) (others : ℕ) (l : Lists) (conn : ℕ) (h : SmbHead) (client : List ℕ) → client_of conn l ≡ Some client → session_named s l conn h.session_id ≡ None → outcome_of n s files others l conn h CallItem.TreeDisconnect ≡ (Told.Failed SmbStatus.UserSessionDeleted, [], l, s) }
    ensures refused { (n : ℕ) (s : CoreState) (files : List (List ℕ)) (others : ℕ) (l : Lists) (conn : ℕ) (h : SmbHead) (client : List ℕ) (session : ℕ) → IsInSession s l conn h client session → tree_named l conn client h session ≡ None → outcome_of n s files others l conn h CallItem.TreeDisconnect ≡ (Told.Failed SmbStatus.NetworkNameDeleted, [], l, s) }
{}

/// CLOSE of an open under the connection leaves nothing of it, and all else (MS-SMB2 3.3.5.10): of claims and waiters
/// just those that are not the open's, of the lists the other opens, and each session and tree connect; and once who
/// waits no more is answered, of the requests that wait just those that don't wait for it. In no session, on no tree
/// connect of it, or of no open under the connection it is refused, and changes nothing.
pub fn a_close_leaves_nothing()
    ensures told { (n : ℕ) (s : CoreState) (files : List (List ℕ)) (others : ℕ) (l : Lists) (conn : ℕ) (h : SmbHead) (client : List ℕ) (c : CloseCall) (session : ℕ) (place : Place) (number : ℕ) → IsOnTree s l conn h client session place → open_named s l conn c.file_id ≡ Some number → (outcome_of n s files others l conn h (CallItem.Close c)).0 ≡ Told.Closed }
    ensures core { (n : ℕ) (s : CoreState) (files : List (List ℕ)) (others : ℕ) (l : Lists) (conn : ℕ) (h : SmbHead) (client : List ℕ) (c : CloseCall) (session : ℕ) (place : Place) (number : ℕ) → IsOnTree s l conn h client session place → open_named s l conn c.file_id ≡ Some number → Without ((number, party_going s.names l number) ∷ []) s (outcome_of n s files others l conn h (CallItem.Close c)).3 }
    ensures opens { (n : ℕ) (s : CoreState) (files : List (List ℕ)) (others : ℕ) (l : Lists) (conn : ℕ) (h : SmbHead) (client : List ℕ) (c : CloseCall) (session : ℕ) (place : Place) (number : ℕ) → IsOnTree s l conn h client session place → open_named s l conn c.file_id ≡ Some number → AreDistinct l → (outcome_of n s files others l conn h (CallItem.Close c)).2.opens ≡ rows_but (λ e. number == e.0) l.opens }
    ensures trees { (n : ℕ) (s : CoreState) (files : List (List ℕ)) (others : ℕ) (l : Lists) (conn : ℕ) (h : SmbHead) (client : List ℕ) (c : CloseCall) (session : ℕ) (place : Place) (number : ℕ) → IsOnTree s l conn h client session place → open_named s l conn c.file_id ≡ Some number → (outcome_of n s files others l conn h (CallItem.Close c)).2.trees ≡ l.trees }
    ensures sessions { (n : ℕ) (s : CoreState) (files : List (List ℕ)) (others : ℕ) (l : Lists) (conn : ℕ) (h : SmbHead) (client : List ℕ) (c : CloseCall) (session : ℕ) (place : Place) (number : ℕ) → IsOnTree s l conn h client session place → open_named s l conn c.file_id ≡ Some number → (outcome_of n s files others l conn h (CallItem.Close c)).2.sessions ≡ l.sessions }
    ensures connections { (n : ℕ) (s : CoreState) (files : List (List ℕ)) (others : ℕ) (l : Lists) (conn : ℕ) (h : SmbHead) (client : List ℕ) (c : CloseCall) (session : ℕ) (place : Place) (number : ℕ) → IsOnTree s l conn h client session place → open_named s l conn c.file_id ≡ Some number → (outcome_of n s files others l conn h (CallItem.Close c)).2.connections ≡ l.connections }
    ensures waiting { (n : ℕ) (s : CoreState) (files : List (List ℕ)) (others : ℕ) (l : Lists) (conn : ℕ) (h : SmbHead) (client : List ℕ) (c : CloseCall) (session : ℕ) (place : Place) (number : ℕ) → IsOnTree s l conn h client session place → open_named s l conn c.file_id ≡ Some number → IsGood s → AreDistinct l → AreAwaited s l → AreLeft (number ∷ []) l (all_dismissed (outcome_of n s files others l conn h (CallItem.Close c)).1 (outcome_of n s files others l conn h (CallItem.Close c)).2).1 }
    ensures unnamed { (n : ℕ) (s : CoreState) (files : List (List ℕ)) (others : ℕ) (l : Lists) (conn : ℕ) (h : SmbHead) (client : List ℕ) (c : CloseCall) → client_of conn l ≡ Some client → session_named s l conn h.session_id ≡ None → outcome_of n s files others l conn h (CallItem.Close c) ≡ (Told.Failed SmbStatus.UserSessionDeleted, [], l, s) }
    ensures apart { (n : ℕ) (s : CoreState) (files : List (List ℕ)) (others : ℕ) (l : Lists) (conn : ℕ) (h : SmbHead) (client : List ℕ) (c : CloseCall) (session : ℕ) → IsInSession s l conn h client session → tree_named l conn client h session ≡ None → outcome_of n s files others l conn h (CallItem.Close c) ≡ (Told.Failed SmbStatus.NetworkNameDeleted, [], l, s) }
    ensures refused { (n : ℕ) (s : CoreState) (files : List (List ℕ)) (others : ℕ) (l : Lists) (conn : ℕ) (h : SmbHead) (client : List ℕ) (c : CloseCall) (session : ℕ) (place : Place) → IsOnTree s l conn h client session place → open_named s l conn c.file_id ≡ None → outcome_of n s files others l conn h (CallItem.Close c) ≡ (Told.Failed SmbStatus.FileClosed, [], l, s) }
{}

/// CREATE is answered with its status exactly if that has its cause, in the order of its checks (MS-SMB2 3.3.5.9):
/// INVALID_PARAMETER if the key of the lease that it asks for is in use on another file (3.3.5.9.8); once its breaks
/// began it is open if the core is due to grant the share, and is given the oplock or the lease that it has then; it is
/// pending if the core is due to let it wait, for the end of grace or for answers to breaks; SHARING_VIOLATION if something
/// held stands against it for good, INSUFFICIENT_RESOURCES if it passes a limit.
pub fn creates_have_causes()
    ensures { (n : ℕ) (s : CoreState) (files : List (List ℕ)) (others : ℕ) (l : Lists) (conn : ℕ) (h : SmbHead) (c : CreateCallItem) (told : Told) → ((outcome_of n s files others l conn h (CallItem.Create c)).0 ≡ told) ↔ IsCreateDue n s (outcome_of n s files others l conn h (CallItem.Create c)).3 files others l conn h c told }
{}

/// What CREATE answers as open is held (MS-SMB2 3.3.5.9): it has the next number, and is given the oplock or the lease
/// that it has; the open is under the number, of this file and client, on this tree connect, and under the lease that
/// it asks for, if it does; and its share of the file has just the access that was asked, and denies what isn't shared.
/// A CREATE that is refused changes neither the lists nor, of what is held, any share or range: only breaks of caches
/// begin.
pub fn opened_files_are_held()
    ensures number { (n : ℕ) (s : CoreState) (files : List (List ℕ)) (others : ℕ) (l : Lists) (conn : ℕ) (h : SmbHead) (client : List ℕ) (c : CreateCallItem) (session file id : ℕ) (cache : Caching) (place : Place) → IsOnTree s l conn h client session place → file_spelled files c.name ≡ Some file → (outcome_of n s files others l conn h (CallItem.Create c)).0 ≡ Told.Opened id cache → id ≡ id_of s (s.counter + 1) }
    ensures cache { (n : ℕ) (s : CoreState) (files : List (List ℕ)) (others : ℕ) (l : Lists) (conn : ℕ) (h : SmbHead) (client : List ℕ) (c : CreateCallItem) (session file id : ℕ) (cache : Caching) (place : Place) → IsOnTree s l conn h client session place → file_spelled files c.name ≡ Some file → (outcome_of n s files others l conn h (CallItem.Create c)).0 ≡ Told.Opened id cache → cache ≡ caching (outcome_of n s files others l conn h (CallItem.Create c)).3 (s.counter + 1) (open_row file client place c) }
    ensures row { (n : ℕ) (s : CoreState) (files : List (List ℕ)) (others : ℕ) (l : Lists) (conn : ℕ) (h : SmbHead) (client : List ℕ) (c : CreateCallItem) (session file id : ℕ) (cache : Caching) (place : Place) → IsOnTree s l conn h client session place → file_spelled files c.name ≡ Some file → (outcome_of n s files others l conn h (CallItem.Create c)).0 ≡ Told.Opened id cache → open_of (s.counter + 1) (outcome_of n s files others l conn h (CallItem.Create c)).2 ≡ Some (open_row file client place c) }
    ensures leased { (n : ℕ) (s : CoreState) (files : List (List ℕ)) (others : ℕ) (l : Lists) (conn : ℕ) (h : SmbHead) (client : List ℕ) (c : CreateCallItem) (session file id : ℕ) (cache : Caching) (place : Place) → IsOnTree s l conn h client session place → file_spelled files c.name ≡ Some file → (outcome_of n s files others l conn h (CallItem.Create c)).0 ≡ Told.Opened id cache → IsLeased (outcome_of n s files others l conn h (CallItem.Create c)).2 (s.counter + 1) (open_row file client place c) }
    ensures share { (n : ℕ) (s : CoreState) (files : List (List ℕ)) (others : ℕ) (l : Lists) (conn : ℕ) (h : SmbHead) (client : List ℕ) (c : CreateCallItem) (session file id : ℕ) (cache : Caching) (place : Place) → IsOnTree s l conn h client session place → file_spelled files c.name ≡ Some file → (outcome_of n s files others l conn h (CallItem.Create c)).0 ≡ Told.Opened id cache → IsGood s → held_at (outcome_of n s files others l conn h (CallItem.Create c)).3 (ShareOf file (Owner.Open (s.counter + 1))) ≡ What.Share (access_of c.desired_access) (deny_of (access_of c.desired_access) c.share_access) ∷ [] }
    ensures refused { (n : ℕ) (s : CoreState) (files : List (List ℕ)) (others : ℕ) (l : Lists) (conn : ℕ) (h : SmbHead) (c : CreateCallItem) (status : SmbStatus) → IsGood s → (outcome_of n s files others l conn h (CallItem.Create c)).0 ≡ Told.Failed status → ((outcome_of n s files others l conn h (CallItem.Create c)).2 ≡ l) × (others_of (outcome_of n s files others l conn h (CallItem.Create c)).3.claims ≡ others_of s.claims) }
{}

/// OPLOCK_BREAK of an oplock is answered with its status exactly if that has its cause, in the order of its checks
/// (MS-SMB2 3.3.5.22.1): FILE_CLOSED if there is no such open under the connection, INVALID_PARAMETER at a lease's
/// level; if no break runs INVALID_OPLOCK_PROTOCOL at a level above II, or at II if the oplock is no more than that,
/// and else INVALID_DEVICE_STATE; if one runs INVALID_OPLOCK_PROTOCOL too, and nothing is left of the oplock, if the
/// level is more than the break leaves, and else the break is answered: the open has an oplock of the level that it is
/// answered with then.
pub fn acknowledgements_have_causes()
    ensures closed { (n : ℕ) (s : CoreState) (files : List (List ℕ)) (others : ℕ) (l : Lists) (conn : ℕ) (h : SmbHead) (client : List ℕ) (session : ℕ) (level : ℕ) (id : FileId) → IsInSession s l conn h client session → open_named s l conn id ≡ None → outcome_of n s files others l conn h (CallItem.OplockBreak (Acknowledgement.Oplock level id)) ≡ (Told.Failed SmbStatus.FileClosed, [], l, s) }
    ensures leased { (n : ℕ) (s : CoreState) (files : List (List ℕ)) (others : ℕ) (l : Lists) (conn : ℕ) (h : SmbHead) (client : List ℕ) (session : ℕ) (level : ℕ) (id : FileId) (number : ℕ) → IsInSession s l conn h client session → open_named s l conn id ≡ Some number → (level == 0xFF) ≡ true → outcome_of n s files others l conn h (CallItem.OplockBreak (Acknowledgement.Oplock level id)) ≡ (Told.Failed SmbStatus.InvalidParameter, [], l, s) }
    ensures bare { (n : ℕ) (s : CoreState) (files : List (List ℕ)) (others : ℕ) (l : Lists) (conn : ℕ) (h : SmbHead) (client : List ℕ) (session : ℕ) (level : ℕ) (id : FileId) (number : ℕ) (row : Open) → IsAckOf s l conn h client id level session number row → oplock_of row.file number s.claims ≡ None → outcome_of n s files others l conn h (CallItem.OplockBreak (Acknowledgement.Oplock level id)) ≡ (Told.Failed (rest_status (nat_lt 1 level)), [], l, s) }
    ensures resting { (n : ℕ) (s : CoreState) (files : List (List ℕ)) (others : ℕ) (l : Lists) (conn : ℕ) (h : SmbHead) (client : List ℕ) (session : ℕ) (level : ℕ) (id : FileId) (number : ℕ) (row : Open) → IsAckOf s l conn h client id level session number row → (cache : Claim) (kind : CacheKind) → oplock_of row.file number s.claims ≡ Some cache → cache.what ≡ What.Cache kind None → outcome_of n s files others l conn h (CallItem.OplockBreak (Acknowledgement.Oplock level id)) ≡ (Told.Failed (rest_status (is_refused level kind None)), [], l, s) }
    ensures refused { (n : ℕ) (s : CoreState) (files : List (List ℕ)) (others : ℕ) (l : Lists) (conn : ℕ) (h : SmbHead) (client : List ℕ) (session : ℕ) (level : ℕ) (id : FileId) (number : ℕ) (row : Open) → IsAckOf s l conn h client id level session number row → (cache : Claim) (kind : CacheKind) → oplock_of row.file number s.claims ≡ Some cache → (running : Break) → cache.what ≡ What.Cache kind (Some running) → is_refused level kind (Some running) ≡ true → outcome_of n s files others l conn h (CallItem.OplockBreak (Acknowledgement.Oplock level id)) ≡ (Told.Failed SmbStatus.InvalidOplockProtocol, (ack s cache None).0, l, (ack s cache None).1) }
    ensures taken { (n : ℕ) (s : CoreState) (files : List (List ℕ)) (others : ℕ) (l : Lists) (conn : ℕ) (h : SmbHead) (client : List ℕ) (session : ℕ) (level : ℕ) (id : FileId) (number : ℕ) (row : Open) → IsAckOf s l conn h client id level session number row → (cache : Claim) (kind : CacheKind) → oplock_of row.file number s.claims ≡ Some cache → (running : Break) → cache.what ≡ What.Cache kind (Some running) → is_refused level kind (Some running) ≡ false → outcome_of n s files others l conn h (CallItem.OplockBreak (Acknowledgement.Oplock level id)) ≡ (Told.Acknowledged (id_of s number) level, (ack s cache (left_at level)).0, l, (ack s cache (left_at level)).1) }
    ensures left { (n : ℕ) (s : CoreState) (files : List (List ℕ)) (others : ℕ) (l : Lists) (conn : ℕ) (h : SmbHead) (client : List ℕ) (session : ℕ) (level : ℕ) (id : FileId) (number : ℕ) (row : Open) → IsAckOf s l conn h client id level session number row → (cache : Claim) (kind : CacheKind) → oplock_of row.file number s.claims ≡ Some cache → (running : Break) → cache.what ≡ What.Cache kind (Some running) → is_refused level kind (Some running) ≡ false → IsGood s → level_held (outcome_of n s files others l conn h (CallItem.OplockBreak (Acknowledgement.Oplock level id))).3 row.file number ≡ level }
{}

/// OPLOCK_BREAK of a lease is answered with its status exactly if that has its cause, in the order of its checks
/// (MS-SMB2 3.3.5.22.2): OBJECT_NAME_NOT_FOUND if the client has no lease of this key; UNSUCCESSFUL if no break of its
/// cache runs; REQUEST_NOT_ACCEPTED if the state is none that the break leaves, which runs on then; and else the break
/// is answered: the lease holds the state that it is answered with then.
pub fn lease_acknowledgements_have_causes()
    ensures unknown { (n : ℕ) (s : CoreState) (files : List (List ℕ)) (others : ℕ) (l : Lists) (conn : ℕ) (h : SmbHead) (client : List ℕ) (session : ℕ) (lease : Lease) → IsInSession s l conn h client session → lease_of (record { client = client; key = lease.key }) l ≡ None → outcome_of n s files others l conn h (CallItem.OplockBreak (Acknowledgement.Lease lease)) ≡ (Told.Failed SmbStatus.ObjectNameNotFound, [], l, s) }
    ensures bare { (n : ℕ) (s : CoreState) (files : List (List ℕ)) (others : ℕ) (l : Lists) (conn : ℕ) (h : SmbHead) (client : List ℕ) (session : ℕ) (lease : Lease) → IsInSession s l conn h client session → (row : LeaseRow) → lease_of (record { client = client; key = lease.key }) l ≡ Some row → cache_of row.file (lease_party s.names client lease.key) s.claims ≡ None → outcome_of n s files others l conn h (CallItem.OplockBreak (Acknowledgement.Lease lease)) ≡ (Told.Failed SmbStatus.Unsuccessful, [], l, s) }
    ensures resting { (n : ℕ) (s : CoreState) (files : List (List ℕ)) (others : ℕ) (l : Lists) (conn : ℕ) (h : SmbHead) (client : List ℕ) (session : ℕ) (lease : Lease) → IsInSession s l conn h client session → (row : LeaseRow) → lease_of (record { client = client; key = lease.key }) l ≡ Some row → (cache : Claim) (kind : CacheKind) → cache_of row.file (lease_party s.names client lease.key) s.claims ≡ Some cache → cache.what ≡ What.Cache kind None → outcome_of n s files others l conn h (CallItem.OplockBreak (Acknowledgement.Lease lease)) ≡ (Told.Failed SmbStatus.Unsuccessful, [], l, s) }
    ensures refused { (n : ℕ) (s : CoreState) (files : List (List ℕ)) (others : ℕ) (l : Lists) (conn : ℕ) (h : SmbHead) (client : List ℕ) (session : ℕ) (lease : Lease) → IsInSession s l conn h client session → (row : LeaseRow) → lease_of (record { client = client; key = lease.key }) l ≡ Some row → (cache : Claim) (kind : CacheKind) → cache_of row.file (lease_party s.names client lease.key) s.claims ≡ Some cache → (running : Break) → cache.what ≡ What.Cache kind (Some running) → may_keep lease.state running ≡ false → outcome_of n s files others l conn h (CallItem.OplockBreak (Acknowledgement.Lease lease)) ≡ (Told.Failed SmbStatus.RequestNotAccepted, [], l, s) }
    ensures taken { (n : ℕ) (s : CoreState) (files : List (List ℕ)) (others : ℕ) (l : Lists) (conn : ℕ) (h : SmbHead) (client : List ℕ) (session : ℕ) (lease : Lease) → IsInSession s l conn h client session → (row : LeaseRow) → lease_of (record { client = client; key = lease.key }) l ≡ Some row → (cache : Claim) (kind : CacheKind) → cache_of row.file (lease_party s.names client lease.key) s.claims ≡ Some cache → (running : Break) → cache.what ≡ What.Cache kind (Some running) → may_keep lease.state running ≡ true → outcome_of n s files others l conn h (CallItem.OplockBreak (Acknowledgement.Lease lease)) ≡ (Told.Answered (lease_left lease), (ack s cache (kind_of_state lease.state)).0, l, (ack s cache (kind_of_state lease.state)).1) }
    ensures left { (n : ℕ) (s : CoreState) (files : List (List ℕ)) (others : ℕ) (l : Lists) (conn : ℕ) (h : SmbHead) (client : List ℕ) (session : ℕ) (lease : Lease) → IsInSession s l conn h client session → (row : LeaseRow) → lease_of (record { client = client; key = lease.key }) l ≡ Some row → (cache : Claim) (kind : CacheKind) → cache_of row.file (lease_party s.names client lease.key) s.claims ≡ Some cache → (running : Break) → cache.what ≡ What.Cache kind (Some running) → may_keep lease.state running ≡ true → IsGood s → state_of (first_kind (held_at (outcome_of n s files others l conn h (CallItem.OplockBreak (Acknowledgement.Lease lease))).3 (CacheOf row.file (lease_party s.names client lease.key)))) ≡ lease.state }
{}

/// A lease goes with its last open (MS-SMB2 3.3.5.10): CLOSE of an open beside which another is under its lease leaves each cache
/// as it is; and of the last one, or of one that is under no lease, it leaves none of the lease's, or of its own. Each other open
/// stays under its lease, and no lease has the one that is closed.
pub fn a_lease_goes_with_its_last_open()
    ensures stays { (n : ℕ) (s : CoreState) (files : List (List ℕ)) (others : ℕ) (l : Lists) (conn : ℕ) (h : SmbHead) (client : List ℕ) (c : CloseCall) (session : ℕ) (place : Place) (number : ℕ) (row : Open) → IsOnTree s l conn h client session place → open_named s l conn c.file_id ≡ Some number → open_of number l ≡ Some row → IsGood s → is_last_open number l ≡ false → (file : ℕ) (holder : Party) → held_at (outcome_of n s files others l conn h (CallItem.Close c)).3 (CacheOf file holder) ≡ held_at s (CacheOf file holder) }
    ensures goes { (n : ℕ) (s : CoreState) (files : List (List ℕ)) (others : ℕ) (l : Lists) (conn : ℕ) (h : SmbHead) (client : List ℕ) (c : CloseCall) (session : ℕ) (place : Place) (number : ℕ) (row : Open) → IsOnTree s l conn h client session place → open_named s l conn c.file_id ≡ Some number → open_of number l ≡ Some row → IsGood s → is_last_open number l ≡ true → (file : ℕ) → held_at (outcome_of n s files others l conn h (CallItem.Close c)).3 (CacheOf file (party_of s.names number row)) ≡ [] }
    ensures others { (n : ℕ) (s : CoreState) (files : List (List ℕ)) (others : ℕ) (l : Lists) (conn : ℕ) (h : SmbHead) (client : List ℕ) (c : CloseCall) (session : ℕ) (place : Place) (number : ℕ) → IsOnTree s l conn h client session place → open_named s l conn c.file_id ≡ Some number → (other : ℕ) (made : Open) → other == number ≡ false → IsLeased l other made → IsLeased (outcome_of n s files others l conn h (CallItem.Close c)).2 other made }
    ensures left { (n : ℕ) (s : CoreState) (files : List (List ℕ)) (others : ℕ) (l : Lists) (conn : ℕ) (h : SmbHead) (client : List ℕ) (c : CloseCall) (session : ℕ) (place : Place) (number : ℕ) → IsOnTree s l conn h client session place → open_named s l conn c.file_id ≡ Some number → is_listed number (outcome_of n s files others l conn h (CallItem.Close c)).2 ≡ false }
{}

/// While an open of a lease stays, so does the lease's cache, whichever opens end with a session, a tree connect or a connection: it
/// goes with none of them (MS-SMB2 3.3.4.17, 3.3.5.6, 3.3.7.1).
pub fn a_lease_outlives_its_other_opens()
    ensures { (s : CoreState) (at : ℕ) (key : LeaseKey) (cache : Claim) → IsGood s → is_cache cache.what ≡ true → cache.party ≡ Holding.Name Smb at → slice_get s.names at ≡ Some (SmbLease key.client key.key) → (number : ℕ) (made : Open) → key_of (Some made) ≡ Some key → (l : Lists) (under : Scope) → IsLeased l number made → list_any (nat_eq number) (opens_under under l) ≡ false → goes_among (leavers_under s.names under l) cache ≡ false }
{}

/// LOCK of locks of an open that is found (MS-SMB2 3.3.5.14.2): if it is answered that they are locked each range is
/// held once more, in order behind those that the open had on its file, and the lists stay; if it fails no share, range,
/// waiter or name changed, and of the caches, as the law of those says, only those of whose break it tells; if it waits no share or
/// range changed, and one waits for all its ranges, behind those who waited. What others hold stays, as the core's laws of one ask say.
pub fn locked_ranges_are_held()
    ensures held { (n : ℕ) (s : CoreState) (files : List (List ℕ)) (others : ℕ) (l : Lists) (conn : ℕ) (h : SmbHead) (client : List ℕ) (c : LockItem) (session : ℕ) (place : Place) (number : ℕ) (row : Open) → IsOfOpen s l conn h client c.file_id session place number row → unlocks_first (elements_of c.elements) ≡ false → IsGood s → (outcome_of n s files others l conn h (CallItem.Lock c)).0 ≡ Told.Locked → (held_at (outcome_of n s files others l conn h (CallItem.Lock c)).3 (RangesOf row.file number) ≡ held_at s (RangesOf row.file number) ++ map held_as (elements_of c.elements)) × ((outcome_of n s files others l conn h (CallItem.Lock c)).2 ≡ l) }
    ensures refused { (n : ℕ) (s : CoreState) (files : List (List ℕ)) (others : ℕ) (l : Lists) (conn : ℕ) (h : SmbHead) (client : List ℕ) (c : LockItem) (session : ℕ) (place : Place) (number : ℕ) (row : Open) → IsOfOpen s l conn h client c.file_id session place number row → unlocks_first (elements_of c.elements) ≡ false → IsGood s → (status : SmbStatus) → (outcome_of n s files others l conn h (CallItem.Lock c)).0 ≡ Told.Failed status → ((outcome_of n s files others l conn h (CallItem.Lock c)).2 ≡ l) × OnlyBreaks s (outcome_of n s files others l conn h (CallItem.Lock c)).3 }
    ensures waits { (n : ℕ) (s : CoreState) (files : List (List ℕ)) (others : ℕ) (l : Lists) (conn : ℕ) (h : SmbHead) (client : List ℕ) (c : LockItem) (session : ℕ) (place : Place) (number : ℕ) (row : Open) → IsOfOpen s l conn h client c.file_id session place number row → unlocks_first (elements_of c.elements) ≡ false → IsGood s → (id : ℕ) → (outcome_of n s files others l conn h (CallItem.Lock c)).0 ≡ Told.Pending id → OnlyWaits s row.file number id (elements_of c.elements) (outcome_of n s files others l conn h (CallItem.Lock c)).3 }
{}

/// LOCK of unlocks of an open that is found (MS-SMB2 3.3.5.14.1): if it is answered that they are done each has taken
/// out one range that is equal, an exclusive one before a shared one, and the lists stay. They are done in order: if
/// one can't be, as its flags or its range are not in order, or no range that is held is equal, it says why they fail;
/// those before it stay unlocked, and what it and those behind it name stays. None, or more than 64, are refused, and
/// change nothing.
pub fn unlocked_ranges_are_given_up()
    ensures done { (n : ℕ) (s : CoreState) (files : List (List ℕ)) (others : ℕ) (l : Lists) (conn : ℕ) (h : SmbHead) (client : List ℕ) (c : LockItem) (session : ℕ) (place : Place) (number : ℕ) (row : Open) → IsOfOpen s l conn h client c.file_id session place number row → unlocks_first (elements_of c.elements) ≡ true → IsGood s → (outcome_of n s files others l conn h (CallItem.Lock c)).0 ≡ Told.Locked → (held_at (outcome_of n s files others l conn h (CallItem.Lock c)).3 (RangesOf row.file number) ≡ all_unlocked (elements_of c.elements) (held_at s (RangesOf row.file number))) × ((outcome_of n s files others l conn h (CallItem.Lock c)).2 ≡ l) }
    ensures left { (n : ℕ) (s : CoreState) (files : List (List ℕ)) (others : ℕ) (l : Lists) (conn : ℕ) (h : SmbHead) (client : List ℕ) (c : LockItem) (session : ℕ) (place : Place) (number : ℕ) (row : Open) → IsOfOpen s l conn h client c.file_id session place number row → unlocks_first (elements_of c.elements) ≡ true → is_count (length (elements_of c.elements)) ≡ true → IsGood s → (held_at (outcome_of n s files others l conn h (CallItem.Lock c)).3 (RangesOf row.file number) ≡ all_unlocked (before_fault (elements_of c.elements) (held_at s (RangesOf row.file number))) (held_at s (RangesOf row.file number))) × ((outcome_of n s files others l conn h (CallItem.Lock c)).2 ≡ l) }
    ensures told { (n : ℕ) (s : CoreState) (files : List (List ℕ)) (others : ℕ) (l : Lists) (conn : ℕ) (h : SmbHead) (client : List ℕ) (c : LockItem) (session : ℕ) (place : Place) (number : ℕ) (row : Open) → IsOfOpen s l conn h client c.file_id session place number row → unlocks_first (elements_of c.elements) ≡ true → is_count (length (elements_of c.elements)) ≡ true → IsGood s → (outcome_of n s files others l conn h (CallItem.Lock c)).0 ≡ unlocks_told (elements_of c.elements) (held_at s (RangesOf row.file number)) }
    ensures uncounted { (n : ℕ) (s : CoreState) (files : List (List ℕ)) (others : ℕ) (l : Lists) (conn : ℕ) (h : SmbHead) (client : List ℕ) (c : LockItem) (session : ℕ) (place : Place) (number : ℕ) (row : Open) → IsOfOpen s l conn h client c.file_id session place number row → is_count (length (elements_of c.elements)) ≡ false → outcome_of n s files others l conn h (CallItem.Lock c) ≡ (Told.Failed SmbStatus.InvalidParameter, [], l, s) }
{}

/// CANCEL of a client takes out one at most who waits by its connection, tells of it, and has no reply of its own; all
/// else stays (MS-SMB2 3.3.5.16).
pub fn a_cancel_takes_one()
    ensures { (n : ℕ) (s : CoreState) (files : List (List ℕ)) (others : ℕ) (l : Lists) (conn : ℕ) (h : SmbHead) (client : List ℕ) → client_of conn l ≡ Some client → (outcome_of n s files others l conn h CallItem.Cancel ≡ (Told.Nothing, [], l, s)) ⊎ ((id : ℕ) × IsIn id (waiting_under (Scope.Connection conn) l) × (is_waiting id s.waiters ≡ true) × (outcome_of n s files others l conn h CallItem.Cancel ≡ (Told.Nothing, (cancel s id).0, l, (cancel s id).1))) }
{}
