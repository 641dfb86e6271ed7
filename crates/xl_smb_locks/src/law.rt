//! Laws of opens: of their ranges, of their oplocks, and of requests that wait. The functions do nothing: their clauses are the
//! laws.
ghost use Rattle.std.specs.Prelude.{◌≡◌, ℕ, ◌≤◌, true, List, [], ◌∷◌, ◌++◌, length, map, Option, Some, None, slice_get};
ghost use Rattle.xl_base.specs.declared.name.Protocol.TheVariants.{Smb};
ghost use Rattle.xl_names.specs.declared.name.Name.{Name};
ghost use Rattle.xl_names.specs.declared.name.Name.TheVariants.{SmbLease};
ghost use Rattle.xl_base.specs.declared.name.Party.{Party};
ghost use Rattle.xl_base.specs.declared.name.Party.TheVariants as Party;
ghost use Rattle.xl_exact.specs.Elements.{unlocked};
ghost use Rattle.xl_exact.specs.declared.element.Element.{Element};
ghost use Rattle.xl_matrix.specs.declared.claim.CacheKind.{CacheKind};
ghost use Rattle.xl_matrix.specs.declared.claim.Claim.{Claim};
ghost use Rattle.xl_matrix.specs.declared.claim.What.TheVariants.{Range};
ghost use Rattle.xl_programs.specs.Sent.{sent_to};
ghost use Rattle.xl_smb.specs.declared.lock.LockElement.{LockElement};
ghost use Rattle.xl_smb_state.specs.State.{Lists, key_of, lowest_open, open_of, waiting_dropped, waiting_of, with_open};
ghost use Rattle.xl_smb_state.specs.declared.row.Holder.TheVariants as Holder;
ghost use Rattle.xl_smb_state.specs.declared.row.LeaseKey.{LeaseKey};
ghost use Rattle.xl_smb_state.specs.declared.row.Open.{Open};
ghost use Rattle.xl_smb_state.specs.declared.row.Place.{Place};
ghost use Rattle.xl_smb_state.specs.declared.row.Request.TheVariants as Request;
ghost use Rattle.xl_smb_state.specs.declared.row.Waiting.{Waiting};
ghost use Rattle.xl_core.specs.Decide.{ask};
ghost use Rattle.xl_core.specs.Good.{IsGood};
ghost use Rattle.xl_core.specs.Places.{RangesOf, held_at};
ghost use Rattle.xl_core.specs.State.{CoreState};
ghost use Rattle.xl_core.specs.declared.ask.Answer.{Answer};
ghost use Rattle.xl_core.specs.declared.ask.Answer.TheVariants as Answer;
ghost use Rattle.xl_core.specs.declared.ask.Effect.{Effect};
ghost use Rattle.xl_core.specs.declared.ask.Effect.TheVariants as Effect;
ghost use Rattle.xl_smb_locks.specs.Elements.{extent_of, is_exclusive, lock_fault};
ghost use Rattle.xl_smb_locks.specs.Exactly.{what_of, element_of};
ghost use Rattle.xl_smb_locks.specs.Finals.{concluded, dismissed, final_outs, final_reply, is_cancelled, may_stand, refusal_of, told_of, IsFinal};
ghost use Rattle.xl_core.specs.Ids.{id_of};
ghost use Rattle.xl_smb_locks.specs.Levels.{caching, lease_party, notice_of, lease_notice_of, party_of};
ghost use Rattle.xl_smb_locks.specs.declared.finals.FinalReply.TheVariants as FinalReply;
ghost use Rattle.xl_smb_locks.specs.declared.status.SmbStatus.TheVariants as SmbStatus;
ghost use Rattle.xl_smb_locks.specs.Locks.{lock_ask, lock_done};
ghost use Rattle.xl_smb_locks.specs.declared.locking.Locking.TheVariants as Locking;
ghost use Rattle.xl_table.specs.Elements.{unlocked_elements};
ghost use Rattle.xl_wait.specs.Waiting.{no_rows};

/// What is held of an open's ranges is one list of elements, as `xl_exact` keeps it: if locks are answered as done the
/// core holds the list with theirs behind the others, and what an unlock leaves is what its list leaves (MS-FSA
/// 2.1.5.8, 2.1.5.9).
pub fn ranges_are_a_list_of_elements()
    ensures locked { (n : ℕ) (s : CoreState) (conn number : ℕ) (row : Open) (locks : List LockElement) (es : List Element) → IsGood s → lock_fault locks ≡ None → 1 ≤ length locks → held_at s (RangesOf row.file number) ≡ map what_of es → (lock_done (ask n no_rows s (lock_ask conn number row locks))).0 ≡ Locking.Done → held_at (lock_done (ask n no_rows s (lock_ask conn number row locks))).2 (RangesOf row.file number) ≡ map what_of (es ++ map element_of locks) }
    ensures range { (e : LockElement) → what_of (element_of e) ≡ Range (extent_of e) (is_exclusive e) }
    ensures unlocked { (e : LockElement) (es : List Element) → unlocked_elements (extent_of e) (map what_of es) ≡ map what_of (unlocked e.offset e.length es) }
{}

/// A break of an open's oplock is sent to the connection that the open is held on, with the level that is to be left of
/// it, and to nobody else; if there is no such open it is sent to nobody (MS-SMB2 3.3.4.6). A break of a lease is sent
/// to the connection of the lowest of its opens that is held, with what the lease held and what it may keep (MS-SMB2
/// 3.3.4.7).
#[tactic(auto, using(crate::proofs::NoticeLaws::holder_told, crate::proofs::NoticeLaws::nobody_told, crate::proofs::NoticeLaws::lease_told))]
pub fn breaks_are_told_to_holders()
    ensures holder { (s : CoreState) (l : Lists) (cache : Claim) (to : Option CacheKind) (call : Option ℕ) (number : ℕ) (row : Open) (place : Place) → cache.party ≡ Party.Open number → open_of number l ≡ Some row → row.holder ≡ Holder.Tree place → told_of s (Effect.Begun cache to call) l ≡ (sent_to place.connection (notice_of (id_of s number) to), l) }
    ensures leased { (s : CoreState) (l : Lists) (cache : Claim) (to : Option CacheKind) (call : Option ℕ) (number lowest : ℕ) (client key : List ℕ) (row : Open) (place : Place) → cache.party ≡ Party.Name Smb number → slice_get s.names number ≡ Some (SmbLease client key) → lowest_open (record { client = client; key = key }) l ≡ Some lowest → open_of lowest l ≡ Some row → row.holder ≡ Holder.Tree place → told_of s (Effect.Begun cache to call) l ≡ (sent_to place.connection (lease_notice_of key cache.what to), l) }
    ensures nobody { (s : CoreState) (l : Lists) (cache : Claim) (to : Option CacheKind) (call : Option ℕ) (number : ℕ) → cache.party ≡ Party.Open number → open_of number l ≡ None → told_of s (Effect.Begun cache to call) l ≡ ([], l) }
{}

/// The opens under a lease have one cache on its file, the lease's: each is sent what that holds, whichever is asked
/// (MS-SMB2 3.3.1.12, 3.3.5.9.8). So a break of it is one of all of them. An open under no lease has a cache of its
/// own.
pub fn opens_of_a_lease_share_its_cache()
    ensures party { (names : List Name) (number : ℕ) (row : Open) (key : LeaseKey) → key_of (Some row) ≡ Some key → party_of names number row ≡ lease_party names key.client key.key }
    ensures told { (s : CoreState) (number other : ℕ) (row more : Open) (key : LeaseKey) → key_of (Some row) ≡ Some key → key_of (Some more) ≡ Some key → row.file ≡ more.file → caching s number row ≡ caching s other more }
    ensures alone { (names : List Name) (number : ℕ) (row : Open) → row.lease ≡ None → party_of names number row ≡ Party.Open number }
{}

/// A request that waited and was served has one final reply, to the connection that it came by, and waits no more
/// (MS-SMB2 3.3.4.2, 3.3.4.4): STATUS_SUCCESS for a LOCK that is granted, and for a CREATE that is and whose open may
/// stand, with its id and what it has of caches; LOCK_NOT_GRANTED or SHARING_VIOLATION if something is against it for good,
/// and else INSUFFICIENT_RESOURCES. One that a message cancels has CANCELLED with that message, and nothing for the
/// effect that tells of it.
pub fn requests_have_one_final_reply()
    ensures served { (s : CoreState) (l : Lists) (party : Party) (id : ℕ) (answer : Answer) (row : Waiting) → waiting_of id l ≡ Some row → IsFinal id row (final_reply id row (concluded s row (refusal_of answer row.request) l).0) l (told_of s (Effect.Served party id answer) l) }
    ensures cancelled { (told : List Effect) (l : Lists) (id : ℕ) (row : Waiting) → waiting_of id l ≡ Some row → is_cancelled id told ≡ true → IsFinal id row (final_reply id row (FinalReply.Failed SmbStatus.Cancelled)) l (dismissed told (id ∷ []) l) }
    ensures once { (s : CoreState) (l : Lists) (party : Party) (id : ℕ) → told_of s (Effect.Cancelled party id) l ≡ ([], l) }
{}

/// A CREATE that waited and is granted has its open, if that may stand: the open is under its number, and its final
/// reply is STATUS_SUCCESS, with what the open has of caches then (MS-SMB2 3.3.4.4, 2.2.14).
pub fn granted_opens_stand()
    ensures told { (s : CoreState) (l : Lists) (party : Party) (id : ℕ) (claim : Claim) (row : Waiting) (made : Open) → waiting_of id l ≡ Some row → row.request ≡ Request.Create made → may_stand row.opened made l ≡ true → told_of s (Effect.Served party id (Answer.Granted claim)) l ≡ (final_outs id row (FinalReply.Opened (id_of s row.opened) (caching s row.opened made)), with_open row.opened made (waiting_dropped id l)) }
    ensures stands { (s : CoreState) (l : Lists) (party : Party) (id : ℕ) (claim : Claim) (row : Waiting) (made : Open) → waiting_of id l ≡ Some row → row.request ≡ Request.Create made → may_stand row.opened made l ≡ true → open_of row.opened (told_of s (Effect.Served party id (Answer.Granted claim)) l).1 ≡ Some made }
{}
