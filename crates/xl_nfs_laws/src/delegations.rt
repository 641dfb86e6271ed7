//! Laws of delegations (RFC 7530 10.4, 16.6). The functions do nothing: each has laws as its clauses.
ghost use Rattle.std.specs.Prelude.{◌≡◌, ◌↔◌, ◌&&◌, ℕ, Bool, true, if◌then◌else◌, List, Option, Some, None, Ok, Err, is_some, option_map};
ghost use Rattle.std.specs.List.{find};
ghost use Rattle.xl_nfs.specs.Opens.{OpenArgsItem, Null, Previous, DelegateCurrent, NamedDelegationItem};
ghost use Rattle.xl_nfs.specs.declared.opens.CloseArgs.{CloseArgs};
ghost use Rattle.xl_nfs.specs.declared.opens.DelegationType.{DelegationType as ClaimedType};
ghost use Rattle.xl_nfs.specs.declared.opens.OpenConfirmArgs.{OpenConfirmArgs};
ghost use Rattle.xl_nfs.specs.declared.opens.OpenDowngradeArgs.{OpenDowngradeArgs};
ghost use Rattle.xl_nfs.specs.declared.basics.Stateid.{Stateid};
ghost use Rattle.xl_nfs.specs.declared.status.NfsStatus.TheVariants.{BadStateid};
ghost use Rattle.xl_nfs_state.specs.State.{NfsLists, delegated_on, is_client, is_stateid};
ghost use Rattle.xl_nfs_state.specs.declared.client.ClientRow.{ClientRow};
ghost use Rattle.xl_nfs_state.specs.declared.stateid.StateidRow.{StateidRow};
ghost use Rattle.xl_core.specs.Good.{IsGood};
ghost use Rattle.xl_core.specs.State.{CoreState};
ghost use Rattle.xl_nfs_opens.specs.Closing.{close, deleg_return, open_confirm, return_done, returned, returned_status};
ghost use Rattle.xl_nfs_laws.specs.Delegated.{AreTied, delegation_held};
ghost use Rattle.xl_nfs_opens.specs.Downgrades.{open_downgrade};
ghost use Rattle.xl_nfs_laws.specs.StateidNumbers.{AreGivenOut};
ghost use Rattle.xl_nfs_opens.specs.Opens.{asked_fault, cache_held, client_in, has_none, has_program, is_delegation, judged, named_file, open_file, open_judged, opened_file, opener_of, rights_of, share_ask, type_claimed, wish_of, wished_kinds};
ghost use Rattle.xl_nfs_laws.specs.Orderly.{IsDelegated, IsOrderly, IsReturned};
ghost use Rattle.xl_nfs_opens.specs.Plans.{carried, status_of};
ghost use Rattle.xl_nfs_opens.specs.Renewing.{stateid_of};
ghost use Rattle.xl_nfs_opens.specs.declared.opener.Opener.{Opener as OpenOwner};
ghost use Rattle.xl_nfs_opens.specs.declared.told.Told.TheVariants.{Opened};

/// The delegation that an OPEN is given is there from then on: its stateid names the client's delegation on the file
/// that is the current one then, for writing or else for reading as it is given, and the client's cache on the file is
/// such a delegation (RFC 7530 10.4).
pub fn told_delegations_are_held()
    ensures { (n : ℕ) (files : List (List ℕ)) (others : ℕ) (s : CoreState) (l : NfsLists) (current : Option ℕ) (at : ℕ) (c : ClientRow) (a : OpenArgsItem) (stateid given : Stateid) (flags : ℕ) (write : Bool) → IsGood s → AreGivenOut s.counter l → client_in s l a.owner.clientid ≡ Some c → (carried n s l (open_judged files others s l current at (opener_of c a) a (judged l (opener_of c a) a.seqid))).0 ≡ Opened stateid flags (Some (given, write)) → IsDelegated (opener_of c a) given write (carried n s l (open_judged files others s l current at (opener_of c a) a (judged l (opener_of c a) a.seqid))) }
{}

/// A DELEGRETURN is OK exactly if its stateid is of this start and names a delegation of the current file, with its own
/// seqid; else it is answered with the first check that fails. One that is OK leaves no stateid of its number, and its
/// client no cache on the file (RFC 7530 9.1.4, 16.6).
pub fn returned_delegations_are_gone()
    ensures told { (n : ℕ) (s : CoreState) (l : NfsLists) (current : Option ℕ) (stateid : Stateid) → status_of (carried n s l (return_done s l current (returned s l current stateid))).0 ≡ returned_status (returned s l current stateid) }
    ensures exactly { (s : CoreState) (l : NfsLists) (at : ℕ) (stateid : Stateid) (r : StateidRow) → (returned s l (Some at) stateid ≡ Ok r) ↔ IsReturned s l at stateid r }
    ensures stateid { (n : ℕ) (s : CoreState) (l : NfsLists) (current : Option ℕ) (r : StateidRow) → find (is_stateid r.number) (carried n s l (return_done s l current (Ok r))).3.stateids ≡ None }
    ensures cache { (n : ℕ) (s : CoreState) (l : NfsLists) (current : Option ℕ) (r : StateidRow) (c : ClientRow) → IsGood s → find (is_client r.client true) l.clients ≡ Some c → cache_held (carried n s l (return_done s l current (Ok r))).4 c.id r.file ≡ None }
{}

/// An OPEN that claims its file by a delegation, once the checks before passed and the file is found, goes on exactly
/// if its stateid is whole that of the client's delegation on the file; else it is answered with BAD_STATEID, also if
/// the stateid is of another start (RFC 7530 10.4.5, 16.16).
pub fn claims_name_their_delegation()
    ensures exactly { (s : CoreState) (l : NfsLists) (client file : ℕ) (stateid : Stateid) → (is_delegation s l client file stateid ≡ true) ↔ ((r : StateidRow) × (find (delegated_on client file) l.stateids ≡ Some r) × (stateid ≡ stateid_of s r.number r.standing.seqid)) }
    ensures opens { (files : List (List ℕ)) (s : CoreState) (l : NfsLists) (client at file : ℕ) (a : OpenArgsItem) (d : NamedDelegationItem) → asked_fault at a ≡ None → a.claim ≡ DelegateCurrent d → named_file files d.name ≡ Some file → opened_file files s l client at a ≡ (if is_delegation s l client file d.stateid then Ok file else Err BadStateid) }
{}

/// Of which delegation an OPEN's claim is, and none if the client has a cache or a delegation on the file. A claim of a
/// file that was open before a restart is of the delegation that is claimed with it, whether its owner is confirmed or
/// not and its client can be called back or not; that is asked for with the share, in one ask, which is a reclaim. A
/// claim of a file by its name is of one if its owner is confirmed and its client can be called back: for writing if
/// the access has that, else for reading (RFC 7530 9.6.2, 10.2.1, 10.4).
pub fn wishes_are_by_the_claim()
    ensures reclaims { (s : CoreState) (l : NfsLists) (o : OpenOwner) (a : OpenArgsItem) (confirmed : Bool) (file : ℕ) (type : ClaimedType) → a.claim ≡ Previous type → wish_of s l o a confirmed file ≡ (if has_none s l o file then type_claimed type else None) }
    ensures asks { (s : CoreState) (l : NfsLists) (o : OpenOwner) (a : OpenArgsItem) (confirmed : Bool) (file : ℕ) (type : ClaimedType) → a.claim ≡ Previous type → has_none s l o file ≡ true → ((share_ask (wish_of s l o a confirmed file) o a file).wish ≡ wished_kinds (type_claimed type)) × ((share_ask (wish_of s l o a confirmed file) o a file).reclaim ≡ true) }
    ensures names { (s : CoreState) (l : NfsLists) (o : OpenOwner) (a : OpenArgsItem) (confirmed : Bool) (file : ℕ) (name : List ℕ) → a.claim ≡ Null name → wish_of s l o a confirmed file ≡ (if has_none s l o file then (if confirmed && has_program (find (is_client o.client true) l.clients) then Some (rights_of a.access).w else None) else None) }
{}

/// A delegation that is claimed from before a restart comes with its open, or neither does: an OPEN by such a claim that is OK is
/// given just the delegation that it claims if its client has none on the file, and else none (what it has then, say
/// `told_delegations_are_held` and `delegations_that_come_are_told`; RFC 7530 9.6.2, 10.2.1).
pub fn reclaimed_delegations_come_with_their_open()
    ensures { (n : ℕ) (files : List (List ℕ)) (others : ℕ) (s : CoreState) (l : NfsLists) (current : Option ℕ) (at : ℕ) (c : ClientRow) (a : OpenArgsItem) (type : ClaimedType) (stateid : Stateid) (flags : ℕ) (delegation : Option (Stateid × Bool)) → IsGood s → AreTied s l → client_in s l a.owner.clientid ≡ Some c → a.claim ≡ Previous type → (carried n s l (open_judged files others s l current at (opener_of c a) a (judged l (opener_of c a) a.seqid))).0 ≡ Opened stateid flags delegation → option_map (λ given. given.1) delegation ≡ (if is_some (delegation_held s c.id at) then None else type_claimed type) }
{}

/// Each client has a delegation on a file exactly if it has a cache there, both of one kind; so it stays whatever an
/// operation on opens comes to. So none forgets the stateid of a cache, keeps one whose cache went, or gives one
/// without (RFC 7530 10.4).
pub fn delegations_are_caches()
    ensures opens { (n : ℕ) (files : List (List ℕ)) (others : ℕ) (s : CoreState) (l : NfsLists) (current : Option ℕ) (a : OpenArgsItem) → IsGood s → AreTied s l → AreTied (carried n s l (open_file files others s l current a)).4 (carried n s l (open_file files others s l current a)).3 }
    ensures confirms { (n : ℕ) (s : CoreState) (l : NfsLists) (current : Option ℕ) (a : OpenConfirmArgs) → IsGood s → AreTied s l → AreTied (carried n s l (open_confirm s l current a)).4 (carried n s l (open_confirm s l current a)).3 }
    ensures downgrades { (n : ℕ) (s : CoreState) (l : NfsLists) (current : Option ℕ) (a : OpenDowngradeArgs) → IsGood s → AreTied s l → AreTied (carried n s l (open_downgrade s l current a)).4 (carried n s l (open_downgrade s l current a)).3 }
    ensures closes { (n : ℕ) (s : CoreState) (l : NfsLists) (current : Option ℕ) (a : CloseArgs) → IsGood s → IsOrderly l → AreTied s l → AreTied (carried n s l (close s l current a)).4 (carried n s l (close s l current a)).3 }
    ensures returns { (n : ℕ) (s : CoreState) (l : NfsLists) (current : Option ℕ) (stateid : Stateid) → IsGood s → IsOrderly l → AreTied s l → AreTied (carried n s l (deleg_return s l current stateid)).4 (carried n s l (deleg_return s l current stateid)).3 }
{}
