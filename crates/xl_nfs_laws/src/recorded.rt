//! Laws of the record: whom an OPEN and a LOCK leave in it, and whom grace lets in. The functions do nothing: each has laws as its
//! clauses.
ghost use Rattle.std.specs.Prelude.{◌≡◌, ◌↔◌, ℕ, Bool, true, false, List, Option, Some, Ok, is_some};
ghost use Rattle.xl_grace.specs.Grace.{is_known};
ghost use Rattle.xl_core.specs.Good.{IsGood};
ghost use Rattle.xl_core.specs.Knowing.{KnowsRecord};
ghost use Rattle.xl_core.specs.State.{CoreState};
ghost use Rattle.xl_nfs.specs.Locks.{LockArgsItem};
ghost use Rattle.xl_nfs.specs.Opens.{OpenArgsItem};
ghost use Rattle.xl_nfs.specs.Outcomes.{is_ok};
ghost use Rattle.xl_nfs.specs.declared.status.NfsStatus.TheVariants.{Ok as Fine, ServerFault};
ghost use Rattle.xl_nfs_state.specs.State.{NfsLists};
ghost use Rattle.xl_nfs_state.specs.declared.owner.SeqidState.{SeqidState as OwnerSeqids};
ghost use Rattle.xl_nfs_state.specs.declared.stateid.StateidRow.{StateidRow};
ghost use Rattle.xl_nfs_opens.specs.Opens.{has_room, judged, open_judged, opened_file, reclaims};
ghost use Rattle.xl_nfs_opens.specs.Plans.{carried, status_of};
ghost use Rattle.xl_nfs_opens.specs.Seqids.{is_room_for};
ghost use Rattle.xl_nfs_opens.specs.declared.opener.Opener.{Opener as Owner};
ghost use Rattle.xl_nfs_locks.specs.FirstLocks.{join_to};
ghost use Rattle.xl_nfs_locks.specs.Locks.{lock_by_owner};
ghost use Rattle.xl_nfs_locks.specs.declared.joining.BothOwners.{BothOwners as Owners};
ghost use Rattle.xl_nfs_laws.specs.OpenLaws.{goes_on};
ghost use Rattle.xl_nfs_laws.specs.OwnersRecorded.{recorded_for, IsRecordedFor};

/// An OPEN that is judged further and is OK has its client in the record then, with its verifier if it reclaims nothing, else with
/// one that agrees; and so has a LOCK whose checks passed and that is OK: by an owner with a stateid, and under an open (RFC 7530
/// 9.1.1, 9.6.3). Such an OPEN is SERVERFAULT exactly if a store failed by it, in a step in which none had.
pub fn clients_are_recorded()
    ensures opens { (n : ℕ) (files : List (List ℕ)) (others : ℕ) (s : CoreState) (l : NfsLists) (current : Option ℕ) (at : ℕ) (o : Owner) (a : OpenArgsItem) (confirmed : Bool) (file : ℕ) → IsGood s → goes_on (judged l o a.seqid) ≡ Some confirmed → opened_file files s l o.client at a ≡ Ok file → has_room others l o file ≡ true → let r = carried n s l (open_judged files others s l current at o a (judged l o a.seqid)) in status_of r.0 ≡ Fine → IsRecordedFor o (reclaims a.claim) s r.4.stable }
    ensures failed { (n : ℕ) (files : List (List ℕ)) (others : ℕ) (s : CoreState) (l : NfsLists) (current : Option ℕ) (at : ℕ) (o : Owner) (a : OpenArgsItem) (confirmed : Bool) (file : ℕ) → IsGood s → s.failed ≡ false → goes_on (judged l o a.seqid) ≡ Some confirmed → opened_file files s l o.client at a ≡ Ok file → has_room others l o file ≡ true → let r = carried n s l (open_judged files others s l current at o a (judged l o a.seqid)) in (status_of r.0 ≡ ServerFault) ↔ (r.4.failed ≡ true) }
    ensures known { (n : ℕ) (s : CoreState) (l : NfsLists) (current : Option ℕ) (a : LockArgsItem) (r : StateidRow) (owner : ℕ) (seqids : OwnerSeqids) (seqid last : ℕ) (o : Owner) → IsGood s → let done = carried n s l (lock_by_owner l current a r owner seqids seqid last (Some o)) in is_ok (status_of done.0) ≡ true → IsRecordedFor o a.reclaim s done.4.stable }
    ensures first { (n : ℕ) (s : CoreState) (l : NfsLists) (current : Option ℕ) (a : LockArgsItem) (b : Owners) (o : Owner) (r : StateidRow) (q : Option StateidRow) (last : ℕ) → IsGood s → is_room_for o l ≡ true → let done = carried n s l (join_to l current a b o r q (Ok last)) in is_ok (status_of done.0) ≡ true → IsRecordedFor o a.reclaim s done.4.stable }
{}

/// Such an OPEN and such a LOCK that are OK reclaim exactly if grace runs, and then the record has their client, with a verifier that
/// agrees with theirs (RFC 7530 9.6.2).
pub fn grace_lets_recorded_clients_in()
    ensures opens { (n : ℕ) (files : List (List ℕ)) (others : ℕ) (s : CoreState) (l : NfsLists) (current : Option ℕ) (at : ℕ) (o : Owner) (a : OpenArgsItem) (confirmed : Bool) (file : ℕ) → KnowsRecord s → goes_on (judged l o a.seqid) ≡ Some confirmed → opened_file files s l o.client at a ≡ Ok file → has_room others l o file ≡ true → status_of (carried n s l (open_judged files others s l current at o a (judged l o a.seqid))).0 ≡ Fine → (reclaims a.claim ≡ is_some s.grace) × (reclaims a.claim ≡ true → is_known (recorded_for o) s.stable.names ≡ true) }
    ensures known { (n : ℕ) (s : CoreState) (l : NfsLists) (current : Option ℕ) (a : LockArgsItem) (r : StateidRow) (owner : ℕ) (seqids : OwnerSeqids) (seqid last : ℕ) (o : Owner) → KnowsRecord s → is_ok (status_of (carried n s l (lock_by_owner l current a r owner seqids seqid last (Some o))).0) ≡ true → (a.reclaim ≡ is_some s.grace) × (a.reclaim ≡ true → is_known (recorded_for o) s.stable.names ≡ true) }
    ensures first { (n : ℕ) (s : CoreState) (l : NfsLists) (current : Option ℕ) (a : LockArgsItem) (b : Owners) (o : Owner) (r : StateidRow) (q : Option StateidRow) (last : ℕ) → KnowsRecord s → is_room_for o l ≡ true → is_ok (status_of (carried n s l (join_to l current a b o r q (Ok last))).0) ≡ true → (a.reclaim ≡ is_some s.grace) × (a.reclaim ≡ true → is_known (recorded_for o) s.stable.names ≡ true) }
{}
