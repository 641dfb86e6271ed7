//! What holds of owners and stateids at all times, and which requests change owners. The functions do nothing: each has laws
//! as its clauses.
ghost use Rattle.std.specs.Prelude.{◌≡◌, ◌<◌, ℕ, true, false, List, ◌∷◌, Option, Some};
ghost use Rattle.xl_base.specs.Lists.{IsIn};
ghost use Rattle.xl_base.specs.declared.event.Moment.{Moment};
ghost use Rattle.xl_base.specs.declared.journal.Exports.{Exports};
ghost use Rattle.xl_nfs.specs.Ops.{OpItem};
ghost use Rattle.xl_nfs_state.specs.State.{NfsLists};
ghost use Rattle.xl_nfs_state.specs.declared.owner.OwnerRow.{OwnerRow};
ghost use Rattle.xl_programs.specs.Programs.{RequestItem};
ghost use Rattle.xl_base.specs.Stable.{Stable as StableRecord};
ghost use Rattle.xl_matrix.specs.Blocks.{is_cache};
ghost use Rattle.xl_matrix.specs.declared.claim.CacheKind.{CacheKind};
ghost use Rattle.xl_matrix.specs.declared.claim.Claim.{Claim};
ghost use Rattle.xl_core.specs.BreakAnswers.{client_of, due};
ghost use Rattle.xl_core.specs.Deeds.{Deed, Expires, Lapses, done, IsFitDeed};
ghost use Rattle.xl_core.specs.Good.{IsGood};
ghost use Rattle.xl_core.specs.Leases.{ended};
ghost use Rattle.xl_core.specs.State.{CoreState, started};
ghost use Rattle.xl_core.specs.declared.ask.Effect.TheVariants.{Expired};
ghost use Rattle.xl_core.specs.declared.lease.Times.{Times as CoreTimes};
ghost use Rattle.xl_core.specs.declared.ask.Effect.{Effect as CoreEffect};
ghost use Rattle.xl_nfs_laws.specs.Delegated.{AreDelegated, AreTied, AreTiedBut};
ghost use Rattle.xl_nfs_laws.specs.Orderly.{IsOrderly};
ghost use Rattle.xl_nfs_laws.specs.OtherDeeds.{SparesNfs};
ghost use Rattle.xl_nfs_opens.specs.Plans.{carried};
ghost use Rattle.xl_front_nfs.specs.FrontNfs.{nfs_step};
ghost use Rattle.xl_front_nfs.specs.Recalls.{IsRecalledOnce};
ghost use Rattle.xl_nfs_laws.specs.OwnerRequests.{has_seqid};
ghost use Rattle.xl_front_nfs.specs.State.{empty_nfs_front, FrontNfs, nfs_shown, nfs_tick};
ghost use Rattle.xl_front_nfs.specs.Steps.{planned};

/// Each stateid has a number and a place of its own, and an owner of its client; and an open is closed exactly if its
/// owner's last request closed it (RFC 7530 9.1.4, 9.1.8). So it is at a start, and stays by each operation, by a whole
/// request, as time passes and as clients expire; so it is at all times.
pub fn stateids_are_orderly()
    ensures start { IsOrderly empty_nfs_front.state }
    ensures operations { (n : ℕ) (files : List (List ℕ)) (others : ℕ) (s : CoreState) (l : NfsLists) (current : Option ℕ) (item : OpItem) → IsOrderly l → IsOrderly (carried n s l (planned files others s l current item)).3 }
    ensures requests { (n : ℕ) (exports : Exports) (others : ℕ) (f : FrontNfs) (s : CoreState) (conn : ℕ) (r : RequestItem) → IsOrderly f.state → IsOrderly (nfs_step n exports others f s conn r).2.state }
    ensures ticks { (f : FrontNfs) (now : Moment) → IsOrderly f.state → IsOrderly (nfs_tick f now).state }
    ensures shown { (f : FrontNfs) (effect : CoreEffect) → IsOrderly f.state → IsOrderly (nfs_shown f effect).state }
{}

/// An operation that is no owner's request changes no owner: each that is there afterwards stood so before, with the seqid of
/// its last request (RFC 7530 9.1.7). An owner goes with its client, by a RELEASE_LOCKOWNER, or, if it was never confirmed, by
/// its next OPEN.
pub fn only_owners_requests_count()
    ensures { (n : ℕ) (files : List (List ℕ)) (others : ℕ) (s : CoreState) (l : NfsLists) (current : Option ℕ) (item : OpItem) (o : OwnerRow) → has_seqid item ≡ false → IsIn o (carried n s l (planned files others s l current item)).3.owners → IsIn o l.owners }
{}

/// Each client has a delegation on a file exactly if it has a cache there, both of one kind (RFC 7530 10.4). So it is
/// at a start, and stays by each operation, by a whole request, and as unconfirmed records go. If a client expires,
/// whose lease has ended or who didn't return a delegation in time, all its caches go, and once the front is told all
/// its delegations. It stays so too by each deed of others: an ask, an answer or an end of no client of NFSv4, or a turn.
pub fn delegations_are_caches()
    ensures start { (stable : StableRecord) (clock : Moment) (times : CoreTimes) → AreTied (started stable clock times) empty_nfs_front.state }
    ensures operations { (n : ℕ) (files : List (List ℕ)) (others : ℕ) (s : CoreState) (l : NfsLists) (current : Option ℕ) (item : OpItem) → IsGood s → IsOrderly l → AreTied s l → AreTied (carried n s l (planned files others s l current item)).4 (carried n s l (planned files others s l current item)).3 }
    ensures requests { (n : ℕ) (exports : Exports) (others : ℕ) (f : FrontNfs) (s : CoreState) (conn : ℕ) (r : RequestItem) → IsGood s → IsOrderly f.state → AreTied s f.state → AreTied (nfs_step n exports others f s conn r).3 (nfs_step n exports others f s conn r).2.state }
    ensures ticks { (s : CoreState) (f : FrontNfs) (now : Moment) → IsGood s → AreTied s f.state → AreTied s (nfs_tick f now).state }
    ensures expires { (n : ℕ) (s : CoreState) (gone : List (List ℕ)) (l : NfsLists) (id : List ℕ) → IsGood s → IsIn id (ended s.clock s.leases) → AreTiedBut gone s l → AreTiedBut (id ∷ gone) (done n s (Expires id)) l }
    ensures lapses { (n : ℕ) (s : CoreState) (gone : List (List ℕ)) (l : NfsLists) (cache : Claim) (id : List ℕ) → IsGood s → IsIn cache (due s) → client_of s.names cache.party ≡ Some id → AreTiedBut gone s l → AreTiedBut (id ∷ gone) (done n s (Lapses cache)) l }
    ensures shown { (s : CoreState) (gone : List (List ℕ)) (f : FrontNfs) (id : List ℕ) → AreTiedBut (id ∷ gone) s f.state → AreTiedBut gone s (nfs_shown f (Expired id)).state }
    ensures others { (n : ℕ) (s : CoreState) (l : NfsLists) (d : Deed) → IsGood s → IsFitDeed s d → SparesNfs d → AreDelegated s l → AreDelegated (done n s d) l }
{}

/// So each break of a client's delegation, whose call has a later number than were given out before, is sent by one
/// call: to the callback of the client, which is confirmed, for the delegation that it has on the file (RFC 7530
/// 10.4.4, 18.2).
pub fn each_break_is_recalled()
    ensures { (f : FrontNfs) (s t : CoreState) (cache : Claim) (to : Option CacheKind) (number : ℕ) (id : List ℕ) → IsGood s → AreTied s f.state → IsIn cache s.claims → is_cache cache.what ≡ true → client_of s.names cache.party ≡ Some id → client_of t.names cache.party ≡ Some id → s.counter < number → IsRecalledOnce f t cache to number id }
{}
