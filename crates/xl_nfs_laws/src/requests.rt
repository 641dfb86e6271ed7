//! Laws of the front. The functions do nothing: each has laws as its clauses.
ghost use Rattle.std.specs.Prelude.{◌≡◌, ℕ, false, List, [], ◌∷◌, Option, Some, None, ◌↔◌};
ghost use Rattle.xl_base.specs.Lists.{IsIn};
ghost use Rattle.xl_base.specs.declared.event.Moment.{Moment};
ghost use Rattle.xl_base.specs.declared.event.Out.{Out};
ghost use Rattle.xl_base.specs.declared.journal.Exports.{Exports};
ghost use Rattle.xl_matrix.specs.declared.claim.CacheKind.{CacheKind};
ghost use Rattle.xl_matrix.specs.declared.claim.Claim.{Claim};
ghost use Rattle.xl_nfs.specs.Ops.{OpItem};
ghost use Rattle.xl_nfs.specs.Outcomes.{is_ok};
ghost use Rattle.xl_nfs_state.specs.State.{NfsLists, is_due};
ghost use Rattle.xl_nfs_state.specs.declared.client.ClientRow.{ClientRow};
ghost use Rattle.xl_programs.specs.Programs.{RequestItem};
ghost use Rattle.xl_programs.specs.Sent.{sent_to};
ghost use Rattle.xl_core.specs.Deeds.{Renews, all_done, all_told_of, AreFit};
ghost use Rattle.xl_core.specs.Good.{IsGood};
ghost use Rattle.xl_core.specs.State.{CoreState};
ghost use Rattle.xl_front_nfs.specs.FrontNfs.{nfs_deeds, nfs_reply, nfs_step};
ghost use Rattle.xl_nfs_opens.specs.Owners.{Names, AreBy};
ghost use Rattle.xl_plan.specs.Plans.{deeds_of, carried as plan_carried};
ghost use Rattle.xl_nfs_opens.specs.Plans.{carried, status_of};
ghost use Rattle.xl_core.specs.declared.ask.Effect.TheVariants.{Begun};
ghost use Rattle.xl_front_nfs.specs.Recalls.{recalls, IsRecall};
ghost use Rattle.xl_front_nfs.specs.State.{FrontNfs, nfs_tick};
ghost use Rattle.xl_front_nfs.specs.Steps.{planned, Step, Course, step_plan, goes_on, compound};
ghost use Rattle.xl_nfs_laws.specs.AskedRequests.{AreRequestAsks};
ghost use Rattle.xl_nfs_laws.specs.RequestOwners.{IsToRenew, AreTheirs};

/// A request leaves the core as its deeds do, and tells of what they tell of.
#[tactic(auto, using(crate::proofs::RequestDeedLaws::request_does, crate::proofs::RequestDeedLaws::request_tells))]
pub fn steps_are_their_deeds()
    ensures requests { (n : ℕ) (exports : Exports) (others : ℕ) (f : FrontNfs) (s : CoreState) (conn : ℕ) (r : RequestItem) → (nfs_step n exports others f s conn r).3 ≡ all_done n s (nfs_deeds n exports others f s r) }
    ensures told { (n : ℕ) (exports : Exports) (others : ℕ) (f : FrontNfs) (s : CoreState) (conn : ℕ) (r : RequestItem) → (nfs_step n exports others f s conn r).1 ≡ all_told_of n s (nfs_deeds n exports others f s r) }
{}

/// The core takes these deeds.
#[tactic(auto, using(crate::proofs::RequestOwn::request_takes))]
pub fn deeds_are_taken()
    ensures { (n : ℕ) (exports : Exports) (others : ℕ) (f : FrontNfs) (s : CoreState) (r : RequestItem) → IsGood s → AreFit n s (nfs_deeds n exports others f s r) }
{}

/// Each deed of an operation draws a number, or it is of a client that the operation names by the clientid of its record or by
/// a live stateid: it asks as that client, gives back or makes weaker what that holds, ends it or renews its lease. So no other
/// lease is renewed, and no other client's claims go. Each confirmed client that is named so is renewed, however the operation
/// ends; by SETCLIENTID_CONFIRM the one whose record it confirms, else the confirmed one that it names (RFC 7530 9.5). Those of
/// a request are of its operations, each in the state that those before it left; each is of one of these kinds.
#[tactic(auto, using(crate::proofs::RequestOwn::request_by))]
pub fn deeds_are_the_clients()
    ensures operations { (n : ℕ) (files : List (List ℕ)) (others : ℕ) (s : CoreState) (l : NfsLists) (current : Option ℕ) (item : OpItem) → IsGood s → AreBy n s (Names s l item) (deeds_of n s (planned files others s l current item)) }
    ensures renewed { (n : ℕ) (files : List (List ℕ)) (others : ℕ) (s : CoreState) (l : NfsLists) (current : Option ℕ) (item : OpItem) (id : List ℕ) → IsToRenew s l item id → IsIn (Renews id) (deeds_of n s (planned files others s l current item)) }
    ensures requests { (n : ℕ) (exports : Exports) (others : ℕ) (f : FrontNfs) (s : CoreState) (r : RequestItem) → IsGood s → AreTheirs n exports others f s r }
    ensures kinds { (n : ℕ) (exports : Exports) (others : ℕ) (f : FrontNfs) (s : CoreState) (r : RequestItem) → IsGood s → AreBy n s (λ _. Unit {0}) (nfs_deeds n exports others f s r) }
{}

/// What a request asks for is its own: its deeds are those of its operations in order, up to the first that fails, and each
/// operation asks for what it says, on the file of its current handle or that an OPEN claims there, and reclaims exactly if it says
/// so: OPEN by CLAIM_PREVIOUS, LOCK by its argument (RFC 7530 9.6.2, 16.10, 16.16). CLOSE asks that the locks under its open go. No
/// other operation asks. None waits, and none is judged by the room in the fronts' tables. Each is in the name of a confirmed client,
/// with its verifier, which is recorded with it (RFC 7530 9.1.1, 9.6.3).
#[tactic(auto, using(crate::proofs::AskedRequestLaws::request_asks))]
pub fn asks_are_the_operations()
    ensures { (n : ℕ) (exports : Exports) (others : ℕ) (f : FrontNfs) (s : CoreState) (r : RequestItem) → AreRequestAsks n exports others f s r (nfs_deeds n exports others f s r) }
{}

/// A request is answered by one message, which goes back to the connection that it came from: a function of the request
/// and of the state that it meets.
#[tactic(auto, using(crate::proofs::RequestDeedLaws::request_replies))]
pub fn replies_go_back()
    ensures { (n : ℕ) (exports : Exports) (others : ℕ) (f : FrontNfs) (s : CoreState) (conn : ℕ) (r : RequestItem) → (nfs_step n exports others f s conn r).0 ≡ sent_to conn (nfs_reply n exports others f s r) }
{}

/// An operation that isn't OK leaves the current handle, as a LOOKUP of a name that is none; and nothing behind it is
/// done: it is the last that is answered, and there are no deeds except those before it and its own.
#[tactic(auto, using(crate::proofs::HandleLaws::handle_stays, crate::proofs::HandleLaws::nothing_behind, crate::proofs::HandleLaws::no_deeds_behind))]
pub fn a_failure_ends_it()
    ensures handle { (n : ℕ) (files : List (List ℕ)) (others : ℕ) (s : CoreState) (l : NfsLists) (current : Option ℕ) (item : OpItem) → is_ok (status_of (carried n s l (planned files others s l current item)).0) ≡ false → (carried n s l (planned files others s l current item)).1 ≡ current }
    ensures last { (n : ℕ) (files : List (List ℕ)) (others : ℕ) (c : Course) (s : CoreState) (l : NfsLists) (step : Step) (steps : List Step) → goes_on (plan_carried n s l (step_plan files others c s l step)).0 ≡ false → plan_carried n s l (compound files others c s l (step ∷ steps)) ≡ plan_carried n s l (step_plan files others c s l step) }
    ensures deeds { (n : ℕ) (files : List (List ℕ)) (others : ℕ) (c : Course) (s : CoreState) (l : NfsLists) (step : Step) (steps : List Step) → goes_on (plan_carried n s l (step_plan files others c s l step)).0 ≡ false → deeds_of n s (compound files others c s l (step ∷ steps)) ≡ deeds_of n s (step_plan files others c s l step) }
{}

/// At a moment exactly the unconfirmed records go whose time has come.
#[tactic(auto, using(crate::proofs::HandleLaws::due_go))]
pub fn records_go_in_time()
    ensures { (f : FrontNfs) (now : Moment) (r : ClientRow) → IsIn r (nfs_tick f now).state.clients ↔ (IsIn r f.state.clients × (is_due now r ≡ false)) }
{}

/// The break of a delegation, which has a call's number, is sent as one call of this number at most: to the callback of
/// the client that the cache is of, as it is confirmed now, for the delegation that this client has on the file, by the
/// delegation's own stateid (RFC 7530 10.4.4, 18.2). There is no call if the client isn't confirmed, or has no
/// delegation there, or has one that came after the break; nor for a break without a call's number.
pub fn recalls_name_the_delegation()
    ensures exactly { (f : FrontNfs) (s : CoreState) (cache : Claim) (to : Option CacheKind) (number : ℕ) (out : Out) → IsIn out (recalls f s (Begun cache to (Some number))) ↔ IsRecall f s cache number out }
    ensures alone { (f : FrontNfs) (s : CoreState) (cache : Claim) (to : Option CacheKind) (number : ℕ) (out : Out) → IsIn out (recalls f s (Begun cache to (Some number))) → recalls f s (Begun cache to (Some number)) ≡ out ∷ [] }
    ensures silent { (f : FrontNfs) (s : CoreState) (cache : Claim) (to : Option CacheKind) → recalls f s (Begun cache to None) ≡ [] }
{}
