//! Laws of the front. The functions do nothing: each has laws as its clauses.
ghost use Rattle.std.specs.Prelude.{◌≡◌, ℕ, ◌+◌, ◌≤◌, ◌==◌, true, false, not, List, [], ◌∷◌, ◌++◌, length, Option, Some, None, ◌↔◌};
ghost use Rattle.std.specs.List.{find};
ghost use Rattle.xl_base.specs.declared.journal.Exports.{Exports};
ghost use Rattle.xl_base.specs.declared.name.Party.{Party};
ghost use Rattle.xl_matrix.specs.declared.claim.Claim.{Claim};
ghost use Rattle.xl_matrix.specs.declared.claim.Extent.TheVariants.{Bytes};
ghost use Rattle.xl_matrix.specs.declared.claim.What.TheVariants.{Range};
ghost use Rattle.xl_names.specs.declared.name.Name.{Name};
ghost use Rattle.xl_nlm.specs.Items.{CallItem, ResItem, ShareArgsItem};
ghost use Rattle.xl_nlm.specs.declared.item.NlmStatus.{NlmStatus};
ghost use Rattle.xl_nlm.specs.Replies.{res, ResFits};
ghost use Rattle.xl_programs.specs.Programs.{RequestItem};
ghost use Rattle.xl_programs.specs.Sent.{sent_to};
ghost use Rattle.xl_rpc.specs.Replies.{reply};
ghost use Rattle.xl_rpc.specs.Xdr.{UnsignedFits};
ghost use Rattle.xl_rpc.specs.declared.reply.Verdict.TheVariants.{Success};
ghost use Rattle.xl_core.specs.Clients.{IsOfSome};
ghost use Rattle.xl_core.specs.Good.{IsGood};
ghost use Rattle.xl_core.specs.Deeds.{Asks, all_done, all_told_of, answers_of, AreFit};
ghost use Rattle.xl_core.specs.State.{CoreState, drawn};
ghost use Rattle.xl_core.specs.declared.ask.Answer.TheVariants.{Granted};
ghost use Rattle.xl_core.specs.declared.ask.Effect.{Effect};
ghost use Rattle.xl_core.specs.declared.ask.Effect.TheVariants.{Served};
ghost use Rattle.xl_plan.specs.Plans.{AllAt};
ghost use Rattle.xl_front_nlm.specs.Answers.{is_granted, refuses, called_deeds, nlm_called};
ghost use Rattle.xl_front_nlm.specs.Aims.{exported};
ghost use Rattle.xl_front_nlm.specs.AsTold.{AreAsTold, IsAsTold};
ghost use Rattle.xl_front_nlm.specs.Asks.{refusal_ask};
ghost use Rattle.xl_front_nlm.specs.FrontNlm.{nlm_client, nlm_deeds, nlm_reply, nlm_step};
ghost use Rattle.xl_front_nlm.specs.Grants.{grant_of, address_of, call_of, shown, shown_deeds};
ghost use Rattle.xl_front_nlm.specs.Hosts.{rooms};
ghost use Rattle.xl_front_nlm.specs.Results.{status_of};
ghost use Rattle.xl_front_nlm.specs.Serving.{served};
ghost use Rattle.xl_front_nlm.specs.State.{FrontState, awaited};
ghost use Rattle.xl_front_nlm.specs.Statuses.{status_told, IsStatusDue};
ghost use Rattle.xl_front_nlm.specs.declared.call.GrantedCall.{GrantedCall};
ghost use Rattle.xl_front_nlm.specs.declared.grant.Grant.{Grant};
ghost use Rattle.xl_front_nlm.specs.declared.outcome.Outcome.{Outcome};

/// A request leaves the core as its deeds do, and tells of what they tell of; so does the end of a call of the server's,
/// and what telling of an effect leaves is what its deeds leave.
#[tactic(auto, using(crate::proofs::DoesLaws::step_does, crate::proofs::DoesLaws::step_tells, crate::proofs::AnswerLaws::answer_does, crate::proofs::AnswerLaws::answer_tells, crate::proofs::GrantLaws::telling_does))]
pub fn steps_are_their_deeds()
    ensures requests { (n : ℕ) (exports : Exports) (f : FrontState) (s : CoreState) (conn : ℕ) (r : RequestItem) → (nlm_step n exports f s conn r).3 ≡ all_done n s (nlm_deeds n exports f s r) }
    ensures told { (n : ℕ) (exports : Exports) (f : FrontState) (s : CoreState) (conn : ℕ) (r : RequestItem) → (nlm_step n exports f s conn r).1 ≡ all_told_of n s (nlm_deeds n exports f s r) }
    ensures answers { (n : ℕ) (f : FrontState) (s : CoreState) (number : ℕ) (bytes : Option (List ℕ)) → (nlm_called n f s number bytes).2 ≡ all_done n s (called_deeds f s number bytes) }
    ensures heard { (n : ℕ) (f : FrontState) (s : CoreState) (number : ℕ) (bytes : Option (List ℕ)) → (nlm_called n f s number bytes).0 ≡ all_told_of n s (called_deeds f s number bytes) }
    ensures tellings { (n : ℕ) (exports : Exports) (f : FrontState) (s : CoreState) (effect : Effect) → (shown exports f s effect).2 ≡ all_done n s (shown_deeds exports s effect) }
{}

/// The core takes these deeds.
#[tactic(auto, using(crate::proofs::DoesLaws::step_takes, crate::proofs::AnswerLaws::answer_takes, crate::proofs::GrantLaws::telling_takes))]
pub fn deeds_are_taken()
    ensures requests { (n : ℕ) (exports : Exports) (f : FrontState) (s : CoreState) (r : RequestItem) → AreFit n s (nlm_deeds n exports f s r) }
    ensures answers { (n : ℕ) (f : FrontState) (s : CoreState) (number : ℕ) (bytes : Option (List ℕ)) → AreFit n s (called_deeds f s number bytes) }
    ensures tellings { (n : ℕ) (exports : Exports) (s : CoreState) (effect : Effect) → AreFit n s (shown_deeds exports s effect) }
{}

/// Each deed of a request is of the client that it names; if it names none it does nothing.
#[tactic(auto, using(crate::proofs::DoesLaws::step_own))]
pub fn deeds_are_the_clients()
    ensures { (n : ℕ) (exports : Exports) (f : FrontState) (s : CoreState) (r : RequestItem) → IsGood s → AllAt (λ t d. IsOfSome t (nlm_client r) d) n s (nlm_deeds n exports f s r) }
{}

/// A request is answered by one message, which goes back to the connection that it came from: a function of its call, of
/// the state that it meets, of the names that are kept then, and of what its deeds are answered.
#[tactic(auto, using(crate::proofs::DoesLaws::step_replies))]
pub fn replies_follow_the_answers()
    ensures { (n : ℕ) (exports : Exports) (f : FrontState) (s : CoreState) (conn : ℕ) (r : RequestItem) → (nlm_step n exports f s conn r).0 ≡ sent_to conn (nlm_reply exports f s (all_done n s (nlm_deeds n exports f s r)).names r (answers_of n s (nlm_deeds n exports f s r))) }
{}

/// Each call is answered with its status exactly if that has its cause: STALE_FH if the handle names no exported file,
/// FBIG if the range passes the last byte, BLOCKED if the owner waits for the same already or comes to wait, DENIED,
/// DENIED_NOLOCKS, DENIED_GRACE_PERIOD, FAILED and GRANTED if the core is due to answer so. A lock and a share are judged
/// once the breaks of caches that they begin run.
#[tactic(auto, using(crate::proofs::StatusLaws::status_due))]
pub fn statuses_have_causes()
    ensures { (n count : ℕ) (f : FrontState) (s : CoreState) (call : CallItem) (status : NlmStatus) → IsGood s → (status_told call (served n count f s call).0 ≡ Some status) ↔ IsStatusDue n count f.hosts s call status }
{}

/// A grant of one who waited is sent by one call, to the address of the granted owner's caller; the call sends that
/// very range, and awaits its answer from then on. If the caller has no address nothing is sent, and nothing changes.
/// No effect sends more than one message.
#[tactic(auto, using(crate::proofs::GrantLaws::grant_is_told, crate::proofs::GrantLaws::grant_untold, crate::proofs::GrantLaws::grant_is_the_claim, crate::proofs::GrantLaws::one_call))]
pub fn grants_are_told()
    ensures told { (exports : Exports) (f : FrontState) (s : CoreState) (party : Party) (id : ℕ) (claim : Claim) (g : Grant) (to : List ℕ) → grant_of s.names claim ≡ Some g → address_of exports.addresses g.caller ≡ Some to
        → shown exports f s (Served party id (Granted claim)) ≡ (call_of (s.counter + 1) to g ∷ [], awaited f (record { number = s.counter + 1; claim = claim }), drawn s) }
    ensures untold { (exports : Exports) (f : FrontState) (s : CoreState) (party : Party) (id : ℕ) (claim : Claim) (g : Grant) → grant_of s.names claim ≡ Some g → address_of exports.addresses g.caller ≡ None
        → shown exports f s (Served party id (Granted claim)) ≡ ([], f, s) }
    ensures range { (names : List Name) (claim : Claim) (g : Grant) → grant_of names claim ≡ Some g → (claim.file ≡ g.file) × (claim.what ≡ Range (Bytes g.first g.last) g.exclusive) }
    ensures one { (exports : Exports) (f : FrontState) (s : CoreState) (effect : Effect) → length (shown exports f s effect).0 ≤ 1 }
{}

/// A reply that the client doesn't want the lock unlocks the range that its call sent; any other reply and none does
/// nothing, nor does the end of a call that awaits no answer.
#[tactic(auto, using(crate::proofs::AnswerLaws::refused_unlocks, crate::proofs::AnswerLaws::lost_keeps, crate::proofs::AnswerLaws::unknown_keeps, crate::proofs::AnswerLaws::refusals_are_read))]
pub fn refused_locks_are_unlocked()
    ensures refused { (f : FrontState) (s : CoreState) (number : ℕ) (bytes : Option (List ℕ)) (call : GrantedCall) (g : Grant) → find (λ c. c.number == number) f.calls ≡ Some call → refuses bytes ≡ true → grant_of s.names call.claim ≡ Some g
        → called_deeds f s number bytes ≡ Asks (rooms f.hosts) (refusal_ask g) ∷ [] }
    ensures lost { (f : FrontState) (s : CoreState) (number : ℕ) (bytes : Option (List ℕ)) → refuses bytes ≡ false → called_deeds f s number bytes ≡ [] }
    ensures unknown { (f : FrontState) (s : CoreState) (number : ℕ) (bytes : Option (List ℕ)) → find (λ c. c.number == number) f.calls ≡ None → called_deeds f s number bytes ≡ [] }
    ensures read { (xid : ℕ) (r : ResItem) (rest : List ℕ) → UnsignedFits xid → ResFits r → refuses (Some (reply xid Success ++ (res.spell r ++ rest))) ≡ not (is_granted r.stat) }
{}

/// The reply to a request tells what became of its call (XNFS C702, 14): a LOCK or NM_LOCK that is GRANTED holds its bytes, and after
/// an UNLOCK that is its owner has none of them; a SHARE that is GRANTED is its owner's, and an UNSHARE leaves none; a CANCEL that is
/// GRANTED takes out who waits for just that lock, and a FREE_ALL all of its caller's. A machine that answers a SHARE that it is GRANTED
/// and keeps nothing tells it wrongly.
#[tactic(auto, using(crate::proofs::AsToldLaws::request_told, crate::proofs::AsToldLaws::share_dropped_is))]
pub fn replies_are_as_told()
    ensures told { (n : ℕ) (exports : Exports) (f : FrontState) (s : CoreState) (conn : ℕ) (r : RequestItem) → IsGood s → AreAsTold exports f s conn r (sent_to conn (nlm_reply exports f s (all_done n s (nlm_deeds n exports f s r)).names r (answers_of n s (nlm_deeds n exports f s r)))) (all_done n s (nlm_deeds n exports f s r)) }
    ensures dropped { (count : ℕ) (f : FrontState) (s t : CoreState) (a : ShareArgsItem) (outcome : Outcome) (file : ℕ) → exported count a.fh ≡ Some file → status_of outcome ≡ NlmStatus.Granted → t.claims ≡ [] → IsAsTold count f s (CallItem.Share a) outcome t → ⊥ }
{}
