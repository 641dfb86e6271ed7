//! Laws of grace, whatever protocol an ask comes by. The functions do nothing: each has a law as its clauses.
ghost use Rattle.std.specs.Prelude.{◌≡◌, ℕ, true, false, List, Some, None, ◌↔◌};
ghost use Rattle.xl_base.specs.Stable.{Stable};
ghost use Rattle.xl_base.specs.declared.event.Moment.{Moment};
ghost use Rattle.xl_grace.specs.Grace.{Running, is_known};
ghost use Rattle.xl_matrix.specs.declared.claim.Claim.{Claim};
ghost use Rattle.xl_wait.specs.declared.waiter.Rooms.{Rooms};
ghost use Rattle.xl_core.specs.State.{CoreState, started};
ghost use Rattle.xl_core.specs.Causes.{asks_claims};
ghost use Rattle.xl_core.specs.Decide.{ask};
ghost use Rattle.xl_core.specs.Deeds.{Deed, all_done, AreFit};
ghost use Rattle.xl_core.specs.Good.{IsGood};
ghost use Rattle.xl_core.specs.Knowing.{KnowsRecord};
ghost use Rattle.xl_core.specs.Settle.{settle};
ghost use Rattle.xl_core.specs.Standings.{asker_as, stands};
ghost use Rattle.xl_core.specs.declared.ask.Answer.{Answer};
ghost use Rattle.xl_core.specs.declared.ask.Ask.{Ask};
ghost use Rattle.xl_core.specs.declared.lease.Times.{Times};
ghost use Rattle.xl_core.specs.declared.standings.Standing.TheVariants.{Unrecorded};

/// While grace runs a share or a lock is granted only to one who reclaims it and whose client the record has, with a mark that
/// agrees (RFC 7530 9.6.2). A reclaim is told that its client isn't recorded exactly if the record lacks it or keeps another mark.
/// Nobody who waits has a turn.
#[tactic(auto, using(crate::proofs::KnowingLaws::granted_in_grace, crate::proofs::KnowingLaws::unrecorded_is, crate::proofs::KnowingLaws::no_turn))]
pub fn grace_lets_recorded_clients_in()
    ensures granted { (n : ℕ) (left : Rooms) (s : CoreState) (a : Ask) (c : Claim) (g : Running) → KnowsRecord s → s.grace ≡ Some g → asks_claims a.act ≡ true → (ask n left s a).0 ≡ Answer.Granted c → (a.reclaim ≡ true) × (is_known (asker_as a) s.stable.names ≡ true) }
    ensures unrecorded { (s : CoreState) (a : Ask) (g : Running) → KnowsRecord s → s.grace ≡ Some g → (stands s a ≡ Unrecorded) ↔ ((a.reclaim ≡ true) × (is_known (asker_as a) s.stable.names ≡ false)) }
    ensures turns { (n : ℕ) (left : Rooms) (s : CoreState) (g : Running) → IsGood s → s.grace ≡ Some g → settle n left s ≡ None }
{}

/// Those who may reclaim in the grace that runs are those of the record, from a start on and whatever is done to the core: a client
/// that expires goes from both, and while grace runs no other change of the record comes.
#[tactic(auto, using(crate::proofs::KnowingLaws::started_knows, crate::proofs::KnowingLaws::deeds_know))]
pub fn the_record_says_who_reclaims()
    ensures started { (stable : Stable) (clock : Moment) (times : Times) → KnowsRecord (started stable clock times) }
    ensures kept { (n : ℕ) (s : CoreState) (ds : List Deed) → IsGood s → AreFit n s ds → KnowsRecord s → KnowsRecord (all_done n s ds) }
{}
