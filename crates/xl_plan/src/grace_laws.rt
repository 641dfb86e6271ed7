//! Laws of grace, as fronts are told of it. The functions do nothing: each has laws as its clauses.
ghost use Rattle.std.specs.Prelude.{◌≡◌, ℕ, true, false, Some, is_some, ◌⊎◌, ◌↔◌};
ghost use Rattle.xl_base.specs.Stable.{is_kept, is_recordable};
ghost use Rattle.xl_base.specs.RecordFile.{with_name};
ghost use Rattle.xl_base.specs.declared.event.Moment.{Moment};
ghost use Rattle.xl_grace.specs.Grace.{is_known};
ghost use Rattle.xl_matrix.specs.declared.claim.Claim.{Claim};
ghost use Rattle.xl_matrix.specs.declared.claim.What.{What};
ghost use Rattle.xl_wait.specs.declared.waiter.Rooms.{Rooms};
ghost use Rattle.xl_core.specs.Askers.{asked_what, is_client};
ghost use Rattle.xl_core.specs.Causes.{asks_claims};
ghost use Rattle.xl_core.specs.Decide.{ask};
ghost use Rattle.xl_core.specs.Good.{IsGood};
ghost use Rattle.xl_core.specs.Knowing.{KnowsRecord};
ghost use Rattle.xl_core.specs.Standings.{asker_as, is_smb};
ghost use Rattle.xl_core.specs.State.{CoreState, aside_of};
ghost use Rattle.xl_core.specs.declared.ask.Answer.{Answer};
ghost use Rattle.xl_core.specs.declared.ask.Ask.{Ask};

/// One who asks for one thing, and doesn't wait for the end of grace as those do who come by SMB, is told that end exactly if grace
/// runs and it doesn't reclaim; that no grace runs exactly if none does and it reclaims; and that its client isn't recorded exactly
/// if it reclaims in grace and the record lacks its client, or keeps another mark of it than the one that it comes with (RFC 7530
/// 9.6.2). What is granted reclaims exactly if grace runs, and then its client is recorded with a mark that agrees.
#[tactic(auto, using(crate::proofs::GraceLaws::unrecorded_told, crate::proofs::GraceLaws::granted_told))]
pub fn grace_is_told()
    ensures early { (n : ℕ) (left : Rooms) (s : CoreState) (a : Ask) (what : What) → asked_what a.act ≡ Some what → is_smb a.party ≡ false → ((until : Moment) × ((ask n left s a).0 ≡ Answer.Grace until)) ↔ ((is_some s.grace ≡ true) × (a.reclaim ≡ false)) }
    ensures late { (n : ℕ) (left : Rooms) (s : CoreState) (a : Ask) (what : What) → asked_what a.act ≡ Some what → ((clock : Moment) × ((ask n left s a).0 ≡ Answer.NoGrace clock)) ↔ ((is_some s.grace ≡ false) × (a.reclaim ≡ true)) }
    ensures unrecorded { (n : ℕ) (left : Rooms) (s : CoreState) (a : Ask) (what : What) → asked_what a.act ≡ Some what → KnowsRecord s → ((ask n left s a).0 ≡ Answer.NotRecorded) ↔ ((is_some s.grace ≡ true) × (a.reclaim ≡ true) × (is_known (asker_as a) s.stable.names ≡ false)) }
    ensures granted { (n : ℕ) (left : Rooms) (s : CoreState) (a : Ask) (what : What) (c : Claim) → asked_what a.act ≡ Some what → asks_claims a.act ≡ true → KnowsRecord s → (ask n left s a).0 ≡ Answer.Granted c → (a.reclaim ≡ is_some s.grace) × (a.reclaim ≡ true → is_known (asker_as a) s.stable.names ≡ true) }
{}

/// What one who asks for one thing leaves of the record and of the stores of the step. It is told that a store failed exactly if one
/// failed, in a step in which none had. A client of NLM or NFSv4 that is monitored and reclaims nothing is in the record, with the
/// mark that it comes with, once it is granted something (XNFS C702, NLM_LOCK); else the record gains no name and no mark. One who
/// isn't monitored, or reclaims, leaves the record and the stores alone.
#[tactic(auto, using(crate::proofs::RecordLaws::recorded_told, crate::proofs::RecordLaws::gained_told, crate::proofs::RecordLaws::unmonitored_told, crate::proofs::RecordLaws::reclaim_told))]
pub fn monitored_clients_are_recorded()
    ensures failed { (n : ℕ) (left : Rooms) (s : CoreState) (a : Ask) (what : What) → IsGood s → is_client a.owner a.party ≡ true → asked_what a.act ≡ Some what → s.failed ≡ false → ((ask n left s a).0 ≡ Answer.StoreFailed) ↔ ((ask n left s a).2.failed ≡ true) }
    ensures recorded { (n : ℕ) (left : Rooms) (s : CoreState) (a : Ask) (what : What) (c : Claim) → IsGood s → is_client a.owner a.party ≡ true → asked_what a.act ≡ Some what → a.monitored ≡ true → a.reclaim ≡ false → is_recordable (asker_as a) ≡ true → (ask n left s a).0 ≡ Answer.Granted c → is_kept (asker_as a) (ask n left s a).2.stable.names ≡ true }
    ensures gains { (n : ℕ) (left : Rooms) (s : CoreState) (a : Ask) → IsGood s → is_client a.owner a.party ≡ true → ((ask n left s a).2.stable ≡ s.stable) ⊎ (((c : Claim) × ((ask n left s a).0 ≡ Answer.Granted c)) × (a.monitored ≡ true) × (a.reclaim ≡ false) × (is_kept (asker_as a) s.stable.names ≡ false) × ((ask n left s a).2.stable ≡ with_name (asker_as a) s.stable)) }
    ensures unmonitored { (n : ℕ) (left : Rooms) (s : CoreState) (a : Ask) → IsGood s → is_client a.owner a.party ≡ true → a.monitored ≡ false → aside_of (record (ask n left s a).2 { grace = s.grace }) ≡ aside_of s }
    ensures reclaims { (n : ℕ) (left : Rooms) (s : CoreState) (a : Ask) → IsGood s → is_client a.owner a.party ≡ true → a.reclaim ≡ true → aside_of (record (ask n left s a).2 { grace = s.grace }) ≡ aside_of s }
{}
