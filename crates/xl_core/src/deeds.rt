//! Laws of what is done to the core, whatever protocol it comes by: its calls as values, one after another. The functions
//! do nothing; what they ensure holds of every state and every list of such calls.
ghost use Rattle.std.specs.Prelude.{◌≡◌, ℕ, ◌<◌, Bool, true, false, List, [], ◌∷◌, None};
ghost use Rattle.std.specs.List.{AllByRecursion};
ghost use Rattle.xl_base.specs.Lists.{IsIn};
ghost use Rattle.xl_cache.specs.BreakPlans.{is_running};
ghost use Rattle.xl_matrix.specs.declared.claim.Claim.{Claim};
ghost use Rattle.xl_base.specs.Stable.{Stable, is_recorded};
ghost use Rattle.xl_grace.specs.Grace.{is_over};
ghost use Rattle.xl_core.specs.Stores.{client_name};
ghost use Rattle.xl_base.specs.declared.event.Moment.{Moment};
ghost use Rattle.xl_matrix.specs.declared.claim.Extent.{Extent};
ghost use Rattle.xl_wait.specs.declared.waiter.Rooms.{Rooms};
ghost use Rattle.xl_wait.specs.declared.waiter.Waiter.{Waiter};
ghost use Rattle.xl_core.specs.State.{CoreState, MayBe, GoesOn, started};
ghost use Rattle.xl_core.specs.Smallest.{all_room, unnamed, smallest_lock, broken_oplock, its_share, broken_delegation, with_claims};
ghost use Rattle.xl_core.specs.declared.ask.Effect.{Effect};
ghost use Rattle.xl_core.specs.declared.ask.Act.{Act};
ghost use Rattle.xl_core.specs.declared.ask.Ask.{Ask};
ghost use Rattle.xl_core.specs.declared.lease.Times.{Times};
ghost use Rattle.xl_core.specs.Leases.{ended};
ghost use Rattle.xl_core.specs.BreakAnswers.{due, client_of};
ghost use Rattle.xl_core.specs.Ticks.{tick};
ghost use Rattle.xl_core.specs.Deeds.{Deed, Asks, all_done, all_told_of, tick_deeds, AreFit, queue_after, all_caches_after, any_ends_break, KeepNames};
ghost use Rattle.xl_core.specs.Dues.{AreDue, AreInTurn, IsPutOff, IsLate, IsThinned};
ghost use Rattle.xl_core.specs.Good.{IsGood, caches_of};
ghost use Rattle.xl_core.specs.Places.{IsChangedBy};

/// The state stays good. At each place there is what the last deed that reaches it made of it, else what was there. Who
/// waits is who waited, except those whom the deeds queued, took out, ended or served, in order. Each name keeps its
/// number. Each deed is given what is due to it in the state in which it stands: what nothing stands against is granted,
/// and each answer and each turn has its cause. The caches are those that were held, except those that were given back, whose
/// break began, was answered or is over, and those of parties that ended; and with those that the wishes got of asks that were
/// granted. A cache whose break runs stands as it is, of its full kind, until its party answers or gives it back, ends or
/// expires, or the deadline passes.
#[tactic(auto, using(crate::proofs::DeedLists::deeds_good, crate::proofs::DeedLists::deeds_make, crate::proofs::DeedLists::deeds_queue, crate::proofs::DeedLists::deeds_names, crate::proofs::DeedLists::deeds_due, crate::proofs::DeedCaches::deeds_caches, crate::proofs::DeedCaches::deeds_keep_break))]
pub fn deeds_are_all_that_changes()
    ensures good { (n : ℕ) (s : CoreState) (ds : List Deed) → IsGood s → AreFit n s ds → IsGood (all_done n s ds) }
    ensures places { (n : ℕ) (s : CoreState) (ds : List Deed) → IsGood s → AreFit n s ds → IsChangedBy n s ds (all_done n s ds) }
    ensures waiting { (n : ℕ) (s : CoreState) (ds : List Deed) → IsGood s → AreFit n s ds → (all_done n s ds).waiters ≡ queue_after n s ds s.waiters }
    ensures names { (n : ℕ) (s : CoreState) (ds : List Deed) → IsGood s → AreFit n s ds → KeepNames s.names (all_done n s ds).names }
    ensures due { (n : ℕ) (s : CoreState) (ds : List Deed) → IsGood s → AreFit n s ds → AreDue n s ds }
    ensures caches { (n : ℕ) (s : CoreState) (ds : List Deed) → IsGood s → AreFit n s ds → caches_of (all_done n s ds).claims ≡ all_caches_after n s ds (caches_of s.claims) }
    ensures breaks { (n : ℕ) (s : CoreState) (ds : List Deed) (c : Claim) → IsGood s → AreFit n s ds → IsIn c s.claims → is_running c.what ≡ true → any_ends_break n s c ds ≡ false → IsIn c (all_done n s ds).claims }
{}

/// A reading of the clock leaves what its deeds leave, and tells what they tell: the clock rises, then one break after
/// another is over whose deadline has come, in the order in which they are due, then one client after another expires
/// whose lease has ended then, in the order of their id strings, and last the grace that runs ends, if its end has come: whatever
/// stands ahead of one in these orders and isn't taken before it is left at the end as well. An expiry waits for its store if the
/// record has the client, and so does the end of grace: what is left at the end is left as a store failed, and the record has the
/// client of such a break or lease still. If none failed no such break or lease is left.
#[tactic(auto, using(crate::proofs::TickLaws::tick_done, crate::proofs::TickLaws::tick_tells, crate::proofs::TickLaws::tick_fits, crate::proofs::TickLaws::tick_in_turn, crate::proofs::TickLaws::tick_late, crate::proofs::TickLaws::tick_off, crate::proofs::TickLaws::tick_over, crate::proofs::TickLaws::none_ended, crate::proofs::TickLaws::none_due))]
pub fn ticks_are_their_deeds()
    ensures done { (n : ℕ) (s : CoreState) (now : Moment) → all_done n s (tick_deeds n s now) ≡ (tick n s now).1 }
    ensures told { (n : ℕ) (s : CoreState) (now : Moment) → all_told_of n s (tick_deeds n s now) ≡ (tick n s now).0 }
    ensures fit { (n : ℕ) (s : CoreState) (now : Moment) → AreFit n s (tick_deeds n s now) }
    ensures turns { (n : ℕ) (s : CoreState) (now : Moment) → IsGood s → AreInTurn n s (tick_deeds n s now) (tick n s now).1 }
    ensures late { (n : ℕ) (s : CoreState) (now : Moment) → IsGood s → let t = (tick n s now).1 in AllByRecursion (λ c. IsLate t (client_of t.names c.party)) (due t) }
    ensures off { (n : ℕ) (s : CoreState) (now : Moment) → let t = (tick n s now).1 in AllByRecursion (λ client. IsPutOff t.failed t.stable client) (ended t.clock t.leases) }
    ensures over { (n : ℕ) (s : CoreState) (now : Moment) → let t = (tick n s now).1 in is_over t.grace t.clock ≡ true → t.failed ≡ true }
    ensures undue { (n : ℕ) (s : CoreState) (now : Moment) → IsGood s → let t = (tick n s now).1 in t.failed ≡ false → due t ≡ [] }
    ensures none { (n : ℕ) (s : CoreState) (now : Moment) → let t = (tick n s now).1 in t.failed ≡ false → ended t.clock t.leases ≡ [] }
{}

/// What a reading of the clock does to the record and to the stores of the step, of which n succeed. Of the names that the record
/// had it keeps each, but those of clients that are told of as expired, and if grace is over in it those that reclaimed nothing; it
/// gains none. So a client that expires is not in the record at the end, which is stored without it before its claims go. Grace is
/// over in no reading in which a store failed, nor before its end. No more than n stores are made, and one fails only if n were:
/// the first n go. Behind a store that failed none is tried.
#[tactic(auto, using(crate::proofs::ThinLaws::tick_thins, crate::proofs::TriedLaws::tick_makes_no_more, crate::proofs::TriedLaws::tick_tries_none))]
pub fn expiries_are_stored()
    ensures thins { (n : ℕ) (s : CoreState) (now : Moment) → let r = tick n s now in IsThinned s r.0 r.1 }
    ensures on { (n : ℕ) (s : CoreState) (now : Moment) → GoesOn s (tick n s now).1 }
    ensures may { (n : ℕ) (s : CoreState) (now : Moment) → MayBe n s → MayBe n (tick n s now).1 }
    ensures none { (n : ℕ) (s : CoreState) (now : Moment) → s.failed ≡ true → (tick n s now).1.given ≡ s.given }
{}

/// A break is over at its deadline, not before: a batch oplock whose answer is due at moment 7 stands as it is when the clock
/// reads 6, and is gone when it reads 7. A client that doesn't return its delegation by then has nothing left, also of other
/// files, and its expiry is an effect, if a store succeeds or the record lacks it; else all stays.
#[tactic(auto, using(crate::proofs::DeadlineLaws::oplock_stands, crate::proofs::DeadlineLaws::oplock_goes, crate::proofs::DeadlineLaws::client_stands, crate::proofs::DeadlineLaws::client_goes, crate::proofs::DeadlineLaws::stranger_goes, crate::proofs::DeadlineLaws::client_stays))]
pub fn breaks_are_over_at_their_deadline()
    ensures stands { (n : ℕ) (stable : Stable) (times : Times) → (tick n (with_claims stable times (broken_oplock ∷ [])) (record { 0 = 6 })).1.claims ≡ broken_oplock ∷ [] }
    ensures goes { (n : ℕ) (stable : Stable) (times : Times) → (tick n (with_claims stable times (broken_oplock ∷ [])) (record { 0 = 7 })).1.claims ≡ [] }
    ensures returns { (n : ℕ) (stable : Stable) (times : Times) → (tick n (with_claims stable times (broken_delegation ∷ its_share ∷ [])) (record { 0 = 6 })).1.claims ≡ broken_delegation ∷ its_share ∷ [] }
    ensures expires { (n : ℕ) (stable : Stable) (times : Times) → 0 < n → let r = tick n (with_claims stable times (broken_delegation ∷ its_share ∷ [])) (record { 0 = 7 }) in (r.1.claims ≡ []) × (r.0 ≡ Effect.Expired [] ∷ []) }
    ensures unrecorded { (n : ℕ) (stable : Stable) (times : Times) → is_recorded (client_name []) stable.names ≡ false → let r = tick n (with_claims stable times (broken_delegation ∷ its_share ∷ [])) (record { 0 = 7 }) in (r.1.claims ≡ []) × (r.0 ≡ Effect.Expired [] ∷ []) }
    ensures unstored { (stable : Stable) (times : Times) → is_recorded (client_name []) stable.names ≡ true → let r = tick 0 (with_claims stable times (broken_delegation ∷ its_share ∷ [])) (record { 0 = 7 }) in (r.1.claims ≡ broken_delegation ∷ its_share ∷ []) × (r.0 ≡ []) }
{}

/// A machine that answers that a lock is granted and keeps nothing doesn't meet the law of places, at a start with a record without
/// names and for a lock of one byte; nor does one that drops a waiter at another's test meet the law of those who wait.
#[tactic(auto, using(crate::proofs::HollowLaws::nothing_kept, crate::proofs::HollowLaws::waiter_dropped))]
pub fn hollow_machines_are_refused()
    ensures kept { (n epoch : ℕ) (clock : Moment) (times : Times) (t : CoreState) → t.claims ≡ [] → IsChangedBy n (started (unnamed epoch) clock times) (Asks all_room smallest_lock ∷ []) t → ⊥ }
    ensures dropped { (n : ℕ) (left : Rooms) (s t : CoreState) (a : Ask) (w : Waiter) (extent : Extent) (exclusive : Bool) → a.act ≡ Act.Test extent exclusive → s.waiters ≡ w ∷ [] → t.waiters ≡ [] → t.waiters ≡ queue_after n s (Asks left a ∷ []) s.waiters → ⊥ }
{}
