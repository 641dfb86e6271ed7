//! Laws of what grace and the record make of calls. The functions do nothing: each has laws as its clauses.
ghost use Rattle.std.specs.Prelude.{◌≡◌, ℕ, true, false, List, Some, is_some, ◌⊎◌, ◌↔◌};
ghost use Rattle.xl_base.specs.RecordFile.{with_name};
ghost use Rattle.xl_base.specs.Stable.{is_kept};
ghost use Rattle.xl_grace.specs.Grace.{is_known};
ghost use Rattle.xl_nlm.specs.Items.{CallItem};
ghost use Rattle.xl_nlm.specs.declared.item.NlmStatus.TheVariants.{DeniedGracePeriod, Failed, Granted};
ghost use Rattle.xl_core.specs.Good.{IsGood};
ghost use Rattle.xl_core.specs.Knowing.{KnowsRecord};
ghost use Rattle.xl_core.specs.State.{CoreState, aside_of};
ghost use Rattle.xl_front_nlm.specs.Asking.{monitors, reclaims};
ghost use Rattle.xl_front_nlm.specs.Graces.{named_by, IsGraceDue};
ghost use Rattle.xl_front_nlm.specs.Serving.{host_of, served};
ghost use Rattle.xl_front_nlm.specs.State.{FrontState};
ghost use Rattle.xl_front_nlm.specs.Statuses.{status_told};

/// A call is told DENIED_GRACE_PERIOD exactly if it is a TEST while grace runs, or a LOCK, a NM_LOCK or a SHARE that doesn't
/// reclaim while grace runs or reclaims while none does; STALE_FH and FBIG come first, and BLOCKED to an owner who waits for the
/// same already. A lock or a share that is GRANTED reclaims exactly if grace runs, and then the record has its caller, and keeps no
/// other state of its host than the one that it names.
pub fn grace_lets_recorded_callers_in()
    ensures denied { (n count : ℕ) (f : FrontState) (s : CoreState) (call : CallItem) → IsGood s → (status_told call (served n count f s call).0 ≡ Some DeniedGracePeriod) ↔ IsGraceDue count s call }
    ensures granted { (n count : ℕ) (f : FrontState) (s : CoreState) (call : CallItem) (caller : List ℕ) → KnowsRecord s → host_of call ≡ Some caller → status_told call (served n count f s call).0 ≡ Some Granted → (reclaims call ≡ is_some s.grace) × (reclaims call ≡ true → is_known (named_by call caller) s.stable.names ≡ true) }
{}

/// A call is told FAILED exactly if a store failed by it, in a step in which none had: a full record is told DENIED_NOLOCKS. Once a
/// LOCK or a SHARE that reclaims nothing is GRANTED the record has its caller, of a LOCK with the state of its host (XNFS C702,
/// NLM_LOCK); else it gains no name and no state. No other call changes the record, or stores it: an NM_LOCK neither (XNFS C702,
/// NLM_NM_LOCK), nor a reclaim, whose caller the record has if it is GRANTED.
pub fn monitored_callers_are_recorded()
    ensures failed { (n count : ℕ) (f : FrontState) (s : CoreState) (call : CallItem) → IsGood s → s.failed ≡ false → let r = served n count f s call in (status_told call r.0 ≡ Some Failed) ↔ (r.3.failed ≡ true) }
    ensures recorded { (n count : ℕ) (f : FrontState) (s : CoreState) (call : CallItem) (caller : List ℕ) → IsGood s → host_of call ≡ Some caller → monitors call ≡ true → reclaims call ≡ false → let r = served n count f s call in status_told call r.0 ≡ Some Granted → is_kept (named_by call caller) r.3.stable.names ≡ true }
    ensures known { (n count : ℕ) (f : FrontState) (s : CoreState) (call : CallItem) (caller : List ℕ) → IsGood s → KnowsRecord s → host_of call ≡ Some caller → reclaims call ≡ true → let r = served n count f s call in status_told call r.0 ≡ Some Granted → is_known (named_by call caller) r.3.stable.names ≡ true }
    ensures gains { (n count : ℕ) (f : FrontState) (s : CoreState) (call : CallItem) → IsGood s → let r = served n count f s call in (r.3.stable ≡ s.stable) ⊎ ((caller : List ℕ) × (host_of call ≡ Some caller) × (monitors call ≡ true) × (reclaims call ≡ false) × (status_told call r.0 ≡ Some Granted) × (is_kept (named_by call caller) s.stable.names ≡ false) × (r.3.stable ≡ with_name (named_by call caller) s.stable)) }
    ensures unmonitored { (n count : ℕ) (f : FrontState) (s : CoreState) (call : CallItem) → IsGood s → monitors call ≡ false → aside_of (record (served n count f s call).3 { grace = s.grace }) ≡ aside_of s }
    ensures reclaims { (n count : ℕ) (f : FrontState) (s : CoreState) (call : CallItem) → IsGood s → reclaims call ≡ true → aside_of (record (served n count f s call).3 { grace = s.grace }) ≡ aside_of s }
{}
