//! Laws of grace from a start on, for the layers above. The functions do nothing: each has a law as its clause.
ghost use Rattle.std.specs.Prelude.{◌≡◌, ℕ, ◌+◌, ◌-◌, ◌^◌, min, true, false, not, ◌&&◌, if◌then◌else◌, List, Option, is_some};
ghost use Rattle.std.specs.List.{list_any};
ghost use Rattle.xl_base.specs.declared.event.Moment.{Moment};
ghost use Rattle.xl_base.specs.declared.stable.Recorded.{Recorded};
ghost use Rattle.xl_base.specs.Stable.{Stable, is_recorded};
ghost use Rattle.xl_grace.specs.declared.grace.Admission.TheVariants.{Enters, Grace, NoGrace, NotRecorded};
ghost use Rattle.xl_grace.specs.Grace.{Running, is_known, has_names, begun, admission, is_over, ended, is_back, Turn, after, is_reclaim, is_expiry, is_reading_from};

/// Grace runs from a start whose record has names until the clock is read so many milliseconds later, or after, and at no
/// other time.
#[tactic(auto, using(crate::proofs::GraceLaws::runs_from))]
pub fn grace_runs_until_its_end()
    ensures { (stable : Stable) (now : Moment) (milliseconds : ℕ) (turns : List Turn) → is_some (after (begun stable now milliseconds) turns) ≡ (has_names stable.names && not (list_any (is_reading_from (min (now.0 + milliseconds) (2 ^ 64 - 1))) turns)) }
{}

/// What is no reclaim is answered with the end while grace runs, and enters if none runs (RFC 7530 9.6.2).
#[tactic(auto, using(crate::proofs::GraceLaws::asks_from))]
pub fn new_asks_wait_for_the_end()
    ensures { (stable : Stable) (now : Moment) (milliseconds : ℕ) (turns : List Turn) (name : Recorded) → admission (after (begun stable now milliseconds) turns) name false ≡ (if is_some (after (begun stable now milliseconds) turns) then Grace (record { 0 = min (now.0 + milliseconds) (2 ^ 64 - 1) }) else Enters) }
{}

/// A reclaim enters exactly while grace runs, of a name that the record had at the start, with a mark that agrees, and that
/// hasn't expired since (RFC 7530 9.6.3).
#[tactic(auto, using(crate::proofs::GraceLaws::reclaims_from))]
pub fn recorded_names_reclaim_in_grace()
    ensures { (stable : Stable) (now : Moment) (milliseconds : ℕ) (turns : List Turn) (name : Recorded) → admission (after (begun stable now milliseconds) turns) name true ≡ (if is_some (after (begun stable now milliseconds) turns) then (if is_known name stable.names && not (list_any (is_expiry name) turns) then Enters else NotRecorded) else NoGrace) }
{}

/// After its end nobody reclaims, whatever comes.
#[tactic(auto, using(crate::proofs::GraceLaws::none_after_end))]
pub fn nobody_reclaims_after_the_end()
    ensures { (grace : Option Running) (now : Moment) (turns : List Turn) (name : Recorded) → is_over grace now ≡ true → admission (after (ended now grace) turns) name true ≡ NoGrace }
{}

/// While grace runs, those that have reclaimed are the recorded names that did so and haven't expired.
#[tactic(auto, using(crate::proofs::GraceLaws::back_from))]
pub fn those_who_reclaimed_are_back()
    ensures { (stable : Stable) (now : Moment) (milliseconds : ℕ) (turns : List Turn) (name : Recorded) → is_some (after (begun stable now milliseconds) turns) ≡ true → is_back name (after (begun stable now milliseconds) turns) ≡ ((is_recorded name stable.names && list_any (is_reclaim name) turns) && not (list_any (is_expiry name) turns)) }
{}
