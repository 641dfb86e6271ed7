//! Laws of plans. The functions do nothing: each has laws as its clauses.
ghost use Rattle.std.specs.Prelude.{◌≡◌, ℕ, ◌+◌, Bool, true, false, List, ◌∷◌, ◌++◌};
ghost use Rattle.std.specs.List.{AllByRecursion};
ghost use Rattle.xl_core.specs.State.{CoreState, GoesOn, step_begun};
ghost use Rattle.xl_core.specs.Stores.{Telling, Holds, HandsOn};
ghost use Rattle.xl_core.specs.Good.{IsGood};
ghost use Rattle.xl_core.specs.Deeds.{Deed, all_done, all_told_of, IsFitDeed, AreFit};
ghost use Rattle.xl_plan.specs.Plans.{Plan, deeds_of, told_behind, carried, bind, carried_next, deeds_next, within, ended_within, AllDeeds, AllEnds, AllKept};
ghost use Rattle.xl_names.specs.declared.name.Name.{Name};
ghost use Rattle.xl_plan.specs.Budgets.{IsReady, Leaves};
ghost use Rattle.xl_plan.specs.Keepers.{IsTold};
ghost use Rattle.xl_plan.specs.Rows.{row};

/// A plan leaves what its deeds leave, and tells of what they tell of. If each of its deeds is one that the core takes,
/// the core takes them in a row, and stays good; and what is true of each of them is true of all in a row.
#[tactic(auto, using(crate::proofs::PlanLaws::plan_does, crate::proofs::PlanLaws::plan_tells, crate::proofs::PlanLaws::plan_fits, crate::proofs::PlanLaws::plan_each, crate::proofs::PlanLaws::plan_good))]
pub fn plans_are_their_deeds<F, T>()
    ensures done { (n : ℕ) (s : CoreState) (f : F) (p : Plan F T) → (carried n s f p).3 ≡ all_done n s (deeds_of n s p) }
    ensures told { (n : ℕ) (s : CoreState) (f : F) (p : Plan F T) → (carried n s f p).1 ≡ all_told_of n s (deeds_of n s p) }
    ensures fit { (n : ℕ) (s : CoreState) (p : Plan F T) → AllDeeds IsFitDeed n s p → AreFit n s (deeds_of n s p) }
    ensures each { (n : ℕ) (s : CoreState) (p : Plan F T) (test : Deed → Bool) → AllDeeds (λ t d. test d ≡ true) n s p → AllByRecursion (λ d. test d ≡ true) (deeds_of n s p) }
    ensures good { (n : ℕ) (s : CoreState) (f : F) (p : Plan F T) → IsGood s → AllDeeds IsFitDeed n s p → IsGood (carried n s f p).3 }
{}

/// What is true at each end of a plan, whichever way it goes, is true of what is answered; and what is true of all that
/// the front keeps along it, and of what it kept before, is true of what it keeps then.
#[tactic(auto, using(crate::proofs::PlanLaws::ends_so, crate::proofs::PlanLaws::kept_so))]
pub fn plans_end_as_all_their_ends<F, T>()
    ensures told { (n : ℕ) (s : CoreState) (f : F) (p : Plan F T) (test : T → Bool) → AllEnds (λ told. test told ≡ true) p → test (carried n s f p).0 ≡ true }
    ensures kept { (n : ℕ) (s : CoreState) (f : F) (p : Plan F T) (test : F → Bool) → test f ≡ true → AllKept (λ kept. test kept ≡ true) p → test (carried n s f p).2 ≡ true }
{}

/// One plan behind another: its deeds are those of the first and then those of the second in the state that is left, and it
/// comes to what the second comes to behind the first, with what the first told of.
#[tactic(auto, using(crate::proofs::BindLaws::bind_does, crate::proofs::BindLaws::bind_carries))]
pub fn plans_follow_one_another<F, T, U>()
    ensures deeds { (n : ℕ) (s : CoreState) (f : F) (p : Plan F T) (next : T → CoreState → F → Plan F U) → deeds_of n s (bind s f p next) ≡ deeds_of n s p ++ deeds_next n (carried n s f p) next }
    ensures carried { (n : ℕ) (s : CoreState) (f : F) (p : Plan F T) (next : T → CoreState → F → Plan F U) → carried n s f (bind s f p next) ≡ carried_next n (carried n s f p) next }
{}

/// Operations in a row: if others go on behind the first they come to what they come to behind it, with what it told
/// of; if none does the row comes to what the first comes to, and does what it does.
#[tactic(auto, using(crate::proofs::RowLaws::row_goes, crate::proofs::RowLaws::row_stops, crate::proofs::RowLaws::row_ends))]
pub fn rows_go_on<F, T, Op>()
    ensures goes { (plan : T → CoreState → F → Op → Plan F T) (goes : T → Bool) (n : ℕ) (told : T) (s : CoreState) (f : F) (op : Op) (ops : List Op) → goes (carried n s f (plan told s f op)).0 ≡ true → carried n s f (row plan goes told s f (op ∷ ops)) ≡ told_behind (carried n s f (plan told s f op)).1 (carried n (carried n s f (plan told s f op)).3 (carried n s f (plan told s f op)).2 (row plan goes (carried n s f (plan told s f op)).0 (carried n s f (plan told s f op)).3 (carried n s f (plan told s f op)).2 ops)) }
    ensures stops { (plan : T → CoreState → F → Op → Plan F T) (goes : T → Bool) (n : ℕ) (told : T) (s : CoreState) (f : F) (op : Op) (ops : List Op) → goes (carried n s f (plan told s f op)).0 ≡ false → carried n s f (row plan goes told s f (op ∷ ops)) ≡ carried n s f (plan told s f op) }
    ensures ends { (plan : T → CoreState → F → Op → Plan F T) (goes : T → Bool) (n : ℕ) (told : T) (s : CoreState) (f : F) (op : Op) (ops : List Op) → goes (carried n s f (plan told s f op)).0 ≡ false → deeds_of n s (row plan goes told s f (op ∷ ops)) ≡ deeds_of n s (plan told s f op) }
{}

/// A plan of a part of what a front keeps is a plan of the whole: it does the same, and ends as it is said to.
#[tactic(auto, using(crate::proofs::BindLaws::within_carries, crate::proofs::BindLaws::within_does))]
pub fn plans_stand_within_others<F, G, T, U>()
    ensures carried { (n : ℕ) (s : CoreState) (f : F) (keep : F → G) (end : T → F → U × G) (p : Plan F T) → carried n s (keep f) (within keep end f p) ≡ ended_within end (carried n s f p) }
    ensures deeds { (n : ℕ) (s : CoreState) (f : F) (keep : F → G) (end : T → F → U × G) (p : Plan F T) → deeds_of n s (within keep end f p) ≡ deeds_of n s p }
{}

/// Steps that draw so many numbers at most, and by which only names come for which this test is true: one behind the other
/// draws as many as both, and no other name comes; what is ready for both is ready for the second behind the first.
#[tactic(auto, using(crate::proofs::BudgetLaws::leaves_then, crate::proofs::BudgetLaws::ready_then))]
pub fn budgets_add_up()
    ensures leaves { (test : Name → Bool) (s t u : CoreState) (a b : ℕ) → Leaves (λ name. test name ≡ true) a s t → Leaves (λ name. test name ≡ true) b t u → Leaves (λ name. test name ≡ true) (a + b) s u }
    ensures ready { (test : Name → Bool) (s t : CoreState) (a b : ℕ) → IsReady (a + b) s → Leaves (λ name. test name ≡ true) a s t → IsReady b t }
{}

/// The parts of a step hand the keeper of the record on: a step begins with the keeper that holds the record as it is stored,
/// and behind each call that may store the keeper tells of the stores of the whole step until then.
pub fn keepers_are_handed_on()
    ensures begun { (s : CoreState) (now : Telling) → Holds now.held s.stable → IsTold now (step_begun s) now }
    ensures on { (s t : CoreState) (old new before : Telling) → HandsOn s t old new → GoesOn s t → IsTold before s old → IsTold before t new }
{}
