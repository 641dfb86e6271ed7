//! Laws of this crate's definitions, for the layers above. The functions do nothing: each has a law as its clause.
ghost use Rattle.std.specs.Prelude.{◌≡◌, ℕ, ◌<◌, ◌≤◌, Bool, not, ◌↔◌, List, Option};
ghost use Rattle.std.specs.List.{filter};
ghost use Rattle.xl_spans.specs.declared.span.Mode.{Mode};
ghost use Rattle.xl_spans.specs.declared.span.Span.{Span};
ghost use Rattle.xl_spans.specs.Spans.{mode_at, IsCanonical, EndsBelow, relocked, touches};

/// Two lists of maximal runs, of which none reaches byte n, are equal exactly if each byte below n has the same mode
/// in both.
#[tactic(auto, using(crate::proofs::SameBytes::runs_bytes))]
pub fn spans_are_their_bytes()
    ensures { (n : ℕ) (xs ys : List Span) → IsCanonical xs → IsCanonical ys → EndsBelow n xs → EndsBelow n ys → ((x : ℕ) → x < n → mode_at xs x ≡ mode_at ys x) ↔ (xs ≡ ys) }
{}

/// If a range is locked or unlocked again, nothing is left of the first time.
#[tactic(auto, using(crate::proofs::SameBytes::relocked_again))]
pub fn last_relock_counts()
    ensures { (ss : List Span) (first last : ℕ) (old new : Option Mode) → first ≤ last → IsCanonical ss → relocked (relocked ss first last old) first last new ≡ relocked ss first last new }
{}

/// The spans that have no byte in a range, nor right beside it, are the same after its lock or unlock.
#[tactic(auto, using(crate::proofs::Untouched::relocked_untouched))]
pub fn relock_leaves_others()
    ensures { (ss : List Span) (first last : ℕ) (mode : Option Mode) → first ≤ last → IsCanonical ss → filter (λ s. not (touches first last s)) (relocked ss first last mode) ≡ filter (λ s. not (touches first last s)) ss }
{}

/// After a lock or unlock no span reaches further than the range and the spans before it.
#[tactic(auto, using(crate::proofs::Untouched::relocked_below))]
pub fn relock_reaches_no_further()
    ensures { (n : ℕ) (ss : List Span) (first last : ℕ) (mode : Option Mode) → last < n → EndsBelow n ss → EndsBelow n (relocked ss first last mode) }
{}

/// Maximal runs of which some are left out are maximal runs.
#[tactic(auto, using(crate::proofs::Untouched::canonical_filter))]
pub fn fewer_runs_are_runs()
    ensures { (p : Span → Bool) (ss : List Span) → IsCanonical ss → IsCanonical (filter p ss) }
{}
