//! Laws of the flat list. The functions do nothing; what they ensure holds of every list of claims.
ghost use Rattle.std.specs.Prelude.{◌≡◌, ℕ, ◌<◌, Bool, true, false, List, [], ◌∷◌, ◌++◌, length, None};
ghost use Rattle.std.specs.List.{AllByRecursion, filter, list_any};
ghost use Rattle.xl_base.specs.Lists.{IsIn, Pairwise, placed};
ghost use Rattle.xl_base.specs.declared.name.Owner.{Owner};
ghost use Rattle.xl_base.specs.declared.name.Party.{Party};
ghost use Rattle.xl_matrix.specs.declared.claim.Extent.{Extent};
ghost use Rattle.xl_matrix.specs.declared.claim.What.{What};
ghost use Rattle.xl_matrix.specs.declared.claim.Claim.{Claim};
ghost use Rattle.xl_matrix.specs.Owners.{posix};
ghost use Rattle.xl_matrix.specs.Matrix.{compat};
ghost use Rattle.xl_matrix.specs.Weaker.{weaker};
ghost use Rattle.xl_spans.specs.Spans.{IsCanonical};
ghost use Rattle.xl_table.specs.Elements.{elements_of, unlocked_elements, element_held, taken_out, taken_back};
ghost use Rattle.xl_table.specs.Order.{goes_first};
ghost use Rattle.xl_table.specs.Flat.{inserted, removed, changed, with_what, is_own, blocks};
ghost use Rattle.xl_table.specs.Held.{is_range, is_real, is_share, has_one_party, mode_of, is_of, spans_of, begins_first, IsSound};
ghost use Rattle.xl_table.specs.Relock.{is_share_of, is_range_of, united, relocked_in, is_cut};

/// Claims stay pairwise compatible: when one that goes with each of them is entered, and so when one is that nothing
/// blocks, if what it replaces is gone; when one is taken out; when one is made weaker, as a cache by its break; and
/// when one becomes what goes with each of the others, as a cache that is raised.
pub fn stays_compatible()
    ensures fitting { (claim : Claim) (held : List Claim) → Pairwise compat held → AllByRecursion (λ d. compat claim d ≡ true) held → Pairwise compat (inserted claim held) }
    ensures entered { (ask : Claim) (held : List Claim) → Pairwise compat held → AllByRecursion (λ d. is_own ask d ≡ false) held → filter (λ d. blocks ask d) held ≡ [] → Pairwise compat (inserted ask held) }
    ensures taken { (claim : Claim) (held : List Claim) → Pairwise compat held → Pairwise compat (removed claim held) }
    ensures weakened { (claim : Claim) (to : What) (held : List Claim) → Pairwise compat held → IsIn claim held → weaker (with_what claim to) claim ≡ true → Pairwise compat (changed claim to held) }
    ensures raised { (claim : Claim) (to : What) (held : List Claim) → Pairwise compat held → AllByRecursion (λ d. compat (with_what claim to) d ≡ true) (removed claim held) → Pairwise compat (changed claim to held) }
{}

/// When a claim may be entered. A share or a cache always may, and a claim may always become one. A range may if it
/// is real, its owner's ranges on the file have its party, and the owner's group, if it is of NLM or NFSv4, is
/// canonical then; in that group it stands by its first byte.
pub fn stays_sound()
    ensures entered { (claim : Claim) (held : List Claim) → IsSound held → is_real claim ≡ true → AllByRecursion (λ c. has_one_party claim c ≡ true) held → (posix claim.owner ≡ true → IsCanonical (spans_of claim.file claim.owner (inserted claim held))) → IsSound (inserted claim held) }
    ensures others { (claim : Claim) (held : List Claim) → IsSound held → is_range claim.what ≡ false → IsSound (inserted claim held) }
    ensures changed { (claim : Claim) (to : What) (held : List Claim) → IsSound held → is_range to ≡ false → IsSound (changed claim to held) }
    ensures taken { (claim : Claim) (held : List Claim) → IsSound held → IsSound (removed claim held) }
    ensures spans { (file : ℕ) (owner : Owner) (claim : Claim) (first last : ℕ) (exclusive : Bool) (held : List Claim) → is_of file owner claim ≡ true → posix owner ≡ true → claim.what ≡ What.Range (Extent.Bytes first last) exclusive → Pairwise goes_first held → spans_of file owner (inserted claim held) ≡ placed begins_first (record { first = first; last = last; mode = mode_of exclusive }) (spans_of file owner held) }
    ensures apart { (file : ℕ) (owner : Owner) (claim : Claim) (held : List Claim) → is_of file owner claim ≡ false → spans_of file owner (inserted claim held) ≡ spans_of file owner held }
{}

/// A share that is united with its owner's on the file goes with each claim that both it and what the owner held go with.
#[tactic(auto, using(crate::proofs::UnionLaws::united_fits))]
pub fn united_shares_stay_compatible()
    ensures { (asked third : Claim) (held : List Claim) → is_share asked.what ≡ true → compat asked third ≡ true → AllByRecursion (λ d. is_share_of asked.file asked.owner d ≡ true → (d.party ≡ asked.party) × (compat d third ≡ true)) held → compat (united asked held) third ≡ true }
{}

/// An unlock leaves more claims than there were, so that room may be missing, only if it cuts a range in two.
#[tactic(auto, using(crate::proofs::RoomLaws::unlock_grows))]
pub fn unlocks_grow_only_by_a_cut()
    ensures { (file : ℕ) (owner : Owner) (party : Party) (first last : ℕ) (held : List Claim) → IsSound held → posix owner ≡ true → length held < length (relocked_in file owner party first last None held) → list_any (is_cut first last) (spans_of file owner held) ≡ true }
{}

/// An SMB open's ranges on a file are a list of elements in the order of locking (MS-FSA 2.1.5.8). One that is granted
/// comes behind the others, and what any other claim does leaves them. An unlock takes out one that is equal to its
/// range, an exclusive one before a shared one (MS-FSA 2.1.5.9); if there is none it takes out none.
#[tactic(auto, using(crate::proofs::ElementLaws::elements_entered, crate::proofs::ElementLaws::elements_apart, crate::proofs::ElementLaws::elements_unlocked, crate::proofs::ElementLaws::elements_removed_apart))]
pub fn opens_hold_elements()
    ensures entered { (file : ℕ) (owner : Owner) (claim : Claim) (held : List Claim) → is_range_of file owner claim ≡ true → posix owner ≡ false → Pairwise goes_first held → elements_of file owner (inserted claim held) ≡ elements_of file owner held ++ claim.what ∷ [] }
    ensures apart { (file : ℕ) (owner : Owner) (claim : Claim) (held : List Claim) → is_range_of file owner claim ≡ false → elements_of file owner (inserted claim held) ≡ elements_of file owner held }
    ensures unlocked { (ask : Claim) (extent : Extent) (held : List Claim) → elements_of ask.file ask.owner (taken_out (element_held ask extent held) held) ≡ unlocked_elements extent (elements_of ask.file ask.owner held) }
    ensures others { (file : ℕ) (owner : Owner) (claim : Claim) (held : List Claim) → is_range_of file owner claim ≡ false → elements_of file owner (removed claim held) ≡ elements_of file owner held }
{}

/// What was granted to an SMB open last may be taken back, and leaves the claims as they were, in their order.
#[tactic(auto, using(crate::proofs::ElementLaws::back_entered))]
pub fn a_lock_is_taken_back()
    ensures { (claim : Claim) (held : List Claim) → taken_back claim (inserted claim held) ≡ held }
{}
