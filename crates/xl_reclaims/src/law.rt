//! Truthful reclaims are let in.
ghost use Rattle.std.specs.Prelude.{◌≡◌, ℕ, true, false, List, Some};
ghost use Rattle.xl_base.specs.Lists.{IsIn};
ghost use Rattle.xl_grace.specs.Grace.{Running};
ghost use Rattle.xl_matrix.specs.Equal.{same_parties};
ghost use Rattle.xl_matrix.specs.Blocks.{blocks};
ghost use Rattle.xl_matrix.specs.declared.claim.Claim.{Claim};
ghost use Rattle.xl_names.specs.Names.{AreDistinct};
ghost use Rattle.xl_names.specs.declared.name.Name.{Name};
ghost use Rattle.xl_table.specs.Held.{is_cache};
ghost use Rattle.xl_core.specs.Deeds.{Deed, done, IsFitDeed};
ghost use Rattle.xl_core.specs.Good.{are_kept, IsGood};
ghost use Rattle.xl_core.specs.Knowing.{KnowsRecord};
ghost use Rattle.xl_core.specs.State.{CoreState};
ghost use Rattle.xl_reclaims.specs.Truthful.{Before, WereHeld, owner_name, IsInOrder, IsWithin, AreWithin, HoldsWithin, TellsTruth, IsLetIn};

/// What is claimed within what was held together before, by names, blocks nothing that is held within it too, except a cache of its
/// own party: the matrix is closed under weakening.
#[tactic(auto, using(crate::proofs::LetIn::blocks_nothing))]
pub fn claims_within_are_free()
    ensures { (before : Before) (names : List Name) (c held : Claim) → WereHeld before → AreDistinct names → are_kept names c.owner c.party ≡ true → are_kept names held.owner held.party ≡ true → IsInOrder c.what → IsInOrder held.what
        → IsWithin before names c → IsWithin before names held → (is_cache c.what ≡ true → is_cache held.what ≡ true → same_parties c.party held.party ≡ false) → blocks c held ≡ false }
{}

/// Whatever one who has a name held lies within what was held before.
#[tactic(auto, using(crate::proofs::HeldLaws::held_within))]
pub fn what_was_held_is_within()
    ensures { (before : Before) (c : Claim) (name : Name) → WereHeld before → IsIn c before.claims → owner_name before.names c.owner ≡ Some name → IsWithin before before.names c }
{}

/// While grace runs a reclaim that tells the truth isn't turned away by what is held, nor for want of its name in the record with
/// its mark (RFC 7530 9.6.2), as long as all that is held lies within what was held before; and that stays so whatever is done to
/// the core while grace runs, if each reclaim tells the truth.
#[tactic(auto, using(crate::proofs::Keeps::deed_lets_in, crate::proofs::Keeps::deed_lies))]
pub fn truthful_reclaims_are_let_in()
    ensures let_in { (n : ℕ) (before : Before) (s : CoreState) (d : Deed) → WereHeld before → IsGood s → KnowsRecord s → IsFitDeed s d → HoldsWithin before s → TellsTruth before s d → IsLetIn n s d }
    ensures kept { (n : ℕ) (before : Before) (s : CoreState) (d : Deed) (g : Running) → WereHeld before → IsGood s → KnowsRecord s → IsFitDeed s d → s.grace ≡ Some g → AreWithin before s.names s.claims → TellsTruth before s d
        → AreWithin before (done n s d).names (done n s d).claims }
{}
