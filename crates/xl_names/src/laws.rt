//! Laws of this crate's definitions, for the layers above. The functions do nothing: each has a law as its clause.
ghost use Rattle.std.specs.Prelude.{◌≡◌, ℕ, ◌<◌, ◌^◌, ◌↔◌, true, List, Some, slice_get};
ghost use Rattle.xl_names.specs.declared.name.Name.{Name};
ghost use Rattle.xl_names.specs.Texts.{name_text, open_text, IsOfBytes, text_form};
ghost use Rattle.xl_names.specs.Names.{same_name, number_of, place_of, entered, AreDistinct};

/// The comparison of names is equality.
#[tactic(auto, using(crate::proofs::NameLaws::same_is_equal))]
pub fn same_names_are_equal()
    ensures { (a b : Name) → (same_name a b ≡ true) ↔ (a ≡ b) }
{}

/// Two names have one number exactly if they are equal.
#[tactic(auto, using(crate::proofs::NameLaws::one_number))]
pub fn equal_names_have_one_number()
    ensures { (names : List Name) (a b : Name) (id : ℕ) → number_of a names ≡ Some id → (number_of b names ≡ Some id) ↔ (b ≡ a) }
{}

/// A name is at its number, and of distinct names each has its place for a number.
#[tactic(auto, using(crate::proofs::NameLaws::number_place))]
pub fn numbers_are_places()
    ensures { (names : List Name) (name : Name) (id : ℕ) → AreDistinct names → (number_of name names ≡ Some id) ↔ (slice_get names id ≡ Some name) }
{}

/// A name that comes has a number from then on.
#[tactic(auto, using(crate::proofs::NameLaws::number_entered))]
pub fn entered_names_have_numbers()
    ensures { (names : List Name) (name : Name) → number_of name (entered name names) ≡ Some (place_of name names) }
{}

/// If a name comes all names before it keep their numbers, and they stay distinct.
#[tactic(auto, using(crate::proofs::NameLaws::number_stays, crate::proofs::NameLaws::distinct_entered))]
pub fn numbers_stay()
    ensures numbers { (names : List Name) (name other : Name) (id : ℕ) → number_of other names ≡ Some id → number_of other (entered name names) ≡ Some id }
    ensures distinct { (names : List Name) (name : Name) → AreDistinct names → AreDistinct (entered name names) }
{}

/// Equal texts are of equal names, if one names an owner of NFSv4 ranges and one an owner of NFSv4 shares up to that;
/// and no name has the text of an SMB open, nor have two opens one text.
#[tactic(auto, using(crate::proofs::TextLaws::equal_texts, crate::proofs::TextLaws::no_open, crate::proofs::TextLaws::equal_opens))]
pub fn equal_texts_are_of_equal_names()
    ensures names { (a b : Name) → IsOfBytes a → IsOfBytes b → name_text a ≡ name_text b → text_form a ≡ text_form b }
    ensures apart { (a : Name) (number : ℕ) → number < 2 ^ 64 → name_text a ≡ open_text number → ⊥ }
    ensures opens { (a b : ℕ) → a < 2 ^ 64 → b < 2 ^ 64 → open_text a ≡ open_text b → a ≡ b }
{}
