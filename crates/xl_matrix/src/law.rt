//! Laws of the matrix in its subject's words. The functions do nothing; what they ensure holds of every claim.
ghost use Rattle.std.specs.Prelude.{◌≡◌, ℕ, ◌-◌, ◌<◌, ◌≤◌, Bool, true, false, List, ◌↔◌};
ghost use Rattle.std.specs.List.{AllByRecursion};
ghost use Rattle.xl_matrix.specs.declared.claim.Claim.{Claim};
ghost use Rattle.xl_matrix.specs.declared.claim.Extent.{Extent};
ghost use Rattle.xl_matrix.specs.declared.claim.What.{What};
ghost use Rattle.xl_matrix.specs.Owners.{posix};
ghost use Rattle.xl_matrix.specs.Extents.{has_byte, meeting};
ghost use Rattle.xl_matrix.specs.Matrix.{compat, lock_on, locks_agree, IsMadeOf};
ghost use Rattle.xl_matrix.specs.Weaker.{weaker};

/// The matrix has no sides.
pub fn has_no_sides()
    ensures { (a b : Claim) → compat a b ≡ compat b a }
{}

/// Ranges meet by their bytes. Two ranges with bytes meet exactly if a byte is in both; an empty range meets another
/// SMB range exactly if both the byte before its offset and the byte at it are in that; and no other range.
pub fn meets_by_bytes()
    ensures bytes { (smb : Bool) (first last start end : ℕ) → (meeting smb (Extent.Bytes first last) (Extent.Bytes start end) ≡ true) ↔ ((byte : ℕ) × (has_byte (Extent.Bytes first last) byte ≡ true) × (has_byte (Extent.Bytes start end) byte ≡ true)) }
    ensures empty { (extent : Extent) (offset : ℕ) → (meeting true extent (Extent.Empty offset) ≡ true) ↔ ((0 < offset) × (has_byte extent (offset - 1) ≡ true) × (has_byte extent offset ≡ true)) }
    ensures others { (extent : Extent) (offset : ℕ) → meeting false extent (Extent.Empty offset) ≡ false }
    ensures sides { (smb : Bool) (a b : Extent) → meeting smb a b ≡ meeting smb b a }
{}

/// On one file two ranges, one of them of an NLM or NFSv4 owner, are compatible exactly if on each byte what both
/// do to it may stand together.
pub fn compatible_by_bytes()
    ensures { (a b : Claim) (extent place : Extent) (exclusive alone : Bool) → a.what ≡ What.Range extent exclusive → b.what ≡ What.Range place alone → a.file ≡ b.file → posix a.owner ≡ true → (compat a b ≡ true) ↔ ((byte : ℕ) → locks_agree a.owner (lock_on a byte) b.owner (lock_on b byte) ≡ true) }
{}

/// What is compatible stays so when it is made weaker, in each row of the matrix. An empty range counts as no more
/// than itself alone: by its bytes, of which it has none, the empty range at 5 would lie within the bytes from 0 to 0,
/// and yet it meets the bytes from 4 to 5 of another open, which those do not.
pub fn compatible_when_weaker()
    ensures left { (a b c : Claim) → weaker a c ≡ true → compat c b ≡ true → compat a b ≡ true }
    ensures right { (a b c : Claim) → weaker b c ≡ true → compat a c ≡ true → compat a b ≡ true }
{}

/// A range of an NLM or NFSv4 owner whose every byte is locked, at least in its mode, by one or another claim of the
/// same names is compatible with whatever all of these are compatible with. It holds for no SMB range: the bytes from
/// 4 to 5 meet an empty range at 5, which neither the bytes from 4 to 4 nor those from 5 to 5 do.
pub fn compatible_in_parts()
    ensures { (a b : Claim) (first last : ℕ) (exclusive : Bool) (parts : List Claim) → a.what ≡ What.Range (Extent.Bytes first last) exclusive → first ≤ last → posix a.owner ≡ true → IsMadeOf a first last exclusive parts → AllByRecursion (λ c. compat c b ≡ true) parts → compat a b ≡ true }
{}

/// To be no more than another is an order.
pub fn within_is_an_order()
    ensures reflexive { (a : Claim) → weaker a a ≡ true }
    ensures transitive { (a b c : Claim) → weaker a b ≡ true → weaker b c ≡ true → weaker a c ≡ true }
{}
