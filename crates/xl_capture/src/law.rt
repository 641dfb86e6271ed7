//! A law of captures, as the contract of a function that does nothing.
ghost use Rattle.std.specs.Prelude.{◌≡◌, ◌++◌, ℕ, Bool, List, Ok};
ghost use Rattle.xl_capture.specs.Capture.{IsNumbered, with_piece, with_lines, no_reading};
ghost use Rattle.xl_capture.specs.declared.capture.Reading.{Reading};

/// A connection's bytes come to the same wherever its `B` lines cut them: two lines in a row that say the same of stores
/// are as one with the bytes of both. At each line of a capture the open connections have distinct numbers.
#[tactic(auto, using(crate::proofs::CutLaws::pieces_join, crate::proofs::NumberLaws::none_left, crate::proofs::NumberLaws::stays_numbered))]
pub fn streams_may_be_cut_anywhere()
    ensures joined { (r : Reading) (stores conn : ℕ) (bytes more : List ℕ) → IsNumbered r → with_piece (with_piece r stores conn bytes) stores conn more ≡ with_piece r stores conn (bytes ++ more) }
    ensures begun { IsNumbered no_reading }
    ensures numbered { (past : Bool) (r s : Reading) (n : ℕ) (lines : List (List ℕ)) → IsNumbered r → with_lines past r n lines ≡ Ok s → IsNumbered s }
{}
