//! Laws of the spellings and readings, as contracts of functions that do nothing.
ghost use Rattle.std.specs.Prelude.{◌≡◌, ℕ, List, ◌++◌};
ghost use Rattle.xl_base.specs.Codec.{IsCodec};
ghost use Rattle.xl_nlm.specs.Items.{CallItem, ReplyItem};
ghost use Rattle.xl_nlm.specs.Arguments.{IsCallOf, arguments, arguments_at};
ghost use Rattle.xl_nlm.specs.Replies.{IsReplyTo, results, results_at};

/// What is read of a procedure's arguments or results is spelled so, and what is spelled so is read again, whatever
/// follows.
pub fn spellings_are_read()
    ensures of_calls { (proc : ℕ) → IsCodec (arguments_at proc) arguments (IsCallOf proc) }
    ensures of_replies { (proc : ℕ) → IsCodec (results_at proc) results (IsReplyTo proc) }
{}

/// For one procedure no arguments are a proper beginning of others, and no results are.
pub fn one_spelling()
    ensures of_calls { (proc : ℕ) (a b : CallItem) (x y : List ℕ) → IsCallOf proc a → IsCallOf proc b → arguments a ++ x ≡ arguments b ++ y → (a ≡ b) × (x ≡ y) }
    ensures of_replies { (proc : ℕ) (a b : ReplyItem) (x y : List ℕ) → IsReplyTo proc a → IsReplyTo proc b → results a ++ x ≡ results b ++ y → (a ≡ b) × (x ≡ y) }
{}
