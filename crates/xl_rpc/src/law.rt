//! Laws of the spellings and readings, as contracts of functions that do nothing.
ghost use Rattle.std.specs.Prelude.{◌≡◌, ℕ, ◌<◌, ◌≤◌, ◌^◌, List, ◌++◌, length};
ghost use Rattle.std.specs.Int.{w32};
ghost use Rattle.std.specs.Int.RustNames.{FitsSigned};
ghost use Rattle.xl_base.specs.Codec.{IsCodec, nothing_at};
ghost use Rattle.xl_rpc.specs.declared.reply.Verdict.{Verdict};
ghost use Rattle.xl_rpc.specs.declared.fault.RpcBad.{RpcBad};
ghost use Rattle.xl_rpc.specs.Xdr.{void, words, WordsFit, words_at, unsigned, hyper, signed, boolean, fixed, opaque, UnsignedFits, HyperFits, SignedFits, BooleanFits, OpaqueFits, unsigned_at, hyper_at, signed_at, boolean_at, opaque_fixed_at, opaque_at};
ghost use Rattle.xl_rpc.specs.Calls.{HeadItem, HeadFits, call, call_at};
ghost use Rattle.xl_rpc.specs.Replies.{VerdictFits, reply, reply_at};

/// What is read of an item is spelled so, and what is spelled so is read again, whatever follows (RFC 4506, RFC 5531).
pub fn spellings_are_read()
    ensures unsigned_integer { IsCodec unsigned_at unsigned UnsignedFits }
    ensures hyper_integer { IsCodec hyper_at hyper HyperFits }
    ensures signed_integer { IsCodec signed_at signed SignedFits }
    ensures flag { IsCodec boolean_at boolean BooleanFits }
    ensures fixed_opaque { (n : ℕ) → IsCodec (opaque_fixed_at n) fixed (λ bytes. length bytes ≡ n) }
    ensures variable_opaque { (most : ℕ) → most < 2 ^ 32 → IsCodec (opaque_at most) opaque (OpaqueFits most) }
    ensures words { IsCodec words_at words WordsFit }
    ensures nothing { IsCodec {E = RpcBad} nothing_at (λ _. void) (λ _. Unit {0}) }
    ensures calls { IsCodec call_at call HeadFits }
    ensures replies { IsCodec reply_at (λ r. reply r.0 r.1) (λ r. UnsignedFits r.0 × VerdictFits r.1) }
{}

/// No head of a call is a proper beginning of another one's spelling.
pub fn one_call_spelling()
    ensures { (a b : HeadItem) (x y : List ℕ) → HeadFits a → HeadFits b → call a ++ x ≡ call b ++ y → (a ≡ b) × (x ≡ y) }
{}

/// No reply up to its results is a proper beginning of another one's spelling.
pub fn one_reply_spelling()
    ensures { (m n : ℕ) (v w : Verdict) (x y : List ℕ) → UnsignedFits m → VerdictFits v → UnsignedFits n → VerdictFits w → reply m v ++ x ≡ reply n w ++ y → (m ≡ n) × (v ≡ w) × (x ≡ y) }
{}
