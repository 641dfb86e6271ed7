//! Laws of the spellings and readings, as contracts of functions that do nothing.
ghost use Rattle.std.specs.Prelude.{◌≡◌, List, ℕ, ◌++◌};
ghost use Rattle.xl_base.specs.Codec.{IsCodec};
ghost use Rattle.xl_nfs.specs.Compounds.{CompoundHeadItem, compound_head};
ghost use Rattle.xl_nfs.specs.Ops.{OpItem, op};
ghost use Rattle.xl_nfs.specs.Results.{ResultItem, nfs_result};
ghost use Rattle.xl_nfs.specs.Callbacks.{RecallReplyItem, recall_reply};

/// What is read of a COMPOUND's head, of an operation, of a result or of the reply to a recall is spelled so, and what is
/// spelled so is read again, whatever follows.
pub fn spellings_are_read()
    ensures of_heads { IsCodec compound_head.at compound_head.spell compound_head.Fit }
    ensures of_ops { IsCodec op.at op.spell op.Fit }
    ensures of_results { IsCodec nfs_result.at nfs_result.spell nfs_result.Fit }
    ensures of_recall_replies { IsCodec recall_reply.at recall_reply.spell recall_reply.Fit }
{}

/// No spelling of one of them is a proper beginning of another's of its kind.
pub fn one_spelling()
    ensures of_heads { (a b : CompoundHeadItem) (x y : List ℕ) → compound_head.Fit a → compound_head.Fit b → compound_head.spell a ++ x ≡ compound_head.spell b ++ y → (a ≡ b) × (x ≡ y) }
    ensures of_ops { (a b : OpItem) (x y : List ℕ) → op.Fit a → op.Fit b → op.spell a ++ x ≡ op.spell b ++ y → (a ≡ b) × (x ≡ y) }
    ensures of_results { (a b : ResultItem) (x y : List ℕ) → nfs_result.Fit a → nfs_result.Fit b → nfs_result.spell a ++ x ≡ nfs_result.spell b ++ y → (a ≡ b) × (x ≡ y) }
    ensures of_recall_replies { (a b : RecallReplyItem) (x y : List ℕ) → recall_reply.Fit a → recall_reply.Fit b → recall_reply.spell a ++ x ≡ recall_reply.spell b ++ y → (a ≡ b) × (x ≡ y) }
{}
