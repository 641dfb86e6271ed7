//! What stands before a COMPOUND's operations.
ghost use Rattle.std.specs.Prelude.{◌≡◌, ◌++◌, ℕ, List, Ok, IfOk};
ghost use Rattle.xl_base.specs.Codec.{Advances};
ghost use Rattle.xl_nfs.specs.Compounds.{CompoundHeadItem, shown_compound_head, compound_head, compound_head_at};

use crate::basics::read_text;
use xl_format::read_record;
use xl_rpc::{RpcBad, Xdr};

/// What stands before a COMPOUND's operations (COMPOUND4args).
#[derive(Clone, Copy)]
pub struct CompoundHead<'a> {
    /// What the reply repeats, at most 1,024 bytes.
    pub tag: &'a [u8],
    /// The minor version; 0 is the one that is served.
    pub minorversion: u32,
    /// How many operations stand behind.
    pub count: u32,
}

#[tactic(auto, unfolding(crate::specs::Compounds::compound_head))]
fn read_compound_head<'a>(xdr: &mut Xdr<'a>) -> Result<CompoundHead<'a>, RpcBad>
    ensures { Advances shown_compound_head result xdr.old.rest.now xdr.new.rest.now (compound_head.at xdr.old.rest.now) }
{
    read_record!(xdr; CompoundHead { tag: read_text, minorversion: Xdr::u32, count: Xdr::u32 })
}

/// The head of a COMPOUND's arguments, read from the front; the operations behind it are left. A fault is the first in
/// reading order: Short if the bytes end within it, TooLong if the tag has more than 1,024 bytes, Pad if its
/// padding is not zero. It leaves the reader as it was.
pub fn read_head<'a>(args: &mut Xdr<'a>) -> Result<CompoundHead<'a>, RpcBad>
    // What is read is spelled so.
    ensures found { IfOk result (λ h. (args.old.rest.now ≡ compound_head.spell (shown_compound_head h) ++ args.new.rest.now) × compound_head.Fit (shown_compound_head h)) }
    // What is spelled so is read, whatever follows.
    ensures only { (h : CompoundHeadItem) (rest : List ℕ) → compound_head.Fit h → args.old.rest.now ≡ compound_head.spell h ++ rest → Advances shown_compound_head result args.old.rest.now args.new.rest.now (Ok (h, rest)) }
    // Which fault it is.
    ensures exact { Advances shown_compound_head result args.old.rest.now args.new.rest.now (compound_head_at args.old.rest.now) }
{
    read_compound_head(args)
}
