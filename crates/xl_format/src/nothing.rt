//! What takes no bytes.
ghost use Rattle.std.specs.Prelude.{◌≡◌};
ghost use Rattle.xl_rpc.specs.Xdr.{Puts};
ghost use Rattle.xl_format.specs.Formats.{nothing};

use std::alloc::AllocError;
use xl_rpc::XdrOut;

/// Writes nothing (RFC 4506 4.16).
#[tactic(auto, unfolding(crate::specs::Formats::nothing, xl_rpc::specs::Xdr::void))]
pub fn put_nothing(out: &mut XdrOut) -> Result<(), AllocError>
    ensures { Puts result out.old out.new (nothing.spell tt) }
{
    Ok(())
}
