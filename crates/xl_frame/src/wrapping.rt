//! Messages in their frames.
ghost use Rattle.std.specs.Prelude.{◌≡◌, ◌≤◌, length, IfOk};
ghost use Rattle.xl_base.specs.Limits.{most_message_bytes};
ghost use Rattle.xl_frame.specs.Frames.{header, wrapped};

use std::alloc::{AllocError, Global};
use xl_base::Kind;

/// The mark of the last fragment of a record.
pub(crate) const LAST: u32 = 1 << 31;

/// The message of at most 65,536 bytes in one frame: for ONC RPC a record of one fragment, which is the last
/// (RFC 5531 11), for SMB 2 a packet of its transport (MS-SMB2 2.1).
pub fn wrap(alloc: Global, kind: Kind, bytes: &[u8]) -> Result<Vec<u8>, AllocError>
    requires { length bytes.now ≤ most_message_bytes }
    ensures { IfOk result (λ v. v.items ≡ wrapped kind bytes.now) }
{
    let mut frame = Vec::with_capacity(alloc, bytes.len() + 4)?;
    frame.extend_from_slice(&header_of(kind, bytes.len() as u32))?;
    frame.extend_from_slice(bytes)?;
    Ok(frame)
}

/// The four bytes in front of a message of so many bytes.
fn header_of(kind: Kind, length: u32) -> [u8; 4]
    requires { length ≤ most_message_bytes }
    ensures { result ≡ header kind length }
{
    match kind {
        Kind::Rpc => (LAST + length).to_be_bytes(),
        Kind::Smb => {
            let [_, high, middle, low] = length.to_be_bytes();
            [0, high, middle, low]
        }
    }
}
