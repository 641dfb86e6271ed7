//! What a front sends, before it has a frame.
ghost use Rattle.std.specs.Prelude.{◌≡◌, ◌≤◌, length, IfOk};
ghost use Rattle.std.specs.List.{AllByRecursion};
ghost use Rattle.xl_base.specs.Limits.{most_message_bytes};
ghost use Rattle.xl_programs.specs.Sent.{sent_to, FitsFrame};

use std::alloc::{AllocError, Global};
use xl_base::{Dest, Out, Sequence};

/// A reply to the connection of this number, without its frame.
pub fn sent_to(alloc: Global, conn: u64, bytes: Vec<u8>) -> Result<Sequence<Out>, AllocError>
    ensures value { IfOk result (λ outs. outs ≡ sent_to conn bytes.items) }
    ensures little { length bytes.items ≤ most_message_bytes → IfOk result (λ outs. AllByRecursion FitsFrame outs) }
{
    let mut outs = Sequence::new(alloc);
    outs.push(Out {
        dest: Dest::Conn(conn),
        to: Sequence::new(alloc),
        bytes: Sequence::from_vec(bytes),
    })?;
    Ok(outs)
}
