//! The call that tells a client that its waiting lock is granted.
ghost use Rattle.std.specs.Prelude.{◌≡◌, IfOk};
ghost use Rattle.std.specs.Int.{w64};
ghost use Rattle.xl_base.specs.Codec.{big_endian};
ghost use Rattle.xl_nlm.specs.Items.{shown_lock};
ghost use Rattle.xl_nlm.specs.Arguments.{LockFits};
ghost use Rattle.xl_nlm.specs.Granted.{granted_record};

use crate::item::{Lock, TestArgs};
use crate::procedure;
use crate::writing::put_test_args;
use std::alloc::{AllocError, Global};
use xl_programs::{NLM, NLM_VERSION};
use xl_rpc::{Auth, CallHead, XdrOut, write_call};

/// The record of a call of GRANTED with this number, for a lock that is exclusive or not. Its xid is the number, its
/// cookie the number in eight bytes, its credential and verifier are AUTH_NONE.
#[tactic(auto, unfolding(xl_base::specs::Codec::big_endian, xl_rpc::specs::Calls::HeadFits, crate::specs::Arguments::test_args))]
pub fn granted_call(
    alloc: Global,
    number: u32,
    exclusive: bool,
    lock: &Lock,
) -> Result<Vec<u8>, AllocError>
    requires { LockFits (shown_lock lock.now) }
    ensures { IfOk result (λ bytes. bytes.items ≡ granted_record number exclusive (shown_lock lock.now)) }
{
    let none = Auth {
        flavor: 0,
        body: &[],
    };
    let head = CallHead {
        xid: number,
        prog: NLM,
        vers: NLM_VERSION,
        proc: procedure::GRANTED,
        cred: none,
        verf: none,
    };
    let cookie = u64::from(number).to_be_bytes();
    let args = TestArgs {
        cookie: &cookie,
        exclusive,
        lock: *lock,
    };
    let mut out = XdrOut::new(alloc);
    write_call(&mut out, &head)?;
    put_test_args(&mut out, &args)?;
    Ok(out.done())
}
