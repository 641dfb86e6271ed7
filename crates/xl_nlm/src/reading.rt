//! Calls, read from XDR.
ghost use Rattle.std.specs.Prelude.{◌≡◌, ℕ, List, ◌++◌, IfOk, Ok, IsTrue};
ghost use Rattle.xl_base.specs.Codec.{Advances};
ghost use Rattle.xl_nlm.specs.Items.{CallItem, shown_lock, shown_test_args, shown_lock_args, shown_cancel_args, shown_unlock_args, shown_share_args, shown_notify, shown_call};
ghost use Rattle.xl_nlm.specs.Arguments.{is_known, procedure_of, arguments, IsCallOf, CallFits, name, lock, test_args, lock_args, cancel_args, unlock_args, rights, share_args, notify, arguments_at};

use crate::item::{
    CancelArgs, Lock, LockArgs, NlmCall, Notify, Rights, ShareArgs, TestArgs, UnlockArgs,
};
use crate::procedure;
use xl_format::read_record;
use xl_rpc::{RpcBad, Xdr};

const MAX_TEXT_BYTES: u32 = 1024;

/// A name or a netobj.
pub(crate) fn read_text<'a>(xdr: &mut Xdr<'a>) -> Result<&'a [u8], RpcBad>
    ensures { Advances (λ s. s.now) result xdr.old.rest.now xdr.new.rest.now (name.at xdr.old.rest.now) }
{
    xdr.opaque(MAX_TEXT_BYTES)
}

#[tactic(auto, unfolding(crate::specs::Arguments::lock))]
fn read_lock<'a>(xdr: &mut Xdr<'a>) -> Result<Lock<'a>, RpcBad>
    ensures { Advances shown_lock result xdr.old.rest.now xdr.new.rest.now (lock.at xdr.old.rest.now) }
{
    read_record!(xdr; Lock {
        caller_name: read_text, fh: read_text, oh: read_text, svid: Xdr::i32, l_offset: Xdr::u64, l_len: Xdr::u64
    })
}

#[tactic(auto, unfolding(crate::specs::Arguments::test_args))]
fn read_test_args<'a>(xdr: &mut Xdr<'a>) -> Result<TestArgs<'a>, RpcBad>
    ensures { Advances shown_test_args result xdr.old.rest.now xdr.new.rest.now (test_args.at xdr.old.rest.now) }
{
    read_record!(xdr; TestArgs { cookie: read_text, exclusive: Xdr::boolean, lock: read_lock })
}

#[tactic(auto, unfolding(crate::specs::Arguments::lock_args))]
fn read_lock_args<'a>(xdr: &mut Xdr<'a>) -> Result<LockArgs<'a>, RpcBad>
    ensures { Advances shown_lock_args result xdr.old.rest.now xdr.new.rest.now (lock_args.at xdr.old.rest.now) }
{
    read_record!(xdr; LockArgs {
        cookie: read_text, block: Xdr::boolean, exclusive: Xdr::boolean, lock: read_lock, reclaim: Xdr::boolean, state: Xdr::i32
    })
}

#[tactic(auto, unfolding(crate::specs::Arguments::cancel_args))]
fn read_cancel_args<'a>(xdr: &mut Xdr<'a>) -> Result<CancelArgs<'a>, RpcBad>
    ensures { Advances shown_cancel_args result xdr.old.rest.now xdr.new.rest.now (cancel_args.at xdr.old.rest.now) }
{
    read_record!(xdr; CancelArgs { cookie: read_text, block: Xdr::boolean, exclusive: Xdr::boolean, lock: read_lock })
}

#[tactic(auto, unfolding(crate::specs::Arguments::unlock_args))]
fn read_unlock_args<'a>(xdr: &mut Xdr<'a>) -> Result<UnlockArgs<'a>, RpcBad>
    ensures { Advances shown_unlock_args result xdr.old.rest.now xdr.new.rest.now (unlock_args.at xdr.old.rest.now) }
{
    read_record!(xdr; UnlockArgs { cookie: read_text, lock: read_lock })
}

/// Reading 1, writing 2, both 3, neither 0.
#[tactic(auto, unfolding(crate::specs::Arguments::rights))]
fn read_rights(xdr: &mut Xdr) -> Result<Rights, RpcBad>
    ensures { Advances (λ r. r) result xdr.old.rest.now xdr.new.rest.now (rights.at xdr.old.rest.now) }
{
    let mut at = *xdr;
    let (read, write) = match at.u32()? {
        0 => (false, false),
        1 => (true, false),
        2 => (false, true),
        3 => (true, true),
        _ => return Err(RpcBad::Value),
    };
    *xdr = at;
    Ok(Rights { read, write })
}

#[tactic(auto, unfolding(crate::specs::Arguments::share_args))]
fn read_share_args<'a>(xdr: &mut Xdr<'a>) -> Result<ShareArgs<'a>, RpcBad>
    ensures { Advances shown_share_args result xdr.old.rest.now xdr.new.rest.now (share_args.at xdr.old.rest.now) }
{
    read_record!(xdr; ShareArgs {
        cookie: read_text, caller_name: read_text, fh: read_text, oh: read_text,
        mode: read_rights, access: read_rights, reclaim: Xdr::boolean
    })
}

#[tactic(auto, unfolding(crate::specs::Arguments::notify))]
fn read_notify<'a>(xdr: &mut Xdr<'a>) -> Result<Notify<'a>, RpcBad>
    ensures { Advances shown_notify result xdr.old.rest.now xdr.new.rest.now (notify.at xdr.old.rest.now) }
{
    read_record!(xdr; Notify { name: read_text, state: Xdr::i32 })
}

#[tactic(auto, unfolding(crate::specs::Arguments::arguments_of, xl_format::specs::Formats::nothing))]
fn read_arguments<'a>(proc: u32, args: &mut Xdr<'a>) -> Result<NlmCall<'a>, RpcBad>
    ensures { Advances shown_call result args.old.rest.now args.new.rest.now (arguments_at proc args.old.rest.now) }
{
    match proc {
        procedure::NULL => Ok(NlmCall::Null),
        procedure::TEST => read_test_args(args).map(NlmCall::Test),
        procedure::LOCK => read_lock_args(args).map(NlmCall::Lock),
        procedure::CANCEL => read_cancel_args(args).map(NlmCall::Cancel),
        procedure::UNLOCK => read_unlock_args(args).map(NlmCall::Unlock),
        procedure::GRANTED => read_test_args(args).map(NlmCall::Granted),
        procedure::SHARE => read_share_args(args).map(NlmCall::Share),
        procedure::UNSHARE => read_share_args(args).map(NlmCall::Unshare),
        procedure::NM_LOCK => read_lock_args(args).map(NlmCall::NmLock),
        procedure::FREE_ALL => read_notify(args).map(NlmCall::FreeAll),
        _ => Err(RpcBad::Value),
    }
}

/// Whether the arguments and the results of a procedure are known here: NULL to GRANTED, and SHARE to FREE_ALL.
pub fn is_known(proc: u32) -> bool
    ensures { result ≡ is_known proc }
{
    proc <= procedure::GRANTED || (procedure::SHARE <= proc && proc <= procedure::FREE_ALL)
}

/// The arguments of a procedure whose arguments are known, read from the front; what stands behind them is left. A
/// fault is the first in reading order: Short if the bytes end within them, Pad and Bool as in XDR, TooLong if a
/// name or a netobj has more than 1,024 bytes, Value if a mode or an access is above 3. It leaves the reader as it
/// was.
pub fn read<'a>(proc: u32, args: &mut Xdr<'a>) -> Result<NlmCall<'a>, RpcBad>
    requires { IsTrue (is_known proc) }
    // What is read is spelled so.
    ensures found { IfOk result (λ c. (args.old.rest.now ≡ arguments (shown_call c) ++ args.new.rest.now) × IsCallOf proc (shown_call c)) }
    // What is spelled so is read, whatever follows.
    ensures only { (c : CallItem) (rest : List ℕ) → procedure_of c ≡ proc → CallFits c → args.old.rest.now ≡ arguments c ++ rest → Advances shown_call result args.old.rest.now args.new.rest.now (Ok (c, rest)) }
    // Which fault it is.
    ensures exact { Advances shown_call result args.old.rest.now args.new.rest.now (arguments_at proc args.old.rest.now) }
{
    read_arguments(proc, args)
}
