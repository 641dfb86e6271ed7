//! Calls and results, written to XDR.
ghost use Rattle.std.specs.Prelude.{◌≡◌, ℕ, ◌++◌, OnOk, OnErr};
ghost use Rattle.xl_rpc.specs.Xdr.{Puts, IsReadAgain};
ghost use Rattle.xl_nlm.specs.Items.{shown_lock, shown_test_args, shown_lock_args, shown_cancel_args, shown_unlock_args, shown_share_args, shown_notify, shown_call, shown_holder, shown_test_res, shown_res, shown_share_res, shown_reply};
ghost use Rattle.xl_nlm.specs.Arguments.{CallFits, lock, test_args, lock_args, cancel_args, unlock_args, rights, share_args, notify, procedure_of, arguments, arguments_at};
ghost use Rattle.xl_nlm.specs.Replies.{IsReplyTo, ReplyFits, status, holder, test_res, res, share_res, results, results_at};

use crate::item::{
    CancelArgs, Holder, Lock, LockArgs, NlmCall, NlmReply, NlmStatus, Notify, Res, Rights,
    ShareArgs, ShareRes, TestArgs, TestRes, UnlockArgs,
};
use std::alloc::AllocError;
use xl_format::{put_nothing, put_record};
use xl_rpc::{XdrOut, put_whole};

#[tactic(auto, unfolding(crate::specs::Arguments::lock))]
fn put_lock(out: &mut XdrOut, value: &Lock) -> Result<(), AllocError>
    requires { lock.Fit (shown_lock value.now) }
    ensures { Puts result out.old out.new (lock.spell (shown_lock value.now)) }
{
    put_record!(out;
        XdrOut::opaque: value.caller_name, XdrOut::opaque: value.fh, XdrOut::opaque: value.oh,
        XdrOut::i32: value.svid, XdrOut::u64: value.l_offset, XdrOut::u64: value.l_len
    )
}

#[tactic(auto, unfolding(crate::specs::Arguments::test_args))]
pub(crate) fn put_test_args(out: &mut XdrOut, value: &TestArgs) -> Result<(), AllocError>
    requires { test_args.Fit (shown_test_args value.now) }
    ensures { Puts result out.old out.new (test_args.spell (shown_test_args value.now)) }
{
    put_record!(out; XdrOut::opaque: value.cookie, XdrOut::boolean: value.exclusive, put_lock: &value.lock)
}

#[tactic(auto, unfolding(crate::specs::Arguments::lock_args))]
fn put_lock_args(out: &mut XdrOut, value: &LockArgs) -> Result<(), AllocError>
    requires { lock_args.Fit (shown_lock_args value.now) }
    ensures { Puts result out.old out.new (lock_args.spell (shown_lock_args value.now)) }
{
    put_record!(out;
        XdrOut::opaque: value.cookie, XdrOut::boolean: value.block, XdrOut::boolean: value.exclusive,
        put_lock: &value.lock, XdrOut::boolean: value.reclaim, XdrOut::i32: value.state
    )
}

#[tactic(auto, unfolding(crate::specs::Arguments::cancel_args))]
fn put_cancel_args(out: &mut XdrOut, value: &CancelArgs) -> Result<(), AllocError>
    requires { cancel_args.Fit (shown_cancel_args value.now) }
    ensures { Puts result out.old out.new (cancel_args.spell (shown_cancel_args value.now)) }
{
    put_record!(out;
        XdrOut::opaque: value.cookie, XdrOut::boolean: value.block, XdrOut::boolean: value.exclusive,
        put_lock: &value.lock
    )
}

#[tactic(auto, unfolding(crate::specs::Arguments::unlock_args))]
fn put_unlock_args(out: &mut XdrOut, value: &UnlockArgs) -> Result<(), AllocError>
    requires { unlock_args.Fit (shown_unlock_args value.now) }
    ensures { Puts result out.old out.new (unlock_args.spell (shown_unlock_args value.now)) }
{
    put_record!(out; XdrOut::opaque: value.cookie, put_lock: &value.lock)
}

/// Reading 1, writing 2, both 3, neither 0.
#[tactic(auto, unfolding(crate::specs::Arguments::rights))]
fn put_rights(out: &mut XdrOut, value: Rights) -> Result<(), AllocError>
    ensures { Puts result out.old out.new (rights.spell value) }
{
    out.u32(match (value.read, value.write) {
        (false, false) => 0,
        (true, false) => 1,
        (false, true) => 2,
        (true, true) => 3,
    })
}

#[tactic(auto, unfolding(crate::specs::Arguments::share_args))]
fn put_share_args(out: &mut XdrOut, value: &ShareArgs) -> Result<(), AllocError>
    requires { share_args.Fit (shown_share_args value.now) }
    ensures { Puts result out.old out.new (share_args.spell (shown_share_args value.now)) }
{
    put_record!(out;
        XdrOut::opaque: value.cookie, XdrOut::opaque: value.caller_name, XdrOut::opaque: value.fh,
        XdrOut::opaque: value.oh, put_rights: value.mode, put_rights: value.access, XdrOut::boolean: value.reclaim
    )
}

#[tactic(auto, unfolding(crate::specs::Arguments::notify))]
fn put_notify(out: &mut XdrOut, value: &Notify) -> Result<(), AllocError>
    requires { notify.Fit (shown_notify value.now) }
    ensures { Puts result out.old out.new (notify.spell (shown_notify value.now)) }
{
    put_record!(out; XdrOut::opaque: value.name, XdrOut::i32: value.state)
}

fn put_arguments(out: &mut XdrOut, call: &NlmCall) -> Result<(), AllocError>
    requires { CallFits (shown_call call.now) }
    ensures { Puts result out.old out.new (arguments (shown_call call.now)) }
{
    match call {
        NlmCall::Null => put_nothing(out),
        NlmCall::Test(args) | NlmCall::Granted(args) => put_test_args(out, args),
        NlmCall::Lock(args) | NlmCall::NmLock(args) => put_lock_args(out, args),
        NlmCall::Cancel(args) => put_cancel_args(out, args),
        NlmCall::Unlock(args) => put_unlock_args(out, args),
        NlmCall::Share(args) | NlmCall::Unshare(args) => put_share_args(out, args),
        NlmCall::FreeAll(args) => put_notify(out, args),
    }
}

/// Writes the arguments of a call, whose names and netobjs have at most 1,024 bytes. Want of memory leaves what was
/// written before as it was.
#[tactic(auto, using(xl_rpc::proofs::XdrLaws::taken_back, crate::proofs::AgainLaws::call_again))]
pub fn write(out: &mut XdrOut, call: &NlmCall) -> Result<(), AllocError>
    requires { CallFits (shown_call call.now) }
    ensures ok { OnOk result (out.new ≡ out.old ++ arguments (shown_call call.now)) }
    // What is written is read again, whatever follows.
    ensures again { OnOk result (IsReadAgain (arguments_at (procedure_of (shown_call call.now))) (shown_call call.now) out.old out.new) }
    ensures err { OnErr result (out.new ≡ out.old) }
{
    put_whole!(out; put_arguments(out, call))
}

#[tactic(auto, unfolding(crate::specs::Replies::status))]
fn put_status(out: &mut XdrOut, value: NlmStatus) -> Result<(), AllocError>
    ensures { Puts result out.old out.new (status.spell value) }
{
    out.u32(match value {
        NlmStatus::Granted => 0,
        NlmStatus::Denied => 1,
        NlmStatus::DeniedNolocks => 2,
        NlmStatus::Blocked => 3,
        NlmStatus::DeniedGracePeriod => 4,
        NlmStatus::Deadlck => 5,
        NlmStatus::Rofs => 6,
        NlmStatus::StaleFh => 7,
        NlmStatus::Fbig => 8,
        NlmStatus::Failed => 9,
    })
}

#[tactic(auto, unfolding(crate::specs::Replies::holder))]
fn put_holder(out: &mut XdrOut, value: &Holder) -> Result<(), AllocError>
    requires { holder.Fit (shown_holder value.now) }
    ensures { Puts result out.old out.new (holder.spell (shown_holder value.now)) }
{
    put_record!(out;
        XdrOut::boolean: value.exclusive, XdrOut::i32: value.svid, XdrOut::opaque: value.oh,
        XdrOut::u64: value.l_offset, XdrOut::u64: value.l_len
    )
}

#[tactic(auto, unfolding(crate::specs::Replies::test_res))]
fn put_test_res(out: &mut XdrOut, value: &TestRes) -> Result<(), AllocError>
    requires { test_res.Fit (shown_test_res value.now) }
    ensures { Puts result out.old out.new (test_res.spell (shown_test_res value.now)) }
{
    out.opaque(value.cookie)?;
    put_status(out, value.stat)?;
    match &value.holder {
        None => put_nothing(out)?,
        Some(held) => put_holder(out, held)?,
    }
    Ok(())
}

#[tactic(auto, unfolding(crate::specs::Replies::res))]
fn put_res(out: &mut XdrOut, value: &Res) -> Result<(), AllocError>
    requires { res.Fit (shown_res value.now) }
    ensures { Puts result out.old out.new (res.spell (shown_res value.now)) }
{
    put_record!(out; XdrOut::opaque: value.cookie, put_status: value.stat)
}

#[tactic(auto, unfolding(crate::specs::Replies::share_res))]
fn put_share_res(out: &mut XdrOut, value: &ShareRes) -> Result<(), AllocError>
    requires { share_res.Fit (shown_share_res value.now) }
    ensures { Puts result out.old out.new (share_res.spell (shown_share_res value.now)) }
{
    put_record!(out; XdrOut::opaque: value.cookie, put_status: value.stat, XdrOut::i32: value.sequence)
}

fn put_results(out: &mut XdrOut, reply: &NlmReply) -> Result<(), AllocError>
    requires { ReplyFits (shown_reply reply.now) }
    ensures { Puts result out.old out.new (results (shown_reply reply.now)) }
{
    match reply {
        NlmReply::Void => put_nothing(out),
        NlmReply::Test(value) => put_test_res(out, value),
        NlmReply::Res(value) => put_res(out, value),
        NlmReply::Share(value) => put_share_res(out, value),
    }
}

/// Writes the results of a call, whose cookie and owner have at most 1,024 bytes and which have a holder just if the
/// status is Denied. Want of memory leaves what was written before as it was.
#[tactic(auto, using(xl_rpc::proofs::XdrLaws::taken_back, crate::proofs::AgainLaws::reply_again))]
pub fn write_result(out: &mut XdrOut, reply: &NlmReply) -> Result<(), AllocError>
    requires { ReplyFits (shown_reply reply.now) }
    ensures ok { OnOk result (out.new ≡ out.old ++ results (shown_reply reply.now)) }
    // What is written is read again as the results of each procedure that has such results, whatever follows.
    ensures again { (proc : ℕ) → IsReplyTo proc (shown_reply reply.now) → OnOk result (IsReadAgain (results_at proc) (shown_reply reply.now) out.old out.new) }
    ensures err { OnErr result (out.new ≡ out.old) }
{
    put_whole!(out; put_results(out, reply))
}
