//! Calls and results of the Network Lock Manager (XNFS C702, chapter 14).
use crate::wire::{has_bytes, is_again, is_refused};
use std::alloc::{AllocError, Global};
use xl_nlm::*;
use xl_rpc::{Xdr, XdrOut};

/// Behind 00 arguments, behind 01 results, each behind the procedure and the number of the fault that refuses them. Those
/// that are read have 00, and a word behind them.
pub(crate) const MESSAGES: &str = "\
00 01 01
00 01 04 00000401
00 01 01 00000400
00 01 02 00000003 41424301
00 01 03 00000000 00000002
00 02 02 00000000 00000000 00000001 00000001 61000000 00000002 01020003
00 02 04 00000000 00000000 00000001 00000401
00 03 03 00000000 00000001 00000003
00 04 01 00000000 00000001 61000000 00000000 00000000 00000007 00000000 00000000 00000000
00 14 07 00000000 00000000 00000000 00000000 00000004 00000000 00000000
00 15 07 00000000 00000000 00000000 00000000 00000003 00000004
00 15 03 00000000 00000000 00000000 00000000 00000003 00000003 00000002
00 17 01 00000000
01 02 07 00000000 0000000a
01 01 01 00000000 00000001
01 01 03 00000000 00000001 00000002
01 15 01 00000000 00000000
00 00 00 00000009
00 01 00 00000000 00000001 00000000 00000000 00000000 ffffffff 00000000 00000001 00000000 00000000 00000009
# of caller a, handle XLK1 and 1, owner empty, svid 7, offset 0, length 10; state 3
00 02 00 00000000 00000000 00000001 00000001 61000000 00000008 584c4b31 00000001 00000000 00000007 \
0000000000000000 000000000000000a 00000000 00000003 00000009
00 03 00 00000000 00000001 00000000 00000000 00000000 00000000 ffffffff 00000000 00000001 00000000 00000000 00000009
00 04 00 00000001 6b000000 00000000 00000000 00000000 ffffffff 00000000 00000001 00000000 00000000 00000009
00 05 00 00000000 00000001 00000000 00000000 00000000 ffffffff 00000000 00000001 00000000 00000000 00000009
00 14 00 00000000 00000000 00000000 00000001 6f000000 00000001 00000002 00000001 00000009
00 15 00 00000000 00000000 00000000 00000001 6f000000 00000001 00000002 00000001 00000009
00 15 00 00000000 00000000 00000000 00000001 6f000000 00000003 00000002 00000000 00000009
00 16 00 00000000 00000000 00000001 00000001 61000000 00000008 584c4b31 00000001 00000000 00000007 \
0000000000000000 000000000000000a 00000000 00000003 00000009
00 17 00 00000001 61000000 00000005 00000009
01 17 00 00000009
01 01 00 00000000 00000001 00000001 00000007 00000001 6f000000 00000000 00000005 00000000 00000000 00000009
01 01 00 00000000 00000008 00000009
01 01 00 00000000 00000003 00000009
01 05 00 00000001 6b000000 00000003 00000009
01 14 00 00000000 00000009 ffffffff 00000009";

const HANDLE: &[u8] = b"XLK1\0\0\0\x01";

/// Whether a lock is that of the vectors in which it has names.
fn is_named(lock: &Lock) -> bool {
    [lock.caller_name, lock.fh, lock.oh] == [b"a".as_slice(), HANDLE, &[]]
        && (lock.svid, lock.l_offset, lock.l_len) == (7, 0, 10)
}

/// Whether a lock is that of the vectors in which it has no names.
fn is_nameless(lock: &Lock) -> bool {
    lock.caller_name.is_empty()
        && lock.fh.is_empty()
        && lock.oh.is_empty()
        && (lock.svid, lock.l_offset, lock.l_len) == (-1, 1, 0)
}

fn is_test(args: &TestArgs) -> bool {
    args.cookie.is_empty() && args.exclusive && is_nameless(&args.lock)
}

fn is_lock(args: &LockArgs) -> bool {
    args.cookie.is_empty()
        && (args.block, args.exclusive, args.reclaim, args.state) == (false, true, false, 3)
        && is_named(&args.lock)
}

fn is_cancel(args: &CancelArgs) -> bool {
    (args.cookie.len(), args.block, args.exclusive) == (0, true, false) && is_nameless(&args.lock)
}

fn is_unlock(args: &UnlockArgs) -> bool {
    args.cookie == b"k".as_slice() && is_nameless(&args.lock)
}

/// Whether it is that of the vectors, whose mode is of reading where it is a reclaim, and of both where it is none.
fn is_share(args: &ShareArgs) -> bool {
    [args.cookie, args.caller_name, args.fh, args.oh] == [&[], &[], &[], b"o".as_slice()]
        && (args.mode.read, args.mode.write) == (true, !args.reclaim)
        && (args.access.read, args.access.write) == (false, true)
}

/// The procedure of a call, and whether the call is that of its vector.
fn meaning_of(call: &NlmCall) -> (u32, bool) {
    match call {
        NlmCall::Null => (0, true),
        NlmCall::Test(args) => (1, is_test(args)),
        NlmCall::Lock(args) => (2, is_lock(args)),
        NlmCall::Cancel(args) => (3, is_cancel(args)),
        NlmCall::Unlock(args) => (4, is_unlock(args)),
        NlmCall::Granted(args) => (5, is_test(args)),
        NlmCall::Share(args) => (20, is_share(args)),
        NlmCall::Unshare(args) => (21, is_share(args)),
        NlmCall::NmLock(args) => (22, is_lock(args)),
        NlmCall::FreeAll(args) => (23, (args.name, args.state) == (b"a".as_slice(), 5)),
    }
}

fn is_held(held: &Holder) -> bool {
    (held.exclusive, held.svid, held.l_offset, held.l_len) == (true, 7, 5, 0)
        && held.oh == b"o".as_slice()
}

fn is_tested(answer: &TestRes) -> bool {
    match (answer.stat, &answer.holder) {
        (NlmStatus::Denied, Some(held)) => answer.cookie.is_empty() && is_held(held),
        (NlmStatus::Fbig | NlmStatus::Blocked, None) => answer.cookie.is_empty(),
        _ => false,
    }
}

fn is_blocked(answer: &Res) -> bool {
    answer.cookie == b"k".as_slice() && matches!(answer.stat, NlmStatus::Blocked)
}

fn is_shared(answer: &ShareRes) -> bool {
    (answer.cookie.len(), answer.sequence) == (0, -1) && matches!(answer.stat, NlmStatus::Failed)
}

/// A procedure that has such results, and whether they are those of its vectors.
fn meaning_of_result(reply: &NlmReply) -> (u32, bool) {
    match reply {
        NlmReply::Void => (23, true),
        NlmReply::Test(answer) => (1, is_tested(answer)),
        NlmReply::Res(answer) => (5, is_blocked(answer)),
        NlmReply::Share(answer) => (20, is_shared(answer)),
    }
}

/// Whether arguments are read as what they mean and written as they are, or refused for this fault and left.
fn is_call(out: &mut XdrOut, proc: u32, number: u8, bytes: &[u8]) -> Result<bool, AllocError> {
    if !is_known(proc) {
        return Ok(false);
    }
    let mut args = Xdr::new(bytes);
    match read(proc, &mut args) {
        Ok(call) => {
            write(out, &call)?;
            Ok(
                number == 0
                    && meaning_of(&call) == (proc, true)
                    && is_again(args.left(), out, bytes),
            )
        }
        Err(fault) => Ok(is_refused(fault, number, &args, bytes)),
    }
}

/// Whether results are read as what they mean and written as they are, or refused for this fault and left.
fn is_result(out: &mut XdrOut, proc: u32, number: u8, bytes: &[u8]) -> Result<bool, AllocError> {
    if !is_known(proc) {
        return Ok(false);
    }
    let mut body = Xdr::new(bytes);
    match read_result(proc, &mut body) {
        Ok(reply) => {
            write_result(out, &reply)?;
            Ok(
                number == 0
                    && meaning_of_result(&reply) == (proc, true)
                    && is_again(body.left(), out, bytes),
            )
        }
        Err(fault) => Ok(is_refused(fault, number, &body, bytes)),
    }
}

pub(crate) fn is_message(out: &mut XdrOut, bytes: &[u8]) -> Result<bool, AllocError> {
    match bytes {
        [] => Ok(true),
        [0, proc, number, args @ ..] => is_call(out, u32::from(*proc), *number, args),
        [1, proc, number, body @ ..] => is_result(out, u32::from(*proc), *number, body),
        _ => Ok(false),
    }
}

/// Call 2, of RPC version 2, of NLM version 4 and GRANTED, without a credential and a verifier, and with cookie 2.
const GRANTED: &str = "\
00000002 00000000 00000002 000186b5 00000004 00000005 00000000 00000000 00000000 00000000 00000008 00000000 00000002 \
00000001 00000001 62000000 00000008 584c4b31 00000001 00000001 68000000 fffffffe 00000000 00000000 00000000 0000000a";

const WAITING: Lock<'static> = Lock {
    caller_name: b"b",
    fh: HANDLE,
    oh: b"h",
    svid: -2,
    l_offset: 0,
    l_len: 10,
};

#[tactic(auto, unfolding(xl_nlm::specs::Arguments::lock))]
fn is_granted(alloc: Global) -> Result<bool, AllocError> {
    has_bytes(alloc, GRANTED, &granted_call(alloc, 2, true, &WAITING)?)
}

#[test]
fn granted(rt: HostRuntime) {
    assert!(rt; matches!(is_granted(rt.alloc()), Ok(true)));
}
