//! Calls and replies of ONC RPC (RFC 5531), and the items of XDR (RFC 4506).
use crate::wire::{WORD, bytes_of, has_bytes, is_refused};
use std::alloc::{AllocError, Global};
use std::test::*;
use xl_rpc::*;

/// Behind 00 a call, behind 01 a reply, each behind the number of the fault that refuses it. A call that is read has 00,
/// and a word behind it; a reply that is read has 10 and the number of its verdict.
pub(crate) const MESSAGES: &str = "\
00 06 00000007 00000001
00 05 00000007 00000000 00000003
00 05 00000007 00000000 00000001 00000009
00 06 00000007 00000001 00000003
# a credential of 401 bytes, which are not there
00 04 00000007 00000000 00000002 00000001 00000001 00000001 00000000 00000191
# one byte, and padding that is not zero
00 02 00000007 00000000 00000002 00000001 00000001 00000001 00000000 00000001 41000001
00 02 00000007 00000000 00000002 00000001 00000001 00000001 00000000 00000002 41420100
# a credential of 400 bytes, cut
00 01 00000007 00000000 00000002 00000001 00000001 00000001 00000000 00000190 00000000
# a verifier of 401 bytes, one with padding that is not zero, and a cut one
00 04 00000007 00000000 00000002 00000001 00000001 00000001 00000000 00000000 00000000 00000191
00 02 00000007 00000000 00000002 00000001 00000001 00000001 00000000 00000000 00000000 00000003 41424301
00 01 00000007 00000000 00000002 00000001 00000001 00000001 00000000 00000000 00000000 00000004
00 01
# two bytes whose padding is cut: its first byte is not zero
00 01 00000007 00000000 00000002 00000001 00000001 00000001 00000000 00000002 414201
# of NLM's LOCK, without a credential, and with a credential and a verifier
00 00 00000007 00000000 00000002 000186b5 00000004 00000002 00000000 00000000 00000000 00000000 00000009
00 00 00000007 00000000 00000002 000186b5 00000004 00000002 00000001 00000002 41420000 00000002 00000003 43444500 \
00000009
# replies
01 06 00000007 00000000
01 06 00000007 00000002
01 07 00000007 00000001 00000002
01 07 00000007 00000001 00000000 00000001
01 04 00000007 00000001 00000000 00000000 00000004
01 07 00000007 00000001 00000000 00000000 00000000 00000006
01 07 00000007 00000001 00000001 00000002
01 01 00000007 00000001 00000000 00000000 00000000 00000002 00000004
01 10 00000007 00000001 00000000 00000000 00000000 00000000
01 11 00000007 00000001 00000000 00000000 00000000 00000001
01 12 00000007 00000001 00000000 00000000 00000000 00000002 00000004 00000004
01 18 00000007 00000001 00000000 00000000 00000000 00000002 00000003 00000004
01 13 00000007 00000001 00000000 00000000 00000000 00000003
01 14 00000007 00000001 00000000 00000000 00000000 00000004
01 15 00000007 00000001 00000000 00000000 00000000 00000005
01 16 00000007 00000001 00000001 00000000 00000002 00000002
01 19 00000007 00000001 00000001 00000000 00000001 00000002
01 17 00000007 00000001 00000001 00000001 0000000e";

fn is_verdict(verdict: Verdict, number: u8) -> bool {
    match verdict {
        Verdict::Success => number == 0x10,
        Verdict::ProgUnavail => number == 0x11,
        Verdict::ProgMismatch(4, 4) => number == 0x12,
        Verdict::ProgMismatch(low, high) => (number, low, high) == (0x18, 3, 4),
        Verdict::ProcUnavail => number == 0x13,
        Verdict::GarbageArgs => number == 0x14,
        Verdict::SystemErr => number == 0x15,
        Verdict::RpcMismatch(2, 2) => number == 0x16,
        Verdict::RpcMismatch(low, high) => (number, low, high) == (0x19, 1, 2),
        Verdict::AuthError(why) => (number, why) == (0x17, 14),
    }
}

/// Whether the bytes are read as a reply of this verdict, which is written as they are, or refused for this fault.
fn is_reply(out: &mut XdrOut, number: u8, bytes: &[u8]) -> Result<bool, AllocError> {
    match read_reply(bytes) {
        Ok(reply) => {
            write_reply(out, reply.xid, reply.verdict)?;
            Ok(
                is_verdict(reply.verdict, number)
                    && (reply.xid, reply.body.left().len()) == (7, 0)
                    && out.as_slice() == bytes,
            )
        }
        Err(fault) => Ok(fault.number() == u32::from(number)),
    }
}

fn is_auth(auth: &Auth, flavor: u32, body: &[u8]) -> bool {
    auth.flavor == flavor && auth.body == body
}

/// Whether a head is that of the calls: of NLM's LOCK, and with a credential and a verifier or without.
fn is_head(head: &CallHead) -> bool {
    let is_known = match head.cred.flavor {
        0 => is_auth(&head.cred, 0, &[]) && is_auth(&head.verf, 0, &[]),
        _ => is_auth(&head.cred, 1, b"AB") && is_auth(&head.verf, 2, b"CDE"),
    };
    is_known && (head.xid, head.prog, head.vers, head.proc) == (7, 100_021, 4, 2)
}

fn is_fault(fault: RpcBad, number: u8) -> bool {
    fault.number() == u32::from(number) && !matches!(fault, RpcBad::Version(xid) if xid != 7)
}

/// Whether each beginning of a call's head is cut.
fn is_cut(head: &[u8]) -> bool {
    for (n, _) in head.iter().enumerate() {
        if !matches!(read_call(head.split_at(n).0), Err(fault) if is_fault(fault, 1)) {
            return false;
        }
    }
    true
}

/// Whether the head of a call was written as it is, before the word.
fn is_whole(out: &XdrOut, bytes: &[u8]) -> bool {
    match bytes.strip_suffix(WORD) {
        Some(head) => out.as_slice() == head && is_cut(head),
        None => false,
    }
}

/// Whether the bytes are read as a call with a word behind it, whose head is written as it is, or refused for this
/// fault.
fn is_call(out: &mut XdrOut, number: u8, bytes: &[u8]) -> Result<bool, AllocError> {
    match read_call(bytes) {
        Ok(call) => {
            write_call(out, &call.head)?;
            Ok(
                number == 0
                    && is_head(&call.head)
                    && call.args.left() == WORD
                    && is_whole(out, bytes),
            )
        }
        Err(fault) => Ok(is_fault(fault, number)),
    }
}

pub(crate) fn is_message(out: &mut XdrOut, bytes: &[u8]) -> Result<bool, AllocError> {
    match bytes {
        [] => Ok(true),
        [0, number, call @ ..] => is_call(out, *number, call),
        [1, number, reply @ ..] => is_reply(out, *number, reply),
        _ => Ok(false),
    }
}

/// One item of each kind.
const ITEMS: &str = "\
01020304 0102030405060708 fffffffe 00000001 00000005 6162636465 000000 78797a 00";

fn put_numbers(out: &mut XdrOut) -> Result<(), AllocError> {
    out.u32(0x0102_0304)?;
    out.u64(0x0102_0304_0506_0708)?;
    out.i32(-2)?;
    out.boolean(true)
}

fn put_items(out: &mut XdrOut) -> Result<(), AllocError> {
    put_numbers(out)?;
    out.opaque(b"abcde")?;
    out.fixed(b"xyz")
}

/// What was written, written once more beside it.
fn again(out: &XdrOut) -> Result<Vec<u8>, AllocError> {
    let mut whole = out.new_beside();
    whole.append(out)?;
    Ok(whole.done())
}

fn are_put(alloc: Global, out: &mut XdrOut) -> Result<bool, AllocError> {
    put_items(out)?;
    has_bytes(alloc, ITEMS, &again(out)?)
}

fn has_numbers(xdr: &mut Xdr) -> bool {
    matches!(xdr.u32(), Ok(0x0102_0304))
        && matches!(xdr.u64(), Ok(0x0102_0304_0506_0708))
        && matches!(xdr.i32(), Ok(-2))
        && matches!(xdr.boolean(), Ok(true))
}

fn is_text(found: Result<&[u8], RpcBad>, text: &[u8]) -> bool {
    match found {
        Ok(found) => found == text,
        Err(_) => false,
    }
}

fn has_texts(xdr: &mut Xdr) -> bool {
    matches!(xdr.opaque(4), Err(RpcBad::TooLong))
        && is_text(xdr.opaque(5), b"abcde")
        && is_text(xdr.fixed(3), b"xyz")
}

fn has_items(xdr: &mut Xdr) -> bool {
    has_numbers(xdr) && has_texts(xdr) && xdr.left().is_empty()
}

/// Whether they are refused as a bool, and left.
fn is_no_bool(bytes: &[u8]) -> bool {
    let mut xdr = Xdr::new(bytes);
    match xdr.boolean() {
        Ok(_) => false,
        Err(fault) => is_refused(fault, 3, &xdr, bytes),
    }
}

/// Writes a number, and says then that memory ran out.
fn put_half(out: &mut XdrOut) -> Result<(), AllocError> {
    out.u32(9)?;
    Err(AllocError)
}

/// Whether of a message that is cut by want of memory nothing is left, and what stands before it is.
fn is_taken_back(out: &mut XdrOut) -> Result<bool, AllocError> {
    out.u32(7)?;
    Ok(put_whole!(out; put_half(out)).is_err() && matches!(out.as_slice(), [0, 0, 0, 7]))
}

/// Whether the items are written and read as the bytes.
fn are_items(alloc: Global) -> Result<bool, AllocError> {
    Ok(
        are_put(alloc, &mut XdrOut::new(alloc))?
            && has_items(&mut Xdr::new(&bytes_of(alloc, ITEMS)?))
            && is_taken_back(&mut XdrOut::new(alloc))?
            && is_no_bool(&[0, 0, 0, 2]),
    )
}

#[test]
fn items(rt: HostRuntime) {
    assert!(rt; matches!(are_items(rt.alloc()), Ok(true)));
}
