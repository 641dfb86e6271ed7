//! The call that asks a client for a delegation, and the client's reply.
use super::*;

/// Call 2, of RPC version 2, of the program, version 1 and CB_COMPOUND, without a credential and a verifier; tag empty,
/// minor version 0, ident 5, one operation, CB_RECALL, the delegation, no truncation, the handle.
const CALL: &str = "\
00000002 00000000 00000002 40000000 00000001 00000001 00000000 00000000 00000000 00000000 00000000 00000000 00000005 \
00000001 00000004 00000001 00000002 00000000 00000007 00000000 00000008 584c4b31 00000001";

const DELEGATION: Stateid = Stateid {
    seqid: 1,
    other: *b"\0\0\0\x02\0\0\0\0\0\0\0\x07",
};

pub(crate) fn is_call(alloc: Global) -> Result<bool, AllocError> {
    has_bytes(
        alloc,
        CALL,
        &recall_call(alloc, 2, 0x4000_0000, 5, &DELEGATION, 1)?,
    )
}

/// The operation that was done, 0 if it is none, and the number of its status.
fn result_of(reply: &RecallReply) -> (u32, u32) {
    match reply.results {
        Some(RecallResult::Recall(status)) => (4, status.number()),
        Some(RecallResult::Illegal(status)) => (10044, status.number()),
        None => (0, 0),
    }
}

/// Whether a reply is that of the vector with its status.
fn is_meant(reply: &RecallReply) -> bool {
    match reply.status {
        NfsStatus::Ok => reply.tag.is_empty() && result_of(reply) == (4, 0),
        NfsStatus::BadStateid => reply.tag == b"t".as_slice() && result_of(reply) == (4, 10025),
        NfsStatus::MinorVersMismatch => reply.tag.is_empty() && result_of(reply) == (0, 0),
        NfsStatus::OpIllegal => reply.tag.is_empty() && result_of(reply) == (10044, 10044),
        _ => false,
    }
}

/// Whether a reply is read as what it means, or refused for this fault and left.
pub(crate) fn is_reply(bytes: &[u8], number: u8) -> bool {
    let mut body = Xdr::new(bytes);
    match read_recall_reply(&mut body) {
        Ok(reply) => number == 0 && is_meant(&reply) && body.left() == WORD,
        Err(fault) => is_refused(fault, number, &body, bytes),
    }
}
