//! The call that asks a client for a delegation, and the client's reply.
ghost use Rattle.std.specs.Prelude.{◌≡◌, ◌++◌, ℕ, List, Ok, OnOk, IfOk, option_map};
ghost use Rattle.xl_base.specs.Codec.{Advances};
ghost use Rattle.xl_nfs.specs.Callbacks.{shown_recall_result, recall_result, result_list, RecallReplyItem, shown_recall_reply, recall_reply, recall_reply_at, recall_args, recall_compound, recall_record};

use crate::basics::{Stateid, put_stateid, read_text};
use crate::operation;
use crate::status::{NfsStatus, read_status};
use std::alloc::{AllocError, Global};
use xl_base::handle_of;
use xl_format::read_record;
use xl_rpc::{Auth, CallHead, RpcBad, Xdr, XdrOut, write_call};

/// How a client answers the one operation of the call (nfs_cb_resop4).
#[derive(Clone, Copy)]
pub enum RecallResult {
    /// It is CB_RECALL, and ended so.
    Recall(NfsStatus),
    /// The client knows no such operation, and it ended so.
    Illegal(NfsStatus),
}

/// A client's reply to the call (CB_COMPOUND4res).
#[derive(Clone, Copy)]
pub struct RecallReply<'a> {
    /// How the last operation ended.
    pub status: NfsStatus,
    /// The call's tag, at most 1,024 bytes.
    pub tag: &'a [u8],
    /// How the one operation ended; None if it was not begun.
    pub results: Option<RecallResult>,
}

#[tactic(auto, unfolding(crate::specs::Callbacks::recall_result))]
fn read_recall_result(xdr: &mut Xdr) -> Result<RecallResult, RpcBad>
    ensures { Advances shown_recall_result result xdr.old.rest.now xdr.new.rest.now (recall_result.at xdr.old.rest.now) }
{
    let mut at = *xdr;
    let value = match at.u32()? {
        4 => RecallResult::Recall(read_status(&mut at)?),
        10044 => RecallResult::Illegal(read_status(&mut at)?),
        _ => return Err(RpcBad::Value),
    };
    *xdr = at;
    Ok(value)
}

#[tactic(auto, unfolding(crate::specs::Callbacks::result_list, xl_format::specs::Formats::nothing))]
fn read_results(xdr: &mut Xdr) -> Result<Option<RecallResult>, RpcBad>
    ensures { Advances (option_map shown_recall_result) result xdr.old.rest.now xdr.new.rest.now (result_list.at xdr.old.rest.now) }
{
    let mut at = *xdr;
    let value = match at.u32()? {
        0 => None,
        1 => Some(read_recall_result(&mut at)?),
        _ => return Err(RpcBad::Value),
    };
    *xdr = at;
    Ok(value)
}

#[tactic(auto, unfolding(crate::specs::Callbacks::recall_reply))]
fn read_whole<'a>(xdr: &mut Xdr<'a>) -> Result<RecallReply<'a>, RpcBad>
    ensures { Advances shown_recall_reply result xdr.old.rest.now xdr.new.rest.now (recall_reply.at xdr.old.rest.now) }
{
    read_record!(xdr; RecallReply { status: read_status, tag: read_text, results: read_results })
}

/// A client's reply to the call that asks it for a delegation, read from the front; what stands behind it is left. A
/// fault is the first in reading order: Short if the bytes end within it, TooLong if the tag has more than 1,024 bytes,
/// Pad if its padding is not zero, Value if a status or the result's operation is none of its list, or if there is more
/// than one result. It leaves the reader as it was.
pub fn read_recall_reply<'a>(body: &mut Xdr<'a>) -> Result<RecallReply<'a>, RpcBad>
    // What is read is spelled so.
    ensures found { IfOk result (λ r. (body.old.rest.now ≡ recall_reply.spell (shown_recall_reply r) ++ body.new.rest.now) × recall_reply.Fit (shown_recall_reply r)) }
    // What is spelled so is read, whatever follows.
    ensures only { (r : RecallReplyItem) (rest : List ℕ) → recall_reply.Fit r → body.old.rest.now ≡ recall_reply.spell r ++ rest → Advances shown_recall_reply result body.old.rest.now body.new.rest.now (Ok (r, rest)) }
    // Which fault it is.
    ensures exact { Advances shown_recall_reply result body.old.rest.now body.new.rest.now (recall_reply_at body.old.rest.now) }
{
    read_whole(body)
}

#[tactic(auto, unfolding(crate::specs::Callbacks::recall_args))]
fn put_recall_args(out: &mut XdrOut, delegation: &Stateid, file: u32) -> Result<(), AllocError>
    ensures { OnOk result (out.new ≡ out.old ++ recall_args delegation.now file) }
{
    put_stateid(out, delegation)?;
    out.boolean(false)?;
    out.opaque(&handle_of(file))?;
    Ok(())
}

#[tactic(auto, unfolding(crate::specs::Callbacks::recall_compound))]
fn put_recall_compound(
    out: &mut XdrOut,
    ident: u32,
    delegation: &Stateid,
    file: u32,
) -> Result<(), AllocError>
    ensures { OnOk result (out.new ≡ out.old ++ recall_compound ident delegation.now file) }
{
    out.opaque(&[])?;
    out.u32(0)?;
    out.u32(ident)?;
    out.u32(1)?;
    out.u32(operation::CB_RECALL)?;
    put_recall_args(out, delegation, file)?;
    Ok(())
}

/// The record of the call of this number that asks a client for a delegation of a file: CB_RECALL as the one operation of
/// a CB_COMPOUND (RFC 7530 18.2), of the program and with the ident that the client's SETCLIENTID gave. Its xid is the
/// number, its tag is empty, truncate is false, and its credential and verifier are AUTH_NONE.
#[tactic(auto, unfolding(xl_rpc::specs::Calls::HeadFits))]
pub fn recall_call(
    alloc: Global,
    number: u32,
    program: u32,
    ident: u32,
    stateid: &Stateid,
    file: u32,
) -> Result<Vec<u8>, AllocError>
    ensures { IfOk result (λ bytes. bytes.items ≡ recall_record number program ident stateid.now file) }
{
    let none = Auth {
        flavor: 0,
        body: &[],
    };
    let head = CallHead {
        xid: number,
        prog: program,
        vers: operation::CALLBACK_VERSION,
        proc: operation::CB_COMPOUND,
        cred: none,
        verf: none,
    };
    let mut out = XdrOut::new(alloc);
    write_call(&mut out, &head)?;
    put_recall_compound(&mut out, ident, stateid, file)?;
    Ok(out.done())
}
