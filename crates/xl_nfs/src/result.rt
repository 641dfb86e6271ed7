//! The results of operations.
ghost use Rattle.std.specs.Prelude.{◌≡◌, ◌++◌, ◌==◌, ℕ, List, Ok, OnOk, OnErr, IfOk};
ghost use Rattle.xl_base.specs.Codec.{Advances};
ghost use Rattle.xl_base.specs.Formats.{spelled};
ghost use Rattle.xl_rpc.specs.Xdr.{Puts, IsReadAgain};
ghost use Rattle.xl_nfs.specs.Ops.{is_numbered};
ghost use Rattle.xl_nfs.specs.Results.{ResultItem, shown_result, result_number, result_status, told, other_result, result_case, nfs_result, ResultFits, result_part_at, result_at};

use crate::basics::Stateid;
use crate::clients::ClientConfirm;
use crate::opened::OpenResult;
use crate::operation;
use crate::outcome::{
    LockFault, ended_as, lock_ended_as, put_client_outcome, put_handle_outcome, put_lock_outcome,
    put_lock_test_outcome, put_open_outcome, put_stateid_outcome, read_client_outcome,
    read_handle_outcome, read_lock_outcome, read_lock_test_outcome, read_open_outcome,
    read_stateid_outcome,
};
use crate::status::{NfsStatus, put_status, read_status};
use std::alloc::AllocError;
use xl_format::put_nothing;
use xl_rpc::{RpcBad, Xdr, XdrOut, put_whole};

/// The result of an operation: how it ended, and if it was done, or a LOCK or a LOCKT was denied, what it has to give
/// (nfs_resop4).
#[derive(Clone, Copy)]
pub enum NfsResult<'a> {
    /// CLOSE.
    Close(Result<Stateid, NfsStatus>),
    /// DELEGRETURN.
    DelegReturn(NfsStatus),
    /// GETFH.
    GetFh(Result<&'a [u8], NfsStatus>),
    /// LOCK.
    Lock(Result<Stateid, LockFault<'a>>),
    /// LOCKT.
    LockT(Result<(), LockFault<'a>>),
    /// LOCKU.
    LockU(Result<Stateid, NfsStatus>),
    /// LOOKUP.
    Lookup(NfsStatus),
    /// OPEN.
    Open(Result<OpenResult<'a>, NfsStatus>),
    /// OPEN_CONFIRM.
    OpenConfirm(Result<Stateid, NfsStatus>),
    /// OPEN_DOWNGRADE.
    OpenDowngrade(Result<Stateid, NfsStatus>),
    /// PUTFH.
    PutFh(NfsStatus),
    /// PUTROOTFH.
    PutRootFh(NfsStatus),
    /// RENEW.
    Renew(NfsStatus),
    /// SETCLIENTID.
    SetClientId(Result<ClientConfirm, NfsStatus>),
    /// SETCLIENTID_CONFIRM.
    SetClientIdConfirm(NfsStatus),
    /// RELEASE_LOCKOWNER.
    ReleaseLockOwner(NfsStatus),
    /// Of another operation, of this number from 3 to 39, which is not served (NFS4ERR_NOTSUPP).
    NotSupported(u32),
    /// Of a number of no operation; the result has the number 10,044 (NFS4ERR_OP_ILLEGAL).
    Illegal,
}

impl NfsResult<'_> {
    /// The number of its operation.
    pub fn number(&self) -> u32
        ensures { result ≡ result_number (shown_result self.now) }
    {
        match self {
            NfsResult::Close(_) => operation::CLOSE,
            NfsResult::DelegReturn(_) => operation::DELEGRETURN,
            NfsResult::GetFh(_) => operation::GETFH,
            NfsResult::Lock(_) => operation::LOCK,
            NfsResult::LockT(_) => operation::LOCKT,
            NfsResult::LockU(_) => operation::LOCKU,
            NfsResult::Lookup(_) => operation::LOOKUP,
            NfsResult::Open(_) => operation::OPEN,
            NfsResult::OpenConfirm(_) => operation::OPEN_CONFIRM,
            NfsResult::OpenDowngrade(_) => operation::OPEN_DOWNGRADE,
            NfsResult::PutFh(_) => operation::PUTFH,
            NfsResult::PutRootFh(_) => operation::PUTROOTFH,
            NfsResult::Renew(_) => operation::RENEW,
            NfsResult::SetClientId(_) => operation::SETCLIENTID,
            NfsResult::SetClientIdConfirm(_) => operation::SETCLIENTID_CONFIRM,
            NfsResult::ReleaseLockOwner(_) => operation::RELEASE_LOCKOWNER,
            NfsResult::NotSupported(number) => *number,
            NfsResult::Illegal => operation::ILLEGAL,
        }
    }

    /// How the operation ended.
    pub fn status(&self) -> NfsStatus
        ensures { result ≡ result_status (shown_result self.now) }
    {
        match self {
            NfsResult::DelegReturn(status)
            | NfsResult::Lookup(status)
            | NfsResult::PutFh(status)
            | NfsResult::PutRootFh(status)
            | NfsResult::Renew(status)
            | NfsResult::SetClientIdConfirm(status)
            | NfsResult::ReleaseLockOwner(status) => *status,
            NfsResult::Close(outcome)
            | NfsResult::LockU(outcome)
            | NfsResult::OpenConfirm(outcome)
            | NfsResult::OpenDowngrade(outcome) => ended_as(outcome),
            NfsResult::GetFh(outcome) => ended_as(outcome),
            NfsResult::Open(outcome) => ended_as(outcome),
            NfsResult::SetClientId(outcome) => ended_as(outcome),
            NfsResult::Lock(outcome) => lock_ended_as(outcome),
            NfsResult::LockT(outcome) => lock_ended_as(outcome),
            NfsResult::NotSupported(_) => NfsStatus::NotSupp,
            NfsResult::Illegal => NfsStatus::OpIllegal,
        }
    }
}

/// Reads a status that has to be this one.
#[tactic(auto, unfolding(crate::specs::Results::told, xl_format::specs::Formats::nothing))]
fn read_told(wanted: NfsStatus, xdr: &mut Xdr) -> Result<(), RpcBad>
    ensures { Advances (λ u. u) result xdr.old.rest.now xdr.new.rest.now ((told wanted).at xdr.old.rest.now) }
{
    let mut at = *xdr;
    if at.u32()? != wanted.number() {
        return Err(RpcBad::Value);
    }
    *xdr = at;
    Ok(())
}

/// What stands behind the number of an operation whose arguments are not read.
fn read_other<'a>(number: u32, xdr: &mut Xdr<'a>) -> Result<NfsResult<'a>, RpcBad>
    ensures { Advances shown_result result xdr.old.rest.now xdr.new.rest.now ((other_result (is_numbered number) (number == 10044) number).at xdr.old.rest.now) }
{
    if 3 <= number && number <= 39 {
        read_told(NfsStatus::NotSupp, xdr)?;
        Ok(NfsResult::NotSupported(number))
    } else if number == operation::ILLEGAL {
        read_told(NfsStatus::OpIllegal, xdr)?;
        Ok(NfsResult::Illegal)
    } else {
        Err(RpcBad::Value)
    }
}

/// What stands behind the number of an operation.
#[tactic(auto, unfolding(crate::specs::Results::result_part_at))]
fn read_result_part<'a>(number: u32, xdr: &mut Xdr<'a>) -> Result<NfsResult<'a>, RpcBad>
    ensures { Advances shown_result result xdr.old.rest.now xdr.new.rest.now (result_part_at number xdr.old.rest.now) }
{
    match number {
        operation::CLOSE => Ok(NfsResult::Close(read_stateid_outcome(xdr)?)),
        operation::DELEGRETURN => Ok(NfsResult::DelegReturn(read_status(xdr)?)),
        operation::GETFH => read_handle_outcome(xdr).map(NfsResult::GetFh),
        operation::LOCK => read_lock_outcome(xdr).map(NfsResult::Lock),
        operation::LOCKT => read_lock_test_outcome(xdr).map(NfsResult::LockT),
        operation::LOCKU => Ok(NfsResult::LockU(read_stateid_outcome(xdr)?)),
        operation::LOOKUP => Ok(NfsResult::Lookup(read_status(xdr)?)),
        operation::OPEN => read_open_outcome(xdr).map(NfsResult::Open),
        operation::OPEN_CONFIRM => Ok(NfsResult::OpenConfirm(read_stateid_outcome(xdr)?)),
        operation::OPEN_DOWNGRADE => Ok(NfsResult::OpenDowngrade(read_stateid_outcome(xdr)?)),
        operation::PUTFH => Ok(NfsResult::PutFh(read_status(xdr)?)),
        operation::PUTROOTFH => Ok(NfsResult::PutRootFh(read_status(xdr)?)),
        operation::RENEW => Ok(NfsResult::Renew(read_status(xdr)?)),
        operation::SETCLIENTID => Ok(NfsResult::SetClientId(read_client_outcome(xdr)?)),
        operation::SETCLIENTID_CONFIRM => Ok(NfsResult::SetClientIdConfirm(read_status(xdr)?)),
        operation::RELEASE_LOCKOWNER => Ok(NfsResult::ReleaseLockOwner(read_status(xdr)?)),
        _ => read_other(number, xdr),
    }
}

#[tactic(auto, unfolding(crate::specs::Results::nfs_result, crate::specs::Results::result_part_at))]
fn read_whole<'a>(xdr: &mut Xdr<'a>) -> Result<NfsResult<'a>, RpcBad>
    ensures { Advances shown_result result xdr.old.rest.now xdr.new.rest.now (result_at xdr.old.rest.now) }
{
    let mut at = *xdr;
    let number = at.u32()?;
    let value = read_result_part(number, &mut at)?;
    *xdr = at;
    Ok(value)
}

/// The result of one operation, read from the front; what stands behind it is left. A fault is the first in reading
/// order: Short if the bytes end within the result, Pad and Bool as in XDR, TooLong if a handle or an owner passes
/// its bound, Value if the operation, its status or a number behind it is none of its list. It leaves the reader as it
/// was.
pub fn read_result<'a>(body: &mut Xdr<'a>) -> Result<NfsResult<'a>, RpcBad>
    // What is read is spelled so.
    ensures found { IfOk result (λ r. (body.old.rest.now ≡ nfs_result.spell (shown_result r) ++ body.new.rest.now) × ResultFits (shown_result r)) }
    // What is spelled so is read, whatever follows.
    ensures only { (r : ResultItem) (rest : List ℕ) → ResultFits r → body.old.rest.now ≡ nfs_result.spell r ++ rest → Advances shown_result result body.old.rest.now body.new.rest.now (Ok (r, rest)) }
    // Which fault it is.
    ensures exact { Advances shown_result result body.old.rest.now body.new.rest.now (result_at body.old.rest.now) }
{
    read_whole(body)
}

/// Writes the status of what has no parts.
#[tactic(auto, unfolding(crate::specs::Results::told))]
fn put_told(out: &mut XdrOut, value: NfsStatus) -> Result<(), AllocError>
    ensures { Puts result out.old out.new ((told value).spell tt) }
{
    out.u32(value.number())?;
    put_nothing(out)?;
    Ok(())
}

fn put_result_part(out: &mut XdrOut, value: &NfsResult) -> Result<(), AllocError>
    requires { (result_case (shown_result value.now)).Fit }
    ensures { Puts result out.old out.new (spelled (result_case (shown_result value.now))) }
{
    match value {
        NfsResult::Close(part)
        | NfsResult::LockU(part)
        | NfsResult::OpenConfirm(part)
        | NfsResult::OpenDowngrade(part) => put_stateid_outcome(out, part),
        NfsResult::DelegReturn(part)
        | NfsResult::Lookup(part)
        | NfsResult::PutFh(part)
        | NfsResult::PutRootFh(part)
        | NfsResult::Renew(part)
        | NfsResult::SetClientIdConfirm(part)
        | NfsResult::ReleaseLockOwner(part) => put_status(out, *part),
        NfsResult::GetFh(part) => put_handle_outcome(out, part),
        NfsResult::Lock(part) => put_lock_outcome(out, part),
        NfsResult::LockT(part) => put_lock_test_outcome(out, part),
        NfsResult::Open(part) => put_open_outcome(out, part),
        NfsResult::SetClientId(part) => put_client_outcome(out, part),
        NfsResult::NotSupported(_) => put_told(out, NfsStatus::NotSupp),
        NfsResult::Illegal => put_told(out, NfsStatus::OpIllegal),
    }
}

#[tactic(auto, unfolding(crate::specs::Results::nfs_result))]
fn put_result(out: &mut XdrOut, value: &NfsResult) -> Result<(), AllocError>
    requires { ResultFits (shown_result value.now) }
    ensures { Puts result out.old out.new (nfs_result.spell (shown_result value.now)) }
{
    out.u32(value.number())?;
    put_result_part(out, value)?;
    Ok(())
}

/// Writes the result of one operation. An error's status is not Ok, of LOCK and LOCKT nor Denied; a handle, an owner and
/// others are within their bounds; the number of NotSupported is one of its numbers. Want of memory leaves what was written
/// before as it was.
#[tactic(auto, using(xl_rpc::proofs::XdrLaws::taken_back, crate::proofs::AgainLaws::result_again))]
pub fn write_result(out: &mut XdrOut, value: &NfsResult) -> Result<(), AllocError>
    requires { ResultFits (shown_result value.now) }
    ensures ok { OnOk result (out.new ≡ out.old ++ nfs_result.spell (shown_result value.now)) }
    // What is written is read again, whatever follows.
    ensures again { OnOk result (IsReadAgain result_at (shown_result value.now) out.old out.new) }
    ensures err { OnErr result (out.new ≡ out.old) }
{
    put_whole!(out; put_result(out, value))
}
