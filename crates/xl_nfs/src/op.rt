//! The operations of a COMPOUND.
ghost use Rattle.std.specs.Prelude.{◌≡◌, ◌++◌, ℕ, List, Ok, OnOk, OnErr, IfOk};
ghost use Rattle.xl_base.specs.Codec.{Advances};
ghost use Rattle.xl_base.specs.Formats.{spelled};
ghost use Rattle.xl_rpc.specs.Xdr.{Puts, IsReadAgain};
ghost use Rattle.xl_nfs.specs.Ops.{OpItem, shown_op, other_op, op_case, op_number, op, OpFits, op_part_at, op_at};

use crate::basics::{
    Owner, Stateid, put_handle, put_name, put_owner, put_stateid, read_handle, read_name,
    read_owner, read_stateid,
};
use crate::clients::{
    ClientConfirm, SetClientIdArgs, put_client_confirm, put_set_client_id_args,
    read_client_confirm, read_set_client_id_args,
};
use crate::locks::{
    LockArgs, LockTestArgs, UnlockArgs, put_lock_args, put_lock_test_args, put_unlock_args,
    read_lock_args, read_lock_test_args, read_unlock_args,
};
use crate::opens::{
    CloseArgs, OpenArgs, OpenConfirmArgs, OpenDowngradeArgs, put_close_args, put_open_args,
    put_open_confirm_args, put_open_downgrade_args, read_close_args, read_open_args,
    read_open_confirm_args, read_open_downgrade_args,
};
use crate::operation;
use std::alloc::AllocError;
use xl_format::put_nothing;
use xl_rpc::{RpcBad, Xdr, XdrOut, put_whole};

/// An operation of a COMPOUND, with its arguments (nfs_argop4).
#[derive(Clone, Copy)]
pub enum NfsOp<'a> {
    /// CLOSE (RFC 7530 16.2).
    Close(CloseArgs),
    /// DELEGRETURN, of this delegation (RFC 7530 16.6).
    DelegReturn(Stateid),
    /// GETFH (RFC 7530 16.8).
    GetFh,
    /// LOCK (RFC 7530 16.10).
    Lock(LockArgs<'a>),
    /// LOCKT (RFC 7530 16.11).
    LockT(LockTestArgs<'a>),
    /// LOCKU (RFC 7530 16.12).
    LockU(UnlockArgs),
    /// LOOKUP, of this name (RFC 7530 16.13).
    Lookup(&'a [u8]),
    /// OPEN (RFC 7530 16.16).
    Open(OpenArgs<'a>),
    /// OPEN_CONFIRM (RFC 7530 16.18).
    OpenConfirm(OpenConfirmArgs),
    /// OPEN_DOWNGRADE (RFC 7530 16.19).
    OpenDowngrade(OpenDowngradeArgs),
    /// PUTFH, of this handle, at most 128 bytes (RFC 7530 16.20).
    PutFh(&'a [u8]),
    /// PUTROOTFH (RFC 7530 16.22).
    PutRootFh,
    /// RENEW, of the client of this number (RFC 7530 16.28).
    Renew(u64),
    /// SETCLIENTID (RFC 7530 16.33).
    SetClientId(SetClientIdArgs<'a>),
    /// SETCLIENTID_CONFIRM (RFC 7530 16.34).
    SetClientIdConfirm(ClientConfirm),
    /// RELEASE_LOCKOWNER (RFC 7530 16.37).
    ReleaseLockOwner(Owner<'a>),
    /// Another operation, of this number from 3 to 39, which is not served; its arguments are not read.
    NotSupported(u32),
    /// A number of no operation, below 3 or above 39 (RFC 7530 16.38).
    Illegal(u32),
}

impl NfsOp<'_> {
    /// The operation's number.
    pub fn number(&self) -> u32
        ensures { result ≡ op_number (shown_op self.now) }
    {
        match self {
            NfsOp::Close(_) => operation::CLOSE,
            NfsOp::DelegReturn(_) => operation::DELEGRETURN,
            NfsOp::GetFh => operation::GETFH,
            NfsOp::Lock(_) => operation::LOCK,
            NfsOp::LockT(_) => operation::LOCKT,
            NfsOp::LockU(_) => operation::LOCKU,
            NfsOp::Lookup(_) => operation::LOOKUP,
            NfsOp::Open(_) => operation::OPEN,
            NfsOp::OpenConfirm(_) => operation::OPEN_CONFIRM,
            NfsOp::OpenDowngrade(_) => operation::OPEN_DOWNGRADE,
            NfsOp::PutFh(_) => operation::PUTFH,
            NfsOp::PutRootFh => operation::PUTROOTFH,
            NfsOp::Renew(_) => operation::RENEW,
            NfsOp::SetClientId(_) => operation::SETCLIENTID,
            NfsOp::SetClientIdConfirm(_) => operation::SETCLIENTID_CONFIRM,
            NfsOp::ReleaseLockOwner(_) => operation::RELEASE_LOCKOWNER,
            NfsOp::NotSupported(number) | NfsOp::Illegal(number) => *number,
        }
    }
}

/// The arguments of an operation.
#[tactic(auto, unfolding(crate::specs::Ops::op_part_at, xl_format::specs::Formats::nothing))]
fn read_op_part<'a>(number: u32, xdr: &mut Xdr<'a>) -> Result<NfsOp<'a>, RpcBad>
    ensures { Advances shown_op result xdr.old.rest.now xdr.new.rest.now (op_part_at number xdr.old.rest.now) }
{
    match number {
        operation::CLOSE => Ok(NfsOp::Close(read_close_args(xdr)?)),
        operation::DELEGRETURN => Ok(NfsOp::DelegReturn(read_stateid(xdr)?)),
        operation::GETFH => Ok(NfsOp::GetFh),
        operation::LOCK => read_lock_args(xdr).map(NfsOp::Lock),
        operation::LOCKT => read_lock_test_args(xdr).map(NfsOp::LockT),
        operation::LOCKU => Ok(NfsOp::LockU(read_unlock_args(xdr)?)),
        operation::LOOKUP => read_name(xdr).map(NfsOp::Lookup),
        operation::OPEN => read_open_args(xdr).map(NfsOp::Open),
        operation::OPEN_CONFIRM => Ok(NfsOp::OpenConfirm(read_open_confirm_args(xdr)?)),
        operation::OPEN_DOWNGRADE => Ok(NfsOp::OpenDowngrade(read_open_downgrade_args(xdr)?)),
        operation::PUTFH => read_handle(xdr).map(NfsOp::PutFh),
        operation::PUTROOTFH => Ok(NfsOp::PutRootFh),
        operation::RENEW => Ok(NfsOp::Renew(xdr.u64()?)),
        operation::SETCLIENTID => read_set_client_id_args(xdr).map(NfsOp::SetClientId),
        operation::SETCLIENTID_CONFIRM => Ok(NfsOp::SetClientIdConfirm(read_client_confirm(xdr)?)),
        operation::RELEASE_LOCKOWNER => read_owner(xdr).map(NfsOp::ReleaseLockOwner),
        _ => Ok(other_op(number)),
    }
}

/// An operation whose arguments are not read.
fn other_op<'a>(number: u32) -> NfsOp<'a>
    ensures { shown_op result ≡ other_op number }
{
    if 3 <= number && number <= 39 {
        NfsOp::NotSupported(number)
    } else {
        NfsOp::Illegal(number)
    }
}

#[tactic(auto, unfolding(crate::specs::Ops::op, crate::specs::Ops::op_part_at))]
fn read_op<'a>(xdr: &mut Xdr<'a>) -> Result<NfsOp<'a>, RpcBad>
    ensures { Advances shown_op result xdr.old.rest.now xdr.new.rest.now (op_at xdr.old.rest.now) }
{
    let mut at = *xdr;
    let number = at.u32()?;
    let op = read_op_part(number, &mut at)?;
    *xdr = at;
    Ok(op)
}

/// One operation, read from the front; what stands behind it is left. Of an operation that is not served, and of a
/// number of none, the number alone is read. A fault is the first in reading order: Short if the bytes end within the
/// operation, Pad and Bool as in XDR, TooLong if a text, a handle or an address passes its bound, Value if a lock type,
/// an open's form, its claim or a delegation's type is none of its list. It leaves the reader as it was.
pub fn next_op<'a>(args: &mut Xdr<'a>) -> Result<NfsOp<'a>, RpcBad>
    // What is read is spelled so.
    ensures found { IfOk result (λ o. (args.old.rest.now ≡ op.spell (shown_op o) ++ args.new.rest.now) × OpFits (shown_op o)) }
    // What is spelled so is read, whatever follows.
    ensures only { (o : OpItem) (rest : List ℕ) → OpFits o → args.old.rest.now ≡ op.spell o ++ rest → Advances shown_op result args.old.rest.now args.new.rest.now (Ok (o, rest)) }
    // Which fault it is.
    ensures exact { Advances shown_op result args.old.rest.now args.new.rest.now (op_at args.old.rest.now) }
{
    read_op(args)
}

fn put_op_part(out: &mut XdrOut, value: &NfsOp) -> Result<(), AllocError>
    requires { (op_case (shown_op value.now)).Fit }
    ensures { Puts result out.old out.new (spelled (op_case (shown_op value.now))) }
{
    match value {
        NfsOp::Close(part) => put_close_args(out, part),
        NfsOp::DelegReturn(part) => put_stateid(out, part),
        NfsOp::Lock(part) => put_lock_args(out, part),
        NfsOp::LockT(part) => put_lock_test_args(out, part),
        NfsOp::LockU(part) => put_unlock_args(out, part),
        NfsOp::Lookup(part) => put_name(out, part),
        NfsOp::Open(part) => put_open_args(out, part),
        NfsOp::OpenConfirm(part) => put_open_confirm_args(out, part),
        NfsOp::OpenDowngrade(part) => put_open_downgrade_args(out, part),
        NfsOp::PutFh(part) => put_handle(out, part),
        NfsOp::Renew(part) => out.u64(*part),
        NfsOp::SetClientId(part) => put_set_client_id_args(out, part),
        NfsOp::SetClientIdConfirm(part) => put_client_confirm(out, part),
        NfsOp::ReleaseLockOwner(part) => put_owner(out, part),
        NfsOp::GetFh | NfsOp::PutRootFh | NfsOp::NotSupported(_) | NfsOp::Illegal(_) => {
            put_nothing(out)
        }
    }
}

#[tactic(auto, unfolding(crate::specs::Ops::op))]
fn put_op(out: &mut XdrOut, value: &NfsOp) -> Result<(), AllocError>
    requires { OpFits (shown_op value.now) }
    ensures { Puts result out.old out.new (op.spell (shown_op value.now)) }
{
    out.u32(value.number())?;
    put_op_part(out, value)?;
    Ok(())
}

/// Writes an operation whose texts, handle and addresses are within their bounds, or a number alone of NotSupported and
/// Illegal, which has to be of their numbers. Want of memory leaves what was written before as it was.
#[tactic(auto, using(xl_rpc::proofs::XdrLaws::taken_back, crate::proofs::AgainLaws::op_again))]
pub fn write_op(out: &mut XdrOut, value: &NfsOp) -> Result<(), AllocError>
    requires { OpFits (shown_op value.now) }
    ensures ok { OnOk result (out.new ≡ out.old ++ op.spell (shown_op value.now)) }
    // What is written is read again, whatever follows.
    ensures again { OnOk result (IsReadAgain op_at (shown_op value.now) out.old out.new) }
    ensures err { OnErr result (out.new ≡ out.old) }
{
    put_whole!(out; put_op(out, value))
}
