//! A status and what stands behind it.
ghost use Rattle.std.specs.Prelude.{◌≡◌};
ghost use Rattle.xl_base.specs.Codec.{Advances};
ghost use Rattle.xl_rpc.specs.Xdr.{Puts};
ghost use Rattle.xl_format.specs.Formats.{nothing};
ghost use Rattle.xl_nfs.specs.Basics.{handle, stateid};
ghost use Rattle.xl_nfs.specs.Opened.{shown_open_result, open_result};
ghost use Rattle.xl_nfs.specs.Clients.{client_confirm};
ghost use Rattle.xl_nfs.specs.Outcomes.{shown_outcome, outcome_status, outcome, shown_lock_outcome, lock_outcome_status, lock_outcome};

use crate::basics::{Stateid, put_handle, put_stateid, read_handle, read_stateid};
use crate::clients::{ClientConfirm, put_client_confirm, read_client_confirm};
use crate::locks::{Denied, put_denied, read_denied};
use crate::opened::{OpenResult, put_open_result, read_open_result};
use crate::status::{NfsStatus, put_status, read_status};
use std::alloc::AllocError;
use xl_format::put_nothing;
use xl_rpc::{RpcBad, Xdr, XdrOut};

/// Why a range cannot be locked (LOCK4res, LOCKT4res).
#[derive(Clone, Copy)]
pub enum LockFault<'a> {
    /// This lock stands against it (NFS4ERR_DENIED).
    Denied(Denied<'a>),
    /// Another status, neither Ok nor Denied.
    Other(NfsStatus),
}

/// Reads a status, and what a function reads behind the status Ok.
macro_rules! read_outcome {
    ($xdr:ident; $read:path) => {{
        let mut at = *$xdr;
        let outcome = match read_status(&mut at)? {
            NfsStatus::Ok => Ok($read(&mut at)?),
            status => Err(status),
        };
        *$xdr = at;
        Ok(outcome)
    }};
}

/// Writes a status, and behind the status Ok what a function writes.
macro_rules! put_outcome {
    ($out:ident; $value:ident; $put:path) => {{
        match $value {
            Ok(part) => {
                put_status($out, NfsStatus::Ok)?;
                $put($out, part)?;
            }
            Err(status) => {
                put_status($out, *status)?;
                put_nothing($out)?;
            }
        }
        Ok(())
    }};
}

#[tactic(auto, unfolding(crate::specs::Outcomes::outcome, xl_format::specs::Formats::nothing))]
pub(crate) fn read_stateid_outcome(xdr: &mut Xdr) -> Result<Result<Stateid, NfsStatus>, RpcBad>
    ensures { Advances (shown_outcome (λ x. x)) result xdr.old.rest.now xdr.new.rest.now ((outcome stateid).at xdr.old.rest.now) }
{
    read_outcome!(xdr; read_stateid)
}

#[tactic(auto, unfolding(crate::specs::Outcomes::outcome))]
pub(crate) fn put_stateid_outcome(
    out: &mut XdrOut,
    value: &Result<Stateid, NfsStatus>,
) -> Result<(), AllocError>
    requires { (outcome stateid).Fit (shown_outcome (λ x. x) value.now) }
    ensures { Puts result out.old out.new ((outcome stateid).spell (shown_outcome (λ x. x) value.now)) }
{
    put_outcome!(out; value; put_stateid)
}

#[tactic(auto, unfolding(crate::specs::Outcomes::outcome, xl_format::specs::Formats::nothing))]
pub(crate) fn read_handle_outcome<'a>(
    xdr: &mut Xdr<'a>,
) -> Result<Result<&'a [u8], NfsStatus>, RpcBad>
    ensures { Advances (shown_outcome (λ x. x.now)) result xdr.old.rest.now xdr.new.rest.now ((outcome handle).at xdr.old.rest.now) }
{
    read_outcome!(xdr; read_handle)
}

#[tactic(auto, unfolding(crate::specs::Outcomes::outcome))]
pub(crate) fn put_handle_outcome(
    out: &mut XdrOut,
    value: &Result<&[u8], NfsStatus>,
) -> Result<(), AllocError>
    requires { (outcome handle).Fit (shown_outcome (λ x. x.now) value.now) }
    ensures { Puts result out.old out.new ((outcome handle).spell (shown_outcome (λ x. x.now) value.now)) }
{
    put_outcome!(out; value; put_handle)
}

#[tactic(auto, unfolding(crate::specs::Outcomes::outcome, xl_format::specs::Formats::nothing))]
pub(crate) fn read_open_outcome<'a>(
    xdr: &mut Xdr<'a>,
) -> Result<Result<OpenResult<'a>, NfsStatus>, RpcBad>
    ensures { Advances (shown_outcome shown_open_result) result xdr.old.rest.now xdr.new.rest.now ((outcome open_result).at xdr.old.rest.now) }
{
    read_outcome!(xdr; read_open_result)
}

#[tactic(auto, unfolding(crate::specs::Outcomes::outcome))]
pub(crate) fn put_open_outcome(
    out: &mut XdrOut,
    value: &Result<OpenResult, NfsStatus>,
) -> Result<(), AllocError>
    requires { (outcome open_result).Fit (shown_outcome shown_open_result value.now) }
    ensures { Puts result out.old out.new ((outcome open_result).spell (shown_outcome shown_open_result value.now)) }
{
    put_outcome!(out; value; put_open_result)
}

#[tactic(auto, unfolding(crate::specs::Outcomes::outcome, xl_format::specs::Formats::nothing))]
pub(crate) fn read_client_outcome(xdr: &mut Xdr) -> Result<Result<ClientConfirm, NfsStatus>, RpcBad>
    ensures { Advances (shown_outcome (λ x. x)) result xdr.old.rest.now xdr.new.rest.now ((outcome client_confirm).at xdr.old.rest.now) }
{
    read_outcome!(xdr; read_client_confirm)
}

#[tactic(auto, unfolding(crate::specs::Outcomes::outcome))]
pub(crate) fn put_client_outcome(
    out: &mut XdrOut,
    value: &Result<ClientConfirm, NfsStatus>,
) -> Result<(), AllocError>
    requires { (outcome client_confirm).Fit (shown_outcome (λ x. x) value.now) }
    ensures { Puts result out.old out.new ((outcome client_confirm).spell (shown_outcome (λ x. x) value.now)) }
{
    put_outcome!(out; value; put_client_confirm)
}

#[tactic(auto, unfolding(crate::specs::Outcomes::lock_outcome, xl_format::specs::Formats::nothing))]
pub(crate) fn read_lock_outcome<'a>(
    xdr: &mut Xdr<'a>,
) -> Result<Result<Stateid, LockFault<'a>>, RpcBad>
    ensures { Advances shown_lock_outcome result xdr.old.rest.now xdr.new.rest.now ((lock_outcome stateid).at xdr.old.rest.now) }
{
    let mut at = *xdr;
    let outcome = match read_status(&mut at)? {
        NfsStatus::Ok => Ok(read_stateid(&mut at)?),
        NfsStatus::Denied => Err(LockFault::Denied(read_denied(&mut at)?)),
        status => Err(LockFault::Other(status)),
    };
    *xdr = at;
    Ok(outcome)
}

#[tactic(auto, unfolding(crate::specs::Outcomes::lock_outcome))]
pub(crate) fn put_lock_outcome(
    out: &mut XdrOut,
    value: &Result<Stateid, LockFault>,
) -> Result<(), AllocError>
    requires { (lock_outcome stateid).Fit (shown_lock_outcome value.now) }
    ensures { Puts result out.old out.new ((lock_outcome stateid).spell (shown_lock_outcome value.now)) }
{
    match value {
        Ok(part) => {
            put_status(out, NfsStatus::Ok)?;
            put_stateid(out, part)?;
        }
        Err(LockFault::Denied(held)) => {
            put_status(out, NfsStatus::Denied)?;
            put_denied(out, held)?;
        }
        Err(LockFault::Other(status)) => {
            put_status(out, *status)?;
            put_nothing(out)?;
        }
    }
    Ok(())
}

#[tactic(auto, unfolding(crate::specs::Outcomes::lock_outcome, xl_format::specs::Formats::nothing))]
pub(crate) fn read_lock_test_outcome<'a>(
    xdr: &mut Xdr<'a>,
) -> Result<Result<(), LockFault<'a>>, RpcBad>
    ensures { Advances shown_lock_outcome result xdr.old.rest.now xdr.new.rest.now ((lock_outcome nothing).at xdr.old.rest.now) }
{
    let mut at = *xdr;
    let outcome = match read_status(&mut at)? {
        NfsStatus::Ok => Ok(()),
        NfsStatus::Denied => Err(LockFault::Denied(read_denied(&mut at)?)),
        status => Err(LockFault::Other(status)),
    };
    *xdr = at;
    Ok(outcome)
}

#[tactic(auto, unfolding(crate::specs::Outcomes::lock_outcome))]
pub(crate) fn put_lock_test_outcome(
    out: &mut XdrOut,
    value: &Result<(), LockFault>,
) -> Result<(), AllocError>
    requires { (lock_outcome nothing).Fit (shown_lock_outcome value.now) }
    ensures { Puts result out.old out.new ((lock_outcome nothing).spell (shown_lock_outcome value.now)) }
{
    match value {
        Ok(()) => {
            put_status(out, NfsStatus::Ok)?;
            put_nothing(out)?;
        }
        Err(LockFault::Denied(held)) => {
            put_status(out, NfsStatus::Denied)?;
            put_denied(out, held)?;
        }
        Err(LockFault::Other(status)) => {
            put_status(out, *status)?;
            put_nothing(out)?;
        }
    }
    Ok(())
}

pub(crate) fn ended_as<T>(outcome: &Result<T, NfsStatus>) -> NfsStatus
    ensures { result ≡ outcome_status outcome.now }
{
    match outcome {
        Ok(_) => NfsStatus::Ok,
        Err(status) => *status,
    }
}

pub(crate) fn lock_ended_as<T>(outcome: &Result<T, LockFault>) -> NfsStatus
    ensures { result ≡ lock_outcome_status (shown_lock_outcome outcome.now) }
{
    match outcome {
        Ok(_) => NfsStatus::Ok,
        Err(LockFault::Denied(_)) => NfsStatus::Denied,
        Err(LockFault::Other(status)) => *status,
    }
}
