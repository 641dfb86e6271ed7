//! The result of OPEN.
ghost use Rattle.xl_base.specs.Codec.{Advances};
ghost use Rattle.xl_rpc.specs.Xdr.{Puts};
ghost use Rattle.xl_nfs.specs.Opened.{limit, change_info, shown_ace, ace, shown_read_delegation, read_delegation, shown_write_delegation, write_delegation, shown_delegation, delegation, shown_open_result, open_result};

use crate::basics::{
    Bitmap, Stateid, put_bitmap, put_name, put_stateid, read_bitmap, read_name, read_stateid,
};
use std::alloc::AllocError;
use xl_format::{put_nothing, put_record, read_record};
use xl_rpc::{RpcBad, Xdr, XdrOut};

/// How the directory changed (change_info4).
#[derive(Clone, Copy)]
pub struct ChangeInfo {
    /// Whether nothing else changed it between the two.
    pub atomic: bool,
    /// Its change attribute before.
    pub before: u64,
    /// Its change attribute afterwards.
    pub after: u64,
}

/// Who may open the file without asking the server (nfsace4).
#[derive(Clone, Copy)]
pub struct Ace<'a> {
    /// Whether it allows or denies.
    pub kind: u32,
    /// Its flags.
    pub flag: u32,
    /// What it allows or denies.
    pub mask: u32,
    /// To whom.
    pub who: &'a [u8],
}

/// A delegation for reading (open_read_delegation4).
#[derive(Clone, Copy)]
pub struct ReadDelegation<'a> {
    /// The delegation.
    pub stateid: Stateid,
    /// Whether it is recalled already.
    pub recall: bool,
    /// Who may open the file without asking the server.
    pub permissions: Ace<'a>,
}

/// A delegation for writing (open_write_delegation4).
#[derive(Clone, Copy)]
pub struct WriteDelegation<'a> {
    /// The delegation.
    pub stateid: Stateid,
    /// Whether it is recalled already.
    pub recall: bool,
    /// How large the file may grow, in bytes (NFS_LIMIT_SIZE).
    pub limit: u64,
    /// Who may open the file without asking the server.
    pub permissions: Ace<'a>,
}

/// The delegation that comes with an open (open_delegation4).
#[derive(Clone, Copy)]
pub enum Delegation<'a> {
    /// None (OPEN_DELEGATE_NONE).
    None,
    /// For reading (OPEN_DELEGATE_READ).
    Read(ReadDelegation<'a>),
    /// For writing (OPEN_DELEGATE_WRITE).
    Write(WriteDelegation<'a>),
}

/// The result of OPEN (OPEN4resok).
#[derive(Clone, Copy)]
pub struct OpenResult<'a> {
    /// The open.
    pub stateid: Stateid,
    /// How the directory changed.
    pub change: ChangeInfo,
    /// 2 if the owner is to be confirmed (OPEN4_RESULT_CONFIRM).
    pub flags: u32,
    /// Which of the attributes were set.
    pub attributes: Bitmap<'a>,
    /// The delegation.
    pub delegation: Delegation<'a>,
}

const LIMIT_SIZE: u32 = 1;

#[tactic(auto, unfolding(crate::specs::Opened::limit))]
fn read_limit(xdr: &mut Xdr) -> Result<u64, RpcBad>
    ensures { Advances (λ n. n) result xdr.old.rest.now xdr.new.rest.now (limit.at xdr.old.rest.now) }
{
    let mut at = *xdr;
    if at.u32()? != LIMIT_SIZE {
        return Err(RpcBad::Value);
    }
    let limit = at.u64()?;
    *xdr = at;
    Ok(limit)
}

#[tactic(auto, unfolding(crate::specs::Opened::limit))]
fn put_limit(out: &mut XdrOut, value: u64) -> Result<(), AllocError>
    ensures { Puts result out.old out.new (limit.spell value) }
{
    put_record!(out; XdrOut::u32: LIMIT_SIZE, XdrOut::u64: value)
}

#[tactic(auto, unfolding(crate::specs::Opened::change_info))]
fn read_change_info(xdr: &mut Xdr) -> Result<ChangeInfo, RpcBad>
    ensures { Advances (λ x. x) result xdr.old.rest.now xdr.new.rest.now (change_info.at xdr.old.rest.now) }
{
    read_record!(xdr; ChangeInfo { atomic: Xdr::boolean, before: Xdr::u64, after: Xdr::u64 })
}

#[tactic(auto, unfolding(crate::specs::Opened::change_info))]
fn put_change_info(out: &mut XdrOut, value: &ChangeInfo) -> Result<(), AllocError>
    ensures { Puts result out.old out.new (change_info.spell value.now) }
{
    put_record!(out; XdrOut::boolean: value.atomic, XdrOut::u64: value.before, XdrOut::u64: value.after)
}

#[tactic(auto, unfolding(crate::specs::Opened::ace))]
fn read_ace<'a>(xdr: &mut Xdr<'a>) -> Result<Ace<'a>, RpcBad>
    ensures { Advances shown_ace result xdr.old.rest.now xdr.new.rest.now (ace.at xdr.old.rest.now) }
{
    read_record!(xdr; Ace { kind: Xdr::u32, flag: Xdr::u32, mask: Xdr::u32, who: read_name })
}

#[tactic(auto, unfolding(crate::specs::Opened::ace))]
fn put_ace(out: &mut XdrOut, value: &Ace) -> Result<(), AllocError>
    requires { ace.Fit (shown_ace value.now) }
    ensures { Puts result out.old out.new (ace.spell (shown_ace value.now)) }
{
    put_record!(out; XdrOut::u32: value.kind, XdrOut::u32: value.flag, XdrOut::u32: value.mask, put_name: value.who)
}

#[tactic(auto, unfolding(crate::specs::Opened::read_delegation))]
fn read_read_delegation<'a>(xdr: &mut Xdr<'a>) -> Result<ReadDelegation<'a>, RpcBad>
    ensures { Advances shown_read_delegation result xdr.old.rest.now xdr.new.rest.now (read_delegation.at xdr.old.rest.now) }
{
    read_record!(xdr; ReadDelegation { stateid: read_stateid, recall: Xdr::boolean, permissions: read_ace })
}

#[tactic(auto, unfolding(crate::specs::Opened::read_delegation))]
fn put_read_delegation(out: &mut XdrOut, value: &ReadDelegation) -> Result<(), AllocError>
    requires { read_delegation.Fit (shown_read_delegation value.now) }
    ensures { Puts result out.old out.new (read_delegation.spell (shown_read_delegation value.now)) }
{
    put_record!(out; put_stateid: &value.stateid, XdrOut::boolean: value.recall, put_ace: &value.permissions)
}

#[tactic(auto, unfolding(crate::specs::Opened::write_delegation))]
fn read_write_delegation<'a>(xdr: &mut Xdr<'a>) -> Result<WriteDelegation<'a>, RpcBad>
    ensures { Advances shown_write_delegation result xdr.old.rest.now xdr.new.rest.now (write_delegation.at xdr.old.rest.now) }
{
    read_record!(xdr; WriteDelegation {
        stateid: read_stateid, recall: Xdr::boolean, limit: read_limit, permissions: read_ace
    })
}

#[tactic(auto, unfolding(crate::specs::Opened::write_delegation))]
fn put_write_delegation(out: &mut XdrOut, value: &WriteDelegation) -> Result<(), AllocError>
    requires { write_delegation.Fit (shown_write_delegation value.now) }
    ensures { Puts result out.old out.new (write_delegation.spell (shown_write_delegation value.now)) }
{
    put_record!(out;
        put_stateid: &value.stateid, XdrOut::boolean: value.recall, put_limit: value.limit,
        put_ace: &value.permissions
    )
}

#[tactic(auto, unfolding(crate::specs::Opened::delegation, xl_format::specs::Formats::nothing))]
fn read_delegation<'a>(xdr: &mut Xdr<'a>) -> Result<Delegation<'a>, RpcBad>
    ensures { Advances shown_delegation result xdr.old.rest.now xdr.new.rest.now (delegation.at xdr.old.rest.now) }
{
    let mut at = *xdr;
    let value = match at.u32()? {
        0 => Delegation::None,
        1 => Delegation::Read(read_read_delegation(&mut at)?),
        2 => Delegation::Write(read_write_delegation(&mut at)?),
        _ => return Err(RpcBad::Value),
    };
    *xdr = at;
    Ok(value)
}

#[tactic(auto, unfolding(crate::specs::Opened::delegation))]
fn put_delegation(out: &mut XdrOut, value: &Delegation) -> Result<(), AllocError>
    requires { delegation.Fit (shown_delegation value.now) }
    ensures { Puts result out.old out.new (delegation.spell (shown_delegation value.now)) }
{
    match value {
        Delegation::None => {
            out.u32(0)?;
            put_nothing(out)?;
        }
        Delegation::Read(part) => {
            out.u32(1)?;
            put_read_delegation(out, part)?;
        }
        Delegation::Write(part) => {
            out.u32(2)?;
            put_write_delegation(out, part)?;
        }
    }
    Ok(())
}

#[tactic(auto, unfolding(crate::specs::Opened::open_result))]
pub(crate) fn read_open_result<'a>(xdr: &mut Xdr<'a>) -> Result<OpenResult<'a>, RpcBad>
    ensures { Advances shown_open_result result xdr.old.rest.now xdr.new.rest.now (open_result.at xdr.old.rest.now) }
{
    read_record!(xdr; OpenResult {
        stateid: read_stateid, change: read_change_info, flags: Xdr::u32, attributes: read_bitmap,
        delegation: read_delegation
    })
}

#[tactic(auto, unfolding(crate::specs::Opened::open_result))]
pub(crate) fn put_open_result(out: &mut XdrOut, value: &OpenResult) -> Result<(), AllocError>
    requires { open_result.Fit (shown_open_result value.now) }
    ensures { Puts result out.old out.new (open_result.spell (shown_open_result value.now)) }
{
    put_record!(out;
        put_stateid: &value.stateid, put_change_info: &value.change, XdrOut::u32: value.flags,
        put_bitmap: &value.attributes, put_delegation: &value.delegation
    )
}
