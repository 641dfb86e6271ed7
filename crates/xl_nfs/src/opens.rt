//! Opens: the arguments of OPEN, OPEN_CONFIRM, OPEN_DOWNGRADE and CLOSE.
ghost use Rattle.xl_base.specs.Codec.{Advances};
ghost use Rattle.xl_rpc.specs.Xdr.{Puts};
ghost use Rattle.xl_nfs.specs.Opens.{close_args, open_confirm_args, open_downgrade_args, shown_attributes, attributes, shown_create_how, create_how, shown_open_how, open_how, delegation_type, shown_named_delegation, named_delegation, shown_open_claim, open_claim, shown_open_args, open_args};

use crate::basics::{
    Bitmap, Owner, Stateid, put_bitmap, put_name, put_owner, put_stateid, read_bitmap, read_name,
    read_owner, read_stateid, read_verifier,
};
use std::alloc::AllocError;
use xl_format::{put_nothing, put_record, read_record};
use xl_rpc::{RpcBad, Xdr, XdrOut};

/// The arguments of CLOSE (CLOSE4args).
#[derive(Clone, Copy)]
pub struct CloseArgs {
    /// The open owner's next seqid.
    pub seqid: u32,
    /// The open.
    pub stateid: Stateid,
}

/// The arguments of OPEN_CONFIRM (OPEN_CONFIRM4args).
#[derive(Clone, Copy)]
pub struct OpenConfirmArgs {
    /// The open.
    pub stateid: Stateid,
    /// The open owner's next seqid.
    pub seqid: u32,
}

/// The arguments of OPEN_DOWNGRADE (OPEN_DOWNGRADE4args).
#[derive(Clone, Copy)]
pub struct OpenDowngradeArgs {
    /// The open.
    pub stateid: Stateid,
    /// The open owner's next seqid.
    pub seqid: u32,
    /// What the open keeps: 1 reading, 2 writing, 3 both.
    pub access: u32,
    /// What stays denied to others: 0 nothing, 1 reading, 2 writing, 3 both.
    pub deny: u32,
}

/// Attributes of a file (fattr4).
#[derive(Clone, Copy)]
pub struct Attributes<'a> {
    /// Which they are.
    pub mask: Bitmap<'a>,
    /// Their values, one behind the other.
    pub values: &'a [u8],
}

/// How an OPEN makes a file (createhow4).
#[derive(Clone, Copy)]
pub enum CreateHow<'a> {
    /// A file that is there is opened (UNCHECKED4).
    Unchecked(Attributes<'a>),
    /// A file that is there is an error (GUARDED4).
    Guarded(Attributes<'a>),
    /// A file that is there is opened if it was made with this verifier (EXCLUSIVE4).
    Exclusive([u8; 8]),
}

/// Whether an OPEN makes a file (openflag4).
#[derive(Clone, Copy)]
pub enum OpenHow<'a> {
    /// It opens what is there (OPEN4_NOCREATE).
    NoCreate,
    /// It makes what is not there (OPEN4_CREATE).
    Create(CreateHow<'a>),
}

/// A delegation and the name of its file (open_claim_delegate_cur4).
#[derive(Clone, Copy)]
pub struct NamedDelegation<'a> {
    /// The delegation.
    pub stateid: Stateid,
    /// The file's name.
    pub name: &'a [u8],
}

/// What an OPEN opens, and by what right (open_claim4).
#[derive(Clone, Copy)]
pub enum OpenClaim<'a> {
    /// The file of this name in the current directory (CLAIM_NULL).
    Null(&'a [u8]),
    /// The current file, which the client had open before the server's restart, with this delegation (CLAIM_PREVIOUS).
    Previous(DelegationType),
    /// The file of this name, for which the client has this delegation (CLAIM_DELEGATE_CUR).
    DelegateCurrent(NamedDelegation<'a>),
    /// The file of this name, for which the client had a delegation before its own restart (CLAIM_DELEGATE_PREV).
    DelegatePrevious(&'a [u8]),
}

/// The arguments of OPEN (OPEN4args).
#[derive(Clone, Copy)]
pub struct OpenArgs<'a> {
    /// The open owner's next seqid.
    pub seqid: u32,
    /// What the open is for: 1 reading, 2 writing, 3 both.
    pub access: u32,
    /// What is denied to others: 0 nothing, 1 reading, 2 writing, 3 both.
    pub deny: u32,
    /// Who asks.
    pub owner: Owner<'a>,
    /// Whether the file is made.
    pub how: OpenHow<'a>,
    /// What is opened.
    pub claim: OpenClaim<'a>,
}

/// Which delegation a client had (open_delegation_type4), numbered from 0 in this order.
#[derive(Clone, Copy)]
pub enum DelegationType {
    /// None (OPEN_DELEGATE_NONE).
    None,
    /// For reading (OPEN_DELEGATE_READ).
    Read,
    /// For writing (OPEN_DELEGATE_WRITE).
    Write,
}

#[tactic(auto, unfolding(crate::specs::Opens::close_args))]
pub(crate) fn read_close_args(xdr: &mut Xdr) -> Result<CloseArgs, RpcBad>
    ensures { Advances (λ x. x) result xdr.old.rest.now xdr.new.rest.now (close_args.at xdr.old.rest.now) }
{
    read_record!(xdr; CloseArgs { seqid: Xdr::u32, stateid: read_stateid })
}

#[tactic(auto, unfolding(crate::specs::Opens::close_args))]
pub(crate) fn put_close_args(out: &mut XdrOut, value: &CloseArgs) -> Result<(), AllocError>
    ensures { Puts result out.old out.new (close_args.spell value.now) }
{
    put_record!(out; XdrOut::u32: value.seqid, put_stateid: &value.stateid)
}

#[tactic(auto, unfolding(crate::specs::Opens::open_confirm_args))]
pub(crate) fn read_open_confirm_args(xdr: &mut Xdr) -> Result<OpenConfirmArgs, RpcBad>
    ensures { Advances (λ x. x) result xdr.old.rest.now xdr.new.rest.now (open_confirm_args.at xdr.old.rest.now) }
{
    read_record!(xdr; OpenConfirmArgs { stateid: read_stateid, seqid: Xdr::u32 })
}

#[tactic(auto, unfolding(crate::specs::Opens::open_confirm_args))]
pub(crate) fn put_open_confirm_args(
    out: &mut XdrOut,
    value: &OpenConfirmArgs,
) -> Result<(), AllocError>
    ensures { Puts result out.old out.new (open_confirm_args.spell value.now) }
{
    put_record!(out; put_stateid: &value.stateid, XdrOut::u32: value.seqid)
}

#[tactic(auto, unfolding(crate::specs::Opens::open_downgrade_args))]
pub(crate) fn read_open_downgrade_args(xdr: &mut Xdr) -> Result<OpenDowngradeArgs, RpcBad>
    ensures { Advances (λ x. x) result xdr.old.rest.now xdr.new.rest.now (open_downgrade_args.at xdr.old.rest.now) }
{
    read_record!(xdr; OpenDowngradeArgs { stateid: read_stateid, seqid: Xdr::u32, access: Xdr::u32, deny: Xdr::u32 })
}

#[tactic(auto, unfolding(crate::specs::Opens::open_downgrade_args))]
pub(crate) fn put_open_downgrade_args(
    out: &mut XdrOut,
    value: &OpenDowngradeArgs,
) -> Result<(), AllocError>
    ensures { Puts result out.old out.new (open_downgrade_args.spell value.now) }
{
    put_record!(out;
        put_stateid: &value.stateid, XdrOut::u32: value.seqid, XdrOut::u32: value.access, XdrOut::u32: value.deny
    )
}

#[tactic(auto, unfolding(crate::specs::Opens::attributes))]
fn read_attributes<'a>(xdr: &mut Xdr<'a>) -> Result<Attributes<'a>, RpcBad>
    ensures { Advances shown_attributes result xdr.old.rest.now xdr.new.rest.now (attributes.at xdr.old.rest.now) }
{
    read_record!(xdr; Attributes { mask: read_bitmap, values: read_name })
}

#[tactic(auto, unfolding(crate::specs::Opens::attributes))]
fn put_attributes(out: &mut XdrOut, value: &Attributes) -> Result<(), AllocError>
    requires { attributes.Fit (shown_attributes value.now) }
    ensures { Puts result out.old out.new (attributes.spell (shown_attributes value.now)) }
{
    put_record!(out; put_bitmap: &value.mask, put_name: value.values)
}

#[tactic(auto, unfolding(crate::specs::Opens::create_how))]
fn read_create_how<'a>(xdr: &mut Xdr<'a>) -> Result<CreateHow<'a>, RpcBad>
    ensures { Advances shown_create_how result xdr.old.rest.now xdr.new.rest.now (create_how.at xdr.old.rest.now) }
{
    let mut at = *xdr;
    let value = match at.u32()? {
        0 => CreateHow::Unchecked(read_attributes(&mut at)?),
        1 => CreateHow::Guarded(read_attributes(&mut at)?),
        2 => CreateHow::Exclusive(read_verifier(&mut at)?),
        _ => return Err(RpcBad::Value),
    };
    *xdr = at;
    Ok(value)
}

#[tactic(auto, unfolding(crate::specs::Opens::create_how))]
fn put_create_how(out: &mut XdrOut, value: &CreateHow) -> Result<(), AllocError>
    requires { create_how.Fit (shown_create_how value.now) }
    ensures { Puts result out.old out.new (create_how.spell (shown_create_how value.now)) }
{
    match value {
        CreateHow::Unchecked(part) => {
            out.u32(0)?;
            put_attributes(out, part)?;
        }
        CreateHow::Guarded(part) => {
            out.u32(1)?;
            put_attributes(out, part)?;
        }
        CreateHow::Exclusive(part) => {
            out.u32(2)?;
            out.fixed(part)?;
        }
    }
    Ok(())
}

#[tactic(auto, unfolding(crate::specs::Opens::open_how, xl_format::specs::Formats::nothing))]
fn read_open_how<'a>(xdr: &mut Xdr<'a>) -> Result<OpenHow<'a>, RpcBad>
    ensures { Advances shown_open_how result xdr.old.rest.now xdr.new.rest.now (open_how.at xdr.old.rest.now) }
{
    let mut at = *xdr;
    let value = match at.u32()? {
        0 => OpenHow::NoCreate,
        1 => OpenHow::Create(read_create_how(&mut at)?),
        _ => return Err(RpcBad::Value),
    };
    *xdr = at;
    Ok(value)
}

#[tactic(auto, unfolding(crate::specs::Opens::open_how))]
fn put_open_how(out: &mut XdrOut, value: &OpenHow) -> Result<(), AllocError>
    requires { open_how.Fit (shown_open_how value.now) }
    ensures { Puts result out.old out.new (open_how.spell (shown_open_how value.now)) }
{
    match value {
        OpenHow::NoCreate => {
            out.u32(0)?;
            put_nothing(out)?;
        }
        OpenHow::Create(part) => {
            out.u32(1)?;
            put_create_how(out, part)?;
        }
    }
    Ok(())
}

#[tactic(auto, unfolding(crate::specs::Opens::delegation_type))]
fn read_delegation_type(xdr: &mut Xdr) -> Result<DelegationType, RpcBad>
    ensures { Advances (λ t. t) result xdr.old.rest.now xdr.new.rest.now (delegation_type.at xdr.old.rest.now) }
{
    let mut at = *xdr;
    let value = match at.u32()? {
        0 => DelegationType::None,
        1 => DelegationType::Read,
        2 => DelegationType::Write,
        _ => return Err(RpcBad::Value),
    };
    *xdr = at;
    Ok(value)
}

#[tactic(auto, unfolding(crate::specs::Opens::delegation_type))]
fn put_delegation_type(out: &mut XdrOut, value: DelegationType) -> Result<(), AllocError>
    ensures { Puts result out.old out.new (delegation_type.spell value) }
{
    out.u32(match value {
        DelegationType::None => 0,
        DelegationType::Read => 1,
        DelegationType::Write => 2,
    })
}

#[tactic(auto, unfolding(crate::specs::Opens::named_delegation))]
fn read_named_delegation<'a>(xdr: &mut Xdr<'a>) -> Result<NamedDelegation<'a>, RpcBad>
    ensures { Advances shown_named_delegation result xdr.old.rest.now xdr.new.rest.now (named_delegation.at xdr.old.rest.now) }
{
    read_record!(xdr; NamedDelegation { stateid: read_stateid, name: read_name })
}

#[tactic(auto, unfolding(crate::specs::Opens::named_delegation))]
fn put_named_delegation(out: &mut XdrOut, value: &NamedDelegation) -> Result<(), AllocError>
    requires { named_delegation.Fit (shown_named_delegation value.now) }
    ensures { Puts result out.old out.new (named_delegation.spell (shown_named_delegation value.now)) }
{
    put_record!(out; put_stateid: &value.stateid, put_name: value.name)
}

#[tactic(auto, unfolding(crate::specs::Opens::open_claim))]
fn read_open_claim<'a>(xdr: &mut Xdr<'a>) -> Result<OpenClaim<'a>, RpcBad>
    ensures { Advances shown_open_claim result xdr.old.rest.now xdr.new.rest.now (open_claim.at xdr.old.rest.now) }
{
    let mut at = *xdr;
    let value = match at.u32()? {
        0 => OpenClaim::Null(read_name(&mut at)?),
        1 => OpenClaim::Previous(read_delegation_type(&mut at)?),
        2 => OpenClaim::DelegateCurrent(read_named_delegation(&mut at)?),
        3 => OpenClaim::DelegatePrevious(read_name(&mut at)?),
        _ => return Err(RpcBad::Value),
    };
    *xdr = at;
    Ok(value)
}

#[tactic(auto, unfolding(crate::specs::Opens::open_claim))]
fn put_open_claim(out: &mut XdrOut, value: &OpenClaim) -> Result<(), AllocError>
    requires { open_claim.Fit (shown_open_claim value.now) }
    ensures { Puts result out.old out.new (open_claim.spell (shown_open_claim value.now)) }
{
    match value {
        OpenClaim::Null(part) => {
            out.u32(0)?;
            put_name(out, part)?;
        }
        OpenClaim::Previous(part) => {
            out.u32(1)?;
            put_delegation_type(out, *part)?;
        }
        OpenClaim::DelegateCurrent(part) => {
            out.u32(2)?;
            put_named_delegation(out, part)?;
        }
        OpenClaim::DelegatePrevious(part) => {
            out.u32(3)?;
            put_name(out, part)?;
        }
    }
    Ok(())
}

#[tactic(auto, unfolding(crate::specs::Opens::open_args))]
pub(crate) fn read_open_args<'a>(xdr: &mut Xdr<'a>) -> Result<OpenArgs<'a>, RpcBad>
    ensures { Advances shown_open_args result xdr.old.rest.now xdr.new.rest.now (open_args.at xdr.old.rest.now) }
{
    read_record!(xdr; OpenArgs {
        seqid: Xdr::u32, access: Xdr::u32, deny: Xdr::u32, owner: read_owner, how: read_open_how,
        claim: read_open_claim
    })
}

#[tactic(auto, unfolding(crate::specs::Opens::open_args))]
pub(crate) fn put_open_args(out: &mut XdrOut, value: &OpenArgs) -> Result<(), AllocError>
    requires { open_args.Fit (shown_open_args value.now) }
    ensures { Puts result out.old out.new (open_args.spell (shown_open_args value.now)) }
{
    put_record!(out;
        XdrOut::u32: value.seqid, XdrOut::u32: value.access, XdrOut::u32: value.deny, put_owner: &value.owner,
        put_open_how: &value.how, put_open_claim: &value.claim
    )
}
