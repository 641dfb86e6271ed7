//! Ranges: the arguments of LOCK, LOCKT and LOCKU, and who holds what LOCK and LOCKT asked for.
ghost use Rattle.xl_base.specs.Codec.{Advances};
ghost use Rattle.xl_rpc.specs.Xdr.{Puts};
ghost use Rattle.xl_nfs.specs.Locks.{shown_new_locker, new_locker, known_locker, shown_locker, locker, shown_lock_args, lock_args, shown_lock_test_args, lock_test_args, unlock_args, shown_denied, denied};

use crate::basics::{
    LockType, Owner, Stateid, put_lock_type, put_owner, put_stateid, read_lock_type, read_owner,
    read_stateid,
};
use std::alloc::AllocError;
use xl_format::{put_record, read_record};
use xl_rpc::{RpcBad, Xdr, XdrOut};

/// A lock owner that has no locks under this open yet (open_to_lock_owner4).
#[derive(Clone, Copy)]
pub struct NewLocker<'a> {
    /// The open owner's next seqid.
    pub open_seqid: u32,
    /// The open.
    pub open_stateid: Stateid,
    /// The lock owner's seqid.
    pub lock_seqid: u32,
    /// The lock owner.
    pub owner: Owner<'a>,
}

/// A lock owner that has locks under this open (exist_lock_owner4).
#[derive(Clone, Copy)]
pub struct KnownLocker {
    /// Its locks.
    pub stateid: Stateid,
    /// The lock owner's next seqid.
    pub seqid: u32,
}

/// Who asks for a lock (locker4).
#[derive(Clone, Copy)]
pub enum Locker<'a> {
    /// A lock owner that has no locks under this open yet (new_lock_owner is true).
    New(NewLocker<'a>),
    /// A lock owner that has locks under this open (new_lock_owner is false).
    Known(KnownLocker),
}

/// The arguments of LOCK (LOCK4args).
#[derive(Clone, Copy)]
pub struct LockArgs<'a> {
    /// How the range is locked.
    pub kind: LockType,
    /// Whether the client had the lock before the server's restart.
    pub reclaim: bool,
    /// The first byte.
    pub offset: u64,
    /// How many bytes; all ones reaches the last byte.
    pub len: u64,
    /// Who asks.
    pub locker: Locker<'a>,
}

/// The arguments of LOCKT (LOCKT4args).
#[derive(Clone, Copy)]
pub struct LockTestArgs<'a> {
    /// How the range would be locked.
    pub kind: LockType,
    /// The first byte.
    pub offset: u64,
    /// How many bytes; all ones reaches the last byte.
    pub len: u64,
    /// Who asks.
    pub owner: Owner<'a>,
}

/// The arguments of LOCKU (LOCKU4args).
#[derive(Clone, Copy)]
pub struct UnlockArgs {
    /// How the range is locked.
    pub kind: LockType,
    /// The lock owner's next seqid.
    pub seqid: u32,
    /// The lock owner's locks.
    pub stateid: Stateid,
    /// The first byte.
    pub offset: u64,
    /// How many bytes; all ones reaches the last byte.
    pub len: u64,
}

/// Who holds what a LOCK or a LOCKT asked for (LOCK4denied).
#[derive(Clone, Copy)]
pub struct Denied<'a> {
    /// The first byte.
    pub offset: u64,
    /// How many bytes; all ones reaches the last byte.
    pub len: u64,
    /// How the range is locked.
    pub kind: LockType,
    /// Who holds it.
    pub owner: Owner<'a>,
}

#[tactic(auto, unfolding(crate::specs::Locks::new_locker))]
fn read_new_locker<'a>(xdr: &mut Xdr<'a>) -> Result<NewLocker<'a>, RpcBad>
    ensures { Advances shown_new_locker result xdr.old.rest.now xdr.new.rest.now (new_locker.at xdr.old.rest.now) }
{
    read_record!(xdr; NewLocker {
        open_seqid: Xdr::u32, open_stateid: read_stateid, lock_seqid: Xdr::u32, owner: read_owner
    })
}

#[tactic(auto, unfolding(crate::specs::Locks::new_locker))]
fn put_new_locker(out: &mut XdrOut, value: &NewLocker) -> Result<(), AllocError>
    requires { new_locker.Fit (shown_new_locker value.now) }
    ensures { Puts result out.old out.new (new_locker.spell (shown_new_locker value.now)) }
{
    put_record!(out;
        XdrOut::u32: value.open_seqid, put_stateid: &value.open_stateid, XdrOut::u32: value.lock_seqid,
        put_owner: &value.owner
    )
}

#[tactic(auto, unfolding(crate::specs::Locks::known_locker))]
fn read_known_locker(xdr: &mut Xdr) -> Result<KnownLocker, RpcBad>
    ensures { Advances (λ x. x) result xdr.old.rest.now xdr.new.rest.now (known_locker.at xdr.old.rest.now) }
{
    read_record!(xdr; KnownLocker { stateid: read_stateid, seqid: Xdr::u32 })
}

#[tactic(auto, unfolding(crate::specs::Locks::known_locker))]
fn put_known_locker(out: &mut XdrOut, value: &KnownLocker) -> Result<(), AllocError>
    ensures { Puts result out.old out.new (known_locker.spell value.now) }
{
    put_record!(out; put_stateid: &value.stateid, XdrOut::u32: value.seqid)
}

#[tactic(auto, unfolding(crate::specs::Locks::locker))]
fn read_locker<'a>(xdr: &mut Xdr<'a>) -> Result<Locker<'a>, RpcBad>
    ensures { Advances shown_locker result xdr.old.rest.now xdr.new.rest.now (locker.at xdr.old.rest.now) }
{
    let mut at = *xdr;
    let value = if at.boolean()? {
        Locker::New(read_new_locker(&mut at)?)
    } else {
        Locker::Known(read_known_locker(&mut at)?)
    };
    *xdr = at;
    Ok(value)
}

#[tactic(auto, unfolding(crate::specs::Locks::locker))]
fn put_locker(out: &mut XdrOut, value: &Locker) -> Result<(), AllocError>
    requires { locker.Fit (shown_locker value.now) }
    ensures { Puts result out.old out.new (locker.spell (shown_locker value.now)) }
{
    match value {
        Locker::New(part) => {
            out.boolean(true)?;
            put_new_locker(out, part)?;
        }
        Locker::Known(part) => {
            out.boolean(false)?;
            put_known_locker(out, part)?;
        }
    }
    Ok(())
}

#[tactic(auto, unfolding(crate::specs::Locks::lock_args))]
pub(crate) fn read_lock_args<'a>(xdr: &mut Xdr<'a>) -> Result<LockArgs<'a>, RpcBad>
    ensures { Advances shown_lock_args result xdr.old.rest.now xdr.new.rest.now (lock_args.at xdr.old.rest.now) }
{
    read_record!(xdr; LockArgs {
        kind: read_lock_type, reclaim: Xdr::boolean, offset: Xdr::u64, len: Xdr::u64, locker: read_locker
    })
}

#[tactic(auto, unfolding(crate::specs::Locks::lock_args))]
pub(crate) fn put_lock_args(out: &mut XdrOut, value: &LockArgs) -> Result<(), AllocError>
    requires { lock_args.Fit (shown_lock_args value.now) }
    ensures { Puts result out.old out.new (lock_args.spell (shown_lock_args value.now)) }
{
    put_record!(out;
        put_lock_type: value.kind, XdrOut::boolean: value.reclaim, XdrOut::u64: value.offset, XdrOut::u64: value.len,
        put_locker: &value.locker
    )
}

#[tactic(auto, unfolding(crate::specs::Locks::lock_test_args))]
pub(crate) fn read_lock_test_args<'a>(xdr: &mut Xdr<'a>) -> Result<LockTestArgs<'a>, RpcBad>
    ensures { Advances shown_lock_test_args result xdr.old.rest.now xdr.new.rest.now (lock_test_args.at xdr.old.rest.now) }
{
    read_record!(xdr; LockTestArgs { kind: read_lock_type, offset: Xdr::u64, len: Xdr::u64, owner: read_owner })
}

#[tactic(auto, unfolding(crate::specs::Locks::lock_test_args))]
pub(crate) fn put_lock_test_args(out: &mut XdrOut, value: &LockTestArgs) -> Result<(), AllocError>
    requires { lock_test_args.Fit (shown_lock_test_args value.now) }
    ensures { Puts result out.old out.new (lock_test_args.spell (shown_lock_test_args value.now)) }
{
    put_record!(out;
        put_lock_type: value.kind, XdrOut::u64: value.offset, XdrOut::u64: value.len, put_owner: &value.owner
    )
}

#[tactic(auto, unfolding(crate::specs::Locks::unlock_args))]
pub(crate) fn read_unlock_args(xdr: &mut Xdr) -> Result<UnlockArgs, RpcBad>
    ensures { Advances (λ x. x) result xdr.old.rest.now xdr.new.rest.now (unlock_args.at xdr.old.rest.now) }
{
    read_record!(xdr; UnlockArgs {
        kind: read_lock_type, seqid: Xdr::u32, stateid: read_stateid, offset: Xdr::u64, len: Xdr::u64
    })
}

#[tactic(auto, unfolding(crate::specs::Locks::unlock_args))]
pub(crate) fn put_unlock_args(out: &mut XdrOut, value: &UnlockArgs) -> Result<(), AllocError>
    ensures { Puts result out.old out.new (unlock_args.spell value.now) }
{
    put_record!(out;
        put_lock_type: value.kind, XdrOut::u32: value.seqid, put_stateid: &value.stateid, XdrOut::u64: value.offset,
        XdrOut::u64: value.len
    )
}

#[tactic(auto, unfolding(crate::specs::Locks::denied))]
pub(crate) fn read_denied<'a>(xdr: &mut Xdr<'a>) -> Result<Denied<'a>, RpcBad>
    ensures { Advances shown_denied result xdr.old.rest.now xdr.new.rest.now (denied.at xdr.old.rest.now) }
{
    read_record!(xdr; Denied { offset: Xdr::u64, len: Xdr::u64, kind: read_lock_type, owner: read_owner })
}

#[tactic(auto, unfolding(crate::specs::Locks::denied))]
pub(crate) fn put_denied(out: &mut XdrOut, value: &Denied) -> Result<(), AllocError>
    requires { denied.Fit (shown_denied value.now) }
    ensures { Puts result out.old out.new (denied.spell (shown_denied value.now)) }
{
    put_record!(out;
        XdrOut::u64: value.offset, XdrOut::u64: value.len, put_lock_type: value.kind, put_owner: &value.owner
    )
}
