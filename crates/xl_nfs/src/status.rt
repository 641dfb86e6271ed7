//! How an operation ended (nfsstat4).
ghost use Rattle.std.specs.Prelude.{◌≡◌};
ghost use Rattle.xl_base.specs.Codec.{Advances};
ghost use Rattle.xl_rpc.specs.Xdr.{Puts};
ghost use Rattle.xl_nfs.specs.Statuses.{status_number, made_status, status};

use std::alloc::AllocError;
use xl_rpc::{RpcBad, Xdr, XdrOut};

/// How an operation ended (nfsstat4, RFC 7530 13.1): the statuses that this server answers.
#[derive(Clone, Copy)]
pub enum NfsStatus {
    /// It was done (NFS4_OK, 0).
    Ok,
    /// No such file (NFS4ERR_NOENT, 2).
    NoEnt,
    /// The file is no directory (NFS4ERR_NOTDIR, 20).
    NotDir,
    /// The file is a directory (NFS4ERR_ISDIR, 21).
    IsDir,
    /// An argument is not allowed here (NFS4ERR_INVAL, 22).
    Inval,
    /// The handle is of no file any more (NFS4ERR_STALE, 70).
    Stale,
    /// The handle is none of this server (NFS4ERR_BADHANDLE, 10001).
    BadHandle,
    /// The operation is not served (NFS4ERR_NOTSUPP, 10004).
    NotSupp,
    /// The server failed (NFS4ERR_SERVERFAULT, 10006).
    ServerFault,
    /// It is to be asked again later (NFS4ERR_DELAY, 10008).
    Delay,
    /// Another holds what was asked (NFS4ERR_DENIED, 10010).
    Denied,
    /// The server is in grace after a restart (NFS4ERR_GRACE, 10013).
    Grace,
    /// Another's open denies this one (NFS4ERR_SHARE_DENIED, 10015).
    ShareDenied,
    /// The server has no room (NFS4ERR_RESOURCE, 10018).
    Resource,
    /// There is no current file handle (NFS4ERR_NOFILEHANDLE, 10020).
    NoFileHandle,
    /// The minor version is not served (NFS4ERR_MINOR_VERS_MISMATCH, 10021).
    MinorVersMismatch,
    /// The client id is none that is confirmed (NFS4ERR_STALE_CLIENTID, 10022).
    StaleClientId,
    /// The stateid is of an earlier start of the server (NFS4ERR_STALE_STATEID, 10023).
    StaleStateid,
    /// The state has changed since that stateid (NFS4ERR_OLD_STATEID, 10024).
    OldStateid,
    /// The stateid is none that fits (NFS4ERR_BAD_STATEID, 10025).
    BadStateid,
    /// The owner's seqid is not the next one (NFS4ERR_BAD_SEQID, 10026).
    BadSeqid,
    /// Nothing can be reclaimed any more (NFS4ERR_NO_GRACE, 10033).
    NoGrace,
    /// The client may not reclaim (NFS4ERR_RECLAIM_BAD, 10034).
    ReclaimBad,
    /// Another holds what was reclaimed (NFS4ERR_RECLAIM_CONFLICT, 10035).
    ReclaimConflict,
    /// The arguments cannot be read (NFS4ERR_BADXDR, 10036).
    BadXdr,
    /// The owner still holds locks (NFS4ERR_LOCKS_HELD, 10037).
    LocksHeld,
    /// The open is not for this kind of access (NFS4ERR_OPENMODE, 10038).
    OpenMode,
    /// There is no such operation (NFS4ERR_OP_ILLEGAL, 10044).
    OpIllegal,
}

impl NfsStatus {
    /// Its number.
    #[tactic(auto, unfolding(crate::specs::Statuses::status_number))]
    pub fn number(self) -> u32
        ensures { result ≡ status_number self }
    {
        match self {
            NfsStatus::Ok => 0,
            NfsStatus::NoEnt => 2,
            NfsStatus::NotDir => 20,
            NfsStatus::IsDir => 21,
            NfsStatus::Inval => 22,
            NfsStatus::Stale => 70,
            NfsStatus::BadHandle => 10001,
            NfsStatus::NotSupp => 10004,
            NfsStatus::ServerFault => 10006,
            NfsStatus::Delay => 10008,
            NfsStatus::Denied => 10010,
            NfsStatus::Grace => 10013,
            NfsStatus::ShareDenied => 10015,
            NfsStatus::Resource => 10018,
            NfsStatus::NoFileHandle => 10020,
            NfsStatus::MinorVersMismatch => 10021,
            NfsStatus::StaleClientId => 10022,
            NfsStatus::StaleStateid => 10023,
            NfsStatus::OldStateid => 10024,
            NfsStatus::BadStateid => 10025,
            NfsStatus::BadSeqid => 10026,
            NfsStatus::NoGrace => 10033,
            NfsStatus::ReclaimBad => 10034,
            NfsStatus::ReclaimConflict => 10035,
            NfsStatus::BadXdr => 10036,
            NfsStatus::LocksHeld => 10037,
            NfsStatus::OpenMode => 10038,
            NfsStatus::OpIllegal => 10044,
        }
    }
}

/// The status of a number; of a number of none, some status.
#[tactic(auto, unfolding(crate::specs::Statuses::made_status))]
fn status_of(number: u32) -> NfsStatus
    ensures { result ≡ made_status number }
{
    match number {
        0 => NfsStatus::Ok,
        2 => NfsStatus::NoEnt,
        20 => NfsStatus::NotDir,
        21 => NfsStatus::IsDir,
        22 => NfsStatus::Inval,
        70 => NfsStatus::Stale,
        10001 => NfsStatus::BadHandle,
        10004 => NfsStatus::NotSupp,
        10006 => NfsStatus::ServerFault,
        10008 => NfsStatus::Delay,
        10010 => NfsStatus::Denied,
        10013 => NfsStatus::Grace,
        10015 => NfsStatus::ShareDenied,
        10018 => NfsStatus::Resource,
        10020 => NfsStatus::NoFileHandle,
        10021 => NfsStatus::MinorVersMismatch,
        10022 => NfsStatus::StaleClientId,
        10023 => NfsStatus::StaleStateid,
        10024 => NfsStatus::OldStateid,
        10025 => NfsStatus::BadStateid,
        10026 => NfsStatus::BadSeqid,
        10033 => NfsStatus::NoGrace,
        10034 => NfsStatus::ReclaimBad,
        10035 => NfsStatus::ReclaimConflict,
        10036 => NfsStatus::BadXdr,
        10037 => NfsStatus::LocksHeld,
        10038 => NfsStatus::OpenMode,
        _ => NfsStatus::OpIllegal,
    }
}

#[tactic(auto, unfolding(crate::specs::Statuses::status))]
pub(crate) fn read_status(xdr: &mut Xdr) -> Result<NfsStatus, RpcBad>
    ensures { Advances (λ s. s) result xdr.old.rest.now xdr.new.rest.now (status.at xdr.old.rest.now) }
{
    let mut at = *xdr;
    let number = at.u32()?;
    let status = status_of(number);
    if number == status.number() {
        *xdr = at;
        Ok(status)
    } else {
        Err(RpcBad::Value)
    }
}

#[tactic(auto, unfolding(crate::specs::Statuses::status))]
pub(crate) fn put_status(out: &mut XdrOut, value: NfsStatus) -> Result<(), AllocError>
    ensures { Puts result out.old out.new (status.spell value) }
{
    out.u32(value.number())
}
