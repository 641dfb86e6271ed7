//! What an operation is answered.
ghost use Rattle.std.specs.Prelude.{◌≡◌, ◌≤◌, length};
ghost use Rattle.xl_nfs.specs.Basics.{most_text_bytes};
ghost use Rattle.xl_nfs_opens.specs.Plans.{status_of};
ghost use Rattle.xl_nfs_opens.specs.Seqids.{kept_status, is_short};

use std::marker::Model;
use xl_base::Sequence;
use xl_nfs::{ClientConfirm, LockType, NfsStatus, Stateid, read_result};
use xl_nfs_state::ResultBytes;
use xl_rpc::Xdr;

/// How many bytes a result has at most, except that of a lock that is denied: the length of OPEN's with no attributes
/// and a delegation for writing.
const MOST_SHORT: usize = 104;

/// The bytes of an owner that holds a lock, 1,024 at most. A contract sees the bytes.
#[derive(Drop)]
pub struct HolderBytes {
    bytes: Sequence<u8>,
}

impl Model for HolderBytes {
    ghost use Rattle.std.specs.Prelude.{◌≤◌, ℕ, List, length};
    ghost use Rattle.xl_nfs.specs.Basics.{most_text_bytes};

    ghost Value = { List ℕ };

    ghost view = { λ h. h.bytes };

    ghost invariant = { λ h. length h.bytes ≤ most_text_bytes };
}

impl HolderBytes {
    /// These bytes, 1,024 at most. It takes no memory.
    pub fn new(bytes: Sequence<u8>) -> HolderBytes
        requires { length bytes ≤ most_text_bytes }
        ensures { result ≡ bytes }
    {
        HolderBytes { bytes }
    }

    /// The bytes.
    pub fn as_slice(&self) -> &[u8]
        ensures bytes { result.now ≡ self.now }
        ensures few { length self.now ≤ most_text_bytes }
    {
        self.bytes.as_slice()
    }
}

/// A lock that stands against another, as LOCK and LOCKT send it (RFC 7531, LOCK4denied).
#[derive(Drop)]
pub struct HeldLock {
    /// The first byte.
    pub offset: u64,
    /// How many bytes; all ones reaches the last byte.
    pub len: u64,
    /// READ_LT or WRITE_LT.
    pub kind: LockType,
    /// The clientid of an NFSv4 holder; of another 0.
    pub clientid: u64,
    /// The owner's bytes.
    pub owner: HolderBytes,
}

/// What an operation is answered: how it ended, and behind the status OK what it gives.
#[derive(Drop)]
pub enum Told {
    /// It ended so, and gives nothing.
    Ended(NfsStatus),
    /// The handle of this file, 0 for the root (GETFH).
    Handle(u32),
    /// A client's number, and what confirms it (SETCLIENTID).
    Client(ClientConfirm),
    /// An open's stateid, the flags of its result, and a delegation's stateid with whether it is for writing (OPEN).
    Opened(Stateid, u32, Option<(Stateid, bool)>),
    /// The stateid as it is now (OPEN_CONFIRM, OPEN_DOWNGRADE, CLOSE, LOCK, LOCKU).
    State(Stateid),
    /// No lock stands against it (LOCKT).
    Free,
    /// It is denied by this lock (LOCK, LOCKT).
    Denied(HeldLock),
    /// The result that was kept when the request came first, as it is spelled.
    Kept(ResultBytes),
}

/// Whether it is as short as every result except that of a lock that is denied: 104 bytes at most.
pub(crate) fn is_short(bytes: &[u8]) -> bool
    ensures { result ≡ is_short bytes.now }
{
    bytes.len() <= MOST_SHORT
}

/// How the operation ended whose result these bytes are.
#[tactic(auto, unfolding(crate::specs::Seqids::kept_status))]
fn kept_status(bytes: &[u8]) -> NfsStatus
    ensures { result ≡ kept_status bytes.now }
{
    if !is_short(bytes) {
        return NfsStatus::Denied;
    }
    match read_result(&mut Xdr::new(bytes)) {
        Ok(kept) => kept.status(),
        Err(_) => NfsStatus::ServerFault,
    }
}

impl Told {
    /// How the operation ended.
    pub fn status(&self) -> NfsStatus
        ensures { result ≡ status_of self.now }
    {
        match self {
            Told::Ended(status) => *status,
            Told::Handle(_) | Told::Client(_) | Told::Opened(..) | Told::State(_) | Told::Free => {
                NfsStatus::Ok
            }
            Told::Denied(_) => NfsStatus::Denied,
            Told::Kept(bytes) => kept_status(bytes.as_slice()),
        }
    }
}
