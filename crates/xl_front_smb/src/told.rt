//! What a request is answered.

use xl_smb::Lease;
use xl_smb_locks::{Caching, SmbStatus};

/// What a request is answered.
#[derive(Clone, Copy)]
pub enum Told {
    /// Nothing: no reply is sent.
    Nothing,
    /// It failed.
    Failed(SmbStatus),
    /// The dialect is SMB 2.1 (NEGOTIATE).
    Negotiated,
    /// The session of this id is set up, as a guest's (SESSION_SETUP).
    SetUp(u64),
    /// The session has ended (LOGOFF).
    LoggedOff,
    /// The share is connected to under this number (TREE_CONNECT).
    Connected(u32),
    /// The tree connect has ended (TREE_DISCONNECT).
    Disconnected,
    /// The file is open under this id, with this oplock or lease (CREATE).
    Opened(u64, Caching),
    /// The break of the oplock of the open of this id is answered, which is of this level now (OPLOCK_BREAK).
    Acknowledged(u64, u8),
    /// The break of a lease is answered, which holds this now (OPLOCK_BREAK).
    Answered(Lease),
    /// The open has ended (CLOSE).
    Closed,
    /// The ranges are locked, or unlocked (LOCK).
    Locked,
    /// It waits under this AsyncId: STATUS_PENDING (MS-SMB2 3.3.4.2).
    Pending(u32),
    /// The server is there (ECHO).
    Echoed,
}
