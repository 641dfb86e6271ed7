//! Why a request fails.
ghost use Rattle.std.specs.Prelude.{◌≡◌};
ghost use Rattle.xl_smb_locks.specs.Statuses.{status_number};

/// STATUS_SUCCESS (MS-ERREF 2.3).
pub const SUCCESS: u32 = 0;
/// STATUS_PENDING, of a request that waits (MS-SMB2 3.3.4.2).
pub const PENDING: u32 = 0x103;

/// Why a request fails (MS-ERREF 2.3).
#[derive(Clone, Copy)]
pub enum SmbStatus {
    /// No break of the lease runs.
    Unsuccessful,
    /// The request is not in order.
    InvalidParameter,
    /// There is no such file, or no such lease.
    ObjectNameNotFound,
    /// The file is there, and was to be made.
    ObjectNameCollision,
    /// What somebody else holds is against the open.
    SharingViolation,
    /// What somebody else holds is against the lock.
    LockNotGranted,
    /// The open has no lock of just this range.
    RangeNotLocked,
    /// There is no room.
    InsufficientResources,
    /// The request is not served.
    NotSupported,
    /// The session has no such tree connect.
    NetworkNameDeleted,
    /// There is no such share.
    BadNetworkName,
    /// The lease's break doesn't leave as much.
    RequestNotAccepted,
    /// The level can't be acknowledged.
    InvalidOplockProtocol,
    /// The request waited, and was cancelled.
    Cancelled,
    /// The connection has no such open.
    FileClosed,
    /// No break runs.
    InvalidDeviceState,
    /// The range reaches past the last byte.
    InvalidLockRange,
    /// The connection has no such session.
    UserSessionDeleted,
}

impl SmbStatus {
    /// The status as a number.
    pub fn number(self) -> u32
        ensures { result ≡ status_number self }
    {
        match self {
            SmbStatus::Unsuccessful => 0xC000_0001,
            SmbStatus::InvalidParameter => 0xC000_000D,
            SmbStatus::ObjectNameNotFound => 0xC000_0034,
            SmbStatus::ObjectNameCollision => 0xC000_0035,
            SmbStatus::SharingViolation => 0xC000_0043,
            SmbStatus::LockNotGranted => 0xC000_0055,
            SmbStatus::RangeNotLocked => 0xC000_007E,
            SmbStatus::InsufficientResources => 0xC000_009A,
            SmbStatus::NotSupported => 0xC000_00BB,
            SmbStatus::NetworkNameDeleted => 0xC000_00C9,
            SmbStatus::BadNetworkName => 0xC000_00CC,
            SmbStatus::RequestNotAccepted => 0xC000_00D0,
            SmbStatus::InvalidOplockProtocol => 0xC000_00E3,
            SmbStatus::Cancelled => 0xC000_0120,
            SmbStatus::FileClosed => 0xC000_0128,
            SmbStatus::InvalidDeviceState => 0xC000_0184,
            SmbStatus::InvalidLockRange => 0xC000_01A1,
            SmbStatus::UserSessionDeleted => 0xC000_0203,
        }
    }
}
