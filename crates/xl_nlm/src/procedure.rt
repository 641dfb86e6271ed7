//! The numbers of the Network Lock Manager's procedures.

/// Does nothing.
pub const NULL: u32 = 0;
/// Asks whether a lock would be granted.
pub const TEST: u32 = 1;
/// Asks for a lock.
pub const LOCK: u32 = 2;
/// Takes back a lock request that waits.
pub const CANCEL: u32 = 3;
/// Gives up the lock on a range.
pub const UNLOCK: u32 = 4;
/// Tells a client that its waiting lock is granted; the server makes this call.
pub const GRANTED: u32 = 5;
/// Asks for a share.
pub const SHARE: u32 = 20;
/// Gives up a share.
pub const UNSHARE: u32 = 21;
/// Asks for a lock that is not monitored.
pub const NM_LOCK: u32 = 22;
/// Gives up all locks and shares of a client.
pub const FREE_ALL: u32 = 23;
