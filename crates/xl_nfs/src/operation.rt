//! The numbers of the procedure, of its operations and of those of its callback (RFC 7531).

/// The procedure that does operations one after the other.
pub const COMPOUND: u32 = 1;

/// Gives up an open.
pub const CLOSE: u32 = 4;
/// Gives back a delegation.
pub const DELEGRETURN: u32 = 8;
/// Asks for the current handle.
pub const GETFH: u32 = 10;
/// Locks a range.
pub const LOCK: u32 = 12;
/// Asks whether a lock would be granted.
pub const LOCKT: u32 = 13;
/// Gives up the lock on a range.
pub const LOCKU: u32 = 14;
/// Makes the file of a name the current one.
pub const LOOKUP: u32 = 15;
/// Opens a file.
pub const OPEN: u32 = 18;
/// Confirms an open owner.
pub const OPEN_CONFIRM: u32 = 20;
/// Gives up a part of an open.
pub const OPEN_DOWNGRADE: u32 = 21;
/// Makes the file of a handle the current one.
pub const PUTFH: u32 = 22;
/// Makes the root the current file.
pub const PUTROOTFH: u32 = 24;
/// Renews a client's lease.
pub const RENEW: u32 = 30;
/// Names a client.
pub const SETCLIENTID: u32 = 35;
/// Confirms a client's name.
pub const SETCLIENTID_CONFIRM: u32 = 36;
/// Forgets a lock owner.
pub const RELEASE_LOCKOWNER: u32 = 39;
/// The operation of a result that answers a number of no operation.
pub const ILLEGAL: u32 = 10_044;

/// The version of a client's callback program.
pub const CALLBACK_VERSION: u32 = 1;
/// The callback's procedure that does operations one after the other.
pub const CB_COMPOUND: u32 = 1;
/// Asks a client for a delegation.
pub const CB_RECALL: u32 = 4;
