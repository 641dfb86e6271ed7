//! The limits that more than one crate keeps to.

/// The most connections that are open together, of all protocols.
pub const MOST_CONNECTIONS: usize = 64;

/// The most opens there are at once, of NFSv4 and SMB together; closed ones aside.
pub const MOST_OPENS: usize = 4_096;

/// The most owners of opens and locks that are kept of NFSv4, together.
pub const MOST_OWNERS: usize = 8_192;

/// The most requests that wait at once.
pub const MOST_WAITERS: usize = 1_024;

/// The most bytes of a message, its frame aside.
pub const MOST_MESSAGE_BYTES: usize = 65_536;
