//! Claims as plain data.

use xl_base::{Moment, Owner, Party};

/// Which of reading, writing and deleting are meant: an access that a share has, or one that it denies to others.
#[derive(Clone, Copy)]
pub struct Rwd {
    /// Reading.
    pub r: bool,
    /// Writing.
    pub w: bool,
    /// Deleting.
    pub d: bool,
}

/// Where a byte range lies.
#[derive(Clone, Copy)]
pub enum Extent {
    /// The bytes from the first to the last, both among them.
    Bytes(u64, u64),
    /// An SMB range of length 0 at this offset (MS-FSA 2.1.4.10). It has no byte.
    Empty(u64),
}

/// What a cache allows its party: R reading, W writing, H keeping the handle open (MS-SMB2 2.2.13.2.8), or an NFSv4
/// delegation (RFC 7530 10.4). Level II, exclusive and batch oplocks are R, RW and RWH.
#[derive(Clone, Copy)]
pub enum CacheKind {
    /// Reading.
    R,
    /// Reading, and keeping the handle.
    RH,
    /// Reading and writing.
    RW,
    /// Reading, writing, and keeping the handle.
    RWH,
    /// An NFSv4 read delegation.
    ReadDeleg,
    /// An NFSv4 write delegation.
    WriteDeleg,
}

/// A break of a cache that was sent to its party and is not yet answered.
#[derive(Clone, Copy)]
pub struct Break {
    /// What the cache is to become; None if it is to end.
    pub target: Option<CacheKind>,
    /// When an answer is due, in milliseconds of the machine's clock.
    pub deadline: Moment,
}

/// What is claimed.
#[derive(Clone, Copy)]
pub enum What {
    /// The file is open: with this access, which denies that to other opens (MS-SMB2 2.2.13, RFC 7530 9.9).
    Share(Rwd, Rwd),
    /// A byte range is locked; exclusively if the flag is true.
    Range(Extent, bool),
    /// The party caches the file, and while a break runs its target and deadline.
    Cache(CacheKind, Option<Break>),
}

/// One claim on one file.
#[derive(Clone, Copy)]
pub struct Claim {
    /// The file's number, from 1.
    pub file: u32,
    /// Who owns a share or a range; of a cache, who asked for it.
    pub owner: Owner,
    /// The client or open whose claim it is; a cache belongs to it.
    pub party: Party,
    /// What is claimed.
    pub what: What,
}
