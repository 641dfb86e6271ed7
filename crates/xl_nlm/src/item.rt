//! The messages and their parts. Texts and opaque data have at most 1,024 bytes.

/// A range of a file's bytes, and who asks for it (nlm4_lock).
#[derive(Clone, Copy)]
pub struct Lock<'a> {
    /// The name of the client's host.
    pub caller_name: &'a [u8],
    /// The file handle.
    pub fh: &'a [u8],
    /// The owner, as the client's host names it.
    pub oh: &'a [u8],
    /// The owner's process.
    pub svid: i32,
    /// The first byte.
    pub l_offset: u64,
    /// How many bytes; 0 reaches the last byte.
    pub l_len: u64,
}

/// The arguments of TEST and GRANTED (nlm4_testargs).
#[derive(Clone, Copy)]
pub struct TestArgs<'a> {
    /// What the reply repeats.
    pub cookie: &'a [u8],
    /// Whether the lock is exclusive.
    pub exclusive: bool,
    /// The range and its owner.
    pub lock: Lock<'a>,
}

/// The arguments of LOCK and NM_LOCK (nlm4_lockargs).
#[derive(Clone, Copy)]
pub struct LockArgs<'a> {
    /// What the reply repeats.
    pub cookie: &'a [u8],
    /// Whether the request waits if the lock can't be had.
    pub block: bool,
    /// Whether the lock is exclusive.
    pub exclusive: bool,
    /// The range and its owner.
    pub lock: Lock<'a>,
    /// Whether the client had the lock before the server's restart.
    pub reclaim: bool,
    /// The state of the client's host, which rises when it starts.
    pub state: i32,
}

/// The arguments of CANCEL (nlm4_cancargs).
#[derive(Clone, Copy)]
pub struct CancelArgs<'a> {
    /// What the reply repeats.
    pub cookie: &'a [u8],
    /// As in the request that waits.
    pub block: bool,
    /// As in the request that waits.
    pub exclusive: bool,
    /// As in the request that waits.
    pub lock: Lock<'a>,
}

/// The arguments of UNLOCK (nlm4_unlockargs).
#[derive(Clone, Copy)]
pub struct UnlockArgs<'a> {
    /// What the reply repeats.
    pub cookie: &'a [u8],
    /// The range and its owner.
    pub lock: Lock<'a>,
}

/// Whether a share reads and writes, or whether it denies reading and writing to others (fsh4_access, fsh4_mode).
#[derive(Clone, Copy)]
pub struct Rights {
    /// Reading.
    pub read: bool,
    /// Writing.
    pub write: bool,
}

/// The arguments of SHARE and UNSHARE (nlm4_shareargs).
#[derive(Clone, Copy)]
pub struct ShareArgs<'a> {
    /// What the reply repeats.
    pub cookie: &'a [u8],
    /// The name of the client's host.
    pub caller_name: &'a [u8],
    /// The file handle.
    pub fh: &'a [u8],
    /// The owner, as the client's host names it.
    pub oh: &'a [u8],
    /// What is denied to others.
    pub mode: Rights,
    /// What the owner has.
    pub access: Rights,
    /// Whether the client had the share before the server's restart.
    pub reclaim: bool,
}

/// The arguments of FREE_ALL (nlm4_notify).
#[derive(Clone, Copy)]
pub struct Notify<'a> {
    /// The name of the client's host.
    pub name: &'a [u8],
    /// The state of the client's host.
    pub state: i32,
}

/// A call of the program, with its arguments.
#[derive(Clone, Copy)]
pub enum NlmCall<'a> {
    /// NULL.
    Null,
    /// TEST.
    Test(TestArgs<'a>),
    /// LOCK.
    Lock(LockArgs<'a>),
    /// CANCEL.
    Cancel(CancelArgs<'a>),
    /// UNLOCK.
    Unlock(UnlockArgs<'a>),
    /// GRANTED, which the server calls.
    Granted(TestArgs<'a>),
    /// SHARE.
    Share(ShareArgs<'a>),
    /// UNSHARE.
    Unshare(ShareArgs<'a>),
    /// NM_LOCK.
    NmLock(LockArgs<'a>),
    /// FREE_ALL.
    FreeAll(Notify<'a>),
}

/// How a request ended (nlm4_stats), numbered from 0 in this order.
#[derive(Clone, Copy)]
pub enum NlmStatus {
    /// It was done.
    Granted,
    /// Another holds what was asked.
    Denied,
    /// The server has no room.
    DeniedNolocks,
    /// The request waits.
    Blocked,
    /// The server is in grace after a restart.
    DeniedGracePeriod,
    /// The request would wait for itself.
    Deadlck,
    /// The file system can only be read.
    Rofs,
    /// The handle is of no file.
    StaleFh,
    /// The range passes the last byte.
    Fbig,
    /// The server failed.
    Failed,
}

/// Who holds what a TEST asked for (nlm4_holder).
#[derive(Clone, Copy)]
pub struct Holder<'a> {
    /// Whether the lock is exclusive.
    pub exclusive: bool,
    /// The owner's process.
    pub svid: i32,
    /// The owner, as its client's host names it.
    pub oh: &'a [u8],
    /// The first byte.
    pub l_offset: u64,
    /// How many bytes; 0 reaches the last byte.
    pub l_len: u64,
}

/// The result of TEST (nlm4_testres).
#[derive(Clone, Copy)]
pub struct TestRes<'a> {
    /// The call's cookie.
    pub cookie: &'a [u8],
    /// How it ended.
    pub stat: NlmStatus,
    /// The holder, just if the status is Denied.
    pub holder: Option<Holder<'a>>,
}

/// The result of the calls on locks except TEST (nlm4_res).
#[derive(Clone, Copy)]
pub struct Res<'a> {
    /// The call's cookie.
    pub cookie: &'a [u8],
    /// How it ended.
    pub stat: NlmStatus,
}

/// The result of SHARE and UNSHARE (nlm4_shareres).
#[derive(Clone, Copy)]
pub struct ShareRes<'a> {
    /// The call's cookie.
    pub cookie: &'a [u8],
    /// How it ended.
    pub stat: NlmStatus,
    /// Not used; 0.
    pub sequence: i32,
}

/// The results of a call.
#[derive(Clone, Copy)]
pub enum NlmReply<'a> {
    /// Of NULL and FREE_ALL.
    Void,
    /// Of TEST.
    Test(TestRes<'a>),
    /// Of LOCK, CANCEL, UNLOCK, GRANTED and NM_LOCK.
    Res(Res<'a>),
    /// Of SHARE and UNSHARE.
    Share(ShareRes<'a>),
}
