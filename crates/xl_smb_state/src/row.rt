//! The rows of the lists.

use xl_base::{Moment, Sequence};

/// Where an open or a request is: on a tree connect of a session of a connection.
#[derive(Clone, Copy)]
pub struct Place {
    /// The connection's number.
    pub connection: u64,
    /// The session's number, from 1.
    pub session: u32,
    /// The tree connect's number, from 1.
    pub tree: u32,
}

/// A connection (MS-SMB2 3.3.1.7). Its key is its number.
#[derive(Clone, Copy)]
pub struct Connection {
    /// The client's guid, as its NEGOTIATE gave it; None until then.
    pub client: Option<[u8; 16]>,
}

/// A session (MS-SMB2 3.3.1.8), of a guest. Its key is its number.
#[derive(Clone, Copy)]
pub struct Session {
    /// The connection that it was set up on.
    pub connection: u64,
}

/// A tree connect (MS-SMB2 3.3.1.9). Its key is its number.
#[derive(Clone, Copy)]
pub struct Tree {
    /// The connection that it is on.
    pub connection: u64,
    /// The session that it belongs to.
    pub session: u32,
}

/// Who holds an open.
#[derive(Clone, Copy)]
pub enum Holder {
    /// Its client, by the tree connect at this place.
    Tree(Place),
    /// Nobody since its connection ended: it is durable, and is kept until this moment for its client to take it up again
    /// (MS-SMB2 3.3.7.1).
    Nobody(Moment),
}

/// An open (MS-SMB2 3.3.1.10). Its key is its number.
#[derive(Clone, Copy)]
pub struct Open {
    /// The file's number, from 1.
    pub file: u32,
    /// The guid of the client that made it.
    pub client: [u8; 16],
    /// The key of the lease that it is under, if it asked for one.
    pub lease: Option<[u8; 16]>,
    /// Whether it outlives its connection for a time.
    pub durable: bool,
    /// Who holds it.
    pub holder: Holder,
}

/// What a lease is known by (MS-SMB2 3.3.1.12): a key of the client's choice, and the client's guid.
#[derive(Clone, Copy, PartialEq, Eq, Hash)]
pub struct LeaseKey {
    /// The client's guid.
    pub client: [u8; 16],
    /// The key.
    pub key: [u8; 16],
}

/// A lease (MS-SMB2 3.3.1.12), which may hold a cache or not.
#[derive(Drop)]
pub struct Lease {
    /// The file's number, from 1.
    pub file: u32,
    /// The numbers of the opens that are under it, at least one, in the order in which they came.
    pub opens: Sequence<u32>,
}

/// What the replies to a request repeat of its header (MS-SMB2 2.2.1.2).
#[derive(Clone, Copy)]
pub struct Header {
    /// How many credits the request costs.
    pub credit_charge: u16,
    /// The request's flags.
    pub flags: u32,
    /// The request's number on its connection.
    pub message_id: u64,
    /// The tree connect that it names, 0 for none.
    pub tree_id: u32,
    /// The session that it names, 0 for none.
    pub session_id: u64,
}

/// What a request waits to do.
#[derive(Clone, Copy)]
pub enum Request {
    /// CREATE: to make this open, of the number that was taken for it.
    Create(Open),
    /// LOCK: to lock ranges of the open of this number.
    Lock,
}

/// A request that waits, which its client knows by STATUS_PENDING (MS-SMB2 3.3.4.2). Its key is the waiter's number,
/// which is its AsyncId too.
#[derive(Drop)]
pub struct Waiting {
    /// What its final reply repeats.
    pub header: Header,
    /// Where the open is that it makes or locks.
    pub place: Place,
    /// The number of the open that it makes or locks.
    pub opened: u32,
    /// What it waits to do.
    pub request: Request,
    /// The parts of its frame that stand behind it, with their headers, to be done after it; empty if there is none.
    pub behind: Sequence<u8>,
}

/// What opens, tree connects and requests are under.
#[derive(Clone, Copy)]
pub enum Scope {
    /// A connection.
    Connection(u64),
    /// A session.
    Session(u32),
    /// A tree connect.
    Tree(u32),
}
