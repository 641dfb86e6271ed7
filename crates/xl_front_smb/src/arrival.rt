//! Messages, requests, and what they name.

use xl_base::Sequence;
use xl_smb::SmbHead;
use xl_smb_state::{Open, Place};

/// A message of an SMB connection, all of one frame.
#[derive(Clone, Copy)]
pub struct Packet<'a> {
    /// The connection.
    pub conn: u64,
    /// Its bytes.
    pub bytes: &'a [u8],
}

/// A request as it arrives.
#[derive(Clone, Copy)]
pub(crate) struct Arrival<'a> {
    /// The names of the exported files.
    pub files: &'a [Sequence<u8>],
    /// How many opens the other fronts have.
    pub others: u32,
    /// The connection that it came by.
    pub conn: u64,
    /// Its header.
    pub head: &'a SmbHead,
}

/// What a CREATE opens: a file, for a client, on the tree connect at this place.
#[derive(Clone, Copy)]
pub(crate) struct Target {
    /// The guid of the client.
    pub client: [u8; 16],
    /// Where the tree connect is.
    pub place: Place,
    /// The number of the file.
    pub file: u32,
}

/// An open that a request names, on the tree connect at this place.
#[derive(Clone, Copy)]
pub(crate) struct Held {
    /// Where the tree connect is.
    pub place: Place,
    /// The number of the open.
    pub number: u32,
    /// Its row.
    pub row: Open,
}
