//! Owners of opens and of locks, and what their seqids say.
use xl_base::Sequence;
use xl_nfs::NfsStatus;
use xl_nfs_state::{OwnerKind, SeqidState, StateidRow};

/// An owner of opens or of locks (RFC 7530 9.1.5): its client, by the client's number, id string and verifier, and its own bytes.
#[derive(Drop)]
pub struct Opener {
    /// The client's number.
    pub client: u32,
    /// The client's id string.
    pub id: Sequence<u8>,
    /// The client's verifier, which changes if it starts anew (RFC 7530 9.1.1).
    pub verifier: [u8; 8],
    /// What it owns.
    pub kind: OwnerKind,
    /// The owner's bytes.
    pub owner: Sequence<u8>,
}

/// What an owner's seqid says of an OPEN.
#[derive(Clone, Copy)]
pub enum Judged {
    /// It isn't the next one.
    Bad,
    /// It is the last request of the owner of this number once more.
    Repeats(u64),
    /// The owner of this number was never confirmed: it goes, and the request is a new owner's.
    Anew(u64),
    /// The owner is new.
    New,
    /// It is the next one of an owner that is confirmed.
    Next,
}

/// What is found for a stateid, and what its owner's seqid says.
#[derive(Clone, Copy)]
pub enum Checked {
    /// It is refused so, and nothing is kept of it.
    Refused(NfsStatus),
    /// It is the last request of the owner of this number once more.
    Repeated(u64),
    /// It is of this open, of the owner of this number, whose requests came this far, and the next one of these.
    Passed(StateidRow, u64, SeqidState),
}

/// What is found for a stateid: its row, and the owner of that number, whose requests came this far.
#[derive(Clone, Copy)]
pub struct Found {
    /// The row.
    pub row: StateidRow,
    /// The owner's number.
    pub owner: u64,
    /// How far its requests have come.
    pub seqids: SeqidState,
}
