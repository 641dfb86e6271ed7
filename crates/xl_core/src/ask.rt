//! What is asked of the core, what it answers, and its effects besides.
ghost use Rattle.std.specs.Prelude.{◌≡◌};
ghost use Rattle.xl_core.specs.Told.{party_protocol, told_to};

use xl_base::{Mark, Moment, Party, Protocol, Sequence};
use xl_matrix::{CacheKind, Claim, Extent, Rwd};
use xl_names::Name;
use xl_wait::Rooms;

/// Who asks: a client by the name that it gave, or an SMB open by its number.
#[derive(Drop)]
pub enum Who {
    /// The owner or party of this name.
    Named(Name),
    /// The SMB open of this number.
    Open(u32),
}

/// What is asked for.
#[derive(Drop)]
pub enum Act {
    /// A share: this access, and what is denied to others (XNFS C702, NLM_SHARE; RFC 7530 9.9; MS-SMB2 2.2.13). It replaces
    /// what its owner has on the file, and is united with that of an NFSv4 owner.
    Share(Rwd, Rwd),
    /// Byte ranges, each with whether it is exclusive, all of them or none. Of NLM (XNFS C702, NLM_LOCK) and NFSv4
    /// (RFC 7530 16.10) there is one.
    Ranges(Sequence<(Extent, bool)>),
    /// Whether a range could be locked, exclusive or not (XNFS C702, NLM_TEST; RFC 7530 16.11).
    Test(Extent, bool),
    /// That a range be unlocked (XNFS C702, NLM_UNLOCK; RFC 7530 16.12).
    Unlock(Extent),
    /// The caches that the ask wishes for, and nothing else: a lease that is asked for again (MS-SMB2 3.3.5.9).
    Wish,
}

/// One ask.
#[derive(Drop)]
pub struct Ask {
    /// The file's number.
    pub file: u32,
    /// Who is to own what is asked for.
    pub owner: Who,
    /// The client behind the owner.
    pub party: Who,
    /// What is asked for.
    pub act: Act,
    /// The caches wished for once the ask is granted, the first choice first: with a share, or by itself.
    pub wish: Sequence<CacheKind>,
    /// The connection that a late answer goes to; None if a call of its own carries it.
    pub conn: Option<u64>,
    /// Whether the asker waits if something blocks it for good: a held share or range that no break moves, or a range that one in
    /// front waits for.
    pub blocking: bool,
    /// Whether it waits if a cache keeps it off, for the answer to the break; else it is answered with that cache (MS-SMB2
    /// 3.3.5.9, RFC 7530 10.4.4).
    pub awaits: bool,
    /// Whether it claims again what it had before a restart (RFC 7530 9.6.2).
    pub reclaim: bool,
    /// Whether the party's name is to be recorded before the grant, unless the ask is a reclaim.
    pub monitored: bool,
    /// What the party is recorded with, and what a reclaim is checked against: the verifier of an NFSv4 client, the state of an
    /// NLM client's host; None if the message has none.
    pub mark: Option<Mark>,
    /// The rows that a grant adds to the tables of the fronts.
    pub rows: Rooms,
}

/// What an ask is answered.
#[derive(Clone, Copy)]
pub enum Answer {
    /// Granted, with the claim that was asked. Of a test or an unlock it is the range, shared for an unlock, in which a
    /// name without a number stands as 4,294,967,295. Of a wish by itself it is the cache of the first choice, whatever the
    /// wish got: that is seen in the table.
    Granted(Claim),
    /// This claim blocks it. Of held ranges it is the least by first byte, then last byte (an empty range first), then exclusive before
    /// shared, then the owner's text; of shares the least by the owner's text; if nothing held does, the first range that one in
    /// front waits for.
    Conflict(Claim),
    /// It waits under this number.
    Queued(u32),
    /// The break of this cache is awaited.
    Recall(Claim),
    /// Grace runs until this moment.
    Grace(Moment),
    /// A reclaim while no grace runs; the clock.
    NoGrace(Moment),
    /// A reclaim in grace by a client that isn't recorded, or whose mark doesn't agree with the kept one.
    NotRecorded,
    /// A table would have more rows than this, its limit; of several limits the least.
    Full(u32),
    /// An unlock of what isn't held.
    NotHeld,
    /// The record could not be stored.
    StoreFailed,
}

/// What happened in a step besides its answer.
#[derive(Drop)]
pub enum Effect {
    /// The break of this cache began, to this kind or none; a recall's call has this number.
    Begun(Claim, Option<CacheKind>, Option<u32>),
    /// The waiter of this party and number is served, with this answer.
    Served(Party, u32, Answer),
    /// The waiter of this party and number waits no more.
    Cancelled(Party, u32),
    /// The client of this id string expired.
    Expired(Sequence<u8>),
}

/// The protocol of a party.
fn party_protocol(party: Party) -> Protocol
    ensures { result ≡ party_protocol party }
{
    match party {
        Party::Name(protocol, _) => protocol,
        Party::Open(_) => Protocol::Smb,
    }
}

impl Effect {
    /// The protocol whose front hears of it: that of the party that it names. Only clients of NFSv4 expire.
    pub fn protocol(&self) -> Protocol
        ensures { result ≡ told_to self.now }
    {
        match self {
            Effect::Begun(cache, _, _) => party_protocol(cache.party),
            Effect::Served(party, _, _) => party_protocol(*party),
            Effect::Cancelled(party, _) => party_protocol(*party),
            Effect::Expired(_) => Protocol::Nfs,
        }
    }
}
