//! The order of the flat list.
ghost use Rattle.std.specs.Prelude.{◌≡◌};
ghost use Rattle.xl_table.specs.Sections.{side_of};
ghost use Rattle.xl_table.specs.Order.{no_later, rank, owner_key, party_key, first_of, place_in_group, key, goes_first};

use xl_base::{Owner, Party, Protocol};
use xl_matrix::{Claim, Extent, What, is_posix};

/// Whether the first list is no later than the second, by the first number that differs.
pub(crate) fn is_no_later(a: &[u64], b: &[u64]) -> bool
    ensures { result ≡ no_later a.now b.now }
{
    match a {
        [] => true,
        [x, xs @ ..] => match b {
            [] => false,
            [y, ys @ ..] => *x < *y || (*x == *y && is_no_later(xs, ys)),
        },
    }
}

/// Where a claim's numbers stand by those that begin with some.
#[derive(Clone, Copy)]
pub enum Side {
    /// Before them all.
    Earlier,
    /// Among them.
    Among,
    /// Behind them all.
    Later,
}

/// Where the numbers stand by those that begin with these.
pub(crate) fn side_of(front: &[u64], key: &[u64]) -> Side
    ensures { result ≡ side_of front.now key.now }
{
    match front {
        [] => Side::Among,
        [f, fs @ ..] => match key {
            [] => Side::Earlier,
            [k, ks @ ..] => {
                if *k < *f {
                    Side::Earlier
                } else if *f < *k {
                    Side::Later
                } else {
                    side_of(fs, ks)
                }
            }
        },
    }
}

fn protocol_rank(protocol: Protocol) -> u64
    ensures { result ≡ rank protocol }
{
    match protocol {
        Protocol::Nlm => 0,
        Protocol::Nfs => 1,
        Protocol::Smb => 2,
    }
}

pub(crate) fn key_of_owner(owner: Owner) -> [u64; 3]
    ensures { result ≡ owner_key owner }
{
    match owner {
        Owner::Name(protocol, number) => [protocol_rank(protocol), u64::from(number), 0],
        Owner::Open(number) => [2, u64::from(number), 1],
    }
}

pub(crate) fn key_of_party(party: Party) -> [u64; 3]
    ensures { result ≡ party_key party }
{
    match party {
        Party::Name(protocol, number) => [protocol_rank(protocol), u64::from(number), 0],
        Party::Open(number) => [2, u64::from(number), 1],
    }
}

fn first_byte(extent: Extent) -> u64
    ensures { result ≡ first_of extent }
{
    match extent {
        Extent::Bytes(first, _) => first,
        Extent::Empty(offset) => offset,
    }
}

fn group_place(owner: Owner, extent: Extent) -> u64
    ensures { result ≡ place_in_group owner extent }
{
    if is_posix(owner) {
        first_byte(extent)
    } else {
        0
    }
}

/// The numbers by which claims stand in order: the file, then shares, ranges and caches, then the owner of a share or a
/// range, or the party of a cache, by protocol and number, then the place in that group.
#[tactic(auto, unfolding(crate::specs::Order::key))]
pub(crate) fn key_of(claim: &Claim) -> [u64; 6]
    ensures { result ≡ key claim.now }
{
    let file = u64::from(claim.file);
    match claim.what {
        What::Share(_, _) => {
            let [protocol, number, sort] = key_of_owner(claim.owner);
            [file, 0, protocol, number, sort, 0]
        }
        What::Range(extent, _) => {
            let [protocol, number, sort] = key_of_owner(claim.owner);
            [
                file,
                1,
                protocol,
                number,
                sort,
                group_place(claim.owner, extent),
            ]
        }
        What::Cache(_, _) => {
            let [protocol, number, sort] = key_of_party(claim.party);
            [file, 2, protocol, number, sort, 0]
        }
    }
}

/// Whether the first claim stands no later than the second.
pub(crate) fn is_first(a: &Claim, b: &Claim) -> bool
    ensures { result ≡ goes_first a.now b.now }
{
    is_no_later(&key_of(a), &key_of(b))
}
