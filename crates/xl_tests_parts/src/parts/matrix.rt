//! Which claims may be held together, and the words of the matrix.

use super::{next, number};
use std::str::Split;
use xl_base::{Moment, Owner, Party, Protocol};
use xl_matrix::{
    Break, CacheKind, Claim, Extent, Rwd, What, compatible, compatible_by_bytes,
    compatible_in_parts, compatible_when_weaker, covers, extent_within, guards, has_common,
    has_handle, has_no_sides, has_write, is_none, is_posix, kind_within, lies_within, meet,
    meets_by_bytes, protocol_of_owner, protocol_of_party, rights_within, same_claim, same_owner,
    same_party, within_is_an_order,
};

/// A word, two claims, and whether it holds of them: that they fit together, that the first lies within the second, or
/// that they, their owners or their parties are the same. A claim is whose it is, its sort, and two words more.
pub(super) const PAIRS: &str = "\
fit open share rw w nfs share w - no
fit open share rw w nfs share r - yes
fit open share r - nfs share d r no
fit nlm lock 0 9 nfs lock 5 14 no
fit nlm read 0 9 nfs read 5 14 yes
fit nlm read 0 9 nfs lock 9 9 no
fit nlm lock 0 9 nfs lock 10 19 yes
fit nlm read 0 9 nlm read 5 14 no
fit nlm read 0 9 nlm lock 10 14 yes
fit open lock 0 9 open read 0 9 yes
fit open lock 0 9 open lock 9 9 no
fit open lock 0 9 other empty 5 - no
fit open lock 5 9 other empty 5 - yes
fit open lock 0 9 other empty 0 - yes
fit nfs lock 0 9 other empty 5 - yes
fit open empty 5 - other empty 5 - yes
fit open share rw rw nlm lock 0 9 yes
fit open cache RH - nfs share rw rw yes
fit open cache RW - nfs share r - no
fit open cache RWH - open share rw w yes
fit nfs cache read - open share w - no
fit nfs cache read - open share - r no
fit nfs cache read - open share d w yes
fit nfs cache write - open share - - yes
fit nfs cache write - open share - d no
fit open cache R - nlm read 0 0 no
fit nfs cache write - nfs lock 0 9 yes
fit open cache R - other cache R - yes
fit open cache R - other cache RW - no
fit open cache R - open cache RH - no
fit nlm lock 0 9 away lock 0 9 yes
within nlm read 3 9 nlm lock 0 9 yes
within nlm lock 0 9 nlm read 0 9 no
within open break RW 7 open cache RW - yes
same nlm lock 0 9 nlm lock 0 9 yes
same nlm lock 0 9 nlm read 0 9 no
owner nlm lock 0 9 nlm lock 0 9 yes
owner nlm lock 0 9 nfs lock 0 9 no
party other lock 0 9 other lock 0 9 yes
party open lock 0 9 other lock 0 9 no";

const NONE: Rwd = Rwd {
    r: false,
    w: false,
    d: false,
};

const READ: Rwd = Rwd {
    r: true,
    w: false,
    d: false,
};

const WRITE: Rwd = Rwd {
    r: false,
    w: true,
    d: false,
};

const DELETE: Rwd = Rwd {
    r: false,
    w: false,
    d: true,
};

const BOTH: Rwd = Rwd {
    r: true,
    w: true,
    d: false,
};

fn rights(word: &str) -> Rwd {
    match word {
        "r" => READ,
        "w" => WRITE,
        "d" => DELETE,
        "rw" => BOTH,
        _ => NONE,
    }
}

pub(super) fn kind(word: &str) -> CacheKind {
    match word {
        "R" => CacheKind::R,
        "RH" => CacheKind::RH,
        "RW" => CacheKind::RW,
        "RWH" => CacheKind::RWH,
        "read" => CacheKind::ReadDeleg,
        _ => CacheKind::WriteDeleg,
    }
}

fn running(deadline: u64) -> Break {
    Break {
        target: None,
        deadline: Moment(deadline),
    }
}

fn what(sort: &str, one: &str, two: &str) -> What {
    match sort {
        "share" => What::Share(rights(one), rights(two)),
        "lock" => What::Range(Extent::Bytes(number(one), number(two)), true),
        "read" => What::Range(Extent::Bytes(number(one), number(two)), false),
        "empty" => What::Range(Extent::Empty(number(one)), true),
        "cache" => What::Cache(kind(one), None),
        _ => What::Cache(kind(one), Some(running(number(two)))),
    }
}

/// A claim of one of those who have names here; `away` and `moved` have theirs on another file.
fn claim(who: &str, what: What) -> Claim {
    let (file, owner, party) = match who {
        "nlm" => (
            1,
            Owner::Name(Protocol::Nlm, 1),
            Party::Name(Protocol::Nlm, 2),
        ),
        "nfs" => (
            1,
            Owner::Name(Protocol::Nfs, 1),
            Party::Name(Protocol::Nfs, 2),
        ),
        "open" => (1, Owner::Open(3), Party::Name(Protocol::Smb, 4)),
        "other" => (1, Owner::Open(5), Party::Open(5)),
        "away" => (
            2,
            Owner::Name(Protocol::Nfs, 1),
            Party::Name(Protocol::Nfs, 2),
        ),
        "caller" => (
            1,
            Owner::Name(Protocol::Nlm, 6),
            Party::Name(Protocol::Nlm, 1),
        ),
        "moved" => (
            2,
            Owner::Name(Protocol::Nlm, 6),
            Party::Name(Protocol::Nlm, 1),
        ),
        "client" => (
            1,
            Owner::Name(Protocol::Nfs, 2),
            Party::Name(Protocol::Nfs, 3),
        ),
        "lease" => (1, Owner::Open(4), Party::Name(Protocol::Smb, 5)),
        _ => (0, Owner::Open(0), Party::Open(0)),
    };
    Claim {
        file,
        owner,
        party,
        what,
    }
}

fn next_what(words: &mut Split<'_, char>) -> What {
    what(next(words), next(words), next(words))
}

fn next_claim(words: &mut Split<'_, char>) -> Claim {
    claim(next(words), next_what(words))
}

/// The claim that a row describes: whose it is, its sort, and two words more.
pub(super) fn claim_in(row: &str) -> Claim {
    let mut words = row.split(' ');
    next_claim(&mut words)
}

fn holds(word: &str, a: &Claim, b: &Claim) -> bool {
    match word {
        "fit" => compatible(a, b),
        "within" => lies_within(a, b),
        "same" => same_claim(a, b),
        "owner" => same_owner(a.owner, b.owner),
        _ => same_party(a.party, b.party),
    }
}

fn is_held(word: &str, a: &Claim, b: &Claim, want: bool) -> bool {
    holds(word, a, b) == want && (word == "within" || holds(word, b, a) == want)
}

/// Whether the row's word holds of its claims exactly if it says so; most hold both ways round.
pub(super) fn is_pair(row: &str) -> bool {
    let mut words = row.split(' ');
    let word = next(&mut words);
    is_held(
        word,
        &next_claim(&mut words),
        &next_claim(&mut words),
        next(&mut words) == "yes",
    )
}

const NLM: Owner = Owner::Name(Protocol::Nlm, 1);

fn owners() -> bool {
    is_posix(NLM)
        && is_posix(Owner::Name(Protocol::Nfs, 1))
        && !is_posix(Owner::Open(3))
        && matches!(protocol_of_owner(Owner::Open(3)), Protocol::Smb)
        && matches!(
            protocol_of_party(Party::Name(Protocol::Nlm, 2)),
            Protocol::Nlm
        )
}

fn extents() -> bool {
    let bytes = Extent::Bytes(4, 5);
    covers(Extent::Bytes(3, 5), 5)
        && !covers(Extent::Bytes(3, 5), 6)
        && !covers(Extent::Empty(5), 5)
        && meet(true, bytes, Extent::Empty(5))
        && !meet(false, bytes, Extent::Empty(5))
        && extent_within(bytes, Extent::Bytes(4, 9))
        && !extent_within(Extent::Empty(5), Extent::Bytes(4, 9))
}

fn kinds() -> bool {
    kind_within(CacheKind::R, CacheKind::RWH)
        && !kind_within(CacheKind::RW, CacheKind::RH)
        && has_write(CacheKind::RW)
        && !has_write(CacheKind::RH)
        && has_handle(CacheKind::RH)
        && !has_handle(CacheKind::RW)
}

fn sets_of_rights() -> bool {
    guards(CacheKind::RW, READ, NONE)
        && !guards(CacheKind::R, BOTH, BOTH)
        && has_common(BOTH, WRITE)
        && !has_common(READ, WRITE)
        && is_none(NONE)
        && rights_within(READ, BOTH)
}

#[test]
fn words(rt: HostRuntime) {
    assert!(rt; owners() && extents() && kinds() && sets_of_rights());
    has_no_sides();
    meets_by_bytes();
    compatible_by_bytes();
    compatible_when_weaker();
    compatible_in_parts();
    within_is_an_order();
}
