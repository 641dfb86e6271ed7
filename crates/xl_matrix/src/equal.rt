//! Equal claims, part by part.
ghost use Rattle.std.specs.Prelude.{◌≡◌, IsTrue, ◌↔◌};
ghost use Rattle.xl_base.specs.Stable.{same_protocol};
ghost use Rattle.xl_matrix.specs.Equal.{same_owners, same_parties, same_flag, same_rights, same_extent, same_kind, same_target, same_break, same_what, same_claims};

use crate::claim::{Break, CacheKind, Claim, Extent, Rwd, What};
use xl_base::{Owner, Party, Protocol};

fn protocols(a: Protocol, b: Protocol) -> bool
    ensures { result ≡ same_protocol a b }
{
    match (a, b) {
        (Protocol::Nlm, Protocol::Nlm) => true,
        (Protocol::Nfs, Protocol::Nfs) => true,
        (Protocol::Smb, Protocol::Smb) => true,
        _ => false,
    }
}

/// Whether both are one owner.
pub fn same_owner(a: Owner, b: Owner) -> bool
    ensures test { result ≡ same_owners a b }
    ensures equal { IsTrue result ↔ (a ≡ b) }
{
    match (a, b) {
        (Owner::Name(protocol, number), Owner::Name(other, at)) => protocols(protocol, other)
            && number == at,
        (Owner::Open(number), Owner::Open(at)) => number == at,
        _ => false,
    }
}

/// Whether both are one party.
pub fn same_party(a: Party, b: Party) -> bool
    ensures test { result ≡ same_parties a b }
    ensures equal { IsTrue result ↔ (a ≡ b) }
{
    match (a, b) {
        (Party::Name(protocol, number), Party::Name(other, at)) => protocols(protocol, other)
            && number == at,
        (Party::Open(number), Party::Open(at)) => number == at,
        _ => false,
    }
}

fn flags(a: bool, b: bool) -> bool
    ensures { result ≡ same_flag a b }
{
    a == b
}

fn rights(p: Rwd, q: Rwd) -> bool
    ensures { result ≡ same_rights p q }
{
    flags(p.r, q.r) && flags(p.w, q.w) && flags(p.d, q.d)
}

fn extents(a: Extent, b: Extent) -> bool
    ensures { result ≡ same_extent a b }
{
    match (a, b) {
        (Extent::Bytes(first, last), Extent::Bytes(start, end)) => first == start && last == end,
        (Extent::Empty(offset), Extent::Empty(at)) => offset == at,
        _ => false,
    }
}

fn kinds(a: CacheKind, b: CacheKind) -> bool
    ensures { result ≡ same_kind a b }
{
    match (a, b) {
        (CacheKind::R, CacheKind::R) => true,
        (CacheKind::RH, CacheKind::RH) => true,
        (CacheKind::RW, CacheKind::RW) => true,
        (CacheKind::RWH, CacheKind::RWH) => true,
        (CacheKind::ReadDeleg, CacheKind::ReadDeleg) => true,
        (CacheKind::WriteDeleg, CacheKind::WriteDeleg) => true,
        _ => false,
    }
}

fn targets(a: Option<CacheKind>, b: Option<CacheKind>) -> bool
    ensures { result ≡ same_target a b }
{
    match (a, b) {
        (None, None) => true,
        (Some(kind), Some(other)) => kinds(kind, other),
        _ => false,
    }
}

fn breaks(a: Option<Break>, b: Option<Break>) -> bool
    ensures { result ≡ same_break a b }
{
    match (a, b) {
        (None, None) => true,
        (Some(p), Some(q)) => targets(p.target, q.target) && p.deadline.0 == q.deadline.0,
        _ => false,
    }
}

#[tactic(auto, unfolding(crate::specs::Equal::same_what))]
fn whats(a: What, b: What) -> bool
    ensures { result ≡ same_what a b }
{
    match (a, b) {
        (What::Share(access, deny), What::Share(granted, denied)) => rights(access, granted)
            && rights(deny, denied),
        (What::Range(extent, exclusive), What::Range(place, alone)) => extents(extent, place)
            && flags(exclusive, alone),
        (What::Cache(kind, running), What::Cache(other, due)) => kinds(kind, other)
            && breaks(running, due),
        _ => false,
    }
}

#[tactic(auto, unfolding(crate::specs::Equal::same_claims))]
fn claims(a: &Claim, b: &Claim) -> bool
    ensures { result ≡ same_claims a.now b.now }
{
    a.file == b.file
        && same_owner(a.owner, b.owner)
        && same_party(a.party, b.party)
        && whats(a.what, b.what)
}

/// Whether both are one claim: equal in each part.
#[tactic(auto, using(crate::proofs::EqualLaws::same_claims_iff))]
pub fn same_claim(a: &Claim, b: &Claim) -> bool
    ensures test { result ≡ same_claims a.now b.now }
    ensures equal { IsTrue result ↔ (a.now ≡ b.now) }
{
    claims(a, b)
}
