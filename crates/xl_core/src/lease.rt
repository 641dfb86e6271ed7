//! Leases of NFSv4 clients (RFC 7530 9.5).
ghost use Rattle.std.specs.Prelude.{◌≡◌, map, filter, IfOk, OnOk, OnErr, nat_le};
ghost use Rattle.xl_base.specs.Lists.{sorted};
ghost use Rattle.xl_core.specs.Leases.{moment_after, later, with_lease, without_lease, has_ended, with_ended, comes_before, ended, is_ended};

use indexmap::IndexMap;
use std::alloc::{AllocError, AllocFailed, Global};
use xl_base::{Moment, Sequence};

/// How long things last, in milliseconds.
#[derive(Clone, Copy)]
pub struct Times {
    /// The lease of an NFSv4 client, from its last renewal (RFC 7530 9.5).
    pub lease: u64,
    /// The grace for reclaims, from a start (RFC 7530 9.6.2).
    pub grace: u64,
    /// A break of a cache, until it is over without an answer (MS-SMB2 3.3.2.1).
    pub break_time: u64,
}

/// The moment so many milliseconds later, or the last that there is.
pub(crate) fn moment_after(now: Moment, milliseconds: u64) -> Moment
    ensures { result ≡ moment_after now milliseconds }
{
    Moment(now.0.saturating_add(milliseconds))
}

/// The later of two moments.
pub(crate) fn later(a: Moment, b: Moment) -> Moment
    ensures { result ≡ later a b }
{
    if a.0 < b.0 { b } else { a }
}

/// Has the client's lease end then.
#[tactic(auto, using(crate::proofs::LeaseLaws::lease_put))]
pub(crate) fn put_lease(
    leases: &mut IndexMap<Sequence<u8>, Moment>,
    client: Sequence<u8>,
    until: Moment,
) -> Result<(), AllocFailed<(Sequence<u8>, Moment)>>
    ensures ok { OnOk result (leases.new.entries ≡ with_lease client until leases.old.entries) }
    ensures err { OnErr result (leases.new.entries ≡ leases.old.entries) }
{
    leases.insert(client, until)?;
    Ok(())
}

/// Takes the client's lease out.
pub(crate) fn drop_lease(leases: &mut IndexMap<Sequence<u8>, Moment>, client: &Sequence<u8>)
    ensures { leases.new.entries ≡ without_lease client.now leases.old.entries }
{
    leases.retain(|id, _| id != client);
}

fn has_ended(now: Moment, until: Moment) -> bool
    ensures { result ≡ nat_le until.0 now.0 }
{
    until.0 <= now.0
}

/// Whether the client's lease has ended, and wasn't taken out.
#[tactic(auto, unfolding(crate::specs::Leases::is_ended))]
pub(crate) fn is_ended(leases: &IndexMap<Sequence<u8>, Moment>, now: Moment, client: &[u8]) -> bool
    ensures { result ≡ is_ended now leases.now.entries client.now }
{
    leases.iter().any(|(id, until)| has_ended(now, *until) && client == id.as_slice())
}

/// Puts the id string of the client behind these, if its lease has ended.
fn push_ended(
    alloc: Global,
    ids: &mut Vec<Sequence<u8>>,
    id: &Sequence<u8>,
    until: Moment,
    now: Moment,
) -> Result<(), AllocError>
    ensures { OnOk result (ids.new.items ≡ with_ended now (id.now, until) ids.old.items) }
{
    if has_ended(now, until) {
        ids.push(Sequence::from_slice(alloc, id.as_slice())?)?;
    }
    Ok(())
}

/// The id strings of the clients whose lease has ended.
fn ended_ids(
    alloc: Global,
    leases: &IndexMap<Sequence<u8>, Moment>,
    now: Moment,
) -> Result<Vec<Sequence<u8>>, AllocError>
    ensures { IfOk result (λ v. v.items ≡ map (λ l. l.0) (filter (has_ended now) leases.now.entries)) }
{
    let mut ids = Vec::new(alloc);
    'leases: for (id, until) in leases.iter() {
        push_ended(alloc, &mut ids, id, *until, now)?;
    }
    Ok(ids)
}

/// The id strings in order.
fn in_order(ids: Vec<Sequence<u8>>) -> Result<Vec<Sequence<u8>>, AllocError>
    ensures { IfOk result (λ v. v.items ≡ sorted comes_before ids.items) }
{
    let mut ids = ids;
    ids.sort_by(|a, b| a.as_slice().cmp(b.as_slice()))?;
    Ok(ids)
}

/// The clients whose lease has ended, by their id strings and in the order of these.
#[tactic(auto, unfolding(crate::specs::Leases::ended))]
pub(crate) fn ended(
    alloc: Global,
    leases: &IndexMap<Sequence<u8>, Moment>,
    now: Moment,
) -> Result<Vec<Sequence<u8>>, AllocError>
    ensures { IfOk result (λ v. v.items ≡ ended now leases.now.entries) }
{
    let ids = in_order(ended_ids(alloc, leases, now)?)?;
    Ok(ids)
}
