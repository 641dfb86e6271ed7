//! What is asked of the core.

ghost use Rattle.std.specs.Prelude.{◌≡◌, ◌+◌, ◌≤◌, ◌||◌, ◌∷◌, [], false, true, IfOk};
ghost use Rattle.xl_matrix.specs.declared.claim.CacheKind.TheVariants.{R, RWH, WriteDeleg};
ghost use Rattle.xl_matrix.specs.declared.claim.Extent.TheVariants.{Bytes};
ghost use Rattle.xl_core.specs.Askers.{IsFit, IsFitAct, IsFitWish, IsOrdered, is_named, may_ask, may_hold};
ghost use Rattle.xl_core.specs.declared.ask.Who.{Who};

use std::alloc::{AllocError, Global};
use xl_base::{Mark, Sequence};
use xl_core::{Act, Ask, Who};
use xl_matrix::{CacheKind, Extent, Rwd, What};
use xl_names::Name;
use xl_wait::{NO_ROWS, Rooms};

const ONE_HOST: Rooms = Rooms {
    hosts: 1,
    owners: 0,
    opens: 0,
};

const ONE_OPEN: Rooms = Rooms {
    hosts: 0,
    owners: 0,
    opens: 1,
};

pub(crate) const NONE: Rwd = Rwd {
    r: false,
    w: false,
    d: false,
};

pub(crate) const READ: Rwd = Rwd {
    r: true,
    w: false,
    d: false,
};

pub(crate) const WRITE: Rwd = Rwd {
    r: false,
    w: true,
    d: false,
};

pub(crate) const BOTH: Rwd = Rwd {
    r: true,
    w: true,
    d: false,
};

/// What an SMB open locks or unlocks.
#[derive(Clone, Copy)]
pub(crate) enum Place {
    /// Bytes 0 to 9.
    Whole,
    /// Bytes 0 to 4.
    Start,
    /// Bytes 5 to 14.
    Across,
    /// Bytes 10 to 19.
    Behind,
    /// No byte, at offset 5.
    Inside,
    /// No byte, at offset 0.
    Before,
}

/// Who asks for what, of file 1 unless another is named.
#[derive(Drop)]
pub(crate) enum Asked {
    /// A caller of NLM tests ten bytes.
    Test(u8),
    /// A caller of NLM locks ten bytes of this file, and waits if something stands in its way.
    Lock(u32, u8),
    /// A caller of NLM reclaims the lock of ten bytes; it would wait.
    ReclaimedLock(u8),
    /// A caller of NLM locks ten bytes, or reclaims them, with a state of four such bytes; it is monitored, and waits if something
    /// stands in its way.
    StateLock(u8, u8, bool),
    /// A caller of NLM locks bytes, shared or exclusively; it waits if something stands in its way, or doesn't.
    Bytes(u8, Place, bool, bool),
    /// A caller of NLM unlocks bytes.
    Free(u8, Place),
    /// A caller of NLM tests whether it may lock ten bytes, shared.
    SharedTest(u8),
    /// An SMB open locks one range, shared or exclusively; it doesn't wait.
    Range(u32, Place, bool),
    /// An SMB open locks the bytes 0 to 9, the bytes 20 to 29, and ten bytes from here on, in one request.
    Three(u32, u16),
    Unlock(u32, Place),
    /// An SMB open's share, without a wish.
    Share(u32, Rwd, Rwd),
    /// An SMB open's share for reading and writing, which denies this much, with a batch oplock.
    Oplock(u32, Rwd),
    /// The same, which denies nothing, and waits if something stands in its way.
    OplockThatWaits(u32),
    /// An SMB open's batch oplock by itself.
    Wish(u32),
    /// An NFSv4 client's share for reading.
    ClientShare(u8),
    /// An NFSv4 client's share, as a reclaim.
    ReclaimedShare(u8, Rwd, Rwd),
    /// An NFSv4 client's share for reading, or the reclaim of it, with a verifier of eight such bytes.
    VerifierShare(u8, u8, bool),
    /// An NFSv4 client's share for reading and writing, with a write delegation.
    Delegation(u8),
    /// The same, as a reclaim.
    ReclaimedDelegation(u8),
    /// A share by a caller of NLM that waits for answers; its host is new.
    HostShare(u8),
}

// ---- asks by names

/// A test of ten bytes by a caller, whose name is given twice.
fn a_test(alloc: Global, caller: Sequence<u8>, same: Sequence<u8>) -> Ask
    requires { caller ≡ same }
    ensures { IsFit result }
{
    Ask {
        file: 1,
        owner: Who::Named(Name::NlmRange(caller, 1, Sequence::new(alloc))),
        party: Who::Named(Name::NlmParty(same)),
        act: Act::Test(Extent::Bytes(0, 9), true),
        wish: Sequence::new(alloc),
        conn: None,
        blocking: false,
        awaits: false,
        reclaim: false,
        monitored: false,
        mark: None,
        rows: NO_ROWS,
    }
}

fn test_of(alloc: Global, caller: u8) -> Result<Ask, AllocError>
    ensures { IfOk result (λ ask. IsFit ask) }
{
    let name = Sequence::from_slice(alloc, &[caller])?;
    let same = Sequence::from_slice(alloc, &[caller])?;
    Ok(a_test(alloc, name, same))
}

/// A lock of ten bytes of the file by a caller, whose name is given twice. It waits if something blocks it, and is monitored if
/// it is a reclaim or has a mark.
fn lock_by(
    alloc: Global,
    file: u32,
    caller: Sequence<u8>,
    same: Sequence<u8>,
    ranges: Sequence<(Extent, bool)>,
    reclaim: bool,
    mark: Option<Mark>,
) -> Ask
    requires caller { caller ≡ same }
    requires ranges { ranges ≡ (Bytes 0 9, true) ∷ [] }
    ensures { IsFit result }
{
    Ask {
        file,
        owner: Who::Named(Name::NlmRange(caller, 1, Sequence::new(alloc))),
        party: Who::Named(Name::NlmParty(same)),
        act: Act::Ranges(ranges),
        wish: Sequence::new(alloc),
        conn: None,
        blocking: true,
        awaits: true,
        reclaim,
        monitored: reclaim || mark.is_some(),
        mark,
        rows: NO_ROWS,
    }
}

/// What a caller, whose name is given twice, does to bytes of file 1; it waits if something blocks it, or doesn't.
fn act_by(alloc: Global, caller: Sequence<u8>, same: Sequence<u8>, act: Act, waits: bool) -> Ask
    requires caller { caller ≡ same }
    requires act { (who : Who) → IsFitAct who waits act }
    requires own { (who : Who) → is_named who ≡ true → may_ask who act ≡ true }
    requires wish { (who : Who) → IsFitWish who (waits || waits) false act [] }
    ensures { IsFit result }
{
    Ask {
        file: 1,
        owner: Who::Named(Name::NlmRange(caller, 1, Sequence::new(alloc))),
        party: Who::Named(Name::NlmParty(same)),
        act,
        wish: Sequence::new(alloc),
        conn: None,
        blocking: waits,
        awaits: waits,
        reclaim: false,
        monitored: false,
        mark: None,
        rows: NO_ROWS,
    }
}

/// Bytes in their order.
fn bytes_at(place: Place) -> (u64, u64)
    ensures { result.0 ≤ result.1 }
{
    match place {
        Place::Whole => (0, 9),
        Place::Start => (0, 4),
        Place::Across => (5, 14),
        Place::Behind => (10, 19),
        Place::Inside => (5, 5),
        Place::Before => (0, 0),
    }
}

fn bytes_of(
    alloc: Global,
    caller: u8,
    place: Place,
    exclusive: bool,
    waits: bool,
) -> Result<Ask, AllocError>
    ensures { IfOk result (λ ask. IsFit ask) }
{
    let (first, last) = bytes_at(place);
    let mut ranges = Sequence::new(alloc);
    ranges.push((Extent::Bytes(first, last), exclusive))?;
    let name = Sequence::from_slice(alloc, &[caller])?;
    let same = Sequence::from_slice(alloc, &[caller])?;
    Ok(act_by(alloc, name, same, Act::Ranges(ranges), waits))
}

fn free_of(alloc: Global, caller: u8, place: Place) -> Result<Ask, AllocError>
    ensures { IfOk result (λ ask. IsFit ask) }
{
    let (first, last) = bytes_at(place);
    let name = Sequence::from_slice(alloc, &[caller])?;
    let same = Sequence::from_slice(alloc, &[caller])?;
    let act = Act::Unlock(Extent::Bytes(first, last));
    Ok(act_by(alloc, name, same, act, false))
}

fn shared_test_of(alloc: Global, caller: u8) -> Result<Ask, AllocError>
    ensures { IfOk result (λ ask. IsFit ask) }
{
    let name = Sequence::from_slice(alloc, &[caller])?;
    let same = Sequence::from_slice(alloc, &[caller])?;
    let act = Act::Test(Extent::Bytes(0, 9), false);
    Ok(act_by(alloc, name, same, act, false))
}

fn lock_of(
    alloc: Global,
    file: u32,
    caller: u8,
    reclaim: bool,
    mark: Option<Mark>,
) -> Result<Ask, AllocError>
    ensures { IfOk result (λ ask. IsFit ask) }
{
    let mut ranges = Sequence::new(alloc);
    ranges.push((Extent::Bytes(0, 9), true))?;
    let name = Sequence::from_slice(alloc, &[caller])?;
    let same = Sequence::from_slice(alloc, &[caller])?;
    Ok(lock_by(alloc, file, name, same, ranges, reclaim, mark))
}

/// A share of an NFSv4 client, whose id string is given twice.
fn a_share(
    alloc: Global,
    client: Sequence<u8>,
    same: Sequence<u8>,
    access: Rwd,
    deny: Rwd,
    reclaim: bool,
    mark: Option<Mark>,
) -> Ask
    requires { client ≡ same }
    ensures { IsFit result }
{
    Ask {
        file: 1,
        owner: Who::Named(Name::NfsShare(client, Sequence::new(alloc))),
        party: Who::Named(Name::NfsParty(same)),
        act: Act::Share(access, deny),
        wish: Sequence::new(alloc),
        conn: None,
        blocking: false,
        awaits: false,
        reclaim,
        monitored: true,
        mark,
        rows: NO_ROWS,
    }
}

fn client_share(
    alloc: Global,
    client: u8,
    access: Rwd,
    deny: Rwd,
    reclaim: bool,
    mark: Option<Mark>,
) -> Result<Ask, AllocError>
    ensures { IfOk result (λ ask. IsFit ask) }
{
    let name = Sequence::from_slice(alloc, &[client])?;
    let same = Sequence::from_slice(alloc, &[client])?;
    Ok(a_share(alloc, name, same, access, deny, reclaim, mark))
}

/// A share by an NFSv4 client, whose id string is given twice, with a write delegation.
#[tactic(auto, unfolding(xl_cache::specs::Parties::is_kind_of))]
fn share_of(
    alloc: Global,
    client: Sequence<u8>,
    same: Sequence<u8>,
    kinds: Sequence<CacheKind>,
    reclaim: bool,
) -> Ask
    requires client { client ≡ same }
    requires kinds { kinds ≡ WriteDeleg ∷ [] }
    ensures { IsFit result }
{
    Ask {
        file: 1,
        owner: Who::Named(Name::NfsShare(client, Sequence::new(alloc))),
        party: Who::Named(Name::NfsParty(same)),
        act: Act::Share(BOTH, NONE),
        wish: kinds,
        conn: None,
        blocking: false,
        awaits: false,
        reclaim,
        monitored: true,
        mark: None,
        rows: NO_ROWS,
    }
}

fn delegation_of(alloc: Global, client: u8, reclaim: bool) -> Result<Ask, AllocError>
    ensures { IfOk result (λ ask. IsFit ask) }
{
    let mut kinds = Sequence::new(alloc);
    kinds.push(CacheKind::WriteDeleg)?;
    let name = Sequence::from_slice(alloc, &[client])?;
    let same = Sequence::from_slice(alloc, &[client])?;
    Ok(share_of(alloc, name, same, kinds, reclaim))
}

/// A share by an NLM caller, whose name is given twice, that waits for answers; its host is new.
fn share_of_host(alloc: Global, caller: Sequence<u8>, same: Sequence<u8>) -> Ask
    requires { caller ≡ same }
    ensures { IsFit result }
{
    Ask {
        file: 1,
        owner: Who::Named(Name::NlmShare(caller, Sequence::new(alloc))),
        party: Who::Named(Name::NlmParty(same)),
        act: Act::Share(BOTH, NONE),
        wish: Sequence::new(alloc),
        conn: None,
        blocking: false,
        awaits: true,
        reclaim: false,
        monitored: false,
        mark: None,
        rows: ONE_HOST,
    }
}

fn host_share(alloc: Global, caller: u8) -> Result<Ask, AllocError>
    ensures { IfOk result (λ ask. IsFit ask) }
{
    let name = Sequence::from_slice(alloc, &[caller])?;
    let same = Sequence::from_slice(alloc, &[caller])?;
    Ok(share_of_host(alloc, name, same))
}

// ---- asks by opens

/// What an open asks for on a file, no cache; it doesn't wait.
fn ask_by(alloc: Global, number: u32, act: Act) -> Ask
    requires fit { IsFitAct (Who.Open number) false act }
    requires own { may_ask (Who.Open number) act ≡ true }
    requires wish { IsFitWish (Who.Open number) false false act [] }
    ensures { IsFit result }
{
    Ask {
        file: 1,
        owner: Who::Open(number),
        party: Who::Open(number),
        act,
        wish: Sequence::new(alloc),
        conn: None,
        blocking: false,
        awaits: false,
        reclaim: false,
        monitored: false,
        mark: None,
        rows: NO_ROWS,
    }
}

fn range_of(alloc: Global, number: u32, extent: Extent, exclusive: bool) -> Result<Ask, AllocError>
    requires order { IsOrdered extent }
    requires own { may_hold (Who.Open number) (What.Range extent exclusive) ≡ true }
    ensures { IfOk result (λ ask. IsFit ask) }
{
    let mut ranges = Sequence::new(alloc);
    ranges.push((extent, exclusive))?;
    Ok(ask_by(alloc, number, Act::Ranges(ranges)))
}

fn range_at(alloc: Global, number: u32, place: Place, exclusive: bool) -> Result<Ask, AllocError>
    ensures { IfOk result (λ ask. IsFit ask) }
{
    match place {
        Place::Whole => range_of(alloc, number, Extent::Bytes(0, 9), exclusive),
        Place::Start => range_of(alloc, number, Extent::Bytes(0, 4), exclusive),
        Place::Across => range_of(alloc, number, Extent::Bytes(5, 14), exclusive),
        Place::Behind => range_of(alloc, number, Extent::Bytes(10, 19), exclusive),
        Place::Inside => range_of(alloc, number, Extent::Empty(5), exclusive),
        Place::Before => range_of(alloc, number, Extent::Empty(0), exclusive),
    }
}

fn unlock_at(alloc: Global, number: u32, place: Place) -> Ask
    ensures { IsFit result }
{
    match place {
        Place::Whole => ask_by(alloc, number, Act::Unlock(Extent::Bytes(0, 9))),
        Place::Start => ask_by(alloc, number, Act::Unlock(Extent::Bytes(0, 4))),
        Place::Across => ask_by(alloc, number, Act::Unlock(Extent::Bytes(5, 14))),
        Place::Behind => ask_by(alloc, number, Act::Unlock(Extent::Bytes(10, 19))),
        Place::Inside => ask_by(alloc, number, Act::Unlock(Extent::Empty(5))),
        Place::Before => ask_by(alloc, number, Act::Unlock(Extent::Empty(0))),
    }
}

/// Three locks in one request: of bytes 0 to 9, of bytes 20 to 29, and of ten bytes more from here on.
fn three_from(alloc: Global, first: u64) -> Result<Sequence<(Extent, bool)>, AllocError>
    requires { first ≤ 1000 }
    ensures { IfOk result (λ ranges. ranges ≡ (Extent.Bytes 0 9, true) ∷ (Extent.Bytes 20 29, true) ∷ (Extent.Bytes first (first + 9), true) ∷ []) }
{
    let mut ranges = Sequence::new(alloc);
    ranges.push((Extent::Bytes(0, 9), true))?;
    ranges.push((Extent::Bytes(20, 29), true))?;
    ranges.push((Extent::Bytes(first, first + 9), true))?;
    Ok(ranges)
}

fn three_of(alloc: Global, number: u32, first: u16) -> Result<Ask, AllocError>
    ensures { IfOk result (λ ask. IsFit ask) }
{
    let first = first as u64;
    if first > 1000 {
        return Err(AllocError);
    }
    let ranges = three_from(alloc, first)?;
    Ok(ask_by(alloc, number, Act::Ranges(ranges)))
}

/// A share of a file by the open of this number.
fn plain_share_by(alloc: Global, number: u32, access: Rwd, deny: Rwd) -> Ask
    ensures { IsFit result }
{
    Ask {
        file: 1,
        owner: Who::Open(number),
        party: Who::Open(number),
        act: Act::Share(access, deny),
        wish: Sequence::new(alloc),
        conn: None,
        blocking: false,
        awaits: false,
        reclaim: false,
        monitored: false,
        mark: None,
        rows: ONE_OPEN,
    }
}

/// What a batch oplock asks for.
fn batch(alloc: Global) -> Result<Sequence<CacheKind>, AllocError>
    ensures { IfOk result (λ kinds. kinds ≡ RWH ∷ R ∷ []) }
{
    let mut kinds = Sequence::new(alloc);
    kinds.push(CacheKind::RWH)?;
    kinds.push(CacheKind::R)?;
    Ok(kinds)
}

/// A share of the file for reading and writing by the open of this number, with a batch oplock.
#[tactic(auto, unfolding(xl_cache::specs::Parties::is_kind_of))]
fn share_by(number: u32, deny: Rwd, kinds: Sequence<CacheKind>) -> Ask
    requires { kinds ≡ RWH ∷ R ∷ [] }
    ensures { IsFit result }
{
    Ask {
        file: 1,
        owner: Who::Open(number),
        party: Who::Open(number),
        act: Act::Share(BOTH, deny),
        wish: kinds,
        conn: None,
        blocking: false,
        awaits: false,
        reclaim: false,
        monitored: false,
        mark: None,
        rows: NO_ROWS,
    }
}

fn oplock_of(alloc: Global, number: u32, deny: Rwd) -> Result<Ask, AllocError>
    ensures { IfOk result (λ ask. IsFit ask) }
{
    let kinds = batch(alloc)?;
    Ok(share_by(number, deny, kinds))
}

/// The same, which waits if something stands in its way.
#[tactic(auto, unfolding(xl_cache::specs::Parties::is_kind_of))]
fn waiting_share_by(number: u32, kinds: Sequence<CacheKind>) -> Ask
    requires { kinds ≡ RWH ∷ R ∷ [] }
    ensures { IsFit result }
{
    Ask {
        file: 1,
        owner: Who::Open(number),
        party: Who::Open(number),
        act: Act::Share(BOTH, NONE),
        wish: kinds,
        conn: None,
        blocking: true,
        awaits: true,
        reclaim: false,
        monitored: false,
        mark: None,
        rows: NO_ROWS,
    }
}

fn oplock_that_waits(alloc: Global, number: u32) -> Result<Ask, AllocError>
    ensures { IfOk result (λ ask. IsFit ask) }
{
    let kinds = batch(alloc)?;
    Ok(waiting_share_by(number, kinds))
}

/// The oplock by itself.
#[tactic(auto, unfolding(xl_cache::specs::Parties::is_kind_of))]
fn wish_by(number: u32, kinds: Sequence<CacheKind>) -> Ask
    requires { kinds ≡ RWH ∷ R ∷ [] }
    ensures { IsFit result }
{
    Ask {
        file: 1,
        owner: Who::Open(number),
        party: Who::Open(number),
        act: Act::Wish,
        wish: kinds,
        conn: None,
        blocking: false,
        awaits: false,
        reclaim: false,
        monitored: false,
        mark: None,
        rows: NO_ROWS,
    }
}

fn wish_of(alloc: Global, number: u32) -> Result<Ask, AllocError>
    ensures { IfOk result (λ ask. IsFit ask) }
{
    let kinds = batch(alloc)?;
    Ok(wish_by(number, kinds))
}

/// The ask as the core takes it.
pub(crate) fn ask_of(alloc: Global, asked: &Asked) -> Result<Ask, AllocError>
    ensures { IfOk result (λ ask. IsFit ask) }
{
    match asked {
        Asked::Test(caller) => test_of(alloc, *caller),
        Asked::Lock(file, caller) => lock_of(alloc, *file, *caller, false, None),
        Asked::ReclaimedLock(caller) => lock_of(alloc, 1, *caller, true, None),
        Asked::StateLock(caller, state, reclaim) => {
            lock_of(alloc, 1, *caller, *reclaim, Some(Mark::State([*state; 4])))
        }
        Asked::Bytes(caller, place, exclusive, waits) => {
            bytes_of(alloc, *caller, *place, *exclusive, *waits)
        }
        Asked::Free(caller, place) => free_of(alloc, *caller, *place),
        Asked::SharedTest(caller) => shared_test_of(alloc, *caller),
        Asked::Range(number, place, exclusive) => range_at(alloc, *number, *place, *exclusive),
        Asked::Three(number, first) => three_of(alloc, *number, *first),
        Asked::Unlock(number, place) => Ok(unlock_at(alloc, *number, *place)),
        Asked::Share(number, access, deny) => Ok(plain_share_by(alloc, *number, *access, *deny)),
        Asked::Oplock(number, deny) => oplock_of(alloc, *number, *deny),
        Asked::OplockThatWaits(number) => oplock_that_waits(alloc, *number),
        Asked::Wish(number) => wish_of(alloc, *number),
        Asked::ClientShare(client) => client_share(alloc, *client, READ, NONE, false, None),
        Asked::ReclaimedShare(client, access, deny) => {
            client_share(alloc, *client, *access, *deny, true, None)
        }
        Asked::VerifierShare(client, byte, reclaim) => {
            let mark = Some(Mark::Verifier([*byte; 8]));
            client_share(alloc, *client, READ, NONE, *reclaim, mark)
        }
        Asked::Delegation(client) => delegation_of(alloc, *client, false),
        Asked::ReclaimedDelegation(client) => delegation_of(alloc, *client, true),
        Asked::HostShare(caller) => host_share(alloc, *caller),
    }
}
