//! The lock that stands against another, as LOCK and LOCKT send it (RFC 7531, LOCK4denied).
ghost use Rattle.std.specs.Prelude.{◌≡◌, ◌≤◌, true, length, IfOk};
ghost use Rattle.std.specs.List.{find};
ghost use Rattle.xl_nfs.specs.Basics.{most_text_bytes};
ghost use Rattle.xl_nfs_state.specs.State.{is_client_named};
ghost use Rattle.xl_nfs_locks.specs.Denials.{clientid_by, held_by, held_lock, holder_parts, kind_of, lock_told};

use crate::ranges::length_of;
use std::alloc::{AllocError, Global};
use xl_base::{Owner, Sequence};
use xl_core::{Answer, Core, id_of};
use xl_matrix::{Claim, Extent, What};
use xl_names::Name;
use xl_nfs::{LockType, MOST_TEXT_BYTES, NfsStatus};
use xl_nfs_opens::{HeldLock, HolderBytes, Told, answer_status};
use xl_nfs_state::NfsState;

/// The clientid of the confirmed client of this id string; of none 0.
fn clientid_by(state: &NfsState, core: &Core, id: &[u8]) -> u64
    ensures { result ≡ clientid_by core.now (find (is_client_named id.now true) state.now.clients) }
{
    match state.find_client_named(id, true) {
        Some(row) => id_of(core, row.number),
        None => 0,
    }
}

/// The clientid and the bytes of who holds a lock.
fn holder_parts<'a>(state: &NfsState, core: &'a Core, owner: Owner) -> (u64, &'a [u8])
    ensures value { (result.0, result.1.now) ≡ holder_parts core.now state.now owner }
    ensures few { length result.1.now ≤ most_text_bytes }
{
    let Owner::Name(_, number) = owner else {
        return (0, b"smb");
    };
    match core.names().as_slice().get(number as usize) {
        Some(Name::NfsRange(id, bytes)) if bytes.len() <= MOST_TEXT_BYTES as usize => {
            (clientid_by(state, core, id.as_slice()), bytes.as_slice())
        }
        _ => (0, b"nlm"),
    }
}

fn kind_of(exclusive: bool) -> LockType
    ensures { result ≡ kind_of exclusive }
{
    if exclusive {
        LockType::Write
    } else {
        LockType::Read
    }
}

/// What is claimed, as it is sent, with who holds it.
fn held_by(clientid: u64, owner: HolderBytes, what: What) -> HeldLock
    ensures { result ≡ held_by (clientid, owner) what }
{
    match what {
        What::Range(Extent::Bytes(first, last), exclusive) => HeldLock {
            offset: first,
            len: length_of(first, last),
            kind: kind_of(exclusive),
            clientid,
            owner,
        },
        _ => HeldLock {
            offset: 0,
            len: u64::MAX,
            kind: LockType::Write,
            clientid,
            owner,
        },
    }
}

/// A claim, as it is sent.
fn held_lock(
    alloc: Global,
    state: &NfsState,
    core: &Core,
    claim: &Claim,
) -> Result<HeldLock, AllocError>
    ensures { IfOk result (λ held. held ≡ held_lock core.now state.now claim.now) }
{
    let (clientid, owner) = holder_parts(state, core, claim.owner);
    let bytes = HolderBytes::new(Sequence::from_slice(alloc, owner)?);
    Ok(held_by(clientid, bytes, claim.what))
}

/// What is sent by the core's answer.
pub(crate) fn lock_told(
    alloc: Global,
    state: &NfsState,
    core: &Core,
    reclaim: bool,
    answer: Answer,
) -> Result<Told, AllocError>
    ensures { IfOk result (λ told. told ≡ lock_told core.now state.now reclaim answer) }
{
    match answer {
        Answer::Conflict(_) if reclaim => Ok(Told::Ended(NfsStatus::ReclaimConflict)),
        Answer::Conflict(claim) => {
            let held = held_lock(alloc, state, core, &claim)?;
            Ok(Told::Denied(held))
        }
        _ => Ok(Told::Ended(answer_status(reclaim, answer))),
    }
}
