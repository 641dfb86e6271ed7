//! The stores of a step, and what is stored.
ghost use Rattle.std.specs.Prelude.{◌≡◌, ℕ, ◌-◌, ◌^◌, if◌then◌else◌, min, Ok, true, OnOk, IfOk, false, not};
ghost use Rattle.xl_base.specs.RecordFile.{added, with_name};
ghost use Rattle.xl_base.specs.Stable.{same_name, is_recordable, is_recorded};
ghost use Rattle.xl_core.specs.State.{MayBe, GoesOn};
ghost use Rattle.xl_core.specs.Stores.{may_store, stored, store_failed, client_name, without_name, unrecorded, bytes_with, HandsOn};
ghost use Rattle.xl_core.specs.Unsettled.{AreHeldUp};
ghost use Rattle.xl_core.specs.declared.unsettled.Unsettled.{Unsettled};
ghost use Rattle.xl_core.specs.Whole.{state_of};

use crate::parts::Parts;
use std::alloc::{AllocError, Global};
use xl_base::{
    Keeper, Protocol, Record, RecordNameError, Recorded, Sequence, StoreOutcome, length_with,
};

/// Gives the keeper this record, unless a store of this step failed, and whether it is stored. The memory that the store
/// takes besides the keeper's own is taken before.
#[tactic(auto, unfolding(crate::specs::Stores::stored, crate::specs::Stores::store_failed), using(crate::proofs::UnsettledLaws::kept_up))]
pub(crate) fn store<K: Keeper>(
    alloc: Global,
    parts: &mut Parts,
    keeper: &mut K,
    stable: Record,
) -> Result<bool, AllocError>
    ensures may { (n : ℕ) → IfOk result (λ ok. MayBe n (state_of parts.new) → may_store n (state_of parts.old) ≡ ok) }
    ensures state { IfOk result (λ ok. state_of parts.new ≡ (if ok then stored stable (state_of parts.old) else store_failed stable (state_of parts.old))) }
    ensures on { OnOk result (GoesOn (state_of parts.old) (state_of parts.new)) }
    ensures keeper { OnOk result (HandsOn (state_of parts.old) (state_of parts.new) (record { held = K.held keeper.old; given = K.given keeper.old; faults = K.faults keeper.old; left = K.left keeper.old }) (record { held = K.held keeper.new; given = K.given keeper.new; faults = K.faults keeper.new; left = K.left keeper.new })) }
    ensures held_up { (u : Unsettled) → AreHeldUp u (state_of parts.old) → AreHeldUp u (state_of parts.new) }
{
    if parts.failed {
        return Ok(false);
    }
    parts.given.push(stable.copy(alloc)?)?;
    match keeper.store(alloc, &stable) {
        StoreOutcome::Stored => {
            parts.stable = stable;
            Ok(true)
        }
        StoreOutcome::Failed => {
            parts.failed = true;
            Ok(false)
        }
        StoreOutcome::NoMemory => Err(AllocError),
    }
}

/// The name that is to be recorded before a grant, with its mark: of one whose name is stored, if the record lacks it, or keeps
/// none of its marks or another.
pub(crate) fn unrecorded(stable: &Record, stores: bool, name: Recorded) -> Option<Recorded>
    ensures { result ≡ unrecorded stores name stable.now }
{
    if stores && name.is_recordable() && !stable.keeps(&name) {
        Some(name)
    } else {
        None
    }
}

/// The bytes of the record once the name is in it, or none if none is to be recorded; at most 2^64 - 1.
pub(crate) fn bytes_with(stable: &Record, name: &Option<Recorded>) -> u64
    ensures { result ≡ min (bytes_with name.now stable.now) (2 ^ 64 - 1) }
{
    match name {
        Some(name) => length_with(stable, name),
        None => 0,
    }
}

/// The record with this name and its mark, in its place or behind the others.
pub(crate) fn with_name(
    alloc: Global,
    stable: &Record,
    name: Recorded,
) -> Result<Record, AllocError>
    requires { is_recordable name ≡ true }
    ensures { IfOk result (λ r. r ≡ with_name name stable.now) }
{
    let mut longer = stable.copy(alloc)?;
    match longer.put(name) {
        Ok(()) => Ok(longer),
        Err(RecordNameError::NoMemory) => Err(AllocError),
        Err(RecordNameError::Unfit | RecordNameError::Twice) => unreachable!(),
    }
}

/// The name of an NFSv4 client in the record.
pub(crate) fn client_name(alloc: Global, id: &[u8]) -> Result<Recorded, AllocError>
    ensures { IfOk result (λ name. name ≡ client_name id.now) }
{
    Ok(Recorded {
        protocol: Protocol::Nfs,
        name: Sequence::from_slice(alloc, id)?,
        mark: None,
    })
}

fn is_other(a: &Recorded, b: &Recorded) -> bool
    ensures { result ≡ not (same_name a.now b.now) }
{
    !a.has_name_of(b)
}

/// The record without the name.
pub(crate) fn without_name(
    alloc: Global,
    stable: &Record,
    name: &Recorded,
) -> Result<Record, AllocError>
    ensures { IfOk result (λ r. r ≡ without_name name.now stable.now) }
{
    let mut shorter = Record::new(alloc);
    shorter.set_epoch(stable.epoch());
    let names = stable.names();
    'names: for held in names {
        if is_other(held, name) {
            add(&mut shorter, held.copy(alloc)?)?;
        }
    }
    Ok(shorter)
}

/// Adds a name that a client of NFSv4 or NLM has and that isn't among the others.
fn add(stable: &mut Record, name: Recorded) -> Result<(), AllocError>
    requires { (is_recordable name ≡ true) × (is_recorded name stable.old.names ≡ false) }
    ensures { OnOk result (stable.new ≡ added name stable.old) }
{
    match stable.add(name) {
        Ok(()) => Ok(()),
        Err(RecordNameError::NoMemory) => Err(AllocError),
        Err(RecordNameError::Unfit | RecordNameError::Twice) => unreachable!(),
    }
}
