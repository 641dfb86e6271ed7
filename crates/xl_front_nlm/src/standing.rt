//! What a call finds: who waits for the same already, and the owner's share.
ghost use Rattle.std.specs.Prelude.{◌≡◌, true, IfOk, IfSome, option_map, option_copied};
ghost use Rattle.std.specs.List.{find, slice_get};
ghost use Rattle.xl_base.specs.Lists.{IsIn};
ghost use Rattle.xl_nlm.specs.Items.{shown_lock, shown_lock_args, shown_share_args};
ghost use Rattle.xl_wait.specs.Waiting.{is_waiting};
ghost use Rattle.xl_front_nlm.specs.Standing.{is_aimed, is_same, waits_for, waiter_by, waiter_for, does_wait, share_by, share_held};

use crate::aim::Aim;
use crate::asks::{owner_of, share_owner};
use std::alloc::{AllocError, Global};
use xl_base::{Owner, Protocol};
use xl_core::Core;
use xl_matrix::{Claim, Extent, What, same_owner};
use xl_nlm::{Lock, LockArgs, ShareArgs};
use xl_table::Table;
use xl_wait::{Queue, Waiter};

fn is_aimed(what: What, at: &Aim, exclusive: bool) -> bool
    ensures { result ≡ is_aimed what at.now exclusive }
{
    match what {
        What::Range(Extent::Bytes(first, last), alone) => first == at.first
            && last == at.last
            && alone == exclusive,
        _ => false,
    }
}

/// Whether the claim is this owner's, on the very bytes, in this mode.
fn is_same(owner: Owner, at: &Aim, exclusive: bool, claim: Option<Claim>) -> bool
    ensures { result ≡ is_same owner at.now exclusive claim }
{
    let Some(claim) = claim else {
        return false;
    };
    claim.file == at.file && same_owner(claim.owner, owner) && is_aimed(claim.what, at, exclusive)
}

/// Whether the waiter waits for the very bytes in this mode as this owner.
fn waits_for(owner: Owner, at: &Aim, exclusive: bool, waiter: &Waiter) -> bool
    ensures { result ≡ waits_for owner at.now exclusive waiter.now }
{
    let first = waiter.asked.as_slice().first().copied();
    is_same(owner, at, exclusive, first)
}

/// The number of the first who waits for the very bytes in this mode as this owner.
fn find_waiter(owner: Owner, at: &Aim, exclusive: bool, waiters: &[Waiter]) -> Option<u32>
    ensures { result ≡ option_map (λ w. w.id) (find (waits_for owner at.now exclusive) waiters.now) }
{
    waiters
        .iter()
        .find(|waiter| waits_for(owner, at, exclusive, waiter))
        .map(|waiter| waiter.id)
}

/// The same of an NLM owner by its number.
fn waiter_by(queue: &Queue, at: &Aim, exclusive: bool, number: Option<u32>) -> Option<u32>
    ensures value { result ≡ waiter_by queue.now at.now exclusive number }
    ensures waits { IfSome result (λ id. is_waiting id queue.now ≡ true) }
{
    match number {
        Some(known) => {
            let owner = Owner::Name(Protocol::Nlm, known);
            find_waiter(owner, at, exclusive, queue.waiters())
        }
        None => None,
    }
}

/// The number of the first waiter of the same owner, file, range and mode. The owner is looked up, and who wait are
/// looked at, only if one of them waits on the file.
pub(crate) fn waiter_for(
    alloc: Global,
    core: &Core,
    lock: &Lock,
    exclusive: bool,
    at: &Aim,
) -> Result<Option<u32>, AllocError>
    ensures value { IfOk result (λ id. id ≡ waiter_for core.now (shown_lock lock.now) exclusive at.now) }
    ensures waits { IfOk result (λ id. IfSome id (λ number. is_waiting number core.now.waiters ≡ true)) }
{
    if !core.queue().waits_on(at.file) {
        return Ok(None);
    }
    let number = core.names().find(&owner_of(alloc, lock)?);
    Ok(waiter_by(core.queue(), at, exclusive, number))
}

/// Whether the owner waits for the very bytes in this mode already.
pub(crate) fn does_wait(
    alloc: Global,
    core: &Core,
    args: &LockArgs,
    at: &Aim,
) -> Result<bool, AllocError>
    ensures { IfOk result (λ waits. waits ≡ does_wait core.now (shown_lock_args args.now) at.now) }
{
    let waiter = waiter_for(alloc, core, &args.lock, args.exclusive, at)?;
    Ok(waiter.is_some())
}

fn share_by(table: &Table, file: u32, number: Option<u32>) -> Option<Claim>
    ensures value { result ≡ share_by table.now file number }
    ensures held { IfSome result (λ claim. IsIn claim table.now) }
{
    match number {
        Some(number) => table.share_of(file, Owner::Name(Protocol::Nlm, number)),
        None => None,
    }
}

/// The owner's share on the file.
pub(crate) fn share_held(
    alloc: Global,
    core: &Core,
    args: &ShareArgs,
    file: u32,
) -> Result<Option<Claim>, AllocError>
    ensures value { IfOk result (λ claim. claim ≡ share_held core.now (shown_share_args args.now) file) }
    ensures held { IfOk result (λ claim. IfSome claim (λ share. IsIn share core.now.claims)) }
{
    let number = core.names().find(&share_owner(alloc, args)?);
    Ok(share_by(core.table(), file, number))
}
