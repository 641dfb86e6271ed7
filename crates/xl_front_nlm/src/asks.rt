//! What the core is asked for a call.
ghost use Rattle.std.specs.Prelude.{◌≡◌, ◌≤◌, false, IfOk};
ghost use Rattle.xl_nlm.specs.Items.{shown_lock, shown_test_args, shown_lock_args, shown_unlock_args, shown_share_args};
ghost use Rattle.xl_core.specs.Askers.{IsFit};
ghost use Rattle.xl_front_nlm.specs.Asks.{owner_of, ask_of, test_ask, state_mark, lock_ask, unlock_ask, refusal_ask, rights_of, share_owner, share_ask};

use crate::aim::Aim;
use crate::grant::Grant;
use std::alloc::{AllocError, Global};
use xl_base::{Mark, Sequence};
use xl_core::{Act, Ask, Who};
use xl_matrix::{Extent, Rwd};
use xl_names::Name;
use xl_nlm::{Lock, LockArgs, Rights, ShareArgs, TestArgs, UnlockArgs};
use xl_wait::{NO_ROWS, Rooms};

/// The owner of what a lock names.
pub(crate) fn owner_of(alloc: Global, lock: &Lock) -> Result<Name, AllocError>
    ensures { IfOk result (λ name. name ≡ owner_of (shown_lock lock.now)) }
{
    let caller = Sequence::from_slice(alloc, lock.caller_name)?;
    let oh = Sequence::from_slice(alloc, lock.oh)?;
    Ok(Name::NlmRange(caller, lock.svid, oh))
}

/// The owner of a share.
pub(crate) fn share_owner(alloc: Global, args: &ShareArgs) -> Result<Name, AllocError>
    ensures { IfOk result (λ name. name ≡ share_owner (shown_share_args args.now)) }
{
    let caller = Sequence::from_slice(alloc, args.caller_name)?;
    let oh = Sequence::from_slice(alloc, args.oh)?;
    Ok(Name::NlmShare(caller, oh))
}

/// An ask of NLM that neither waits nor reclaims, doesn't want its caller recorded, and has no mark.
fn ask_of(
    alloc: Global,
    owner: Name,
    caller: &[u8],
    file: u32,
    act: Act,
    rows: Rooms,
) -> Result<Ask, AllocError>
    ensures { IfOk result (λ ask. ask ≡ ask_of owner caller.now file act rows) }
{
    let caller = Sequence::from_slice(alloc, caller)?;
    Ok(Ask {
        file,
        owner: Who::Named(owner),
        party: Who::Named(Name::NlmParty(caller)),
        act,
        wish: Sequence::new(alloc),
        conn: None,
        blocking: false,
        awaits: false,
        reclaim: false,
        monitored: false,
        mark: None,
        rows,
    })
}

/// What is asked for TEST.
pub(crate) fn test_ask(alloc: Global, args: &TestArgs, at: &Aim) -> Result<Ask, AllocError>
    ensures { IfOk result (λ ask. ask ≡ test_ask (shown_test_args args.now) at.now) }
{
    let owner = owner_of(alloc, &args.lock)?;
    let act = Act::Test(Extent::Bytes(at.first, at.last), args.exclusive);
    ask_of(alloc, owner, args.lock.caller_name, at.file, act, NO_ROWS)
}

/// The state of the caller's host, as XDR spells it (RFC 4506 4.1).
#[tactic(auto, unfolding(xl_base::specs::Codec::big_endian))]
fn state_mark(args: &LockArgs) -> Mark
    ensures { result ≡ state_mark (shown_lock_args args.now) }
{
    Mark::State(args.state.to_be_bytes())
}

/// What is asked for LOCK and NM_LOCK, which add these rows. The caller is monitored or not.
pub(crate) fn lock_ask(
    alloc: Global,
    monitored: bool,
    rows: Rooms,
    args: &LockArgs,
    at: &Aim,
) -> Result<Ask, AllocError>
    ensures { IfOk result (λ ask. ask ≡ lock_ask monitored rows (shown_lock_args args.now) at.now) }
{
    let owner = owner_of(alloc, &args.lock)?;
    let mut ranges = Sequence::new(alloc);
    ranges.push((Extent::Bytes(at.first, at.last), args.exclusive))?;
    let act = Act::Ranges(ranges);
    let mut request = ask_of(alloc, owner, args.lock.caller_name, at.file, act, rows)?;
    request.blocking = args.block;
    request.awaits = args.block;
    request.reclaim = args.reclaim;
    request.monitored = monitored;
    request.mark = Some(state_mark(args));
    Ok(request)
}

/// What is asked for UNLOCK.
pub(crate) fn unlock_ask(alloc: Global, args: &UnlockArgs, at: &Aim) -> Result<Ask, AllocError>
    ensures { IfOk result (λ ask. ask ≡ unlock_ask (shown_unlock_args args.now) at.now) }
{
    let owner = owner_of(alloc, &args.lock)?;
    let act = Act::Unlock(Extent::Bytes(at.first, at.last));
    ask_of(alloc, owner, args.lock.caller_name, at.file, act, NO_ROWS)
}

/// What is asked if a client refuses a lock whose grant it was sent.
#[tactic(auto, using(crate::proofs::AskLaws::own_client))]
pub(crate) fn refusal_ask(alloc: Global, grant: &Grant) -> Result<Ask, AllocError>
    requires ends { grant.now.first ≤ grant.now.last }
    ensures value { IfOk result (λ ask. ask ≡ refusal_ask grant.now) }
    ensures fit { IfOk result (λ ask. IsFit ask) }
{
    let caller = Sequence::from_slice(alloc, grant.caller.as_slice())?;
    let oh = Sequence::from_slice(alloc, grant.oh.as_slice())?;
    let owner = Name::NlmRange(caller, grant.svid, oh);
    let act = Act::Unlock(Extent::Bytes(grant.first, grant.last));
    ask_of(
        alloc,
        owner,
        grant.caller.as_slice(),
        grant.file,
        act,
        NO_ROWS,
    )
}

/// The access of a share, or what it denies to others.
fn rights_of(rights: Rights) -> Rwd
    ensures { result ≡ rights_of rights }
{
    Rwd {
        r: rights.read,
        w: rights.write,
        d: false,
    }
}

/// What is asked for SHARE, which adds these rows.
pub(crate) fn share_ask(
    alloc: Global,
    rows: Rooms,
    args: &ShareArgs,
    file: u32,
) -> Result<Ask, AllocError>
    ensures { IfOk result (λ ask. ask ≡ share_ask rows (shown_share_args args.now) file) }
{
    let owner = share_owner(alloc, args)?;
    let act = Act::Share(rights_of(args.access), rights_of(args.mode));
    let mut request = ask_of(alloc, owner, args.caller_name, file, act, rows)?;
    request.reclaim = args.reclaim;
    request.monitored = true;
    Ok(request)
}
