//! Granted ranges, and what is sent of them.
ghost use Rattle.std.specs.Prelude.{◌≡◌, ◌≤◌, IfOk, IfSome, option_map, option_copied};
ghost use Rattle.xl_core.specs.Good.{IsRangeBy};
ghost use Rattle.xl_front_nlm.specs.Grants.{bytes_of, name_of, grant_of, lock_of, address_of, call_of};
ghost use Rattle.xl_front_nlm.specs.Short.{AreShort, IsShortGrant};

use crate::aim::length_of;
use std::alloc::{AllocError, Global};
use xl_base::{Dest, Out, Owner, Protocol, Sequence, handle_of};
use xl_matrix::{Claim, Extent, What};
use xl_names::{Name, Names};
use xl_nlm::{Lock, granted_call};

/// A range that an owner of NLM ranges has, and how its client names the owner.
#[derive(Drop)]
pub struct Grant {
    /// The file's number.
    pub file: u32,
    /// The name of the client's host.
    pub caller: Sequence<u8>,
    /// The owner's process.
    pub svid: i32,
    /// The owner, as the client's host names it.
    pub oh: Sequence<u8>,
    /// The first byte.
    pub first: u64,
    /// The last byte.
    pub last: u64,
    /// Whether the range is exclusive.
    pub exclusive: bool,
}

/// The first byte of a range, its last, which is no lesser, and whether it is exclusive.
fn bytes_of(what: What) -> Option<(u64, u64, bool)>
    ensures value { result ≡ bytes_of what }
    ensures ends { IfSome result (λ range. range.0 ≤ range.1) }
    ensures range { IfSome result (λ range. IsRangeBy what) }
{
    match what {
        What::Range(Extent::Bytes(first, last), exclusive) if first <= last => {
            Some((first, last, exclusive))
        }
        _ => None,
    }
}

/// The name behind an owner of NLM.
fn name_of(names: &Names, owner: Owner) -> Option<&Name>
    ensures { option_copied result ≡ name_of names.now owner }
{
    match owner {
        Owner::Name(Protocol::Nlm, number) => names.as_slice().get(number as usize),
        _ => None,
    }
}

/// What there is to send of a claim, with copies of its owner's names.
#[tactic(auto, unfolding(crate::specs::Grants::grant_of))]
pub(crate) fn grant_of(
    alloc: Global,
    names: &Names,
    claim: &Claim,
) -> Result<Option<Grant>, AllocError>
    requires short { AreShort names.now }
    ensures value { IfOk result (λ grant. grant ≡ grant_of names.now claim.now) }
    ensures ends { IfOk result (λ grant. IfSome grant (λ g. g.first ≤ g.last)) }
    ensures range { IfOk result (λ grant. IfSome grant (λ g. IsRangeBy claim.now.what)) }
    ensures short { IfOk result (λ grant. IfSome grant IsShortGrant) }
{
    let Some((first, last, exclusive)) = bytes_of(claim.what) else {
        return Ok(None);
    };
    let Some(Name::NlmRange(caller, svid, oh)) = name_of(names, claim.owner) else {
        return Ok(None);
    };
    Ok(Some(Grant {
        file: claim.file,
        caller: Sequence::from_slice(alloc, caller.as_slice())?,
        svid: *svid,
        oh: Sequence::from_slice(alloc, oh.as_slice())?,
        first,
        last,
        exclusive,
    }))
}

/// The address of a caller: the first that is given for it.
#[tactic(auto, unfolding(crate::specs::Grants::address_of))]
pub(crate) fn address_of<'a>(
    addresses: &'a [(Sequence<u8>, Sequence<u8>)],
    caller: &[u8],
) -> Option<&'a [u8]>
    ensures { option_map (λ to. to.now) result ≡ address_of addresses.now caller.now }
{
    addresses
        .iter()
        .find(|entry| entry.0.as_slice() == caller)
        .map(|entry| entry.1.as_slice())
}

/// The call of this number, to this address, that sends a grant.
#[tactic(auto, unfolding(xl_nlm::specs::Arguments::lock))]
pub(crate) fn call_of(
    alloc: Global,
    number: u32,
    to: &[u8],
    grant: &Grant,
) -> Result<Out, AllocError>
    requires { IsShortGrant grant.now }
    ensures { IfOk result (λ out. out ≡ call_of number to.now grant.now) }
{
    let fh = handle_of(grant.file);
    let lock = Lock {
        caller_name: grant.caller.as_slice(),
        fh: &fh,
        oh: grant.oh.as_slice(),
        svid: grant.svid,
        l_offset: grant.first,
        l_len: length_of(grant.first, grant.last),
    };
    let record = granted_call(alloc, number, grant.exclusive, &lock)?;
    Ok(Out {
        dest: Dest::Back(u64::from(number)),
        to: Sequence::from_slice(alloc, to)?,
        bytes: Sequence::from_vec(record),
    })
}
