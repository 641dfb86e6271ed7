//! What an OPEN opens.
ghost use Rattle.std.specs.Prelude.{◌≡◌, false, IfErr, IfSome, option_copied};
ghost use Rattle.std.specs.List.{find};
ghost use Rattle.xl_nfs_state.specs.State.{delegated_on};
ghost use Rattle.xl_nfs.specs.Opens.{shown_open_args, shown_open_claim, shown_open_how};
ghost use Rattle.xl_nfs.specs.Outcomes.{is_ok};
ghost use Rattle.xl_nfs_opens.specs.Opens.{are_bits, asked_fault, file_claimed, is_astray, is_by_name, is_delegation, is_from_before, is_stateid_of, makes, named_file, opened_file};

use crate::files::{ROOT, file_named};
use crate::renewing::{same_stateid, stateid_of};
use crate::shares::{SHARE_BOTH, SHARE_READ, reclaims};
use xl_base::Sequence;
use xl_core::Core;
use xl_nfs::{CreateHow, NfsStatus, OpenArgs, OpenClaim, OpenHow, Stateid};
use xl_nfs_state::{NfsState, StateidRow};

/// Whether a claim is by a name.
fn is_by_name(claim: &OpenClaim) -> bool
    ensures { result ≡ is_by_name (shown_open_claim claim.now) }
{
    matches!(claim, OpenClaim::Null(_) | OpenClaim::DelegateCurrent(_))
}

/// Whether a claim is by a delegation from before the client's restart.
fn is_from_before(claim: &OpenClaim) -> bool
    ensures { result ≡ is_from_before (shown_open_claim claim.now) }
{
    matches!(claim, OpenClaim::DelegatePrevious(_))
}

/// Whether something is asked for, and no other bits.
fn are_bits(access: u32, deny: u32) -> bool
    ensures { result ≡ are_bits access deny }
{
    SHARE_READ <= access && access <= SHARE_BOTH && deny <= SHARE_BOTH
}

/// Whether a file has to be made.
fn makes(how: &OpenHow) -> bool
    ensures { result ≡ makes (shown_open_how how.now) }
{
    match how {
        OpenHow::NoCreate => false,
        OpenHow::Create(CreateHow::Unchecked(_)) => false,
        OpenHow::Create(_) => true,
    }
}

/// The file of this name, which isn't empty.
fn named_file(files: &[Sequence<u8>], name: &[u8]) -> Option<u32>
    ensures { result ≡ named_file files.now name.now }
{
    if name.is_empty() {
        return None;
    }
    file_named(files, name)
}

/// Whether the stateid is whole that of this row.
fn is_stateid_of(core: &Core, stateid: &Stateid, row: Option<&StateidRow>) -> bool
    ensures { result ≡ is_stateid_of core.now stateid.now (option_copied row.entry) }
{
    match row {
        Some(row) => {
            let whole = stateid_of(core, row.number, row.standing.seqid);
            same_stateid(stateid, &whole)
        }
        None => false,
    }
}

/// Whether the stateid is that of the client's delegation on the file.
fn is_delegation(core: &Core, state: &NfsState, client: u32, file: u32, stateid: &Stateid) -> bool
    ensures { result ≡ is_delegation core.now state.now client file stateid.now }
{
    is_stateid_of(core, stateid, state.find_delegation(client, file))
}

/// The file that is claimed at this handle.
fn file_claimed(files: &[Sequence<u8>], at: u32, claim: &OpenClaim) -> Option<u32>
    ensures { result ≡ file_claimed files.now at (shown_open_claim claim.now) }
{
    match claim {
        OpenClaim::Null(name) => named_file(files, name),
        OpenClaim::Previous(_) => Some(at),
        OpenClaim::DelegateCurrent(delegation) => named_file(files, delegation.name),
        OpenClaim::DelegatePrevious(_) => None,
    }
}

/// Whether a file is claimed by a stateid that isn't that of the client's delegation on it.
fn is_astray(core: &Core, state: &NfsState, client: u32, file: u32, claim: &OpenClaim) -> bool
    ensures { result ≡ is_astray core.now state.now client file (shown_open_claim claim.now) }
{
    match claim {
        OpenClaim::DelegateCurrent(delegation) => {
            !is_delegation(core, state, client, file, &delegation.stateid)
        }
        _ => false,
    }
}

/// The status of the first check of what is asked that fails.
#[tactic(auto, unfolding(crate::specs::Opens::asked_fault))]
fn asked_fault(at: u32, args: &OpenArgs) -> Option<NfsStatus>
    ensures value { result ≡ asked_fault at (shown_open_args args.now) }
    ensures fails { IfSome result (λ status. is_ok status ≡ false) }
{
    let claim = &args.claim;
    if is_by_name(claim) && at != ROOT {
        Some(NfsStatus::NotDir)
    } else if reclaims(claim) && at == ROOT {
        Some(NfsStatus::IsDir)
    } else if is_from_before(claim) {
        Some(NfsStatus::NotSupp)
    } else if !are_bits(args.access, args.deny) {
        Some(NfsStatus::Inval)
    } else if makes(&args.how) {
        Some(NfsStatus::NotSupp)
    } else {
        None
    }
}

/// The file that this client opens, or the status of the first check that fails.
#[tactic(auto, unfolding(crate::specs::Opens::opened_file))]
pub(crate) fn opened_file(
    files: &[Sequence<u8>],
    core: &Core,
    state: &NfsState,
    client: u32,
    at: u32,
    args: &OpenArgs,
) -> Result<u32, NfsStatus>
    ensures value { result ≡ opened_file files.now core.now state.now client at (shown_open_args args.now) }
    ensures fails { IfErr result (λ status. is_ok status ≡ false) }
{
    if let Some(status) = asked_fault(at, args) {
        return Err(status);
    }
    let Some(file) = file_claimed(files, at, &args.claim) else {
        return Err(NfsStatus::NoEnt);
    };
    if is_astray(core, state, client, file, &args.claim) {
        return Err(NfsStatus::BadStateid);
    }
    Ok(file)
}
