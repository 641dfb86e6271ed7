//! How what an operation was answered is spelled.
ghost use Rattle.std.specs.Prelude.{◌≡◌, ◌+◌, ◌≤◌, ◌++◌, if◌then◌else◌, length, Ok, IfOk, OnOk};
ghost use Rattle.xl_nfs.specs.Basics.{most_text_bytes};
ghost use Rattle.xl_nfs.specs.Opened.{shown_delegation};
ghost use Rattle.xl_nfs.specs.Ops.{is_numbered};
ghost use Rattle.xl_nfs.specs.Results.{shown_result, GetFhAnswer, SetClientIdAnswer, NotSupportedAnswer, OpenAnswer, LockTAnswer, IllegalAnswer, ResultFits, nfs_result};
ghost use Rattle.xl_base.specs.Handles.{handle};
ghost use Rattle.xl_nfs_state.specs.Bytes.{most_result_bytes};
ghost use Rattle.xl_nfs_opens.specs.Plans.{status_of};
ghost use Rattle.xl_nfs_opens.specs.Seqids.{most_short, most_told};
ghost use Rattle.xl_nfs_opens.specs.Results.{delegation_item, denied_as, ended_as, open_result_of, spelled, state_as, ToldFits};

use crate::told::{HeldLock, Told};
use std::alloc::{AllocError, Global};
use xl_base::{Sequence, handle_of};
use xl_nfs::{
    Ace, Bitmap, ChangeInfo, ClientConfirm, Delegation, Denied, LockFault, NfsResult, NfsStatus,
    OpenResult, Owner, ReadDelegation, Stateid, WriteDelegation, operation, write_result,
};
use xl_nfs_state::ResultBytes;
use xl_rpc::XdrOut;

/// The operation of this number ended so.
#[tactic(auto, unfolding(crate::specs::Results::ended_as))]
fn ended_as<'a>(number: u32, status: NfsStatus) -> NfsResult<'a>
    ensures { shown_result result ≡ ended_as number status }
{
    match number {
        operation::CLOSE => NfsResult::Close(Err(status)),
        operation::DELEGRETURN => NfsResult::DelegReturn(status),
        operation::GETFH => NfsResult::GetFh(Err(status)),
        operation::LOCK => NfsResult::Lock(Err(LockFault::Other(status))),
        operation::LOCKT => NfsResult::LockT(Err(LockFault::Other(status))),
        operation::LOCKU => NfsResult::LockU(Err(status)),
        operation::LOOKUP => NfsResult::Lookup(status),
        operation::OPEN => NfsResult::Open(Err(status)),
        operation::OPEN_CONFIRM => NfsResult::OpenConfirm(Err(status)),
        operation::OPEN_DOWNGRADE => NfsResult::OpenDowngrade(Err(status)),
        operation::PUTFH => NfsResult::PutFh(status),
        operation::PUTROOTFH => NfsResult::PutRootFh(status),
        operation::RENEW => NfsResult::Renew(status),
        operation::SETCLIENTID => NfsResult::SetClientId(Err(status)),
        operation::SETCLIENTID_CONFIRM => NfsResult::SetClientIdConfirm(status),
        operation::RELEASE_LOCKOWNER => NfsResult::ReleaseLockOwner(status),
        _ => other_as(number),
    }
}

/// The same of an operation whose arguments are never read, and of no operation.
fn other_as<'a>(number: u32) -> NfsResult<'a>
    ensures { shown_result result ≡ (if is_numbered number then NotSupportedAnswer number else IllegalAnswer) }
{
    if 3 <= number && number <= 39 {
        NfsResult::NotSupported(number)
    } else {
        NfsResult::Illegal
    }
}

/// The operation of this number gives this stateid.
fn state_as<'a>(number: u32, stateid: Stateid) -> NfsResult<'a>
    ensures { shown_result result ≡ state_as number stateid }
{
    match number {
        operation::CLOSE => NfsResult::Close(Ok(stateid)),
        operation::LOCK => NfsResult::Lock(Ok(stateid)),
        operation::LOCKU => NfsResult::LockU(Ok(stateid)),
        operation::OPEN_CONFIRM => NfsResult::OpenConfirm(Ok(stateid)),
        _ => NfsResult::OpenDowngrade(Ok(stateid)),
    }
}

/// What is sent of a delegation: it isn't recalled already, any length may be written, and no permissions are sent.
fn delegation_as<'a>(given: Option<(Stateid, bool)>) -> Delegation<'a>
    ensures { shown_delegation result ≡ delegation_item given }
{
    let permissions = Ace {
        kind: 0,
        flag: 0,
        mask: 0,
        who: &[],
    };
    match given {
        None => Delegation::None,
        Some((stateid, true)) => Delegation::Write(WriteDelegation {
            stateid,
            recall: false,
            limit: u64::MAX,
            permissions,
        }),
        Some((stateid, false)) => Delegation::Read(ReadDelegation {
            stateid,
            recall: false,
            permissions,
        }),
    }
}

/// OPEN gives this stateid, and this delegation.
fn opened_as<'a>(stateid: Stateid, flags: u32, delegation: Option<(Stateid, bool)>) -> NfsResult<'a>
    ensures { shown_result result ≡ OpenAnswer (Ok (open_result_of stateid flags delegation)) }
{
    NfsResult::Open(Ok(OpenResult {
        stateid,
        change: ChangeInfo {
            atomic: true,
            before: 0,
            after: 0,
        },
        flags,
        attributes: Bitmap { words: &[] },
        delegation: delegation_as(delegation),
    }))
}

/// Writes bytes as they are.
#[tactic(auto, using(crate::proofs::ResultLaws::unpadded))]
fn put_bytes(out: &mut XdrOut, bytes: &[u8]) -> Result<(), AllocError>
    requires { length bytes.now ≤ most_result_bytes }
    ensures { OnOk result (out.new ≡ out.old ++ bytes.now) }
{
    let mut whole = out.new_beside();
    whole.fixed(bytes)?;
    whole.truncate(bytes.len());
    out.append(&whole)?;
    Ok(())
}

/// Writes that the operation of this number ended so.
fn put_ended(out: &mut XdrOut, number: u32, status: NfsStatus) -> Result<(), AllocError>
    requires { ResultFits (ended_as number status) }
    ensures ok { OnOk result (out.new ≡ out.old ++ nfs_result.spell (ended_as number status)) }
    ensures little { OnOk result (length out.new ≤ length out.old + most_short) }
{
    write_result(out, &ended_as(number, status))?;
    Ok(())
}

/// Writes what GETFH gives.
#[tactic(auto, using(crate::proofs::ResultLaws::handle_fits))]
fn put_handle(out: &mut XdrOut, file: u32) -> Result<(), AllocError>
    ensures ok { OnOk result (out.new ≡ out.old ++ nfs_result.spell (GetFhAnswer (Ok (handle file)))) }
    ensures little { OnOk result (length out.new ≤ length out.old + most_short) }
{
    write_result(out, &NfsResult::GetFh(Ok(&handle_of(file))))?;
    Ok(())
}

/// Writes what SETCLIENTID gives.
#[tactic(auto, using(crate::proofs::ResultLaws::client_fits))]
fn put_client(out: &mut XdrOut, confirm: ClientConfirm) -> Result<(), AllocError>
    ensures ok { OnOk result (out.new ≡ out.old ++ nfs_result.spell (SetClientIdAnswer (Ok confirm))) }
    ensures little { OnOk result (length out.new ≤ length out.old + most_short) }
{
    write_result(out, &NfsResult::SetClientId(Ok(confirm)))?;
    Ok(())
}

/// Writes what OPEN gives.
#[tactic(auto, using(crate::proofs::ResultLaws::open_fits))]
fn put_opened(
    out: &mut XdrOut,
    stateid: Stateid,
    flags: u32,
    delegation: Option<(Stateid, bool)>,
) -> Result<(), AllocError>
    ensures ok { OnOk result (out.new ≡ out.old ++ nfs_result.spell (OpenAnswer (Ok (open_result_of stateid flags delegation)))) }
    ensures little { OnOk result (length out.new ≤ length out.old + most_short) }
{
    write_result(out, &opened_as(stateid, flags, delegation))?;
    Ok(())
}

/// Writes the stateid that the operation of this number gives.
#[tactic(auto, using(crate::proofs::ResultLaws::state_fits))]
fn put_state(out: &mut XdrOut, number: u32, stateid: Stateid) -> Result<(), AllocError>
    ensures ok { OnOk result (out.new ≡ out.old ++ nfs_result.spell (state_as number stateid)) }
    ensures little { OnOk result (length out.new ≤ length out.old + most_short) }
{
    write_result(out, &state_as(number, stateid))?;
    Ok(())
}

/// The operation of this number is denied by this lock.
fn denied_as<'a>(number: u32, held: &'a HeldLock) -> NfsResult<'a>
    ensures value { shown_result result ≡ denied_as number held.now }
    ensures few { length held.now.owner ≤ most_text_bytes }
{
    let denied = Denied {
        offset: held.offset,
        len: held.len,
        kind: held.kind,
        owner: Owner {
            clientid: held.clientid,
            owner: held.owner.as_slice(),
        },
    };
    match number {
        operation::LOCKT => NfsResult::LockT(Err(LockFault::Denied(denied))),
        _ => NfsResult::Lock(Err(LockFault::Denied(denied))),
    }
}

/// Writes that no lock stands against it.
#[tactic(auto, using(crate::proofs::HeldLaws::free_fits, crate::proofs::HeldLaws::free_grown))]
fn put_free(out: &mut XdrOut) -> Result<(), AllocError>
    ensures ok { OnOk result (out.new ≡ out.old ++ nfs_result.spell (LockTAnswer (Ok tt))) }
    ensures little { OnOk result (length out.new ≤ length out.old + most_short) }
{
    write_result(out, &NfsResult::LockT(Ok(())))?;
    Ok(())
}

/// Writes that the operation of this number is denied by this lock.
#[tactic(auto, using(crate::proofs::HeldLaws::denied_fits))]
fn put_denied(out: &mut XdrOut, number: u32, held: &HeldLock) -> Result<(), AllocError>
    ensures ok { OnOk result (out.new ≡ out.old ++ nfs_result.spell (denied_as number held.now)) }
    ensures little { OnOk result (length out.new ≤ length out.old + most_result_bytes) }
{
    write_result(out, &denied_as(number, held))?;
    Ok(())
}

/// Writes what the operation of this number was answered.
#[tactic(auto, using(crate::proofs::HeldLaws::kept_grown, crate::proofs::HeldLaws::ended_told))]
pub fn put_result(out: &mut XdrOut, number: u32, told: &Told) -> Result<(), AllocError>
    requires fits { ToldFits number told.now }
    ensures ok { OnOk result (out.new ≡ out.old ++ spelled number told.now) }
    ensures little { OnOk result (length out.new ≤ length out.old + most_told (status_of told.now)) }
{
    match told {
        Told::Ended(status) => put_ended(out, number, *status)?,
        Told::Handle(file) => put_handle(out, *file)?,
        Told::Client(confirm) => put_client(out, *confirm)?,
        Told::Opened(stateid, flags, delegation) => {
            put_opened(out, *stateid, *flags, *delegation)?
        }
        Told::State(stateid) => put_state(out, number, *stateid)?,
        Told::Free => put_free(out)?,
        Told::Denied(held) => put_denied(out, number, held)?,
        Told::Kept(bytes) => put_bytes(out, bytes.as_slice())?,
    }
    Ok(())
}

/// What the operation of this number was answered, as its result is spelled.
#[tactic(auto, using(crate::proofs::HeldLaws::most_most))]
pub fn result_bytes(alloc: Global, number: u32, told: &Told) -> Result<ResultBytes, AllocError>
    requires fits { ToldFits number told.now }
    ensures { IfOk result (λ bytes. bytes ≡ spelled number told.now) }
{
    let mut out = XdrOut::new(alloc);
    put_result(&mut out, number, told)?;
    Ok(ResultBytes::new(Sequence::from_vec(out.done())))
}
