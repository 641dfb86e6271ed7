//! What becomes of a request that comes again, or that isn't kept.
ghost use Rattle.xl_nfs_opens.specs.Renewing.{number_of};
ghost use Rattle.std.specs.Prelude.{◌≡◌, ℕ, None, Some, IfOk, OnOk};
ghost use Rattle.std.specs.List.{find};
ghost use Rattle.xl_nfs_state.specs.State.{is_kept};
ghost use Rattle.xl_nfs_opens.specs.Opens.{handle_again, repeated, opened_by};
ghost use Rattle.xl_nfs_opens.specs.Plans.{carried};
ghost use Rattle.xl_nfs_opens.specs.Results.{spelled, ToldFits};
ghost use Rattle.xl_nfs_opens.specs.Seqids.{kept_for};

use crate::done::{Done, ended_as};
use crate::renewing::number_of;
use crate::results::result_bytes;
use crate::seqids::keep_for;
use crate::told::{Told, is_short};
use std::alloc::{AllocError, Global};
use xl_base::Sequence;
use xl_core::Core;
use xl_nfs::{NfsResult, NfsStatus, Stateid, read_result};
use xl_nfs_state::NfsState;
use xl_rpc::Xdr;

/// The file of an open, or else the current one.
fn opened_by(state: &NfsState, core: &Core, current: Option<u32>, stateid: &Stateid) -> Option<u32>
    ensures { result ≡ opened_by state.now current (number_of core.now stateid.now.other) }
{
    let Some(number) = number_of(core, &stateid.other) else {
        return current;
    };
    match state.find_stateid(number) {
        Some(row) => Some(row.file),
        None => current,
    }
}

/// The current handle once this kept result is given again.
#[tactic(auto, unfolding(crate::specs::Opens::handle_again))]
fn handle_again(state: &NfsState, core: &Core, current: Option<u32>, bytes: &[u8]) -> Option<u32>
    ensures { result ≡ handle_again core.now state.now current bytes.now }
{
    if !is_short(bytes) {
        return current;
    }
    match read_result(&mut Xdr::new(bytes)) {
        Ok(NfsResult::Open(Ok(opened))) => opened_by(state, core, current, &opened.stateid),
        _ => current,
    }
}

/// The result that is kept for the owner of this number is the answer.
pub fn repeat(
    alloc: Global,
    state: &NfsState,
    core: &Core,
    current: Option<u32>,
    owner: u64,
) -> Result<Done, AllocError>
    ensures done { (n : ℕ) → IfOk result (λ r. carried n core.now state.now (repeated core.now state.now current (find (is_kept owner) state.now.kept)) ≡ (r.0, r.1, r.2, state.now, core.now)) }
{
    let Some(bytes) = state.find_kept(owner) else {
        return Ok(ended_as(alloc, NfsStatus::BadSeqid, current));
    };
    let handle = handle_again(state, core, current, bytes.as_slice());
    Ok((Told::Kept(bytes.copy(alloc)?), handle, Sequence::new(alloc)))
}

/// Keeps what the operation of this number was answered for the owner of that number.
pub(crate) fn keep_told(
    alloc: Global,
    state: &mut NfsState,
    owner: u64,
    op: u32,
    told: &Told,
) -> Result<(), AllocError>
    requires { ToldFits op told.now }
    ensures { OnOk result (state.new ≡ kept_for owner (spelled op told.now) state.old) }
{
    let bytes = result_bytes(alloc, op, told)?;
    keep_for(state, owner, bytes)?;
    Ok(())
}
