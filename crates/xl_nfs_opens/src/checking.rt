//! The check of a stateid (RFC 7530 9.1.4, 9.1.7).
ghost use Rattle.std.specs.Prelude.{◌≡◌, false, Some, Ok, IfSome};
ghost use Rattle.xl_nfs.specs.Outcomes.{is_ok};
ghost use Rattle.xl_nfs_state.specs.Verdict.{verdict};
ghost use Rattle.xl_nfs_opens.specs.Closing.{checked_as, owner_as, seqid_checked, standing_fault, state_checked, state_found};

use crate::opener::Checked;
use crate::renewing::number_of;
use xl_core::Core;
use xl_nfs::{NfsStatus, Stateid};
use xl_nfs_state::{Holder, NfsState, OwnerKind, SeqidState, SeqidVerdict, StateidRow, verdict};

/// The row of a stateid of this start, on the current file.
#[tactic(auto, unfolding(crate::specs::Closing::state_found))]
pub(crate) fn find_state(
    state: &NfsState,
    core: &Core,
    current: Option<u32>,
    stateid: &Stateid,
) -> Result<StateidRow, NfsStatus>
    ensures { result ≡ state_found core.now state.now current stateid.now }
{
    let Some(at) = current else {
        return Err(NfsStatus::NoFileHandle);
    };
    let Some(number) = number_of(core, &stateid.other) else {
        return Err(NfsStatus::StaleStateid);
    };
    match state.find_stateid(number) {
        Some(row) if row.file == at => Ok(*row),
        _ => Err(NfsStatus::BadStateid),
    }
}

/// The owner of an open, or of locks, that a stateid is of.
fn owner_as(kind: OwnerKind, holder: Holder) -> Option<u64>
    ensures { result ≡ owner_as kind holder }
{
    match (kind, holder) {
        (OwnerKind::Open, Holder::Open(owner)) => Some(owner),
        (OwnerKind::Lock, Holder::Lock { owner, .. }) => Some(owner),
        _ => None,
    }
}

/// By the owner's seqid.
fn check_seqid(row: &StateidRow, op: u32, seqid: u32, owner: u64, seqids: SeqidState) -> Checked
    ensures { result ≡ seqid_checked row.now owner seqids (verdict (Some seqids) op seqid) }
{
    let closed = row.standing.closed;
    match verdict(Some(seqids), op, seqid) {
        SeqidVerdict::Repeat => Checked::Repeated(owner),
        SeqidVerdict::Next if !closed => Checked::Passed(*row, owner, seqids),
        _ if closed => Checked::Refused(NfsStatus::BadStateid),
        _ => Checked::Refused(NfsStatus::BadSeqid),
    }
}

/// By the owner of the row.
fn check_owner(kind: OwnerKind, state: &NfsState, op: u32, seqid: u32, row: &StateidRow) -> Checked
    ensures { result ≡ state_checked kind state.now op seqid (Ok row.now) }
{
    let Some(owner) = owner_as(kind, row.holder) else {
        return Checked::Refused(NfsStatus::BadStateid);
    };
    match state.find_owner(owner) {
        Some(found) => check_seqid(row, op, seqid, owner, found.seqids),
        None => Checked::Refused(NfsStatus::BadStateid),
    }
}

/// What is found for a stateid of an owner of this kind, and what the owner's seqid says.
#[tactic(auto, unfolding(crate::specs::Closing::checked_as))]
pub fn check(
    kind: OwnerKind,
    state: &NfsState,
    core: &Core,
    current: Option<u32>,
    op: u32,
    seqid: u32,
    stateid: &Stateid,
) -> Checked
    ensures { result ≡ checked_as kind core.now state.now current op seqid stateid.now }
{
    match find_state(state, core, current, stateid) {
        Ok(row) => check_owner(kind, state, op, seqid, &row),
        Err(status) => Checked::Refused(status),
    }
}

/// What is wrong with the stateid's own seqid, or with its owner, which has to be confirmed, or not.
#[tactic(auto, unfolding(crate::specs::Closing::standing_fault))]
pub fn standing_fault(
    row: &StateidRow,
    seqids: SeqidState,
    seqid: u32,
    confirmed: bool,
) -> Option<NfsStatus>
    ensures value { result ≡ standing_fault row.now seqids seqid confirmed }
    ensures fails { IfSome result (λ status. is_ok status ≡ false) }
{
    if seqid < row.standing.seqid {
        Some(NfsStatus::OldStateid)
    } else if row.standing.seqid < seqid || seqids.confirmed != confirmed {
        Some(NfsStatus::BadStateid)
    } else {
        None
    }
}
