//! Results of operations.
use super::*;

fn is_lock(locked: &Result<Stateid, LockFault>) -> bool {
    match locked {
        Ok(stateid) => is_state(stateid),
        Err(LockFault::Denied(held)) => {
            matches!(held.kind, LockType::Write)
                && (held.offset, held.len, held.owner.clientid) == (0, 10, 0)
                && held.owner.owner == b"nlm".as_slice()
        }
        Err(LockFault::Other(_)) => true,
    }
}

fn is_lock_test(free: &Result<(), LockFault>) -> bool {
    match free {
        Ok(()) => true,
        Err(LockFault::Denied(held)) => {
            matches!(held.kind, LockType::Read)
                && (held.offset, held.len) == (1, u64::MAX)
                && is_owner(&held.owner, b"l")
        }
        Err(LockFault::Other(_)) => true,
    }
}

fn is_permission(permissions: &Ace) -> bool {
    (permissions.kind, permissions.flag, permissions.mask) == (0, 0, 0)
        && permissions.who.is_empty()
}

fn is_delegation(delegation: &Delegation) -> bool {
    match delegation {
        Delegation::None => true,
        Delegation::Read(reading) => {
            !reading.recall && is_state(&reading.stateid) && is_permission(&reading.permissions)
        }
        Delegation::Write(writing) => {
            (writing.recall, writing.limit) == (true, u64::MAX)
                && is_state(&writing.stateid)
                && is_permission(&writing.permissions)
        }
    }
}

fn is_open(opened: &OpenResult) -> bool {
    let change = (
        opened.change.atomic,
        opened.change.before,
        opened.change.after,
    );
    change == (true, 3, 4)
        && (opened.flags, opened.attributes.words.len()) == (2, 0)
        && is_state(&opened.stateid)
        && is_delegation(&opened.delegation)
}

fn is_outcome(outcome: &Result<Stateid, NfsStatus>) -> bool {
    match outcome {
        Ok(stateid) => is_state(stateid),
        Err(_) => true,
    }
}

/// The number of a result, and whether what stands behind its status is that of a vector.
fn meaning_of(answer: &NfsResult) -> (u32, bool) {
    match answer {
        NfsResult::Close(outcome) => (4, is_outcome(outcome)),
        NfsResult::DelegReturn(_) => (8, true),
        NfsResult::GetFh(Ok(handle)) => (10, *handle == HANDLE),
        NfsResult::GetFh(Err(_)) => (10, true),
        NfsResult::Lock(locked) => (12, is_lock(locked)),
        NfsResult::LockT(free) => (13, is_lock_test(free)),
        NfsResult::LockU(outcome) => (14, is_outcome(outcome)),
        NfsResult::Lookup(_) => (15, true),
        NfsResult::Open(Ok(opened)) => (18, is_open(opened)),
        NfsResult::Open(Err(_)) => (18, true),
        NfsResult::OpenConfirm(outcome) => (20, is_outcome(outcome)),
        NfsResult::OpenDowngrade(outcome) => (21, is_outcome(outcome)),
        NfsResult::PutFh(_) => (22, true),
        NfsResult::PutRootFh(_) => (24, true),
        NfsResult::Renew(_) => (30, true),
        NfsResult::SetClientId(Ok(confirm)) => (35, is_confirmed(confirm)),
        NfsResult::SetClientId(Err(_)) => (35, true),
        NfsResult::SetClientIdConfirm(_) => (36, true),
        NfsResult::ReleaseLockOwner(_) => (39, true),
        NfsResult::NotSupported(number) => (5, *number == 5),
        NfsResult::Illegal => (10044, true),
    }
}

/// Whether this is the status of a result, its second word.
fn is_status(status: NfsStatus, bytes: &[u8]) -> bool {
    match bytes {
        [_, _, _, _, a, b, c, d, ..] => { status.number() == u32::from_be_bytes([*a, *b, *c, *d]) }
        _ => false,
    }
}

/// Whether a result is read as what it means and written as it is, or refused for this fault and left.
pub(crate) fn is_result(out: &mut XdrOut, number: u8, bytes: &[u8]) -> Result<bool, AllocError> {
    let mut body = Xdr::new(bytes);
    match read_result(&mut body) {
        Ok(answer) => {
            write_result(out, &answer)?;
            Ok(
                number == 0
                    && meaning_of(&answer) == (answer.number(), true)
                    && is_status(answer.status(), bytes)
                    && is_again(body.left(), out, bytes),
            )
        }
        Err(fault) => Ok(is_refused(fault, number, &body, bytes)),
    }
}
