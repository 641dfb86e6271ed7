//! Operations of a COMPOUND.
use super::*;

fn is_named(args: &SetClientIdArgs) -> bool {
    [args.id, args.netid, args.address] == [b"c".as_slice(), b"tcp", b"192.0.2.1.0.111"]
        && (args.verifier, args.program, args.callback_ident) == (VERIFIER, 0x4000_0000, 5)
}

fn is_lock(args: &LockArgs) -> bool {
    let range = (args.reclaim, args.offset, args.len);
    match (args.kind, &args.locker) {
        (LockType::Write, Locker::New(new)) => {
            range == (false, 5, 10)
                && (new.open_seqid, new.lock_seqid) == (4, 6)
                && is_state(&new.open_stateid)
                && is_owner(&new.owner, b"l")
        }
        (LockType::ReadWaiting, Locker::Known(known)) => {
            range == (true, 0, u64::MAX) && known.seqid == 9 && is_state(&known.stateid)
        }
        _ => false,
    }
}

fn is_lock_test(args: &LockTestArgs) -> bool {
    matches!(args.kind, LockType::Read)
        && (args.offset, args.len) == (1, 2)
        && is_owner(&args.owner, b"l")
}

fn is_unlock(args: &UnlockArgs) -> bool {
    matches!(args.kind, LockType::WriteWaiting)
        && (args.seqid, args.offset, args.len) == (5, 0x1_0000_0000, 1)
        && is_state(&args.stateid)
}

fn has_attributes(attributes: &Attributes) -> bool {
    [attributes.mask.words, attributes.values]
        == [b"\0\0\0\x12\0\0\x34\0".as_slice(), &[1, 2, 3, 4, 5]]
}

fn has_none(attributes: &Attributes) -> bool {
    (attributes.mask.words.len(), attributes.values.len()) == (0, 0)
}

/// Whether an OPEN's form goes with its claim as in the vectors.
fn is_form(how: &OpenHow, claim: &OpenClaim) -> bool {
    match (how, claim) {
        (OpenHow::NoCreate, OpenClaim::Null(b"x")) => true,
        (OpenHow::Create(CreateHow::Unchecked(some)), OpenClaim::Previous(DelegationType::Write)) =>
            has_attributes(some),
        (OpenHow::Create(CreateHow::Guarded(none)), OpenClaim::DelegateCurrent(named)) => {
            has_none(none) && is_state(&named.stateid) && named.name == b"x".as_slice()
        }
        (OpenHow::Create(CreateHow::Exclusive(verifier)), OpenClaim::DelegatePrevious(b"x")) =>
            *verifier == VERIFIER,
        _ => false,
    }
}

fn is_open(args: &OpenArgs) -> bool {
    (args.seqid, args.access, args.deny) == (1, 3, 2)
        && is_owner(&args.owner, b"o")
        && is_form(&args.how, &args.claim)
}

fn is_downgrade(args: &OpenDowngradeArgs) -> bool {
    (args.seqid, args.access, args.deny) == (3, 1, 0) && is_state(&args.stateid)
}

/// The number of an operation, and whether the operation is that of a vector.
fn meaning_of(op: &NfsOp) -> (u32, bool) {
    match op {
        NfsOp::Close(args) => (4, args.seqid == 3 && is_state(&args.stateid)),
        NfsOp::DelegReturn(stateid) => (8, is_state(stateid)),
        NfsOp::GetFh => (10, true),
        NfsOp::Lock(args) => (12, is_lock(args)),
        NfsOp::LockT(args) => (13, is_lock_test(args)),
        NfsOp::LockU(args) => (14, is_unlock(args)),
        NfsOp::Lookup(name) => (15, *name == b"x".as_slice()),
        NfsOp::Open(args) => (18, is_open(args)),
        NfsOp::OpenConfirm(args) => (20, args.seqid == 2 && is_state(&args.stateid)),
        NfsOp::OpenDowngrade(args) => (21, is_downgrade(args)),
        NfsOp::PutFh(handle) => (22, *handle == HANDLE),
        NfsOp::PutRootFh => (24, true),
        NfsOp::Renew(client) => (30, *client == 0x2_0000_0001),
        NfsOp::SetClientId(args) => (35, is_named(args)),
        NfsOp::SetClientIdConfirm(args) => (36, is_confirmed(args)),
        NfsOp::ReleaseLockOwner(owner) => (39, is_owner(owner, b"l")),
        NfsOp::NotSupported(number) => (5, *number == 5),
        NfsOp::Illegal(number) => (*number, *number == 2 || *number == 40),
    }
}

/// Whether an operation is read as what it means and written as it is, or refused for this fault and left.
pub(crate) fn is_op(out: &mut XdrOut, number: u8, bytes: &[u8]) -> Result<bool, AllocError> {
    let mut args = Xdr::new(bytes);
    match next_op(&mut args) {
        Ok(op) => {
            write_op(out, &op)?;
            Ok(
                number == 0
                    && meaning_of(&op) == (op.number(), true)
                    && is_again(args.left(), out, bytes),
            )
        }
        Err(fault) => Ok(is_refused(fault, number, &args, bytes)),
    }
}
