//! What the claims of a page stand against at most.
ghost use Rattle.std.specs.Prelude.{◌≡◌};
ghost use Rattle.xl_table.specs.Guard.{may_guard, guard_with, lets_by};

use crate::relock::either_right;
use xl_matrix::{CacheKind, Rwd, What, has_common};

/// The shares of a page have no more access than this, and deny no more. It has an exclusive range, a cache, or a cache of a
/// kind beyond R and RH, which stand against no share, only if it says so.
#[derive(Clone, Copy)]
pub struct Guard {
    pub(crate) access: Rwd,
    pub(crate) deny: Rwd,
    pub(crate) exclusive: bool,
    pub(crate) cached: bool,
    pub(crate) guarded: bool,
}

const NONE: Rwd = Rwd {
    r: false,
    w: false,
    d: false,
};

/// Nothing stands against anything.
pub(crate) const OPEN: Guard = Guard {
    access: NONE,
    deny: NONE,
    exclusive: false,
    cached: false,
    guarded: false,
};

/// Whether a cache of this kind may stand against a share.
fn may_guard(kind: CacheKind) -> bool
    ensures { result ≡ may_guard kind }
{
    !matches!(kind, CacheKind::R | CacheKind::RH)
}

/// The same with one more claim.
pub(crate) fn guard_with(guard: Guard, what: What) -> Guard
    ensures { result ≡ guard_with guard what }
{
    match what {
        What::Share(access, deny) => Guard {
            access: either_right(guard.access, access),
            deny: either_right(guard.deny, deny),
            ..guard
        },
        What::Cache(kind, _) => Guard {
            cached: true,
            guarded: guard.guarded || may_guard(kind),
            ..guard
        },
        What::Range(_, exclusive) => Guard {
            exclusive: guard.exclusive || exclusive,
            ..guard
        },
    }
}

/// Whether a share or a shared range is asked against which none of these stands.
pub(crate) fn lets_by(guard: Guard, asked: What) -> bool
    ensures { result ≡ lets_by guard asked }
{
    match asked {
        What::Share(access, deny) => {
            !guard.guarded && !has_common(access, guard.deny) && !has_common(guard.access, deny)
        }
        What::Range(_, false) => !guard.cached && !guard.exclusive,
        _ => false,
    }
}
