//! Between which bytes the ranges of a page lie.
ghost use Rattle.std.specs.Prelude.{◌≡◌, min, max};
ghost use Rattle.std.specs.List.{list_any};
ghost use Rattle.xl_table.specs.Bounds.{unbounded, widened, bounds_from, bounds_of, is_past, is_quiet, is_edge};

use crate::due::due_with;
use crate::guard::{Guard, OPEN, guard_with, lets_by};
use xl_matrix::{Claim, Extent, What};

/// No range of a page has a byte before the low one or behind the high one, it has other claims than ranges with bytes
/// only if it is mixed, no answer is due to one of its caches before the moment, and its claims stand against no more than
/// the guard says.
#[derive(Clone, Copy)]
pub struct Bounds {
    pub(crate) low: u64,
    pub(crate) high: u64,
    pub(crate) mixed: bool,
    pub(crate) due: u64,
    pub(crate) guard: Guard,
}

fn least(a: u64, b: u64) -> u64
    ensures { result ≡ min a b }
{
    a.min(b)
}

fn greatest(a: u64, b: u64) -> u64
    ensures { result ≡ max a b }
{
    a.max(b)
}

/// The bounds with one more claim.
pub(crate) fn widened(bounds: Bounds, what: What) -> Bounds
    ensures { result ≡ widened bounds what }
{
    match what {
        What::Range(Extent::Bytes(first, last), _) => Bounds {
            low: least(bounds.low, first),
            high: greatest(bounds.high, last),
            mixed: bounds.mixed,
            due: bounds.due,
            guard: guard_with(bounds.guard, what),
        },
        _ => Bounds {
            low: bounds.low,
            high: bounds.high,
            mixed: true,
            due: due_with(bounds.due, what),
            guard: guard_with(bounds.guard, what),
        },
    }
}

/// The bounds with more claims.
pub(crate) fn widened_by(bounds: Bounds, claims: &[Claim]) -> Bounds
    ensures { result ≡ bounds_from bounds claims.now }
{
    let mut bounds = bounds;
    for claim in claims {
        bounds = widened(bounds, claim.what);
    }
    bounds
}

/// The bounds of these claims.
pub(crate) fn bounds_of(claims: &[Claim]) -> Bounds
    ensures { result ≡ bounds_of claims.now }
{
    let none = Bounds {
        low: u64::MAX,
        high: 0,
        mixed: false,
        due: u64::MAX,
        guard: OPEN,
    };
    widened_by(none, claims)
}

/// Whether the bounds may be narrower without this claim.
fn is_edge(bounds: Bounds, what: What) -> bool
    ensures { result ≡ is_edge bounds what }
{
    match what {
        What::Range(Extent::Bytes(first, last), _) => first <= bounds.low || bounds.high <= last,
        _ => true,
    }
}

/// Whether they may be so without these.
pub(crate) fn any_edge(bounds: Bounds, claims: &[Claim]) -> bool
    ensures { result ≡ list_any (λ c. is_edge bounds c.what) claims.now }
{
    claims.iter().any(|claim| is_edge(bounds, claim.what))
}

/// Whether a range with bytes is asked, and none within these bounds has any of them.
pub(crate) fn is_past(asked: What, bounds: Bounds) -> bool
    ensures { result ≡ is_past asked bounds }
{
    match asked {
        What::Range(Extent::Bytes(first, last), _) => {
            !bounds.mixed && (bounds.high < first || last < bounds.low)
        }
        _ => false,
    }
}

/// Whether nothing within these bounds blocks what is asked: it is a range past them, or what the guard lets by.
pub(crate) fn is_quiet(asked: What, bounds: Bounds) -> bool
    ensures { result ≡ is_quiet asked bounds }
{
    is_past(asked, bounds) || lets_by(bounds.guard, asked)
}
