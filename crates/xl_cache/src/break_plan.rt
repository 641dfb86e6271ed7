//! A plan of breaks, and what it comes to.
ghost use Rattle.std.specs.Prelude.{◌≡◌, false, Some, None, IfSome, filter, find, map};
ghost use Rattle.std.specs.List.{AllByRecursion};
ghost use Rattle.xl_base.specs.Lists.{IsIn};
ghost use Rattle.xl_cache.specs.BreakPlans.{needs_answer_by, is_slow, broken_claim, recalled_from, recalled_by};

use crate::need::answer_needed;
use xl_base::Sequence;
use xl_matrix::{CacheKind, Claim, What};

/// The breaks that an ask begins, and whether it waits for one that runs.
#[derive(Drop)]
pub struct BreakPlan {
    /// The caches that the ask breaks, each with what the break leaves of it, None if it leaves nothing; in the order
    /// in which they are held.
    pub breaks: Sequence<(Claim, Option<CacheKind>)>,
    /// The first held cache whose break runs already and whose answer the ask has to wait for, if there is one.
    pub awaited: Option<Claim>,
    /// The first cache in the way that is held once the breaks have begun: one whose break runs already, or begins and
    /// needs an answer; None if there is none.
    pub left: Option<Claim>,
}

fn needs_answer(what: What, left: Option<CacheKind>) -> bool
    ensures { result ≡ needs_answer_by what left }
{
    match what {
        What::Cache(kind, _) => answer_needed(kind, left),
        What::Share(_, _) | What::Range(_, _) => false,
    }
}

fn has_to_be_answered(begun: &(Claim, Option<CacheKind>)) -> bool
    ensures { result ≡ is_slow begun.now }
{
    needs_answer(begun.0.what, begun.1)
}

fn slow_among(breaks: &[(Claim, Option<CacheKind>)]) -> Option<(Claim, Option<CacheKind>)>
    ensures { result ≡ find is_slow breaks.now }
{
    'breaks: for begun in breaks {
        if has_to_be_answered(begun) {
            return Some(*begun);
        }
    }
    None
}

/// The first break of the plan that takes effect only once it is answered. It takes no memory.
pub fn first_slow(plan: &BreakPlan) -> Option<(Claim, Option<CacheKind>)>
    ensures { result ≡ find is_slow plan.now.breaks }
{
    slow_among(plan.breaks.as_slice())
}

#[tactic(auto, unfolding(crate::specs::BreakPlans::recalled_by))]
fn find_recalled(plan: &BreakPlan) -> Option<Claim>
    ensures { result ≡ recalled_by plan.now }
{
    match plan.awaited {
        Some(claim) => Some(claim),
        None => match slow_among(plan.breaks.as_slice()) {
            Some((claim, _)) => Some(claim),
            None => None,
        },
    }
}

/// The cache whose answer the ask has to wait for: the awaited one, else the first whose break begins now and needs an
/// answer. None if the ask need not wait: every break of the plan then takes effect as it is sent. It takes no
/// memory.
pub fn recalled(plan: &BreakPlan) -> Option<Claim>
    ensures is { result ≡ recalled_by plan.now }
    ensures awaited { IfSome plan.now.awaited (λ c. result ≡ Some c) }
    ensures begun { plan.now.awaited ≡ None → IfSome result (λ c. IsIn c (map broken_claim (filter is_slow plan.now.breaks))) }
    ensures none { result ≡ None → (plan.now.awaited ≡ None) × AllByRecursion (λ b. is_slow b ≡ false) plan.now.breaks }
{
    find_recalled(plan)
}
