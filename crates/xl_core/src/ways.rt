//! The way that is made for an ask, or a waiter, before it is judged: the breaks that it begins.
ghost use Rattle.std.specs.List.{AllByRecursion};
ghost use Rattle.std.specs.Prelude.{◌≡◌, ◌∷◌, ◌+◌, ◌<◌, ◌≤◌, ◌^◌, List, [], OnOk, IfOk};
ghost use Rattle.xl_base.specs.Limits.{numbers_left};
ghost use Rattle.xl_matrix.specs.declared.claim.Claim.{Claim};
ghost use Rattle.xl_table.specs.Relock.{most_claims};
ghost use Rattle.xl_core.specs.Blockers.{passage_of};
ghost use Rattle.xl_core.specs.InFront.{in_front_of, IsInLine, IsKnown};
ghost use Rattle.xl_core.specs.Good.{IsGood};
ghost use Rattle.xl_core.specs.Ways.{begins_some, made_way};
ghost use Rattle.xl_core.specs.Whole.{state_of};
ghost use Rattle.xl_core.specs.declared.blockers.Passage.TheVariants as Passage;

use crate::ask::Effect;
use crate::blockers::{Front, Passage, first_broken, passage_of};
use crate::breaks::{begin_breaks, plan_then};
use crate::judge::Plea;
use crate::lease::moment_after;
use crate::parts::Parts;
use crate::standings::is_timely;
use std::alloc::{AllocError, Global};
use xl_base::Sequence;
use xl_cache::{BreakPlan, recalled};
use xl_matrix::Claim;

/// Whether one that pleads so begins breaks by this plan.
fn begins_some(plea: &Plea, plan: &BreakPlan) -> bool
    ensures { result ≡ begins_some plea.now plan.now }
{
    if !is_timely(plea.standing) || first_broken(plan.breaks.as_slice()).is_none() {
        return false;
    }
    !(plea.awaits && plea.crowded.is_some() && recalled(plan).is_some())
}

/// Begins the breaks of the plan if one that pleads so begins them, and gives their effects, and the plan as it is then.
fn carry_out(
    alloc: Global,
    parts: &mut Parts,
    front: Front,
    plea: &Plea,
    claim: &Claim,
    plan: BreakPlan,
) -> Result<(Sequence<Effect>, BreakPlan), AllocError>
    requires passage { Passage.Open plan ≡ passage_of (in_front_of front parts.old.queue) (state_of parts.old) claim.now }
    requires good { IsGood (state_of parts.old) }
    requires numbers { parts.old.counter + numbers_left < 2 ^ 32 }
    ensures way { (claims : List Claim) → IfOk result (λ r. made_way (in_front_of front parts.old.queue) plea.now (claim.now ∷ claims) (state_of parts.old) ≡ (r.0, state_of parts.new)) }
    ensures passage { IfOk result (λ r. Passage.Open r.1 ≡ passage_of (in_front_of front parts.new.queue) (state_of parts.new) claim.now) }
    ensures few { OnOk result (parts.new.counter ≤ parts.old.counter + most_claims) }
    ensures queue { parts.new.queue ≡ parts.old.queue }
    ensures names { parts.new.names ≡ parts.old.names }
    ensures stable { parts.new.stable ≡ parts.old.stable }
    ensures given { parts.new.given ≡ parts.old.given }
    ensures failed { parts.new.failed ≡ parts.old.failed }
{
    if !begins_some(plea, &plan) {
        return Ok((Sequence::new(alloc), plan));
    }
    let left = plan_then(
        alloc,
        &plan,
        moment_after(parts.clock, parts.times.break_time),
    );
    let told = begin_breaks(alloc, parts, claim, &plan)?;
    Ok((told, left))
}

/// Begins the breaks that a plea for this claim begins, and gives their effects, and how its way stands then.
fn make_way_of(
    alloc: Global,
    parts: &mut Parts,
    front: Front,
    plea: &Plea,
    claim: &Claim,
) -> Result<(Sequence<Effect>, Passage), AllocError>
    requires line { IsInLine front parts.old.queue claim.now }
    requires good { IsGood (state_of parts.old) }
    requires numbers { parts.old.counter + numbers_left < 2 ^ 32 }
    ensures way { (claims : List Claim) → IfOk result (λ r. made_way (in_front_of front parts.old.queue) plea.now (claim.now ∷ claims) (state_of parts.old) ≡ (r.0, state_of parts.new)) }
    ensures passage { IfOk result (λ r. r.1 ≡ passage_of (in_front_of front parts.new.queue) (state_of parts.new) claim.now) }
    ensures few { OnOk result (parts.new.counter ≤ parts.old.counter + most_claims) }
    ensures queue { parts.new.queue ≡ parts.old.queue }
    ensures names { parts.new.names ≡ parts.old.names }
    ensures stable { parts.new.stable ≡ parts.old.stable }
    ensures given { parts.new.given ≡ parts.old.given }
    ensures failed { parts.new.failed ≡ parts.old.failed }
{
    match passage_of(alloc, parts, front, claim)? {
        Passage::Barred(blocker) => Ok((Sequence::new(alloc), Passage::Barred(blocker))),
        Passage::Open(plan) => {
            let (told, left) = carry_out(alloc, parts, front, plea, claim, plan)?;
            Ok((told, Passage::Open(left)))
        }
    }
}

/// Begins the breaks that a plea for these claims begins, and gives their effects, and how the way of the first of them
/// stands then, if a cache stands on its file. At least 65,536 numbers must be left to give out.
#[tactic(auto, unfolding(crate::specs::Ways::made_way))]
pub(crate) fn make_way(
    alloc: Global,
    parts: &mut Parts,
    front: Front,
    plea: &Plea,
    claims: &[Claim],
) -> Result<(Sequence<Effect>, Option<Passage>), AllocError>
    requires line { AllByRecursion (IsInLine front parts.old.queue) claims.now }
    requires good { IsGood (state_of parts.old) }
    requires numbers { parts.old.counter + numbers_left < 2 ^ 32 }
    ensures way { IfOk result (λ r. made_way (in_front_of front parts.old.queue) plea.now claims.now (state_of parts.old) ≡ (r.0, state_of parts.new)) }
    ensures known { IfOk result (λ r. IsKnown (in_front_of front parts.new.queue) r.1 (state_of parts.new) claims.now) }
    ensures few { OnOk result (parts.new.counter ≤ parts.old.counter + most_claims) }
    ensures queue { parts.new.queue ≡ parts.old.queue }
    ensures names { parts.new.names ≡ parts.old.names }
    ensures stable { parts.new.stable ≡ parts.old.stable }
    ensures given { parts.new.given ≡ parts.old.given }
    ensures failed { parts.new.failed ≡ parts.old.failed }
{
    let [claim, ..] = claims else {
        return Ok((Sequence::new(alloc), None));
    };
    if !parts.table.has_cache(claim.file) {
        return Ok((Sequence::new(alloc), None));
    }
    let (told, passage) = make_way_of(alloc, parts, front, plea, claim)?;
    Ok((told, Some(passage)))
}
