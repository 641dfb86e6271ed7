//! What becomes of TEST, LOCK, UNLOCK and CANCEL.
ghost use Rattle.std.specs.Prelude.{◌≡◌, Some, None, IfOk};
ghost use Rattle.xl_nlm.specs.Items.{shown_test_args, shown_lock_args, shown_cancel_args, shown_unlock_args, Test, Cancel, Unlock};
ghost use Rattle.xl_front_nlm.specs.Plans.{shown_plan};
ghost use Rattle.xl_front_nlm.specs.Serving.{locking, planned};

use crate::aim::aimed;
use crate::asks::{lock_ask, test_ask, unlock_ask};
use crate::outcome::Outcome;
use crate::plan::{Context, Deed, Plan};
use crate::standing::{does_wait, waiter_for};
use std::alloc::{AllocError, Global};
use xl_base::Sequence;
use xl_nlm::{CancelArgs, LockArgs, TestArgs, UnlockArgs};

/// TEST.
#[tactic(auto, unfolding(crate::specs::Serving::planned))]
pub(crate) fn test(alloc: Global, context: &Context, args: &TestArgs) -> Result<Plan, AllocError>
    ensures { IfOk result (λ plan. planned context.now.count context.now.front.now context.now.core.now (Test (shown_test_args args.now)) ≡ shown_plan None context.now.front.now plan) }
{
    let at = match aimed(context.count, &args.lock) {
        Ok(at) => at,
        Err(outcome) => return Ok(Plan::Tells(outcome)),
    };
    let request = test_ask(alloc, args, &at)?;
    Ok(Plan::Asks(context.front.rooms(), request))
}

/// LOCK, whose caller is monitored, and NM_LOCK, whose caller isn't. Who waits for the same already waits on.
pub(crate) fn lock(
    alloc: Global,
    context: &Context,
    monitored: bool,
    args: &LockArgs,
) -> Result<Plan, AllocError>
    ensures { IfOk result (λ plan. locking monitored context.now.count context.now.front.now context.now.core.now (shown_lock_args args.now) ≡ shown_plan (Some args.now.lock.caller_name.now) context.now.front.now plan) }
{
    let at = match aimed(context.count, &args.lock) {
        Ok(at) => at,
        Err(outcome) => return Ok(Plan::Tells(outcome)),
    };
    if does_wait(alloc, context.core, args, &at)? {
        return Ok(Plan::Tells(Outcome::Waits));
    }
    let caller = Sequence::from_slice(alloc, args.lock.caller_name)?;
    let rows = context.front.host_rows(&caller);
    let request = lock_ask(alloc, monitored, rows, args, &at)?;
    Ok(Plan::Asks(context.front.rooms(), request))
}

/// UNLOCK.
#[tactic(auto, unfolding(crate::specs::Serving::planned))]
pub(crate) fn unlock(
    alloc: Global,
    context: &Context,
    args: &UnlockArgs,
) -> Result<Plan, AllocError>
    ensures { IfOk result (λ plan. planned context.now.count context.now.front.now context.now.core.now (Unlock (shown_unlock_args args.now)) ≡ shown_plan None context.now.front.now plan) }
{
    let at = match aimed(context.count, &args.lock) {
        Ok(at) => at,
        Err(outcome) => return Ok(Plan::Tells(outcome)),
    };
    let request = unlock_ask(alloc, args, &at)?;
    Ok(Plan::Asks(context.front.rooms(), request))
}

/// CANCEL.
#[tactic(auto, unfolding(crate::specs::Serving::planned))]
pub(crate) fn cancel(
    alloc: Global,
    context: &Context,
    args: &CancelArgs,
) -> Result<Plan, AllocError>
    ensures { IfOk result (λ plan. planned context.now.count context.now.front.now context.now.core.now (Cancel (shown_cancel_args args.now)) ≡ shown_plan None context.now.front.now plan) }
{
    let at = match aimed(context.count, &args.lock) {
        Ok(at) => at,
        Err(outcome) => return Ok(Plan::Tells(outcome)),
    };
    match waiter_for(alloc, context.core, &args.lock, args.exclusive, &at)? {
        Some(waiter) => Ok(Plan::Does(Deed::Cancels(waiter))),
        None => Ok(Plan::Tells(Outcome::NotWaiting)),
    }
}
