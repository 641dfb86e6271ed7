//! What becomes of SHARE and UNSHARE.
ghost use Rattle.std.specs.Prelude.{◌≡◌, Some, None, IfOk};
ghost use Rattle.xl_nlm.specs.Items.{shown_share_args, Share, Unshare};
ghost use Rattle.xl_front_nlm.specs.Plans.{shown_plan};
ghost use Rattle.xl_front_nlm.specs.Serving.{planned};

use crate::aim::exported;
use crate::asks::share_ask;
use crate::outcome::Outcome;
use crate::plan::{Context, Deed, Plan};
use crate::standing::share_held;
use std::alloc::{AllocError, Global};
use xl_base::Sequence;
use xl_nlm::ShareArgs;

/// SHARE.
#[tactic(auto, unfolding(crate::specs::Serving::planned))]
pub(crate) fn share(alloc: Global, context: &Context, args: &ShareArgs) -> Result<Plan, AllocError>
    ensures { IfOk result (λ plan. planned context.now.count context.now.front.now context.now.core.now (Share (shown_share_args args.now)) ≡ shown_plan (Some args.now.caller_name.now) context.now.front.now plan) }
{
    let Some(file) = exported(context.count, args.fh) else {
        return Ok(Plan::Tells(Outcome::NoFile));
    };
    let caller = Sequence::from_slice(alloc, args.caller_name)?;
    let request = share_ask(alloc, context.front.host_rows(&caller), args, file)?;
    Ok(Plan::Asks(context.front.rooms(), request))
}

/// UNSHARE.
#[tactic(auto, unfolding(crate::specs::Serving::planned))]
pub(crate) fn unshare(
    alloc: Global,
    context: &Context,
    args: &ShareArgs,
) -> Result<Plan, AllocError>
    ensures { IfOk result (λ plan. planned context.now.count context.now.front.now context.now.core.now (Unshare (shown_share_args args.now)) ≡ shown_plan None context.now.front.now plan) }
{
    let Some(file) = exported(context.count, args.fh) else {
        return Ok(Plan::Tells(Outcome::NoFile));
    };
    match share_held(alloc, context.core, args, file)? {
        Some(share) => Ok(Plan::Does(Deed::GivesBack(share))),
        None => Ok(Plan::Tells(Outcome::Ended)),
    }
}
