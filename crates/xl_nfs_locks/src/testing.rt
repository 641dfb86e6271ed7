//! LOCKT (RFC 7530 16.11).
ghost use Rattle.std.specs.Prelude.{◌≡◌, ◌≤◌, ℕ, IfOk, OnOk, Some};
ghost use Rattle.xl_core.specs.State.{MayBe};
ghost use Rattle.xl_nfs.specs.Locks.{shown_lock_test_args};
ghost use Rattle.xl_nfs_locks.specs.Ranges.{last_byte};
ghost use Rattle.xl_nfs_locks.specs.Tests.{lock_test, locker_of, test_at, test_to, tested_told};
ghost use Rattle.xl_nfs_opens.specs.Plans.{carried};
ghost use Rattle.xl_plan.specs.Budgets.{IsReady};
ghost use Rattle.xl_plan.specs.Keepers.{HandsTo};
ghost use Rattle.xl_nfs_opens.specs.Short.{Leaves};

use crate::asks::test_ask;
use crate::denials::lock_told;
use crate::ranges::last_byte;
use std::alloc::{AllocError, Global};
use xl_base::{Keeper, Sequence};
use xl_core::{Answer, Core, number_in};
use xl_nfs::{LockTestArgs, NfsStatus};
use xl_nfs_opens::{Done, Opener, ROOT, Told, asked, client_in, ended_as, renew_for};
use xl_nfs_state::{ClientRow, NfsState, OwnerKind};

/// A lock owner of this client.
pub(crate) fn locker_of(alloc: Global, row: &ClientRow, owner: &[u8]) -> Result<Opener, AllocError>
    ensures { IfOk result (λ opener. opener ≡ locker_of row.now owner.now) }
{
    Ok(Opener {
        client: row.number,
        id: Sequence::from_slice(alloc, row.id.as_slice())?,
        verifier: row.details.verifier,
        kind: OwnerKind::Lock,
        owner: Sequence::from_slice(alloc, owner)?,
    })
}

/// What LOCKT answers by the core's answer.
fn tested_told(
    alloc: Global,
    state: &NfsState,
    core: &Core,
    answer: Answer,
) -> Result<Told, AllocError>
    ensures { IfOk result (λ told. told ≡ tested_told core.now state.now answer) }
{
    match answer {
        Answer::Granted(_) => Ok(Told::Free),
        _ => lock_told(alloc, state, core, false, answer),
    }
}

/// LOCKT of a range by a lock owner, on this file, which is the current one: the core is asked.
#[tactic(auto, using(xl_plan::proofs::BudgetLaws::leaves_self, xl_plan::proofs::BudgetLaws::leaves_more))]
fn test_to<K: Keeper>(
    alloc: Global,
    state: &NfsState,
    core: &mut Core,
    keeper: &mut K,
    args: &LockTestArgs,
    file: u32,
    by: &Opener,
) -> Result<Done, AllocError>
    requires ready { IsReady 2 core.old }
    ensures done { (n : ℕ) → IfOk result (λ r. MayBe n core.new → carried n core.old state.now (test_to state.now (Some file) (shown_lock_test_args args.now) file by.now (last_byte args.now.offset args.now.len)) ≡ (r.0, r.1, r.2, state.now, core.new)) }
    ensures leaves { OnOk result (Leaves 2 core.old core.new) }
    ensures keeper { OnOk result (HandsTo K.held K.given K.faults K.left core.old core.new keeper.old keeper.new) }
{
    let Some(last) = last_byte(args.offset, args.len) else {
        return Ok(ended_as(alloc, NfsStatus::Inval, Some(file)));
    };
    let request = test_ask(alloc, by, file, args.kind, args.offset, last)?;
    let (said, effects) = asked(alloc, core, keeper, request)?;
    let told = tested_told(alloc, state, core, said)?;
    Ok((told, Some(file), effects))
}

/// LOCKT, once the lease of the client is renewed.
#[tactic(auto, using(xl_plan::proofs::BudgetLaws::leaves_self, xl_plan::proofs::BudgetLaws::leaves_more))]
fn test_at<K: Keeper>(
    alloc: Global,
    state: &NfsState,
    core: &mut Core,
    keeper: &mut K,
    current: Option<u32>,
    args: &LockTestArgs,
) -> Result<Done, AllocError>
    requires ready { IsReady 2 core.old }
    ensures done { (n : ℕ) → IfOk result (λ r. MayBe n core.new → carried n core.old state.now (test_at core.old state.now (shown_lock_test_args args.now) current) ≡ (r.0, r.1, r.2, state.now, core.new)) }
    ensures leaves { OnOk result (Leaves 2 core.old core.new) }
    ensures keeper { OnOk result (HandsTo K.held K.given K.faults K.left core.old core.new keeper.old keeper.new) }
{
    let Some(at) = current else {
        return Ok(ended_as(alloc, NfsStatus::NoFileHandle, current));
    };
    if at == ROOT {
        return Ok(ended_as(alloc, NfsStatus::IsDir, current));
    }
    let Some(row) = client_in(state, core, args.owner.clientid) else {
        return Ok(ended_as(alloc, NfsStatus::StaleClientId, current));
    };
    let by = locker_of(alloc, row, args.owner.owner)?;
    let done = test_to(alloc, state, core, keeper, args, at, &by)?;
    Ok(done)
}

/// LOCKT: whether the range could be locked. DENIED with a lock that stands against it; NOFILEHANDLE, ISDIR at the root,
/// STALE_CLIENTID, and INVAL for a range of no bytes or past the last one; behind these GRACE while grace runs.
#[tactic(auto, unfolding(crate::specs::Tests::lock_test), using(xl_plan::proofs::BudgetLaws::leaves_then, xl_plan::proofs::BudgetLaws::ready_then))]
pub fn lock_test<K: Keeper>(
    alloc: Global,
    state: &mut NfsState,
    core: &mut Core,
    keeper: &mut K,
    current: Option<u32>,
    args: &LockTestArgs,
) -> Result<Done, AllocError>
    requires ready { IsReady 2 core.old }
    ensures done { (n : ℕ) → IfOk result (λ r. MayBe n core.new → carried n core.old state.old (lock_test core.old state.old current (shown_lock_test_args args.now)) ≡ (r.0, r.1, r.2, state.new, core.new)) }
    ensures leaves { OnOk result (Leaves 2 core.old core.new) }
    ensures keeper { OnOk result (HandsTo K.held K.given K.faults K.left core.old core.new keeper.old keeper.new) }
{
    let client = number_in(core, args.owner.clientid);
    renew_for(alloc, state, core, client)?;
    let done = test_at(alloc, state, core, keeper, current, args)?;
    Ok(done)
}
