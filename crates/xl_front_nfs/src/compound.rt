//! A COMPOUND (RFC 7530 14.2, 15.2): its operations in a row, up to the first that fails.
ghost use Rattle.std.specs.Prelude.{◌≡◌, ℕ, ◌+◌, ◌*◌, ◌<◌, ◌≤◌, ◌++◌, List, [], false, true, length, IfOk, OnOk};
ghost use Rattle.xl_nfs.specs.Ops.{shown_op, OpFits};
ghost use Rattle.xl_nfs.specs.Outcomes.{is_ok};
ghost use Rattle.xl_nfs_state.specs.Bytes.{most_result_bytes};
ghost use Rattle.xl_nfs_state.specs.State.{NfsLists};
ghost use Rattle.xl_rpc.specs.Xdr.{unsigned_at};
ghost use Rattle.xl_core.specs.State.{CoreState, MayBe};
ghost use Rattle.xl_front_nfs.specs.Courses.{course_of};
ghost use Rattle.xl_front_nfs.specs.FrontNfs.{most_ops};
ghost use Rattle.xl_plan.specs.Budgets.{IsReady};
ghost use Rattle.xl_plan.specs.Keepers.{HandsTo};
ghost use Rattle.xl_plan.specs.Plans.{carried, told_behind};
ghost use Rattle.xl_nfs_opens.specs.Results.{ToldFits};
ghost use Rattle.xl_nfs_opens.specs.Seqids.{most_short};
ghost use Rattle.xl_nfs_opens.specs.Short.{Leaves};
ghost use Rattle.xl_nfs_opens.specs.declared.told.Told.TheVariants.{Ended};
ghost use Rattle.xl_front_nfs.specs.Steps.{steps_in, fault_of, noted, step_plan, goes_on, compound, Runs};

use crate::serving::serve;
use std::alloc::{AllocError, Global};
use xl_base::{Keeper, Sequence};
use xl_core::{Core, Effect};
use xl_nfs::{NfsOp, NfsStatus, next_op};
use xl_nfs_opens::{Done, Exported, ended_as, put_result};
use xl_nfs_state::NfsState;
use xl_rpc::{Xdr, XdrOut};

/// What a COMPOUND has come to, beside what is remembered of the clients.
#[derive(Drop)]
pub(crate) struct Progress {
    /// The current filehandle: none, the root by 0, or a file by its number.
    pub current: Option<u32>,
    /// The results, as they are spelled.
    pub results: XdrOut,
    /// How many they are.
    pub count: u32,
    /// The last status.
    pub status: NfsStatus,
    /// What the core told of besides.
    pub effects: Sequence<Effect>,
}

/// So many operations, which stand at the head of these bytes.
#[derive(Clone, Copy)]
pub(crate) struct Ops<'a> {
    /// The bytes.
    pub bytes: Xdr<'a>,
    /// How many they are.
    pub count: u32,
}

/// Whether it is OK.
fn is_ok(status: NfsStatus) -> bool
    ensures { result ≡ is_ok status }
{
    matches!(status, NfsStatus::Ok)
}

/// Puts effects behind others.
fn push_all(effects: &mut Sequence<Effect>, more: Sequence<Effect>) -> Result<(), AllocError>
    ensures { OnOk result (effects.new ≡ effects.old ++ more) }
{
    for effect in more.into_vec() {
        effects.push(effect)?;
    }
    Ok(())
}

/// An operation more, of this number, came to this; whether others are done behind it.
#[tactic(auto, using(xl_nfs_opens::proofs::HeldLaws::most_most, xl_nfs_opens::proofs::HeldLaws::short_told))]
fn note(progress: &mut Progress, number: u32, done: Done) -> Result<bool, AllocError>
    requires fits { ToldFits number done.0 }
    requires few { progress.old.count < most_ops }
    ensures noted { OnOk result (course_of progress.new ≡ noted (course_of progress.old) number (done.0, done.1)) }
    ensures told { OnOk result (progress.new.effects ≡ progress.old.effects ++ done.2) }
    ensures more { IfOk result (λ more. more ≡ goes_on (course_of progress.new)) }
    ensures little { OnOk result (length progress.new.results ≤ length progress.old.results + most_result_bytes) }
    ensures short { IfOk result (λ more. more ≡ true → length progress.new.results ≤ length progress.old.results + most_short) }
    ensures count { OnOk result (progress.new.count ≡ progress.old.count + 1) }
{
    let (told, current, effects) = done;
    put_result(&mut progress.results, number, &told)?;
    progress.count += 1;
    progress.current = current;
    progress.status = told.status();
    push_all(&mut progress.effects, effects)?;
    Ok(is_ok(progress.status))
}

/// Does an operation; whether others are done behind it.
fn do_op<K: Keeper>(
    alloc: Global,
    exported: &Exported,
    state: &mut NfsState,
    core: &mut Core,
    keeper: &mut K,
    progress: &mut Progress,
    op: &NfsOp,
) -> Result<bool, AllocError>
    requires ready { IsReady 4 core.old }
    requires fits { OpFits (shown_op op.now) }
    requires few { progress.old.count < most_ops }
    ensures done { (n : ℕ) → OnOk result (MayBe n core.new → told_behind progress.old.effects (carried n core.old state.old (step_plan exported.now.files.now exported.now.others (course_of progress.old) core.old state.old (Runs (shown_op op.now)))) ≡ (course_of progress.new, progress.new.effects, state.new, core.new)) }
    ensures more { IfOk result (λ more. more ≡ goes_on (course_of progress.new)) }
    ensures leaves { OnOk result (Leaves 4 core.old core.new) }
    ensures little { OnOk result (length progress.new.results ≤ length progress.old.results + most_result_bytes) }
    ensures short { IfOk result (λ more. more ≡ true → length progress.new.results ≤ length progress.old.results + most_short) }
    ensures count { OnOk result (progress.new.count ≡ progress.old.count + 1) }
    ensures keeper { OnOk result (HandsTo K.held K.given K.faults K.left core.old core.new keeper.old keeper.new) }
{
    let current = progress.current;
    let done = serve(alloc, exported, state, core, keeper, current, op)?;
    let more = note(progress, op.number(), done)?;
    Ok(more)
}

/// Refuses an operation whose arguments can't be read.
fn refuse(alloc: Global, progress: &mut Progress, number: u32) -> Result<(), AllocError>
    requires few { progress.old.count < most_ops }
    ensures noted { OnOk result (course_of progress.new ≡ noted (course_of progress.old) number (Ended NfsStatus.BadXdr, progress.old.current)) }
    ensures told { OnOk result (progress.new.effects ≡ progress.old.effects) }
    ensures little { OnOk result (length progress.new.results ≤ length progress.old.results + most_result_bytes) }
{
    let done = ended_as(alloc, NfsStatus::BadXdr, progress.current);
    note(progress, number, done)?;
    Ok(())
}

/// Refuses what can't be read as an operation: its arguments, or its number.
#[tactic(auto, unfolding(crate::specs::Steps::step_plan))]
fn refuse_rest(alloc: Global, progress: &mut Progress, rest: &Xdr) -> Result<(), AllocError>
    requires few { progress.old.count < most_ops }
    ensures done { (n : ℕ) (files : List (List ℕ)) (others : ℕ) (lists : NfsLists) (core : CoreState) → OnOk result (carried n core lists (step_plan files others (course_of progress.old) core lists (fault_of (unsigned_at rest.now.rest.now))) ≡ (course_of progress.new, [], lists, core)) }
    ensures told { OnOk result (progress.new.effects ≡ progress.old.effects) }
    ensures ends { OnOk result (goes_on (course_of progress.new) ≡ false) }
    ensures little { OnOk result (length progress.new.results ≤ length progress.old.results + most_result_bytes) }
{
    let mut at = *rest;
    match at.u32() {
        Ok(number) => refuse(alloc, progress, number)?,
        Err(_) => progress.status = NfsStatus::BadXdr,
    }
    Ok(())
}

/// Does so many operations, read one behind the other, up to the first that isn't OK or can't be read.
#[tactic(auto, using(xl_plan::proofs::BudgetLaws::leaves_self, xl_plan::proofs::BudgetLaws::leaves_more, crate::proofs::EndingLaws::step_ready, crate::proofs::EndingLaws::steps_leave, xl_plan::proofs::BudgetLaws::may_before, crate::proofs::CourseLaws::course_none, crate::proofs::CourseLaws::course_unread, crate::proofs::CourseLaws::course_ends))]
pub(crate) fn run_ops<K: Keeper>(
    alloc: Global,
    exported: &Exported,
    state: &mut NfsState,
    core: &mut Core,
    keeper: &mut K,
    progress: &mut Progress,
    ops: &Ops,
) -> Result<(), AllocError>
    requires ready { IsReady (4 * ops.now.count) core.old }
    requires few { progress.old.count + ops.now.count ≤ most_ops }
    ensures course { (n : ℕ) → OnOk result (MayBe n core.new → told_behind progress.old.effects (carried n core.old state.old (compound exported.now.files.now exported.now.others (course_of progress.old) core.old state.old (steps_in ops.now.count ops.now.bytes.rest.now))) ≡ (course_of progress.new, progress.new.effects, state.new, core.new)) }
    ensures leaves { OnOk result (Leaves (4 * ops.now.count) core.old core.new) }
    ensures little { OnOk result (length progress.new.results ≤ length progress.old.results + most_short * ops.now.count + most_result_bytes) }
    ensures keeper { OnOk result (HandsTo K.held K.given K.faults K.left core.old core.new keeper.old keeper.new) }
{
    if ops.count == 0 {
        return Ok(());
    }
    let mut rest = ops.bytes;
    let Ok(op) = next_op(&mut rest) else {
        refuse_rest(alloc, progress, &ops.bytes)?;
        return Ok(());
    };
    let more = do_op(alloc, exported, state, core, keeper, progress, &op)?;
    if !more {
        return Ok(());
    }
    let behind = Ops {
        bytes: rest,
        count: ops.count - 1,
    };
    run_ops(alloc, exported, state, core, keeper, progress, &behind)?;
    Ok(())
}
