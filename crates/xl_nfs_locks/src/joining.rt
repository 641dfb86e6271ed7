//! LOCK under an open, by a lock owner that has no stateid there yet, or has one (RFC 7530 16.10).
ghost use Rattle.std.specs.Prelude.{◌≡◌, ◌≤◌, ℕ, [], false, true, Option, None, Some, Ok, IsSome, IfSome, IfOk, OnOk, option_copied};
ghost use Rattle.std.specs.List.{find};
ghost use Rattle.xl_core.specs.State.{CoreState, MayBe};
ghost use Rattle.xl_nfs.specs.Locks.{shown_lock_args, shown_new_locker};
ghost use Rattle.xl_nfs_state.specs.State.{NfsLists, is_client, is_owner, is_stateid, is_kept};
ghost use Rattle.xl_nfs_locks.specs.FirstLocks.{both_refused, by_owner, can_enter, counted_both, counted_open, entered, fits_under, found_joined, join_again, join_answered, join_as, join_checked, join_in, join_of, join_standing, join_to, open_failed, joined_by, joined_more, joined_new, lock_named, lock_new, lock_row, locker_under, IsJoined};
ghost use Rattle.xl_nfs_locks.specs.Locks.{lock_end};
ghost use Rattle.xl_nfs_opens.specs.Closing.{standing_fault, IsChecked};
ghost use Rattle.xl_nfs_opens.specs.Opens.{client_in, is_granted};
ghost use Rattle.xl_nfs_opens.specs.Operations.{op_lock};
ghost use Rattle.xl_nfs_opens.specs.Plans.{carried};
ghost use Rattle.xl_nfs_opens.specs.Results.{spelled, ToldFits};
ghost use Rattle.xl_nfs_opens.specs.Seqids.{is_room_for};
ghost use Rattle.xl_plan.specs.Budgets.{IsReady};
ghost use Rattle.xl_plan.specs.Keepers.{HandsTo, IsQuiet};
ghost use Rattle.xl_nfs_opens.specs.Short.{Leaves};

use crate::asks::lock_ask;
use crate::denials::lock_told;
use crate::locking::{is_granted, lock_end};
use crate::testing::locker_of;
use std::alloc::{AllocError, Global};
use xl_base::{Keeper, Sequence};
use xl_core::{Answer, Core, number_in};
use xl_nfs::{LockArgs, NewLocker, NfsStatus, operation};
use xl_nfs_opens::{
    Checked, Done, FIRST_SEQID, Found, Opener, SHARE_NONE, Told, advances, asked, beside, check,
    client_in, count, drawn, ended_as, fail, find_opener, held_on, is_room_for, next_seqids,
    opener_number, remember, renew_for, repeat, result_bytes, stand, standing_fault, state_client,
    state_told, stateid_of,
};
use xl_nfs_state::{
    ClientRow, Holder, NfsState, OwnerKind, OwnerRow, ResultBytes, SeqidState, SeqidVerdict,
    Standing, StateidRow, Whose, verdict,
};

/// Such a LOCK at the current handle.
#[derive(Clone, Copy)]
struct NewLock<'a> {
    /// The current handle.
    current: Option<u32>,
    /// What is asked.
    args: &'a LockArgs<'a>,
    /// Who asks, and under which open.
    given: &'a NewLocker<'a>,
}

/// The same, once the open is found.
#[derive(Clone, Copy)]
struct JoinTurn<'a> {
    /// The request.
    asked: NewLock<'a>,
    /// With whose seqids it counts.
    both: BothOwners,
    /// The open.
    above: StateidRow,
}

/// The same, once the lock owner is found.
#[derive(Clone, Copy)]
struct JoinOn<'a> {
    /// The request.
    turn: JoinTurn<'a>,
    /// The lock owner.
    locker: &'a Opener,
    /// What it has under the open.
    had: Option<StateidRow>,
}

/// With whose seqids such a LOCK counts.
#[derive(Clone, Copy)]
pub struct BothOwners {
    /// The number of the open's owner.
    pub number: u64,
    /// How far its requests have come.
    pub seqids: SeqidState,
    /// Its seqid in the request.
    pub open_seqid: u32,
    /// The lock owner's seqid in the request.
    pub lock_seqid: u32,
}

/// What the lock owner's seqid says.
#[derive(Clone, Copy)]
pub enum Joined {
    /// It isn't the next one, or the owner has locks on the file under another open.
    Bad,
    /// It is the last request of the owner of this number once more.
    Again(u64),
    /// It is the next one, or the owner is new; and this is the stateid that it has under the open.
    Joins(Option<StateidRow>),
}

/// The open's owner has come this far with it, and the result is kept for it.
fn count_open(state: &mut NfsState, both: BothOwners, bytes: ResultBytes) -> Result<(), AllocError>
    requires owner { IsSome (find (is_owner both.number) state.old.owners) }
    ensures { OnOk result (state.new ≡ counted_open both bytes state.old) }
{
    let op = operation::LOCK;
    let next = next_seqids(op, both.open_seqid, both.seqids.confirmed, None);
    count(state, both.number, both.seqids.closed, next, bytes)?;
    Ok(())
}

/// So has the lock owner, which comes if it is new.
#[tactic(auto, using(crate::proofs::FirstLaws::client_stays))]
fn count_both(
    alloc: Global,
    state: &mut NfsState,
    both: BothOwners,
    locker: &Opener,
    told: &Told,
) -> Result<(), AllocError>
    requires owner { IsSome (find (is_owner both.number) state.old.owners) }
    requires client { IsSome (find (is_client locker.now.client true) state.old.clients) }
    requires fits { ToldFits op_lock told.now }
    ensures { OnOk result (state.new ≡ counted_both both locker.now (spelled op_lock told.now) state.old) }
{
    let op = operation::LOCK;
    let bytes = result_bytes(alloc, op, told)?;
    count_open(state, both, bytes)?;
    let next = next_seqids(op, both.lock_seqid, true, None);
    let kept = result_bytes(alloc, op, told)?;
    remember(alloc, state, locker, next, kept)?;
    Ok(())
}

/// It was refused; it counts with both if its status does.
fn refuse_both(
    alloc: Global,
    state: &mut NfsState,
    current: Option<u32>,
    both: BothOwners,
    locker: &Opener,
    told: Told,
) -> Result<(Told, Option<u32>), AllocError>
    requires owner { IsSome (find (is_owner both.number) state.old.owners) }
    requires client { IsSome (find (is_client locker.now.client true) state.old.clients) }
    requires fits { ToldFits op_lock told }
    ensures { (n : ℕ) (s : CoreState) → IfOk result (λ r. carried n s state.old (both_refused state.old current both locker.now told) ≡ (r.0, r.1, [], state.new, s)) }
{
    if advances(told.status()) {
        count_both(alloc, state, both, locker, &told)?;
    }
    Ok((told, current))
}

/// The lock owner's stateid under the open, new.
fn lock_row(number: u64, above: &StateidRow, opener: u64, owner: u64) -> StateidRow
    ensures { result ≡ lock_row number above.now opener owner }
{
    StateidRow {
        number,
        client: above.client,
        file: above.file,
        holder: Holder::Lock {
            owner,
            under: above.number,
            opener,
        },
        standing: Standing {
            seqid: FIRST_SEQID,
            access: SHARE_NONE,
            deny: SHARE_NONE,
            closed: false,
        },
    }
}

/// Whether the stateid of locks can come.
fn can_enter(state: &NfsState, row: &StateidRow, owner: u64, under: u64, opener: u64) -> bool
    requires { row.now.holder ≡ Holder.Lock owner under opener }
    ensures { result ≡ can_enter row.now state.now }
{
    state.find_owned(owner, row.file).is_none() && state.can_hang(row)
}

/// A stateid of locks comes, and nothing stays that stood under its number before.
#[tactic(auto, unfolding(crate::specs::FirstLocks::entered), using(xl_nfs_opens::proofs::OwnerLaws::number_gone))]
fn enter(
    alloc: Global,
    state: &mut NfsState,
    number: u64,
    above: &StateidRow,
    opener: u64,
    owner: u64,
) -> Result<(), AllocError>
    ensures { OnOk result (state.new ≡ entered (lock_row number above.now opener owner) state.old) }
{
    let row = lock_row(number, above, opener, owner);
    state.drop_stateids(Whose::Stateid(number));
    if !can_enter(state, &row, owner, above.number, opener) {
        return Ok(());
    }
    match state.add_stateid(alloc, row) {
        Ok(()) => Ok(()),
        Err(_) => Err(AllocError),
    }
}

/// It is granted to an owner that has no stateid under the open: one takes the next number.
fn join_new(
    alloc: Global,
    state: &mut NfsState,
    core: &mut Core,
    both: BothOwners,
    locker: &Opener,
    above: &StateidRow,
) -> Result<Told, AllocError>
    requires owner { IsSome (find (is_owner both.number) state.old.owners) }
    requires client { IsSome (find (is_client locker.now.client true) state.old.clients) }
    requires ready { IsReady 0 core.old }
    ensures done { (n : ℕ) (current : Option ℕ) → IfOk result (λ told. carried n core.old state.old (joined_new core.old state.old current both locker.now above.now) ≡ (told, current, [], state.new, core.new)) }
    ensures leaves { OnOk result (Leaves 1 core.old core.new) }
    ensures quiet { OnOk result (IsQuiet core.old core.new) }
{
    let number = u64::from(drawn(core));
    let told = Told::State(stateid_of(core, number, FIRST_SEQID));
    count_both(alloc, state, both, locker, &told)?;
    let owner = opener_number(state, locker);
    enter(alloc, state, number, above, both.number, owner)?;
    Ok(told)
}

/// It is granted to an owner that has this stateid under the open.
fn join_more(
    alloc: Global,
    state: &mut NfsState,
    core: &Core,
    both: BothOwners,
    locker: &Opener,
    lock: &StateidRow,
) -> Result<Told, AllocError>
    requires owner { IsSome (find (is_owner both.number) state.old.owners) }
    requires client { IsSome (find (is_client locker.now.client true) state.old.clients) }
    requires there { find (is_stateid lock.now.number) state.old.stateids ≡ Some lock.now }
    requires open { lock.now.standing.closed ≡ false }
    ensures done { (n : ℕ) (current : Option ℕ) → IfOk result (λ told. carried n core.now state.old (joined_more core.now state.old current both locker.now lock.now) ≡ (told, current, [], state.new, core.now)) }
{
    let told = state_told(core, lock);
    stand(state, lock, SHARE_NONE, SHARE_NONE, false);
    count_both(alloc, state, both, locker, &told)?;
    Ok(told)
}

/// It is granted.
#[tactic(auto, using(xl_plan::proofs::BudgetLaws::leaves_self, xl_plan::proofs::BudgetLaws::leaves_more))]
fn join_granted(
    alloc: Global,
    state: &mut NfsState,
    core: &mut Core,
    both: BothOwners,
    locker: &Opener,
    above: &StateidRow,
    had: Option<StateidRow>,
) -> Result<Told, AllocError>
    requires owner { IsSome (find (is_owner both.number) state.old.owners) }
    requires client { IsSome (find (is_client locker.now.client true) state.old.clients) }
    requires had { IfSome had (λ lock. (find (is_stateid lock.number) state.old.stateids ≡ Some lock) × (lock.standing.closed ≡ false)) }
    requires ready { IsReady 0 core.old }
    ensures done { (n : ℕ) (current : Option ℕ) → IfOk result (λ told. carried n core.old state.old (joined_by core.old state.old current both locker.now above.now had) ≡ (told, current, [], state.new, core.new)) }
    ensures leaves { OnOk result (Leaves 1 core.old core.new) }
    ensures quiet { OnOk result (IsQuiet core.old core.new) }
{
    match had {
        Some(lock) => {
            let told = join_more(alloc, state, core, both, locker, &lock)?;
            Ok(told)
        }
        None => {
            let told = join_new(alloc, state, core, both, locker, above)?;
            Ok(told)
        }
    }
}

/// LOCK by the core's answer.
#[tactic(auto, using(crate::proofs::LockLaws::lock_told_fits, xl_plan::proofs::BudgetLaws::leaves_self, xl_plan::proofs::BudgetLaws::leaves_more, xl_plan::proofs::BudgetLaws::ready_less))]
fn join_answered(
    alloc: Global,
    state: &mut NfsState,
    core: &mut Core,
    on: &JoinOn,
    answer: Answer,
) -> Result<(Told, Option<u32>), AllocError>
    requires owner { IsSome (find (is_owner on.now.turn.both.number) state.old.owners) }
    requires client { IsSome (find (is_client on.now.locker.now.client true) state.old.clients) }
    requires had { IfSome on.now.had (λ lock. (find (is_stateid lock.number) state.old.stateids ≡ Some lock) × (lock.standing.closed ≡ false)) }
    requires ready { IsReady 2 core.old }
    ensures done { (n : ℕ) → IfOk result (λ r. carried n core.old state.old (join_answered state.old on.now.turn.asked.current on.now.turn.both on.now.locker.now on.now.turn.above on.now.had on.now.turn.asked.args.now.reclaim answer core.old) ≡ (r.0, r.1, [], state.new, core.new)) }
    ensures leaves { OnOk result (Leaves 2 core.old core.new) }
    ensures quiet { OnOk result (IsQuiet core.old core.new) }
{
    let (turn, current) = (&on.turn, on.turn.asked.current);
    if !is_granted(answer) {
        let told = lock_told(alloc, state, core, turn.asked.args.reclaim, answer)?;
        let ended = refuse_both(alloc, state, current, turn.both, on.locker, told)?;
        return Ok(ended);
    }
    let told = join_granted(
        alloc,
        state,
        core,
        turn.both,
        on.locker,
        &turn.above,
        on.had,
    )?;
    Ok((told, current))
}

/// LOCK of bytes: the core is asked.
#[tactic(auto, using(xl_nfs_opens::proofs::LeaveLaws::ask_ready, xl_nfs_opens::proofs::LeaveLaws::asked_leaves, xl_plan::proofs::BudgetLaws::may_before))]
fn join_bytes<K: Keeper>(
    alloc: Global,
    state: &mut NfsState,
    core: &mut Core,
    keeper: &mut K,
    on: &JoinOn,
    last: u64,
) -> Result<Done, AllocError>
    requires ready { IsReady 4 core.old }
    requires owner { IsSome (find (is_owner on.now.turn.both.number) state.old.owners) }
    requires client { IsSome (find (is_client on.now.locker.now.client true) state.old.clients) }
    requires had { IfSome on.now.had (λ lock. (find (is_stateid lock.number) state.old.stateids ≡ Some lock) × (lock.standing.closed ≡ false)) }
    requires room { is_room_for on.now.locker.now state.old ≡ true }
    requires ends { on.now.turn.asked.args.now.offset ≤ last }
    ensures done { (n : ℕ) → IfOk result (λ r. MayBe n core.new → carried n core.old state.old (join_to state.old on.now.turn.asked.current (shown_lock_args on.now.turn.asked.args.now) on.now.turn.both on.now.locker.now on.now.turn.above on.now.had (Ok last)) ≡ (r.0, r.1, r.2, state.new, core.new)) }
    ensures leaves { OnOk result (Leaves 4 core.old core.new) }
    ensures keeper { OnOk result (HandsTo K.held K.given K.faults K.left core.old core.new keeper.old keeper.new) }
{
    let (args, file) = (on.turn.asked.args, on.turn.above.file);
    let (kind, reclaim, offset) = (args.kind, args.reclaim, args.offset);
    let request = lock_ask(alloc, on.locker, file, kind, reclaim, offset, last)?;
    let (said, effects) = asked(alloc, core, keeper, request)?;
    let (told, handle) = join_answered(alloc, state, core, on, said)?;
    Ok((told, handle, effects))
}

/// LOCK, once both owners' seqids passed: its range, the open's access, and room for the lock owner.
#[tactic(auto, using(crate::proofs::LockLaws::end_fits, xl_plan::proofs::BudgetLaws::leaves_self, xl_plan::proofs::BudgetLaws::leaves_more))]
fn join_in<K: Keeper>(
    alloc: Global,
    state: &mut NfsState,
    core: &mut Core,
    keeper: &mut K,
    on: &JoinOn,
) -> Result<Done, AllocError>
    requires ready { IsReady 4 core.old }
    requires owner { IsSome (find (is_owner on.now.turn.both.number) state.old.owners) }
    requires client { IsSome (find (is_client on.now.locker.now.client true) state.old.clients) }
    requires had { IfSome on.now.had (λ lock. (find (is_stateid lock.number) state.old.stateids ≡ Some lock) × (lock.standing.closed ≡ false)) }
    ensures done { (n : ℕ) → IfOk result (λ r. MayBe n core.new → carried n core.old state.old (join_in state.old on.now.turn.asked.current (shown_lock_args on.now.turn.asked.args.now) on.now.turn.both on.now.locker.now on.now.turn.above on.now.had) ≡ (r.0, r.1, r.2, state.new, core.new)) }
    ensures leaves { OnOk result (Leaves 4 core.old core.new) }
    ensures keeper { OnOk result (HandsTo K.held K.given K.faults K.left core.old core.new keeper.old keeper.new) }
{
    let (turn, locker, args) = (&on.turn, on.locker, on.turn.asked.args);
    let (access, current) = (turn.above.standing.access, turn.asked.current);
    match lock_end(args.kind, access, args.offset, args.len) {
        Err(status) => {
            let told = Told::Ended(status);
            let ended = refuse_both(alloc, state, current, turn.both, locker, told)?;
            Ok(beside(alloc, ended))
        }
        Ok(_) if !is_room_for(state, locker) => {
            Ok(ended_as(alloc, NfsStatus::Resource, current))
        }
        Ok(last) => {
            let done = join_bytes(alloc, state, core, keeper, on, last)?;
            Ok(done)
        }
    }
}

/// Whether what the lock owner has on the file is under the open of this number.
fn fits_under(number: u64, had: Option<StateidRow>) -> bool
    ensures { result ≡ fits_under number had }
{
    match had {
        None => true,
        Some(
            StateidRow {
                holder: Holder::Lock { under, .. },
                ..
            },
        ) => number == under,
        Some(_) => false,
    }
}

/// What the lock owner's seqid says, by its row and by what it has on the file.
fn by_owner(above: &StateidRow, row: &OwnerRow, seqid: u32, had: Option<StateidRow>) -> Joined
    ensures value { result ≡ by_owner above.now row.now seqid had }
    ensures there { (l : NfsLists) → IfSome had (λ lock. (find (is_stateid lock.number) l.stateids ≡ Some lock) × (lock.standing.closed ≡ false)) → IsJoined l result }
{
    if !fits_under(above.number, had) {
        return Joined::Bad;
    }
    match verdict(Some(row.seqids), operation::LOCK, seqid) {
        SeqidVerdict::Repeat => Joined::Again(row.number),
        SeqidVerdict::Bad(_) => Joined::Bad,
        SeqidVerdict::New | SeqidVerdict::Next => Joined::Joins(had),
    }
}

/// What the lock owner's seqid says, and what it has under the open.
#[tactic(auto, unfolding(crate::specs::FirstLocks::found_joined))]
fn find_joined(state: &NfsState, above: &StateidRow, locker: &Opener, seqid: u32) -> Joined
    ensures value { result ≡ found_joined state.now above.now locker.now seqid }
    ensures there { IsJoined state.now result }
{
    match find_opener(state, locker) {
        Some(row) => by_owner(above, row, seqid, held_on(state, row.number, above.file)),
        None => Joined::Joins(None),
    }
}

/// The last LOCK of the lock owner of this number comes again: the open's owner counts with the result that was kept.
fn join_again(
    alloc: Global,
    state: &mut NfsState,
    current: Option<u32>,
    both: BothOwners,
    owner: u64,
) -> Result<Done, AllocError>
    requires owner { IsSome (find (is_owner both.number) state.old.owners) }
    ensures { (n : ℕ) (s : CoreState) → IfOk result (λ r. carried n s state.old (join_again state.old current both (find (is_kept owner) state.old.kept)) ≡ (r.0, r.1, r.2, state.new, s)) }
{
    let Some(bytes) = state.find_kept(owner) else {
        return Ok(ended_as(alloc, NfsStatus::BadSeqid, current));
    };
    let told = bytes.copy(alloc)?;
    let kept = bytes.copy(alloc)?;
    count_open(state, both, kept)?;
    Ok((Told::Kept(told), current, Sequence::new(alloc)))
}

/// LOCK by what the lock owner's seqid says.
#[tactic(auto, using(xl_plan::proofs::BudgetLaws::leaves_self, xl_plan::proofs::BudgetLaws::leaves_more))]
fn join_as<K: Keeper>(
    alloc: Global,
    state: &mut NfsState,
    core: &mut Core,
    keeper: &mut K,
    turn: &JoinTurn,
    locker: &Opener,
    joined: Joined,
) -> Result<Done, AllocError>
    requires ready { IsReady 4 core.old }
    requires owner { IsSome (find (is_owner turn.now.both.number) state.old.owners) }
    requires client { IsSome (find (is_client locker.now.client true) state.old.clients) }
    requires joined { IsJoined state.old joined }
    ensures done { (n : ℕ) → IfOk result (λ r. MayBe n core.new → carried n core.old state.old (join_as state.old turn.now.asked.current (shown_lock_args turn.now.asked.args.now) turn.now.both locker.now turn.now.above joined) ≡ (r.0, r.1, r.2, state.new, core.new)) }
    ensures leaves { OnOk result (Leaves 4 core.old core.new) }
    ensures keeper { OnOk result (HandsTo K.held K.given K.faults K.left core.old core.new keeper.old keeper.new) }
{
    let current = turn.asked.current;
    match joined {
        Joined::Bad => Ok(ended_as(alloc, NfsStatus::BadSeqid, current)),
        Joined::Again(owner) => {
            let done = join_again(alloc, state, current, turn.both, owner)?;
            Ok(done)
        }
        Joined::Joins(had) => {
            let turn = *turn;
            let on = JoinOn { turn, locker, had };
            join_in(alloc, state, core, keeper, &on)
        }
    }
}

/// The lock owner, if it is of the open's client.
fn locker_under(
    alloc: Global,
    above: &StateidRow,
    owner: &[u8],
    client: Option<&ClientRow>,
) -> Result<Option<Opener>, AllocError>
    ensures { IfOk result (λ locker. locker ≡ locker_under above.now owner.now (option_copied client.entry)) }
{
    match client {
        Some(row) if row.number == above.client => Ok(Some(locker_of(alloc, row, owner)?)),
        _ => Ok(None),
    }
}

/// It failed so, and counts with the open's owner if its status does.
fn fail_open(
    alloc: Global,
    state: &mut NfsState,
    turn: &JoinTurn,
    status: NfsStatus,
) -> Result<Done, AllocError>
    requires owner { IsSome (find (is_owner turn.now.both.number) state.old.owners) }
    requires fits { ToldFits op_lock (Told.Ended status) }
    ensures done { (n : ℕ) (s : CoreState) → IfOk result (λ r. carried n s state.old (open_failed state.old turn.now.asked.current turn.now.both status) ≡ (r.0, r.1, r.2, state.new, s)) }
{
    let both = turn.both;
    let found = Found {
        row: turn.above,
        owner: both.number,
        seqids: both.seqids,
    };
    let (op, current) = (operation::LOCK, turn.asked.current);
    let done = fail(alloc, state, current, &found, op, both.open_seqid, status)?;
    Ok(done)
}

/// LOCK by a lock owner of the open's client.
#[tactic(auto, using(crate::proofs::LockLaws::inval_fits, crate::proofs::FirstLaws::locker_there, xl_plan::proofs::BudgetLaws::leaves_self, xl_plan::proofs::BudgetLaws::leaves_more))]
fn join_of<K: Keeper>(
    alloc: Global,
    state: &mut NfsState,
    core: &mut Core,
    keeper: &mut K,
    turn: &JoinTurn,
) -> Result<Done, AllocError>
    requires ready { IsReady 4 core.old }
    requires owner { IsSome (find (is_owner turn.now.both.number) state.old.owners) }
    ensures done { (n : ℕ) → IfOk result (λ r. MayBe n core.new → carried n core.old state.old (join_of state.old turn.now.asked.current (shown_lock_args turn.now.asked.args.now) (shown_new_locker turn.now.asked.given.now) turn.now.both turn.now.above (locker_under turn.now.above turn.now.asked.given.now.owner.owner.now (client_in core.old state.old turn.now.asked.given.now.owner.clientid))) ≡ (r.0, r.1, r.2, state.new, core.new)) }
    ensures leaves { OnOk result (Leaves 4 core.old core.new) }
    ensures keeper { OnOk result (HandsTo K.held K.given K.faults K.left core.old core.new keeper.old keeper.new) }
{
    let (above, given) = (&turn.above, turn.asked.given);
    let client = client_in(state, core, given.owner.clientid);
    let Some(locker) = locker_under(alloc, above, given.owner.owner, client)? else {
        let done = fail_open(alloc, state, turn, NfsStatus::Inval)?;
        return Ok(done);
    };
    let joined = find_joined(state, above, &locker, given.lock_seqid);
    let done = join_as(alloc, state, core, keeper, turn, &locker, joined)?;
    Ok(done)
}

/// LOCK by the stateid of an open that was found.
#[tactic(auto, using(crate::proofs::LockLaws::standing_fits, xl_plan::proofs::BudgetLaws::leaves_self, xl_plan::proofs::BudgetLaws::leaves_more))]
fn join_passed<K: Keeper>(
    alloc: Global,
    state: &mut NfsState,
    core: &mut Core,
    keeper: &mut K,
    turn: &JoinTurn,
) -> Result<Done, AllocError>
    requires ready { IsReady 4 core.old }
    requires owner { IsSome (find (is_owner turn.now.both.number) state.old.owners) }
    ensures done { (n : ℕ) → IfOk result (λ r. MayBe n core.new → carried n core.old state.old (join_standing core.old state.old turn.now.asked.current (shown_lock_args turn.now.asked.args.now) (shown_new_locker turn.now.asked.given.now) turn.now.both turn.now.above (standing_fault turn.now.above turn.now.both.seqids turn.now.asked.given.now.open_stateid.seqid true)) ≡ (r.0, r.1, r.2, state.new, core.new)) }
    ensures leaves { OnOk result (Leaves 4 core.old core.new) }
    ensures keeper { OnOk result (HandsTo K.held K.given K.faults K.left core.old core.new keeper.old keeper.new) }
{
    let seqid = turn.asked.given.open_stateid.seqid;
    if let Some(status) = standing_fault(&turn.above, turn.both.seqids, seqid, true) {
        let done = fail_open(alloc, state, turn, status)?;
        return Ok(done);
    }
    let done = join_of(alloc, state, core, keeper, turn)?;
    Ok(done)
}

/// LOCK by what is found for the open's stateid.
#[tactic(auto, using(xl_plan::proofs::BudgetLaws::leaves_self, xl_plan::proofs::BudgetLaws::leaves_more))]
fn join_checked<K: Keeper>(
    alloc: Global,
    state: &mut NfsState,
    core: &mut Core,
    keeper: &mut K,
    asked: &NewLock,
    checked: Checked,
) -> Result<Done, AllocError>
    requires ready { IsReady 4 core.old }
    requires found { IsChecked state.old checked }
    ensures done { (n : ℕ) → IfOk result (λ r. MayBe n core.new → carried n core.old state.old (join_checked core.old state.old asked.now.current (shown_lock_args asked.now.args.now) (shown_new_locker asked.now.given.now) checked) ≡ (r.0, r.1, r.2, state.new, core.new)) }
    ensures leaves { OnOk result (Leaves 4 core.old core.new) }
    ensures keeper { OnOk result (HandsTo K.held K.given K.faults K.left core.old core.new keeper.old keeper.new) }
{
    match checked {
        Checked::Refused(status) => Ok(ended_as(alloc, status, asked.current)),
        Checked::Repeated(owner) => {
            let done = repeat(alloc, state, core, asked.current, owner)?;
            Ok(done)
        }
        Checked::Passed(above, number, seqids) => {
            let both = BothOwners {
                number,
                seqids,
                open_seqid: asked.given.open_seqid,
                lock_seqid: asked.given.lock_seqid,
            };
            let asked = *asked;
            let turn = JoinTurn { asked, both, above };
            join_passed(alloc, state, core, keeper, &turn)
        }
    }
}

/// LOCK, once the lease of the open's client is renewed.
#[tactic(auto, unfolding(crate::specs::FirstLocks::lock_named), using(xl_nfs_opens::proofs::CheckLaws::passed_there, xl_plan::proofs::BudgetLaws::leaves_then, xl_plan::proofs::BudgetLaws::ready_then))]
fn lock_named<K: Keeper>(
    alloc: Global,
    state: &mut NfsState,
    core: &mut Core,
    keeper: &mut K,
    current: Option<u32>,
    args: &LockArgs,
    given: &NewLocker,
) -> Result<Done, AllocError>
    requires ready { IsReady 4 core.old }
    ensures done { (n : ℕ) → IfOk result (λ r. MayBe n core.new → carried n core.old state.old (lock_named core.old state.old current (shown_lock_args args.now) (shown_new_locker given.now)) ≡ (r.0, r.1, r.2, state.new, core.new)) }
    ensures leaves { OnOk result (Leaves 4 core.old core.new) }
    ensures keeper { OnOk result (HandsTo K.held K.given K.faults K.left core.old core.new keeper.old keeper.new) }
{
    let client = number_in(core, given.owner.clientid);
    renew_for(alloc, state, core, client)?;
    let op = operation::LOCK;
    let (seqid, stateid) = (given.open_seqid, &given.open_stateid);
    let found = check(OwnerKind::Open, state, core, current, op, seqid, stateid);
    let asked = NewLock {
        current,
        args,
        given,
    };
    let done = join_checked(alloc, state, core, keeper, &asked, found)?;
    Ok(done)
}

/// LOCK under an open, which counts with its owner's seqid and with the lock owner's: the bytes of the range are the
/// lock owner's, in this mode. BAD_STATEID, OLD_STATEID, STALE_STATEID and BAD_SEQID by the open's stateid; INVAL if
/// the lock owner is of another client; BAD_SEQID by the lock owner's seqid, and if it has locks on the file under
/// another open; INVAL for a range of no bytes or past the last one, OPENMODE if the open's access doesn't allow it;
/// RESOURCE if there is no room for the owner or for the range; DENIED with a lock that stands against it.
#[tactic(auto, unfolding(crate::specs::FirstLocks::lock_new), using(xl_plan::proofs::BudgetLaws::leaves_then, xl_plan::proofs::BudgetLaws::ready_then))]
pub(crate) fn lock_new<K: Keeper>(
    alloc: Global,
    state: &mut NfsState,
    core: &mut Core,
    keeper: &mut K,
    current: Option<u32>,
    args: &LockArgs,
    given: &NewLocker,
) -> Result<Done, AllocError>
    requires ready { IsReady 4 core.old }
    ensures done { (n : ℕ) → IfOk result (λ r. MayBe n core.new → carried n core.old state.old (lock_new core.old state.old current (shown_lock_args args.now) (shown_new_locker given.now)) ≡ (r.0, r.1, r.2, state.new, core.new)) }
    ensures leaves { OnOk result (Leaves 4 core.old core.new) }
    ensures keeper { OnOk result (HandsTo K.held K.given K.faults K.left core.old core.new keeper.old keeper.new) }
{
    let client = state_client(state, core, &given.open_stateid);
    renew_for(alloc, state, core, client)?;
    let done = lock_named(alloc, state, core, keeper, current, args, given)?;
    Ok(done)
}
