//! CREATE.
ghost use Rattle.std.specs.Prelude.{◌≡◌, ℕ, ◌+◌, ◌<◌, true, Some, None, length, IfOk, OnOk};
ghost use Rattle.xl_plan.specs.Keepers.{HandsTo};
ghost use Rattle.xl_smb.specs.Creates.{shown_create_call};
ghost use Rattle.xl_smb.specs.declared.command.Command.TheVariants as command;
ghost use Rattle.xl_smb_state.specs.Links.{most_opens, IsHolderLinked, IsOpenLinked};
ghost use Rattle.xl_smb_state.specs.State.{open_of, with_open};
ghost use Rattle.xl_smb_state.specs.declared.row.Holder.TheVariants as holder;
ghost use Rattle.xl_core.specs.State.{MayBe};
ghost use Rattle.xl_smb_locks.specs.Levels.{caching};
ghost use Rattle.xl_front_smb.specs.Files.{access_of, deny_of, lease_asked, key_asked, choices_by, open_ask, open_row, all_opens, has_room_for_open, rooms_left, open_as, is_key_elsewhere, lease_key, overwrites, create_on, create};
ghost use Rattle.xl_front_smb.specs.Checks.{checked};
ghost use Rattle.xl_front_smb.specs.Plans.{told_by, lists_by, carried};
ghost use Rattle.xl_front_smb.specs.Replies.{IsAnswer};
ghost use Rattle.xl_front_smb.specs.Short.{IsOpenAsk, IsReady, Leaves};

use crate::arrival::{Arrival, Target};
use crate::checks::{session_named, tree_named};
use crate::locks::{keep_waiting, waiting_row};
use crate::numbers::drawn;
use crate::outcome::{Done, failed};
use crate::texts::file_spelled;
use crate::told::Told;
use std::alloc::{AllocError, Global};
use xl_base::{Keeper, Sequence};
use xl_cache::{CacheKind, wish_of_lease, wish_of_oplock};
use xl_core::{Act, Ask, Core, Who, id_of};
use xl_matrix::Rwd;
use xl_smb::{CreateCall, Lease};
use xl_smb_locks::{Locking, SmbStatus, asked, caching_of, comes_to, party_for};
use xl_smb_state::{Holder, LeaseKey, OPENS, Open, Place, Request, SmbState, Waiting};
use xl_wait::Rooms;

/// GENERIC_ALL and MAXIMUM_ALLOWED (MS-SMB2 2.2.13.1.1).
const ALL: u32 = 0x1000_0000 + 0x0200_0000;
/// FILE_READ_DATA, FILE_EXECUTE, GENERIC_READ and GENERIC_EXECUTE are for reading.
const READ: u32 = 0x1 + 0x20 + 0x8000_0000 + 0x2000_0000 + ALL;
/// FILE_WRITE_DATA, FILE_APPEND_DATA and GENERIC_WRITE are for writing.
const WRITE: u32 = 0x2 + 0x4 + 0x4000_0000 + ALL;
/// DELETE is for deletion.
const DELETE: u32 = 0x1_0000 + ALL;

/// SMB2_OPLOCK_LEVEL_LEASE, by which a lease is asked for (MS-SMB2 2.2.13).
pub(crate) const LEASE_LEVEL: u8 = 0xFF;

/// CreateDisposition (MS-SMB2 2.2.13).
const FILE_SUPERSEDE: u32 = 0;

const FILE_CREATE: u32 = 2;

const FILE_OVERWRITE: u32 = 4;

const FILE_OVERWRITE_IF: u32 = 5;

/// What an open is for, by the access that is asked for.
fn access_of(desired: u32) -> Rwd
    ensures { result ≡ access_of desired }
{
    Rwd {
        r: desired & READ != 0,
        w: desired & WRITE != 0,
        d: desired & DELETE != 0,
    }
}

/// What an open denies: what it doesn't share, but nothing if it is for none of the three.
#[tactic(auto, unfolding(crate::specs::Files::deny_of))]
fn deny_of(access: Rwd, share: u32) -> Rwd
    ensures { result ≡ deny_of access share }
{
    if !(access.r || access.w || access.d) {
        return Rwd {
            r: false,
            w: false,
            d: false,
        };
    }
    Rwd {
        r: share & 1 == 0,
        w: share & 2 == 0,
        d: share & 4 == 0,
    }
}

/// The lease that is asked for, if one is.
fn lease_asked(call: &CreateCall) -> Option<Lease>
    ensures { result ≡ lease_asked (shown_create_call call.now) }
{
    if call.oplock_level == LEASE_LEVEL {
        call.contexts.lease()
    } else {
        None
    }
}

/// The key of that lease.
fn key_asked(call: &CreateCall) -> Option<[u8; 16]>
    ensures { result ≡ key_asked (shown_create_call call.now) }
{
    match lease_asked(call) {
        Some(lease) => Some(lease.key),
        None => None,
    }
}

/// The caches that are wished for.
fn choices_by(
    alloc: Global,
    level: u8,
    lease: Option<Lease>,
) -> Result<Sequence<CacheKind>, AllocError>
    ensures { IfOk result (λ kinds. kinds ≡ choices_by level lease) }
{
    match lease {
        Some(lease) => Ok(wish_of_lease(alloc, lease.state)?),
        None => Ok(wish_of_oplock(alloc, level)?),
    }
}

/// What the core is asked for an open.
#[tactic(auto, unfolding(crate::specs::Files::open_ask), using(crate::proofs::AskLaws::asks_open))]
fn open_ask(
    alloc: Global,
    conn: u64,
    number: u32,
    row: &Open,
    call: &CreateCall,
) -> Result<Ask, AllocError>
    requires { row.now.lease ≡ key_asked (shown_create_call call.now) }
    ensures value { IfOk result (λ ask. ask ≡ open_ask conn number row.now (shown_create_call call.now)) }
    ensures open { IfOk result (λ ask. IsOpenAsk ask) }
{
    let access = access_of(call.desired_access);
    let deny = deny_of(access, call.share_access);
    let wish = choices_by(alloc, call.oplock_level, lease_asked(call))?;
    Ok(Ask {
        file: row.file,
        owner: Who::Open(number),
        party: party_for(number, row),
        act: Act::Share(access, deny),
        wish,
        conn: Some(conn),
        blocking: false,
        awaits: true,
        reclaim: false,
        monitored: false,
        mark: None,
        rows: Rooms {
            hosts: 0,
            owners: 0,
            opens: 1,
        },
    })
}

/// The open of this file, held by the tree connect at this place, and under the lease that is asked for.
fn open_row(file: u32, client: &[u8; 16], place: &Place, call: &CreateCall) -> Open
    ensures { result ≡ open_row file client.now place.now (shown_create_call call.now) }
{
    Open {
        file,
        client: *client,
        lease: key_asked(call),
        durable: false,
        holder: Holder::Tree(*place),
    }
}

/// How many opens there are, with those of the other fronts.
fn all_opens(state: &SmbState, others: u32) -> u64
    ensures { result ≡ all_opens others state.now }
{
    state.links();
    u64::from(others) + state.count_opens() as u64
}

/// The room for opens that is left.
fn rooms_left(state: &SmbState, others: u32) -> Rooms
    requires { all_opens others state.now < most_opens }
    ensures { result ≡ rooms_left others state.now }
{
    Rooms {
        hosts: 0,
        owners: 0,
        opens: (OPENS as u64 - all_opens(state, others)) as u32,
    }
}

/// What an open is answered whose ask comes to this, with what it has of caches once it is done.
fn opened_told(
    alloc: Global,
    core: &Core,
    number: u32,
    row: &Open,
    id: u64,
    locking: Locking,
) -> Result<Told, AllocError>
    ensures told { IfOk result (λ told. told ≡ told_by (Told.Opened id (caching core.now number row.now)) locking) }
    ensures answer { IfOk result (λ told. IsAnswer (Some command.Create) told) }
{
    match locking {
        Locking::Done => {
            let cache = caching_of(alloc, core, number, row)?;
            Ok(Told::Opened(id, cache))
        }
        Locking::Failed(status) => Ok(Told::Failed(status)),
        Locking::Waits(waiter) => Ok(Told::Pending(waiter)),
    }
}

/// An open whose ask comes to this: once it is done it is under its number, and if it waits the request is kept.
fn keep_open(
    alloc: Global,
    state: &mut SmbState,
    number: u32,
    row: Open,
    waiting: Waiting,
    locking: Locking,
) -> Result<(), AllocError>
    requires room { length state.old.opens < most_opens }
    requires new { open_of number state.old ≡ None }
    requires linked { IsOpenLinked state.old row }
    ensures { OnOk result (state.new ≡ lists_by (with_open number row state.old) waiting state.old locking) }
{
    match locking {
        Locking::Done => {
            state.open(alloc, number, row)?;
            Ok(())
        }
        Locking::Failed(_) => Ok(()),
        Locking::Waits(waiter) => {
            keep_waiting(state, waiter, waiting)?;
            Ok(())
        }
    }
}

/// Opens a file under the next number.
#[tactic(auto, using(xl_smb_locks::proofs::LeaveLaws::ready_drawn, xl_smb_locks::proofs::LeaveLaws::drawn_then, crate::proofs::PlanLaws::open_room, crate::proofs::PlanLaws::open_within, crate::proofs::PlanLaws::open_new))]
fn open_as<K: Keeper>(
    alloc: Global,
    state: &mut SmbState,
    core: &mut Core,
    keeper: &mut K,
    arrival: &Arrival<'_>,
    target: &Target,
    call: &CreateCall,
) -> Result<Done, AllocError>
    requires ready { IsReady 3 core.old }
    requires room { has_room_for_open arrival.now.others state.old (core.old.counter + 1) ≡ true }
    requires linked { IsHolderLinked state.old target.now.client (holder.Tree target.now.place) }
    ensures done { (n : ℕ) → IfOk result (λ r. MayBe n core.new → carried n core.old state.old (open_as core.old arrival.now.others state.old arrival.now.head.now target.now.client target.now.place (shown_create_call call.now) target.now.file (core.old.counter + 1)) ≡ (r.0, r.1, state.new, core.new)) }
    ensures leaves { OnOk result (Leaves 3 core.old core.new) }
    ensures answer { IfOk result (λ r. IsAnswer (Some command.Create) r.0) }
    ensures keeper { OnOk result (HandsTo K.held K.given K.faults K.left core.old core.new keeper.old keeper.new) }
{
    let left = rooms_left(state, arrival.others);
    let number = drawn(core);
    let id = id_of(core, number);
    let row = open_row(target.file, &target.client, &target.place, call);
    let ask = open_ask(alloc, target.place.connection, number, &row, call)?;
    let (answer, effects) = asked(alloc, core, keeper, &left, ask)?;
    let locking = comes_to(SmbStatus::SharingViolation, &answer);
    let told = opened_told(alloc, core, number, &row, id, locking)?;
    let waiting = waiting_row(
        alloc,
        arrival.head,
        target.place,
        number,
        Request::Create(row),
    );
    keep_open(alloc, state, number, row, waiting, locking)?;
    Ok((told, effects))
}

/// Whether there is room for an open, and none has this number yet.
fn has_room(state: &SmbState, others: u32, number: u32) -> bool
    ensures { result ≡ has_room_for_open others state.now number }
{
    all_opens(state, others) < OPENS as u64 && state.find_open(number).is_none()
}

/// The key of the lease that a client asks for, if it does.
fn lease_key(client: &[u8; 16], asked: Option<[u8; 16]>) -> Option<LeaseKey>
    ensures { result ≡ lease_key client.now asked }
{
    match asked {
        Some(key) => Some(LeaseKey {
            client: *client,
            key,
        }),
        None => None,
    }
}

/// Whether a lease's key is in use on another file.
fn is_key_elsewhere(state: &SmbState, file: u32, key: Option<LeaseKey>) -> bool
    ensures { result ≡ is_key_elsewhere file key state.now }
{
    match key {
        Some(key) => match state.key_file(&key) {
            Some(used) => used != file,
            None => false,
        },
        None => false,
    }
}

/// Whether a disposition would change what the file holds.
fn overwrites(disposition: u32) -> bool
    ensures { result ≡ overwrites disposition }
{
    disposition == FILE_SUPERSEDE
        || disposition == FILE_OVERWRITE
        || disposition == FILE_OVERWRITE_IF
}

/// The file that a CREATE opens, or why it is refused (MS-SMB2 3.3.5.9).
fn file_named(
    core: &Core,
    state: &SmbState,
    arrival: &Arrival<'_>,
    client: &[u8; 16],
    call: &CreateCall,
) -> Result<u32, SmbStatus>
    requires ready { IsReady 3 core.now }
    ensures checked { (place : Place) → create_on core.now arrival.now.files.now arrival.now.others state.now arrival.now.head.now client.now (shown_create_call call.now) place ≡ checked result (λ file. open_as core.now arrival.now.others state.now arrival.now.head.now client.now place (shown_create_call call.now) file (core.now.counter + 1)) }
    ensures room { IfOk result (λ file. has_room_for_open arrival.now.others state.now (core.now.counter + 1) ≡ true) }
{
    if call.disposition > FILE_OVERWRITE_IF {
        return Err(SmbStatus::InvalidParameter);
    }
    if overwrites(call.disposition) {
        return Err(SmbStatus::NotSupported);
    }
    let Some(file) = file_spelled(arrival.files, call.name) else {
        return Err(SmbStatus::ObjectNameNotFound);
    };
    if call.disposition == FILE_CREATE {
        return Err(SmbStatus::ObjectNameCollision);
    }
    if is_key_elsewhere(state, file, lease_key(client, key_asked(call))) {
        return Err(SmbStatus::InvalidParameter);
    }
    if !has_room(state, arrival.others, core.counter() + 1) {
        return Err(SmbStatus::InsufficientResources);
    }
    Ok(file)
}

/// What a CREATE opens, in a session and on a tree connect of it, or why it is refused.
#[tactic(auto, unfolding(crate::specs::Files::create))]
fn target_of(
    core: &Core,
    state: &SmbState,
    arrival: &Arrival<'_>,
    client: &[u8; 16],
    call: &CreateCall,
) -> Result<Target, SmbStatus>
    requires ready { IsReady 3 core.now }
    ensures checked { create core.now arrival.now.files.now arrival.now.others state.now arrival.now.conn client.now arrival.now.head.now (shown_create_call call.now) ≡ checked result (λ t. open_as core.now arrival.now.others state.now arrival.now.head.now t.client t.place (shown_create_call call.now) t.file (core.now.counter + 1)) }
    ensures linked { IfOk result (λ t. IsHolderLinked state.now t.client (holder.Tree t.place)) }
    ensures room { IfOk result (λ t. has_room_for_open arrival.now.others state.now (core.now.counter + 1) ≡ true) }
{
    let Some(session) = session_named(core, state, arrival.conn, arrival.head.session_id) else {
        return Err(SmbStatus::UserSessionDeleted);
    };
    let Some(place) = tree_named(state, arrival.conn, client, arrival.head, session) else {
        return Err(SmbStatus::NetworkNameDeleted);
    };
    match file_named(core, state, arrival, client, call) {
        Ok(file) => Ok(Target {
            client: *client,
            place,
            file,
        }),
        Err(status) => Err(status),
    }
}

/// CREATE (MS-SMB2 3.3.5.9).
#[tactic(auto, using(xl_plan::proofs::BudgetLaws::leaves_self))]
pub(crate) fn create<K: Keeper>(
    alloc: Global,
    state: &mut SmbState,
    core: &mut Core,
    keeper: &mut K,
    arrival: &Arrival<'_>,
    client: &[u8; 16],
    call: &CreateCall,
) -> Result<Done, AllocError>
    requires ready { IsReady 3 core.old }
    ensures done { (n : ℕ) → IfOk result (λ r. MayBe n core.new → carried n core.old state.old (create core.old arrival.now.files.now arrival.now.others state.old arrival.now.conn client.now arrival.now.head.now (shown_create_call call.now)) ≡ (r.0, r.1, state.new, core.new)) }
    ensures leaves { OnOk result (Leaves 3 core.old core.new) }
    ensures answer { IfOk result (λ r. IsAnswer (Some command.Create) r.0) }
    ensures keeper { OnOk result (HandsTo K.held K.given K.faults K.left core.old core.new keeper.old keeper.new) }
{
    match target_of(core, state, arrival, client, call) {
        Ok(target) => Ok(open_as(alloc, state, core, keeper, arrival, &target, call)?),
        Err(status) => Ok(failed(alloc, status)),
    }
}
