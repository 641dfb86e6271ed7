//! Connections, sessions and tree connects.
ghost use Rattle.std.specs.Prelude.{◌≡◌, ℕ, ◌+◌, Some, is_some, IsSome, true, IfOk, OnOk};
ghost use Rattle.xl_smb.specs.Sessions.{shown_negotiate_call};
ghost use Rattle.xl_smb.specs.declared.command.Command.TheVariants as command;
ghost use Rattle.xl_smb_state.specs.State.{client_of, session_of, tree_of};
ghost use Rattle.xl_smb_state.specs.Links.{IsHolderLinked};
ghost use Rattle.xl_smb_state.specs.declared.row.Holder.TheVariants as holder;
ghost use Rattle.xl_core.specs.State.{CoreState};
ghost use Rattle.xl_plan.specs.Keepers.{IsQuiet};
ghost use Rattle.xl_front_smb.specs.Plans.{carried};
ghost use Rattle.xl_front_smb.specs.Replies.{IsAnswer};
ghost use Rattle.xl_front_smb.specs.Sessions.{negotiate, set_up_as, has_room_for_session, set_up, session_setup, logoff, connect_as, has_room_for_tree, connect, tree_connect, disconnect, tree_disconnect};
ghost use Rattle.xl_front_smb.specs.Short.{IsReady, Leaves};

use crate::checks::{is_fresh, session_named, tree_named};
use crate::ending::{end_session, end_under};
use crate::numbers::drawn;
use crate::outcome::{Done, failed, told};
use crate::texts::is_share;
use crate::told::Told;
use std::alloc::{AllocError, Global};
use xl_core::{Core, id_of};
use xl_smb::{NegotiateCall, SmbHead};
use xl_smb_locks::SmbStatus;
use xl_smb_state::{Connection, Place, Scope, Session, SmbState, Tree};

/// The number of SMB 2.1.
const DIALECT: u16 = 0x0210;

/// NEGOTIATE: the first time, with a dialect, of which one is SMB 2.1.
#[tactic(auto, unfolding(crate::specs::Sessions::negotiate), using(crate::proofs::PlanLaws::fresh_there, crate::proofs::PlanLaws::fresh_unnamed))]
pub(crate) fn negotiate(
    alloc: Global,
    state: &mut SmbState,
    conn: u64,
    call: &NegotiateCall,
) -> Done
    ensures done { (n : ℕ) (s : CoreState) → carried n s state.old (negotiate state.old conn (shown_negotiate_call call.now)) ≡ (result.0, result.1, state.new, s) }
    ensures answer { IsAnswer (Some command.Negotiate) result.0 }
{
    if !is_fresh(state.find_connection(conn)) || call.dialects.is_empty() {
        return failed(alloc, SmbStatus::InvalidParameter);
    }
    if !call.dialects.contains(DIALECT) {
        return failed(alloc, SmbStatus::NotSupported);
    }
    let client = Some(call.client_guid);
    state.change_connection(conn, Connection { client });
    told(alloc, Told::Negotiated)
}

/// Whether there is room for a session on the connection, and none has this number yet.
fn has_room_for_session(
    alloc: Global,
    state: &SmbState,
    conn: u64,
    number: u32,
) -> Result<bool, AllocError>
    ensures { IfOk result (λ room. room ≡ has_room_for_session state.now conn number) }
{
    let has_room = state.has_session_room(alloc, conn)?;
    Ok(has_room && state.find_session(number).is_none())
}

/// A new session.
#[tactic(auto, using(crate::proofs::PlanLaws::session_room, crate::proofs::PlanLaws::session_new))]
fn set_up_as(
    alloc: Global,
    state: &mut SmbState,
    core: &mut Core,
    conn: u64,
) -> Result<Done, AllocError>
    requires ready { IsReady 1 core.old }
    requires client { is_some (client_of conn state.old) ≡ true }
    requires room { has_room_for_session state.old conn (core.old.counter + 1) ≡ true }
    ensures done { (n : ℕ) → IfOk result (λ r. carried n core.old state.old (set_up_as core.old state.old conn (core.old.counter + 1)) ≡ (r.0, r.1, state.new, core.new)) }
    ensures leaves { OnOk result (Leaves 1 core.old core.new) }
    ensures quiet { OnOk result (IsQuiet core.old core.new) }
    ensures answer { IfOk result (λ r. IsAnswer (Some command.SessionSetup) r.0) }
{
    let number = drawn(core);
    state.add_session(number, Session { connection: conn })?;
    Ok(told(alloc, Told::SetUp(id_of(core, number))))
}

/// A new session, if there is room.
#[tactic(auto, using(xl_plan::proofs::BudgetLaws::leaves_self))]
fn set_up(
    alloc: Global,
    state: &mut SmbState,
    core: &mut Core,
    conn: u64,
) -> Result<Done, AllocError>
    requires ready { IsReady 1 core.old }
    requires client { is_some (client_of conn state.old) ≡ true }
    ensures done { (n : ℕ) → IfOk result (λ r. carried n core.old state.old (set_up core.old state.old conn) ≡ (r.0, r.1, state.new, core.new)) }
    ensures leaves { OnOk result (Leaves 1 core.old core.new) }
    ensures quiet { OnOk result (IsQuiet core.old core.new) }
    ensures answer { IfOk result (λ r. IsAnswer (Some command.SessionSetup) r.0) }
{
    if !has_room_for_session(alloc, state, conn, core.counter() + 1)? {
        return Ok(failed(alloc, SmbStatus::InsufficientResources));
    }
    let done = set_up_as(alloc, state, core, conn)?;
    Ok(done)
}

/// SESSION_SETUP: a new session, or one that is there already.
#[tactic(auto, unfolding(crate::specs::Sessions::session_setup), using(xl_plan::proofs::BudgetLaws::leaves_self))]
pub(crate) fn session_setup(
    alloc: Global,
    state: &mut SmbState,
    core: &mut Core,
    conn: u64,
    head: &SmbHead,
) -> Result<Done, AllocError>
    requires ready { IsReady 1 core.old }
    requires client { is_some (client_of conn state.old) ≡ true }
    ensures done { (n : ℕ) → IfOk result (λ r. carried n core.old state.old (session_setup core.old state.old conn head.now) ≡ (r.0, r.1, state.new, core.new)) }
    ensures leaves { OnOk result (Leaves 1 core.old core.new) }
    ensures quiet { OnOk result (IsQuiet core.old core.new) }
    ensures answer { IfOk result (λ r. IsAnswer (Some command.SessionSetup) r.0) }
{
    if head.session_id == 0 {
        let done = set_up(alloc, state, core, conn)?;
        return Ok(done);
    }
    match session_named(core, state, conn, head.session_id) {
        Some(_) => Ok(told(alloc, Told::SetUp(head.session_id))),
        None => Ok(failed(alloc, SmbStatus::UserSessionDeleted)),
    }
}

/// LOGOFF: the opens under the session end, and it goes with its tree connects.
#[tactic(auto, unfolding(crate::specs::Sessions::logoff), using(xl_plan::proofs::BudgetLaws::leaves_self, crate::proofs::EndLaws::ended_told, crate::proofs::EndLaws::ended_done, crate::proofs::EndLaws::session_left))]
pub(crate) fn logoff(
    alloc: Global,
    state: &mut SmbState,
    core: &mut Core,
    conn: u64,
    head: &SmbHead,
) -> Result<Done, AllocError>
    requires ready { IsReady 0 core.old }
    ensures done { (n : ℕ) → IfOk result (λ r. carried n core.old state.old (logoff core.old state.old conn head.now) ≡ (r.0, r.1, state.new, core.new)) }
    ensures leaves { OnOk result (Leaves 0 core.old core.new) }
    ensures quiet { OnOk result (IsQuiet core.old core.new) }
    ensures answer { IfOk result (λ r. IsAnswer (Some command.Logoff) r.0) }
{
    let Some(session) = session_named(core, state, conn, head.session_id) else {
        return Ok(failed(alloc, SmbStatus::UserSessionDeleted));
    };
    let effects = end_under(alloc, state, core, Scope::Session(session))?;
    end_session(alloc, state, session)?;
    Ok((Told::LoggedOff, effects))
}

/// Whether there is room for a tree connect on the connection, and none has this number yet.
fn has_room_for_tree(
    alloc: Global,
    state: &SmbState,
    conn: u64,
    number: u32,
) -> Result<bool, AllocError>
    ensures { IfOk result (λ room. room ≡ has_room_for_tree state.now conn number) }
{
    let has_room = state.has_tree_room(alloc, conn)?;
    Ok(has_room && state.find_tree(number).is_none())
}

/// A new tree connect of a session.
#[tactic(auto, using(crate::proofs::PlanLaws::tree_room, crate::proofs::PlanLaws::tree_new))]
fn connect_as(
    alloc: Global,
    state: &mut SmbState,
    core: &mut Core,
    conn: u64,
    session: u32,
) -> Result<Done, AllocError>
    requires ready { IsReady 1 core.old }
    requires session { session_of session state.old ≡ Some (record { connection = conn }) }
    requires room { has_room_for_tree state.old conn (core.old.counter + 1) ≡ true }
    ensures done { (n : ℕ) → IfOk result (λ r. carried n core.old state.old (connect_as state.old conn session (core.old.counter + 1)) ≡ (r.0, r.1, state.new, core.new)) }
    ensures leaves { OnOk result (Leaves 1 core.old core.new) }
    ensures quiet { OnOk result (IsQuiet core.old core.new) }
    ensures answer { IfOk result (λ r. IsAnswer (Some command.TreeConnect) r.0) }
{
    let number = drawn(core);
    let row = Tree {
        connection: conn,
        session,
    };
    state.add_tree(number, row)?;
    Ok(told(alloc, Told::Connected(number)))
}

/// A new tree connect of a session, if there is room and the path is that of the share.
#[tactic(auto, using(xl_plan::proofs::BudgetLaws::leaves_self))]
fn connect(
    alloc: Global,
    state: &mut SmbState,
    core: &mut Core,
    conn: u64,
    path: &[u8],
    session: u32,
) -> Result<Done, AllocError>
    requires ready { IsReady 1 core.old }
    requires session { session_of session state.old ≡ Some (record { connection = conn }) }
    ensures done { (n : ℕ) → IfOk result (λ r. carried n core.old state.old (connect core.old state.old conn path.now session) ≡ (r.0, r.1, state.new, core.new)) }
    ensures leaves { OnOk result (Leaves 1 core.old core.new) }
    ensures quiet { OnOk result (IsQuiet core.old core.new) }
    ensures answer { IfOk result (λ r. IsAnswer (Some command.TreeConnect) r.0) }
{
    if !has_room_for_tree(alloc, state, conn, core.counter() + 1)? {
        return Ok(failed(alloc, SmbStatus::InsufficientResources));
    }
    if !is_share(path) {
        return Ok(failed(alloc, SmbStatus::BadNetworkName));
    }
    let done = connect_as(alloc, state, core, conn, session)?;
    Ok(done)
}

/// TREE_CONNECT: in a session, to the one share.
#[tactic(auto, unfolding(crate::specs::Sessions::tree_connect), using(xl_plan::proofs::BudgetLaws::leaves_self))]
pub(crate) fn tree_connect(
    alloc: Global,
    state: &mut SmbState,
    core: &mut Core,
    conn: u64,
    head: &SmbHead,
    path: &[u8],
) -> Result<Done, AllocError>
    requires ready { IsReady 1 core.old }
    ensures done { (n : ℕ) → IfOk result (λ r. carried n core.old state.old (tree_connect core.old state.old conn head.now path.now) ≡ (r.0, r.1, state.new, core.new)) }
    ensures leaves { OnOk result (Leaves 1 core.old core.new) }
    ensures quiet { OnOk result (IsQuiet core.old core.new) }
    ensures answer { IfOk result (λ r. IsAnswer (Some command.TreeConnect) r.0) }
{
    let Some(session) = session_named(core, state, conn, head.session_id) else {
        return Ok(failed(alloc, SmbStatus::UserSessionDeleted));
    };
    let done = connect(alloc, state, core, conn, path, session)?;
    Ok(done)
}

/// The opens under a tree connect end, and it goes.
#[tactic(auto, using(crate::proofs::EndLaws::ended_told, crate::proofs::EndLaws::ended_done, crate::proofs::EndLaws::tree_left))]
fn disconnect(
    alloc: Global,
    state: &mut SmbState,
    core: &mut Core,
    place: &Place,
) -> Result<Done, AllocError>
    requires ready { IsReady 0 core.old }
    requires there { IsSome (tree_of place.now.tree state.old) }
    ensures done { (n : ℕ) → IfOk result (λ r. carried n core.old state.old (disconnect core.old state.old place.now) ≡ (r.0, r.1, state.new, core.new)) }
    ensures leaves { OnOk result (Leaves 0 core.old core.new) }
    ensures quiet { OnOk result (IsQuiet core.old core.new) }
    ensures answer { IfOk result (λ r. IsAnswer (Some command.TreeDisconnect) r.0) }
{
    let effects = end_under(alloc, state, core, Scope::Tree(place.tree))?;
    state.drop_tree(place.tree);
    Ok((Told::Disconnected, effects))
}

/// TREE_DISCONNECT: in a session, on a tree connect of it.
#[tactic(auto, unfolding(crate::specs::Sessions::tree_disconnect), using(xl_plan::proofs::BudgetLaws::leaves_self))]
pub(crate) fn tree_disconnect(
    alloc: Global,
    state: &mut SmbState,
    core: &mut Core,
    conn: u64,
    client: &[u8; 16],
    head: &SmbHead,
) -> Result<Done, AllocError>
    requires ready { IsReady 0 core.old }
    ensures done { (n : ℕ) → IfOk result (λ r. carried n core.old state.old (tree_disconnect core.old state.old conn client.now head.now) ≡ (r.0, r.1, state.new, core.new)) }
    ensures leaves { OnOk result (Leaves 0 core.old core.new) }
    ensures quiet { OnOk result (IsQuiet core.old core.new) }
    ensures answer { IfOk result (λ r. IsAnswer (Some command.TreeDisconnect) r.0) }
{
    let Some(session) = session_named(core, state, conn, head.session_id) else {
        return Ok(failed(alloc, SmbStatus::UserSessionDeleted));
    };
    let Some(place) = tree_named(state, conn, client, head, session) else {
        return Ok(failed(alloc, SmbStatus::NetworkNameDeleted));
    };
    let done = disconnect(alloc, state, core, &place)?;
    Ok(done)
}
