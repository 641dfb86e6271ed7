//! A request, by its command.
ghost use Rattle.std.specs.Prelude.{◌≡◌, ℕ, Some, Ok, IfOk, OnOk};
ghost use Rattle.xl_plan.specs.Keepers.{HandsTo};
ghost use Rattle.xl_smb.specs.Calls.{shown_call, command_of_call};
ghost use Rattle.xl_smb.specs.Heads.{command_of, head_of};
ghost use Rattle.xl_smb_state.specs.State.{client_of};
ghost use Rattle.xl_core.specs.State.{MayBe};
ghost use Rattle.xl_front_smb.specs.Checks.{negotiated_by};
ghost use Rattle.xl_front_smb.specs.Plans.{carried};
ghost use Rattle.xl_front_smb.specs.Replies.{IsAnswer};
ghost use Rattle.xl_front_smb.specs.Requests.{commanded, planned, requested};
ghost use Rattle.xl_front_smb.specs.Short.{IsReady, Leaves};

use crate::arrival::Arrival;
use crate::checks::client_on;
use crate::creates::create;
use crate::files::{acknowledge, close};
use crate::locks::{cancel, lock};
use crate::outcome::{Done, failed, told};
use crate::sessions::{logoff, negotiate, session_setup, tree_connect, tree_disconnect};
use crate::told::Told;
use std::alloc::{AllocError, Global};
use xl_base::Keeper;
use xl_core::Core;
use xl_smb::{Command, SmbCall, SmbMessage, read};
use xl_smb_locks::SmbStatus;
use xl_smb_state::SmbState;

/// What a request of a client that has negotiated comes to.
#[tactic(auto, unfolding(crate::specs::Requests::commanded), using(xl_plan::proofs::BudgetLaws::leaves_self, xl_plan::proofs::BudgetLaws::leaves_more, xl_plan::proofs::BudgetLaws::ready_less))]
fn commanded<K: Keeper>(
    alloc: Global,
    state: &mut SmbState,
    core: &mut Core,
    keeper: &mut K,
    arrival: &Arrival<'_>,
    client: &[u8; 16],
    call: &SmbCall,
) -> Result<Done, AllocError>
    requires ready { IsReady 3 core.old }
    requires client { client_of arrival.now.conn state.old ≡ Some client.now }
    ensures done { (n : ℕ) → IfOk result (λ r. MayBe n core.new → carried n core.old state.old (commanded core.old arrival.now.files.now arrival.now.others state.old arrival.now.conn arrival.now.head.now (shown_call call.now) client.now) ≡ (r.0, r.1, state.new, core.new)) }
    ensures leaves { OnOk result (Leaves 3 core.old core.new) }
    ensures answer { IfOk result (λ r. IsAnswer (command_of_call (shown_call call.now)) r.0) }
    ensures keeper { OnOk result (HandsTo K.held K.given K.faults K.left core.old core.new keeper.old keeper.new) }
{
    let conn = arrival.conn;
    let head = arrival.head;
    match call {
        SmbCall::SessionSetup(_) => Ok(session_setup(alloc, state, core, conn, head)?),
        SmbCall::Logoff => Ok(logoff(alloc, state, core, conn, head)?),
        SmbCall::TreeConnect(path) => Ok(tree_connect(alloc, state, core, conn, head, path)?),
        SmbCall::TreeDisconnect => Ok(tree_disconnect(alloc, state, core, conn, client, head)?),
        SmbCall::Create(args) => Ok(create(alloc, state, core, keeper, arrival, client, args)?),
        SmbCall::Close(args) => { Ok(close(alloc, state, core, conn, client, head, args.file_id)?) }
        SmbCall::Lock(args) => Ok(lock(alloc, state, core, keeper, arrival, client, args)?),
        SmbCall::Cancel => Ok(cancel(alloc, state, core, conn, head)?),
        SmbCall::Echo => Ok(told(alloc, Told::Echoed)),
        SmbCall::OplockBreak(held) => Ok(acknowledge(
            alloc, state, core, conn, client, head, *held,
        )?),
        SmbCall::Negotiate(_) => Ok(failed(alloc, SmbStatus::InvalidParameter)),
        SmbCall::Other => Ok(failed(alloc, SmbStatus::NotSupported)),
    }
}

/// What a request comes to, other than NEGOTIATE.
#[tactic(auto, using(xl_plan::proofs::BudgetLaws::leaves_self))]
fn once_negotiated<K: Keeper>(
    alloc: Global,
    state: &mut SmbState,
    core: &mut Core,
    keeper: &mut K,
    arrival: &Arrival<'_>,
    call: &SmbCall,
) -> Result<Done, AllocError>
    requires ready { IsReady 3 core.old }
    ensures done { (n : ℕ) → IfOk result (λ r. MayBe n core.new → carried n core.old state.old (negotiated_by (commanded core.old arrival.now.files.now arrival.now.others state.old arrival.now.conn arrival.now.head.now (shown_call call.now)) (client_of arrival.now.conn state.old)) ≡ (r.0, r.1, state.new, core.new)) }
    ensures leaves { OnOk result (Leaves 3 core.old core.new) }
    ensures answer { IfOk result (λ r. IsAnswer (command_of_call (shown_call call.now)) r.0) }
    ensures keeper { OnOk result (HandsTo K.held K.given K.faults K.left core.old core.new keeper.old keeper.new) }
{
    match client_on(state, arrival.conn) {
        Some(client) => Ok(commanded(alloc, state, core, keeper, arrival, &client, call)?),
        None => Ok(failed(alloc, SmbStatus::InvalidParameter)),
    }
}

/// What a request comes to.
#[tactic(auto, unfolding(crate::specs::Requests::planned), using(xl_plan::proofs::BudgetLaws::leaves_self))]
fn planned<K: Keeper>(
    alloc: Global,
    state: &mut SmbState,
    core: &mut Core,
    keeper: &mut K,
    arrival: &Arrival<'_>,
    call: &SmbCall,
) -> Result<Done, AllocError>
    requires ready { IsReady 3 core.old }
    ensures done { (n : ℕ) → IfOk result (λ r. MayBe n core.new → carried n core.old state.old (planned core.old arrival.now.files.now arrival.now.others state.old arrival.now.conn arrival.now.head.now (shown_call call.now)) ≡ (r.0, r.1, state.new, core.new)) }
    ensures leaves { OnOk result (Leaves 3 core.old core.new) }
    ensures answer { IfOk result (λ r. IsAnswer (command_of_call (shown_call call.now)) r.0) }
    ensures keeper { OnOk result (HandsTo K.held K.given K.faults K.left core.old core.new keeper.old keeper.new) }
{
    match call {
        SmbCall::Negotiate(args) => Ok(negotiate(alloc, state, arrival.conn, args)),
        SmbCall::SessionSetup(_)
        | SmbCall::Logoff
        | SmbCall::TreeConnect(_)
        | SmbCall::TreeDisconnect
        | SmbCall::Create(_)
        | SmbCall::Close(_)
        | SmbCall::Lock(_)
        | SmbCall::Cancel
        | SmbCall::Echo
        | SmbCall::OplockBreak(_)
        | SmbCall::Other => Ok(once_negotiated(alloc, state, core, keeper, arrival, call)?),
    }
}

/// What a request of this header comes to.
#[tactic(auto, unfolding(crate::specs::Requests::requested), using(xl_plan::proofs::BudgetLaws::leaves_self, crate::proofs::ReplyLaws::answers_head))]
pub(crate) fn requested<K: Keeper>(
    alloc: Global,
    state: &mut SmbState,
    core: &mut Core,
    keeper: &mut K,
    arrival: &Arrival<'_>,
    bytes: &[u8],
) -> Result<Done, AllocError>
    requires ready { IsReady 3 core.old }
    requires head { head_of bytes.now ≡ Ok arrival.now.head.now }
    ensures done { (n : ℕ) → IfOk result (λ r. MayBe n core.new → carried n core.old state.old (requested core.old arrival.now.files.now arrival.now.others state.old arrival.now.conn bytes.now arrival.now.head.now) ≡ (r.0, r.1, state.new, core.new)) }
    ensures leaves { OnOk result (Leaves 3 core.old core.new) }
    ensures answer { IfOk result (λ r. IsAnswer (command_of arrival.now.head.now.command) r.0) }
    ensures keeper { OnOk result (HandsTo K.held K.given K.faults K.left core.old core.new keeper.old keeper.new) }
{
    let head = arrival.head;
    if head.next_command != 0 || head.command > Command::OplockBreak.number() {
        return Ok(failed(alloc, SmbStatus::InvalidParameter));
    }
    if Command::of(head.command).is_none() {
        return Ok(failed(alloc, SmbStatus::NotSupported));
    }
    match read(bytes) {
        Ok(SmbMessage::Call(of, call)) => {
            let read = Arrival {
                files: arrival.files,
                others: arrival.others,
                conn: arrival.conn,
                head: &of,
            };
            Ok(planned(alloc, state, core, keeper, &read, &call)?)
        }
        Ok(SmbMessage::Reply(_, _) | SmbMessage::Notice(_)) | Err(_) => {
            Ok(failed(alloc, SmbStatus::InvalidParameter))
        }
    }
}
