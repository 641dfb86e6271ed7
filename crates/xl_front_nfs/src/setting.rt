//! SETCLIENTID (RFC 7530 16.33).
ghost use Rattle.std.specs.Prelude.{◌≡◌, ℕ, true, false, [], None, IfOk, OnOk};
ghost use Rattle.std.specs.List.{find};
ghost use Rattle.xl_nfs.specs.Clients.{shown_set_client_id_args};
ghost use Rattle.xl_nfs_state.specs.State.{is_client_named};
ghost use Rattle.xl_core.specs.Deeds.{all_done, all_told_of};
ghost use Rattle.xl_front_nfs.specs.Clients.{number_kept, numbers, draws, record_end, row_of, confirm_of, has_room, set_under, set_beside, set_client_id};
ghost use Rattle.xl_nfs_opens.specs.Plans.{carried};
ghost use Rattle.xl_plan.specs.Budgets.{IsReady};
ghost use Rattle.xl_plan.specs.Keepers.{IsQuiet};
ghost use Rattle.xl_nfs_opens.specs.Short.{Leaves};

use crate::rows::{drop_named, drop_number, enter, has_room};
use std::alloc::{AllocError, Global};
use xl_base::{Moment, Sequence};
use xl_core::{Core, id_of};
use xl_nfs::{ClientConfirm, NfsStatus, SetClientIdArgs};
use xl_nfs_opens::{Done, Told, drawn, ended_as};
use xl_nfs_state::{Callback, ClientDetails, ClientRow, NfsState};

/// The number that the client has already, if its confirmed record has the verifier.
fn number_kept(state: &NfsState, args: &SetClientIdArgs) -> Option<u32>
    ensures { result ≡ number_kept args.now.verifier (find (is_client_named args.now.id.now true) state.now.clients) }
{
    match state.find_client_named(args.id, true) {
        Some(row) if row.details.verifier == args.verifier => Some(row.number),
        _ => None,
    }
}

/// The client's number, which is new if it keeps none, and the one that confirms it.
#[tactic(auto, using(xl_plan::proofs::BudgetLaws::ready_then, xl_plan::proofs::BudgetLaws::ready_less, xl_plan::proofs::BudgetLaws::leaves_then, xl_plan::proofs::BudgetLaws::leaves_more, crate::proofs::ClientLaws::numbers_new))]
fn draw_numbers(core: &mut Core, kept: Option<u32>) -> (u32, u32)
    requires ready { IsReady 2 core.old }
    ensures numbers { result ≡ numbers core.old.counter kept }
    ensures state { (n : ℕ) → all_done n core.old (draws kept) ≡ core.new }
    ensures told { (n : ℕ) → all_told_of n core.old (draws kept) ≡ [] }
    ensures stable { core.new.stable ≡ core.old.stable }
    ensures leaves { Leaves 2 core.old core.new }
    ensures quiet { IsQuiet core.old core.new }
{
    let first = drawn(core);
    match kept {
        Some(number) => (number, first),
        None => (first, drawn(core)),
    }
}

/// When a record goes that comes now, if it isn't confirmed before.
fn record_end(core: &Core) -> Moment
    ensures { result ≡ record_end core.now }
{
    Moment(core.clock().0.saturating_add(core.times().lease))
}

/// The record under this number.
fn row_of(
    alloc: Global,
    args: &SetClientIdArgs,
    number: u32,
    confirm: u32,
    time: Moment,
) -> Result<ClientRow, AllocError>
    ensures { IfOk result (λ row. row ≡ row_of time (shown_set_client_id_args args.now) number confirm) }
{
    Ok(ClientRow {
        number,
        confirmed: false,
        id: Sequence::from_slice(alloc, args.id)?,
        details: ClientDetails {
            verifier: args.verifier,
            confirm: u64::from(confirm).to_be_bytes(),
            callback: Callback {
                program: args.program,
                netid: Sequence::from_slice(alloc, args.netid)?,
                address: Sequence::from_slice(alloc, args.address)?,
                ident: args.callback_ident,
            },
            time,
        },
    })
}

/// The record comes, if there is room.
fn set_under(
    alloc: Global,
    state: &mut NfsState,
    args: &SetClientIdArgs,
    number: u32,
    confirm: u32,
    time: Moment,
) -> Result<(), AllocError>
    requires room { has_room state.old ≡ true }
    requires free { find (is_client_named args.now.id.now false) state.old.clients ≡ None }
    ensures { OnOk result (state.new ≡ set_under time state.old (shown_set_client_id_args args.now) number confirm) }
{
    let row = row_of(alloc, args, number, confirm, time)?;
    drop_number(state, number);
    enter(alloc, state, row)?;
    Ok(())
}

/// What is answered of the record.
fn confirm_of(core: &Core, number: u32, confirm: u32) -> ClientConfirm
    ensures { result ≡ confirm_of core.now number confirm }
{
    ClientConfirm {
        clientid: id_of(core, number),
        verifier: u64::from(confirm).to_be_bytes(),
    }
}

/// SETCLIENTID, if no unconfirmed record has the id string.
#[tactic(auto, using(xl_plan::proofs::BudgetLaws::leaves_self, xl_plan::proofs::BudgetLaws::leaves_more, crate::proofs::ClientLaws::set_done))]
fn set_beside(
    alloc: Global,
    state: &mut NfsState,
    core: &mut Core,
    current: Option<u32>,
    args: &SetClientIdArgs,
) -> Result<Done, AllocError>
    requires ready { IsReady 2 core.old }
    requires free { find (is_client_named args.now.id.now false) state.old.clients ≡ None }
    ensures done { (n : ℕ) → IfOk result (λ r. carried n core.old state.old (set_beside core.old state.old current (shown_set_client_id_args args.now)) ≡ (r.0, r.1, r.2, state.new, core.new)) }
    ensures leaves { OnOk result (Leaves 2 core.old core.new) }
    ensures quiet { OnOk result (IsQuiet core.old core.new) }
{
    if !has_room(state) {
        return Ok(ended_as(alloc, NfsStatus::Resource, current));
    }
    let time = record_end(core);
    let kept = number_kept(state, args);
    let (number, confirm) = draw_numbers(core, kept);
    set_under(alloc, state, args, number, confirm, time)?;
    let told = confirm_of(core, number, confirm);
    Ok((Told::Client(told), current, Sequence::new(alloc)))
}

/// SETCLIENTID.
#[tactic(auto, unfolding(crate::specs::Clients::set_client_id))]
pub(crate) fn set_client_id(
    alloc: Global,
    state: &mut NfsState,
    core: &mut Core,
    current: Option<u32>,
    args: &SetClientIdArgs,
) -> Result<Done, AllocError>
    requires ready { IsReady 2 core.old }
    ensures done { (n : ℕ) → IfOk result (λ r. carried n core.old state.old (set_client_id core.old state.old current (shown_set_client_id_args args.now)) ≡ (r.0, r.1, r.2, state.new, core.new)) }
    ensures leaves { OnOk result (Leaves 2 core.old core.new) }
    ensures quiet { OnOk result (IsQuiet core.old core.new) }
{
    drop_named(state, args.id);
    set_beside(alloc, state, core, current, args)
}
