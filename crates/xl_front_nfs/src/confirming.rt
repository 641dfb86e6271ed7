//! SETCLIENTID_CONFIRM (RFC 7530 16.34).
ghost use Rattle.std.specs.Prelude.{◌≡◌, ℕ, ◌<◌, ◌==◌, ◌∷◌, ◌++◌, [], true, false, length, bytes_eq, if◌then◌else◌, Some, None, option_map, IfOk, OnOk};
ghost use Rattle.std.specs.List.{find};
ghost use Rattle.xl_names.specs.declared.name.Name.TheVariants.{NfsParty};
ghost use Rattle.xl_nfs.specs.declared.status.NfsStatus.TheVariants.{Ok, StaleClientId};
ghost use Rattle.xl_nfs_state.specs.State.{is_client, is_client_named, most_clients};
ghost use Rattle.xl_core.specs.Askers.{party_named};
ghost use Rattle.xl_core.specs.Deeds.{all_done, all_told_of, Renews};
ghost use Rattle.xl_front_nfs.specs.Clients.{ends, come, come_again, confirm_beside, confirm_held, confirmed_by, confirm_found, set_client_id_confirm};
ghost use Rattle.xl_nfs_opens.specs.Plans.{carried};
ghost use Rattle.xl_plan.specs.Budgets.{IsReady};
ghost use Rattle.xl_plan.specs.Keepers.{IsQuiet};
ghost use Rattle.xl_nfs_opens.specs.Short.{Leaves};

use crate::ending::ended;
use crate::rows::{confirmed_by, drop_number, enter, forget, number_named};
use std::alloc::{AllocError, Global};
use xl_base::Sequence;
use xl_core::{Core, Effect, number_in};
use xl_nfs::{ClientConfirm, NfsStatus};
use xl_nfs_opens::{Done, Told, ended_as, renewed};
use xl_nfs_state::{ClientRow, NfsState};

/// The client comes under this number, if there is room and none has its id string.
fn come(alloc: Global, state: &mut NfsState, number: u32, row: ClientRow) -> Result<(), AllocError>
    requires room { length state.old.clients < most_clients }
    requires free { find (is_client_named row.id true) state.old.clients ≡ None }
    ensures { OnOk result (state.new ≡ come state.old number row) }
{
    forget(state, number);
    let mut confirmed = row;
    confirmed.number = number;
    confirmed.confirmed = true;
    enter(alloc, state, confirmed)?;
    Ok(())
}

/// The client that has this number already says anew what its record says.
#[tactic(auto, using(crate::proofs::RowLaws::number_under))]
fn come_again(state: &mut NfsState, number: u32, row: ClientRow)
    requires there { option_map (λ r. r.number) (find (is_client_named row.id true) state.old.clients) ≡ Some number }
    ensures { state.new ≡ come_again state.old number row }
{
    state.change_client(number, true, row.details);
}

/// The lease of the client of this id string runs from now on, and what it had before goes, if it was another client.
#[tactic(auto, using(xl_plan::proofs::BudgetLaws::leaves_self))]
fn ended_and_renewed(
    alloc: Global,
    core: &mut Core,
    id: &[u8],
) -> Result<Sequence<Effect>, AllocError>
    requires ready { IsReady 0 core.old }
    ensures told { (n : ℕ) → IfOk result (λ effects. all_told_of n core.old (ends (party_named core.old.names (NfsParty id.now)) ++ Renews id.now ∷ []) ≡ effects) }
    ensures state { (n : ℕ) → OnOk result (all_done n core.old (ends (party_named core.old.names (NfsParty id.now)) ++ Renews id.now ∷ []) ≡ core.new) }
    ensures leaves { OnOk result (Leaves 0 core.old core.new) }
    ensures quiet { OnOk result (IsQuiet core.old core.new) }
{
    let effects = ended(alloc, core, id)?;
    renewed(alloc, core, id)?;
    Ok(effects)
}

/// An unconfirmed record becomes the confirmed one, if none has its id string.
fn confirm_first(
    alloc: Global,
    state: &mut NfsState,
    core: &mut Core,
    current: Option<u32>,
    number: u32,
    row: ClientRow,
) -> Result<Done, AllocError>
    requires ready { IsReady 0 core.old }
    requires room { length state.old.clients < most_clients }
    requires free { find (is_client_named row.id true) state.old.clients ≡ None }
    ensures done { (n : ℕ) → IfOk result (λ r. carried n core.old state.old (confirm_beside core.old state.old current number row) ≡ (r.0, r.1, r.2, state.new, core.new)) }
    ensures leaves { OnOk result (Leaves 0 core.old core.new) }
    ensures quiet { OnOk result (IsQuiet core.old core.new) }
{
    renewed(alloc, core, row.id.as_slice())?;
    come(alloc, state, number, row)?;
    Ok((Told::Ended(NfsStatus::Ok), current, Sequence::new(alloc)))
}

/// The same if the client has this number already.
fn confirm_again(
    alloc: Global,
    state: &mut NfsState,
    core: &mut Core,
    current: Option<u32>,
    number: u32,
    row: ClientRow,
) -> Result<Done, AllocError>
    requires ready { IsReady 0 core.old }
    requires there { option_map (λ r. r.number) (find (is_client_named row.id true) state.old.clients) ≡ Some number }
    ensures done { (n : ℕ) → IfOk result (λ r. carried n core.old state.old (confirm_beside core.old state.old current number row) ≡ (r.0, r.1, r.2, state.new, core.new)) }
    ensures leaves { OnOk result (Leaves 0 core.old core.new) }
    ensures quiet { OnOk result (IsQuiet core.old core.new) }
{
    renewed(alloc, core, row.id.as_slice())?;
    come_again(state, number, row);
    Ok((Told::Ended(NfsStatus::Ok), current, Sequence::new(alloc)))
}

/// The same if another client, of this number, has the id string: all that is its goes.
fn confirm_anew(
    alloc: Global,
    state: &mut NfsState,
    core: &mut Core,
    current: Option<u32>,
    number: u32,
    row: ClientRow,
    old: u32,
) -> Result<Done, AllocError>
    requires ready { IsReady 0 core.old }
    requires room { length state.old.clients < most_clients }
    requires there { option_map (λ r. r.number) (find (is_client_named row.id true) state.old.clients) ≡ Some old }
    requires other { (old == number) ≡ false }
    ensures done { (n : ℕ) → IfOk result (λ r. carried n core.old state.old (confirm_beside core.old state.old current number row) ≡ (r.0, r.1, r.2, state.new, core.new)) }
    ensures leaves { OnOk result (Leaves 0 core.old core.new) }
    ensures quiet { OnOk result (IsQuiet core.old core.new) }
{
    let effects = ended_and_renewed(alloc, core, row.id.as_slice())?;
    forget(state, old);
    come(alloc, state, number, row)?;
    Ok((Told::Ended(NfsStatus::Ok), current, effects))
}

/// An unconfirmed record, which isn't among these any more, becomes the confirmed one.
#[tactic(auto, using(crate::proofs::ClientLaws::none_under))]
fn confirm_beside(
    alloc: Global,
    state: &mut NfsState,
    core: &mut Core,
    current: Option<u32>,
    number: u32,
    row: ClientRow,
) -> Result<Done, AllocError>
    requires ready { IsReady 0 core.old }
    requires room { length state.old.clients < most_clients }
    ensures done { (n : ℕ) → IfOk result (λ r. carried n core.old state.old (confirm_beside core.old state.old current number row) ≡ (r.0, r.1, r.2, state.new, core.new)) }
    ensures leaves { OnOk result (Leaves 0 core.old core.new) }
    ensures quiet { OnOk result (IsQuiet core.old core.new) }
{
    match number_named(state, row.id.as_slice(), true) {
        None => confirm_first(alloc, state, core, current, number, row),
        Some(old) if old == number => confirm_again(alloc, state, core, current, number, row),
        Some(old) => confirm_anew(alloc, state, core, current, number, row, old),
    }
}

/// Whether this verifier is the one that confirmed the record.
fn held_status(row: &ClientRow, verifier: &[u8; 8]) -> NfsStatus
    ensures { result ≡ (if bytes_eq row.now.details.confirm verifier.now then Ok else StaleClientId) }
{
    if row.details.confirm == *verifier {
        NfsStatus::Ok
    } else {
        NfsStatus::StaleClientId
    }
}

/// A confirmed client is named: its lease runs from now on, whether this verifier confirmed it or not.
#[tactic(auto, using(xl_plan::proofs::BudgetLaws::leaves_self))]
fn confirm_held(
    alloc: Global,
    state: &NfsState,
    core: &mut Core,
    current: Option<u32>,
    number: u32,
    verifier: &[u8; 8],
) -> Result<Done, AllocError>
    requires ready { IsReady 0 core.old }
    ensures done { (n : ℕ) → IfOk result (λ r. carried n core.old state.now (confirm_held state.now current verifier.now (find (is_client number true) state.now.clients)) ≡ (r.0, r.1, r.2, state.now, core.new)) }
    ensures leaves { OnOk result (Leaves 0 core.old core.new) }
    ensures quiet { OnOk result (IsQuiet core.old core.new) }
{
    let Some(row) = state.find_client(number, true) else {
        return Ok(ended_as(alloc, NfsStatus::StaleClientId, current));
    };
    let status = held_status(row, verifier);
    renewed(alloc, core, row.id.as_slice())?;
    Ok((Told::Ended(status), current, Sequence::new(alloc)))
}

/// What becomes of the clientid of this number, if its unconfirmed record is confirmed, and if it isn't.
#[tactic(auto, using(crate::proofs::ClientLaws::confirmed_there))]
fn confirm_found(
    alloc: Global,
    state: &mut NfsState,
    core: &mut Core,
    current: Option<u32>,
    number: u32,
    verifier: &[u8; 8],
    found: Option<ClientRow>,
) -> Result<Done, AllocError>
    requires ready { IsReady 0 core.old }
    requires found { found ≡ confirmed_by verifier.now (find (is_client number false) state.old.clients) }
    ensures done { (n : ℕ) → IfOk result (λ r. carried n core.old state.old (confirm_found core.old state.old current number verifier.now found) ≡ (r.0, r.1, r.2, state.new, core.new)) }
    ensures leaves { OnOk result (Leaves 0 core.old core.new) }
    ensures quiet { OnOk result (IsQuiet core.old core.new) }
{
    match found {
        Some(row) => {
            drop_number(state, number);
            confirm_beside(alloc, state, core, current, number, row)
        }
        None => confirm_held(alloc, state, core, current, number, verifier),
    }
}

/// SETCLIENTID_CONFIRM.
#[tactic(auto, unfolding(crate::specs::Clients::set_client_id_confirm), using(xl_plan::proofs::BudgetLaws::leaves_self))]
pub(crate) fn set_client_id_confirm(
    alloc: Global,
    state: &mut NfsState,
    core: &mut Core,
    current: Option<u32>,
    args: &ClientConfirm,
) -> Result<Done, AllocError>
    requires ready { IsReady 0 core.old }
    ensures done { (n : ℕ) → IfOk result (λ r. carried n core.old state.old (set_client_id_confirm core.old state.old current args.now) ≡ (r.0, r.1, r.2, state.new, core.new)) }
    ensures leaves { OnOk result (Leaves 0 core.old core.new) }
    ensures quiet { OnOk result (IsQuiet core.old core.new) }
{
    let Some(number) = number_in(core, args.clientid) else {
        return Ok(ended_as(alloc, NfsStatus::StaleClientId, current));
    };
    let found = confirmed_by(alloc, state, number, &args.verifier)?;
    confirm_found(alloc, state, core, current, number, &args.verifier, found)
}
