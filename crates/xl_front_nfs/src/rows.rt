//! Records of clients that come, change and go.
ghost use Rattle.std.specs.Prelude.{◌≡◌, ℕ, ◌<◌, ◌≤◌, Bool, true, false, List, length, Some, None, IsSome, option_map, OnOk, IfOk};
ghost use Rattle.std.specs.List.{find};
ghost use Rattle.xl_nfs_state.specs.State.{is_client, is_client_named, most_clients, without_client};
ghost use Rattle.xl_front_nfs.specs.Clients.{without_number, without_named, has_room, with_row, confirmed_by};

use std::alloc::{AllocError, Global};
use xl_base::Moment;
use xl_nfs_state::{ClientDetails, ClientRow, MOST_CLIENTS, NfsState};

/// The number of the record of this id string, confirmed or not.
pub(crate) fn number_named(state: &NfsState, id: &[u8], confirmed: bool) -> Option<u32>
    ensures { result ≡ option_map (λ r. r.number) (find (is_client_named id.now confirmed) state.now.clients) }
{
    match state.find_client_named(id, confirmed) {
        Some(row) => Some(row.number),
        None => None,
    }
}

/// Drops the unconfirmed record of this number, if there is one.
#[tactic(auto, using(crate::proofs::RowLaws::gone, crate::proofs::RowLaws::none_left, crate::proofs::RowLaws::no_more, crate::proofs::RowLaws::one_less, crate::proofs::RowLaws::all_left))]
pub(crate) fn drop_number(state: &mut NfsState, number: u32)
    ensures lists { state.new ≡ without_number number state.old }
    ensures gone { find (is_client number false) state.new.clients ≡ None }
    ensures named { (id : List ℕ) (confirmed : Bool) → find (is_client_named id confirmed) state.old.clients ≡ None → find (is_client_named id confirmed) state.new.clients ≡ None }
    ensures no_more { length state.new.clients ≤ length state.old.clients }
    ensures room { IsSome (find (is_client number false) state.old.clients) → length state.new.clients < most_clients }
{
    let _count = state.client_count();
    if state.find_client(number, false).is_some() {
        state.drop_client(number, false);
    }
}

/// Drops the unconfirmed record of this id string, if there is one.
#[tactic(auto, using(crate::proofs::RowLaws::named_numbered, crate::proofs::RowLaws::gone_named))]
pub(crate) fn drop_named(state: &mut NfsState, id: &[u8])
    ensures lists { state.new ≡ without_named id.now state.old }
    ensures gone { find (is_client_named id.now false) state.new.clients ≡ None }
{
    let _count = state.client_count();
    if let Some(number) = number_named(state, id, false) {
        state.drop_client(number, false);
    }
}

/// Forgets the confirmed client of this number, if there is one, and all that is its.
#[tactic(auto, using(crate::proofs::RowLaws::gone, crate::proofs::RowLaws::none_left, crate::proofs::RowLaws::no_more, crate::proofs::RowLaws::gone_under))]
pub(crate) fn forget(state: &mut NfsState, number: u32)
    ensures lists { state.new ≡ without_client number state.old }
    ensures gone { find (is_client number true) state.new.clients ≡ None }
    ensures named { (id : List ℕ) (confirmed : Bool) → find (is_client_named id confirmed) state.old.clients ≡ None → find (is_client_named id confirmed) state.new.clients ≡ None }
    ensures unnamed { (id : List ℕ) → option_map (λ r. r.number) (find (is_client_named id true) state.old.clients) ≡ Some number → find (is_client_named id true) state.new.clients ≡ None }
    ensures no_more { length state.new.clients ≤ length state.old.clients }
{
    let _count = state.client_count();
    state.forget_client(number);
}

/// Whether there is room for a record.
pub(crate) fn has_room(state: &NfsState) -> bool
    ensures { result ≡ has_room state.now }
{
    state.client_count() < MOST_CLIENTS
}

/// Adds a record, if there is room and none has its keys.
pub(crate) fn enter(alloc: Global, state: &mut NfsState, row: ClientRow) -> Result<(), AllocError>
    requires room { length state.old.clients < most_clients }
    requires number { find (is_client row.number row.confirmed) state.old.clients ≡ None }
    requires name { find (is_client_named row.id row.confirmed) state.old.clients ≡ None }
    ensures { OnOk result (state.new ≡ with_row state.old row) }
{
    match state.add_client(alloc, row) {
        Ok(()) => Ok(()),
        Err(_) => Err(AllocError),
    }
}

/// A copy of the unconfirmed record of this number, if this verifier confirms it.
pub(crate) fn confirmed_by(
    alloc: Global,
    state: &NfsState,
    number: u32,
    verifier: &[u8; 8],
) -> Result<Option<ClientRow>, AllocError>
    ensures { IfOk result (λ row. row ≡ confirmed_by verifier.now (find (is_client number false) state.now.clients)) }
{
    match state.find_client(number, false) {
        Some(row) if row.details.confirm == *verifier => Ok(Some(row.copy(alloc)?)),
        _ => Ok(None),
    }
}
