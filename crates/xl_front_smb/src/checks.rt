//! What a request names.
ghost use Rattle.std.specs.Prelude.{◌≡◌, Some, IfSome, IsSome, option_copied};
ghost use Rattle.xl_smb_state.specs.Links.{IsHolderLinked};
ghost use Rattle.xl_smb_state.specs.State.{client_of, session_of, open_of};
ghost use Rattle.xl_smb_state.specs.declared.row.Holder.TheVariants as holder;
ghost use Rattle.xl_front_smb.specs.Checks.{session_named, tree_named, is_open_on, file_number, open_named, is_fresh};
ghost use Rattle.xl_front_smb.specs.Owners.{is_session_on};

use crate::replies::tree_id;
use xl_core::{Core, number_in};
use xl_smb::{FileId, SmbHead};
use xl_smb_state::{Connection, Holder, Open, Place, Session, SmbState};

/// The guid of the client on a connection, once it has negotiated.
pub(crate) fn client_on(state: &SmbState, conn: u64) -> Option<[u8; 16]>
    ensures { result ≡ client_of conn state.now }
{
    match state.find_connection(conn) {
        Some(row) => row.client,
        None => None,
    }
}

/// Whether the dialect is still to be agreed on.
pub(crate) fn is_fresh(found: Option<&Connection>) -> bool
    ensures { result ≡ is_fresh (option_copied found.entry) }
{
    match found {
        Some(row) => row.client.is_none(),
        None => false,
    }
}

/// Whether a session is on this connection.
fn is_session_on(conn: u64, found: Option<&Session>) -> bool
    ensures { result ≡ is_session_on conn (option_copied found.entry) }
{
    match found {
        Some(row) => row.connection == conn,
        None => false,
    }
}

/// The session of this id, if it is on the connection.
#[tactic(auto, using(crate::proofs::CheckLaws::session_there))]
pub(crate) fn session_named(core: &Core, state: &SmbState, conn: u64, id: u64) -> Option<u32>
    ensures value { result ≡ session_named core.now state.now conn id }
    ensures there { IfSome result (λ session. session_of session state.now ≡ Some (record { connection = conn })) }
{
    let number = number_in(core, id)?;
    if is_session_on(conn, state.find_session(number)) {
        Some(number)
    } else {
        None
    }
}

/// The tree connect that a request names, if it belongs to the session that it names, on a connection of this client.
pub(crate) fn tree_named(
    state: &SmbState,
    conn: u64,
    client: &[u8; 16],
    head: &SmbHead,
    session: u32,
) -> Option<Place>
    ensures value { result ≡ tree_named state.now conn client.now head.now session }
    ensures linked { IfSome result (λ place. IsHolderLinked state.now client.now (holder.Tree place)) }
    ensures on { IfSome result (λ place. place.connection ≡ conn) }
{
    let place = Place {
        connection: conn,
        session,
        tree: tree_id(head.route),
    };
    if state.has_place(&place, client) {
        Some(place)
    } else {
        None
    }
}

/// Whether an open is under this connection.
fn is_open_on(conn: u64, found: Option<&Open>) -> bool
    ensures { result ≡ is_open_on conn (option_copied found.entry) }
{
    match found {
        Some(row) => match row.holder {
            Holder::Tree(place) => place.connection == conn,
            Holder::Nobody(_) => false,
        },
        None => false,
    }
}

/// The number in both halves of a FileId, if they are one.
fn file_number(core: &Core, id: FileId) -> Option<u32>
    ensures { result ≡ file_number core.now id }
{
    if id.persistent == id.volatile {
        number_in(core, id.volatile)
    } else {
        None
    }
}

/// The open of this FileId, if it is under the connection.
#[tactic(auto, using(crate::proofs::CheckLaws::open_there))]
pub(crate) fn open_named(core: &Core, state: &SmbState, conn: u64, id: FileId) -> Option<u32>
    ensures value { result ≡ open_named core.now state.now conn id }
    ensures there { IfSome result (λ number. IsSome (open_of number state.now)) }
{
    let number = file_number(core, id)?;
    if is_open_on(conn, state.find_open(number)) {
        Some(number)
    } else {
        None
    }
}
