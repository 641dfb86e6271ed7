//! Walks over lists of rows.
ghost use Rattle.std.specs.Prelude.{◌≡◌, ℕ, ◌==◌, nat_eq, nat_lt, IfOk, filter, map, Some, option_copied, option_map};
ghost use Rattle.std.specs.List.{find};
ghost use Rattle.std.specs.Map.{keys_of, lookup};
ghost use Rattle.xl_base.specs.Leasts.{lesser};
ghost use Rattle.xl_smb_state.specs.declared.row.Session.{Session};
ghost use Rattle.xl_smb_state.specs.declared.row.Tree.{Tree};
ghost use Rattle.xl_smb_state.specs.declared.row.Waiting.{Waiting};
ghost use Rattle.xl_smb_state.specs.State.{keys_where, covers, covers_holder, is_held, lowest, key_of, makes_under, made_in, is_message, is_key, file_for, waiting_file};
ghost use Rattle.xl_smb_state.specs.Links.{is_tree_at, is_client};
ghost use Rattle.std.specs.Option.{option_and_then};

use crate::opens::Opens;
use crate::row::{
    Connection, Holder, LeaseKey, Open, Place, Request, Scope, Session, Tree, Waiting,
};
use indexmap::IndexMap;
use std::alloc::{AllocError, Global};

/// Whether a place lies under a connection, a session or a tree connect.
pub(crate) fn covers(scope: Scope, place: &Place) -> bool
    ensures { result ≡ covers scope place.now }
{
    match scope {
        Scope::Connection(number) => place.connection == number,
        Scope::Session(number) => place.session == number,
        Scope::Tree(number) => place.tree == number,
    }
}

/// Whether somebody holds it under a connection, a session or a tree connect.
pub(crate) fn covers_holder(scope: Scope, holder: &Holder) -> bool
    ensures { result ≡ covers_holder scope holder.now }
{
    match holder {
        Holder::Tree(place) => covers(scope, place),
        Holder::Nobody(_) => false,
    }
}

/// Whether this is the tree connect of the place.
pub(crate) fn is_tree_at(place: &Place, found: Option<&Tree>) -> bool
    ensures { result ≡ is_tree_at place.now (option_copied found.entry) }
{
    match found {
        Some(row) => row.connection == place.connection && row.session == place.session,
        None => false,
    }
}

/// Whether this is a connection of the client.
pub(crate) fn is_client(client: &[u8; 16], found: Option<&Connection>) -> bool
    ensures { result ≡ is_client client.now (option_and_then (λ c. c.client) (option_copied found.entry)) }
{
    match found {
        Some(row) => match row.client {
            Some(guid) => guid == *client,
            None => false,
        },
        None => false,
    }
}

/// Whether somebody holds the open.
fn is_held(found: Option<&Open>) -> bool
    ensures { result ≡ is_held (option_copied found.entry) }
{
    matches!(found, Some(row) if matches!(row.holder, Holder::Tree(_)))
}

/// The lower of a number and another, if there is one.
fn lower(least: Option<u32>, number: u32) -> u32
    ensures { lesser nat_lt least number ≡ Some result }
{
    match least {
        Some(least) => { if number < least { number } else { least } }
        None => number,
    }
}

/// The lowest of these opens that somebody holds.
pub(crate) fn lowest_held(opens: &Opens, numbers: &[u32]) -> Option<u32>
    ensures { result ≡ lowest (filter (λ n. is_held (lookup (nat_eq n) opens.now)) numbers.now) }
{
    let mut least = None;
    'numbers: for number in numbers {
        if is_held(opens.find(*number)) {
            least = Some(lower(least, *number));
        }
    }
    least
}

/// The key of the lease that an open is under.
pub(crate) fn key_of(found: Option<&Open>) -> Option<LeaseKey>
    ensures { result ≡ key_of (option_copied found.entry) }
{
    let row = found?;
    let key = row.lease?;
    Some(LeaseKey {
        client: row.client,
        key,
    })
}

/// Whether the request came by the connection under this message number.
fn is_message(connection: u64, message: u64, row: &Waiting) -> bool
    ensures { result ≡ is_message connection message row.now }
{
    row.place.connection == connection && row.header.message_id == message
}

/// The number of the first such request.
pub(crate) fn waiting_by_message(
    waiting: &IndexMap<u32, Waiting>,
    connection: u64,
    message: u64,
) -> Option<u32>
    ensures { result ≡ option_map (λ e. e.0) (find (λ e. is_message connection message e.1) waiting.now.entries) }
{
    'rows: for (number, row) in waiting.iter() {
        if is_message(connection, message, row) {
            return Some(*number);
        }
    }
    None
}

/// Whether an open of the client, with this lease key or none, is under the lease.
pub(crate) fn is_key(key: &LeaseKey, client: &[u8; 16], name: &Option<[u8; 16]>) -> bool
    ensures { result ≡ is_key key.now client.now name.now }
{
    match name {
        Some(name) => key.client == *client && key.key == *name,
        None => false,
    }
}

/// The file of the open that a request waits to make under the lease.
fn file_for(key: &LeaseKey, request: &Request) -> Option<u32>
    ensures { result ≡ file_for key.now request.now }
{
    match request {
        Request::Create(row) => {
            if is_key(key, &row.client, &row.lease) {
                Some(row.file)
            } else {
                None
            }
        }
        Request::Lock => None,
    }
}

/// The file of the first open that waits to be made under the lease.
pub(crate) fn waiting_file(waiting: &IndexMap<u32, Waiting>, key: &LeaseKey) -> Option<u32>
    ensures { result ≡ waiting_file key.now waiting.now.entries }
{
    'rows: for (_, row) in waiting.iter() {
        if let Some(file) = file_for(key, &row.request) {
            return Some(file);
        }
    }
    None
}

/// The numbers of the sessions on a connection.
pub(crate) fn sessions_on(
    alloc: Global,
    sessions: &IndexMap<u32, Session>,
    connection: u64,
) -> Result<Vec<u32>, AllocError>
    ensures { IfOk result (λ v. v.items ≡ keys_where (λ (r : Session). r.connection == connection) sessions.now.entries) }
{
    let mut numbers = Vec::new(alloc);
    'rows: for (number, row) in sessions.iter() {
        if row.connection == connection {
            numbers.push(*number)?;
        }
    }
    Ok(numbers)
}

/// The numbers of the tree connects of a session.
pub(crate) fn trees_of(
    alloc: Global,
    trees: &IndexMap<u32, Tree>,
    session: u32,
) -> Result<Vec<u32>, AllocError>
    ensures { IfOk result (λ v. v.items ≡ keys_where (λ (r : Tree). r.session == session) trees.now.entries) }
{
    let mut numbers = Vec::new(alloc);
    'rows: for (number, row) in trees.iter() {
        if row.session == session {
            numbers.push(*number)?;
        }
    }
    Ok(numbers)
}

/// The numbers of the tree connects on a connection.
pub(crate) fn trees_on(
    alloc: Global,
    trees: &IndexMap<u32, Tree>,
    connection: u64,
) -> Result<Vec<u32>, AllocError>
    ensures { IfOk result (λ v. v.items ≡ keys_where (λ (r : Tree). r.connection == connection) trees.now.entries) }
{
    let mut numbers = Vec::new(alloc);
    'rows: for (number, row) in trees.iter() {
        if row.connection == connection {
            numbers.push(*number)?;
        }
    }
    Ok(numbers)
}

/// The numbers of the requests that wait under it.
pub(crate) fn waiting_under(
    alloc: Global,
    waiting: &IndexMap<u32, Waiting>,
    scope: Scope,
) -> Result<Vec<u32>, AllocError>
    ensures { IfOk result (λ v. v.items ≡ keys_where (λ (r : Waiting). covers scope r.place) waiting.now.entries) }
{
    let mut numbers = Vec::new(alloc);
    'rows: for (number, row) in waiting.iter() {
        if covers(scope, &row.place) {
            numbers.push(*number)?;
        }
    }
    Ok(numbers)
}

/// The numbers of all requests that wait.
pub(crate) fn numbers_waiting(
    alloc: Global,
    waiting: &IndexMap<u32, Waiting>,
) -> Result<Vec<u32>, AllocError>
    ensures { IfOk result (λ v. v.items ≡ keys_of waiting.now.entries) }
{
    let mut numbers = Vec::new(alloc);
    'rows: for (number, _) in waiting.iter() {
        numbers.push(*number)?;
    }
    Ok(numbers)
}

/// Whether a request waits to make an open under it.
fn makes_under(scope: Scope, row: &Waiting) -> bool
    ensures { result ≡ makes_under scope row.now }
{
    match row.request {
        Request::Create(_) => covers(scope, &row.place),
        Request::Lock => false,
    }
}

/// The numbers of the opens that these wait to make under it.
pub(crate) fn made_in(
    alloc: Global,
    waiting: &IndexMap<u32, Waiting>,
    scope: Scope,
) -> Result<Vec<u32>, AllocError>
    ensures { IfOk result (λ v. v.items ≡ made_in scope waiting.now.entries) }
{
    let mut numbers = Vec::new(alloc);
    'rows: for (_, row) in waiting.iter() {
        if makes_under(scope, row) {
            numbers.push(row.opened)?;
        }
    }
    Ok(numbers)
}
