//! What an SMB server keeps beside its claims.

use super::{next, number};
use std::alloc::{AllocError, Global};
use std::str::Split;
use xl_base::{Moment, Sequence};
use xl_smb_state::{
    CONNECTIONS, Connection, Header, Holder, Lease, LeaseKey, OPENS, Open, Place, Request,
    SESSIONS, Scope, Session, SmbState, TREES, Tree, WAITING, Waiting,
};

/// What is done, one row after the other, and what is answered; `#` begins a remark. Clients are named by the byte that their guid is made of,
/// lease keys likewise.
const ROWS: &str = "\
# Nothing comes before what it stands on.
session 3 1 no
connect 1 yes
session 3 1 no
negotiate 1 17 yes
negotiate 1 18 no
tree 4 3 1 no
session 3 1 yes
session 3 1 no
open 5 1 3 4 17 0 no
tree 4 3 1 yes
connect 2 yes
negotiate 2 18 yes
session 6 2 yes
tree 7 6 2 yes
tree 8 3 2 no
# Two opens of one lease on one connection, one on another, and one without a lease.
open 12 1 3 4 17 9 yes
open 5 1 3 4 18 9 no
open 10 1 3 4 17 9 yes
open 11 2 6 7 18 9 yes
open 13 2 6 7 18 0 yes
lease 17 9 12 yes
lease 17 9 10 yes
lease 18 9 11 yes
lease 18 8 13 no
lowest 17 9 10
lowest 18 9 11
lowest 18 8 none
key 17 9 1
key 17 8 none
under connection 1 12,10,
under session 6 11,13,
under tree 4 12,10,
under tree 5 
# Requests wait: for a lock of open 13, and to make open 14 of file 2 under a key. If one goes, the others stay in their order.
wait 20 13 7 yes
wait 20 13 7 no
create 21 14 8 17 5 yes
key 17 5 2
message 2 7 20
message 1 7 none
message 1 8 21
waiting tree 4 21,
wait 22 12 9 yes
unwait 20 yes
waiting tree 4 21,22,
unwait 22 yes
unwait 20 no
# A lease goes with its last open, not with its first.
close 12 yes
lowest 17 9 10
key 17 9 1
orphan 10 yes
lowest 17 9 none
under tree 4 
rejoin 10 1 3 4 yes
lowest 17 9 10
close 10 yes
key 17 9 none
# What others stand on stays; then it goes.
untree 7 no
close 11 yes
close 13 yes
untree 7 yes
unsession 6 yes";

/// The guid or lease key that is made of this byte.
fn guid(byte: u64) -> [u8; 16] {
    [(byte % 256) as u8; 16]
}

/// The number that a word says, of 32 bits.
fn small(words: &mut Split<char>) -> u32 {
    (number(next(words)) % 1_000_000) as u32
}

fn key(words: &mut Split<char>) -> LeaseKey {
    LeaseKey {
        client: guid(number(next(words))),
        key: guid(number(next(words))),
    }
}

fn connect(state: &mut SmbState, number: u64) -> Result<bool, AllocError> {
    if state.find_connection(number).is_some() || state.count_connections() >= CONNECTIONS {
        return Ok(false);
    }
    state.add_connection(number, Connection { client: None })?;
    Ok(true)
}

fn negotiate(state: &mut SmbState, number: u64, client: [u8; 16]) -> bool {
    match state.find_connection(number) {
        Some(row) if row.client.is_none() => {
            state.change_connection(
                number,
                Connection {
                    client: Some(client),
                },
            );
            true
        }
        _ => false,
    }
}

fn set_up(
    state: &mut SmbState,
    alloc: Global,
    number: u32,
    connection: u64,
) -> Result<bool, AllocError> {
    let count = state.sessions_on(alloc, connection)?.len();
    if state.find_session(number).is_some() || count >= SESSIONS {
        return Ok(false);
    }
    match state.find_connection(connection) {
        Some(row) if row.client.is_some() => {
            state.add_session(number, Session { connection })?;
            Ok(true)
        }
        _ => Ok(false),
    }
}

fn connect_tree(
    state: &mut SmbState,
    alloc: Global,
    number: u32,
    row: Tree,
) -> Result<bool, AllocError> {
    let count = state.trees_on(alloc, row.connection)?.len();
    if state.find_tree(number).is_some() || count >= TREES {
        return Ok(false);
    }
    match state.find_session(row.session) {
        Some(session) if session.connection == row.connection => {
            state.add_tree(number, row)?;
            Ok(true)
        }
        _ => Ok(false),
    }
}

fn place_of(words: &mut Split<char>) -> Place {
    Place {
        connection: number(next(words)),
        session: small(words),
        tree: small(words),
    }
}

/// An open of the file by the tree connect at the place, under the lease of this key unless that is 0.
fn row_of(file: u32, place: Place, client: u64, key: u64) -> Open {
    Open {
        file,
        client: guid(client),
        lease: if key == 0 { None } else { Some(guid(key)) },
        durable: false,
        holder: Holder::Tree(place),
    }
}

fn open(state: &mut SmbState, number: u32, place: Place, row: Open) -> Result<bool, AllocError> {
    if state.find_open(number).is_some() || state.count_opens() >= OPENS {
        return Ok(false);
    }
    if !state.has_place(&place, &row.client) {
        return Ok(false);
    }
    state.add_open(
        number,
        Open {
            holder: Holder::Tree(place),
            ..row
        },
    )?;
    Ok(true)
}

/// Puts the open under the lease of file 1, which is new if it has no open yet.
fn lease(
    state: &mut SmbState,
    alloc: Global,
    key: LeaseKey,
    number: u32,
) -> Result<bool, AllocError> {
    if !state.is_under(&key, 1, number) {
        return Ok(false);
    }
    match state.find_lease(&key) {
        Some(lease) if lease.file == 1 => {
            state.join_lease(&key, number)?;
            Ok(true)
        }
        Some(_) => Ok(false),
        None => {
            let opens = Sequence::from_slice(alloc, &[number])?;
            state.add_lease(key, Lease { file: 1, opens })?;
            Ok(true)
        }
    }
}

/// Gives the open another holder: nobody, or its client by the tree connect at the place.
fn hold(state: &mut SmbState, number: u32, place: Option<Place>) -> bool {
    let Some(found) = state.find_open(number) else {
        return false;
    };
    let row = *found;
    match place {
        None => {
            let holder = Holder::Nobody(Moment(60_000));
            state.change_open(number, Open { holder, ..row });
            true
        }
        Some(place) => {
            if !state.has_place(&place, &row.client) {
                return false;
            }
            let holder = Holder::Tree(place);
            state.change_open(number, Open { holder, ..row });
            true
        }
    }
}

fn close(state: &mut SmbState, alloc: Global, number: u32) -> bool {
    if state.find_open(number).is_none() {
        return false;
    }
    state.close(alloc, number);
    true
}

fn disconnect_tree(state: &mut SmbState, alloc: Global, number: u32) -> Result<bool, AllocError> {
    let count = state.under(alloc, Scope::Tree(number))?.len();
    if state.find_tree(number).is_none() || count > 0 {
        return Ok(false);
    }
    state.drop_tree(number);
    Ok(true)
}

fn log_off(state: &mut SmbState, alloc: Global, number: u32) -> Result<bool, AllocError> {
    let count = state.trees_of(alloc, number)?.len();
    if state.find_session(number).is_none() || count > 0 {
        return Ok(false);
    }
    state.drop_session(number);
    Ok(true)
}

fn wait(
    state: &mut SmbState,
    alloc: Global,
    number: u32,
    opened: u32,
    message: u64,
    request: Request,
) -> Result<bool, AllocError> {
    let place = match request {
        Request::Create(row) => row.holder,
        Request::Lock => match state.find_open(opened) {
            Some(row) => row.holder,
            None => return Ok(false),
        },
    };
    let Holder::Tree(place) = place else {
        return Ok(false);
    };
    if state.find_waiting(number).is_some() || state.count_waiting() >= WAITING {
        return Ok(false);
    }
    let header = Header {
        credit_charge: 1,
        flags: 0,
        message_id: message,
        tree_id: place.tree,
        session_id: place.session as u64,
    };
    let behind = Sequence::new(alloc);
    state.add_waiting(
        number,
        Waiting {
            header,
            place,
            opened,
            request,
            behind,
        },
    )?;
    Ok(true)
}

fn cancel(state: &mut SmbState, number: u32) -> bool {
    if state.find_waiting(number).is_none() {
        return false;
    }
    state.drop_waiting(number);
    true
}

fn negotiate_one(state: &mut SmbState, words: &mut Split<char>) -> bool {
    let connection = number(next(words));
    negotiate(state, connection, guid(number(next(words))))
}

fn session_one(
    state: &mut SmbState,
    alloc: Global,
    words: &mut Split<char>,
) -> Result<bool, AllocError> {
    let session = small(words);
    set_up(state, alloc, session, number(next(words)))
}

fn tree_one(
    state: &mut SmbState,
    alloc: Global,
    words: &mut Split<char>,
) -> Result<bool, AllocError> {
    let tree = small(words);
    let session = small(words);
    let connection = number(next(words));
    let row = Tree {
        connection,
        session,
    };
    connect_tree(state, alloc, tree, row)
}

/// What the acts that set up and end answer; None for another act.
fn session_act(
    state: &mut SmbState,
    alloc: Global,
    act: &str,
    words: &mut Split<char>,
) -> Result<Option<bool>, AllocError> {
    Ok(Some(match act {
        "connect" => connect(state, number(next(words)))?,
        "negotiate" => negotiate_one(state, words),
        "session" => session_one(state, alloc, words)?,
        "tree" => tree_one(state, alloc, words)?,
        "untree" => disconnect_tree(state, alloc, small(words))?,
        "unsession" => log_off(state, alloc, small(words))?,
        _ => return Ok(None),
    }))
}

/// An open for reading and writing.
fn open_one(state: &mut SmbState, words: &mut Split<char>) -> Result<bool, AllocError> {
    let opened = small(words);
    let place = place_of(words);
    let client = number(next(words));
    let row = row_of(1, place, client, number(next(words)));
    open(state, opened, place, row)
}

/// A request that waits for a lock.
fn wait_to_lock(
    state: &mut SmbState,
    alloc: Global,
    words: &mut Split<char>,
) -> Result<bool, AllocError> {
    let waiter = small(words);
    let opened = small(words);
    let message = number(next(words));
    wait(state, alloc, waiter, opened, message, Request::Lock)
}

/// A request that waits to open.
fn wait_to_open(
    state: &mut SmbState,
    alloc: Global,
    words: &mut Split<char>,
) -> Result<bool, AllocError> {
    let waiter = small(words);
    let opened = small(words);
    let message = number(next(words));
    let place = Place {
        connection: 1,
        session: 3,
        tree: 4,
    };
    let client = number(next(words));
    let row = row_of(2, place, client, number(next(words)));
    wait(state, alloc, waiter, opened, message, Request::Create(row))
}

fn lease_one(
    state: &mut SmbState,
    alloc: Global,
    words: &mut Split<char>,
) -> Result<bool, AllocError> {
    let key = key(words);
    lease(state, alloc, key, small(words))
}

fn rejoin(state: &mut SmbState, words: &mut Split<char>) -> bool {
    let opened = small(words);
    hold(state, opened, Some(place_of(words)))
}

/// What the acts on opens and leases answer; None for another act.
fn open_act(
    state: &mut SmbState,
    alloc: Global,
    act: &str,
    words: &mut Split<char>,
) -> Result<Option<bool>, AllocError> {
    Ok(Some(match act {
        "open" => open_one(state, words)?,
        "lease" => lease_one(state, alloc, words)?,
        "orphan" => hold(state, small(words), None),
        "rejoin" => rejoin(state, words),
        "close" => close(state, alloc, small(words)),
        _ => return Ok(None),
    }))
}

/// What the acts on requests that wait answer; None for another act.
fn wait_act(
    state: &mut SmbState,
    alloc: Global,
    act: &str,
    words: &mut Split<char>,
) -> Result<Option<bool>, AllocError> {
    Ok(Some(match act {
        "wait" => wait_to_lock(state, alloc, words)?,
        "create" => wait_to_open(state, alloc, words)?,
        "unwait" => cancel(state, small(words)),
        _ => return Ok(None),
    }))
}

fn scope(words: &mut Split<char>) -> Scope {
    match next(words) {
        "connection" => Scope::Connection(number(next(words))),
        "session" => Scope::Session(small(words)),
        _ => Scope::Tree(small(words)),
    }
}

fn list(alloc: Global, numbers: &[u32]) -> Result<String, AllocError> {
    let mut text = String::new(alloc);
    for number in numbers {
        text.push_str(&format!(in alloc; "{number},")?)?;
    }
    Ok(text)
}

fn text(alloc: Global, number: Option<u32>) -> Result<String, AllocError> {
    match number {
        Some(number) => format!(in alloc; "{number}"),
        None => format!(in alloc; "none"),
    }
}

/// What a search answers.
fn found(
    state: &SmbState,
    alloc: Global,
    act: &str,
    words: &mut Split<char>,
) -> Result<String, AllocError> {
    match act {
        "lowest" => text(alloc, state.lowest_open(&key(words))),
        "key" => text(alloc, state.key_file(&key(words))),
        "message" => {
            let connection = number(next(words));
            text(
                alloc,
                state.waiting_by_message(connection, number(next(words))),
            )
        }
        "waiting" => list(alloc, state.waiting_under(alloc, scope(words))?.as_slice()),
        _ => list(alloc, state.under(alloc, scope(words))?.as_slice()),
    }
}

/// What an act answers; None for a search.
fn acted(
    state: &mut SmbState,
    alloc: Global,
    act: &str,
    words: &mut Split<char>,
) -> Result<Option<bool>, AllocError> {
    if let Some(done) = session_act(state, alloc, act, words)? {
        return Ok(Some(done));
    }
    if let Some(done) = open_act(state, alloc, act, words)? {
        return Ok(Some(done));
    }
    wait_act(state, alloc, act, words)
}

fn passes(state: &mut SmbState, alloc: Global, row: &str) -> Result<bool, AllocError> {
    if row.starts_with('#') {
        return Ok(true);
    }
    let mut words = row.split(' ');
    let act = next(&mut words);
    if let Some(done) = acted(state, alloc, act, &mut words)? {
        return Ok(done == (next(&mut words) == "yes"));
    }
    let answer = found(state, alloc, act, &mut words)?;
    Ok(answer.as_str() == next(&mut words))
}

/// The first row that is answered otherwise, or that runs out of memory.
fn first_wrong(state: &mut SmbState, alloc: Global) -> Option<&'static str> {
    for row in ROWS.lines() {
        if !matches!(passes(state, alloc, row), Ok(true)) {
            return Some(row);
        }
    }
    None
}

/// The same from an empty state.
fn wrong_row(alloc: Global) -> Option<&'static str> {
    let mut state = SmbState::new(alloc);
    state.links();
    first_wrong(&mut state, alloc)
}

#[test]
fn a_state_of_smb(rt: HostRuntime) {
    let wrong = wrong_row(rt.alloc());
    assert!(rt; wrong.is_none(), "{wrong:?}");
}
