//! What an NFSv4 server keeps: clients, owners with their seqids and kept results, stateids, and what hangs on what.

ghost use Rattle.std.specs.Prelude.{◌≡◌};
ghost use Rattle.xl_nfs_state.specs.declared.stateid.Holder.TheVariants.{Lock};

use super::next;
use std::alloc::{AllocError, Global};
use std::str::Split;
use xl_base::{Moment, Sequence};
use xl_nfs_state::{
    Callback, ClientDetails, ClientRow, Holder, KeptRow, MOST_CLIENTS, MOST_OPENS, NfsState,
    OwnerKind, OwnerName, OwnerNamed, OwnerRow, ResultBytes, SeqidState, SeqidVerdict, Standing,
    StateidRow, Whose, verdict,
};

/// The operation and seqid of the last request (a dash for a new owner), those of the request, and the verdict.
pub(super) const SEQIDS: &str = "\
- - 18 0 new
- - 18 4294967295 new
18 0 18 1 next
18 0 4 1 next
18 0 18 0 repeat
18 0 4 0 bad0
18 0 18 2 bad0
18 0 18 4294967295 bad0
18 4294967295 18 0 next
18 4294967295 18 4294967295 repeat
18 4294967295 12 4294967295 bad4294967295
18 4294967295 18 1 bad4294967295
4 4294967294 4 4294967295 next
4 5 4 5 repeat
4 5 4 7 bad5
4 5 4 4 bad5";

fn small(word: &str) -> u32 {
    word.parse().unwrap_or(99)
}

fn seqids(op: &str, seqid: &str) -> Option<SeqidState> {
    if op == "-" {
        return None;
    }
    Some(SeqidState {
        seqid: small(seqid),
        op: small(op),
        confirmed: true,
        closed: None,
    })
}

fn is_verdict(found: SeqidVerdict, word: &str) -> bool {
    match found {
        SeqidVerdict::New => word == "new",
        SeqidVerdict::Next => word == "next",
        SeqidVerdict::Repeat => word == "repeat",
        SeqidVerdict::Bad(last) => match word.strip_prefix("bad") {
            Some(digits) => small(digits) == last,
            None => false,
        },
    }
}

fn next_seqids(words: &mut Split<'_, char>) -> Option<SeqidState> {
    seqids(next(words), next(words))
}

fn next_verdict(words: &mut Split<'_, char>) -> SeqidVerdict {
    verdict(next_seqids(words), small(next(words)), small(next(words)))
}

pub(super) fn is_judged(row: &str) -> bool {
    let mut words = row.split(' ');
    is_verdict(next_verdict(&mut words), next(&mut words))
}

/// What is done to a state, or looked for in it. A number of 0 that is looked for stands for none; owners and stateids are those
/// of client 1.
enum Step {
    /// A record of a client comes: its number, whether it is confirmed, its id string, and the moment of its coming or its lease.
    Comes(u32, bool, &'static [u8], u64),
    Confirms(u32),
    /// The details of a confirmed client change.
    Changes(u32),
    /// The records that aren't confirmed go by this moment.
    Due(u64),
    ClientIs(u32, bool, u32),
    ClientNamed(&'static [u8], bool, u32),
    /// No longer id string that begins with this one finds a confirmed client.
    NoneGoesOn(&'static [u8]),
    ClientIsIdle(u32),
    ForgetsClient(u32),
    /// An owner of this kind and name comes, under this number; 0 if none may.
    OwnerComes(OwnerKind, &'static [u8], u64),
    /// So many open owners come, whose names are their numbers.
    OwnersCome(u32),
    OwnerNamed(OwnerKind, &'static [u8], u64),
    /// An owner's request of this operation is taken, with its seqid.
    Advances(u64, u32, u32),
    SeqidIs(u64, u32),
    OwnerGoes(u64),
    ForgetsOwner(u64),
    NextOwner(u64),
    /// A result is kept for an owner, anew or in place of the one before.
    Keeps(u64, &'static [u8]),
    Kept(u64, &'static [u8]),
    KeptGoes(u64),
    /// An open comes: its number, its file, its owner.
    Opens(u64, u32, u64),
    /// Locks of owner 2 come: their number, their file, the open that they are under, which is owner 1's.
    Locks(u64, u32, u64),
    Delegation(u64, u32),
    Closes(u64),
    StateidGoes(u64),
    AllGo(Whose),
    Owned(u64, u32, u64),
    Delegated(u32, u64),
    /// The first of those that are meant, and how many they are.
    Listed(Whose, u64, usize),
    /// How many clients, owners, kept results, opens that aren't closed and stateids there are.
    Counts([usize; 5]),
}

/// A record of a client; its callback program is one more than its number.
fn client(
    alloc: Global,
    number: u32,
    confirmed: bool,
    id: &[u8],
    time: u64,
) -> Result<ClientRow, AllocError> {
    Ok(ClientRow {
        number,
        confirmed,
        id: Sequence::from_slice(alloc, id)?,
        details: details(alloc, number, time)?,
    })
}

fn details(alloc: Global, number: u32, time: u64) -> Result<ClientDetails, AllocError> {
    Ok(ClientDetails {
        verifier: [1; 8],
        confirm: [2; 8],
        callback: Callback {
            program: number.wrapping_add(1),
            netid: Sequence::from_slice(alloc, b"tcp")?,
            address: Sequence::from_slice(alloc, b"127.0.0.1.8.1")?,
            ident: 7,
        },
        time: Moment(time),
    })
}

/// Adds a record, if there is room and none has its keys.
fn adds_client(alloc: Global, state: &mut NfsState, row: ClientRow) -> bool {
    let None = state.find_client(row.number, row.confirmed) else {
        return false;
    };
    let None = state.find_client_named(row.id.as_slice(), row.confirmed) else {
        return false;
    };
    state.client_count() < MOST_CLIENTS && state.add_client(alloc, row).is_ok()
}

/// Adds the record of a new client, or says that memory ran out.
fn comes(
    alloc: Global,
    state: &mut NfsState,
    number: u32,
    confirmed: bool,
    id: &[u8],
    time: u64,
) -> bool {
    match client(alloc, number, confirmed, id, time) {
        Ok(row) => adds_client(alloc, state, row),
        Err(_) => false,
    }
}

/// Whether none of 1,000 id strings that begin with this one, each longer than the one before, finds a confirmed client.
fn none_goes_on(alloc: Global, state: &NfsState, id: &[u8]) -> Result<bool, AllocError> {
    let mut longer = Vec::from_slice(alloc, id)?;
    for _ in 0..1_000 {
        longer.push(b'a')?;
        if state.find_client_named(&longer, true).is_some() {
            return Ok(false);
        }
    }
    Ok(true)
}

fn has_number(found: Option<&ClientRow>, number: u32) -> bool {
    matches!(found, Some(row) if row.number == number && row.details.callback.program == number.wrapping_add(1))
}

fn confirms(alloc: Global, state: &mut NfsState, number: u32) -> bool {
    let Some(row) = state.find_client(number, false) else {
        return false;
    };
    let Ok(mut row) = row.copy(alloc) else {
        return false;
    };
    row.confirmed = true;
    state.drop_client(number, false);
    adds_client(alloc, state, row)
}

fn changes(alloc: Global, state: &mut NfsState, number: u32) -> bool {
    let Some(_) = state.find_client(number, true) else {
        return false;
    };
    let Ok(later) = details(alloc, 40, 90) else {
        return false;
    };
    state.change_client(number, true, later);
    matches!(state.find_client(number, true), Some(row) if row.details.callback.program == 41)
}

fn named<'a>(kind: OwnerKind, owner: &'a [u8]) -> OwnerNamed<'a>
    ensures { result ≡ record { client = 1; kind = kind; owner = owner.entry } }
{
    OwnerNamed {
        client: 1,
        kind,
        owner,
    }
}

/// Adds an owner of client 1 under the next number, and says which; 0 if none is added.
fn adds_owner(alloc: Global, state: &mut NfsState, kind: OwnerKind, bytes: &[u8]) -> u64 {
    let Some(number) = state.next_owner() else {
        return 0;
    };
    let None = state.find_owner_named(named(kind, bytes)) else {
        return 0;
    };
    let Some(_) = state.find_client(1, true) else {
        return 0;
    };
    let Ok(owner) = Sequence::from_slice(alloc, bytes) else {
        return 0;
    };
    let name = OwnerName {
        client: 1,
        kind,
        owner,
    };
    let seqids = SeqidState {
        seqid: 8,
        op: 18,
        confirmed: false,
        closed: None,
    };
    let row = OwnerRow {
        number,
        name,
        seqids,
    };
    if state.add_owner(alloc, row).is_ok() {
        number
    } else {
        0
    }
}

fn owners_come(alloc: Global, state: &mut NfsState, count: u32) -> bool {
    for number in 0..count {
        if adds_owner(alloc, state, OwnerKind::Open, &number.to_be_bytes()) == 0 {
            return false;
        }
    }
    true
}

fn advances(state: &mut NfsState, number: u64, op: u32, seqid: u32) -> bool {
    let Some(row) = state.find_owner(number) else {
        return false;
    };
    let seqids = row.seqids.accepted(op, seqid);
    state.change_owner(number, seqids);
    matches!(state.find_owner(number), Some(row) if row.seqids.op == op && row.seqids.seqid == seqid)
}

fn drops_owner(state: &mut NfsState, number: u64) -> bool {
    let Some(_) = state.find_owner(number) else {
        return false;
    };
    if !state.is_owner_idle(number) {
        return false;
    }
    state.drop_owner(number);
    true
}

/// Keeps a result for the owner, anew or in place of the one before.
fn keeps(alloc: Global, state: &mut NfsState, owner: u64, bytes: &[u8]) -> bool {
    if bytes.len() > 1_064 {
        return false;
    }
    let Ok(copy) = Sequence::from_slice(alloc, bytes) else {
        return false;
    };
    let result = ResultBytes::new(copy);
    let Some(_) = state.find_owner(owner) else {
        return false;
    };
    match state.find_kept(owner) {
        Some(_) => {
            state.change_kept(owner, result);
            true
        }
        None => state.add_kept(KeptRow { owner, result }).is_ok(),
    }
}

fn drops_kept(state: &mut NfsState, owner: u64) -> bool {
    let Some(_) = state.find_kept(owner) else {
        return false;
    };
    state.drop_kept(owner);
    true
}

fn is_kept(state: &NfsState, owner: u64, bytes: &[u8]) -> bool {
    matches!(state.find_kept(owner), Some(result) if result.as_slice() == bytes)
}

const BEGUN: Standing = Standing {
    seqid: 1,
    access: 3,
    deny: 0,
    closed: false,
};

const CLOSED: Standing = Standing {
    seqid: 2,
    access: 3,
    deny: 0,
    closed: true,
};

/// A stateid of client 1.
fn stateid(number: u64, file: u32, holder: Holder) -> StateidRow
    ensures { result ≡ record { number = number; client = 1; file = file; holder = holder; standing = BEGUN } }
{
    StateidRow {
        number,
        client: 1,
        file,
        holder,
        standing: BEGUN,
    }
}

/// Locks of owner 2 under the open of this number, which is owner 1's.
fn locks(under: u64) -> Holder
    ensures { result ≡ Lock 2 under 1 }
{
    Holder::Lock {
        owner: 2,
        under,
        opener: 1,
    }
}

fn adds_owned(alloc: Global, state: &mut NfsState, number: u64, file: u32, owner: u64) -> bool {
    let row = stateid(number, file, Holder::Open(owner));
    let None = state.find_stateid(number) else {
        return false;
    };
    let None = state.find_owned(owner, file) else {
        return false;
    };
    state.can_hang(&row) && state.open_count() < MOST_OPENS && state.add_stateid(alloc, row).is_ok()
}

fn adds_locks(alloc: Global, state: &mut NfsState, number: u64, file: u32, under: u64) -> bool {
    let row = stateid(number, file, locks(under));
    let None = state.find_stateid(number) else {
        return false;
    };
    let None = state.find_owned(2, file) else {
        return false;
    };
    state.can_hang(&row) && state.add_stateid(alloc, row).is_ok()
}

fn adds_delegation(alloc: Global, state: &mut NfsState, number: u64, file: u32) -> bool {
    let row = stateid(number, file, Holder::Delegation { write: true });
    let None = state.find_stateid(number) else {
        return false;
    };
    let None = state.find_delegation(1, file) else {
        return false;
    };
    state.can_hang(&row) && state.add_stateid(alloc, row).is_ok()
}

fn closes(state: &mut NfsState, number: u64) -> bool {
    let Some(_) = state.find_stateid(number) else {
        return false;
    };
    state.change_stateid(number, CLOSED);
    matches!(state.find_stateid(number), Some(row) if row.standing.closed && row.standing.seqid == 2)
}

fn drops(state: &mut NfsState, number: u64) -> bool {
    let Some(_) = state.find_stateid(number) else {
        return false;
    };
    if !state.is_stateid_idle(number) {
        return false;
    }
    state.drop_stateid(number);
    true
}

fn has(found: Option<&StateidRow>, number: u64) -> bool {
    matches!(found, Some(row) if row.number == number)
}

fn are(alloc: Global, state: &NfsState, whose: Whose, first: u64, count: usize) -> bool {
    match state.list_stateids(alloc, whose) {
        Ok(rows) => rows.len() == count && has(rows.first(), first),
        Err(_) => false,
    }
}

/// Whether a client is found as it is said: none for 0.
fn is_client(found: Option<&ClientRow>, number: u32) -> bool {
    match found {
        None => number == 0,
        found => has_number(found, number),
    }
}

fn is_stateid(found: Option<&StateidRow>, number: u64) -> bool {
    match found {
        None => number == 0,
        found => has(found, number),
    }
}

/// Whether a step of clients comes to what it says; None for another.
fn client_step(alloc: Global, state: &mut NfsState, step: &Step) -> Option<bool> {
    Some(match step {
        Step::Comes(number, confirmed, id, time) => {
            comes(alloc, state, *number, *confirmed, id, *time)
        }
        Step::Confirms(number) => confirms(alloc, state, *number),
        Step::Changes(number) => changes(alloc, state, *number),
        Step::Due(now) => {
            state.drop_due_clients(Moment(*now));
            true
        }
        Step::ClientIs(number, confirmed, found) => {
            is_client(state.find_client(*number, *confirmed), *found)
        }
        Step::ClientNamed(id, confirmed, found) => {
            is_client(state.find_client_named(id, *confirmed), *found)
        }
        Step::NoneGoesOn(id) => matches!(none_goes_on(alloc, state, id), Ok(true)),
        Step::ClientIsIdle(number) => state.is_client_idle(*number),
        Step::ForgetsClient(number) => {
            state.forget_client(*number);
            true
        }
        _ => return None,
    })
}

fn is_owner(found: Option<&OwnerRow>, number: u64) -> bool {
    match found {
        None => number == 0,
        Some(row) => row.number == number,
    }
}

/// Whether a step of owners comes to what it says; None for another.
fn owner_step(alloc: Global, state: &mut NfsState, step: &Step) -> Option<bool> {
    Some(match step {
        Step::OwnerComes(kind, name, number) => adds_owner(alloc, state, *kind, name) == *number,
        Step::OwnersCome(count) => owners_come(alloc, state, *count),
        Step::OwnerNamed(kind, name, number) => {
            is_owner(state.find_owner_named(named(*kind, name)), *number)
        }
        Step::Advances(number, op, seqid) => advances(state, *number, *op, *seqid),
        Step::SeqidIs(number, seqid) => {
            matches!(state.find_owner(*number), Some(row) if row.seqids.seqid == *seqid)
        }
        Step::OwnerGoes(number) => drops_owner(state, *number),
        Step::ForgetsOwner(number) => {
            state.forget_owner(*number);
            true
        }
        Step::NextOwner(number) => state.next_owner() == Some(*number),
        Step::Keeps(owner, bytes) => keeps(alloc, state, *owner, bytes),
        Step::Kept(owner, bytes) => is_kept(state, *owner, bytes),
        Step::KeptGoes(owner) => drops_kept(state, *owner),
        _ => return None,
    })
}

fn counts(state: &NfsState) -> [usize; 5] {
    [
        state.client_count(),
        state.owner_count(),
        state.kept_count(),
        state.open_count(),
        state.stateid_count(),
    ]
}

/// Whether any other step comes to what it says.
fn stateid_step(alloc: Global, state: &mut NfsState, step: &Step) -> bool {
    match step {
        Step::Opens(number, file, owner) => adds_owned(alloc, state, *number, *file, *owner),
        Step::Locks(number, file, under) => adds_locks(alloc, state, *number, *file, *under),
        Step::Delegation(number, file) => adds_delegation(alloc, state, *number, *file),
        Step::Closes(number) => closes(state, *number),
        Step::StateidGoes(number) => drops(state, *number),
        Step::AllGo(whose) => {
            state.drop_stateids(*whose);
            true
        }
        Step::Owned(owner, file, number) => is_stateid(state.find_owned(*owner, *file), *number),
        Step::Delegated(file, number) => is_stateid(state.find_delegation(1, *file), *number),
        Step::Listed(whose, first, count) => are(alloc, state, *whose, *first, *count),
        Step::Counts(wanted) => counts(state) == *wanted,
        _ => false,
    }
}

fn is_done(alloc: Global, state: &mut NfsState, step: &Step) -> bool {
    if let Some(is) = client_step(alloc, state, step) {
        return is;
    }
    if let Some(is) = owner_step(alloc, state, step) {
        return is;
    }
    stateid_step(alloc, state, step)
}

/// Two clients come, and a third of a name that one has doesn't. One is confirmed, others come; of those whose time has come only
/// the one goes that isn't confirmed.
const CLIENTS: &[(Step, bool)] = &[
    (Step::Comes(1, true, b"abcd", 10), true),
    (Step::Comes(2, false, b"abcde", 20), true),
    (Step::Comes(3, false, b"abcde", 20), false),
    (Step::ClientIs(1, true, 1), true),
    (Step::ClientIs(1, false, 0), true),
    (Step::ClientNamed(b"abcde", false, 2), true),
    (Step::ClientNamed(b"abcd", false, 0), true),
    (Step::ClientNamed(b"abcde", true, 0), true),
    (Step::ClientNamed(b"abcd", true, 1), true),
    (Step::Due(19), true),
    (Step::Counts([2, 0, 0, 0, 0]), true),
    (Step::Confirms(2), true),
    (Step::Comes(4, true, b"Z", 12), true),
    (Step::Comes(5, false, b"Z", 15), true),
    (Step::Due(15), true),
    (Step::Counts([3, 0, 0, 0, 0]), true),
    (Step::ClientNamed(b"Z", false, 0), true),
    (Step::Due(20), true),
    (Step::Counts([3, 0, 0, 0, 0]), true),
    (Step::Changes(4), true),
    (Step::ClientIs(1, true, 1), true),
];

/// No owner of a client that is none comes; then one of each kind, once. One with a kept result isn't dropped.
const OWNERS: &[(Step, bool)] = &[
    (Step::OwnerComes(OwnerKind::Open, b"o", 0), true),
    (Step::Comes(1, true, b"c", 10), true),
    (Step::OwnerComes(OwnerKind::Open, b"owner", 1), true),
    (Step::OwnerComes(OwnerKind::Lock, b"owner", 2), true),
    (Step::OwnerComes(OwnerKind::Lock, b"owner", 0), true),
    (Step::OwnerNamed(OwnerKind::Open, b"owne", 0), true),
    (Step::OwnerNamed(OwnerKind::Lock, b"owner", 2), true),
    (Step::Advances(1, 4, 9), true),
    (Step::SeqidIs(2, 8), true),
    (Step::Keeps(1, b"kept"), true),
    (Step::OwnerGoes(1), false),
    (Step::Keeps(1, b"later"), true),
    (Step::Kept(1, b"later"), true),
    (Step::Counts([1, 2, 1, 0, 0]), true),
    (Step::KeptGoes(1), true),
    (Step::OwnerGoes(1), true),
    (Step::Counts([1, 1, 0, 0, 0]), true),
    (Step::OwnerGoes(2), true),
    (Step::NextOwner(1), true),
];

/// Neither a lock owner opens, nor do locks hang under an open of another file, or under no open. An open goes after the locks
/// under it.
const STATEIDS: &[(Step, bool)] = &[
    (Step::Comes(1, true, b"c", 10), true),
    (Step::OwnerComes(OwnerKind::Open, b"o", 1), true),
    (Step::OwnerComes(OwnerKind::Lock, b"l", 2), true),
    (Step::Opens(7, 1, 1), true),
    (Step::Opens(8, 2, 1), true),
    (Step::Locks(9, 1, 7), true),
    (Step::Delegation(10, 1), true),
    (Step::Opens(11, 3, 2), false),
    (Step::Locks(11, 2, 7), false),
    (Step::Locks(11, 2, 10), false),
    (Step::Opens(11, 1, 1), false),
    (Step::Owned(1, 1, 7), true),
    (Step::Owned(2, 1, 9), true),
    (Step::Delegated(1, 10), true),
    (Step::Owned(2, 2, 0), true),
    (Step::Delegated(2, 0), true),
    (Step::Listed(Whose::Owner(1), 7, 3), true),
    (Step::Listed(Whose::Owner(2), 9, 1), true),
    (Step::Listed(Whose::ClientFile(1, 1), 7, 3), true),
    (Step::Listed(Whose::Client(1), 7, 4), true),
    (Step::Listed(Whose::Under(7), 9, 1), true),
    (Step::Listed(Whose::Stateid(7), 7, 2), true),
    (Step::Counts([1, 2, 0, 2, 4]), true),
    (Step::Closes(7), true),
    (Step::Counts([1, 2, 0, 1, 4]), true),
    (Step::StateidGoes(7), false),
    (Step::StateidGoes(9), true),
    (Step::StateidGoes(7), true),
    (Step::Counts([1, 2, 0, 1, 2]), true),
];

/// The locks under an open go, and others may hang under the other open; what belongs to an owner goes with it, and all with the
/// client.
const ENDS: &[(Step, bool)] = &[
    (Step::Comes(1, true, b"c", 10), true),
    (Step::OwnerComes(OwnerKind::Open, b"o", 1), true),
    (Step::OwnerComes(OwnerKind::Lock, b"l", 2), true),
    (Step::Opens(7, 1, 1), true),
    (Step::Opens(8, 2, 1), true),
    (Step::Locks(9, 1, 7), true),
    (Step::Delegation(10, 1), true),
    (Step::Keeps(1, b"kept"), true),
    (Step::Keeps(2, b"kept"), true),
    (Step::ClientIsIdle(1), false),
    (Step::AllGo(Whose::Under(7)), true),
    (Step::Owned(2, 1, 0), true),
    (Step::Locks(12, 2, 8), true),
    (Step::ForgetsOwner(1), true),
    (Step::Counts([1, 1, 1, 0, 1]), true),
    (Step::ForgetsClient(1), true),
    (Step::Counts([0, 0, 0, 0, 0]), true),
    (Step::ClientIsIdle(1), true),
];

/// A client is found by its own id string alone. 8,192 owners come and no more, until one goes.
const LIMITS: &[(Step, bool)] = &[
    (Step::Comes(1, true, b"c", 10), true),
    (Step::ClientNamed(b"c", true, 1), true),
    (Step::NoneGoesOn(b"c"), true),
    (Step::OwnersCome(8_192), true),
    (Step::OwnerComes(OwnerKind::Open, b"owner", 0), true),
    (Step::OwnerGoes(7), true),
    (Step::OwnerComes(OwnerKind::Open, b"owner", 8_193), true),
];

/// The place of the first row that comes to something else.
fn first_wrong(alloc: Global, state: &mut NfsState, rows: &[(Step, bool)]) -> Option<usize> {
    for (place, row) in rows.iter().enumerate() {
        let (step, wanted) = row;
        if is_done(alloc, state, step) != *wanted {
            return Some(place);
        }
    }
    None
}

/// The same from an empty state.
fn wrong_row(alloc: Global, rows: &[(Step, bool)]) -> Option<usize> {
    let mut state = NfsState::new(alloc);
    first_wrong(alloc, &mut state, rows)
}

#[test]
fn a_state_of_nfs(rt: HostRuntime) {
    for rows in [CLIENTS, OWNERS, STATEIDS, ENDS, LIMITS] {
        let wrong = wrong_row(rt.alloc(), rows);
        assert!(rt; wrong.is_none(), "{wrong:?}");
    }
}
