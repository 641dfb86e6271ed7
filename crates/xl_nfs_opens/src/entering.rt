//! Opens that come and change.
ghost use Rattle.std.specs.Prelude.{◌≡◌, ◌+◌, false, true, None, Some, IfSome, OnOk, not, is_some};
ghost use Rattle.std.specs.List.{find};
ghost use Rattle.xl_nfs.specs.Opens.{shown_open_args};
ghost use Rattle.xl_nfs_state.specs.State.{is_stateid, owned_on};
ghost use Rattle.xl_nfs_opens.specs.Opens.{can_enter, either_bits, entered, flags_of, has_room, open_held, open_row, open_seqids, stood, bits_of, live};

use crate::opener::Opener;
use crate::renewing::FIRST_SEQID;
use crate::seqids::{find_opener, is_room_for};
use crate::shares::{SHARE_BOTH, SHARE_NONE, SHARE_READ, SHARE_WRITE, rights_of};
use std::alloc::{AllocError, Global};
use xl_nfs::{OpenArgs, operation};
use xl_nfs_state::{Holder, MOST_OPENS, NfsState, SeqidState, Standing, StateidRow, Whose};

/// The access or deny that has these rights.
fn bits_of(read: bool, write: bool) -> u32
    ensures { result ≡ bits_of read write }
{
    match (read, write) {
        (true, true) => SHARE_BOTH,
        (false, true) => SHARE_WRITE,
        (true, false) => SHARE_READ,
        (false, false) => SHARE_NONE,
    }
}

/// The rights of both.
#[tactic(auto, unfolding(crate::specs::Opens::either_bits))]
pub(crate) fn either_bits(a: u32, b: u32) -> u32
    ensures { result ≡ either_bits a b }
{
    let p = rights_of(a);
    let q = rights_of(b);
    bits_of(p.r || q.r, p.w || q.w)
}

/// How far the owner's requests have come with this one.
pub(crate) fn open_seqids(args: &OpenArgs, confirmed: bool) -> SeqidState
    ensures { result ≡ open_seqids (shown_open_args args.now) confirmed }
{
    SeqidState {
        seqid: args.seqid,
        op: operation::OPEN,
        confirmed,
        closed: None,
    }
}

/// OPEN4_RESULT_CONFIRM: the owner has to confirm the open (RFC 7531).
const OPEN_RESULT_CONFIRM: u32 = 2;

/// No flags of an OPEN's result.
const NO_FLAGS: u32 = 0;

/// The flags of an OPEN's result.
pub(crate) fn flags_of(confirmed: bool) -> u32
    ensures { result ≡ flags_of confirmed }
{
    if confirmed {
        NO_FLAGS
    } else {
        OPEN_RESULT_CONFIRM
    }
}

/// What the owner of this number has on the file, unless it is an open that was closed: an open owner its open, and a lock
/// owner its locks.
#[tactic(auto, using(crate::proofs::OwnerLaws::open_there))]
pub fn held_on(state: &NfsState, owner: u64, file: u32) -> Option<StateidRow>
    ensures value { result ≡ live (find (owned_on owner file) state.now.stateids) }
    ensures there { IfSome result (λ row. (find (is_stateid row.number) state.now.stateids ≡ Some row) × (row.standing.closed ≡ false)) }
{
    let _count = state.stateid_count();
    match state.find_owned(owner, file) {
        Some(row) if !row.standing.closed => Some(*row),
        _ => None,
    }
}

/// The open that the owner has on the file.
pub(crate) fn open_held(state: &NfsState, opener: &Opener, file: u32) -> Option<StateidRow>
    ensures value { result ≡ open_held state.now opener.now file }
    ensures there { IfSome result (λ row. (find (is_stateid row.number) state.now.stateids ≡ Some row) × (row.standing.closed ≡ false)) }
{
    let row = find_opener(state, opener)?;
    held_on(state, row.number, file)
}

/// Whether there is room for the owner and for the open, beside so many opens of others.
pub(crate) fn has_room(state: &NfsState, others: u32, opener: &Opener, file: u32) -> bool
    ensures { result ≡ has_room others state.now opener.now file }
{
    is_room_for(state, opener)
        && (open_held(state, opener, file).is_some()
            || state.open_count() as u64 + u64::from(others) < MOST_OPENS as u64)
}

/// The open of this number, new.
pub(crate) fn open_row(
    number: u64,
    opener: &Opener,
    owner: u64,
    file: u32,
    args: &OpenArgs,
) -> StateidRow
    ensures { result ≡ open_row number opener.now owner file (shown_open_args args.now) }
{
    StateidRow {
        number,
        client: opener.client,
        file,
        holder: Holder::Open(owner),
        standing: Standing {
            seqid: FIRST_SEQID,
            access: args.access,
            deny: args.deny,
            closed: false,
        },
    }
}

/// Whether nothing stands in the open's place.
fn is_free(state: &NfsState, owner: u64, file: u32) -> bool
    ensures { result ≡ not (is_some (find (owned_on owner file) state.now.stateids)) }
{
    state.find_owned(owner, file).is_none()
}

/// Whether the open of this owner can come.
fn can_enter(state: &NfsState, owner: u64, row: &StateidRow) -> bool
    requires { row.now.holder ≡ Holder.Open owner }
    ensures { result ≡ can_enter row.now state.now }
{
    is_free(state, owner, row.file) && state.can_hang(row) && state.open_count() < MOST_OPENS
}

/// An open of this owner comes, and nothing stays that stood under its number before.
#[tactic(auto, unfolding(crate::specs::Opens::entered), using(crate::proofs::OwnerLaws::number_gone))]
pub(crate) fn enter(
    alloc: Global,
    state: &mut NfsState,
    owner: u64,
    row: StateidRow,
) -> Result<(), AllocError>
    requires { row.holder ≡ Holder.Open owner }
    ensures { OnOk result (state.new ≡ entered row state.old) }
{
    state.drop_stateids(Whose::Stateid(row.number));
    if !can_enter(state, owner, &row) {
        return Ok(());
    }
    match state.add_stateid(alloc, row) {
        Ok(()) => Ok(()),
        Err(_) => Err(AllocError),
    }
}

/// What changes of the open, which isn't closed.
pub fn stand(state: &mut NfsState, row: &StateidRow, access: u32, deny: u32, closed: bool)
    requires there { find (is_stateid row.now.number) state.old.stateids ≡ Some row.now }
    requires open { row.now.standing.closed ≡ false }
    ensures { state.new ≡ stood row.now.number row.now access deny closed state.old }
{
    let standing = Standing {
        seqid: row.standing.seqid.wrapping_add(1),
        access,
        deny,
        closed,
    };
    state.change_stateid(row.number, standing);
}
