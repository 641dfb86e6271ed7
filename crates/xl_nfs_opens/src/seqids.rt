//! What is kept of an owner's requests (RFC 7530 9.1.7, 9.1.8).
ghost use Rattle.std.specs.Prelude.{◌≡◌, true, None, Some, IsSome, option_copied, OnOk, [], ◌++◌, ◌∷◌};
ghost use Rattle.std.specs.List.{find};
ghost use Rattle.xl_nfs_state.specs.State.{is_client, is_owner, is_kept, next_owner, with_kept};
ghost use Rattle.xl_nfs_opens.specs.Seqids.{advances, closed_gone, counted, is_opener, is_room_for, kept_for, opener_number, remembered, seated, seated_new};

use crate::opener::Opener;
use std::alloc::{AllocError, Global};
use xl_base::Sequence;
use xl_nfs::NfsStatus;
use xl_nfs_state::{
    KeptRow, NfsState, OwnerName, OwnerNamed, OwnerRow, ResultBytes, SeqidState, Whose,
};

/// Whether a request that ends so counts: its owner's seqid advances, and the result is kept.
pub fn advances(status: NfsStatus) -> bool
    ensures { result ≡ advances status }
{
    !matches!(
        status,
        NfsStatus::StaleClientId
            | NfsStatus::StaleStateid
            | NfsStatus::BadStateid
            | NfsStatus::BadSeqid
            | NfsStatus::BadXdr
            | NfsStatus::Resource
            | NfsStatus::NoFileHandle
    )
}

/// What an owner's last request closed is known no more.
fn drop_closed(state: &mut NfsState, closed: Option<u64>)
    ensures { state.new ≡ closed_gone closed state.old }
{
    if let Some(number) = closed {
        state.drop_stateids(Whose::Stateid(number));
    }
}

/// Keeps a result for the owner of this number, in the place of the one before.
pub(crate) fn keep_for(
    state: &mut NfsState,
    owner: u64,
    bytes: ResultBytes,
) -> Result<(), AllocError>
    ensures { OnOk result (state.new ≡ kept_for owner bytes state.old) }
{
    if state.find_kept(owner).is_some() {
        state.change_kept(owner, bytes);
        return Ok(());
    }
    if state.find_owner(owner).is_some() {
        add_kept(state, owner, bytes)?;
    }
    Ok(())
}

/// Keeps a result for the owner of this number, which has none.
fn add_kept(state: &mut NfsState, owner: u64, bytes: ResultBytes) -> Result<(), AllocError>
    requires new { find (is_kept owner) state.old.kept ≡ None }
    requires owner { IsSome (find (is_owner owner) state.old.owners) }
    ensures { OnOk result (state.new ≡ with_kept state.old (state.old.kept ++ record { owner = owner; result = bytes } ∷ [])) }
{
    match state.add_kept(KeptRow {
        owner,
        result: bytes,
    }) {
        Ok(()) => Ok(()),
        Err(_) => Err(AllocError),
    }
}

/// A request of the owner of this number, which is there, counted: this result is kept of it, and what an earlier one
/// closed is known no more.
#[tactic(auto, unfolding(crate::specs::Seqids::counted))]
pub fn count(
    state: &mut NfsState,
    owner: u64,
    closed: Option<u64>,
    seqids: SeqidState,
    bytes: ResultBytes,
) -> Result<(), AllocError>
    requires { IsSome (find (is_owner owner) state.old.owners) }
    ensures { OnOk result (state.new ≡ counted owner closed seqids bytes state.old) }
{
    state.change_owner(owner, seqids);
    drop_closed(state, closed);
    keep_for(state, owner, bytes)?;
    Ok(())
}

/// The row of the owner.
pub fn find_opener<'a>(state: &'a NfsState, opener: &Opener) -> Option<&'a OwnerRow>
    ensures { option_copied result ≡ find (is_opener opener.now) state.now.owners }
{
    state.find_owner_named(OwnerNamed {
        client: opener.client,
        kind: opener.kind,
        owner: opener.owner.as_slice(),
    })
}

/// Whether there is room for the owner.
pub fn is_room_for(state: &NfsState, opener: &Opener) -> bool
    ensures { result ≡ is_room_for opener.now state.now }
{
    find_opener(state, opener).is_some() || state.next_owner().is_some()
}

/// The number of the owner, or that which it gets.
pub fn opener_number(state: &NfsState, opener: &Opener) -> u64
    ensures { result ≡ opener_number opener.now state.now }
{
    match find_opener(state, opener) {
        Some(row) => row.number,
        None => state.next_owner().unwrap_or(0),
    }
}

/// A new owner comes, if there is room.
fn seat_new(
    alloc: Global,
    state: &mut NfsState,
    opener: &Opener,
    seqids: SeqidState,
) -> Result<(), AllocError>
    requires client { IsSome (find (is_client opener.now.client true) state.old.clients) }
    requires new { find (is_opener opener.now) state.old.owners ≡ None }
    ensures { OnOk result (state.new ≡ seated_new opener.now seqids state.old (next_owner state.old.owners)) }
{
    let Some(number) = state.next_owner() else {
        return Ok(());
    };
    let owner = Sequence::from_slice(alloc, opener.owner.as_slice())?;
    let name = OwnerName {
        client: opener.client,
        kind: opener.kind,
        owner,
    };
    match state.add_owner(
        alloc,
        OwnerRow {
            number,
            name,
            seqids,
        },
    ) {
        Ok(()) => Ok(()),
        Err(_) => Err(AllocError),
    }
}

/// The owner's requests have come this far; a new owner comes, if there is room.
#[tactic(auto, unfolding(crate::specs::Seqids::seated), using(crate::proofs::OwnerLaws::named_there))]
pub(crate) fn seat(
    alloc: Global,
    state: &mut NfsState,
    opener: &Opener,
    seqids: SeqidState,
) -> Result<(), AllocError>
    requires { IsSome (find (is_client opener.now.client true) state.old.clients) }
    ensures { OnOk result (state.new ≡ seated opener.now seqids state.old) }
{
    let Some(row) = find_opener(state, opener) else {
        return seat_new(alloc, state, opener, seqids);
    };
    let (number, closed) = (row.number, row.seqids.closed);
    state.change_owner(number, seqids);
    drop_closed(state, closed);
    Ok(())
}

/// A request of the owner counted; if there is no room for a new owner nothing is kept of it.
#[tactic(auto, unfolding(crate::specs::Seqids::remembered))]
pub fn remember(
    alloc: Global,
    state: &mut NfsState,
    opener: &Opener,
    seqids: SeqidState,
    bytes: ResultBytes,
) -> Result<(), AllocError>
    requires { IsSome (find (is_client opener.now.client true) state.old.clients) }
    ensures { OnOk result (state.new ≡ remembered opener.now seqids bytes state.old) }
{
    if is_room_for(state, opener) {
        let number = opener_number(state, opener);
        seat(alloc, state, opener, seqids)?;
        keep_for(state, number, bytes)?;
    }
    Ok(())
}
