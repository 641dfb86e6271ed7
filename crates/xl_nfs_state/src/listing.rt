//! Walks over the lists.
ghost use Rattle.std.specs.Prelude.{◌≡◌, filter, IfOk};
ghost use Rattle.std.specs.List.{list_any};
ghost use Rattle.xl_nfs_state.specs.State.{is_live, is_open, opens, is_whose};

use crate::filed::{Filed, Picks, Row};
use crate::stateid::{Holder, StateidRow, Whose};
use std::alloc::{AllocError, Global};

/// Whether it is an open that wasn't closed.
pub(crate) fn is_live(row: &StateidRow) -> bool
    ensures { result ≡ is_live row.now }
{
    match row.holder {
        Holder::Open(_) => !row.standing.closed,
        _ => false,
    }
}

/// How many opens there are.
pub(crate) fn count_opens(stateids: &Filed<StateidRow>) -> usize
    ensures { result ≡ opens stateids.now }
{
    let mut count = 0;
    'rows: for place in 0..stateids.len() {
        if let Some(row) = stateids.at(place) {
            if is_live(row) {
                count += 1;
            }
        }
    }
    count
}

/// Whether a row is chosen.
pub(crate) fn has_any<R: Row, P: Picks<R>>(rows: &Filed<R>, which: &P) -> bool
    ensures { result ≡ list_any (P.picks which.now) rows.now }
{
    'rows: for place in 0..rows.len() {
        if let Some(row) = rows.at(place) {
            if which.picks(row) {
                return true;
            }
        }
    }
    false
}

/// The stateids that are meant, in order of arrival.
pub(crate) fn list_stateids(
    alloc: Global,
    stateids: &Filed<StateidRow>,
    whose: Whose,
) -> Result<Vec<StateidRow>, AllocError>
    ensures { IfOk result (λ v. v.items ≡ filter (is_whose whose) stateids.now) }
{
    let mut rows = Vec::new(alloc);
    'rows: for place in 0..stateids.len() {
        if let Some(row) = stateids.at(place) {
            if whose.picks(row) {
                rows.push(*row)?;
            }
        }
    }
    Ok(rows)
}
