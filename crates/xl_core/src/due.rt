//! Whose answers to breaks are due.
ghost use Rattle.std.specs.Prelude.{◌≡◌, map, IfOk};
ghost use Rattle.std.specs.Ordering.{nat_cmp};
ghost use Rattle.std.specs.Cmp.Lexicographic.{slice_cmp};
ghost use Rattle.xl_base.specs.Lists.{sorted};
ghost use Rattle.xl_core.specs.BreakAnswers.{deadline_of, due_row, due_key, row_due_before, due};
ghost use Rattle.xl_core.specs.Whole.{state_of};

use crate::parts::Parts;
use std::alloc::{AllocError, Global};
use std::cmp::Ordering;
use xl_base::Sequence;
use xl_matrix::{Claim, What};
use xl_names::{Names, party_text};

/// A cache with the text of its party, by which it stands in order.
#[derive(Drop)]
pub(crate) struct DueRow {
    pub text: Sequence<u8>,
    pub cache: Claim,
}

fn deadline_of(what: What) -> u64
    ensures { result ≡ deadline_of what }
{
    match what {
        What::Cache(_, Some(running)) => running.deadline.0,
        _ => 0,
    }
}

fn due_row(alloc: Global, names: &Names, cache: &Claim) -> Result<DueRow, AllocError>
    ensures { IfOk result (λ r. r ≡ due_row names.now cache.now) }
{
    let text = party_text(alloc, names, cache.party)?;
    Ok(DueRow {
        text: Sequence::from_vec(text.into_bytes()),
        cache: *cache,
    })
}

fn due_rows(alloc: Global, names: &Names, caches: &[Claim]) -> Result<Vec<DueRow>, AllocError>
    ensures { IfOk result (λ v. v.items ≡ map (due_row names.now) caches.now) }
{
    let mut rows = Vec::new(alloc);
    for cache in caches {
        rows.push(due_row(alloc, names, cache)?)?;
    }
    Ok(rows)
}

/// Which of two caches is due first: by the deadline, then the file, then the text of the party.
fn due_order(a: &DueRow, b: &DueRow) -> Ordering
    ensures { result ≡ slice_cmp nat_cmp (due_key a.now) (due_key b.now) }
{
    let deadlines = deadline_of(a.cache.what).cmp(&deadline_of(b.cache.what));
    let files = a.cache.file.cmp(&b.cache.file);
    let texts = a.text.as_slice().cmp(b.text.as_slice());
    deadlines.then(files.then(texts))
}

/// The rows in order.
fn in_order(rows: Vec<DueRow>) -> Result<Vec<DueRow>, AllocError>
    ensures { IfOk result (λ v. v.items ≡ sorted row_due_before rows.items) }
{
    let mut rows = rows;
    rows.sort_by(|a, b| due_order(a, b))?;
    Ok(rows)
}

/// The caches whose deadline has come, in the order in which they are due.
pub(crate) fn due(alloc: Global, parts: &Parts) -> Result<Vec<DueRow>, AllocError>
    ensures { IfOk result (λ v. map (λ r. r.cache) v.items ≡ due (state_of parts.now)) }
{
    let caches = parts.table.due(alloc, parts.clock)?;
    let rows = in_order(due_rows(alloc, &parts.names, &caches)?)?;
    Ok(rows)
}
