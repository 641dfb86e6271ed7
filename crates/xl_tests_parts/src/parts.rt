//! The parts below the core, and what the fronts keep.

use std::alloc::{AllocError, Global};
use std::str::Split;

mod base;
mod caches;
mod exact;
mod grace;
mod matrix;
mod names;
mod nfs_state;
mod records;
mod smb_state;
mod spans;
mod table;
mod wait;

/// The next word of a row; it is empty if none is left.
fn next<'a>(words: &mut Split<'a, char>) -> &'a str {
    words.next().unwrap_or("")
}

fn number(word: &str) -> u64 {
    word.parse().unwrap_or(99)
}

/// What the rows of a table tell, each for itself.
#[derive(Clone, Copy)]
enum Rows {
    Handles,
    Pairs,
    Files,
    Names,
    Seqids,
    Targets,
    Plans,
    Covered,
    Wishes,
    Joins,
    Levels,
}

const TABLES: [(Rows, &str); 11] = [
    (Rows::Handles, base::HANDLES),
    (Rows::Pairs, matrix::PAIRS),
    (Rows::Files, records::FILES),
    (Rows::Names, names::TEXTS),
    (Rows::Seqids, nfs_state::SEQIDS),
    (Rows::Targets, caches::TARGETS),
    (Rows::Plans, caches::PLANS),
    (Rows::Covered, caches::COVERED),
    (Rows::Wishes, caches::WISHES),
    (Rows::Joins, caches::JOINS),
    (Rows::Levels, caches::LEVELS),
];

/// Whether a row of a table of caches is as told.
fn is_cache_row(alloc: Global, table: Rows, row: &str) -> Result<bool, AllocError> {
    match table {
        Rows::Targets => Ok(caches::is_target(row)),
        Rows::Plans => caches::plans(alloc, row),
        Rows::Covered => caches::blocks(alloc, row),
        Rows::Wishes => caches::gets(alloc, row),
        Rows::Joins => Ok(caches::is_join(row)),
        _ => caches::is_numbered(alloc, row),
    }
}

/// Whether a row of a table is as told.
fn is_right(alloc: Global, table: Rows, row: &str) -> Result<bool, AllocError> {
    match table {
        Rows::Handles => Ok(base::is_handle(row)),
        Rows::Pairs => Ok(matrix::is_pair(row)),
        Rows::Files => records::is_as_told(alloc, row),
        Rows::Names => Ok(names::is_right(alloc, row)),
        Rows::Seqids => Ok(nfs_state::is_judged(row)),
        _ => is_cache_row(alloc, table, row),
    }
}

/// The first row of a table that isn't as told, or for which memory runs out.
fn wrong_row(alloc: Global, table: Rows, rows: &'static str) -> Option<&'static str> {
    for row in rows.lines() {
        if !matches!(is_right(alloc, table, row), Ok(true)) {
            return Some(row);
        }
    }
    None
}

#[test]
fn tables(rt: HostRuntime) {
    for (table, rows) in TABLES {
        let wrong = wrong_row(rt.alloc(), table, rows);
        assert!(rt; wrong.is_none(), "{wrong:?}");
    }
}
