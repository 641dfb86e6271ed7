//! The transcript of a journal.
ghost use Rattle.std.specs.Prelude.{◌≡◌, ◌++◌, map, OnOk, IfOk, string_bytes};
ghost use Rattle.xl_base.specs.Lists.{sorted};
ghost use Rattle.xl_capture.specs.Rows.{row_of, row_before};
ghost use Rattle.xl_capture.specs.Transcript.{dest_words, out_line, out_lines, entry_lines, row_lines, transcript};

use crate::rows::{Row, put_row, row_cmp, row_of};
use std::alloc::{AllocError, Global};
use std::fmt::Write;
use xl_base::{Dest, Entry, Out};
use xl_matrix::Claim;
use xl_names::{Names, put_hex_word};

/// Adds where an out goes.
#[tactic(auto, unfolding(crate::specs::Transcript::dest_words))]
fn put_dest(alloc: Global, text: &mut String, out: &Out) -> Result<(), AllocError>
    ensures { OnOk result (string_bytes text.new ≡ string_bytes text.old ++ dest_words out.now.dest out.now.to) }
{
    match out.dest {
        Dest::Conn(number) => write!(text, " c{number}")?,
        Dest::Back(call) => {
            write!(text, " b{call} ")?;
            put_hex_word(alloc, text, out.to.as_slice())?;
        }
    }
    Ok(())
}

/// Adds the line of an out.
#[tactic(auto, unfolding(crate::specs::Transcript::out_line))]
fn put_out(alloc: Global, text: &mut String, place: u64, out: &Out) -> Result<(), AllocError>
    ensures { OnOk result (string_bytes text.new ≡ string_bytes text.old ++ out_line place out.now) }
{
    write!(text, "{place}")?;
    put_dest(alloc, text, out)?;
    text.push_str(" ")?;
    put_hex_word(alloc, text, out.bytes.as_slice())?;
    text.push_str("\n")?;
    Ok(())
}

/// Adds the lines of an entry's outs.
fn put_outs(alloc: Global, text: &mut String, place: u64, outs: &[Out]) -> Result<(), AllocError>
    ensures { OnOk result (string_bytes text.new ≡ string_bytes text.old ++ out_lines place outs.now) }
{
    for out in outs {
        put_out(alloc, text, place, out)?;
    }
    Ok(())
}

/// Adds the lines of entries.
fn put_entries(alloc: Global, text: &mut String, entries: &[Entry]) -> Result<(), AllocError>
    ensures { OnOk result (string_bytes text.new ≡ string_bytes text.old ++ entry_lines 0 entries.now) }
{
    for (place, entry) in entries.iter().enumerate() {
        put_outs(alloc, text, place as u64, entry.outs.as_slice())?;
    }
    Ok(())
}

/// The rows of claims.
fn rows_of(alloc: Global, names: &Names, claims: &[Claim]) -> Result<Vec<Row>, AllocError>
    ensures { IfOk result (λ v. v.items ≡ map (row_of names.now) claims.now) }
{
    let mut rows = Vec::new(alloc);
    for claim in claims {
        rows.push(row_of(alloc, names, claim)?)?;
    }
    Ok(rows)
}

/// The rows in order.
fn in_order(rows: Vec<Row>) -> Result<Vec<Row>, AllocError>
    ensures { IfOk result (λ v. v.items ≡ sorted row_before rows.items) }
{
    let mut rows = rows;
    rows.sort_by(|a, b| row_cmp(a, b))?;
    Ok(rows)
}

/// Adds the lines of rows.
fn put_rows(alloc: Global, bytes: &mut Vec<u8>, rows: &[Row]) -> Result<(), AllocError>
    ensures { OnOk result (bytes.new.items ≡ bytes.old.items ++ row_lines rows.now) }
{
    for row in rows {
        put_row(alloc, bytes, row)?;
    }
    Ok(())
}

/// The transcript of a journal's entries: a line for each out, in order, and then a line for each claim that is held
/// after them. These stand in the order of the file; then shares, ranges and caches; then the text of the owner, or of a
/// cache's party, by its bytes; then the first byte, the last byte (a range without one first), and exclusive before
/// shared.
#[tactic(auto, unfolding(crate::specs::Transcript::claim_lines))]
pub fn transcript(
    alloc: Global,
    entries: &[Entry],
    claims: &[Claim],
    names: &Names,
) -> Result<Vec<u8>, AllocError>
    ensures { IfOk result (λ text. text.items ≡ transcript entries.now claims.now names.now) }
{
    let mut text = String::new(alloc);
    put_entries(alloc, &mut text, entries)?;
    let mut bytes = text.into_bytes();
    let rows = in_order(rows_of(alloc, names, claims)?)?;
    put_rows(alloc, &mut bytes, &rows)?;
    Ok(bytes)
}
