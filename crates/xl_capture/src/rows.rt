//! Claims as the transcript shows them.
ghost use Rattle.std.specs.Prelude.{◌≡◌, ◌++◌, OnOk, IfOk, string_bytes};
ghost use Rattle.xl_capture.specs.Rows.{holder_text, row_of, class_of, range_key, row_cmp, class_word, letters, extent_words, kind_word, target_word, break_words, what_words, row_line};

use std::alloc::{AllocError, Global};
use std::cmp::Ordering;
use std::fmt::Write;
use xl_base::Sequence;
use xl_matrix::{Break, CacheKind, Claim, Extent, Rwd, What};
use xl_names::{Names, owner_text, party_text};

/// A claim as the transcript shows it.
#[derive(Drop)]
pub struct Row {
    /// The file's number.
    pub file: u32,
    /// The text of who holds it.
    pub holder: Sequence<u8>,
    /// What is claimed.
    pub what: What,
}

/// The text of who holds a claim: the owner of a share or a range, the party of a cache.
fn holder_text(alloc: Global, names: &Names, claim: &Claim) -> Result<String, AllocError>
    ensures { IfOk result (λ text. string_bytes text ≡ holder_text names.now claim.now.owner claim.now.party claim.now.what) }
{
    match claim.what {
        What::Share(..) | What::Range(..) => owner_text(alloc, names, claim.owner),
        What::Cache(..) => party_text(alloc, names, claim.party),
    }
}

/// A claim as its row.
pub fn row_of(alloc: Global, names: &Names, claim: &Claim) -> Result<Row, AllocError>
    ensures { IfOk result (λ r. r ≡ row_of names.now claim.now) }
{
    let text = holder_text(alloc, names, claim)?;
    Ok(Row {
        file: claim.file,
        holder: Sequence::from_vec(text.into_bytes()),
        what: claim.what,
    })
}

/// The place of what is claimed among shares, ranges and caches.
fn class_of(what: What) -> u8
    ensures { result ≡ class_of what }
{
    match what {
        What::Share(..) => 0,
        What::Range(..) => 1,
        What::Cache(..) => 2,
    }
}

/// What parts two ranges of one holder: the first byte, whether there are bytes, the last, and the mode.
fn range_key(what: What) -> [u64; 4]
    ensures { result ≡ range_key what }
{
    match what {
        What::Range(Extent::Bytes(first, last), exclusive) => [
            first,
            1,
            last,
            u64::from(!exclusive),
        ],
        What::Range(Extent::Empty(offset), exclusive) => [offset, 0, 0, u64::from(!exclusive)],
        _ => [0; 4],
    }
}

/// How a row stands to another: by file, then shares, ranges, caches, then by the holder's text, then ranges by their
/// bytes and modes.
#[tactic(auto, unfolding(crate::specs::Rows::row_cmp))]
pub fn row_cmp(a: &Row, b: &Row) -> Ordering
    ensures { result ≡ row_cmp a.now b.now }
{
    let by_holder = a.holder.as_slice().cmp(b.holder.as_slice());
    let by_range = range_key(a.what).cmp(&range_key(b.what));
    let by_class = class_of(a.what).cmp(&class_of(b.what));
    a.file
        .cmp(&b.file)
        .then(by_class.then(by_holder.then(by_range)))
}

fn class_word(what: What) -> &'static str
    ensures { result.now ≡ class_word what }
{
    match what {
        What::Share(..) => "share",
        What::Range(..) => "range",
        What::Cache(..) => "cache",
    }
}

/// The letters of an access or of what is denied, a dash if there is none.
fn letters(access: Rwd) -> &'static str
    ensures { result.now ≡ letters access }
{
    match (access.r, access.w, access.d) {
        (false, false, false) => "-",
        (true, false, false) => "r",
        (false, true, false) => "w",
        (true, true, false) => "rw",
        (false, false, true) => "d",
        (true, false, true) => "rd",
        (false, true, true) => "wd",
        (true, true, true) => "rwd",
    }
}

/// Adds the first and the last byte; of a range without a byte its offset and a dash.
fn put_extent(text: &mut String, extent: Extent) -> Result<(), AllocError>
    ensures { OnOk result (string_bytes text.new ≡ string_bytes text.old ++ extent_words extent) }
{
    match extent {
        Extent::Bytes(first, last) => write!(text, "{first} {last}")?,
        Extent::Empty(offset) => write!(text, "{offset} -")?,
    }
    Ok(())
}

fn kind_word(kind: CacheKind) -> &'static str
    ensures { result.now ≡ kind_word kind }
{
    match kind {
        CacheKind::R => "R",
        CacheKind::RH => "RH",
        CacheKind::RW => "RW",
        CacheKind::RWH => "RWH",
        CacheKind::ReadDeleg => "ReadDeleg",
        CacheKind::WriteDeleg => "WriteDeleg",
    }
}

fn target_word(target: Option<CacheKind>) -> &'static str
    ensures { result.now ≡ target_word target }
{
    match target {
        Some(kind) => kind_word(kind),
        None => "none",
    }
}

/// Adds what a running break leaves of the cache, and when its answer is due.
fn put_break(text: &mut String, running: Option<Break>) -> Result<(), AllocError>
    ensures { OnOk result (string_bytes text.new ≡ string_bytes text.old ++ break_words running) }
{
    if let Some(running) = running {
        let target = target_word(running.target);
        let deadline = running.deadline.0;
        write!(text, " > {target} {deadline}")?;
    }
    Ok(())
}

/// Adds what is claimed.
#[tactic(auto, unfolding(crate::specs::Rows::what_words))]
fn put_what(text: &mut String, what: What) -> Result<(), AllocError>
    ensures { OnOk result (string_bytes text.new ≡ string_bytes text.old ++ what_words what) }
{
    match what {
        What::Share(access, deny) => {
            text.push_str(letters(access))?;
            text.push_str(" ")?;
            text.push_str(letters(deny))?;
        }
        What::Range(extent, exclusive) => {
            put_extent(text, extent)?;
            text.push_str(if exclusive { " x" } else { " s" })?;
        }
        What::Cache(kind, running) => {
            text.push_str(kind_word(kind))?;
            put_break(text, running)?;
        }
    }
    Ok(())
}

/// Adds a text to bytes.
fn put_text(bytes: &mut Vec<u8>, text: &str) -> Result<(), AllocError>
    ensures { OnOk result (bytes.new.items ≡ bytes.old.items ++ text.now) }
{
    bytes.extend_from_slice(text.as_bytes())
}

/// Adds the line of a row.
#[tactic(auto, unfolding(crate::specs::Rows::row_line))]
pub fn put_row(alloc: Global, bytes: &mut Vec<u8>, row: &Row) -> Result<(), AllocError>
    ensures { OnOk result (bytes.new.items ≡ bytes.old.items ++ row_line row.now) }
{
    let file = row.file;
    let class = class_word(row.what);
    put_text(bytes, &format!(in alloc; "{file} {class} ")?)?;
    bytes.extend_from_slice(row.holder.as_slice())?;
    let mut words = String::new(alloc);
    put_what(&mut words, row.what)?;
    put_text(bytes, &format!(in alloc; " {words}\n")?)?;
    Ok(())
}
