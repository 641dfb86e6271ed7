//! The claims by file, so that a change moves no claim of another file.
ghost use Rattle.std.specs.Prelude.{◌≡◌, ◌<◌, ◌≤◌, ◌+◌, [], length, vec_len, IfSome, IfNone, IfOk, nat_lt, IsTrue, ◌↔◌};
ghost use Rattle.std.specs.List.{prefix_len};
ghost use Rattle.xl_table.specs.Files.{joined, IsFiled, IsAt, here};
ghost use Rattle.xl_table.specs.Pages.{paged, AreFull};

use crate::page::Page;
use std::alloc::{AllocFailed, Global};

/// A file's claims, in their order.
#[derive(Drop)]
pub struct OnFile {
    pub(crate) file: u32,
    pub(crate) pages: Vec<Page>,
}

/// How many lists stand before those of the file and of all behind it.
fn count_before(lists: &[OnFile], file: u32) -> usize
    requires { IsFiled lists.now }
    ensures count { result ≡ prefix_len (λ l. nat_lt l.file file) lists.now }
    ensures within { result ≤ length lists.now }
{
    lists.partition_point(|list| list.file < file)
}

#[tactic(auto, using(crate::proofs::FileLaws::at_same, crate::proofs::FileLaws::not_at))]
fn is_at(lists: &[OnFile], file: u32, at: usize) -> bool
    ensures { IsTrue result ↔ IsAt file at lists.now }
{
    at < lists.len() && lists[at].file == file
}

/// The place of the file's list, if there is one.
#[tactic(auto, using(crate::proofs::FileLaws::at_within, crate::proofs::FileLaws::none_here))]
pub(crate) fn find_file(lists: &[OnFile], file: u32) -> Option<usize>
    requires { IsFiled lists.now }
    ensures found { IfSome result (λ at. IsAt file at lists.now × (at < length lists.now)) }
    ensures none { IfNone result (here file (joined lists.now) ≡ []) }
{
    let at = count_before(lists, file);
    if is_at(lists, file, at) {
        Some(at)
    } else {
        None
    }
}

/// The pages with the claims on the file.
pub(crate) fn on_file(lists: &[OnFile], file: u32) -> &[Page]
    requires { IsFiled lists.now }
    ensures claims { paged result.now ≡ here file (joined lists.now) }
    ensures full { AreFull result.now }
{
    match find_file(lists, file) {
        Some(at) => &lists[at].pages,
        None => &[],
    }
}

/// The place of the file's list, which is put there if there is none. After an error the claims are as they were.
pub(crate) fn open_file(
    alloc: Global,
    lists: &mut Vec<OnFile>,
    file: u32,
) -> Result<usize, AllocFailed<OnFile>>
    requires { IsFiled lists.old.items }
    ensures same { joined lists.new.items ≡ joined lists.old.items }
    ensures filed { IsFiled lists.new.items }
    ensures at { IfOk result (λ at. IsAt file at lists.new.items × (at < vec_len lists.new)) }
{
    let at = count_before(lists.as_slice(), file);
    if is_at(lists.as_slice(), file, at) {
        return Ok(at);
    }
    let pages = Vec::new(alloc);
    lists.insert(at, OnFile { file, pages })?;
    Ok(at)
}
