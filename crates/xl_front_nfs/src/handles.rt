//! Operations on the current filehandle.
ghost use Rattle.std.specs.Prelude.{◌≡◌, ℕ, []};
ghost use Rattle.xl_nfs_state.specs.State.{NfsLists};
ghost use Rattle.xl_core.specs.State.{CoreState};
ghost use Rattle.xl_front_nfs.specs.Handles.{put_root_fh, put_file, put_fh, get_fh, look_up};
ghost use Rattle.xl_nfs_opens.specs.Files.{file_named};
ghost use Rattle.xl_nfs_opens.specs.Plans.{carried};

use xl_base::{Sequence, file_of};
use xl_nfs::NfsStatus;
use xl_nfs_opens::{ROOT, Told, file_named};

/// It failed so, and the current handle stays.
fn failed(status: NfsStatus, current: Option<u32>) -> (Told, Option<u32>)
    ensures told { result.0 ≡ Told.Ended status }
    ensures handle { result.1 ≡ current }
{
    (Told::Ended(status), current)
}

/// PUTROOTFH.
#[tactic(auto, unfolding(crate::specs::Handles::put_root_fh))]
pub(crate) fn put_root_fh() -> (Told, Option<u32>)
    ensures { (n : ℕ) (s : CoreState) (l : NfsLists) → carried n s l (put_root_fh l) ≡ (result.0, result.1, [], l, s) }
{
    (Told::Ended(NfsStatus::Ok), Some(ROOT))
}

/// The file of a handle becomes the current one, if it is one of so many.
fn put_file(count: usize, current: Option<u32>, file: Option<u32>) -> (Told, Option<u32>)
    ensures { (n : ℕ) (s : CoreState) (l : NfsLists) → carried n s l (put_file count l current file) ≡ (result.0, result.1, [], l, s) }
{
    let Some(number) = file else {
        return failed(NfsStatus::BadHandle, current);
    };
    if number as usize > count {
        return failed(NfsStatus::Stale, current);
    }
    (Told::Ended(NfsStatus::Ok), file)
}

/// PUTFH, if so many files are exported.
#[tactic(auto, unfolding(crate::specs::Handles::put_fh))]
pub(crate) fn put_fh(count: usize, current: Option<u32>, fh: &[u8]) -> (Told, Option<u32>)
    ensures { (n : ℕ) (s : CoreState) (l : NfsLists) → carried n s l (put_fh count l current fh.now) ≡ (result.0, result.1, [], l, s) }
{
    put_file(count, current, file_of(fh))
}

/// GETFH.
#[tactic(auto, unfolding(crate::specs::Handles::get_fh))]
pub(crate) fn get_fh(current: Option<u32>) -> (Told, Option<u32>)
    ensures { (n : ℕ) (s : CoreState) (l : NfsLists) → carried n s l (get_fh l current) ≡ (result.0, result.1, [], l, s) }
{
    match current {
        Some(file) => (Told::Handle(file), current),
        None => failed(NfsStatus::NoFileHandle, current),
    }
}

/// LOOKUP.
#[tactic(auto, unfolding(crate::specs::Handles::look_up))]
pub(crate) fn look_up(
    files: &[Sequence<u8>],
    current: Option<u32>,
    name: &[u8],
) -> (Told, Option<u32>)
    ensures { (n : ℕ) (s : CoreState) (l : NfsLists) → carried n s l (look_up files.now l current name.now) ≡ (result.0, result.1, [], l, s) }
{
    let Some(file) = current else {
        return failed(NfsStatus::NoFileHandle, current);
    };
    if file != ROOT {
        return failed(NfsStatus::NotDir, current);
    }
    if name.is_empty() {
        return failed(NfsStatus::Inval, current);
    }
    match file_named(files, name) {
        Some(found) => (Told::Ended(NfsStatus::Ok), Some(found)),
        None => failed(NfsStatus::NoEnt, current),
    }
}
