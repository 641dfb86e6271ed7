//! The files on which someone may wait whom nothing blocks, so that not all who wait are looked at after each change.
ghost use Rattle.std.specs.List.{AllByRecursion};
ghost use Rattle.std.specs.Prelude.{◌≡◌, ◌==◌, [], ◌∷◌, true, false, IfSome};
ghost use Rattle.xl_core.specs.Settle.{told_with};
ghost use Rattle.xl_core.specs.Unsettled.{is_among, is_none, only_file, may_free, may_change, IsNoted, IsWider, Notes, NotesLeft, NotesGone, NotesOne};
ghost use Rattle.xl_core.specs.declared.unsettled.Unsettled.TheVariants.{Files};

use crate::ask::{Act, Answer, Ask, Effect};
use crate::leaving::waits_with;
use xl_base::Sequence;
use xl_table::{Leaver, Table};
use xl_wait::{Queue, Waiter};

/// The files whose claims changed since all who wait were last found blocked, as far as someone waited there, and those on which
/// someone waits no more.
#[derive(Drop)]
pub(crate) enum Unsettled {
    /// These.
    Files(Sequence<u32>),
    /// Any, since memory ran out while one was noted.
    All,
}

/// Whether the file is one of these.
#[tactic(auto, using(crate::proofs::UnsettledLaws::among_files))]
pub(crate) fn is_among(unsettled: &Unsettled, file: u32) -> bool
    ensures { result ≡ is_among unsettled.now file }
{
    match unsettled {
        Unsettled::Files(files) => files.as_slice().contains(&file),
        Unsettled::All => true,
    }
}

/// Whether there is none of them.
pub(crate) fn is_none(unsettled: &Unsettled) -> bool
    ensures { result ≡ is_none unsettled.now }
{
    match unsettled {
        Unsettled::Files(files) => files.is_empty(),
        Unsettled::All => false,
    }
}

/// The file of a list, if it has one alone.
fn one_of(files: &[u32]) -> Option<u32>
    ensures { result ≡ only_file (Files files.now) }
{
    match files {
        [] => None,
        [file] => Some(*file),
        [_, _, ..] => None,
    }
}

/// The file, if there is one alone.
#[tactic(auto, using(crate::proofs::UnsettledLaws::only_is))]
pub(crate) fn only_file(unsettled: &Unsettled) -> Option<u32>
    ensures value { result ≡ only_file unsettled.now }
    ensures found { IfSome result (λ file. unsettled.now ≡ Files (file ∷ [])) }
{
    match unsettled {
        Unsettled::Files(files) => one_of(files.as_slice()),
        Unsettled::All => None,
    }
}

/// The file is one of them too, which takes memory; if that is wanting they are all.
#[tactic(auto, using(crate::proofs::UnsettledLaws::added_wider, crate::proofs::UnsettledLaws::added_own, crate::proofs::UnsettledLaws::all_wider))]
fn add(unsettled: &mut Unsettled, file: u32)
    ensures wider { IsWider unsettled.old unsettled.new }
    ensures own { is_among unsettled.new file ≡ true }
{
    if let Unsettled::Files(files) = unsettled {
        if files.push(file).is_err() {
            *unsettled = Unsettled::All;
        }
    }
}

/// Notes a file: it is one of them from then on, if someone waits on it.
pub(crate) fn note(queue: &Queue, unsettled: &mut Unsettled, file: u32)
    ensures { Notes unsettled.old unsettled.new file queue.now }
{
    if queue.waits_on(file) && !is_among(unsettled, file) {
        add(unsettled, file);
    }
}

/// Notes each file from which claims go with who leaves.
#[tactic(auto, using(xl_table::proofs::LeavingLaws::fewer_left))]
pub(crate) fn note_left(table: &Table, queue: &Queue, unsettled: &mut Unsettled, leaver: Leaver)
    ensures { NotesLeft unsettled.old unsettled.new leaver table.now queue.now }
{
    let mut past = None;
    'files: while let Some(file) = table.next_left(leaver, past) {
        note(queue, unsettled, file);
        past = Some(file);
    }
}

/// Notes the file on which the waiter waits.
#[tactic(auto, using(crate::proofs::UnsettledLaws::same_wider))]
fn note_of(unsettled: &mut Unsettled, waiter: &Waiter)
    ensures wider { IsWider unsettled.old unsettled.new }
    ensures own { IsNoted unsettled.new waiter.now }
{
    if let [claim, ..] = waiter.asked.as_slice() {
        if !is_among(unsettled, claim.file) {
            add(unsettled, claim.file);
        }
    }
}

/// Notes the file of each of these that waits no more once this one leaves: who waits behind it there may have waited for it.
fn note_each(unsettled: &mut Unsettled, leaver: Leaver, waiters: &[Waiter])
    ensures { NotesGone unsettled.old unsettled.new leaver waiters.now }
{
    'waiters: for waiter in waiters {
        if waits_with(leaver, waiter) {
            note_of(unsettled, waiter);
        }
    }
}

/// The same, where this is told of them. Most often nobody of them goes, and they aren't gone through again.
pub(crate) fn note_gone(
    unsettled: &mut Unsettled,
    leaver: Leaver,
    told: &[Effect],
    waiters: &[Waiter],
)
    requires told { told.now ≡ told_with leaver waiters.now }
    ensures { NotesGone unsettled.old unsettled.new leaver waiters.now }
{
    match told {
        [] => {}
        [_, ..] => note_each(unsettled, leaver, waiters),
    }
}

/// Notes the file of the waiter of this number, who cancels, for the same reason.
pub(crate) fn note_one(unsettled: &mut Unsettled, id: u32, waiters: &[Waiter])
    ensures { NotesOne unsettled.old unsettled.new id waiters.now }
{
    'waiters: for waiter in waiters {
        if waiter.id == id {
            note_of(unsettled, waiter);
        }
    }
}

/// Whether an ask that is answered so may have changed what is held on its file.
fn may_free(act: &Act, answer: Answer) -> bool
    ensures { result ≡ may_free act.now answer }
{
    match (act, answer) {
        (Act::Test(_, _), _) => false,
        (_, Answer::Granted(_)) => true,
        _ => false,
    }
}

/// The same of one that told of these breaks that began.
fn may_change(request: &Ask, answer: Answer, told: &[Effect]) -> bool
    ensures { result ≡ may_change request.now answer told.now }
{
    match told {
        [] => may_free(&request.act, answer),
        [_, ..] => true,
    }
}

/// Notes the file of an ask that was answered so, and told of these breaks that began, if it may have changed what is
/// held there.
pub(crate) fn note_asked(
    queue: &Queue,
    unsettled: &mut Unsettled,
    request: &Ask,
    answer: Answer,
    told: &[Effect],
)
    ensures changed { may_change request.now answer told.now ≡ true → Notes unsettled.old unsettled.new request.now.file queue.now }
    ensures same { may_change request.now answer told.now ≡ false → unsettled.new ≡ unsettled.old }
{
    if may_change(request, answer, told) {
        note(queue, unsettled, request.file);
    }
}
