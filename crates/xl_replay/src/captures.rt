//! A capture that is replayed, and what is written of it.
ghost use Rattle.std.specs.Prelude.{◌≡◌, ◌≢◌, ℕ, ◌≤◌, [], length, true, false, Ok, IfOk, IfSome};
ghost use Rattle.xl_base.specs.Outside.{Rose, Added, Began};
ghost use Rattle.xl_capture.specs.Transcript.{entry_lines};
ghost use Rattle.xl_house.specs.Awaited.{IsServed};
ghost use Rattle.xl_house.specs.Housed.{is_spoiled};
ghost use Rattle.xl_house.specs.Journals.{IsLegal, IsOrderly, most_entries};
ghost use Rattle.xl_house.specs.Lawful.{Always};
ghost use Rattle.xl_house.specs.State.{start_of};
ghost use Rattle.xl_jobs.specs.Jobs.{head_of};
ghost use Rattle.xl_replay.specs.Captures.{BeginsAs, IsCutAt, IsReplayed, IsUnstartedAt, is_done, is_failed, is_full, is_housed, is_stepped, outs_transcript, transcript_from, whole_transcript};
ghost use Rattle.xl_replay.specs.Replays.{IsEnded, IsLeft, IsWhole, entries_left, head_left, stores_of};
ghost use Rattle.xl_jobs.specs.Jobs.{is_unstarted, is_unstored};

use crate::replayer::Replayer;
use crate::step::{Replayed, step_all};
use std::alloc::{AllocError, Global};
use std::sync::Wait;
use xl_base::{BudgetKeeper, Exports, Halt, Journal, Sequence, Sink, WriteOutcome};
use xl_capture::{Capture, Step, transcript};
use xl_house::{Ended, House};
use xl_jobs::{Report, Written, idle, journal_in, start};
use xl_names::Names;

/// Writes the transcript of a house's journal.
#[tactic(auto, using(xl_jobs::proofs::WriteLaws::began_none, xl_jobs::proofs::WriteLaws::began_all))]
fn write_whole<O: Sink>(alloc: Global, house: &House<BudgetKeeper>, out: &mut O) -> Written
    requires { is_spoiled house.now.halt ≡ false }
    ensures all { result ≡ Written.All → Added (O.held out.old) (transcript_from house.now.head house.now.entries) (O.held out.new) }
    ensures began { Began (O.held out.old) (transcript_from house.now.head house.now.entries) (O.held out.new) }
    ensures failed { result ≡ Written.Failed → Rose (O.faults out.old) (O.faults out.new) }
    ensures still { result ≢ Written.Failed → O.faults out.new ≡ O.faults out.old }
{
    let Ok(claims) = house.dump(alloc) else {
        return Written::NoMemory;
    };
    let Ok(text) = transcript(alloc, house.outs_from(0), &claims, house.names()) else {
        return Written::NoMemory;
    };
    match out.write(&text) {
        WriteOutcome::Wrote => Written::All,
        WriteOutcome::Failed => Written::Failed,
    }
}

/// Writes the transcript of a journal's outs.
#[tactic(auto, using(xl_jobs::proofs::WriteLaws::began_none, xl_jobs::proofs::WriteLaws::began_all, crate::proofs::CaptureLaws::outs_alone))]
fn write_outs<O: Sink>(alloc: Global, journal: &Journal, out: &mut O) -> Written
    ensures all { result ≡ Written.All → Added (O.held out.old) (outs_transcript journal.now) (O.held out.new) }
    ensures began { Began (O.held out.old) (outs_transcript journal.now) (O.held out.new) }
    ensures failed { result ≡ Written.Failed → Rose (O.faults out.old) (O.faults out.new) }
    ensures still { result ≢ Written.Failed → O.faults out.new ≡ O.faults out.old }
{
    let Ok(text) = transcript(alloc, journal.entries.as_slice(), &[], &Names::new(alloc)) else {
        return Written::NoMemory;
    };
    match out.write(&text) {
        WriteOutcome::Wrote => Written::All,
        WriteOutcome::Failed => Written::Failed,
    }
}

/// The journal of a replay.
fn journal_left(replayed: Replayed) -> Journal
    requires left { IsLeft replayed.left replayed.ended }
    ensures journal { (result.head ≡ head_left replayed.left) × (result.entries ≡ entries_left replayed.left) }
    ensures legal { IsLegal (start_of result.head) result.entries }
    ensures served { Always IsServed (start_of result.head) result.entries }
    ensures orderly { IsOrderly [] 0 result.entries }
    ensures most { length result.entries ≤ most_entries }
{
    match replayed.left {
        Ok(house) => journal_in(house),
        Err(ended) => ended.journal,
    }
}

/// How many stores of each step succeed.
fn stores_of(alloc: Global, steps: &[Step]) -> Result<Sequence<u64>, AllocError>
    ensures { IfOk result (λ stores. stores ≡ stores_of steps.now) }
{
    let mut stores = Sequence::new(alloc);
    for step in steps {
        stores.push(step.stores)?;
    }
    Ok(stores)
}

/// Makes the steps of a capture, from the start of a server that finds the capture's record. None comes if memory runs out at that start.
fn step_capture<R: Wait>(rt: &R, alloc: Global, capture: Capture) -> Option<Replayed>
    ensures head { IfSome result (λ r. head_left r.left ≡ head_of capture) }
    ensures ended { IfSome result (λ r. IsEnded (start_of (head_of capture)) capture.steps (entries_left r.left) r.ended) }
    ensures left { IfSome result (λ r. IsLeft r.left r.ended) }
{
    let Capture {
        files,
        addresses,
        lease,
        grace,
        break_time,
        stable,
        steps,
    } = capture;
    let exports = Exports {
        files,
        addresses: addresses.into_sequence(),
        lease,
        grace,
        break_time,
    };
    let Ok(stores) = stores_of(alloc, steps.as_slice()) else {
        return None;
    };
    let house = start(alloc, exports, stable)?;
    Some(step_all(rt, alloc, Replayer::new(house, stores), steps.into_vec()))
}

/// Writes the transcript of a house whose last step ended so, if it has one, and gives the status: at a full journal 7, also
/// if the sink failed, and 6 if memory runs out for the transcript (TEXT-13).
#[tactic(auto, using(xl_jobs::proofs::WriteLaws::began_none))]
fn write_house<O: Sink>(
    alloc: Global,
    house: &House<BudgetKeeper>,
    ended: Result<(), Halt>,
    out: &mut O,
) -> u8
    requires whole { IsWhole house.now ended }
    ensures known { is_housed result ≡ true }
    ensures done { result ≡ 0 → is_done ended ≡ true }
    ensures unwritten { result ≡ 3 → is_done ended ≡ true }
    ensures full { result ≡ 7 → is_full ended ≡ true }
    ensures written { result ≡ 0 → Added (O.held out.old) (transcript_from house.now.head house.now.entries) (O.held out.new) }
    ensures began { Began (O.held out.old) (transcript_from house.now.head house.now.entries) (O.held out.new) }
    ensures failed { result ≡ 3 → Rose (O.faults out.old) (O.faults out.new) }
    ensures still { result ≢ 3 → result ≢ 7 → O.faults out.new ≡ O.faults out.old }
    ensures written_full { result ≡ 7 → (Rose (O.faults out.old) (O.faults out.new) → ⊥) → Added (O.held out.old) (transcript_from house.now.head house.now.entries) (O.held out.new) }
{
    match ended {
        Err(Halt::NoMemory) => 6,
        Err(Halt::JournalFull(_)) => match write_whole(alloc, house, out) {
            Written::All | Written::Failed => 7,
            Written::NoMemory => 6,
        },
        Err(Halt::StartStore(_)) => unreachable!(),
        Ok(()) => match write_whole(alloc, house, out) {
            Written::All => 0,
            Written::Failed => 3,
            Written::NoMemory => 6,
        },
    }
}

/// Writes what was sent until a start that failed, without what is held then, and gives the status: 5, also if the sink failed, and 6
/// if memory ran out at the start, or runs out for the text.
#[tactic(auto, using(xl_jobs::proofs::WriteLaws::began_none))]
fn write_unstarted<O: Sink>(alloc: Global, unstarted: &Ended<BudgetKeeper>, out: &mut O) -> u8
    requires full { (count : ℕ) → unstarted.now.halt ≡ Halt.JournalFull count → ⊥ }
    ensures known { is_unstarted result ≡ true }
    ensures store { result ≡ 5 → is_unstored unstarted.now.halt ≡ true }
    ensures written { result ≡ 5 → (Rose (O.faults out.old) (O.faults out.new) → ⊥) → Added (O.held out.old) (outs_transcript unstarted.now.journal) (O.held out.new) }
    ensures began { Began (O.held out.old) (outs_transcript unstarted.now.journal) (O.held out.new) }
    ensures still { result ≢ 5 → O.faults out.new ≡ O.faults out.old }
{
    match unstarted.halt {
        Halt::NoMemory => 6,
        Halt::JournalFull(_) => unreachable!(),
        Halt::StartStore(_) => match write_outs(alloc, &unstarted.journal, out) {
            Written::All | Written::Failed => 5,
            Written::NoMemory => 6,
        },
    }
}

/// Writes what is to be told of a replay, and gives the status.
fn write_replayed<O: Sink>(alloc: Global, replayed: &Replayed, out: &mut O) -> u8
    requires left { IsLeft replayed.now.left replayed.now.ended }
    ensures known { is_stepped result ≡ true }
    ensures done { result ≡ 0 → is_done replayed.now.ended ≡ true }
    ensures unwritten { result ≡ 3 → is_done replayed.now.ended ≡ true }
    ensures full { result ≡ 7 → is_full replayed.now.ended ≡ true }
    ensures unstarted { result ≡ 5 → is_failed replayed.now.ended ≡ true }
    ensures written { result ≡ 0 → Added (O.held out.old) (transcript_from (head_left replayed.now.left) (entries_left replayed.now.left)) (O.held out.new) }
    ensures began { Began (O.held out.old) (transcript_from (head_left replayed.now.left) (entries_left replayed.now.left)) (O.held out.new) }
    ensures failed { result ≡ 3 → Rose (O.faults out.old) (O.faults out.new) }
    ensures still { result ≢ 3 → result ≢ 5 → result ≢ 7 → O.faults out.new ≡ O.faults out.old }
    ensures written_full { result ≡ 7 → (Rose (O.faults out.old) (O.faults out.new) → ⊥) → Added (O.held out.old) (transcript_from (head_left replayed.now.left) (entries_left replayed.now.left)) (O.held out.new) }
    ensures written_outs { result ≡ 5 → (Rose (O.faults out.old) (O.faults out.new) → ⊥) → Added (O.held out.old) (entry_lines 0 (entries_left replayed.now.left)) (O.held out.new) }
{
    match &replayed.left {
        Ok(house) => write_house(alloc, house, replayed.ended, out),
        Err(unstarted) => write_unstarted(alloc, unstarted, out),
    }
}

/// Replays a capture, from the start of a server that finds the capture's record, and writes its transcript to the sink. The status is 0
/// if all is done, 3 if the sink failed, 5 at a start that failed, of which the outs before it alone are written, 6 if memory ran out, and
/// 7 at an event that met a full journal; the line is 0.
pub fn replay<O: Sink, R: Wait>(rt: &R, alloc: Global, capture: Capture, out: &mut O) -> Report
    ensures known { is_stepped result.status ≡ true }
    ensures line { result.line ≡ 0 }
    ensures replayed { result.status ≡ 0 → IsReplayed (Ok capture) result.journal }
    ensures unwritten { result.status ≡ 3 → IsReplayed (Ok capture) result.journal }
    ensures begun { BeginsAs capture result.journal }
    ensures full { result.status ≡ 7 → IsCutAt most_entries (Ok capture) result.journal }
    ensures unstarted { result.status ≡ 5 → IsUnstartedAt most_entries (Ok capture) result.journal }
    ensures written { result.status ≡ 0 → Added (O.held out.old) (whole_transcript result.journal) (O.held out.new) }
    ensures began { Began (O.held out.old) (whole_transcript result.journal) (O.held out.new) }
    ensures failed { result.status ≡ 3 → Rose (O.faults out.old) (O.faults out.new) }
    ensures still { result.status ≢ 3 → result.status ≢ 5 → result.status ≢ 7 → O.faults out.new ≡ O.faults out.old }
    ensures written_full { result.status ≡ 7 → (Rose (O.faults out.old) (O.faults out.new) → ⊥) → Added (O.held out.old) (whole_transcript result.journal) (O.held out.new) }
    ensures written_outs { result.status ≡ 5 → (Rose (O.faults out.old) (O.faults out.new) → ⊥) → Added (O.held out.old) (outs_transcript result.journal) (O.held out.new) }
    ensures legal { IsLegal (start_of result.journal.head) result.journal.entries }
    ensures served { Always IsServed (start_of result.journal.head) result.journal.entries }
    ensures orderly { IsOrderly [] 0 result.journal.entries }
    ensures most { length result.journal.entries ≤ most_entries }
{
    let Some(replayed) = step_capture(rt, alloc, capture) else {
        return idle(alloc, 6, 0);
    };
    let status = write_replayed(alloc, &replayed, out);
    let journal = journal_left(replayed);
    Report {
        status,
        line: 0,
        journal,
    }
}
