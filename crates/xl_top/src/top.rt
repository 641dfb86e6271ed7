//! The program's top call.
ghost use Rattle.std.specs.Prelude.{◌≡◌, ◌≢◌, ℕ, ◌+◌, ◌<◌, ◌≤◌, [], ◌++◌, length, map, true, false, List, Option, Some, None, Ok, Err, OnOk, IfOk, IfErr, IfSome, string_bytes, vec_len};
ghost use Rattle.xl_base.specs.Outside.{Rose, Took, Ended, Added, Began};
ghost use Rattle.xl_base.specs.Results.{GivesUnless};
ghost use Rattle.xl_work.specs.Crews.{tells_caller, tells_lane};
ghost use Rattle.xl_capture.specs.Capture.{captured, most_bytes, bad_line};
ghost use Rattle.xl_capture.specs.Show.{shown};
ghost use Rattle.xl_capture.specs.Summary.{granted, denied};
ghost use Rattle.xl_capture.specs.Written.{capture_of};
ghost use Rattle.xl_reclaims.specs.Truthful.{Before, WereHeld};
ghost use Rattle.xl_house.specs.Lawful.{Always, IsLawful, IsWaiting, IsKept, IsComplete, IsCaused, IsTold};
ghost use Rattle.xl_house.specs.Awaited.{IsServed};
ghost use Rattle.xl_house.specs.Fitting.{IsFitting};
ghost use Rattle.xl_house.specs.Recording.{IsAdmitting, IsRecording};
ghost use Rattle.xl_house.specs.Truthful.{AlwaysCut, Happening, happened, NeverCollide};
ghost use Rattle.xl_house.specs.Steady.{IsSteady};
ghost use Rattle.xl_house.specs.Entries.{IsWishing, IsBreaking, IsKeeping, IsPartied};
ghost use Rattle.xl_house.specs.Owed.{IsOwed};
ghost use Rattle.xl_house.specs.Replying.{IsReplied};
ghost use Rattle.xl_house.specs.Notified.{IsNotified};
ghost use Rattle.xl_house.specs.Parted.{IsParted};
ghost use Rattle.xl_house.specs.Asking.{IsAsking};
ghost use Rattle.xl_house.specs.Meant.{IsMeant};
ghost use Rattle.xl_house.specs.Tied.{IsTied};
ghost use Rattle.xl_house.specs.Free.{AlwaysFree};
ghost use Rattle.xl_house.specs.Housed.{Holds};
ghost use Rattle.xl_house.specs.Starts.{IsLoaded};
ghost use Rattle.xl_house.specs.Journals.{replay, IsLegal, IsOrderly, entries_of, most_entries};
ghost use Rattle.xl_house.specs.State.{start_of};
ghost use Rattle.xl_jobs.specs.Jobs.{no_journal};
ghost use Rattle.xl_words.specs.declared.words.Serving.{Serving as TheServing};
ghost use Rattle.xl_words.specs.Words.{job, HasFit, is_reader, is_server};
ghost use Rattle.xl_replay.specs.Captures.{IsReplayed, IsBegun, IsCutAt, IsUnstartedAt, FailsBefore, outs_transcript, whole_transcript};
ghost use Rattle.xl_replay.specs.Replays.{pairs_in};
ghost use Rattle.xl_serve.specs.Serve.{AreIdle, HasRoom, IsServedBy, is_served};
ghost use Rattle.xl_make.specs.Made.{is_made, IsMadePart, made_journal, whole_summary};
ghost use Rattle.xl_top.specs.Job.{is_status, is_read, is_replay, is_shown, is_show, is_idle, AddsShown, BeginsShown, capped, TookMost, exported, is_exported, is_refused, is_serve};

use std::alloc::{AllocError, AllocFailed, Global};
use std::sync::Wait;
use std::thread::Threads;
use xl_base::{Caller, Clock, Exports, Keeper, Lane, ReadOutcome, Sink, Source, WriteOutcome};
use xl_capture::{Capture, CaptureError, MOST_BYTES, read_capture, read_header, show_text};
use xl_jobs::{Report, idle};
use xl_make::make;
use xl_replay::replay;
use xl_serve::{Done, Outside, idle_lanes, serve};
use xl_words::{Job, ParseError, Serving, parse};
use xl_work::LaneDone;

/// Why an input was not read.
#[derive(Clone, Copy)]
enum Unread {
    NoMemory,
    Failed,
}

/// How many bytes one read asks for at most.
const CHUNK: usize = 65536;

fn chunk(alloc: Global) -> Result<Vec<u8>, AllocError>
    ensures { IfOk result (λ v. length v.items ≡ CHUNK) }
{
    vec![in alloc; 0u8; CHUNK]
}

/// Reads once, and adds the bytes to the text. False says that nothing is left.
#[tactic(auto, using(crate::proofs::ReadLaws::took_more, crate::proofs::ReadLaws::most_read))]
fn read_more<I: Source>(
    input: &mut I,
    text: &mut Vec<u8>,
    buffer: &mut [u8],
) -> Result<bool, Unread>
    requires { 0 < length buffer.old }
    ensures took { (whole : Option (List ℕ)) → Took whole text.old.items (I.left input.old) → OnOk result (Took whole text.new.items (I.left input.new)) }
    ensures more { result ≡ Ok true → (length text.old.items < length text.new.items) × (length text.new.items ≤ length text.old.items + length buffer.old) }
    ensures ended { result ≡ Ok false → (text.new.items ≡ text.old.items) × Ended (I.left input.new) }
    ensures most_read { TookMost (length buffer.old) (I.left input.old) (I.left input.new) }
    ensures failed { result ≡ Err Unread.Failed → Rose (I.faults input.old) (I.faults input.new) }
    ensures still { result ≢ Err Unread.Failed → I.faults input.new ≡ I.faults input.old }
{
    match input.read(buffer) {
        ReadOutcome::Got(count) => {
            if text.extend_from_slice(&buffer[..count]).is_err() {
                return Err(Unread::NoMemory);
            }
            Ok(true)
        }
        ReadOutcome::End => Ok(false),
        ReadOutcome::Failed => Err(Unread::Failed),
    }
}

/// Reads the input to its end, or one byte past the most that a capture has.
#[tactic(auto, using(crate::proofs::ReadLaws::most_same, crate::proofs::ReadLaws::most_taken, crate::proofs::ReadLaws::most_behind))]
fn read_all<I: Source>(alloc: Global, input: &mut I) -> Result<Vec<u8>, Unread>
    ensures took { IfOk result (λ v. Took (I.left input.old) v.items (I.left input.new)) }
    ensures most { IfOk result (λ v. length v.items ≤ most_bytes + 1) }
    ensures most_read { TookMost (most_bytes + 1) (I.left input.old) (I.left input.new) }
    ensures ended { IfOk result (λ v. length v.items ≤ most_bytes → Ended (I.left input.new)) }
    ensures failed { result ≡ Err Unread.Failed → Rose (I.faults input.old) (I.faults input.new) }
    ensures still { result ≢ Err Unread.Failed → I.faults input.new ≡ I.faults input.old }
{
    let mut text = Vec::new(alloc);
    let Ok(mut buffer) = chunk(alloc) else {
        return Err(Unread::NoMemory);
    };
    'reads: while text.len() <= MOST_BYTES {
        let most = CHUNK.min(MOST_BYTES + 1 - text.len());
        if !read_more(input, &mut text, &mut buffer[..most])? {
            return Ok(text);
        }
    }
    Ok(text)
}

/// Replays the capture that a text is, and writes its transcript.
#[tactic(auto, using(crate::proofs::JobLaws::replayed_as, crate::proofs::JobLaws::begun_as, crate::proofs::JobLaws::cut_as, crate::proofs::JobLaws::unstarted_as, crate::proofs::JobLaws::bad_as))]
fn replay_text<O: Sink, R: Wait>(rt: &R, alloc: Global, text: &[u8], out: &mut O) -> Report
    ensures known { is_read result.status ≡ true }
    ensures replayed { result.status ≡ 0 → IsReplayed (captured text.now) result.journal }
    ensures unwritten { result.status ≡ 3 → IsReplayed (captured text.now) result.journal }
    ensures full { result.status ≡ 7 → IsCutAt most_entries (captured text.now) result.journal }
    ensures unstarted { result.status ≡ 5 → IsUnstartedAt most_entries (captured text.now) result.journal }
    ensures bad { result.status ≡ 4 → captured text.now ≡ Err result.line }
    ensures line { result.status ≢ 4 → result.line ≡ 0 }
    ensures begun { result.status ≡ 6 → IsBegun (captured text.now) result.journal }
    ensures written { result.status ≡ 0 → Added (O.held out.old) (whole_transcript result.journal) (O.held out.new) }
    ensures began { Began (O.held out.old) (whole_transcript result.journal) (O.held out.new) }
    ensures failed { result.status ≡ 3 → Rose (O.faults out.old) (O.faults out.new) }
    ensures still { result.status ≢ 3 → result.status ≢ 5 → result.status ≢ 7 → O.faults out.new ≡ O.faults out.old }
    ensures written_full { result.status ≡ 7 → (Rose (O.faults out.old) (O.faults out.new) → ⊥) → Added (O.held out.old) (whole_transcript result.journal) (O.held out.new) }
    ensures written_outs { result.status ≡ 5 → (Rose (O.faults out.old) (O.faults out.new) → ⊥) → Added (O.held out.old) (outs_transcript result.journal) (O.held out.new) }
    ensures idle { result.status ≡ 4 → (result.journal ≡ no_journal) × (O.held out.new ≡ O.held out.old) }
    ensures legal { IsLegal (start_of result.journal.head) result.journal.entries }
    ensures served { Always IsServed (start_of result.journal.head) result.journal.entries }
    ensures orderly { IsOrderly [] 0 result.journal.entries }
    ensures most { length result.journal.entries ≤ most_entries }
{
    match read_capture(alloc, text) {
        Ok(capture) => replay(rt, alloc, capture, out),
        Err(CaptureError::BadLine(line)) => idle(alloc, 4, line),
        Err(CaptureError::NoMemory) => idle(alloc, 6, 0),
    }
}

/// Replays the capture that the input has, and writes its transcript.
#[tactic(auto, using(crate::proofs::ReadLaws::read_whole, xl_capture::proofs::EndLaws::read_ended))]
fn replay_input<I: Source, O: Sink, R: Wait>(
    rt: &R,
    alloc: Global,
    input: &mut I,
    out: &mut O,
) -> Report
    ensures known { is_replay result.status ≡ true }
    ensures most_read { TookMost (most_bytes + 1) (I.left input.old) (I.left input.new) }
    ensures read { result.status ≡ 2 → Rose (I.faults input.old) (I.faults input.new) }
    ensures read_still { result.status ≢ 2 → I.faults input.new ≡ I.faults input.old }
    ensures write { result.status ≡ 3 → Rose (O.faults out.old) (O.faults out.new) }
    ensures write_still { result.status ≢ 3 → result.status ≢ 5 → result.status ≢ 7 → O.faults out.new ≡ O.faults out.old }
    ensures written_full { result.status ≡ 7 → (Rose (O.faults out.old) (O.faults out.new) → ⊥) → Added (O.held out.old) (whole_transcript result.journal) (O.held out.new) }
    ensures written_outs { result.status ≡ 5 → (Rose (O.faults out.old) (O.faults out.new) → ⊥) → Added (O.held out.old) (outs_transcript result.journal) (O.held out.new) }
    ensures replayed { (all : List ℕ) → I.left input.old ≡ Some all → result.status ≡ 0 → IsReplayed (captured (capped all)) result.journal }
    ensures unwritten { (all : List ℕ) → I.left input.old ≡ Some all → result.status ≡ 3 → IsReplayed (captured (capped all)) result.journal }
    ensures full { (all : List ℕ) → I.left input.old ≡ Some all → result.status ≡ 7 → IsCutAt most_entries (captured (capped all)) result.journal }
    ensures unstarted { (all : List ℕ) → I.left input.old ≡ Some all → result.status ≡ 5 → IsUnstartedAt most_entries (captured (capped all)) result.journal }
    ensures starts { (all : List ℕ) → I.left input.old ≡ Some all → FailsBefore most_entries (captured (capped all)) → result.status ≢ 2 → result.status ≢ 6 → result.status ≡ 5 }
    ensures bad { (all : List ℕ) → I.left input.old ≡ Some all → result.status ≡ 4 → captured (capped all) ≡ Err result.line }
    ensures line { result.status ≢ 4 → result.line ≡ 0 }
    ensures begun { (all : List ℕ) → I.left input.old ≡ Some all → result.status ≡ 6 → IsBegun (captured (capped all)) result.journal }
    ensures ended { result.status ≡ 0 → Ended (I.left input.new) }
    ensures written { result.status ≡ 0 → Added (O.held out.old) (whole_transcript result.journal) (O.held out.new) }
    ensures began { Began (O.held out.old) (whole_transcript result.journal) (O.held out.new) }
    ensures idle { is_idle result.status ≡ true → (result.journal ≡ no_journal) × (O.held out.new ≡ O.held out.old) }
    ensures legal { IsLegal (start_of result.journal.head) result.journal.entries }
    ensures served { Always IsServed (start_of result.journal.head) result.journal.entries }
    ensures orderly { IsOrderly [] 0 result.journal.entries }
    ensures most { length result.journal.entries ≤ most_entries }
{
    let text = match read_all(alloc, input) {
        Ok(text) => text,
        Err(Unread::Failed) => return idle(alloc, 2, 0),
        Err(Unread::NoMemory) => return idle(alloc, 6, 0),
    };
    replay_text(rt, alloc, &text, out)
}

/// Writes what the lines of a text show.
#[tactic(auto, using(xl_capture::proofs::ShowLaws::shown_ended))]
fn show_given<O: Sink>(alloc: Global, text: &[u8], out: &mut O) -> Report
    ensures known { is_shown result.status ≡ true }
    ensures nothing { result.journal ≡ no_journal }
    ensures line { result.status ≢ 4 → result.line ≡ 0 }
    ensures fit { result.status ≡ 0 → length text.now ≤ most_bytes }
    ensures bad { result.status ≡ 4 → shown text.now ≡ Err result.line }
    ensures written { result.status ≡ 0 → AddsShown (O.held out.old) (shown text.now) (O.held out.new) }
    ensures began { result.status ≡ 3 → BeginsShown (O.held out.old) (shown text.now) (O.held out.new) }
    ensures failed { result.status ≡ 3 → Rose (O.faults out.old) (O.faults out.new) }
    ensures idle { result.status ≢ 0 → result.status ≢ 3 → O.held out.new ≡ O.held out.old }
    ensures still { result.status ≢ 3 → O.faults out.new ≡ O.faults out.old }
{
    match show_text(alloc, text) {
        Ok(lines) => match out.write(&lines) {
            WriteOutcome::Wrote => idle(alloc, 0, 0),
            WriteOutcome::Failed => idle(alloc, 3, 0),
        },
        Err(CaptureError::BadLine(number)) => idle(alloc, 4, number),
        Err(CaptureError::NoMemory) => idle(alloc, 6, 0),
    }
}

/// Shows what the lines of the input say.
#[tactic(auto, using(crate::proofs::ReadLaws::shown_whole))]
fn show_input<I: Source, O: Sink>(alloc: Global, input: &mut I, out: &mut O) -> Report
    ensures known { is_show result.status ≡ true }
    ensures nothing { result.journal ≡ no_journal }
    ensures most_read { TookMost (most_bytes + 1) (I.left input.old) (I.left input.new) }
    ensures read { result.status ≡ 2 → Rose (I.faults input.old) (I.faults input.new) }
    ensures read_still { result.status ≢ 2 → I.faults input.new ≡ I.faults input.old }
    ensures write { result.status ≡ 3 → Rose (O.faults out.old) (O.faults out.new) }
    ensures write_still { result.status ≢ 3 → O.faults out.new ≡ O.faults out.old }
    ensures bad { (all : List ℕ) → I.left input.old ≡ Some all → result.status ≡ 4 → shown (capped all) ≡ Err result.line }
    ensures line { result.status ≢ 4 → result.line ≡ 0 }
    ensures ended { result.status ≡ 0 → Ended (I.left input.new) }
    ensures written { (all : List ℕ) → I.left input.old ≡ Some all → result.status ≡ 0 → AddsShown (O.held out.old) (shown (capped all)) (O.held out.new) }
    ensures began { (all : List ℕ) → I.left input.old ≡ Some all → result.status ≡ 3 → BeginsShown (O.held out.old) (shown (capped all)) (O.held out.new) }
    ensures idle { result.status ≢ 0 → result.status ≢ 3 → O.held out.new ≡ O.held out.old }
{
    let text = match read_all(alloc, input) {
        Ok(text) => text,
        Err(Unread::Failed) => return idle(alloc, 2, 0),
        Err(Unread::NoMemory) => return idle(alloc, 6, 0),
    };
    show_given(alloc, &text, out)
}

/// The end of a run that finds no memory for the lanes.
fn end_starved<K, L: Drop, C, T>(alloc: Global, outside: Outside<K, L, C, T>) -> Done<K, L, C, T>
    ensures report { (result.status ≡ 6) × (result.line ≡ 0) × (result.journal ≡ no_journal) }
    ensures keeper { result.keeper ≡ outside.keeper }
    ensures callers { result.callers ≡ outside.callers }
    ensures clock { result.clock ≡ outside.clock }
{
    let Report {
        status,
        line,
        journal,
    } = idle(alloc, 6, 0);
    let Outside {
        keeper,
        lanes: _,
        callers,
        clock,
    } = outside;
    Done {
        status,
        line,
        journal,
        keeper,
        lanes: Vec::new(alloc),
        callers,
        clock,
    }
}

/// The exports that a text of header lines names. A line of another kind is bad.
fn exports_in(alloc: Global, text: &[u8]) -> Result<Exports, CaptureError>
    ensures { GivesUnless bad_line (λ e. e) result (exported text.now) }
{
    let Capture {
        files,
        addresses,
        lease,
        grace,
        break_time,
        stable: _,
        steps: _,
    } = read_header(alloc, text)?;
    Ok(Exports {
        files,
        addresses: addresses.into_sequence(),
        lease,
        grace,
        break_time,
    })
}

/// The exports that the input names. If it names none, how the run ends.
#[tactic(auto, using(crate::proofs::ServeLaws::exported_short))]
fn exports_of<I: Source>(alloc: Global, input: &mut I) -> Result<Exports, Report>
    ensures idle { IfErr result (λ r. (r.journal ≡ no_journal) × (is_refused r.status ≡ true)) }
    ensures line { IfErr result (λ r. r.status ≢ 4 → r.line ≡ 0) }
    ensures most_read { TookMost (most_bytes + 1) (I.left input.old) (I.left input.new) }
    ensures read { IfErr result (λ r. r.status ≡ 2 → Rose (I.faults input.old) (I.faults input.new)) }
    ensures read_still { IfErr result (λ r. r.status ≢ 2 → I.faults input.new ≡ I.faults input.old) }
    ensures still { OnOk result (I.faults input.new ≡ I.faults input.old) }
    ensures ended { OnOk result (Ended (I.left input.new)) }
    ensures exported { (all : List ℕ) → I.left input.old ≡ Some all → IfOk result (λ e. exported (capped all) ≡ Ok e) }
    ensures bad { (all : List ℕ) → I.left input.old ≡ Some all → IfErr result (λ r. r.status ≡ 4 → exported (capped all) ≡ Err r.line) }
{
    let text = match read_all(alloc, input) {
        Ok(text) => text,
        Err(Unread::Failed) => return Err(idle(alloc, 2, 0)),
        Err(Unread::NoMemory) => return Err(idle(alloc, 6, 0)),
    };
    match exports_in(alloc, &text) {
        Ok(exports) => Ok(exports),
        Err(CaptureError::BadLine(line)) => Err(idle(alloc, 4, line)),
        Err(CaptureError::NoMemory) => Err(idle(alloc, 6, 0)),
    }
}

/// Serves the exports that the input names.
#[tactic(auto, using(crate::proofs::ServeLaws::refused_serve, crate::proofs::ServeLaws::refused_exported, crate::proofs::ServeLaws::concluded_serve))]
fn serve_input<
    I: Source,
    O: Sink,
    K: Keeper + Send + Drop,
    L: Lane + Send + Drop,
    C: Caller + Send + Drop,
    T: Clock + Send + Drop,
    R: Threads + Wait + Sync,
>(
    rt: &R,
    alloc: Global,
    input: &mut I,
    out: &mut O,
    outside: (Outside<K, L, C, T>, Vec<LaneDone<L>>),
    turns: u64,
) -> Done<K, L, C, T>
    requires room { HasRoom outside.0.lanes outside.1 }
    requires few { (vec_len outside.0.lanes ≤ 64) × (vec_len outside.0.callers ≤ 64) }
    ensures known { is_serve result.status ≡ true }
    ensures line { result.status ≢ 4 → result.line ≡ 0 }
    ensures most_read { TookMost (most_bytes + 1) (I.left input.old) (I.left input.new) }
    ensures read { result.status ≡ 2 → Rose (I.faults input.old) (I.faults input.new) }
    ensures read_still { result.status ≢ 2 → I.faults input.new ≡ I.faults input.old }
    ensures failed { result.status ≡ 3 → Rose (O.faults out.old) (O.faults out.new) }
    ensures still { result.status ≢ 3 → result.status ≢ 5 → result.status ≢ 7 → O.faults out.new ≡ O.faults out.old }
    ensures ended { is_exported result.status ≡ true → Ended (I.left input.new) }
    ensures idle { is_idle result.status ≡ true → (result.journal ≡ no_journal) × (O.held out.new ≡ O.held out.old) × (result.keeper ≡ outside.0.keeper) × (result.callers ≡ outside.0.callers) × (result.clock ≡ outside.0.clock) × AreIdle outside.0.lanes.items result.lanes.items }
    ensures exported { (all : List ℕ) → I.left input.old ≡ Some all → is_exported result.status ≡ true → exported (capped all) ≡ Ok result.journal.head.exports }
    ensures begun { is_exported result.status ≡ true → result.journal.head.start ≡ record { 0 = 0 } }
    ensures bad { (all : List ℕ) → I.left input.old ≡ Some all → result.status ≡ 4 → exported (capped all) ≡ Err result.line }
    ensures written { is_exported result.status ≡ true → (Rose (O.faults out.old) (O.faults out.new) → ⊥) → Added (O.held out.old) (capture_of result.journal) (O.held out.new) }
    ensures whole { result.status ≡ 0 → Added (O.held out.old) (capture_of result.journal) (O.held out.new) }
    ensures began { is_exported result.status ≡ true → Began (O.held out.old) (capture_of result.journal) (O.held out.new) }
    ensures began_starved { result.status ≡ 6 → Began (O.held out.old) (capture_of result.journal) (O.held out.new) }
    ensures full { result.status ≡ 7 → length result.journal.entries ≡ most_entries }
    ensures crew { is_served result.status ≡ true → IsServedBy (tells_lane L.told L.asked L.lost L.faults L.ended) (tells_caller C.told C.asked) (record { lanes = outside.0.lanes; callers = outside.0.callers; turns = turns }) (T.told outside.0.clock) (T.told result.clock) result.status result.journal.entries result.lanes.items result.callers.items }
    ensures loaded { is_served result.status ≡ true → Holds (K.held outside.0.keeper) result.journal.head.«record» }
    ensures holds { is_served result.status ≡ true → Holds (K.held result.keeper) (replay (start_of result.journal.head) result.journal.entries).core.stable }
    ensures nobody { result.status ≡ 5 → (result.journal.entries ≡ []) × (result.callers ≡ outside.0.callers) × (result.clock ≡ outside.0.clock) × AreIdle outside.0.lanes.items result.lanes.items }
    ensures unstored { result.status ≡ 5 → Rose (K.faults outside.0.keeper) (K.faults result.keeper) × (K.held result.keeper ≡ K.held outside.0.keeper) × IsLoaded (K.held outside.0.keeper) result.journal.head.«record» }
    ensures legal { IsLegal (start_of result.journal.head) result.journal.entries }
    ensures served { Always IsServed (start_of result.journal.head) result.journal.entries }
    ensures orderly { IsOrderly [] 0 result.journal.entries }
    ensures most { length result.journal.entries ≤ most_entries }
{
    match exports_of(alloc, input) {
        Ok(exports) => serve(rt, alloc, exports, outside, turns, out),
        Err(report) => {
            let (outside, room) = outside;
            let Outside {
                keeper,
                lanes,
                callers,
                clock,
            } = outside;
            let lanes = idle_lanes(alloc, lanes, room);
            let Report {
                status,
                line,
                journal,
            } = report;
            Done {
                status,
                line,
                journal,
                keeper,
                lanes,
                callers,
                clock,
            }
        }
    }
}

/// How lanes and callers are to be served, if that is asked for.
fn serving_in(asked: Result<Job, ParseError>) -> Option<Serving>
    ensures some { IfSome result (λ s. asked ≡ Ok (Job.Serve s)) }
    ensures none { result ≡ None → IfOk asked (λ j. is_server (Some j) ≡ false) }
{
    match asked {
        Ok(Job::Serve(serving)) => Some(serving),
        _ => None,
    }
}

/// Does a job that serves nobody. Memory ran out before at the words of an error other than `Usage`.
#[tactic(auto, using(crate::proofs::ReadLaws::most_same))]
fn work<I: Source, O: Sink, R: Wait>(
    rt: &R,
    alloc: Global,
    words: &[String],
    asked: Result<Job, ParseError>,
    input: &mut I,
    out: &mut O,
) -> Report
    requires ok { IfOk asked (λ j. job (map string_bytes words.now) ≡ Some j) }
    requires fit { IfOk asked HasFit }
    requires usage { asked ≡ Err ParseError.Usage → job (map string_bytes words.now) ≡ None }
    requires alone { IfOk asked (λ j. is_server (Some j) ≡ false) }
    ensures known { is_status result.status ≡ true }
    ensures words { (result.status ≡ 1 → job (map string_bytes words.now) ≡ None) × (job (map string_bytes words.now) ≡ None → result.status ≢ 6 → result.status ≡ 1) }
    ensures most_read { TookMost (most_bytes + 1) (I.left input.old) (I.left input.new) }
    ensures read { result.status ≡ 2 → Rose (I.faults input.old) (I.faults input.new) }
    ensures read_still { result.status ≢ 2 → I.faults input.new ≡ I.faults input.old }
    ensures write { result.status ≡ 3 → Rose (O.faults out.old) (O.faults out.new) }
    ensures write_still { result.status ≢ 3 → result.status ≢ 5 → result.status ≢ 7 → O.faults out.new ≡ O.faults out.old }
    ensures line { result.status ≢ 4 → result.line ≡ 0 }
    ensures ended { is_reader (job (map string_bytes words.now)) ≡ true → result.status ≡ 0 → Ended (I.left input.new) }
    ensures idle { is_idle result.status ≡ true → (result.journal ≡ no_journal) × (O.held out.new ≡ O.held out.old) }
    ensures untouched { job (map string_bytes words.now) ≡ None → (result.journal ≡ no_journal) × (input.new ≡ input.old) × (out.new ≡ out.old) }
    ensures replayed { job (map string_bytes words.now) ≡ Some Job.Replay → (all : List ℕ) → I.left input.old ≡ Some all → result.status ≡ 0 → IsReplayed (captured (capped all)) result.journal }
    ensures unwritten { job (map string_bytes words.now) ≡ Some Job.Replay → (all : List ℕ) → I.left input.old ≡ Some all → result.status ≡ 3 → IsReplayed (captured (capped all)) result.journal }
    ensures full { job (map string_bytes words.now) ≡ Some Job.Replay → (all : List ℕ) → I.left input.old ≡ Some all → result.status ≡ 7 → IsCutAt most_entries (captured (capped all)) result.journal }
    ensures unable { job (map string_bytes words.now) ≡ Some Job.Replay → (all : List ℕ) → I.left input.old ≡ Some all → result.status ≡ 5 → IsUnstartedAt most_entries (captured (capped all)) result.journal }
    ensures starts { job (map string_bytes words.now) ≡ Some Job.Replay → (all : List ℕ) → I.left input.old ≡ Some all → FailsBefore most_entries (captured (capped all)) → result.status ≢ 2 → result.status ≢ 6 → result.status ≡ 5 }
    ensures bad { job (map string_bytes words.now) ≡ Some Job.Replay → (all : List ℕ) → I.left input.old ≡ Some all → result.status ≡ 4 → captured (capped all) ≡ Err result.line }
    ensures begun { job (map string_bytes words.now) ≡ Some Job.Replay → (all : List ℕ) → I.left input.old ≡ Some all → result.status ≡ 6 → IsBegun (captured (capped all)) result.journal }
    ensures written { job (map string_bytes words.now) ≡ Some Job.Replay → result.status ≡ 0 → Added (O.held out.old) (whole_transcript result.journal) (O.held out.new) }
    ensures written_full { job (map string_bytes words.now) ≡ Some Job.Replay → result.status ≡ 7 → (Rose (O.faults out.old) (O.faults out.new) → ⊥) → Added (O.held out.old) (whole_transcript result.journal) (O.held out.new) }
    ensures written_outs { job (map string_bytes words.now) ≡ Some Job.Replay → result.status ≡ 5 → (Rose (O.faults out.old) (O.faults out.new) → ⊥) → Added (O.held out.old) (outs_transcript result.journal) (O.held out.new) }
    ensures began { job (map string_bytes words.now) ≡ Some Job.Replay → Began (O.held out.old) (whole_transcript result.journal) (O.held out.new) }
    ensures shown { job (map string_bytes words.now) ≡ Some Job.Show → (all : List ℕ) → I.left input.old ≡ Some all → result.status ≡ 0 → AddsShown (O.held out.old) (shown (capped all)) (O.held out.new) }
    ensures shown_part { job (map string_bytes words.now) ≡ Some Job.Show → (all : List ℕ) → I.left input.old ≡ Some all → result.status ≡ 3 → BeginsShown (O.held out.old) (shown (capped all)) (O.held out.new) }
    ensures shown_bad { job (map string_bytes words.now) ≡ Some Job.Show → (all : List ℕ) → I.left input.old ≡ Some all → result.status ≡ 4 → shown (capped all) ≡ Err result.line }
    ensures shown_alone { job (map string_bytes words.now) ≡ Some Job.Show → (is_show result.status ≡ true) × (result.journal ≡ no_journal) × (result.status ≡ 6 → O.held out.new ≡ O.held out.old) }
    ensures made { (seed count : ℕ) → job (map string_bytes words.now) ≡ Some (Job.Make seed count) → result.status ≡ 0 → result.journal ≡ made_journal seed count }
    ensures made_unwritten { (seed count : ℕ) → job (map string_bytes words.now) ≡ Some (Job.Make seed count) → result.status ≡ 3 → result.journal ≡ made_journal seed count }
    ensures made_part { (seed count : ℕ) → job (map string_bytes words.now) ≡ Some (Job.Make seed count) → result.status ≡ 6 → IsMadePart seed count result.journal }
    ensures summed { (seed count : ℕ) → job (map string_bytes words.now) ≡ Some (Job.Make seed count) → result.status ≡ 0 → Added (O.held out.old) (whole_summary result.journal) (O.held out.new) }
    ensures summed_part { (seed count : ℕ) → job (map string_bytes words.now) ≡ Some (Job.Make seed count) → Began (O.held out.old) (whole_summary result.journal) (O.held out.new) }
    ensures numbers { (seed count : ℕ) → job (map string_bytes words.now) ≡ Some (Job.Make seed count) → result.status ≡ 0 → (length result.journal.entries ≡ count + 1) × (granted result.journal.entries + denied result.journal.entries ≡ count) }
    ensures made_alone { (seed count : ℕ) → job (map string_bytes words.now) ≡ Some (Job.Make seed count) → (is_made result.status ≡ true) × (I.left input.new ≡ I.left input.old) }
    ensures unserved { (s : TheServing) → job (map string_bytes words.now) ≡ Some (Job.Serve s) → (result.status ≡ 6) × (O.held out.new ≡ O.held out.old) }
    ensures started { result.status ≡ 5 → job (map string_bytes words.now) ≡ Some Job.Replay }
    ensures legal { IsLegal (start_of result.journal.head) result.journal.entries }
    ensures served { Always IsServed (start_of result.journal.head) result.journal.entries }
    ensures orderly { IsOrderly [] 0 result.journal.entries }
    ensures most { length result.journal.entries ≤ most_entries }
{
    match asked {
        Ok(Job::Replay) => replay_input(rt, alloc, input, out),
        Ok(Job::Show) => show_input(alloc, input, out),
        Ok(Job::Make(seed, count)) => make(alloc, seed, count, out),
        Ok(Job::Serve(_)) => unreachable!(),
        Err(ParseError::Usage) => idle(alloc, 1, 0),
        Err(ParseError::NoMemory) => idle(alloc, 6, 0),
    }
}

/// Does the job that the words name. `replay` reads a capture and writes the transcript of its replay, `show` reads messages
/// and writes a line on each, `make` makes calls from a number and writes a summary of them,
/// `serve` reads what is exported, serves the lanes and the callers, and writes the capture of what was entered.
///
/// The journal that comes back has each event that was stepped, with what was sent for it. The clauses from `legal` to
/// `tied` hold for it whatever the input is, and at every status.
#[tactic(auto, using(crate::proofs::ReadLaws::most_same, xl_replay::proofs::ReplayLaws::remade_so, xl_house::proofs::MachineLaws::begun_free, xl_house::proofs::LawfulLaws::always_lawful, xl_house::proofs::LawfulLaws::always_waiting, xl_house::proofs::LawfulLaws::always_kept, xl_house::proofs::LawfulLaws::always_complete, xl_house::proofs::FittingLaws::always_fitting, xl_house::proofs::LawfulLaws::always_caused, xl_house::proofs::LawfulLaws::always_told, xl_house::proofs::SteadyLaws::always_steady, xl_house::proofs::RecordLaws::always_recording, xl_house::proofs::RecordLaws::always_admitting, xl_house::proofs::CrashLaws::always_cut, xl_house::proofs::TruthfulLaws::never_collide, xl_house::proofs::EntryLaws::always_wishing, xl_house::proofs::EntryLaws::always_breaking, xl_house::proofs::EntryLaws::always_keeping, xl_house::proofs::OwedLaws::always_owed, xl_house::proofs::ReplyingLaws::always_replied, xl_house::proofs::EntryLaws::always_partied, xl_house::proofs::AskingLaws::always_asking, xl_house::proofs::NotifiedLaws::always_notified, xl_house::proofs::PartedLaws::always_parted, xl_house::proofs::MeantLaws::always_meant, xl_house::proofs::NfsTiedLaws::always_tied))]
pub fn run<
    I: Source,
    O: Sink,
    K: Keeper + Send + Drop,
    L: Lane + Send + Drop,
    C: Caller + Send + Drop,
    T: Clock + Send + Drop,
    R: Threads + Wait + Sync,
>(
    rt: &R,
    alloc: Global,
    words: &[String],
    input: &mut I,
    out: &mut O,
    outside: Outside<K, L, C, T>,
) -> Done<K, L, C, T>
    requires few { (vec_len outside.lanes ≤ 64) × (vec_len outside.callers ≤ 64) }
    ensures known { is_status result.status ≡ true }

    // The status is 1 exactly if the words name no job, unless memory runs out. The source failed exactly if the status is 2.
    // The sink failed if it is 3; it may have failed if it is 5 or 7, and did not at any other status. Of the source no more is read
    // than the most bytes of a capture and one.
    ensures words { (result.status ≡ 1 → job (map string_bytes words.now) ≡ None) × (job (map string_bytes words.now) ≡ None → result.status ≢ 6 → result.status ≡ 1) }
    ensures most_read { TookMost (most_bytes + 1) (I.left input.old) (I.left input.new) }
    ensures read { result.status ≡ 2 → Rose (I.faults input.old) (I.faults input.new) }
    ensures read_still { result.status ≢ 2 → I.faults input.new ≡ I.faults input.old }
    ensures write { result.status ≡ 3 → Rose (O.faults out.old) (O.faults out.new) }
    ensures write_still { result.status ≢ 3 → result.status ≢ 5 → result.status ≢ 7 → O.faults out.new ≡ O.faults out.old }
    ensures line { result.status ≢ 4 → result.line ≡ 0 }
    ensures ended { is_reader (job (map string_bytes words.now)) ≡ true → result.status ≡ 0 → Ended (I.left input.new) }
    ensures idle { is_idle result.status ≡ true → (result.journal ≡ no_journal) × (O.held out.new ≡ O.held out.old) }
    // If the words name no job, nothing is read, stepped or written, also if memory runs out.
    ensures untouched { job (map string_bytes words.now) ≡ None → (result.journal ≡ no_journal) × (input.new ≡ input.old) × (out.new ≡ out.old) }

    // A replay read a capture if the status is 0, 3, 5 or 7. It is 5 exactly if a start of the capture is to fail before the journal is
    // full, unless the source failed or memory ran out. At 4 the text is no capture, and the line is the first bad one. The
    // whole transcript was written at 0, and at 7 unless the sink failed; at 5 its outs alone, without what is held, unless the sink
    // failed. A beginning of it was written at 3, 5, 6 and 7, and nothing at 1, 2 and 4.
    ensures replayed { job (map string_bytes words.now) ≡ Some Job.Replay → (all : List ℕ) → I.left input.old ≡ Some all → result.status ≡ 0 → IsReplayed (captured (capped all)) result.journal }
    ensures unwritten { job (map string_bytes words.now) ≡ Some Job.Replay → (all : List ℕ) → I.left input.old ≡ Some all → result.status ≡ 3 → IsReplayed (captured (capped all)) result.journal }
    ensures full { job (map string_bytes words.now) ≡ Some Job.Replay → (all : List ℕ) → I.left input.old ≡ Some all → result.status ≡ 7 → IsCutAt most_entries (captured (capped all)) result.journal }
    ensures unable { job (map string_bytes words.now) ≡ Some Job.Replay → (all : List ℕ) → I.left input.old ≡ Some all → result.status ≡ 5 → IsUnstartedAt most_entries (captured (capped all)) result.journal }
    ensures starts { job (map string_bytes words.now) ≡ Some Job.Replay → (all : List ℕ) → I.left input.old ≡ Some all → FailsBefore most_entries (captured (capped all)) → result.status ≢ 2 → result.status ≢ 6 → result.status ≡ 5 }
    ensures bad { job (map string_bytes words.now) ≡ Some Job.Replay → (all : List ℕ) → I.left input.old ≡ Some all → result.status ≡ 4 → captured (capped all) ≡ Err result.line }
    ensures begun { job (map string_bytes words.now) ≡ Some Job.Replay → (all : List ℕ) → I.left input.old ≡ Some all → result.status ≡ 6 → IsBegun (captured (capped all)) result.journal }
    ensures written { job (map string_bytes words.now) ≡ Some Job.Replay → result.status ≡ 0 → Added (O.held out.old) (whole_transcript result.journal) (O.held out.new) }
    ensures written_full { job (map string_bytes words.now) ≡ Some Job.Replay → result.status ≡ 7 → (Rose (O.faults out.old) (O.faults out.new) → ⊥) → Added (O.held out.old) (whole_transcript result.journal) (O.held out.new) }
    ensures written_outs { job (map string_bytes words.now) ≡ Some Job.Replay → result.status ≡ 5 → (Rose (O.faults out.old) (O.faults out.new) → ⊥) → Added (O.held out.old) (outs_transcript result.journal) (O.held out.new) }
    ensures began { job (map string_bytes words.now) ≡ Some Job.Replay → Began (O.held out.old) (whole_transcript result.journal) (O.held out.new) }

    // `show` wrote all lines on the messages at 0, a beginning of them at 3, and nothing at any other status. At 4 the line is
    // the first bad one.
    ensures shown { job (map string_bytes words.now) ≡ Some Job.Show → (all : List ℕ) → I.left input.old ≡ Some all → result.status ≡ 0 → AddsShown (O.held out.old) (shown (capped all)) (O.held out.new) }
    ensures shown_part { job (map string_bytes words.now) ≡ Some Job.Show → (all : List ℕ) → I.left input.old ≡ Some all → result.status ≡ 3 → BeginsShown (O.held out.old) (shown (capped all)) (O.held out.new) }
    ensures shown_bad { job (map string_bytes words.now) ≡ Some Job.Show → (all : List ℕ) → I.left input.old ≡ Some all → result.status ≡ 4 → shown (capped all) ≡ Err result.line }
    ensures shown_alone { job (map string_bytes words.now) ≡ Some Job.Show → (is_show result.status ≡ true) × (result.journal ≡ no_journal) × (result.status ≡ 6 → O.held out.new ≡ O.held out.old) }

    // `make` stepped all its calls at 0 and 3, and the first of them at 6. It wrote the summary of its journal at 0, and a
    // beginning of that at 3 and 6. It reads nothing. The journal has an entry for the opening and one for each call, and each
    // call was granted or denied.
    ensures made { (seed count : ℕ) → job (map string_bytes words.now) ≡ Some (Job.Make seed count) → result.status ≡ 0 → result.journal ≡ made_journal seed count }
    ensures made_unwritten { (seed count : ℕ) → job (map string_bytes words.now) ≡ Some (Job.Make seed count) → result.status ≡ 3 → result.journal ≡ made_journal seed count }
    ensures made_part { (seed count : ℕ) → job (map string_bytes words.now) ≡ Some (Job.Make seed count) → result.status ≡ 6 → IsMadePart seed count result.journal }
    ensures summed { (seed count : ℕ) → job (map string_bytes words.now) ≡ Some (Job.Make seed count) → result.status ≡ 0 → Added (O.held out.old) (whole_summary result.journal) (O.held out.new) }
    ensures summed_part { (seed count : ℕ) → job (map string_bytes words.now) ≡ Some (Job.Make seed count) → Began (O.held out.old) (whole_summary result.journal) (O.held out.new) }
    ensures numbers { (seed count : ℕ) → job (map string_bytes words.now) ≡ Some (Job.Make seed count) → result.status ≡ 0 → (length result.journal.entries ≡ count + 1) × (granted result.journal.entries + denied result.journal.entries ≡ count) }
    ensures made_alone { (seed count : ℕ) → job (map string_bytes words.now) ≡ Some (Job.Make seed count) → (is_made result.status ≡ true) × (I.left input.new ≡ I.left input.old) }

    // `serve` served the exports that the input names if the status is 0, 3 or 7: until each lane ended or had its turns, or until the
    // journal was full, which it is at 7. The entries are what the lanes, the first one's clock and the callers entered, and no others;
    // each link was sent what they send to it, and the calls that they ask for were made. At 5 nobody was served: the keeper failed at
    // the start, and holds what it held. The capture of the journal was written at 0, and at 5 and 7 unless the sink failed; a
    // beginning of it was written at 3, 5, 6 and 7. At 4 the line is the first bad one.
    ensures exported { (s : TheServing) → job (map string_bytes words.now) ≡ Some (Job.Serve s) → (all : List ℕ) → I.left input.old ≡ Some all → is_exported result.status ≡ true → exported (capped all) ≡ Ok result.journal.head.exports }
    ensures exported_bad { (s : TheServing) → job (map string_bytes words.now) ≡ Some (Job.Serve s) → (all : List ℕ) → I.left input.old ≡ Some all → result.status ≡ 4 → exported (capped all) ≡ Err result.line }
    ensures started { (s : TheServing) → job (map string_bytes words.now) ≡ Some (Job.Serve s) → is_exported result.status ≡ true → result.journal.head.start ≡ record { 0 = 0 } }
    ensures loaded { (s : TheServing) → job (map string_bytes words.now) ≡ Some (Job.Serve s) → is_served result.status ≡ true → Holds (K.held outside.keeper) result.journal.head.«record» }
    ensures holds { (s : TheServing) → job (map string_bytes words.now) ≡ Some (Job.Serve s) → is_served result.status ≡ true → Holds (K.held result.keeper) (replay (start_of result.journal.head) result.journal.entries).core.stable }
    ensures crew { (s : TheServing) → job (map string_bytes words.now) ≡ Some (Job.Serve s) → is_served result.status ≡ true → IsServedBy (tells_lane L.told L.asked L.lost L.faults L.ended) (tells_caller C.told C.asked) (record { lanes = outside.lanes; callers = outside.callers; turns = s.turns }) (T.told outside.clock) (T.told result.clock) result.status result.journal.entries result.lanes.items result.callers.items }
    ensures filled { (s : TheServing) → job (map string_bytes words.now) ≡ Some (Job.Serve s) → result.status ≡ 7 → length result.journal.entries ≡ most_entries }
    ensures unstarted { (s : TheServing) → job (map string_bytes words.now) ≡ Some (Job.Serve s) → result.status ≡ 5 → (result.journal.entries ≡ []) × (result.callers ≡ outside.callers) × (result.clock ≡ outside.clock) × AreIdle outside.lanes.items result.lanes.items }
    ensures unstored { (s : TheServing) → job (map string_bytes words.now) ≡ Some (Job.Serve s) → result.status ≡ 5 → Rose (K.faults outside.keeper) (K.faults result.keeper) × (K.held result.keeper ≡ K.held outside.keeper) × IsLoaded (K.held outside.keeper) result.journal.head.«record» }
    ensures captured { (s : TheServing) → job (map string_bytes words.now) ≡ Some (Job.Serve s) → result.status ≡ 0 → Added (O.held out.old) (capture_of result.journal) (O.held out.new) }
    ensures captured_full { (s : TheServing) → job (map string_bytes words.now) ≡ Some (Job.Serve s) → is_exported result.status ≡ true → (Rose (O.faults out.old) (O.faults out.new) → ⊥) → Added (O.held out.old) (capture_of result.journal) (O.held out.new) }
    ensures captured_part { (s : TheServing) → job (map string_bytes words.now) ≡ Some (Job.Serve s) → is_idle result.status ≡ false → Began (O.held out.old) (capture_of result.journal) (O.held out.new) }

    // No other job calls the keeper, the lanes, the callers and the clock, nor does one that ends at 1, 2 or 4. Lanes are missing only
    // at 6.
    ensures alone { is_server (job (map string_bytes words.now)) ≡ false → (result.keeper ≡ outside.keeper) × (result.callers ≡ outside.callers) × (result.clock ≡ outside.clock) × (result.status ≢ 6 → AreIdle outside.lanes.items result.lanes.items) }
    ensures unserved { is_idle result.status ≡ true → (result.keeper ≡ outside.keeper) × (result.callers ≡ outside.callers) × (result.clock ≡ outside.clock) × AreIdle outside.lanes.items result.lanes.items }

    // Each entry is what the machine's step gives, and has the stores that it made; so the journal is what its own events make, if just
    // those stores succeed. Nothing is sent to a connection before its opening or after its end.
    ensures legal { IsLegal (start_of result.journal.head) result.journal.entries }
    ensures remade { entries_of (start_of result.journal.head) (pairs_in result.journal.entries) ≡ result.journal.entries }
    ensures orderly { IsOrderly [] 0 result.journal.entries }
    ensures most { length result.journal.entries ≤ most_entries }

    // Before the first event and after each, any two held claims may be held together, each owner's ranges are sorted maximal
    // runs, and nobody who waits could be served.
    ensures free { AlwaysFree (start_of result.journal.head) result.journal.entries }

    // lawful: an event changes an owner's bytes and shares only by what the owner did in it, was granted after a wait, or lost
    // with its lease or its connection; it changes a lease only by a renewal or the client's expiry. A restart leaves nothing.
    // steady: an event finds the core as the one before left it, leaves what is exported, the times and the epoch, and
    // gives out numbers one by one; a restart raises the epoch, and begins with the numbers anew.
    // recorded: the record is the last that was stored, and no more was stored than the entry tells. A name comes into it, and a mark
    // beside it, only by an ask of its client with that mark that is monitored and reclaims nothing; it goes only if the client
    // expires, or at the end of a grace in which it reclaimed nothing; and while it stays its mark goes only by such an ask with
    // another. Each such ask that is granted leaves the name recorded, with its mark if it has one.
    // admitted: while grace runs a share or a lock is granted only to one who reclaims it and whose client is recorded with a mark that
    // agrees with its own.
    // crashed: a crash in the midst of an event leaves the record as the stores left it that were made until then: a name or a mark
    // comes into it only by such an ask in that event, a name goes only as its client expires in it, or at the end of a grace in which
    // it reclaimed nothing, and a mark with it, or by such an ask with another.
    // truthful: whatever was held before the start, and whatever happens behind the last event, restarts and crashes too: while grace
    // runs, if each reclaim since the server started told the truth, none is turned away by what is held, nor for want of its name in
    // the record with its mark, or of a grace that runs. One tells the truth if the record has its client, with a mark that agrees, and
    // what it asks for lies within what the client held, by names, just before the server stopped; or if grace ran then, before that
    // began.
    // parties: a claim is held for a party that had something of its owner's on the file, asked for it, or waited for it.
    // waiting: those who waited go on to wait in their order, except those whom the event served, cancelled or ended.
    // kept_until_answered: while the break of a cache runs, the cache is held at its full kind, and nothing is granted
    // that it guards against, until its party answers, gives it back, ends or expires, or the deadline passes.
    // broken: a break begins only of an idle cache in the way of what is asked, to what the plan leaves; and no share or single
    // range is turned away by a cache of which no break runs.
    // caches_kept: each cache stays, at its kind or a greater one, unless it is given back, its break is answered or over, its party
    // ends or expires, or it was for reading alone and the event tells that it is gone.
    // complete: a lock or a share that grace lets in is granted if nothing held stands against it, nor, unless it is a reclaim, the
    // range of one who waits, no limit is passed, and its client is recorded or can be; if something does, it is refused or waits.
    // A reading of the clock ends each break and lets each client expire that is due by then, except what waits for a store that
    // failed.
    // fit: what is given back is held, a share that is made weaker has no more than before, no more is left of a cache than its
    // break leaves, and breaks and leases end only once their time has come.
    // wished: a wish gets one of its choices, or the least kind in which one of them and what its party had lie, and nothing if
    // someone waits on the file.
    // asking: an ask of a request of NLM is on the exported file that it names, a reclaim exactly if it says so, with the state that it
    // names as its mark, and with the room that is left for hosts. One of an operation of NFSv4 is for what it says, on the file of its
    // current handle or that it claims there, a reclaim exactly if it says so, and in the name of a confirmed client, with its verifier
    // as its mark. One of a LOCK or a CREATE of SMB is of the open and on the file that it names.
    // owed: if a client refuses a lock whose grant it was sent, just that is unlocked.
    // meant: what the reply to a request of NLM says is done is done, and of SMB that to a LOCK, CREATE, CLOSE, LOGOFF,
    // TREE_DISCONNECT, OPLOCK_BREAK or CANCEL; and the stateids that a reply of NFSv4 tells name what is there once its operation
    // is done. What its OPEN, OPEN_DOWNGRADE, CLOSE, LOCK, LOCKU,
    // DELEGRETURN, RENEW and RELEASE_LOCKOWNER say is done is done, and its LOCKT is answered by what is held.
    // caused: an event does only what such an event may do, and only for the clients that it names.
    // replied: each call of ONC RPC that a record is has one reply, on its own connection and with its own xid.
    // told: what is sent follows from what the event did and what it was answered.
    // notified: each break that begins, each lock of NLM that waited and is granted, and each request of SMB that waited and is
    // served or cancelled is told by one message, to whom it is due; and besides, only the event's message is replied to.
    // parted: a frame of several messages of SMB does what its parts do as messages alone, in order, each once the table is settled
    // after the one before, and their replies are in one frame; what stands behind a part that waited is done so once that is served
    // or cancelled.
    ensures lawful { Always IsLawful (start_of result.journal.head) result.journal.entries }
    ensures steady { Always IsSteady (start_of result.journal.head) result.journal.entries }
    ensures recorded { Always IsRecording (start_of result.journal.head) result.journal.entries }
    ensures admitted { Always IsAdmitting (start_of result.journal.head) result.journal.entries }
    ensures crashed { AlwaysCut (start_of result.journal.head) result.journal.entries }
    ensures truthful { (before : Before) (more : List Happening) → WereHeld before → NeverCollide before (start_of result.journal.head) (happened result.journal.entries ++ more) }
    ensures parties { Always IsPartied (start_of result.journal.head) result.journal.entries }
    ensures waiting { Always IsWaiting (start_of result.journal.head) result.journal.entries }
    ensures kept_until_answered { Always IsKept (start_of result.journal.head) result.journal.entries }
    ensures broken { Always IsBreaking (start_of result.journal.head) result.journal.entries }
    ensures caches_kept { Always IsKeeping (start_of result.journal.head) result.journal.entries }
    ensures complete { Always IsComplete (start_of result.journal.head) result.journal.entries }
    ensures fit { Always IsFitting (start_of result.journal.head) result.journal.entries }
    ensures wished { Always IsWishing (start_of result.journal.head) result.journal.entries }
    ensures asking { Always IsAsking (start_of result.journal.head) result.journal.entries }
    ensures owed { Always IsOwed (start_of result.journal.head) result.journal.entries }
    ensures meant { Always IsMeant (start_of result.journal.head) result.journal.entries }
    ensures caused { Always IsCaused (start_of result.journal.head) result.journal.entries }
    ensures replied { Always IsReplied (start_of result.journal.head) result.journal.entries }
    ensures told { Always IsTold (start_of result.journal.head) result.journal.entries }
    ensures notified { Always IsNotified (start_of result.journal.head) result.journal.entries }
    ensures parted { Always IsParted (start_of result.journal.head) result.journal.entries }

    // Each request of SMB that waits has a waiter in the core, and each waiter of an SMB open has its request. If a CREATE or a
    // LOCK that waited is granted, its open is there, and its final reply says that it succeeded. The end of a connection of SMB leaves
    // nothing of the opens that were under it.
    ensures served { Always IsServed (start_of result.journal.head) result.journal.entries }

    // After each entry no two stateids of NFSv4 have one number, and each has one that was given out, stands in a place of its own, and
    // is its owner's, who is its client's; an open is closed exactly if its owner's last request closed it. No two confirmed clients
    // have one number or one id string, each client has on each file just the delegation that its cache there is, and a lease
    // exactly if its record is confirmed.
    ensures tied { Always IsTied (start_of result.journal.head) result.journal.entries }
{
    let Ok(room) = Vec::with_capacity(alloc, outside.lanes.len()) else {
        return end_starved(alloc, outside);
    };
    let asked = parse(alloc, words);
    if let Some(serving) = serving_in(asked) {
        let outside = (outside, room);
        return serve_input(rt, alloc, input, out, outside, u64::from(serving.turns));
    }
    let Report {
        status,
        line,
        journal,
    } = work(rt, alloc, words, asked, input, out);
    let Outside {
        keeper,
        lanes,
        callers,
        clock,
    } = outside;
    let lanes = idle_lanes(alloc, lanes, room);
    Done {
        status,
        line,
        journal,
        keeper,
        lanes,
        callers,
        clock,
    }
}
