//! Calls that are made, and what is written of them.
ghost use Rattle.std.specs.Prelude.{◌≡◌, ◌≢◌, ◌+◌, ◌<◌, ◌≤◌, ◌^◌, [], length, true, false};
ghost use Rattle.xl_base.specs.Outside.{Rose, Added, Began};
ghost use Rattle.xl_capture.specs.Summary.{granted, denied};
ghost use Rattle.xl_house.specs.Awaited.{IsServed};
ghost use Rattle.xl_house.specs.Housed.{is_spoiled};
ghost use Rattle.xl_house.specs.Journals.{IsLegal, IsOrderly, most_entries};
ghost use Rattle.xl_house.specs.Lawful.{Always};
ghost use Rattle.xl_house.specs.State.{start_of};
ghost use Rattle.xl_words.specs.Words.{most_made};
ghost use Rattle.xl_make.specs.Made.{IsMadePart, is_made, made_journal, summary_from, whole_summary};

use crate::made::made_house;
use std::alloc::Global;
use xl_base::{BudgetKeeper, Sink, WriteOutcome};
use xl_capture::summary;
use xl_house::House;
use xl_jobs::{Report, Written, idle, journal_in};

/// Writes the summary of a house's journal.
#[tactic(auto, using(xl_jobs::proofs::WriteLaws::began_none, xl_jobs::proofs::WriteLaws::began_all))]
fn write_summary<O: Sink>(alloc: Global, house: &House<BudgetKeeper>, out: &mut O) -> Written
    requires { is_spoiled house.now.halt ≡ false }
    ensures all { result ≡ Written.All → Added (O.held out.old) (summary_from house.now.head house.now.entries) (O.held out.new) }
    ensures began { Began (O.held out.old) (summary_from house.now.head house.now.entries) (O.held out.new) }
    ensures failed { result ≡ Written.Failed → Rose (O.faults out.old) (O.faults out.new) }
    ensures still { result ≢ Written.Failed → O.faults out.new ≡ O.faults out.old }
{
    let Ok(claims) = house.dump(alloc) else {
        return Written::NoMemory;
    };
    let Ok(text) = summary(alloc, house.outs_from(0), &claims) else {
        return Written::NoMemory;
    };
    match out.write(&text) {
        WriteOutcome::Wrote => Written::All,
        WriteOutcome::Failed => Written::Failed,
    }
}

/// Writes the summary of a house that stepped all its calls, and gives the status.
#[tactic(auto, using(xl_jobs::proofs::WriteLaws::began_none))]
fn write_made<O: Sink>(alloc: Global, house: &House<BudgetKeeper>, all: bool, out: &mut O) -> u8
    requires { all ≡ true → is_spoiled house.now.halt ≡ false }
    ensures known { is_made result ≡ true }
    ensures done { result ≡ 0 → all ≡ true }
    ensures unwritten { result ≡ 3 → all ≡ true }
    ensures written { result ≡ 0 → Added (O.held out.old) (summary_from house.now.head house.now.entries) (O.held out.new) }
    ensures began { Began (O.held out.old) (summary_from house.now.head house.now.entries) (O.held out.new) }
    ensures failed { result ≡ 3 → Rose (O.faults out.old) (O.faults out.new) }
    ensures still { result ≢ 3 → O.faults out.new ≡ O.faults out.old }
{
    if !all {
        return 6;
    }
    match write_summary(alloc, house, out) {
        Written::All => 0,
        Written::Failed => 3,
        Written::NoMemory => 6,
    }
}

/// Makes so many calls, at most 1,000,000, by the draws of a seed below 2^31, steps them, and writes the summary of their journal to the
/// sink. The status is 0 if all is done, 3 if the sink failed, and 6 if memory ran out; the line is 0.
#[tactic(auto, using(crate::proofs::MadeLaws::same_journal, crate::proofs::MadeLaws::no_part, crate::proofs::CountLaws::journal_counts))]
pub fn make<O: Sink>(alloc: Global, seed: u32, count: u32, out: &mut O) -> Report
    requires seed { seed < 2 ^ 31 }
    requires few { count ≤ most_made }
    ensures known { is_made result.status ≡ true }
    ensures line { result.line ≡ 0 }
    ensures made { result.status ≡ 0 → result.journal ≡ made_journal seed count }
    ensures unwritten { result.status ≡ 3 → result.journal ≡ made_journal seed count }
    ensures numbers { result.status ≡ 0 → (length result.journal.entries ≡ count + 1) × (granted result.journal.entries + denied result.journal.entries ≡ count) }
    ensures begun { IsMadePart seed count result.journal }
    ensures written { result.status ≡ 0 → Added (O.held out.old) (whole_summary result.journal) (O.held out.new) }
    ensures began { Began (O.held out.old) (whole_summary result.journal) (O.held out.new) }
    ensures failed { result.status ≡ 3 → Rose (O.faults out.old) (O.faults out.new) }
    ensures still { result.status ≢ 3 → O.faults out.new ≡ O.faults out.old }
    ensures legal { IsLegal (start_of result.journal.head) result.journal.entries }
    ensures served { Always IsServed (start_of result.journal.head) result.journal.entries }
    ensures orderly { IsOrderly [] 0 result.journal.entries }
    ensures most { length result.journal.entries ≤ most_entries }
{
    let Some((house, all)) = made_house(alloc, seed, count) else {
        return idle(alloc, 6, 0);
    };
    let status = write_made(alloc, &house, all, out);
    let journal = journal_in(house);
    Report {
        status,
        line: 0,
        journal,
    }
}
