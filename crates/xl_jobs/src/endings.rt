//! How a job ends.
ghost use Rattle.std.specs.Prelude.{◌≡◌, ◌≤◌, [], length};
ghost use Rattle.xl_house.specs.Awaited.{IsServed};
ghost use Rattle.xl_house.specs.Journals.{IsLegal, IsOrderly, most_entries};
ghost use Rattle.xl_house.specs.Lawful.{Always};
ghost use Rattle.xl_house.specs.State.{start_of};
ghost use Rattle.xl_jobs.specs.Jobs.{no_journal};

use crate::starts::exports_with;
use std::alloc::Global;
use xl_base::{BudgetKeeper, Head, Journal, Moment, Record, Sequence};
use xl_house::House;

/// How a job ended.
#[derive(Drop)]
pub struct Report {
    /// From 0 to 7, as of a run.
    pub status: u8,
    /// At status 4 the number of the first line that isn't in its grammar, counted from 1; else 0.
    pub line: u64,
    /// The events that were stepped, each with what was sent for it.
    pub journal: Journal,
}

/// What became of a text that was to be written.
#[derive(Clone, Copy)]
pub enum Written {
    /// All of it was written.
    All,
    /// The sink failed.
    Failed,
    /// Memory ran out for the text, and nothing was written.
    NoMemory,
}

/// The journal of a house over a keeper in memory that steps no more: its head and its entries.
pub fn journal_in(house: House<BudgetKeeper>) -> Journal
    ensures journal { (result.head ≡ house.head) × (result.entries ≡ house.entries) }
    ensures legal { IsLegal (start_of result.head) result.entries }
    ensures served { Always IsServed (start_of result.head) result.entries }
    ensures orderly { IsOrderly [] 0 result.entries }
    ensures most { length result.entries ≤ most_entries }
{
    let (journal, _) = house.end();
    journal
}

/// The ending of a job that stepped nothing, with this status from 0 to 7 and the number of a line, 0 if it is about none.
pub fn idle(alloc: Global, status: u8, line: u64) -> Report
    ensures { result ≡ record { status = status; line = line; journal = no_journal } }
{
    let record = Record::new(alloc);
    let head = Head {
        exports: exports_with(Sequence::new(alloc), Sequence::new(alloc)),
        start: Moment(0),
        record,
    };
    Report {
        status,
        line,
        journal: Journal {
            head,
            entries: Sequence::new(alloc),
        },
    }
}
