//! How the house of a job starts.
ghost use Rattle.std.specs.Prelude.{◌≡◌, [], None, IfSome};
ghost use Rattle.xl_jobs.specs.Jobs.{exports_with, head_with};

use std::alloc::Global;
use xl_base::{BudgetKeeper, Exports, Halt, Moment, Record, Sequence};
use xl_capture::{ALL_STORES, DEFAULT_BREAK, DEFAULT_GRACE, DEFAULT_LEASE};
use xl_house::House;

/// These files and these callers' addresses, with the default times in milliseconds.
pub fn exports_with(
    files: Sequence<Sequence<u8>>,
    addresses: Sequence<(Sequence<u8>, Sequence<u8>)>,
) -> Exports
    ensures { result ≡ exports_with files addresses }
{
    Exports {
        files,
        addresses,
        lease: DEFAULT_LEASE,
        grace: DEFAULT_GRACE,
        break_time: DEFAULT_BREAK,
    }
}

/// A house over these exports, of a server that finds this record, at the moment 0; its keeper is in memory, and no store of its start
/// fails. None comes if memory runs out.
pub fn start(alloc: Global, exports: Exports, stable: Record) -> Option<House<BudgetKeeper>>
    ensures { IfSome result (λ h. (h.head ≡ head_with exports stable) × ((h.entries ≡ []) × (h.halt ≡ None))) }
{
    let keeper = BudgetKeeper::new(stable, ALL_STORES);
    match House::start(alloc, exports, keeper, Moment(0)) {
        Ok(house) => Some(house),
        Err(ended) => match ended.halt {
            Halt::NoMemory => None,
            Halt::JournalFull(_) => unreachable!(),
            Halt::StartStore(_) => unreachable!(),
        },
    }
}
