//! The limits that a grant or a wait may pass.
ghost use Rattle.std.specs.Prelude.{◌≡◌, ℕ, ◌-◌, ◌^◌, min};
ghost use Rattle.xl_core.specs.Limits.{grant_limits, wait_limits, wish_limits, first_passed};

use xl_base::MOST_WAITERS;
use xl_names::MOST_NAMES;
use xl_table::CLAIMS;
use xl_wait::Rooms;

/// How many NLM hosts are kept.
pub const MOST_HOSTS: u32 = 256;

/// How many opens there are, of NFSv4 and SMB together.
pub const MOST_OPENS: u32 = xl_base::MOST_OPENS as u32;

/// How many NFSv4 owners are kept.
pub const MOST_OWNERS: u32 = xl_base::MOST_OWNERS as u32;

/// The first of these limits that is passed.
fn first_passed(limits: &[(u32, bool)]) -> Option<u32>
    ensures { result ≡ first_passed limits.now }
{
    for (limit, passed) in limits {
        if *passed {
            return Some(*limit);
        }
    }
    None
}

/// The bytes of a record, at most.
const MOST_RECORD_BYTES: u32 = xl_base::MOST_RECORD_BYTES as u32;

/// The least limit that a grant passes, if so many claims are held, bytes are in the record that is stored for it, and names
/// are kept afterwards. Of claims and bytes 2^64 - 1 stands for more as well.
pub(crate) fn passed_by_grant(
    left: &Rooms,
    rows: &Rooms,
    held: usize,
    bytes: u64,
    kept: usize,
) -> Option<u32>
    ensures { (all whole : ℕ) → held ≡ min all (2 ^ 64 - 1) → bytes ≡ min whole (2 ^ 64 - 1) → result ≡ first_passed (grant_limits left.now rows.now all whole kept) }
{
    first_passed(&[
        (MOST_HOSTS, left.hosts < rows.hosts),
        (MOST_OPENS, left.opens < rows.opens),
        (MOST_OWNERS, left.owners < rows.owners),
        (CLAIMS as u32, CLAIMS < held),
        (MOST_RECORD_BYTES, u64::from(MOST_RECORD_BYTES) < bytes),
        (MOST_NAMES, (MOST_NAMES as usize) < kept),
    ])
}

/// The least limit that a wait passes, if so many wait already and names are kept afterwards.
pub(crate) fn passed_by_wait(left: &Rooms, rows: &Rooms, waiting: usize, kept: usize) -> Option<u32>
    ensures { result ≡ first_passed (wait_limits left.now rows.now waiting kept) }
{
    first_passed(&[
        (MOST_HOSTS, left.hosts < rows.hosts),
        (MOST_WAITERS as u32, MOST_WAITERS <= waiting),
        (MOST_NAMES, (MOST_NAMES as usize) < kept),
    ])
}

/// The least limit that a wish by itself passes, if so many names are kept afterwards.
pub(crate) fn passed_by_wish(left: &Rooms, rows: &Rooms, kept: usize) -> Option<u32>
    ensures { result ≡ first_passed (wish_limits left.now rows.now kept) }
{
    first_passed(&[
        (MOST_HOSTS, left.hosts < rows.hosts),
        (MOST_OPENS, left.opens < rows.opens),
        (MOST_OWNERS, left.owners < rows.owners),
        (MOST_NAMES, (MOST_NAMES as usize) < kept),
    ])
}
