//! Ids that outlive no start: those of NFSv4 clients (RFC 7530 9.1.1), and of SMB sessions and opens.
ghost use Rattle.std.specs.Prelude.{◌≡◌};
ghost use Rattle.xl_core.specs.Ids.{id_of, number_in};

use crate::doors::Core;

/// One more than the greatest number that is given out: what the epoch counts in an id.
const NUMBERS: u64 = 1 << 32;

/// The id with this number: the epoch of this start, and the number.
pub fn id_of(core: &Core, number: u32) -> u64
    ensures { result ≡ id_of core.now number }
{
    u64::from(core.stable().epoch()) * NUMBERS + u64::from(number)
}

/// The number in an id, if it is of this start.
pub fn number_in(core: &Core, id: u64) -> Option<u32>
    ensures { result ≡ number_in core.now id }
{
    if id / NUMBERS == u64::from(core.stable().epoch()) {
        Some((id % NUMBERS) as u32)
    } else {
        None
    }
}
