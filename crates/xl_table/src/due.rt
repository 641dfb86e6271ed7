//! When an answer is due.
ghost use Rattle.std.specs.Prelude.{◌≡◌, nat_lt};
ghost use Rattle.xl_table.specs.Due.{due_with};

use xl_base::Moment;
use xl_matrix::What;

/// Whether it is before the moment from which on answers are due.
pub(crate) fn is_asleep(now: Moment, from: u64) -> bool
    ensures { result ≡ nat_lt now.0 from }
{
    now.0 < from
}

/// The lesser of a moment and that at which an answer is due to what is claimed.
pub(crate) fn due_with(from: u64, what: What) -> u64
    ensures { result ≡ due_with from what }
{
    match what {
        What::Cache(_, Some(running)) => from.min(running.deadline.0),
        _ => from,
    }
}
