//! Which held claims block an ask.
ghost use Rattle.std.specs.Prelude.{◌≡◌};
ghost use Rattle.xl_table.specs.Flat.{due_by, is_due};

use xl_base::Moment;
use xl_matrix::{Claim, What};

fn is_break_due(what: What, now: u64) -> bool
    ensures { result ≡ due_by what now }
{
    match what {
        What::Cache(_, Some(running)) => running.deadline.0 <= now,
        _ => false,
    }
}

/// Whether the claim is a cache whose break runs and whose answer is due: its deadline is at or before now.
pub fn is_answer_due(now: Moment, claim: &Claim) -> bool
    ensures { result ≡ is_due now claim.now }
{
    is_break_due(claim.what, now.0)
}
