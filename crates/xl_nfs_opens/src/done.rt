//! What an operation comes to.
ghost use Rattle.std.specs.Prelude.{◌≡◌, []};

use crate::told::Told;
use std::alloc::Global;
use xl_base::Sequence;
use xl_core::Effect;
use xl_nfs::NfsStatus;

/// What an operation was answered, the current handle then, and what the core told of besides.
pub type Done = (Told, Option<u32>, Sequence<Effect>);

/// It ended so, and the current handle stays.
pub fn ended_as(alloc: Global, status: NfsStatus, current: Option<u32>) -> Done
    ensures { result ≡ (Told.Ended status, current, []) }
{
    (Told::Ended(status), current, Sequence::new(alloc))
}

/// It was answered so, and the core tells of nothing besides.
pub fn beside(alloc: Global, done: (Told, Option<u32>)) -> Done
    ensures { result ≡ (done.0, done.1, []) }
{
    (done.0, done.1, Sequence::new(alloc))
}
