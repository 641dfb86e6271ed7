//! What a request comes to.
ghost use Rattle.std.specs.Prelude.{◌≡◌, []};

use crate::told::Told;
use std::alloc::Global;
use xl_base::Sequence;
use xl_core::Effect;
use xl_smb_locks::SmbStatus;

/// What a request is answered, and what the core told of besides.
pub(crate) type Done = (Told, Sequence<Effect>);

/// A request fails so, and nothing is done.
pub(crate) fn failed(alloc: Global, status: SmbStatus) -> Done
    ensures { result ≡ (Told.Failed status, []) }
{
    (Told::Failed(status), Sequence::new(alloc))
}

/// A request is answered so, and nothing is done to the core.
pub(crate) fn told(alloc: Global, told: Told) -> Done
    ensures { result ≡ (told, []) }
{
    (told, Sequence::new(alloc))
}
