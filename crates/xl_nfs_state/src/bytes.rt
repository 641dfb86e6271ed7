//! The bytes of results that are kept.
ghost use Rattle.std.specs.Prelude.{◌≡◌, ◌≤◌, length, IfOk};
ghost use Rattle.xl_nfs_state.specs.Bytes.{most_result_bytes};

use std::alloc::{AllocError, Global};
use std::marker::Model;
use xl_base::Sequence;

/// The bytes of a result that is kept, 1,064 at most: as many as LOCK's result has that is denied by an owner of 1,024 bytes.
/// A contract sees the bytes.
#[derive(Drop)]
pub struct ResultBytes {
    bytes: Sequence<u8>,
}

impl Model for ResultBytes {
    ghost use Rattle.std.specs.Prelude.{◌≤◌, ℕ, List, length};
    ghost use Rattle.xl_nfs_state.specs.Bytes.{most_result_bytes};

    ghost Value = { List ℕ };

    ghost view = { λ r. r.bytes };

    ghost invariant = { λ r. length r.bytes ≤ most_result_bytes };
}

impl ResultBytes {
    /// These bytes, 1,064 at most. It takes no memory.
    pub fn new(bytes: Sequence<u8>) -> ResultBytes
        requires { length bytes ≤ most_result_bytes }
        ensures { result ≡ bytes }
    {
        ResultBytes { bytes }
    }

    /// The bytes.
    pub fn as_slice(&self) -> &[u8]
        ensures bytes { result.now ≡ self.now }
        ensures few { length self.now ≤ most_result_bytes }
    {
        self.bytes.as_slice()
    }

    /// The same bytes once more.
    pub fn copy(&self, alloc: Global) -> Result<ResultBytes, AllocError>
        ensures { IfOk result (λ bytes. bytes ≡ self.now) }
    {
        Ok(ResultBytes {
            bytes: Sequence::from_slice(alloc, self.bytes.as_slice())?,
        })
    }
}
