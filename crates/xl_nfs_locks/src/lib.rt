//! Byte-range locks of NFS version 4.0 (RFC 7530 16.10 to 16.12, 16.37) over the core.
#![tactic(auto)]

mod asks;
mod denials;
mod joining;
mod locking;
mod locks;
mod ranges;
mod releasing;
mod testing;
mod unlocking;

pub use locks::lock;
pub use releasing::release;
pub use testing::lock_test;
pub use unlocking::unlock;
