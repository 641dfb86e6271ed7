//! LOCK and the requests that wait, of SMB 2.1 (MS-SMB2 3.3.5.14, 3.3.4.2), over the core.
#![tactic(auto)]

mod asks;
mod elements;
mod finals;
pub mod law;
mod levels;
mod locking;
mod status;
mod unlocking;

pub use elements::{elements_of, is_count, lock_fault, unlocks_first};
pub use finals::{FinalReply, dismiss, final_body, push_all, tell};
pub use levels::{
    Caching, cache_of, caching_of, contexts_told, file_id, file_of, lease_party, level_held,
    opened, oplock_of, party_for, party_of,
};
pub use locking::{Locking, asked, comes_to, lock};
pub use status::{PENDING, SUCCESS, SmbStatus};
pub use unlocking::unlock;
