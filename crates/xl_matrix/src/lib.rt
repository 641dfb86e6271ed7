//! Claims on files (shares, byte ranges, caches) and the matrix that says which two may be held together.
#![tactic(auto)]

mod block;
mod claim;
mod equal;
mod extent;
mod law;
mod matrix;
mod owner;
mod right;
mod weaker;

pub use block::{is_a_cache, is_a_range, is_a_share, is_blocked_by};
pub use claim::{Break, CacheKind, Claim, Extent, Rwd, What};
pub use equal::{same_claim, same_owner, same_party};
pub use extent::{covers, extent_within, meet};
pub use law::{
    compatible_by_bytes, compatible_in_parts, compatible_when_weaker, has_no_sides, meets_by_bytes,
    within_is_an_order,
};
pub use matrix::{compatible, guards, has_handle, has_write};
pub use owner::{is_posix, protocol_of_owner, protocol_of_party};
pub use right::{has_common, is_none, rights_within};
pub use weaker::{kind_within, lies_within};
