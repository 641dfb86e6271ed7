//! Caches: which breaks an ask begins and waits for, what a break leaves, and what a wish for a cache gets.
#![tactic(auto)]

mod break_plan;
mod breaks;
mod holders;
mod law;
mod level;
mod need;
mod wish;

pub use break_plan::{BreakPlan, first_slow, recalled};
pub use breaks::{
    final_blockers, is_break_running, is_final_blocker, is_oplock_party, is_share_covered,
    plan_breaks,
};
pub use law::{kinds_go_by_party, lease_kinds_have_states, leaves_what_all_leave};
pub use level::{kind_in_lease, lease_state, oplock_level, wish_of_lease, wish_of_oplock};
pub use need::{Need, answer_needed, rest_within, target};
pub use wish::{Wish, best, best_join, find_own_cache, join, kind_for};
pub use xl_matrix::{CacheKind, guards};
