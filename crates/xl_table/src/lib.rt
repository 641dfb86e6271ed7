//! The table of the claims that are held: a flat list in a fixed order, and what is asked of it.
#![tactic(auto)]

mod block;
mod bounds;
mod change;
mod due;
mod exact;
mod files;
mod guard;
mod holding;
mod law;
mod least;
mod leaver;
mod leaving;
mod listing;
mod marks;
mod ordering;
mod page;
mod pages;
mod placing;
mod relock;
mod section;
mod table;
mod touching;

pub use block::is_answer_due;
pub use change::Change;
pub use law::{
    a_lock_is_taken_back, opens_hold_elements, stays_compatible, stays_sound,
    united_shares_stay_compatible, unlocks_grow_only_by_a_cut,
};
pub use least::least_of;
pub use leaver::Leaver;
pub use table::{CLAIMS, Table, TableErr};
pub use xl_matrix::is_blocked_by;
