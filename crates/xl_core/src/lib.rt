//! The core of the lock state server: who holds what on which file, who waits for it, and what each ask is answered,
//! whatever protocol it came by.
#![tactic(auto)]

mod ask;
mod askers;
mod blockers;
pub mod break_laws;
mod breaks;
mod calls;
mod decide;
pub mod deeds;
mod doors;
mod due;
pub mod grace_laws;
mod ids;
mod judge;
pub mod law;
mod lease;
mod leaving;
mod limits;
pub mod opens;
mod parts;
mod passed;
mod reclaims;
mod settling;
mod standings;
mod stores;
mod ticking;
mod unsettled;
mod ways;
pub mod wish_laws;
mod wishes;

pub use ask::{Act, Answer, Ask, Effect, Who};
pub use doors::Core;
pub use ids::{id_of, number_in};
pub use lease::Times;
pub use limits::{MOST_HOSTS, MOST_OPENS, MOST_OWNERS};
