//! Plans: what becomes of an operation of a front, whatever protocol it came by, as a value. It has the deeds that are
//! done to the core, what the front keeps, and what is answered; plans follow one another. Here are the definitions and
//! their laws; there is no code.
#![tactic(auto)]

mod grace_laws;
mod law;

pub use grace_laws::{grace_is_told, monitored_clients_are_recorded};
pub use law::{
    budgets_add_up, plans_are_their_deeds, plans_end_as_all_their_ends, plans_follow_one_another,
    plans_stand_within_others, rows_go_on,
};
