//! What becomes of a call, before the core is asked.

use crate::front::Front;
use crate::outcome::Outcome;
use xl_core::{Ask, Core};
use xl_matrix::Claim;
use xl_wait::Rooms;

/// What a call is planned by.
#[derive(Clone, Copy)]
pub(crate) struct Context<'a> {
    /// How many files are exported.
    pub count: usize,
    /// What the front keeps.
    pub front: &'a Front,
    /// The core.
    pub core: &'a Core,
}

/// What a call does to the core, which gives no answer to it.
#[derive(Drop)]
pub(crate) enum Deed {
    /// It gives back this claim.
    GivesBack(Claim),
    /// It takes out the waiter of this number.
    Cancels(u32),
    /// It ends the client whose name has this number.
    Ends(u32),
}

/// What becomes of a call.
#[derive(Drop)]
pub(crate) enum Plan {
    /// It is answered so, and nothing is done.
    Tells(Outcome),
    /// This is asked, if so much room is left in the tables of the fronts, and the call is answered as the core
    /// answers.
    Asks(Rooms, Ask),
    /// This is done.
    Does(Deed),
}
