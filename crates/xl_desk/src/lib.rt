//! One turn over a serial machine, for threads that share it: who has the turn steps the machine, and the others wait.
#![tactic(auto)]

mod desk;
mod fault;
mod outs;
mod plays;
mod turn;
mod view;

pub use desk::{Desk, NoRoom, Pass, Receipt};
pub use fault::DeskErr;
pub use outs::{Due, Found};
pub use plays::InTurns;
pub use view::View;
