//! What a served machine needs of the system: lanes over TCP, a caller that dials, a file for the record, and a clock. None of them
//! tells a contract what it read or wrote.
#![tactic(auto)]

mod caller;
mod clock;
mod keeper;
mod lane;
mod link;
mod port;
#[cfg(test)]
mod tests;
mod wait;

pub use caller::{Reach, TcpCaller};
pub use clock::SteadyClock;
pub use keeper::FileKeeper;
pub use lane::TcpLane;
pub use port::Port;
