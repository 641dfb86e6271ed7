//! Workers of a served machine: lanes, whose links give it their messages, and callers, who make its calls.
#![tactic(auto)]

mod all;
mod begin;
mod calls;
mod crew;
mod ending;
mod first;
mod lane;
mod rest;
mod serve;
mod worker;

pub use all::{Crew, CrewDone, serve_all};
pub use calls::{CallerPost, CallsDone, serve_calls};
pub use serve::serve_lane;
pub use worker::{Conn, LaneDone, LanePost};
