//! The core's calls, one after another.

mod asks;
mod cases;
mod grace;
mod order;
mod steps;
