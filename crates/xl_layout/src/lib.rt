//! Layouts of messages whose numbers are little-endian: fields at fixed places, and parts that they name by offset and
//! length. A layout says in one place how a value is read and spelled, and which values have a spelling; laws for all
//! layouts say that what is spelled is read again. The functions read numbers at places, and write texts.
#![tactic(auto)]

mod place;

pub use place::{bytes_at, put_all, u16_at, u16_bytes, u32_at, u32_bytes, u64_at, u64_bytes};
