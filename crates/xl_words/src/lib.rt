//! The program's words: which job they name, as `clap` reads them.
#![tactic(auto)]

mod words;

pub use words::{Job, ParseError, Serving, parse, record_path};
