//! The program's top call.
#![tactic(auto)]

mod top;

pub use top::run;
pub use xl_serve::{Done, Outside};
pub use xl_words::{Job, ParseError, Serving, parse, record_path};
