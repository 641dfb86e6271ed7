//! The names of owners and parties, each with one number, and their texts.
#![tactic(auto)]

pub mod laws;
mod name;
mod names;
pub mod plain;
mod text;

pub use name::Name;
pub use names::{MOST_NAMES, NameErr, Names};
pub use text::{
    owner_text, party_text, put_hex_word, put_name, put_open, put_owner, put_party, text_of,
};
