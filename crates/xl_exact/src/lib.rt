//! The byte ranges that one SMB open has locked in one file, kept one by one as they were locked (MS-FSA 2.1.5.8). The
//! bodies are the plain programs of the definitions: each goes over the list from its front.
#![tactic(auto)]

mod element;
mod exact;
pub mod laws;
mod listing;

pub use element::Element;
pub use exact::Exact;
