//! The texts of captures and transcripts, and what `show` says of messages.
#![tactic(auto)]

mod addresses;
mod capture;
mod headers;
mod law;
mod links;
mod numbers;
mod rows;
mod show;
mod step;
mod summaries;
mod transcripts;
mod written;

pub use addresses::Addresses;
pub use capture::{
    Capture, CaptureError, DEFAULT_BREAK, DEFAULT_GRACE, DEFAULT_LEASE, MOST_BYTES, read_capture,
};
pub use headers::read_header;
pub use law::streams_may_be_cut_anywhere;
pub use numbers::number_of;
pub use show::{show_line, show_text};
pub use step::{ALL_STORES, Step};
pub use summaries::summary;
pub use transcripts::transcript;
pub use written::capture_of;
