//! The SMB front: what the messages of SMB 2.1 connections are answered (MS-SMB2 3.3.5, dialect 0x0210), over the core.
#![tactic(auto)]

mod arrival;
mod checks;
mod creates;
mod ending;
mod files;
mod front;
mod locks;
mod numbers;
mod outcome;
mod replies;
mod requests;
mod sessions;
mod step;
mod texts;
mod told;

pub use arrival::Packet;
pub use ending::smb_end;
pub use front::{SmbFront, smb_begin};
pub use step::{smb_shown, smb_step};
pub use told::Told;
pub use xl_smb_locks::SmbStatus;
