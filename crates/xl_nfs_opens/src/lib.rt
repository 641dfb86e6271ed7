//! Opens of NFS version 4.0 (RFC 7530): owners with their seqids and kept results, stateids, leases, and OPEN, OPEN_CONFIRM,
//! OPEN_DOWNGRADE, CLOSE and DELEGRETURN over the core.
#![tactic(auto)]

mod aims;
mod asks;
mod checking;
mod closing;
mod delegating;
mod done;
mod downgrading;
mod ending;
mod entering;
mod files;
mod leases;
mod opener;
mod opening;
mod renewing;
mod repeats;
mod results;
mod seqids;
mod shares;
mod told;

pub use asks::{range_ask, unlock_ask};
pub use checking::{check, standing_fault};
pub use closing::{
    close, count_told, deleg_return, fail, finish, next_seqids, open_confirm, opener_by, state_told,
};
pub use delegating::party_of;
pub use done::{Done, beside, ended_as};
pub use downgrading::open_downgrade;
pub use entering::{held_on, stand};
pub use files::{ROOT, file_named};
pub use leases::{drawn, renewed};
pub use opener::{Checked, Found, Opener};
pub use opening::{Exported, answer_status, client_in, open_file};
pub use renewing::{FIRST_SEQID, number_of, renew_for, state_client, stateid_of};
pub use repeats::repeat;
pub use results::{put_result, result_bytes};
pub use seqids::{advances, count, find_opener, is_room_for, opener_number, remember};
pub use shares::{SHARE_BOTH, SHARE_NONE, SHARE_READ, SHARE_WRITE, asked};
pub use told::{HeldLock, HolderBytes, Told};
