//! Laws of NFS version 4.0 over the core: of opens, of locks, and of whole requests. The functions do nothing: their clauses
//! are the laws.
#![tactic(auto)]

pub mod answered_stateids;
pub mod client_cases;
pub mod delegations;
pub mod downgrades;
pub mod leases;
pub mod lock_numbers;
pub mod lock_order;
pub mod lock_owners;
pub mod lock_seqids;
pub mod locks;
pub mod open_answers;
pub mod open_numbers;
pub mod open_order;
pub mod open_seqids;
pub mod opens;
pub mod owners_stay;
pub mod recorded;
pub mod refusals;
pub mod request_numbers;
pub mod request_order;
pub mod requests;
pub mod result_lengths;
pub mod statuses;
