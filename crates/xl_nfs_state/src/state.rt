//! The four lists together.
ghost use Rattle.std.specs.Prelude.{◌≡◌};
ghost use Rattle.xl_nfs_state.specs.State.{no_lists};
ghost use Rattle.xl_nfs_state.specs.declared.state.NfsStateErr.TheVariants.{NoMemory};

mod clients;
mod owners;
mod results;
mod stateids;
mod whole;

use crate::client::ClientRow;
use crate::filed::Filed;
use crate::kept::Kept;
use crate::owner::OwnerRow;
use crate::stateid::StateidRow;
pub use clients::MOST_CLIENTS;
use std::alloc::{AllocError, Global};
use std::marker::Model;
use thiserror::Error;
pub use xl_base::{MOST_OPENS, MOST_OWNERS};

/// Why a row could not be added, or rows not be listed.
#[derive(Clone, Copy, Debug, Error)]
pub enum NfsStateErr {
    /// Memory ran out.
    #[error("no memory")]
    NoMemory,
}

impl From<AllocError> for NfsStateErr {
    ghost from_gives = { λ _ e. e ≡ NoMemory };

    fn from(_e: AllocError) -> NfsStateErr {
        NfsStateErr::NoMemory
    }
}

/// What the server remembers of its NFSv4.0 clients. A contract sees four lists, each in order of arrival: clients,
/// of which an id string's confirmed and its unconfirmed record are two rows; owners, of opens and of locks; stateids,
/// of opens (a closed one as long as it is known), locks and delegations; and kept results, one an owner. A row is
/// found by its number or name without a walk.
#[derive(Drop)]
pub struct NfsState {
    clients: Filed<ClientRow>,
    owners: Filed<OwnerRow>,
    stateids: Filed<StateidRow>,
    kept: Kept,
    live: usize,
}

impl Model for NfsState {
    ghost use Rattle.std.specs.Prelude.{◌≡◌};
    ghost use Rattle.xl_nfs_state.specs.State.{NfsLists, IsSound, opens};

    ghost Value = { NfsLists };

    ghost view = { λ s. record { clients = s.clients; owners = s.owners; stateids = s.stateids; kept = s.kept } };

    ghost invariant = { λ s. IsSound (record { clients = s.clients; owners = s.owners; stateids = s.stateids; kept = s.kept }) × (s.live ≡ opens s.stateids) };
}

#[tactic(auto, using(crate::proofs::SoundLaws::sound_empty))]
impl NfsState {
    /// The lists at a start, without rows. It takes no memory.
    pub fn new(alloc: Global) -> NfsState
        ensures { result ≡ no_lists }
    {
        NfsState {
            clients: Filed::new(alloc),
            owners: Filed::new(alloc),
            stateids: Filed::new(alloc),
            kept: Kept::new(alloc),
            live: 0,
        }
    }
}
