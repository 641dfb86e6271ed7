//! What the front keeps, and what the clock and the core's news change of it.
ghost use Rattle.std.specs.Prelude.{◌≡◌};
ghost use Rattle.xl_front_nfs.specs.State.{empty_nfs_front, nfs_tick, nfs_shown};

use std::alloc::Global;
use xl_base::Moment;
use xl_core::Effect;
use xl_nfs_state::NfsState;

/// What the front keeps of NFSv4 clients (RFC 7530 9.1). A contract sees the lists of it.
#[derive(Drop)]
pub struct NfsFront {
    pub(crate) state: NfsState,
}

impl NfsFront {
    /// The front at a start, which knows no clients. It takes no memory.
    pub fn new(alloc: Global) -> NfsFront
        ensures { result ≡ empty_nfs_front }
    {
        NfsFront {
            state: NfsState::new(alloc),
        }
    }

    /// What is remembered of the clients.
    pub fn state(&self) -> &NfsState
        ensures { result.now ≡ self.now.state }
    {
        &self.state
    }
}

/// At this moment the records of clients go that weren't confirmed in their time (RFC 7530 16.33).
#[tactic(auto, unfolding(crate::specs::State::nfs_tick))]
pub fn nfs_tick(front: &mut NfsFront, now: Moment)
    ensures { front.new ≡ nfs_tick front.old now }
{
    front.state.drop_due_clients(now);
}

/// What an effect of the core changes: a client that expired is forgotten, with its owners, its stateids and the results
/// that are kept for it. Nothing is sent.
#[tactic(auto, unfolding(crate::specs::State::nfs_shown))]
pub fn nfs_shown(front: &mut NfsFront, effect: &Effect)
    ensures { front.new ≡ nfs_shown front.old effect.now }
{
    if let Effect::Expired(id) = effect {
        if let Some(row) = front.state.find_client_named(id.as_slice(), true) {
            let number = row.number;
            front.state.forget_client(number);
        }
    }
}
