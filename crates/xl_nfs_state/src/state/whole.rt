//! All that belongs to an owner, and to a client.
ghost use Rattle.std.specs.Prelude.{◌≡◌};
ghost use Rattle.xl_nfs_state.specs.State.{without_client, without_owner};

use super::NfsState;
use super::stateids::drop;
use crate::client::ClientKey;
use crate::picks::{OneOwner, OwnersOf};
use crate::stateid::Whose;

impl NfsState {
    /// Drops the owner of this number with its kept result and all that hangs on it: its stateids, and the locks under its
    /// opens (RFC 7530 16.37 of a lock owner; 9.1.11 of an open owner that was not confirmed).
    pub fn forget_owner(&mut self, number: u64)
        ensures { self.new ≡ without_owner number self.old }
    {
        drop(&mut self.stateids, &mut self.live, &Whose::Owner(number));
        self.kept.drop(number);
        self.owners.drop_picked(&OneOwner(number));
    }

    /// Drops the confirmed record of this number and all that is the client's: its stateids, owners and kept results
    /// (RFC 7530 9.6.3, 16.34). A record of the same id string that isn't confirmed stays.
    pub fn forget_client(&mut self, number: u32)
        ensures { self.new ≡ without_client number self.old }
    {
        drop(&mut self.stateids, &mut self.live, &Whose::Client(number));
        self.owners.drop_picked(&OwnersOf(number));
        self.kept.keep_owners(&self.owners);
        let key = ClientKey {
            number,
            confirmed: true,
        };
        self.clients.drop_picked(&key);
    }
}
