//! Choices of rows.
ghost use Rattle.std.specs.Prelude.{◌≡◌, ◌==◌};
ghost use Rattle.xl_nfs_state.specs.Keys.{client_key, same_client_key};
ghost use Rattle.xl_nfs_state.specs.State.{is_due, is_owner, is_stateid, hangs_on, is_under, is_whose};

use crate::client::{ClientKey, ClientRow};
use crate::filed::Picks;
use crate::owner::OwnerRow;
use crate::stateid::{Holder, StateidRow, Whose};
use xl_base::Moment;

impl Picks<ClientRow> for ClientKey {
    ghost picks = { λ key r. same_client_key key (client_key r) };

    fn picks(&self, row: &ClientRow) -> bool {
        self.number == row.number && self.confirmed == row.confirmed
    }
}

/// The records that aren't confirmed, and whose time has come.
#[derive(Clone, Copy)]
pub(crate) struct Due(pub(crate) Moment);

impl Picks<ClientRow> for Due {
    ghost picks = { λ d. is_due d.0 };

    fn picks(&self, row: &ClientRow) -> bool {
        !row.confirmed && row.details.time.0 <= self.0.0
    }
}

/// The owner of this number.
#[derive(Clone, Copy)]
pub(crate) struct OneOwner(pub(crate) u64);

impl Picks<OwnerRow> for OneOwner {
    ghost picks = { λ o. is_owner o.0 };

    fn picks(&self, row: &OwnerRow) -> bool {
        self.0 == row.number
    }
}

/// The owners of the client of this number.
#[derive(Clone, Copy)]
pub(crate) struct OwnersOf(pub(crate) u32);

impl Picks<OwnerRow> for OwnersOf {
    ghost picks = { λ c o. c.0 == o.name.client };

    fn picks(&self, row: &OwnerRow) -> bool {
        self.0 == row.name.client
    }
}

/// The stateid of this number.
#[derive(Clone, Copy)]
pub(crate) struct OneStateid(pub(crate) u64);

impl Picks<StateidRow> for OneStateid {
    ghost picks = { λ s. is_stateid s.0 };

    fn picks(&self, row: &StateidRow) -> bool {
        self.0 == row.number
    }
}

fn hangs_on(owner: u64, holder: Holder) -> bool
    ensures { result ≡ hangs_on owner holder }
{
    match holder {
        Holder::Open(by) => owner == by,
        Holder::Lock {
            owner: by,
            under: _,
            opener,
        } => owner == by || owner == opener,
        Holder::Delegation { write: _ } => false,
    }
}

fn is_under(number: u64, holder: Holder) -> bool
    ensures { result ≡ is_under number holder }
{
    match holder {
        Holder::Lock { under, .. } => number == under,
        _ => false,
    }
}

impl Picks<StateidRow> for Whose {
    ghost picks = { is_whose };

    fn picks(&self, row: &StateidRow) -> bool {
        match *self {
            Whose::Owner(owner) => hangs_on(owner, row.holder),
            Whose::Stateid(number) => number == row.number || is_under(number, row.holder),
            Whose::Under(number) => is_under(number, row.holder),
            Whose::Client(client) => client == row.client,
            Whose::ClientFile(client, file) => client == row.client && file == row.file,
        }
    }
}
