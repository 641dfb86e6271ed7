//! Stateids.
ghost use Rattle.std.specs.Prelude.{◌≡◌, refl, IfOk};
ghost use Rattle.xl_nfs_state.specs.Keys.{stateid_key, place_of};
ghost use Rattle.xl_nfs_state.specs.Rows.{with_standing};

use crate::filed::{Change, Row};
use std::alloc::{AllocError, Global};
use std::hash::Hash;

/// What a stateid stands for, and whose it is.
#[derive(Clone, Copy)]
pub enum Holder {
    /// An open of the owner of this number (RFC 7530 9.1.4).
    Open(u64),
    /// Locks.
    Lock {
        /// The number of the lock owner.
        owner: u64,
        /// The number of the open that they hang under.
        under: u64,
        /// The number of that open's owner.
        opener: u64,
    },
    /// A delegation to the client (RFC 7530 10.4): for writing, or else for reading.
    Delegation {
        /// Whether it is for writing.
        write: bool,
    },
}

/// What changes of a stateid.
#[derive(Clone, Copy)]
pub struct Standing {
    /// Its seqid, which begins at 1 (RFC 7530 9.1.4).
    pub seqid: u32,
    /// The access of an open: read 1, write 2, both 3. Of another stateid 0.
    pub access: u32,
    /// What an open denies, in the same bits. Of another stateid 0.
    pub deny: u32,
    /// Whether an open was closed. It is still known for its owner's last request, the CLOSE, to come again.
    pub closed: bool,
}

/// A stateid.
#[derive(Clone, Copy)]
pub struct StateidRow {
    /// Its number, the last eight bytes of `other`.
    pub number: u64,
    /// The number of its client.
    pub client: u32,
    /// The number of its file.
    pub file: u32,
    /// What it stands for, and whose it is.
    pub holder: Holder,
    /// What changes of it.
    pub standing: Standing,
}

/// Which stateids are meant.
#[derive(Clone, Copy)]
pub enum Whose {
    /// What hangs on the owner of this number: the owner's own, and of an open owner the locks under its opens too.
    Owner(u64),
    /// The stateid of this number and the locks under it.
    Stateid(u64),
    /// The locks under the open of this number.
    Under(u64),
    /// All of the client of this number.
    Client(u32),
    /// All of the client, the first number, on the file, the second.
    ClientFile(u32, u32),
}

/// Where a stateid stands: an owner has one on a file, and of delegations a client.
#[derive(Clone, Copy, PartialEq, Eq, Hash)]
pub(crate) enum Place {
    /// What the owner has on the file.
    Owned(u64, u32),
    /// The client's delegation on the file.
    Delegated(u32, u32),
}

impl Row for StateidRow {
    type Number = u64;

    type Name = Place;

    ghost number = { stateid_key };

    ghost name = { place_of };

    fn number(&self) -> u64 {
        self.number
    }

    fn name(&self, alloc: Global) -> Result<Place, AllocError> {
        Ok(match self.holder {
            Holder::Open(owner) => Place::Owned(owner, self.file),
            Holder::Lock { owner, .. } => Place::Owned(owner, self.file),
            Holder::Delegation { .. } => Place::Delegated(self.client, self.file),
        })
    }
}

impl Change<StateidRow> for Standing {
    ghost after = { with_standing };

    fn change(self, row: &mut StateidRow) {
        row.standing = self;
    }

    ghost keeps_number = { λ c r. refl };

    ghost keeps_name = { λ c r. refl };
}
