//! The records of clients.
ghost use Rattle.std.specs.Prelude.{◌≡◌, refl, IfOk};
ghost use Rattle.std.proofs.Common.{ap};
ghost use Rattle.xl_nfs_state.specs.Alike.{client_names_are};
ghost use Rattle.xl_nfs_state.specs.Keys.{client_key, client_name, same_client_name};
ghost use Rattle.xl_nfs_state.specs.Rows.{with_details};

use crate::filed::{Change, Row};
use indexmap::Equivalent;
use std::alloc::{AllocError, Global};
use std::hash::Hash;
use xl_base::{Moment, Sequence};

/// Where a client is called back (RFC 7530 16.33, `cb_client4` and `callback_ident`).
#[derive(Drop)]
pub struct Callback {
    /// The program number of the client's callbacks; 0 if it takes none.
    pub program: u32,
    /// The network that the address is of (RFC 5665).
    pub netid: Sequence<u8>,
    /// The universal address.
    pub address: Sequence<u8>,
    /// The number by which the client knows its callbacks.
    pub ident: u32,
}

/// What a client's record says beside its keys.
#[derive(Drop)]
pub struct ClientDetails {
    /// The verifier that changes if the client starts anew (RFC 7530 9.1.1).
    pub verifier: [u8; 8],
    /// The verifier that SETCLIENTID_CONFIRM has to repeat (RFC 7530 16.34).
    pub confirm: [u8; 8],
    /// Where the client is called back.
    pub callback: Callback,
    /// The moment at which the record is dropped, if it isn't confirmed before. When a confirmed client's lease ends, the core
    /// alone knows.
    pub time: Moment,
}

/// A client's record, confirmed by SETCLIENTID_CONFIRM or not. An id string, and a number, has at most one record of
/// each kind.
#[derive(Drop)]
pub struct ClientRow {
    /// The low half of its clientid.
    pub number: u32,
    /// Whether it is confirmed (RFC 7530 16.34).
    pub confirmed: bool,
    /// The client's own id string (RFC 7530 9.1.1).
    pub id: Sequence<u8>,
    /// All else.
    pub details: ClientDetails,
}

impl ClientRow {
    /// The same record once more.
    pub fn copy(&self, alloc: Global) -> Result<ClientRow, AllocError>
        ensures { IfOk result (λ row. row ≡ self.now) }
    {
        Ok(ClientRow {
            number: self.number,
            confirmed: self.confirmed,
            id: Sequence::from_slice(alloc, self.id.as_slice())?,
            details: ClientDetails {
                verifier: self.details.verifier,
                confirm: self.details.confirm,
                callback: self.details.callback.copy(alloc)?,
                time: self.details.time,
            },
        })
    }
}

impl Callback {
    /// The same callback once more.
    pub fn copy(&self, alloc: Global) -> Result<Callback, AllocError>
        ensures { IfOk result (λ callback. callback ≡ self.now) }
    {
        Ok(Callback {
            program: self.program,
            netid: Sequence::from_slice(alloc, self.netid.as_slice())?,
            address: Sequence::from_slice(alloc, self.address.as_slice())?,
            ident: self.ident,
        })
    }
}

/// A record's number, and of which kind it is.
#[derive(Clone, Copy, PartialEq, Eq, Hash)]
pub(crate) struct ClientKey {
    pub(crate) number: u32,
    pub(crate) confirmed: bool,
}

/// A record's id string, and of which kind it is.
#[derive(Drop, PartialEq, Eq, Hash)]
pub(crate) struct ClientName {
    pub(crate) id: Sequence<u8>,
    pub(crate) confirmed: bool,
}

/// The same, by borrowed bytes.
#[derive(Clone, Copy, PartialEq, Eq, Hash)]
pub(crate) struct ClientNamed<'a> {
    pub(crate) id: &'a [u8],
    pub(crate) confirmed: bool,
}

impl<'a> Equivalent<ClientName> for ClientNamed<'a> {
    ghost equivalent = { λ q k. same_client_name (record { id = q.id.now; confirmed = q.confirmed }) k };

    fn equivalent(&self, key: &ClientName) -> bool {
        self.id == key.id.as_slice() && self.confirmed == key.confirmed
    }

    ghost respects_hash = { λ q k h. ap ⟦<ClientName as Hash>⟧.hash_input (client_names_are _ k h) };

    ghost respects_eq = { λ q x y h. ap (λ n. same_client_name n y) (client_names_are _ x h) };
}

impl Row for ClientRow {
    type Number = ClientKey;

    type Name = ClientName;

    ghost number = { client_key };

    ghost name = { client_name };

    fn number(&self) -> ClientKey {
        ClientKey {
            number: self.number,
            confirmed: self.confirmed,
        }
    }

    fn name(&self, alloc: Global) -> Result<ClientName, AllocError> {
        Ok(ClientName {
            id: Sequence::from_slice(alloc, self.id.as_slice())?,
            confirmed: self.confirmed,
        })
    }
}

impl Change<ClientRow> for ClientDetails {
    ghost after = { with_details };

    fn change(self, row: &mut ClientRow) {
        row.details = self;
    }

    ghost keeps_number = { λ c r. refl };

    ghost keeps_name = { λ c r. refl };
}
