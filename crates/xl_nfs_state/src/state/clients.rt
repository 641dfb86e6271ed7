//! The clients among the lists.
ghost use Rattle.std.specs.Prelude.{◌≡◌, ◌<◌, ◌≤◌, ◌++◌, ◌∷◌, [], true, length, map, None, IsSome, IsTrue, ◌↔◌, OnOk, OnErr, option_copied};
ghost use Rattle.std.specs.List.{IsDistinct, find};
ghost use Rattle.xl_nfs_state.specs.Filed.{changed};
ghost use Rattle.xl_nfs_state.specs.Keys.{client_key, client_name, same_client_key, same_client_name};
ghost use Rattle.xl_nfs_state.specs.Rows.{with_details};
ghost use Rattle.xl_nfs_state.specs.State.{IsIdleClient, is_client, is_client_named, is_due, most_clients, with_clients, without};

use super::{NfsState, NfsStateErr};
use crate::client::{ClientDetails, ClientKey, ClientNamed, ClientRow};
use crate::listing::has_any;
use crate::picks::{Due, OwnersOf};
use crate::stateid::Whose;
use std::alloc::Global;
use xl_base::Moment;

/// How many records of clients there are at most, confirmed or not.
pub const MOST_CLIENTS: usize = 256;

impl NfsState {
    /// How many records of clients there are. No two have one number, or one id string, and are of one kind.
    pub fn client_count(&self) -> usize
        ensures count { result ≡ length self.now.clients }
        ensures room { result ≤ most_clients }
        ensures numbers { IsDistinct same_client_key (map client_key self.now.clients) }
        ensures names { IsDistinct same_client_name (map client_name self.now.clients) }
    {
        self.clients.len()
    }

    /// The record of this number, confirmed or not; None exactly if there is none.
    pub fn find_client(&self, number: u32, confirmed: bool) -> Option<&ClientRow>
        ensures { option_copied result ≡ find (is_client number confirmed) self.now.clients }
    {
        self.clients.find_number(&ClientKey { number, confirmed })
    }

    /// The record of this id string, confirmed or not; None exactly if there is none.
    pub fn find_client_named(&self, id: &[u8], confirmed: bool) -> Option<&ClientRow>
        ensures { option_copied result ≡ find (is_client_named id.now confirmed) self.now.clients }
    {
        self.clients.find_name(ClientNamed { id, confirmed })
    }

    /// Adds a record behind the others, if there are fewer than 256 and none has its number, or its id string, and is
    /// of its kind. Want of memory changes nothing.
    pub fn add_client(&mut self, alloc: Global, row: ClientRow) -> Result<(), NfsStateErr>
        requires room { length self.old.clients < most_clients }
        requires number { find (is_client row.number row.confirmed) self.old.clients ≡ None }
        requires name { find (is_client_named row.id row.confirmed) self.old.clients ≡ None }
        ensures ok { OnOk result (self.new ≡ with_clients self.old (self.old.clients ++ row ∷ [])) }
        ensures err { OnErr result (self.new ≡ self.old) }
    {
        self.clients.add(alloc, row)?;
        Ok(())
    }

    /// Changes all except the keys of the record of this number, which is there, confirmed or not.
    pub fn change_client(&mut self, number: u32, confirmed: bool, details: ClientDetails)
        requires { IsSome (find (is_client number confirmed) self.old.clients) }
        ensures { self.new ≡ with_clients self.old (changed (is_client number confirmed) (with_details details) self.old.clients) }
    {
        self.clients
            .change(&ClientKey { number, confirmed }, details);
    }

    /// Whether the client of this number has no owner and no stateid. It walks over both lists.
    pub fn is_client_idle(&self, number: u32) -> bool
        ensures { IsTrue result ↔ IsIdleClient number self.now }
    {
        !has_any(&self.owners, &OwnersOf(number))
            && !has_any(&self.stateids, &Whose::Client(number))
    }

    /// Drops the record of this number, which is there, confirmed or not. A confirmed client has no owner and no stateid.
    pub fn drop_client(&mut self, number: u32, confirmed: bool)
        requires there { IsSome (find (is_client number confirmed) self.old.clients) }
        requires idle { confirmed ≡ true → IsIdleClient number self.old }
        ensures { self.new ≡ with_clients self.old (without (is_client number confirmed) self.old.clients) }
    {
        self.clients.drop_picked(&ClientKey { number, confirmed });
    }

    /// Drops the records that aren't confirmed and whose time has come.
    pub fn drop_due_clients(&mut self, now: Moment)
        ensures { self.new ≡ with_clients self.old (without (is_due now) self.old.clients) }
    {
        self.clients.drop_picked(&Due(now));
    }
}
