//! Connections, sessions and tree connects.
ghost use Rattle.std.specs.Prelude.{◌≡◌, nat_eq, nat_lt, ◌<◌, [], None, Some, is_some, true, IsSome, OnOk, OnErr, IfOk, IsTrue, length, option_copied};
ghost use Rattle.xl_smb_state.specs.State.{connection_of, client_of, connection_added, connection_changed, connection_dropped, session_of, session_added, session_changed, session_dropped, sessions_on, tree_of, tree_added, tree_changed, tree_dropped, trees_of, trees_on, opens_under};
ghost use Rattle.xl_smb_state.specs.Links.{most_connections, most_sessions, most_trees, IsSessionLinked, IsTreeLinked, IsHolderLinked, has_place};
ghost use Rattle.xl_smb_state.specs.declared.row.Holder.TheVariants as holder;
ghost use Rattle.xl_smb_state.specs.declared.row.Scope.TheVariants as scope;

use crate::listing::{is_client, is_tree_at, sessions_on, trees_of, trees_on};
use crate::row::{Connection, Place, Session, Tree};
use crate::rows::{add, change, remove};
use crate::state::{SESSIONS, SmbState, TREES};
use std::alloc::{AllocError, Global};

impl SmbState {
    /// The connection of this number; None exactly if there is none.
    pub fn find_connection(&self, number: u64) -> Option<&Connection>
        ensures { option_copied result ≡ connection_of number self.now }
    {
        self.connections.get(&number)
    }

    /// Adds a connection behind the others. Want of memory changes nothing.
    pub fn add_connection(&mut self, number: u64, row: Connection) -> Result<(), AllocError>
        requires new { connection_of number self.old ≡ None }
        requires room { length self.old.connections < most_connections }
        ensures ok { OnOk result (self.new ≡ connection_added number row self.old) }
        ensures err { OnErr result (self.new ≡ self.old) }
    {
        add(&mut self.connections, number, row)
    }

    /// Puts another row in place of that of a connection on which nobody has negotiated yet.
    pub fn change_connection(&mut self, number: u64, row: Connection)
        requires there { IsSome (connection_of number self.old) }
        requires fresh { client_of number self.old ≡ None }
        ensures { self.new ≡ connection_changed number row self.old }
    {
        change(&mut self.connections, &number, row);
    }

    /// Takes out a connection that has no session.
    pub fn drop_connection(&mut self, number: u64)
        requires there { IsSome (connection_of number self.old) }
        requires free { sessions_on number self.old ≡ [] }
        ensures { self.new ≡ connection_dropped number self.old }
    {
        remove(&mut self.connections, &number);
    }

    /// The session of this number, on whatever connection; None exactly if there is none.
    pub fn find_session(&self, number: u32) -> Option<&Session>
        ensures { option_copied result ≡ session_of number self.now }
    {
        self.sessions.get(&number)
    }

    /// Adds a session behind the others, on a connection whose client has negotiated and that has fewer than 16. Want of
    /// memory changes nothing.
    pub fn add_session(&mut self, number: u32, row: Session) -> Result<(), AllocError>
        requires new { session_of number self.old ≡ None }
        requires link { IsSessionLinked self.old row }
        requires room { length (sessions_on row.connection self.old) < most_sessions }
        ensures ok { OnOk result (self.new ≡ session_added number row self.old) }
        ensures err { OnErr result (self.new ≡ self.old) }
    {
        add(&mut self.sessions, number, row)
    }

    /// Puts another row in place of that of a session that has no tree connect.
    pub fn change_session(&mut self, number: u32, row: Session)
        requires there { IsSome (session_of number self.old) }
        requires free { trees_of number self.old ≡ [] }
        requires link { IsSessionLinked self.old row }
        requires room { length (sessions_on row.connection (session_dropped number self.old)) < most_sessions }
        ensures { self.new ≡ session_changed number row self.old }
    {
        change(&mut self.sessions, &number, row);
    }

    /// Takes out a session that has no tree connect.
    pub fn drop_session(&mut self, number: u32)
        requires there { IsSome (session_of number self.old) }
        requires free { trees_of number self.old ≡ [] }
        ensures { self.new ≡ session_dropped number self.old }
    {
        remove(&mut self.sessions, &number);
    }

    /// The numbers of the sessions on a connection, in order.
    pub fn sessions_on(&self, alloc: Global, connection: u64) -> Result<Vec<u32>, AllocError>
        ensures { IfOk result (λ v. v.items ≡ sessions_on connection self.now) }
    {
        sessions_on(alloc, &self.sessions, connection)
    }

    /// Whether a connection has room for one session more.
    pub fn has_session_room(&self, alloc: Global, connection: u64) -> Result<bool, AllocError>
        ensures { IfOk result (λ room. room ≡ nat_lt (length (sessions_on connection self.now)) most_sessions) }
    {
        Ok(self.sessions_on(alloc, connection)?.len() < SESSIONS)
    }

    /// The tree connect of this number, of whatever session; None exactly if there is none.
    pub fn find_tree(&self, number: u32) -> Option<&Tree>
        ensures { option_copied result ≡ tree_of number self.now }
    {
        self.trees.get(&number)
    }

    /// Adds a tree connect behind the others, of a session that is there, on its connection, which has fewer than 16. Want
    /// of memory changes nothing.
    pub fn add_tree(&mut self, number: u32, row: Tree) -> Result<(), AllocError>
        requires new { tree_of number self.old ≡ None }
        requires link { IsTreeLinked self.old row }
        requires room { length (trees_on row.connection self.old) < most_trees }
        ensures ok { OnOk result (self.new ≡ tree_added number row self.old) }
        ensures err { OnErr result (self.new ≡ self.old) }
    {
        add(&mut self.trees, number, row)
    }

    /// Puts another row in place of that of a tree connect under which there is no open.
    pub fn change_tree(&mut self, number: u32, row: Tree)
        requires there { IsSome (tree_of number self.old) }
        requires free { opens_under (scope.Tree number) self.old ≡ [] }
        requires link { IsTreeLinked self.old row }
        requires room { length (trees_on row.connection (tree_dropped number self.old)) < most_trees }
        ensures { self.new ≡ tree_changed number row self.old }
    {
        change(&mut self.trees, &number, row);
    }

    /// Takes out a tree connect under which there is no open.
    pub fn drop_tree(&mut self, number: u32)
        requires there { IsSome (tree_of number self.old) }
        requires free { opens_under (scope.Tree number) self.old ≡ [] }
        ensures { self.new ≡ tree_dropped number self.old }
    {
        remove(&mut self.trees, &number);
    }

    /// The numbers of the tree connects of a session, in order.
    pub fn trees_of(&self, alloc: Global, session: u32) -> Result<Vec<u32>, AllocError>
        ensures { IfOk result (λ v. v.items ≡ trees_of session self.now) }
    {
        trees_of(alloc, &self.trees, session)
    }

    /// The numbers of the tree connects on a connection, in order.
    pub fn trees_on(&self, alloc: Global, connection: u64) -> Result<Vec<u32>, AllocError>
        ensures { IfOk result (λ v. v.items ≡ trees_on connection self.now) }
    {
        trees_on(alloc, &self.trees, connection)
    }

    /// Whether a connection has room for one tree connect more.
    pub fn has_tree_room(&self, alloc: Global, connection: u64) -> Result<bool, AllocError>
        ensures { IfOk result (λ room. room ≡ nat_lt (length (trees_on connection self.now)) most_trees) }
    {
        Ok(self.trees_on(alloc, connection)?.len() < TREES)
    }

    /// Whether a tree connect is there at the place, on a connection of the client: what an open needs to be held.
    #[tactic(auto, using(crate::proofs::LinkLaws::place_linked))]
    pub fn has_place(&self, place: &Place, client: &[u8; 16]) -> bool
        ensures value { result ≡ has_place place.now client.now self.now }
        ensures linked { IsTrue result → IsHolderLinked self.now client.now (holder.Tree place.now) }
    {
        is_tree_at(place, self.trees.get(&place.tree))
            && is_client(client, self.connections.get(&place.connection))
    }
}
