//! Opens.
ghost use Rattle.std.specs.Prelude.{◌≡◌, nat_eq, ◌<◌, false, None, IsSome, OnOk, OnErr, IfOk, length, option_copied};
ghost use Rattle.xl_smb_state.specs.State.{open_of, open_added, open_changed, open_dropped, opens_under, is_listed};
ghost use Rattle.xl_smb_state.specs.Links.{most_opens, IsOpenLinked, KeepsLease};

use crate::row::{Open, Scope};
use crate::state::SmbState;
use std::alloc::{AllocError, Global};

impl SmbState {
    /// How many opens there are.
    pub fn count_opens(&self) -> usize
        ensures { result ≡ length self.now.opens }
    {
        self.opens.len()
    }

    /// The open of this number, on whatever connection; None exactly if there is none.
    pub fn find_open(&self, number: u32) -> Option<&Open>
        ensures { option_copied result ≡ open_of number self.now }
    {
        self.opens.find(number)
    }

    /// Adds an open behind the others, by a tree connect that is there, on a connection of its client; at most 4,096 opens
    /// stand. Its lease isn't touched. Want of memory changes nothing.
    pub fn add_open(&mut self, number: u32, row: Open) -> Result<(), AllocError>
        requires new { open_of number self.old ≡ None }
        requires link { IsOpenLinked self.old row }
        requires room { length self.old.opens < most_opens }
        ensures ok { OnOk result (self.new ≡ open_added number row self.old) }
        ensures err { OnErr result (self.new ≡ self.old) }
    {
        self.opens.add(number, row)
    }

    /// Puts another row in place of an open's, of the same file and client and under the same lease: what may change is
    /// who holds it, and whether it is durable.
    pub fn change_open(&mut self, number: u32, row: Open)
        requires there { IsSome (open_of number self.old) }
        requires same { KeepsLease (open_of number self.old) row }
        requires link { IsOpenLinked self.old row }
        ensures { self.new ≡ open_changed number row self.old }
    {
        self.opens.change(number, row);
    }

    /// Takes out an open that no lease has among its own.
    pub fn drop_open(&mut self, number: u32)
        requires there { IsSome (open_of number self.old) }
        requires free { is_listed number self.old ≡ false }
        ensures { self.new ≡ open_dropped number self.old }
    {
        self.opens.remove(number);
    }

    /// The numbers of the opens that somebody holds under a connection, a session or a tree connect, in order.
    pub fn under(&self, alloc: Global, scope: Scope) -> Result<Vec<u32>, AllocError>
        ensures { IfOk result (λ v. v.items ≡ opens_under scope self.now) }
    {
        self.opens.list_under(alloc, scope)
    }
}
