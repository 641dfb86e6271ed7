//! Requests that wait.
ghost use Rattle.std.specs.Prelude.{◌≡◌, nat_eq, ◌<◌, None, IsSome, OnOk, OnErr, IfOk, length, option_copied};
ghost use Rattle.std.specs.Map.{keys_of};
ghost use Rattle.xl_smb_state.specs.State.{waiting_of, waiting_added, waiting_changed, waiting_dropped, waiting_under, creates_under, waiting_by_message};
ghost use Rattle.xl_smb_state.specs.Links.{most_waiting};

use crate::listing::{made_in, numbers_waiting, waiting_by_message, waiting_under};
use crate::row::{Scope, Waiting};
use crate::rows::{add, change, remove, take};
use crate::state::SmbState;
use std::alloc::{AllocError, Global};

impl SmbState {
    /// The request that waits under this number, which is its AsyncId too; None exactly if there is none.
    pub fn find_waiting(&self, number: u32) -> Option<&Waiting>
        ensures { option_copied result ≡ waiting_of number self.now }
    {
        self.waiting.get(&number)
    }

    /// Adds a request that waits behind the others, of which there are at most 1,024. Want of memory changes nothing.
    pub fn add_waiting(&mut self, number: u32, row: Waiting) -> Result<(), AllocError>
        requires new { waiting_of number self.old ≡ None }
        requires room { length self.old.waiting < most_waiting }
        ensures ok { OnOk result (self.new ≡ waiting_added number row self.old) }
        ensures err { OnErr result (self.new ≡ self.old) }
    {
        add(&mut self.waiting, number, row)
    }

    /// Puts another row in place of that of a request that waits.
    pub fn change_waiting(&mut self, number: u32, row: Waiting)
        requires { IsSome (waiting_of number self.old) }
        ensures { self.new ≡ waiting_changed number row self.old }
    {
        change(&mut self.waiting, &number, row);
    }

    /// Takes out a request that waits.
    pub fn drop_waiting(&mut self, number: u32)
        requires { IsSome (waiting_of number self.old) }
        ensures { self.new ≡ waiting_dropped number self.old }
    {
        remove(&mut self.waiting, &number);
    }

    /// Takes out the request that waits under this number, and gives it; None exactly if there is none.
    #[tactic(auto, using(crate::proofs::RowLaws::none_out))]
    pub fn take_waiting(&mut self, number: u32) -> Option<Waiting>
        ensures row { result ≡ waiting_of number self.old }
        ensures rest { self.new ≡ waiting_dropped number self.old }
        ensures none { result ≡ None → self.new ≡ self.old }
    {
        take(&mut self.waiting, &number)
    }

    /// The numbers of the requests that wait under a connection, a session or a tree connect, in order.
    pub fn waiting_under(&self, alloc: Global, scope: Scope) -> Result<Vec<u32>, AllocError>
        ensures { IfOk result (λ v. v.items ≡ waiting_under scope self.now) }
    {
        waiting_under(alloc, &self.waiting, scope)
    }

    /// The numbers of all requests that wait, in order.
    pub fn waiting(&self, alloc: Global) -> Result<Vec<u32>, AllocError>
        ensures { IfOk result (λ v. v.items ≡ keys_of self.now.waiting) }
    {
        numbers_waiting(alloc, &self.waiting)
    }

    /// The numbers of the opens that requests wait to make under a connection, a session or a tree connect, in the order of the
    /// requests.
    pub fn creates_under(&self, alloc: Global, scope: Scope) -> Result<Vec<u32>, AllocError>
        ensures { IfOk result (λ v. v.items ≡ creates_under scope self.now) }
    {
        made_in(alloc, &self.waiting, scope)
    }

    /// The number of the first request that waits and came by the connection under this message number.
    pub fn waiting_by_message(&self, connection: u64, message: u64) -> Option<u32>
        ensures { result ≡ waiting_by_message connection message self.now }
    {
        waiting_by_message(&self.waiting, connection, message)
    }
}
