//! Leases.
ghost use Rattle.std.specs.Prelude.{◌≡◌, ◌==◌, ◌<◌, length, nat_eq, true, false, None, Some, IsSome, OnOk, OnErr, is_ok, IfSome, IfNone, option_copied, if◌then◌else◌};
ghost use Rattle.std.specs.List.{AllByRecursion, IsDistinct, filter_map, list_all};
ghost use Rattle.std.specs.Map.{keys_of, lookup, set_value};
ghost use Rattle.xl_smb_state.specs.State.{same_lease, is_empty, without, left_row, grown_row, kept_lease, open_of, lease_of, lease_added, lease_changed, lease_dropped, joined, lease_joined, lease_left, closed, lowest_open, is_listed, key_file, key_of, is_last, is_last_open, is_of_file, lease_begun, with_open};
ghost use Rattle.xl_smb_state.specs.Links.{most_opens, IsOpenLinked, IsLeaseLinked, ListsOnly, is_under, only_opens};

use crate::listing::{is_key, key_of, lowest_held, waiting_file};
use crate::opens::Opens;
use crate::row::{Lease, LeaseKey, Open};
use crate::rows::Rows;
use crate::state::SmbState;
use std::alloc::{AllocError, Global};
use std::mem;
use xl_base::Sequence;

/// Takes an open out of a lease's; whether none is left.
fn take_open(alloc: Global, lease: &mut Lease, number: u32) -> bool
    ensures row { lease.new ≡ record { file = lease.old.file; opens = without number lease.old.opens } }
    ensures value { result ≡ is_empty (without number lease.old.opens) }
{
    let opens = mem::replace(&mut lease.opens, Sequence::new(alloc));
    lease.opens = Sequence::from_vec(others(opens.into_vec(), number));
    lease.opens.is_empty()
}

/// The numbers except this one.
fn others(mut numbers: Vec<u32>, number: u32) -> Vec<u32>
    ensures { result.items ≡ without number numbers.items }
{
    numbers.retain(|n| *n != number);
    numbers
}

/// A lease without an open, which stands in another's place while that is changed.
fn blank(alloc: Global) -> Lease {
    Lease {
        file: 0,
        opens: Sequence::new(alloc),
    }
}

/// Puts a lease back without the open; whether none is left in it.
fn put_back(
    alloc: Global,
    leases: &mut Rows<LeaseKey, Lease>,
    key: &LeaseKey,
    mut lease: Lease,
    number: u32,
) -> bool
    ensures rows { leases.new ≡ set_value (same_lease key.now) leases.old (left_row number lease) }
    ensures emptied { result ≡ is_empty (without number lease.opens) }
{
    let emptied = take_open(alloc, &mut lease, number);
    leases.change(key, lease);
    emptied
}

/// Takes an open out of the lease of this key, if there is one; whether none is left in it.
fn shrink(alloc: Global, leases: &mut Rows<LeaseKey, Lease>, key: &LeaseKey, number: u32) -> bool
    ensures found { IfSome (lookup (same_lease key.now) leases.old) (λ row. (leases.new ≡ set_value (same_lease key.now) leases.old (left_row number row)) × (result ≡ is_empty (without number row.opens))) }
    ensures none { IfNone (lookup (same_lease key.now) leases.old) ((leases.new ≡ leases.old) × (result ≡ false)) }
    ensures distinct { IsDistinct same_lease (keys_of leases.old) }
{
    leases.keys();
    match leases.change(key, blank(alloc)) {
        Some(lease) => put_back(alloc, leases, key, lease, number),
        None => false,
    }
}

/// Takes an open out of the lease of this key, which goes if none is left.
fn leave(alloc: Global, leases: &mut Rows<LeaseKey, Lease>, key: &LeaseKey, number: u32)
    requires { AllByRecursion (ListsOnly key.now number) leases.old }
    ensures { leases.new ≡ filter_map (kept_lease number) leases.old }
{
    if shrink(alloc, leases, key, number) {
        leases.take(key);
    }
}

/// Takes an open out of the lease that lists it, which goes if none is left.
fn leave_any(alloc: Global, opens: &Opens, leases: &mut Rows<LeaseKey, Lease>, number: u32)
    requires { AllByRecursion (λ e. IsLeaseLinked (only_opens opens.now) e.0 e.1) leases.old }
    ensures { leases.new ≡ filter_map (kept_lease number) leases.old }
{
    if let Some(key) = key_of(opens.find(number)) {
        leave(alloc, leases, &key, number);
    }
}

/// Puts an open behind a lease's others.
fn put_open(lease: &mut Lease, number: u32) -> Result<(), AllocError>
    ensures { lease.new ≡ (if is_ok result then grown_row number lease.old else lease.old) }
{
    lease.opens.push(number)?;
    Ok(())
}

/// Puts a lease back with the open behind its others. After an error it is back as it was.
fn put_grown(
    leases: &mut Rows<LeaseKey, Lease>,
    key: &LeaseKey,
    mut lease: Lease,
    number: u32,
) -> Result<(), AllocError>
    ensures { leases.new ≡ set_value (same_lease key.now) leases.old (if is_ok result then grown_row number lease else lease) }
{
    let result = put_open(&mut lease, number);
    leases.change(key, lease);
    result
}

/// Puts an open behind the others of the lease of this key, if there is one.
fn grow(leases: &mut Rows<LeaseKey, Lease>, key: &LeaseKey, number: u32) -> Result<(), AllocError>
    ensures found { IfSome (lookup (same_lease key.now) leases.old) (λ row. leases.new ≡ set_value (same_lease key.now) leases.old (if is_ok result then grown_row number row else row)) }
    ensures none { IfNone (lookup (same_lease key.now) leases.old) (leases.new ≡ leases.old) }
{
    let alloc = leases.allocator();
    match leases.change(key, blank(alloc)) {
        Some(lease) => put_grown(leases, key, lease, number),
        None => Ok(()),
    }
}

/// The same, by what the leases are afterwards.
fn join(leases: &mut Rows<LeaseKey, Lease>, key: &LeaseKey, number: u32) -> Result<(), AllocError>
    ensures ok { OnOk result (leases.new ≡ joined number (lookup (same_lease key.now) leases.old) key.now leases.old) }
    ensures err { OnErr result (leases.new ≡ leases.old) }
{
    grow(leases, key, number)
}

/// Whether these are all this number.
fn are_all(numbers: &[u32], number: u32) -> bool
    ensures { result ≡ list_all (λ n. n == number) numbers.now }
{
    numbers.iter().all(|n| *n == number)
}

/// Whether no other open than this is under the lease.
fn is_alone(found: Option<&Lease>, number: u32) -> bool
    ensures { result ≡ is_last number (option_copied found.entry) }
{
    match found {
        Some(lease) => are_all(lease.opens.as_slice(), number),
        None => true,
    }
}

/// Whether the lease is new, or on this file.
fn is_of_file(found: Option<&Lease>, file: u32) -> bool
    ensures { result ≡ is_of_file file (option_copied found.entry) }
{
    match found {
        Some(lease) => lease.file == file,
        None => true,
    }
}

/// The key of the lease that an open asks for, if it does.
fn key_in(row: &Open) -> Option<LeaseKey>
    ensures { result ≡ key_of (Some row.now) }
{
    key_of(Some(row))
}

impl SmbState {
    /// The lease of this key; None exactly if there is none. A key that only a waiting CREATE has is of no lease.
    pub fn find_lease(&self, key: &LeaseKey) -> Option<&Lease>
        ensures { option_copied result ≡ lease_of key.now self.now }
    {
        self.leases.find(key)
    }

    /// Whether the open of this number is there, under the lease key and on the file.
    pub fn is_under(&self, key: &LeaseKey, file: u32, number: u32) -> bool
        ensures { result ≡ is_under key.now file (open_of number self.now) }
    {
        match self.opens.find(number) {
            Some(row) => row.file == file && is_key(key, &row.client, &row.lease),
            None => false,
        }
    }

    /// Adds a lease behind the others; it has at least one open, and each of its opens is there, under this key and on its
    /// file. Want of memory changes nothing.
    pub fn add_lease(&mut self, key: LeaseKey, row: Lease) -> Result<(), AllocError>
        requires new { lease_of key self.old ≡ None }
        requires link { IsLeaseLinked self.old key row }
        ensures ok { OnOk result (self.new ≡ lease_added key row self.old) }
        ensures err { OnErr result (self.new ≡ self.old) }
    {
        self.leases.add(key, row)
    }

    /// Puts another row in place of a lease's.
    pub fn change_lease(&mut self, key: &LeaseKey, row: Lease)
        requires there { IsSome (lease_of key.now self.old) }
        requires link { IsLeaseLinked self.old key.now row }
        ensures { self.new ≡ lease_changed key.now row self.old }
    {
        self.leases.change(key, row);
    }

    /// Puts an open that is there, under the key and on the lease's file, behind the others of the lease of this key.
    /// If there is no such lease nothing changes. Want of memory changes nothing.
    pub fn join_lease(&mut self, key: &LeaseKey, number: u32) -> Result<(), AllocError>
        requires { IfSome (lease_of key.now self.old) (λ row. is_under key.now row.file (open_of number self.old) ≡ true) }
        ensures ok { OnOk result (self.new ≡ lease_joined key.now number self.old) }
        ensures err { OnErr result (self.new ≡ self.old) }
    {
        join(&mut self.leases, key, number)
    }

    /// Takes an open out of the lease that has it among its own, if one has; the lease goes with its last open. It takes
    /// no memory.
    pub fn leave_lease(&mut self, alloc: Global, number: u32)
        ensures left { self.new ≡ lease_left number self.old }
        ensures unlisted { is_listed number self.new ≡ false }
    {
        leave_any(alloc, &self.opens, &mut self.leases, number);
    }

    /// Whether no other open is under the lease of this one, or this one is under none.
    #[tactic(auto, using(crate::proofs::LeaseLaws::last_under))]
    pub fn is_last_open(&self, number: u32) -> bool
        ensures { result ≡ is_last_open number self.now }
    {
        match key_of(self.find_open(number)) {
            Some(key) => is_alone(self.find_lease(&key), number),
            None => true,
        }
    }

    /// Puts an open that is there under the lease of this key, which it begins if there is none. If that is on another
    /// file it comes under none.
    #[tactic(auto, using(crate::proofs::LeaseLaws::under_lease, crate::proofs::LeaseLaws::first_linked, crate::proofs::LeaseLaws::lease_elsewhere, crate::proofs::LeaseLaws::lease_joins, crate::proofs::LeaseLaws::lease_begins))]
    fn begin_lease(
        &mut self,
        alloc: Global,
        number: u32,
        file: u32,
        key: LeaseKey,
    ) -> Result<(), AllocError>
        requires under { is_under key file (open_of number self.old) ≡ true }
        ensures { OnOk result (self.new ≡ lease_begun number file key (lease_of key self.old) self.old) }
    {
        if !is_of_file(self.leases.find(&key), file) {
            return Ok(());
        }
        if self.find_lease(&key).is_some() {
            self.join_lease(&key, number)?;
            return Ok(());
        }
        let mut opens = Sequence::new(alloc);
        opens.push(number)?;
        self.add_lease(key, Lease { file, opens })?;
        Ok(())
    }

    /// Adds an open as `add_open` does, and puts it under the lease that it asks for, if it does; it begins the lease
    /// if there is none, and comes under none if that is on another file. If there is no memory nothing is known of the
    /// lists.
    #[tactic(auto, using(crate::proofs::LeaseLaws::comes_under))]
    pub fn open(&mut self, alloc: Global, number: u32, row: Open) -> Result<(), AllocError>
        requires new { open_of number self.old ≡ None }
        requires link { IsOpenLinked self.old row }
        requires room { length self.old.opens < most_opens }
        ensures { OnOk result (self.new ≡ with_open number row self.old) }
    {
        self.add_open(number, row)?;
        if let Some(key) = key_in(&row) {
            self.begin_lease(alloc, number, row.file, key)?;
        }
        Ok(())
    }

    /// Closes an open: takes it out of its lease, which goes with its last open, and then out of the opens.
    pub fn close(&mut self, alloc: Global, number: u32)
        requires { IsSome (open_of number self.old) }
        ensures { self.new ≡ closed number self.old }
    {
        self.leave_lease(alloc, number);
        self.drop_open(number);
    }

    /// Takes out a lease; its opens stay.
    pub fn drop_lease(&mut self, key: &LeaseKey)
        requires { IsSome (lease_of key.now self.old) }
        ensures { self.new ≡ lease_dropped key.now self.old }
    {
        self.leases.take(key);
    }

    /// The lowest number of the lease's opens that somebody holds, to whose connection breaks of the lease are sent
    /// (MS-SMB2 3.3.4.7); None if there is none.
    pub fn lowest_open(&self, key: &LeaseKey) -> Option<u32>
        ensures { result ≡ lowest_open key.now self.now }
    {
        let lease = self.leases.find(key)?;
        lowest_held(&self.opens, lease.opens.as_slice())
    }

    /// The file on which a lease key is in use: that of its lease, or else that of the first open which waits to be
    /// made under it. None exactly if no lease and no waiting CREATE has the key.
    pub fn key_file(&self, key: &LeaseKey) -> Option<u32>
        ensures { result ≡ key_file key.now self.now }
    {
        match self.leases.find(key) {
            Some(lease) => Some(lease.file),
            None => waiting_file(&self.waiting, key),
        }
    }
}
