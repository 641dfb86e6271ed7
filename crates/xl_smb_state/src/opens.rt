//! The opens under their numbers. The rows stand in a slab, whose slots are used again, and an index leads from an open's
//! number to its slot, in the order in which the opens came.
ghost use Rattle.std.specs.Prelude.{◌≡◌, nat_eq, ◌∷◌, [], ◌++◌, None, IsSome, OnOk, OnErr, IfOk, length, option_copied};
ghost use Rattle.std.specs.List.{IsDistinct};
ghost use Rattle.std.specs.Map.{keys_of, lookup, remove_entry, set_value};
ghost use Rattle.slab.specs.Slab.{get};
ghost use Rattle.xl_smb_state.specs.Filed.{passes, filed, row_at, standing, IsFiled};
ghost use Rattle.xl_smb_state.specs.State.{keys_where, covers_holder};

use crate::listing::covers_holder;
use crate::row::{Open, Scope};
use crate::rows::Rows;
use indexmap::IndexMap;
use slab::Slab;
use std::alloc::{AllocError, Global};
use std::marker::Model;

/// The opens, each under its number. A contract sees the rows with their numbers, in the order in which they came.
#[derive(Drop)]
pub(crate) struct Opens {
    places: Rows<u32, usize>,
    rows: Slab<Open>,
}

impl Model for Opens {
    ghost use Rattle.std.specs.Prelude.{List, ℕ};
    ghost use Rattle.xl_smb_state.specs.Filed.{filed, IsFiled};
    ghost use Rattle.xl_smb_state.specs.declared.row.Open.{Open};

    ghost Value = { List (ℕ × Open) };

    ghost view = { λ o. filed o.places o.rows.slots };

    ghost invariant = { λ o. IsFiled o.places o.rows.slots };
}

impl Opens {
    /// No opens; it takes no memory.
    pub(crate) fn new(alloc: Global) -> Opens
        ensures { result ≡ [] }
    {
        Opens {
            places: Rows::new(alloc),
            rows: Slab::new(alloc),
        }
    }

    /// How many opens there are.
    pub(crate) fn len(&self) -> usize
        ensures len { result ≡ length self.now }
        ensures distinct { IsDistinct nat_eq (keys_of self.now) }
    {
        length_filed(&self.places, &self.rows)
    }

    /// The numbers of the opens that somebody holds under it, in order.
    pub(crate) fn list_under(&self, alloc: Global, scope: Scope) -> Result<Vec<u32>, AllocError>
        ensures { IfOk result (λ v. v.items ≡ keys_where (λ r. covers_holder scope r.holder) self.now) }
    {
        list_filed(alloc, self.places.places(), &self.rows, scope)
    }

    /// The open of this number.
    pub(crate) fn find(&self, number: u32) -> Option<&Open>
        ensures { option_copied result ≡ lookup (nat_eq number) self.now }
    {
        find_filed(&self.places, &self.rows, number)
    }

    /// Adds an open under a new number, behind the others.
    pub(crate) fn add(&mut self, number: u32, row: Open) -> Result<(), AllocError>
        requires { lookup (nat_eq number) self.old ≡ None }
        ensures ok { OnOk result (self.new ≡ self.old ++ (number, row) ∷ []) }
        ensures err { OnErr result (self.new ≡ self.old) }
    {
        file(&mut self.places, &mut self.rows, number, row)
    }

    /// Puts another row under a number that is there.
    pub(crate) fn change(&mut self, number: u32, row: Open)
        requires { IsSome (lookup (nat_eq number) self.old) }
        ensures { self.new ≡ set_value (nat_eq number) self.old row }
    {
        file_again(&self.places, &mut self.rows, number, row);
    }

    /// Takes out the open of this number; the others stay in their order.
    pub(crate) fn remove(&mut self, number: u32)
        ensures { self.new ≡ remove_entry (nat_eq number) self.old }
    {
        take_out(&mut self.places, &mut self.rows, number);
    }
}

/// Whether somebody holds the open under it.
fn is_under(scope: Scope, found: Option<&Open>) -> bool
    ensures { result ≡ passes (λ r. covers_holder scope r.holder) (option_copied found.entry) }
{
    match found {
        Some(row) => covers_holder(scope, &row.holder),
        None => false,
    }
}

/// The row of a place, unless that is empty.
fn row_at<'a>(rows: &'a Slab<Open>, place: &Option<usize>) -> Option<&'a Open>
    ensures { option_copied result ≡ row_at rows.now.slots place.now }
{
    let slot = (*place)?;
    rows.get(slot)
}

#[tactic(auto, using(crate::proofs::FiledLaws::filed_front, crate::proofs::FiledLaws::keys_front))]
fn list_filed(
    alloc: Global,
    places: &IndexMap<u32, Option<usize>>,
    rows: &Slab<Open>,
    scope: Scope,
) -> Result<Vec<u32>, AllocError>
    ensures { IfOk result (λ v. v.items ≡ keys_where (λ r. covers_holder scope r.holder) (filed (standing places.now.entries) rows.now.slots)) }
{
    let mut numbers = Vec::new(alloc);
    'rows: for (number, place) in places.iter() {
        if is_under(scope, row_at(rows, place)) {
            numbers.push(*number)?;
        }
    }
    Ok(numbers)
}

#[tactic(auto, using(crate::proofs::FiledLaws::length_whole, crate::proofs::FiledLaws::distinct_filed))]
fn length_filed(places: &Rows<u32, usize>, rows: &Slab<Open>) -> usize
    requires { IsFiled places.now rows.now.slots }
    ensures len { result ≡ length (filed places.now rows.now.slots) }
    ensures distinct { IsDistinct nat_eq (keys_of (filed places.now rows.now.slots)) }
{
    places.keys();
    rows.len()
}

fn find_filed<'a>(places: &Rows<u32, usize>, rows: &'a Slab<Open>, number: u32) -> Option<&'a Open>
    requires { IsFiled places.now rows.now.slots }
    ensures { option_copied result ≡ lookup (nat_eq number) (filed places.now rows.now.slots) }
{
    let slot = places.find(&number)?;
    rows.get(*slot)
}

fn file(
    places: &mut Rows<u32, usize>,
    rows: &mut Slab<Open>,
    number: u32,
    row: Open,
) -> Result<(), AllocError>
    requires new { lookup (nat_eq number) (filed places.old rows.old.slots) ≡ None }
    requires filed { IsFiled places.old rows.old.slots }
    ensures ok { OnOk result (filed places.new rows.new.slots ≡ filed places.old rows.old.slots ++ (number, row) ∷ []) }
    ensures err { OnErr result (filed places.new rows.new.slots ≡ filed places.old rows.old.slots) }
    ensures filed { IsFiled places.new rows.new.slots }
{
    rows.reserve(1)?;
    let slot = rows.vacant_key();
    places.add(number, slot)?;
    rows.insert_reserved(row);
    Ok(())
}

fn file_again(places: &Rows<u32, usize>, rows: &mut Slab<Open>, number: u32, row: Open)
    requires filed { IsFiled places.now rows.old.slots }
    requires there { IsSome (lookup (nat_eq number) (filed places.now rows.old.slots)) }
    ensures value { filed places.now rows.new.slots ≡ set_value (nat_eq number) (filed places.now rows.old.slots) row }
    ensures filed { IsFiled places.now rows.new.slots }
{
    if let Some(slot) = places.find(&number) {
        rows[*slot] = row;
    }
}

fn take_out(places: &mut Rows<u32, usize>, rows: &mut Slab<Open>, number: u32)
    requires { IsFiled places.old rows.old.slots }
    ensures value { filed places.new rows.new.slots ≡ remove_entry (nat_eq number) (filed places.old rows.old.slots) }
    ensures filed { IsFiled places.new rows.new.slots }
{
    if let Some(slot) = places.take(&number) {
        let _ = rows.remove(slot);
    }
}
