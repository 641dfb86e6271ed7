//! The names that are kept, and their numbers.
ghost use Rattle.std.specs.Prelude.{◌≡◌, ℕ, ◌<◌, ◌≤◌, ◌++◌, ◌∷◌, [], true, false, List, length, ◌↔◌, Some, None, is_some, slice_get, IsOk, IfOk, IfErr, IfSome, OnOk, OnErr, IsTrue};
ghost use Rattle.xl_names.specs.declared.names.NameErr.TheVariants.{NoMemory};

use crate::name::Name;
use indexmap::IndexSet;
use std::alloc::{AllocError, AllocFailed, Global};
use std::marker::Model;
use thiserror::Error;

/// How many names are kept at most.
pub const MOST_NAMES: u32 = 1_048_576;

/// Why a name got no number.
#[derive(Clone, Copy, Debug, Error)]
pub enum NameErr {
    /// Memory ran out.
    #[error("no memory")]
    NoMemory,
    /// So many names are kept, and the name is new.
    #[error("{0} names are kept")]
    Full(u32),
}

impl From<AllocError> for NameErr {
    ghost from_gives = { λ _ e. e ≡ NoMemory };

    fn from(_e: AllocError) -> NameErr {
        NameErr::NoMemory
    }
}

impl<T: Drop> From<AllocFailed<T>> for NameErr {
    ghost from_gives = { λ _ e. e ≡ NoMemory };

    fn from(_e: AllocFailed<T>) -> NameErr {
        NameErr::NoMemory
    }
}

/// The names of owners and parties that are kept, each with one number: numbers count up from 0 in the order in which
/// the names came. A contract sees the list of names; a name's number is its place.
#[derive(Drop)]
pub struct Names {
    alloc: Global,
    set: IndexSet<Name>,
}

impl Model for Names {
    ghost use Rattle.std.specs.Prelude.{List, ◌≤◌, length};
    ghost use Rattle.xl_names.specs.declared.name.Name.{Name};

    ghost Value = { List Name };

    ghost use Rattle.xl_names.specs.Names.{AreDistinct, most_names};

    ghost view = { λ n. n.set.keys };

    ghost invariant = { λ n. AreDistinct n.set.keys × (length n.set.keys ≤ most_names) };
}

impl Names {
    ghost use Rattle.xl_names.specs.Names.{number_of, place_of, is_kept, entered, AreDistinct, most_names};

    /// No names; it takes no memory.
    pub fn new(alloc: Global) -> Names
        ensures { result ≡ [] }
    {
        Names {
            alloc,
            set: IndexSet::new(alloc),
        }
    }

    /// How many names are kept.
    pub fn len(&self) -> usize
        ensures { result ≡ length self.now }
    {
        self.set.len()
    }

    /// Whether no name is kept.
    pub fn is_empty(&self) -> bool
        ensures { IsTrue result ↔ (self.now ≡ []) }
    {
        self.set.is_empty()
    }

    /// The number of the name, or None if it isn't kept; it takes no memory.
    pub fn find(&self, name: &Name) -> Option<u32>
        ensures { result ≡ number_of name.now self.now }
    {
        number_in(&self.set, name)
    }

    /// The name that has this number.
    pub fn name(&self, id: u32) -> &Name
        requires { id < length self.now }
        ensures place { slice_get self.now id ≡ Some result.now }
        ensures number { number_of result.now self.now ≡ Some id }
    {
        &self.set[id as usize]
    }

    /// The names in the order of their numbers.
    pub fn as_slice(&self) -> &[Name]
        ensures names { result.now ≡ self.now }
        ensures distinct { AreDistinct result.now }
        ensures most { length result.now ≤ most_names }
    {
        self.set.as_slice()
    }

    /// The number of the name, which comes behind those before it if it is new. After an error nothing changed.
    pub fn intern(&mut self, name: &Name) -> Result<u32, NameErr>
        ensures names { OnOk result (self.new ≡ entered name.now self.old) }
        ensures number { IfOk result (λ id. id ≡ place_of name.now self.old) }
        ensures found { IfOk result (λ id. number_of name.now self.new ≡ Some id) }
        ensures known { IsTrue (is_kept name.now self.old) → IsOk result }
        ensures full { (n : ℕ) → (result ≡ Err (NameErr.Full n)) ↔ ((n ≡ most_names) × (length self.old ≡ most_names) × (is_kept name.now self.old ≡ false)) }
        ensures err { OnErr result (self.new ≡ self.old) }
    {
        let alloc = self.alloc;
        enter(&mut self.set, alloc, name)
    }
}

ghost use Rattle.xl_names.specs.Names.{number_of, place_of, is_kept, entered, AreDistinct, most_names};

/// The number of the name among these, or None if it isn't one of them.
fn number_in(set: &IndexSet<Name>, name: &Name) -> Option<u32>
    requires { length set.now.keys ≤ most_names }
    ensures value { result ≡ number_of name.now set.now.keys }
    ensures kept { IfSome result (λ id. (is_kept name.now set.now.keys ≡ true) × (place_of name.now set.now.keys ≡ id)) }
    ensures new { result ≡ None → is_kept name.now set.now.keys ≡ false }
{
    let number = set.get_index_of(name)?;
    Some(number as u32)
}

/// The number of the name, which comes behind those before it if it is new.
fn enter(set: &mut IndexSet<Name>, alloc: Global, name: &Name) -> Result<u32, NameErr>
    requires distinct { AreDistinct set.old.keys }
    requires most { length set.old.keys ≤ most_names }
    ensures names { OnOk result (set.new.keys ≡ entered name.now set.old.keys) }
    ensures number { IfOk result (λ id. id ≡ place_of name.now set.old.keys) }
    ensures found { IfOk result (λ id. number_of name.now set.new.keys ≡ Some id) }
    ensures known { IsTrue (is_kept name.now set.old.keys) → IsOk result }
    ensures full { (n : ℕ) → (result ≡ Err (NameErr.Full n)) ↔ ((n ≡ most_names) × (length set.old.keys ≡ most_names) × (is_kept name.now set.old.keys ≡ false)) }
    ensures err { OnErr result (set.new.keys ≡ set.old.keys) }
    ensures distinct { AreDistinct set.new.keys }
    ensures most { length set.new.keys ≤ most_names }
{
    match number_in(set, name) {
        Some(number) => Ok(number),
        None => add(set, alloc, name),
    }
}

/// Puts a new name behind those before it.
fn add(set: &mut IndexSet<Name>, alloc: Global, name: &Name) -> Result<u32, NameErr>
    requires distinct { AreDistinct set.old.keys }
    requires new { is_kept name.now set.old.keys ≡ false }
    requires most { length set.old.keys ≤ most_names }
    ensures names { OnOk result (set.new.keys ≡ set.old.keys ++ name.now ∷ []) }
    ensures number { IfOk result (λ id. id ≡ length set.old.keys) }
    ensures found { IfOk result (λ id. number_of name.now set.new.keys ≡ Some id) }
    ensures distinct { AreDistinct set.new.keys }
    ensures most { length set.new.keys ≤ most_names }
    ensures full { (n : ℕ) → (result ≡ Err (NameErr.Full n)) ↔ ((n ≡ most_names) × (length set.old.keys ≡ most_names)) }
    ensures err { OnErr result (set.new.keys ≡ set.old.keys) }
{
    if set.len() >= MOST_NAMES as usize {
        return Err(NameErr::Full(MOST_NAMES));
    }
    insert_new(set, name.copy(alloc)?)
}

/// Puts a new name, for which there is room, behind those before it.
fn insert_new(set: &mut IndexSet<Name>, name: Name) -> Result<u32, NameErr>
    requires distinct { AreDistinct set.old.keys }
    requires new { is_kept name set.old.keys ≡ false }
    requires most { length set.old.keys < most_names }
    ensures names { OnOk result (set.new.keys ≡ set.old.keys ++ name ∷ []) }
    ensures number { IfOk result (λ id. id ≡ length set.old.keys) }
    ensures found { IfOk result (λ id. number_of name set.new.keys ≡ Some id) }
    ensures distinct { AreDistinct set.new.keys }
    ensures full { IfErr result (λ e. e ≡ NoMemory) }
    ensures err { OnErr result (set.new.keys ≡ set.old.keys) }
{
    let (number, _) = set.insert_full(name)?;
    Ok(number as u32)
}
