//! A list of rows under keys, in the order in which they came.
ghost use Rattle.std.specs.Prelude.{◌≡◌, ◌∷◌, [], ◌++◌, None, is_some, IsSome, OnOk, OnErr, IfOk, IfSome, IfNone, length, filter, Bool, option_copied};
ghost use Rattle.std.specs.List.{IsDistinct};
ghost use Rattle.std.specs.Map.{keys_of, lookup, remove_entry, set_value};
ghost use Rattle.xl_smb_state.specs.Filed.{standing, flat, replaced, left};

use indexmap::IndexMap;
use std::alloc::{AllocError, Global};
use std::hash::Hash;
use std::marker::Model;
use std::mem;

/// Adds a row under a new key, behind the others.
pub(crate) fn add<K: Eq + Hash + Drop, V: Drop>(
    rows: &mut IndexMap<K, V>,
    key: K,
    row: V,
) -> Result<(), AllocError>
    requires { lookup (K.eq key) rows.old.entries ≡ None }
    ensures ok { OnOk result (rows.new.entries ≡ rows.old.entries ++ (key, row) ∷ []) }
    ensures err { OnErr result (rows.new.entries ≡ rows.old.entries) }
{
    rows.insert(key, row)?;
    Ok(())
}

/// Puts another row under a key that is there.
pub(crate) fn change<K: Eq + Hash, V: Drop>(rows: &mut IndexMap<K, V>, key: &K, row: V)
    requires { IsSome (lookup (K.eq key.now) rows.old.entries) }
    ensures { rows.new.entries ≡ set_value (K.eq key.now) rows.old.entries row }
{
    if let Some(place) = rows.get_mut(key) {
        *place = row;
    }
}

/// Takes out the row under a key; the others stay in their order.
pub(crate) fn remove<K: Eq + Hash + Drop, V: Drop>(rows: &mut IndexMap<K, V>, key: &K)
    ensures { rows.new.entries ≡ remove_entry (K.eq key.now) rows.old.entries }
{
    let _ = rows.shift_remove(key);
}

/// Takes out the row under a key, and gives it; the others stay in their order. None exactly if there is none, and then
/// all stay.
#[tactic(auto, using(crate::proofs::RowLaws::none_out))]
pub(crate) fn take<K: Eq + Hash + Drop, V: Drop>(rows: &mut IndexMap<K, V>, key: &K) -> Option<V>
    ensures row { result ≡ lookup (K.eq key.now) rows.old.entries }
    ensures rest { rows.new.entries ≡ remove_entry (K.eq key.now) rows.old.entries }
    ensures none { result ≡ None → rows.new.entries ≡ rows.old.entries }
{
    rows.shift_remove(key)
}

/// Rows under keys, in the order in which they came. A row goes without moving the others: its place is left empty until
/// more than half of the places are, and then they close up. A contract sees the rows with their keys.
#[derive(Drop)]
pub(crate) struct Rows<K: Eq + Hash, V> {
    places: IndexMap<K, Option<V>>,
    /// How many places were left empty since they closed up.
    empty: usize,
}

impl<K: Eq + Hash, V> Model for Rows<K, V> {
    ghost use Rattle.std.specs.Prelude.{List};
    ghost use Rattle.std.specs.Coded.{coded_list, coded×};
    ghost use Rattle.xl_smb_state.specs.Filed.{standing};

    ghost Value = { List (K × V) };

    ghost coded = { coded_list (coded× K.code V.code) };

    ghost view = { λ r. standing r.places.entries };
}

impl<K: Eq + Hash + Drop, V: Drop> Rows<K, V> {
    /// No rows; it takes no memory.
    pub(crate) fn new(alloc: Global) -> Rows<K, V>
        ensures { result ≡ [] }
    {
        Rows {
            places: IndexMap::new(alloc),
            empty: 0,
        }
    }

    /// Does nothing: no two rows have one key.
    pub(crate) fn keys(&self)
        ensures { IsDistinct K.eq (keys_of self.now) }
    {
        tell_keys(&self.places);
    }

    /// The places of the rows.
    pub(crate) fn places(&self) -> &IndexMap<K, Option<V>>
        ensures { standing result.now.entries ≡ self.now }
    {
        &self.places
    }

    /// What the rows' memory is taken of.
    pub(crate) fn allocator(&self) -> Global {
        *self.places.allocator()
    }

    /// The row under this key.
    pub(crate) fn find(&self, key: &K) -> Option<&V>
        ensures { option_copied result ≡ lookup (K.eq key.now) self.now }
    {
        find_standing(&self.places, key)
    }

    /// Adds a row under a new key, behind the others.
    pub(crate) fn add(&mut self, key: K, row: V) -> Result<(), AllocError>
        requires { lookup (K.eq key) self.old ≡ None }
        ensures ok { OnOk result (self.new ≡ self.old ++ (key, row) ∷ []) }
        ensures err { OnErr result (self.new ≡ self.old) }
    {
        add_standing(&mut self.places, key, row)
    }

    /// Puts another row in place of that under this key, if there is one, and gives that.
    pub(crate) fn change(&mut self, key: &K, row: V) -> Option<V>
        ensures row { result ≡ lookup (K.eq key.now) self.old }
        ensures rest { self.new ≡ set_value (K.eq key.now) self.old row }
    {
        exchange(&mut self.places, key, Some(row))
    }

    /// Takes out the row under this key, if there is one, and gives it; the others stay in their order.
    pub(crate) fn take(&mut self, key: &K) -> Option<V>
        ensures row { result ≡ lookup (K.eq key.now) self.old }
        ensures rest { self.new ≡ remove_entry (K.eq key.now) self.old }
    {
        take_standing(&mut self.places, &mut self.empty, key)
    }
}

/// No two rows have one key, as no two places have.
fn tell_keys<K: Eq + Hash, V>(places: &IndexMap<K, Option<V>>)
    ensures { IsDistinct K.eq (keys_of (standing places.now.entries)) }
{
    let _ = places.len();
}

fn find_standing<'a, K: Eq + Hash, V>(places: &'a IndexMap<K, Option<V>>, key: &K) -> Option<&'a V>
    ensures { option_copied result ≡ lookup (K.eq key.now) (standing places.now.entries) }
{
    let _ = places.len();
    places.get(key)?.as_ref()
}

/// Adds a row under a new key, whose place goes if it was left empty.
#[tactic(auto, using(crate::proofs::StandingLaws::row_added, crate::proofs::StandingLaws::rows_still))]
fn add_standing<K: Eq + Hash + Drop, V: Drop>(
    places: &mut IndexMap<K, Option<V>>,
    key: K,
    row: V,
) -> Result<(), AllocError>
    requires { lookup (K.eq key) (standing places.old.entries) ≡ None }
    ensures ok { OnOk result (standing places.new.entries ≡ standing places.old.entries ++ (key, row) ∷ []) }
    ensures err { OnErr result (standing places.new.entries ≡ standing places.old.entries) }
{
    let _ = places.len();
    remove(places, &key);
    add(places, key, Some(row))?;
    Ok(())
}

/// Puts another row, or none, in a place that isn't empty, and gives its row.
fn put_in<V: Drop>(place: &mut Option<V>, to: Option<V>) -> Option<V>
    ensures place { place.new ≡ left to place.old }
    ensures row { result ≡ place.old }
{
    if place.is_none() {
        return None;
    }
    mem::replace(place, to)
}

fn exchange_in<K: Eq + Hash, V: Drop>(
    places: &mut IndexMap<K, Option<V>>,
    key: &K,
    to: Option<V>,
) -> Option<V>
    ensures found { IfSome (lookup (K.eq key.now) places.old.entries) (λ place. (places.new.entries ≡ set_value (K.eq key.now) places.old.entries (left to place)) × (result ≡ place)) }
    ensures none { IfNone (lookup (K.eq key.now) places.old.entries) ((places.new.entries ≡ places.old.entries) × (result ≡ None)) }
    ensures distinct { IsDistinct K.eq (keys_of places.old.entries) }
{
    match places.get_mut(key) {
        Some(place) => put_in(place, to),
        None => None,
    }
}

/// Puts another row, or none, in place of that under this key, if there is one, and gives that.
fn exchange<K: Eq + Hash, V: Drop>(
    places: &mut IndexMap<K, Option<V>>,
    key: &K,
    to: Option<V>,
) -> Option<V>
    ensures row { result ≡ lookup (K.eq key.now) (standing places.old.entries) }
    ensures rest { standing places.new.entries ≡ replaced (K.eq key.now) to (standing places.old.entries) }
{
    exchange_in(places, key, to)
}

/// Takes the places out that are empty.
fn close_up<K: Eq + Hash + Drop, V: Drop>(places: &mut IndexMap<K, Option<V>>)
    ensures { places.new.entries ≡ filter (λ e. is_some e.1) places.old.entries }
{
    places.retain(
        |_key: &K, place: &mut Option<V>| -> bool
            ensures { (result ≡ is_some place.old) × (place.new ≡ place.old) }
        { place.is_some() },
    );
}

/// Counts one more empty place; the places close up once more than half of them are empty.
#[tactic(auto, using(crate::proofs::StandingLaws::closed_still))]
fn count_empty<K: Eq + Hash + Drop, V: Drop>(places: &mut IndexMap<K, Option<V>>, empty: &mut usize)
    ensures { standing places.new.entries ≡ standing places.old.entries }
{
    *empty = empty.saturating_add(1);
    if *empty > places.len() / 2 {
        close_up(places);
        *empty = 0;
    }
}

/// Takes out the row under this key, if there is one, and gives it.
fn take_standing<K: Eq + Hash + Drop, V: Drop>(
    places: &mut IndexMap<K, Option<V>>,
    empty: &mut usize,
    key: &K,
) -> Option<V>
    ensures row { result ≡ lookup (K.eq key.now) (standing places.old.entries) }
    ensures rest { standing places.new.entries ≡ remove_entry (K.eq key.now) (standing places.old.entries) }
{
    let row = exchange(places, key, None);
    if row.is_some() {
        count_empty(places, empty);
    }
    row
}
