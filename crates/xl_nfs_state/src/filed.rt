//! Rows in a slab, of which each is found by two keys.
ghost use Rattle.std.specs.Prelude.{◌≡◌, ℕ, ◌++◌, ◌∷◌, [], Bool, not, is_some, Some, None, length, map, IfOk, OnOk, OnErr, option_copied, filter, slice_get};
ghost use Rattle.std.specs.List.{find, IsDistinct};
ghost use Rattle.std.specs.Option.{option_and_then};
ghost use Rattle.std.specs.Map.{lookup};
ghost use Rattle.slab.specs.Slab.{Slab, get, Updates};
ghost use Rattle.indexmap.specs.IndexMap.{insert_entry};
ghost use Rattle.xl_nfs_state.specs.Filed.{found, left, written, changed, places};

use indexmap::{Equivalent, IndexMap};
use slab::Slab;
use std::alloc::{AllocError, Global};
use std::hash::Hash;
use std::marker::Model;

/// A row that is found by two keys.
pub(crate) trait Row {
    /// The first key, by which a row is told from the others.
    type Number: Eq + Hash + Drop;

    /// The second key.
    type Name: Eq + Hash + Drop;

    /// The first key.
    ghost number: { Self → Self.Number };

    /// The second key.
    ghost name: { Self → Self.Name };

    fn number(&self) -> Self::Number
        ensures { result ≡ number self.now };

    fn name(&self, alloc: Global) -> Result<Self::Name, AllocError>
        ensures { IfOk result (λ key. key ≡ name self.now) };
}

/// A choice of rows.
pub(crate) trait Picks<R> {
    /// Whether a row is chosen.
    ghost picks: { Self → R → Bool };

    fn picks(&self, row: &R) -> bool
        ensures { result ≡ picks self.now row.now };
}

/// A change of a row that leaves its keys.
pub(crate) trait Change<R: Row> {
    /// The row afterwards.
    ghost after: { Self → R → R };

    fn change(self, row: &mut R)
        ensures { row.new ≡ after self row.old };

    ghost keeps_number: { (c : Self) (r : R) → R.number (after c r) ≡ R.number r };

    ghost keeps_name: { (c : Self) (r : R) → R.name (after c r) ≡ R.name r };
}

/// Rows in order of arrival. They stand in a slab; two maps lead from a row's keys to its place there.
#[derive(Drop)]
pub(crate) struct Filed<R: Row> {
    rows: Slab<R>,
    numbers: IndexMap<R::Number, usize>,
    names: IndexMap<R::Name, usize>,
}

impl<R: Row> Model for Filed<R> {
    ghost use Rattle.std.specs.Prelude.{List};
    ghost use Rattle.std.specs.Coded.{coded_list};
    ghost use Rattle.xl_nfs_state.specs.Filed.{filed, IsFiled};

    ghost Value = { List R };

    ghost coded = { coded_list R.code };

    ghost view = { λ f. filed f.rows f.numbers.entries };

    ghost invariant = { λ f. IsFiled R.number R.name f.rows f.numbers.entries f.names.entries };
}

impl<R: Row> Filed<R> {
    /// No rows; it takes no memory.
    pub(crate) fn new(alloc: Global) -> Filed<R>
        ensures { result ≡ [] }
    {
        Filed {
            rows: Slab::new(alloc),
            numbers: IndexMap::new(alloc),
            names: IndexMap::new(alloc),
        }
    }

    /// How many rows there are, of which no two share a key.
    pub(crate) fn len(&self) -> usize
        ensures len { result ≡ length self.now }
        ensures numbers { IsDistinct R.Number.eq (map R.number self.now) }
        ensures names { IsDistinct R.Name.eq (map R.name self.now) }
    {
        count_entries(&self.numbers, &self.names)
    }

    /// The row of this first key.
    pub(crate) fn find_number<Q: Equivalent<R::Number>>(&self, number: Q) -> Option<&R>
        ensures { option_copied result ≡ find (λ row. Q.equivalent number (R.number row)) self.now }
    {
        find(&self.rows, &self.numbers, number)
    }

    /// The row of this second key.
    pub(crate) fn find_name<Q: Equivalent<R::Name>>(&self, name: Q) -> Option<&R>
        ensures { option_copied result ≡ find (λ row. Q.equivalent name (R.name row)) self.now }
    {
        find(&self.rows, &self.names, name)
    }

    /// The row at this place in the order of arrival, counted from 0.
    pub(crate) fn at(&self, place: usize) -> Option<&R>
        ensures { option_copied result ≡ slice_get self.now place }
    {
        row_at(&self.rows, &self.numbers, place)
    }

    /// Adds a row behind the others. Want of memory changes nothing.
    pub(crate) fn add(&mut self, alloc: Global, row: R) -> Result<(), AllocError>
    where
        R: Drop,
        requires number { find (λ r. R.Number.eq (R.number row) (R.number r)) self.old ≡ None }
        requires name { find (λ r. R.Name.eq (R.name row) (R.name r)) self.old ≡ None }
        ensures ok { OnOk result (self.new ≡ self.old ++ row ∷ []) }
        ensures err { OnErr result (self.new ≡ self.old) }
    {
        let number = row.number();
        let name = row.name(alloc)?;
        enter(
            &mut self.rows,
            &mut self.numbers,
            &mut self.names,
            number,
            name,
            row,
        )?;
        Ok(())
    }

    /// Changes the row of this first key, if there is one.
    pub(crate) fn change<Q: Equivalent<R::Number>, C: Change<R> + Drop>(&mut self, number: Q, to: C)
        ensures { self.new ≡ changed (λ row. Q.equivalent number (R.number row)) (C.after to) self.old }
    {
        write(&mut self.rows, &self.numbers, number, to);
    }

    /// Drops the chosen rows.
    pub(crate) fn drop_picked<P: Picks<R>>(&mut self, which: &P)
    where
        R: Drop,
        ensures { self.new ≡ filter (λ row. not (P.picks which.now row)) self.old }
    {
        keep_rows(&mut self.rows, which);
        keep_entries(&mut self.numbers, &self.rows);
        keep_entries(&mut self.names, &self.rows);
    }
}

/// The row of this key.
fn find<'a, R, K: Eq + Hash, Q: Equivalent<K>>(
    rows: &'a Slab<R>,
    keys: &IndexMap<K, usize>,
    key: Q,
) -> Option<&'a R>
    ensures { option_copied result ≡ found (Q.equivalent key) rows.now keys.now.entries }
{
    let at = keys.get(key)?;
    rows.get(*at)
}

/// The row that the entry at this place leads to.
fn row_at<'a, R, K: Eq + Hash>(
    rows: &'a Slab<R>,
    numbers: &IndexMap<K, usize>,
    place: usize,
) -> Option<&'a R>
    ensures { option_copied result ≡ option_and_then (get rows.now) (slice_get (places numbers.now.entries) place) }
{
    let (_, at) = numbers.get_index(place)?;
    rows.get(*at)
}

/// How many keys there are of the first kind; of either kind no two are equal.
fn count_entries<K: Eq + Hash, N: Eq + Hash>(
    numbers: &IndexMap<K, usize>,
    names: &IndexMap<N, usize>,
) -> usize
    ensures len { result ≡ length numbers.now.entries }
    ensures numbers { IsDistinct K.eq (map (λ e. e.0) numbers.now.entries) }
    ensures names { IsDistinct N.eq (map (λ e. e.0) names.now.entries) }
{
    let _ = names.len();
    numbers.len()
}

/// Enters a row under its keys.
fn enter<R: Drop, K: Eq + Hash + Drop, N: Eq + Hash + Drop>(
    rows: &mut Slab<R>,
    numbers: &mut IndexMap<K, usize>,
    names: &mut IndexMap<N, usize>,
    number: K,
    name: N,
    row: R,
) -> Result<(), AllocError>
    ensures vacant { OnOk result (get rows.old rows.old.vacant_key ≡ None) }
    ensures row { OnOk result (Updates rows.old rows.new rows.old.vacant_key (Some row)) }
    ensures numbers { OnOk result (numbers.new.entries ≡ insert_entry K.eq numbers.old.entries number rows.old.vacant_key) }
    ensures names { OnOk result (names.new.entries ≡ insert_entry N.eq names.old.entries name rows.old.vacant_key) }
    ensures err_rows { OnErr result ((at : ℕ) → get rows.new at ≡ get rows.old at) }
    ensures err_numbers { OnErr result (numbers.new.entries ≡ numbers.old.entries) }
    ensures err_names { OnErr result (names.new.entries ≡ names.old.entries) }
{
    rows.reserve(1)?;
    numbers.reserve(1)?;
    names.reserve(1)?;
    let at = rows.vacant_key();
    if numbers.insert(number, at).is_err() {
        return Err(AllocError);
    }
    if names.insert(name, at).is_err() {
        return Err(AllocError);
    }
    rows.insert_reserved(row);
    Ok(())
}

/// Changes the row of this key.
fn write<R: Row, Q: Equivalent<R::Number>, C: Change<R> + Drop>(
    rows: &mut Slab<R>,
    numbers: &IndexMap<R::Number, usize>,
    number: Q,
    to: C,
)
    ensures rows { (at : ℕ) → get rows.new at ≡ written (C.after to) (lookup (Q.equivalent number) numbers.now.entries) at (get rows.old at) }
    ensures distinct { IsDistinct R.Number.eq (map (λ e. e.0) numbers.now.entries) }
{
    let _ = numbers.len();
    if let Some(at) = numbers.get(number) {
        if let Some(row) = rows.get_mut(*at) {
            to.change(row);
        }
    }
}

/// Keeps the rows that aren't chosen.
fn keep_rows<R: Drop, P: Picks<R>>(rows: &mut Slab<R>, which: &P)
    ensures { (at : ℕ) → get rows.new at ≡ left (P.picks which.now) (get rows.old at) }
{
    rows.retain(
        |_at: usize, row: &mut R| -> bool
            ensures { (result ≡ not (P.picks which.entry.now row.old)) × (row.new ≡ row.old) }
        { !which.picks(row) },
    );
}

/// Keeps the keys of rows that are there.
fn keep_entries<R, K: Eq + Hash + Drop>(entries: &mut IndexMap<K, usize>, rows: &Slab<R>)
    ensures { entries.new.entries ≡ filter (λ e. is_some (get rows.now e.1)) entries.old.entries }
{
    entries.retain(
        |_key: &K, at: &mut usize| -> bool
            ensures { (result ≡ is_some (get rows.entry.now at.old)) × (at.new ≡ at.old) }
        { rows.contains(*at) },
    );
}
