//! The queue of each file: the places of those who wait on it.
ghost use Rattle.std.specs.Prelude.{◌≡◌, ℕ, ◌++◌, [], ◌∷◌, drop, map, false, Some, OnOk, OnErr, IfOk};
ghost use Rattle.std.specs.BTreeMap.{get};
ghost use Rattle.std.specs.Option.{option_map};
ghost use Rattle.std.specs.Ordering.{nat_cmp};
ghost use Rattle.xl_wait.specs.Waiting.{first_file, is_file, places_in, one_more, nearer, closed_up, passed, NoneEmpty};

use std::alloc::{AllocError, Global};
use std::collections::BTreeMap;
use std::mem;
use xl_base::Sequence;
use xl_matrix::Claim;

/// By file the places of those who wait on it, in order of arrival.
pub(crate) type Queues = BTreeMap<u32, Sequence<usize>>;

/// The file of the first of these claims.
pub(crate) fn first_file(asked: &[Claim]) -> Option<u32>
    ensures { result ≡ first_file asked.now }
{
    match asked {
        [claim, ..] => Some(claim.file),
        [] => None,
    }
}

/// A file's queue.
pub(crate) fn places_on(queues: &Queues, file: u32) -> &[usize]
    ensures { result.now ≡ places_in queues.now file }
{
    match queues.get(&file) {
        Some(places) => places.as_slice(),
        None => &[],
    }
}

/// A queue where this place stands alone.
fn one_place(alloc: Global, place: usize) -> Result<Sequence<usize>, AllocError>
    ensures { IfOk result (λ places. places ≡ place ∷ []) }
{
    let mut places = Sequence::new(alloc);
    places.push(place)?;
    Ok(places)
}

/// Puts a place behind the others of a file's queue. After an error all queues are as they were.
fn put_place(alloc: Global, queues: &mut Queues, file: u32, place: usize) -> Result<(), AllocError>
    ensures ok { OnOk result ((f : ℕ) → places_in queues.new f ≡ places_in queues.old f ++ one_more f (Some file) place) }
    ensures err { OnErr result ((f : ℕ) → places_in queues.new f ≡ places_in queues.old f) }
    ensures filled { NoneEmpty queues.old → NoneEmpty queues.new }
{
    match queues.get_mut(&file) {
        Some(places) => places.push(place)?,
        None => {
            queues.insert(file, one_place(alloc, place)?)?;
        }
    }
    Ok(())
}

/// Puts a place behind the others of the queue of its file, if it has one. After an error all queues are as they were.
pub(crate) fn enter_place(
    alloc: Global,
    queues: &mut Queues,
    file: Option<u32>,
    place: usize,
) -> Result<(), AllocError>
    ensures ok { OnOk result ((f : ℕ) → places_in queues.new f ≡ places_in queues.old f ++ one_more f file place) }
    ensures err { OnErr result ((f : ℕ) → places_in queues.new f ≡ places_in queues.old f) }
    ensures filled { NoneEmpty queues.old → NoneEmpty queues.new }
{
    match file {
        Some(file) => put_place(alloc, queues, file, place),
        None => Ok(()),
    }
}

/// A place, which is one nearer if it is behind the other.
fn nearer(at: usize, place: usize) -> usize
    ensures { result ≡ nearer at place }
{
    if place > at { place - 1 } else { place }
}

/// Brings those of these places that are behind this one nearer by one.
fn bring_nearer(at: usize, places: &mut Vec<usize>)
    ensures { places.new.items ≡ map (nearer at) places.old.items }
{
    let mut i = 0;
    'places: while i < places.as_slice().len() {
        places[i] = nearer(at, places[i]);
        i += 1;
    }
}

/// The places except this one, those behind it one nearer.
fn close_up(places: Sequence<usize>, at: usize) -> Sequence<usize>
    ensures { result ≡ closed_up at places }
{
    let mut places = places.into_vec();
    places.retain(|place| *place != at);
    bring_nearer(at, &mut places);
    Sequence::from_vec(places)
}

/// Takes a place out of all queues; those behind it are one nearer.
fn close_all(alloc: Global, queues: &mut Queues, at: usize)
    ensures places { (f : ℕ) → places_in queues.new f ≡ closed_up at (places_in queues.old f) }
    ensures each { (f : ℕ) → get nat_cmp queues.new f ≡ option_map (closed_up at) (get nat_cmp queues.old f) }
{
    queues.retain(|_, places| {
        let own = mem::replace(places, Sequence::new(alloc));
        *places = close_up(own, at);
        true
    });
}

/// Takes the queue of this file out of the map, if nobody stands in it.
fn drop_empty(queues: &mut Queues, file: Option<u32>)
    ensures places { (f : ℕ) → places_in queues.new f ≡ places_in queues.old f }
    ensures empty { (f : ℕ) → get nat_cmp queues.new f ≡ Some [] → (is_file f file ≡ false) × (get nat_cmp queues.old f ≡ Some []) }
{
    if let Some(file) = file {
        if places_on(queues, file).is_empty() {
            queues.remove(&file);
        }
    }
}

/// Takes the place of one who waited on this file out of all queues; those behind it are one nearer. It takes no memory.
pub(crate) fn leave_place(alloc: Global, queues: &mut Queues, file: Option<u32>, at: usize)
    ensures places { (f : ℕ) → places_in queues.new f ≡ closed_up at (places_in queues.old f) }
    ensures empty { (f : ℕ) → get nat_cmp queues.new f ≡ Some [] → (is_file f file ≡ false) × (option_map (closed_up at) (get nat_cmp queues.old f) ≡ Some []) }
{
    close_all(alloc, queues, at);
    drop_empty(queues, file);
}

/// The places behind the first.
fn behind_first(places: Sequence<usize>) -> Sequence<usize>
    ensures { result ≡ drop 1 places }
{
    let mut places = places.into_vec();
    if !places.as_slice().is_empty() {
        places.remove(0);
    }
    Sequence::from_vec(places)
}

/// Takes the first place out of a file's queue.
fn pass_on(alloc: Global, queues: &mut Queues, file: u32)
    ensures places { (f : ℕ) → places_in queues.new f ≡ passed f (Some file) (places_in queues.old f) }
    ensures others { (f : ℕ) → is_file f (Some file) ≡ false → get nat_cmp queues.new f ≡ get nat_cmp queues.old f }
{
    if let Some(places) = queues.get_mut(&file) {
        let own = mem::replace(places, Sequence::new(alloc));
        *places = behind_first(own);
    }
}

/// Takes the place of the first of all, who waited on this file, out of its queue. It takes no memory.
pub(crate) fn pass_place(alloc: Global, queues: &mut Queues, file: Option<u32>)
    ensures places { (f : ℕ) → places_in queues.new f ≡ passed f file (places_in queues.old f) }
    ensures filled { NoneEmpty queues.old → NoneEmpty queues.new }
{
    if let Some(own) = file {
        pass_on(alloc, queues, own);
        drop_empty(queues, file);
    }
}
