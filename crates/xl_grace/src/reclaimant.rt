//! The names that may reclaim.
ghost use Rattle.std.specs.Prelude.{◌≡◌, ℕ, IfOk, position};
ghost use Rattle.std.specs.List.{filter, list_any};
ghost use Rattle.xl_grace.specs.Grace.{is_of, may_reclaim, has_reclaimed, newly, noted, others};

use std::alloc::{AllocError, Global};
use xl_base::{Recorded, agree};

/// A client that may reclaim in this grace.
#[derive(Drop)]
pub struct Reclaimant {
    /// Its name in the record.
    pub name: Recorded,
    /// Whether it has reclaimed something.
    pub reclaimed: bool,
}

/// Each of the names, of which none has reclaimed anything.
pub(crate) fn newly(alloc: Global, names: &[Recorded]) -> Result<Vec<Reclaimant>, AllocError>
    ensures { IfOk result (λ v. v.items ≡ newly names.now) }
{
    let mut reclaimants = Vec::new(alloc);
    'names: for name in names {
        reclaimants.push(Reclaimant {
            name: name.copy(alloc)?,
            reclaimed: false,
        })?;
    }
    Ok(reclaimants)
}

/// Whether the name is among these, with a mark that agrees with its own.
pub(crate) fn may_reclaim(reclaimants: &[Reclaimant], name: &Recorded) -> bool
    ensures { result ≡ may_reclaim name.now reclaimants.now }
{
    reclaimants.iter().any(|one| one.name.has_name_of(name) && agree(&one.name.mark, &name.mark))
}

/// Whether the name is among these and has reclaimed something.
pub(crate) fn has_reclaimed(reclaimants: &[Reclaimant], name: &Recorded) -> bool
    ensures { result ≡ has_reclaimed name.now reclaimants.now }
{
    reclaimants
        .iter()
        .any(|one| one.reclaimed && one.name.has_name_of(name))
}

fn place_of(reclaimants: &[Reclaimant], name: &Recorded) -> Option<usize>
    ensures { result ≡ position (is_of name.now) reclaimants.now }
{
    reclaimants
        .iter()
        .position(|one| one.name.has_name_of(name))
}

/// Notes that the name has reclaimed something; another name than these changes nothing.
#[tactic(auto, using(crate::proofs::ReclaimantLaws::noted_at, crate::proofs::ReclaimantLaws::none_noted))]
pub(crate) fn note(reclaimants: &mut Vec<Reclaimant>, name: &Recorded)
    ensures { reclaimants.new.items ≡ noted name.now reclaimants.old.items }
{
    if let Some(place) = place_of(reclaimants, name) {
        reclaimants[place].reclaimed = true;
    }
}

/// Takes the name out.
pub(crate) fn remove(reclaimants: &mut Vec<Reclaimant>, name: &Recorded)
    ensures { reclaimants.new.items ≡ others name.now reclaimants.old.items }
{
    reclaimants.retain(|one| !one.name.has_name_of(name));
}
