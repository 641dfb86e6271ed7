//! The definitions of this crate as plain programs, which look at one name after another. A test compares the faster
//! bodies with them.
ghost use Rattle.std.specs.Prelude.{◌≡◌, ◌++◌, ◌∷◌, [], OnOk};
ghost use Rattle.xl_names.specs.Names.{same_name, number_of, entered};

use crate::name::Name;
use std::alloc::{AllocError, Global};

#[tactic(auto, using(crate::proofs::NameLaws::eq_is))]
fn same_name(a: &Name, b: &Name) -> bool
    ensures { result ≡ same_name a.now b.now }
{
    *a == *b
}

/// The number of a name among these, or None if it isn't one of them.
pub fn number_of(name: &Name, names: &[Name]) -> Option<usize>
    ensures { result ≡ number_of name.now names.now }
{
    names.iter().position(|kept| same_name(name, kept))
}

/// Puts a name behind these if it isn't one of them.
#[tactic(auto, using(crate::proofs::NameLaws::new_from_none, crate::proofs::NameLaws::kept_from_number))]
pub fn enter(alloc: Global, names: &mut Vec<Name>, name: &Name) -> Result<(), AllocError>
    ensures { OnOk result (names.new.items ≡ entered name.now names.old.items) }
{
    if number_of(name, names).is_none() {
        names.push(name.copy(alloc)?)?;
    }
    Ok(())
}
