//! The numbers of those who ask.
ghost use Rattle.std.specs.Prelude.{◌≡◌, ◌≤◌, true, length, map, OnOk, IfOk};
ghost use Rattle.xl_names.specs.Names.{same_name, place_of, is_kept, entered, most_names};
ghost use Rattle.xl_core.specs.Askers.{owner_in, party_in, who_entered, asker, asking_party, both_entered, coming, is_client, range_what, asked_claim, asked_claims, number_or, known_owner, known_party, known_claim};

use crate::ask::{Ask, Who};
use std::alloc::{AllocError, Global};
use xl_base::{Owner, Party};
use xl_matrix::{Claim, Extent, What};
use xl_names::{Name, NameErr, Names};

/// What stands for the number of a name that has none.
const NO_NUMBER: u32 = u32::MAX;

/// The number that a name has, or gets when it comes.
#[tactic(auto, using(crate::proofs::AskerLaws::place_unknown, crate::proofs::AskerLaws::place_known))]
fn place_of(names: &Names, name: &Name) -> u32
    ensures { result ≡ place_of name.now names.now }
{
    match names.find(name) {
        Some(number) => number,
        None => names.as_slice().len() as u32,
    }
}

/// Keeps a name, for which there is room.
fn enter(names: &mut Names, who: &Who) -> Result<(), AllocError>
    requires { length (who_entered who.now names.old) ≤ most_names }
    ensures { OnOk result (names.new ≡ who_entered who.now names.old) }
{
    if let Who::Named(name) = who {
        match names.intern(name) {
            Ok(_) => {}
            Err(NameErr::NoMemory) => return Err(AllocError),
            Err(NameErr::Full(_)) => unreachable!(),
        }
    }
    Ok(())
}

/// Keeps the names of an ask, for which there is room.
#[tactic(auto, using(crate::proofs::AskerLaws::owner_fits))]
pub(crate) fn enter_both(names: &mut Names, ask: &Ask) -> Result<(), AllocError>
    requires { length (both_entered ask.now names.old) ≤ most_names }
    ensures { OnOk result (names.new ≡ both_entered ask.now names.old) }
{
    enter(names, &ask.owner)?;
    enter(names, &ask.party)?;
    Ok(())
}

/// How many names come with one who asks.
#[tactic(auto, using(crate::proofs::AskerLaws::coming_known, crate::proofs::AskerLaws::coming_unknown))]
fn coming(names: &Names, who: &Who) -> usize
    ensures count { result ≡ coming who.now names.now }
    ensures most { result ≤ 1 }
{
    match who {
        Who::Named(name) => match names.find(name) {
            Some(_) => 0,
            None => 1,
        },
        Who::Open(_) => 0,
    }
}

/// How many names are kept once those of an ask are.
#[tactic(auto, using(crate::proofs::KnownLaws::both_length))]
pub(crate) fn count_names(names: &Names, ask: &Ask) -> usize
    requires { is_client ask.now.owner ask.now.party ≡ true }
    ensures { result ≡ length (both_entered ask.now names.now) }
{
    names.as_slice().len() + (coming(names, &ask.owner) + coming(names, &ask.party))
}

fn owner_in(names: &Names, who: &Who) -> Owner
    ensures { result ≡ owner_in who.now names.now }
{
    match who {
        Who::Named(name) => Owner::Name(name.protocol(), place_of(names, name)),
        Who::Open(open) => Owner::Open(*open),
    }
}

/// The place of a name once another came.
fn place_behind(names: &Names, name: &Name, before: &Who) -> u32
    ensures { result ≡ place_of name.now (who_entered before.now names.now) }
{
    match before {
        Who::Named(other) => place_after(names, name, other),
        Who::Open(_) => place_of(names, name),
    }
}

#[tactic(auto, using(xl_names::proofs::NameLaws::eq_is))]
fn is_same(a: &Name, b: &Name) -> bool
    ensures { result ≡ same_name a.now b.now }
{
    *a == *b
}

/// The place of a name once another name came.
#[tactic(auto, using(crate::proofs::AskerLaws::place_still, crate::proofs::AskerLaws::place_there, crate::proofs::AskerLaws::place_same, crate::proofs::AskerLaws::place_next))]
fn place_after(names: &Names, name: &Name, other: &Name) -> u32
    ensures { result ≡ place_of name.now (entered other.now names.now) }
{
    let count = names.as_slice().len() as u32;
    match (names.find(name), names.find(other)) {
        (Some(number), _) => number,
        (None, Some(_)) => count,
        (None, None) => {
            if is_same(name, other) {
                count
            } else {
                count + 1
            }
        }
    }
}

fn party_behind(names: &Names, who: &Who, before: &Who) -> Party
    ensures { result ≡ party_in who.now (who_entered before.now names.now) }
{
    match who {
        Who::Named(name) => Party::Name(name.protocol(), place_behind(names, name, before)),
        Who::Open(number) => Party::Open(*number),
    }
}

/// The party that asks, with the number that its name has, or gets when it comes.
pub(crate) fn asking_party(names: &Names, ask: &Ask) -> Party
    ensures { result ≡ asking_party ask.now names.now }
{
    party_behind(names, &ask.party, &ask.owner)
}

/// The claim that an ask is for.
pub(crate) fn asked_claim(names: &Names, ask: &Ask, what: What) -> Claim
    ensures { result ≡ asked_claim ask.now what names.now }
{
    Claim {
        file: ask.file,
        owner: owner_in(names, &ask.owner),
        party: asking_party(names, ask),
        what,
    }
}

/// The claims that an ask for these ranges is for, in order.
#[tactic(auto, using(crate::proofs::AskerLaws::claims_more))]
pub(crate) fn asked_claims(
    alloc: Global,
    names: &Names,
    ask: &Ask,
    ranges: &[(Extent, bool)],
) -> Result<Vec<Claim>, AllocError>
    ensures { IfOk result (λ v. v.items ≡ asked_claims ask.now (map range_what ranges.now) names.now) }
{
    let mut claims = Vec::new(alloc);
    for range in ranges {
        claims.push(asked_claim(names, ask, What::Range(range.0, range.1)))?;
    }
    Ok(claims)
}

fn number_or(number: Option<u32>) -> u32
    ensures { result ≡ number_or number }
{
    match number {
        Some(number) => number,
        None => NO_NUMBER,
    }
}

fn known_owner(names: &Names, who: &Who) -> Owner
    ensures { result ≡ known_owner who.now names.now }
{
    match who {
        Who::Named(name) => Owner::Name(name.protocol(), number_or(names.find(name))),
        Who::Open(number) => Owner::Open(*number),
    }
}

fn known_party(names: &Names, who: &Who) -> Party
    ensures { result ≡ known_party who.now names.now }
{
    match who {
        Who::Named(name) => Party::Name(name.protocol(), number_or(names.find(name))),
        Who::Open(number) => Party::Open(*number),
    }
}

/// The claim on a range that a test or an unlock is for; it enters no name.
pub(crate) fn known_claim(names: &Names, ask: &Ask, extent: Extent, exclusive: bool) -> Claim
    ensures { result ≡ known_claim ask.now extent exclusive names.now }
{
    Claim {
        file: ask.file,
        owner: known_owner(names, &ask.owner),
        party: known_party(names, &ask.party),
        what: What::Range(extent, exclusive),
    }
}
