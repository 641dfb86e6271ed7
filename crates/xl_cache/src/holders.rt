//! Who has a claim on which file, found at once among many.
ghost use Rattle.std.specs.Prelude.{◌≡◌, ◌||◌, IfOk, OnOk};
ghost use Rattle.std.specs.List.{list_any};
ghost use Rattle.xl_matrix.specs.declared.claim.Claim.{Claim};
ghost use Rattle.xl_cache.specs.Holders.{rank, numbers_of, is_among, are_beside};

use indexmap::IndexSet;
use std::alloc::{AllocError, Global};
use xl_base::{Party, Protocol};
use xl_matrix::Claim;

/// Files and parties, by numbers.
pub(crate) type Holders = IndexSet<(u32, u8, u32)>;

fn rank(protocol: Protocol) -> u8
    ensures { result ≡ rank protocol }
{
    match protocol {
        Protocol::Nlm => 0,
        Protocol::Nfs => 1,
        Protocol::Smb => 2,
    }
}

fn numbers_of(file: u32, party: Party) -> (u32, u8, u32)
    ensures { result ≡ numbers_of file party }
{
    match party {
        Party::Name(protocol, number) => (file, rank(protocol), number),
        Party::Open(number) => (file, 3, number),
    }
}

/// The claim's party, on its file, is one of them from then on.
#[tactic(auto, using(crate::proofs::HolderLaws::one_more))]
fn add(holders: &mut Holders, claim: &Claim) -> Result<(), AllocError>
    ensures { OnOk result ((c : Claim) → is_among holders.new.keys c ≡ (is_among holders.old.keys c || are_beside c claim.now)) }
{
    holders.insert_full(numbers_of(claim.file, claim.party))?;
    Ok(())
}

/// The files and parties of these claims.
pub(crate) fn holders_of(alloc: Global, claims: &[Claim]) -> Result<Holders, AllocError>
    ensures { IfOk result (λ holders. (c : Claim) → is_among holders.keys c ≡ list_any (are_beside c) claims.now) }
{
    let mut holders = IndexSet::new(alloc);
    for claim in claims {
        add(&mut holders, claim)?;
    }
    Ok(holders)
}

/// Whether the claim's party is one of these, on its file.
pub(crate) fn is_among(holders: &Holders, claim: &Claim) -> bool
    ensures { result ≡ is_among holders.now.keys claim.now }
{
    holders.contains(&numbers_of(claim.file, claim.party))
}
