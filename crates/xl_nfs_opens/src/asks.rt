//! What the core is asked for a lock owner.
ghost use Rattle.std.specs.Prelude.{◌≡◌, ◌≤◌, IfOk, true, false, []};
ghost use Rattle.xl_core.specs.Askers.{may_ask, IsFit, IsFitAct, IsFitWish};
ghost use Rattle.xl_core.specs.declared.ask.Who.TheVariants.{Named};
ghost use Rattle.xl_names.specs.declared.name.Name.TheVariants.{NfsParty, NfsRange};
ghost use Rattle.xl_nfs_opens.specs.Asks.{range_ask, unlock_ask};
ghost use Rattle.xl_nfs_opens.specs.Short.{IsNfsAsk};

use crate::opener::Opener;
use std::alloc::{AllocError, Global};
use xl_base::{Mark, Sequence};
use xl_core::{Act, Ask, Who};
use xl_matrix::Extent;
use xl_names::Name;
use xl_wait::NO_ROWS;

/// An ask of a lock owner, which never waits.
#[tactic(auto, using(crate::proofs::OwnerLaws::own_client))]
pub fn range_ask(
    alloc: Global,
    owner: &Opener,
    file: u32,
    act: Act,
    reclaim: bool,
) -> Result<Ask, AllocError>
    requires act { IsFitAct (Named (NfsRange owner.now.id owner.now.owner)) false act }
    requires own { may_ask (Named (NfsRange owner.now.id owner.now.owner)) act ≡ true }
    requires wish { IsFitWish (Named (NfsParty owner.now.id)) false reclaim act [] }
    ensures value { IfOk result (λ ask. ask ≡ range_ask owner.now file act reclaim) }
    ensures fit { IfOk result (λ ask. IsFit ask) }
    ensures nfs { IfOk result (λ ask. IsNfsAsk ask) }
{
    let id = Sequence::from_slice(alloc, owner.id.as_slice())?;
    let client = Sequence::from_slice(alloc, owner.id.as_slice())?;
    let bytes = Sequence::from_slice(alloc, owner.owner.as_slice())?;
    Ok(Ask {
        file,
        owner: Who::Named(Name::NfsRange(id, bytes)),
        party: Who::Named(Name::NfsParty(client)),
        act,
        wish: Sequence::new(alloc),
        conn: None,
        blocking: false,
        awaits: false,
        reclaim,
        monitored: true,
        mark: Some(Mark::Verifier(owner.verifier)),
        rows: NO_ROWS,
    })
}

/// What is asked if a lock owner gives up bytes.
pub fn unlock_ask(
    alloc: Global,
    owner: &Opener,
    file: u32,
    first: u64,
    last: u64,
) -> Result<Ask, AllocError>
    requires ends { first ≤ last }
    ensures value { IfOk result (λ ask. ask ≡ unlock_ask owner.now file first last) }
    ensures fit { IfOk result (λ ask. IsFit ask) }
    ensures nfs { IfOk result (λ ask. IsNfsAsk ask) }
{
    range_ask(
        alloc,
        owner,
        file,
        Act::Unlock(Extent::Bytes(first, last)),
        false,
    )
}
