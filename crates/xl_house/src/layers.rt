//! The fronts and the core, which travel together.
ghost use Rattle.std.specs.Prelude.{◌≡◌};
ghost use Rattle.xl_house.specs.State.{no_fronts, nfs_opens, rooms_of};

use std::alloc::Global;
use xl_core::{Core, MOST_OPENS, MOST_OWNERS};
use xl_front_nfs::NfsFront;
use xl_front_nlm::Front;
use xl_front_smb::SmbFront;
use xl_wait::Rooms;

/// The fronts: of ONC RPC's programs, and of SMB.
#[derive(Drop)]
pub struct Fronts {
    /// That of NLM.
    pub nlm: Front,
    /// That of NFSv4.
    pub nfs: NfsFront,
    /// That of SMB.
    pub smb: SmbFront,
}

impl Fronts {
    /// The fronts at a start. It takes no memory.
    pub(crate) fn new(alloc: Global) -> Fronts
        ensures { result ≡ no_fronts }
    {
        Fronts {
            nlm: Front::new(alloc),
            nfs: NfsFront::new(alloc),
            smb: SmbFront::new(alloc),
        }
    }

    /// How many opens NFSv4 has, closed ones aside.
    pub(crate) fn nfs_opens(&self) -> u32
        ensures { result ≡ nfs_opens self.now }
    {
        self.nfs.state().open_count() as u32
    }

    /// The room that is left in the fronts' tables.
    pub(crate) fn rooms(&self) -> Rooms
        ensures { result ≡ rooms_of self.now }
    {
        Rooms {
            hosts: self.nlm.rooms().hosts,
            owners: MOST_OWNERS - self.nfs.state().owner_count() as u32,
            opens: MOST_OPENS
                .saturating_sub(self.nfs_opens())
                .saturating_sub(self.smb.opens_held()),
        }
    }
}

/// The fronts and the core.
#[derive(Drop)]
pub(crate) struct Layers {
    /// The fronts.
    pub front: Fronts,
    /// The core.
    pub core: Core,
}
