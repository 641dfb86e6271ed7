//! What the front keeps, and how a connection begins.
ghost use Rattle.std.specs.Prelude.{◌≡◌, OnOk};
ghost use Rattle.xl_front_smb.specs.State.{empty_smb_front, smb_begin, opens_held};

use std::alloc::{AllocError, Global};
use xl_smb_state::{CONNECTIONS, Connection, SmbState};

/// What the front keeps (MS-SMB2 3.3.1): connections, sessions, tree connects, opens, leases, and requests that wait. A
/// contract sees the lists of it.
#[derive(Drop)]
pub struct SmbFront {
    pub(crate) state: SmbState,
}

impl SmbFront {
    /// The front at a start, which has no connection. It takes no memory.
    pub fn new(alloc: Global) -> SmbFront
        ensures { result ≡ empty_smb_front }
    {
        SmbFront {
            state: SmbState::new(alloc),
        }
    }

    /// What is kept of connections, sessions, tree connects and opens.
    pub fn state(&self) -> &SmbState
        ensures { result.now ≡ self.now.state }
    {
        &self.state
    }

    /// How many opens SMB has; with those of NFSv4 they are at most 4,096.
    pub fn opens_held(&self) -> u32
        ensures { result ≡ opens_held self.now }
    {
        self.state.links();
        self.state.count_opens() as u32
    }
}

/// A connection of this number opens, on which nobody has negotiated yet (MS-SMB2 3.3.5.1). One that is there already, and
/// one beyond 64, changes nothing.
#[tactic(auto, unfolding(crate::specs::State::smb_begin))]
pub fn smb_begin(front: &mut SmbFront, number: u64) -> Result<(), AllocError>
    ensures { OnOk result (front.new ≡ smb_begin front.old number) }
{
    if front.state.find_connection(number).is_some()
        || front.state.count_connections() >= CONNECTIONS
    {
        return Ok(());
    }
    front
        .state
        .add_connection(number, Connection { client: None })?;
    Ok(())
}
