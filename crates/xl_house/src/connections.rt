//! The connections that are open.
ghost use Rattle.std.specs.Prelude.{◌≡◌, nat_lt, length, OnOk};
ghost use Rattle.xl_house.specs.State.{most_connections, with_connection, without, kind_of};

use std::alloc::AllocError;
use xl_base::{Kind, MOST_CONNECTIONS};

/// An open connection.
#[derive(Clone, Copy)]
pub struct Connection {
    /// Its number, which is the place of its opening.
    pub number: u64,
    /// What it speaks.
    pub kind: Kind,
}

/// Whether there is room for a connection more.
pub(crate) fn has_room(connections: &[Connection]) -> bool
    ensures { result ≡ nat_lt (length connections.now) most_connections }
{
    connections.len() < MOST_CONNECTIONS
}

/// Opens a connection if there is room.
#[tactic(auto, unfolding(crate::specs::State::with_connection))]
pub(crate) fn open(
    connections: &mut Vec<Connection>,
    place: u64,
    kind: Kind,
) -> Result<(), AllocError>
    ensures { OnOk result (connections.new.items ≡ with_connection connections.old.items place kind) }
{
    if has_room(connections) {
        connections.push(Connection {
            number: place,
            kind,
        })?;
    }
    Ok(())
}

/// Ends a connection.
#[tactic(auto, unfolding(crate::specs::State::without))]
pub(crate) fn end(connections: &mut Vec<Connection>, number: u64)
    ensures { connections.new.items ≡ without connections.old.items number }
{
    connections.retain(|c| c.number != number);
}

/// What the open connection of this number speaks.
#[tactic(auto, unfolding(crate::specs::State::kind_of))]
pub(crate) fn kind_of(connections: &[Connection], number: u64) -> Option<Kind>
    ensures { result ≡ kind_of connections.now number }
{
    connections
        .iter()
        .find(|c| c.number == number)
        .map(|c| c.kind)
}
