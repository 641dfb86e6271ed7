//! Who holds a claim, by protocol.
ghost use Rattle.std.specs.Prelude.{◌≡◌};
ghost use Rattle.xl_matrix.specs.Owners.{owner_protocol, party_protocol, posix};

use xl_base::{Owner, Party, Protocol};

/// The protocol of an owner; opens are of SMB.
pub fn protocol_of_owner(owner: Owner) -> Protocol
    ensures { result ≡ owner_protocol owner }
{
    match owner {
        Owner::Name(protocol, _) => protocol,
        Owner::Open(_) => Protocol::Smb,
    }
}

/// The protocol of a party; opens are of SMB.
pub fn protocol_of_party(party: Party) -> Protocol
    ensures { result ≡ party_protocol party }
{
    match party {
        Party::Name(protocol, _) => protocol,
        Party::Open(_) => Protocol::Smb,
    }
}

/// Whether the owner is of NLM or NFSv4. Its ranges on a file are a function of the byte, as POSIX record locks are;
/// those of an SMB open are a list of elements.
pub fn is_posix(owner: Owner) -> bool
    ensures { result ≡ posix owner }
{
    match protocol_of_owner(owner) {
        Protocol::Nlm | Protocol::Nfs => true,
        Protocol::Smb => false,
    }
}
