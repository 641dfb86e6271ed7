//! What clients call owners and parties.

ghost use Rattle.std.specs.Prelude.{◌≡◌, IfOk};

use std::alloc::{AllocError, Global};
use xl_base::{Protocol, Sequence};

/// Who owns a share or a byte range, or who may cache, as the client names them. Names of different protocols, or of
/// different kinds, are never equal.
#[derive(Drop, PartialEq, Eq, Hash)]
pub enum Name {
    /// The owner of NLM byte ranges: caller name, svid and oh (XNFS C702, `nlm4_lock`).
    NlmRange(Sequence<u8>, i32, Sequence<u8>),
    /// The owner of NLM shares: caller name and oh (XNFS C702, `nlm4_share`).
    NlmShare(Sequence<u8>, Sequence<u8>),
    /// An NLM client by its caller name.
    NlmParty(Sequence<u8>),
    /// The owner of NFSv4 byte ranges: client id string and lock owner (RFC 7530 9.1.1, 9.1.5).
    NfsRange(Sequence<u8>, Sequence<u8>),
    /// The owner of NFSv4 shares: client id string and open owner (RFC 7530 9.1.1, 16.16).
    NfsShare(Sequence<u8>, Sequence<u8>),
    /// An NFSv4 client by its client id string (RFC 7530 9.1.1).
    NfsParty(Sequence<u8>),
    /// The holder of an SMB lease: client guid and lease key (MS-SMB2 2.2.13.2.8).
    SmbLease([u8; 16], [u8; 16]),
}

impl Name {
    ghost use Rattle.xl_names.specs.Names.{protocol_of};

    /// The protocol that the name belongs to.
    pub fn protocol(&self) -> Protocol
        ensures { result ≡ protocol_of self.now }
    {
        match self {
            Name::NlmRange(..) | Name::NlmShare(..) | Name::NlmParty(..) => Protocol::Nlm,
            Name::NfsRange(..) | Name::NfsShare(..) | Name::NfsParty(..) => Protocol::Nfs,
            Name::SmbLease(..) => Protocol::Smb,
        }
    }

    /// A copy of the name.
    pub fn copy(&self, alloc: Global) -> Result<Name, AllocError>
        ensures { IfOk result (λ name. name ≡ self.now) }
    {
        Ok(match self {
            Name::NlmRange(caller, svid, oh) => {
                Name::NlmRange(copied(alloc, caller)?, *svid, copied(alloc, oh)?)
            }
            Name::NlmShare(caller, oh) => Name::NlmShare(
                copied(alloc, caller)?,
                copied(alloc, oh)?,
            ),
            Name::NlmParty(caller) => Name::NlmParty(copied(alloc, caller)?),
            Name::NfsRange(client, owner) => {
                Name::NfsRange(copied(alloc, client)?, copied(alloc, owner)?)
            }
            Name::NfsShare(client, owner) => {
                Name::NfsShare(copied(alloc, client)?, copied(alloc, owner)?)
            }
            Name::NfsParty(client) => Name::NfsParty(copied(alloc, client)?),
            Name::SmbLease(guid, key) => Name::SmbLease(*guid, *key),
        })
    }
}

fn copied(alloc: Global, bytes: &Sequence<u8>) -> Result<Sequence<u8>, AllocError>
    ensures { IfOk result (λ copy. copy ≡ bytes.now) }
{
    Sequence::from_slice(alloc, bytes.as_slice())
}
