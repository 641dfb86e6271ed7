//! Who holds a claim.

/// The protocol that a name belongs to. Names of different protocols are never equal.
#[derive(Clone, Copy, PartialEq, Eq)]
pub enum Protocol {
    /// The Network Lock Manager, version 4 (XNFS C702).
    Nlm,
    /// NFS version 4.0 (RFC 7530).
    Nfs,
    /// SMB 2.1 (MS-SMB2).
    Smb,
}

/// Who owns a share or a byte range: a name's number, or an SMB open by its number.
#[derive(Clone, Copy)]
pub enum Owner {
    /// The owner of this protocol whose name has this number.
    Name(Protocol, u32),
    /// The SMB open of this number.
    Open(u32),
}

/// Who may cache: a client by its name's number, or an SMB open without a lease by its number.
#[derive(Clone, Copy)]
pub enum Party {
    /// The party of this protocol whose name has this number.
    Name(Protocol, u32),
    /// The SMB open of this number.
    Open(u32),
}
