//! The programs that are served.
ghost use Rattle.std.specs.Prelude.{◌≡◌, Some, None, option_map};
ghost use Rattle.xl_programs.specs.Programs.{number_of, version_of, serves, program_at};

/// A program that is served.
#[derive(Clone, Copy)]
pub enum Program {
    /// The Network Lock Manager (XNFS C702), program 100021 in version 4.
    Nlm,
    /// The Network File System (RFC 7530), program 100003 in version 4.
    Nfs,
}

/// The number of the Network Lock Manager.
pub const NLM: u32 = 100_021;
/// Its version for 64-bit offsets, which alone is served.
pub const NLM_VERSION: u32 = 4;
/// The number of the Network File System.
pub const NFS: u32 = 100_003;
/// Its version, which alone is served.
pub const NFS_VERSION: u32 = 4;

impl Program {
    /// The program of this number, if it is served in some version.
    pub fn at(number: u32) -> Option<Program>
        ensures { result ≡ program_at number }
    {
        if number == NLM {
            Some(Program::Nlm)
        } else if number == NFS {
            Some(Program::Nfs)
        } else {
            None
        }
    }

    /// Its number.
    pub fn number(self) -> u32
        ensures { result ≡ number_of self }
    {
        match self {
            Program::Nlm => NLM,
            Program::Nfs => NFS,
        }
    }

    /// The one version in which it is served.
    pub fn version(self) -> u32
        ensures { result ≡ version_of self }
    {
        match self {
            Program::Nlm => NLM_VERSION,
            Program::Nfs => NFS_VERSION,
        }
    }

    /// Whether this procedure of it is served. Of NLM these are NULL, TEST, LOCK, CANCEL and UNLOCK, and SHARE, UNSHARE,
    /// NM_LOCK and FREE_ALL; GRANTED is called by the server alone. Of NFS these are NULL and COMPOUND.
    pub fn serves(self, procedure: u32) -> bool
        ensures { result ≡ serves self procedure }
    {
        match self {
            Program::Nlm => procedure <= 4 || (20 <= procedure && procedure <= 23),
            Program::Nfs => procedure <= 1,
        }
    }
}
