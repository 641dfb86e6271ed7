//! What an open is called, and what a file is.
ghost use Rattle.std.specs.Prelude.{◌≡◌, ◌+◌, ◌≤◌, length};
ghost use Rattle.xl_smb.specs.Files.{file_id_at, status_at};

use xl_layout::{u32_at, u64_at};

/// The name of an open (MS-SMB2 2.2.14.1).
#[derive(Clone, Copy)]
pub struct FileId {
    /// The half that a durable open keeps.
    pub persistent: u64,
    /// The half that is this connection's.
    pub volatile: u64,
}

/// What a file is, as the replies to CREATE and CLOSE give it. Times are in units of 100 ns since 1601.
#[derive(Clone, Copy)]
pub struct FileStatus {
    /// When it was made.
    pub created: u64,
    /// When it was last read.
    pub accessed: u64,
    /// When its data was last written.
    pub written: u64,
    /// When it was last changed in any way.
    pub changed: u64,
    /// How many bytes are kept for it.
    pub allocated: u64,
    /// How many bytes it has.
    pub end_of_file: u64,
    /// Its attributes (MS-FSCC 2.6).
    pub attributes: u32,
}

pub(crate) fn file_id_at(body: &[u8], place: usize) -> FileId
    requires { place + 16 ≤ length body.now }
    ensures { result ≡ file_id_at place body.now }
{
    FileId {
        persistent: u64_at(body, place),
        volatile: u64_at(body, place + 8),
    }
}

pub(crate) fn status_at(body: &[u8]) -> FileStatus
    requires { 60 ≤ length body.now }
    ensures { result ≡ status_at body.now }
{
    FileStatus {
        created: u64_at(body, 8),
        accessed: u64_at(body, 16),
        written: u64_at(body, 24),
        changed: u64_at(body, 32),
        allocated: u64_at(body, 40),
        end_of_file: u64_at(body, 48),
        attributes: u32_at(body, 56),
    }
}
