//! Why bytes are no message.
ghost use Rattle.std.specs.Prelude.{◌≡◌};
ghost use Rattle.xl_smb.specs.Bodies.{number_of_fault};

use thiserror::Error;

/// Why bytes are no message; the first of these that the bytes show, in this order.
#[derive(Clone, Copy, Debug, Error)]
pub enum SmbBad {
    /// There are fewer than the header's 64 bytes.
    #[error("the header is cut")]
    Short,
    /// The first six bytes are not `FE 53 4D 42` and the header's size, 64.
    #[error("the mark or the header's size is another")]
    Magic,
    /// The body of this command begins with another size than its layouts have, the second number, or is cut within
    /// its fixed part. The size is 0 if its two bytes are cut.
    #[error("the body of command {0} is cut, or has another size than its own; it begins with the size {1}")]
    Size(u16, u16),
    /// A part that the body names leaves the frame, or a create context leaves its list.
    #[error("a named part leaves the frame")]
    Offset,
}

impl SmbBad {
    /// The fault's number, 1 to 4 in their order.
    pub fn number(self) -> u32
        ensures { result ≡ number_of_fault self }
    {
        match self {
            SmbBad::Short => 1,
            SmbBad::Magic => 2,
            SmbBad::Size(_, _) => 3,
            SmbBad::Offset => 4,
        }
    }
}
