//! The commands whose messages are read.
ghost use Rattle.std.specs.Prelude.{◌≡◌};
ghost use Rattle.xl_smb.specs.Heads.{command_of, number_of};

/// The commands whose messages are read (MS-SMB2 2.2.1.2).
#[derive(Clone, Copy)]
pub enum Command {
    /// 0: agree on a dialect.
    Negotiate,
    /// 1: begin a session.
    SessionSetup,
    /// 2: end a session.
    Logoff,
    /// 3: connect to a share.
    TreeConnect,
    /// 4: leave a share.
    TreeDisconnect,
    /// 5: open a file.
    Create,
    /// 6: close an open.
    Close,
    /// 10: lock and unlock ranges of bytes.
    Lock,
    /// 12: cancel a request.
    Cancel,
    /// 13: ask whether the server is there.
    Echo,
    /// 18: acknowledge the break of an oplock or a lease; notices have this number too.
    OplockBreak,
}

impl Command {
    /// The command of a number, None if its messages aren't read.
    pub fn of(number: u16) -> Option<Command>
        ensures { result ≡ command_of number }
    {
        match number {
            0 => Some(Command::Negotiate),
            1 => Some(Command::SessionSetup),
            2 => Some(Command::Logoff),
            3 => Some(Command::TreeConnect),
            4 => Some(Command::TreeDisconnect),
            5 => Some(Command::Create),
            6 => Some(Command::Close),
            10 => Some(Command::Lock),
            12 => Some(Command::Cancel),
            13 => Some(Command::Echo),
            18 => Some(Command::OplockBreak),
            _ => None,
        }
    }

    /// The command's number.
    pub fn number(self) -> u16
        ensures { result ≡ number_of self }
    {
        match self {
            Command::Negotiate => 0,
            Command::SessionSetup => 1,
            Command::Logoff => 2,
            Command::TreeConnect => 3,
            Command::TreeDisconnect => 4,
            Command::Create => 5,
            Command::Close => 6,
            Command::Lock => 10,
            Command::Cancel => 12,
            Command::Echo => 13,
            Command::OplockBreak => 18,
        }
    }
}
