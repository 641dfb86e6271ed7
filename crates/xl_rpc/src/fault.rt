//! Why a message could not be read.
ghost use Rattle.std.specs.Prelude.{◌≡◌};
ghost use Rattle.xl_rpc.specs.Faults.{number_of};

use thiserror::Error;

/// The first fault that is met in a message, read from its front.
#[derive(Clone, Copy, Debug, Error)]
pub enum RpcBad {
    /// The bytes end within an item.
    #[error("the bytes end within an item")]
    Short,
    /// The bytes that fill an opaque to a multiple of four are not zero (RFC 4506 4.9).
    #[error("padding is not zero")]
    Pad,
    /// A bool is neither 0 nor 1 (RFC 4506 4.4).
    #[error("a bool is neither 0 nor 1")]
    Bool,
    /// An opaque is longer than its item allows.
    #[error("an opaque is too long")]
    TooLong,
    /// A call of this number is of another RPC version than 2.
    #[error("call {0} is not of RPC version 2")]
    Version(u32),
    /// The message type is not the one that is read: of a call 0, of a reply 1.
    #[error("the message is of the other type")]
    NotCall,
    /// A number that its item does not list.
    #[error("a number is not one of its item")]
    Value,
}

impl RpcBad {
    /// The number of the fault, 1 to 7 in the order of the variants.
    pub fn number(self) -> u32
        ensures { result ≡ number_of self }
    {
        match self {
            RpcBad::Short => 1,
            RpcBad::Pad => 2,
            RpcBad::Bool => 3,
            RpcBad::TooLong => 4,
            RpcBad::Version(_) => 5,
            RpcBad::NotCall => 6,
            RpcBad::Value => 7,
        }
    }
}
