//! Why a call of a desk was refused.

use xl_base::Halt;

/// Why a call was not entered.
#[derive(Clone, Copy, Debug)]
pub enum DeskErr {
    /// This call halted the machine, for this reason; the number is how many entries the journal has.
    Halted(Halt, u64),
    /// The machine was found halted, for this reason; the number is how many entries the journal has.
    Stopped(Halt, u64),
}
