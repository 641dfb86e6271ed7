//! Why a lane, or a caller, was done.

use crate::halt::Halt;

/// Why the service of a lane, or of a caller, ended.
#[derive(Clone, Copy, Debug)]
pub enum LaneEnd {
    /// The lane said that no link comes any more.
    End,
    /// The next link could not be had; the number is the lane's count of faults.
    Failed(u64),
    /// All turns that were given are done; the number is how many.
    Turns(u64),
    /// The machine has stopped with this halt; the number is how many entries its journal has.
    Stopped(Halt, u64),
    /// Memory ran out.
    NoMemory,
}
