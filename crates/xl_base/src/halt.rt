//! Why a house stops.

/// Why a house stops for good.
#[derive(Clone, Copy, Debug)]
pub enum Halt {
    /// Memory ran out; nothing of that step was entered or sent.
    NoMemory,
    /// The journal has this many entries, the most that it can have.
    JournalFull(u64),
    /// At a start the record could not be loaded, or not stored with its epoch raised; the number is the keeper's
    /// count of faults.
    StartStore(u64),
}
