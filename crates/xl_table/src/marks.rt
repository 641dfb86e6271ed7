//! Where a bisection ends.

/// Which of the claims whose numbers begin with some are passed by.
#[derive(Clone, Copy)]
pub enum Mark {
    /// None.
    Before,
    /// All.
    Upto,
    /// The ranges that end before the byte.
    Ending(u64),
    /// The ranges that begin by the byte past this one.
    Beginning(u64),
}
