//! What a function and a program may still have.

/// How much of what is limited may still follow.
#[derive(Clone, Copy, Debug, PartialEq, Eq)]
pub struct Remaining {
    /// How many locals the function may still declare.
    pub locals: u64,
    /// How many bytes the function's local arrays may still take.
    pub bytes: u64,
    /// How many numbered filters and `__finally` blocks the program may still have.
    pub funclets: u64,
}
