//! What a program may still have.

/// What is counted of a program while it is read.
#[derive(Clone, Copy, Debug, PartialEq, Eq)]
pub struct Counts {
    /// How many functions it may still have.
    pub functions: u64,
    /// How many bytes its globals take so far.
    pub bytes: u64,
    /// How many numbered filters and `__finally` blocks it may still have.
    pub funclets: u64,
}
