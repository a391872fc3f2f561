//! How deep a program goes (own).

/// The greatest depth of a program: 1 for each live activation, and what is held beside them.
pub const DEEPEST: u64 = 1_000;

/// The depth that ends a program.
pub const TOO_DEEP: u64 = DEEPEST + 1;
