//! The limits of a program (own).

/// The most locals of a function.
pub const MOST_LOCALS: u64 = 65_536;

/// The most bytes of the local arrays of a function.
pub const MOST_ARRAY_BYTES: u64 = 65_536;

/// The most parameters of a function.
pub const MOST_PARAMETERS: u64 = 8;

/// The most functions of a program.
pub const MOST_FUNCTIONS: u64 = 4_096;

/// The most bytes of a program's globals.
pub const MOST_GLOBALS: u64 = 1_048_576;

/// The most filters and `__finally` blocks of a program that have a number.
pub const MOST_FUNCLETS: u64 = 16_384;
