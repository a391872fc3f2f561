//! The limits of a program (own).

use seh_num::limit;

/// What has a limit of number, in the order in which refusals name them.
#[derive(Clone, Copy, Debug, PartialEq, Eq)]
pub enum Count {
    /// Locals of a function.
    Locals,
    /// Bytes of a function's local arrays.
    ArrayBytes,
    /// Parameters of a function.
    Parameters,
    /// Functions of a program.
    Functions,
    /// Bytes of a program's globals.
    Globals,
    /// Filters and `__finally` blocks of a program that have a number.
    Funclets,
}

/// The most expressions around a part of an expression.
pub const MOST_EXPRESSIONS: u64 = 64;

/// The most statements around a part of a statement: 64, and the statement itself around each
/// expression. The function's own block is no statement.
pub const MOST_STATEMENTS: u64 = 65;

/// The most locals of a function.
pub const MOST_LOCALS: u64 = limit::MOST_LOCALS;

/// The most bytes of a function's local arrays.
pub const MOST_ARRAY_BYTES: u64 = limit::MOST_ARRAY_BYTES;

/// The most parameters of a function.
pub const MOST_PARAMETERS: u64 = limit::MOST_PARAMETERS;

/// The most functions of a program.
pub const MOST_FUNCTIONS: u64 = limit::MOST_FUNCTIONS;

/// The most bytes of a program's globals.
pub const MOST_GLOBALS: u64 = limit::MOST_GLOBALS;

/// The most filters and `__finally` blocks of a program that have a number.
pub const MOST_FUNCLETS: u64 = limit::MOST_FUNCLETS;
