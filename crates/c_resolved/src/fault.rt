//! Rules that a program can break.

/// A rule of names, types and jumps. Where several are broken at one place, the first in this order
/// is reported.
#[derive(Clone, Copy, Debug, PartialEq, Eq)]
pub enum Fault {
    /// No function is named `main` (C11, 5.1.2.2.1).
    NoMain,
    /// A name that isn't declared, or isn't of the kind that its use needs (C11, 6.5.1).
    UnknownName,
    /// A second declaration of a name in one scope (C11, 6.7).
    Duplicate,
    /// The operand is no lvalue (C11, 6.5.16), or of `&` none in memory.
    NotLvalue,
    /// Operands of types that the operator doesn't take (C11, 6.5).
    TypeClash,
    /// The number of arguments isn't the number of parameters (C11, 6.5.2.2).
    ArgCount,
    /// `__leave` outside a `__try` body.
    LeaveOutsideTry,
    /// A jump out of a `__finally` block (own).
    JumpOutOfFinally,
    /// `break` or `continue` outside a loop (C11, 6.8.6).
    JumpOutsideLoop,
    /// `GetExceptionCode` outside a filter and an `__except` block.
    CodeOutsideFilter,
    /// `GetExceptionInformation` outside a filter.
    InfoOutsideFilter,
    /// `AbnormalTermination` outside a `__finally` block.
    AbnormalOutsideFinally,
    /// An initialiser that the global's type doesn't take (C11, 6.7.9).
    BadInitialiser,
}
