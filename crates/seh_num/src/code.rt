//! The codes of the host's exceptions, as the Windows headers name and number them (`winnt.h`).

use crate::event::Code;

/// A refused access to memory.
pub const ACCESS_VIOLATION: Code = Code(0xC000_0005);

/// A division by zero.
pub const INTEGER_DIVIDE_BY_ZERO: Code = Code(0xC000_0094);

/// A quotient that has no place in its width.
pub const INTEGER_OVERFLOW: Code = Code(0xC000_0095);

/// The continuing of an exception that can't be continued.
pub const NONCONTINUABLE_EXCEPTION: Code = Code(0xC000_0025);
