//! Variables of a function, and where they stand on the data stack.

use c_checked::expression::Access;
use c_syntax::expression::CType;

/// A parameter or a local of a function.
#[derive(Clone, Copy)]
pub struct Variable {
    /// Its type, or the type of its elements.
    pub of: CType,
    /// How many elements it has, if it is an array.
    pub elements: Option<u64>,
}

/// Where a variable stands on the data stack.
#[derive(Clone, Copy)]
pub struct Place {
    /// The width and the signedness of its type, or of its elements.
    pub access: Access,
    /// How many bytes it stands above the base.
    pub offset: u64,
    /// How many elements it has, if it is an array.
    pub elements: Option<u64>,
}
