//! The levels of expressions, the tightest first: those of the grammar's productions (C11, 6.5 and
//! annex A.2.1).

/// primary-expression, and a call's name with its parenthesis
pub const PRIMARY: u8 = 0;

/// postfix-expression
pub const POSTFIX: u8 = 1;

/// unary-expression
pub const UNARY: u8 = 2;

/// cast-expression
pub const CAST: u8 = 3;

/// multiplicative-expression
pub const MULTIPLICATIVE: u8 = 4;

/// additive-expression
pub const ADDITIVE: u8 = 5;

/// shift-expression
pub const SHIFT: u8 = 6;

/// relational-expression
pub const RELATIONAL: u8 = 7;

/// equality-expression
pub const EQUALITY: u8 = 8;

/// AND-expression
pub const AND: u8 = 9;

/// exclusive-OR-expression
pub const EXCLUSIVE_OR: u8 = 10;

/// inclusive-OR-expression
pub const INCLUSIVE_OR: u8 = 11;

/// logical-AND-expression
pub const LOGICAL_AND: u8 = 12;

/// logical-OR-expression
pub const LOGICAL_OR: u8 = 13;

/// conditional-expression
pub const CONDITIONAL: u8 = 14;

/// assignment-expression
pub const ASSIGNMENT: u8 = 15;

/// expression: operands with commas between them
pub const COMMA: u8 = 16;

/// Looser than each: with what is at this level no expression continues.
pub const NEVER: u8 = 17;
