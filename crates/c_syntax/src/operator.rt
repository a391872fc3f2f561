//! Operators of expressions.

/// Operators of numbers that assignments have too (C11, 6.5.5 to 6.5.7, 6.5.10 to 6.5.12, 6.5.16).
#[derive(Clone, Copy, Debug, PartialEq, Eq)]
pub enum Arithmetic {
    Multiply,
    Divide,
    Remainder,
    Add,
    Subtract,
    ShiftLeft,
    ShiftRight,
    And,
    ExclusiveOr,
    Or,
}

/// Relational and equality operators (C11, 6.5.8 and 6.5.9).
#[derive(Clone, Copy, Debug, PartialEq, Eq)]
pub enum Comparison {
    Less,
    Greater,
    LessEqual,
    GreaterEqual,
    Equal,
    NotEqual,
}

/// Operators between two operands, assignment and comma aside (C11, 6.5.5 to 6.5.14).
#[derive(Clone, Copy, Debug, PartialEq, Eq)]
pub enum BinaryOperator {
    Arithmetic(Arithmetic),
    Comparison(Comparison),
    LogicalAnd,
    LogicalOr,
}

/// Operators before an operand, `++` and `--` aside (C11, 6.5.3.2 and 6.5.3.3).
#[derive(Clone, Copy, Debug, PartialEq, Eq)]
pub enum UnaryOperator {
    Plus,
    Minus,
    LogicalNot,
    Complement,
    Indirection,
    AddressOf,
}

/// `++` and `--` (C11, 6.5.2.4 and 6.5.3.1).
#[derive(Clone, Copy, Debug, PartialEq, Eq)]
pub enum Increment {
    Increment,
    Decrement,
}
