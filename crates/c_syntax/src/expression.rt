//! Expressions.

ghost use Rattle.std.specs.Prelude.{◌≡◌};
ghost use Rattle.c_syntax.specs.Expression.{expression, start};

use crate::operator::{Arithmetic, BinaryOperator, Increment, UnaryOperator};
use c_lex::token::IntegerType;

/// A name, by where it is in the text.
#[derive(Clone, Copy, Debug, PartialEq, Eq)]
pub struct Identifier {
    /// The place of its first byte.
    pub start: u64,
    /// The place after its last byte.
    pub end: u64,
}

/// A literal (C11, 6.4.4).
#[derive(Clone, Copy, Debug, PartialEq, Eq)]
pub enum Literal {
    /// An integer, and the first of its types that holds it.
    Integer { value: u64, of: IntegerType },
    /// A character: its value as a signed char, of type int.
    CharacterConstant(i8),
}

/// The types that specifiers name (C11, 6.7.2). `char` is signed, and `long` is `int`: 32 bits, as
/// on Windows.
#[derive(Clone, Copy, Debug, PartialEq, Eq)]
pub enum Base {
    Void,
    Char,
    UnsignedChar,
    Short,
    UnsignedShort,
    Int,
    Unsigned,
    LongLong,
    UnsignedLongLong,
}

/// A type.
#[derive(Clone, Copy, Debug, PartialEq, Eq)]
pub struct CType {
    /// What its specifiers name.
    pub base: Base,
    /// How many `*` are after them.
    pub pointers: u64,
}

/// What a filter can read of the exception's record (Microsoft C reference, "try-except statement";
/// Windows, `EXCEPTION_RECORD`).
#[derive(Clone, Copy, Debug, PartialEq, Eq)]
pub enum Field {
    /// `ExceptionCode`
    Code,
    /// `ExceptionFlags`
    Flags,
    /// `NumberParameters`
    Count,
    /// `ExceptionInformation[index]`; `at` is the index' place.
    Information { index: u64, at: u64 },
}

/// An expression. `at` is the place of the operator, or of the first token where there is none.
#[derive(Drop)]
pub enum Expr {
    Literal {
        at: u64,
        literal: Literal,
    },
    Variable(Identifier),
    /// `GetExceptionInformation()->ExceptionRecord->field`
    Information {
        at: u64,
        field: Field,
    },
    Call {
        name: Identifier,
        arguments: Vec<Expr>,
    },
    /// `(inner)`
    Parentheses {
        at: u64,
        inner: Box<Expr>,
    },
    /// `array[index]`
    Index {
        array: Box<Expr>,
        at: u64,
        index: Box<Expr>,
    },
    /// `operand++` and `operand--`
    Postfix {
        operand: Box<Expr>,
        operator: Increment,
        at: u64,
    },
    /// `++operand` and `--operand`
    Prefix {
        at: u64,
        operator: Increment,
        operand: Box<Expr>,
    },
    Unary {
        at: u64,
        operator: UnaryOperator,
        operand: Box<Expr>,
    },
    /// `(to)operand`
    Cast {
        at: u64,
        to: CType,
        operand: Box<Expr>,
    },
    Binary {
        left: Box<Expr>,
        at: u64,
        operator: BinaryOperator,
        right: Box<Expr>,
    },
    /// `condition ? yes : no`
    Conditional {
        condition: Box<Expr>,
        at: u64,
        yes: Box<Expr>,
        no: Box<Expr>,
    },
    /// `target = value`, or with an operator `target operator= value`
    Assign {
        target: Box<Expr>,
        at: u64,
        operator: Option<Arithmetic>,
        value: Box<Expr>,
    },
    /// `left, right`
    Comma {
        left: Box<Expr>,
        at: u64,
        right: Box<Expr>,
    },
}

impl Expr {
    /// The place of the first token.
    pub fn start(&self) -> u64
        ensures { result ≡ start (expression self.now) }
    {
        match self {
            Expr::Literal { at, .. } => *at,
            Expr::Variable(name) => name.start,
            Expr::Information { at, .. } => *at,
            Expr::Call { name, .. } => name.start,
            Expr::Parentheses { at, .. } => *at,
            Expr::Index { array, .. } => array.start(),
            Expr::Postfix { operand, .. } => operand.start(),
            Expr::Prefix { at, .. } => *at,
            Expr::Unary { at, .. } => *at,
            Expr::Cast { at, .. } => *at,
            Expr::Binary { left, .. } => left.start(),
            Expr::Conditional { condition, .. } => condition.start(),
            Expr::Assign { target, .. } => target.start(),
            Expr::Comma { left, .. } => left.start(),
        }
    }
}
