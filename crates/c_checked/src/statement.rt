//! Statements.

use crate::expression::Expr;
use seh_num::width::Width;

/// Where a variable stands on the data stack.
#[derive(Clone, Copy)]
pub struct StackedVariable {
    /// The local that has its function's base.
    pub base: u64,
    /// The width of the variable, or of an element of the array.
    pub width: Width,
    /// How many bytes it stands above the base.
    pub offset: u64,
    /// How many elements the array has, if it is one.
    pub elements: Option<u64>,
}

/// A declared local by its index, with its initialiser (C11, 6.7.9).
#[derive(Drop)]
pub struct Declared {
    /// Its index among the function's locals, parameters first.
    pub local: u64,
    /// Where it stands, if that is the data stack; then its local isn't used.
    pub stacked: Option<StackedVariable>,
    /// Its initialiser, if it has one.
    pub value: Option<Expr>,
}

/// The filter expression of an `__except` (Microsoft C reference, "try-except statement").
#[derive(Drop)]
pub enum Filter {
    /// The constant EXCEPTION_EXECUTE_HANDLER: no funclet is needed and nothing is evaluated.
    Always,
    /// Any other expression, with the number of its funclet.
    Funclet { number: u32, value: Expr },
}

/// A statement, or one declared name (C11, 6.8).
#[derive(Drop)]
pub enum Stmt {
    Declare(Declared),
    /// `{ .. }`
    Block(Vec<Stmt>),
    /// `expression;`, or `;` alone.
    Evaluate(Option<Expr>),
    /// `if (condition) then else otherwise` (C11, 6.8.4.1)
    If {
        condition: Expr,
        then: Box<Stmt>,
        otherwise: Option<Box<Stmt>>,
    },
    /// `for`, and `while` as a `for` with a condition alone (C11, 6.8.5).
    For {
        declared: Vec<Declared>,
        first: Option<Expr>,
        condition: Option<Expr>,
        next: Option<Expr>,
        body: Box<Stmt>,
    },
    /// `do body while (condition);`
    Do {
        body: Box<Stmt>,
        condition: Expr,
    },
    /// `return` (C11, 6.8.6.4)
    Return(Option<Expr>),
    /// `break`, of the innermost loop in the text.
    Break,
    /// `continue`, of the innermost loop in the text.
    Continue,
    /// `__leave`, of the innermost `__try` body in the text.
    Leave,
    /// `__try body __except (filter) handler`
    TryExcept {
        body: Vec<Stmt>,
        filter: Filter,
        handler: Vec<Stmt>,
    },
    /// `__try body __finally finally_block`. Filters and `__finally` blocks are funclets, numbered
    /// together from 1 in the order of their keywords.
    TryFinally {
        body: Vec<Stmt>,
        number: u32,
        finally_block: Vec<Stmt>,
    },
}
