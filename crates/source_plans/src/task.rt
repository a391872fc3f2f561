//! What counts a step.

use crate::place::{AskedPlace, Exception, Handler};
use c_checked::expression::{Expr, Lvalue};
use c_checked::statement::{Declared, Stmt};
use c_operations::operation::Operation;

/// `for` and `while`, after their declarations and first expressions.
#[derive(Clone, Copy, Drop)]
pub struct ForLoop<'p> {
    /// What is tested before each iteration; None holds always.
    pub condition: &'p Option<Expr>,
    /// What is evaluated after each iteration.
    pub next: &'p Option<Expr>,
    /// What an iteration runs.
    pub body: &'p Box<Stmt>,
}

/// What counts one step, where it begins.
#[derive(Clone, Copy, Drop)]
pub enum Task<'p> {
    Eval(&'p Expr),
    Locate(&'p Lvalue),
    /// A statement of a list, by its index.
    RunListed(&'p Vec<Stmt>, usize),
    RunBoxed(&'p Box<Stmt>),
    /// A declared name.
    Declare(&'p Declared),
    ForIteration(ForLoop<'p>),
    DoIteration {
        body: &'p Box<Stmt>,
        condition: &'p Expr,
    },
    /// The body of a `__try`.
    TryBody(&'p Vec<Stmt>),
    Raise(Exception),
    /// A vectored handler, by the number of its function, at a place of their list.
    AskVectored {
        handler: u64,
        asked: AskedPlace,
        exception: Exception,
    },
    /// A filter, by its number.
    RunFilter {
        number: u32,
        value: &'p Expr,
        handler: Handler<'p>,
        exception: Exception,
    },
    /// A `__finally` block, by its number.
    RunFinally {
        number: u32,
        finally_block: &'p Vec<Stmt>,
        abnormal: bool,
    },
    /// An operation again, on the same operands.
    Retry {
        operation: Operation,
        first: u64,
        second: u64,
    },
}
