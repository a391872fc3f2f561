//! Statements from their parts, where none of these has to be put in a box.

ghost use Rattle.std.specs.Prelude.{◌≡◌, map, option_map};
ghost use Rattle.c_syntax.specs.Expression.{expression};
ghost use Rattle.c_syntax.specs.Statement as trees;
ghost use Rattle.c_syntax.specs.Statement.{statement, statements};

use crate::expression::Expr;
use crate::statement::{Declaration, Stmt};

/// A declaration in a block.
pub fn declare(declaration: Declaration) -> Stmt
    ensures { statement result
        ≡ trees.Declare declaration.base (map trees.local declaration.locals.items) }
{
    Stmt::Declaration(declaration)
}

/// A block.
pub fn block_of(items: Vec<Stmt>) -> Stmt
    ensures { statement result ≡ trees.Block (statements (map statement items.items)) }
{
    Stmt::Block(items)
}

/// An expression as a statement, or nothing.
pub fn evaluate_of(expr: Option<Expr>) -> Stmt
    ensures { statement result ≡ trees.Evaluate (option_map expression expr) }
{
    Stmt::Expression(expr)
}

/// A `return`.
pub fn return_of(at: u64, value: Option<Expr>) -> Stmt
    ensures { statement result ≡ trees.Return at (option_map expression value) }
{
    Stmt::Return { at, value }
}

/// A `break`.
pub fn break_of(at: u64) -> Stmt
    ensures { statement result ≡ trees.Break at }
{
    Stmt::Break { at }
}

/// A `continue`.
pub fn continue_of(at: u64) -> Stmt
    ensures { statement result ≡ trees.Continue at }
{
    Stmt::Continue { at }
}

/// A `__leave`.
pub fn leave_of(at: u64) -> Stmt
    ensures { statement result ≡ trees.Leave at }
{
    Stmt::Leave { at }
}

/// A `__try` with a filter; `at` is the place of `__except`.
pub fn except_of(body: Vec<Stmt>, at: u64, filter: Expr, handler: Vec<Stmt>) -> Stmt
    ensures { statement result ≡ trees.TryExcept (statements (map statement body.items)) at
        (expression filter) (statements (map statement handler.items)) }
{
    Stmt::TryExcept {
        body,
        at,
        filter,
        handler,
    }
}

/// A `__try` with a `__finally` block; `at` is the place of `__finally`.
pub fn finally_of(body: Vec<Stmt>, at: u64, finally_block: Vec<Stmt>) -> Stmt
    ensures { statement result ≡ trees.TryFinally (statements (map statement body.items)) at
        (statements (map statement finally_block.items)) }
{
    Stmt::TryFinally {
        body,
        at,
        finally_block,
    }
}
