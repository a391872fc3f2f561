//! Checked statements from their parts.

ghost use Rattle.std.specs.Prelude.{◌≡◌, [], ◌∷◌, None, Some, IfOk, map, option_map};
ghost use Rattle.c_checked.specs.Expression.{expression};
ghost use Rattle.c_checked.specs.Statement as checked;
ghost use Rattle.c_checked.specs.Statement.{statement, statements, declared};
ghost use Rattle.c_resolved.specs.Statements as definitions;

use c_checked::expression::Expr;
use c_checked::statement::{Filter, Stmt};
use c_locals::declarations::Beginning;
use std::alloc::{AllocError, Global};

/// A block.
pub fn block_of(items: Vec<Stmt>) -> Stmt
    ensures { statement result ≡ checked.Block (statements (map statement items.items)) }
{
    Stmt::Block(items)
}

/// An expression as a statement, or nothing.
pub fn evaluate_of(value: Option<Expr>) -> Stmt
    ensures { statement result ≡ checked.Evaluate (option_map expression value) }
{
    Stmt::Evaluate(value)
}

/// An `if` without `else`.
pub fn if_of(condition: Expr, then: Box<Stmt>) -> Stmt
    ensures { statement result ≡ checked.If (expression condition) (statement then.value) }
{
    Stmt::If {
        condition,
        then,
        otherwise: None,
    }
}

/// An `if` with an `else`.
pub fn if_else_of(condition: Expr, then: Box<Stmt>, otherwise: Box<Stmt>) -> Stmt
    ensures { statement result ≡ checked.IfElse (expression condition) (statement then.value)
        (statement otherwise.value) }
{
    Stmt::If {
        condition,
        then,
        otherwise: Some(otherwise),
    }
}

/// A `for`.
pub fn for_of(
    beginning: Beginning,
    condition: Option<Expr>,
    next: Option<Expr>,
    body: Box<Stmt>,
) -> Stmt
    ensures { statement result ≡ checked.For (map declared beginning.declared.items)
        (option_map expression beginning.first) (option_map expression condition)
        (option_map expression next) (statement body.value) }
{
    Stmt::For {
        declared: beginning.declared,
        first: beginning.first,
        condition,
        next,
        body,
    }
}

/// A `while`: a `for` with a condition alone.
pub fn while_of(alloc: Global, condition: Expr, body: Box<Stmt>) -> Stmt
    ensures { statement result ≡ checked.For [] None (Some (expression condition)) None
        (statement body.value) }
{
    Stmt::For {
        declared: Vec::new(alloc),
        first: None,
        condition: Some(condition),
        next: None,
        body,
    }
}

/// A `do`.
pub fn do_of(body: Box<Stmt>, condition: Expr) -> Stmt
    ensures { statement result ≡ checked.DoWhile (statement body.value) (expression condition) }
{
    Stmt::Do { body, condition }
}

/// A `return`.
pub fn return_of(value: Option<Expr>) -> Stmt
    ensures { statement result ≡ checked.Return (option_map expression value) }
{
    Stmt::Return(value)
}

/// A `break`.
pub fn break_of() -> Stmt
    ensures { statement result ≡ checked.Break }
{
    Stmt::Break
}

/// A `continue`.
pub fn continue_of() -> Stmt
    ensures { statement result ≡ checked.Continue }
{
    Stmt::Continue
}

/// A `__leave`.
pub fn leave_of() -> Stmt
    ensures { statement result ≡ checked.Leave }
{
    Stmt::Leave
}

/// A `__try` with a filter.
pub fn except_of(body: Vec<Stmt>, filter: Filter, handler: Vec<Stmt>) -> Stmt
    ensures { statement result ≡ checked.TryExcept (statements (map statement body.items))
        (checked.filter filter) (statements (map statement handler.items)) }
{
    Stmt::TryExcept {
        body,
        filter,
        handler,
    }
}

/// A `__try` with a `__finally` block.
pub fn finally_of(body: Vec<Stmt>, number: u32, finally_block: Vec<Stmt>) -> Stmt
    ensures { statement result ≡ checked.TryFinally (statements (map statement body.items)) number
        (statements (map statement finally_block.items)) }
{
    Stmt::TryFinally {
        body,
        number,
        finally_block,
    }
}

/// The statement where there has to be one: the first, or none that does anything.
pub fn only(made: Vec<Stmt>) -> Stmt
    ensures { statement result ≡ definitions.only (map statement made.items) }
{
    match made.into_iter().next() {
        Some(first) => first,
        None => evaluate_of(None),
    }
}

/// One statement as a list.
pub fn one(alloc: Global, made: Stmt) -> Result<Vec<Stmt>, AllocError>
    ensures { IfOk result (λ v. map statement v.items ≡ statement made ∷ []) }
{
    let mut list = Vec::new(alloc);
    list.push(made)?;
    Ok(list)
}
