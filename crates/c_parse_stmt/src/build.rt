//! Statements from their parts, some of which are put in boxes.

ghost use Rattle.std.specs.Prelude.{◌≡◌, IfOk, IfErr, option_map};
ghost use Rattle.c_syntax.specs.Expression.{expression};
ghost use Rattle.c_syntax.specs.Statement as trees;
ghost use Rattle.c_syntax.specs.Statement.{statement};
ghost use Rattle.c_parse_expr.specs.declared.refusal.ParseErr.TheVariants.{Memory};

use c_parse_expr::refusal::ParseErr;
use c_syntax::expression::Expr;
use c_syntax::statement::{ForInitialiser, Stmt};
use std::alloc::Global;

/// An `if` without `else`.
pub fn if_of(alloc: Global, at: u64, condition: Expr, then: Stmt) -> Result<Stmt, ParseErr>
    ensures made { IfOk result (λ s.
        statement s ≡ trees.If at (expression condition) (statement then)) }
    ensures err { IfErr result (λ e. e ≡ Memory) }
{
    match Box::new(alloc, then) {
        Ok(then) => Ok(Stmt::If {
            at,
            condition,
            then,
            otherwise: None,
        }),
        Err(failed) => {
            drop(condition);
            Err(ParseErr::from(failed))
        }
    }
}

/// Two statements in boxes.
fn both_boxed(alloc: Global, a: Stmt, b: Stmt) -> Result<(Box<Stmt>, Box<Stmt>), ParseErr>
    ensures first { IfOk result (λ x. x.0.value ≡ a) }
    ensures second { IfOk result (λ x. x.1.value ≡ b) }
    ensures err { IfErr result (λ e. e ≡ Memory) }
{
    match Box::new(alloc, a) {
        Ok(a) => {
            let b = Box::new(alloc, b)?;
            Ok((a, b))
        }
        Err(failed) => {
            drop(b);
            Err(ParseErr::from(failed))
        }
    }
}

/// An `if` with an `else`.
pub fn if_else_of(
    alloc: Global,
    at: u64,
    condition: Expr,
    then: Stmt,
    otherwise: Stmt,
) -> Result<Stmt, ParseErr>
    ensures made { IfOk result (λ s.
        statement s
        ≡ trees.IfElse at (expression condition) (statement then) (statement otherwise)) }
    ensures err { IfErr result (λ e. e ≡ Memory) }
{
    match both_boxed(alloc, then, otherwise) {
        Ok((then, otherwise)) => Ok(Stmt::If {
            at,
            condition,
            then,
            otherwise: Some(otherwise),
        }),
        Err(refusal) => {
            drop(condition);
            Err(refusal)
        }
    }
}

/// A `while`.
pub fn while_of(alloc: Global, at: u64, condition: Expr, body: Stmt) -> Result<Stmt, ParseErr>
    ensures made { IfOk result (λ s.
        statement s ≡ trees.While at (expression condition) (statement body)) }
    ensures err { IfErr result (λ e. e ≡ Memory) }
{
    match Box::new(alloc, body) {
        Ok(body) => Ok(Stmt::While {
            at,
            condition,
            body,
        }),
        Err(failed) => {
            drop(condition);
            Err(ParseErr::from(failed))
        }
    }
}

/// A `do`; `at` is the place of its `while`.
pub fn do_of(alloc: Global, body: Stmt, at: u64, condition: Expr) -> Result<Stmt, ParseErr>
    ensures made { IfOk result (λ s.
        statement s ≡ trees.DoWhile (statement body) at (expression condition)) }
    ensures err { IfErr result (λ e. e ≡ Memory) }
{
    match Box::new(alloc, body) {
        Ok(body) => Ok(Stmt::Do {
            body,
            at,
            condition,
        }),
        Err(failed) => {
            drop(condition);
            Err(ParseErr::from(failed))
        }
    }
}

/// A `for`.
pub fn for_of(
    alloc: Global,
    at: u64,
    first: ForInitialiser,
    condition: Option<Expr>,
    next: Option<Expr>,
    body: Stmt,
) -> Result<Stmt, ParseErr>
    ensures made { IfOk result (λ s.
        statement s ≡ trees.For at (trees.first first) (option_map expression condition)
        (option_map expression next) (statement body)) }
    ensures err { IfErr result (λ e. e ≡ Memory) }
{
    match Box::new(alloc, body) {
        Ok(body) => Ok(Stmt::For {
            at,
            first,
            condition,
            next,
            body,
        }),
        Err(failed) => {
            drop(first);
            drop(condition);
            drop(next);
            Err(ParseErr::from(failed))
        }
    }
}
