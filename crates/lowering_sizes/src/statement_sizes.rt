//! How many instructions statements are lowered to, and how many locals their codes and flags need.

ghost use Rattle.std.specs.Prelude.{◌≡◌, ◌+◌, map, IfOk, option_map};
ghost use Rattle.c_checked.specs.Expression as tree;
ghost use Rattle.c_checked.specs.Statement as statements;
ghost use Rattle.lowering_sizes.specs.Sizes as spec;

use crate::sizes::more_size;
use crate::sums::{larger, sum};
use c_checked::expression::Expr;
use c_checked::statement::{Declared, StackedVariable, Stmt};
use std::alloc::AllocError;

/// An expression whose value isn't used.
pub fn discarded_size(expr: &Option<Expr>) -> Result<u64, AllocError>
    ensures { IfOk result (λ n. n ≡ spec.discarded_size (option_map tree.expression expr.now)) }
{
    match expr {
        None => Ok(0),
        Some(e) => more_size(e, 1),
    }
}

/// A condition, with its jump.
pub fn condition_size(expr: &Option<Expr>) -> Result<u64, AllocError>
    ensures { IfOk result (λ n. n ≡ spec.condition_size (option_map tree.expression expr.now)) }
{
    match expr {
        None => Ok(0),
        Some(e) => more_size(e, 1),
    }
}

/// The size of a `return`.
pub fn return_size(expr: &Option<Expr>) -> Result<u64, AllocError>
    ensures { IfOk result (λ n. n ≡ spec.returned_size (option_map tree.expression expr.now) + 2) }
{
    match expr {
        None => Ok(3),
        Some(e) => more_size(e, 2),
    }
}

fn initialiser_size(expr: &Option<Expr>) -> Result<u64, AllocError>
    ensures { IfOk result (λ n. n ≡ spec.initialiser_size (option_map tree.expression expr.now)) }
{
    match expr {
        None => Ok(0),
        Some(e) => more_size(e, 2),
    }
}

/// How many instructions the declaration of a variable on the data stack is lowered to.
fn stacked_size(elements: Option<u64>, value: &Option<Expr>) -> Result<u64, AllocError>
    ensures { IfOk result (λ n. n ≡
        spec.stacked_size elements (option_map tree.expression value.now)) }
{
    match elements {
        None => sum(3, initialiser_size(value)?),
        Some(_) => Ok(5),
    }
}

pub fn declared_size(declared: &Declared) -> Result<u64, AllocError>
    ensures { IfOk result (λ n. n ≡ spec.declared_size (statements.declared declared.now)) }
{
    match declared.stacked {
        None => sum(1, initialiser_size(&declared.value)?),
        Some(variable) => stacked_size(variable.elements, &declared.value),
    }
}

pub fn all_declared_size(declared: &[Declared]) -> Result<u64, AllocError>
    ensures { IfOk result (λ n. n ≡ spec.all_declared_size (map statements.declared declared.now)) }
{
    let mut total = 0;
    for one in declared {
        let size = declared_size(one)?;
        total = sum(total, size)?;
    }
    Ok(total)
}

/// How many locals the declaration of this variable needs.
fn stacked_notes(variable: Option<StackedVariable>) -> u64
    ensures { result ≡ spec.stacked_notes variable }
{
    match variable {
        None => 0,
        Some(place) => match place.elements {
            None => 0,
            Some(_) => 1,
        },
    }
}

fn declared_notes(declared: &[Declared]) -> u64
    ensures { result ≡ spec.declared_notes (map statements.declared declared.now) }
{
    let mut most = 0;
    for one in declared {
        let next = larger(most, stacked_notes(one.stacked));
        most = next;
    }
    most
}

#[cycle(notes)]
pub fn statements_notes(stmts: &[Stmt]) -> Result<u64, AllocError>
    ensures { IfOk result (λ n. n ≡
        spec.statements_notes (statements.statements (map statements.statement stmts.now))) }
{
    let mut most = 0;
    for stmt in stmts {
        let notes = statement_notes(stmt)?;
        let next = larger(most, notes);
        most = next;
    }
    Ok(most)
}

#[cycle(notes)]
fn statement_notes(stmt: &Stmt) -> Result<u64, AllocError>
    ensures { IfOk result (λ n. n ≡ spec.statement_notes (statements.statement stmt.now)) }
{
    match stmt {
        Stmt::Declare(declared) => Ok(stacked_notes(declared.stacked)),
        Stmt::Block(stmts) => statements_notes(stmts),
        Stmt::Evaluate(_) => Ok(0),
        Stmt::If {
            then,
            otherwise: None,
            ..
        } => statement_notes(then),
        Stmt::If {
            then,
            otherwise: Some(otherwise),
            ..
        } => { Ok(larger(statement_notes(then)?, statement_notes(otherwise)?)) }
        Stmt::For { declared, body, .. } => {
            Ok(larger(declared_notes(declared), statement_notes(body)?))
        }
        Stmt::Do { body, .. } => statement_notes(body),
        Stmt::Return(_) => Ok(0),
        Stmt::Break => Ok(0),
        Stmt::Continue => Ok(0),
        Stmt::Leave => Ok(0),
        Stmt::TryExcept { body, handler, .. } => {
            let inner = sum(1, statements_notes(handler)?)?;
            Ok(larger(statements_notes(body)?, inner))
        }
        Stmt::TryFinally {
            body,
            finally_block,
            ..
        } => {
            let inner = sum(1, statements_notes(finally_block)?)?;
            Ok(larger(statements_notes(body)?, inner))
        }
    }
}
