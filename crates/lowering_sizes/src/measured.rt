//! The sizes of statements and of all their parts, each counted once.

ghost use Rattle.std.specs.Prelude.{◌≡◌, ℕ, List, ◌++◌, [], ◌∷◌, map, true, IfOk, OnOk};
ghost use Rattle.c_checked.specs.Statement as statements;
ghost use Rattle.lowering_sizes.specs.Kinds.{is_loop_or_try};
ghost use Rattle.lowering_sizes.specs.Parts as spec;
ghost use Rattle.lowering_sizes.specs.Sizes as sizes;

use crate::sizes::more_size;
use crate::statement_sizes::{
    all_declared_size, condition_size, declared_size, discarded_size, return_size,
};
use crate::sums::sum;
use c_checked::statement::Stmt;
use std::alloc::AllocError;

/// The size of statements, with those of their parts put on the stack.
#[cycle(measure)]
pub fn measure_all(stmts: &[Stmt], parts: &mut Vec<u64>) -> Result<u64, AllocError>
    ensures size { IfOk result (λ n. n ≡ sizes.statements_size
        (statements.statements (map statements.statement stmts.now))) }
    ensures parts { OnOk result (parts.new.items ≡ spec.with_all_parts
        (statements.statements (map statements.statement stmts.now)) parts.old.items) }
{
    let mut total = 0;
    let mut left = stmts.len();
    while left > 0 {
        left -= 1;
        let size = measure(&stmts[left], parts)?;
        total = sum(size, total)?;
    }
    Ok(total)
}

/// The size of statements that are a part: it is put on the stack too.
#[cycle(measure)]
fn measure_block(stmts: &[Stmt], parts: &mut Vec<u64>) -> Result<u64, AllocError>
    ensures size { IfOk result (λ n. n ≡ sizes.statements_size
        (statements.statements (map statements.statement stmts.now))) }
    ensures parts { OnOk result (parts.new.items ≡ spec.with_all_parts
        (statements.statements (map statements.statement stmts.now)) parts.old.items
        ++ sizes.statements_size (statements.statements (map statements.statement stmts.now))
        ∷ []) }
{
    let size = measure_all(stmts, parts)?;
    parts.push(size)?;
    Ok(size)
}

/// The size of a statement that is a part: it is put on the stack too.
#[cycle(measure)]
fn measure_part(stmt: &Stmt, parts: &mut Vec<u64>) -> Result<u64, AllocError>
    ensures size { IfOk result (λ n. n ≡ sizes.statement_size (statements.statement stmt.now)) }
    ensures parts { OnOk result (parts.new.items
        ≡ spec.with_parts (statements.statement stmt.now) parts.old.items
        ++ sizes.statement_size (statements.statement stmt.now) ∷ []) }
{
    let size = measure(stmt, parts)?;
    parts.push(size)?;
    Ok(size)
}

/// The size of a loop (C11, 6.8.5) or a `__try`, with those of its parts put on the stack.
#[cycle(measure)]
fn measure_loop_or_try(stmt: &Stmt, parts: &mut Vec<u64>) -> Result<u64, AllocError>
    requires { is_loop_or_try (statements.statement stmt.now) ≡ true }
    ensures size { IfOk result (λ n. n ≡ sizes.statement_size (statements.statement stmt.now)) }
    ensures parts { OnOk result (parts.new.items
        ≡ spec.with_parts (statements.statement stmt.now) parts.old.items) }
{
    match stmt {
        Stmt::For {
            declared,
            first,
            condition,
            next,
            body,
        } => {
            let size = measure_part(body, parts)?;
            let last = sum(discarded_size(next)?, 3)?;
            let turn = sum(condition_size(condition)?, sum(size, last)?)?;
            let begun = sum(all_declared_size(declared)?, discarded_size(first)?)?;
            sum(begun, turn)
        }
        Stmt::Do { body, condition } => {
            let size = measure_part(body, parts)?;
            sum(size, more_size(condition, 4)?)
        }
        Stmt::TryExcept { body, handler, .. } => {
            let block = measure_all(handler, parts)?;
            let size = measure_block(body, parts)?;
            parts.push(block)?;
            sum(size, sum(block, 3)?)
        }
        Stmt::TryFinally { body, .. } => {
            let size = measure_block(body, parts)?;
            sum(size, 3)
        }
        _ => unreachable!(),
    }
}

/// The size of a statement, with those of its parts put on the stack.
#[cycle(measure)]
pub fn measure(stmt: &Stmt, parts: &mut Vec<u64>) -> Result<u64, AllocError>
    ensures size { IfOk result (λ n. n ≡ sizes.statement_size (statements.statement stmt.now)) }
    ensures parts { OnOk result (parts.new.items
        ≡ spec.with_parts (statements.statement stmt.now) parts.old.items) }
{
    match stmt {
        Stmt::Declare(declared) => declared_size(declared),
        Stmt::Block(stmts) => measure_all(stmts, parts),
        Stmt::Evaluate(expr) => discarded_size(expr),
        Stmt::If {
            condition,
            then,
            otherwise: None,
        } => {
            let size = measure_part(then, parts)?;
            more_size(condition, sum(size, 1)?)
        }
        Stmt::If {
            condition,
            then,
            otherwise: Some(otherwise),
        } => {
            let other = measure(otherwise, parts)?;
            let size = measure_part(then, parts)?;
            parts.push(other)?;
            more_size(condition, sum(size, sum(other, 3)?)?)
        }
        Stmt::Return(expr) => return_size(expr),
        Stmt::Break => Ok(2),
        Stmt::Continue => Ok(2),
        Stmt::Leave => Ok(1),
        _ => measure_loop_or_try(stmt, parts),
    }
}

/// Takes the size of the part that is lowered next from the stack; of none, 0.
pub fn next_size(parts: &mut Vec<u64>) -> u64
    ensures last { (rest : List ℕ) (size : ℕ) → parts.old.items ≡ rest ++ size ∷ []
        → (result ≡ size) × (parts.new.items ≡ rest) }
    ensures none { parts.old.items ≡ [] → (result ≡ 0) × (parts.new.items ≡ []) }
{
    parts.pop().unwrap_or(0)
}
