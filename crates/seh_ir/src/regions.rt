//! The regions of a body.

ghost use Rattle.std.specs.Prelude.{◌≡◌, ◌+◌, ◌-◌, map, true, OnOk, IfOk};
ghost use Rattle.linear_code.specs.declared.program.RegionKind.TheVariants as kinds;
ghost use Rattle.c_checked.specs.Expression as tree;
ghost use Rattle.c_checked.specs.Statement as statements;
ghost use Rattle.lowering_sizes.specs.Sizes.{expression_size, statement_size, statements_size};
ghost use Rattle.lowering_sizes.specs.Kinds.{is_try, is_loop_or_try};
ghost use Rattle.lowering_expressions.specs.Appended.{AppendsRegions};
ghost use Rattle.seh_ir.specs.Regions as spec;

use c_checked::expression::Expr;
use c_checked::statement::{Filter, Stmt};
use linear_code::program::{Region, RegionKind};
use lowering_sizes::sizes::expression_size;
use lowering_sizes::statement_sizes::{
    all_declared_size, condition_size, declared_size, discarded_size, return_size,
};
use lowering_sizes::sums::sum;
use std::alloc::AllocError;

fn except_kind(filter: &Filter, target: u64) -> RegionKind
    ensures { result ≡ spec.except_kind (statements.filter filter.now) target }
{
    match filter {
        Filter::Always => RegionKind::Always { target },
        Filter::Funclet { number, .. } => RegionKind::Filter {
            funclet: number.saturating_sub(1) as u64,
            target,
        },
    }
}

fn finally_kind(number: u32) -> RegionKind
    ensures { result ≡ kinds.Finally (number - 1) }
{
    RegionKind::Finally {
        funclet: number.saturating_sub(1) as u64,
    }
}

/// The place after so many instructions.
pub(crate) fn shifted(at: u64, size: u64, more: u64) -> Result<u64, AllocError>
    ensures { IfOk result (λ n. n ≡ at + size + more) }
{
    sum(sum(at, size)?, more)
}

/// The place after an expression at a place, and one instruction more.
pub(crate) fn after_condition(at: u64, condition: &Expr) -> Result<u64, AllocError>
    ensures { IfOk result (λ n. n ≡ at + expression_size (tree.expression condition.now) + 1) }
{
    shifted(at, expression_size(condition)?, 1)
}

/// Those of statements that are placed at an instruction, and the place after the statements.
#[cycle(regions)]
pub fn statements_regions(
    regions: &mut Vec<Region>,
    stmts: &[Stmt],
    at: u64,
) -> Result<u64, AllocError>
    ensures regions { OnOk result (AppendsRegions regions.old regions.new
        (spec.statements_regions (statements.statements (map statements.statement stmts.now)) at)) }
    ensures end { IfOk result (λ n. n ≡ at + statements_size
        (statements.statements (map statements.statement stmts.now))) }
{
    let mut place = at;
    for stmt in stmts {
        let next = statement_regions(regions, stmt, place)?;
        place = next;
    }
    Ok(place)
}

/// The region of a `__try`, after those in its body and before those in its block.
#[cycle(regions)]
fn try_regions(regions: &mut Vec<Region>, stmt: &Stmt, at: u64) -> Result<u64, AllocError>
    requires { is_try (statements.statement stmt.now) ≡ true }
    ensures regions { OnOk result (AppendsRegions regions.old regions.new
        (spec.statement_regions (statements.statement stmt.now) at)) }
    ensures end { IfOk result (λ n. n ≡ at + statement_size (statements.statement stmt.now)) }
{
    match stmt {
        Stmt::TryExcept {
            body,
            filter,
            handler,
        } => {
            let end = statements_regions(regions, body, at)?;
            let target = sum(end, 1)?;
            let block = sum(target, 2)?;
            regions.push(Region {
                begin: at,
                end: target,
                kind: except_kind(filter, target),
            })?;
            statements_regions(regions, handler, block)
        }
        Stmt::TryFinally { body, number, .. } => {
            let last = statements_regions(regions, body, at)?;
            let end = sum(last, 1)?;
            regions.push(Region {
                begin: at,
                end,
                kind: finally_kind(*number),
            })?;
            sum(end, 2)
        }
        _ => unreachable!(),
    }
}

#[cycle(regions)]
fn loop_or_try_regions(regions: &mut Vec<Region>, stmt: &Stmt, at: u64) -> Result<u64, AllocError>
    requires { is_loop_or_try (statements.statement stmt.now) ≡ true }
    ensures regions { OnOk result (AppendsRegions regions.old regions.new
        (spec.statement_regions (statements.statement stmt.now) at)) }
    ensures end { IfOk result (λ n. n ≡ at + statement_size (statements.statement stmt.now)) }
{
    match stmt {
        Stmt::For {
            declared,
            first,
            condition,
            next,
            body,
        } => {
            let begun = shifted(at, all_declared_size(declared)?, discarded_size(first)?)?;
            let place = sum(begun, condition_size(condition)?)?;
            let again = statement_regions(regions, body, place)?;
            shifted(again, discarded_size(next)?, 3)
        }
        Stmt::Do { body, condition } => {
            let again = statement_regions(regions, body, at)?;
            shifted(again, expression_size(condition)?, 4)
        }
        _ => try_regions(regions, stmt, at),
    }
}

/// Those of a statement that is placed at an instruction, and the place after it.
#[cycle(regions)]
fn statement_regions(regions: &mut Vec<Region>, stmt: &Stmt, at: u64) -> Result<u64, AllocError>
    ensures regions { OnOk result (AppendsRegions regions.old regions.new
        (spec.statement_regions (statements.statement stmt.now) at)) }
    ensures end { IfOk result (λ n. n ≡ at + statement_size (statements.statement stmt.now)) }
{
    match stmt {
        Stmt::Declare(declared) => sum(at, declared_size(declared)?),
        Stmt::Block(stmts) => statements_regions(regions, stmts, at),
        Stmt::Evaluate(expr) => sum(at, discarded_size(expr)?),
        Stmt::If {
            condition,
            then,
            otherwise: None,
        } => {
            let first = after_condition(at, condition)?;
            statement_regions(regions, then, first)
        }
        Stmt::If {
            condition,
            then,
            otherwise: Some(otherwise),
        } => {
            let first = after_condition(at, condition)?;
            let second = sum(statement_regions(regions, then, first)?, 1)?;
            let last = statement_regions(regions, otherwise, second)?;
            sum(last, 1)
        }
        Stmt::Return(expr) => sum(at, return_size(expr)?),
        Stmt::Break => sum(at, 2),
        Stmt::Continue => sum(at, 2),
        Stmt::Leave => sum(at, 1),
        _ => loop_or_try_regions(regions, stmt, at),
    }
}
