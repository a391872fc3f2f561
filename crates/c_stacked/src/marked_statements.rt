//! The variables whose addresses statements take, and whether there is a `__try` among statements.

ghost use Rattle.std.specs.Prelude.{◌≡◌, true, map, option_map};
ghost use Rattle.c_checked.specs.Expression as tree;
ghost use Rattle.c_checked.specs.Statement as statements;
ghost use Rattle.c_resolved.specs.Addresses as spec;
ghost use Rattle.c_stacked.specs.Kinds.{is_loop_or_try};

use crate::addresses::mark_expression;
use c_checked::expression::Expr;
use c_checked::statement::{Declared, Filter, Stmt};

fn mark_optional(expr: &Option<Expr>, marks: &mut [bool])
    ensures { marks.new ≡
        spec.mark_optional (option_map tree.expression expr.now) marks.old }
{
    match expr {
        Some(expr) => mark_expression(expr, marks),
        None => {}
    }
}

fn mark_all_declared(declared: &[Declared], marks: &mut [bool])
    ensures { marks.new ≡
        spec.mark_all_declared (map statements.declared declared.now) marks.old }
{
    for one in declared {
        mark_optional(&one.value, marks);
    }
}

fn mark_filter(filter: &Filter, marks: &mut [bool])
    ensures { marks.new ≡ spec.mark_filter (statements.filter filter.now) marks.old }
{
    match filter {
        Filter::Always => {}
        Filter::Funclet { value, .. } => mark_expression(value, marks),
    }
}

/// What a `for` has beside its body.
fn mark_heading(
    declared: &[Declared],
    first: &Option<Expr>,
    condition: &Option<Expr>,
    next: &Option<Expr>,
    marks: &mut [bool],
)
    ensures { marks.new ≡ spec.mark_optional (option_map tree.expression next.now)
        (spec.mark_optional (option_map tree.expression condition.now)
        (spec.mark_optional (option_map tree.expression first.now)
        (spec.mark_all_declared (map statements.declared declared.now) marks.old))) }
{
    mark_all_declared(declared, marks);
    mark_optional(first, marks);
    mark_optional(condition, marks);
    mark_optional(next, marks)
}

#[cycle(mark)]
pub fn mark_statements(stmts: &[Stmt], marks: &mut [bool])
    ensures { marks.new ≡ spec.mark_statements
        (statements.statements (map statements.statement stmts.now)) marks.old }
{
    for stmt in stmts {
        mark_statement(stmt, marks);
    }
}

#[cycle(mark)]
fn mark_statement(stmt: &Stmt, marks: &mut [bool])
    ensures { marks.new ≡ spec.mark_statement (statements.statement stmt.now) marks.old }
{
    match stmt {
        Stmt::Declare(declared) => mark_optional(&declared.value, marks),
        Stmt::Block(stmts) => mark_statements(stmts, marks),
        Stmt::Evaluate(expr) => mark_optional(expr, marks),
        Stmt::If {
            condition,
            then,
            otherwise: None,
        } => {
            mark_expression(condition, marks);
            mark_statement(then, marks)
        }
        Stmt::If {
            condition,
            then,
            otherwise: Some(otherwise),
        } => {
            mark_expression(condition, marks);
            mark_statement(then, marks);
            mark_statement(otherwise, marks)
        }
        Stmt::Return(expr) => mark_optional(expr, marks),
        Stmt::Break => {}
        Stmt::Continue => {}
        Stmt::Leave => {}
        _ => mark_loop_or_try(stmt, marks),
    }
}

/// A loop (C11, 6.8.5) or a `__try`.
#[cycle(mark)]
fn mark_loop_or_try(stmt: &Stmt, marks: &mut [bool])
    requires { is_loop_or_try (statements.statement stmt.now) ≡ true }
    ensures { marks.new ≡ spec.mark_statement (statements.statement stmt.now) marks.old }
{
    match stmt {
        Stmt::For {
            declared,
            first,
            condition,
            next,
            body,
        } => {
            mark_heading(declared, first, condition, next, marks);
            mark_statement(body, marks)
        }
        Stmt::Do { body, condition } => {
            mark_statement(body, marks);
            mark_expression(condition, marks)
        }
        Stmt::TryExcept {
            body,
            filter,
            handler,
        } => {
            mark_statements(body, marks);
            mark_filter(filter, marks);
            mark_statements(handler, marks)
        }
        Stmt::TryFinally {
            body,
            finally_block,
            ..
        } => {
            mark_statements(body, marks);
            mark_statements(finally_block, marks)
        }
        _ => unreachable!(),
    }
}

/// Whether there is a `__try` among statements.
#[cycle(hold)]
pub fn hold_try(stmts: &[Stmt]) -> bool
    ensures { result ≡ spec.hold_try (statements.statements (map statements.statement stmts.now)) }
{
    for stmt in stmts {
        if holds_try(stmt) {
            return true;
        }
    }
    false
}

#[cycle(hold)]
fn holds_try(stmt: &Stmt) -> bool
    ensures { result ≡ spec.holds_try (statements.statement stmt.now) }
{
    match stmt {
        Stmt::Block(stmts) => hold_try(stmts),
        Stmt::If {
            then,
            otherwise: None,
            ..
        } => holds_try(then),
        Stmt::If {
            then,
            otherwise: Some(otherwise),
            ..
        } => holds_try(then) || holds_try(otherwise),
        Stmt::For { body, .. } => holds_try(body),
        Stmt::Do { body, .. } => holds_try(body),
        Stmt::TryExcept { .. } => true,
        Stmt::TryFinally { .. } => true,
        Stmt::Declare(_) => false,
        Stmt::Evaluate(_) => false,
        Stmt::Return(_) => false,
        Stmt::Break => false,
        Stmt::Continue => false,
        Stmt::Leave => false,
    }
}
