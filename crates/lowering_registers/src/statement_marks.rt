//! Marks of the locals that statements name, of those that their filters and `__finally` blocks
//! name, and of those of variables on the data stack.

ghost use Rattle.std.specs.Prelude.{◌≡◌, map, option_map, true};
ghost use Rattle.c_checked.specs.Expression as tree;
ghost use Rattle.c_checked.specs.Statement as statements;
ghost use Rattle.lowering_sizes.specs.Kinds.{is_loop_or_try, is_try};
ghost use Rattle.lowering_registers.specs.Marks as spec;

use crate::expression_marks::{mark, mark_expression};
use c_checked::expression::Expr;
use c_checked::statement::{Declared, Filter, StackedVariable, Stmt};

fn mark_optional(marks: &mut Vec<bool>, expr: &Option<Expr>)
    ensures { marks.new.items ≡ spec.with_optional (option_map tree.expression expr.now)
        marks.old.items }
{
    match expr {
        None => (),
        Some(e) => mark_expression(marks, e),
    }
}

/// Marks the base of a variable on the data stack.
fn mark_base(marks: &mut Vec<bool>, variable: Option<StackedVariable>)
    ensures { marks.new.items ≡ spec.with_base variable marks.old.items }
{
    match variable {
        None => (),
        Some(place) => mark(marks, place.base),
    }
}

fn mark_declared(marks: &mut Vec<bool>, declared: &Declared)
    ensures { marks.new.items ≡ spec.with_declared (statements.declared declared.now)
        marks.old.items }
{
    mark(marks, declared.local);
    mark_base(marks, declared.stacked);
    mark_optional(marks, &declared.value);
}

fn mark_all_declared(marks: &mut Vec<bool>, declared: &[Declared])
    ensures { marks.new.items ≡ spec.with_all_declared (map statements.declared declared.now)
        marks.old.items }
{
    for one in declared {
        mark_declared(marks, one);
    }
}

fn mark_filter(marks: &mut Vec<bool>, filter: &Filter)
    ensures { marks.new.items ≡ spec.with_filter (statements.filter filter.now) marks.old.items }
{
    match filter {
        Filter::Always => (),
        Filter::Funclet { value, .. } => mark_expression(marks, value),
    }
}

/// Marks the locals that statements name.
#[cycle(naming)]
fn mark_statements(marks: &mut Vec<bool>, stmts: &[Stmt])
    ensures { marks.new.items ≡ spec.with_statements
        (statements.statements (map statements.statement stmts.now)) marks.old.items }
{
    for stmt in stmts {
        mark_statement(marks, stmt);
    }
}

#[cycle(naming)]
fn mark_statement(marks: &mut Vec<bool>, stmt: &Stmt)
    ensures { marks.new.items ≡ spec.with_statement (statements.statement stmt.now)
        marks.old.items }
{
    match stmt {
        Stmt::Declare(declared) => mark_declared(marks, declared),
        Stmt::Block(stmts) => mark_statements(marks, stmts),
        Stmt::Evaluate(expr) => mark_optional(marks, expr),
        Stmt::If {
            condition,
            then,
            otherwise: None,
        } => {
            mark_expression(marks, condition);
            mark_statement(marks, then)
        }
        Stmt::If {
            condition,
            then,
            otherwise: Some(otherwise),
        } => {
            mark_expression(marks, condition);
            mark_statement(marks, then);
            mark_statement(marks, otherwise)
        }
        Stmt::Return(expr) => mark_optional(marks, expr),
        Stmt::Break => (),
        Stmt::Continue => (),
        Stmt::Leave => (),
        _ => mark_loop_or_try(marks, stmt),
    }
}

/// Marks the locals that a loop (C11, 6.8.5) or a `__try` names.
#[cycle(naming)]
fn mark_loop_or_try(marks: &mut Vec<bool>, stmt: &Stmt)
    requires { is_loop_or_try (statements.statement stmt.now) ≡ true }
    ensures { marks.new.items ≡ spec.with_statement (statements.statement stmt.now)
        marks.old.items }
{
    match stmt {
        Stmt::For {
            declared,
            first,
            condition,
            next,
            body,
        } => {
            mark_all_declared(marks, declared);
            mark_optional(marks, first);
            mark_optional(marks, condition);
            mark_optional(marks, next);
            mark_statement(marks, body)
        }
        Stmt::Do { body, condition } => {
            mark_statement(marks, body);
            mark_expression(marks, condition)
        }
        Stmt::TryExcept {
            body,
            filter,
            handler,
        } => {
            mark_statements(marks, body);
            mark_filter(marks, filter);
            mark_statements(marks, handler)
        }
        Stmt::TryFinally {
            body,
            finally_block,
            ..
        } => {
            mark_statements(marks, body);
            mark_statements(marks, finally_block)
        }
        _ => unreachable!(),
    }
}

/// Marks the local of a variable that is declared on the data stack.
fn mark_stacked(marks: &mut Vec<bool>, declared: &Declared)
    ensures { marks.new.items ≡ spec.with_stacked (statements.declared declared.now)
        marks.old.items }
{
    match declared.stacked {
        None => (),
        Some(_) => mark(marks, declared.local),
    }
}

fn mark_all_stacked(marks: &mut Vec<bool>, declared: &[Declared])
    ensures { marks.new.items ≡ spec.with_all_stacked (map statements.declared declared.now)
        marks.old.items }
{
    for one in declared {
        mark_stacked(marks, one);
    }
}

/// Marks the locals that filters and `__finally` blocks of statements name, and those of variables
/// on the data stack.
#[cycle(sharing)]
pub fn mark_all_shared(marks: &mut Vec<bool>, stmts: &[Stmt])
    ensures { marks.new.items ≡ spec.with_all_shared
        (statements.statements (map statements.statement stmts.now)) marks.old.items }
{
    for stmt in stmts {
        mark_shared(marks, stmt);
    }
}

#[cycle(sharing)]
fn mark_shared(marks: &mut Vec<bool>, stmt: &Stmt)
    ensures { marks.new.items ≡ spec.with_shared (statements.statement stmt.now)
        marks.old.items }
{
    match stmt {
        Stmt::Declare(declared) => mark_stacked(marks, declared),
        Stmt::Block(stmts) => mark_all_shared(marks, stmts),
        Stmt::Evaluate(_) => (),
        Stmt::If {
            then,
            otherwise: None,
            ..
        } => mark_shared(marks, then),
        Stmt::If {
            then,
            otherwise: Some(otherwise),
            ..
        } => {
            mark_shared(marks, then);
            mark_shared(marks, otherwise)
        }
        Stmt::For { declared, body, .. } => {
            mark_all_stacked(marks, declared);
            mark_shared(marks, body)
        }
        Stmt::Do { body, .. } => mark_shared(marks, body),
        Stmt::Return(_) => (),
        Stmt::Break => (),
        Stmt::Continue => (),
        Stmt::Leave => (),
        _ => mark_shared_of_try(marks, stmt),
    }
}

/// Marks the locals that filters and `__finally` blocks of a `__try` name, its own among them.
#[cycle(sharing)]
fn mark_shared_of_try(marks: &mut Vec<bool>, stmt: &Stmt)
    requires { is_try (statements.statement stmt.now) ≡ true }
    ensures { marks.new.items ≡ spec.with_shared (statements.statement stmt.now)
        marks.old.items }
{
    match stmt {
        Stmt::TryExcept {
            body,
            filter,
            handler,
        } => {
            mark_all_shared(marks, body);
            mark_filter(marks, filter);
            mark_all_shared(marks, handler)
        }
        Stmt::TryFinally {
            body,
            finally_block,
            ..
        } => {
            mark_all_shared(marks, body);
            mark_statements(marks, finally_block)
        }
        _ => unreachable!(),
    }
}
