//! Statements with their variables where these stand.

ghost use Rattle.std.specs.Prelude.{◌≡◌, true, map, option_map};
ghost use Rattle.c_checked.specs.Expression as tree;
ghost use Rattle.c_checked.specs.Statement as statements;
ghost use Rattle.c_resolved.specs.Placed as spec;
ghost use Rattle.c_stacked.specs.Kinds.{is_simple, is_block_or_if, is_loop, is_try};
ghost use Rattle.c_stacked.specs.Views.{layout};

use crate::layout::Layout;
use crate::placed::place_expression;
use c_checked::expression::Expr;
use c_checked::statement::{Declared, Filter, StackedVariable, Stmt};
use std::mem;

fn place_optional(places: &Layout, expr: Option<Expr>) -> Option<Expr>
    ensures { option_map tree.expression result ≡
        spec.place_optional (layout places.now) (option_map tree.expression expr) }
{
    match expr {
        Some(mut expr) => {
            place_expression(places, &mut expr);
            Some(expr)
        }
        None => None,
    }
}

/// Where the variable of a number stands on the data stack, if it does.
fn stacked(places: &Layout, number: u64) -> Option<StackedVariable>
    ensures { result ≡ spec.stacked_at places.now.base (spec.place_of (layout places.now) number) }
{
    match places.place_of(number) {
        None => None,
        Some(place) => Some(StackedVariable {
            base: places.base,
            width: place.access.width,
            offset: place.offset,
            elements: place.elements,
        }),
    }
}

fn place_declared(places: &Layout, declared: &mut Declared)
    ensures { statements.declared declared.new ≡
        spec.place_declared (layout places.now) (statements.declared declared.old) }
{
    declared.stacked = stacked(places, declared.local);
    let value = mem::replace(&mut declared.value, None);
    declared.value = place_optional(places, value);
}

fn place_all_declared(places: &Layout, declared: &mut [Declared])
    ensures { map statements.declared declared.new ≡
        spec.place_all_declared (layout places.now) (map statements.declared declared.old) }
{
    for one in declared.iter_mut() {
        place_declared(places, one);
    }
}

fn place_filter(places: &Layout, filter: Filter) -> Filter
    ensures { statements.filter result ≡
        spec.place_filter (layout places.now) (statements.filter filter) }
{
    match filter {
        Filter::Always => Filter::Always,
        Filter::Funclet { number, mut value } => {
            place_expression(places, &mut value);
            Filter::Funclet { number, value }
        }
    }
}

#[cycle(place)]
pub fn place_statements(places: &Layout, stmts: &mut [Stmt])
    ensures { statements.statements (map statements.statement stmts.new) ≡ spec.place_statements
        (layout places.now) (statements.statements (map statements.statement stmts.old)) }
{
    for stmt in stmts.iter_mut() {
        place_statement(places, stmt);
    }
}

#[cycle(place)]
fn place_statement(places: &Layout, stmt: &mut Stmt)
    ensures { statements.statement stmt.new ≡
        spec.place_statement (layout places.now) (statements.statement stmt.old) }
{
    match stmt {
        Stmt::Declare(_) | Stmt::Evaluate(_) | Stmt::Return(_) => place_simple(places, stmt),
        Stmt::Block(_) | Stmt::If { .. } => place_block_or_if(places, stmt),
        Stmt::For { .. } | Stmt::Do { .. } => place_loop(places, stmt),
        Stmt::TryExcept { .. } | Stmt::TryFinally { .. } => place_try(places, stmt),
        Stmt::Break => {}
        Stmt::Continue => {}
        Stmt::Leave => {}
    }
}

/// A declared local, an expression (C11, 6.8.3) or a `return` (C11, 6.8.6.4).
fn place_simple(places: &Layout, stmt: &mut Stmt)
    requires { is_simple (statements.statement stmt.old) ≡ true }
    ensures { statements.statement stmt.new ≡
        spec.place_statement (layout places.now) (statements.statement stmt.old) }
{
    let taken = mem::replace(stmt, Stmt::Break);
    *stmt = match taken {
        Stmt::Declare(mut declared) => {
            place_declared(places, &mut declared);
            Stmt::Declare(declared)
        }
        Stmt::Evaluate(expr) => Stmt::Evaluate(place_optional(places, expr)),
        Stmt::Return(expr) => Stmt::Return(place_optional(places, expr)),
        _ => unreachable!(),
    };
}

/// A block (C11, 6.8.2) or an `if` (C11, 6.8.4.1).
#[cycle(place)]
fn place_block_or_if(places: &Layout, stmt: &mut Stmt)
    requires { is_block_or_if (statements.statement stmt.old) ≡ true }
    ensures { statements.statement stmt.new ≡
        spec.place_statement (layout places.now) (statements.statement stmt.old) }
{
    let taken = mem::replace(stmt, Stmt::Break);
    *stmt = match taken {
        Stmt::Block(mut stmts) => {
            place_statements(places, &mut stmts);
            Stmt::Block(stmts)
        }
        Stmt::If {
            mut condition,
            mut then,
            otherwise,
        } => {
            place_expression(places, &mut condition);
            place_statement(places, &mut then);
            Stmt::If {
                condition,
                then,
                otherwise: placed_otherwise(places, otherwise),
            }
        }
        _ => unreachable!(),
    };
}

/// An `else` branch, if there is one.
#[cycle(place)]
fn placed_otherwise(places: &Layout, otherwise: Option<Box<Stmt>>) -> Option<Box<Stmt>>
    ensures { option_map (λ b. statements.statement b.value) result ≡ option_map
        (λ b. spec.place_statement (layout places.now) (statements.statement b.value)) otherwise }
{
    match otherwise {
        Some(mut stmt) => {
            place_statement(places, &mut stmt);
            Some(stmt)
        }
        None => None,
    }
}

/// A loop (C11, 6.8.5).
#[cycle(place)]
fn place_loop(places: &Layout, stmt: &mut Stmt)
    requires { is_loop (statements.statement stmt.old) ≡ true }
    ensures { statements.statement stmt.new ≡
        spec.place_statement (layout places.now) (statements.statement stmt.old) }
{
    let taken = mem::replace(stmt, Stmt::Break);
    *stmt = match taken {
        Stmt::For {
            mut declared,
            first,
            condition,
            next,
            mut body,
        } => {
            place_all_declared(places, &mut declared);
            place_statement(places, &mut body);
            Stmt::For {
                declared,
                first: place_optional(places, first),
                condition: place_optional(places, condition),
                next: place_optional(places, next),
                body,
            }
        }
        Stmt::Do {
            mut body,
            mut condition,
        } => {
            place_statement(places, &mut body);
            place_expression(places, &mut condition);
            Stmt::Do { body, condition }
        }
        _ => unreachable!(),
    };
}

/// A `__try`.
#[cycle(place)]
fn place_try(places: &Layout, stmt: &mut Stmt)
    requires { is_try (statements.statement stmt.old) ≡ true }
    ensures { statements.statement stmt.new ≡
        spec.place_statement (layout places.now) (statements.statement stmt.old) }
{
    let taken = mem::replace(stmt, Stmt::Break);
    *stmt = match taken {
        Stmt::TryExcept {
            mut body,
            filter,
            mut handler,
        } => {
            place_statements(places, &mut body);
            place_statements(places, &mut handler);
            Stmt::TryExcept {
                body,
                filter: place_filter(places, filter),
                handler,
            }
        }
        Stmt::TryFinally {
            mut body,
            number,
            mut finally_block,
        } => {
            place_statements(places, &mut body);
            place_statements(places, &mut finally_block);
            Stmt::TryFinally {
                body,
                number,
                finally_block,
            }
        }
        _ => unreachable!(),
    };
}
