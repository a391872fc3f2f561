//! The cold parts of a function.

ghost use Rattle.std.specs.Prelude.{◌≡◌, ◌+◌, ◌++◌, map, option_map, OnOk, IfOk};
ghost use Rattle.c_checked.specs.Expression as tree;
ghost use Rattle.c_checked.specs.Statement as statements;
ghost use Rattle.lowering_sizes.specs.Sizes.{statement_size, statements_size};
ghost use Rattle.seh_ir.specs.ColdParts as spec;

use crate::regions::{after_condition, shifted};
use c_checked::expression::{Expr, Lvalue, Node};
use c_checked::statement::{Declared, Stmt};
use linear_code::program::LabelRange;
use lowering_sizes::measured::measure;
use lowering_sizes::sizes::expression_size;
use lowering_sizes::statement_sizes::{all_declared_size, condition_size, discarded_size};
use lowering_sizes::sums::sum;
use std::alloc::{AllocError, Global};

/// Whether an expression holds a call.
#[cycle(calls)]
fn calls(expr: &Expr) -> bool
    ensures { result ≡ spec.calls (tree.expression expr.now) }
{
    node_calls(&expr.node)
}

#[cycle(calls)]
fn place_calls(place: &Lvalue) -> bool
    ensures { result ≡ spec.place_calls (tree.lvalue place.now) }
{
    match place {
        Lvalue::Local(_) => false,
        Lvalue::Global { .. } => false,
        Lvalue::Stacked { .. } => false,
        Lvalue::Indirection { pointer, .. } => calls(pointer),
        Lvalue::Element { array, index, .. } => calls(array) || calls(index),
    }
}

#[cycle(calls)]
fn node_calls(node: &Node) -> bool
    ensures { result ≡ spec.node_calls (tree.node node.now) }
{
    match node {
        Node::Constant { .. } => false,
        Node::StackedArray { .. } => false,
        Node::Read(place) => place_calls(place),
        Node::AddressOf(place) => place_calls(place),
        Node::Assign { target, value } => place_calls(target) || calls(value),
        Node::CompoundAssign { target, value, .. } => place_calls(target) || calls(value),
        Node::Increment { target, .. } => place_calls(target),
        Node::Unary { operand, .. } => calls(operand),
        Node::Binary { left, right, .. } => calls(left) || calls(right),
        Node::PointerDifference { left, right, .. } => calls(left) || calls(right),
        Node::Not(operand) => calls(operand),
        Node::And(left, right) => calls(left) || calls(right),
        Node::Or(left, right) => calls(left) || calls(right),
        Node::Conditional { condition, yes, no } => calls(condition) || (calls(yes) || calls(no)),
        Node::Comma(left, right) => calls(left) || calls(right),
        Node::Call { .. } => true,
        Node::CallBuiltIn { .. } => true,
        Node::ExceptionCode => false,
        Node::Information(_) => false,
        Node::AbnormalTermination => false,
    }
}

fn optional_calls(expr: &Option<Expr>) -> bool
    ensures { result ≡ spec.optional_calls (option_map tree.expression expr.now) }
{
    match expr {
        None => false,
        Some(e) => calls(e),
    }
}

/// Whether the initialiser of a declared local holds a call. An array has none.
fn declared_call(one: &Declared) -> bool
    ensures { result ≡ spec.declared_at_calls (statements.declared one.now).stacked
        (statements.declared one.now).value }
{
    if let Some(variable) = one.stacked {
        if variable.elements.is_some() {
            return false;
        }
    }
    optional_calls(&one.value)
}

fn declared_calls(declared: &[Declared]) -> bool
    ensures { result ≡ spec.declared_calls (map statements.declared declared.now) }
{
    for one in declared {
        if declared_call(one) {
            return true;
        }
    }
    false
}

/// Whether statements hold a call outside of any `__try`.
#[cycle(statement_calls)]
fn statements_call(stmts: &[Stmt]) -> bool
    ensures { result ≡
        spec.statements_call (statements.statements (map statements.statement stmts.now)) }
{
    for stmt in stmts {
        if statement_calls(stmt) {
            return true;
        }
    }
    false
}

#[cycle(statement_calls)]
fn statement_calls(stmt: &Stmt) -> bool
    ensures { result ≡ spec.statement_calls (statements.statement stmt.now) }
{
    match stmt {
        Stmt::Declare(declared) => declared_call(declared),
        Stmt::Block(stmts) => statements_call(stmts),
        Stmt::Evaluate(expr) => optional_calls(expr),
        Stmt::If {
            condition,
            then,
            otherwise: None,
        } => calls(condition) || statement_calls(then),
        Stmt::If {
            condition,
            then,
            otherwise: Some(otherwise),
        } => calls(condition) || (statement_calls(then) || statement_calls(otherwise)),
        Stmt::For {
            declared,
            first,
            condition,
            next,
            body,
        } => {
            let begins = declared_calls(declared) || optional_calls(first);
            let turns = optional_calls(condition) || optional_calls(next);
            begins || (turns || statement_calls(body))
        }
        Stmt::Do { body, condition } => statement_calls(body) || calls(condition),
        Stmt::Return(expr) => optional_calls(expr),
        Stmt::Break => false,
        Stmt::Continue => false,
        Stmt::Leave => false,
        Stmt::TryExcept { .. } => false,
        Stmt::TryFinally { .. } => false,
    }
}

/// Whether statements hold a `__try`.
#[cycle(tries)]
fn statements_try(stmts: &[Stmt]) -> bool
    ensures { result ≡
        spec.statements_try (statements.statements (map statements.statement stmts.now)) }
{
    for stmt in stmts {
        if statement_tries(stmt) {
            return true;
        }
    }
    false
}

#[cycle(tries)]
fn statement_tries(stmt: &Stmt) -> bool
    ensures { result ≡ spec.statement_tries (statements.statement stmt.now) }
{
    match stmt {
        Stmt::Declare(_) => false,
        Stmt::Block(stmts) => statements_try(stmts),
        Stmt::Evaluate(_) => false,
        Stmt::If {
            then,
            otherwise: None,
            ..
        } => statement_tries(then),
        Stmt::If {
            then,
            otherwise: Some(otherwise),
            ..
        } => statement_tries(then) || statement_tries(otherwise),
        Stmt::For { body, .. } => statement_tries(body),
        Stmt::Do { body, .. } => statement_tries(body),
        Stmt::Return(_) => false,
        Stmt::Break => false,
        Stmt::Continue => false,
        Stmt::Leave => false,
        Stmt::TryExcept { .. } => true,
        Stmt::TryFinally { .. } => true,
    }
}

/// Whether a statement is cold where it is an `else` branch.
fn is_cold(stmt: &Stmt) -> bool
    ensures { result ≡ spec.is_cold (statements.statement stmt.now) }
{
    statement_calls(stmt) && !statement_tries(stmt)
}

/// Those of statements that are placed at an instruction, and the place after the statements.
#[cycle(cold)]
pub fn statements_cold(
    cold: &mut Vec<LabelRange>,
    alloc: Global,
    stmts: &[Stmt],
    at: u64,
) -> Result<u64, AllocError>
    ensures cold { OnOk result (cold.new.items ≡ cold.old.items ++
        spec.statements_cold (statements.statements (map statements.statement stmts.now)) at) }
    ensures end { IfOk result (λ n. n ≡ at + statements_size
        (statements.statements (map statements.statement stmts.now))) }
{
    let mut place = at;
    for stmt in stmts {
        let next = statement_cold(cold, alloc, stmt, place)?;
        place = next;
    }
    Ok(place)
}

/// Those of an `else` branch, with the jump after it: the whole of it where it is cold.
#[cycle(cold)]
fn branch_cold(
    cold: &mut Vec<LabelRange>,
    alloc: Global,
    branch: &Stmt,
    at: u64,
) -> Result<u64, AllocError>
    ensures cold { OnOk result (cold.new.items ≡ cold.old.items ++
        spec.branch_cold (statements.statement branch.now) at) }
    ensures end { IfOk result (λ n. n ≡ at + statement_size (statements.statement branch.now) + 1) }
{
    if is_cold(branch) {
        let end = shifted(at, measure(branch, &mut Vec::new(alloc))?, 1)?;
        cold.push(LabelRange { begin: at, end })?;
        Ok(end)
    } else {
        let end = statement_cold(cold, alloc, branch, at)?;
        sum(end, 1)
    }
}

/// Those of a statement that is placed at an instruction, and the place after it.
#[cycle(cold)]
fn statement_cold(
    cold: &mut Vec<LabelRange>,
    alloc: Global,
    stmt: &Stmt,
    at: u64,
) -> Result<u64, AllocError>
    ensures cold { OnOk result (cold.new.items ≡ cold.old.items ++
        spec.statement_cold (statements.statement stmt.now) at) }
    ensures end { IfOk result (λ n. n ≡ at + statement_size (statements.statement stmt.now)) }
{
    match stmt {
        Stmt::Block(stmts) => statements_cold(cold, alloc, stmts, at),
        Stmt::If {
            condition,
            then,
            otherwise: None,
        } => {
            let first = after_condition(at, condition)?;
            statement_cold(cold, alloc, then, first)
        }
        Stmt::If {
            condition,
            then,
            otherwise: Some(otherwise),
        } => {
            let first = after_condition(at, condition)?;
            let second = sum(statement_cold(cold, alloc, then, first)?, 1)?;
            branch_cold(cold, alloc, otherwise, second)
        }
        Stmt::For {
            declared,
            first,
            condition,
            next,
            body,
        } => {
            let begun = shifted(at, all_declared_size(declared)?, discarded_size(first)?)?;
            let place = sum(begun, condition_size(condition)?)?;
            let again = statement_cold(cold, alloc, body, place)?;
            shifted(again, discarded_size(next)?, 3)
        }
        Stmt::Do { body, condition } => {
            let again = statement_cold(cold, alloc, body, at)?;
            shifted(again, expression_size(condition)?, 4)
        }
        _ => sum(at, measure(stmt, &mut Vec::new(alloc))?),
    }
}
