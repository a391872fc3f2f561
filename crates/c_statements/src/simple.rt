//! Statements that hold no other statement.

ghost use Rattle.std.specs.Prelude.{IfOk, List, option_map};
ghost use Rattle.c_locals.specs.Views.{environment, numbering};
ghost use Rattle.c_resolved.specs.Scopes.{Scope};
ghost use Rattle.c_resolved.specs.Statements.{resolve_statement};
ghost use Rattle.c_statements.specs.Made.{MakesOne};
ghost use Rattle.c_syntax.specs.Expression.{expression};
ghost use Rattle.c_syntax.specs.Statement as trees;

use crate::build::{break_of, continue_of, evaluate_of, leave_of, return_of};
use c_checked::statement::Stmt;
use c_expressions::symbol_table::SymbolTable;
use c_locals::environment::{Environment, FunctionState, jump};
use c_locals::evaluated::{any_or_none, returned};
use c_resolved::fault::Fault;
use c_syntax::expression::Expr;
use std::alloc::{AllocError, Global};

/// An expression, or nothing (C11, 6.8.3).
pub fn evaluated<'t>(
    alloc: Global,
    env: &Environment<'t>,
    names: &SymbolTable<'t>,
    state: &mut FunctionState,
    e: &Option<Expr>,
) -> Result<Stmt, AllocError>
    ensures { IfOk result (λ s. MakesOne names.now.block state.old state.new s
        (resolve_statement (trees.Evaluate (option_map expression e.now)) (environment env.now
        names.now.around) names.now.block (numbering state.old))) }
{
    let value = any_or_none(alloc, env, names, &mut state.faults, e)?;
    Ok(evaluate_of(value))
}

/// A `return` (C11, 6.8.6.4).
pub fn return_from<'t>(
    alloc: Global,
    env: &Environment<'t>,
    names: &SymbolTable<'t>,
    state: &mut FunctionState,
    at: u64,
    e: &Option<Expr>,
) -> Result<Stmt, AllocError>
    ensures { IfOk result (λ s. MakesOne names.now.block state.old state.new s
        (resolve_statement (trees.Return at (option_map expression e.now)) (environment env.now
        names.now.around) names.now.block (numbering state.old))) }
{
    jump(&mut state.faults, env.function, Fault::JumpOutOfFinally, at);
    let value = returned(alloc, env, names, &mut state.faults, at, e)?;
    Ok(return_of(value))
}

/// A `break` (C11, 6.8.6.3).
pub fn break_from(env: &Environment<'_>, state: &mut FunctionState, at: u64) -> Stmt
    ensures { (around : List Scope) → (block : Scope) →
        MakesOne block state.old state.new result (resolve_statement (trees.Break at)
        (environment env.now around) block (numbering state.old)) }
{
    jump(&mut state.faults, env.loops, Fault::JumpOutsideLoop, at);
    break_of()
}

/// A `continue` (C11, 6.8.6.2).
pub fn continue_from(env: &Environment<'_>, state: &mut FunctionState, at: u64) -> Stmt
    ensures { (around : List Scope) → (block : Scope) →
        MakesOne block state.old state.new result (resolve_statement (trees.Continue at)
        (environment env.now around) block (numbering state.old)) }
{
    jump(&mut state.faults, env.loops, Fault::JumpOutsideLoop, at);
    continue_of()
}

/// A `__leave` (Microsoft C reference, "try-finally statement").
pub fn leave_from(env: &Environment<'_>, state: &mut FunctionState, at: u64) -> Stmt
    ensures { (around : List Scope) → (block : Scope) →
        MakesOne block state.old state.new result (resolve_statement (trees.Leave at)
        (environment env.now around) block (numbering state.old)) }
{
    jump(&mut state.faults, env.body, Fault::LeaveOutsideTry, at);
    leave_of()
}
