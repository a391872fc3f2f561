//! Statements, and what is in blocks.

ghost use Rattle.std.specs.Prelude.{◌≡◌, [], ◌∷◌, IfOk, OnOk, map, option_map, true};
ghost use Rattle.c_checked.specs.Statement as checked;
ghost use Rattle.c_expressions.specs.SymbolTables.{names_around};
ghost use Rattle.c_locals.specs.WalkResults.{Resolves};
ghost use Rattle.c_locals.specs.Views.{environment, numbering, resolved_in};
ghost use Rattle.c_resolved.specs.Program.{around};
ghost use Rattle.c_resolved.specs.Statements as definitions;
ghost use Rattle.c_resolved.specs.Statements.{resolve_statement, resolve_statements};
ghost use Rattle.c_statements.specs.Kinds.{has_parts, is_loop_or_try, is_try};
ghost use Rattle.c_statements.specs.Made.{MakesPart, MakesBlock, MakesOne, MakesConditionAndBody, resolved};
ghost use Rattle.c_statements.specs.Made.{resolved_inside};
ghost use Rattle.c_syntax.specs.Expression.{expression};
ghost use Rattle.c_syntax.specs.Statement as trees;
ghost use Rattle.c_syntax.specs.Statement.{statement, statements};

use crate::build::{
    block_of, do_of, except_of, finally_of, for_of, if_else_of, if_of, one, only, while_of,
};
use crate::simple::{break_from, continue_from, evaluated, leave_from, return_from};
use c_checked::expression::Expr as CheckedExpr;
use c_checked::statement::Stmt as Checked;
use c_expressions::symbol_table::SymbolTable;
use c_locals::declarations::{declare_all, for_initialiser};
use c_locals::environment::{
    Environment, FunctionState, Reach, in_body, in_finally, in_handler, in_loop,
};
use c_locals::evaluated::{any_or_none, condition, condition_or_none};
use c_locals::filters::{filter_value, numbered};
use c_syntax::expression::{CType, Expr};
use c_syntax::statement::{ForInitialiser, Stmt};
use std::alloc::{AllocError, Global};

/// A statement that is a part of another one, as a block of its own (C11, 6.8.4 p3 and 6.8.5 p5).
#[cycle(nested)]
fn part<'t>(
    alloc: Global,
    env: &Environment<'t>,
    names: &mut SymbolTable<'t>,
    state: &mut FunctionState,
    s: &Stmt,
) -> Result<Box<Checked>, AllocError>
    ensures { IfOk result (λ m. MakesPart names.old names.new state.old state.new m.value
        (resolved_inside s.now env.now names.old state.old)) }
{
    names.open(alloc)?;
    let made = statement(alloc, env, names, state, s)?;
    names.close();
    Ok(Box::new(alloc, only(made))?)
}

/// The statements of a block within another statement.
#[cycle(nested)]
fn items<'t>(
    alloc: Global,
    env: &Environment<'t>,
    names: &mut SymbolTable<'t>,
    state: &mut FunctionState,
    list: &[Stmt],
) -> Result<Vec<Checked>, AllocError>
    ensures { IfOk result (λ v. MakesBlock names.old names.new state.old state.new v.items
        (resolve_statements (statements (map statement list.now))
        (environment env.now (names.old.block ∷ names.old.around)) [] (numbering state.old))) }
{
    names.open(alloc)?;
    let made = statements(alloc, env, names, state, list)?;
    names.close();
    Ok(made)
}

/// A condition in a block, and the statement that it governs, which is further inside.
#[cycle(nested)]
fn condition_and_body<'t>(
    alloc: Global,
    env: &Environment<'t>,
    inner: &Environment<'t>,
    names: &mut SymbolTable<'t>,
    state: &mut FunctionState,
    s: &Stmt,
    at: u64,
    e: &Expr,
) -> Result<(CheckedExpr, Box<Checked>), AllocError>
    ensures { IfOk result (λ x. MakesConditionAndBody names.old names.new state.old state.new
        x.0 x.1.value (definitions.condition at (resolved_in env.now names.old e.now))
        (resolved_inside s.now inner.now names.old state.old)) }
{
    let value = condition(alloc, env, names, &mut state.faults, at, e)?;
    match part(alloc, inner, names, state, s) {
        Ok(made) => Ok((value, made)),
        Err(failed) => {
            drop(value);
            Err(failed)
        }
    }
}

/// A `for` (C11, 6.8.5.3).
#[cycle(nested)]
fn for_loop<'t>(
    alloc: Global,
    env: &Environment<'t>,
    names: &mut SymbolTable<'t>,
    state: &mut FunctionState,
    body: &Stmt,
    at: u64,
    first: &ForInitialiser,
    condition: &Option<Expr>,
    next: &Option<Expr>,
) -> Result<Checked, AllocError>
    ensures names { OnOk result (names.new ≡ names.old) }
    ensures made { IfOk result (λ m. MakesOne names.old.block state.old state.new m
        (resolve_statement (trees.For at (trees.first first.now)
        (option_map expression condition.now) (option_map expression next.now) (statement body.now))
        (environment env.now names.old.around) names.old.block (numbering state.old))) }
{
    names.open(alloc)?;
    let beginning = for_initialiser(alloc, env, first, names, state)?;
    match condition_or_none(alloc, env, names, &mut state.faults, at, condition) {
        Err(failed) => {
            drop(beginning);
            Err(failed)
        }
        Ok(value) => match any_or_none(alloc, env, names, &mut state.faults, next) {
            Err(failed) => {
                drop(beginning);
                drop(value);
                Err(failed)
            }
            Ok(after) => match part(alloc, &in_loop(env), names, state, body) {
                Err(failed) => {
                    drop(beginning);
                    drop(value);
                    drop(after);
                    Err(failed)
                }
                Ok(made) => {
                    names.close();
                    Ok(for_of(beginning, value, after, made))
                }
            },
        },
    }
}

/// A `__try` of a block.
#[cycle(nested)]
fn try_statement<'t>(
    alloc: Global,
    env: &Environment<'t>,
    names: &mut SymbolTable<'t>,
    state: &mut FunctionState,
    s: &Stmt,
) -> Result<Vec<Checked>, AllocError>
    requires { is_try (statement s.now) ≡ true }
    ensures { IfOk result (λ v. Resolves names.old names.new state.old state.new
        (map checked.statement v.items) (resolved s.now env.now names.old state.old)) }
{
    match s {
        Stmt::TryExcept {
            body,
            filter,
            handler,
            ..
        } => {
            let answer = filter_value(alloc, env, names, &mut state.faults, filter)?;
            match items(alloc, &in_body(env), names, state, body) {
                Err(failed) => {
                    drop(answer);
                    Err(failed)
                }
                Ok(body) => {
                    let filter = numbered(state, answer)?;
                    match items(alloc, &in_handler(env), names, state, handler) {
                        Err(failed) => {
                            drop(filter);
                            Err(failed)
                        }
                        Ok(handler) => one(alloc, except_of(body, filter, handler)),
                    }
                }
            }
        }
        Stmt::TryFinally {
            body,
            finally_block,
            ..
        } => {
            let body = items(alloc, &in_body(env), names, state, body)?;
            let number = state.next_number()?;
            let finally_block = items(alloc, &in_finally(env), names, state, finally_block)?;
            one(alloc, finally_of(body, number, finally_block))
        }
        _ => unreachable!(),
    }
}

/// A `while`, a `do` or a `__try` of a block.
#[cycle(nested)]
fn loop_or_try<'t>(
    alloc: Global,
    env: &Environment<'t>,
    names: &mut SymbolTable<'t>,
    state: &mut FunctionState,
    s: &Stmt,
) -> Result<Vec<Checked>, AllocError>
    requires { is_loop_or_try (statement s.now) ≡ true }
    ensures { IfOk result (λ v. Resolves names.old names.new state.old state.new
        (map checked.statement v.items) (resolved s.now env.now names.old state.old)) }
{
    match s {
        Stmt::While {
            at,
            condition,
            body,
        } => {
            let inner = in_loop(env);
            let (value, body) = condition_and_body(
                alloc, env, &inner, names, state, body, *at, condition,
            )?;
            one(alloc, while_of(alloc, value, body))
        }
        Stmt::Do {
            body,
            at,
            condition,
        } => {
            let inner = in_loop(env);
            let (value, body) = condition_and_body(
                alloc, env, &inner, names, state, body, *at, condition,
            )?;
            one(alloc, do_of(body, value))
        }
        _ => try_statement(alloc, env, names, state, s),
    }
}

/// An `if`, a `while`, a `do` or a `__try` of a block.
#[cycle(nested)]
fn with_parts<'t>(
    alloc: Global,
    env: &Environment<'t>,
    names: &mut SymbolTable<'t>,
    state: &mut FunctionState,
    s: &Stmt,
) -> Result<Vec<Checked>, AllocError>
    requires { has_parts (statement s.now) ≡ true }
    ensures { IfOk result (λ v. Resolves names.old names.new state.old state.new
        (map checked.statement v.items) (resolved s.now env.now names.old state.old)) }
{
    match s {
        Stmt::If {
            at,
            condition,
            then,
            otherwise,
        } => {
            let (value, then) = condition_and_body(
                alloc, env, env, names, state, then, *at, condition,
            )?;
            match otherwise {
                None => one(alloc, if_of(value, then)),
                Some(otherwise) => match part(alloc, env, names, state, otherwise) {
                    Ok(otherwise) => one(alloc, if_else_of(value, then, otherwise)),
                    Err(failed) => {
                        drop(value);
                        Err(failed)
                    }
                },
            }
        }
        _ => loop_or_try(alloc, env, names, state, s),
    }
}

/// A statement or a declaration of a block.
#[cycle(nested)]
fn statement<'t>(
    alloc: Global,
    env: &Environment<'t>,
    names: &mut SymbolTable<'t>,
    state: &mut FunctionState,
    s: &Stmt,
) -> Result<Vec<Checked>, AllocError>
    ensures { IfOk result (λ v. Resolves names.old names.new state.old state.new
        (map checked.statement v.items) (resolved s.now env.now names.old state.old)) }
{
    match s {
        Stmt::Declaration(d) => declare_all(alloc, env, d.base, &d.locals, names, state),
        Stmt::Block(list) => one(alloc, block_of(items(alloc, env, names, state, list)?)),
        Stmt::Expression(e) => one(alloc, evaluated(alloc, env, names, state, e)?),
        Stmt::For {
            at,
            first,
            condition,
            next,
            body,
        } => {
            let made = for_loop(alloc, env, names, state, body, *at, first, condition, next)?;
            one(alloc, made)
        }
        Stmt::Return { at, value } => one(
            alloc,
            return_from(alloc, env, names, state, *at, value)?,
        ),
        Stmt::Break { at } => one(alloc, break_from(env, state, *at)),
        Stmt::Continue { at } => one(alloc, continue_from(env, state, *at)),
        Stmt::Leave { at } => one(alloc, leave_from(env, state, *at)),
        _ => with_parts(alloc, env, names, state, s),
    }
}

/// The statements and declarations of a block, one after another.
#[cycle(nested)]
fn statements<'t>(
    alloc: Global,
    env: &Environment<'t>,
    names: &mut SymbolTable<'t>,
    state: &mut FunctionState,
    list: &[Stmt],
) -> Result<Vec<Checked>, AllocError>
    ensures { IfOk result (λ v. Resolves names.old names.new state.old state.new
        (map checked.statement v.items)
        (resolve_statements (statements (map statement list.now)) (environment env.now
        names.old.around) names.old.block (numbering state.old))) }
{
    let mut made = Vec::new(alloc);
    for s in list {
        let mut more = statement(alloc, env, names, state, s)?;
        made.append(&mut more)?;
    }
    Ok(made)
}

/// The body of a function, whose parameters are in the innermost block already.
pub fn body<'t>(
    alloc: Global,
    text: &'t [u8],
    returns: CType,
    names: &mut SymbolTable<'t>,
    state: &mut FunctionState,
    list: &[Stmt],
) -> Result<Vec<Checked>, AllocError>
    ensures { IfOk result (λ v. Resolves names.old names.new state.old state.new
        (map checked.statement v.items)
        (resolve_statements (statements (map statement list.now))
        (around text.now (names_around names.old.around) returns)
        names.old.block (numbering state.old))) }
{
    let env = Environment {
        text,
        returns,
        loops: Reach::Nowhere,
        body: Reach::Nowhere,
        function: Reach::Near,
        code: false,
        abnormal: false,
    };
    statements(alloc, &env, names, state, list)
}
