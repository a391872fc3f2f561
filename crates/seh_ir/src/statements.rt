//! The code of statements.

ghost use Rattle.std.specs.Prelude.{◌≡◌, ℕ, List, ◌-◌, [], ◌∷◌, map, length, true, false, OnOk, option_map};
ghost use Rattle.linear_code.specs.declared.instruction.Instruction.TheVariants.{Separator};
ghost use Rattle.c_checked.specs.Expression as tree;
ghost use Rattle.c_checked.specs.Statement as statements;
ghost use Rattle.lowering_sizes.specs.Kinds.{is_block_or_if, is_simple};
ghost use Rattle.lowering_sizes.specs.Parts as measured;
ghost use Rattle.lowering_expressions.specs.Appended.{Appends, Places};
ghost use Rattle.seh_ir.specs.Measured.{PlacesBySizes, part, block};
ghost use Rattle.seh_ir.specs.Statements as spec;

use crate::data_stack::reset;
use crate::declarations::{declare, declare_all};
use c_checked::expression::Expr;
use c_checked::statement::{Declared, Stmt};
use linear_code::instruction::Instruction;
use linear_code::slot::Slot;
use lowering_expressions::expressions::expression;
use lowering_expressions::instructions::{ahead, constant, put, put_all};
use lowering_expressions::pieces::{skip, test};
use lowering_expressions::scope::{
    LoweringContext, Names, Way, in_except, in_guarded, in_loop, in_try,
};
use lowering_sizes::measured::{measure_all, next_size};
use lowering_sizes::sizes::expression_size;
use lowering_sizes::statement_sizes::{condition_size, discarded_size};
use lowering_sizes::sums::sum;
use std::alloc::{AllocError, Global};

fn here(code: &Vec<Instruction>) -> u64
    ensures { result ≡ length code.now.items }
{
    code.len() as u64
}

/// The first instruction to where `break`, `continue` or `return` lead.
fn jump_first(way: Way) -> Instruction
    ensures { result ∷ Separator ∷ [] ≡ spec.jump_code way }
{
    match way {
        Way::Nowhere => Instruction::Separator,
        Way::Jumps(label) => Instruction::Jump { label },
        Way::Unwinds(label) => Instruction::LocalUnwind { label },
    }
}

/// Two instructions to where `break`, `continue` or `return` lead.
fn jump(code: &mut Vec<Instruction>, way: Way) -> Result<(), AllocError>
    ensures { OnOk result (Appends code.old code.new (spec.jump_code way)) }
{
    put_all(code, &[jump_first(way), Instruction::Separator])
}

fn leave(label: Option<u64>) -> Instruction
    ensures { result ≡ spec.leave_code label }
{
    match label {
        None => Instruction::Separator,
        Some(label) => Instruction::Jump { label },
    }
}

/// An expression whose value isn't used.
fn discarded(
    code: &mut Vec<Instruction>,
    names: Names,
    expr: &Option<Expr>,
) -> Result<(), AllocError>
    ensures { OnOk result (Places code.old code.new
        (spec.discarded_code names (option_map tree.expression expr.now))) }
{
    match expr {
        None => Ok(()),
        Some(e) => {
            expression(code, names, e, 0)?;
            put(code, Instruction::Separator)
        }
    }
}

fn returned(
    code: &mut Vec<Instruction>,
    names: Names,
    expr: &Option<Expr>,
) -> Result<(), AllocError>
    ensures { OnOk result (Places code.old code.new
        (spec.returned_code names (option_map tree.expression expr.now))) }
{
    match expr {
        None => put(code, constant(0, 0)),
        Some(e) => expression(code, names, e, 0),
    }
}

/// A `return`, which leads to the function's exit with its number in the first temporary.
fn leave_function(
    code: &mut Vec<Instruction>,
    scope: &LoweringContext,
    expr: &Option<Expr>,
) -> Result<(), AllocError>
    ensures { OnOk result (Places code.old code.new
        (spec.statement_code scope.now (statements.Return (option_map tree.expression expr.now)))) }
{
    returned(code, scope.names, expr)?;
    jump(code, scope.exit)
}

/// A condition, and a jump where it is 0.
fn tested(
    code: &mut Vec<Instruction>,
    names: Names,
    expr: &Option<Expr>,
    label: u64,
) -> Result<(), AllocError>
    ensures { OnOk result (Places code.old code.new
        (spec.condition_code names (option_map tree.expression expr.now) label)) }
{
    match expr {
        None => Ok(()),
        Some(e) => {
            expression(code, names, e, 0)?;
            let slot = Slot::Temporary(0);
            put(code, Instruction::JumpIfZero { slot, label })
        }
    }
}

/// The call of a `__finally` block at the normal end of its body.
fn call_finally(code: &mut Vec<Instruction>, number: u32) -> Result<(), AllocError>
    ensures { OnOk result (Appends code.old code.new (spec.finally_called (number - 1))) }
{
    let call = Instruction::CallFinally {
        funclet: number.saturating_sub(1) as u64,
    };
    put_all(
        code,
        &[Instruction::Separator, call, Instruction::Separator],
    )
}

/// The end of the body of a `__try`, with the beginning of its `__except` block.
fn land(code: &mut Vec<Instruction>, names: Names, end: u64) -> Result<(), AllocError>
    ensures { OnOk result (Appends code.old code.new (spec.landed names.part end names.free)) }
{
    let landing = Instruction::Landing {
        to: Slot::Local(names.free),
    };
    put_all(
        code,
        &[Instruction::Jump { label: end }, landing, reset(names.part)],
    )
}

/// The end of a `do`: its condition was evaluated. A `break` leads to the separator.
fn end_do(code: &mut Vec<Instruction>, end: u64, begin: u64) -> Result<(), AllocError>
    ensures { OnOk result (Appends code.old code.new (spec.repeated end begin)) }
{
    let ends = Instruction::JumpIfZero {
        slot: Slot::Temporary(0),
        label: end,
    };
    let again = Instruction::Jump { label: begin };
    put_all(code, &[ends, again, Instruction::Separator])
}

/// A statement without statements in it.
fn simple(
    code: &mut Vec<Instruction>,
    scope: &LoweringContext,
    stmt: &Stmt,
) -> Result<(), AllocError>
    requires { is_simple (statements.statement stmt.now) ≡ true }
    ensures code { OnOk result (Places code.old code.new
        (spec.statement_code scope.now (statements.statement stmt.now))) }
    ensures parts { (rest : List ℕ) → measured.with_parts (statements.statement stmt.now) rest
        ≡ rest }
{
    match stmt {
        Stmt::Declare(declared) => declare(code, scope.names, declared),
        Stmt::Evaluate(expr) => discarded(code, scope.names, expr),
        Stmt::Return(expr) => leave_function(code, scope, expr),
        Stmt::Break => jump(code, scope.loop_end),
        Stmt::Continue => jump(code, scope.loop_next),
        Stmt::Leave => put(code, leave(scope.leave)),
        _ => unreachable!(),
    }
}

/// Statements, one after another.
pub fn statements(
    alloc: Global,
    code: &mut Vec<Instruction>,
    scope: &LoweringContext,
    stmts: &[Stmt],
) -> Result<(), AllocError>
    ensures { OnOk result (Places code.old code.new
        (spec.statements_code scope.now
        (statements.statements (map statements.statement stmts.now)))) }
{
    let mut sizes = Vec::new(alloc);
    measure_all(stmts, &mut sizes)?;
    statements_by_size(code, scope, &mut sizes, stmts)
}

/// Statements, one after another, with the sizes of their parts.
#[cycle(statements)]
fn statements_by_size(
    code: &mut Vec<Instruction>,
    scope: &LoweringContext,
    sizes: &mut Vec<u64>,
    stmts: &[Stmt],
) -> Result<(), AllocError>
    ensures { OnOk result (PlacesBySizes sizes.old sizes.new
        (measured.with_all_parts (statements.statements (map statements.statement stmts.now)))
        code.old code.new (spec.statements_code scope.now
        (statements.statements (map statements.statement stmts.now)))) }
{
    for stmt in stmts {
        statement(code, scope, sizes, stmt)?;
    }
    Ok(())
}

/// A condition, and a statement with a jump over it, and so many instructions more, where it is 0.
#[cycle(statements)]
fn when(
    code: &mut Vec<Instruction>,
    scope: &LoweringContext,
    sizes: &mut Vec<u64>,
    then: &Stmt,
    condition: &Expr,
    more: u64,
) -> Result<(), AllocError>
    ensures { OnOk result (PlacesBySizes sizes.old sizes.new
        (part (statements.statement then.now)) code.old code.new
        (spec.when_code scope.now (tree.expression condition.now)
        (statements.statement then.now) more)) }
{
    let size = next_size(sizes);
    expression(code, scope.names, condition, 0)?;
    test(code, 0, size, more)?;
    statement(code, scope, sizes, then)
}

#[cycle(statements)]
fn for_loop(
    code: &mut Vec<Instruction>,
    scope: &LoweringContext,
    sizes: &mut Vec<u64>,
    body: &Stmt,
    declared: &[Declared],
    first: &Option<Expr>,
    condition: &Option<Expr>,
    next: &Option<Expr>,
) -> Result<(), AllocError>
    ensures { OnOk result (PlacesBySizes sizes.old sizes.new
        (part (statements.statement body.now)) code.old code.new
        (spec.statement_code scope.now
        (statements.For (map statements.declared declared.now)
        (option_map tree.expression first.now)
        (option_map tree.expression condition.now)
        (option_map tree.expression next.now) (statements.statement body.now)))) }
{
    let size = next_size(sizes);
    let turn = sum(condition_size(condition)?, size)?;
    let last = sum(discarded_size(next)?, 2)?;
    declare_all(code, scope.names, declared)?;
    discarded(code, scope.names, first)?;
    let iteration = here(code);
    let again = ahead(code, turn)?;
    let end = sum(again, last)?;
    tested(code, scope.names, condition, end)?;
    statement(code, &in_loop(end, again, scope), sizes, body)?;
    put(code, Instruction::Separator)?;
    discarded(code, scope.names, next)?;
    put_all(
        code,
        &[
            Instruction::Jump { label: iteration },
            Instruction::Separator,
        ],
    )
}

#[cycle(statements)]
fn do_loop(
    code: &mut Vec<Instruction>,
    scope: &LoweringContext,
    sizes: &mut Vec<u64>,
    body: &Stmt,
    condition: &Expr,
) -> Result<(), AllocError>
    ensures { OnOk result (PlacesBySizes sizes.old sizes.new
        (part (statements.statement body.now)) code.old code.new
        (spec.statement_code scope.now
        (statements.DoWhile (statements.statement body.now)
        (tree.expression condition.now)))) }
{
    let size = next_size(sizes);
    let last = sum(expression_size(condition)?, 3)?;
    let begin = here(code);
    let again = ahead(code, size)?;
    let end = sum(again, last)?;
    statement(code, &in_loop(end, again, scope), sizes, body)?;
    put(code, Instruction::Separator)?;
    expression(code, scope.names, condition, 0)?;
    end_do(code, end, begin)
}

/// The body of a `__try` whose `__except` block has this size, with the beginning of that block.
#[cycle(statements)]
fn tried(
    code: &mut Vec<Instruction>,
    scope: &LoweringContext,
    sizes: &mut Vec<u64>,
    body: &[Stmt],
    handler: u64,
) -> Result<(), AllocError>
    ensures { OnOk result (PlacesBySizes sizes.old sizes.new
        (block (statements.statements (map statements.statement body.now))) code.old code.new
        (spec.tried_code scope.now
        (statements.statements (map statements.statement body.now)) handler)) }
{
    let size = next_size(sizes);
    let both = sum(size, sum(handler, 3)?)?;
    let end = ahead(code, both)?;
    statements_by_size(code, &in_try(end, scope), sizes, body)?;
    land(code, scope.names, end)
}

/// A `__try` with a `__finally` block, whatever is in that block.
#[cycle(statements)]
fn try_finally(
    code: &mut Vec<Instruction>,
    scope: &LoweringContext,
    sizes: &mut Vec<u64>,
    body: &[Stmt],
    number: u32,
) -> Result<(), AllocError>
    ensures { OnOk result (PlacesBySizes sizes.old sizes.new
        (block (statements.statements (map statements.statement body.now))) code.old code.new
        (spec.statement_code scope.now
        (statements.TryFinally (statements.statements (map statements.statement body.now))
        number statements.Empty))) }
{
    let size = next_size(sizes);
    let end = ahead(code, size)?;
    statements_by_size(code, &in_guarded(end, scope), sizes, body)?;
    call_finally(code, number)
}

/// A statement other than a block and an `if`.
#[cycle(statements)]
fn other_statement(
    code: &mut Vec<Instruction>,
    scope: &LoweringContext,
    sizes: &mut Vec<u64>,
    stmt: &Stmt,
) -> Result<(), AllocError>
    requires { is_block_or_if (statements.statement stmt.now) ≡ false }
    ensures { OnOk result (PlacesBySizes sizes.old sizes.new
        (measured.with_parts (statements.statement stmt.now)) code.old code.new
        (spec.statement_code scope.now (statements.statement stmt.now))) }
{
    match stmt {
        Stmt::For {
            declared,
            first,
            condition,
            next,
            body,
        } => for_loop(code, scope, sizes, body, declared, first, condition, next),
        Stmt::Do { body, condition } => do_loop(code, scope, sizes, body, condition),
        Stmt::TryExcept { body, handler, .. } => {
            let inner = in_except(scope)?;
            let size = next_size(sizes);
            tried(code, scope, sizes, body, size)?;
            statements_by_size(code, &inner, sizes, handler)
        }
        Stmt::TryFinally { body, number, .. } => try_finally(code, scope, sizes, body, *number),
        _ => simple(code, scope, stmt),
    }
}

#[cycle(statements)]
fn statement(
    code: &mut Vec<Instruction>,
    scope: &LoweringContext,
    sizes: &mut Vec<u64>,
    stmt: &Stmt,
) -> Result<(), AllocError>
    ensures { OnOk result (PlacesBySizes sizes.old sizes.new
        (measured.with_parts (statements.statement stmt.now)) code.old code.new
        (spec.statement_code scope.now (statements.statement stmt.now))) }
{
    match stmt {
        Stmt::Block(stmts) => statements_by_size(code, scope, sizes, stmts),
        Stmt::If {
            condition,
            then,
            otherwise,
        } => match otherwise {
            None => when(code, scope, sizes, then, condition, 1),
            Some(other) => {
                let more = next_size(sizes);
                when(code, scope, sizes, then, condition, 2)?;
                skip(code, more, 2)?;
                statement(code, scope, sizes, other)?;
                skip(code, 0, 1)
            }
        },
        _ => other_statement(code, scope, sizes, stmt),
    }
}
