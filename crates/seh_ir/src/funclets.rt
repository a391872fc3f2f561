//! Filters and `__finally` blocks.

ghost use Rattle.std.specs.Prelude.{◌≡◌, ◌-◌, map, true, OnOk, IfOk};
ghost use Rattle.linear_code.specs.Program.{linear_funclet};
ghost use Rattle.c_checked.specs.Expression as tree;
ghost use Rattle.c_checked.specs.Statement as statements;
ghost use Rattle.lowering_sizes.specs.Kinds.{is_try};
ghost use Rattle.lowering_expressions.specs.Appended.{AppendsFunclets};
ghost use Rattle.seh_ir.specs.Funclets as spec;

use crate::bodies::body_with;
use crate::data_stack::begin_finally;
use crate::regions::statements_regions;
use crate::statements::statements;
use c_checked::expression::Expr;
use c_checked::statement::{Filter, Stmt};
use linear_code::instruction::Instruction;
use linear_code::program::{FuncletKind, IrFunclet};
use linear_code::slot::Slot;
use lowering_expressions::expressions::expression;
use lowering_expressions::scope::{Names, except_names, filter_names, finally_scope};
use std::alloc::{AllocError, Global};

/// The function that funclets belong to, with the locals of its activations, and the funclet whose
/// body has their regions.
#[derive(Clone, Copy)]
pub struct Owner {
    /// The function's number.
    pub function: u64,
    /// How many locals an activation of it has, parameters, codes and flags among them.
    pub locals: u64,
    /// The number of the funclet whose body has the regions, or None where the function's has them.
    pub parent: Option<u64>,
}

/// A filter, with these names in it.
fn filter_funclet(
    alloc: Global,
    owner: Owner,
    names: Names,
    value: &Expr,
) -> Result<IrFunclet, AllocError>
    ensures { IfOk result (λ f. linear_funclet f ≡
        spec.filter_funclet owner names (tree.expression value.now)) }
{
    let mut code = Vec::new(alloc);
    expression(&mut code, names, value, 0)?;
    code.push(Instruction::Return {
        from: Slot::Temporary(0),
    })?;
    let body = body_with(owner.locals, code, Vec::new(alloc), Vec::new(alloc))?;
    Ok(IrFunclet {
        kind: FuncletKind::Filter,
        function: owner.function,
        parent: owner.parent,
        body,
    })
}

/// A `__finally` block, with these names around it.
fn finally_funclet(
    alloc: Global,
    owner: Owner,
    names: Names,
    finally_block: &[Stmt],
) -> Result<IrFunclet, AllocError>
    ensures { IfOk result (λ f. linear_funclet f ≡
        spec.finally_funclet owner names
        (statements.statements (map statements.statement finally_block.now))) }
{
    let scope = finally_scope(names)?;
    let mut code = Vec::new(alloc);
    begin_finally(&mut code, names)?;
    statements(alloc, &mut code, &scope, finally_block)?;
    code.push(Instruction::Return {
        from: Slot::Local(names.free),
    })?;
    let mut regions = Vec::new(alloc);
    statements_regions(&mut regions, finally_block, 3)?;
    let body = body_with(owner.locals, code, regions, Vec::new(alloc))?;
    Ok(IrFunclet {
        kind: FuncletKind::Finally { flag: names.free },
        function: owner.function,
        parent: owner.parent,
        body,
    })
}

fn filter_funclets(
    funclets: &mut Vec<IrFunclet>,
    alloc: Global,
    owner: Owner,
    names: Names,
    filter: &Filter,
) -> Result<(), AllocError>
    ensures { OnOk result (AppendsFunclets funclets.old funclets.new
        (spec.filter_funclets owner names (statements.filter filter.now))) }
{
    match filter {
        Filter::Always => Ok(()),
        Filter::Funclet { value, .. } => {
            let funclet = filter_funclet(alloc, owner, names, value)?;
            funclets.push(funclet)?;
            Ok(())
        }
    }
}

/// Those that regions in the body of a funclet have.
fn in_funclet(number: u32, owner: Owner) -> Owner
    ensures { result ≡ spec.in_funclet (number - 1) owner }
{
    Owner {
        function: owner.function,
        locals: owner.locals,
        parent: Some(number.saturating_sub(1) as u64),
    }
}

/// Those of statements, in the order of their numbers.
#[cycle(funclets)]
pub fn statements_funclets(
    funclets: &mut Vec<IrFunclet>,
    alloc: Global,
    owner: Owner,
    names: Names,
    stmts: &[Stmt],
) -> Result<(), AllocError>
    ensures { OnOk result (AppendsFunclets funclets.old funclets.new
        (spec.statements_funclets owner names
        (statements.statements (map statements.statement stmts.now)))) }
{
    for stmt in stmts {
        statement_funclets(funclets, alloc, owner, names, stmt)?;
    }
    Ok(())
}

/// Those of a `__try`: of its body, its own, and those of its block.
#[cycle(funclets)]
fn try_funclets(
    funclets: &mut Vec<IrFunclet>,
    alloc: Global,
    owner: Owner,
    names: Names,
    stmt: &Stmt,
) -> Result<(), AllocError>
    requires { is_try (statements.statement stmt.now) ≡ true }
    ensures { OnOk result (AppendsFunclets funclets.old funclets.new
        (spec.statement_funclets owner names (statements.statement stmt.now))) }
{
    match stmt {
        Stmt::TryExcept {
            body,
            filter,
            handler,
        } => {
            let inner = except_names(names)?;
            statements_funclets(funclets, alloc, owner, names, body)?;
            filter_funclets(funclets, alloc, owner, filter_names(names), filter)?;
            statements_funclets(funclets, alloc, owner, inner, handler)
        }
        Stmt::TryFinally {
            body,
            number,
            finally_block,
        } => {
            let inner = finally_scope(names)?.names;
            statements_funclets(funclets, alloc, owner, names, body)?;
            let funclet = finally_funclet(alloc, owner, names, finally_block)?;
            funclets.push(funclet)?;
            statements_funclets(
                funclets,
                alloc,
                in_funclet(*number, owner),
                inner,
                finally_block,
            )
        }
        _ => unreachable!(),
    }
}

#[cycle(funclets)]
fn statement_funclets(
    funclets: &mut Vec<IrFunclet>,
    alloc: Global,
    owner: Owner,
    names: Names,
    stmt: &Stmt,
) -> Result<(), AllocError>
    ensures { OnOk result (AppendsFunclets funclets.old funclets.new
        (spec.statement_funclets owner names (statements.statement stmt.now))) }
{
    match stmt {
        Stmt::Declare(_) => Ok(()),
        Stmt::Block(stmts) => statements_funclets(funclets, alloc, owner, names, stmts),
        Stmt::Evaluate(_) => Ok(()),
        Stmt::If {
            then,
            otherwise: None,
            ..
        } => { statement_funclets(funclets, alloc, owner, names, then) }
        Stmt::If {
            then,
            otherwise: Some(otherwise),
            ..
        } => {
            statement_funclets(funclets, alloc, owner, names, then)?;
            statement_funclets(funclets, alloc, owner, names, otherwise)
        }
        Stmt::For { body, .. } => statement_funclets(funclets, alloc, owner, names, body),
        Stmt::Do { body, .. } => statement_funclets(funclets, alloc, owner, names, body),
        Stmt::Return(_) => Ok(()),
        Stmt::Break => Ok(()),
        Stmt::Continue => Ok(()),
        Stmt::Leave => Ok(()),
        _ => try_funclets(funclets, alloc, owner, names, stmt),
    }
}
