//! The values of a statement's expressions.

ghost use Rattle.std.specs.Prelude.{◌++◌, IfOk, OnOk, Some, option_map};
ghost use Rattle.c_resolved.specs.Statements.{names_at};
ghost use Rattle.c_resolved.specs.Expressions.{fault_at};
ghost use Rattle.c_resolved.specs.Statements as definitions;
ghost use Rattle.c_expressions.specs.Kept.{AddsFaults};
ghost use Rattle.c_locals.specs.Values.{Evaluates, MayEvaluate};
ghost use Rattle.c_locals.specs.Views.{environment, resolved_in, optional_in};
ghost use Rattle.c_syntax.specs.Expression.{expression, start};
ghost use Rattle.c_types.specs.Views.{FindsTyped};

use crate::environment::{Environment, context};
use c_checked::expression::Expr as Checked;
use c_expressions::expressions::resolve;
use c_expressions::least::LeastFault;
use c_expressions::symbol_table::SymbolTable;
use c_expressions::values;
use c_resolved::fault::Fault;
use c_syntax::expression::{CType, Expr};
use c_types::typed::TypedNode;
use c_types::types::is_void;
use std::alloc::{AllocError, Global};

/// The type and the node of an expression in a block.
fn resolved_at<'t>(
    alloc: Global,
    env: &Environment<'t>,
    names: &SymbolTable<'t>,
    faults: &mut LeastFault,
    e: &Expr,
) -> Result<Option<TypedNode>, AllocError>
    ensures found { IfOk result (λ r. FindsTyped r
        (resolved_in env.now names.now e.now).found) }
    ensures faults { OnOk result (AddsFaults faults.old faults.new
        (resolved_in env.now names.now e.now).faults) }
{
    resolve(alloc, &context(env, names), faults, e)
}

/// Any value, or none.
pub fn any<'t>(
    alloc: Global,
    env: &Environment<'t>,
    names: &SymbolTable<'t>,
    faults: &mut LeastFault,
    e: &Expr,
) -> Result<Checked, AllocError>
    ensures { IfOk result (λ r. Evaluates faults.old faults.new r
        (definitions.any (resolved_in env.now names.now e.now))) }
{
    let found = resolved_at(alloc, env, names, faults, e)?;
    Ok(values::any(faults, found))
}

/// A condition: an integer or a pointer, else a fault at the keyword.
pub fn condition<'t>(
    alloc: Global,
    env: &Environment<'t>,
    names: &SymbolTable<'t>,
    faults: &mut LeastFault,
    at: u64,
    e: &Expr,
) -> Result<Checked, AllocError>
    ensures { IfOk result (λ r. Evaluates faults.old faults.new r
        (definitions.condition at (resolved_in env.now names.now e.now))) }
{
    let found = resolved_at(alloc, env, names, faults, e)?;
    Ok(values::condition(faults, at, found))
}

/// A value that is converted to a type, else a fault at its first token.
pub fn to_type<'t>(
    alloc: Global,
    env: &Environment<'t>,
    names: &SymbolTable<'t>,
    faults: &mut LeastFault,
    t: CType,
    e: &Expr,
) -> Result<Checked, AllocError>
    ensures { IfOk result (λ r. Evaluates faults.old faults.new r
        (definitions.to_type t (start (expression e.now))
        (resolved_in env.now names.now e.now))) }
{
    let found = resolved_at(alloc, env, names, faults, e)?;
    Ok(values::to_type(faults, t, e.start(), found))
}

/// Any value where there is an expression.
pub fn any_or_none<'t>(
    alloc: Global,
    env: &Environment<'t>,
    names: &SymbolTable<'t>,
    faults: &mut LeastFault,
    e: &Option<Expr>,
) -> Result<Option<Checked>, AllocError>
    ensures { IfOk result (λ r. MayEvaluate faults.old faults.new r
        (optional_in (λ x. definitions.any) env.now names.now e.now)) }
{
    match e {
        None => Ok(None),
        Some(e) => Ok(Some(any(alloc, env, names, faults, e)?)),
    }
}

/// A condition where there is an expression.
pub fn condition_or_none<'t>(
    alloc: Global,
    env: &Environment<'t>,
    names: &SymbolTable<'t>,
    faults: &mut LeastFault,
    at: u64,
    e: &Option<Expr>,
) -> Result<Option<Checked>, AllocError>
    ensures { IfOk result (λ r. MayEvaluate faults.old faults.new r
        (optional_in (λ x. definitions.condition at) env.now names.now e.now)) }
{
    match e {
        None => Ok(None),
        Some(e) => Ok(Some(condition(alloc, env, names, faults, at, e)?)),
    }
}

/// A value that is converted to a type, where there is an expression.
pub fn to_type_or_none<'t>(
    alloc: Global,
    env: &Environment<'t>,
    names: &SymbolTable<'t>,
    faults: &mut LeastFault,
    t: CType,
    e: &Option<Expr>,
) -> Result<Option<Checked>, AllocError>
    ensures { IfOk result (λ r. MayEvaluate faults.old faults.new r
        (optional_in (λ x. definitions.to_type t (start x)) env.now names.now e.now)) }
{
    match e {
        None => Ok(None),
        Some(e) => Ok(Some(to_type(alloc, env, names, faults, t, e)?)),
    }
}

/// The faults of the initialiser of an array, which has none (C11, 6.7.9).
pub fn refused_initialiser<'t>(
    alloc: Global,
    env: &Environment<'t>,
    names: &SymbolTable<'t>,
    faults: &mut LeastFault,
    e: &Option<Expr>,
) -> Result<(), AllocError>
    ensures { OnOk result (AddsFaults faults.old faults.new
        (definitions.without_initialiser (names_at (environment env.now names.now.around)
        names.now.block) (option_map expression e.now)).faults) }
{
    match e {
        None => Ok(()),
        Some(e) => {
            let at = e.start();
            refused_value(alloc, env, names, faults, at, Fault::BadInitialiser, e)
        }
    }
}

/// The value of a `return`: of the function's type, and none where that is void (C11, 6.8.6.4 p1).
pub fn returned<'t>(
    alloc: Global,
    env: &Environment<'t>,
    names: &SymbolTable<'t>,
    faults: &mut LeastFault,
    at: u64,
    e: &Option<Expr>,
) -> Result<Option<Checked>, AllocError>
    ensures { IfOk result (λ r. MayEvaluate faults.old faults.new r
        (definitions.returned (environment env.now names.now.around) names.now.block at
        (option_map expression e.now))) }
{
    match e {
        None => {
            values::unless_holds(faults, is_void(env.returns), at, Fault::TypeClash);
            Ok(None)
        }
        Some(e) => returned_value(alloc, env, names, faults, at, e),
    }
}

/// The value of a `return` that has one.
fn returned_value<'t>(
    alloc: Global,
    env: &Environment<'t>,
    names: &SymbolTable<'t>,
    faults: &mut LeastFault,
    at: u64,
    e: &Expr,
) -> Result<Option<Checked>, AllocError>
    ensures { IfOk result (λ r. MayEvaluate faults.old faults.new r
        (definitions.returned (environment env.now names.now.around) names.now.block at
        (Some (expression e.now)))) }
{
    if is_void(env.returns) {
        refused_value(alloc, env, names, faults, at, Fault::TypeClash, e)?;
        return Ok(None);
    }
    Ok(Some(to_type(alloc, env, names, faults, env.returns, e)?))
}

/// The faults of a value that may not be there.
fn refused_value<'t>(
    alloc: Global,
    env: &Environment<'t>,
    names: &SymbolTable<'t>,
    faults: &mut LeastFault,
    at: u64,
    fault: Fault,
    e: &Expr,
) -> Result<(), AllocError>
    ensures { OnOk result (AddsFaults faults.old faults.new
        ((resolved_in env.now names.now e.now).faults ++ fault_at at fault)) }
{
    drop(resolved_at(alloc, env, names, faults, e)?);
    faults.add(at, fault);
    Ok(())
}
