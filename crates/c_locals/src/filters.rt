//! The expression of an `__except` (Microsoft C reference, "try-except statement").

ghost use Rattle.std.specs.Prelude.{◌≡◌, IfOk, OnOk, option_map};
ghost use Rattle.c_checked.specs.Expression.{expression as checked};
ghost use Rattle.c_checked.specs.Statement.{filter};
ghost use Rattle.c_resolved.specs.Statements as definitions;
ghost use Rattle.c_resolved.specs.Statements.{with_number};
ghost use Rattle.c_expressions.specs.Kept.{AddsFaults};
ghost use Rattle.c_expressions.specs.Views.{entity};
ghost use Rattle.c_locals.specs.Values.{Evaluates, ResolvesFilter, filter_with, number_after};
ghost use Rattle.c_locals.specs.Views.{environment, numbering, filter_resolved_in};
ghost use Rattle.c_syntax.specs.Expression.{expression, start};
ghost use Rattle.c_types.specs.Views.{FindsTyped};

use crate::environment::{Environment, FunctionState, context, filter_context};
use c_checked::expression::Expr as Checked;
use c_checked::statement::Filter;
use c_expressions::context::named;
use c_expressions::expressions::resolve;
use c_expressions::least::LeastFault;
use c_expressions::scopes::Entity;
use c_expressions::symbol_table::SymbolTable;
use c_expressions::values::to_answer;
use c_syntax::expression::{Expr, Identifier, Literal};
use c_types::typed::TypedNode;
use std::alloc::{AllocError, Global};

/// Whether a literal is the number 1.
fn is_one(literal: Literal) -> bool
    ensures { result ≡ definitions.is_one literal }
{
    match literal {
        Literal::Integer { value, .. } => value == 1,
        Literal::CharacterConstant(_) => false,
    }
}

/// Whether a name means EXCEPTION_EXECUTE_HANDLER.
fn is_accepting(meaning: Option<Entity<'_>>) -> bool
    ensures { result ≡ definitions.is_accepting (option_map entity meaning.entry) }
{
    match meaning {
        Some(Entity::BuiltInConstant(value)) => value == 1,
        _ => false,
    }
}

/// Whether a name means EXCEPTION_EXECUTE_HANDLER in a block.
fn names_accepting<'t>(env: &Environment<'t>, names: &SymbolTable<'t>, name: Identifier) -> bool
    ensures { result ≡ definitions.is_accepting
        (definitions.entity_at (environment env.now names.now.around) names.now.block name) }
{
    is_accepting(named(&context(env, names), name))
}

/// Whether a filter is a literal 1 or the accepting constant, parentheses aside.
pub fn always<'t>(env: &Environment<'t>, names: &SymbolTable<'t>, e: &Expr) -> bool
    ensures { result ≡ definitions.always (environment env.now names.now.around) names.now.block
        (expression e.now) }
{
    match e {
        Expr::Literal { literal, .. } => is_one(*literal),
        Expr::Variable(name) => names_accepting(env, names, *name),
        Expr::Parentheses { inner, .. } => always(env, names, inner),
        _ => false,
    }
}

/// The type and the node of a filter's expression in a block.
fn resolved_at<'t>(
    alloc: Global,
    env: &Environment<'t>,
    names: &SymbolTable<'t>,
    faults: &mut LeastFault,
    e: &Expr,
) -> Result<Option<TypedNode>, AllocError>
    ensures found { IfOk result (λ r. FindsTyped r
        (filter_resolved_in env.now names.now e.now).found) }
    ensures faults { OnOk result (AddsFaults faults.old faults.new
        (filter_resolved_in env.now names.now e.now).faults) }
{
    resolve(alloc, &filter_context(env, names), faults, e)
}

/// The answer of a filter's expression.
fn answer<'t>(
    alloc: Global,
    env: &Environment<'t>,
    names: &SymbolTable<'t>,
    faults: &mut LeastFault,
    e: &Expr,
) -> Result<Checked, AllocError>
    ensures { IfOk result (λ r. Evaluates faults.old faults.new r
        (definitions.to_answer (start (expression e.now))
        (filter_resolved_in env.now names.now e.now))) }
{
    let found = resolved_at(alloc, env, names, faults, e)?;
    Ok(to_answer(faults, e.start(), found))
}

/// The answer of a filter, or none where it is always EXCEPTION_EXECUTE_HANDLER.
pub fn filter_value<'t>(
    alloc: Global,
    env: &Environment<'t>,
    names: &SymbolTable<'t>,
    faults: &mut LeastFault,
    e: &Expr,
) -> Result<Option<Checked>, AllocError>
    ensures { IfOk result (λ r. ResolvesFilter faults.old faults.new r
        (definitions.resolve_filter (environment env.now names.now.around) names.now.block
        (expression e.now))) }
{
    if always(env, names, e) {
        return Ok(None);
    }
    Ok(Some(answer(alloc, env, names, faults, e)?))
}

/// The filter of an `__except` by its answer, which has the next number.
pub fn numbered(state: &mut FunctionState, answer: Option<Checked>) -> Result<Filter, AllocError>
    ensures filter { IfOk result (λ f. filter f ≡ filter_with state.old.number
        (option_map checked answer)) }
    ensures counts { OnOk result (numbering state.new ≡ with_number (numbering state.old)
        (number_after state.old.number (option_map checked answer))) }
    ensures faults { state.new.faults ≡ state.old.faults }
{
    match answer {
        None => Ok(Filter::Always),
        Some(value) => match state.next_number() {
            Ok(number) => Ok(Filter::Funclet { number, value }),
            Err(failed) => {
                drop(value);
                Err(failed)
            }
        },
    }
}
