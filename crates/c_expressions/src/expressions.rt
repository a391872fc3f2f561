//! Expressions: the type and the node of each, or the rules that it breaks.

ghost use Rattle.std.specs.Prelude.{◌≡◌, ◌≤◌, true, IfOk, OnOk, length, option_map};
ghost use Rattle.c_resolved.specs.Expressions.{faults_of};
ghost use Rattle.c_syntax.specs.Expression.{expression};
ghost use Rattle.c_expressions.specs.Calls.{passed_of, resolved_all, AddsCall, FindsCall};
ghost use Rattle.c_expressions.specs.Handlers.{AddsNaming, FindsNaming, called_naming, named_by};
ghost use Rattle.c_expressions.specs.Kept.{AddsFaults};
ghost use Rattle.c_expressions.specs.Resolved.{all_passed, called, called_with, resolved};
ghost use Rattle.c_expressions.specs.Resolved.{resolved_with};
ghost use Rattle.c_expressions.specs.Rules.{has_prefix_or_several, has_several, is_special};
ghost use Rattle.c_expressions.specs.Rules.{is_handler_function};
ghost use Rattle.c_expressions.specs.Rules.{is_conditional_or_assignment, FindsByRule, Adds};
ghost use Rattle.c_expressions.specs.Views.{entity, names_of};
ghost use Rattle.c_types.specs.Views.{FindsTyped};

use crate::calls::{
    abnormal_call, built_in_call, code_call, no_arguments, only_where, pass, same_count, user_call,
    want_at, with_one,
};
use crate::context::{Context, named};
use crate::handlers::{
    NamingCall, adding_call, handler_at, has_one_more, name_of, naming, no_handler, removing_call,
};
use crate::least::LeastFault;
use crate::places::{assign, place_of, step, unary};
use crate::primary::{information, literal, name};
use crate::rules::{self, TwoOperands};
use crate::scopes::Entity;
use crate::wanted::{Wanted, built_in_wants, wanted_by};
use c_checked::expression::{Expr as Checked, Fixity};
use c_resolved::fault::Fault;
use c_syntax::expression::{Base, Expr};
use c_types::typed::TypedNode;
use c_types::types::plain;
use std::alloc::{AllocError, Global};

/// The first arguments as they are passed, if each is what is wanted at its place.
#[cycle(expressions)]
fn pass_all(
    alloc: Global,
    context: &Context<'_, '_>,
    faults: &mut LeastFault,
    wants: &[Wanted],
    given: &[Expr],
) -> Result<Option<Vec<Checked>>, AllocError>
    requires enough { length wants.now ≤ length given.now }
    ensures found { IfOk result (λ r. option_map (λ v. passed_of v.items) r ≡
        (all_passed context.now wants.now given.now).found) }
    ensures faults { OnOk result (AddsFaults faults.old faults.new
        (all_passed context.now wants.now given.now).faults) }
{
    let mut passed = no_arguments(alloc);
    let count = wants.len();
    let mut i = 0;
    for e in given {
        if i == count {
            return Ok(passed);
        }
        let found = resolve(alloc, context, faults, e)?;
        let want = want_at(wants, i);
        let one = pass(faults, want, e, found);
        passed = with_one(passed, one)?;
        i += 1;
    }
    Ok(passed)
}

/// The faults of arguments alone.
#[cycle(expressions)]
fn resolve_all(
    alloc: Global,
    context: &Context<'_, '_>,
    faults: &mut LeastFault,
    given: &[Expr],
) -> Result<(), AllocError>
    ensures { OnOk result (AddsFaults faults.old faults.new
        (faults_of (resolved_all (names_of context.now) given.now))) }
{
    for e in given {
        drop(resolve(alloc, context, faults, e)?);
    }
    Ok(())
}

/// The arguments of a call, if they are as many as are wanted and each is good.
#[cycle(expressions)]
fn call_with(
    alloc: Global,
    context: &Context<'_, '_>,
    faults: &mut LeastFault,
    at: u64,
    wants: &[Wanted],
    given: &[Expr],
) -> Result<Option<Vec<Checked>>, AllocError>
    ensures found { IfOk result (λ r. FindsCall r
        (called_with context.now at wants.now given.now)) }
    ensures faults { OnOk result (AddsCall faults.old faults.new
        (called_with context.now at wants.now given.now)) }
{
    if same_count(wants, given) {
        return pass_all(alloc, context, faults, wants, given);
    }
    resolve_all(alloc, context, faults, given)?;
    faults.add(at, Fault::ArgCount);
    Ok(None)
}

/// The vectored handler that an argument names.
#[cycle(expressions)]
fn handler(
    alloc: Global,
    context: &Context<'_, '_>,
    faults: &mut LeastFault,
    e: &Expr,
) -> Result<Option<u64>, AllocError>
    ensures found { IfOk result (λ r. r ≡ (named_by context.now e.now).found) }
    ensures faults { OnOk result (AddsFaults faults.old faults.new
        (named_by context.now e.now).faults) }
{
    match name_of(e) {
        Some(name) => Ok(handler_at(context, faults, e.start(), name)),
        None => {
            let found = resolve(alloc, context, faults, e)?;
            no_handler(faults, e.start(), found);
            Ok(None)
        }
    }
}

/// The arguments of a call whose last one names a vectored handler, if they are as many as are
/// wanted and each is good.
#[cycle(expressions)]
fn call_naming(
    alloc: Global,
    context: &Context<'_, '_>,
    faults: &mut LeastFault,
    at: u64,
    wants: &[Wanted],
    given: &[Expr],
) -> Result<Option<NamingCall>, AllocError>
    ensures found { IfOk result (λ r. FindsNaming r
        (called_naming context.now at wants.now given.now)) }
    ensures faults { OnOk result (AddsNaming faults.old faults.new
        (called_naming context.now at wants.now given.now)) }
{
    if has_one_more(wants, given) {
        let passed = pass_all(alloc, context, faults, wants, given)?;
        let count = wants.len();
        let named = handler(alloc, context, faults, &given[count])?;
        return Ok(naming(passed, named));
    }
    resolve_all(alloc, context, faults, given)?;
    faults.add(at, Fault::ArgCount);
    Ok(None)
}

/// A call of a function that takes the name of a vectored handler, or of a name that is no
/// function.
#[cycle(expressions)]
fn handler_call(
    alloc: Global,
    context: &Context<'_, '_>,
    faults: &mut LeastFault,
    at: u64,
    meaning: Option<Entity<'_>>,
    given: &[Expr],
) -> Result<Option<TypedNode>, AllocError>
    requires { is_handler_function (option_map entity meaning) ≡ true }
    ensures found { IfOk result (λ r. FindsTyped r
        (called context.now at meaning.entry given.now).found) }
    ensures faults { OnOk result (AddsFaults faults.old faults.new
        (called context.now at meaning.entry given.now).faults) }
{
    match meaning {
        Some(Entity::AddingFunction) => {
            let wants = [Wanted::OfType(plain(Base::Unsigned))];
            let named = call_naming(alloc, context, faults, at, &wants, given)?;
            Ok(adding_call(named))
        }
        Some(Entity::RemovingFunction) => {
            let named = call_naming(alloc, context, faults, at, &[], given)?;
            Ok(removing_call(named))
        }
        _ => {
            faults.add(at, Fault::UnknownName);
            resolve_all(alloc, context, faults, given)?;
            Ok(None)
        }
    }
}

/// A call of a function that means something in some places alone, that takes the name of a
/// vectored handler, or of a name that is no function.
#[cycle(expressions)]
fn special_call(
    alloc: Global,
    context: &Context<'_, '_>,
    faults: &mut LeastFault,
    at: u64,
    meaning: Option<Entity<'_>>,
    given: &[Expr],
) -> Result<Option<TypedNode>, AllocError>
    requires { is_special (option_map entity meaning) ≡ true }
    ensures found { IfOk result (λ r. FindsTyped r
        (called context.now at meaning.entry given.now).found) }
    ensures faults { OnOk result (AddsFaults faults.old faults.new
        (called context.now at meaning.entry given.now).faults) }
{
    match meaning {
        Some(Entity::CodeFunction) => {
            let passed = call_with(alloc, context, faults, at, &[], given)?;
            let found = code_call(passed);
            Ok(only_where(faults, context.code, at, Fault::CodeOutsideFilter, found))
        }
        Some(Entity::AbnormalFunction) => {
            let passed = call_with(alloc, context, faults, at, &[], given)?;
            let found = abnormal_call(passed);
            Ok(only_where(
                faults,
                context.abnormal,
                at,
                Fault::AbnormalOutsideFinally,
                found,
            ))
        }
        _ => handler_call(alloc, context, faults, at, meaning, given),
    }
}

/// A call of a name.
#[cycle(expressions)]
fn call(
    alloc: Global,
    context: &Context<'_, '_>,
    faults: &mut LeastFault,
    at: u64,
    meaning: Option<Entity<'_>>,
    given: &[Expr],
) -> Result<Option<TypedNode>, AllocError>
    ensures found { IfOk result (λ r. FindsTyped r
        (called context.now at meaning.entry given.now).found) }
    ensures faults { OnOk result (AddsFaults faults.old faults.new
        (called context.now at meaning.entry given.now).faults) }
{
    match meaning {
        Some(
            Entity::UserFunction {
                number,
                returns,
                parameters,
            },
        ) => {
            let wants = wanted_by(alloc, parameters)?;
            let passed = call_with(alloc, context, faults, at, &wants, given)?;
            Ok(user_call(number, returns, passed))
        }
        Some(Entity::BuiltInFunction(function)) => {
            let wants = built_in_wants(alloc, function)?;
            let passed = call_with(alloc, context, faults, at, &wants, given)?;
            Ok(built_in_call(function, passed))
        }
        _ => special_call(alloc, context, faults, at, meaning, given),
    }
}

/// An operator on an operand that is resolved, and on one that follows.
#[cycle(expressions)]
fn with_second(
    alloc: Global,
    context: &Context<'_, '_>,
    faults: &mut LeastFault,
    at: u64,
    operator: TwoOperands,
    a: Option<TypedNode>,
    second: &Expr,
) -> Result<Option<TypedNode>, AllocError>
    ensures found { IfOk result (λ r. FindsByRule r
        (resolved_with context.now at operator a second.now)) }
    ensures faults { OnOk result (Adds faults.old faults.new
        (resolved_with context.now at operator a second.now)) }
{
    match resolve(alloc, context, faults, second) {
        Ok(b) => rules::two(alloc, faults, at, operator, a, b),
        Err(failed) => {
            drop(a);
            Err(failed)
        }
    }
}

/// An expression with several operands.
#[cycle(expressions)]
fn several(
    alloc: Global,
    context: &Context<'_, '_>,
    faults: &mut LeastFault,
    e: &Expr,
) -> Result<Option<TypedNode>, AllocError>
    requires { has_several (expression e.now) ≡ true }
    ensures found { IfOk result (λ r. FindsTyped r (resolved context.now e.now).found) }
    ensures faults { OnOk result (AddsFaults faults.old faults.new
        (resolved context.now e.now).faults) }
{
    match e {
        Expr::Index { array, at, index } => {
            let a = resolve(alloc, context, faults, array)?;
            with_second(alloc, context, faults, *at, TwoOperands::Element, a, index)
        }
        Expr::Binary {
            left,
            at,
            operator,
            right,
        } => {
            let a = resolve(alloc, context, faults, left)?;
            let operator = TwoOperands::Operator(*operator);
            with_second(alloc, context, faults, *at, operator, a, right)
        }
        Expr::Comma { left, at, right } => {
            let a = resolve(alloc, context, faults, left)?;
            with_second(alloc, context, faults, *at, TwoOperands::Comma, a, right)
        }
        _ => conditional_or_assignment(alloc, context, faults, e),
    }
}

/// `condition ? yes : no` and `target = value`.
#[cycle(expressions)]
fn conditional_or_assignment(
    alloc: Global,
    context: &Context<'_, '_>,
    faults: &mut LeastFault,
    e: &Expr,
) -> Result<Option<TypedNode>, AllocError>
    requires { is_conditional_or_assignment (expression e.now) ≡ true }
    ensures found { IfOk result (λ r. FindsTyped r (resolved context.now e.now).found) }
    ensures faults { OnOk result (AddsFaults faults.old faults.new
        (resolved context.now e.now).faults) }
{
    match e {
        Expr::Conditional {
            condition,
            at,
            yes,
            no,
        } => {
            let c = resolve(alloc, context, faults, condition)?;
            match resolve(alloc, context, faults, yes) {
                Ok(a) => match resolve(alloc, context, faults, no) {
                    Ok(b) => rules::conditional(alloc, faults, *at, c, a, b),
                    Err(failed) => {
                        drop(c);
                        drop(a);
                        Err(failed)
                    }
                },
                Err(failed) => {
                    drop(c);
                    Err(failed)
                }
            }
        }
        Expr::Assign {
            target,
            at,
            operator,
            value,
        } => {
            let a = resolve(alloc, context, faults, target)?;
            let b = resolve(alloc, context, faults, value)?;
            let place = place_of(*operator, *at, value);
            assign(alloc, context, faults, target, place, *operator, a, b)
        }
        _ => unreachable!(),
    }
}

/// An expression with an operator before its operand, or with several operands.
#[cycle(expressions)]
fn preceded(
    alloc: Global,
    context: &Context<'_, '_>,
    faults: &mut LeastFault,
    e: &Expr,
) -> Result<Option<TypedNode>, AllocError>
    requires { has_prefix_or_several (expression e.now) ≡ true }
    ensures found { IfOk result (λ r. FindsTyped r (resolved context.now e.now).found) }
    ensures faults { OnOk result (AddsFaults faults.old faults.new
        (resolved context.now e.now).faults) }
{
    match e {
        Expr::Prefix {
            at,
            operator,
            operand,
        } => {
            let a = resolve(alloc, context, faults, operand)?;
            Ok(step(context, faults, *at, Fixity::Prefix, *operator, operand, a))
        }
        Expr::Unary {
            at,
            operator,
            operand,
        } => {
            let a = resolve(alloc, context, faults, operand)?;
            unary(alloc, context, faults, *at, *operator, operand, a)
        }
        Expr::Cast { at, to, operand } => {
            let a = resolve(alloc, context, faults, operand)?;
            rules::cast(alloc, faults, *at, *to, a)
        }
        _ => several(alloc, context, faults, e),
    }
}

/// The type and the node of an expression, if it breaks no rule; the least fault of those before
/// and of its own is kept.
#[cycle(expressions)]
pub fn resolve(
    alloc: Global,
    context: &Context<'_, '_>,
    faults: &mut LeastFault,
    e: &Expr,
) -> Result<Option<TypedNode>, AllocError>
    ensures found { IfOk result (λ r. FindsTyped r (resolved context.now e.now).found) }
    ensures faults { OnOk result (AddsFaults faults.old faults.new
        (resolved context.now e.now).faults) }
{
    match e {
        Expr::Literal { literal: l, .. } => Ok(Some(literal(*l))),
        Expr::Variable(n) => name(faults, n.start, named(context, *n)),
        Expr::Information { at, field } => Ok(information(context, faults, *at, *field)),
        Expr::Call { name: n, arguments } => {
            let meaning = named(context, *n);
            call(alloc, context, faults, n.start, meaning, arguments)
        }
        Expr::Parentheses { inner, .. } => resolve(alloc, context, faults, inner),
        Expr::Postfix {
            operand,
            operator,
            at,
        } => {
            let a = resolve(alloc, context, faults, operand)?;
            Ok(step(context, faults, *at, Fixity::Postfix, *operator, operand, a))
        }
        _ => preceded(alloc, context, faults, e),
    }
}
