//! Operands that have to be lvalues (C11, 6.5.2.4, 6.5.3.1, 6.5.3.2 and 6.5.16).

ghost use Rattle.std.specs.Prelude.{◌≡◌, IfOk, OnOk, option_map};
ghost use Rattle.c_resolved.specs.Expressions as definitions;
ghost use Rattle.c_resolved.specs.Expressions.{is_lvalue};
ghost use Rattle.c_syntax.specs.Expression.{expression, start};
ghost use Rattle.c_expressions.specs.Rules.{FindsByRule, Adds, stepping, preceding, assigning_at};
ghost use Rattle.c_expressions.specs.Rules.{assigning_to};
ghost use Rattle.c_expressions.specs.Views.{names_of};
ghost use Rattle.c_types.specs.Views.{typed_node};

use crate::context::{Context, named};
use crate::least::LeastFault;
use crate::rules::{self, TwoOperands};
use crate::scopes::Entity;
use c_checked::expression::Fixity;
use c_resolved::fault::Fault;
use c_syntax::expression::Expr;
use c_syntax::operator::{Arithmetic, Increment, UnaryOperator};
use c_types::typed::TypedNode;
use std::alloc::{AllocError, Global};

/// Whether an expression is a variable, `*e` or `a[i]`, parentheses aside; of an unknown name no
/// further rule is broken.
fn is_lvalue(context: &Context<'_, '_>, e: &Expr) -> bool
    ensures { result ≡ is_lvalue (names_of context.now) (expression e.now) }
{
    match e {
        Expr::Variable(name) => match named(context, *name) {
            None | Some(Entity::LocalVariable { .. }) | Some(Entity::GlobalVariable { .. }) => true,
            Some(_) => false,
        },
        Expr::Parentheses { inner, .. } => is_lvalue(context, inner),
        Expr::Index { .. } => true,
        Expr::Unary { operator, .. } => is_indirection(*operator),
        _ => false,
    }
}

fn is_indirection(operator: UnaryOperator) -> bool
    ensures { result ≡ definitions.is_indirection operator }
{
    match operator {
        UnaryOperator::Indirection => true,
        _ => false,
    }
}

/// Whether the operand of `&` is one.
fn operand_is_lvalue(context: &Context<'_, '_>, operator: UnaryOperator, e: &Expr) -> bool
    ensures { result ≡ definitions.operand_is_lvalue operator (names_of context.now)
        (expression e.now) }
{
    match operator {
        UnaryOperator::AddressOf => is_lvalue(context, e),
        _ => true,
    }
}

/// `++` or `--` of an operand.
pub fn step(
    context: &Context<'_, '_>,
    faults: &mut LeastFault,
    at: u64,
    fixity: Fixity,
    operator: Increment,
    operand: &Expr,
    a: Option<TypedNode>,
) -> Option<TypedNode>
    ensures found { FindsByRule result (λ fs. stepping (names_of context.now) at fixity operator
        (expression operand.now) fs (option_map typed_node a)) }
    ensures faults { Adds faults.old faults.new
        (λ fs. stepping (names_of context.now) at fixity operator (expression operand.now) fs
        (option_map typed_node a)) }
{
    if is_lvalue(context, operand) {
        return rules::increment(faults, at, fixity, operator, a);
    }
    drop(a);
    faults.add(operand.start(), Fault::NotLvalue);
    None
}

/// Another operator before its operand.
pub fn unary(
    alloc: Global,
    context: &Context<'_, '_>,
    faults: &mut LeastFault,
    at: u64,
    operator: UnaryOperator,
    operand: &Expr,
    a: Option<TypedNode>,
) -> Result<Option<TypedNode>, AllocError>
    ensures found { IfOk result (λ r. FindsByRule r
        (λ fs. preceding (names_of context.now) at operator (expression operand.now) fs
        (option_map typed_node a))) }
    ensures faults { OnOk result (Adds faults.old faults.new
        (λ fs. preceding (names_of context.now) at operator (expression operand.now) fs
        (option_map typed_node a))) }
{
    if operand_is_lvalue(context, operator, operand) {
        return rules::unary(alloc, faults, at, operator, a);
    }
    drop(a);
    faults.add(operand.start(), Fault::NotLvalue);
    Ok(None)
}

/// The place of a fault of types in an assignment: `=` has its value's, a compound form its own.
pub fn place_of(operator: Option<Arithmetic>, at: u64, value: &Expr) -> u64
    ensures { result ≡ assigning_at operator at (start (expression value.now)) }
{
    match operator {
        Some(_) => at,
        None => value.start(),
    }
}

/// `target = value`, or with an operator its compound form.
pub fn assign(
    alloc: Global,
    context: &Context<'_, '_>,
    faults: &mut LeastFault,
    target: &Expr,
    at: u64,
    operator: Option<Arithmetic>,
    a: Option<TypedNode>,
    b: Option<TypedNode>,
) -> Result<Option<TypedNode>, AllocError>
    ensures found { IfOk result (λ r. FindsByRule r
        (λ fs. assigning_to (names_of context.now) (expression target.now) at operator fs
        (option_map typed_node a) (option_map typed_node b))) }
    ensures faults { OnOk result (Adds faults.old faults.new
        (λ fs. assigning_to (names_of context.now) (expression target.now) at operator fs
        (option_map typed_node a) (option_map typed_node b))) }
{
    if is_lvalue(context, target) {
        return rules::two(alloc, faults, at, TwoOperands::Assign(operator), a, b);
    }
    drop(a);
    drop(b);
    faults.add(target.start(), Fault::NotLvalue);
    Ok(None)
}
