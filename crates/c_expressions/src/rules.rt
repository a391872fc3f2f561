//! Rules on the types of operands: an operand that holds a fault has no type, and breaks no rule.

ghost use Rattle.std.specs.Prelude.{IfOk, OnOk, option_map};
ghost use Rattle.c_resolved.specs.declared.fault.Fault.TheVariants.{TypeClash};
ghost use Rattle.c_resolved.specs.Expressions.{ruled};
ghost use Rattle.c_resolved.specs.Operators.{unary_of, cast_of, conditional_of, incremented};
ghost use Rattle.c_expressions.specs.Rules.{FindsByRule, Adds, rule_of_two};
ghost use Rattle.c_expressions.specs.Rules.{unary_rule, binary_rule, ternary_rule};
ghost use Rattle.c_types.specs.Views.{typed_node, FindsTyped};

use crate::least::LeastFault;
use c_checked::expression::Fixity;
use c_resolved::fault::Fault;
use c_syntax::expression::CType;
use c_syntax::operator::{Arithmetic, BinaryOperator, Increment, UnaryOperator};
use c_types::typed::TypedNode;
use c_types::{changes, comparisons, operators, pointers, unary};
use std::alloc::{AllocError, Global};

/// An operator with two operands.
#[derive(Clone, Copy, Drop)]
pub enum TwoOperands {
    /// `array[index]` (C11, 6.5.2.1)
    Element,
    /// An operator that changes no place (C11, 6.5.5 to 6.5.14).
    Operator(BinaryOperator),
    /// `left, right` (C11, 6.5.17)
    Comma,
    /// `a = b`, or with an operator `a operator= b` (C11, 6.5.16).
    Assign(Option<Arithmetic>),
}

/// What a rule gave; a fault where it gave nothing.
fn ruled(faults: &mut LeastFault, at: u64, found: Option<TypedNode>) -> Option<TypedNode>
    ensures found { FindsByRule result (λ fs. ruled at TypeClash fs (option_map typed_node found)) }
    ensures faults { Adds faults.old faults.new
        (λ fs. ruled at TypeClash fs (option_map typed_node found)) }
{
    match found {
        Some(a) => Some(a),
        None => {
            faults.add(at, Fault::TypeClash);
            None
        }
    }
}

/// What an operator makes of two operands, if their types keep its rule.
fn made_of_two(
    alloc: Global,
    operator: TwoOperands,
    a: TypedNode,
    b: TypedNode,
) -> Result<Option<TypedNode>, AllocError>
    ensures { IfOk result (λ r. FindsTyped r
        (rule_of_two operator (typed_node a) (typed_node b))) }
{
    match operator {
        TwoOperands::Element => pointers::element_of(alloc, a, b),
        TwoOperands::Operator(operator) => comparisons::binary_of(alloc, operator, a, b),
        TwoOperands::Comma => operators::comma_of(alloc, a, b),
        TwoOperands::Assign(None) => changes::assigned(alloc, a, b),
        TwoOperands::Assign(Some(operator)) => changes::compound_assigned(alloc, operator, a, b),
    }
}

/// An operator on two operands.
pub fn two(
    alloc: Global,
    faults: &mut LeastFault,
    at: u64,
    operator: TwoOperands,
    a: Option<TypedNode>,
    b: Option<TypedNode>,
) -> Result<Option<TypedNode>, AllocError>
    ensures found { IfOk result (λ r. FindsByRule r (binary_rule at (rule_of_two operator) a b)) }
    ensures faults { OnOk result (Adds faults.old faults.new
        (binary_rule at (rule_of_two operator) a b)) }
{
    let Some(a) = a else {
        drop(b);
        return Ok(None);
    };
    let Some(b) = b else {
        drop(a);
        return Ok(None);
    };
    let found = made_of_two(alloc, operator, a, b)?;
    Ok(ruled(faults, at, found))
}

/// `c ? a : b`
pub fn conditional(
    alloc: Global,
    faults: &mut LeastFault,
    at: u64,
    c: Option<TypedNode>,
    a: Option<TypedNode>,
    b: Option<TypedNode>,
) -> Result<Option<TypedNode>, AllocError>
    ensures found { IfOk result (λ r. FindsByRule r (ternary_rule at conditional_of c a b)) }
    ensures faults { OnOk result (Adds faults.old faults.new
        (ternary_rule at conditional_of c a b)) }
{
    let Some(c) = c else {
        drop(a);
        drop(b);
        return Ok(None);
    };
    let Some(a) = a else {
        drop(c);
        drop(b);
        return Ok(None);
    };
    let Some(b) = b else {
        drop(c);
        drop(a);
        return Ok(None);
    };
    let found = unary::conditional_of(alloc, c, a, b)?;
    Ok(ruled(faults, at, found))
}

/// `++` and `--`.
pub fn increment(
    faults: &mut LeastFault,
    at: u64,
    fixity: Fixity,
    operator: Increment,
    a: Option<TypedNode>,
) -> Option<TypedNode>
    ensures found { FindsByRule result (unary_rule at (incremented fixity operator) a) }
    ensures faults { Adds faults.old faults.new (unary_rule at (incremented fixity operator) a) }
{
    match a {
        Some(a) => {
            let found = changes::incremented(fixity, operator, a);
            ruled(faults, at, found)
        }
        None => None,
    }
}

/// Another operator before its operand.
pub fn unary(
    alloc: Global,
    faults: &mut LeastFault,
    at: u64,
    operator: UnaryOperator,
    a: Option<TypedNode>,
) -> Result<Option<TypedNode>, AllocError>
    ensures found { IfOk result (λ r. FindsByRule r (unary_rule at (unary_of operator) a)) }
    ensures faults { OnOk result (Adds faults.old faults.new
        (unary_rule at (unary_of operator) a)) }
{
    match a {
        Some(a) => {
            let found = unary::unary_of(alloc, operator, a)?;
            Ok(ruled(faults, at, found))
        }
        None => Ok(None),
    }
}

/// A cast.
pub fn cast(
    alloc: Global,
    faults: &mut LeastFault,
    at: u64,
    to: CType,
    a: Option<TypedNode>,
) -> Result<Option<TypedNode>, AllocError>
    ensures found { IfOk result (λ r. FindsByRule r (unary_rule at (cast_of to) a)) }
    ensures faults { OnOk result (Adds faults.old faults.new (unary_rule at (cast_of to) a)) }
{
    match a {
        Some(a) => {
            let found = unary::cast_of(alloc, to, a)?;
            Ok(ruled(faults, at, found))
        }
        None => Ok(None),
    }
}
