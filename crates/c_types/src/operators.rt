//! Operators between two operands.

ghost use Rattle.std.specs.Prelude.{◌≡◌, IfOk};
ghost use Rattle.c_checked.specs.Expression.{expression};
ghost use Rattle.c_resolved.specs.Operators as operators;
ghost use Rattle.c_resolved.specs.Operators.{operation_of, operation_in, is_shift, working_type};
ghost use Rattle.c_resolved.specs.Operators.{right_operand, on_integers, comma_of};
ghost use Rattle.c_syntax.specs.declared.operator.BinaryOperator.TheVariants as binary;
ghost use Rattle.c_types.specs.Views.{typed_node, FindsTyped};

use crate::nodes::{and, binary, comma, or};
use crate::typed::{TypedNode, as_is, as_type, refuse_both, typed};
use crate::types::{common, is_integer, is_scalar, plain, promoted, size_of, sort_of};
use c_checked::expression::Expr;
use c_operations::operation::{Operation, Pure, Signedness, Size};
use c_syntax::expression::{Base, CType};
use c_syntax::operator::Arithmetic;
use std::alloc::{AllocError, Global};

/// The operation of an operator on numbers of a signedness and a size.
pub fn operation_of(operator: Arithmetic, signedness: Signedness, size: Size) -> Operation
    ensures { result ≡ operation_of operator signedness size }
{
    match operator {
        Arithmetic::Multiply => Operation::Pure(Pure::Multiply(size)),
        Arithmetic::Divide => Operation::Divide(signedness, size),
        Arithmetic::Remainder => Operation::Remainder(signedness, size),
        Arithmetic::Add => Operation::Pure(Pure::Add(size)),
        Arithmetic::Subtract => Operation::Pure(Pure::Subtract(size)),
        Arithmetic::ShiftLeft => Operation::Pure(Pure::ShiftLeft(size)),
        Arithmetic::ShiftRight => Operation::Pure(Pure::ShiftRight(signedness, size)),
        Arithmetic::And => Operation::Pure(Pure::And(size)),
        Arithmetic::ExclusiveOr => Operation::Pure(Pure::Xor(size)),
        Arithmetic::Or => Operation::Pure(Pure::Or(size)),
    }
}

/// The operation of an operator in a type.
pub fn operation_in(operator: Arithmetic, t: CType) -> Operation
    ensures { result ≡ operation_in operator t }
{
    operation_of(operator, sort_of(t), size_of(t))
}

fn is_shift(operator: Arithmetic) -> bool
    ensures { result ≡ is_shift operator }
{
    match operator {
        Arithmetic::ShiftLeft | Arithmetic::ShiftRight => true,
        _ => false,
    }
}

/// The type in which two integers are computed: a shift's is that of its promoted left operand
/// (C11, 6.5.7).
pub fn working_type(operator: Arithmetic, a: CType, b: CType) -> CType
    ensures { result ≡ working_type operator a b }
{
    if is_shift(operator) {
        promoted(a)
    } else {
        common(a, b)
    }
}

/// The right operand of an operator in a type; the count of a shift stays as it is.
pub fn right_operand(operator: Arithmetic, t: CType, b: TypedNode) -> Expr
    ensures { expression result ≡ right_operand operator t (typed_node b) }
{
    if is_shift(operator) {
        as_is(b)
    } else {
        as_type(t, b)
    }
}

/// An operator on two integers.
pub fn on_integers(
    alloc: Global,
    operator: Arithmetic,
    a: TypedNode,
    b: TypedNode,
) -> Result<Option<TypedNode>, AllocError>
    ensures { IfOk result (λ r. FindsTyped r (on_integers operator (typed_node a) (typed_node b))) }
{
    if !(is_integer(a.of) && is_integer(b.of)) {
        return Ok(refuse_both(a, b));
    }
    let t = working_type(operator, a.of, b.of);
    let left = as_type(t, a);
    let right = right_operand(operator, t, b);
    let made = binary(alloc, operation_in(operator, t), left, right)?;
    Ok(Some(typed(t, made)))
}

/// `a && b`
pub fn logical_and(
    alloc: Global,
    a: TypedNode,
    b: TypedNode,
) -> Result<Option<TypedNode>, AllocError>
    ensures { IfOk result (λ r. FindsTyped r
        (operators.binary_of binary.LogicalAnd (typed_node a) (typed_node b))) }
{
    if !(is_scalar(a.of) && is_scalar(b.of)) {
        return Ok(refuse_both(a, b));
    }
    let made = and(alloc, as_is(a), as_is(b))?;
    Ok(Some(typed(plain(Base::Int), made)))
}

/// `a || b`
pub fn logical_or(
    alloc: Global,
    a: TypedNode,
    b: TypedNode,
) -> Result<Option<TypedNode>, AllocError>
    ensures { IfOk result (λ r. FindsTyped r
        (operators.binary_of binary.LogicalOr (typed_node a) (typed_node b))) }
{
    if !(is_scalar(a.of) && is_scalar(b.of)) {
        return Ok(refuse_both(a, b));
    }
    let made = or(alloc, as_is(a), as_is(b))?;
    Ok(Some(typed(plain(Base::Int), made)))
}

/// `a, b`
pub fn comma_of(alloc: Global, a: TypedNode, b: TypedNode) -> Result<Option<TypedNode>, AllocError>
    ensures { IfOk result (λ r. FindsTyped r (comma_of (typed_node a) (typed_node b))) }
{
    let t = b.of;
    let made = comma(alloc, as_is(a), as_is(b))?;
    Ok(Some(typed(t, made)))
}
