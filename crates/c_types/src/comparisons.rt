//! Comparisons, and all operators between two operands.

ghost use Rattle.std.specs.Prelude.{◌≡◌, IfOk};
ghost use Rattle.c_resolved.specs.Operators.{relation_of, compared, are_comparable, void_pointer};
ghost use Rattle.c_resolved.specs.Operators.{comparison_of, binary_of};
ghost use Rattle.c_types.specs.Views.{typed_node, FindsTyped};

use crate::nodes::binary;
use crate::operators::{logical_and, logical_or};
use crate::pointers::arithmetic_of;
use crate::typed::{TypedNode, as_type, refuse_both, typed};
use crate::types::{
    common, is_integer, is_pointer, is_void_pointer, plain, same_type, size_of, sort_of,
};
use c_operations::operation::{Operation, Pure, Relation};
use c_syntax::expression::{Base, CType};
use c_syntax::operator::{BinaryOperator, Comparison};
use std::alloc::{AllocError, Global};

fn relation_of(operator: Comparison) -> Relation
    ensures { result ≡ relation_of operator }
{
    match operator {
        Comparison::Less => Relation::Less,
        Comparison::Greater => Relation::Greater,
        Comparison::LessEqual => Relation::LessOrEqual,
        Comparison::GreaterEqual => Relation::GreaterOrEqual,
        Comparison::Equal => Relation::Equal,
        Comparison::NotEqual => Relation::NotEqual,
    }
}

/// A comparison in a type.
fn compared(
    alloc: Global,
    operator: Comparison,
    t: CType,
    a: TypedNode,
    b: TypedNode,
) -> Result<TypedNode, AllocError>
    ensures { IfOk result (λ r. typed_node r ≡ compared operator t (typed_node a) (typed_node b)) }
{
    let operation = Operation::Pure(Pure::Compare {
        relation: relation_of(operator),
        signedness: sort_of(t),
        size: size_of(t),
    });
    let made = binary(alloc, operation, as_type(t, a), as_type(t, b))?;
    Ok(typed(plain(Base::Int), made))
}

/// Whether two operands of which one is a pointer can be compared: pointers of one type, one to
/// void, or one and a literal 0.
fn are_comparable(a: &TypedNode, b: &TypedNode) -> bool
    ensures { result ≡ are_comparable (typed_node a.now) (typed_node b.now) }
{
    (is_pointer(a.of)
        && is_pointer(b.of)
        && (same_type(a.of, b.of) || is_void_pointer(a.of) || is_void_pointer(b.of)))
        || (is_pointer(a.of) && b.zero)
        || (is_pointer(b.of) && a.zero)
}

/// `void *`
pub fn void_pointer() -> CType
    ensures { result ≡ void_pointer }
{
    CType {
        base: Base::Void,
        pointers: 1,
    }
}

fn comparison_of(
    alloc: Global,
    operator: Comparison,
    a: TypedNode,
    b: TypedNode,
) -> Result<Option<TypedNode>, AllocError>
    ensures { IfOk result (λ r. FindsTyped r
        (comparison_of operator (typed_node a) (typed_node b))) }
{
    if is_pointer(a.of) || is_pointer(b.of) {
        if !are_comparable(&a, &b) {
            return Ok(refuse_both(a, b));
        }
        return Ok(Some(compared(alloc, operator, void_pointer(), a, b)?));
    }
    if !(is_integer(a.of) && is_integer(b.of)) {
        return Ok(refuse_both(a, b));
    }
    let t = common(a.of, b.of);
    Ok(Some(compared(alloc, operator, t, a, b)?))
}

/// An operator between two operands, assignments and the comma aside (C11, 6.5.5 to 6.5.14); none
/// where their types break its rule.
pub fn binary_of(
    alloc: Global,
    operator: BinaryOperator,
    a: TypedNode,
    b: TypedNode,
) -> Result<Option<TypedNode>, AllocError>
    ensures { IfOk result (λ r. FindsTyped r (binary_of operator (typed_node a) (typed_node b))) }
{
    match operator {
        BinaryOperator::Arithmetic(operator) => arithmetic_of(alloc, operator, a, b),
        BinaryOperator::Comparison(operator) => comparison_of(alloc, operator, a, b),
        BinaryOperator::LogicalAnd => logical_and(alloc, a, b),
        BinaryOperator::LogicalOr => logical_or(alloc, a, b),
    }
}
