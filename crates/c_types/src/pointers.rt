//! Operators on pointers.

ghost use Rattle.std.specs.Prelude.{◌≡◌, IfOk};
ghost use Rattle.c_resolved.specs.Operators.{long_operation, moved, sum, difference, arithmetic_of};
ghost use Rattle.c_resolved.specs.Operators.{element_of};
ghost use Rattle.c_types.specs.Views.{typed_node, FindsTyped};

use crate::nodes::{binary, element, pointer_difference};
use crate::operators::{on_integers, operation_of};
use crate::typed::{TypedNode, as_index, as_is, refuse_both, typed};
use crate::types::{
    access_of, bytes_in, is_integer, is_pointer, is_sized_pointer, plain, pointed, same_type,
};
use c_operations::operation::{Operation, Signedness, Size};
use c_syntax::expression::Base;
use c_syntax::operator::Arithmetic;
use std::alloc::{AllocError, Global};

/// The operation of an operator on addresses.
pub fn long_operation(operator: Arithmetic) -> Operation
    ensures { result ≡ long_operation operator }
{
    operation_of(operator, Signedness::Unsigned, Size::Long)
}

/// A pointer moved by an index.
fn moved(
    alloc: Global,
    operator: Arithmetic,
    p: TypedNode,
    i: TypedNode,
) -> Result<TypedNode, AllocError>
    ensures { IfOk result (λ r. typed_node r ≡ moved operator (typed_node p) (typed_node i)) }
{
    let t = p.of;
    let index = as_index(t, i);
    let made = binary(alloc, long_operation(operator), as_is(p), index)?;
    Ok(typed(t, made))
}

/// `a + b`
pub fn sum(alloc: Global, a: TypedNode, b: TypedNode) -> Result<Option<TypedNode>, AllocError>
    ensures { IfOk result (λ r. FindsTyped r (sum (typed_node a) (typed_node b))) }
{
    if is_pointer(a.of) {
        if !(is_sized_pointer(a.of) && is_integer(b.of)) {
            return Ok(refuse_both(a, b));
        }
        return Ok(Some(moved(alloc, Arithmetic::Add, a, b)?));
    }
    if is_pointer(b.of) {
        if !(is_sized_pointer(b.of) && is_integer(a.of)) {
            return Ok(refuse_both(a, b));
        }
        let t = b.of;
        let index = as_index(t, a);
        let made = binary(alloc, long_operation(Arithmetic::Add), index, as_is(b))?;
        return Ok(Some(typed(t, made)));
    }
    on_integers(alloc, Arithmetic::Add, a, b)
}

/// `a - b`
pub fn difference(
    alloc: Global,
    a: TypedNode,
    b: TypedNode,
) -> Result<Option<TypedNode>, AllocError>
    ensures { IfOk result (λ r. FindsTyped r (difference (typed_node a) (typed_node b))) }
{
    if is_pointer(a.of) && is_pointer(b.of) {
        if !(is_sized_pointer(a.of) && same_type(a.of, b.of)) {
            return Ok(refuse_both(a, b));
        }
        let size = bytes_in(pointed(a.of));
        let made = pointer_difference(alloc, size, as_is(a), as_is(b))?;
        return Ok(Some(typed(plain(Base::LongLong), made)));
    }
    if is_pointer(a.of) {
        if !(is_sized_pointer(a.of) && is_integer(b.of)) {
            return Ok(refuse_both(a, b));
        }
        return Ok(Some(moved(alloc, Arithmetic::Subtract, a, b)?));
    }
    on_integers(alloc, Arithmetic::Subtract, a, b)
}

/// An arithmetic operator between two operands (C11, 6.5.5 to 6.5.7 and 6.5.10 to 6.5.12).
pub fn arithmetic_of(
    alloc: Global,
    operator: Arithmetic,
    a: TypedNode,
    b: TypedNode,
) -> Result<Option<TypedNode>, AllocError>
    ensures { IfOk result (λ r. FindsTyped r
        (arithmetic_of operator (typed_node a) (typed_node b))) }
{
    match operator {
        Arithmetic::Add => sum(alloc, a, b),
        Arithmetic::Subtract => difference(alloc, a, b),
        _ => on_integers(alloc, operator, a, b),
    }
}

/// `a[i]`
pub fn element_of(
    alloc: Global,
    a: TypedNode,
    i: TypedNode,
) -> Result<Option<TypedNode>, AllocError>
    ensures { IfOk result (λ r. FindsTyped r (element_of (typed_node a) (typed_node i))) }
{
    if !(is_sized_pointer(a.of) && is_integer(i.of)) {
        return Ok(refuse_both(a, i));
    }
    let t = pointed(a.of);
    let index = as_index(a.of, i);
    let made = element(alloc, access_of(t), as_is(a), index)?;
    Ok(Some(typed(t, made)))
}
