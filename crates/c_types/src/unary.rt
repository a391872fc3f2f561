//! Operators with one operand, and the conditional operator.

ghost use Rattle.std.specs.Prelude.{◌≡◌, None, IfOk};
ghost use Rattle.c_checked.specs.Expression.{expression};
ghost use Rattle.c_checked.specs.Expression as nodes;
ghost use Rattle.c_resolved.specs.Operators as operators;
ghost use Rattle.c_resolved.specs.Types.{is_integer, promoted};
ghost use Rattle.c_resolved.specs.Operators.{unary_of, cast_of, branch_type, as_branch};
ghost use Rattle.c_resolved.specs.Operators.{conditional_of};
ghost use Rattle.c_syntax.specs.declared.operator.UnaryOperator.TheVariants as variants;
ghost use Rattle.c_types.specs.Views.{typed_node, FindsTyped};

use crate::comparisons::void_pointer;
use crate::nodes::{address_of, conditional, indirection, lvalue_of, not, unary};
use crate::typed::{TypedNode, as_is, as_type, refuse, refuse_both, typed};
use crate::types::{
    access_of, common, is_integer, is_pointer, is_scalar, is_sized_pointer, is_void,
    is_void_pointer, plain, pointed, pointer_to, promoted, same_type, size_of,
};
use c_checked::expression::Expr;
use c_operations::operation::Pure;
use c_syntax::expression::{Base, CType};
use c_syntax::operator::UnaryOperator;
use std::alloc::{AllocError, Global};

/// An operation on a promoted integer.
fn on_integer(alloc: Global, operation: Pure, a: TypedNode) -> Result<Option<TypedNode>, AllocError>
    ensures { IfOk result (λ r. FindsTyped r (operators.only_if (is_integer a.of)
        (operators.typed (promoted a.of)
        (nodes.Unary operation (operators.as_is (typed_node a)))))) }
{
    if !is_integer(a.of) {
        return Ok(refuse(a));
    }
    let t = promoted(a.of);
    let made = unary(alloc, operation, as_is(a))?;
    Ok(Some(typed(t, made)))
}

fn logical_not(alloc: Global, a: TypedNode) -> Result<Option<TypedNode>, AllocError>
    ensures { IfOk result (λ r. FindsTyped r (unary_of variants.LogicalNot (typed_node a))) }
{
    if !is_scalar(a.of) {
        return Ok(refuse(a));
    }
    let made = not(alloc, as_is(a))?;
    Ok(Some(typed(plain(Base::Int), made)))
}

fn indirection_of(alloc: Global, a: TypedNode) -> Result<Option<TypedNode>, AllocError>
    ensures { IfOk result (λ r. FindsTyped r (unary_of variants.Indirection (typed_node a))) }
{
    if !is_sized_pointer(a.of) {
        return Ok(refuse(a));
    }
    let t = pointed(a.of);
    let made = indirection(alloc, access_of(t), as_is(a))?;
    Ok(Some(typed(t, made)))
}

fn address(a: TypedNode) -> Result<Option<TypedNode>, AllocError>
    ensures { IfOk result (λ r. FindsTyped r (unary_of variants.AddressOf (typed_node a))) }
{
    let t = a.of;
    match lvalue_of(a.node) {
        None => Ok(None),
        Some(found) => match pointer_to(t) {
            Ok(p) => Ok(Some(typed(p, address_of(found)))),
            Err(failed) => {
                drop(found);
                Err(failed)
            }
        },
    }
}

/// An operator before its operand, `++` and `--` aside (C11, 6.5.3.2 and 6.5.3.3); none where the
/// type breaks its rule.
pub fn unary_of(
    alloc: Global,
    operator: UnaryOperator,
    a: TypedNode,
) -> Result<Option<TypedNode>, AllocError>
    ensures { IfOk result (λ r. FindsTyped r (unary_of operator (typed_node a))) }
{
    let size = size_of(promoted(a.of));
    match operator {
        UnaryOperator::Plus => on_integer(alloc, Pure::First, a),
        UnaryOperator::Minus => on_integer(alloc, Pure::Negate(size), a),
        UnaryOperator::Complement => on_integer(alloc, Pure::Not(size), a),
        UnaryOperator::LogicalNot => logical_not(alloc, a),
        UnaryOperator::Indirection => indirection_of(alloc, a),
        UnaryOperator::AddressOf => address(a),
    }
}

/// A cast between integers and pointers (C11, 6.5.4).
pub fn cast_of(alloc: Global, t: CType, a: TypedNode) -> Result<Option<TypedNode>, AllocError>
    ensures { IfOk result (λ r. FindsTyped r (cast_of t (typed_node a))) }
{
    if !(is_scalar(t) && is_scalar(a.of)) {
        return Ok(refuse(a));
    }
    let made = unary(alloc, Pure::First, as_type(t, a))?;
    Ok(Some(typed(t, made)))
}

/// The type of `?:` by those of its branches (C11, 6.5.15).
fn branch_type(a: &TypedNode, b: &TypedNode) -> Option<CType>
    ensures { result ≡ branch_type (typed_node a.now) (typed_node b.now) }
{
    if is_integer(a.of) && is_integer(b.of) {
        Some(common(a.of, b.of))
    } else if is_void(a.of) && is_void(b.of) {
        Some(plain(Base::Void))
    } else if is_pointer(a.of) && (same_type(a.of, b.of) || b.zero) {
        Some(a.of)
    } else if is_pointer(b.of) && a.zero {
        Some(b.of)
    } else if is_pointer(a.of)
        && is_pointer(b.of)
        && (is_void_pointer(a.of) || is_void_pointer(b.of))
    {
        Some(void_pointer())
    } else {
        None
    }
}

/// A branch of `?:` as a value of its type, if that isn't void.
fn as_branch(t: CType, a: TypedNode) -> Expr
    ensures { expression result ≡ as_branch t (typed_node a) }
{
    if is_void(t) { as_is(a) } else { as_type(t, a) }
}

/// Nothing, since the operands break the operator's rule.
fn refuse_all(c: TypedNode, a: TypedNode, b: TypedNode) -> Option<TypedNode>
    ensures { result ≡ None }
{
    drop(c);
    refuse_both(a, b)
}

/// `c ? a : b`
pub fn conditional_of(
    alloc: Global,
    c: TypedNode,
    a: TypedNode,
    b: TypedNode,
) -> Result<Option<TypedNode>, AllocError>
    ensures { IfOk result (λ r. FindsTyped r
        (conditional_of (typed_node c) (typed_node a) (typed_node b))) }
{
    if !is_scalar(c.of) {
        return Ok(refuse_all(c, a, b));
    }
    match branch_type(&a, &b) {
        None => Ok(refuse_all(c, a, b)),
        Some(t) => {
            let yes = as_branch(t, a);
            let no = as_branch(t, b);
            let made = conditional(alloc, as_is(c), yes, no)?;
            Ok(Some(typed(t, made)))
        }
    }
}
