//! Assignments, `++` and `--` (C11, 6.5.16, 6.5.2.4 and 6.5.3.1).

ghost use Rattle.std.specs.Prelude.{◌≡◌, true, false, IfOk};
ghost use Rattle.c_resolved.specs.Operators.{assigned, is_additive, compound_assigned};
ghost use Rattle.c_resolved.specs.Operators.{increment_operator, incremented};
ghost use Rattle.c_resolved.specs.Types.{is_pointer};
ghost use Rattle.c_types.specs.Views.{typed_node, FindsTyped};

use crate::nodes::{assign, compound_assign, increment, lvalue_of};
use crate::operators::{operation_in, right_operand, working_type};
use crate::pointers::long_operation;
use crate::typed::{TypedNode, as_index, as_type, can_become, refuse, refuse_both, typed};
use crate::types::{
    bytes_in, conversion, is_integer, is_pointer, is_sized_pointer, pointed, promoted,
};
use c_checked::expression::{Conversion, Fixity};
use c_syntax::operator::{Arithmetic, Increment};
use std::alloc::{AllocError, Global};

/// `a = b`
pub fn assigned(alloc: Global, a: TypedNode, b: TypedNode) -> Result<Option<TypedNode>, AllocError>
    ensures { IfOk result (λ r. FindsTyped r (assigned (typed_node a) (typed_node b))) }
{
    let t = a.of;
    if !can_become(t, &b) {
        return Ok(refuse_both(a, b));
    }
    match lvalue_of(a.node) {
        None => Ok(refuse(b)),
        Some(target) => {
            let made = assign(alloc, target, as_type(t, b))?;
            Ok(Some(typed(t, made)))
        }
    }
}

fn is_additive(operator: Arithmetic) -> bool
    ensures { result ≡ is_additive operator }
{
    match operator {
        Arithmetic::Add | Arithmetic::Subtract => true,
        _ => false,
    }
}

/// `a operator= b` where `a` is a pointer.
fn compound_on_pointer(
    alloc: Global,
    operator: Arithmetic,
    a: TypedNode,
    b: TypedNode,
) -> Result<Option<TypedNode>, AllocError>
    requires { is_pointer a.of ≡ true }
    ensures { IfOk result (λ r. FindsTyped r
        (compound_assigned operator (typed_node a) (typed_node b))) }
{
    let t = a.of;
    if !(is_additive(operator) && is_sized_pointer(t) && is_integer(b.of)) {
        return Ok(refuse_both(a, b));
    }
    match lvalue_of(a.node) {
        None => Ok(refuse(b)),
        Some(target) => {
            let operation = long_operation(operator);
            let index = as_index(t, b);
            let kept = Conversion::Kept;
            let made = compound_assign(alloc, target, kept, operation, index, kept)?;
            Ok(Some(typed(t, made)))
        }
    }
}

/// `a operator= b` where `a` is no pointer.
fn compound_on_integers(
    alloc: Global,
    operator: Arithmetic,
    a: TypedNode,
    b: TypedNode,
) -> Result<Option<TypedNode>, AllocError>
    requires { is_pointer a.of ≡ false }
    ensures { IfOk result (λ r. FindsTyped r
        (compound_assigned operator (typed_node a) (typed_node b))) }
{
    let t = a.of;
    if !(is_integer(t) && is_integer(b.of)) {
        return Ok(refuse_both(a, b));
    }
    match lvalue_of(a.node) {
        None => Ok(refuse(b)),
        Some(target) => {
            let w = working_type(operator, t, b.of);
            let operation = operation_in(operator, w);
            let value = right_operand(operator, w, b);
            let before = conversion(t, w);
            let after = conversion(w, t);
            let made = compound_assign(alloc, target, before, operation, value, after)?;
            Ok(Some(typed(t, made)))
        }
    }
}

/// `a operator= b`
pub fn compound_assigned(
    alloc: Global,
    operator: Arithmetic,
    a: TypedNode,
    b: TypedNode,
) -> Result<Option<TypedNode>, AllocError>
    ensures { IfOk result (λ r. FindsTyped r
        (compound_assigned operator (typed_node a) (typed_node b))) }
{
    if is_pointer(a.of) {
        compound_on_pointer(alloc, operator, a, b)
    } else {
        compound_on_integers(alloc, operator, a, b)
    }
}

fn increment_operator(operator: Increment) -> Arithmetic
    ensures { result ≡ increment_operator operator }
{
    match operator {
        Increment::Increment => Arithmetic::Add,
        Increment::Decrement => Arithmetic::Subtract,
    }
}

/// `++a`, `--a`, `a++` and `a--`.
pub fn incremented(fixity: Fixity, operator: Increment, a: TypedNode) -> Option<TypedNode>
    ensures { FindsTyped result (incremented fixity operator (typed_node a)) }
{
    let t = a.of;
    let operator = increment_operator(operator);
    if is_pointer(t) {
        if !is_sized_pointer(t) {
            return refuse(a);
        }
        let target = lvalue_of(a.node)?;
        let amount = bytes_in(pointed(t));
        let operation = long_operation(operator);
        let made = increment(fixity, target, operation, amount, Conversion::Kept);
        return Some(typed(t, made));
    }
    if !is_integer(t) {
        return refuse(a);
    }
    let target = lvalue_of(a.node)?;
    let p = promoted(t);
    let operation = operation_in(operator, p);
    let made = increment(fixity, target, operation, 1, conversion(p, t));
    Some(typed(t, made))
}
