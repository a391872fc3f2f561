//! Values of expressions.

ghost use Rattle.std.specs.Prelude.{◌≡◌, nat_eq, slice_index, Some};
ghost use Rattle.c_checked.specs.Expression as tree;
ghost use Rattle.source_meaning.specs.Expressions as model;
ghost use Rattle.source_values.specs.Direct as spec;
ghost use Rattle.source_values.specs.Surrounding.{surroundings_of};

use crate::surroundings::Surroundings;
use c_checked::expression::{Access, Expr, Lvalue, Node};
use c_operations::operation::{Operation, Pure, Size};
use source_operations::performing::compute;
use source_operations::pure::result_of;
use source_plans::values::{apart, converted, field_of, of_test, value_of};

/// A local's value; 0 where there is none.
fn local(around: &Surroundings<'_>, local: u64) -> u64
    ensures { result ≡ slice_index (surroundings_of around.now).locals local }
{
    match around.locals {
        None => 0,
        Some(locals) => match locals.get(local as usize) {
            None => 0,
            Some(value) => *value,
        },
    }
}

/// The address of a variable on the data stack, by the local that keeps its base.
fn stacked_address(around: &Surroundings<'_>, base: u64, offset: u64) -> u64
    ensures { result ≡ spec.stacked_address (surroundings_of around.now) base offset }
{
    result_of(Pure::Add(Size::Long), local(around, base), offset)
}

/// The value of what is at an address.
fn loaded(around: &Surroundings<'_>, access: Access, address: u64) -> Option<u64>
    ensures { result ≡ spec.loaded (surroundings_of around.now) access address }
{
    let operation = Operation::Load(access.width);
    match compute(around.memory, around.data_end, operation, address, 0) {
        None => None,
        Some(number) => Some(value_of(access, number)),
    }
}

/// What is at a place that was located.
pub fn read(around: &Surroundings<'_>, target: &Lvalue, address: u64) -> Option<u64>
    ensures { result ≡ spec.read (surroundings_of around.now) (tree.lvalue target.now) address }
{
    match target {
        Lvalue::Local(index) => Some(local(around, *index)),
        Lvalue::Global { access, .. } => loaded(around, *access, address),
        Lvalue::Stacked { access, .. } => loaded(around, *access, address),
        Lvalue::Indirection { access, .. } => loaded(around, *access, address),
        Lvalue::Element { access, .. } => loaded(around, *access, address),
    }
}

/// An expression's value and the steps that are left after it, of so many before it.
#[cycle(values)]
pub fn value(around: &Surroundings<'_>, expr: &Expr, left: u64) -> Option<(u64, u64)>
    ensures { result ≡
        spec.value (surroundings_of around.now) (tree.expression expr.now) left }
{
    if left == 0 {
        return None;
    }
    let (value, left) = node_value(around, &expr.node, left - 1)?;
    Some((converted(expr.conversion, value), left))
}

/// The address of a place, and the steps that are left after it; of a local 0.
#[cycle(values)]
pub fn address(around: &Surroundings<'_>, target: &Lvalue, left: u64) -> Option<(u64, u64)>
    ensures { result ≡ spec.address (surroundings_of around.now) (tree.lvalue target.now) left }
{
    match target {
        Lvalue::Local(_) => Some((0, left)),
        Lvalue::Global { address, .. } => Some((*address, left)),
        Lvalue::Stacked { base, offset, .. } => {
            Some((stacked_address(around, *base, *offset), left))
        }
        Lvalue::Indirection { pointer, .. } => value(around, pointer, left),
        Lvalue::Element { array, index, .. } => {
            let (base, left) = value(around, array, left)?;
            let (offset, left) = value(around, index, left)?;
            Some((result_of(Pure::Add(Size::Long), base, offset), left))
        }
    }
}

#[cycle(values)]
fn read_value(around: &Surroundings<'_>, target: &Lvalue, left: u64) -> Option<(u64, u64)>
    ensures { result ≡ spec.node_value (surroundings_of around.now)
        (tree.Read (tree.lvalue target.now)) left }
{
    let (address, left) = address(around, target, left)?;
    let value = read(around, target, address)?;
    Some((value, left))
}

#[cycle(values)]
fn address_value(around: &Surroundings<'_>, target: &Lvalue, left: u64) -> Option<(u64, u64)>
    ensures { result ≡ spec.node_value (surroundings_of around.now)
        (tree.AddressOf (tree.lvalue target.now)) left }
{
    if left == 0 {
        return None;
    }
    address(around, target, left - 1)
}

#[cycle(values)]
fn unary_value(
    around: &Surroundings<'_>,
    operation: Pure,
    operand: &Expr,
    left: u64,
) -> Option<(u64, u64)>
    ensures { result ≡ spec.node_value (surroundings_of around.now)
        (tree.Unary operation (tree.expression operand.now)) left }
{
    let (value, left) = value(around, operand, left)?;
    Some((result_of(operation, value, 0), left))
}

/// What follows the left operand of a binary operator.
#[cycle(values)]
fn binary_value(
    around: &Surroundings<'_>,
    operation: Operation,
    first: Option<(u64, u64)>,
    second: &Expr,
) -> Option<(u64, u64)>
    ensures { result ≡ spec.then_with first (λ x left. spec.operated (surroundings_of around.now)
        operation (spec.value (surroundings_of around.now) (tree.expression second.now) left) x) }
{
    let (first, left) = first?;
    let (second, left) = value(around, second, left)?;
    let value = compute(around.memory, around.data_end, operation, first, second)?;
    Some((value, left))
}

/// What follows the left operand of a difference of pointers.
#[cycle(values)]
fn difference_value(
    around: &Surroundings<'_>,
    size: u64,
    first: Option<(u64, u64)>,
    second: &Expr,
) -> Option<(u64, u64)>
    ensures { result ≡ spec.then_with first (λ x left. spec.then_with
        (spec.value (surroundings_of around.now) (tree.expression second.now) left)
        (λ y left. Some (model.apart size x y, left))) }
{
    let (first, left) = first?;
    let (second, left) = value(around, second, left)?;
    Some((apart(size, first, second), left))
}

#[cycle(values)]
fn not_value(around: &Surroundings<'_>, operand: &Expr, left: u64) -> Option<(u64, u64)>
    ensures { result ≡ spec.node_value (surroundings_of around.now)
        (tree.Not (tree.expression operand.now)) left }
{
    let (value, left) = value(around, operand, left)?;
    Some((of_test(value == 0), left))
}

/// Whether an expression's value isn't 0, as a value.
#[cycle(values)]
fn tested(around: &Surroundings<'_>, expr: &Expr, left: u64) -> Option<(u64, u64)>
    ensures { result ≡ spec.tested (spec.value (surroundings_of around.now)
        (tree.expression expr.now) left) }
{
    let (value, left) = value(around, expr, left)?;
    Some((of_test(value != 0), left))
}

/// What follows the left operand of `&&`.
#[cycle(values)]
fn and_value(
    around: &Surroundings<'_>,
    first: Option<(u64, u64)>,
    second: &Expr,
) -> Option<(u64, u64)>
    ensures { result ≡ spec.then_with first (λ x left. spec.either (nat_eq x 0) (Some (0, left))
        (spec.tested (spec.value (surroundings_of around.now) (tree.expression second.now)
        left))) }
{
    let (value, left) = first?;
    if value == 0 {
        return Some((0, left));
    }
    tested(around, second, left)
}

/// What follows the left operand of `||`.
#[cycle(values)]
fn or_value(
    around: &Surroundings<'_>,
    first: Option<(u64, u64)>,
    second: &Expr,
) -> Option<(u64, u64)>
    ensures { result ≡ spec.then_with first (λ x left. spec.either (nat_eq x 0)
        (spec.tested (spec.value (surroundings_of around.now) (tree.expression second.now) left))
        (Some (1, left))) }
{
    let (value, left) = first?;
    if value == 0 {
        return tested(around, second, left);
    }
    Some((1, left))
}

/// What follows the left operand of a comma.
#[cycle(values)]
fn comma_value(
    around: &Surroundings<'_>,
    first: Option<(u64, u64)>,
    second: &Expr,
) -> Option<(u64, u64)>
    ensures { result ≡ spec.then_with first (λ x left. spec.value (surroundings_of around.now)
        (tree.expression second.now) left) }
{
    let (_, left) = first?;
    value(around, second, left)
}

/// The value of an expression without its conversion.
#[cycle(values)]
fn node_value(around: &Surroundings<'_>, node: &Node, left: u64) -> Option<(u64, u64)>
    ensures { result ≡ spec.node_value (surroundings_of around.now) (tree.node node.now) left }
{
    match node {
        Node::Constant { value, .. } => Some((*value, left)),
        Node::StackedArray { base, offset } => Some((
            stacked_address(around, *base, *offset),
            left,
        )),
        Node::Read(target) => read_value(around, target, left),
        Node::AddressOf(target) => address_value(around, target, left),
        Node::Assign { .. } => None,
        Node::CompoundAssign { .. } => None,
        Node::Increment { .. } => None,
        Node::Unary { operation, operand } => unary_value(around, *operation, operand, left),
        Node::Binary {
            operation,
            left: first,
            right,
        } => { binary_value(around, *operation, value(around, first, left), right) }
        Node::PointerDifference {
            size,
            left: first,
            right,
        } => { difference_value(around, *size, value(around, first, left), right) }
        Node::Not(operand) => not_value(around, operand, left),
        Node::And(first, second) => and_value(around, value(around, first, left), second),
        Node::Or(first, second) => or_value(around, value(around, first, left), second),
        Node::Conditional { condition, yes, no } => {
            let (holds, left) = value(around, condition, left)?;
            if holds == 0 {
                value(around, no, left)
            } else {
                value(around, yes, left)
            }
        }
        Node::Comma(first, second) => comma_value(around, value(around, first, left), second),
        Node::Call { .. } => None,
        Node::CallBuiltIn { .. } => None,
        Node::ExceptionCode => Some((u64::from(around.exception.code), left)),
        Node::Information(field) => Some((field_of(*field, around.exception), left)),
        Node::AbnormalTermination => Some((of_test(around.abnormal), left)),
    }
}
