//! How many instructions a part of a program is lowered to.

ghost use Rattle.std.specs.Prelude.{◌≡◌, ◌+◌, map, true, IfOk};
ghost use Rattle.c_checked.specs.Expression as tree;
ghost use Rattle.lowering_sizes.specs.Kinds.{is_assignment};
ghost use Rattle.lowering_sizes.specs.Sizes as spec;

use crate::sums::sum;
use c_checked::expression::{Conversion, Expr, Lvalue, Node};
use c_operations::operation::Pure;
use std::alloc::AllocError;

pub fn conversion_size(conversion: Conversion) -> u64
    ensures { result ≡ spec.conversion_size conversion }
{
    match conversion {
        Conversion::Kept => 0,
        Conversion::Extend { .. } => 1,
        Conversion::Scale { .. } => 2,
    }
}

fn unary_size(operation: Pure) -> u64
    ensures { result ≡ spec.unary_size operation }
{
    match operation {
        Pure::First => 0,
        _ => 2,
    }
}

/// How many temporaries a place that was located takes.
pub fn address_count(place: &Lvalue) -> u64
    ensures { result ≡ spec.address_count (tree.lvalue place.now) }
{
    match place {
        Lvalue::Local(_) => 0,
        Lvalue::Global { .. } => 1,
        Lvalue::Stacked { .. } => 1,
        Lvalue::Indirection { .. } => 1,
        Lvalue::Element { .. } => 1,
    }
}

pub fn read_size(place: &Lvalue) -> u64
    ensures { result ≡ spec.read_size (tree.lvalue place.now) }
{
    match place {
        Lvalue::Local(_) => 1,
        Lvalue::Global { .. } => 2,
        Lvalue::Stacked { .. } => 2,
        Lvalue::Indirection { .. } => 2,
        Lvalue::Element { .. } => 2,
    }
}

#[cycle(sizes)]
pub fn expression_size(expr: &Expr) -> Result<u64, AllocError>
    ensures { IfOk result (λ n. n ≡ spec.expression_size (tree.expression expr.now)) }
{
    let node = node_size(&expr.node)?;
    sum(node, conversion_size(expr.conversion))
}

#[cycle(sizes)]
pub fn locate_size(place: &Lvalue) -> Result<u64, AllocError>
    ensures { IfOk result (λ n. n ≡ spec.locate_size (tree.lvalue place.now)) }
{
    match place {
        Lvalue::Local(_) => Ok(0),
        Lvalue::Global { .. } => Ok(1),
        Lvalue::Stacked { .. } => Ok(2),
        Lvalue::Indirection { pointer, .. } => expression_size(pointer),
        Lvalue::Element { array, index, .. } => more_size(array, more_size(index, 1)?),
    }
}

/// The size of a call with these arguments.
#[cycle(sizes)]
fn call_size(arguments: &[Expr]) -> Result<u64, AllocError>
    ensures { IfOk result (λ n. n ≡
        spec.arguments_size (tree.arguments (map tree.expression arguments.now)) + 1) }
{
    let mut total = 1;
    for argument in arguments {
        let size = expression_size(argument)?;
        total = sum(total, size)?;
    }
    Ok(total)
}

/// The size of an expression, and so many more.
#[cycle(sizes)]
pub(crate) fn more_size(expr: &Expr, more: u64) -> Result<u64, AllocError>
    ensures { IfOk result (λ n. n ≡ spec.expression_size (tree.expression expr.now) + more) }
{
    let size = expression_size(expr)?;
    sum(size, more)
}

/// The size of the address of a place, and so many more.
#[cycle(sizes)]
fn more_located(place: &Lvalue, more: u64) -> Result<u64, AllocError>
    ensures { IfOk result (λ n. n ≡ spec.locate_size (tree.lvalue place.now) + more) }
{
    let located = locate_size(place)?;
    sum(located, more)
}

#[cycle(sizes)]
fn address_size(place: &Lvalue) -> Result<u64, AllocError>
    ensures { IfOk result (λ n. n ≡ spec.node_size (tree.AddressOf (tree.lvalue place.now))) }
{
    let located = locate_size(place)?;
    match place {
        Lvalue::Local(_) => Ok(1),
        Lvalue::Global { .. } => Ok(located),
        Lvalue::Stacked { .. } => Ok(located),
        Lvalue::Indirection { .. } => Ok(located),
        Lvalue::Element { .. } => Ok(located),
    }
}

#[cycle(sizes)]
fn increment_size(target: &Lvalue, before: Conversion, after: Conversion) -> Result<u64, AllocError>
    ensures { IfOk result (λ n. n ≡ spec.locate_size (tree.lvalue target.now)
        + (spec.read_size (tree.lvalue target.now)
        + (1 + (spec.conversion_size before + (2 + (spec.conversion_size after + 2)))))) }
{
    more_located(
        target,
        read_size(target) + (1 + (conversion_size(before) + (2 + (conversion_size(after) + 2)))),
    )
}

/// The size of `=`, also with an operator.
#[cycle(sizes)]
fn assignment_size(node: &Node) -> Result<u64, AllocError>
    requires { is_assignment (tree.node node.now) ≡ true }
    ensures { IfOk result (λ n. n ≡ spec.node_size (tree.node node.now)) }
{
    match node {
        Node::Assign { target, value } => more_located(target, more_size(value, 1)?),
        Node::CompoundAssign {
            target,
            before,
            value,
            after,
            ..
        } => {
            let begun = read_size(target) + conversion_size(*before);
            let rest = more_size(value, begun + (1 + (conversion_size(*after) + 1)))?;
            more_located(target, rest)
        }
        _ => unreachable!(),
    }
}

#[cycle(sizes)]
fn node_size(node: &Node) -> Result<u64, AllocError>
    ensures { IfOk result (λ n. n ≡ spec.node_size (tree.node node.now)) }
{
    match node {
        Node::Constant { .. } => Ok(1),
        Node::StackedArray { .. } => Ok(2),
        Node::Read(place) => more_located(place, read_size(place)),
        Node::AddressOf(place) => address_size(place),
        Node::Increment {
            target,
            before,
            after,
            ..
        } => increment_size(target, *before, *after),
        Node::Unary { operation, operand } => more_size(operand, unary_size(*operation)),
        Node::Binary { left, right, .. } => more_size(left, more_size(right, 1)?),
        Node::PointerDifference { left, right, .. } => more_size(left, more_size(right, 3)?),
        Node::Not(operand) => more_size(operand, 4),
        Node::And(left, right) => more_size(left, more_size(right, 5)?),
        Node::Or(left, right) => more_size(left, more_size(right, 7)?),
        Node::Conditional { condition, yes, no } => {
            more_size(condition, more_size(yes, more_size(no, 2)?)?)
        }
        Node::Comma(left, right) => more_size(left, more_size(right, 1)?),
        Node::Call { arguments, .. } => call_size(arguments),
        Node::CallBuiltIn { arguments, .. } => call_size(arguments),
        Node::ExceptionCode => Ok(1),
        Node::Information(_) => Ok(1),
        Node::AbnormalTermination => Ok(1),
        _ => assignment_size(node),
    }
}
