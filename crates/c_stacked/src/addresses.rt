//! The variables whose addresses expressions take (C11, 6.5.3.2).

ghost use Rattle.std.specs.Prelude.{◌≡◌, map};
ghost use Rattle.c_checked.specs.Expression as tree;
ghost use Rattle.c_resolved.specs.Addresses as spec;

use c_checked::expression::{Expr, Lvalue, Node};

/// The variable of this number is the operand of an `&`.
fn with_address(number: u64, marks: &mut [bool])
    ensures { marks.new ≡ spec.with_address number marks.old }
{
    if number < marks.len() as u64 {
        marks[number as usize] = true;
    }
}

#[cycle(mark)]
pub fn mark_expression(expr: &Expr, marks: &mut [bool])
    ensures { marks.new ≡ spec.mark_expression (tree.expression expr.now) marks.old }
{
    mark_node(&expr.node, marks)
}

#[cycle(mark)]
fn mark_lvalue(place: &Lvalue, marks: &mut [bool])
    ensures { marks.new ≡ spec.mark_lvalue (tree.lvalue place.now) marks.old }
{
    match place {
        Lvalue::Local(_) => {}
        Lvalue::Global { .. } => {}
        Lvalue::Stacked { .. } => {}
        Lvalue::Indirection { pointer, .. } => mark_expression(pointer, marks),
        Lvalue::Element { array, index, .. } => {
            mark_expression(array, marks);
            mark_expression(index, marks)
        }
    }
}

/// The operand of an `&`.
#[cycle(mark)]
fn mark_address(place: &Lvalue, marks: &mut [bool])
    ensures { marks.new ≡ spec.mark_address (tree.lvalue place.now) marks.old }
{
    match place {
        Lvalue::Local(number) => with_address(*number, marks),
        Lvalue::Global { .. } => {}
        Lvalue::Stacked { .. } => {}
        Lvalue::Indirection { pointer, .. } => mark_expression(pointer, marks),
        Lvalue::Element { array, index, .. } => {
            mark_expression(array, marks);
            mark_expression(index, marks)
        }
    }
}

#[cycle(mark)]
fn mark_arguments(arguments: &[Expr], marks: &mut [bool])
    ensures { marks.new ≡ spec.mark_arguments
        (tree.arguments (map tree.expression arguments.now)) marks.old }
{
    for argument in arguments {
        mark_expression(argument, marks);
    }
}

#[cycle(mark)]
fn mark_node(node: &Node, marks: &mut [bool])
    ensures { marks.new ≡ spec.mark_node (tree.node node.now) marks.old }
{
    match node {
        Node::Constant { .. } => {}
        Node::StackedArray { .. } => {}
        Node::Read(place) => mark_lvalue(place, marks),
        Node::AddressOf(place) => mark_address(place, marks),
        Node::Assign { target, value } | Node::CompoundAssign { target, value, .. } => {
            mark_lvalue(target, marks);
            mark_expression(value, marks)
        }
        Node::Increment { target, .. } => mark_lvalue(target, marks),
        Node::Unary { operand, .. } => mark_expression(operand, marks),
        Node::Not(operand) => mark_expression(operand, marks),
        Node::Binary { left, right, .. }
        | Node::PointerDifference { left, right, .. }
        | Node::And(left, right)
        | Node::Or(left, right)
        | Node::Comma(left, right) => {
            mark_expression(left, marks);
            mark_expression(right, marks)
        }
        Node::Conditional { condition, yes, no } => {
            mark_expression(condition, marks);
            mark_expression(yes, marks);
            mark_expression(no, marks)
        }
        Node::Call { arguments, .. } => mark_arguments(arguments, marks),
        Node::CallBuiltIn { arguments, .. } => mark_arguments(arguments, marks),
        Node::ExceptionCode => {}
        Node::Information(_) => {}
        Node::AbnormalTermination => {}
    }
}
