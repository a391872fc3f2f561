//! Marks of the locals that an expression names.

ghost use Rattle.std.specs.Prelude.{◌≡◌, map, true};
ghost use Rattle.c_checked.specs.Expression as tree;
ghost use Rattle.lowering_sizes.specs.Kinds.{has_several, is_branch_or_assignment};
ghost use Rattle.lowering_registers.specs.Marks as spec;

use c_checked::expression::{Expr, Lvalue, Node};

/// Marks a local, if there is one of this number.
pub(crate) fn mark(marks: &mut Vec<bool>, local: u64)
    ensures { marks.new.items ≡ spec.with_mark local marks.old.items }
{
    let index = local as usize;
    if index < marks.len() {
        marks[index] = true;
    }
}

/// Marks the locals that an expression names.
#[cycle(marking)]
pub(crate) fn mark_expression(marks: &mut Vec<bool>, expr: &Expr)
    ensures { marks.new.items ≡ spec.with_expression (tree.expression expr.now) marks.old.items }
{
    mark_node(marks, &expr.node);
}

#[cycle(marking)]
fn mark_lvalue(marks: &mut Vec<bool>, place: &Lvalue)
    ensures { marks.new.items ≡ spec.with_lvalue (tree.lvalue place.now) marks.old.items }
{
    match place {
        Lvalue::Local(local) => mark(marks, *local),
        Lvalue::Global { .. } => (),
        Lvalue::Stacked { base, .. } => mark(marks, *base),
        Lvalue::Indirection { pointer, .. } => mark_expression(marks, pointer),
        Lvalue::Element { array, index, .. } => {
            mark_expression(marks, array);
            mark_expression(marks, index)
        }
    }
}

#[cycle(marking)]
fn mark_arguments(marks: &mut Vec<bool>, arguments: &[Expr])
    ensures { marks.new.items ≡ spec.with_arguments
        (tree.arguments (map tree.expression arguments.now)) marks.old.items }
{
    for argument in arguments {
        mark_expression(marks, argument);
    }
}

/// Marks the locals that a node with several operands names.
#[cycle(marking)]
fn mark_operands(marks: &mut Vec<bool>, node: &Node)
    requires { has_several (tree.node node.now) ≡ true }
    ensures { marks.new.items ≡ spec.with_node (tree.node node.now) marks.old.items }
{
    match node {
        Node::Binary { left, right, .. } => {
            mark_expression(marks, left);
            mark_expression(marks, right)
        }
        Node::PointerDifference { left, right, .. } => {
            mark_expression(marks, left);
            mark_expression(marks, right)
        }
        Node::Comma(left, right) => {
            mark_expression(marks, left);
            mark_expression(marks, right)
        }
        _ => mark_branch_or_assignment(marks, node),
    }
}

/// Marks the locals that a node names that may leave an operand out, or an assignment.
#[cycle(marking)]
fn mark_branch_or_assignment(marks: &mut Vec<bool>, node: &Node)
    requires { is_branch_or_assignment (tree.node node.now) ≡ true }
    ensures { marks.new.items ≡ spec.with_node (tree.node node.now) marks.old.items }
{
    match node {
        Node::And(left, right) => {
            mark_expression(marks, left);
            mark_expression(marks, right)
        }
        Node::Or(left, right) => {
            mark_expression(marks, left);
            mark_expression(marks, right)
        }
        Node::Conditional { condition, yes, no } => {
            mark_expression(marks, condition);
            mark_expression(marks, yes);
            mark_expression(marks, no)
        }
        Node::Assign { target, value } => {
            mark_lvalue(marks, target);
            mark_expression(marks, value)
        }
        Node::CompoundAssign { target, value, .. } => {
            mark_lvalue(marks, target);
            mark_expression(marks, value)
        }
        _ => unreachable!(),
    }
}

#[cycle(marking)]
fn mark_node(marks: &mut Vec<bool>, node: &Node)
    ensures { marks.new.items ≡ spec.with_node (tree.node node.now) marks.old.items }
{
    match node {
        Node::Constant { .. } => (),
        Node::StackedArray { base, .. } => mark(marks, *base),
        Node::Read(place) => mark_lvalue(marks, place),
        Node::AddressOf(place) => mark_lvalue(marks, place),
        Node::Increment { target, .. } => mark_lvalue(marks, target),
        Node::Unary { operand, .. } => mark_expression(marks, operand),
        Node::Not(operand) => mark_expression(marks, operand),
        Node::Call { arguments, .. } => mark_arguments(marks, arguments),
        Node::CallBuiltIn { arguments, .. } => mark_arguments(marks, arguments),
        Node::ExceptionCode => (),
        Node::Information(_) => (),
        Node::AbnormalTermination => (),
        _ => mark_operands(marks, node),
    }
}
