//! Expressions with their variables where these stand.

ghost use Rattle.std.specs.Prelude.{◌≡◌, true, map};
ghost use Rattle.c_checked.specs.Expression as tree;
ghost use Rattle.c_resolved.specs.Placed as spec;
ghost use Rattle.c_stacked.specs.Kinds.{has_more, has_several, is_logical};
ghost use Rattle.c_stacked.specs.Views.{layout};

use crate::layout::Layout;
use c_checked::expression::{Expr, Lvalue, Node};
use c_operations::operation::Size;
use std::mem;

/// A variable where it stands.
fn variable(places: &Layout, number: u64) -> Lvalue
    ensures { tree.lvalue result ≡ spec.variable_at places.now.base number
        (spec.place_of (layout places.now) number) }
{
    match places.place_of(number) {
        None => Lvalue::Local(number),
        Some(place) => Lvalue::Stacked {
            access: place.access,
            base: places.base,
            offset: place.offset,
        },
    }
}

/// What has no address.
fn no_address() -> Node
    ensures { tree.node result ≡ spec.no_address }
{
    Node::Constant {
        size: Size::Long,
        value: 0,
    }
}

/// An array where it stands.
fn array(places: &Layout, number: u64) -> Node
    ensures { tree.node result ≡ spec.array_at places.now.base
        (spec.place_of (layout places.now) number) }
{
    match places.place_of(number) {
        None => no_address(),
        Some(place) => Node::StackedArray {
            base: places.base,
            offset: place.offset,
        },
    }
}

/// The address of a place; a local has none.
fn address_of(place: Lvalue) -> Node
    ensures { tree.node result ≡ spec.address_of (tree.lvalue place) }
{
    match place {
        Lvalue::Local(_) => no_address(),
        Lvalue::Global { access, address } => Node::AddressOf(Lvalue::Global { access, address }),
        Lvalue::Stacked {
            access,
            base,
            offset,
        } => Node::AddressOf(Lvalue::Stacked {
            access,
            base,
            offset,
        }),
        Lvalue::Indirection { access, pointer } => {
            Node::AddressOf(Lvalue::Indirection { access, pointer })
        }
        Lvalue::Element {
            access,
            array,
            index,
        } => Node::AddressOf(Lvalue::Element {
            access,
            array,
            index,
        }),
    }
}

#[cycle(place)]
pub fn place_expression(places: &Layout, expr: &mut Expr)
    ensures { tree.expression expr.new ≡
        spec.place_expression (layout places.now) (tree.expression expr.old) }
{
    let node = mem::replace(&mut expr.node, Node::ExceptionCode);
    expr.node = place_node(places, node);
}

#[cycle(place)]
fn place_lvalue(places: &Layout, place: Lvalue) -> Lvalue
    ensures { tree.lvalue result ≡ spec.place_lvalue (layout places.now) (tree.lvalue place) }
{
    match place {
        Lvalue::Local(number) => variable(places, number),
        Lvalue::Global { access, address } => Lvalue::Global { access, address },
        Lvalue::Stacked { base, .. } => variable(places, base),
        Lvalue::Indirection {
            access,
            mut pointer,
        } => {
            place_expression(places, &mut pointer);
            Lvalue::Indirection { access, pointer }
        }
        Lvalue::Element {
            access,
            mut array,
            mut index,
        } => {
            place_expression(places, &mut array);
            place_expression(places, &mut index);
            Lvalue::Element {
                access,
                array,
                index,
            }
        }
    }
}

#[cycle(place)]
fn place_arguments(places: &Layout, arguments: &mut [Expr])
    ensures { tree.arguments (map tree.expression arguments.new) ≡ spec.place_arguments
        (layout places.now) (tree.arguments (map tree.expression arguments.old)) }
{
    for argument in arguments.iter_mut() {
        place_expression(places, argument);
    }
}

#[cycle(place)]
fn place_node(places: &Layout, node: Node) -> Node
    ensures { tree.node result ≡ spec.place_node (layout places.now) (tree.node node) }
{
    match node {
        Node::Constant { size, value } => Node::Constant { size, value },
        Node::StackedArray { base, .. } => array(places, base),
        Node::Read(place) => Node::Read(place_lvalue(places, place)),
        Node::AddressOf(place) => address_of(place_lvalue(places, place)),
        Node::Unary {
            operation,
            mut operand,
        } => {
            place_expression(places, &mut operand);
            Node::Unary { operation, operand }
        }
        Node::Not(mut operand) => {
            place_expression(places, &mut operand);
            Node::Not(operand)
        }
        Node::Call {
            function,
            mut arguments,
        } => {
            place_arguments(places, &mut arguments);
            Node::Call {
                function,
                arguments,
            }
        }
        Node::ExceptionCode => Node::ExceptionCode,
        Node::Information(field) => Node::Information(field),
        Node::AbnormalTermination => Node::AbnormalTermination,
        other => place_more(places, other),
    }
}

/// A change of a place, or a call of a built-in function, or an operator with several operands.
#[cycle(place)]
fn place_more(places: &Layout, node: Node) -> Node
    requires { has_more (tree.node node) ≡ true }
    ensures { tree.node result ≡ spec.place_node (layout places.now) (tree.node node) }
{
    match node {
        Node::CallBuiltIn {
            function,
            mut arguments,
        } => {
            place_arguments(places, &mut arguments);
            Node::CallBuiltIn {
                function,
                arguments,
            }
        }
        Node::Assign { target, mut value } => {
            let target = place_lvalue(places, target);
            place_expression(places, &mut value);
            Node::Assign { target, value }
        }
        Node::Increment {
            fixity,
            target,
            before,
            operation,
            amount,
            after,
        } => Node::Increment {
            fixity,
            target: place_lvalue(places, target),
            before,
            operation,
            amount,
            after,
        },
        other => place_several(places, other),
    }
}

/// An assignment with an operator, or an operator with several operands.
#[cycle(place)]
fn place_several(places: &Layout, node: Node) -> Node
    requires { has_several (tree.node node) ≡ true }
    ensures { tree.node result ≡ spec.place_node (layout places.now) (tree.node node) }
{
    match node {
        Node::CompoundAssign {
            target,
            before,
            operation,
            mut value,
            after,
        } => {
            let target = place_lvalue(places, target);
            place_expression(places, &mut value);
            Node::CompoundAssign {
                target,
                before,
                operation,
                value,
                after,
            }
        }
        Node::PointerDifference {
            size,
            mut left,
            mut right,
        } => {
            place_expression(places, &mut left);
            place_expression(places, &mut right);
            Node::PointerDifference { size, left, right }
        }
        Node::Binary {
            operation,
            mut left,
            mut right,
        } => {
            place_expression(places, &mut left);
            place_expression(places, &mut right);
            Node::Binary {
                operation,
                left,
                right,
            }
        }
        other => place_logical(places, other),
    }
}

/// `&&`, `||`, `? :` or a comma.
#[cycle(place)]
fn place_logical(places: &Layout, node: Node) -> Node
    requires { is_logical (tree.node node) ≡ true }
    ensures { tree.node result ≡ spec.place_node (layout places.now) (tree.node node) }
{
    match node {
        Node::And(mut left, mut right) => {
            place_expression(places, &mut left);
            place_expression(places, &mut right);
            Node::And(left, right)
        }
        Node::Or(mut left, mut right) => {
            place_expression(places, &mut left);
            place_expression(places, &mut right);
            Node::Or(left, right)
        }
        Node::Comma(mut left, mut right) => {
            place_expression(places, &mut left);
            place_expression(places, &mut right);
            Node::Comma(left, right)
        }
        Node::Conditional {
            mut condition,
            mut yes,
            mut no,
        } => {
            place_expression(places, &mut condition);
            place_expression(places, &mut yes);
            place_expression(places, &mut no);
            Node::Conditional { condition, yes, no }
        }
        _ => unreachable!(),
    }
}
