//! The code of expressions.

ghost use Rattle.std.specs.Prelude.{◌≡◌, ◌+◌, ◌++◌, map, length, true, OnOk};
ghost use Rattle.c_checked.specs.Expression as tree;
ghost use Rattle.lowering_sizes.specs.Kinds.{is_assignment, is_branch_or_assignment, has_several};
ghost use Rattle.lowering_sizes.specs.Sizes.{expression_size};
ghost use Rattle.lowering_expressions.specs.Appended.{Places};
ghost use Rattle.lowering_expressions.specs.Expressions as spec;

use crate::instructions::{
    abnormal, choose, constant, convert, exception_code, information, put, read, stacked, unary,
};
use crate::pieces::{
    after_place, assign, begin_compound, copy_down, end_compound, end_difference, increment,
    operate, skip_before, test, test_before,
};
use crate::scope::Names;
use c_checked::expression::{Expr, Lvalue, Node};
use c_operations::built_in::BuiltIn;
use c_operations::operation::{Operation, Pure, Size};
use linear_code::instruction::Instruction;
use lowering_sizes::sums::sum;
use std::alloc::AllocError;

fn count_of(args: &[Expr]) -> u64
    ensures { result ≡ length args.now }
{
    args.len() as u64
}

/// The code of an expression, with its value to the temporary `d`.
#[cycle(expressions)]
pub fn expression(
    code: &mut Vec<Instruction>,
    names: Names,
    expr: &Expr,
    d: u64,
) -> Result<(), AllocError>
    ensures { OnOk result (Places code.old code.new
        (spec.expression_code names (tree.expression expr.now) d)) }
{
    node(code, names, &expr.node, d)?;
    convert(code, expr.conversion, d)
}

/// The address of a place to the temporary `d`, and of a local nothing.
#[cycle(expressions)]
fn locate(
    code: &mut Vec<Instruction>,
    names: Names,
    place: &Lvalue,
    d: u64,
) -> Result<(), AllocError>
    ensures { OnOk result (Places code.old code.new
        (spec.locate_code names (tree.lvalue place.now) d)) }
{
    match place {
        Lvalue::Local(_) => Ok(()),
        Lvalue::Global { address, .. } => put(code, constant(d, *address)),
        Lvalue::Stacked { base, offset, .. } => stacked(code, *base, *offset, d),
        Lvalue::Indirection { pointer, .. } => expression(code, names, pointer, d),
        Lvalue::Element { array, index, .. } => {
            expression(code, names, array, d)?;
            next_operand(code, names, index, d)?;
            operate(code, d, Operation::Pure(Pure::Add(Size::Long)))
        }
    }
}

/// An expression to the temporary after `d`.
#[cycle(expressions)]
fn next_operand(
    code: &mut Vec<Instruction>,
    names: Names,
    expr: &Expr,
    d: u64,
) -> Result<(), AllocError>
    ensures { OnOk result (Places code.old code.new
        (spec.expression_code names (tree.expression expr.now) (d + 1))) }
{
    let next = sum(d, 1)?;
    expression(code, names, expr, next)
}

/// What is at a place, to the temporary `d`.
#[cycle(expressions)]
fn read_node(
    code: &mut Vec<Instruction>,
    names: Names,
    place: &Lvalue,
    d: u64,
) -> Result<(), AllocError>
    ensures { OnOk result (Places code.old code.new
        (spec.node_code names (tree.Read (tree.lvalue place.now)) d)) }
{
    locate(code, names, place, d)?;
    read(code, place, d, d)
}

#[cycle(expressions)]
fn address(
    code: &mut Vec<Instruction>,
    names: Names,
    place: &Lvalue,
    d: u64,
) -> Result<(), AllocError>
    ensures { OnOk result (Places code.old code.new
        (spec.node_code names (tree.AddressOf (tree.lvalue place.now)) d)) }
{
    match place {
        Lvalue::Local(_) => put(code, constant(d, 0)),
        Lvalue::Global { .. } => locate(code, names, place, d),
        Lvalue::Stacked { .. } => locate(code, names, place, d),
        Lvalue::Indirection { .. } => locate(code, names, place, d),
        Lvalue::Element { .. } => locate(code, names, place, d),
    }
}

/// The arguments of a call to the temporaries from `d` on.
#[cycle(expressions)]
fn arguments(
    code: &mut Vec<Instruction>,
    names: Names,
    args: &[Expr],
    d: u64,
) -> Result<(), AllocError>
    ensures { OnOk result (Places code.old code.new
        (spec.arguments_code names (tree.arguments (map tree.expression args.now)) d)) }
{
    let mut next = d;
    for arg in args {
        expression(code, names, arg, next)?;
        next = sum(next, 1)?;
    }
    Ok(())
}

#[cycle(expressions)]
fn call(
    code: &mut Vec<Instruction>,
    names: Names,
    function: u64,
    args: &[Expr],
    d: u64,
) -> Result<(), AllocError>
    ensures { OnOk result (Places code.old code.new
        (spec.node_code names
        (tree.Call function (tree.arguments (map tree.expression args.now))) d)) }
{
    arguments(code, names, args, d)?;
    put(
        code,
        Instruction::Call {
            function,
            first: d,
            count: count_of(args),
        },
    )
}

#[cycle(expressions)]
fn call_built_in(
    code: &mut Vec<Instruction>,
    names: Names,
    function: BuiltIn,
    args: &[Expr],
    d: u64,
) -> Result<(), AllocError>
    ensures { OnOk result (Places code.old code.new
        (spec.node_code names
        (tree.CallBuiltIn function (tree.arguments (map tree.expression args.now))) d)) }
{
    arguments(code, names, args, d)?;
    put(code, Instruction::CallBuiltIn { function, first: d })
}

/// `=`, also with an operator (C11, 6.5.16).
#[cycle(expressions)]
fn assignment(
    code: &mut Vec<Instruction>,
    names: Names,
    node: &Node,
    d: u64,
) -> Result<(), AllocError>
    requires { is_assignment (tree.node node.now) ≡ true }
    ensures { OnOk result (Places code.old code.new (spec.node_code names (tree.node node.now) d)) }
{
    match node {
        Node::Assign { target, value } => {
            let from = after_place(target, d)?;
            locate(code, names, target, d)?;
            expression(code, names, value, from)?;
            assign(code, target, d)
        }
        Node::CompoundAssign {
            target,
            before,
            operation,
            value,
            after,
        } => {
            let old = after_place(target, d)?;
            let next = sum(old, 1)?;
            locate(code, names, target, d)?;
            begin_compound(code, target, *before, d)?;
            expression(code, names, value, next)?;
            end_compound(code, target, *operation, *after, d)
        }
        _ => unreachable!(),
    }
}

/// An expression, as one number where it is 0, and as another where it isn't.
#[cycle(expressions)]
fn choice(
    code: &mut Vec<Instruction>,
    names: Names,
    expr: &Expr,
    d: u64,
    zero: u64,
    other: u64,
) -> Result<(), AllocError>
    ensures { OnOk result (Places code.old code.new (λ at.
        spec.expression_code names (tree.expression expr.now) d at
        ++ spec.choice_code d (at + expression_size (tree.expression expr.now)) zero other)) }
{
    expression(code, names, expr, d)?;
    choose(code, d, zero, other)
}

/// `&&`, `||` and `? :`, whose first operand chooses what is evaluated (C11, 6.5.13 to 6.5.15).
#[cycle(expressions)]
fn branch(code: &mut Vec<Instruction>, names: Names, node: &Node, d: u64) -> Result<(), AllocError>
    requires { is_branch_or_assignment (tree.node node.now) ≡ true }
    ensures { OnOk result (Places code.old code.new (spec.node_code names (tree.node node.now) d)) }
{
    match node {
        Node::And(left, right) => {
            expression(code, names, left, d)?;
            test_before(code, d, right, 4)?;
            choice(code, names, right, d, 0, 1)
        }
        Node::Or(left, right) => {
            expression(code, names, left, d)?;
            test(code, d, 0, 3)?;
            put(code, constant(d, 1))?;
            skip_before(code, right, 5)?;
            choice(code, names, right, d, 0, 1)
        }
        Node::Conditional { condition, yes, no } => {
            expression(code, names, condition, d)?;
            test_before(code, d, yes, 2)?;
            expression(code, names, yes, d)?;
            skip_before(code, no, 1)?;
            expression(code, names, no, d)
        }
        _ => assignment(code, names, node, d),
    }
}

/// A node with several operands.
#[cycle(expressions)]
fn several(code: &mut Vec<Instruction>, names: Names, node: &Node, d: u64) -> Result<(), AllocError>
    requires { has_several (tree.node node.now) ≡ true }
    ensures { OnOk result (Places code.old code.new (spec.node_code names (tree.node node.now) d)) }
{
    match node {
        Node::Binary {
            operation,
            left,
            right,
        } => {
            expression(code, names, left, d)?;
            next_operand(code, names, right, d)?;
            operate(code, d, *operation)
        }
        Node::PointerDifference { size, left, right } => {
            expression(code, names, left, d)?;
            next_operand(code, names, right, d)?;
            end_difference(code, *size, d)
        }
        Node::Comma(left, right) => {
            expression(code, names, left, d)?;
            next_operand(code, names, right, d)?;
            copy_down(code, d)
        }
        _ => branch(code, names, node, d),
    }
}

/// A node, with its value to the temporary `d`.
#[cycle(expressions)]
fn node(code: &mut Vec<Instruction>, names: Names, node: &Node, d: u64) -> Result<(), AllocError>
    ensures { OnOk result (Places code.old code.new (spec.node_code names (tree.node node.now) d)) }
{
    match node {
        Node::Constant { value, .. } => put(code, constant(d, *value)),
        Node::StackedArray { base, offset } => stacked(code, *base, *offset, d),
        Node::Read(place) => read_node(code, names, place, d),
        Node::AddressOf(place) => address(code, names, place, d),
        Node::Increment {
            fixity,
            target,
            before,
            operation,
            amount,
            after,
        } => {
            locate(code, names, target, d)?;
            increment(
                code, target, *fixity, *before, *operation, *amount, *after, d,
            )
        }
        Node::Unary { operation, operand } => {
            expression(code, names, operand, d)?;
            unary(code, *operation, d)
        }
        Node::Not(operand) => choice(code, names, operand, d, 1, 0),
        Node::Call {
            function,
            arguments,
        } => call(code, names, *function, arguments, d),
        Node::CallBuiltIn {
            function,
            arguments,
        } => { call_built_in(code, names, *function, arguments, d) }
        Node::ExceptionCode => put(code, exception_code(names.exception, d)),
        Node::Information(field) => put(code, information(*field, d)),
        Node::AbnormalTermination => put(code, abnormal(names.abnormal, d)),
        _ => several(code, names, node, d),
    }
}
