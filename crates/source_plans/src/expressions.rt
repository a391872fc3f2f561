//! What is done next for an expression.

ghost use Rattle.std.specs.Prelude.{◌≡◌, [], map, IfOk};
ghost use Rattle.c_checked.specs.Expression as tree;
ghost use Rattle.source_machine.specs.Frames as frames;
ghost use Rattle.source_machine.specs.Plans as plans;
ghost use Rattle.source_plans.specs.Views as views;
ghost use Rattle.source_plans.specs.Kinds.{IsCompoundAssign, IsIncrement, IsOperator};
ghost use Rattle.source_plans.specs.Views.{place_of, plan_of};

use crate::frame::{
    Action, AssignmentFrame, Callee, Completion, Compound, ContinuationFrame, Next, OperandFrame,
    Phase, Plan, StackAction, Stepped, Waiting,
};
use crate::place::Place;
use crate::task::Task;
use crate::values::{field_of, of_test};
use c_checked::expression::{Expr, Lvalue, Node};
use c_operations::operation::Operation;
use std::alloc::Global;

/// Something is done next.
pub fn then<'p>(next: Next<'p>) -> Plan<'p>
    ensures { plan_of result ≡ frames.Then (views.next_of next.entry) }
{
    Plan { pushed: None, next }
}

/// Something is done next, and then a frame continues.
pub fn push<'p>(frame: ContinuationFrame<'p>, next: Next<'p>) -> Plan<'p>
    ensures { plan_of result ≡ frames.Push (views.frame_of frame.entry) (views.next_of next.entry) }
{
    Plan {
        pushed: Some(frame),
        next,
    }
}

/// A task is to be done.
pub fn start<'p>(task: Task<'p>, place: Place) -> Next<'p>
    ensures { views.next_of result ≡ frames.Start (views.task_of task.entry) (place_of place) }
{
    Next::Does(Action::Do(Phase::Before, task, place))
}

/// A value is given.
pub fn gives<'p>(value: u64) -> Plan<'p>
    ensures { plan_of result ≡ plans.gives value }
{
    then(Next::Does(Action::Give(Completion::Value(value))))
}

/// An expression is evaluated.
pub fn evaluates<'p>(expr: &'p Expr, place: Place) -> Next<'p>
    ensures { views.next_of result ≡ plans.evaluates (tree.expression expr.now) (place_of place) }
{
    start(Task::Eval(expr), place)
}

/// An operand is evaluated, and then a frame continues.
pub fn operand<'p>(frame: OperandFrame<'p>, expr: &'p Expr, place: Place) -> Plan<'p>
    ensures { plan_of result
        ≡ plans.operand (views.operand_frame_of frame.entry) (tree.expression expr.now)
        (place_of place) }
{
    push(
        ContinuationFrame::Waits(Waiting::Operand(frame)),
        evaluates(expr, place),
    )
}

/// A place is located, and then a frame continues.
fn located<'p>(frame: AssignmentFrame<'p>, target: &'p Lvalue, place: Place) -> Plan<'p>
    ensures { plan_of result
        ≡ plans.assignment (views.assignment_frame_of frame.entry)
        (plans.locates (tree.lvalue target.now) (place_of place)) }
{
    push(
        ContinuationFrame::Waits(Waiting::Assignment(frame)),
        start(Task::Locate(target), place),
    )
}

/// For an expression: its node, and then its conversion.
pub fn expression_plan<'p>(expr: &'p Expr, place: Place) -> Plan<'p>
    ensures { plan_of result ≡ plans.expression_plan (tree.expression expr.now) (place_of place) }
{
    push(
        ContinuationFrame::Waits(Waiting::Operand(OperandFrame::Converts(expr.conversion))),
        Next::Does(Action::Evaluate(&expr.node, place)),
    )
}

/// For what stands so many bytes above the base that a local keeps.
fn stacked_plan<'p>(base: u64, offset: u64, place: Place) -> Plan<'p>
    ensures { plan_of result ≡ frames.Then (frames.FindStacked base offset (place_of place)) }
{
    let find = StackAction::Find { base, offset };
    then(Next::Does(Action::OnStack(find, place)))
}

/// For a place that is found.
pub fn find_plan<'p>(target: &'p Lvalue, place: Place) -> Plan<'p>
    ensures { plan_of result ≡ plans.find_plan (tree.lvalue target.now) (place_of place) }
{
    match target {
        Lvalue::Local(_) => gives(0),
        Lvalue::Global { address, .. } => gives(*address),
        Lvalue::Stacked { base, offset, .. } => stacked_plan(*base, *offset, place),
        Lvalue::Indirection { pointer, .. } => then(evaluates(pointer, place)),
        Lvalue::Element { array, index, .. } => {
            operand(OperandFrame::EvaluatesIndex(index, place), array, place)
        }
    }
}

/// For a call, before its first argument.
fn call_plan<'p>(alloc: Global, callee: Callee, arguments: &'p Vec<Expr>, place: Place) -> Plan<'p>
    ensures { plan_of result
        ≡ frames.Then (frames.Pass (views.callee_of callee) []
        (tree.arguments (map tree.expression arguments.now.items)) (place_of place)) }
{
    then(Next::Pass(callee, Vec::new(alloc), arguments, 0, place))
}

/// For a place that is read.
fn read_plan<'p>(target: &'p Lvalue, place: Place) -> Plan<'p>
    ensures { plan_of result ≡
        plans.node_plan (tree.Read (tree.lvalue target.now)) (place_of place) }
{
    push(
        ContinuationFrame::Waits(Waiting::Assignment(AssignmentFrame::ReadsPlace(target, place))),
        Next::Does(Action::Find(target, place)),
    )
}

/// For `=`: the target's place is found before the value.
fn assign_plan<'p>(target: &'p Lvalue, value: &'p Box<Expr>, place: Place) -> Plan<'p>
    ensures { plan_of result ≡ plans.node_plan (tree.Assign (tree.lvalue target.now)
        (tree.expression value.now.value)) (place_of place) }
{
    located(
        AssignmentFrame::EvaluatesAssigned(target, value, place),
        target,
        place,
    )
}

/// For `op=`: the target's place is found first, and read before the value is evaluated.
fn compound_plan<'p>(node: &'p Node, place: Place) -> Plan<'p>
    requires { IsCompoundAssign (tree.node node.now) }
    ensures { plan_of result ≡ plans.node_plan (tree.node node.now) (place_of place) }
{
    match node {
        Node::CompoundAssign {
            target,
            before,
            operation,
            value,
            after,
        } => {
            let compound = Compound {
                target,
                before: *before,
                operation: *operation,
                value,
                after: *after,
            };
            let reads = AssignmentFrame::ReadsCompound(compound, place);
            located(reads, target, place)
        }
        _ => gives(0),
    }
}

/// For `++` and `--`: the target's place is found and read.
fn increment_plan<'p>(node: &'p Node, place: Place) -> Plan<'p>
    requires { IsIncrement (tree.node node.now) }
    ensures { plan_of result ≡ plans.node_plan (tree.node node.now) (place_of place) }
{
    match node {
        Node::Increment {
            fixity,
            target,
            before,
            operation,
            amount,
            after,
        } => {
            let stepped = Stepped {
                fixity: *fixity,
                target,
                before: *before,
                operation: *operation,
                amount: *amount,
                after: *after,
            };
            located(AssignmentFrame::ReadsStepped(stepped, place), target, place)
        }
        _ => gives(0),
    }
}

/// For a binary operator: the left operand first.
fn binary_plan<'p>(
    operation: Operation,
    left: &'p Box<Expr>,
    right: &'p Box<Expr>,
    place: Place,
) -> Plan<'p>
    ensures { plan_of result ≡ plans.node_plan (tree.Binary operation
        (tree.expression left.now.value) (tree.expression right.now.value)) (place_of place) }
{
    let waits = OperandFrame::EvaluatesRight(operation, right, place);
    operand(waits, left, place)
}

/// For `? :`: the condition first.
fn conditional_plan<'p>(
    condition: &'p Expr,
    yes: &'p Box<Expr>,
    no: &'p Box<Expr>,
    place: Place,
) -> Plan<'p>
    ensures { plan_of result ≡ plans.node_plan (tree.Conditional (tree.expression condition.now)
        (tree.expression yes.now.value) (tree.expression no.now.value)) (place_of place) }
{
    operand(OperandFrame::Chooses(yes, no, place), condition, place)
}

/// For `left - right` of pointers.
fn difference_plan<'p>(size: u64, left: &'p Expr, right: &'p Box<Expr>, place: Place) -> Plan<'p>
    ensures { plan_of result ≡ plans.node_plan (tree.PointerDifference size
        (tree.expression left.now) (tree.expression right.now.value)) (place_of place) }
{
    operand(
        OperandFrame::EvaluatesSubtrahend(size, right, place),
        left,
        place,
    )
}

/// For an operator that changes no place: its first operand.
fn operator_plan<'p>(node: &'p Node, place: Place) -> Plan<'p>
    requires { IsOperator (tree.node node.now) }
    ensures { plan_of result ≡ plans.node_plan (tree.node node.now) (place_of place) }
{
    match node {
        Node::Unary {
            operation,
            operand: of,
        } => operand(OperandFrame::Applies(*operation), of, place),
        Node::Binary {
            operation,
            left,
            right,
        } => binary_plan(*operation, left, right, place),
        Node::PointerDifference { size, left, right } => difference_plan(*size, left, right, place),
        Node::Not(of) => operand(OperandFrame::Inverts, of, place),
        Node::And(left, right) => operand(OperandFrame::EvaluatesIfTrue(right, place), left, place),
        Node::Or(left, right) => operand(OperandFrame::EvaluatesIfFalse(right, place), left, place),
        Node::Conditional { condition, yes, no } => conditional_plan(condition, yes, no, place),
        Node::Comma(left, right) => operand(OperandFrame::Discards(right, place), left, place),
        _ => gives(0),
    }
}

/// For an expression without its conversion.
pub fn node_plan<'p>(alloc: Global, node: &'p Node, place: Place) -> Plan<'p>
    ensures { plan_of result ≡ plans.node_plan (tree.node node.now) (place_of place) }
{
    match node {
        Node::Constant { value, .. } => gives(*value),
        Node::StackedArray { base, offset } => stacked_plan(*base, *offset, place),
        Node::Read(target) => read_plan(target, place),
        Node::AddressOf(target) => then(start(Task::Locate(target), place)),
        Node::Assign { target, value } => assign_plan(target, value, place),
        Node::CompoundAssign { .. } => compound_plan(node, place),
        Node::Increment { .. } => increment_plan(node, place),
        Node::Call {
            function,
            arguments,
        } => call_plan(alloc, Callee::Defined(*function), arguments, place),
        Node::CallBuiltIn {
            function,
            arguments,
        } => call_plan(alloc, Callee::BuiltIn(*function), arguments, place),
        Node::ExceptionCode => gives(u64::from(place.exception.code)),
        Node::Information(field) => gives(field_of(*field, place.exception)),
        Node::AbnormalTermination => gives(of_test(place.abnormal)),
        _ => operator_plan(node, place),
    }
}

/// For the arguments from an index on, after the values of those before them.
pub fn pass_plan<'p>(
    callee: Callee,
    values: Vec<u64>,
    arguments: &'p Vec<Expr>,
    next: usize,
    place: Place,
) -> Plan<'p>
    ensures { plan_of result
        ≡ plans.pass_plan (views.callee_of callee) values.items
        (views.arguments_from arguments.now.items next) (place_of place) }
{
    if next >= arguments.len() {
        return then(Next::Call(callee, values, place));
    }
    push(
        ContinuationFrame::PassesArgument(callee, values, arguments, next + 1, place),
        evaluates(&arguments[next], place),
    )
}
