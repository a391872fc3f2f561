//! What frames do with results.

ghost use Rattle.std.specs.Prelude.{◌≡◌, ◌++◌, ◌^◌, [], ◌∷◌, map, option_map, nat_eq, nat_lt, IfOk};
ghost use Rattle.seh_num.specs.declared.width.Width.TheVariants.{W32};
ghost use Rattle.seh_num.specs.Widths.{low};
ghost use Rattle.c_checked.specs.Expression as tree;
ghost use Rattle.c_checked.specs.Statement as trees;
ghost use Rattle.source_machine.specs.Frames as frames;
ghost use Rattle.source_machine.specs.Plans as plans;
ghost use Rattle.source_plans.specs.Views as views;
ghost use Rattle.source_plans.specs.Views.{place_of, plan_of};

use crate::expressions::{evaluates, gives, operand, push, start, then};
use crate::frame::{
    Action, AssignmentFrame, BodyFrame, Callee, Completion, Compound, ContinuationFrame, ForPart,
    Next, OperandFrame, Plan, SequelFrame, StackAction, StatementFrame, Stepped, VectoredAction,
    Waiting,
};
use crate::place::{AskedPlace, Exception, NONCONTINUABLE, Place};
use crate::statements::{branch, ends, first_plan, for_body, iterate, tested};
use crate::task::{ForLoop, Task};
use crate::values::{apart, converted, incremented_value, of_test, value_of};
use c_checked::expression::Expr;
use c_checked::statement::Stmt;
use c_operations::operation::{Pure, Size};
use seh_num::extension::zero_extend;
use seh_num::width::Width;
use source_operations::pure::result_of;
use std::alloc::AllocError;

/// What `&&` leads to.
fn and_plan<'p>(left: u64, right: &'p Expr, place: Place) -> Plan<'p>
    ensures { plan_of result ≡ plans.operand_plan (frames.EvaluatesIfTrue
        (tree.expression right.now) (place_of place)) left }
{
    if left == 0 {
        gives(0)
    } else {
        operand(OperandFrame::Tests, right, place)
    }
}

/// What `||` leads to.
fn or_plan<'p>(left: u64, right: &'p Expr, place: Place) -> Plan<'p>
    ensures { plan_of result ≡ plans.operand_plan (frames.EvaluatesIfFalse
        (tree.expression right.now) (place_of place)) left }
{
    if left == 0 {
        operand(OperandFrame::Tests, right, place)
    } else {
        gives(1)
    }
}

/// What `?` leads to.
fn choose_plan<'p>(condition: u64, yes: &'p Expr, no: &'p Expr, place: Place) -> Plan<'p>
    ensures { plan_of result ≡ plans.operand_plan (frames.Chooses (tree.expression yes.now)
        (tree.expression no.now) (place_of place)) condition }
{
    if condition == 0 {
        then(evaluates(no, place))
    } else {
        then(evaluates(yes, place))
    }
}

/// An operand's value is there.
pub fn operand_plan<'p>(frame: OperandFrame<'p>, value: u64) -> Plan<'p>
    ensures { plan_of result ≡ plans.operand_plan (views.operand_frame_of frame.entry) value }
{
    match frame {
        OperandFrame::Converts(conversion) => gives(converted(conversion, value)),
        OperandFrame::EvaluatesIndex(index, place) => {
            operand(OperandFrame::AddsIndex(value), index, place)
        }
        OperandFrame::AddsIndex(address) => {
            gives(result_of(Pure::Add(Size::Long), address, value))
        }
        OperandFrame::Applies(operation) => gives(result_of(operation, value, 0)),
        OperandFrame::EvaluatesRight(operation, right, place) => operand(
            OperandFrame::Operates(operation, value, place),
            right,
            place,
        ),
        OperandFrame::Operates(operation, left, place) => {
            then(Next::Does(Action::Operate(operation, left, value, place)))
        }
        OperandFrame::EvaluatesSubtrahend(size, right, place) => {
            operand(OperandFrame::Measures(size, value), right, place)
        }
        OperandFrame::Measures(size, left) => gives(apart(size, left, value)),
        OperandFrame::Inverts => gives(of_test(value == 0)),
        OperandFrame::EvaluatesIfTrue(right, place) => and_plan(value, right, place),
        OperandFrame::EvaluatesIfFalse(right, place) => or_plan(value, right, place),
        OperandFrame::Tests => gives(of_test(value != 0)),
        OperandFrame::Chooses(yes, no, place) => choose_plan(value, yes, no, place),
        OperandFrame::Discards(right, place) => then(evaluates(right, place)),
    }
}

/// An argument's value is there, and those from an index on follow.
pub fn passed_plan<'p>(
    callee: Callee,
    values: Vec<u64>,
    value: u64,
    arguments: &'p Vec<Expr>,
    next: usize,
    place: Place,
) -> Result<Plan<'p>, AllocError>
    ensures { IfOk result (λ plan. plan_of plan ≡ plans.operand_plan (frames.PassesArgument
        (views.callee_of callee) values.items (views.arguments_from arguments.now.items next)
        (place_of place)) value) }
{
    let mut values = values;
    values.push(value)?;
    Ok(then(Next::Pass(callee, values, arguments, next, place)))
}

fn assignment<'p>(frame: AssignmentFrame<'p>, next: Next<'p>) -> Plan<'p>
    ensures { plan_of result ≡ plans.assignment (views.assignment_frame_of frame.entry)
        (views.next_of next.entry) }
{
    push(ContinuationFrame::Waits(Waiting::Assignment(frame)), next)
}

/// The address of an operator's target is there: what is there is read.
fn read_compound<'p>(of: Compound<'p>, address: u64, place: Place) -> Plan<'p>
    ensures { plan_of result ≡ plans.assignment_plan (frames.ReadsCompound
        (views.compound_of of.entry) (place_of place)) address }
{
    assignment(
        AssignmentFrame::EvaluatesCompound(of, address, place),
        Next::Does(Action::Fetch(of.target, address, place)),
    )
}

/// An operator's target was read: its value is evaluated.
fn evaluate_compound<'p>(of: Compound<'p>, address: u64, old: u64, place: Place) -> Plan<'p>
    ensures { plan_of result ≡ plans.assignment_plan (frames.EvaluatesCompound
        (views.compound_of of.entry) address (place_of place)) old }
{
    assignment(
        AssignmentFrame::OperatesCompound(of, address, old, place),
        evaluates(of.value, place),
    )
}

/// Both operands of an operator are there.
fn operate_compound<'p>(
    of: Compound<'p>,
    address: u64,
    old: u64,
    value: u64,
    place: Place,
) -> Plan<'p>
    ensures { plan_of result ≡ plans.assignment_plan (frames.OperatesCompound
        (views.compound_of of.entry) address old (place_of place)) value }
{
    let first = converted(of.before, old);
    assignment(
        AssignmentFrame::AssignsCompound(of, address, place),
        Next::Does(Action::Operate(of.operation, first, value, place)),
    )
}

/// The address of what is incremented is there: what is there is read.
fn read_stepped<'p>(of: Stepped<'p>, address: u64, place: Place) -> Plan<'p>
    ensures { plan_of result ≡ plans.assignment_plan (frames.ReadsStepped
        (views.stepped_of of.entry) (place_of place)) address }
{
    assignment(
        AssignmentFrame::OperatesStepped(of, address, place),
        Next::Does(Action::Fetch(of.target, address, place)),
    )
}

/// What is incremented was read.
fn operate_stepped<'p>(of: Stepped<'p>, address: u64, old: u64, place: Place) -> Plan<'p>
    ensures { plan_of result ≡ plans.assignment_plan (frames.OperatesStepped
        (views.stepped_of of.entry) address (place_of place)) old }
{
    let first = converted(of.before, old);
    assignment(
        AssignmentFrame::AssignsStepped(of, address, old, place),
        Next::Does(Action::Operate(of.operation, first, of.amount, place)),
    )
}

/// The new value of what is incremented is written to its place.
fn assign_stepped<'p>(of: Stepped<'p>, address: u64, old: u64, value: u64, place: Place) -> Plan<'p>
    ensures { plan_of result ≡ plans.assignment_plan (frames.AssignsStepped
        (views.stepped_of of.entry) address old (place_of place)) value }
{
    let new = converted(of.after, value);
    assignment(
        AssignmentFrame::GivesStepped(of.fixity, old),
        Next::Does(Action::Put(of.target, address, new, place)),
    )
}

/// A place's address is there, or a value on its way from or to a place.
pub fn assignment_plan<'p>(frame: AssignmentFrame<'p>, value: u64) -> Plan<'p>
    ensures { plan_of result ≡ plans.assignment_plan (views.assignment_frame_of frame.entry) value }
{
    match frame {
        AssignmentFrame::ReadsCompound(of, place) => read_compound(of, value, place),
        AssignmentFrame::EvaluatesCompound(of, address, place) => {
            evaluate_compound(of, address, value, place)
        }
        AssignmentFrame::OperatesCompound(of, address, old, place) => {
            operate_compound(of, address, old, value, place)
        }
        AssignmentFrame::AssignsCompound(of, address, place) => {
            let new = converted(of.after, value);
            then(Next::Does(Action::Put(of.target, address, new, place)))
        }
        AssignmentFrame::ReadsStepped(of, place) => read_stepped(of, value, place),
        AssignmentFrame::OperatesStepped(of, address, place) => {
            operate_stepped(of, address, value, place)
        }
        AssignmentFrame::AssignsStepped(of, address, old, place) => {
            assign_stepped(of, address, old, value, place)
        }
        AssignmentFrame::GivesStepped(fixity, old) => gives(incremented_value(fixity, old, value)),
        AssignmentFrame::ReadsPlace(target, place) => then(Next::Does(Action::Fetch(
            target, value, place,
        ))),
        AssignmentFrame::Extends(access) => gives(value_of(access, value)),
        AssignmentFrame::EvaluatesAssigned(target, expr, place) => assignment(
            AssignmentFrame::Assigns(target, value, place),
            evaluates(expr, place),
        ),
        AssignmentFrame::Assigns(target, address, place) => {
            then(Next::Does(Action::Put(target, address, value, place)))
        }
    }
}

/// A filter's answer, an `int`: above 0 takes over, 0 asks the next, and below 0 continues.
fn answer_plan<'p>(answer: u64, level: usize, exception: Exception, place: Place) -> Plan<'p>
    ensures { plan_of result ≡ plans.in_statement_plan (frames.IsAnswered level
        (views.exception_of exception) (place_of place)) answer }
{
    let number = zero_extend(Width::W32, answer);
    if number == 0 {
        then(Next::Does(Action::Search(level, exception, place)))
    } else if number < 0x8000_0000 {
        then(Next::Does(Action::Give(Completion::Target(level, exception))))
    } else if exception.flag {
        then(start(Task::Raise(NONCONTINUABLE), place))
    } else {
        ends()
    }
}

/// A vectored handler's answer, an `int`: below 0 continues, and after any other the next one is
/// asked.
pub fn vectored_plan<'p>(
    answer: u64,
    asked: AskedPlace,
    exception: Exception,
    place: Place,
) -> Plan<'p>
    ensures { plan_of result ≡ plans.vectored_plan (nat_lt (low W32 answer) (2 ^ 31))
        exception.flag asked.value (views.exception_of exception) (place_of place) }
{
    if zero_extend(Width::W32, answer) < 0x8000_0000 {
        let next = VectoredAction::AskFrom(asked.next());
        then(Next::Does(Action::OfVectored(next, exception, place)))
    } else if exception.flag {
        then(start(Task::Raise(NONCONTINUABLE), place))
    } else {
        ends()
    }
}

/// A value is there in a statement, or as an answer of a filter or a vectored handler.
pub fn in_statement_plan<'p>(frame: StatementFrame<'p>, value: u64) -> Plan<'p>
    ensures { plan_of result ≡ plans.in_statement_plan
        (views.statement_frame_of frame.entry) value }
{
    match frame {
        StatementFrame::Initialises(local, place) => {
            then(Next::Does(Action::SetLocal(local, value, place)))
        }
        StatementFrame::InitialisesStacked(variable, place) => {
            let put = StackAction::Put(variable, value);
            then(Next::Does(Action::OnStack(put, place)))
        }
        StatementFrame::EndsEvaluation => ends(),
        StatementFrame::Branches(yes, no, place) => branch(value == 0, yes, no, place),
        StatementFrame::For(part, of, place) => for_step(part, value, of, place),
        StatementFrame::TestsDo(body, condition, place) => do_test(value, body, condition, place),
        StatementFrame::Returns => then(Next::Does(Action::Give(Completion::Returned(value)))),
        StatementFrame::EndsFilter => then(Next::Does(Action::Answer(value))),
        StatementFrame::IsAnswered(level, exception, place) => {
            answer_plan(value, level, exception, place)
        }
        StatementFrame::EndsVectored(asked, exception, place) => {
            let answered = VectoredAction::Answered {
                answer: value,
                asked,
            };
            then(Next::Does(Action::OfVectored(answered, exception, place)))
        }
    }
}

/// A condition of `for` or `while` has this value.
fn for_test<'p>(value: u64, of: ForLoop<'p>, place: Place) -> Plan<'p>
    ensures { plan_of result ≡ plans.in_statement_plan (frames.TestsFor
        (views.for_loop_of of.entry) (place_of place)) value }
{
    if value == 0 {
        ends()
    } else {
        for_body(of, place)
    }
}

/// An iteration of `for` or `while` begins, or its condition has this value.
fn for_step<'p>(part: ForPart, value: u64, of: ForLoop<'p>, place: Place) -> Plan<'p>
    ensures { plan_of result
        ≡ plans.in_statement_plan
        (views.for_frame_of part (views.for_loop_of of.entry) (place_of place)) value }
{
    match part {
        ForPart::Begins => then(iterate(of, place)),
        ForPart::Tests => for_test(value, of, place),
    }
}

/// A condition of `do` has this value.
fn do_test<'p>(value: u64, body: &'p Box<Stmt>, condition: &'p Expr, place: Place) -> Plan<'p>
    ensures { plan_of result ≡ plans.in_statement_plan (frames.TestsDo
        (trees.statement body.now.value) (tree.expression condition.now) (place_of place)) value }
{
    if value == 0 {
        ends()
    } else {
        then(start(Task::DoIteration { body, condition }, place))
    }
}

/// What waited ended normally.
pub fn sequel_plan<'p>(frame: SequelFrame<'p>) -> Plan<'p>
    ensures { plan_of result ≡ plans.sequel_plan (views.sequel_frame_of frame.entry) }
{
    match frame {
        SequelFrame::Continues(stmts, next, place) => then(Next::Does(Action::Proceed(
            stmts, next, place,
        ))),
        SequelFrame::DeclaresRest(declared, next, place) => {
            then(Next::Does(Action::DeclareEach(declared, next, place)))
        }
        SequelFrame::EvaluatesFirst(first, of, place) => first_plan(first, of, place),
        SequelFrame::Retries(operation, first, second, place) => then(start(
            Task::Retry {
                operation,
                first,
                second,
            },
            place,
        )),
        SequelFrame::GivesZero => gives(0),
        SequelFrame::GivesResult(how) => then(Next::Does(Action::Give(how))),
        SequelFrame::EndsFinally => then(Next::Does(Action::LetGo)),
    }
}

/// A loop's body ended, and not by `break`.
pub fn body_plan<'p>(frame: BodyFrame<'p>) -> Plan<'p>
    ensures { plan_of result ≡ plans.body_plan (views.body_frame_of frame.entry) }
{
    match frame {
        BodyFrame::EndsForBody(of, place) => first_plan(of.next, of, place),
        BodyFrame::EndsDoBody(body, condition, place) => tested(
            StatementFrame::TestsDo(body, condition, place),
            condition,
            place,
        ),
    }
}
