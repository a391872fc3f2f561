//! Results go to what waits for them.

ghost use Rattle.std.specs.Prelude.{◌≡◌, ◌+◌, ◌-◌, ◌++◌, [], ◌∷◌, List, IfOk, OnOk, map, nat_eq};
ghost use Rattle.source_meaning.specs.State as states;
ghost use Rattle.source_meaning.specs.Tasks as tasks;
ghost use Rattle.seh_num.specs.declared.event.Event.{Event as Event'};
ghost use Rattle.c_checked.specs.Statement as trees;
ghost use Rattle.source_machine.specs.Frames as frames;
ghost use Rattle.source_machine.specs.Machine as model;
ghost use Rattle.source_plans.specs.Views as views;
ghost use Rattle.source_plans.specs.Views.{place_of, plan_of};
ghost use Rattle.source_steps.specs.Machines.{machine_of, shown_after, Moved, Showed};
ghost use Rattle.source_steps.specs.Finished.{resumed_from};

use crate::machine::{Interpreter, MachineStep, showing, silent, silently};
use c_checked::expression::Expr;
use c_checked::function::DataPart;
use c_checked::statement::Stmt;
use seh_num::event::{Code, Event};
use source_plans::expressions::start;
use source_plans::frame::{
    Action, AssignmentFrame, BodyFrame, Callee, Completion, ContinuationFrame, Finish, Next,
    OperandFrame, SequelFrame, StatementFrame, Waiting,
};
use source_plans::place::{Exception, Place};
use source_plans::results::{
    assignment_plan, body_plan, in_statement_plan, operand_plan, passed_plan, sequel_plan,
};
use source_plans::task::Task;
use std::alloc::AllocError;

/// A `__finally` block is to run.
fn finally<'p>(number: u32, finally_block: &'p Vec<Stmt>, abnormal: bool, place: Place) -> Next<'p>
    ensures { views.next_of result ≡ frames.Start (tasks.RunFinally number
        (views.all_statements finally_block.now.items) abnormal) (place_of place) }
{
    start(
        Task::RunFinally {
            number,
            finally_block,
            abnormal,
        },
        place,
    )
}

impl<'p> Interpreter<'p> {
    /// An activation that a target leaves is held. A run holds at most 1,000, so that there is room
    /// for one more; a count that has none fails as want of memory does.
    fn hold_activation(&mut self) -> Result<(), AllocError>
        ensures { OnOk result (self.new ≡ record self.old { held = self.old.held + 1 }) }
    {
        match self.held.checked_add(1) {
            None => Err(AllocError),
            Some(held) => {
                self.held = held;
                Ok(())
            }
        }
    }

    /// What an activation held of the depth beside itself is no longer held.
    fn let_go_surplus(&mut self, surplus: u64)
        ensures { self.new ≡ record self.old { held = self.old.held - surplus } }
    {
        self.held = self.held.saturating_sub(surplus);
    }

    /// The activations beyond so many are gone, with the surplus of the outermost of them.
    fn leave_activations(&mut self, count: usize, surplus: u64)
        ensures { (x : frames.Next) (es : List Event') → model.with_activations
            (machine_of self.old x es) count surplus ≡ machine_of self.new x es }
    {
        self.activations.truncate(count);
        self.functions.truncate(count);
        self.let_go_surplus(surplus);
    }

    /// The end of a call, of a function with this surplus, and what its activation has of the data
    /// stack.
    fn leave_call(
        &mut self,
        count: usize,
        surplus: u64,
        part: Option<DataPart>,
        how: Completion,
    ) -> Result<Next<'p>, AllocError>
        ensures { IfOk result (Moved self.old self.new (λ m. model.left_call m count surplus
            part (views.result_of how))) }
    {
        match how {
            Completion::Normal => {
                self.close_part(part, count);
                self.leave_activations(count, surplus);
                Ok(Next::Does(Action::Give(Completion::Value(0))))
            }
            Completion::Returned(value) => {
                self.close_part(part, count);
                self.leave_activations(count, surplus);
                Ok(Next::Does(Action::Give(Completion::Value(value))))
            }
            Completion::Target(level, exception) => {
                self.activations.truncate(count);
                self.functions.truncate(count);
                self.hold_activation()?;
                Ok(Next::Does(Action::Give(Completion::Target(level, exception))))
            }
            other => {
                self.leave_activations(count, surplus);
                Ok(Next::Does(Action::Give(other)))
            }
        }
    }

    /// An exception's way leads past a `__try` with an `__except`, or ends at it.
    fn land(
        &mut self,
        held: u64,
        block: &'p Vec<Stmt>,
        place: Place,
        level: usize,
        exception: Exception,
    ) -> MachineStep<'p>
        ensures { Showed self.old self.new (λ m. model.landed m held
            (views.all_statements block.now.items) (place_of place) (states.Target level
            (views.exception_of exception))) result }
    {
        if level != self.handlers.len() {
            return silent(Next::Does(Action::Give(Completion::Target(level, exception))));
        }
        self.held = held;
        self.reset_pointer(place.data_part, place.activation);
        let inside = Place {
            activation: place.activation,
            data_part: place.data_part,
            exception,
            abnormal: place.abnormal,
        };
        showing(
            Event::Except(Code(exception.code)),
            Next::Does(Action::Proceed(block, 0, inside)),
        )
    }

    /// The end of a `__try` with a `__finally`.
    fn finish_try(
        &mut self,
        number: u32,
        finally_block: &'p Vec<Stmt>,
        place: Place,
        how: Completion,
    ) -> Result<Next<'p>, AllocError>
        ensures { IfOk result (Moved self.old self.new (λ m. model.finished m number
            (views.all_statements finally_block.now.items) (place_of place)
            (views.result_of how))) }
    {
        match how {
            Completion::Normal => Ok(finally(number, finally_block, false, place)),
            Completion::LeftTry => Ok(finally(number, finally_block, false, place)),
            other => {
                self.push(ContinuationFrame::Waits(Waiting::Sequel(SequelFrame::GivesResult(
                    other,
                ))))?;
                Ok(finally(number, finally_block, true, place))
            }
        }
    }

    /// A result is given to an operand's frame.
    fn resume_operand(
        &mut self,
        frame: OperandFrame<'p>,
        how: Completion,
    ) -> Result<Next<'p>, AllocError>
        ensures { IfOk result (Moved self.old self.new (λ m. model.resumed m (frames.Operand
            (views.operand_frame_of frame.entry)) (views.result_of how))) }
    {
        match how {
            Completion::Value(value) => self.follow(operand_plan(frame, value)),
            other => Ok(Next::Does(Action::Give(other))),
        }
    }

    /// A result is given to a call, as the value of an argument.
    fn resume_passing(
        &mut self,
        callee: Callee,
        values: Vec<u64>,
        arguments: &'p Vec<Expr>,
        next: usize,
        place: Place,
        how: Completion,
    ) -> Result<Next<'p>, AllocError>
        ensures { IfOk result (Moved self.old self.new (λ m. model.resumed m (frames.Operand
            (frames.PassesArgument (views.callee_of callee) values.items
            (views.arguments_from arguments.now.items next) (place_of place)))
            (views.result_of how))) }
    {
        match how {
            Completion::Value(value) => {
                let plan = passed_plan(callee, values, value, arguments, next, place)?;
                self.follow(plan)
            }
            other => Ok(Next::Does(Action::Give(other))),
        }
    }

    /// A result is given to a frame of an assignment.
    fn resume_assignment(
        &mut self,
        frame: AssignmentFrame<'p>,
        how: Completion,
    ) -> Result<Next<'p>, AllocError>
        ensures { IfOk result (Moved self.old self.new (λ m. model.resumed m (frames.Assignment
            (views.assignment_frame_of frame.entry)) (views.result_of how))) }
    {
        match how {
            Completion::Value(value) => self.follow(assignment_plan(frame, value)),
            other => Ok(Next::Does(Action::Give(other))),
        }
    }

    /// A result is given to a frame of a statement.
    fn resume_statement(
        &mut self,
        frame: StatementFrame<'p>,
        how: Completion,
    ) -> Result<Next<'p>, AllocError>
        ensures { IfOk result (Moved self.old self.new (λ m. model.resumed m (frames.InStatement
            (views.statement_frame_of frame.entry)) (views.result_of how))) }
    {
        match how {
            Completion::Value(value) => self.follow(in_statement_plan(frame, value)),
            other => Ok(Next::Does(Action::Give(other))),
        }
    }

    /// A result is given to a frame that waits for a normal end.
    fn resume_sequel(
        &mut self,
        frame: SequelFrame<'p>,
        how: Completion,
    ) -> Result<Next<'p>, AllocError>
        ensures { IfOk result (Moved self.old self.new (λ m. model.resumed m (frames.Sequel
            (views.sequel_frame_of frame.entry)) (views.result_of how))) }
    {
        match how {
            Completion::Normal => self.follow(sequel_plan(frame)),
            other => Ok(Next::Does(Action::Give(other))),
        }
    }

    /// A result is given to the end of a loop's body.
    fn resume_body(&mut self, frame: BodyFrame<'p>, how: Completion) -> Result<Next<'p>, AllocError>
        ensures { IfOk result (Moved self.old self.new (λ m. model.resumed m (frames.Body
            (views.body_frame_of frame.entry)) (views.result_of how))) }
    {
        match how {
            Completion::Normal => self.follow(body_plan(frame)),
            Completion::Continued => self.follow(body_plan(frame)),
            Completion::Broke => Ok(Next::Does(Action::Give(Completion::Normal))),
            other => Ok(Next::Does(Action::Give(other))),
        }
    }

    /// A result is given to the end of a `__try` with an `__except`, whose handler is gone.
    fn resume_landing(
        &mut self,
        held: u64,
        block: &'p Vec<Stmt>,
        place: Place,
        how: Completion,
    ) -> MachineStep<'p>
        ensures { Showed self.old self.new (λ m. model.landed m held
            (views.all_statements block.now.items) (place_of place)
            (views.result_of how)) result }
    {
        match how {
            Completion::LeftTry => silent(Next::Does(Action::Give(Completion::Normal))),
            Completion::Target(level, exception) => self.land(held, block, place, level, exception),
            other => silent(Next::Does(Action::Give(other))),
        }
    }

    /// A result is given to a frame that holds no values of arguments.
    fn resume_waiting(
        &mut self,
        frame: Waiting<'p>,
        how: Completion,
    ) -> Result<MachineStep<'p>, AllocError>
        ensures { IfOk result (Showed self.old self.new (λ m. resumed_from m
            (views.waiting_of frame.entry) (views.result_of how))) }
    {
        match frame {
            Waiting::Operand(frame) => silently(self.resume_operand(frame, how)),
            Waiting::Assignment(frame) => silently(self.resume_assignment(frame, how)),
            Waiting::Statement(frame) => silently(self.resume_statement(frame, how)),
            Waiting::Sequel(frame) => silently(self.resume_sequel(frame, how)),
            Waiting::Body(frame) => silently(self.resume_body(frame, how)),
            Waiting::EndsCall(count, surplus, part) => {
                silently(self.leave_call(count, surplus, part, how))
            }
            Waiting::Lands(held, block, place) => {
                let _ = self.handlers.pop();
                Ok(self.resume_landing(held, block, place, how))
            }
            Waiting::Finishes(number, finally_block, place) => {
                silently(self.finish_try(number, finally_block, place, how))
            }
        }
    }

    /// A result is given to a frame.
    fn resume(
        &mut self,
        frame: ContinuationFrame<'p>,
        how: Completion,
    ) -> Result<MachineStep<'p>, AllocError>
        ensures { IfOk result (Showed self.old self.new (λ m. resumed_from m
            (views.frame_of frame.entry) (views.result_of how))) }
    {
        match frame {
            ContinuationFrame::Waits(frame) => self.resume_waiting(frame, how),
            ContinuationFrame::PassesArgument(callee, values, arguments, next, place) => {
                silently(self.resume_passing(callee, values, arguments, next, place, how))
            }
        }
    }

    /// A result is given to the newest frame; without one the run is over.
    pub fn give(&mut self, how: Completion) -> Result<MachineStep<'p>, AllocError>
        ensures { IfOk result (Showed self.old self.new (λ m. model.given m
            (views.result_of how) m.stack)) }
    {
        match self.stack.pop() {
            None => Ok(silent(Next::Does(Action::Over(Finish::Gave(how))))),
            Some(frame) => self.resume(frame, how),
        }
    }
}
