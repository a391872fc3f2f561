//! Vectored handlers: those of the list are asked about an exception, and answer.

ghost use Rattle.std.specs.Prelude.{◌≡◌, ◌^◌, List, IfOk, slice_get, not, nat_eq, nat_lt};
ghost use Rattle.seh_num.specs.declared.event.Event.{Event as Event'};
ghost use Rattle.seh_num.specs.declared.width.Width.TheVariants.{W32};
ghost use Rattle.seh_num.specs.Widths.{low};
ghost use Rattle.c_checked.specs.Program.{Program};
ghost use Rattle.source_meaning.specs.Raises as raises;
ghost use Rattle.source_meaning.specs.Expressions.{of_test as model_test};
ghost use Rattle.source_meaning.specs.State.{Value, let_go, set_vectored};
ghost use Rattle.source_meaning.specs.Tasks as tasks;
ghost use Rattle.source_machine.specs.Frames as frames;
ghost use Rattle.source_machine.specs.Machine as model;
ghost use Rattle.source_machine.specs.Plans.{vectored_plan as model_plan};
ghost use Rattle.source_plans.specs.Views as views;
ghost use Rattle.source_plans.specs.Views.{place_of};
ghost use Rattle.source_steps.specs.Machines.{machine_of, Moved};
ghost use Rattle.vectored_list.specs.Lists.{is_listed, can_be_added, added, removed};

use crate::machine::{Interpreter, too_deep};
use seh_num::extension::zero_extend;
use seh_num::width::Width;
use source_plans::expressions::start;
use source_plans::frame::{
    Action, Callee, Completion, ContinuationFrame, Next, StatementFrame, VectoredAction, Waiting,
};
use source_plans::place::{AskedPlace, Exception, Place};
use source_plans::results::vectored_plan;
use source_plans::task::Task;
use source_plans::values::of_test;
use std::alloc::{AllocError, Global};

/// What a vectored handler is called with: the code and the flag.
fn arguments(alloc: Global, exception: Exception) -> Result<Vec<u64>, AllocError>
    ensures { IfOk result (λ values. values.items
        ≡ raises.handler_arguments (views.exception_of exception)) }
{
    let mut values = Vec::new(alloc);
    values.push(u64::from(exception.code))?;
    values.push(of_test(exception.flag))?;
    Ok(values)
}

/// Whether a vectored handler becomes the first one, by an `unsigned`.
fn is_first(value: u64) -> bool
    ensures { result ≡ not (nat_eq (low W32 value) 0) }
{
    zero_extend(Width::W32, value) != 0
}

impl<'p> Interpreter<'p> {
    /// The function of this number becomes a vectored handler, and whether it could is given.
    pub fn add_vectored(&mut self, handler: u64, first: u64) -> Next<'p>
        ensures { Moved self.old self.new (λ m. model.with_next (model.at_state m (set_vectored
            m.state (added (not (nat_eq (low W32 first) 0)) handler m.state.vectored)))
            (frames.Give (Value (model_test (can_be_added handler m.state.vectored))))) result }
    {
        let is_added = self.vectored.add(is_first(first), handler);
        Next::Does(Action::Give(Completion::Value(of_test(is_added))))
    }

    /// The function of this number is a vectored handler no more, and whether it was one is given.
    pub fn remove_vectored(&mut self, handler: u64) -> Next<'p>
        ensures { Moved self.old self.new (λ m. model.with_next (model.at_state m (set_vectored
            m.state (removed handler m.state.vectored)))
            (frames.Give (Value (model_test (is_listed handler m.state.vectored))))) result }
    {
        let is_removed = self.vectored.remove(handler);
        Next::Does(Action::Give(Completion::Value(of_test(is_removed))))
    }

    /// The vectored handler at a place of their list is to be asked, and where there is none the
    /// handlers.
    fn ask_from(&self, from: u64, exception: Exception, place: Place) -> Next<'p>
        ensures { Moved self.now self.now (λ m. model.asked_vectored m
            (slice_get m.state.vectored from) from (views.exception_of exception)
            (place_of place)) result }
    {
        match self.vectored.get(from) {
            None => Next::Does(Action::Search(self.handlers.len(), exception, place)),
            Some(handler) => {
                let length = self.vectored.len();
                let asked = AskedPlace::new(from, length);
                let task = Task::AskVectored {
                    handler,
                    asked,
                    exception,
                };
                start(task, place)
            }
        }
    }

    /// A vectored handler is called.
    pub fn ask_vectored(
        &mut self,
        alloc: Global,
        handler: u64,
        asked: AskedPlace,
        exception: Exception,
        place: Place,
    ) -> Result<Next<'p>, AllocError>
        ensures { IfOk result (Moved self.old self.new (λ m. model.begun m
            (tasks.AskVectored handler asked.value (views.exception_of exception))
            (place_of place))) }
    {
        if self.is_deep(2) {
            return Ok(too_deep());
        }
        let values = arguments(alloc, exception)?;
        self.held = self.held.saturating_add(2);
        let ends = StatementFrame::EndsVectored(asked, exception, place);
        self.push(ContinuationFrame::Waits(Waiting::Statement(ends)))?;
        Ok(Next::Call(Callee::Defined(handler), values, place))
    }

    /// A vectored handler has answered.
    fn answer_vectored(
        &mut self,
        answer: u64,
        asked: AskedPlace,
        exception: Exception,
        place: Place,
    ) -> Result<Next<'p>, AllocError>
        ensures { IfOk result (Moved self.old self.new (λ m. model.follow
            (model.at_state m (let_go m.state)) (model_plan (nat_lt (low W32 answer) (2 ^ 31))
            exception.flag asked.value (views.exception_of exception) (place_of place)))) }
    {
        self.held = self.held.saturating_sub(2);
        self.follow(vectored_plan(answer, asked, exception, place))
    }

    /// What is done with vectored handlers is done.
    pub fn act_vectored(
        &mut self,
        action: VectoredAction,
        exception: Exception,
        place: Place,
    ) -> Result<Next<'p>, AllocError>
        ensures { (p : Program) → IfOk result (Moved self.old self.new (λ m. model.done p m
            (views.vectored_action_of action (views.exception_of exception) (place_of place)))) }
    {
        match action {
            VectoredAction::AskFrom(from) => Ok(self.ask_from(from, exception, place)),
            VectoredAction::Answered { answer, asked } => {
                self.answer_vectored(answer, asked, exception, place)
            }
        }
    }
}
