//! Raises, filters, `__finally` blocks and handlers.

ghost use Rattle.std.specs.Prelude.{◌≡◌, ◌++◌, [], ◌∷◌, List, IfOk, slice_get};
ghost use Rattle.c_checked.specs.Program.{Program};
ghost use Rattle.seh_num.specs.declared.event.Event.{Event as Event'};
ghost use Rattle.c_checked.specs.Expression as tree;
ghost use Rattle.c_checked.specs.Statement as trees;
ghost use Rattle.source_meaning.specs.Tasks as tasks;
ghost use Rattle.source_machine.specs.Frames as frames;
ghost use Rattle.source_machine.specs.Machine as model;
ghost use Rattle.source_plans.specs.Views as views;
ghost use Rattle.source_plans.specs.Views.{place_of};
ghost use Rattle.source_steps.specs.Machines.{machine_of, shown_after, Moved, Showed};

use crate::calls::low_signed;
use crate::machine::{Interpreter, MachineStep, showing, silent, too_deep};
use c_checked::expression::Expr;
use c_checked::statement::{Filter, Stmt};
use seh_num::event::{Code, Event};
use source_meaning::ended::Ended;
use source_plans::expressions::{evaluates, start};
use source_plans::frame::{
    Action, Completion, ContinuationFrame, Finish, Next, SequelFrame, StatementFrame,
    VectoredAction, Waiting,
};
use source_plans::place::{Exception, Handler, Place};
use source_plans::task::Task;
use std::alloc::AllocError;

fn unhandled<'p>(exception: Exception) -> Next<'p>
    ensures { (m : model.Machine) → model.unhandled m (views.exception_of exception)
        ≡ model.with_next m (views.next_of result) }
{
    Next::Does(Action::Over(Finish::Ended(Ended::Unhandled(Code(exception.code)))))
}

impl<'p> Interpreter<'p> {
    /// An exception is raised: the vectored handlers are asked, and then the handlers.
    pub fn raise(&self, exception: Exception, place: Place) -> MachineStep<'p>
        ensures { Showed self.now self.now (λ m. model.begun m (tasks.Raise
            (views.exception_of exception)) (place_of place)) result }
    {
        let event = Event::Raise {
            code: Code(exception.code),
            flag: exception.flag,
            access: exception.access,
        };
        showing(
            event,
            Next::Does(Action::OfVectored(VectoredAction::AskFrom(0), exception, place)),
        )
    }

    /// A filter begins, in the activation of its `__try`.
    pub fn run_filter(
        &mut self,
        number: u32,
        value: &'p Expr,
        handler: Handler<'p>,
        exception: Exception,
        place: Place,
    ) -> Result<MachineStep<'p>, AllocError>
        ensures { IfOk result (Showed self.old self.new (λ m. model.begun m
            (tasks.RunFilter number (tree.expression value.now) (views.handler_of handler.entry)
            (views.exception_of exception)) (place_of place))) }
    {
        let _ = place;
        if self.is_deep(2) {
            return Ok(silent(too_deep()));
        }
        self.held = self.held.saturating_add(2);
        self.push(ContinuationFrame::Waits(Waiting::Statement(StatementFrame::EndsFilter)))?;
        let inside = Place {
            activation: handler.activation,
            data_part: None,
            exception,
            abnormal: handler.abnormal,
        };
        Ok(showing(Event::Filter(number), evaluates(value, inside)))
    }

    /// A `__finally` block begins.
    pub fn run_finally(
        &mut self,
        number: u32,
        finally_block: &'p Vec<Stmt>,
        abnormal: bool,
        place: Place,
    ) -> Result<MachineStep<'p>, AllocError>
        ensures { IfOk result (Showed self.old self.new (λ m. model.begun m
            (tasks.RunFinally number (views.all_statements finally_block.now.items) abnormal)
            (place_of place))) }
    {
        if self.is_deep(2) {
            return Ok(silent(too_deep()));
        }
        self.reset_pointer_if(abnormal, place.data_part, place.activation);
        self.held = self.held.saturating_add(2);
        self.push(ContinuationFrame::Waits(Waiting::Sequel(SequelFrame::EndsFinally)))?;
        let inside = Place {
            activation: place.activation,
            data_part: place.data_part,
            exception: place.exception,
            abnormal,
        };
        Ok(showing(
            Event::Finally { number, abnormal },
            Next::Does(Action::Proceed(finally_block, 0, inside)),
        ))
    }

    /// A `__try` with an `__except` is entered.
    pub fn guard(
        &mut self,
        body: &'p Vec<Stmt>,
        filter: &'p Filter,
        block: &'p Vec<Stmt>,
        place: Place,
    ) -> Result<Next<'p>, AllocError>
        ensures { IfOk result (Moved self.old self.new (λ m. model.guarded m
            (views.all_statements body.now.items) (trees.filter filter.now)
            (views.all_statements block.now.items) (place_of place))) }
    {
        self.handlers.push(Handler {
            filter,
            activation: place.activation,
            abnormal: place.abnormal,
        })?;
        self.stack.push(ContinuationFrame::Waits(Waiting::Lands(self.held, block, place)))?;
        Ok(start(Task::TryBody(body), place))
    }

    /// The handlers below a number are asked, the highest first.
    pub fn search(
        &mut self,
        level: usize,
        exception: Exception,
        place: Place,
    ) -> Result<Next<'p>, AllocError>
        ensures { IfOk result (Moved self.old self.new
            (λ m. model.searched m level (views.exception_of exception) (place_of place))) }
    {
        if level == 0 {
            return Ok(unhandled(exception));
        }
        self.ask_numbered(level - 1, exception, place)
    }

    /// The handler of a number is asked, and then those below it.
    fn ask_numbered(
        &mut self,
        number: usize,
        exception: Exception,
        place: Place,
    ) -> Result<Next<'p>, AllocError>
        ensures { IfOk result (Moved self.old self.new
            (λ m. model.asked m (slice_get m.handlers number) number (views.exception_of exception)
            (place_of place))) }
    {
        if number >= self.handlers.len() {
            return Ok(unhandled(exception));
        }
        let handler = self.handlers[number];
        self.ask(handler, number, exception, place)
    }

    /// A handler is asked.
    fn ask(
        &mut self,
        handler: Handler<'p>,
        level: usize,
        exception: Exception,
        place: Place,
    ) -> Result<Next<'p>, AllocError>
        ensures { IfOk result (Moved self.old self.new (λ m. model.asked_by m
            (views.handler_of handler.entry).filter (views.handler_of handler.entry) level
            (views.exception_of exception) (place_of place))) }
    {
        match handler.filter {
            Filter::Always => Ok(Next::Does(Action::Give(Completion::Target(level, exception)))),
            Filter::Funclet { number, value } => {
                self.push(ContinuationFrame::Waits(Waiting::Statement(StatementFrame::IsAnswered(
                    level, exception, place,
                ))))?;
                let task = Task::RunFilter {
                    number: *number,
                    value,
                    handler,
                    exception,
                };
                Ok(start(task, place))
            }
        }
    }

    /// A filter has answered.
    pub fn answer(&mut self, value: u64) -> MachineStep<'p>
        ensures { (p : Program) → Showed self.old self.new (λ m. model.done p m
            (frames.Answer value)) result }
    {
        self.held = self.held.saturating_sub(2);
        showing(
            Event::Answer(low_signed(value)),
            Next::Does(Action::Give(Completion::Value(value))),
        )
    }

    /// A `__finally` block has ended, which counts in the depth no more.
    pub fn let_go(&mut self) -> MachineStep<'p>
        ensures { (p : Program) → Showed self.old self.new (λ m. model.done p m frames.LetGo)
            result }
    {
        self.held = self.held.saturating_sub(2);
        silent(Next::Does(Action::Give(Completion::Normal)))
    }
}
