//! The machine's steps.

ghost use Rattle.std.specs.Prelude.{◌≡◌, List, IfOk};
ghost use Rattle.seh_num.specs.declared.event.Event.{Event as Event'};
ghost use Rattle.c_checked.specs.Program.{Program};
ghost use Rattle.c_checked.specs.Whole as whole;
ghost use Rattle.c_checked.specs.Expression as tree;
ghost use Rattle.c_checked.specs.Statement as trees;
ghost use Rattle.source_machine.specs.Frames as frames;
ghost use Rattle.source_machine.specs.Machine as model;
ghost use Rattle.source_meaning.specs.Source.{data_end as model_data_end};
ghost use Rattle.source_plans.specs.Views as views;
ghost use Rattle.source_plans.specs.Views.{place_of};
ghost use Rattle.source_steps.specs.Machines.{machine_of, shown_after, Moved, Showed};
ghost use Rattle.source_steps.specs.Directly.{Advanced};

use crate::machine::{Interpreter, MachineStep, silent, silently};
use c_checked::checked::Checked;
use c_checked::statement::Declared;
use source_plans::expressions::{expression_plan, find_plan, node_plan, pass_plan};
use source_plans::frame::{Action, Completion, Next, Phase, Plan};
use source_plans::place::Place;
use source_plans::statements::{
    declare_plan, do_plan, for_plan, initialise_plan, listed_plan, proceed_plan, statement_plan,
};
use source_plans::task::Task;
use std::alloc::{AllocError, Global};

impl<'p> Interpreter<'p> {
    /// A task's beginning, after its step.
    fn begin(
        &mut self,
        alloc: Global,
        task: Task<'p>,
        place: Place,
    ) -> Result<MachineStep<'p>, AllocError>
        ensures { IfOk result (Showed self.old self.new (λ m. model.begun m
            (views.task_of task.entry) (place_of place))) }
    {
        match task {
            Task::Eval(expr) => self.planned(expression_plan(expr, place)),
            Task::Locate(target) => Ok(silent(Next::Does(Action::Find(target, place)))),
            Task::RunListed(stmts, index) => self.planned(listed_plan(stmts, index, place)),
            Task::RunBoxed(stmt) => self.planned(statement_plan(stmt, place)),
            Task::Declare(declared) => Ok(silent(Next::Does(Action::DeclareName(declared, place)))),
            Task::ForIteration(of) => self.planned(for_plan(of, place)),
            Task::DoIteration { body, condition } => {
                self.planned(do_plan(body, condition, place))
            }
            Task::TryBody(stmts) => Ok(silent(Next::Does(Action::Proceed(stmts, 0, place)))),
            Task::Raise(exception) => Ok(self.raise(exception, place)),
            Task::AskVectored {
                handler,
                asked,
                exception,
            } => silently(self.ask_vectored(alloc, handler, asked, exception, place)),
            Task::RunFilter {
                number,
                value,
                handler,
                exception,
            } => self.run_filter(number, value, handler, exception, place),
            Task::RunFinally {
                number,
                finally_block,
                abnormal,
            } => self.run_finally(number, finally_block, abnormal, place),
            Task::Retry {
                operation,
                first,
                second,
            } => Ok(silent(Next::Does(Action::Operate(operation, first, second, place)))),
        }
    }

    /// What a plan does, which shows nothing.
    fn planned(&mut self, plan: Plan<'p>) -> Result<MachineStep<'p>, AllocError>
        ensures { IfOk result (Showed self.old self.new (λ m. model.follow m
            (views.plan_of plan.entry))) }
    {
        silently(self.follow(plan))
    }

    /// A local is declared, which is 0 first, in its own initialiser too.
    fn declare_local(
        &mut self,
        declared: &'p Declared,
        place: Place,
    ) -> Result<Next<'p>, AllocError>
        ensures { (p : Program) → let d = trees.declared declared.now in IfOk result
            (Moved self.old self.new (λ m. model.declared_at p m None d.local d.value
            (place_of place))) }
    {
        self.set_local(declared.local, 0, place);
        self.follow(initialise_plan(declared, place))
    }

    /// A name is declared.
    fn declare(
        &mut self,
        data_end: u64,
        declared: &'p Declared,
        place: Place,
    ) -> Result<Next<'p>, AllocError>
        ensures { (p : Program) → data_end ≡ model_data_end p.globals → IfOk result
            (Moved self.old self.new (λ m. model.declared p m (trees.declared declared.now)
            (place_of place))) }
    {
        match &declared.stacked {
            None => self.declare_local(declared, place),
            Some(variable) => self.declare_stacked(data_end, variable, &declared.value, place),
        }
    }

    /// A task, before or after its step.
    fn take_up(
        &mut self,
        alloc: Global,
        phase: Phase,
        task: Task<'p>,
        place: Place,
    ) -> Result<MachineStep<'p>, AllocError>
        ensures { (p : Program) → IfOk result (Showed self.old self.new (λ m. model.done p m
            (views.phased phase (views.task_of task.entry) (place_of place)))) }
    {
        match phase {
            Phase::Before => Ok(silent(self.start(task, place))),
            Phase::After => self.begin(alloc, task, place),
        }
    }

    /// What is done next is done where it passes no arguments.
    fn act(
        &mut self,
        alloc: Global,
        _program: &'p Checked,
        data_end: u64,
        action: Action<'p>,
    ) -> Result<MachineStep<'p>, AllocError>
        requires { data_end ≡ model_data_end _program.now.globals.items }
        ensures { IfOk result (Showed self.old self.new (λ m. model.done
            (whole.program _program.now) m (views.action_of action.entry))) }
    {
        match action {
            Action::Over(how) => Ok(silent(Next::Does(Action::Over(how)))),
            Action::Give(how) => self.give(how),
            Action::Do(phase, task, place) => self.take_up(alloc, phase, task, place),
            Action::Evaluate(node, place) => self.planned(node_plan(alloc, node, place)),
            Action::Find(target, place) => self.planned(find_plan(target, place)),
            Action::Fetch(target, address, place) => silently(self.fetch(target, address, place)),
            Action::Put(target, address, value, place) => {
                Ok(silent(self.put(target, address, value, place)))
            }
            Action::Operate(operation, first, second, place) => {
                silently(self.operate(data_end, operation, first, second, place))
            }
            Action::Proceed(stmts, next, place) => self.planned(proceed_plan(stmts, next, place)),
            Action::DeclareEach(declared, next, place) => {
                self.planned(declare_plan(declared, next, place))
            }
            Action::DeclareName(declared, place) => {
                silently(self.declare(data_end, declared, place))
            }
            Action::SetLocal(local, value, place) => {
                self.set_local(local, value, place);
                Ok(silent(Next::Does(Action::Give(Completion::Normal))))
            }
            Action::OnStack(action, place) => silently(self.act_on_stack(data_end, action, place)),
            Action::Guard(body, filter, block, place) => {
                silently(self.guard(body, filter, block, place))
            }
            Action::Answer(value) => Ok(self.answer(value)),
            Action::LetGo => Ok(self.let_go()),
            Action::OfVectored(action, exception, place) => {
                silently(self.act_vectored(action, exception, place))
            }
            Action::Search(level, exception, place) => {
                silently(self.search(level, exception, place))
            }
        }
    }

    /// What is done next is done, where it isn't hastened.
    fn do_next(
        &mut self,
        alloc: Global,
        program: &'p Checked,
        data_end: u64,
        next: Next<'p>,
    ) -> Result<MachineStep<'p>, AllocError>
        requires { data_end ≡ model_data_end program.now.globals.items }
        ensures { IfOk result (Showed self.old self.new (λ m. model.done
            (whole.program program.now) m (views.next_of next.entry))) }
    {
        match next {
            Next::Does(action) => self.act(alloc, program, data_end, action),
            Next::Pass(callee, values, arguments, next, place) => {
                self.planned(pass_plan(callee, values, arguments, next, place))
            }
            Next::Call(callee, values, place) => self.call(
                program, data_end, callee, values, place,
            ),
        }
    }

    /// What is done next is done, in memory whose globals' pages end at `data_end`: some steps that
    /// show nothing, and one more.
    pub fn step(
        &mut self,
        alloc: Global,
        program: &'p Checked,
        data_end: u64,
        next: Next<'p>,
    ) -> Result<MachineStep<'p>, AllocError>
        requires { data_end ≡ model_data_end program.now.globals.items }
        ensures { IfOk result (Advanced (whole.program program.now) self.old
            (views.next_of next.entry) self.new) }
    {
        let hastened = self.hasten(program, data_end, next);
        self.do_next(alloc, program, data_end, hastened)
    }
}
