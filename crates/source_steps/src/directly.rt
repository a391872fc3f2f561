//! Tasks that are done at once, with no frame that waits.

ghost use Rattle.std.specs.Prelude.{◌≡◌, List, option_map};
ghost use Rattle.c_checked.specs.Expression as tree;
ghost use Rattle.c_checked.specs.Statement as trees;
ghost use Rattle.c_checked.specs.Whole as whole;
ghost use Rattle.c_operations.specs.Performed.{performed};
ghost use Rattle.c_operations.specs.declared.operation.Operation.TheVariants.{Store};
ghost use Rattle.seh_num.specs.declared.event.Event.{Event as Event'};
ghost use Rattle.source_meaning.specs.Source.{data_end as model_data_end};
ghost use Rattle.source_meaning.specs.Expressions as model;
ghost use Rattle.source_meaning.specs.Tasks as tasks;
ghost use Rattle.source_machine.specs.Frames as frames;
ghost use Rattle.source_operations.specs.Reserved.{reserved_below};
ghost use Rattle.source_plans.specs.Views as views;
ghost use Rattle.source_plans.specs.declared.frame.Completion.TheVariants as completions;
ghost use Rattle.source_plans.specs.Views.{place_of};
ghost use Rattle.source_values.specs.Direct as spec;
ghost use Rattle.source_values.specs.Surrounding.{around, surroundings_of};
ghost use Rattle.source_steps.specs.Machines.{state_of};
ghost use Rattle.source_steps.specs.Directly.{Evaluated, DoneAtOnce, Hastened, WrittenTo, Made};

use crate::machine::Interpreter;
use c_checked::checked::Checked;
use c_checked::expression::{Conversion, Expr, Lvalue, Node};
use c_checked::statement::Stmt;
use c_operations::operation::Operation;
use seh_num::width::Width;
use source_operations::performing::{Performed, perform};
use source_plans::frame::{Action, Completion, Next, Phase};
use source_plans::place::Place;
use source_plans::task::Task;
use source_plans::values::converted;
use source_values::changes::{Change, pending_change};
use source_values::surroundings::Surroundings;
use source_values::values::value;

/// What a statement comes to whose expression has a value.
fn normally(value: Option<u64>) -> Option<Completion>
    ensures { result ≡ option_map (λ v. completions.Normal) value }
{
    match value {
        None => None,
        Some(_) => Some(Completion::Normal),
    }
}

/// What an expression comes to that has a value.
fn valued(value: Option<u64>) -> Option<Completion>
    ensures { result ≡ option_map completions.Value value }
{
    match value {
        None => None,
        Some(value) => Some(Completion::Value(value)),
    }
}

impl<'p> Interpreter<'p> {
    /// What an expression is evaluated in at a place.
    fn surroundings(&self, data_end: u64, place: Place) -> Surroundings<'_>
        ensures { (es : List Event') → surroundings_of result
            ≡ around (reserved_below data_end) (state_of self.now es) (place_of place) }
    {
        Surroundings {
            locals: self.activations.locals(place.activation),
            memory: &self.memory,
            data_end,
            exception: place.exception,
            abnormal: place.abnormal,
        }
    }

    /// An expression's value where finding it changes nothing, with so many steps left before it.
    fn find_value(
        &mut self,
        _program: &'p Checked,
        data_end: u64,
        expr: &'p Expr,
        place: Place,
        left: u64,
    ) -> Option<u64>
        requires { data_end ≡ model_data_end _program.now.globals.items }
        ensures { Evaluated (whole.program _program.now) self.old left
            (tree.expression expr.now) (place_of place) self.new result }
    {
        let around = self.surroundings(data_end, place);
        match value(&around, expr, left) {
            None => None,
            Some((found, rest)) => {
                self.steps_left = rest;
                Some(found)
            }
        }
    }

    /// A number is stored. False, and nothing changed, where that isn't done without a fault.
    fn store(&mut self, data_end: u64, width: Width, address: u64, value: u64) -> bool
        ensures { WrittenTo self.old (λ st. spec.stored st (performed (reserved_below data_end)
            (Store width) address value st.memory)) self.new result }
    {
        let operation = Operation::Store(width);
        match perform(&mut self.memory, data_end, operation, address, value) {
            Performed::Gives(_) => true,
            Performed::Raises { .. } => false,
            Performed::Undefined(_) => false,
        }
    }

    /// A value is written to a place that was located. False, and nothing changed, where that isn't
    /// done without a fault.
    fn write(
        &mut self,
        data_end: u64,
        target: &'p Lvalue,
        address: u64,
        value: u64,
        place: Place,
    ) -> bool
        ensures { WrittenTo self.old (λ st. spec.written (reserved_below data_end) st
            (place_of place) (tree.lvalue target.now) address value) self.new result }
    {
        match target {
            Lvalue::Local(local) => {
                self.set_local(*local, value, place);
                true
            }
            Lvalue::Global { access, .. } => self.store(data_end, access.width, address, value),
            Lvalue::Stacked { access, .. } => self.store(data_end, access.width, address, value),
            Lvalue::Indirection { access, .. } => {
                self.store(data_end, access.width, address, value)
            }
            Lvalue::Element { access, .. } => self.store(data_end, access.width, address, value),
        }
    }

    /// A change is made. None, and nothing changed, where that isn't done without a fault.
    fn make_change(
        &mut self,
        data_end: u64,
        change: Change<'p>,
        conversion: Conversion,
        place: Place,
    ) -> Option<u64>
        ensures { Made self.old (λ st. spec.written (reserved_below data_end) st (place_of place)
            (tree.lvalue change.entry.target.now) change.entry.address change.entry.written)
            self.new change.entry.left (model.converted conversion change.entry.value) result }
    {
        if !self.write(
            data_end,
            change.target,
            change.address,
            change.written,
            place,
        ) {
            return None;
        }
        self.steps_left = change.left;
        Some(converted(conversion, change.value))
    }

    /// The value of an expression that changes one place at its end, with so many steps left before
    /// it.
    fn change_place(
        &mut self,
        _program: &'p Checked,
        data_end: u64,
        expr: &'p Expr,
        place: Place,
        left: u64,
    ) -> Option<u64>
        requires { data_end ≡ model_data_end _program.now.globals.items }
        ensures { Evaluated (whole.program _program.now) self.old left
            (tree.expression expr.now) (place_of place) self.new result }
    {
        if left == 0 {
            return None;
        }
        let around = self.surroundings(data_end, place);
        match pending_change(&around, &expr.node, left - 1) {
            None => None,
            Some(change) => self.make_change(data_end, change, expr.conversion, place),
        }
    }

    /// An expression's value, with so many steps left before it. None, and nothing changed, where
    /// an operand has to wait.
    fn evaluate(
        &mut self,
        program: &'p Checked,
        data_end: u64,
        expr: &'p Expr,
        place: Place,
        left: u64,
    ) -> Option<u64>
        requires { data_end ≡ model_data_end program.now.globals.items }
        ensures { Evaluated (whole.program program.now) self.old left
            (tree.expression expr.now) (place_of place) self.new result }
    {
        match expr.node {
            Node::Assign { .. } | Node::CompoundAssign { .. } | Node::Increment { .. } => {
                self.change_place(program, data_end, expr, place, left)
            }
            _ => self.find_value(program, data_end, expr, place, left),
        }
    }

    /// A statement of an expression is run at once. None, and nothing changed, where there is none
    /// or it has to wait.
    fn run_expression(
        &mut self,
        program: &'p Checked,
        data_end: u64,
        expr: &'p Option<Expr>,
        place: Place,
    ) -> Option<Completion>
        requires { data_end ≡ model_data_end program.now.globals.items }
        ensures { DoneAtOnce (whole.program program.now) self.old (tasks.Run
            (trees.Evaluate (option_map tree.expression expr.now))) (place_of place) self.new
            result }
    {
        if self.steps_left == 0 {
            return None;
        }
        let left = self.steps_left - 1;
        match expr {
            None => None,
            Some(expr) => normally(self.evaluate(program, data_end, expr, place, left)),
        }
    }

    /// A statement is run at once. None, and nothing changed, where it has to wait.
    fn run_directly(
        &mut self,
        program: &'p Checked,
        data_end: u64,
        stmt: &'p Stmt,
        place: Place,
    ) -> Option<Completion>
        requires { data_end ≡ model_data_end program.now.globals.items }
        ensures { DoneAtOnce (whole.program program.now) self.old (tasks.Run
            (trees.statement stmt.now)) (place_of place) self.new result }
    {
        match stmt {
            Stmt::Evaluate(expr) => self.run_expression(program, data_end, expr, place),
            _ => None,
        }
    }

    /// A statement of a list is run at once. None, and nothing changed, where there is none, or
    /// where it has to wait.
    fn run_listed(
        &mut self,
        program: &'p Checked,
        data_end: u64,
        stmts: &'p Vec<Stmt>,
        index: usize,
        place: Place,
    ) -> Option<Completion>
        requires { data_end ≡ model_data_end program.now.globals.items }
        ensures { DoneAtOnce (whole.program program.now) self.old (tasks.Run
            (views.statement_at stmts.now.items index)) (place_of place) self.new result }
    {
        if index >= stmts.len() {
            return None;
        }
        self.run_directly(program, data_end, &stmts[index], place)
    }

    /// A task is done at once. None, and nothing changed, where a part of it has to wait.
    fn do_directly(
        &mut self,
        program: &'p Checked,
        data_end: u64,
        task: Task<'p>,
        place: Place,
    ) -> Option<Completion>
        requires { data_end ≡ model_data_end program.now.globals.items }
        ensures { DoneAtOnce (whole.program program.now) self.old (views.task_of task.entry)
            (place_of place) self.new result }
    {
        match task {
            Task::Eval(expr) => {
                let left = self.steps_left;
                valued(self.evaluate(program, data_end, expr, place, left))
            }
            Task::RunListed(stmts, index) => {
                self.run_listed(program, data_end, stmts, index, place)
            }
            Task::RunBoxed(stmt) => self.run_directly(program, data_end, stmt, place),
            _ => None,
        }
    }

    /// A task is done at once where it can be, and begins where it can't.
    fn take(
        &mut self,
        program: &'p Checked,
        data_end: u64,
        task: Task<'p>,
        place: Place,
    ) -> Next<'p>
        requires { data_end ≡ model_data_end program.now.globals.items }
        ensures { Hastened (whole.program program.now) self.old (frames.Start
            (views.task_of task.entry) (place_of place)) self.new (views.next_of result) }
    {
        match self.do_directly(program, data_end, task, place) {
            Some(how) => Next::Does(Action::Give(how)),
            None => self.start(task, place),
        }
    }

    /// What is done next, after steps that show nothing.
    pub fn hasten(&mut self, program: &'p Checked, data_end: u64, next: Next<'p>) -> Next<'p>
        requires { data_end ≡ model_data_end program.now.globals.items }
        ensures { Hastened (whole.program program.now) self.old (views.next_of next.entry)
            self.new (views.next_of result) }
    {
        match next {
            Next::Does(Action::Do(Phase::Before, task, place)) => {
                self.take(program, data_end, task, place)
            }
            other => other,
        }
    }
}
