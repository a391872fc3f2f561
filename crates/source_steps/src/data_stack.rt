//! What activations have of the data stack, and the variables that stand there.

ghost use Rattle.std.specs.Prelude.{◌≡◌, List, IfOk, option_map};
ghost use Rattle.c_checked.specs.Expression as tree;
ghost use Rattle.c_checked.specs.Program as programs;
ghost use Rattle.c_checked.specs.Program.{Program};
ghost use Rattle.c_operations.specs.Performed.{performed};
ghost use Rattle.seh_num.specs.declared.event.Event.{Event as Event'};
ghost use Rattle.source_meaning.specs.DataStack as stacks;
ghost use Rattle.source_meaning.specs.Source.{data_end as model_data_end};
ghost use Rattle.source_machine.specs.Frames as frames;
ghost use Rattle.source_machine.specs.Machine as model;
ghost use Rattle.source_operations.specs.Reserved.{reserved_below};
ghost use Rattle.source_plans.specs.Views as views;
ghost use Rattle.source_plans.specs.Views.{place_of};
ghost use Rattle.x64_memory.specs.PageMaps.{memory_of};
ghost use Rattle.source_steps.specs.Machines.{machine_of, state_of, shown_after, Moved, Showed};
ghost use Rattle.source_steps.specs.DataStack.{Stored, Brought, Opened};

use crate::machine::{Interpreter, MachineStep, silent};
use c_checked::expression::Expr;
use c_checked::function::{DataFrame, DataPart};
use c_checked::statement::StackedVariable;
use c_operations::operation::{Operation, Pure, Size};
use source_meaning::ended::Ended;
use source_operations::data_stack::{pointer, set_pointer};
use source_operations::performing::{Performed, perform};
use source_operations::pure::result_of;
use source_plans::frame::{Action, Completion, Finish, Next, Plan, StackAction};
use source_plans::place::Place;
use source_plans::statements::{ends, initialise_stacked_plan};
use std::alloc::AllocError;

impl<'p> Interpreter<'p> {
    /// An operation of the data stack is performed. How the run ended, if it is over then.
    fn perform_stacked(
        &mut self,
        data_end: u64,
        operation: Operation,
        first: u64,
        second: u64,
    ) -> Option<Finish>
        ensures { Stored self.old (performed (reserved_below data_end) operation first second
            (memory_of self.old.memory)) self.new result }
    {
        match perform(&mut self.memory, data_end, operation, first, second) {
            Performed::Gives(_) => None,
            Performed::Raises { .. } => Some(Finish::OutOfSteps),
            Performed::Undefined(address) => Some(Finish::Ended(Ended::Undefined { address })),
        }
    }

    /// The parameters whose address is taken are brought to where they stand. How the run ended, if
    /// it is over then.
    fn bring(&mut self, data_end: u64, frame: &DataFrame, activation: usize) -> Option<Finish>
        ensures { (p : Program) → data_end ≡ model_data_end p.globals → Brought p self.old
            frame.now.base frame.now.parameters.items activation self.new result }
    {
        for parameter in &frame.parameters {
            let operation = Operation::Place {
                width: parameter.width,
                offset: parameter.offset,
            };
            let base = self.activations.local(activation, frame.base);
            let value = self.activations.local(activation, parameter.parameter);
            if let Some(how) = self.perform_stacked(data_end, operation, base, value) {
                return Some(how);
            }
        }
        None
    }

    /// An activation's part of the data stack begins at the pointer. How the run ended, if it is
    /// over then.
    fn open(&mut self, data_end: u64, frame: &DataFrame, activation: usize) -> Option<Finish>
        ensures { (p : Program) → data_end ≡ model_data_end p.globals → Opened p self.old
            (Some (programs.data_frame_of frame.now)) activation self.new result }
    {
        let pointer = pointer(&self.memory);
        self.activations.set_local(activation, frame.base, pointer);
        set_pointer(&mut self.memory, pointer.wrapping_add(frame.size));
        self.bring(data_end, frame, activation)
    }

    /// The same, where the function has such a part.
    pub fn open_frame(
        &mut self,
        data_end: u64,
        frame: &Option<DataFrame>,
        activation: usize,
    ) -> Option<Finish>
        ensures { (p : Program) → data_end ≡ model_data_end p.globals → Opened p self.old
            (option_map programs.data_frame_of frame.now) activation self.new result }
    {
        match frame {
            None => None,
            Some(frame) => self.open(data_end, frame, activation),
        }
    }

    /// The data stack's pointer becomes so many bytes above an activation's base, which this local
    /// of it keeps.
    fn point_above(&mut self, base: u64, size: u64, activation: usize)
        ensures { (x : frames.Next) (es : List Event') → model.at_state (machine_of self.old x es)
            (stacks.point_above base size activation (state_of self.old es))
            ≡ machine_of self.new x es }
    {
        let base = self.activations.local(activation, base);
        set_pointer(&mut self.memory, base.wrapping_add(size));
    }

    /// The data stack's pointer is again above what an activation has of it.
    pub fn reset_pointer(&mut self, part: Option<DataPart>, activation: usize)
        ensures { (x : frames.Next) (es : List Event') → model.at_state (machine_of self.old x es)
            (stacks.reset_pointer part activation (state_of self.old es))
            ≡ machine_of self.new x es }
    {
        match part {
            None => {}
            Some(part) => self.point_above(part.base, part.size, activation),
        }
    }

    /// So it is where a `__finally` block runs for an exception or a jump.
    pub fn reset_pointer_if(&mut self, flag: bool, part: Option<DataPart>, activation: usize)
        ensures { (x : frames.Next) (es : List Event') → model.at_state (machine_of self.old x es)
            (stacks.reset_pointer_if flag part activation (state_of self.old es))
            ≡ machine_of self.new x es }
    {
        if flag {
            self.reset_pointer(part, activation);
        }
    }

    /// An activation's part of the data stack is given back.
    pub fn close_part(&mut self, part: Option<DataPart>, activation: usize)
        ensures { (x : frames.Next) (es : List Event') → model.closed part activation
            (machine_of self.old x es) ≡ machine_of self.new x es }
    {
        match part {
            None => {}
            Some(part) => self.point_above(part.base, 0, activation),
        }
    }

    /// A variable takes a number, and then a plan is followed.
    fn put_stacked(
        &mut self,
        data_end: u64,
        variable: &'p StackedVariable,
        value: u64,
        place: Place,
        plan: Plan<'p>,
    ) -> Result<Next<'p>, AllocError>
        ensures { (p : Program) → data_end ≡ model_data_end p.globals → IfOk result
            (Moved self.old self.new (λ m. model.put_stacked p variable.now value (place_of place)
            (views.plan_of plan.entry) m)) }
    {
        let operation = Operation::Place {
            width: variable.width,
            offset: variable.offset,
        };
        let base = self.activations.local(place.activation, variable.base);
        match self.perform_stacked(data_end, operation, base, value) {
            None => self.follow(plan),
            Some(how) => {
                drop(plan);
                Ok(Next::Does(Action::Over(how)))
            }
        }
    }

    /// So many elements of an array become 0: the last one now, which counts a step.
    fn clear(
        &mut self,
        data_end: u64,
        variable: &'p StackedVariable,
        count: u64,
        place: Place,
    ) -> Next<'p>
        ensures { (p : Program) → data_end ≡ model_data_end p.globals → Moved self.old self.new
            (λ m. model.cleared p variable.now count (place_of place) m) result }
    {
        if count == 0 {
            return Next::Does(Action::Give(Completion::Normal));
        }
        if self.steps_left == 0 {
            return Next::Does(Action::Over(Finish::OutOfSteps));
        }
        self.steps_left -= 1;
        let operation = Operation::Clear {
            width: variable.width,
            offset: variable.offset,
        };
        let base = self.activations.local(place.activation, variable.base);
        let bytes = variable.width.bytes().wrapping_mul(count);
        match self.perform_stacked(data_end, operation, base, bytes) {
            None => Next::Does(Action::OnStack(StackAction::Clear(variable, count - 1), place)),
            Some(how) => Next::Does(Action::Over(how)),
        }
    }

    /// A variable is declared, which is 0 first; an array has no initialiser.
    pub fn declare_stacked(
        &mut self,
        data_end: u64,
        variable: &'p StackedVariable,
        value: &'p Option<Expr>,
        place: Place,
    ) -> Result<Next<'p>, AllocError>
        ensures { (p : Program) → data_end ≡ model_data_end p.globals → IfOk result
            (Moved self.old self.new (λ m. model.declared_stacked p m variable.now
            variable.now.elements (option_map tree.expression value.now) (place_of place))) }
    {
        match variable.elements {
            None => {
                let plan = initialise_stacked_plan(variable, value, place);
                self.put_stacked(data_end, variable, 0, place, plan)
            }
            Some(count) => {
                let clear = StackAction::Clear(variable, count);
                Ok(Next::Does(Action::OnStack(clear, place)))
            }
        }
    }

    /// Something is done with what stands on the data stack.
    pub fn act_on_stack(
        &mut self,
        data_end: u64,
        action: StackAction<'p>,
        place: Place,
    ) -> Result<Next<'p>, AllocError>
        ensures { (p : Program) → data_end ≡ model_data_end p.globals → IfOk result
            (Moved self.old self.new (λ m. model.done p m
            (views.stack_action_of action.entry (place_of place)))) }
    {
        match action {
            StackAction::Find { base, offset } => {
                let base = self.activations.local(place.activation, base);
                let address = result_of(Pure::Add(Size::Long), base, offset);
                Ok(Next::Does(Action::Give(Completion::Value(address))))
            }
            StackAction::Put(variable, value) => {
                self.put_stacked(data_end, variable, value, place, ends())
            }
            StackAction::Clear(variable, count) => {
                Ok(self.clear(data_end, variable, count, place))
            }
        }
    }
}
