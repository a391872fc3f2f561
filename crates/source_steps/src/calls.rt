//! Calls.

ghost use Rattle.std.specs.Prelude.{◌≡◌, ◌++◌, [], ◌∷◌, List, IfOk, slice_get, option_map, get_or};
ghost use Rattle.seh_num.specs.declared.width.Width.TheVariants.{W32};
ghost use Rattle.seh_num.specs.Widths.{signed};
ghost use Rattle.source_meaning.specs.Expressions.{raised};
ghost use Rattle.source_meaning.specs.Source.{data_end as model_data_end};
ghost use Rattle.seh_num.specs.declared.event.Event.{Event as Event'};
ghost use Rattle.c_checked.specs.Program as programs;
ghost use Rattle.c_checked.specs.Whole as whole;
ghost use Rattle.source_machine.specs.Frames as frames;
ghost use Rattle.source_machine.specs.Machine as model;
ghost use Rattle.source_plans.specs.Views as views;
ghost use Rattle.source_plans.specs.Views.{place_of};
ghost use Rattle.source_steps.specs.Machines.{machine_of, shown_after, Moved, Showed};
ghost use Rattle.source_steps.specs.DataStack.{activated};

use crate::activations::with_zeros;
use crate::functions::FunctionNumber;
use crate::machine::{Interpreter, MachineStep, showing, silent, too_deep, walking};
use c_checked::checked::Checked;
use c_checked::function::Function;
use c_operations::built_in::BuiltIn;
use seh_num::event::Event;
use seh_num::extension::sign_extend;
use seh_num::width::Width;
use source_plans::expressions::start;
use source_plans::frame::{
    Action, Callee, Completion, ContinuationFrame, Finish, Next, SequelFrame, Waiting,
};
use source_plans::place::{Exception, NO_EXCEPTION, Place};
use source_plans::task::Task;
use source_plans::values::of_test;
use std::alloc::AllocError;
use x64_memory::space::AddressSpace;

/// A value of a list; 0 where there is none.
fn value_at(values: &[u64], index: usize) -> u64
    ensures { result ≡ get_or values.now index 0 }
{
    match values.get(index) {
        None => 0,
        Some(value) => *value,
    }
}

/// The low 32 bits, as a signed number.
pub fn low_signed(value: u64) -> i32
    ensures { result ≡ signed W32 value }
{
    ((value % (1 << 32)) as u32).cast_signed()
}

/// What a call of RaiseException raises.
fn raised(code: u64, flags: u64) -> Exception
    ensures { views.exception_of result ≡ raised code flags }
{
    Exception {
        code: (code % (1 << 32)) as u32,
        flag: flags % 2 == 1,
        access: None,
    }
}

impl<'p> Interpreter<'p> {
    /// An activation begins of the function of this number, whose surplus is this.
    fn activate(
        &mut self,
        data_end: u64,
        number: FunctionNumber,
        function: &'p Function,
        values: Vec<u64>,
        surplus: u64,
    ) -> Result<Next<'p>, AllocError>
        ensures { (p : programs.Program) → data_end ≡ model_data_end p.globals → IfOk result
            (Moved self.old self.new (λ m. activated p m number.value
            (programs.function function.now) values.items surplus)) }
    {
        let activation = self.activations.len();
        let locals = with_zeros(values, function.locals.len())?;
        self.activations.push(locals)?;
        self.functions.push(number)?;
        if let Some(how) = self.open_frame(data_end, &function.data_frame, activation) {
            return Ok(Next::Does(Action::Over(how)));
        }
        let data_part = function.data_part();
        self.push(ContinuationFrame::Waits(Waiting::EndsCall(activation, surplus, data_part)))?;
        let place = Place {
            activation,
            data_part,
            exception: NO_EXCEPTION,
            abnormal: false,
        };
        Ok(Next::Does(Action::Proceed(&function.body, 0, place)))
    }

    /// The body of the function of this number, in an activation of its own, which counts the
    /// function's weight in the depth, and its surplus in steps.
    fn enter(
        &mut self,
        data_end: u64,
        number: FunctionNumber,
        function: &'p Function,
        values: Vec<u64>,
    ) -> Result<Next<'p>, AllocError>
        ensures { (p : programs.Program) → data_end ≡ model_data_end p.globals → IfOk result
            (Moved self.old self.new (λ m. model.entered p m number.value (Some
            (programs.function function.now)) values.items)) }
    {
        let surplus = function.frame_surplus() + function.data_surplus();
        if self.is_deep(1 + surplus) {
            return Ok(too_deep());
        }
        if self.steps_left < surplus {
            return Ok(Next::Does(Action::Over(Finish::OutOfSteps)));
        }
        self.steps_left -= surplus;
        self.held = self.held.saturating_add(surplus);
        self.activate(data_end, number, function, values, surplus)
    }

    /// A built-in function is called.
    fn call_built_in(
        &mut self,
        function: BuiltIn,
        values: &[u64],
        place: Place,
    ) -> Result<MachineStep<'p>, AllocError>
        ensures { IfOk result (Showed self.old self.new (λ m. model.built_in m function values.now
            (place_of place))) }
    {
        let first = value_at(values, 0);
        let second = value_at(values, 1);
        match function {
            BuiltIn::Put => {
                let event = Event::Put(sign_extend(Width::W64, first));
                Ok(showing(event, Next::Does(Action::Give(Completion::Value(0)))))
            }
            BuiltIn::Protect => {
                let is_set = self.memory.protect(first, low_signed(second));
                Ok(silent(Next::Does(Action::Give(Completion::Value(of_test(is_set))))))
            }
            BuiltIn::RaiseException => {
                self.push(ContinuationFrame::Waits(Waiting::Sequel(SequelFrame::GivesZero)))?;
                let task = Task::Raise(raised(first, second));
                Ok(silent(start(task, place)))
            }
            BuiltIn::Walk => Ok(walking(Next::Does(Action::Give(Completion::Value(0))))),
            BuiltIn::AddVectored(handler) => Ok(silent(self.add_vectored(handler, first))),
            BuiltIn::RemoveVectored(handler) => Ok(silent(self.remove_vectored(handler))),
        }
    }

    /// A call, whose arguments are there.
    pub fn call(
        &mut self,
        program: &'p Checked,
        data_end: u64,
        callee: Callee,
        values: Vec<u64>,
        place: Place,
    ) -> Result<MachineStep<'p>, AllocError>
        requires { data_end ≡ model_data_end program.now.globals.items }
        ensures { IfOk result (Showed self.old self.new (λ m. model.called
            (whole.program program.now) m (views.callee_of callee) values.items
            (place_of place))) }
    {
        match callee {
            Callee::BuiltIn(function) => self.call_built_in(function, &values, place),
            Callee::Defined(index) => match program.functions.get(index as usize) {
                None => Ok(silent(Next::Does(Action::Give(Completion::Value(0))))),
                Some(function) => {
                    let number = FunctionNumber::new(program, index);
                    Ok(silent(self.enter(data_end, number, function, values)?))
                }
            },
        }
    }
}
