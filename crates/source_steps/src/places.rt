//! Places that are read and written, and operations.

ghost use Rattle.std.specs.Prelude.{◌≡◌, List, IfOk};
ghost use Rattle.c_checked.specs.Expression as tree;
ghost use Rattle.seh_num.specs.declared.event.Event.{Event as Event'};
ghost use Rattle.c_operations.specs.Performed.{performed};
ghost use Rattle.source_operations.specs.Reserved.{reserved_below};
ghost use Rattle.source_machine.specs.Frames as frames;
ghost use Rattle.source_machine.specs.Machine as model;
ghost use Rattle.source_machine.specs.Plans as plans;
ghost use Rattle.source_plans.specs.Views as views;
ghost use Rattle.source_plans.specs.Views.{place_of};
ghost use Rattle.source_steps.specs.Machines.{machine_of, state_of, Moved, Showed};
ghost use Rattle.source_steps.specs.Finished.{operation_finished};

use crate::machine::Interpreter;
use c_checked::expression::{Access, Lvalue};
use c_operations::operation::Operation;
use source_meaning::ended::Ended;
use source_operations::performing::{Performed, perform};
use source_plans::expressions::{push, start, then};
use source_plans::frame::{
    Action, AssignmentFrame, Completion, ContinuationFrame, Finish, Next, Plan, SequelFrame,
    Waiting,
};
use source_plans::place::{Exception, Place};
use source_plans::task::Task;
use std::alloc::AllocError;

/// An access by which a place in memory is read.
fn load_plan<'p>(access: Access, address: u64, place: Place) -> Plan<'p>
    ensures { views.plan_of result ≡ plans.load_plan access address (place_of place) }
{
    push(
        ContinuationFrame::Waits(Waiting::Assignment(AssignmentFrame::Extends(access))),
        Next::Does(Action::Operate(Operation::Load(access.width), address, 0, place)),
    )
}

/// An access by which a place in memory is written.
fn store_plan<'p>(access: Access, address: u64, value: u64, place: Place) -> Plan<'p>
    ensures { views.plan_of result ≡ plans.store_plan access address value (place_of place) }
{
    then(Next::Does(Action::Operate(Operation::Store(access.width), address, value, place)))
}

impl<'p> Interpreter<'p> {
    /// The memory of a place that was located is read.
    fn load(&mut self, access: Access, address: u64, place: Place) -> Result<Next<'p>, AllocError>
        ensures { IfOk result (Moved self.old self.new (λ m. model.follow m
            (plans.load_plan access address (place_of place)))) }
    {
        self.follow(load_plan(access, address, place))
    }

    /// A place that was located is read.
    pub fn fetch(
        &mut self,
        target: &'p Lvalue,
        address: u64,
        place: Place,
    ) -> Result<Next<'p>, AllocError>
        ensures { IfOk result (Moved self.old self.new (λ m. model.fetched m
            (tree.lvalue target.now) address (place_of place))) }
    {
        match target {
            Lvalue::Local(local) => {
                let value = self.activations.local(place.activation, *local);
                Ok(Next::Does(Action::Give(Completion::Value(value))))
            }
            Lvalue::Global { access, .. } => self.load(*access, address, place),
            Lvalue::Stacked { access, .. } => self.load(*access, address, place),
            Lvalue::Indirection { access, .. } => self.load(*access, address, place),
            Lvalue::Element { access, .. } => self.load(*access, address, place),
        }
    }

    /// A local is set.
    pub fn set_local(&mut self, local: u64, value: u64, place: Place)
        ensures { (x : frames.Next) (es : List Event') → model.with_local
            (machine_of self.old x es) (place_of place) local value ≡ machine_of self.new x es }
    {
        self.activations.set_local(place.activation, local, value);
    }

    /// A value is written to a place that was located.
    pub fn put(&mut self, target: &'p Lvalue, address: u64, value: u64, place: Place) -> Next<'p>
        ensures { Moved self.old self.new (λ m. model.put m (tree.lvalue target.now) address value
            (place_of place)) result }
    {
        match target {
            Lvalue::Local(local) => {
                self.set_local(*local, value, place);
                Next::Does(Action::Give(Completion::Value(value)))
            }
            Lvalue::Global { access, .. } => {
                Next::Does(Action::Operate(Operation::Store(access.width), address, value, place))
            }
            Lvalue::Stacked { access, .. } => {
                Next::Does(Action::Operate(Operation::Store(access.width), address, value, place))
            }
            Lvalue::Indirection { access, .. } => {
                Next::Does(Action::Operate(Operation::Store(access.width), address, value, place))
            }
            Lvalue::Element { access, .. } => {
                Next::Does(Action::Operate(Operation::Store(access.width), address, value, place))
            }
        }
    }

    /// What an operation came to.
    fn finish(
        &mut self,
        operation: Operation,
        first: u64,
        second: u64,
        place: Place,
        outcome: Performed,
    ) -> Result<Next<'p>, AllocError>
        ensures { IfOk result (Moved self.old self.new (λ m.
            operation_finished m operation first second (place_of place) outcome)) }
    {
        match outcome {
            Performed::Gives(value) => Ok(Next::Does(Action::Give(Completion::Value(value)))),
            Performed::Raises { code, access } => {
                self.push(ContinuationFrame::Waits(Waiting::Sequel(SequelFrame::Retries(
                    operation, first, second, place,
                ))))?;
                let exception = Exception {
                    code: code.0,
                    flag: false,
                    access,
                };
                Ok(start(Task::Raise(exception), place))
            }
            Performed::Undefined(address) => {
                Ok(Next::Does(Action::Over(Finish::Ended(Ended::Undefined { address }))))
            }
        }
    }

    /// An operation is made in memory whose globals' pages end at an address, and where it faults
    /// the fault is raised.
    pub fn operate(
        &mut self,
        data_end: u64,
        operation: Operation,
        first: u64,
        second: u64,
        place: Place,
    ) -> Result<Next<'p>, AllocError>
        ensures { IfOk result (Moved self.old self.new
            (λ m. model.operated m operation first second (place_of place) (performed
            (reserved_below data_end) operation first second m.state.memory))) }
    {
        let outcome = perform(&mut self.memory, data_end, operation, first, second);
        self.finish(operation, first, second, place, outcome)
    }
}
