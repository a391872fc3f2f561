//! The machine, and what changes it.

ghost use Rattle.std.specs.Prelude.{◌≡◌, ◌++◌, [], ◌∷◌, List, reverse, IfOk, OnOk};
ghost use Rattle.source_meaning.specs.State as states;
ghost use Rattle.source_meaning.specs.State.{walk_events};
ghost use Rattle.source_meaning.specs.declared.ended.Ended.TheVariants as ends;
ghost use Rattle.seh_num.specs.declared.event.Event.{Event as Event'};
ghost use Rattle.source_machine.specs.Frames as frames;
ghost use Rattle.source_machine.specs.Machine as model;
ghost use Rattle.source_plans.specs.Views as views;
ghost use Rattle.source_plans.specs.Views.{place_of};
ghost use Rattle.source_steps.specs.Machines.{machine_of, state_of, shown_after, Moved, Showed};
ghost use Rattle.source_steps.specs.Machines.{ShowsNothing};
ghost use Rattle.source_steps.specs.Functions.{numbers_of};
ghost use Rattle.source_steps.specs.declared.machine.Interpreter as model_machines;

use crate::activations::Activations;
use crate::functions::LiveFunctions;
use seh_num::event::Event;
use source_meaning::depth::{DEEPEST, TOO_DEEP};
use source_meaning::ended::Ended;
use source_plans::frame::{Action, ContinuationFrame, Finish, Next, Phase, Plan};
use source_plans::place::{Handler, Place};
use source_plans::task::Task;
use std::alloc::AllocError;
use vectored_list::VectoredList;
use x64_memory::page_map::PageMap;

/// A machine that runs a program.
#[derive(Drop)]
pub struct Interpreter<'p> {
    /// How many steps may still begin.
    pub steps_left: u64,
    /// The globals and the arena, with the protection of each page.
    pub memory: PageMap,
    /// The locals of the live activations, the outermost first.
    pub activations: Activations,
    /// The function of each of them.
    pub functions: LiveFunctions,
    /// What is held of the depth beside the live activations: 2 for each filter, vectored handler
    /// and `__finally` block that runs, or that a target has left, 1 for each activation that one
    /// has left, and of each activation, live or left, its function's surplus; of what a target has
    /// left, until it lands.
    pub held: u64,
    /// The vectored handlers, by the numbers of their functions.
    pub vectored: VectoredList,
    /// The handlers around the place where the machine continues, outermost first.
    pub handlers: Vec<Handler<'p>>,
    /// What waits, the newest last.
    pub stack: Vec<ContinuationFrame<'p>>,
}

/// The events of a step.
#[derive(Clone, Copy)]
pub enum StepEvents {
    /// None.
    Nothing,
    /// One.
    One(Event),
    /// One for each live activation, innermost first: those that the machine has after the step.
    Walk,
}

/// What is done next, and what was shown.
#[derive(Drop)]
pub struct MachineStep<'p> {
    /// What is done next.
    pub next: Next<'p>,
    /// The events that the step shows.
    pub shown: StepEvents,
}

/// A step that shows nothing.
pub fn silent<'p>(next: Next<'p>) -> MachineStep<'p>
    ensures next { views.next_of result.next ≡ views.next_of next.entry }
    ensures shown { (m : model_machines.Interpreter) (es : List Event')
        → shown_after m es result.shown ≡ es }
{
    MachineStep {
        next,
        shown: StepEvents::Nothing,
    }
}

/// A step that shows nothing, where what is done next is there.
pub fn silently<'p>(next: Result<Next<'p>, AllocError>) -> Result<MachineStep<'p>, AllocError>
    ensures { ShowsNothing next.entry result }
{
    match next {
        Err(error) => Err(error),
        Ok(next) => Ok(silent(next)),
    }
}

/// A step that shows an event.
pub fn showing<'p>(event: Event, next: Next<'p>) -> MachineStep<'p>
    ensures next { views.next_of result.next ≡ views.next_of next.entry }
    ensures shown { (m : model_machines.Interpreter) (es : List Event')
        → shown_after m es result.shown ≡ es ++ event ∷ [] }
{
    MachineStep {
        next,
        shown: StepEvents::One(event),
    }
}

/// A step that shows the live activations.
pub fn walking<'p>(next: Next<'p>) -> MachineStep<'p>
    ensures next { views.next_of result.next ≡ views.next_of next.entry }
    ensures shown { (m : model_machines.Interpreter) (es : List Event')
        → shown_after m es result.shown ≡ es ++ walk_events (reverse (numbers_of m.functions)) }
{
    MachineStep {
        next,
        shown: StepEvents::Walk,
    }
}

/// The run is over, since the depth would rise above the greatest.
pub fn too_deep<'p>() -> Next<'p>
    ensures { views.next_of result ≡ frames.Over (states.End (Some (ends.Deep TOO_DEEP))) }
{
    Next::Does(Action::Over(Finish::Ended(Ended::Deep { depth: TOO_DEEP })))
}

impl<'p> Interpreter<'p> {
    /// Whether the depth would rise above the greatest, by so much.
    pub fn is_deep(&self, more: u64) -> bool
        ensures { (es : List Event') → result ≡ model.is_deep (state_of self.now es) more }
    {
        let live = self.activations.len() as u64;
        let held = self.held;
        if live > DEEPEST {
            return true;
        }
        if held > DEEPEST {
            return true;
        }
        if more > DEEPEST {
            return true;
        }
        live + held + more > DEEPEST
    }

    /// One more frame waits.
    pub fn push(&mut self, frame: ContinuationFrame<'p>) -> Result<(), AllocError>
        ensures { OnOk result ((next : frames.Next) (x : frames.Next) (es : List Event')
            → model.follow (machine_of self.old x es) (frames.Push
            (views.frame_of frame.entry) next) ≡ machine_of self.new next es) }
    {
        self.stack.push(frame)?;
        Ok(())
    }

    /// What a plan does.
    pub fn follow(&mut self, plan: Plan<'p>) -> Result<Next<'p>, AllocError>
        ensures { IfOk result (Moved self.old self.new (λ m. model.follow m
            (views.plan_of plan.entry))) }
    {
        let Plan { pushed, next } = plan;
        match pushed {
            None => Ok(next),
            Some(frame) => {
                self.push(frame)?;
                Ok(next)
            }
        }
    }

    /// A task's step.
    pub fn start(&mut self, task: Task<'p>, place: Place) -> Next<'p>
        ensures { Moved self.old self.new (λ m. model.started m (views.task_of task.entry)
            (place_of place) m.state.steps_left) result }
    {
        if self.steps_left == 0 {
            return Next::Does(Action::Over(Finish::OutOfSteps));
        }
        self.steps_left -= 1;
        Next::Does(Action::Do(Phase::After, task, place))
    }
}
