//! Whole runs.

ghost use Rattle.std.specs.Prelude.{◌≡◌, ◌≤◌, ◌++◌, [], List, reverse, false, IfOk, IfErr, OnOk, OnErr, MatchOption, length, Some, option_map, slice_get};
ghost use Rattle.seh_num.specs.declared.event.Event.{Event as Event'};
ghost use Rattle.seh_io.specs.Writer.{TookEvents};
ghost use Rattle.c_checked.specs.Whole as whole;
ghost use Rattle.source_meaning.specs.Source.{data_end as model_data_end};
ghost use Rattle.source_meaning.specs.Meaning as meaning;
ghost use Rattle.source_meaning.specs.State.{walk_events};
ghost use Rattle.source_machine.specs.Frames as frames;
ghost use Rattle.source_machine.specs.StepLaws.{is_over};
ghost use Rattle.source_plans.specs.Views as views;
ghost use Rattle.source_steps.specs.Machines.{machine_of, state_of};
ghost use Rattle.source_steps.specs.Functions.{numbers_of};
ghost use Rattle.source_machine.specs.Runs as model_runs;
ghost use Rattle.c_meaning.specs.Runs as runs;
ghost use Rattle.c_meaning.specs.Runs.{Turned, Ran, ShownPart, HasStopped, HasFailed, Means, MeansPart};

use c_checked::checked::Checked;
use seh_io::names::Names;
use seh_io::receiver::{Events, Lines};
use seh_io::sink::Sink;
use seh_num::extension::wrap;
use seh_num::width::Width;
use source_meaning::ended::Ended;
use source_operations::memory::{data_end, first_memory};
use source_plans::frame::{Action, Callee, Completion, Finish, Next};
use source_plans::place::{NO_EXCEPTION, Place};
use source_steps::activations::Activations;
use source_steps::calls::low_signed;
use source_steps::functions::LiveFunctions;
use source_steps::machine::{Interpreter, MachineStep, StepEvents};
use std::alloc::{AllocError, Global};
use vectored_list::VectoredList;

/// Why a run ended before its end.
#[derive(Clone, Copy)]
pub enum RunErr {
    /// The line of an event couldn't be written.
    Write,
    /// The system had no memory left.
    Memory,
}

/// How the run ended, if it is over.
fn finish_of(next: &Next<'_>) -> Option<Finish>
    ensures { MatchOption result (is_over (views.next_of next.now) ≡ false)
        (λ how. views.next_of next.now ≡ frames.Over (views.finish_of how)) }
{
    match next {
        Next::Does(Action::Over(how)) => Some(*how),
        _ => None,
    }
}

/// Gives what a walk shows to a receiver: the functions of the live activations, innermost first.
fn show_walk<V: Events>(functions: &LiveFunctions, to: &mut V)
    ensures { V.took to.old (walk_events (reverse (numbers_of functions.now))) to.new }
{
    for index in (0..functions.numbers.len()).rev() {
        to.take(&functions.numbers[index].shown());
    }
}

/// One step, whose events the receiver takes.
fn turn<'p, V: Events>(
    alloc: Global,
    program: &'p Checked,
    data_end: u64,
    machine: &mut Interpreter<'p>,
    next: Next<'p>,
    to: &mut V,
) -> Result<Next<'p>, AllocError>
    requires { data_end ≡ model_data_end program.now.globals.items }
    ensures turned { IfOk result (λ after. Turned V.took (whole.program program.now) machine.old
        (views.next_of next.entry) to.old machine.new (views.next_of after) to.new) }
    ensures nothing { OnErr result (V.took to.old [] to.new) }
    ensures same { OnErr result (to.new ≡ to.old) }
{
    let MachineStep { next, shown } = machine.step(alloc, program, data_end, next)?;
    match shown {
        StepEvents::Nothing => Ok(next),
        StepEvents::One(event) => {
            to.take(&event);
            Ok(next)
        }
        StepEvents::Walk => {
            show_walk(&machine.functions, to);
            Ok(next)
        }
    }
}

/// Runs the machine until its run is over, and writes the line of each event. It stops at the
/// first line that can't be written, and makes no step after the one that shows it.
fn run<'p, O: Sink, N: Names>(
    alloc: Global,
    program: &'p Checked,
    data_end: u64,
    machine: &mut Interpreter<'p>,
    first: Next<'p>,
    lines: &mut Lines<'_, O, N>,
) -> Result<Finish, RunErr>
    requires data { data_end ≡ model_data_end program.now.globals.items }
    requires fresh { lines.old.failed ≡ false }
    ensures same_reference { lines.new.sink.ghost_name ≡ lines.old.sink.ghost_name }
    ensures ran { IfOk result (λ how. Ran (TookEvents O.taken O.faults N.named)
        (whole.program program.now) (machine_of machine.old (views.next_of first.entry) [])
        (views.finish_of how) lines.old lines.new) }
    ensures written { OnOk result (lines.new.failed ≡ false) }
    ensures part { OnErr result (ShownPart (TookEvents O.taken O.faults N.named)
        (whole.program program.now) (machine_of machine.old (views.next_of first.entry) [])
        lines.old lines.new) }
    ensures stopped { IfErr result (λ e. HasStopped e O.taken O.faults N.named
        (whole.program program.now) (machine_of machine.old (views.next_of first.entry) [])
        lines.old machine.new lines.new) }
{
    let mut next = first;
    loop {
        if let Some(how) = finish_of(&next) {
            return Ok(how);
        }
        let Ok(after) = turn(alloc, program, data_end, machine, next, lines) else {
            return Err(RunErr::Memory);
        };
        if lines.failed {
            return Err(RunErr::Write);
        }
        next = after;
    }
}

/// The machine with which a program begins.
fn first_machine<'p>(
    alloc: Global,
    program: &'p Checked,
    budget: u64,
) -> Result<Interpreter<'p>, AllocError>
    ensures { IfOk result (λ m. (next : frames.Next) → machine_of m next [] ≡ model_runs.beginning
        (whole.program program.now) budget next) }
{
    Ok(Interpreter {
        steps_left: budget,
        memory: first_memory(alloc, &program.globals)?,
        activations: Activations::new(alloc),
        functions: LiveFunctions::new(alloc),
        held: 0,
        vectored: VectoredList::new(),
        handlers: Vec::new(alloc),
        stack: Vec::new(alloc),
    })
}

/// The arguments of `main`: the argument of the run, where `main` has a parameter.
fn main_arguments(alloc: Global, program: &Checked, arg: i64) -> Result<Vec<u64>, AllocError>
    ensures { IfOk result (λ vs. let p = whole.program program.now in vs.items
        ≡ meaning.main_arguments (slice_get p.functions p.main) arg) }
{
    let mut arguments = Vec::new(alloc);
    if let Some(main) = program.functions.get(program.main as usize) {
        if !main.parameters.is_empty() {
            arguments.push(wrap(Width::W64, i128::from(arg)))?;
        }
    }
    Ok(arguments)
}

/// How a program ended, by what its `main` came to.
fn end_of(finish: Finish) -> Option<Ended>
    ensures { result ≡ runs.end_of (views.finish_of finish) }
{
    match finish {
        Finish::Gave(Completion::Value(value)) => Some(Ended::Exit(low_signed(value))),
        Finish::Gave(_) => None,
        Finish::Ended(ended) => Some(ended),
        Finish::OutOfSteps => None,
    }
}

/// Runs a program within some steps, and writes the lines of what it shows. No end is the end
/// within them.
///
/// After `Write` no step was made but those up to the one whose line failed.
pub fn run_program<O: Sink, N: Names>(
    alloc: Global,
    program: &Checked,
    arg: i64,
    budget: u64,
    lines: &mut Lines<'_, O, N>,
) -> Result<Option<Ended>, RunErr>
    requires { lines.old.failed ≡ false }
    ensures same_reference { lines.new.sink.ghost_name ≡ lines.old.sink.ghost_name }
    ensures means { IfOk result (λ end. Means (TookEvents O.taken O.faults N.named)
        (meaning.meaning (whole.program program.now) arg budget) end lines.old lines.new) }
    ensures written { OnOk result (lines.new.failed ≡ false) }
    ensures part { OnErr result (MeansPart (TookEvents O.taken O.faults N.named) (meaning.meaning
        (whole.program program.now) arg budget) lines.old lines.new) }
    ensures failed { IfErr result (λ e. HasFailed e lines.new.failed) }
{
    let place = Place {
        activation: 0,
        data_part: None,
        exception: NO_EXCEPTION,
        abnormal: false,
    };
    let Ok(arguments) = main_arguments(alloc, program, arg) else {
        return Err(RunErr::Memory);
    };
    let Ok(mut machine) = first_machine(alloc, program, budget) else {
        return Err(RunErr::Memory);
    };
    let first = Next::Call(Callee::Defined(program.main), arguments, place);
    let end = data_end(&program.globals);
    match run(alloc, program, end, &mut machine, first, lines) {
        Ok(finish) => Ok(end_of(finish)),
        Err(error) => Err(error),
    }
}
