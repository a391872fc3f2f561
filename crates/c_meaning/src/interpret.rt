//! The interpreter.

ghost use Rattle.std.specs.Prelude.{◌≡◌, ◌≤◌, ◌++◌, ◌<◌, length, IfOk, IfErr, OnOk, OnErr};
ghost use Rattle.seh_io.specs.Streams.{Faultless, Grew};
ghost use Rattle.c_checked.specs.Whole as whole;
ghost use Rattle.source_meaning.specs.Meaning as meaning;
ghost use Rattle.c_meaning.specs.Texts as texts;
ghost use Rattle.c_meaning.specs.FunctionNames.{names_of};

use crate::function_names::FunctionNames;
use crate::run::{RunErr, run_program};
use c_checked::checked::Checked;
use seh_io::line::{ADDRESS_DIGITS, CODE_DIGITS, Line};
use seh_io::receiver::Lines;
use seh_io::sink::Sink;
use source_meaning::ended::Ended;
use std::alloc::Global;

/// Why the text of a program's meaning wasn't written whole.
#[derive(Clone, Copy)]
pub enum MeanErr {
    /// A write failed when so many bytes of the text had been taken.
    Write { taken: u64 },
    /// The system had no memory left; a part of the text from the front was taken.
    Memory,
}

/// How a program's run ended, as its last line says.
fn ended_line(ended: &Ended) -> Line
    ensures { result ≡ texts.ended_line ended.now }
{
    let mut line = Line::new();
    match *ended {
        Ended::Exit(value) => {
            line.text(b"exit ");
            line.integer(i64::from(value));
        }
        Ended::Unhandled(code) => {
            line.text(b"unhandled ");
            line.hexadecimal(CODE_DIGITS, u64::from(code.0));
        }
        Ended::Undefined { address } => {
            line.text(b"undefined ");
            line.hexadecimal(ADDRESS_DIGITS, address);
        }
        Ended::Deep { depth } => {
            line.text(b"deep ");
            line.natural(depth);
        }
        Ended::OutOfSteps { steps } => {
            line.text(b"out of steps ");
            line.natural(steps);
        }
    }
    line.end();
    line
}

/// Runs a program within `budget` steps from an argument, writes the lines of what it shows and of
/// its end, and answers its end.
///
/// With `trace` each event has its line, else what is put alone. A program that hasn't ended within
/// the steps is out of steps. After an error the sink has taken a part of the text from the front;
/// the run ends at the first line that can't be written.
pub fn interpret<O: Sink>(
    alloc: Global,
    program: &Checked,
    arg: i64,
    budget: u64,
    trace: bool,
    sink: &mut O,
) -> Result<Ended, MeanErr>
    ensures end { IfOk result (λ e. e ≡ texts.ended_within budget (meaning.meaning
        (whole.program program.now) arg budget).end) }
    ensures text { IfOk result (λ e. Grew (O.taken sink.old) (texts.text trace budget
        (meaning.meaning (whole.program program.now) arg budget)
        (names_of (whole.program program.now))) (O.taken sink.new)) }
    ensures part { IfErr result (λ e. texts.TookFront e (O.taken sink.old)
        (texts.text trace budget (meaning.meaning (whole.program program.now) arg budget)
        (names_of (whole.program program.now))) (O.taken sink.new)) }
    ensures cause { IfErr result (λ e.
        texts.MeaningHasCause e (O.faults sink.old) (O.faults sink.new)) }
    ensures faultless { OnOk result (Faultless (O.faults sink.old) (O.faults sink.new)) }
{
    let names = FunctionNames { program };
    let mut lines = Lines::new(sink, trace, &names);
    let end = match run_program(alloc, program, arg, budget, &mut lines) {
        Ok(end) => end,
        Err(RunErr::Write) => {
            return Err(MeanErr::Write { taken: lines.taken });
        }
        Err(RunErr::Memory) => return Err(MeanErr::Memory),
    };
    let ended = end.unwrap_or(Ended::OutOfSteps { steps: budget });
    lines.put(ended_line(&ended).as_bytes());
    match lines.outcome() {
        Ok(()) => Ok(ended),
        Err(fault) => Err(MeanErr::Write { taken: fault.taken }),
    }
}
