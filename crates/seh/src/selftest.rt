//! The command `selftest`: a generated program is compiled in memory and run, and the summary of
//! its run is written.

ghost use Rattle.std.specs.Prelude.{◌≡◌, ◌≤◌, length, IfOk, IfErr};
ghost use Rattle.seh_io.specs.Text.{ended};
ghost use Rattle.seh_host.specs.Running.{running_of, run_of, run_names, event_count};
ghost use Rattle.seh_host.specs.Turns.{end_within};
ghost use Rattle.seh.specs.Answers.{IsCutOff};
ghost use Rattle.seh.specs.Refusals.{named};
ghost use Rattle.seh.specs.Selftests.{summary_of, IsSummaryAnswer, IsSelftestAnswer};
ghost use Rattle.seh.specs.Streams.{stream, TookWhole};

use crate::image::compiled_image;
use crate::outcome::CommandOutcome;
use crate::refusal::{Refusal, named};
use generated_program::generating::generate;
use pe_image::ImageView;
use seh_host::RunEnd;
use seh_host::host::Host;
use seh_host::loading::load;
use seh_host::run::run;
use seh_io::line::Line;
use seh_io::sink::Sink;
use seh_io::writing::put_all;
use std::alloc::Global;

/// The argument that generated programs are run with.
const ARGUMENT: i64 = 0;

/// The line of a name and a number.
fn number_line(name: &[u8], number: u64) -> Line
    requires { length name.now ≤ 43 }
    ensures { result ≡ ended (named name.now number) }
{
    let mut line = Line::new();
    named(&mut line, name, number);
    line.end();
    line
}

/// Runs a host that has counted no event, and writes the summary of the run: the line of the
/// program's number, the text of the run without trace, and the line of the number of its events.
fn write_summary<O: Sink>(
    turns: u64,
    number: u64,
    host: &mut Host<'_, '_>,
    out: &mut O,
) -> Result<RunEnd, Refusal>
    requires { event_count host.old ≡ 0 }
    ensures end { IfOk result (λ e. e ≡ end_within turns (run_of turns (running_of host.old)).end) }
    ensures whole { IfOk result (λ e. TookWhole (summary_of turns number
        (run_names (running_of host.old)) (run_of turns (running_of host.old)))
        (stream O.taken O.faults out.old) (stream O.taken O.faults out.new)) }
    ensures fault { IfErr result (λ e. e ≡ Refusal.WriteFault) }
    ensures cut_off { IfErr result
        (λ e. IsCutOff (summary_of turns number (run_names (running_of host.old))
        (run_of turns (running_of host.old)))
        (stream O.taken O.faults out.old) (stream O.taken O.faults out.new)) }
{
    let first = number_line(b"selftest ", number);
    match put_all(out, first.as_bytes()) {
        Ok(()) => {}
        Err(_) => return Err(Refusal::WriteFault),
    }
    let end = match run(host, turns, false, out) {
        Ok(end) => end,
        Err(_) => return Err(Refusal::WriteFault),
    };
    let last = number_line(b"events ", host.events());
    match put_all(out, last.as_bytes()) {
        Ok(()) => Ok(end),
        Err(_) => Err(Refusal::WriteFault),
    }
}

/// Runs an image, and writes the summary of its run.
fn run_program<O: Sink>(
    alloc: Global,
    turns: u64,
    number: u64,
    bytes: &[u8],
    out: &mut O,
) -> Result<CommandOutcome, Refusal>
    ensures { IsSummaryAnswer turns number bytes.now
        (stream O.taken O.faults out.old) (stream O.taken O.faults out.new) result }
{
    let image = match ImageView::read(alloc, bytes) {
        Ok(image) => image,
        Err(error) => return Err(Refusal::Image(error)),
    };
    let mut host = match load(alloc, &image, ARGUMENT) {
        Ok(host) => host,
        Err(error) => return Err(Refusal::Load(error)),
    };
    match write_summary(turns, number, &mut host, out) {
        Ok(end) => Ok(CommandOutcome::Ran(end)),
        Err(refusal) => Err(refusal),
    }
}

/// Compiles the generated program of a number, runs its image for at most so many turns, and writes
/// the summary of the run.
pub fn selftest<O: Sink>(
    alloc: Global,
    turns: u64,
    number: u64,
    out: &mut O,
) -> Result<CommandOutcome, Refusal>
    ensures { IsSelftestAnswer turns number
        (stream O.taken O.faults out.old) (stream O.taken O.faults out.new) result }
{
    let Ok(text) = generate(alloc, number) else {
        return Err(Refusal::NoMemory);
    };
    match compiled_image(alloc, &text) {
        Ok(image) => run_program(alloc, turns, number, &image, out),
        Err(refusal) => Err(refusal),
    }
}
