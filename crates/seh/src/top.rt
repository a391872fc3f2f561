//! The program's one call.

ghost use Rattle.std.specs.Prelude.{◌≡◌, ◌≤◌, map};
ghost use Rattle.std.specs.String.{string_bytes};
ghost use Rattle.seh.specs.Commands.{Answers, IsAnswer};
ghost use Rattle.seh.specs.Streams.{stream};

use crate::check::check;
use crate::check_entries::check_entries;
use crate::compile::compile;
use crate::exec::exec;
use crate::meaning::meaning;
use crate::outcome::CommandOutcome;
use crate::refusal::{Refusal, report};
use crate::run::run;
use crate::selftest::selftest;
use crate::show::show;
use crate::status::Status;
use command_line::command::{CheckReport, Command};
use command_line::reading::{DEFAULT_TURNS, WordsErr, command_of};
use seh_io::sink::Sink;
use seh_io::source::Source;
use std::alloc::Global;

/// What the words ask for, carried out.
fn answer<S: Source, O: Sink>(
    alloc: Global,
    words: &[String],
    src: &mut S,
    out: &mut O,
) -> Result<CommandOutcome, Refusal>
    ensures { IsAnswer (map string_bytes words.now) (stream S.left S.faults src.old)
        (stream S.left S.faults src.new) (stream O.taken O.faults out.old)
        (stream O.taken O.faults out.new) result }
{
    match command_of(alloc, words) {
        Ok(Command::Compile) => compile(alloc, src, out),
        Ok(Command::Show) => show(alloc, src, out),
        Ok(Command::Check(CheckReport::Whole)) => check(alloc, src, out),
        Ok(Command::Check(CheckReport::Each)) => check_entries(alloc, src, out),
        Ok(Command::Exec(options)) => exec(alloc, options, src, out),
        Ok(Command::Run(options)) => run(alloc, options, src, out),
        Ok(Command::Meaning(options)) => meaning(alloc, options, src, out),
        Ok(Command::Selftest(number)) => selftest(alloc, DEFAULT_TURNS, number, out),
        Err(WordsErr::Usage) => Err(Refusal::Usage),
        Err(WordsErr::Memory) => Err(Refusal::NoMemory),
    }
}

/// Carries out the command that the words, those after the program's name, ask for.
///
/// `compile` reads a text of C of at most 1 MiB from the source and writes the image that it is
/// compiled to, which does what the text's program means, and nothing more.
///
/// `exec` reads an image from the source, runs it with the argument `--arg` for at most `--turns`
/// turns, 0 and 10,000,000 where they aren't given, and writes the text of its run to `out`, with
/// `--trace` the lines of all events; the status is that of the run's end. `run`, with the same
/// options, reads a text and answers as `exec` does for the image that the text is compiled to.
///
/// `meaning`, with the same options, reads a text and runs it as its meaning says, for at most
/// `--turns` steps; after `no memory` `out` may have taken a part of the text from the front.
///
/// `show` reads an image and writes the view of its function table.
///
/// `check` reads an image and judges its code by its function table, by the rules of crate
/// `unwind_check`: it writes `yes` with the number of entries; or `no` with the index of the first
/// entry in which a rule fails, the address of the first boundary at which one does, and the rule,
/// and has the status `No`. The image need not load. With `--each` it writes a line for each
/// entry: `yes` with the entry's index and the address of its first byte where no rule fails in
/// it, else `no` as for the first; and last how many entries are without a fault of how many, with
/// the status `Done` where all are, else `No`.
///
/// `selftest N` reads nothing. It compiles the generated program of the number N in memory and runs
/// its image, with the argument 0 for at most 10,000,000 turns. It writes `selftest N`, the text of
/// the run without trace, and `events E`, with E the number of events of all kinds that the run
/// shows, at most 2^64 - 1; the status is that of the run's end.
///
/// A refusal writes one line to `err` and nothing to `out`, but for a write fault, and for `no
/// memory` of `meaning`, after which `out` has taken a part of the text from the front. Where the
/// line can't be written the status is that of a write fault, and `err` has taken a part of the
/// line from the front. `too long` comes only where the source holds more than the command's limit.
/// After it, a read fault or want of memory the source has lost at most the limit and one byte,
/// from the front.
pub fn top<S: Source, O: Sink, E: Sink>(
    alloc: Global,
    words: &[String],
    src: &mut S,
    out: &mut O,
    err: &mut E,
) -> Status
    ensures { Answers (map string_bytes words.now)
        (stream S.left S.faults src.old) (stream S.left S.faults src.new)
        (stream O.taken O.faults out.old) (stream O.taken O.faults out.new)
        (stream E.taken E.faults err.old) (stream E.taken E.faults err.new) result }
{
    match answer(alloc, words, src, out) {
        Ok(outcome) => outcome.status(),
        Err(refusal) => report(err, &refusal),
    }
}
