//! The command `meaning`: a text is read and run as its meaning says, and the text of the run is
//! written.

ghost use Rattle.std.specs.Prelude.{◌≤◌, length};
ghost use Rattle.seh.specs.Meanings.{IsMeaningAnswer, IsMeaningInputAnswer};
ghost use Rattle.seh.specs.Streams.{stream};

use crate::input::read_input;
use crate::outcome::CommandOutcome;
use crate::refusal::Refusal;
use c_meaning::interpret::{MeanErr, interpret};
use c_text::accepting::accept;
use command_line::command::RunOptions;
use host_layout::limit::MOST_TEXT;
use seh_io::sink::Sink;
use seh_io::source::Source;
use std::alloc::Global;

/// Runs a text as its meaning says, and writes the text of the run.
fn mean_text<O: Sink>(
    alloc: Global,
    options: RunOptions,
    text: &[u8],
    out: &mut O,
) -> Result<CommandOutcome, Refusal>
    requires { length text.now ≤ MOST_TEXT }
    ensures { IsMeaningAnswer options text.now
        (stream O.taken O.faults out.old) (stream O.taken O.faults out.new) result }
{
    let accepted = match accept(alloc, text) {
        Ok(accepted) => accepted,
        Err(error) => return Err(Refusal::Text(error)),
    };
    let RunOptions {
        turns,
        argument,
        trace,
    } = options;
    match interpret(alloc, &accepted.checked, argument, turns, trace, out) {
        Ok(ended) => Ok(CommandOutcome::Meant(ended)),
        Err(MeanErr::Write { .. }) => Err(Refusal::WriteFault),
        Err(MeanErr::Memory) => Err(Refusal::NoMemory),
    }
}

/// Reads a text from the source and runs it as its meaning says.
pub fn meaning<S: Source, O: Sink>(
    alloc: Global,
    options: RunOptions,
    src: &mut S,
    out: &mut O,
) -> Result<CommandOutcome, Refusal>
    ensures { IsMeaningInputAnswer options
        (stream S.left S.faults src.old) (stream S.left S.faults src.new)
        (stream O.taken O.faults out.old) (stream O.taken O.faults out.new) result }
{
    match read_input(alloc, src, MOST_TEXT) {
        Ok(text) => mean_text(alloc, options, &text, out),
        Err(refusal) => Err(refusal),
    }
}
