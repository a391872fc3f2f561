//! The command `run`: a text is read, compiled in memory and run, and the text of its run is
//! written.

ghost use Rattle.std.specs.Prelude.{◌≤◌, length};
ghost use Rattle.seh.specs.Answers.{text_limit, IsTextRunAnswer, IsInputAnswer};
ghost use Rattle.seh.specs.Streams.{stream};

use crate::exec::run_image;
use crate::image::compiled_image;
use crate::input::read_input;
use crate::outcome::CommandOutcome;
use crate::refusal::Refusal;
use command_line::command::RunOptions;
use host_layout::limit::MOST_TEXT;
use seh_io::sink::Sink;
use seh_io::source::Source;
use std::alloc::Global;

/// Compiles a text, runs its image, and writes the text of the run.
fn run_text<O: Sink>(
    alloc: Global,
    options: RunOptions,
    text: &[u8],
    out: &mut O,
) -> Result<CommandOutcome, Refusal>
    requires { length text.now ≤ MOST_TEXT }
    ensures { IsTextRunAnswer options text.now
        (stream O.taken O.faults out.old) (stream O.taken O.faults out.new) result }
{
    match compiled_image(alloc, text) {
        Ok(image) => run_image(alloc, options, &image, out),
        Err(refusal) => Err(refusal),
    }
}

/// Reads a text from the source, compiles it and runs its image.
pub fn run<S: Source, O: Sink>(
    alloc: Global,
    options: RunOptions,
    src: &mut S,
    out: &mut O,
) -> Result<CommandOutcome, Refusal>
    ensures { IsInputAnswer text_limit (IsTextRunAnswer options)
        (stream S.left S.faults src.old) (stream S.left S.faults src.new)
        (stream O.taken O.faults out.old) (stream O.taken O.faults out.new) result }
{
    match read_input(alloc, src, MOST_TEXT) {
        Ok(text) => run_text(alloc, options, &text, out),
        Err(refusal) => Err(refusal),
    }
}
