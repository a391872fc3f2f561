//! The command `compile`: a text is read and compiled, and its image is written.

ghost use Rattle.std.specs.Prelude.{◌≤◌, length};
ghost use Rattle.seh.specs.Answers.{text_limit, IsCompileAnswer, IsInputAnswer};
ghost use Rattle.seh.specs.Streams.{stream};

use crate::image::compiled_image;
use crate::input::read_input;
use crate::outcome::CommandOutcome;
use crate::refusal::Refusal;
use host_layout::limit::MOST_TEXT;
use seh_io::sink::Sink;
use seh_io::source::Source;
use seh_io::writing::put_all;
use std::alloc::Global;

/// Compiles a text, and writes the bytes of its image.
fn compile_text<O: Sink>(alloc: Global, text: &[u8], out: &mut O) -> Result<CommandOutcome, Refusal>
    requires { length text.now ≤ MOST_TEXT }
    ensures { IsCompileAnswer text.now
        (stream O.taken O.faults out.old) (stream O.taken O.faults out.new) result }
{
    let image = match compiled_image(alloc, text) {
        Ok(image) => image,
        Err(refusal) => return Err(refusal),
    };
    match put_all(out, &image) {
        Ok(()) => Ok(CommandOutcome::Compiled),
        Err(_) => Err(Refusal::WriteFault),
    }
}

/// Reads a text from the source and compiles it.
pub fn compile<S: Source, O: Sink>(
    alloc: Global,
    src: &mut S,
    out: &mut O,
) -> Result<CommandOutcome, Refusal>
    ensures { IsInputAnswer text_limit IsCompileAnswer
        (stream S.left S.faults src.old) (stream S.left S.faults src.new)
        (stream O.taken O.faults out.old) (stream O.taken O.faults out.new) result }
{
    match read_input(alloc, src, MOST_TEXT) {
        Ok(text) => compile_text(alloc, &text, out),
        Err(refusal) => Err(refusal),
    }
}
