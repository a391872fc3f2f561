//! The command `exec`: an image is read and run, and the text of its run is written.

ghost use Rattle.std.specs.Prelude.{◌≡◌};
ghost use Rattle.seh.specs.Answers.{image_limit, IsRunAnswer, IsInputAnswer};
ghost use Rattle.seh.specs.Streams.{stream};

use crate::input::read_input;
use crate::outcome::CommandOutcome;
use crate::refusal::Refusal;
use command_line::command::RunOptions;
use host_layout::limit::MOST_IMAGE;
use pe_image::ImageView;
use seh_host::loading::load;
use seh_host::run::run;
use seh_io::sink::Sink;
use seh_io::source::Source;
use std::alloc::Global;

/// Runs an image, and writes the text of its run.
pub fn run_image<O: Sink>(
    alloc: Global,
    options: RunOptions,
    bytes: &[u8],
    out: &mut O,
) -> Result<CommandOutcome, Refusal>
    ensures { IsRunAnswer options bytes.now
        (stream O.taken O.faults out.old) (stream O.taken O.faults out.new) result }
{
    let image = match ImageView::read(alloc, bytes) {
        Ok(image) => image,
        Err(error) => return Err(Refusal::Image(error)),
    };
    let mut host = match load(alloc, &image, options.argument) {
        Ok(host) => host,
        Err(error) => return Err(Refusal::Load(error)),
    };
    match run(&mut host, options.turns, options.trace, out) {
        Ok(end) => Ok(CommandOutcome::Ran(end)),
        Err(_) => Err(Refusal::WriteFault),
    }
}

/// Reads an image from the source and runs it.
pub fn exec<S: Source, O: Sink>(
    alloc: Global,
    options: RunOptions,
    src: &mut S,
    out: &mut O,
) -> Result<CommandOutcome, Refusal>
    ensures { IsInputAnswer image_limit (IsRunAnswer options)
        (stream S.left S.faults src.old) (stream S.left S.faults src.new)
        (stream O.taken O.faults out.old) (stream O.taken O.faults out.new) result }
{
    match read_input(alloc, src, MOST_IMAGE) {
        Ok(bytes) => run_image(alloc, options, &bytes, out),
        Err(refusal) => Err(refusal),
    }
}
