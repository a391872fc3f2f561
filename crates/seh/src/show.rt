//! The command `show`: an image is read, and the view of its function table is written.

ghost use Rattle.std.specs.Prelude.{◌≡◌};
ghost use Rattle.seh.specs.Answers.{image_limit, IsShowAnswer, IsInputAnswer};
ghost use Rattle.seh.specs.Streams.{stream};

use crate::input::read_input;
use crate::outcome::CommandOutcome;
use crate::refusal::Refusal;
use host_layout::limit::MOST_IMAGE;
use pe_image::ImageView;
use seh_io::sink::Sink;
use seh_io::source::Source;
use std::alloc::Global;
use table_view::view;

/// Writes the view of an image's function table.
fn show_image<O: Sink>(alloc: Global, bytes: &[u8], out: &mut O) -> Result<CommandOutcome, Refusal>
    ensures { IsShowAnswer bytes.now
        (stream O.taken O.faults out.old) (stream O.taken O.faults out.new) result }
{
    let image = match ImageView::read(alloc, bytes) {
        Ok(image) => image,
        Err(error) => return Err(Refusal::Image(error)),
    };
    match view(&image, out) {
        Ok(()) => Ok(CommandOutcome::Viewed),
        Err(_) => Err(Refusal::WriteFault),
    }
}

/// Reads an image from the source and shows its function table.
pub fn show<S: Source, O: Sink>(
    alloc: Global,
    src: &mut S,
    out: &mut O,
) -> Result<CommandOutcome, Refusal>
    ensures { IsInputAnswer image_limit IsShowAnswer
        (stream S.left S.faults src.old) (stream S.left S.faults src.new)
        (stream O.taken O.faults out.old) (stream O.taken O.faults out.new) result }
{
    match read_input(alloc, src, MOST_IMAGE) {
        Ok(bytes) => show_image(alloc, &bytes, out),
        Err(refusal) => Err(refusal),
    }
}
