//! The command `check`: an image is read, and the verdict on its function table is written.

ghost use Rattle.std.specs.Prelude.{◌≡◌, IfOk, IfErr};
ghost use Rattle.seh.specs.Answers.{image_limit, IsInputAnswer};
ghost use Rattle.seh.specs.Checks.{IsChecked, IsCheckRefusal, IsCheckAnswer};
ghost use Rattle.seh.specs.Streams.{stream};

use crate::input::read_input;
use crate::outcome::CommandOutcome;
use crate::refusal::Refusal;
use crate::verdict::verdict_line;
use host_layout::limit::MOST_IMAGE;
use image_code::{ValidationErr, validate_image};
use pe_image::ImageView;
use seh_host::LoadErr;
use seh_io::sink::Sink;
use seh_io::source::Source;
use seh_io::writing::put_all;
use std::alloc::Global;
use unwind_check::Verdict;
use x64_emit::entry::CHECK_STACK;

/// The verdict on an image's function table, which is read whole; or why there is none.
fn verdict_of(alloc: Global, bytes: &[u8]) -> Result<Verdict, Refusal>
    ensures found { IfOk result (λ v. IsChecked bytes.now v) }
    ensures refused { IfErr result (λ e. IsCheckRefusal bytes.now e) }
{
    let image = match ImageView::read(alloc, bytes) {
        Ok(image) => image,
        Err(error) => return Err(Refusal::Image(error)),
    };
    match validate_image(alloc, &image, &CHECK_STACK) {
        Ok(verdict) => Ok(verdict),
        Err(ValidationErr::Table(error)) => Err(Refusal::Load(LoadErr::Table(error))),
        Err(ValidationErr::Memory) => Err(Refusal::NoMemory),
    }
}

/// Writes the verdict on an image's function table.
fn check_image<O: Sink>(alloc: Global, bytes: &[u8], out: &mut O) -> Result<CommandOutcome, Refusal>
    ensures { IsCheckAnswer bytes.now
        (stream O.taken O.faults out.old) (stream O.taken O.faults out.new) result }
{
    let verdict = match verdict_of(alloc, bytes) {
        Ok(verdict) => verdict,
        Err(refusal) => return Err(refusal),
    };
    match put_all(out, verdict_line(&verdict).as_bytes()) {
        Ok(()) => Ok(CommandOutcome::Checked(verdict)),
        Err(_) => Err(Refusal::WriteFault),
    }
}

/// Reads an image from the source and checks its function table. The image need not load.
pub fn check<S: Source, O: Sink>(
    alloc: Global,
    src: &mut S,
    out: &mut O,
) -> Result<CommandOutcome, Refusal>
    ensures { IsInputAnswer image_limit IsCheckAnswer
        (stream S.left S.faults src.old) (stream S.left S.faults src.new)
        (stream O.taken O.faults out.old) (stream O.taken O.faults out.new) result }
{
    match read_input(alloc, src, MOST_IMAGE) {
        Ok(bytes) => check_image(alloc, &bytes, out),
        Err(refusal) => Err(refusal),
    }
}
