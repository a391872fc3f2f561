//! The command `check --each`: an image is read, and the verdict on each entry of its function
//! table is written.

ghost use Rattle.std.specs.Prelude.{◌≡◌, IfOk, IfErr};
ghost use Rattle.seh.specs.Answers.{image_limit, IsInputAnswer};
ghost use Rattle.seh.specs.Checks.{IsCheckRefusal};
ghost use Rattle.seh.specs.EntryChecks.{AreChecked, IsEntriesAnswer};
ghost use Rattle.seh.specs.Streams.{stream};

use crate::entry_lines::{entries_text, kept_count};
use crate::input::read_input;
use crate::outcome::CommandOutcome;
use crate::refusal::Refusal;
use host_layout::limit::MOST_IMAGE;
use image_code::{ValidationErr, validate_image_entries};
use pe_image::ImageView;
use seh_host::LoadErr;
use seh_io::sink::Sink;
use seh_io::source::Source;
use seh_io::writing::put_all;
use std::alloc::Global;
use unwind_check::EntryVerdict;
use x64_emit::entry::CHECK_STACK;

/// The verdicts on the entries of an image's function table, which is read whole; or why there are
/// none.
fn verdicts_of(alloc: Global, bytes: &[u8]) -> Result<Vec<EntryVerdict>, Refusal>
    ensures found { IfOk result (λ v. AreChecked bytes.now v.items) }
    ensures refused { IfErr result (λ e. IsCheckRefusal bytes.now e) }
{
    let image = match ImageView::read(alloc, bytes) {
        Ok(image) => image,
        Err(error) => return Err(Refusal::Image(error)),
    };
    match validate_image_entries(alloc, &image, &CHECK_STACK) {
        Ok(verdicts) => Ok(verdicts),
        Err(ValidationErr::Table(error)) => Err(Refusal::Load(LoadErr::Table(error))),
        Err(ValidationErr::Memory) => Err(Refusal::NoMemory),
    }
}

/// Writes the verdicts on the entries of an image's function table.
fn check_image_entries<O: Sink>(
    alloc: Global,
    bytes: &[u8],
    out: &mut O,
) -> Result<CommandOutcome, Refusal>
    ensures { IsEntriesAnswer bytes.now
        (stream O.taken O.faults out.old) (stream O.taken O.faults out.new) result }
{
    let verdicts = match verdicts_of(alloc, bytes) {
        Ok(verdicts) => verdicts,
        Err(refusal) => return Err(refusal),
    };
    let Ok(text) = entries_text(alloc, &verdicts) else {
        return Err(Refusal::NoMemory);
    };
    match put_all(out, &text) {
        Ok(()) => Ok(CommandOutcome::CheckedEntries {
            kept: kept_count(&verdicts),
            entries: verdicts.len() as u64,
        }),
        Err(_) => Err(Refusal::WriteFault),
    }
}

/// Reads an image from the source and checks the entries of its function table, one by one. The
/// image need not load.
pub fn check_entries<S: Source, O: Sink>(
    alloc: Global,
    src: &mut S,
    out: &mut O,
) -> Result<CommandOutcome, Refusal>
    ensures { IsInputAnswer image_limit IsEntriesAnswer
        (stream S.left S.faults src.old) (stream S.left S.faults src.new)
        (stream O.taken O.faults out.old) (stream O.taken O.faults out.new) result }
{
    match read_input(alloc, src, MOST_IMAGE) {
        Ok(bytes) => check_image_entries(alloc, &bytes, out),
        Err(refusal) => Err(refusal),
    }
}
