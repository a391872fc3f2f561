//! The image of a text.

ghost use Rattle.std.specs.Prelude.{◌≤◌, length, IfOk, IfErr};
ghost use Rattle.c_checked.specs.Whole.{program};
ghost use Rattle.image_link.specs.Fits.{FitsProgram};
ghost use Rattle.image_runs.specs.ImageMeaning.{IsImageOf};
ghost use Rattle.seh.specs.Images.{IsCompiled, IsTextRefusal};
ghost use Rattle.seh_ir.specs.Lowered.{lowered};

use crate::refusal::Refusal;
use c_checked::checked::Checked;
use c_text::accepting::accept;
use host_layout::limit::MOST_TEXT;
use image_link::link::compile_program;
use seh_ir::lower::lower;
use std::alloc::{AllocError, Global};

/// The image that a checked program is linked to.
fn linked_image(alloc: Global, checked: &Checked) -> Result<Vec<u8>, AllocError>
    requires { FitsProgram (lowered (program checked.now)) }
    ensures { IfOk result (λ image. IsImageOf image.items (program checked.now)) }
{
    let linear = lower(alloc, checked)?;
    compile_program(alloc, &linear)
}

/// The image of an accepted text, or why it isn't compiled.
pub fn compiled_image(alloc: Global, text: &[u8]) -> Result<Vec<u8>, Refusal>
    requires { length text.now ≤ MOST_TEXT }
    ensures found { IfOk result (λ image. IsCompiled text.now image.items) }
    ensures refused { IfErr result (λ e. IsTextRefusal text.now e) }
{
    let accepted = match accept(alloc, text) {
        Ok(accepted) => accepted,
        Err(error) => return Err(Refusal::Text(error)),
    };
    match linked_image(alloc, &accepted.checked) {
        Ok(image) => Ok(image),
        Err(_) => Err(Refusal::NoMemory),
    }
}
