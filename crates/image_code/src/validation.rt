//! The verdict on an image, and that on each entry of its function table.

ghost use Rattle.std.specs.Prelude.{◌≡◌, IfOk, IfErr};
ghost use Rattle.eh_tables.specs.Tables.{directory, TablesAreWhole};
ghost use Rattle.image_code.specs.Verdicts.{IsImageVerdict, AreImageVerdicts, IsValidationRefusal};

use crate::code_view::CodeView;
use crate::refusal::ValidationErr;
use eh_tables::Tables;
use pe_image::ImageView;
use std::alloc::Global;
use unwind_check::validation::{validate, validate_entries};
use unwind_check::{EntryVerdict, Verdict};

/// The function table of an image, read whole; infos that entries share are checked once.
fn tables_of<'image, 'bytes>(
    alloc: Global,
    image: &'image ImageView<'bytes>,
) -> Result<Tables<'image, 'bytes>, ValidationErr>
    ensures read { IfOk result
        (λ t. (directory image.now ≡ Ok t.ranges) × (t.image ≡ image.now)) }
    ensures whole { IfOk result (λ t. TablesAreWhole t) }
    ensures refused { IfErr result (λ e. IsValidationRefusal image.now e) }
{
    match Tables::read_in(alloc, image) {
        Ok(Ok(tables)) => Ok(tables),
        Ok(Err(refusal)) => Err(ValidationErr::Table(refusal)),
        Err(_) => Err(ValidationErr::Memory),
    }
}

/// Whether no rule fails in any entry of an image's function table, or the first entry in which one
/// does, with its first fault. `probe` has the bytes of the stack probe, `__chkstk`. The image need
/// not be one that can be loaded.
pub fn validate_image(
    alloc: Global,
    image: &ImageView<'_>,
    probe: &[u8],
) -> Result<Verdict, ValidationErr>
    ensures verdict { IfOk result (λ v. IsImageVerdict image.now probe.now v) }
    ensures refused { IfErr result (λ e. IsValidationRefusal image.now e) }
{
    let tables = tables_of(alloc, image)?;
    let Ok(code) = CodeView::of(alloc, image) else {
        return Err(ValidationErr::Memory);
    };
    match validate(alloc, &code, probe, &tables) {
        Ok(verdict) => Ok(verdict),
        Err(_) => Err(ValidationErr::Memory),
    }
}

/// What is said of each entry of an image's function table, in the table's order, with the same
/// `probe` and the same refusals as [`validate_image`] has.
pub fn validate_image_entries(
    alloc: Global,
    image: &ImageView<'_>,
    probe: &[u8],
) -> Result<Vec<EntryVerdict>, ValidationErr>
    ensures verdicts { IfOk result (λ v. AreImageVerdicts image.now probe.now v.items) }
    ensures refused { IfErr result (λ e. IsValidationRefusal image.now e) }
{
    let tables = tables_of(alloc, image)?;
    let Ok(code) = CodeView::of(alloc, image) else {
        return Err(ValidationErr::Memory);
    };
    match validate_entries(alloc, &code, probe, &tables) {
        Ok(verdicts) => Ok(verdicts),
        Err(_) => Err(ValidationErr::Memory),
    }
}
