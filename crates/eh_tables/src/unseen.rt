//! Unwind infos of which the scope records that were seen in other infos aren't checked again.

ghost use Rattle.std.specs.Prelude.{◌≡◌, IfOk, OnOk};
ghost use Rattle.eh_tables.specs.Infos.{info};
ghost use Rattle.eh_tables.specs.Records as spec;
ghost use Rattle.eh_tables.specs.Scopes.{checked};

use crate::info::{Info, read_before_records};
use crate::refusal::TableErr;
use crate::scope::check_scope_records;
use crate::seen_records::SeenRecords;
use pe_image::ImageView;
use std::alloc::AllocError;

/// Checks the scope records of the info at an address, for the entry of an index, except those that
/// were seen, and adds them to these.
fn check_unseen(
    seen: &mut SeenRecords,
    image: &ImageView<'_>,
    index: u64,
    rva: u32,
    info: &Info<'_>,
) -> Result<Result<(), TableErr>, AllocError>
    requires pass { spec.SeenPass image.now seen.old }
    requires placed { spec.AreAt image.now (spec.scope_records_rva rva info.now) info.now.scopes }
    ensures answer { IfOk result (λ r. r ≡ checked index image.now.size 0 info.now.scopes) }
    ensures pass { OnOk result (spec.SeenPass image.now seen.new) }
{
    let at = info.scope_records_rva(rva);
    let count = info.scopes().len();
    let mut row = 0;
    while row < count {
        let (from, to) = seen.next_unseen(at, row, count);
        let rows = info.scopes().from_row(from).first_rows(to - from);
        if let Err(refusal) = check_scope_records(index, image.size(), from, rows) {
            return Ok(Err(refusal));
        }
        row = to;
    }
    seen.add(at, count)?;
    Ok(Ok(()))
}

/// Reads the unwind info at an address, for the entry of an index. Scope records that were seen
/// aren't checked again; the others are seen from then on.
#[tactic(auto, using(crate::proofs::InfoSteps::info_steps))]
pub fn read_unseen<'a>(
    seen: &mut SeenRecords,
    image: &ImageView<'a>,
    index: u64,
    rva: u32,
) -> Result<Result<Info<'a>, TableErr>, AllocError>
    requires { spec.SeenPass image.now seen.old }
    ensures answer { IfOk result (λ r. r ≡ info image.now index rva) }
    ensures pass { OnOk result (spec.SeenPass image.now seen.new) }
{
    let info = match read_before_records(image, index, rva, false) {
        Ok(info) => info,
        Err(refusal) => return Ok(Err(refusal)),
    };
    match check_unseen(seen, image, index, rva, &info)? {
        Ok(()) => Ok(Ok(info)),
        Err(refusal) => Ok(Err(refusal)),
    }
}
