//! An image opened, and its function table.

ghost use Rattle.std.specs.Prelude.{◌≡◌, ◌==◌, ◌<◌, not, Ok, Err, IfOk, IfErr};
ghost use Rattle.eh_index.specs.Indexes.{IsIndexOf};
ghost use Rattle.eh_tables.specs.Covering.{RangesAscend};
ghost use Rattle.eh_tables.specs.Tables.{directory, Tables};
ghost use Rattle.seh_views.specs.Openings as spec;
ghost use Rattle.seh_views.specs.Shapes.{layout_of};
ghost use Rattle.seh_views.specs.Views as views;

use crate::c_types::{SehView, layout_of};
use crate::refusal::Refusal;
use eh_index::{fill, shift_for};
use eh_tables::Tables;
use pe_image::{ImageErr, ImageLayout, ImageView};
use std::alloc::Global;

fn image_refusal(e: ImageErr) -> Refusal
    ensures { result ≡ spec.image_refusal e }
{
    match e {
        ImageErr::Memory => Refusal::NoMemory,
        e => Refusal::Image(e),
    }
}

/// Opens an image, by its headers and sections alone.
#[tactic(auto, using(crate::proofs::Opened::opening_refused))]
pub fn open<'a>(
    alloc: Global,
    layout: ImageLayout,
    bytes: &'a [u8],
) -> Result<ImageView<'a>, Refusal>
    ensures { spec.Gives result (spec.opened layout bytes.now) }
{
    match ImageView::read_outline(alloc, bytes, layout) {
        Ok(image) => Ok(image),
        Err(e) => Err(image_refusal(e)),
    }
}

/// Opens an image with what it imports, which tells which handlers have scope tables.
#[tactic(auto, using(crate::proofs::Opened::reading_refused))]
pub fn open_with_imports<'a>(
    alloc: Global,
    layout: ImageLayout,
    bytes: &'a [u8],
) -> Result<ImageView<'a>, Refusal>
    ensures { spec.Gives result (spec.opened_whole layout bytes.now) }
{
    match ImageView::read_in(alloc, bytes, layout) {
        Ok(image) => Ok(image),
        Err(e) => Err(image_refusal(e)),
    }
}

/// The function table of an image, whose ranges ascend. No unwind info is read.
#[tactic(auto, using(crate::proofs::Opened::table_made, crate::proofs::Opened::no_directory, crate::proofs::Opened::ranges_refused, crate::proofs::Opened::they_ascend))]
pub fn table_of<'image, 'bytes>(
    image: &'image ImageView<'bytes>,
) -> Result<Tables<'image, 'bytes>, Refusal>
    ensures value { result ≡ spec.table_of image.now }
    ensures of_image { IfOk result (λ t. t.image ≡ image.now) }
    ensures ascend { IfOk result (λ t. RangesAscend t.ranges) }
{
    let tables = match Tables::of(image) {
        Ok(tables) => tables,
        Err(e) => return Err(Refusal::Table(e)),
    };
    match tables.check_ranges() {
        Ok(()) => Ok(tables),
        Err(e) => Err(Refusal::Table(e)),
    }
}

/// The function table of an image, whose order isn't looked at.
#[tactic(auto, using(crate::proofs::Opened::no_directory))]
pub fn unchecked_table_of<'image, 'bytes>(
    image: &'image ImageView<'bytes>,
) -> Result<Tables<'image, 'bytes>, Refusal>
    ensures read { IfOk result
        (λ t. (directory image.now ≡ Ok t.ranges) × (t.image ≡ image.now)) }
    ensures refusal { IfErr result (λ e. Err e ≡ spec.table_of image.now) }
{
    match Tables::of(image) {
        Ok(tables) => Ok(tables),
        Err(e) => Err(Refusal::Table(e)),
    }
}

/// What a view says of the form of its bytes.
fn form_of(mapped: bool) -> u32
    ensures { layout_of (not (result == 0)) ≡ layout_of mapped }
{
    if mapped { 1 } else { 0 }
}

/// An index of a table, as far as there is room. Tables and arrays that are longer than any image's
/// have none.
#[tactic(auto, using(crate::proofs::ViewsMade::no_index))]
fn index_in<'a>(tables: &Tables<'_, '_>, shift: u32, first: &'a mut [u32]) -> &'a [u32]
    requires { shift < 32 }
    ensures { IsIndexOf tables.now.ranges shift result.now }
{
    if tables.len() > 0xFFFF_FFFF || first.len() as u64 > 0xFFFF_FFFF {
        return &[];
    }
    fill(tables, shift, first);
    first
}

/// The view of an image that was opened.
#[tactic(auto, using(crate::proofs::ViewsMade::view_made))]
fn view_of<'a>(
    image: &ImageView<'_>,
    mapped: bool,
    bytes: &'a [u8],
    base: u64,
    first: &'a mut [u32],
) -> Result<SehView<'a>, Refusal>
    requires { spec.opened (layout_of mapped) bytes.now ≡ Ok image.now }
    ensures view { IfOk result (λ v. views.IsOpened mapped bytes.now base v) }
    ensures refusal { IfErr result (λ e. Err e ≡ spec.table_of image.now) }
{
    let tables = match table_of(image) {
        Ok(tables) => tables,
        Err(e) => return Err(e),
    };
    let shift = shift_for(image.size(), first.len());
    let index = index_in(&tables, shift, first);
    Ok(SehView {
        bytes,
        index,
        base,
        preferred_base: image.base(),
        size: image.size(),
        entry_point: image.entry(),
        functions: tables.len(),
        shift,
        mapped: form_of(mapped),
        options: 0,
    })
}

/// Opens an image that lies at `base`, and fills an index of its function table.
#[tactic(auto, using(crate::proofs::Opened::gives_then, crate::proofs::Opened::gives_after))]
pub fn open_view<'a>(
    alloc: Global,
    mapped: bool,
    bytes: &'a [u8],
    base: u64,
    first: &'a mut [u32],
) -> Result<SehView<'a>, Refusal>
    ensures view { IfOk result (λ v. views.IsOpened mapped bytes.now base v) }
    ensures refusal { IfErr result (λ e.
        spec.Gives {A = Tables} (Err e) (spec.table_in (layout_of mapped) bytes.now)) }
{
    match open(alloc, layout_of(mapped), bytes) {
        Ok(image) => match view_of(&image, mapped, bytes, base, first) {
            Ok(view) => Ok(view),
            Err(e) => Err(e),
        },
        Err(e) => Err(e),
    }
}
