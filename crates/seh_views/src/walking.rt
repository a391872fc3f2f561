//! A walk through the frames whose code lies in one image.

ghost use Rattle.std.specs.Prelude.{◌≡◌};
ghost use Rattle.eh_index.specs.Ordered.{IsOrdered};
ghost use Rattle.seh_views.specs.Ranges.{AreInOrder};
ghost use Rattle.seh_views.specs.Shapes.{is_own, layout};
ghost use Rattle.seh_views.specs.Views as views;
ghost use Rattle.seh_views.specs.Walks as spec;

use crate::c_types::{
    SehContext, SehFrame, SehRange, SehStatus, SehView, c_frame, index_of, is_own, layout_of_view,
};
use crate::opening::{open, unchecked_table_of};
use crate::ranges::check_ranges;
use crate::refusal::{MORE, OK, Refusal, status_of};
use crate::snapshot::Snapshot;
use crate::unwinding::rising_step;
use eh_index::Index;
use eh_tables::Tables;
use pe_image::ImageView;
use std::alloc::Global;
use x64_memory::space::ReadSpace;

/// How many frames were written, and why no more.
#[derive(Clone, Copy, Debug, PartialEq, Eq)]
pub struct Walk {
    pub count: u64,
    pub status: SehStatus,
}

fn is_inside(base: u64, size: u64, context: &SehContext) -> bool
    ensures { result ≡ spec.is_inside base size context.now }
{
    context.rip.wrapping_sub(base) < size
}

fn end(is_more: bool) -> SehStatus
    ensures { result ≡ spec.end is_more }
{
    if is_more { MORE } else { OK }
}

/// Writes the frames from a context on, as far as RIP lies in the image and there is room.
fn walk_frames<S: ReadSpace>(
    own: bool,
    tables: &Tables<'_, '_>,
    index: &Index<'_>,
    base: u64,
    size: u64,
    space: &S,
    context: &SehContext,
    frames: &mut [SehFrame],
) -> Walk
    ensures { IsOrdered tables.now.ranges index.now → spec.walked_of frames.new result
        ≡ spec.walk own tables.now base (S.memory space.now) size context.now frames.old }
{
    let slots = frames.len();
    let mut here = *context;
    for k in 0..slots {
        if !is_inside(base, size, &here) {
            return Walk {
                count: k as u64,
                status: OK,
            };
        }
        match rising_step(own, tables, index, base, space, &here) {
            Ok(found) => {
                frames[k] = c_frame(0, &found);
                here = found.caller;
            }
            Err(e) => {
                return Walk {
                    count: k as u64,
                    status: status_of(e),
                };
            }
        }
    }
    Walk {
        count: slots as u64,
        status: end(is_inside(base, size, &here)),
    }
}

fn walk_within(
    image: &ImageView<'_>,
    view: &SehView<'_>,
    ranges: &[SehRange<'_>],
    context: &SehContext,
    frames: &mut [SehFrame],
) -> Result<Walk, Refusal>
    requires { AreInOrder ranges.now }
    ensures { views.IsKnown view.now image.now → spec.GivesWalk frames.old frames.new result
        (spec.walk_within (is_own view.now) image.now view.now.base ranges.now context.now
        frames.old) }
{
    let tables = match unchecked_table_of(image) {
        Ok(tables) => tables,
        Err(e) => return Err(e),
    };
    let space = Snapshot::new(image, view.base, ranges);
    let index = index_of(view);
    Ok(walk_frames(
        is_own(view),
        &tables,
        &index,
        view.base,
        image.size(),
        &space,
        context,
        frames,
    ))
}

/// A walk.
#[tactic(auto, using(crate::proofs::Opened::gives_no_walk, crate::proofs::Known::view_known))]
pub fn walk_image(
    alloc: Global,
    view: &SehView<'_>,
    ranges: &[SehRange<'_>],
    context: &SehContext,
    frames: &mut [SehFrame],
) -> Result<Walk, Refusal>
    ensures { views.IsViewOf view.now → spec.GivesWalk frames.old frames.new result
        (spec.walked_in (is_own view.now) (layout view.now) view.now.bytes.now view.now.base
        ranges.now context.now frames.old) }
{
    if let Err(e) = check_ranges(ranges) {
        return Err(e);
    }
    match open(alloc, layout_of_view(view), view.bytes) {
        Ok(image) => walk_within(&image, view, ranges, context, frames),
        Err(e) => Err(e),
    }
}
