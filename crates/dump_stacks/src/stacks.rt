//! A walk from the registers of a dump's thread.

ghost use Rattle.minidump.specs.Contexts.{context};
ghost use Rattle.seh_views.specs.Modules.{AreViews};
ghost use Rattle.minidump.specs.Memory.{IsInFile};
ghost use Rattle.dump_stacks.specs.Ranges.{IsRangeOf};
ghost use Rattle.dump_stacks.specs.Stacks.{ThreadAnswers};

use crate::registers::registers_of;
use minidump::{DumpErr, Location, MemoryRange, Minidump};
use seh_views::c_types::{SehFrame, SehRange, SehView};
use seh_views::modules::walk_stack;
use seh_views::walking::Walk;
use std::alloc::Global;

/// A range of a dump with its bytes, as a walk takes it.
pub fn range_of<'a>(file: &Minidump<'a>, range: MemoryRange) -> SehRange<'a>
    requires { IsInFile file.now range }
    ensures { IsRangeOf file.now range result }
{
    SehRange {
        at: range.start,
        bytes: file.range_bytes(range),
    }
}

/// Writes the frames of a thread, from the context at a location on ([`crate::location_of`]). The
/// views are those of the images that the caller opened, and the ranges have the dump's memory. A
/// context that can't be read is refused, and then nothing is written.
pub fn walk_thread(
    alloc: Global,
    file: &Minidump<'_>,
    location: Location,
    views: &[SehView<'_>],
    ranges: &[SehRange<'_>],
    frames: &mut [SehFrame],
) -> Result<Walk, DumpErr>
    ensures { AreViews views.now → ThreadAnswers views.now ranges.now (context file.now location)
        frames.old frames.new result }
{
    match file.context(location) {
        Ok(found) => {
            let registers = registers_of(&found);
            Ok(walk_stack(alloc, views, ranges, &registers, frames))
        }
        Err(e) => Err(e),
    }
}
