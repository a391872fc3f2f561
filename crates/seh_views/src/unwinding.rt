//! One virtual unwind.

ghost use Rattle.std.specs.Prelude.{◌≡◌};
ghost use Rattle.eh_index.specs.Ordered.{IsOrdered};
ghost use Rattle.seh_num.specs.Answers as answers;
ghost use Rattle.seh_views.specs.Callers as spec;
ghost use Rattle.seh_views.specs.Openings.{Gives};
ghost use Rattle.seh_views.specs.Ranges.{AreInOrder};
ghost use Rattle.seh_views.specs.Shapes.{is_own, layout};
ghost use Rattle.seh_views.specs.Views as views;

use crate::c_types::{
    SehContext, SehRange, SehView, abi_context, index_of, is_own, layout_of_view,
};
use crate::opening::{open, unchecked_table_of};
use crate::own_profile::own_next;
use crate::ranges::check_ranges;
use crate::refusal::Refusal;
use crate::snapshot::Snapshot;
use crate::step::{Step, abi_answer, leaf_answer};
use abi_unwind::each::abi_caller_numbered;
use abi_unwind::unwinding::leaf;
use eh_index::Index;
use eh_tables::Tables;
use pe_image::ImageView;
use std::alloc::Global;
use virtual_unwind::UnwindErr;
use x64_memory::space::ReadSpace;

/// A frame of an image that lies at `base`, as Windows finds it.
#[tactic(auto, using(crate::proofs::Asked::abi_none, crate::proofs::Asked::abi_some))]
fn abi_next<S: ReadSpace>(
    tables: &Tables<'_, '_>,
    index: &Index<'_>,
    base: u64,
    space: &S,
    context: &SehContext,
) -> Result<Step, Refusal>
    ensures { IsOrdered tables.now.ranges index.now
        → result ≡ spec.abi_in tables.now base (S.memory space.now) context.now }
{
    let registers = abi_context(context);
    match index.covering(tables, context.rip.wrapping_sub(base)) {
        None => leaf_answer(context, leaf(space, &registers)),
        Some(number) => abi_answer(
            tables.range(number),
            context,
            abi_caller_numbered(tables, index, base, space, number, &registers),
        ),
    }
}

/// A frame of an image that lies at `base`, by one of the two unwinders.
pub fn next_step<S: ReadSpace>(
    own: bool,
    tables: &Tables<'_, '_>,
    index: &Index<'_>,
    base: u64,
    space: &S,
    context: &SehContext,
) -> Result<Step, Refusal>
    ensures { IsOrdered tables.now.ranges index.now
        → result ≡ spec.step_in own tables.now base (S.memory space.now) context.now }
{
    if own {
        own_next(tables, index, base, space, context)
    } else {
        abi_next(tables, index, base, space, context)
    }
}

/// A frame in a walk, which goes up the stack.
fn rising(context: &SehContext, step: Step) -> Result<Step, Refusal>
    ensures { result ≡ spec.risen context.now step }
{
    if context.rsp < step.caller.rsp {
        Ok(step)
    } else {
        Err(Refusal::Unwinding(UnwindErr::Backward { rsp: context.rsp }))
    }
}

/// A frame in a walk.
pub fn rising_step<S: ReadSpace>(
    own: bool,
    tables: &Tables<'_, '_>,
    index: &Index<'_>,
    base: u64,
    space: &S,
    context: &SehContext,
) -> Result<Step, Refusal>
    ensures { IsOrdered tables.now.ranges index.now → result ≡ (answers.◌>>=◌
        (spec.step_in own tables.now base (S.memory space.now) context.now)
        (spec.risen context.now)) }
{
    match next_step(own, tables, index, base, space, context) {
        Ok(step) => rising(context, step),
        Err(e) => Err(e),
    }
}

fn unwind_within(
    image: &ImageView<'_>,
    view: &SehView<'_>,
    ranges: &[SehRange<'_>],
    context: &SehContext,
) -> Result<Step, Refusal>
    requires { AreInOrder ranges.now }
    ensures { views.IsKnown view.now image.now → result
        ≡ spec.step_within (is_own view.now) image.now view.now.base ranges.now context.now }
{
    match unchecked_table_of(image) {
        Ok(tables) => next_step(
            is_own(view),
            &tables,
            &index_of(view),
            view.base,
            &Snapshot::new(image, view.base, ranges),
            context,
        ),
        Err(e) => Err(e),
    }
}

/// A frame of the image of a view.
#[tactic(auto, using(crate::proofs::Opened::gives_then, crate::proofs::Opened::gives_is, crate::proofs::Known::view_known))]
fn step_from(
    alloc: Global,
    view: &SehView<'_>,
    ranges: &[SehRange<'_>],
    context: &SehContext,
) -> Result<Step, Refusal>
    requires { AreInOrder ranges.now }
    ensures { views.IsViewOf view.now → Gives result (spec.step_from (is_own view.now)
        (layout view.now) view.now.bytes.now view.now.base ranges.now context.now) }
{
    match open(alloc, layout_of_view(view), view.bytes) {
        Ok(image) => unwind_within(&image, view, ranges, context),
        Err(e) => Err(e),
    }
}

/// The same in a walk.
#[tactic(auto, using(crate::proofs::Opened::gives_then, crate::proofs::Opened::gives_after))]
pub fn rising_from(
    alloc: Global,
    view: &SehView<'_>,
    ranges: &[SehRange<'_>],
    context: &SehContext,
) -> Result<Step, Refusal>
    requires { AreInOrder ranges.now }
    ensures { views.IsViewOf view.now → Gives result (answers.◌>>=◌ (spec.step_from
        (is_own view.now) (layout view.now) view.now.bytes.now view.now.base ranges.now context.now)
        (spec.risen context.now)) }
{
    match step_from(alloc, view, ranges, context) {
        Ok(step) => rising(context, step),
        Err(e) => Err(e),
    }
}

/// One virtual unwind.
#[tactic(auto, using(crate::proofs::Opened::gives_then, crate::proofs::Opened::gives_passed))]
pub fn unwind(
    alloc: Global,
    view: &SehView<'_>,
    ranges: &[SehRange<'_>],
    context: &SehContext,
) -> Result<Step, Refusal>
    ensures { views.IsViewOf view.now → Gives result (spec.unwound (is_own view.now)
        (layout view.now) view.now.bytes.now view.now.base ranges.now context.now) }
{
    match check_ranges(ranges) {
        Ok(()) => step_from(alloc, view, ranges, context),
        Err(e) => Err(e),
    }
}
