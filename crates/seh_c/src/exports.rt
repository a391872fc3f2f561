//! What C calls. `include/seh.h` says what a caller owes to each call.

ghost use Rattle.std.specs.Prelude.{◌≡◌};
ghost use Rattle.seh_c.specs.Answers.{Answers, WalkAnswers, FunctionAnswers, ScopeAnswers};
ghost use Rattle.seh_views.specs.Callers.{unwound, found_in};
ghost use Rattle.seh_views.specs.Modules.{AreViews, StackWalked};
ghost use Rattle.seh_views.specs.NamedScopes.{named_in};
ghost use Rattle.seh_views.specs.Scopes.{scopes_in};
ghost use Rattle.seh_views.specs.Shapes as spec;
ghost use Rattle.seh_views.specs.Statuses.{ok};
ghost use Rattle.seh_c.specs.Validations.{VerdictAnswers};
ghost use Rattle.seh_views.specs.Views as views;
ghost use Rattle.seh_views.specs.Walks.{walked_in};

use crate::validating::{c_verdict, validate};
use seh_views::c_types::{
    SehContext, SehFrame, SehFunction, SehRange, SehScope, SehStatus, SehVerdict, SehView, c_frame,
    layout_of_view,
};
use seh_views::finding::find;
use seh_views::modules::walk_stack;
use seh_views::named_scopes::find_named_scopes;
use seh_views::opening::open_view;
use seh_views::refusal::{NO_FUNCTION, OK, status_of};
use seh_views::scopes::find_scopes;
use seh_views::unwinding::unwind;
use seh_views::walking::walk_image;
use std::alloc::Global;

/// Opens an image that lies at `base`: its headers, its sections, and the order of its function
/// table, of which it fills an index. The bytes are those of its file, or where `mapped` those of
/// the memory into which a loader mapped it.
#[unsafe(no_mangle)]
pub extern "C" fn seh_open<'a>(
    alloc: Global,
    bytes: &'a [u8],
    mapped: bool,
    base: u64,
    view: &mut SehView<'a>,
    index: &'a mut [u32],
) -> SehStatus
    ensures { views.OpenAnswers mapped bytes.now base view.old view.new result }
{
    match open_view(alloc, mapped, bytes, base, index) {
        Ok(found) => {
            *view = found;
            OK
        }
        Err(refusal) => status_of(refusal),
    }
}

/// The caller of a frame, by the function table of an image.
#[unsafe(no_mangle)]
pub extern "C" fn seh_unwind(
    alloc: Global,
    view: &SehView<'_>,
    ranges: &[SehRange<'_>],
    context: &SehContext,
    frame: &mut SehFrame,
) -> SehStatus
    ensures { views.IsViewOf view.now → Answers
        (unwound (spec.is_own view.now) (spec.layout view.now) view.now.bytes.now view.now.base
        ranges.now context.now)
        frame.old frame.new result }
{
    match unwind(alloc, view, ranges, context) {
        Ok(step) => {
            *frame = c_frame(0, &step);
            OK
        }
        Err(refusal) => status_of(refusal),
    }
}

/// The frames from a context on, as far as RIP lies in the image and `frames` has room.
#[unsafe(no_mangle)]
pub extern "C" fn seh_walk(
    alloc: Global,
    view: &SehView<'_>,
    ranges: &[SehRange<'_>],
    context: &SehContext,
    frames: &mut [SehFrame],
    count: &mut u64,
) -> SehStatus
    ensures { views.IsViewOf view.now → WalkAnswers
        (walked_in (spec.is_own view.now) (spec.layout view.now) view.now.bytes.now view.now.base
        ranges.now context.now frames.old)
        frames.old frames.new count.new result }
{
    match walk_image(alloc, view, ranges, context, frames) {
        Ok(walk) => {
            *count = walk.count;
            walk.status
        }
        Err(refusal) => {
            *count = 0;
            status_of(refusal)
        }
    }
}

/// The frames from a context on, as far as RIP lies in one of the images and `frames` has room.
#[unsafe(no_mangle)]
pub extern "C" fn seh_walk_modules(
    alloc: Global,
    views: &[SehView<'_>],
    ranges: &[SehRange<'_>],
    context: &SehContext,
    frames: &mut [SehFrame],
    count: &mut u64,
) -> SehStatus
    ensures { AreViews views.now → StackWalked views.now ranges.now
        context.now frames.old frames.new
        (record { count = count.new; status = result }) }
{
    let walk = walk_stack(alloc, views, ranges, context, frames);
    *count = walk.count;
    walk.status
}

/// The entry of the function table whose range covers an address, relative to the image base.
#[tactic(auto, using(crate::proofs::Coded::refusal_is_not_ok))]
#[unsafe(no_mangle)]
pub extern "C" fn seh_find_function(
    alloc: Global,
    view: &SehView<'_>,
    rva: u32,
    function: &mut SehFunction,
) -> SehStatus
    ensures row { result ≡ ok → views.IsFunctionOf view.now rva function.new }
    ensures exact { views.IsViewOf view.now → FunctionAnswers
        (found_in (spec.layout view.now) view.now.bytes.now rva) function.old function.new result }
{
    match find(alloc, view, rva) {
        Ok(Some(found)) => {
            *function = found;
            OK
        }
        Ok(None) => NO_FUNCTION,
        Err(refusal) => status_of(refusal),
    }
}

/// The scope records that hold an address, innermost first, as far as `scopes` has room.
#[unsafe(no_mangle)]
pub extern "C" fn seh_scopes(
    alloc: Global,
    view: &SehView<'_>,
    rva: u32,
    scopes: &mut [SehScope],
    count: &mut u64,
) -> SehStatus
    ensures { ScopeAnswers (scopes_in (spec.layout view.now) view.now.bytes.now rva scopes.old)
        scopes.old scopes.new count.new result }
{
    match find_scopes(alloc, view, rva, scopes) {
        Ok(filled) => {
            *count = filled.count;
            filled.status
        }
        Err(refusal) => {
            *count = 0;
            status_of(refusal)
        }
    }
}

/// The same of an entry whose handler is the one at an address that the caller names. No import is
/// read.
#[unsafe(no_mangle)]
pub extern "C" fn seh_scopes_of(
    alloc: Global,
    view: &SehView<'_>,
    rva: u32,
    handler: u32,
    scopes: &mut [SehScope],
    count: &mut u64,
) -> SehStatus
    ensures { views.IsViewOf view.now → ScopeAnswers
        (named_in (spec.layout view.now) view.now.bytes.now rva handler scopes.old)
        scopes.old scopes.new count.new result }
{
    match find_named_scopes(alloc, view, rva, handler, scopes) {
        Ok(filled) => {
            *count = filled.count;
            filled.status
        }
        Err(refusal) => {
            *count = 0;
            status_of(refusal)
        }
    }
}

/// Whether the code of an image keeps its unwind information. `probe` has the bytes of the stack
/// probe, `__chkstk`.
#[tactic(auto, using(crate::proofs::Validated::gives_verdict, crate::proofs::Validated::gives_none))]
#[unsafe(no_mangle)]
pub extern "C" fn seh_check(
    alloc: Global,
    view: &SehView<'_>,
    probe: &[u8],
    verdict: &mut SehVerdict,
) -> SehStatus
    ensures { VerdictAnswers (spec.layout view.now) view.now.bytes.now probe.now verdict.old
        verdict.new result }
{
    match validate(alloc, layout_of_view(view), view.bytes, probe) {
        Ok(found) => {
            *verdict = c_verdict(found);
            OK
        }
        Err(refusal) => status_of(refusal),
    }
}
