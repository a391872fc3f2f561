//! A walk through the frames of a stack whose code lies in several images.

ghost use Rattle.std.specs.Prelude.{◌≡◌, ◌<◌, length, drop, IfSome};
ghost use Rattle.seh_views.specs.Modules as spec;
ghost use Rattle.seh_views.specs.Openings.{Gives};
ghost use Rattle.seh_views.specs.Ranges.{AreInOrder};

use crate::c_types::{SehContext, SehFrame, SehRange, SehStatus, SehView, c_frame};
use crate::ranges::check_ranges;
use crate::refusal::{END_OF_STACK, MORE, Refusal, status_of, unknown_code};
use crate::step::Step;
use crate::unwinding::rising_from;
use crate::walking::Walk;
use std::alloc::Global;

fn has_code(rip: u64, view: &SehView<'_>) -> bool
    ensures { result ≡ spec.has_code rip view.now }
{
    rip.wrapping_sub(view.base) < view.size
}

/// The index of the first view that has an address.
fn first_module(views: &[SehView<'_>], rip: u64) -> Option<usize>
    ensures value { result ≡ spec.first_from 0 rip views.now }
    ensures within { IfSome result (λ k. k < length views.now) }
{
    for index in 0..views.len() {
        if has_code(rip, &views[index]) {
            return Some(index);
        }
    }
    None
}

/// The view that has an address: that of the frame before, if it does, else the first.
#[tactic(auto, using(crate::proofs::ModulesMore::last_has, crate::proofs::ModulesMore::last_has_not, crate::proofs::ModulesMore::no_last))]
fn module_of(views: &[SehView<'_>], last: usize, rip: u64) -> Option<usize>
    ensures value { result ≡ spec.module_of views.now last rip }
    ensures within { IfSome result (λ k. k < length views.now) }
{
    if views.len() <= last {
        return first_module(views, rip);
    }
    if has_code(rip, &views[last]) {
        return Some(last);
    }
    first_module(views, rip)
}

/// The status where RIP lies in no module.
fn outside(rip: u64) -> SehStatus
    ensures { result ≡ spec.outside rip }
{
    if rip == 0 {
        END_OF_STACK
    } else {
        unknown_code(rip)
    }
}

fn end_in(rip: u64, found: Option<usize>) -> SehStatus
    ensures { result ≡ spec.end_in rip found }
{
    match found {
        Some(_) => MORE,
        None => outside(rip),
    }
}

/// A frame whose code lies in the module of a number.
#[tactic(auto, using(crate::proofs::ModulesMore::step_gives))]
fn module_step(
    alloc: Global,
    views: &[SehView<'_>],
    number: usize,
    ranges: &[SehRange<'_>],
    context: &SehContext,
) -> Result<Step, Refusal>
    requires order { AreInOrder ranges.now }
    requires within { number < length views.now }
    ensures { spec.AreViews views.now → Gives result
        (spec.first_step ranges.now context.now (drop number views.now)) }
{
    rising_from(alloc, &views[number], ranges, context)
}

/// Writes the frames from a context on, as far as RIP lies in a module and there is room.
fn walk_modules(
    alloc: Global,
    views: &[SehView<'_>],
    ranges: &[SehRange<'_>],
    context: &SehContext,
    frames: &mut [SehFrame],
) -> Walk
    requires { AreInOrder ranges.now }
    ensures { spec.AreViews views.now → spec.ModulesWalked views.now ranges.now context.now
        frames.old frames.new result }
{
    let slots = frames.len();
    let mut here = *context;
    let mut last = 0;
    for k in 0..slots {
        let Some(number) = module_of(views, last, here.rip) else {
            return Walk {
                count: k as u64,
                status: outside(here.rip),
            };
        };
        match module_step(alloc, views, number, ranges, &here) {
            Ok(found) => {
                frames[k] = c_frame(number as u64, &found);
                here = found.caller;
                last = number;
            }
            Err(e) => {
                return Walk {
                    count: k as u64,
                    status: status_of(e),
                };
            }
        }
    }
    Walk {
        count: slots as u64,
        status: end_in(here.rip, module_of(views, last, here.rip)),
    }
}

/// The same, over ranges whose order is checked first.
pub fn walk_stack(
    alloc: Global,
    views: &[SehView<'_>],
    ranges: &[SehRange<'_>],
    context: &SehContext,
    frames: &mut [SehFrame],
) -> Walk
    ensures { spec.AreViews views.now → spec.StackWalked views.now ranges.now context.now
        frames.old frames.new result }
{
    match check_ranges(ranges) {
        Ok(()) => walk_modules(alloc, views, ranges, context, frames),
        Err(e) => Walk {
            count: 0,
            status: status_of(e),
        },
    }
}
