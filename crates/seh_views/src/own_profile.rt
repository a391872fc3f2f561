//! One virtual unwind by the project's own profile of the unwind procedure.

ghost use Rattle.std.specs.Prelude.{◌≡◌, ◌<◌, length, Some, None, option_map};
ghost use Rattle.eh_index.specs.Ordered.{IsOrdered};
ghost use Rattle.seh_views.specs.Callers as spec;

use crate::c_types::{SehContext, machine_context};
use crate::refusal::Refusal;
use crate::step::{NO_RANGE, Step, own_step};
use eh_index::{Index, lone_function};
use eh_tables::{Entry, Tables};
use virtual_unwind::unwinding::{caller_by_entry, caller_by_function};
use x64_memory::space::ReadSpace;

fn leaf_step<S: ReadSpace>(space: &S, rva: u64, context: &SehContext) -> Result<Step, Refusal>
    ensures { result ≡ spec.own_by (S.memory space.now) context.now rva None }
{
    match caller_by_entry(space, None, rva, &machine_context(context)) {
        Ok(caller) => Ok(own_step(NO_RANGE, context, &caller)),
        Err(e) => Err(Refusal::Unwinding(e)),
    }
}

fn entry_step<S: ReadSpace>(
    space: &S,
    entry: &Entry,
    rva: u64,
    context: &SehContext,
) -> Result<Step, Refusal>
    ensures { result ≡ spec.own_by (S.memory space.now) context.now rva (Some entry.now) }
{
    match caller_by_entry(space, Some(entry), rva, &machine_context(context)) {
        Ok(caller) => Ok(own_step(entry.range(), context, &caller)),
        Err(e) => Err(Refusal::Unwinding(e)),
    }
}

/// The frame of an entry that is read whole.
fn whole_step<S: ReadSpace>(
    tables: &Tables<'_, '_>,
    space: &S,
    number: u64,
    rva: u64,
    context: &SehContext,
) -> Result<Step, Refusal>
    requires { number < length tables.now.ranges }
    ensures { result ≡ spec.own_numbered tables.now rva (S.memory space.now) context.now number }
{
    match tables.entry(number) {
        Ok(entry) => entry_step(space, &entry, rva, context),
        Err(e) => Err(Refusal::Table(e)),
    }
}

/// The frame of an entry. Where the entry is chained to none, its own info alone is read.
#[tactic(auto, using(crate::proofs::Asked::lone_step, crate::proofs::Asked::lone_refused))]
fn numbered_step<S: ReadSpace>(
    tables: &Tables<'_, '_>,
    space: &S,
    number: u64,
    rva: u64,
    context: &SehContext,
) -> Result<Step, Refusal>
    requires { number < length tables.now.ranges }
    ensures { result ≡ spec.own_numbered tables.now rva (S.memory space.now) context.now number }
{
    let function = match lone_function(tables, number) {
        Ok(Some(function)) => function,
        Ok(None) => return whole_step(tables, space, number, rva, context),
        Err(e) => return Err(Refusal::Table(e)),
    };
    match caller_by_function(space, &function, rva, &machine_context(context)) {
        Ok(caller) => Ok(own_step(function.range, context, &caller)),
        Err(e) => Err(Refusal::Unwinding(e)),
    }
}

/// A frame of an image that lies at `base`.
#[tactic(auto, using(crate::proofs::Asked::step_none, crate::proofs::Asked::step_some))]
pub fn own_next<S: ReadSpace>(
    tables: &Tables<'_, '_>,
    index: &Index<'_>,
    base: u64,
    space: &S,
    context: &SehContext,
) -> Result<Step, Refusal>
    ensures { IsOrdered tables.now.ranges index.now
        → result ≡ spec.own_in tables.now base (S.memory space.now) context.now }
{
    let rva = context.rip.wrapping_sub(base);
    match index.covering(tables, rva) {
        None => leaf_step(space, rva, context),
        Some(number) => numbered_step(tables, space, number, rva, context),
    }
}
