//! The caller of a frame in a table whose entries needn't all be read: each is read when it is
//! asked, and refused alone.

ghost use Rattle.std.specs.Prelude.{◌≡◌, ◌<◌, length, Some};
ghost use Rattle.eh_index.specs.Ordered.{IsOrdered};
ghost use Rattle.abi_unwind.specs.Each as spec;
ghost use Rattle.abi_unwind.specs.Each.{numbered};
ghost use Rattle.abi_unwind.specs.Ran.{ran_tail};
ghost use Rattle.abi_unwind.specs.Tail.{tail_at};
ghost use Rattle.abi_unwind.specs.Version2.{may_end};
ghost use Rattle.abi_unwind.specs.Views.{shown_each};

use crate::context::AbiContext;
use crate::epilogues::may_end;
use crate::frame::AbiCaller;
use crate::function::{Function, covers, function_of, leaves_inside, leaves_to};
use crate::tail::{End, trailing};
use crate::unwinding::{by_codes, establisher, in_epilogue, leaf};
use eh_index::{Index, lone_function};
use eh_tables::{Entry, TableErr, Tables};
use virtual_unwind::UnwindErr;
use x64_machine::context::Context;
use x64_memory::space::ReadSpace;

/// Why the caller of a frame isn't found in such a table.
#[derive(Clone, Copy, Debug, PartialEq, Eq)]
pub enum EntryErr {
    /// The entry that covers RIP isn't read, or the one that a jump at an epilogue's end leads to.
    Table(TableErr),
    /// A word of the stack isn't.
    Unwind(UnwindErr),
}

fn covering<'a>(
    tables: &Tables<'_, 'a>,
    index: &Index<'_>,
    rva: u64,
) -> Result<Option<Entry<'a>>, EntryErr>
    ensures { IsOrdered tables.now.ranges index.now → result ≡ spec.covering tables.now rva }
{
    match index.covering(tables, rva) {
        None => Ok(None),
        Some(number) => match tables.entry_of_either_version(number) {
            Ok(entry) => Ok(Some(entry)),
            Err(refusal) => Err(EntryErr::Table(refusal)),
        },
    }
}

/// Whether a jump to an address leaves a function.
fn leaves(
    tables: &Tables,
    index: &Index<'_>,
    base: u64,
    function: &Function,
    target: u64,
) -> Result<bool, EntryErr>
    ensures { IsOrdered tables.now.ranges index.now
        → result ≡ spec.leaves tables.now base function.now target }
{
    let rva = target.wrapping_sub(base);
    if covers(function, rva) {
        return Ok(leaves_inside(function, rva));
    }
    match covering(tables, index, rva) {
        Ok(entry) => Ok(leaves_to(function, rva, entry.as_ref())),
        Err(refusal) => Err(refusal),
    }
}

fn is_end(
    tables: &Tables,
    index: &Index<'_>,
    base: u64,
    function: &Function,
    end: End,
) -> Result<bool, EntryErr>
    ensures { IsOrdered tables.now.ranges index.now
        → result ≡ spec.is_end tables.now base function.now end }
{
    match end {
        End::Certain => Ok(true),
        End::JumpsTo(target) => leaves(tables, index, base, function, target),
    }
}

fn unwinding(answer: Result<AbiCaller, UnwindErr>) -> Result<AbiCaller, EntryErr>
    ensures { result ≡ spec.of_unwind answer }
{
    match answer {
        Ok(caller) => Ok(caller),
        Err(refusal) => Err(EntryErr::Unwind(refusal)),
    }
}

/// What is left of an epilogue, run, and its end, where one may stand at RIP.
#[tactic(auto, using(crate::proofs::EachEnds::tails))]
fn trailing_in<S: ReadSpace>(
    space: &S,
    rva: u64,
    function: &Function,
    context: &AbiContext,
) -> Option<(Result<Context, UnwindErr>, End)>
    ensures { result ≡ ran_tail (S.memory space.now) (Ok context.now.general)
        (spec.tail_if (tail_at function.now.info.frame_register (S.memory space.now)
        context.now.general.rip) (may_end function.now rva)) }
{
    if !may_end(function, rva) {
        return None;
    }
    let register = function.info.frame_register();
    trailing(space, register, context.general.rip, &context.general)
}

#[tactic(auto, using(crate::proofs::EachEnds::ends))]
fn in_function<S: ReadSpace>(
    tables: &Tables,
    index: &Index<'_>,
    base: u64,
    space: &S,
    function: &Function,
    context: &AbiContext,
) -> Result<AbiCaller, EntryErr>
    ensures { IsOrdered tables.now.ranges index.now → result
        ≡ shown_each (spec.of_entry tables.now base (S.memory space.now) context.now
        (Some function.now)) }
{
    let rva = context.general.rip.wrapping_sub(base);
    let distance = rva.wrapping_sub(function.range.begin as u64);
    let frame = establisher(function.info, &context.general, distance);
    match trailing_in(space, rva, function, context) {
        None => unwinding(by_codes(space, frame, rva, function, context)),
        Some((answer, end)) => match is_end(tables, index, base, function, end) {
            Ok(true) => unwinding(in_epilogue(space, frame, context, answer)),
            Ok(false) => unwinding(by_codes(space, frame, rva, function, context)),
            Err(refusal) => Err(refusal),
        },
    }
}

/// The caller in an entry that is read whole.
#[tactic(auto, using(crate::proofs::EachEntries::whole_is, crate::proofs::EachEntries::refused))]
fn in_entry<S: ReadSpace>(
    tables: &Tables,
    index: &Index<'_>,
    base: u64,
    space: &S,
    number: u64,
    context: &AbiContext,
) -> Result<AbiCaller, EntryErr>
    requires { number < length tables.now.ranges }
    ensures { IsOrdered tables.now.ranges index.now → result
        ≡ shown_each (numbered tables.now base (S.memory space.now) context.now number) }
{
    match tables.entry_of_either_version(number) {
        Ok(entry) => {
            let function = function_of(&entry);
            in_function(tables, index, base, space, &function, context)
        }
        Err(refusal) => Err(EntryErr::Table(refusal)),
    }
}

/// The same as [`abi_caller_each`] by the number of the entry that covers RIP. Where the entry is
/// chained to none and its info has version 1, that alone is read.
#[tactic(auto, using(crate::proofs::EachEntries::lone_is))]
pub fn abi_caller_numbered<S: ReadSpace>(
    tables: &Tables,
    index: &Index<'_>,
    base: u64,
    space: &S,
    number: u64,
    context: &AbiContext,
) -> Result<AbiCaller, EntryErr>
    requires { number < length tables.now.ranges }
    ensures { IsOrdered tables.now.ranges index.now → result
        ≡ shown_each (numbered tables.now base (S.memory space.now) context.now number) }
{
    match lone_function(tables, number) {
        Ok(Some(found)) => {
            let function = Function {
                range: found.range,
                info: &found.info,
                parents: &[],
            };
            in_function(tables, index, base, space, &function, context)
        }
        Ok(None) | Err(_) => in_entry(tables, index, base, space, number, context),
    }
}

/// The caller of the frame of a context, as Windows finds it, in an image that lies at `base`, of
/// whose function table the ranges alone have been checked, by an index of that table. `Table` is
/// answered exactly where the entry that covers RIP isn't read, or RIP is in a trailing part of an
/// epilogue that ends by a jump out of the entry's range into an entry that isn't read; else
/// `Unwind` exactly where a word of the stack that is needed may not be read. In a table whose
/// ranges don't ascend, or with an index that isn't of the table, entries may be missed.
#[tactic(auto, using(crate::proofs::EachEntries::none_covers, crate::proofs::EachEntries::one_covers, crate::proofs::EachEnds::shown_unwinding), unfolding(crate::specs::Each::abi_caller_each))]
pub fn abi_caller_each<S: ReadSpace>(
    tables: &Tables,
    index: &Index<'_>,
    base: u64,
    space: &S,
    context: &AbiContext,
) -> Result<AbiCaller, EntryErr>
    ensures { IsOrdered tables.now.ranges index.now → result ≡ shown_each
        (spec.abi_caller_each tables.now base (S.memory space.now) context.now) }
{
    match index.covering(tables, context.general.rip.wrapping_sub(base)) {
        None => unwinding(leaf(space, context)),
        Some(number) => abi_caller_numbered(tables, index, base, space, number, context),
    }
}
