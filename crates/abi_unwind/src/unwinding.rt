//! The caller of a frame.

ghost use Rattle.std.specs.Prelude.{◌≡◌, Some, option_map};
ghost use Rattle.seh_num.specs.Answers as answers;
ghost use Rattle.eh_tables.specs.Found.{function_entry};
ghost use Rattle.eh_tables.specs.Tables.{TablesAreWhole, entries_of, holding};
ghost use Rattle.virtual_unwind.specs.CallerOf.{functions_of};
ghost use Rattle.abi_unwind.specs.Caller as spec;
ghost use Rattle.abi_unwind.specs.Tail as tail;
ghost use Rattle.abi_unwind.specs.Undone as undone;
ghost use Rattle.abi_unwind.specs.Views.{undo_of, handler_of, shown};

use crate::context::AbiContext;
use crate::frame::{AbiCaller, Handler};
use crate::function::{Function, Primary, covers, function_of, leaves_inside, leaves_to, root_of};
use crate::tail::{End, trailing};
use crate::undo::{AbiUndo, chain_undone};
use eh_tables::{Entry, FunctionEntry, Info, Tables};
use virtual_unwind::UnwindErr;
use virtual_unwind::kept::rsp;
use virtual_unwind::undo::{Undo, below_frame, sets_frame_by};
use virtual_unwind::word::pop;
use x64_machine::context::Context;
use x64_memory::space::ReadSpace;

fn is_framed(info: &Info, distance: u64) -> bool
    ensures { result ≡ spec.is_framed info.now distance }
{
    info.frame_register() != 0
        && (info.prologue_size() as u64 <= distance
            || info.parent().is_some()
            || sets_frame_by(distance, info.codes()))
}

/// The establisher frame.
pub fn establisher(info: &Info, context: &Context, distance: u64) -> u64
    ensures { result ≡ spec.establisher info.now context.now distance }
{
    if is_framed(info, distance) {
        below_frame(info, context)
    } else {
        rsp(context)
    }
}

fn handler_at(rva: u64, root: &Primary) -> Option<Handler>
    ensures { result ≡ handler_of (spec.asked_at rva root.now) }
{
    let distance = rva.wrapping_sub(root.range.begin as u64);
    if distance < root.info.prologue_size() as u64 {
        return None;
    }
    match root.info.handler() {
        None => None,
        Some(rva) => Some(Handler {
            flags: root.info.flags(),
            rva,
        }),
    }
}

/// Whether a jump to an address leaves a function.
fn leaves(tables: &Tables, base: u64, function: &Function, target: u64) -> bool
    requires { TablesAreWhole tables.now }
    ensures { result ≡ spec.leaves (record (functions_of tables.now) { base = base })
        function.now target }
{
    let rva = target.wrapping_sub(base);
    if covers(function, rva) {
        return leaves_inside(function, rva);
    }
    let entry = tables.lookup(rva);
    leaves_to(function, rva, entry.as_ref())
}

fn is_end(tables: &Tables, base: u64, function: &Function, end: End) -> bool
    requires { TablesAreWhole tables.now }
    ensures { result ≡ tail.is_end (spec.leaves (record (functions_of tables.now) { base = base })
        function.now) end }
{
    match end {
        End::Certain => true,
        End::JumpsTo(target) => leaves(tables, base, function, target),
    }
}

/// The return address popped, where what is left of an epilogue has been run.
fn popped<S: ReadSpace>(
    space: &S,
    context: &AbiContext,
    general: &Context,
) -> Result<AbiContext, UnwindErr>
    ensures { result ≡ undone.popped_abi (S.memory space.now)
        (record context.now { general = general.now }) }
{
    let mut after = *context;
    after.general = pop(space, general)?;
    Ok(after)
}

/// The frame of an epilogue whose parts have been run.
pub fn in_epilogue<S: ReadSpace>(
    space: &S,
    frame: u64,
    context: &AbiContext,
    answer: Result<Context, UnwindErr>,
) -> Result<AbiCaller, UnwindErr>
    ensures { result ≡ shown (spec.found frame None (answers.◌>>=◌ answer
        (λ g. undone.popped_abi (S.memory space.now) (record context.now { general = g })))) }
{
    let general = answer?;
    match popped(space, context, &general) {
        Ok(context) => Ok(AbiCaller {
            frame,
            context,
            handler: None,
        }),
        Err(e) => Err(e),
    }
}

fn returned<S: ReadSpace>(space: &S, undo: &AbiUndo) -> Result<AbiContext, UnwindErr>
    ensures { result ≡ undone.returned_abi (S.memory space.now) (undo_of undo.now) }
{
    let general = if undo.general.is_returned {
        undo.general.context
    } else {
        pop(space, &undo.general.context)?
    };
    Ok(AbiContext {
        general,
        vectors: undo.vectors,
    })
}

fn unwound<S: ReadSpace>(
    space: &S,
    base: u64,
    rva: u64,
    function: &Function,
    context: &AbiContext,
) -> Result<AbiContext, UnwindErr>
    ensures { result ≡ spec.unwound (S.memory space.now) base rva function.now context.now }
{
    let mut undo = AbiUndo {
        general: Undo {
            context: context.general,
            is_returned: false,
        },
        vectors: context.vectors,
    };
    chain_undone(
        space,
        base,
        rva,
        function.range,
        function.info,
        function.parents,
        &mut undo,
    )?;
    returned(space, &undo)
}

/// The frame elsewhere: codes undone along the chain.
pub fn by_codes<S: ReadSpace>(
    space: &S,
    frame: u64,
    rva: u64,
    function: &Function,
    context: &AbiContext,
) -> Result<AbiCaller, UnwindErr>
    ensures { result ≡ shown (spec.found frame (spec.asked_at rva (spec.root_of function.now))
        (spec.unwound (S.memory space.now) frame rva function.now context.now)) }
{
    let context = unwound(space, frame, rva, function, context)?;
    Ok(AbiCaller {
        frame,
        context,
        handler: handler_at(rva, &root_of(function)),
    })
}

/// The caller at an address in a function's range.
#[tactic(auto, using(crate::proofs::Ends::ends))]
fn in_function<S: ReadSpace>(
    tables: &Tables,
    base: u64,
    space: &S,
    function: &Function,
    context: &AbiContext,
) -> Result<AbiCaller, UnwindErr>
    requires { TablesAreWhole tables.now }
    ensures { result ≡ shown (spec.of_entry (record (functions_of tables.now) { base = base })
        (S.memory space.now) context.now (Some function.now)) }
{
    let rva = context.general.rip.wrapping_sub(base);
    let distance = rva.wrapping_sub(function.range.begin as u64);
    let frame = establisher(function.info, &context.general, distance);
    let register = function.info.frame_register();
    match trailing(space, register, context.general.rip, &context.general) {
        None => by_codes(space, frame, rva, function, context),
        Some((answer, end)) => {
            if is_end(tables, base, function, end) {
                in_epilogue(space, frame, context, answer)
            } else {
                by_codes(space, frame, rva, function, context)
            }
        }
    }
}

/// The frame of a function that has no entry.
pub fn leaf<S: ReadSpace>(space: &S, context: &AbiContext) -> Result<AbiCaller, UnwindErr>
    ensures { result ≡ shown (spec.leaf (S.memory space.now) context.now) }
{
    let after = popped(space, context, &context.general)?;
    Ok(AbiCaller {
        frame: rsp(&context.general),
        context: after,
        handler: None,
    })
}

fn in_entry<S: ReadSpace>(
    tables: &Tables,
    base: u64,
    space: &S,
    entry: Option<&Entry>,
    context: &AbiContext,
) -> Result<AbiCaller, UnwindErr>
    requires { TablesAreWhole tables.now }
    ensures { result ≡ shown (spec.of_entry (record (functions_of tables.now) { base = base })
        (S.memory space.now) context.now (option_map (λ e. e.now) entry.entry)) }
{
    match entry {
        None => leaf(space, context),
        Some(entry) => {
            let function = function_of(entry);
            in_function(tables, base, space, &function, context)
        }
    }
}

/// The same of an entry that a look-up has found. Its parents are read where it is chained.
#[tactic(auto, using(crate::proofs::FoundEntries::finding))]
fn of_found<S: ReadSpace>(
    tables: &Tables,
    base: u64,
    space: &S,
    found: Option<&FunctionEntry>,
    context: &AbiContext,
) -> Result<AbiCaller, UnwindErr>
    requires whole { TablesAreWhole tables.now }
    requires found { option_map (λ f. f.now) found ≡ option_map function_entry
        (spec.entry_at_rip (record (functions_of tables.now) { base = base }) context.now) }
    ensures { result ≡ shown (spec.of_entry (record (functions_of tables.now) { base = base })
        (S.memory space.now) context.now
        (spec.entry_at_rip (record (functions_of tables.now) { base = base }) context.now)) }
{
    let Some(found) = found else {
        return leaf(space, context);
    };
    match found.info.parent() {
        Some(_) => {
            let entry = tables.lookup(context.general.rip.wrapping_sub(base));
            in_entry(tables, base, space, entry.as_ref(), context)
        }
        None => {
            let function = Function {
                range: found.range,
                info: &found.info,
                parents: &[],
            };
            in_function(tables, base, space, &function, context)
        }
    }
}

/// The caller of the frame of a context, as Windows finds it, in an image that lies at `base`.
/// `Unreadable` is answered exactly where a word of the stack that is needed may not be read, with
/// the first one's address; no other refusal is.
#[tactic(auto, unfolding(crate::specs::Caller::abi_caller))]
pub fn abi_caller_at<S: ReadSpace>(
    tables: &Tables,
    base: u64,
    space: &S,
    context: &AbiContext,
) -> Result<AbiCaller, UnwindErr>
    requires { TablesAreWhole tables.now }
    ensures { result ≡ shown (spec.abi_caller (record (functions_of tables.now) { base = base })
        (S.memory space.now) context.now) }
{
    let found = tables.find(context.general.rip.wrapping_sub(base));
    of_found(tables, base, space, found.as_ref(), context)
}

/// The same, in an image that lies at its own base.
pub fn abi_caller<S: ReadSpace>(
    tables: &Tables,
    space: &S,
    context: &AbiContext,
) -> Result<AbiCaller, UnwindErr>
    requires { TablesAreWhole tables.now }
    ensures { result ≡ shown (spec.abi_caller (functions_of tables.now)
        (S.memory space.now) context.now) }
{
    abi_caller_at(tables, tables.base(), space, context)
}
