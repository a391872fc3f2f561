//! The caller of a frame.

ghost use Rattle.std.specs.Prelude.{◌≡◌, Some, option_map};
ghost use Rattle.seh_num.specs.Answers as answers;
ghost use Rattle.eh_tables.specs.Covering.{unchained};
ghost use Rattle.eh_tables.specs.Found.{function_entry};
ghost use Rattle.eh_tables.specs.Tables.{TablesAreWhole, entries_of, holding};
ghost use Rattle.virtual_unwind.specs.CallerOf as spec;
ghost use Rattle.virtual_unwind.specs.Shown.{shown, raised_caller};
ghost use Rattle.virtual_unwind.specs.Undone as undone;
ghost use Rattle.virtual_unwind.specs.Views.{undo_of};

use crate::frame::Caller;
use crate::kept::rsp;
use crate::refusal::UnwindErr;
use crate::tail::epilogue;
use crate::undo::{Undo, all_undone, below_frame, sets_frame_by, undone, undone_by};
use crate::word::pop;
use eh_tables::{Entry, FunctionEntry, Info, Tables};
use x64_machine::context::Context;
use x64_memory::space::ReadSpace;

fn returned<S: ReadSpace>(space: &S, undo: Undo) -> Result<Context, UnwindErr>
    ensures { result ≡ undone.returned (S.memory space.now) (undo_of undo) }
{
    if undo.is_returned {
        Ok(undo.context)
    } else {
        pop(space, &undo.context)
    }
}

fn base_if(info: &Info, context: &Context, is_set: bool) -> u64
    ensures { result ≡ spec.base_if info.now context.now is_set }
{
    if is_set {
        below_frame(info, context)
    } else {
        rsp(context)
    }
}

fn unwound<S: ReadSpace>(
    space: &S,
    base: u64,
    info: &Info,
    parents: &[Info],
    context: &Context,
) -> Result<Context, UnwindErr>
    ensures { result ≡ spec.unwound (S.memory space.now) base info.now parents.now
        (undone.operations info.now.codes) context.now }
{
    let mut undo = Undo {
        context: *context,
        is_returned: false,
    };
    undone(space, base, info, info.codes(), &mut undo)?;
    all_undone(space, base, parents, &mut undo)?;
    returned(space, undo)
}

fn unwound_by<S: ReadSpace>(
    space: &S,
    base: u64,
    info: &Info,
    parents: &[Info],
    distance: u64,
    context: &Context,
) -> Result<Context, UnwindErr>
    ensures { result ≡ spec.unwound (S.memory space.now) base info.now parents.now
        (undone.operations (spec.run_by distance info.now.codes)) context.now }
{
    let mut undo = Undo {
        context: *context,
        is_returned: false,
    };
    undone_by(space, base, info, distance, info.codes(), &mut undo)?;
    all_undone(space, base, parents, &mut undo)?;
    returned(space, undo)
}

fn leaf<S: ReadSpace>(space: &S, context: &Context) -> Result<Caller, UnwindErr>
    ensures { result ≡ shown (spec.leaf (S.memory space.now) context.now) }
{
    match pop(space, context) {
        Ok(after) => Ok(Caller {
            frame: rsp(context),
            context: after,
            handler: None,
            in_body: false,
        }),
        Err(e) => Err(e),
    }
}

fn in_prologue<S: ReadSpace>(
    space: &S,
    info: &Info,
    parents: &[Info],
    distance: u64,
    context: &Context,
) -> Result<Caller, UnwindErr>
    ensures { result ≡ shown (spec.in_prologue (S.memory space.now) info.now parents.now
        (undone.operations (spec.run_by distance info.now.codes)) context.now) }
{
    let is_set = info.frame_register() != 0 && sets_frame_by(distance, info.codes());
    let base = base_if(info, context, is_set);
    match unwound_by(space, base, info, parents, distance, context) {
        Ok(after) => Ok(Caller {
            frame: base,
            context: after,
            handler: None,
            in_body: false,
        }),
        Err(e) => Err(e),
    }
}

fn in_body<S: ReadSpace>(
    space: &S,
    info: &Info,
    parents: &[Info],
    context: &Context,
) -> Result<Caller, UnwindErr>
    ensures { result ≡ shown (spec.in_body (S.memory space.now) info.now parents.now context.now) }
{
    let base = base_if(info, context, info.frame_register() != 0);
    match unwound(space, base, info, parents, context) {
        Ok(after) => Ok(Caller {
            frame: base,
            context: after,
            handler: info.handler(),
            in_body: true,
        }),
        Err(e) => Err(e),
    }
}

#[tactic(auto, using(crate::proofs::Past::in_tail, crate::proofs::Past::no_tail))]
fn past_prologue<S: ReadSpace>(
    space: &S,
    info: &Info,
    parents: &[Info],
    context: &Context,
) -> Result<Caller, UnwindErr>
    ensures { result ≡ shown (spec.past (S.memory space.now) info.now parents.now context.now) }
{
    match epilogue(space, info.frame_register(), context.rip, context) {
        Some(Ok(after)) => Ok(Caller {
            frame: rsp(context),
            context: after,
            handler: None,
            in_body: false,
        }),
        Some(Err(e)) => Err(e),
        None => in_body(space, info, parents, context),
    }
}

fn in_entry<S: ReadSpace>(
    space: &S,
    info: &Info,
    parents: &[Info],
    distance: u64,
    context: &Context,
) -> Result<Caller, UnwindErr>
    ensures { result
        ≡ shown (spec.in_entry (S.memory space.now) info.now parents.now context.now distance) }
{
    if distance < info.prologue_size() as u64 {
        in_prologue(space, info, parents, distance, context)
    } else {
        past_prologue(space, info, parents, context)
    }
}

fn of_entry<S: ReadSpace>(
    space: &S,
    entry: Option<&Entry>,
    rva: u64,
    context: &Context,
) -> Result<Caller, UnwindErr>
    ensures { result ≡ shown
        (spec.of_entry (S.memory space.now) context.now rva (option_map (λ e. e.now) entry.entry)) }
{
    match entry {
        None => leaf(space, context),
        Some(entry) => {
            let distance = rva.saturating_sub(entry.range().begin as u64);
            in_entry(space, entry.info(), entry.parents(), distance, context)
        }
    }
}

/// The same of an entry that a look-up has found. Its parents are read where it is chained.
#[tactic(auto, using(crate::proofs::FoundEntries::finding))]
fn of_found<S: ReadSpace>(
    tables: &Tables,
    space: &S,
    found: Option<&FunctionEntry>,
    rva: u64,
    context: &Context,
) -> Result<Caller, UnwindErr>
    requires whole { TablesAreWhole tables.now }
    requires found { option_map (λ f. f.now) found
        ≡ option_map function_entry (holding rva (entries_of tables.now)) }
    ensures { result ≡ shown (spec.of_entry (S.memory space.now) context.now rva
        (holding rva (entries_of tables.now))) }
{
    let Some(found) = found else {
        return leaf(space, context);
    };
    match found.info.parent() {
        Some(_) => {
            let entry = tables.lookup(rva);
            of_entry(space, entry.as_ref(), rva, context)
        }
        None => {
            let distance = rva.saturating_sub(found.range.begin as u64);
            in_entry(space, &found.info, &[], distance, context)
        }
    }
}

#[tactic(auto, using(crate::proofs::Past::risen_shown))]
fn rising(context: &Context, answer: Result<Caller, UnwindErr>) -> Result<Caller, UnwindErr>
    ensures { result ≡ raised_caller context.now answer }
{
    let caller = answer?;
    if rsp(context) < rsp(&caller.context) {
        Ok(caller)
    } else {
        Err(UnwindErr::Backward { rsp: rsp(context) })
    }
}

/// The caller of the frame of a context, in an image that lies at `base`. `Unreadable` is answered
/// exactly where a word of the stack that is needed may not be read, with the first one's address;
/// else `Backward` exactly where RSP wouldn't rise.
#[tactic(auto, using(crate::proofs::Past::risen_shown), unfolding(crate::specs::CallerOf::caller_in))]
pub fn caller_at<S: ReadSpace>(
    tables: &Tables,
    base: u64,
    space: &S,
    context: &Context,
) -> Result<Caller, UnwindErr>
    requires { TablesAreWhole tables.now }
    ensures { result ≡ shown (spec.caller_in
        (record (spec.functions_of tables.now) { base = base })
        (S.memory space.now) context.now) }
{
    let rva = context.rip.wrapping_sub(base);
    let found = tables.find(rva);
    rising(
        context,
        of_found(tables, space, found.as_ref(), rva, context),
    )
}

/// The same, in an image that lies at its own base.
#[tactic(auto, unfolding(crate::specs::CallerOf::caller_of))]
pub fn caller<S: ReadSpace>(
    tables: &Tables,
    space: &S,
    context: &Context,
) -> Result<Caller, UnwindErr>
    requires { TablesAreWhole tables.now }
    ensures { result ≡ shown (spec.caller_of tables.now (S.memory space.now) context.now) }
{
    caller_at(tables, tables.base(), space, context)
}

/// The same, where the entry that covers RIP has been looked up already.
#[tactic(auto, using(crate::proofs::Past::risen_shown), unfolding(crate::specs::CallerOf::caller_of, crate::specs::CallerOf::caller_in))]
pub fn caller_found<S: ReadSpace>(
    tables: &Tables,
    found: Option<&FunctionEntry>,
    space: &S,
    context: &Context,
) -> Result<Caller, UnwindErr>
    requires whole { TablesAreWhole tables.now }
    requires found { option_map (λ f. f.now) found
        ≡ option_map function_entry (spec.entry_of (spec.functions_of tables.now) context.now.rip) }
    ensures { result ≡ shown (spec.caller_of tables.now (S.memory space.now) context.now) }
{
    let rva = context.rip.wrapping_sub(tables.base());
    rising(context, of_found(tables, space, found, rva, context))
}

/// The same by an entry that is given, whose range covers `rva`, the address of RIP relative to the
/// image base; where none is given, as of a leaf function.
#[tactic(auto, using(crate::proofs::Past::risen_shown))]
pub fn caller_by_entry<S: ReadSpace>(
    space: &S,
    entry: Option<&Entry>,
    rva: u64,
    context: &Context,
) -> Result<Caller, UnwindErr>
    ensures { result ≡ shown (answers.◌>>=◌ (spec.of_entry (S.memory space.now) context.now rva
        (option_map (λ e. e.now) entry.entry)) (spec.rising context.now)) }
{
    rising(context, of_entry(space, entry, rva, context))
}

/// The same by an entry of which the own info is given, which is chained to none.
#[tactic(auto, using(crate::proofs::Past::risen_shown))]
pub fn caller_by_function<S: ReadSpace>(
    space: &S,
    function: &FunctionEntry,
    rva: u64,
    context: &Context,
) -> Result<Caller, UnwindErr>
    ensures { result ≡ shown (answers.◌>>=◌ (spec.of_entry (S.memory space.now) context.now rva
        (Some (unchained function.now))) (spec.rising context.now)) }
{
    let distance = rva.saturating_sub(function.range.begin as u64);
    rising(
        context,
        in_entry(space, &function.info, &[], distance, context),
    )
}
