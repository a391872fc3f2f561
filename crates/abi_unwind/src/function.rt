//! A function with the chain of its infos, and what a jump out of its range leads to.

ghost use Rattle.std.specs.Prelude.{◌≡◌, option_map};
ghost use Rattle.eh_tables.specs.Tables.{covers_address};
ghost use Rattle.abi_unwind.specs.Caller as spec;

use crate::undo::parent_or;
use eh_tables::{Entry, Info, RuntimeFunction};
use std::marker::Model;

/// An entry of a function table, with its unwind info and those that this is chained to.
#[derive(Drop)]
pub struct Function<'a, 'b> {
    /// The range of its code.
    pub range: RuntimeFunction,
    /// Its own unwind info.
    pub info: &'b Info<'a>,
    /// The unwind infos that it is chained to, one after another.
    pub parents: &'b [Info<'a>],
}

impl<'a, 'b> Model for Function<'a, 'b> {
    ghost use Rattle.eh_tables.specs.Tables.{Entry};

    ghost Value = { Entry };

    ghost view = { λ f. record { range = f.range; info = f.info.now; parents = f.parents.now } };
}

/// The function at the end of a chain.
#[derive(Drop)]
pub struct Primary<'a, 'b> {
    /// The range of its code.
    pub range: RuntimeFunction,
    /// Its unwind info.
    pub info: &'b Info<'a>,
}

impl<'a, 'b> Model for Primary<'a, 'b> {
    ghost use Rattle.eh_tables.specs.declared.lookup.FunctionEntry.{FunctionEntry};

    ghost Value = { FunctionEntry };

    ghost view = { λ r. record { range = r.range; info = r.info.now } };
}

/// An entry as a function.
pub fn function_of<'a, 'b>(entry: &'b Entry<'a>) -> Function<'a, 'b>
    ensures { result ≡ entry.now }
{
    Function {
        range: entry.range(),
        info: entry.info(),
        parents: entry.parents(),
    }
}

/// The function at the end of a chain.
pub fn root<'a, 'b>(
    range: RuntimeFunction,
    info: &'b Info<'a>,
    parents: &'b [Info<'a>],
) -> Primary<'a, 'b>
    ensures { result ≡ spec.root range info.now parents.now }
{
    match parents {
        [] => Primary { range, info },
        [first, rest @ ..] => root(parent_or(range, info), first, rest),
    }
}

/// The same of a function.
pub fn root_of<'a, 'b>(function: &Function<'a, 'b>) -> Primary<'a, 'b>
    ensures { result ≡ spec.root_of function.now }
{
    root(function.range, function.info, function.parents)
}

/// Whether the range of a function covers an address.
pub fn covers(function: &Function, rva: u64) -> bool
    ensures { result ≡ covers_address rva function.now.range }
{
    function.range.begin as u64 <= rva && rva < function.range.end as u64
}

/// Whether a jump to an address in a function's range leaves the function: where it leads to its
/// begin, and the function isn't chained.
pub fn leaves_inside(function: &Function, rva: u64) -> bool
    ensures { result ≡ spec.leaves_inside function.now rva }
{
    rva == function.range.begin as u64 && function.info.parent().is_none()
}

/// Whether a jump to an address outside a function's range leaves the function, by the entry that
/// covers the address.
pub fn leaves_to(function: &Function, rva: u64, entry: Option<&Entry>) -> bool
    ensures { result ≡ spec.leaves_to function.now rva (option_map (λ e. e.now) entry.entry) }
{
    match entry {
        None => true,
        Some(entry) => {
            let own = root_of(function).range.begin;
            let other = root_of(&function_of(entry)).range.begin;
            other != own || rva == own as u64
        }
    }
}
