//! The instructions of a part of an entry, from one address up to another.

ghost use Rattle.std.specs.Prelude.{◌≡◌, ◌≤◌, take, IfOk};
ghost use Rattle.unwind_tails.specs.Instructions as spec;

use crate::fetched::{FetchedInstr, fetched_at};
use std::alloc::{AllocError, Global};
use std::marker::Model;
use x64_memory::space::CodeSpace;

/// Instructions one after another, and whether they end where they are to end.
#[derive(Drop)]
pub struct DecodedInstrs {
    items: Vec<FetchedInstr>,
    is_whole: bool,
}

impl Model for DecodedInstrs {
    ghost use Rattle.unwind_tails.specs.Instructions.{Decoded};

    ghost Value = { Decoded };

    ghost view = { λ p. record { items = p.items.items; is_whole = p.is_whole } };
}

impl DecodedInstrs {
    /// The instructions.
    pub fn items(&self) -> &[FetchedInstr]
        ensures { result.now ≡ self.now.items }
    {
        &self.items
    }

    /// Whether they end where they are to end: no instruction is missing there, or passes the end.
    pub fn is_whole(&self) -> bool
        ensures { result ≡ self.now.is_whole }
    {
        self.is_whole
    }
}

/// The instruction at an address, where it ends at another one or before it.
pub fn item_before<S: CodeSpace>(space: &S, at: u64, end: u64) -> Option<FetchedInstr>
    requires { at ≤ end }
    ensures { spec.IsFirst (S.memory space.now) at end result }
{
    if at == end {
        return None;
    }
    match fetched_at(space, at) {
        None => None,
        Some(item) => {
            let size = item.size();
            if size == 0 {
                return None;
            }
            if end - at < size {
                return None;
            }
            Some(item)
        }
    }
}

/// Whether there is one.
pub fn has_item<S: CodeSpace>(space: &S, at: u64, end: u64) -> bool
    requires { at ≤ end }
    ensures { result ≡ spec.is_some (spec.between (S.memory space.now) at end).items }
{
    match item_before(space, at, end) {
        None => false,
        Some(_) => true,
    }
}

/// The instructions from an address up to another one. One that passes the end isn't counted.
/// Refused for want of memory alone.
pub fn decoded_between<S: CodeSpace>(
    alloc: Global,
    space: &S,
    begin: u64,
    end: u64,
) -> Result<DecodedInstrs, AllocError>
    requires { begin ≤ end }
    ensures { IfOk result (λ p. p ≡ spec.between (S.memory space.now) begin end) }
{
    let mut items = Vec::new(alloc);
    let mut at = begin;
    while at < end {
        match item_before(space, at, end) {
            None => {
                return Ok(DecodedInstrs {
                    items,
                    is_whole: false,
                });
            }
            Some(item) => {
                let size = item.size();
                items.push(item)?;
                at += size;
            }
        }
    }
    Ok(DecodedInstrs {
        items,
        is_whole: true,
    })
}

/// The first so many of the instructions from an address up to another one, or all where there are
/// fewer. Refused for want of memory alone.
pub fn first_between<S: CodeSpace>(
    alloc: Global,
    space: &S,
    begin: u64,
    end: u64,
    count: u64,
) -> Result<Vec<FetchedInstr>, AllocError>
    requires { begin ≤ end }
    ensures { IfOk result
        (λ v. v.items ≡ take count (spec.between (S.memory space.now) begin end).items) }
{
    let mut items = Vec::new(alloc);
    let mut at = begin;
    for _n in 0..count {
        match item_before(space, at, end) {
            None => return Ok(items),
            Some(item) => {
                let size = item.size();
                items.push(item)?;
                at += size;
            }
        }
    }
    Ok(items)
}
