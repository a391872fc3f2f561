//! The trailing part of a legal epilogue, inside an entry, and past the entry's end as the
//! processor fetches it (Microsoft x64 ABI, "Epilog code").

ghost use Rattle.std.specs.Prelude.{◌≡◌, false, ◌+◌, ◌-◌, ◌<◌, ◌≤◌, ◌^◌, Some, IfSome, IfOk, length};
ghost use Rattle.virtual_unwind.specs.Tail as spec;
ghost use Rattle.unwind_tails.specs.Instructions.{between};
ghost use Rattle.unwind_tails.specs.Tails.{counted};
ghost use Rattle.unwind_tails.specs.Tails as tails;
ghost use Rattle.unwind_tails.specs.TailEnds.{AreEnded};

use crate::decoded::item_before;
use crate::fetched::{FetchedInstr, fetched_at};
use crate::known_tails::KnownTails;
use std::alloc::{AllocError, Global};
use x64_memory::space::CodeSpace;

/// How far the trailing part of a legal epilogue goes.
#[derive(Clone, Copy, Debug, PartialEq, Eq)]
pub enum Tail {
    /// None begins there.
    Missing,
    /// It ends inside the entry.
    Inside {
        /// How many instructions it has.
        count: u64,
    },
    /// It ends past the entry's end.
    Outside,
}

/// How many instructions the part has in all, where it goes on at an address past so many of them,
/// one at least.
fn fetched_length<S: CodeSpace>(space: &S, register: u8, at: u64, count: u64) -> Option<u64>
    ensures value { result ≡ counted count (spec.tail (0xFFFF_FFFF_FFFF_FFFF - count) false
        register (S.memory space.now) at) }
    ensures more { IfSome result (λ n. count < n) }
{
    let mut here = at;
    for n in count..0xFFFF_FFFF_FFFF_FFFFu64 {
        match fetched_at(space, here) {
            None => return None,
            Some(item) => match item.is_last(register, false) {
                None => return None,
                Some(last) => {
                    if last {
                        return Some(n + 1);
                    }
                    here = here.wrapping_add(item.size());
                }
            },
        }
    }
    None
}

/// How far the part goes, where it goes on past the last instruction inside the entry, which is its
/// instruction of that number.
fn tail_outside<S: CodeSpace>(
    alloc: Global,
    space: &S,
    known: &mut KnownTails,
    register: u8,
    at: u64,
    count: u64,
) -> Result<Tail, AllocError>
    requires few { count ≤ 2 ^ 63 }
    requires known { AreEnded (S.memory space.now) known.old }
    ensures tail { IfOk result (λ t. tails.IsTail count (counted count (spec.tail
        (0xFFFF_FFFF_FFFF_FFFF - count) false register (S.memory space.now) at)) t) }
    ensures known { AreEnded (S.memory space.now) known.new }
{
    let ended = known.is_ended(alloc, space, at)?;
    match ended {
        None => match fetched_length(space, register, at, count) {
            None => Ok(Tail::Missing),
            Some(_) => Ok(Tail::Outside),
        },
        Some(ends) => {
            if ends {
                Ok(Tail::Outside)
            } else {
                Ok(Tail::Missing)
            }
        }
    }
}

/// How far the part goes, from its second instruction on.
fn later_tail<S: CodeSpace>(
    alloc: Global,
    space: &S,
    known: &mut KnownTails,
    register: u8,
    begin: u64,
    end: u64,
) -> Result<Tail, AllocError>
    requires order { begin ≤ end }
    requires low { end < 2 ^ 63 }
    requires known { AreEnded (S.memory space.now) known.old }
    ensures tail { IfOk result
        (λ t. tails.IsTail (1 + length (between (S.memory space.now) begin end).items) (counted 1
        (spec.tail 0xFFFF_FFFF_FFFF_FFFE false register (S.memory space.now) begin)) t) }
    ensures known { AreEnded (S.memory space.now) known.new }
{
    let mut here = begin;
    let mut count = 1;
    while here < end {
        match item_before(space, here, end) {
            None => {
                let tail = tail_outside(alloc, space, known, register, here, count)?;
                return Ok(tail);
            }
            Some(item) => match item.is_last(register, false) {
                None => return Ok(Tail::Missing),
                Some(last) => {
                    count += 1;
                    if last {
                        return Ok(Tail::Inside { count });
                    }
                    here += item.size();
                }
            },
        }
    }
    let outside = tail_outside(alloc, space, known, register, here, count)?;
    Ok(outside)
}

/// How far the trailing part of a legal epilogue goes that begins with an instruction at an
/// address. `end` is the address of the entry's end, and `register` the number of the frame
/// register, 0 where there is none. Refused for want of memory alone.
pub fn tail_from<S: CodeSpace>(
    alloc: Global,
    space: &S,
    known: &mut KnownTails,
    register: u8,
    at: u64,
    end: u64,
    item: &FetchedInstr,
) -> Result<Tail, AllocError>
    requires there { spec.fetched_at (S.memory space.now) at ≡ Some item.now }
    requires inside { at + item.now.size ≤ end }
    requires low { end < 2 ^ 63 }
    requires known { AreEnded (S.memory space.now) known.old }
    ensures tail { IfOk result (λ t. tails.IsTail
        (1 + length (between (S.memory space.now) (at + item.now.size) end).items)
        (counted 0 (spec.tail_at register (S.memory space.now) at)) t) }
    ensures known { AreEnded (S.memory space.now) known.new }
{
    match item.is_last(register, true) {
        None => Ok(Tail::Missing),
        Some(last) => {
            if last {
                Ok(Tail::Inside { count: 1 })
            } else {
                let begin = at + item.size();
                let later = later_tail(alloc, space, known, register, begin, end)?;
                Ok(later)
            }
        }
    }
}
