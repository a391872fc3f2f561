//! The data stack: its pointer, and variables that take numbers there.

ghost use Rattle.std.specs.Prelude.{◌≡◌, ◌≤◌, ◌<◌, ◌^◌, false};
ghost use Rattle.flat_memory.specs.Memory.{first_refused, number_at, pointer_of, with_pointer};
ghost use Rattle.c_operations.specs.Performed as spec;
ghost use Rattle.x64_memory.specs.PageMaps.{memory_of};
ghost use Rattle.source_operations.specs.Reserved.{reserved_below, may_place};
ghost use Rattle.source_operations.specs.Outcomes.{outcome_of, is_given};

use crate::performing::Performed;
use crate::reserved::is_reserved;
use host_layout::range::DATA_STACK_START;
use seh_num::extension::zero_extend;
use seh_num::width::Width;
use x64_memory::page_map::PageMap;
use x64_memory::space::{AddressSpace, ReadSpace};

/// The number in some bytes, whatever the protection there.
fn number(space: &PageMap, at: u64, count: u64) -> u64
    requires { count ≤ 8 }
    ensures value { result ≡ number_at (memory_of space.now).byte count at }
    ensures small { result < 256 ^ count }
{
    if count == 0 {
        return 0;
    }
    let rest = number(space, at.wrapping_add(1), count - 1);
    u64::from(space.byte(at)) + 256 * rest
}

/// The data stack's pointer.
pub fn pointer(space: &PageMap) -> u64
    ensures { result ≡ pointer_of (memory_of space.now) }
{
    match space.load(DATA_STACK_START, Width::W64) {
        Ok(pointer) => pointer,
        Err(_) => number(space, DATA_STACK_START, 8),
    }
}

/// Sets the data stack's pointer.
pub fn set_pointer(space: &mut PageMap, pointer: u64)
    ensures { memory_of space.new ≡ with_pointer (memory_of space.old) pointer }
{
    let _ = space.store(DATA_STACK_START, Width::W64, pointer);
}

/// Whether a variable may have the byte at an address.
fn may_place(space: &PageMap, data_end: u64, at: u64) -> bool
    ensures { result ≡ may_place (reserved_below data_end) (memory_of space.now) at }
{
    !is_reserved(data_end, at) && space.may_store(at, Width::W8).is_ok()
}

/// The first byte of some that a variable can't have.
#[tactic(auto, using(crate::proofs::Bytes::refused_steps))]
fn first_unplaceable(space: &PageMap, data_end: u64, at: u64, count: u64) -> Option<u64>
    ensures { result
        ≡ first_refused (may_place (reserved_below data_end) (memory_of space.now)) count at }
{
    let mut here = at;
    for _i in 0..count {
        if !may_place(space, data_end, here) {
            return Some(here);
        }
        here = here.wrapping_add(1);
    }
    None
}

/// Puts a number where a variable stands. It gives another one.
pub fn place(
    space: &mut PageMap,
    data_end: u64,
    width: Width,
    at: u64,
    number: u64,
    given: u64,
) -> Performed
    ensures outcome { outcome_of result (memory_of space.new) ≡
        spec.placed (reserved_below data_end) width at number given (memory_of space.old) }
    ensures kept { is_given result ≡ false → memory_of space.new ≡ memory_of space.old }
{
    match first_unplaceable(space, data_end, at, width.bytes()) {
        Some(address) => Performed::Undefined(address),
        None => {
            let _ = space.store(at, width, zero_extend(width, number));
            Performed::Gives(given)
        }
    }
}
