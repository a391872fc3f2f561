//! Which addresses no run changes.

ghost use Rattle.std.specs.Prelude.{◌≡◌, true};
ghost use Rattle.seh_num.specs.declared.size.TheConstants.{LONGEST_INSTRUCTION as longest};
ghost use Rattle.host_layout.specs.Ranges as ranges;
ghost use Rattle.x64_decoded.specs.Fixed.{IsFixedAt, AreFixed};

use host_layout::range::{ARENA_END, ARENA_START};
use seh_num::size::LONGEST_INSTRUCTION;
use seh_num::width::Width;
use x64_memory::space::AddressSpace;

fn in_arena(at: u64) -> bool
    ensures { result ≡ ranges.in_arena at }
{
    ARENA_START <= at && at < ARENA_END
}

/// Whether an address is outside the arena, and its byte may not be written.
fn is_fixed_at<S: AddressSpace>(space: &S, at: u64) -> bool
    ensures { result ≡ true → IsFixedAt (S.memory space.now) at }
{
    if in_arena(at) {
        return false;
    }
    match space.may_store(at, Width::W8) {
        Ok(()) => false,
        Err(_) => true,
    }
}

/// Whether all addresses that an instruction can take are so.
pub fn are_fixed<S: AddressSpace>(space: &S, at: u64) -> bool
    ensures { result ≡ true → AreFixed (S.memory space.now) longest at }
{
    for i in 0..LONGEST_INSTRUCTION {
        if !is_fixed_at(space, at.wrapping_add(i as u64)) {
            return false;
        }
    }
    true
}
