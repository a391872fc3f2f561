//! The addresses of which the language says nothing.

ghost use Rattle.std.specs.Prelude.{◌≡◌, not};
ghost use Rattle.flat_memory.specs.Memory.{first_refused};
ghost use Rattle.source_operations.specs.Reserved.{reserved_below};

use host_layout::range::{
    DATA_STACK_START, FIRST_DATA, FIRST_DATA_STACK, GUARD_START, IMAGE_BASE, IMAGE_RANGE_END,
    STACK_END,
};

/// Whether an address is reserved, where the globals' pages end at another.
pub fn is_reserved(data_end: u64, address: u64) -> bool
    ensures { result ≡ reserved_below data_end address }
{
    let in_stack = GUARD_START <= address && address < STACK_END;
    let in_image = IMAGE_BASE <= address && address < IMAGE_RANGE_END;
    let in_data = FIRST_DATA <= address && address < data_end;
    let in_pointer = DATA_STACK_START <= address && address < FIRST_DATA_STACK;
    in_stack || (in_image && !in_data) || in_pointer
}

/// The first reserved address of some.
#[tactic(auto, using(crate::proofs::Bytes::refused_steps))]
pub fn first_reserved(data_end: u64, at: u64, count: u64) -> Option<u64>
    ensures { result ≡ first_refused (λ a. not (reserved_below data_end a)) count at }
{
    let mut here = at;
    for _i in 0..count {
        if is_reserved(data_end, here) {
            return Some(here);
        }
        here = here.wrapping_add(1);
    }
    None
}
