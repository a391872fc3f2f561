//! Vector registers of contexts, by their numbers, and on the stack.

ghost use Rattle.std.specs.Prelude.{◌≡◌, ◌<◌, IfSome};
ghost use Rattle.abi_unwind.specs.Contexts as spec;
ghost use Rattle.abi_unwind.specs.Undone as undone;

use crate::context::NONVOLATILE_VECTORS;
use virtual_unwind::UnwindErr;
use virtual_unwind::word::word;
use x64_memory::space::ReadSpace;

fn vector_index(register: u8) -> Option<usize>
    ensures value { result ≡ spec.vector_index register }
    ensures small { IfSome result (λ k. k < NONVOLATILE_VECTORS) }
{
    match register {
        6..=15 => Some(register as usize - 6),
        _ => None,
    }
}

/// Sets a vector register, where it is nonvolatile.
pub fn set_vector(vectors: &mut [u128; NONVOLATILE_VECTORS], register: u8, value: u128)
    ensures { vectors.new ≡ spec.with_vector vectors.old register value }
{
    if let Some(k) = vector_index(register) {
        vectors[k] = value;
    }
}

/// The 16 bytes at an address.
pub fn wide<S: ReadSpace>(space: &S, at: u64) -> Result<u128, UnwindErr>
    ensures { result ≡ undone.wide (S.memory space.now) at }
{
    let low = word(space, at)?;
    let high = word(space, at.wrapping_add(8))?;
    Ok(low as u128 + (1 << 64) * high as u128)
}
