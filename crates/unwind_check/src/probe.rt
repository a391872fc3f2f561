//! The stack probe that a large allocation calls to touch its pages (Microsoft x64 ABI, "Prolog
//! code": `__chkstk`).

ghost use Rattle.std.specs.Prelude.{◌≡◌, ◌&&◌, ◌==◌};
ghost use Rattle.flat_memory.specs.Memory.{executable};
ghost use Rattle.unwind_check.specs.Prologues as spec;

use seh_num::size::LONGEST_INSTRUCTION;
use x64_instr::instruction::{Instr, Target};
use x64_memory::space::CodeSpace;

/// Whether a byte is at an address, to be executed.
#[tactic(auto, unfolding(flat_memory::specs::Memory::executable))]
fn has_byte<S: CodeSpace>(space: &S, at: u64, byte: u8) -> bool
    ensures { result ≡ (((S.memory space.now).protection at).execute &&
        ((S.memory space.now).byte at == byte)) }
{
    let mut bytes = [0; LONGEST_INSTRUCTION];
    let count = space.fetch(at, &mut bytes);
    match &bytes[..count] {
        [] => false,
        [first, ..] => *first == byte,
    }
}

fn has_bytes<S: CodeSpace>(space: &S, at: u64, bytes: &[u8]) -> bool
    ensures { result ≡ spec.has_bytes (S.memory space.now) at bytes.now }
{
    let mut next = at;
    for byte in bytes {
        if !has_byte(space, next, *byte) {
            return false;
        }
        next = next.wrapping_add(1);
    }
    true
}

/// Whether an instruction, whose next one is at an address, is a call of a routine of these bytes.
pub fn is_call_of<S: CodeSpace>(space: &S, probe: &[u8], after: u64, instr: &Instr) -> bool
    ensures { result ≡ spec.is_call_of (S.memory space.now) probe.now after instr.now }
{
    match instr {
        Instr::Call(Target::Relative(distance)) => {
            has_bytes(space, after.wrapping_add(*distance), probe)
        }
        _ => false,
    }
}
