//! What is known of addresses.

ghost use Rattle.std.specs.Prelude.{◌≡◌, ◌-◌, ◌%◌, ◌^◌};
ghost use Rattle.frame_known.specs.Known as runs;
ghost use Rattle.frame_known.specs.After as spec;
ghost use Rattle.known_frames.specs.Views.{registers_of};

use crate::knowledge::known_of;
use frame_known::known::Known;
use x64_instr::operand::{Base, MemRef};

/// So many bytes above a place, modulo 2 to the 64.
pub fn raised(by: u64, known: Known) -> Known
    ensures { result ≡ runs.raised by known }
{
    match known {
        Known::Place(k) => Known::Place(k.wrapping_add(by)),
        _ => Known::Nothing,
    }
}

/// So many bytes below a place, modulo 2 to the 64.
pub fn lowered(by: u64, known: Known) -> Known
    ensures { result ≡ runs.raised (2 ^ 64 - by % 2 ^ 64) known }
{
    match known {
        Known::Place(k) => Known::Place(k.wrapping_sub(by)),
        _ => Known::Nothing,
    }
}

/// A place and a number added.
pub fn sum(first: Known, second: Known) -> Known
    ensures { result ≡ spec.sum first second }
{
    match first {
        Known::Place(k) => match second {
            Known::Number(n) => Known::Place(k.wrapping_add(n)),
            _ => Known::Nothing,
        },
        Known::Number(n) => match second {
            Known::Place(k) => Known::Place(k.wrapping_add(n)),
            _ => Known::Nothing,
        },
        _ => Known::Nothing,
    }
}

/// A number subtracted from a place.
pub fn difference(first: Known, second: Known) -> Known
    ensures { result ≡ spec.difference first second }
{
    match first {
        Known::Place(k) => match second {
            Known::Number(n) => Known::Place(k.wrapping_sub(n)),
            _ => Known::Nothing,
        },
        _ => Known::Nothing,
    }
}

/// What is known of the address of an operand.
pub fn address(registers: &[Known; 16], place: &MemRef) -> Known
    ensures { result ≡ spec.address (registers_of registers.now) place.now }
{
    match place.base {
        Base::Register(register) => match place.index {
            None => raised(place.displacement, known_of(registers, register)),
            Some(_) => Known::Nothing,
        },
        Base::Rip => Known::Nothing,
        Base::Nothing => Known::Nothing,
    }
}
