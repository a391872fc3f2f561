//! Shifts, with their flags. Operands are numbers of the width.

ghost use Rattle.std.specs.Prelude.{◌≡◌, ◌<◌, ◌≤◌, ◌*◌, ◌^◌};
ghost use Rattle.x64_machine.specs.Shifts as spec;

use crate::cpu::Flags;
use seh_num::extension::truncate;
use seh_num::width::Width;
use x64_instr::instruction::Direction;

/// A count as it is taken: modulo 32, at 64 bits modulo 64.
pub fn count_of(width: Width, count: u64) -> u64
    ensures value { result ≡ spec.count_of width count }
    ensures small { result < 64 }
{
    match width {
        Width::W64 => count % 64,
        _ => count % 32,
    }
}

fn power(count: u64) -> u128
    requires { count < 64 }
    ensures value { result ≡ 2 ^ count }
    ensures least { 0 < result }
    ensures most { result ≤ 2 ^ 63 }
{
    1 << count
}

/// A product that fits 128 bits.
fn raised(value: u64, count: u64) -> u128
    requires { count < 64 }
    ensures { result ≡ value * 2 ^ count }
{
    u128::from(value) * power(count)
}

/// The bits of a number, moved; an arithmetic shift brings copies of the top bit in.
pub fn shift(direction: Direction, width: Width, value: u64, count: u64) -> u64
    requires { count < 64 }
    ensures { result ≡ spec.shifted direction width value count }
{
    let limit = width.limit();
    let kept = u128::from(value) / power(count);
    match direction {
        Direction::Left => truncate(width, raised(value, count)),
        Direction::Right => kept as u64,
        Direction::ArithmeticRight => {
            if value < width.half() {
                kept as u64
            } else {
                truncate(width, kept + (limit - limit / power(count)))
            }
        }
    }
}

fn last_out(direction: Direction, width: Width, value: u64, count: u64) -> bool
    requires { count < 64 }
    ensures { result ≡ spec.last_out direction width value count }
{
    match direction {
        Direction::Left => raised(value, count) / width.limit() % 2 == 1,
        _ => u128::from(value) / power(count.saturating_sub(1)) % 2 == 1,
    }
}

/// Whether one holds and the other doesn't.
pub(crate) fn differ(first: bool, second: bool) -> bool
    ensures { result ≡ spec.differ first second }
{
    first != second
}

fn overflow_of(direction: Direction, width: Width, value: u64) -> bool
    ensures { result ≡ spec.overflow_of direction width value }
{
    let half = width.half();
    match direction {
        Direction::Left => differ(
            half <= truncate(width, u128::from(value) * 2),
            half <= value,
        ),
        Direction::Right => half <= value,
        Direction::ArithmeticRight => false,
    }
}

/// The flags of a shift: a count of 0 leaves them, and one above 1 leaves OF.
pub fn shift_flags(
    direction: Direction,
    width: Width,
    value: u64,
    count: u64,
    flags: Flags,
) -> Flags
    requires { count < 64 }
    ensures { result ≡ spec.shift_flags direction width value count flags }
{
    if count == 0 {
        return flags;
    }
    let moved = shift(direction, width, value, count);
    let overflow = if count == 1 {
        overflow_of(direction, width, value)
    } else {
        flags.overflow
    };
    Flags {
        carry: last_out(direction, width, value, count),
        zero: moved == 0,
        sign: moved >= width.half(),
        overflow,
    }
}
