//! Arithmetic of each width, with its flags. Operands are numbers of the width.

ghost use Rattle.std.specs.Prelude.{◌≡◌, ◌<◌, ◌+ℤ◌, ◌-ℤ◌, ◌*ℤ◌};
ghost use Rattle.seh_num.specs.Widths.{limit};
ghost use Rattle.seh_num.specs.Division.{is_signed};
ghost use Rattle.x64_machine.specs.Words as spec;

use crate::cpu::Flags;
use seh_num::division::is_signed;
use seh_num::extension::{sign_extend, truncate, zero_extend};
use seh_num::width::Width;

/// The flags of a result: ZF and SF by it, the others as given.
pub fn flags_of(width: Width, result_value: u64, carry: bool, overflow: bool) -> Flags
    ensures { result ≡ spec.flags_of width result_value carry overflow }
{
    Flags {
        carry,
        zero: result_value == 0,
        sign: result_value >= width.half(),
        overflow,
    }
}

fn sum_fits(width: Width, first: i64, second: i64) -> bool
    ensures { result ≡ is_signed width (first +ℤ second) }
{
    is_signed(width, i128::from(first) + i128::from(second))
}

fn difference_fits(width: Width, first: i64, second: i64) -> bool
    ensures { result ≡ is_signed width (first -ℤ second) }
{
    is_signed(width, i128::from(first) - i128::from(second))
}

fn product_fits(width: Width, first: i64, second: i64) -> bool
    ensures { result ≡ is_signed width (first *ℤ second) }
{
    is_signed(width, i128::from(first) * i128::from(second))
}

/// A sum, where the width is known.
#[inline(always)]
#[tactic(auto, unfolding(crate::specs::Words::added))]
fn sum_of(width: Width, first: u64, second: u64) -> (u64, Flags)
    ensures { result ≡ spec.added width first second }
{
    let whole = u128::from(first) + u128::from(second);
    let sum = truncate(width, whole);
    let fits = sum_fits(width, sign_extend(width, first), sign_extend(width, second));
    let flags = flags_of(width, sum, whole >= width.limit(), !fits);
    (sum, flags)
}

/// A sum (Intel manual, volume 2, ADD). Each width has code of its own.
pub fn add(width: Width, first: u64, second: u64) -> (u64, Flags)
    ensures { result ≡ spec.added width first second }
{
    match width {
        Width::W8 => sum_of(Width::W8, first, second),
        Width::W16 => sum_of(Width::W16, first, second),
        Width::W32 => sum_of(Width::W32, first, second),
        Width::W64 => sum_of(Width::W64, first, second),
    }
}

/// A difference, where the width is known.
#[inline(always)]
#[tactic(auto, unfolding(crate::specs::Words::subtracted))]
fn difference_of(width: Width, first: u64, second: u64) -> (u64, Flags)
    requires { second < limit width }
    ensures { result ≡ spec.subtracted width first second }
{
    let whole = u128::from(first) + (width.limit() - u128::from(second));
    let difference = truncate(width, whole);
    let fits = difference_fits(width, sign_extend(width, first), sign_extend(width, second));
    let flags = flags_of(width, difference, first < second, !fits);
    (difference, flags)
}

/// A difference (Intel manual, volume 2, SUB). Each width has code of its own.
pub fn subtract(width: Width, first: u64, second: u64) -> (u64, Flags)
    requires { second < limit width }
    ensures { result ≡ spec.subtracted width first second }
{
    match width {
        Width::W8 => difference_of(Width::W8, first, second),
        Width::W16 => difference_of(Width::W16, first, second),
        Width::W32 => difference_of(Width::W32, first, second),
        Width::W64 => difference_of(Width::W64, first, second),
    }
}

/// A signed product's low half; CF and OF say that the product doesn't fit, ZF and SF stay (Intel
/// manual, volume 2, IMUL, which leaves ZF and SF open).
#[tactic(auto, unfolding(crate::specs::Words::multiplied))]
pub fn multiply(width: Width, first: u64, second: u64, flags: Flags) -> (u64, Flags)
    ensures { result ≡ spec.multiplied width first second flags }
{
    let low = truncate(width, u128::from(first) * u128::from(second));
    let fits = product_fits(width, sign_extend(width, first), sign_extend(width, second));
    let flags = Flags {
        carry: !fits,
        overflow: !fits,
        zero: flags.zero,
        sign: flags.sign,
    };
    (low, flags)
}

/// A result with its flags, of an operation on each bit: neither carry nor overflow (Intel manual,
/// volume 2, AND, OR, XOR, TEST).
pub fn logical(width: Width, value: u64) -> (u64, Flags)
    ensures { result ≡ spec.logical width value }
{
    (value, flags_of(width, value, false, false))
}

/// Each bit turned (Intel manual, volume 2, NOT).
pub fn invert(width: Width, value: u64) -> u64
    requires { value < limit width }
    ensures { result ≡ spec.inverted width value }
{
    (width.limit() - 1 - u128::from(value)) as u64
}

/// A number with its low bits replaced: a write of 32 bits clears the upper half of a register, one
/// of 8 or 16 bits leaves the rest (Intel manual, volume 1, "General-Purpose Registers in 64-Bit
/// Mode").
pub fn merge(width: Width, old: u64, value: u64) -> u64
    ensures { result ≡ spec.merged width old value }
{
    match width {
        Width::W64 | Width::W32 => zero_extend(width, value),
        Width::W16 => old - old % (1 << 16) + value % (1 << 16),
        Width::W8 => old - old % (1 << 8) + value % (1 << 8),
    }
}
