//! Division of a number of twice the width.

ghost use Rattle.std.specs.Prelude.{◌≡◌, ◌<◌, ◌*◌};
ghost use Rattle.seh_num.specs.Widths.{limit};
ghost use Rattle.x64_machine.specs.Dividing as spec;

use seh_num::division::{DivFault, div_signed, div_unsigned};
use seh_num::extension::{sign_extend, wrap};
use seh_num::width::Width;
use x64_instr::instruction::Division;

/// The number of the high half and the low half.
pub(crate) fn join(width: Width, high: u64, low: u64) -> u128
    requires high { high < limit width }
    requires low { low < limit width }
    ensures value { result ≡ spec.joined width high low }
    ensures small { result < limit width * limit width }
{
    u128::from(high) * width.limit() + u128::from(low)
}

fn signed_double(width: Width, number: u128) -> i128
    requires { number < limit width * limit width }
    ensures { result ≡ spec.signed_double width number }
{
    match width {
        Width::W8 => i128::from(sign_extend(Width::W16, number as u64)),
        Width::W16 => i128::from(sign_extend(Width::W32, number as u64)),
        Width::W32 => i128::from(sign_extend(Width::W64, number as u64)),
        Width::W64 => number.cast_signed(),
    }
}

/// The quotient and the remainder, as numbers of the width.
pub(crate) fn divide(
    division: Division,
    width: Width,
    number: u128,
    by: u64,
) -> Result<(u64, u64), DivFault>
    requires { number < limit width * limit width }
    ensures { result ≡ spec.divided division width number by }
{
    match division {
        Division::Unsigned => div_unsigned(width, number, by),
        Division::Signed => {
            match div_signed(width, signed_double(width, number), sign_extend(width, by)) {
                Ok((quotient, remainder)) => {
                    Ok((
                        wrap(width, i128::from(quotient)),
                        wrap(width, i128::from(remainder)),
                    ))
                }
                Err(fault) => Err(fault),
            }
        }
    }
}
