//! Division as the processor and C have it: the quotient is cut off towards zero.

ghost use Rattle.std.specs.Prelude.{◌≡◌, IfOk};
ghost use Rattle.seh_num.specs.Division.{is_signed, divided_signed, divided_unsigned, IsSignedDivision, IsUnsignedDivision};

use crate::width::Width;

/// Why there is no quotient (Intel manual, volume 2, DIV and IDIV, "#DE").
#[derive(Clone, Copy, Debug, PartialEq, Eq)]
pub enum DivFault {
    /// The divisor is 0.
    Zero,
    /// The quotient doesn't fit the width.
    Overflow,
}

/// Whether a whole number is a signed number of the width: from minus half the width's limit to
/// half of it less 1.
pub fn is_signed(w: Width, z: i128) -> bool
    ensures { result ≡ is_signed w z }
{
    let half = u128::from(w.half());
    if z < 0 {
        z.unsigned_abs() <= half
    } else {
        z.unsigned_abs() < half
    }
}

/// The signed quotient towards zero, and the remainder, which has the dividend's sign.
///
/// `Zero` exactly where `b` is 0; else `Overflow` exactly where the quotient isn't a signed number
/// of the width.
pub fn div_signed(w: Width, a: i128, b: i64) -> Result<(i64, i64), DivFault>
    ensures answer { result ≡ divided_signed w a b }
    ensures quotient { IfOk result (λ p. IsSignedDivision a b p.0 p.1) }
{
    let divisor = i128::from(b);
    if divisor == 0 {
        return Err(DivFault::Zero);
    }
    // Only the least number over -1 has no quotient in 128 bits, and it has none in fewer.
    match a.checked_div(divisor) {
        None => Err(DivFault::Overflow),
        Some(quotient) if is_signed(w, quotient) => { Ok((quotient as i64, (a % divisor) as i64)) }
        Some(_) => Err(DivFault::Overflow),
    }
}

/// The unsigned quotient, and the remainder.
///
/// `Zero` exactly where `b` is 0; else `Overflow` exactly where the quotient isn't an unsigned
/// number of the width.
pub fn div_unsigned(w: Width, a: u128, b: u64) -> Result<(u64, u64), DivFault>
    ensures answer { result ≡ divided_unsigned w a b }
    ensures quotient { IfOk result (λ p. IsUnsignedDivision a b p.0 p.1) }
{
    let divisor = u128::from(b);
    if divisor == 0 {
        return Err(DivFault::Zero);
    }
    let quotient = a / divisor;
    if quotient < w.limit() {
        Ok((quotient as u64, (a % divisor) as u64))
    } else {
        Err(DivFault::Overflow)
    }
}
