//! Division of a number in two registers.

ghost use Rattle.x64_laws.specs.Dividing as spec;

/// DIV and IDIV leave quotient and remainder of the number in RDX and RAX together, as unsigned and
/// as signed numbers. They fault exactly where the divisor is 0 or the quotient doesn't fit (Intel
/// manual, volume 2, DIV and IDIV).
pub fn divisions()
    ensures div { spec.DivIsDivision }
    ensures div_overflow { spec.DivOverflows }
    ensures idiv { spec.IdivIsDivision }
    ensures idiv_overflow { spec.IdivOverflows }
    ensures by_zero { spec.DivisionByZeroFaults }
{}

/// CDQ and CQO make RDX and RAX together the signed number of RAX (Intel manual, volume 2,
/// CWD/CDQ/CQO).
pub fn sign_extensions()
    ensures { spec.CdqKeepsSigned }
{}
