//! What instructions on registers leave, as whole numbers.

ghost use Rattle.x64_laws.specs.Arithmetic as spec;

/// ADD and SUB leave the sum and the difference of the signed numbers, modulo the limit of the
/// width, with their flags (Intel manual, volume 2, ADD and SUB).
pub fn sums()
    ensures add { spec.AddIsSum }
    ensures sub { spec.SubIsDifference }
{}

/// IMUL of two registers, and of a register by an immediate, leaves the product of the signed
/// numbers, modulo the limit of the width. CF and OF are set exactly where the product doesn't fit
/// (Intel manual, volume 2, IMUL).
pub fn products()
    ensures two { spec.ImulIsProduct }
    ensures by { spec.ImulByIsProduct }
{}

/// NEG leaves the signed number taken from 0, modulo the limit of the width, with its flags (Intel
/// manual, volume 2, NEG).
pub fn negatives()
    ensures { spec.NegIsNegative }
{}

/// MOVSX and MOVSXD leave the signed number as it is, MOVZX the unsigned one, and none of them
/// changes the flags (Intel manual, volume 2, MOVSX and MOVZX).
pub fn extensions()
    ensures signed { spec.MovsxKeepsSigned }
    ensures unsigned { spec.MovzxKeepsUnsigned }
{}

/// SAR leaves the floor of the signed quotient by a power of two (Intel manual, volume 2,
/// SAL/SAR/SHL/SHR: "rounded toward negative infinity").
pub fn floors()
    ensures { spec.SarIsFloor }
{}
