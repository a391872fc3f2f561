//! Shifts.

ghost use Rattle.x64_laws.specs.Shifting as spec;

/// SHL leaves the product by 2 to the count, modulo the limit of the width, and SHR the floor of
/// the unsigned quotient. CF is the last bit moved out (Intel manual, volume 2, SAL/SAR/SHL/SHR).
pub fn shifts()
    ensures left { spec.ShlIsProduct }
    ensures right { spec.ShrIsQuotient }
    ensures arithmetic { spec.SarSetsFlags }
{}
