//! Operations on bits.

ghost use Rattle.x64_laws.specs.Logic as spec;

/// AND, OR, XOR and TEST work on each bit alone. CF and OF are cleared, ZF and SF set by the result
/// (Intel manual, volume 2, AND, OR, XOR and TEST). XOR of a register with itself leaves 0.
pub fn bitwise()
    ensures and { spec.AndIsBitwise }
    ensures or { spec.OrIsBitwise }
    ensures xor { spec.XorIsBitwise }
    ensures clear { spec.XorClears }
    ensures test { spec.TestIsBitwise }
{}

/// NOT turns each bit, and leaves the flags (Intel manual, volume 2, NOT).
pub fn complements()
    ensures { spec.NotIsComplement }
{}
