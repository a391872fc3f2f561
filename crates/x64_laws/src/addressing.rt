//! Addresses of operands in memory, and of jumps.

ghost use Rattle.x64_laws.specs.Addressing as spec;

/// An address is base, index times scale and signed displacement added, modulo 2 to the 64 (Intel
/// manual, volume 1, "Specifying an Offset"). LEA puts it into a register (volume 2, LEA).
pub fn addresses()
    ensures sums { spec.AddressesAreSums }
    ensures lea { spec.LeaPutsAddress }
{}

/// What is relative to RIP counts from the next instruction: an operand in memory (Intel manual,
/// volume 2, "RIP-Relative Addressing") and a jump (volume 2, JMP).
pub fn relative_addresses()
    ensures operands { spec.RipIsOfNext }
    ensures jumps { spec.JmpGoesFromNext }
{}
