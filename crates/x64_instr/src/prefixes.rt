ghost use Rattle.std.specs.Prelude.{◌≡◌, ◌<◌, ◌≤◌};
ghost use Rattle.seh_num.specs.Widths.{limit};
ghost use Rattle.x64_instr.specs.Operands as spec;

use crate::operand::{Index, RegisterOrMemory, Scale};
use crate::reading::bit;
use crate::register::Reg;
use seh_num::width::Width;

/// The prefixes that an instruction has (Intel manual, volume 2, "Instruction Prefixes" and "REX
/// Prefixes").
#[derive(Clone, Copy, Debug, PartialEq, Eq)]
pub struct Prefixes {
    /// Whether there is 66, the operand-size prefix.
    pub operand_size: bool,
    /// Whether there is REX.
    pub has_rex: bool,
    /// The bits W, R, X and B of REX, W the highest; 0 without REX.
    pub rex: u8,
}

impl Prefixes {
    /// The width of an operand that isn't a byte.
    pub(crate) fn width(self) -> Width
        ensures { result ≡ spec.width_of self }
    {
        if bit(3, self.rex) == 1 {
            Width::W64
        } else if self.operand_size {
            Width::W16
        } else {
            Width::W32
        }
    }

    /// The width of an operand where the opcode has a byte form too.
    pub(crate) fn sized(self, opcode: u8) -> Width
        ensures { result ≡ spec.sized self opcode }
    {
        if opcode % 2 == 0 {
            Width::W8
        } else {
            self.width()
        }
    }

    /// Whether an operand of this width means the place, and not AH, CH, DH or BH.
    pub(crate) fn lists(self, width: Width, place: RegisterOrMemory) -> bool
        ensures { result ≡ spec.is_listed self width place }
    {
        match (width, place) {
            (Width::W8, RegisterOrMemory::Register(register)) => self.has_rex
                || register.number() / 4 != 1,
            _ => true,
        }
    }

    /// The register of ModRM's reg field.
    pub(crate) fn register_of_reg_field(self, modrm: u8) -> Reg
        ensures { result ≡ spec.register_of_reg_field self modrm }
    {
        Reg::of(8 * bit(2, self.rex) + modrm / 8 % 8)
    }

    /// The register in the low three bits of ModRM, SIB or the opcode.
    pub fn register_of_low_bits(self, byte: u8) -> Reg
        ensures { result ≡ spec.register_of_low_bits self byte }
    {
        Reg::of(8 * bit(0, self.rex) + byte % 8)
    }

    /// The index of SIB.
    pub(crate) fn index_of_sib(self, sib: u8) -> Option<Index>
        ensures { result ≡ spec.index_of_sib self sib }
    {
        let number = 8 * bit(1, self.rex) + sib / 8 % 8;
        if number == 4 {
            return None;
        }
        let register = Reg::of(number);
        let scale = scale(sib / 64);
        Some(Index { register, scale })
    }
}

/// The width that is extended: 8 bits, or 16.
pub(crate) fn sized_narrow(opcode: u8) -> Width
    ensures { result ≡ spec.sized_narrow opcode }
{
    if opcode % 2 == 0 {
        Width::W8
    } else {
        Width::W16
    }
}

/// The width of an immediate at most.
pub fn immediate_of(width: Width) -> Width
    ensures value { result ≡ spec.immediate_of width }
    ensures most { limit result ≤ limit width }
{
    match width {
        Width::W8 => Width::W8,
        Width::W16 => Width::W16,
        _ => Width::W32,
    }
}

fn scale(number: u8) -> Scale
    ensures { result ≡ spec.scale number }
{
    match number {
        0 => Scale::One,
        1 => Scale::Two,
        2 => Scale::Four,
        _ => Scale::Eight,
    }
}
