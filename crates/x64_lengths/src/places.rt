//! ModRM, SIB and displacement, read from the front of a slice (Intel manual, volume 2, "ModR/M and
//! SIB Bytes" and "RIP-Relative Addressing").

ghost use Rattle.std.specs.Prelude.{◌≡◌, ◌<◌, ◌+◌, option_map, IfSome};
ghost use Rattle.x64_lengths.specs.Places as spec;

use x64_instr::operand::RegisterOrMemory;
use x64_instr::places::place;
use x64_instr::prefixes::Prefixes;
use x64_instr::reading::bit;
use x64_maps::cell::Form;

/// ModRM, as it is read.
#[derive(Clone, Copy, Debug, PartialEq, Eq)]
pub struct ModRm {
    /// The number in the reg field, with REX.R.
    pub reg: u8,
    /// The operand r/m.
    pub place: RegisterOrMemory,
}

fn allows(form: Form, mode: u8) -> bool
    ensures { result ≡ spec.allows form mode }
{
    match form {
        Form::Memory => mode != 3,
        Form::Register => mode == 3,
        _ => true,
    }
}

fn place_of(
    form: Form,
    prefixes: Prefixes,
    modrm: u8,
    bytes: &[u8],
) -> Option<(RegisterOrMemory, &[u8])>
    ensures { option_map (λ x. (x.0, x.1.now)) result
        ≡ spec.place_of form prefixes modrm bytes.now }
{
    match form {
        Form::AlwaysRegister => Some((
            RegisterOrMemory::Register(prefixes.register_of_low_bits(modrm)),
            bytes,
        )),
        _ => place(prefixes, modrm, bytes),
    }
}

/// The operands of ModRM, of which the first byte is read.
pub(crate) fn operands(
    form: Form,
    prefixes: Prefixes,
    modrm: u8,
    bytes: &[u8],
) -> Option<(ModRm, &[u8])>
    ensures value { option_map (λ x. (x.0, x.1.now)) result
        ≡ spec.operands form prefixes modrm bytes.now }
    ensures small { IfSome result (λ x. x.0.reg < 16) }
{
    if !allows(form, modrm / 64) {
        return None;
    }
    let (place, rest) = place_of(form, prefixes, modrm, bytes)?;
    let reg = 8 * bit(2, prefixes.rex) + modrm / 8 % 8;
    Some((ModRm { reg, place }, rest))
}
