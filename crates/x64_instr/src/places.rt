//! Operands, read from the front of a slice (Intel manual, volume 2, "ModR/M and SIB Bytes" and
//! "RIP-Relative Addressing").

ghost use Rattle.std.specs.Prelude.{◌≡◌, ◌<◌, option_map, IfSome};
ghost use Rattle.x64_instr.specs.Operands as spec;

use crate::operand::{Base, Index, MemRef, Operand, RegisterOrMemory};
use crate::prefixes::Prefixes;
use crate::reading::{byte, signed};
use crate::register::Reg;
use seh_num::width::Width;

fn displaced(mode: u8, bytes: &[u8]) -> Option<(u64, &[u8])>
    ensures { option_map (λ x. (x.0, x.1.now)) result ≡ spec.displaced mode bytes.now }
{
    match mode {
        0 => Some((0, bytes)),
        1 => signed(Width::W8, Width::W64, bytes),
        _ => signed(Width::W32, Width::W64, bytes),
    }
}

fn memory(base: Base, index: Option<Index>, displacement: u64) -> RegisterOrMemory
    ensures { result ≡ spec.memory base index displacement }
{
    RegisterOrMemory::Memory(MemRef {
        base,
        index,
        displacement,
    })
}

fn sib_operand(
    prefixes: Prefixes,
    mode: u8,
    sib: u8,
    bytes: &[u8],
) -> Option<(RegisterOrMemory, &[u8])>
    ensures { option_map (λ x. (x.0, x.1.now)) result
        ≡ spec.sib_operand prefixes mode sib bytes.now }
{
    let index = prefixes.index_of_sib(sib);
    if mode == 0 && sib % 8 == 5 {
        let (displacement, rest) = signed(Width::W32, Width::W64, bytes)?;
        return Some((memory(Base::Nothing, index, displacement), rest));
    }
    let (displacement, rest) = displaced(mode, bytes)?;
    let base = Base::Register(prefixes.register_of_low_bits(sib));
    Some((memory(base, index, displacement), rest))
}

fn memory_operand(
    prefixes: Prefixes,
    mode: u8,
    low: u8,
    bytes: &[u8],
) -> Option<(RegisterOrMemory, &[u8])>
    ensures { option_map (λ x. (x.0, x.1.now)) result
        ≡ spec.memory_operand prefixes mode low bytes.now }
{
    if low == 4 {
        let (sib, rest) = byte(bytes)?;
        return sib_operand(prefixes, mode, sib, rest);
    }
    if mode == 0 && low == 5 {
        let (displacement, rest) = signed(Width::W32, Width::W64, bytes)?;
        return Some((memory(Base::Rip, None, displacement), rest));
    }
    let (displacement, rest) = displaced(mode, bytes)?;
    let base = Base::Register(prefixes.register_of_low_bits(low));
    Some((memory(base, None, displacement), rest))
}

/// The r/m operand of a ModRM byte, with SIB and displacement from the bytes after it, and the
/// bytes after those; none where they end too soon.
#[tactic(auto, unfolding(crate::specs::Operands::place))]
pub fn place(prefixes: Prefixes, modrm: u8, bytes: &[u8]) -> Option<(RegisterOrMemory, &[u8])>
    ensures { option_map (λ x. (x.0, x.1.now)) result ≡ spec.place prefixes modrm bytes.now }
{
    if modrm / 64 == 3 {
        return Some((
            RegisterOrMemory::Register(prefixes.register_of_low_bits(modrm)),
            bytes,
        ));
    }
    memory_operand(prefixes, modrm / 64, modrm % 8, bytes)
}

/// ModRM with a register in its reg field: the r/m operand first.
fn modrm_with_register(prefixes: Prefixes, bytes: &[u8]) -> Option<(RegisterOrMemory, Reg, &[u8])>
    ensures { option_map (λ x. ((x.0, x.1), x.2.now)) result
        ≡ spec.modrm_with_register prefixes bytes.now }
{
    let (modrm, rest) = byte(bytes)?;
    let (to, rest) = place(prefixes, modrm, rest)?;
    Some((to, prefixes.register_of_reg_field(modrm), rest))
}

/// ModRM with an opcode extension in its reg field.
fn modrm_with_opcode_extension(
    prefixes: Prefixes,
    bytes: &[u8],
) -> Option<(RegisterOrMemory, u8, &[u8])>
    ensures value { option_map (λ x. ((x.0, x.1), x.2.now)) result
        ≡ spec.modrm_with_opcode_extension prefixes bytes.now }
    ensures small { IfSome result (λ x. x.1 < 8) }
{
    let (modrm, rest) = byte(bytes)?;
    let (to, rest) = place(prefixes, modrm, rest)?;
    Some((to, modrm / 8 % 8, rest))
}

/// An r/m operand of one width and a register of another.
pub(crate) fn rm_and_register(
    prefixes: Prefixes,
    place_width: Width,
    register_width: Width,
    bytes: &[u8],
) -> Option<(RegisterOrMemory, Reg, &[u8])>
    ensures { option_map (λ x. ((x.0, x.1), x.2.now)) result
        ≡ spec.rm_and_register prefixes place_width register_width bytes.now }
{
    let (place, register, rest) = modrm_with_register(prefixes, bytes)?;
    let place_is = prefixes.lists(place_width, place);
    if place_is && prefixes.lists(register_width, RegisterOrMemory::Register(register)) {
        Some((place, register, rest))
    } else {
        None
    }
}

/// An r/m operand of a width, and an opcode extension.
pub(crate) fn rm_and_opcode_extension(
    prefixes: Prefixes,
    width: Width,
    bytes: &[u8],
) -> Option<(RegisterOrMemory, u8, &[u8])>
    ensures value { option_map (λ x. ((x.0, x.1), x.2.now)) result
        ≡ spec.rm_and_opcode_extension prefixes width bytes.now }
    ensures small { IfSome result (λ x. x.1 < 8) }
{
    let (place, opcode_extension, rest) = modrm_with_opcode_extension(prefixes, bytes)?;
    if prefixes.lists(width, place) {
        Some((place, opcode_extension, rest))
    } else {
        None
    }
}

/// What is read at a place.
pub(crate) fn source(place: RegisterOrMemory) -> Operand
    ensures { result ≡ spec.source place }
{
    match place {
        RegisterOrMemory::Register(register) => Operand::Register(register),
        RegisterOrMemory::Memory(memory) => Operand::Memory(memory),
    }
}
