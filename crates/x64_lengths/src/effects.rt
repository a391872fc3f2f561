//! What an instruction may write, and how the flow goes on.

ghost use Rattle.std.specs.Prelude.{◌≡◌, ◌<◌, ◌≤◌, ◌^◌};
ghost use Rattle.x64_lengths.specs.Effects as spec;

use crate::places::ModRm;
use crate::spelled::{Extended, Kind, Map, Spelled};
use seh_num::width::Width;
use x64_instr::operand::RegisterOrMemory;
use x64_instr::reading::{bit, extended};
use x64_maps::cell::{Cell, Ending, Part, Vector};

/// How the flow goes on after an instruction. Displacements are from the next instruction, modulo 2
/// to the 64.
#[derive(Clone, Copy, Debug, PartialEq, Eq)]
pub enum Flow {
    /// With the next instruction.
    Next,
    /// With the next one or at the displacement.
    Conditional(u64),
    /// At the displacement.
    Jump(u64),
    /// At the displacement, and the next one's address is pushed.
    Call(u64),
    /// At the address on the stack.
    Return,
    /// At an address that is read.
    JumpIndirect,
    /// The same, and the next one's address is pushed.
    CallIndirect,
    /// Not at all.
    Stops,
}

/// What an instruction may write, and how the flow goes on.
#[derive(Clone, Copy, Debug, PartialEq, Eq)]
pub struct Effects {
    /// The general registers that it may write: bit r for register r.
    pub general: u32,
    /// The vector registers of which it may change the low 128 bits: bit r for register r.
    /// VZEROUPPER changes those above alone. Where it writes an MMX or a mask register, the vector
    /// register of the same number may be named.
    pub vectors: u32,
    pub flow: Flow,
    /// Its ModRM; none with EVEX or 67.
    pub modrm: Option<ModRm>,
}

/// The set of one register.
fn only(register: u8) -> u32
    requires { register < 32 }
    ensures { result ≡ 2 ^ register }
{
    1 << register
}

/// The register of a byte operand: without REX 4 to 7 are AH, CH, DH and BH.
fn byte_register(has_rex: bool, register: u8) -> u8
    requires { register < 16 }
    ensures value { result ≡ spec.byte_register has_rex register }
    ensures small { result < 16 }
{
    if has_rex || register / 4 != 1 {
        register
    } else {
        register - 4
    }
}

fn part(has_rex: bool, part: Part, register: u8) -> u32
    requires { register < 16 }
    ensures { result ≡ spec.part has_rex part register }
{
    match part {
        Part::Nothing => 0,
        Part::Byte => only(byte_register(has_rex, register)),
        Part::Whole => only(register),
    }
}

/// What is written of the place of ModRM.
fn place_part(has_rex: bool, written: Part, place: RegisterOrMemory) -> u32
    ensures { result ≡ spec.place_part has_rex written place }
{
    match place {
        RegisterOrMemory::Register(register) => part(has_rex, written, register.number()),
        RegisterOrMemory::Memory(_) => 0,
    }
}

/// What is written of the operands of ModRM.
fn modrm_part(has_rex: bool, cell: Cell, modrm: Option<ModRm>) -> u32
    requires { spec.IsSmall modrm }
    ensures { result ≡ spec.modrm_part has_rex cell modrm }
{
    match modrm {
        None => 0,
        Some(modrm) => place_part(has_rex, cell.rm, modrm.place)
            | part(has_rex, cell.reg, modrm.reg),
    }
}

/// NOP is 90 without REX.B.
fn is_no_operation(spelled: Spelled) -> bool
    ensures { result ≡ spec.is_no_operation spelled }
{
    spelled.map == Map::OneByte && spelled.opcode == 0x90 && bit(0, spelled.prefixes.rex) == 0
}

/// What is written of the register of vvvv.
fn vvvv_part(spelled: Spelled, cell: Cell) -> u32
    ensures { result ≡ spec.vvvv_part spelled cell }
{
    if cell.vvvv {
        only(spelled.extended.vvvv % 16)
    } else {
        0
    }
}

fn general(spelled: Spelled, cell: Cell, modrm: Option<ModRm>) -> u32
    requires { spec.IsSmall modrm }
    ensures { result ≡ spec.general spelled cell modrm }
{
    if is_no_operation(spelled) {
        return 0;
    }
    let has_rex = spelled.prefixes.has_rex;
    let low = 8 * bit(0, spelled.prefixes.rex) + spelled.opcode % 8;
    let counter = if cell.counted && spelled.is_repeated() {
        2
    } else {
        0
    };
    let operands = modrm_part(has_rex, cell, modrm) | part(has_rex, cell.low, low);
    cell.fixed | counter | operands | vvvv_part(spelled, cell)
}

/// The vector register of a number of 4 bits, with a further bit of EVEX.
fn vector(far: bool, number: u8) -> u32
    requires { number < 16 }
    ensures { result ≡ spec.vector far number }
{
    if far { only(number + 16) } else { only(number) }
}

fn place_vector(far: bool, place: RegisterOrMemory) -> u32
    ensures { result ≡ spec.place_vector far place }
{
    match place {
        RegisterOrMemory::Register(register) => vector(far, register.number()),
        RegisterOrMemory::Memory(_) => 0,
    }
}

fn modrm_vector(extended: Extended, written: Vector, modrm: ModRm) -> u32
    requires { modrm.reg < 16 }
    ensures { result ≡ spec.modrm_vector extended written modrm }
{
    match written {
        Vector::Reg => vector(extended.far_reg, modrm.reg),
        Vector::Rm => place_vector(extended.far_rm, modrm.place),
        Vector::RegAndVvvv => vector(extended.far_reg, modrm.reg) | only(extended.vvvv % 32),
        _ => 0,
    }
}

fn vectors(extended: Extended, written: Vector, modrm: Option<ModRm>) -> u32
    requires { spec.IsSmall modrm }
    ensures { result ≡ spec.vectors extended written modrm }
{
    match (written, modrm) {
        (Vector::All, _) => 0xFFFF_FFFF,
        (Vector::Xmm0, _) => 1,
        (Vector::Vvvv, _) => only(extended.vvvv % 32),
        (_, Some(modrm)) => modrm_vector(extended, written, modrm),
        _ => 0,
    }
}

/// ModRM, where its displacement is the address's: not scaled as in EVEX, nor of 32 bits by 67.
fn shown(spelled: Spelled, modrm: Option<ModRm>) -> Option<ModRm>
    ensures { result ≡ spec.shown spelled modrm }
{
    match spelled.extended.kind {
        Kind::Evex => None,
        _ if spelled.legacy.address_size => None,
        _ => modrm,
    }
}

/// An immediate of so many bytes as a displacement.
fn displacement(count: u64, value: u64) -> u64
    requires { value < 256 ^ count }
    ensures { result ≡ spec.displacement count value }
{
    match count {
        1 => extended(Width::W8, Width::W64, value),
        4 => extended(Width::W32, Width::W64, value),
        _ => value,
    }
}

fn flow_of(ending: Ending, count: u64, value: u64) -> Flow
    requires { value < 256 ^ count }
    ensures { result ≡ spec.flow_of ending count value }
{
    match ending {
        Ending::Next => Flow::Next,
        Ending::Conditional => Flow::Conditional(displacement(count, value)),
        Ending::Jump => Flow::Jump(displacement(count, value)),
        Ending::Call => Flow::Call(displacement(count, value)),
        Ending::Return => Flow::Return,
        Ending::JumpIndirect => Flow::JumpIndirect,
        Ending::CallIndirect => Flow::CallIndirect,
        Ending::Stops => Flow::Stops,
        Ending::Interrupt if value == 0x29 => Flow::Stops,
        Ending::Interrupt => Flow::Next,
    }
}

/// What a cell means with its operands, of which the immediate has so many bytes.
#[inline(always)]
pub(crate) fn effects_of(
    spelled: Spelled,
    cell: Cell,
    modrm: Option<ModRm>,
    count: u64,
    value: u64,
) -> Effects
    requires small { spec.IsSmall modrm }
    requires within { value < 256 ^ count }
    ensures { result ≡ spec.effects_of spelled cell modrm count value }
{
    Effects {
        general: general(spelled, cell, modrm),
        vectors: vectors(spelled.extended, cell.vector, modrm),
        flow: flow_of(cell.ending, count, value),
        modrm: shown(spelled, modrm),
    }
}
