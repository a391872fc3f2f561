//! The parts of a spelling, written one after the other.

ghost use Rattle.std.specs.Prelude.{◌≡◌, ◌+◌, ◌%◌, ◌≤◌, ◌<◌, ◌++◌, []};
ghost use Rattle.arrayvec.specs.ArrayVec.{array_vec_len};
ghost use Rattle.seh_num.specs.declared.width.Width.TheVariants.{W8, W32};
ghost use Rattle.seh_num.specs.Widths.{low, bytes_of, limit, half};
ghost use Rattle.x64_encode.specs.Chosen as spec;

use arrayvec::ArrayVec;
use seh_num::size::LONGEST_INSTRUCTION;
use seh_num::width::Width;
use x64_instr::operand::{Base, Index, RegisterOrMemory, Scale};
use x64_instr::register::Reg;

/// An opcode, after the prefixes.
#[derive(Clone, Copy, Debug, PartialEq, Eq)]
pub enum Opcode {
    /// One byte.
    One(u8),
    /// 0F and one byte.
    Two(u8),
}

/// The low bytes of a number, little-endian.
pub(crate) fn put_number(into: &mut ArrayVec<u8, LONGEST_INSTRUCTION>, count: u64, value: u64)
    requires { array_vec_len into.old + count ≤ LONGEST_INSTRUCTION }
    ensures items { into.new.items ≡ into.old.items ++ spec.little count value }
{
    let mut rest = value;
    for _i in 0..count {
        into.push((rest % 256) as u8);
        rest /= 256;
    }
}

/// Whether a number of one width is the sign-extension of one of a narrower width.
pub(crate) fn is_signed(from: Width, to: Width, value: u64) -> bool
    ensures { result ≡ spec.is_signed from to value }
{
    let value = u128::from(value);
    let half = from.limit() / 2;
    value < half || (to.limit().saturating_sub(half) <= value && value < to.limit())
}

fn has_rex(width: Width, bits: u8) -> bool
    ensures { result ≡ spec.has_rex width bits }
{
    match width {
        Width::W8 => true,
        _ => bits != 0,
    }
}

fn wide(width: Width) -> u8
    ensures value { result ≡ spec.wide width }
    ensures small { result < 2 }
{
    match width {
        Width::W64 => 1,
        _ => 0,
    }
}

/// The prefixes of an instruction, into an empty list.
fn put_prefixes(into: &mut ArrayVec<u8, LONGEST_INSTRUCTION>, width: Width, bits: u8)
    requires { bits < 16 }
    ensures items { into.new.items ≡ spec.prefixes width bits }
    ensures len { array_vec_len into.new ≤ 2 }
{
    into.clear();
    if width == Width::W16 {
        into.push(0x66);
    }
    if has_rex(width, bits) {
        into.push(0x40 + bits);
    }
}

fn base_number(base: Base) -> u8
    ensures value { result ≡ spec.base_number base }
    ensures small { result < 16 }
{
    match base {
        Base::Register(register) => register.number(),
        _ => 5,
    }
}

fn index_number(index: Option<Index>) -> u8
    ensures value { result ≡ spec.index_number index }
    ensures small { result < 16 }
{
    match index {
        None => 4,
        Some(index) => index.register.number(),
    }
}

fn high_bits(place: RegisterOrMemory) -> u8
    ensures value { result ≡ spec.high_bits place }
    ensures small { result < 4 }
{
    match place {
        RegisterOrMemory::Register(register) => register.number() / 8,
        RegisterOrMemory::Memory(memory) => {
            2 * (index_number(memory.index) / 8) + base_number(memory.base) / 8
        }
    }
}

fn mode(displacement: u64) -> u8
    ensures value { result ≡ spec.mode displacement }
    ensures small { result < 3 }
{
    if is_signed(Width::W8, Width::W64, displacement) {
        1
    } else {
        2
    }
}

fn put_displacement(into: &mut ArrayVec<u8, LONGEST_INSTRUCTION>, displacement: u64)
    requires { array_vec_len into.old + 4 ≤ LONGEST_INSTRUCTION }
    ensures items { into.new.items ≡ into.old.items ++ spec.displacement displacement }
    ensures len { array_vec_len into.new ≤ array_vec_len into.old + 4 }
{
    if is_signed(Width::W8, Width::W64, displacement) {
        put_number(into, 1, displacement % (1 << 8));
    } else {
        put_number(into, 4, displacement % (1 << 32));
    }
}

fn scale_number(scale: Scale) -> u8
    ensures value { result ≡ spec.scale_number scale }
    ensures small { result < 4 }
{
    match scale {
        Scale::One => 0,
        Scale::Two => 1,
        Scale::Four => 2,
        Scale::Eight => 3,
    }
}

fn sib(index: Option<Index>, base: u8) -> u8
    requires { base < 8 }
    ensures { result ≡ spec.sib index base }
{
    match index {
        None => 8 * 4 + base,
        Some(index) => { 64 * scale_number(index.scale) + 8 * (index.register.number() % 8) + base }
    }
}

fn put_at_register(
    into: &mut ArrayVec<u8, LONGEST_INSTRUCTION>,
    reg: u8,
    base: Reg,
    index: Option<Index>,
    displacement: u64,
)
    requires reg { reg < 8 }
    requires room { array_vec_len into.old + 6 ≤ LONGEST_INSTRUCTION }
    ensures items { into.new.items
        ≡ into.old.items ++ spec.at_register reg base index displacement }
    ensures len { array_vec_len into.new ≤ array_vec_len into.old + 6 }
{
    let low = base.number() % 8;
    let mode = mode(displacement);
    if index.is_none() && low != 4 {
        into.push(64 * mode + 8 * reg + low);
    } else {
        into.push(64 * mode + 8 * reg + 4);
        into.push(sib(index, low));
    }
    put_displacement(into, displacement);
}

/// ModRM, SIB and displacement.
fn put_place(into: &mut ArrayVec<u8, LONGEST_INSTRUCTION>, reg: u8, place: RegisterOrMemory)
    requires reg { reg < 8 }
    requires room { array_vec_len into.old + 6 ≤ LONGEST_INSTRUCTION }
    ensures items { into.new.items ≡ into.old.items ++ spec.place_bytes reg place }
    ensures len { array_vec_len into.new ≤ array_vec_len into.old + 6 }
{
    let memory = match place {
        RegisterOrMemory::Register(register) => {
            into.push(64 * 3 + 8 * reg + register.number() % 8);
            return;
        }
        RegisterOrMemory::Memory(memory) => memory,
    };
    match memory.base {
        Base::Nothing => {
            into.push(8 * reg + 4);
            into.push(sib(memory.index, 5));
            put_number(into, 4, memory.displacement % (1 << 32));
        }
        Base::Rip => {
            into.push(8 * reg + 5);
            put_number(into, 4, memory.displacement % (1 << 32));
        }
        Base::Register(base) => {
            put_at_register(into, reg, base, memory.index, memory.displacement);
        }
    }
}

fn put_opcode(into: &mut ArrayVec<u8, LONGEST_INSTRUCTION>, opcode: Opcode)
    requires { array_vec_len into.old + 2 ≤ LONGEST_INSTRUCTION }
    ensures items { into.new.items ≡ into.old.items ++ spec.opcode_bytes opcode }
    ensures len { array_vec_len into.new ≤ array_vec_len into.old + 2 }
{
    match opcode {
        Opcode::One(byte) => into.push(byte),
        Opcode::Two(byte) => {
            into.push(0x0F);
            into.push(byte);
        }
    }
}

/// An opcode with ModRM, into an empty list: `reg` is the number of the register in the reg field,
/// or the opcode extension there.
#[tactic(auto, unfolding(crate::specs::Chosen::modrm))]
pub(crate) fn put_modrm(
    into: &mut ArrayVec<u8, LONGEST_INSTRUCTION>,
    width: Width,
    opcode: Opcode,
    reg: u8,
    place: RegisterOrMemory,
)
    requires { reg < 16 }
    ensures items { into.new.items ≡ spec.modrm width opcode reg place }
    ensures len { array_vec_len into.new ≤ 10 }
{
    let bits = 8 * wide(width) + 4 * (reg / 8) + high_bits(place);
    put_prefixes(into, width, bits);
    put_opcode(into, opcode);
    put_place(into, reg % 8, place);
}

/// An opcode with a register in its low three bits, into an empty list.
#[tactic(auto, unfolding(crate::specs::Chosen::opcode_register))]
pub(crate) fn put_opcode_register(
    into: &mut ArrayVec<u8, LONGEST_INSTRUCTION>,
    width: Width,
    opcode: u8,
    register: Reg,
)
    requires { opcode + 8 ≤ 256 }
    ensures items { into.new.items ≡ spec.opcode_register width opcode register }
    ensures len { array_vec_len into.new ≤ 3 }
{
    let number = register.number();
    put_prefixes(into, width, 8 * wide(width) + number / 8);
    into.push(opcode + number % 8);
}
