//! Instructions as they are written.

ghost use Rattle.std.specs.Prelude.{◌≡◌, ◌+◌, ◌++◌, ◌≤◌, ℕ, List, Some};
ghost use Rattle.arrayvec.specs.ArrayVec.{array_vec_len};
ghost use Rattle.seh_num.specs.declared.width.Width.TheVariants.{W32};
ghost use Rattle.seh_num.specs.Widths.{low};
ghost use Rattle.x64_encode.specs.Chosen as spec;
ghost use Rattle.x64_encode.specs.Chosen.{chosen, encoded_len, IsEncodable};
ghost use Rattle.x64_instr.specs.Families.{IsMove, IsComputation, IsMultiplyOrDivide, IsTransfer};
ghost use Rattle.x64_instr.specs.Spelling.{leading, IsEncoding};

use crate::opcodes::{
    condition_number, direction_opcode_extension, division_opcode_extension, extend_opcode,
    extend_width, opcode_extension, sized_opcode, unary_opcode_extension,
};
use crate::writing::{Opcode, is_signed, put_modrm, put_number, put_opcode_register};
use arrayvec::ArrayVec;
use seh_num::extension::zero_extend;
use seh_num::size::LONGEST_INSTRUCTION;
use seh_num::width::Width;
use x64_instr::instruction::{Count, Division, Instr, Operation, Target, Unary};
use x64_instr::operand::{Operand, RegisterOrMemory};
use x64_instr::prefixes::immediate_of;
use x64_instr::register::Reg;

/// An immediate, of at most 32 bits.
fn put_immediate(into: &mut ArrayVec<u8, LONGEST_INSTRUCTION>, width: Width, value: u64)
    requires { array_vec_len into.old + 4 ≤ LONGEST_INSTRUCTION }
    ensures items { into.new.items ≡ into.old.items ++ spec.immediate_bytes width value }
{
    let width = immediate_of(width);
    put_number(into, width.bytes(), zero_extend(width, value));
}

/// A displacement of 32 bits.
fn put_displacement(into: &mut ArrayVec<u8, LONGEST_INSTRUCTION>, displacement: u64)
    requires { array_vec_len into.old + 4 ≤ LONGEST_INSTRUCTION }
    ensures items { into.new.items ≡ into.old.items ++ spec.little 4 (low W32 displacement) }
{
    put_number(into, 4, displacement % (1 << 32));
}

fn encode_move_number(
    into: &mut ArrayVec<u8, LONGEST_INSTRUCTION>,
    width: Width,
    to: Reg,
    value: u64,
)
    ensures { into.new.items ≡ spec.move_bytes width to value }
{
    match width {
        Width::W8 => {
            put_modrm(
                into,
                width,
                Opcode::One(0xC6),
                0,
                RegisterOrMemory::Register(to),
            );
            put_immediate(into, width, value);
        }
        _ => {
            put_opcode_register(into, width, 0xB8, to);
            put_number(into, width.bytes(), value);
        }
    }
}

fn encode_move(
    into: &mut ArrayVec<u8, LONGEST_INSTRUCTION>,
    width: Width,
    to: RegisterOrMemory,
    from: Operand,
)
    requires { IsEncodable (Instr.Move width to from) }
    ensures { into.new.items ≡ chosen (Instr.Move width to from) }
{
    match (to, from) {
        (to, Operand::Register(from)) => {
            let opcode = Opcode::One(sized_opcode(width, 0x88));
            put_modrm(into, width, opcode, from.number(), to);
        }
        (RegisterOrMemory::Register(to), Operand::Memory(from)) => {
            let opcode = Opcode::One(sized_opcode(width, 0x8A));
            put_modrm(
                into,
                width,
                opcode,
                to.number(),
                RegisterOrMemory::Memory(from),
            );
        }
        (RegisterOrMemory::Register(to), Operand::Immediate(value)) => {
            encode_move_number(into, width, to, value);
        }
        (RegisterOrMemory::Memory(_), Operand::Immediate(value)) => {
            put_modrm(into, width, Opcode::One(sized_opcode(width, 0xC6)), 0, to);
            put_immediate(into, width, value);
        }
        (RegisterOrMemory::Memory(_), Operand::Memory(_)) => unreachable!(),
    }
}

fn encode_arithmetic_number(
    into: &mut ArrayVec<u8, LONGEST_INSTRUCTION>,
    operation: Operation,
    width: Width,
    to: RegisterOrMemory,
    value: u64,
)
    ensures { into.new.items ≡ spec.arithmetic_bytes operation width to value }
{
    let opcode_extension = opcode_extension(operation);
    if width == Width::W8 {
        put_modrm(into, width, Opcode::One(0x80), opcode_extension, to);
        put_immediate(into, width, value);
    } else if is_signed(Width::W8, width, value) {
        put_modrm(into, width, Opcode::One(0x83), opcode_extension, to);
        put_number(into, 1, value % (1 << 8));
    } else {
        put_modrm(into, width, Opcode::One(0x81), opcode_extension, to);
        put_immediate(into, width, value);
    }
}

fn encode_arithmetic(
    into: &mut ArrayVec<u8, LONGEST_INSTRUCTION>,
    operation: Operation,
    width: Width,
    to: RegisterOrMemory,
    from: Operand,
)
    requires { IsEncodable (Instr.Arithmetic operation width to from) }
    ensures { into.new.items ≡ chosen (Instr.Arithmetic operation width to from) }
{
    let base = 8 * opcode_extension(operation);
    match (to, from) {
        (to, Operand::Register(from)) => {
            let opcode = Opcode::One(sized_opcode(width, base));
            put_modrm(into, width, opcode, from.number(), to);
        }
        (to, Operand::Immediate(value)) => {
            encode_arithmetic_number(into, operation, width, to, value);
        }
        (RegisterOrMemory::Register(to), Operand::Memory(from)) => {
            let opcode = Opcode::One(sized_opcode(width, base + 2));
            put_modrm(
                into,
                width,
                opcode,
                to.number(),
                RegisterOrMemory::Memory(from),
            );
        }
        (RegisterOrMemory::Memory(_), Operand::Memory(_)) => unreachable!(),
    }
}

fn encode_test(
    into: &mut ArrayVec<u8, LONGEST_INSTRUCTION>,
    width: Width,
    first: RegisterOrMemory,
    second: Operand,
)
    requires { IsEncodable (Instr.Test width first second) }
    ensures { into.new.items ≡ chosen (Instr.Test width first second) }
{
    match second {
        Operand::Register(second) => {
            let opcode = Opcode::One(sized_opcode(width, 0x84));
            put_modrm(into, width, opcode, second.number(), first);
        }
        Operand::Immediate(value) => {
            put_modrm(
                into,
                width,
                Opcode::One(sized_opcode(width, 0xF6)),
                0,
                first,
            );
            put_immediate(into, width, value);
        }
        Operand::Memory(_) => unreachable!(),
    }
}

fn encode_multiply_by(
    into: &mut ArrayVec<u8, LONGEST_INSTRUCTION>,
    width: Width,
    to: Reg,
    from: RegisterOrMemory,
    by: u64,
)
    ensures { into.new.items ≡ spec.multiply_bytes width to from by }
{
    if is_signed(Width::W8, width, by) {
        put_modrm(into, width, Opcode::One(0x6B), to.number(), from);
        put_number(into, 1, by % (1 << 8));
    } else {
        put_modrm(into, width, Opcode::One(0x69), to.number(), from);
        put_immediate(into, width, by);
    }
}

fn encode_shift(
    into: &mut ArrayVec<u8, LONGEST_INSTRUCTION>,
    width: Width,
    opcode_extension: u8,
    to: RegisterOrMemory,
    by: Count,
)
    requires { opcode_extension ≤ 7 }
    ensures { into.new.items ≡ spec.count_bytes width opcode_extension to by }
{
    match by {
        Count::Immediate(number) => {
            put_modrm(into, width, Opcode::One(0xC1), opcode_extension, to);
            put_number(into, 1, number);
        }
        Count::Cl => put_modrm(into, width, Opcode::One(0xD3), opcode_extension, to),
    }
}

fn encode_jump(into: &mut ArrayVec<u8, LONGEST_INSTRUCTION>, to: Target)
    ensures { into.new.items ≡ chosen (Instr.Jump to) }
{
    match to {
        Target::Relative(displacement) => {
            into.clear();
            into.push(0xE9);
            put_displacement(into, displacement);
        }
        Target::Indirect(at) => put_modrm(into, Width::W32, Opcode::One(0xFF), 4, at),
    }
}

fn encode_call(into: &mut ArrayVec<u8, LONGEST_INSTRUCTION>, to: Target)
    ensures { into.new.items ≡ chosen (Instr.Call to) }
{
    match to {
        Target::Relative(displacement) => {
            into.clear();
            into.push(0xE8);
            put_displacement(into, displacement);
        }
        Target::Indirect(at) => put_modrm(into, Width::W32, Opcode::One(0xFF), 2, at),
    }
}

/// Bytes alone.
fn put_plain(into: &mut ArrayVec<u8, LONGEST_INSTRUCTION>, width: Width, opcode: u8)
    ensures { into.new.items ≡ spec.plain_bytes width opcode }
{
    into.clear();
    if width == Width::W64 {
        into.push(0x48);
    }
    into.push(opcode);
}

fn encode_unary(
    into: &mut ArrayVec<u8, LONGEST_INSTRUCTION>,
    operation: Unary,
    width: Width,
    to: RegisterOrMemory,
)
    ensures { into.new.items ≡ chosen (Instr.Unary operation width to) }
{
    let opcode = Opcode::One(sized_opcode(width, 0xF6));
    put_modrm(into, width, opcode, unary_opcode_extension(operation), to);
}

fn encode_divide(
    into: &mut ArrayVec<u8, LONGEST_INSTRUCTION>,
    division: Division,
    width: Width,
    by: RegisterOrMemory,
)
    ensures { into.new.items ≡ chosen (Instr.Divide division width by) }
{
    let extension = division_opcode_extension(division);
    put_modrm(into, width, Opcode::One(0xF7), extension, by);
}

/// An instruction that puts a value into a place.
fn put_move(instr: &Instr, into: &mut ArrayVec<u8, LONGEST_INSTRUCTION>)
    requires encodable { IsEncodable instr.now }
    requires family { IsMove instr.now }
    ensures { into.new.items ≡ chosen instr.now }
{
    match *instr {
        Instr::Move { width, to, from } => encode_move(into, width, to, from),
        Instr::Extend {
            extension,
            width,
            to,
            narrow,
            from,
        } => {
            let opcode = extend_opcode(extension, narrow);
            put_modrm(into, extend_width(width, narrow), opcode, to.number(), from);
        }
        Instr::LoadAddress { width, to, from } => {
            let place = RegisterOrMemory::Memory(from);
            put_modrm(into, width, Opcode::One(0x8D), to.number(), place);
        }
        Instr::ExtendRax { width } => put_plain(into, width, 0x99),
        Instr::Set { condition, to } => {
            let opcode = Opcode::Two(0x90 + condition_number(condition));
            put_modrm(into, Width::W8, opcode, 0, to);
        }
        _ => unreachable!(),
    }
}

/// An instruction that multiplies or divides.
fn put_multiply_or_divide(instr: &Instr, into: &mut ArrayVec<u8, LONGEST_INSTRUCTION>)
    requires encodable { IsEncodable instr.now }
    requires family { IsMultiplyOrDivide instr.now }
    ensures { into.new.items ≡ chosen instr.now }
{
    match *instr {
        Instr::Multiply { width, to, from } => {
            put_modrm(into, width, Opcode::Two(0xAF), to.number(), from);
        }
        Instr::MultiplyBy {
            width,
            to,
            from,
            by,
        } => encode_multiply_by(into, width, to, from, by),
        Instr::Divide {
            division,
            width,
            by,
        } => encode_divide(into, division, width, by),
        _ => unreachable!(),
    }
}

/// An instruction that computes with the value of a place.
fn put_computation(instr: &Instr, into: &mut ArrayVec<u8, LONGEST_INSTRUCTION>)
    requires encodable { IsEncodable instr.now }
    requires family { IsComputation instr.now }
    ensures { into.new.items ≡ chosen instr.now }
{
    match *instr {
        Instr::Arithmetic {
            operation,
            width,
            to,
            from,
        } => encode_arithmetic(into, operation, width, to, from),
        Instr::Test {
            width,
            first,
            second,
        } => encode_test(into, width, first, second),
        Instr::Unary {
            operation,
            width,
            to,
        } => encode_unary(into, operation, width, to),
        Instr::Shift {
            direction,
            width,
            to,
            by,
        } => encode_shift(into, width, direction_opcode_extension(direction), to, by),
        Instr::Multiply { .. } | Instr::MultiplyBy { .. } | Instr::Divide { .. } => {
            put_multiply_or_divide(instr, into)
        }
        _ => unreachable!(),
    }
}

/// An instruction that jumps, or takes the stack's top.
fn put_transfer(instr: &Instr, into: &mut ArrayVec<u8, LONGEST_INSTRUCTION>)
    requires encodable { IsEncodable instr.now }
    requires family { IsTransfer instr.now }
    ensures { into.new.items ≡ chosen instr.now }
{
    match *instr {
        Instr::JumpIf {
            condition,
            displacement,
        } => {
            into.clear();
            into.push(0x0F);
            into.push(0x80 + condition_number(condition));
            put_displacement(into, displacement);
        }
        Instr::Jump(to) => encode_jump(into, to),
        Instr::Call(to) => encode_call(into, to),
        Instr::Push(register) => put_opcode_register(into, Width::W32, 0x50, register),
        Instr::Pop(register) => put_opcode_register(into, Width::W32, 0x58, register),
        Instr::Return => put_plain(into, Width::W32, 0xC3),
        _ => unreachable!(),
    }
}

fn put_instr(instr: &Instr, into: &mut ArrayVec<u8, LONGEST_INSTRUCTION>)
    requires { IsEncodable instr.now }
    ensures { into.new.items ≡ chosen instr.now }
{
    match *instr {
        Instr::Move { .. }
        | Instr::Extend { .. }
        | Instr::LoadAddress { .. }
        | Instr::ExtendRax { .. }
        | Instr::Set { .. } => put_move(instr, into),
        Instr::Arithmetic { .. }
        | Instr::Test { .. }
        | Instr::Multiply { .. }
        | Instr::MultiplyBy { .. }
        | Instr::Unary { .. }
        | Instr::Divide { .. }
        | Instr::Shift { .. } => put_computation(instr, into),
        Instr::JumpIf { .. }
        | Instr::Jump(_)
        | Instr::Call(_)
        | Instr::Push(_)
        | Instr::Pop(_)
        | Instr::Return => put_transfer(instr, into),
        Instr::NoOperation => put_plain(into, Width::W32, 0x90),
        Instr::Breakpoint => put_plain(into, Width::W32, 0xCC),
        Instr::Undefined => {
            put_plain(into, Width::W32, 0x0F);
            into.push(0x0B);
        }
    }
}

/// Leaves the bytes of the instruction's chosen spelling, and no others.
pub fn encode(instr: &Instr, into: &mut ArrayVec<u8, LONGEST_INSTRUCTION>)
    requires { IsEncodable instr.now }
    ensures bytes { into.new.items ≡ chosen instr.now }
    ensures spelled { IsEncoding instr.now into.new.items }
{
    put_instr(instr, into);
}

/// What is encoded is decoded to the same instruction and length, whatever follows.
pub fn read_again()
    ensures { (i : Instr) (more : List ℕ) → IsEncodable i
        → leading (chosen i ++ more) ≡ Some (i, encoded_len i) }
{}

/// How many bytes an instruction takes at most.
pub fn longest()
    ensures { (i : Instr) → encoded_len i ≤ LONGEST_INSTRUCTION }
{}
