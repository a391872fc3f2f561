//! The table of the opcodes, as it is read.

ghost use Rattle.std.specs.Prelude.{◌≡◌, ◌≤◌, option_map};
ghost use Rattle.seh_num.specs.Widths.{limit};
ghost use Rattle.seh_num.specs.declared.width.Width.TheVariants.{W64};
ghost use Rattle.x64_instr.specs.Operands.{width_of, sized};
ghost use Rattle.x64_instr.specs.Spelling as spec;

use crate::instruction::{Extension, Instr, Target};
use crate::operand::{Operand, RegisterOrMemory};
use crate::places::{rm_and_register, source};
use crate::prefixes::{Prefixes, immediate_of};
use crate::reading::{bit, signed};
use crate::rows::{
    arithmetic_row, extend_row, group_1, group_2_cl, group_2_immediate, group_3, group_5, group_11,
    jump_if, load_address, move_immediate, multiply_by, set_if,
};
use seh_num::width::Width;

/// TEST of a place with a register.
fn test(prefixes: Prefixes, opcode: u8, bytes: &[u8]) -> Option<(Instr, &[u8])>
    ensures { option_map (λ x. (x.0, x.1.now)) result
        ≡ spec.rm_r prefixes (sized prefixes opcode)
        (Instr.Test (sized prefixes opcode)) bytes.now }
{
    let width = prefixes.sized(opcode);
    let (first, second, rest) = rm_and_register(prefixes, width, width, bytes)?;
    let second = Operand::Register(second);
    Some((
        Instr::Test {
            width,
            first,
            second,
        },
        rest,
    ))
}

/// MOV of a register to a place.
fn store(prefixes: Prefixes, opcode: u8, bytes: &[u8]) -> Option<(Instr, &[u8])>
    ensures { option_map (λ x. (x.0, x.1.now)) result
        ≡ spec.rm_r prefixes (sized prefixes opcode)
        (Instr.Move (sized prefixes opcode)) bytes.now }
{
    let width = prefixes.sized(opcode);
    let (to, from, rest) = rm_and_register(prefixes, width, width, bytes)?;
    let from = Operand::Register(from);
    Some((Instr::Move { width, to, from }, rest))
}

/// MOV of a place to a register.
fn load(prefixes: Prefixes, width: Width, bytes: &[u8]) -> Option<(Instr, &[u8])>
    ensures { option_map (λ x. (x.0, x.1.now)) result
        ≡ spec.r_rm prefixes width width (spec.load width) bytes.now }
{
    let (from, to, rest) = rm_and_register(prefixes, width, width, bytes)?;
    let (to, from) = (RegisterOrMemory::Register(to), source(from));
    Some((Instr::Move { width, to, from }, rest))
}

/// MOVSXD.
fn sign_extend(prefixes: Prefixes, bytes: &[u8]) -> Option<(Instr, &[u8])>
    ensures { option_map (λ x. (x.0, x.1.now)) result ≡ spec.sign_extend prefixes bytes.now }
{
    if bit(3, prefixes.rex) != 1 {
        return None;
    }
    let (from, to, rest) = rm_and_register(prefixes, Width::W32, Width::W64, bytes)?;
    Some((
        Instr::Extend {
            extension: Extension::Sign,
            width: Width::W64,
            to,
            narrow: Width::W32,
            from,
        },
        rest,
    ))
}

fn multiply(prefixes: Prefixes, bytes: &[u8]) -> Option<(Instr, &[u8])>
    ensures { option_map (λ x. (x.0, x.1.now)) result
        ≡ spec.r_rm prefixes (width_of prefixes) (width_of prefixes)
        (Instr.Multiply (width_of prefixes)) bytes.now }
{
    let width = prefixes.width();
    let (from, to, rest) = rm_and_register(prefixes, width, width, bytes)?;
    Some((Instr::Multiply { width, to, from }, rest))
}

fn call(bytes: &[u8]) -> Option<(Instr, &[u8])>
    ensures { option_map (λ x. (x.0, x.1.now)) result ≡ spec.call bytes.now }
{
    let (displacement, rest) = signed(Width::W32, Width::W64, bytes)?;
    Some((Instr::Call(Target::Relative(displacement)), rest))
}

fn jump(from: Width, bytes: &[u8]) -> Option<(Instr, &[u8])>
    requires { limit from ≤ limit W64 }
    ensures { option_map (λ x. (x.0, x.1.now)) result ≡ spec.jump from bytes.now }
{
    let (displacement, rest) = signed(from, Width::W64, bytes)?;
    Some((Instr::Jump(Target::Relative(displacement)), rest))
}

/// The rows of one byte that have no 66.
#[tactic(auto, unfolding(crate::specs::Spelling::plain_row))]
fn plain_row(prefixes: Prefixes, opcode: u8, bytes: &[u8]) -> Option<(Instr, &[u8])>
    ensures { option_map (λ x. (x.0, x.1.now)) result ≡ spec.plain_row prefixes opcode bytes.now }
{
    let width = prefixes.width();
    match opcode {
        0x50..=0x57 => Some((Instr::Push(prefixes.register_of_low_bits(opcode)), bytes)),
        0x58..=0x5F => Some((Instr::Pop(prefixes.register_of_low_bits(opcode)), bytes)),
        0x63 => sign_extend(prefixes, bytes),
        0x69 => multiply_by(prefixes, immediate_of(width), bytes),
        0x6B => multiply_by(prefixes, Width::W8, bytes),
        0x70..=0x7F => jump_if(Width::W8, opcode, bytes),
        0x8D => load_address(prefixes, bytes),
        // With REX.B this would exchange R8 and RAX.
        0x90 if bit(0, prefixes.rex) == 1 => None,
        0x90 => Some((Instr::NoOperation, bytes)),
        0x99 => Some((Instr::ExtendRax { width }, bytes)),
        0xC1 => group_2_immediate(prefixes, width, bytes),
        0xC3 => Some((Instr::Return, bytes)),
        0xCC => Some((Instr::Breakpoint, bytes)),
        0xD3 => group_2_cl(prefixes, width, bytes),
        0xE8 => call(bytes),
        0xE9 => jump(Width::W32, bytes),
        0xEB => jump(Width::W8, bytes),
        0xFF => group_5(prefixes, bytes),
        _ => None,
    }
}

/// The table of the opcodes of one byte.
#[tactic(auto, unfolding(crate::specs::Spelling::row))]
pub(crate) fn row(prefixes: Prefixes, opcode: u8, bytes: &[u8]) -> Option<(Instr, &[u8])>
    ensures { option_map (λ x. (x.0, x.1.now)) result ≡ spec.row prefixes opcode bytes.now }
{
    let sized = prefixes.sized(opcode);
    match opcode {
        0x00..=0x3F => arithmetic_row(prefixes, opcode, bytes),
        0x80..=0x81 => group_1(prefixes, immediate_of(sized), sized, bytes),
        0x83 => group_1(prefixes, Width::W8, prefixes.width(), bytes),
        0x84..=0x85 => test(prefixes, opcode, bytes),
        0x88..=0x89 => store(prefixes, opcode, bytes),
        0x8A..=0x8B => load(prefixes, sized, bytes),
        0xB8..=0xBF => move_immediate(prefixes, opcode, bytes),
        0xC6..=0xC7 => group_11(prefixes, sized, bytes),
        0xF6..=0xF7 => {
            let divides = opcode == 0xF7 && !prefixes.operand_size;
            group_3(prefixes, divides, sized, bytes)
        }
        // The other rows have no 66.
        _ if prefixes.operand_size => None,
        _ => plain_row(prefixes, opcode, bytes),
    }
}

/// The table of the opcodes that begin with 0F, by their second byte.
#[tactic(auto, unfolding(crate::specs::Spelling::two_byte_row))]
pub(crate) fn two_byte_row(prefixes: Prefixes, opcode: u8, bytes: &[u8]) -> Option<(Instr, &[u8])>
    ensures { option_map (λ x. (x.0, x.1.now)) result
        ≡ spec.two_byte_row prefixes opcode bytes.now }
{
    if prefixes.operand_size {
        return None;
    }
    match opcode {
        0x0B => Some((Instr::Undefined, bytes)),
        0x80..=0x8F => jump_if(Width::W32, opcode, bytes),
        0x90..=0x9F => set_if(prefixes, opcode, bytes),
        0xAF => multiply(prefixes, bytes),
        _ => extend_row(prefixes, opcode, bytes),
    }
}
