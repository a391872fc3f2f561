//! Opcodes and digits, as they are written.

ghost use Rattle.std.specs.Prelude.{◌≡◌, ◌<◌, ◌≤◌};
ghost use Rattle.x64_encode.specs.Chosen as spec;

use crate::writing::Opcode;
use seh_num::width::Width;
use x64_instr::instruction::{Condition, Direction, Division, Extension, Operation, Unary};

/// An opcode that has a byte form, by its byte form.
pub(crate) fn sized_opcode(width: Width, opcode: u8) -> u8
    requires { opcode < 255 }
    ensures { result ≡ spec.sized_opcode width opcode }
{
    match width {
        Width::W8 => opcode,
        _ => opcode + 1,
    }
}

pub(crate) fn opcode_extension(operation: Operation) -> u8
    ensures value { result ≡ spec.opcode_extension operation }
    ensures small { result ≤ 7 }
{
    match operation {
        Operation::Add => 0,
        Operation::Or => 1,
        Operation::And => 4,
        Operation::Sub => 5,
        Operation::Xor => 6,
        Operation::Compare => 7,
    }
}

pub(crate) fn unary_opcode_extension(operation: Unary) -> u8
    ensures value { result ≡ spec.unary_opcode_extension operation }
    ensures small { result ≤ 7 }
{
    match operation {
        Unary::Not => 2,
        Unary::Negate => 3,
    }
}

pub(crate) fn division_opcode_extension(division: Division) -> u8
    ensures value { result ≡ spec.division_opcode_extension division }
    ensures small { result ≤ 7 }
{
    match division {
        Division::Unsigned => 6,
        Division::Signed => 7,
    }
}

pub(crate) fn direction_opcode_extension(direction: Direction) -> u8
    ensures value { result ≡ spec.direction_opcode_extension direction }
    ensures small { result ≤ 7 }
{
    match direction {
        Direction::Left => 4,
        Direction::Right => 5,
        Direction::ArithmeticRight => 7,
    }
}

pub(crate) fn condition_number(condition: Condition) -> u8
    ensures value { result ≡ spec.condition_number condition }
    ensures small { result < 16 }
{
    match condition {
        Condition::Overflow => 0,
        Condition::NotOverflow => 1,
        Condition::Below => 2,
        Condition::AboveOrEqual => 3,
        Condition::Equal => 4,
        Condition::NotEqual => 5,
        Condition::BelowOrEqual => 6,
        Condition::Above => 7,
        Condition::Sign => 8,
        Condition::NotSign => 9,
        Condition::Less => 12,
        Condition::GreaterOrEqual => 13,
        Condition::LessOrEqual => 14,
        Condition::Greater => 15,
    }
}

/// MOVZX and MOVSX by the width that is extended, else MOVSXD.
pub(crate) fn extend_opcode(extension: Extension, narrow: Width) -> Opcode
    ensures { result ≡ spec.extend_opcode extension narrow }
{
    match (extension, narrow) {
        (Extension::Zero, Width::W8) => Opcode::Two(0xB6),
        (Extension::Zero, Width::W16) => Opcode::Two(0xB7),
        (Extension::Sign, Width::W8) => Opcode::Two(0xBE),
        (Extension::Sign, Width::W16) => Opcode::Two(0xBF),
        _ => Opcode::One(0x63),
    }
}

/// The width by which the prefixes of an extension are written.
pub(crate) fn extend_width(width: Width, narrow: Width) -> Width
    ensures { result ≡ spec.extend_width width narrow }
{
    match (width, narrow) {
        (Width::W32, Width::W8) => Width::W8,
        _ => width,
    }
}
