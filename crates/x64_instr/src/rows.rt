//! Rows of the table that have an immediate after their operands, and the groups whose instruction
//! is chosen by ModRM's reg field (Intel manual, volume 2, appendix A, table A-6).

ghost use Rattle.std.specs.Prelude.{◌≡◌, ◌≤◌, option_map};
ghost use Rattle.seh_num.specs.Widths.{limit};
ghost use Rattle.seh_num.specs.declared.width.Width.TheVariants.{W64};
ghost use Rattle.x64_instr.specs.Operands.{width_of};
ghost use Rattle.x64_instr.specs.Spelling as spec;

use crate::instruction::{
    Condition, Count, Direction, Division, Extension, Instr, Operation, Target, Unary,
};
use crate::operand::{Operand, RegisterOrMemory};
use crate::places::{rm_and_opcode_extension, rm_and_register, source};
use crate::prefixes::{Prefixes, immediate_of, sized_narrow};
use crate::reading::{byte, number, signed};
use seh_num::width::Width;

fn operation(number: u8) -> Option<Operation>
    ensures { result ≡ spec.operation number }
{
    match number {
        0 => Some(Operation::Add),
        1 => Some(Operation::Or),
        4 => Some(Operation::And),
        5 => Some(Operation::Sub),
        6 => Some(Operation::Xor),
        7 => Some(Operation::Compare),
        _ => None,
    }
}

fn direction(number: u8) -> Option<Direction>
    ensures { result ≡ spec.direction number }
{
    match number {
        4 => Some(Direction::Left),
        5 => Some(Direction::Right),
        7 => Some(Direction::ArithmeticRight),
        _ => None,
    }
}

fn condition(number: u8) -> Option<Condition>
    ensures { result ≡ spec.condition number }
{
    match number {
        0 => Some(Condition::Overflow),
        1 => Some(Condition::NotOverflow),
        2 => Some(Condition::Below),
        3 => Some(Condition::AboveOrEqual),
        4 => Some(Condition::Equal),
        5 => Some(Condition::NotEqual),
        6 => Some(Condition::BelowOrEqual),
        7 => Some(Condition::Above),
        8 => Some(Condition::Sign),
        9 => Some(Condition::NotSign),
        12 => Some(Condition::Less),
        13 => Some(Condition::GreaterOrEqual),
        14 => Some(Condition::LessOrEqual),
        15 => Some(Condition::Greater),
        _ => None,
    }
}

fn arithmetic_form(
    prefixes: Prefixes,
    operation: Operation,
    opcode: u8,
    bytes: &[u8],
) -> Option<(Instr, &[u8])>
    ensures { option_map (λ x. (x.0, x.1.now)) result
        ≡ spec.arithmetic_form prefixes operation opcode bytes.now }
{
    let width = prefixes.sized(opcode);
    let form = opcode % 8 / 2;
    if form > 1 {
        return None;
    }
    let (place, register, rest) = rm_and_register(prefixes, width, width, bytes)?;
    let (to, from) = if form == 0 {
        (place, Operand::Register(register))
    } else {
        (RegisterOrMemory::Register(register), source(place))
    };
    Some((
        Instr::Arithmetic {
            operation,
            width,
            to,
            from,
        },
        rest,
    ))
}

pub(crate) fn arithmetic_row(prefixes: Prefixes, opcode: u8, bytes: &[u8]) -> Option<(Instr, &[u8])>
    ensures { option_map (λ x. (x.0, x.1.now)) result
        ≡ spec.arithmetic_row prefixes opcode bytes.now }
{
    let operation = operation(opcode / 8)?;
    arithmetic_form(prefixes, operation, opcode, bytes)
}

pub(crate) fn group_1(
    prefixes: Prefixes,
    from: Width,
    width: Width,
    bytes: &[u8],
) -> Option<(Instr, &[u8])>
    requires { limit from ≤ limit width }
    ensures { option_map (λ x. (x.0, x.1.now)) result
        ≡ spec.rm_extension prefixes width (spec.group_1 from width) bytes.now }
{
    let (to, opcode_extension, rest) = rm_and_opcode_extension(prefixes, width, bytes)?;
    let operation = operation(opcode_extension)?;
    let (value, rest) = signed(from, width, rest)?;
    let from = Operand::Immediate(value);
    Some((
        Instr::Arithmetic {
            operation,
            width,
            to,
            from,
        },
        rest,
    ))
}

pub(crate) fn move_immediate(prefixes: Prefixes, opcode: u8, bytes: &[u8]) -> Option<(Instr, &[u8])>
    ensures { option_map (λ x. (x.0, x.1.now)) result
        ≡ spec.move_immediate prefixes opcode bytes.now }
{
    let width = prefixes.width();
    let (value, rest) = number(width.bytes(), bytes)?;
    let to = RegisterOrMemory::Register(prefixes.register_of_low_bits(opcode));
    let from = Operand::Immediate(value);
    Some((Instr::Move { width, to, from }, rest))
}

pub(crate) fn group_11(prefixes: Prefixes, width: Width, bytes: &[u8]) -> Option<(Instr, &[u8])>
    ensures { option_map (λ x. (x.0, x.1.now)) result
        ≡ spec.rm_extension prefixes width (spec.group_11 width) bytes.now }
{
    let (to, opcode_extension, rest) = rm_and_opcode_extension(prefixes, width, bytes)?;
    if opcode_extension != 0 {
        return None;
    }
    let (value, rest) = signed(immediate_of(width), width, rest)?;
    let from = Operand::Immediate(value);
    Some((Instr::Move { width, to, from }, rest))
}

fn test_immediate(width: Width, first: RegisterOrMemory, bytes: &[u8]) -> Option<(Instr, &[u8])>
    ensures { option_map (λ x. (x.0, x.1.now)) result ≡ spec.test_immediate width first bytes.now }
{
    let (value, rest) = signed(immediate_of(width), width, bytes)?;
    let second = Operand::Immediate(value);
    Some((
        Instr::Test {
            width,
            first,
            second,
        },
        rest,
    ))
}

fn unary(operation: Unary, width: Width, to: RegisterOrMemory) -> Instr
    ensures { result ≡ Instr.Unary operation width to }
{
    Instr::Unary {
        operation,
        width,
        to,
    }
}

fn divide(division: Division, width: Width, by: RegisterOrMemory) -> Instr
    ensures { result ≡ Instr.Divide division width by }
{
    Instr::Divide {
        division,
        width,
        by,
    }
}

pub(crate) fn group_3(
    prefixes: Prefixes,
    divides: bool,
    width: Width,
    bytes: &[u8],
) -> Option<(Instr, &[u8])>
    ensures { option_map (λ x. (x.0, x.1.now)) result
        ≡ spec.rm_extension prefixes width (spec.group_3 divides width) bytes.now }
{
    let (at, opcode_extension, rest) = rm_and_opcode_extension(prefixes, width, bytes)?;
    match opcode_extension {
        0 => test_immediate(width, at, rest),
        2 => Some((unary(Unary::Not, width, at), rest)),
        3 => Some((unary(Unary::Negate, width, at), rest)),
        6 if divides => Some((divide(Division::Unsigned, width, at), rest)),
        7 if divides => Some((divide(Division::Signed, width, at), rest)),
        _ => None,
    }
}

fn shift(direction: Direction, width: Width, to: RegisterOrMemory, by: Count) -> Instr
    ensures { result ≡ Instr.Shift direction width to by }
{
    Instr::Shift {
        direction,
        width,
        to,
        by,
    }
}

pub(crate) fn group_2_immediate(
    prefixes: Prefixes,
    width: Width,
    bytes: &[u8],
) -> Option<(Instr, &[u8])>
    ensures { option_map (λ x. (x.0, x.1.now)) result
        ≡ spec.rm_extension prefixes width (spec.group_2_immediate width) bytes.now }
{
    let (to, opcode_extension, rest) = rm_and_opcode_extension(prefixes, width, bytes)?;
    let direction = direction(opcode_extension)?;
    let (count, rest) = byte(rest)?;
    let by = Count::Immediate(u64::from(count));
    Some((shift(direction, width, to, by), rest))
}

pub(crate) fn group_2_cl(prefixes: Prefixes, width: Width, bytes: &[u8]) -> Option<(Instr, &[u8])>
    ensures { option_map (λ x. (x.0, x.1.now)) result
        ≡ spec.rm_extension prefixes width (spec.group_2_cl width) bytes.now }
{
    let (to, opcode_extension, rest) = rm_and_opcode_extension(prefixes, width, bytes)?;
    let direction = direction(opcode_extension)?;
    Some((shift(direction, width, to, Count::Cl), rest))
}

pub(crate) fn group_5(prefixes: Prefixes, bytes: &[u8]) -> Option<(Instr, &[u8])>
    ensures { option_map (λ x. (x.0, x.1.now)) result
        ≡ spec.rm_extension prefixes W64 spec.group_5 bytes.now }
{
    let (at, opcode_extension, rest) = rm_and_opcode_extension(prefixes, Width::W64, bytes)?;
    match opcode_extension {
        2 => Some((Instr::Call(Target::Indirect(at)), rest)),
        4 => Some((Instr::Jump(Target::Indirect(at)), rest)),
        _ => None,
    }
}

fn extend(
    extension: Extension,
    prefixes: Prefixes,
    opcode: u8,
    bytes: &[u8],
) -> Option<(Instr, &[u8])>
    ensures { option_map (λ x. (x.0, x.1.now)) result
        ≡ spec.extend extension prefixes opcode bytes.now }
{
    let (width, narrow) = (prefixes.width(), sized_narrow(opcode));
    let (from, to, rest) = rm_and_register(prefixes, narrow, width, bytes)?;
    Some((
        Instr::Extend {
            extension,
            width,
            to,
            narrow,
            from,
        },
        rest,
    ))
}

/// MOVZX and MOVSX.
pub(crate) fn extend_row(prefixes: Prefixes, opcode: u8, bytes: &[u8]) -> Option<(Instr, &[u8])>
    ensures { option_map (λ x. (x.0, x.1.now)) result ≡ spec.extend_row prefixes opcode bytes.now }
{
    match opcode {
        0xB6..=0xB7 => extend(Extension::Zero, prefixes, opcode, bytes),
        0xBE..=0xBF => extend(Extension::Sign, prefixes, opcode, bytes),
        _ => None,
    }
}

pub(crate) fn multiply_by(prefixes: Prefixes, from: Width, bytes: &[u8]) -> Option<(Instr, &[u8])>
    requires { limit from ≤ limit (width_of prefixes) }
    ensures { option_map (λ x. (x.0, x.1.now)) result ≡ spec.multiply_by prefixes from bytes.now }
{
    let width = prefixes.width();
    let (place, to, rest) = rm_and_register(prefixes, width, width, bytes)?;
    let (by, rest) = signed(from, width, rest)?;
    Some((
        Instr::MultiplyBy {
            width,
            to,
            from: place,
            by,
        },
        rest,
    ))
}

pub(crate) fn load_address(prefixes: Prefixes, bytes: &[u8]) -> Option<(Instr, &[u8])>
    ensures { option_map (λ x. (x.0, x.1.now)) result ≡ spec.load_address prefixes bytes.now }
{
    let width = prefixes.width();
    let (place, to, rest) = rm_and_register(prefixes, width, width, bytes)?;
    match place {
        RegisterOrMemory::Memory(from) => Some((Instr::LoadAddress { width, to, from }, rest)),
        RegisterOrMemory::Register(_) => None,
    }
}

pub(crate) fn jump_if(from: Width, opcode: u8, bytes: &[u8]) -> Option<(Instr, &[u8])>
    requires { limit from ≤ limit W64 }
    ensures { option_map (λ x. (x.0, x.1.now)) result ≡ spec.jump_if from opcode bytes.now }
{
    let condition = condition(opcode % 16)?;
    let (displacement, rest) = signed(from, Width::W64, bytes)?;
    Some((
        Instr::JumpIf {
            condition,
            displacement,
        },
        rest,
    ))
}

pub(crate) fn set_if(prefixes: Prefixes, opcode: u8, bytes: &[u8]) -> Option<(Instr, &[u8])>
    ensures { option_map (λ x. (x.0, x.1.now)) result ≡ spec.set_if prefixes opcode bytes.now }
{
    let condition = condition(opcode % 16)?;
    let (to, _, rest) = rm_and_opcode_extension(prefixes, Width::W8, bytes)?;
    Some((Instr::Set { condition, to }, rest))
}
