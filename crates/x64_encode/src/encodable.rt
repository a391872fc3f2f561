//! Which instructions some bytes spell.

ghost use Rattle.std.specs.Prelude.{◌≡◌};
ghost use Rattle.x64_encode.specs.Chosen as spec;
ghost use Rattle.x64_instr.specs.Families.{IsMultiplyOrDivide};

use crate::writing::is_signed;
use seh_num::width::Width;
use x64_instr::instruction::{Count, Extension, Instr, Operation, Target};
use x64_instr::operand::{Base, Index, Operand, RegisterOrMemory};
use x64_instr::prefixes::immediate_of;
use x64_instr::register::Reg;

fn is_index(base: Base, index: Option<Index>) -> bool
    ensures { result ≡ spec.is_index base index }
{
    match (base, index) {
        (_, None) => true,
        (Base::Rip, Some(_)) => false,
        (_, Some(index)) => index.register != Reg::Rsp,
    }
}

fn is_place(place: RegisterOrMemory) -> bool
    ensures { result ≡ spec.is_place place }
{
    match place {
        RegisterOrMemory::Register(_) => true,
        RegisterOrMemory::Memory(memory) => {
            is_index(memory.base, memory.index)
                && is_signed(Width::W32, Width::W64, memory.displacement)
        }
    }
}

fn is_wide(width: Width) -> bool
    ensures { result ≡ spec.is_wide width }
{
    match width {
        Width::W32 | Width::W64 => true,
        _ => false,
    }
}

fn is_immediate(width: Width, value: u64) -> bool
    ensures { result ≡ spec.is_immediate width value }
{
    is_signed(immediate_of(width), width, value)
}

fn is_widened(extension: Extension, width: Width, narrow: Width) -> bool
    ensures { result ≡ spec.is_widened extension width narrow }
{
    match (extension, width, narrow) {
        (_, _, Width::W8 | Width::W16) => is_wide(width),
        (Extension::Sign, Width::W64, Width::W32) => true,
        _ => false,
    }
}

fn is_count(count: Count) -> bool
    ensures { result ≡ spec.is_count count }
{
    match count {
        Count::Immediate(number) => number < 1 << 8,
        Count::Cl => true,
    }
}

fn is_target(target: Target) -> bool
    ensures { result ≡ spec.is_target target }
{
    match target {
        Target::Relative(displacement) => is_signed(Width::W32, Width::W64, displacement),
        Target::Indirect(at) => is_place(at),
    }
}

fn is_move(width: Width, to: RegisterOrMemory, from: Operand) -> bool
    ensures { result ≡ spec.is_encodable (Instr.Move width to from) }
{
    match (to, from) {
        (to, Operand::Register(_)) => is_place(to),
        (RegisterOrMemory::Register(_), Operand::Memory(memory)) => is_place(
            RegisterOrMemory::Memory(memory),
        ),
        (RegisterOrMemory::Register(_), Operand::Immediate(value)) => u128::from(value)
            < width.limit(),
        (RegisterOrMemory::Memory(_), Operand::Immediate(value)) => is_place(to)
            && is_immediate(width, value),
        (RegisterOrMemory::Memory(_), Operand::Memory(_)) => false,
    }
}

fn is_arithmetic(operation: Operation, width: Width, to: RegisterOrMemory, from: Operand) -> bool
    ensures { result ≡ spec.is_encodable (Instr.Arithmetic operation width to from) }
{
    match (to, from) {
        (to, Operand::Register(_)) => is_place(to),
        (to, Operand::Immediate(value)) => is_place(to) && is_immediate(width, value),
        (RegisterOrMemory::Register(_), Operand::Memory(memory)) => is_place(
            RegisterOrMemory::Memory(memory),
        ),
        (RegisterOrMemory::Memory(_), Operand::Memory(_)) => false,
    }
}

fn is_test(width: Width, first: RegisterOrMemory, second: Operand) -> bool
    ensures { result ≡ spec.is_encodable (Instr.Test width first second) }
{
    match second {
        Operand::Register(_) => is_place(first),
        Operand::Immediate(value) => is_place(first) && is_immediate(width, value),
        Operand::Memory(_) => false,
    }
}

/// Of an instruction that multiplies or divides.
fn is_multiply_or_divide(instr: &Instr) -> bool
    requires { IsMultiplyOrDivide instr.now }
    ensures { result ≡ spec.is_encodable instr.now }
{
    match *instr {
        Instr::Multiply { width, from, .. } => is_wide(width) && is_place(from),
        Instr::MultiplyBy {
            width,
            from,
            by,
            ..
        } => is_wide(width) && (is_place(from) && is_immediate(width, by)),
        Instr::Divide { width, by, .. } => is_wide(width) && is_place(by),
        _ => unreachable!(),
    }
}

/// Whether some bytes spell the instruction.
pub fn is_encodable(instr: &Instr) -> bool
    ensures { result ≡ spec.is_encodable instr.now }
{
    match *instr {
        Instr::Move { width, to, from } => is_move(width, to, from),
        Instr::Extend {
            extension,
            width,
            narrow,
            from,
            ..
        } => is_widened(extension, width, narrow) && is_place(from),
        Instr::LoadAddress { width, from, .. } => is_wide(width)
            && is_place(RegisterOrMemory::Memory(from)),
        Instr::Arithmetic {
            operation,
            width,
            to,
            from,
        } => is_arithmetic(operation, width, to, from),
        Instr::Test {
            width,
            first,
            second,
        } => is_test(width, first, second),
        Instr::Multiply { .. } | Instr::MultiplyBy { .. } | Instr::Divide { .. } => {
            is_multiply_or_divide(instr)
        }
        Instr::Unary { to, .. } => is_place(to),
        Instr::ExtendRax { width } => is_wide(width),
        Instr::Shift { width, to, by, .. } => is_wide(width) && (is_place(to) && is_count(by)),
        Instr::Set { to, .. } => is_place(to),
        Instr::JumpIf { displacement, .. } => is_signed(Width::W32, Width::W64, displacement),
        Instr::Jump(to) | Instr::Call(to) => is_target(to),
        Instr::Push(_) | Instr::Pop(_) => true,
        Instr::Return | Instr::NoOperation | Instr::Breakpoint | Instr::Undefined => true,
    }
}
