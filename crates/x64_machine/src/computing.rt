//! What an instruction does that computes with the value of a place (Intel manual, volume 2).

ghost use Rattle.std.specs.Prelude.{◌≡◌, ◌<◌};
ghost use Rattle.seh_num.specs.Widths.{limit};
ghost use Rattle.x64_instr.specs.Families.{IsComputation};
ghost use Rattle.x64_instr.specs.declared.operand.RegisterOrMemory.TheVariants as places;
ghost use Rattle.x64_machine.specs.Effect as spec;
ghost use Rattle.x64_machine.specs.Effect.{LeavesMemory, cpu_after, done_of};

use crate::cpu::{Cpu, Flags};
use crate::multiplying::multiply_or_divide;
use crate::operands::{may_change, operand, read, write_both};
use crate::outcome::Stop;
use crate::shifts::{count_of, shift, shift_flags};
use crate::words::{add, invert, logical, subtract};
use seh_num::extension::zero_extend;
use seh_num::width::Width;
use x64_instr::instruction::{Count, Direction, Instr, Operation, Unary};
use x64_instr::operand::{Operand, RegisterOrMemory};
use x64_instr::register::Reg;
use x64_memory::space::AddressSpace;

#[inline(always)]
fn computed(operation: Operation, width: Width, first: u64, second: u64) -> (u64, Flags)
    requires { second < limit width }
    ensures { result ≡ spec.computed operation width first second }
{
    match operation {
        Operation::Add => add(width, first, second),
        Operation::Or => logical(width, first | second),
        Operation::And => logical(width, first & second),
        Operation::Sub | Operation::Compare => subtract(width, first, second),
        Operation::Xor => logical(width, first ^ second),
    }
}

/// A register takes the result.
#[inline(always)]
fn change_register<S: AddressSpace>(
    cpu: &mut Cpu,
    space: &S,
    operation: Operation,
    width: Width,
    to: Reg,
    from: &Operand,
) -> Result<(), Stop>
    ensures answer { result ≡ done_of (spec.change
        (spec.state cpu.old (S.memory space.now)) operation width (places.Register to) from.now) }
    ensures cpu { cpu.new ≡ cpu_after cpu.old (spec.change
        (spec.state cpu.old (S.memory space.now)) operation width (places.Register to) from.now) }
    ensures memory { LeavesMemory (S.memory space.now) (S.memory space.now) (spec.change
        (spec.state cpu.old (S.memory space.now)) operation width (places.Register to) from.now) }
{
    let second = operand(cpu, space, width, from)?;
    let first = zero_extend(width, cpu.register(to));
    let (value, flags) = computed(operation, width, first, second);
    cpu.set_register(width, to, value);
    cpu.flags = flags;
    Ok(())
}

/// A place in memory takes the result.
fn change_memory<S: AddressSpace>(
    cpu: &mut Cpu,
    space: &mut S,
    operation: Operation,
    width: Width,
    to: &RegisterOrMemory,
    from: &Operand,
) -> Result<(), Stop>
    ensures answer { result ≡ done_of
        (spec.change (spec.state cpu.old (S.memory space.old)) operation width to.now from.now) }
    ensures cpu { cpu.new ≡ cpu_after cpu.old
        (spec.change (spec.state cpu.old (S.memory space.old)) operation width to.now from.now) }
    ensures memory { LeavesMemory (S.memory space.old) (S.memory space.new)
        (spec.change (spec.state cpu.old (S.memory space.old)) operation width to.now from.now) }
{
    let second = operand(cpu, space, width, from)?;
    may_change(cpu, space, width, to)?;
    let first = read(cpu, space, width, to)?;
    let (value, flags) = computed(operation, width, first, second);
    write_both(cpu, space, width, to, value, flags)
}

fn change<S: AddressSpace>(
    cpu: &mut Cpu,
    space: &mut S,
    operation: Operation,
    width: Width,
    to: &RegisterOrMemory,
    from: &Operand,
) -> Result<(), Stop>
    ensures answer { result ≡ done_of
        (spec.change (spec.state cpu.old (S.memory space.old)) operation width to.now from.now) }
    ensures cpu { cpu.new ≡ cpu_after cpu.old
        (spec.change (spec.state cpu.old (S.memory space.old)) operation width to.now from.now) }
    ensures memory { LeavesMemory (S.memory space.old) (S.memory space.new)
        (spec.change (spec.state cpu.old (S.memory space.old)) operation width to.now from.now) }
{
    match to {
        RegisterOrMemory::Register(register) => {
            change_register(cpu, space, operation, width, *register, from)
        }
        RegisterOrMemory::Memory(_) => change_memory(cpu, space, operation, width, to, from),
    }
}

/// The flags alone.
#[inline(always)]
fn compare<S: AddressSpace>(
    cpu: &mut Cpu,
    space: &S,
    operation: Operation,
    width: Width,
    first: &RegisterOrMemory,
    second: &Operand,
) -> Result<(), Stop>
    ensures answer { result ≡ done_of
        (spec.compare (spec.state cpu.old (S.memory space.now))
        operation width first.now second.now) }
    ensures cpu { cpu.new ≡ cpu_after cpu.old
        (spec.compare (spec.state cpu.old (S.memory space.now))
        operation width first.now second.now) }
    ensures memory { LeavesMemory (S.memory space.now) (S.memory space.now)
        (spec.compare (spec.state cpu.old (S.memory space.now))
        operation width first.now second.now) }
{
    let second = operand(cpu, space, width, second)?;
    let first = read(cpu, space, width, first)?;
    let (_, flags) = computed(operation, width, first, second);
    cpu.flags = flags;
    Ok(())
}

fn is_compare(operation: Operation) -> bool
    ensures { result ≡ spec.is_compare operation }
{
    match operation {
        Operation::Compare => true,
        _ => false,
    }
}

#[inline(always)]
pub(crate) fn arithmetic<S: AddressSpace>(
    cpu: &mut Cpu,
    space: &mut S,
    operation: Operation,
    width: Width,
    to: &RegisterOrMemory,
    from: &Operand,
) -> Result<(), Stop>
    ensures answer { result ≡ done_of
        (spec.arithmetic (spec.state cpu.old (S.memory space.old))
        operation width to.now from.now) }
    ensures cpu { cpu.new ≡ cpu_after cpu.old
        (spec.arithmetic (spec.state cpu.old (S.memory space.old))
        operation width to.now from.now) }
    ensures memory { LeavesMemory (S.memory space.old) (S.memory space.new)
        (spec.arithmetic (spec.state cpu.old (S.memory space.old))
        operation width to.now from.now) }
{
    if is_compare(operation) {
        compare(cpu, space, operation, width, to, from)
    } else {
        change(cpu, space, operation, width, to, from)
    }
}

fn unary_of(operation: Unary, width: Width, value: u64, flags: Flags) -> (u64, Flags)
    requires { value < limit width }
    ensures { result ≡ spec.unary_of operation width value flags }
{
    match operation {
        Unary::Not => (invert(width, value), flags),
        Unary::Negate => subtract(width, 0, value),
    }
}

fn unary<S: AddressSpace>(
    cpu: &mut Cpu,
    space: &mut S,
    operation: Unary,
    width: Width,
    to: &RegisterOrMemory,
) -> Result<(), Stop>
    ensures answer { result ≡ done_of
        (spec.unary (spec.state cpu.old (S.memory space.old)) operation width to.now) }
    ensures cpu { cpu.new ≡ cpu_after cpu.old
        (spec.unary (spec.state cpu.old (S.memory space.old)) operation width to.now) }
    ensures memory { LeavesMemory (S.memory space.old) (S.memory space.new)
        (spec.unary (spec.state cpu.old (S.memory space.old)) operation width to.now) }
{
    may_change(cpu, space, width, to)?;
    let old = read(cpu, space, width, to)?;
    let (value, flags) = unary_of(operation, width, old, cpu.flags);
    write_both(cpu, space, width, to, value, flags)
}

fn amount(cpu: &Cpu, count: Count) -> u64
    ensures { result ≡ spec.amount cpu.now count }
{
    match count {
        Count::Immediate(number) => number,
        Count::Cl => zero_extend(Width::W8, cpu.register(Reg::Rcx)),
    }
}

fn shift_by<S: AddressSpace>(
    cpu: &mut Cpu,
    space: &mut S,
    direction: Direction,
    width: Width,
    to: &RegisterOrMemory,
    count: u64,
) -> Result<(), Stop>
    requires { count < 64 }
    ensures answer { result ≡ done_of
        (spec.shift_by (spec.state cpu.old (S.memory space.old)) direction width to.now count) }
    ensures cpu { cpu.new ≡ cpu_after cpu.old
        (spec.shift_by (spec.state cpu.old (S.memory space.old)) direction width to.now count) }
    ensures memory { LeavesMemory (S.memory space.old) (S.memory space.new)
        (spec.shift_by (spec.state cpu.old (S.memory space.old)) direction width to.now count) }
{
    may_change(cpu, space, width, to)?;
    let old = read(cpu, space, width, to)?;
    let value = shift(direction, width, old, count);
    let flags = shift_flags(direction, width, old, count, cpu.flags);
    write_both(cpu, space, width, to, value, flags)
}

fn shift_by_count<S: AddressSpace>(
    cpu: &mut Cpu,
    space: &mut S,
    direction: Direction,
    width: Width,
    to: &RegisterOrMemory,
    by: Count,
) -> Result<(), Stop>
    ensures answer { result ≡ done_of
        (spec.shift (spec.state cpu.old (S.memory space.old)) direction width to.now by) }
    ensures cpu { cpu.new ≡ cpu_after cpu.old
        (spec.shift (spec.state cpu.old (S.memory space.old)) direction width to.now by) }
    ensures memory { LeavesMemory (S.memory space.old) (S.memory space.new)
        (spec.shift (spec.state cpu.old (S.memory space.old)) direction width to.now by) }
{
    let count = count_of(width, amount(cpu, by));
    shift_by(cpu, space, direction, width, to, count)
}

/// What an instruction does that computes with the value of a place.
pub(crate) fn computation_effect<S: AddressSpace>(
    cpu: &mut Cpu,
    space: &mut S,
    instr: &Instr,
) -> Result<(), Stop>
    requires { IsComputation instr.now }
    ensures answer { result ≡ done_of
        (spec.effect (spec.state cpu.old (S.memory space.old)) instr.now) }
    ensures cpu { cpu.new ≡ cpu_after cpu.old
        (spec.effect (spec.state cpu.old (S.memory space.old)) instr.now) }
    ensures memory { LeavesMemory (S.memory space.old) (S.memory space.new)
        (spec.effect (spec.state cpu.old (S.memory space.old)) instr.now) }
{
    match instr {
        Instr::Arithmetic {
            operation,
            width,
            to,
            from,
        } => arithmetic(cpu, space, *operation, *width, to, from),
        Instr::Test {
            width,
            first,
            second,
        } => compare(cpu, space, Operation::And, *width, first, second),
        Instr::Unary {
            operation,
            width,
            to,
        } => unary(cpu, space, *operation, *width, to),
        Instr::Shift {
            direction,
            width,
            to,
            by,
        } => shift_by_count(cpu, space, *direction, *width, to, *by),
        Instr::Multiply { .. } | Instr::MultiplyBy { .. } | Instr::Divide { .. } => {
            multiply_or_divide(cpu, space, instr)
        }
        _ => unreachable!(),
    }
}
