//! What an instruction does that multiplies or divides (Intel manual, volume 2, IMUL, DIV, IDIV).

ghost use Rattle.std.specs.Prelude.{◌≡◌};
ghost use Rattle.x64_instr.specs.Families.{IsMultiplyOrDivide};
ghost use Rattle.x64_machine.specs.Effect as spec;
ghost use Rattle.x64_machine.specs.Effect.{LeavesMemory, cpu_after, done_of};

use crate::cpu::Cpu;
use crate::dividing::{divide, join};
use crate::operands::read;
use crate::outcome::Stop;
use crate::words::multiply;
use seh_num::code::{INTEGER_DIVIDE_BY_ZERO, INTEGER_OVERFLOW};
use seh_num::division::DivFault;
use seh_num::extension::zero_extend;
use seh_num::width::Width;
use x64_instr::instruction::{Division, Instr};
use x64_instr::operand::RegisterOrMemory;
use x64_instr::register::Reg;
use x64_memory::space::AddressSpace;

fn product<S: AddressSpace>(
    cpu: &mut Cpu,
    space: &S,
    width: Width,
    to: Reg,
    from: &RegisterOrMemory,
) -> Result<(), Stop>
    ensures answer { result ≡ done_of
        (spec.multiply (spec.state cpu.old (S.memory space.now)) width to from.now) }
    ensures cpu { cpu.new ≡ cpu_after cpu.old
        (spec.multiply (spec.state cpu.old (S.memory space.now)) width to from.now) }
{
    let second = read(cpu, space, width, from)?;
    let first = zero_extend(width, cpu.register(to));
    let (value, flags) = multiply(width, first, second, cpu.flags);
    cpu.set_register(width, to, value);
    cpu.flags = flags;
    Ok(())
}

fn product_by<S: AddressSpace>(
    cpu: &mut Cpu,
    space: &S,
    width: Width,
    to: Reg,
    from: &RegisterOrMemory,
    by: u64,
) -> Result<(), Stop>
    ensures answer { result ≡ done_of
        (spec.multiply_by (spec.state cpu.old (S.memory space.now)) width to from.now by) }
    ensures cpu { cpu.new ≡ cpu_after cpu.old
        (spec.multiply_by (spec.state cpu.old (S.memory space.now)) width to from.now by) }
{
    let first = read(cpu, space, width, from)?;
    let (value, flags) = multiply(width, first, zero_extend(width, by), cpu.flags);
    cpu.set_register(width, to, value);
    cpu.flags = flags;
    Ok(())
}

fn division_stop(fault: DivFault) -> Stop
    ensures { result ≡ spec.division_stop fault }
{
    let code = match fault {
        DivFault::Zero => INTEGER_DIVIDE_BY_ZERO,
        DivFault::Overflow => INTEGER_OVERFLOW,
    };
    Stop::Fault { code, access: None }
}

fn quotient<S: AddressSpace>(
    cpu: &mut Cpu,
    space: &S,
    division: Division,
    width: Width,
    by: &RegisterOrMemory,
) -> Result<(), Stop>
    ensures answer { result ≡ done_of
        (spec.divide (spec.state cpu.old (S.memory space.now)) division width by.now) }
    ensures cpu { cpu.new ≡ cpu_after cpu.old
        (spec.divide (spec.state cpu.old (S.memory space.now)) division width by.now) }
{
    let divisor = read(cpu, space, width, by)?;
    let high = zero_extend(width, cpu.register(Reg::Rdx));
    let low = zero_extend(width, cpu.register(Reg::Rax));
    match divide(division, width, join(width, high, low), divisor) {
        Ok((quotient, remainder)) => {
            cpu.set_register(width, Reg::Rax, quotient);
            cpu.set_register(width, Reg::Rdx, remainder);
            Ok(())
        }
        Err(fault) => Err(division_stop(fault)),
    }
}

/// What an instruction does that multiplies or divides.
pub(crate) fn multiply_or_divide<S: AddressSpace>(
    cpu: &mut Cpu,
    space: &S,
    instr: &Instr,
) -> Result<(), Stop>
    requires { IsMultiplyOrDivide instr.now }
    ensures answer { result ≡ done_of
        (spec.effect (spec.state cpu.old (S.memory space.now)) instr.now) }
    ensures cpu { cpu.new ≡ cpu_after cpu.old
        (spec.effect (spec.state cpu.old (S.memory space.now)) instr.now) }
    ensures memory { LeavesMemory (S.memory space.now) (S.memory space.now)
        (spec.effect (spec.state cpu.old (S.memory space.now)) instr.now) }
{
    match instr {
        Instr::Multiply { width, to, from } => product(cpu, space, *width, *to, from),
        Instr::MultiplyBy {
            width,
            to,
            from,
            by,
        } => product_by(cpu, space, *width, *to, from, *by),
        Instr::Divide {
            division,
            width,
            by,
        } => quotient(cpu, space, *division, *width, by),
        _ => unreachable!(),
    }
}
