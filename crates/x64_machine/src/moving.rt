//! What an instruction does that puts a value into a place (Intel manual, volume 2).

ghost use Rattle.std.specs.Prelude.{◌≡◌};
ghost use Rattle.x64_instr.specs.Families.{IsMove};
ghost use Rattle.x64_instr.specs.declared.instruction.Instr.TheVariants as instrs;
ghost use Rattle.x64_machine.specs.Effect as spec;
ghost use Rattle.x64_machine.specs.Effect.{LeavesMemory, cpu_after, done_of};

use crate::control::condition_byte;
use crate::cpu::Cpu;
use crate::operands::{operand, read, write};
use crate::outcome::Stop;
use seh_num::extension::{sign_extend, wrap, zero_extend};
use seh_num::width::Width;
use x64_instr::instruction::{Extension, Instr};
use x64_instr::operand::{Operand, RegisterOrMemory};
use x64_instr::register::Reg;
use x64_memory::space::AddressSpace;

/// Copies of the top bit of RAX.
fn sign_of_rax(width: Width, cpu: &Cpu) -> u64
    ensures { result ≡ spec.sign_of_rax width cpu.now }
{
    let low = zero_extend(width, cpu.register(Reg::Rax));
    if low < width.half() {
        0
    } else {
        (width.limit() - 1) as u64
    }
}

fn widened(extension: Extension, width: Width, narrow: Width, value: u64) -> u64
    ensures { result ≡ spec.widened extension width narrow value }
{
    match extension {
        Extension::Sign => wrap(width, i128::from(sign_extend(narrow, value))),
        Extension::Zero => zero_extend(narrow, value),
    }
}

/// MOV.
#[inline(always)]
pub(crate) fn move_operand<S: AddressSpace>(
    cpu: &mut Cpu,
    space: &mut S,
    width: Width,
    to: &RegisterOrMemory,
    from: &Operand,
) -> Result<(), Stop>
    ensures answer { result ≡ done_of (spec.effect
        (spec.state cpu.old (S.memory space.old)) (instrs.Move width to.now from.now)) }
    ensures cpu { cpu.new ≡ cpu_after cpu.old (spec.effect
        (spec.state cpu.old (S.memory space.old)) (instrs.Move width to.now from.now)) }
    ensures memory { LeavesMemory (S.memory space.old) (S.memory space.new) (spec.effect
        (spec.state cpu.old (S.memory space.old)) (instrs.Move width to.now from.now)) }
{
    let value = operand(cpu, space, width, from)?;
    write(cpu, space, width, to, value)
}

/// What an instruction does that puts a value into a place.
pub(crate) fn move_effect<S: AddressSpace>(
    cpu: &mut Cpu,
    space: &mut S,
    instr: &Instr,
) -> Result<(), Stop>
    requires { IsMove instr.now }
    ensures answer { result ≡ done_of
        (spec.effect (spec.state cpu.old (S.memory space.old)) instr.now) }
    ensures cpu { cpu.new ≡ cpu_after cpu.old
        (spec.effect (spec.state cpu.old (S.memory space.old)) instr.now) }
    ensures memory { LeavesMemory (S.memory space.old) (S.memory space.new)
        (spec.effect (spec.state cpu.old (S.memory space.old)) instr.now) }
{
    match instr {
        Instr::Move { width, to, from } => move_operand(cpu, space, *width, to, from),
        Instr::Extend {
            extension,
            width,
            to,
            narrow,
            from,
        } => {
            let value = read(cpu, space, *narrow, from)?;
            cpu.set_register(*width, *to, widened(*extension, *width, *narrow, value));
            Ok(())
        }
        Instr::LoadAddress { width, to, from } => {
            let address = cpu.address(from);
            cpu.set_register(*width, *to, address);
            Ok(())
        }
        Instr::ExtendRax { width } => {
            let sign = sign_of_rax(*width, cpu);
            cpu.set_register(*width, Reg::Rdx, sign);
            Ok(())
        }
        Instr::Set { condition, to } => {
            let value = condition_byte(cpu.flags, *condition);
            write(cpu, space, Width::W8, to, value)
        }
        _ => unreachable!(),
    }
}
