//! What one instruction does.

ghost use Rattle.std.specs.Prelude.{◌≡◌};
ghost use Rattle.x64_machine.specs.Effect as spec;
ghost use Rattle.x64_machine.specs.Effect.{LeavesMemory, cpu_after, done_of};

use crate::computing::{arithmetic, computation_effect};
use crate::control::{jump, jump_if, transfer_effect};
use crate::cpu::Cpu;
use crate::moving::{move_effect, move_operand};
use crate::outcome::Stop;
use x64_instr::instruction::Instr;
use x64_memory::space::AddressSpace;

/// What an instruction does, where RIP is that of the next one. INT3 and UD2 can't be run.
#[inline(always)]
pub(crate) fn effect<S: AddressSpace>(
    cpu: &mut Cpu,
    space: &mut S,
    instr: &Instr,
) -> Result<(), Stop>
    ensures answer { result ≡ done_of
        (spec.effect (spec.state cpu.old (S.memory space.old)) instr.now) }
    ensures cpu { cpu.new ≡ cpu_after cpu.old
        (spec.effect (spec.state cpu.old (S.memory space.old)) instr.now) }
    ensures memory { LeavesMemory (S.memory space.old) (S.memory space.new)
        (spec.effect (spec.state cpu.old (S.memory space.old)) instr.now) }
{
    match instr {
        // The most frequent kinds are told apart at once.
        Instr::Move { width, to, from } => move_operand(cpu, space, *width, to, from),
        Instr::Arithmetic {
            operation,
            width,
            to,
            from,
        } => arithmetic(cpu, space, *operation, *width, to, from),
        Instr::JumpIf {
            condition,
            displacement,
        } => {
            jump_if(cpu, *condition, *displacement);
            Ok(())
        }
        Instr::Jump(to) => jump(cpu, space, to),
        Instr::Extend { .. }
        | Instr::LoadAddress { .. }
        | Instr::ExtendRax { .. }
        | Instr::Set { .. } => move_effect(cpu, space, instr),
        Instr::Test { .. }
        | Instr::Multiply { .. }
        | Instr::MultiplyBy { .. }
        | Instr::Unary { .. }
        | Instr::Divide { .. }
        | Instr::Shift { .. } => computation_effect(cpu, space, instr),
        Instr::Call(_) | Instr::Push(_) | Instr::Pop(_) | Instr::Return => transfer_effect(
            cpu, space, instr,
        ),
        Instr::NoOperation => Ok(()),
        Instr::Breakpoint | Instr::Undefined => Err(Stop::Illegal),
    }
}
