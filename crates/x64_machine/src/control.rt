//! The stack, jumps, calls and conditions (Intel manual, volume 1, "Control Transfer
//! Instructions").

ghost use Rattle.std.specs.Prelude.{◌≡◌};
ghost use Rattle.x64_instr.specs.Families.{IsTransfer};
ghost use Rattle.x64_machine.specs.Effect as spec;
ghost use Rattle.x64_machine.specs.Effect.{LeavesMemory, cpu_after, done_of};

use crate::cpu::{Cpu, Flags};
use crate::operands::{load, read, store};
use crate::outcome::Stop;
use seh_num::width::Width;
use x64_instr::instruction::{Condition, Instr, Target};
use x64_instr::register::Reg;
use x64_memory::space::AddressSpace;

#[tactic(auto, using(crate::proofs::Storing::storing))]
pub(crate) fn push<S: AddressSpace>(cpu: &mut Cpu, space: &mut S, value: u64) -> Result<(), Stop>
    ensures answer { result ≡ done_of
        (spec.push (spec.state cpu.old (S.memory space.old)) value) }
    ensures cpu { cpu.new ≡ cpu_after cpu.old
        (spec.push (spec.state cpu.old (S.memory space.old)) value) }
    ensures memory { LeavesMemory (S.memory space.old) (S.memory space.new)
        (spec.push (spec.state cpu.old (S.memory space.old)) value) }
{
    let at = cpu.register(Reg::Rsp).wrapping_sub(8);
    store(space, at, Width::W64, value)?;
    cpu.set_register(Width::W64, Reg::Rsp, at);
    Ok(())
}

/// The number at RSP, and the registers with RSP risen by 8.
pub fn pop<S: AddressSpace>(mut cpu: Cpu, space: &S) -> Result<(u64, Cpu), Stop>
    ensures { result ≡ spec.popped (spec.pop (spec.state cpu (S.memory space.now))) }
{
    let at = cpu.register(Reg::Rsp);
    let value = load(space, at, Width::W64)?;
    cpu.set_register(Width::W64, Reg::Rsp, at.wrapping_add(8));
    Ok((value, cpu))
}

pub(crate) fn relative(cpu: &Cpu, displacement: u64) -> u64
    ensures { result ≡ spec.relative cpu.now displacement }
{
    cpu.rip.wrapping_add(displacement)
}

pub(crate) fn target_of<S: AddressSpace>(cpu: &Cpu, space: &S, to: &Target) -> Result<u64, Stop>
    ensures { result ≡ spec.target_of (spec.state cpu.now (S.memory space.now)) to.now }
{
    match to {
        Target::Relative(displacement) => Ok(relative(cpu, *displacement)),
        Target::Indirect(at) => read(cpu, space, Width::W64, at),
    }
}

pub(crate) fn jump<S: AddressSpace>(cpu: &mut Cpu, space: &S, to: &Target) -> Result<(), Stop>
    ensures answer { result ≡ done_of
        (spec.jump (spec.state cpu.old (S.memory space.now)) to.now) }
    ensures cpu { cpu.new ≡ cpu_after cpu.old
        (spec.jump (spec.state cpu.old (S.memory space.now)) to.now) }
{
    let target = target_of(cpu, space, to)?;
    cpu.rip = target;
    Ok(())
}

pub(crate) fn jump_if(cpu: &mut Cpu, condition: Condition, displacement: u64)
    ensures { cpu.new ≡ spec.jumped cpu.old condition displacement }
{
    if cpu.flags.holds(condition) {
        cpu.rip = relative(cpu, displacement);
    }
}

pub(crate) fn condition_byte(flags: Flags, condition: Condition) -> u64
    ensures { result ≡ spec.condition_byte flags condition }
{
    if flags.holds(condition) { 1 } else { 0 }
}

pub(crate) fn call<S: AddressSpace>(cpu: &mut Cpu, space: &mut S, to: &Target) -> Result<(), Stop>
    ensures answer { result ≡ done_of
        (spec.call (spec.state cpu.old (S.memory space.old)) to.now) }
    ensures cpu { cpu.new ≡ cpu_after cpu.old
        (spec.call (spec.state cpu.old (S.memory space.old)) to.now) }
    ensures memory { LeavesMemory (S.memory space.old) (S.memory space.new)
        (spec.call (spec.state cpu.old (S.memory space.old)) to.now) }
{
    let target = target_of(cpu, space, to)?;
    push(cpu, space, cpu.rip)?;
    cpu.rip = target;
    Ok(())
}

/// What an instruction does that jumps, or takes the stack's top.
pub(crate) fn transfer_effect<S: AddressSpace>(
    cpu: &mut Cpu,
    space: &mut S,
    instr: &Instr,
) -> Result<(), Stop>
    requires { IsTransfer instr.now }
    ensures answer { result ≡ done_of
        (spec.effect (spec.state cpu.old (S.memory space.old)) instr.now) }
    ensures cpu { cpu.new ≡ cpu_after cpu.old
        (spec.effect (spec.state cpu.old (S.memory space.old)) instr.now) }
    ensures memory { LeavesMemory (S.memory space.old) (S.memory space.new)
        (spec.effect (spec.state cpu.old (S.memory space.old)) instr.now) }
{
    match instr {
        Instr::JumpIf {
            condition,
            displacement,
        } => {
            jump_if(cpu, *condition, *displacement);
            Ok(())
        }
        Instr::Jump(to) => jump(cpu, space, to),
        Instr::Call(to) => call(cpu, space, to),
        Instr::Push(from) => {
            let value = cpu.register(*from);
            push(cpu, space, value)
        }
        Instr::Pop(to) => {
            let at = cpu.register(Reg::Rsp);
            let value = load(space, at, Width::W64)?;
            cpu.set_register(Width::W64, Reg::Rsp, at.wrapping_add(8));
            cpu.set_register(Width::W64, *to, value);
            Ok(())
        }
        Instr::Return => {
            let at = cpu.register(Reg::Rsp);
            let value = load(space, at, Width::W64)?;
            cpu.set_register(Width::W64, Reg::Rsp, at.wrapping_add(8));
            cpu.rip = value;
            Ok(())
        }
        _ => unreachable!(),
    }
}
