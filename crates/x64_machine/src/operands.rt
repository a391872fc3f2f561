//! Registers and memory, as instructions read and write them.

ghost use Rattle.std.specs.Prelude.{◌≡◌, ◌<◌, ℕ, IfOk};
ghost use Rattle.seh_num.specs.Widths.{limit};
ghost use Rattle.flat_memory.specs.Memory.{stored, after_store};
ghost use Rattle.x64_machine.specs.Effect as spec;
ghost use Rattle.x64_machine.specs.Effect.{LeavesMemory, cpu_after, done_of};

use crate::cpu::{Cpu, Flags};
use crate::outcome::Stop;
use crate::words::merge;
use flat_memory::access::RefusedAccess;
use seh_num::code::ACCESS_VIOLATION;
use seh_num::extension::zero_extend;
use seh_num::width::Width;
use x64_instr::operand::{Base, MemRef, Operand, RegisterOrMemory, Scale};
use x64_instr::register::Reg;
use x64_memory::space::AddressSpace;

impl Cpu {
    /// The number in a register.
    pub fn register(&self, register: Reg) -> u64
        ensures { result ≡ spec.register self.now register }
    {
        self.registers[register.number() as usize]
    }

    /// Puts a number of a width into a register.
    pub fn set_register(&mut self, width: Width, register: Reg, value: u64)
        ensures { self.new ≡ spec.with_register width self.old register value }
    {
        let old = self.register(register);
        self.registers[register.number() as usize] = merge(width, old, value);
    }

    #[inline(always)]
    pub(crate) fn address(&self, place: &MemRef) -> u64
        ensures { result ≡ spec.address_of self.now place.now }
    {
        let base = match place.base {
            Base::Nothing => 0,
            Base::Rip => self.rip,
            Base::Register(register) => self.register(register),
        };
        let index = match &place.index {
            None => 0,
            Some(index) => self
                .register(index.register)
                .wrapping_mul(factor(index.scale)),
        };
        base.wrapping_add(index).wrapping_add(place.displacement)
    }
}

pub(crate) fn factor(scale: Scale) -> u64
    ensures { result ≡ spec.factor scale }
{
    match scale {
        Scale::One => 1,
        Scale::Two => 2,
        Scale::Four => 4,
        Scale::Eight => 8,
    }
}

pub(crate) fn refusal(access: RefusedAccess) -> Stop
    ensures { result ≡ spec.refusal access }
{
    match access {
        RefusedAccess::Fault { address, write } => Stop::Fault {
            code: ACCESS_VIOLATION,
            access: Some((write, address)),
        },
        RefusedAccess::Guard { address } => Stop::Guard { address },
    }
}

#[inline(always)]
pub(crate) fn load<S: AddressSpace>(space: &S, at: u64, width: Width) -> Result<u64, Stop>
    ensures value { result ≡ spec.load (S.memory space.now) at width }
    ensures fits { IfOk result (λ v. v < limit width) }
{
    match space.load(at, width) {
        Ok(value) => Ok(value),
        Err(access) => Err(refusal(access)),
    }
}

#[inline(always)]
pub(crate) fn store<S: AddressSpace>(
    space: &mut S,
    at: u64,
    width: Width,
    value: u64,
) -> Result<(), Stop>
    ensures answer { result ≡ spec.granted (stored (S.memory space.old) at width) }
    ensures after { S.memory space.new ≡ after_store (S.memory space.old) at width value }
{
    match space.store(at, width, value) {
        Ok(()) => Ok(()),
        Err(access) => Err(refusal(access)),
    }
}

#[inline(always)]
pub(crate) fn read<S: AddressSpace>(
    cpu: &Cpu,
    space: &S,
    width: Width,
    from: &RegisterOrMemory,
) -> Result<u64, Stop>
    ensures value { result ≡ spec.read (spec.state cpu.now (S.memory space.now)) width from.now }
    ensures fits { IfOk result (λ v. v < limit width) }
{
    match from {
        RegisterOrMemory::Register(register) => Ok(zero_extend(width, cpu.register(*register))),
        RegisterOrMemory::Memory(place) => load(space, cpu.address(place), width),
    }
}

#[inline(always)]
pub(crate) fn operand<S: AddressSpace>(
    cpu: &Cpu,
    space: &S,
    width: Width,
    from: &Operand,
) -> Result<u64, Stop>
    ensures value { result ≡ spec.operand (spec.state cpu.now (S.memory space.now)) width from.now }
    ensures fits { IfOk result (λ v. v < limit width) }
{
    match from {
        Operand::Register(register) => Ok(zero_extend(width, cpu.register(*register))),
        Operand::Memory(place) => load(space, cpu.address(place), width),
        Operand::Immediate(value) => Ok(zero_extend(width, *value)),
    }
}

#[tactic(auto, using(crate::proofs::Storing::storing))]
#[inline(always)]
pub(crate) fn write<S: AddressSpace>(
    cpu: &mut Cpu,
    space: &mut S,
    width: Width,
    to: &RegisterOrMemory,
    value: u64,
) -> Result<(), Stop>
    ensures answer { result ≡ done_of
        (spec.write (spec.state cpu.old (S.memory space.old)) width to.now value) }
    ensures cpu { cpu.new ≡ cpu_after cpu.old
        (spec.write (spec.state cpu.old (S.memory space.old)) width to.now value) }
    ensures memory { LeavesMemory (S.memory space.old) (S.memory space.new)
        (spec.write (spec.state cpu.old (S.memory space.old)) width to.now value) }
{
    match to {
        RegisterOrMemory::Register(register) => {
            cpu.set_register(width, *register, value);
            Ok(())
        }
        RegisterOrMemory::Memory(place) => {
            let at = cpu.address(place);
            store(space, at, width, value)
        }
    }
}

/// A result and its flags; neither where the place can't be written.
#[inline(always)]
#[tactic(auto, using(crate::proofs::Storing::storing))]
pub(crate) fn write_both<S: AddressSpace>(
    cpu: &mut Cpu,
    space: &mut S,
    width: Width,
    to: &RegisterOrMemory,
    value: u64,
    flags: Flags,
) -> Result<(), Stop>
    ensures answer { result ≡ done_of (spec.write
        (spec.with_flags (spec.state cpu.old (S.memory space.old)) flags) width to.now value) }
    ensures cpu { cpu.new ≡ cpu_after cpu.old (spec.write
        (spec.with_flags (spec.state cpu.old (S.memory space.old)) flags) width to.now value) }
    ensures memory { LeavesMemory (S.memory space.old) (S.memory space.new) (spec.write
        (spec.with_flags (spec.state cpu.old (S.memory space.old)) flags) width to.now value) }
{
    match to {
        RegisterOrMemory::Register(register) => cpu.set_register(width, *register, value),
        RegisterOrMemory::Memory(place) => {
            let at = cpu.address(place);
            store(space, at, width, value)?;
        }
    }
    cpu.flags = flags;
    Ok(())
}

#[inline(always)]
pub(crate) fn may_change<S: AddressSpace>(
    cpu: &Cpu,
    space: &S,
    width: Width,
    to: &RegisterOrMemory,
) -> Result<(), Stop>
    ensures { result ≡ spec.may_change (spec.state cpu.now (S.memory space.now)) width to.now }
{
    match to {
        RegisterOrMemory::Register(_) => Ok(()),
        RegisterOrMemory::Memory(place) => match space.may_store(cpu.address(place), width) {
            Ok(()) => Ok(()),
            Err(access) => Err(refusal(access)),
        },
    }
}
