ghost use Rattle.std.specs.Prelude.{◌≡◌, Some};
ghost use Rattle.x64_machine.specs.Effect as spec;
ghost use Rattle.x64_machine.specs.Effect.{IsCpuOf, LeavesMemory, cpu_after, done_of};
ghost use Rattle.host_layout.specs.Services.{service_at};

use crate::cpu::Cpu;
use crate::effect::effect;
use crate::outcome::{StepOutcome, Stop};
use host_layout::range::{HOST_PAGE_END, HOST_PAGE_START};
use host_layout::service::Service;
use seh_num::size::LONGEST_INSTRUCTION;
use x64_instr::decoding::decode;
use x64_instr::instruction::Instr;
use x64_memory::space::AddressSpace;

fn refused(stop: Stop) -> StepOutcome
    ensures { result ≡ spec.step_of stop }
{
    match stop {
        Stop::Fault { code, access } => StepOutcome::Fault { code, access },
        Stop::Host { address } => StepOutcome::Host { address },
        Stop::Illegal => StepOutcome::Illegal,
        Stop::Guard { address } => StepOutcome::Guard { address },
    }
}

fn hosted(address: u64) -> Stop
    ensures { result ≡ spec.hosted address (service_at address) }
{
    match Service::at(address) {
        None | Some(Service::CSpecificHandler) => Stop::Illegal,
        Some(_) => Stop::Host { address },
    }
}

/// Runs an instruction of so many bytes at RIP. INT3 and UD2 can't be run. After a stop registers
/// and memory are as before.
#[inline(always)]
pub fn run<S: AddressSpace>(
    cpu: &mut Cpu,
    space: &mut S,
    instr: &Instr,
    len: usize,
) -> Result<(), Stop>
    ensures answer { result ≡ done_of
        (spec.execute (spec.state cpu.old (S.memory space.old)) (Some (instr.now, len))) }
    ensures cpu { cpu.new ≡ cpu_after cpu.old
        (spec.execute (spec.state cpu.old (S.memory space.old)) (Some (instr.now, len))) }
    ensures memory { LeavesMemory (S.memory space.old) (S.memory space.new)
        (spec.execute (spec.state cpu.old (S.memory space.old)) (Some (instr.now, len))) }
{
    let at = cpu.rip;
    cpu.rip = at.wrapping_add(len as u64);
    match effect(cpu, space, instr) {
        Ok(()) => Ok(()),
        Err(stop) => {
            cpu.rip = at;
            Err(stop)
        }
    }
}

/// The registers after an instruction of so many bytes at RIP, as `run` leaves them.
pub fn execute<S: AddressSpace>(
    cpu: Cpu,
    space: &mut S,
    instr: &Instr,
    len: usize,
) -> Result<Cpu, Stop>
    ensures answer { IsCpuOf result
        (spec.execute (spec.state cpu (S.memory space.old)) (Some (instr.now, len))) }
    ensures memory { LeavesMemory (S.memory space.old) (S.memory space.new)
        (spec.execute (spec.state cpu (S.memory space.old)) (Some (instr.now, len))) }
{
    let mut next = cpu;
    match run(&mut next, space, instr, len) {
        Ok(()) => Ok(next),
        Err(stop) => Err(stop),
    }
}

/// One step of the processor. In the host's page no instruction is fetched: the step says that the
/// host's service is due, or that there is none. After anything but `Next`, registers and memory
/// are as before.
#[tactic(auto, unfolding(crate::specs::Effect::step))]
pub fn step<S: AddressSpace>(cpu: &mut Cpu, space: &mut S) -> StepOutcome
    ensures answer { result
        ≡ spec.step_answer (spec.step (spec.state cpu.old (S.memory space.old))) }
    ensures cpu { cpu.new
        ≡ spec.cpu_after cpu.old (spec.step (spec.state cpu.old (S.memory space.old))) }
    ensures memory { LeavesMemory (S.memory space.old) (S.memory space.new)
        (spec.step (spec.state cpu.old (S.memory space.old))) }
{
    if HOST_PAGE_START <= cpu.rip && cpu.rip < HOST_PAGE_END {
        return refused(hosted(cpu.rip));
    }
    let mut bytes = [0; LONGEST_INSTRUCTION];
    let count = space.fetch(cpu.rip, &mut bytes);
    let Some((instr, len)) = decode(&bytes[..count]) else {
        return StepOutcome::Illegal;
    };
    match run(cpu, space, &instr, len) {
        Ok(()) => StepOutcome::Next,
        Err(stop) => refused(stop),
    }
}
