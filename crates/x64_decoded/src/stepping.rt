//! A step of the processor by the cache of decoded instructions.

ghost use Rattle.std.specs.Prelude.{◌≡◌, Some, is_ok};
ghost use Rattle.x64_machine.specs.Effect as spec;
ghost use Rattle.x64_machine.specs.Effect.{LeavesMemory};
ghost use Rattle.x64_decoded.specs.Caches.{IsCoherent};

use crate::cache::InstructionCache;
use host_layout::range::{HOST_PAGE_END, HOST_PAGE_START};
use x64_instr::instruction::Instr;
use x64_machine::cpu::Cpu;
use x64_machine::running::run;
use x64_memory::space::AddressSpace;

/// Runs an instruction of so many bytes at RIP, and answers whether it could be run. Else registers
/// and memory are as before.
#[inline(never)]
fn runs<S: AddressSpace>(cpu: &mut Cpu, space: &mut S, instr: &Instr, len: usize) -> bool
    ensures answer { result ≡ is_ok
        (spec.execute (spec.state cpu.old (S.memory space.old)) (Some (instr.now, len))) }
    ensures cpu { cpu.new ≡ spec.cpu_after cpu.old
        (spec.execute (spec.state cpu.old (S.memory space.old)) (Some (instr.now, len))) }
    ensures memory { LeavesMemory (S.memory space.old) (S.memory space.new)
        (spec.execute (spec.state cpu.old (S.memory space.old)) (Some (instr.now, len))) }
{
    match run(cpu, space, instr, len) {
        Ok(()) => true,
        Err(_) => false,
    }
}

/// One step of the processor where it runs an instruction, which is decoded anew only where it
/// isn't kept. False where the step does anything else, as it does in the host's page or at a
/// fault: registers and memory are then as before. The cache agrees with the memory after the step
/// and with the one before it.
#[tactic(auto, unfolding(x64_machine::specs::Effect::step))]
pub fn step<S: AddressSpace>(cpu: &mut Cpu, space: &mut S, cache: &mut InstructionCache) -> bool
    requires { IsCoherent (S.memory space.old) cache.old }
    ensures answer { result ≡ is_ok (spec.step (spec.state cpu.old (S.memory space.old))) }
    ensures cpu { cpu.new
        ≡ spec.cpu_after cpu.old (spec.step (spec.state cpu.old (S.memory space.old))) }
    ensures memory { LeavesMemory (S.memory space.old) (S.memory space.new)
        (spec.step (spec.state cpu.old (S.memory space.old))) }
    ensures after { IsCoherent (S.memory space.new) cache.new }
    ensures before { IsCoherent (S.memory space.old) cache.new }
{
    let at = cpu.rip;
    if HOST_PAGE_START <= at && at < HOST_PAGE_END {
        return false;
    }
    if let Some(entry) = cache.kept(at) {
        return runs(cpu, space, &entry.instr, entry.len);
    }
    match cache.read(space, at) {
        Some((instr, len)) => runs(cpu, space, &instr, len),
        None => false,
    }
}
