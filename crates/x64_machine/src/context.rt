ghost use Rattle.std.specs.Prelude.{◌≡◌};
ghost use Rattle.x64_machine.specs.Contexts.{context_of};

use crate::cpu::Cpu;

/// What a caller can rely on (Microsoft x64 ABI, "Caller/callee saved registers"): RIP, RSP and the
/// other nonvolatile registers.
#[derive(Clone, Copy, Debug, PartialEq, Eq)]
pub struct Context {
    /// The address of the next instruction.
    pub rip: u64,
    /// RSP, RBX, RBP, RSI, RDI and R12 to R15.
    pub kept: [u64; 9],
}

impl Context {
    /// The context of a processor's state.
    pub fn of(cpu: &Cpu) -> Context
        ensures { result ≡ context_of cpu.now }
    {
        let r = &cpu.registers;
        Context {
            rip: cpu.rip,
            kept: [r[4], r[3], r[5], r[6], r[7], r[12], r[13], r[14], r[15]],
        }
    }
}
