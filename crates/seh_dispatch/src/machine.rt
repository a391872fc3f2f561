//! What a run has beside its memory.

use vectored_list::VectoredList;
use x64_machine::cpu::Cpu;

/// The processor, and the vectored handlers that the host was given, by their addresses.
#[derive(Drop)]
pub struct HostedProcessor {
    /// Registers, RIP and flags.
    pub cpu: Cpu,
    /// The vectored handlers, in the order in which they are asked.
    pub handlers: VectoredList,
}
