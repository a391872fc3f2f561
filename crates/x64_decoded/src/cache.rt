//! The cache of decoded instructions.

ghost use Rattle.std.specs.Prelude.{◌≡◌, Some, IfOk, IfSome, length};
ghost use Rattle.x64_decoded.specs.declared.cache.TheConstants.{ENTRIES};

use crate::fixed::are_fixed;
use crate::instruction::DecodedInstruction;
use seh_num::size::LONGEST_INSTRUCTION;
use std::alloc::{AllocError, Global};
use x64_instr::decoding::decode;
use x64_instr::instruction::Instr;
use x64_memory::space::{AddressSpace, CodeSpace};

/// How many instructions are kept at most.
pub const ENTRIES: usize = 8192;

/// Decoded instructions, each at the index that the low bits of its address are.
#[derive(Drop)]
pub struct InstructionCache {
    pub(crate) entries: Vec<Option<DecodedInstruction>>,
    ghost size: { length entries.items ≡ ENTRIES },
}

impl InstructionCache {
    ghost use Rattle.flat_memory.specs.Memory.{Memory, executable};
    ghost use Rattle.x64_instr.specs.Spelling.{leading};
    ghost use Rattle.x64_decoded.specs.Caches.{IsCoherent};

    /// An empty cache, which agrees with every memory. It alone takes memory of the system.
    pub fn new(alloc: Global) -> Result<InstructionCache, AllocError>
        ensures { IfOk result (λ c. (m : Memory) → IsCoherent m c) }
    {
        let mut entries = Vec::with_capacity(alloc, ENTRIES)?;
        for i in 0..ENTRIES {
            entries.push(None)?;
        }
        Ok(InstructionCache { entries })
    }

    /// The instruction that is kept of an address: the one that is read there in each memory that
    /// the cache agrees with.
    #[inline(always)]
    pub fn kept(&self, at: u64) -> Option<&DecodedInstruction>
        ensures { IfSome result (λ e. (m : Memory) → IsCoherent m self.now
            → leading (executable m LONGEST_INSTRUCTION at) ≡ Some (e.now.instr, e.now.len)) }
    {
        match &self.entries[(at % ENTRIES as u64) as usize] {
            Some(entry) if entry.at == at => Some(entry),
            _ => None,
        }
    }

    /// The instruction that is read at an address, with its length. It is kept, in place of an
    /// earlier one at its index, where no run of a program can change it.
    #[inline(never)]
    pub fn read<S: AddressSpace>(&mut self, space: &S, at: u64) -> Option<(Instr, usize)>
        requires { IsCoherent (S.memory space.now) self.old }
        ensures instruction { result
            ≡ leading (executable (S.memory space.now) LONGEST_INSTRUCTION at) }
        ensures coherent { IsCoherent (S.memory space.now) self.new }
    {
        let mut bytes = [0; LONGEST_INSTRUCTION];
        let count = space.fetch(at, &mut bytes);
        let Some((instr, len)) = decode(&bytes[..count]) else {
            return None;
        };
        if are_fixed(space, at) {
            let entry = DecodedInstruction { at, len, instr };
            self.entries[(at % ENTRIES as u64) as usize] = Some(entry);
        }
        Some((instr, len))
    }
}
