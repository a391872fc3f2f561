ghost use Rattle.std.specs.Prelude.{◌≡◌, ◌≤◌, ◌<◌, IfOk, is_some, take};
ghost use Rattle.seh_num.specs.Widths.{limit};
ghost use Rattle.flat_memory.specs.Memory.{Memory, executable, loaded, stored, after_store, rights_asked, protected};

use flat_memory::access::RefusedAccess;
use seh_num::size::LONGEST_INSTRUCTION;
use seh_num::width::Width;

/// Memory that holds code. What it means is a map from addresses to a protection and a byte; every
/// method, here and in the traits that stand on this one, is an equation on that map.
pub trait CodeSpace {
    ghost memory: { Self → Memory };

    /// The executable bytes from an address on, as many as there are of fifteen, which is the
    /// length of the longest instruction (Intel manual, volume 2, "Instruction Format").
    fn fetch(&self, at: u64, into: &mut [u8; LONGEST_INSTRUCTION]) -> usize
        ensures count { result ≤ LONGEST_INSTRUCTION }
        ensures bytes { take result into.new
            ≡ executable (memory self.now) LONGEST_INSTRUCTION at };
}

/// Memory whose bytes may be read too: all that an unwinder asks of it.
pub trait ReadSpace: CodeSpace {
    /// The number at an address; refused by the first byte that may not be read.
    fn load(&self, at: u64, width: Width) -> Result<u64, RefusedAccess>
        ensures value { result ≡ loaded (Self.memory self.now) at width }
        ensures fits { IfOk result (λ v. v < limit width) };
}

/// A machine's memory. No method takes memory of the system.
pub trait AddressSpace: ReadSpace {
    /// Whether a number may be put at an address; refused by the first byte that may not be
    /// written.
    fn may_store(&self, at: u64, width: Width) -> Result<(), RefusedAccess>
        ensures { result ≡ stored (Self.memory self.now) at width };

    /// Puts the low bytes of a number at an address. A refusal, as of `may_store`, changes nothing.
    fn store(&mut self, at: u64, width: Width, value: u64) -> Result<(), RefusedAccess>
        ensures answer { result ≡ stored (Self.memory self.old) at width }
        ensures after { Self.memory self.new
            ≡ after_store (Self.memory self.old) at width value };

    /// Sets what may be done with the page of the arena that holds an address, by the number of the
    /// rights: none (0), reading (1), reading and writing (2). False, and nothing changed, exactly
    /// where the address is outside the arena or the number is another.
    fn protect(&mut self, at: u64, protection: i32) -> bool
        ensures answer { result ≡ is_some (rights_asked at protection) }
        ensures after { Self.memory self.new ≡ protected (Self.memory self.old) at protection };
}
