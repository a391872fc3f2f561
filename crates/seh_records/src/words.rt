//! Words in memory.

ghost use Rattle.std.specs.Prelude.{◌≡◌, ◌*◌, ◌≤◌, ◌<◌, ◌^◌, ℕ, None, length};
ghost use Rattle.flat_memory.specs.Memory.{first_refused, may_read, may_write, with_bytes};
ghost use Rattle.seh_records.specs.Words.{with_words};
ghost use Rattle.seh_records.specs.Words as spec;

use flat_memory::access::RefusedAccess;
use seh_num::width::Width;
use x64_memory::space::AddressSpace;

fn address(access: RefusedAccess) -> u64
    ensures { result ≡ spec.address access }
{
    match access {
        RefusedAccess::Fault { address, .. } => address,
        RefusedAccess::Guard { address } => address,
    }
}

/// The first byte of so many words from an address on that may not be written.
#[tactic(auto, using(crate::proofs::Runs::refused_steps))]
pub fn first_unwritable<S: AddressSpace>(space: &S, at: u64, count: u64) -> Option<u64>
    ensures { result ≡ first_refused (may_write (S.memory space.now)) (8 * count) at }
{
    let mut here = at;
    for _i in 0..count {
        if let Err(access) = space.may_store(here, Width::W64) {
            return Some(address(access));
        }
        here = here.wrapping_add(8);
    }
    None
}

/// The first byte of so many words from an address on that may not be read.
#[tactic(auto, using(crate::proofs::Runs::refused_steps))]
pub fn first_unreadable<S: AddressSpace>(space: &S, at: u64, count: u64) -> Option<u64>
    ensures { result ≡ first_refused (may_read (S.memory space.now)) (8 * count) at }
{
    let mut here = at;
    for _i in 0..count {
        if let Err(access) = space.load(here, Width::W64) {
            return Some(address(access));
        }
        here = here.wrapping_add(8);
    }
    None
}

/// Puts words from an address on.
pub fn put_words<S: AddressSpace>(space: &mut S, at: u64, words: &[u64])
    requires { first_refused (may_write (S.memory space.old)) (8 * length words.now) at ≡ None }
    ensures { S.memory space.new
        ≡ with_bytes (S.memory space.old) (with_words (S.memory space.old).byte at words.now) }
{
    let mut here = at;
    for word in words {
        let _ = space.store(here, Width::W64, *word);
        here = here.wrapping_add(8);
    }
}
