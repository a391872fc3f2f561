//! Accesses to memory that is kept in pages: a page is looked up once for an access that lies in
//! it.

ghost use Rattle.std.specs.Prelude.{◌≡◌, ◌+◌, ◌*◌, ◌%◌, ◌≤◌, ◌^◌, ◌<◌, ℕ, true, false, None, Ok, IfOk, length, take, slice_index};
ghost use Rattle.seh_num.specs.Widths.{bytes_of, limit};
ghost use Rattle.flat_memory.specs.Memory.{Memory, with_bytes, with_number, loaded, stored, after_store, may_write, may_read, first_refused, number_at, refused, executable};
ghost use Rattle.byteorder.specs.Endian.{little_number};
ghost use Rattle.x64_memory.specs.Pages.{IsRestOfPage, readable_byte, number_or_refused};

use byteorder::{ByteOrder, LittleEndian};
use flat_memory::access::RefusedAccess;
use flat_memory::protection::Protection;
use host_layout::range::{GUARD_START, PAGE, STACK_START};
use seh_num::size::LONGEST_INSTRUCTION;
use seh_num::width::Width;

/// Memory that is kept in pages, which is read.
pub trait ReadPages {
    ghost memory: { Self → Memory };

    /// The protection at an address, and the bytes from there to the end of its page; none where no
    /// page is.
    fn rest_of_page(&self, at: u64) -> (Protection, &[u8])
        ensures { IsRestOfPage (memory self.now) at result.0 result.1.now };
}

/// Memory that is kept in pages, which is written too.
pub trait Paged: ReadPages {
    /// Puts the low bytes of a number into one page.
    fn put(&mut self, at: u64, width: Width, value: u64)
        requires within { at % PAGE + bytes_of width ≤ PAGE }
        requires may { may_write (Self.memory self.old) at ≡ true }
        ensures { Self.memory self.new ≡ with_bytes (Self.memory self.old)
            (with_number (Self.memory self.old).byte (bytes_of width) at value) };

    /// Puts the low bytes of a number at an address if they lie in one page that may be written.
    /// Else it answers false, and changes nothing.
    fn put_if(&mut self, at: u64, width: Width, value: u64) -> bool
        ensures granted { result ≡ true → stored (Self.memory self.old) at width ≡ Ok tt }
        ensures put { result ≡ true
            → Self.memory self.new ≡ after_store (Self.memory self.old) at width value }
        ensures kept { result ≡ false → Self.memory self.new ≡ Self.memory self.old };
}

fn refusal(write: bool, address: u64) -> RefusedAccess
    ensures { result ≡ refused write address }
{
    if GUARD_START <= address && address < STACK_START {
        RefusedAccess::Guard { address }
    } else {
        RefusedAccess::Fault { address, write }
    }
}

/// The number in the first bytes.
#[inline(always)]
fn little_number(bytes: &[u8], width: Width) -> u64
    requires { bytes_of width ≤ length bytes.now }
    ensures { result ≡ little_number (bytes_of width) bytes.now }
{
    match width {
        Width::W8 => u64::from(bytes[0]),
        Width::W16 => u64::from(LittleEndian::read_u16(bytes)),
        Width::W32 => u64::from(LittleEndian::read_u32(bytes)),
        Width::W64 => LittleEndian::read_u64(bytes),
    }
}

/// The byte at an address, where it may be read.
fn byte<P: ReadPages>(space: &P, at: u64) -> Option<u8>
    ensures { result ≡ readable_byte (P.memory space.now) at }
{
    let (protection, bytes) = space.rest_of_page(at);
    if !protection.rights.is_readable() {
        return None;
    }
    match bytes {
        [] => None,
        [first, ..] => Some(*first),
    }
}

/// The number at an address, or the first address that can't be read; byte by byte, over the ends
/// of pages.
#[cold]
#[inline(never)]
fn spread_number<P: ReadPages>(space: &P, at: u64, count: u64) -> Result<u64, u64>
    requires { count ≤ 8 }
    ensures value { result ≡ number_or_refused (P.memory space.now) count at }
    ensures small { IfOk result (λ v. v < 256 ^ count) }
{
    if count == 0 {
        return Ok(0);
    }
    match byte(space, at) {
        None => Err(at),
        Some(low) => match spread_number(space, at.wrapping_add(1), count - 1) {
            Err(address) => Err(address),
            Ok(high) => Ok(u64::from(low) + 256 * high),
        },
    }
}

/// The number at an address.
#[inline(always)]
pub fn load<P: ReadPages>(space: &P, at: u64, width: Width) -> Result<u64, RefusedAccess>
    ensures value { result ≡ loaded (P.memory space.now) at width }
    ensures fits { IfOk result (λ v. v < limit width) }
{
    let (protection, bytes) = space.rest_of_page(at);
    if (bytes.len() as u64) < width.bytes() {
        return match spread_number(space, at, width.bytes()) {
            Ok(value) => Ok(value),
            Err(address) => Err(refusal(false, address)),
        };
    }
    if !protection.rights.is_readable() {
        return Err(refusal(false, at));
    }
    Ok(little_number(bytes, width))
}

/// Whether the byte at an address may be written.
fn is_writable<P: ReadPages>(space: &P, at: u64) -> bool
    ensures { result ≡ may_write (P.memory space.now) at }
{
    let (protection, _) = space.rest_of_page(at);
    protection.rights.is_writable()
}

#[tactic(auto, using(crate::proofs::Steps::refused_steps))]
#[cold]
#[inline(never)]
/// The first of some addresses that can't be written.
fn first_unwritable<P: ReadPages>(space: &P, at: u64, count: u64) -> Option<u64>
    ensures { result ≡ first_refused (may_write (P.memory space.now)) count at }
{
    let mut here = at;
    for _i in 0..count {
        if !is_writable(space, here) {
            return Some(here);
        }
        here = here.wrapping_add(1);
    }
    None
}

/// Whether a number may be put at an address.
#[inline(always)]
pub fn may_store<P: ReadPages>(space: &P, at: u64, width: Width) -> Result<(), RefusedAccess>
    ensures { result ≡ stored (P.memory space.now) at width }
{
    let (protection, bytes) = space.rest_of_page(at);
    let within = width.bytes() <= bytes.len() as u64;
    if within && protection.rights.is_writable() {
        return Ok(());
    }
    match first_unwritable(space, at, width.bytes()) {
        Some(address) => Err(refusal(true, address)),
        None => Ok(()),
    }
}

/// Puts a number byte by byte, over the ends of pages.
fn spread_store<P: Paged>(space: &mut P, at: u64, count: u64, value: u64)
    requires few { count ≤ 8 }
    requires may { first_refused (may_write (P.memory space.old)) count at ≡ None }
    ensures { P.memory space.new
        ≡ with_bytes (P.memory space.old) (with_number (P.memory space.old).byte count at value) }
{
    let mut here = at;
    let mut rest = value;
    for _i in 0..count {
        space.put(here, Width::W8, rest);
        here = here.wrapping_add(1);
        rest /= 256;
    }
}

/// Puts the low bytes of a number at an address, byte by byte.
#[cold]
#[inline(never)]
fn store_apart<P: Paged>(
    space: &mut P,
    at: u64,
    width: Width,
    value: u64,
) -> Result<(), RefusedAccess>
    ensures answer { result ≡ stored (P.memory space.old) at width }
    ensures after { P.memory space.new ≡ after_store (P.memory space.old) at width value }
{
    may_store(space, at, width)?;
    spread_store(space, at, width.bytes(), value);
    Ok(())
}

/// Puts the low bytes of a number at an address.
#[inline(always)]
pub fn store<P: Paged>(
    space: &mut P,
    at: u64,
    width: Width,
    value: u64,
) -> Result<(), RefusedAccess>
    ensures answer { result ≡ stored (P.memory space.old) at width }
    ensures after { P.memory space.new ≡ after_store (P.memory space.old) at width value }
{
    if space.put_if(at, width, value) {
        return Ok(());
    }
    store_apart(space, at, width, value)
}

/// The executable bytes from an address on, as many as there are of the longest instruction.
pub fn fetch<P: ReadPages>(space: &P, at: u64, into: &mut [u8; LONGEST_INSTRUCTION]) -> usize
    ensures count { result ≤ LONGEST_INSTRUCTION }
    ensures bytes { take result into.new ≡ executable (P.memory space.now) LONGEST_INSTRUCTION at }
{
    let mut here = at;
    let mut filled: usize = 0;
    while filled < LONGEST_INSTRUCTION {
        let (protection, bytes) = space.rest_of_page(here);
        if !protection.execute {
            break;
        }
        let count = bytes.len().min(LONGEST_INSTRUCTION - filled);
        if count == 0 {
            break;
        }
        into[filled..filled + count].copy_from_slice(&bytes[..count]);
        filled += count;
        here = here.wrapping_add(count as u64);
    }
    filled
}
