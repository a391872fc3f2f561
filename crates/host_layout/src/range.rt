//! The ranges of memory (own): each from its start to below its end, in whole pages.

ghost use Rattle.std.specs.Prelude.{◌≡◌, ◌<◌, ◌^◌};
ghost use Rattle.host_layout.specs.Ranges as spec;

use crate::limit::MOST_IMAGE;

/// The bytes of a page of memory (Intel manual, volume 3, "Paging").
pub const PAGE: u64 = 4096;

/// The base of the images that seh writes, the usual one of 64-bit images (PE format, "Optional
/// Header Windows-Specific Fields").
pub const IMAGE_BASE: u64 = 0x1_4000_0000;
/// The end of the range that an image at that base may take.
pub const IMAGE_RANGE_END: u64 = IMAGE_BASE + MOST_IMAGE;

/// Where the globals begin in an image, counted from its base: after the page of its headers.
pub const DATA_AT: u64 = PAGE;
/// The first address of the globals.
pub const FIRST_DATA: u64 = IMAGE_BASE + DATA_AT;

/// The stack.
pub const STACK_START: u64 = 0x7000_0000;

pub const STACK_END: u64 = 0x7080_0000;

/// The stack pointer that a run begins with: the return address lies there, and between it and the
/// stack's end the 32 bytes that a caller keeps for the first four arguments (x64 conventions,
/// "Stack allocation").
pub const FIRST_STACK: u64 = STACK_END - 40;

/// The stack's guard, right below it: an access there ends the run.
pub const GUARD_START: u64 = 0x6FFF_0000;

/// The arena, whose pages begin with no rights, and whose rights a program may set.
pub const ARENA_START: u64 = 0x2000_0000;

pub const ARENA_END: u64 = 0x2010_0000;

/// The data stack: arrays of functions stand there, and their variables of which an address is
/// taken.
pub const DATA_STACK_START: u64 = 0x3000_0000;

pub const DATA_STACK_END: u64 = 0x3040_0000;

/// Where the first of them stand. The bytes before it are reserved: the first eight hold the data
/// stack's pointer, the address where those of the next function stand.
pub const FIRST_DATA_STACK: u64 = DATA_STACK_START + 16;

/// The page of the host, in which no instruction is fetched.
pub const HOST_PAGE_START: u64 = 0x7FF0_0000;

pub const HOST_PAGE_END: u64 = HOST_PAGE_START + PAGE;

/// A size in bytes, rounded up to whole pages.
pub fn pages(size: u64) -> u64
    requires { size < 2 ^ 63 }
    ensures { result ≡ spec.pages size }
{
    size.div_ceil(PAGE) * PAGE
}
