//! Entries of a function table.

ghost use Rattle.std.specs.Prelude.{◌≡◌, ◌≤◌, ◌+◌, length};
ghost use Rattle.eh_tables.specs.Infos.{range_at};

use crate::layout::{BEGIN_ADDRESS, END_ADDRESS, RUNTIME_FUNCTION_SIZE, UNWIND_INFO_ADDRESS};
use pe_image::fields::u32_at;

/// An entry of a function table, RUNTIME_FUNCTION: the code from `begin` to before `end`, and where
/// its unwind info lies. All addresses are relative to the image base.
#[derive(Clone, Copy, Debug, PartialEq, Eq)]
pub struct RuntimeFunction {
    /// The first byte of the code.
    pub begin: u32,
    /// The byte after the code.
    pub end: u32,
    /// Its unwind info, at a multiple of 4.
    pub unwind_info: u32,
}

/// The entry at a place.
pub fn read_range(bytes: &[u8], at: usize) -> RuntimeFunction
    requires { at + RUNTIME_FUNCTION_SIZE ≤ length bytes.now }
    ensures { result ≡ range_at bytes.now at }
{
    RuntimeFunction {
        begin: u32_at(bytes, at + BEGIN_ADDRESS),
        end: u32_at(bytes, at + END_ADDRESS),
        unwind_info: u32_at(bytes, at + UNWIND_INFO_ADDRESS),
    }
}
