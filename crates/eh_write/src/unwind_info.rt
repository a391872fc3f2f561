//! Unwind infos to be written.

use arrayvec::ArrayVec;
use eh_tables::{MOST_SLOTS, RuntimeFunction, UnwindCode};

/// What follows the codes of an unwind info.
#[derive(Clone, Copy, Debug, PartialEq, Eq)]
pub enum Trailer {
    /// Nothing.
    Nothing,
    /// The address of a handler, which is asked in a search for a handler (UNW_FLAG_EHANDLER),
    /// while unwinding (UNW_FLAG_UHANDLER), or in both. Its data follow, as a scope table.
    Handler {
        /// Whether it is asked in a search.
        searching: bool,
        /// Whether it is asked while unwinding.
        unwinding: bool,
        /// Its address, relative to the image base.
        rva: u32,
    },
    /// The entry that it is chained to (UNW_FLAG_CHAININFO).
    Parent(RuntimeFunction),
}

/// An unwind info, UNWIND_INFO, to be written.
#[derive(Debug, Drop)]
pub struct UnwindInfo {
    /// How many bytes the prologue has.
    pub prologue_size: u8,
    /// The number of the frame register, where 0 means none.
    pub frame_register: u8,
    /// How many bytes the frame register lies above the base of the frame: a multiple of 16.
    pub frame_offset: u8,
    /// The codes, from the prologue's end to its begin.
    pub codes: ArrayVec<UnwindCode, MOST_SLOTS>,
    /// What follows them.
    pub trailer: Trailer,
}
