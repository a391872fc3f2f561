//! Frames.

use crate::context::AbiContext;

/// A language-specific handler, as an unwind info names it.
#[derive(Clone, Copy, Debug, PartialEq, Eq)]
pub struct Handler {
    /// What it is asked for: UNW_FLAG_EHANDLER, for a dispatch; UNW_FLAG_UHANDLER, for an unwind; or
    /// both.
    pub flags: u8,
    /// Its address relative to the image base.
    pub rva: u32,
}

/// A frame, and its caller's context.
#[derive(Clone, Copy, Debug, PartialEq, Eq)]
pub struct AbiCaller {
    /// The establisher frame.
    pub frame: u64,
    /// What the caller can rely on after the return.
    pub context: AbiContext,
    /// The handler that is asked: none in an epilogue, nor in the prologue of the function at the
    /// chain's end.
    pub handler: Option<Handler>,
}
