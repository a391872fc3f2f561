//! Frames.

use x64_machine::context::Context;

/// A frame, and its caller's context.
#[derive(Clone, Copy, Debug, PartialEq, Eq)]
pub struct Caller {
    /// The establisher frame.
    pub frame: u64,
    /// What the caller can rely on after the return.
    pub context: Context,
    /// In the body of an entry that has one, the address of its handler.
    pub handler: Option<u32>,
    /// Whether it is in the body of an entry, whose scope records may then be asked.
    pub in_body: bool,
}
