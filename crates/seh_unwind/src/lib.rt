//! Unwinding, frame by frame, to the frame that has accepted an exception or that a local unwind
//! names.
//!
//! Proved: `unwinding::unwind` is the walk of the definition, over the `__finally` blocks that are
//! asked, up to the target frame. Begin with `specs/Unwind.antt`.
#![tactic(auto)]

pub mod laws;
pub mod unwind_result;
pub mod unwinding;

pub use unwind_result::UnwindResult;
