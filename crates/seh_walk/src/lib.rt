//! The walk over frames: through the callers of frames, and past the host's three return addresses
//! by the dispatch records there; and the scope records that are asked at a frame.
//!
//! Proved: what a walk finds at a frame and which scope record is asked first are those of the
//! definitions, and RSP rises with each frame. Begin with `specs/Walk.antt` and
//! `specs/Asked.antt`.
#![tactic(auto)]

pub mod asked;
pub mod laws;
pub mod stop_cause;
pub mod walk;
