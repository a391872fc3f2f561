//! Rows at the edge of what counts: locals that weigh, the sixteenth vectored handler, what a
//! target has left, and a walk in a vectored handler.
//!
//! Proved by computation. Begin with `specs/Rows.antt`.
#![tactic(auto)]

pub mod laws;
