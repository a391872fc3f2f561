//! The routines of an image that no entry of its function table covers: leaf functions and thunks
//! (Microsoft x64 ABI, "Unwind data for exception handling").
//!
//! A routine without an entry begins where uncovered code does, at the entry point, where a call
//! leads, at the handler of a scope record, or at an address that uncovered code takes. It ends at
//! the next beginning, the next range or the section's end. Begin with `specs/Routines.antt`.
#![tactic(auto)]

pub mod laws;
