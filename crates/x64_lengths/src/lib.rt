//! The length of each x64 instruction in 64-bit mode, the registers that it may write, and how the
//! flow goes on after it, by the opcode maps of the Intel manual (volume 2, appendix A). No call
//! takes memory.
//!
//! Proved: `measure::measure` answers what the maps say; no instruction begins another; and of each
//! instruction that crate x64_instr lists, the length is the same and no written general register
//! is left out. The maps (crate x64_maps) are data that code and definition both read. Begin with
//! `specs/Measures.antt`.
#![tactic(auto)]

pub mod agreement;
pub mod effects;
mod maps;
pub mod measure;
pub mod places;
pub mod spelled;
