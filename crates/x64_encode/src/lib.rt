//! The one spelling that is written of each instruction.
//!
//! Of the spellings that an instruction has, the chosen one has REX only where it says something,
//! displacements and immediates of one byte where that is enough, and jumps of 32 bits. No call
//! takes memory.
//!
//! Proved: what is written is spelled so and is read again as the same instruction, whatever
//! follows it; it has at most 15 bytes. Begin with `specs/Chosen.antt`.
#![tactic(auto)]

pub mod encodable;
pub mod encoding;
mod opcodes;
pub mod writing;
