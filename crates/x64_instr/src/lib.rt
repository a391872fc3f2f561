//! Instructions of x64, and how they are read from their spellings.
//!
//! The instructions are those that the compiler writes and the machine runs. How they are spelled
//! is the Intel manual's (volume 2, chapter 2 "Instruction Format" and the pages of the
//! instructions) in 64-bit mode, with the prefixes 66 and REX alone. The crate x64_encode writes
//! them. No call takes memory.
//!
//! Proved: `decoding::decode` answers an instruction and its length exactly where the first bytes
//! spell it. Begin with `specs/Spelling.antt`, the table.
#![tactic(auto)]

pub mod decoding;
pub mod instruction;
mod opcode_map;
pub mod operand;
pub mod places;
pub mod prefixes;
pub mod reading;
pub mod register;
mod rows;
