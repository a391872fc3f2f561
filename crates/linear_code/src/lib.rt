//! Linear code: what the bodies of functions, filters and `__finally` blocks are made of before
//! they become bytes.
//!
//! A body works on slots of 8 bytes. An instruction reads slots, works on what it read, and puts
//! the result in a slot. What is read doesn't change while an exception of the instruction is
//! handled, so that an operation that is made again is made with the same operands.
//!
//! Begin with `instruction` and `program`; `specs/Program.antt` says which bodies there are.
#![tactic(auto)]

pub mod instruction;
pub mod program;
pub mod slot;
