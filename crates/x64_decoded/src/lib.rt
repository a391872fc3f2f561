//! A cache of decoded instructions.
//!
//! An instruction is kept where no run of a program can change its bytes: outside the arena, whose
//! rights a program may set, and where no byte may be written. Proved: a step by the cache is a
//! step of the machine (crate x64_machine), and what is kept stays what memory holds. Begin with
//! `specs/Fixed.antt` and `specs/Caches.antt`, then `cache` and `stepping`.
#![tactic(auto)]

pub mod cache;
pub mod fixed;
pub mod instruction;
pub mod laws;
pub mod stepping;
