//! What holds of the linear code of every sound program, and of every configuration that it comes
//! to.
//!
//! Proved: no body of a program that is nested within the limits uses more than 1,000 words
//! (`bound_laws`); operands, arguments and callees of the instruction at hand are there, what waits
//! was left at a call, a fault or a local unwind, and every number has 64 bits (`type_laws`); what
//! lies after `__finally` blocks, around calls, at the ends of regions, where blocks and local
//! unwinds land, around and in cold parts, and in the flags of blocks (`place_laws`); that filters
//! and blocks leave locals in registers alone (`register_laws`). Begin with `specs/TypeLaws.antt`,
//! then `specs/Waiting.antt`.
#![tactic(auto)]

pub mod bound_laws;
pub mod place_laws;
pub mod register_laws;
pub mod type_laws;
