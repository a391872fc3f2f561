//! Numbers of a machine's widths, and what a run shows.
//!
//! Widths, the extensions between them and division are those of the Intel manual (volume 1,
//! "Numeric Data Types"; volume 2, MOVSX, MOVZX, DIV, IDIV) and of C's integer types as the
//! Microsoft compiler lays them out (C reference, "Storage of basic types"). No call takes memory.
//!
//! `specs/Answers.antt` has what definitions above do with answers and refusals.
//!
//! Proved: each function is its exact number (`specs/Widths.antt`, where to begin, and
//! `specs/Division.antt`).
#![tactic(auto)]

pub mod code;
pub mod division;
pub mod end;
pub mod event;
pub mod extension;
pub mod limit;
pub mod size;
pub mod steps;
pub mod width;
