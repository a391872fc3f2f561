//! How many instructions of linear code a part of a checked program is lowered to, and how many
//! locals its blocks need for codes and flags.
//!
//! `measured` counts a statement with all its parts at once, and keeps the sizes of the parts for
//! their lowering (`specs/Parts.antt`).
//!
//! Proved: each function is its definition in `specs/Sizes.antt`, where to begin.
#![tactic(auto)]

pub mod measured;
pub mod sizes;
pub mod statement_sizes;
pub mod sums;
