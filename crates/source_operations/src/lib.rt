//! The operations of checked programs on numbers, and on the memory that a program begins with.
//!
//! `pure` has the results without faults, `performing` division, loads and stores, with their
//! faults, `data_stack` the variables that stand there, and `memory` the memory of a program's
//! globals.
//!
//! Proved: each is its definition (crates c_operations and source_meaning), with its faults. Begin
//! with
//! `pure`.
#![tactic(auto)]

pub mod data_stack;
pub mod memory;
pub mod performing;
pub mod pure;
pub mod reserved;
