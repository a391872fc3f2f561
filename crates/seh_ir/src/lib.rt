//! From checked programs to linear code.
//!
//! `lower::lower` makes the linear code that `specs/Lowered` defines by recursion on the program.
//! Expressions are lowered by the crate lowering_expressions.
//!
//! Proved: exactly that linear code. Begin with `specs/Lowered.antt`.
#![tactic(auto)]

pub mod bodies;
pub mod cold_parts;
pub mod data_stack;
pub mod declarations;
pub mod funclets;
pub mod lower;
pub mod regions;
pub mod statements;
