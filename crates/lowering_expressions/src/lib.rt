//! The linear code of expressions, and what is around a part of a program that is lowered.
//!
//! `expressions` lowers an expression: its code puts the value into the temporary of its depth.
//! `instructions` and `pieces` have the instructions of a node, before, between and after its
//! operands; `scope` says where `break`, `continue`, `__leave` and an exception's code lead.
//!
//! Proved: what is appended is the code of the definitions. Begin with `specs/Expressions.antt`.
#![tactic(auto)]

pub mod expressions;
pub mod instructions;
pub mod pieces;
pub mod scope;
