//! Operators and the smallest expressions of C from tokens.
//!
//! Operators are read from their punctuators, with the levels by which they bind; literals, names
//! and `GetExceptionInformation()->ExceptionRecord->..` are the expressions that hold no other
//! (C11, 6.5.1; Microsoft C reference, "try-except statement").
//!
//! Proved: each operator is read from its punctuator and from no other. Begin with `operators` and
//! `specs/Laws.antt`.
#![tactic(auto)]

pub mod information;
pub mod laws;
pub mod operands;
pub mod operators;
