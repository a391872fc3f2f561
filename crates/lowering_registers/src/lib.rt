//! Which locals of a function may stand in registers: the first seven that none of its filters and
//! `__finally` blocks names, since these run in frames of their own, without those of variables on
//! the data stack.
//!
//! Proved: `registers::register_locals` is its definition in `specs/Shared.antt`, where to begin,
//! and these locals are the first such ones, in the order of their declarations (`register_laws`).
#![tactic(auto)]

pub mod expression_marks;
pub mod register_laws;
pub mod registers;
pub mod statement_marks;
