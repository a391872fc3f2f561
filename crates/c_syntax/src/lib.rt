//! Programs of C as trees, and what derives a tree from tokens.
//!
//! A tree is what the grammar makes of a list of tokens (C11, annex A.2, and the Microsoft C
//! reference, "try-except statement" and "try-finally statement"). Each node holds the places in
//! the text where its faults are reported. Parentheses are nodes: they mean nothing, but nesting
//! counts them. The grammar itself is in `specs/`: `Expressions`, `Statements` and `Programs`.
//!
//! Proved: a text is one program at most; its tokens have one first fault at most (`laws`). Begin
//! with `specs/Programs.antt`, and for faults with `specs/Viable.antt`.
#![tactic(auto)]

pub mod build;
pub mod declaration;
pub mod expression;
pub mod laws;
pub mod level;
pub mod limit;
pub mod operator;
pub mod statement;
