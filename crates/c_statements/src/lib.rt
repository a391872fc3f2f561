//! Statements resolved (C11, 6.8; Microsoft C reference, "try-except statement", "try-finally
//! statement").
//!
//! `statements` walks the statements of a block, and is the one module that enters a statement
//! within another. `simple` has the statements that hold no other, and `build` puts checked
//! statements together. What is made equals the definition in `c_resolved`, and the least fault is
//! kept.
//!
//! Begin with `statements`.
#![tactic(auto)]

pub mod build;
pub mod simple;
pub mod statements;
