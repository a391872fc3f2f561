//! Statements, declarations of locals and blocks of C from tokens.
//!
//! A statement at the front of tokens is read as far as it continues (C11, 6.8; Microsoft C
//! reference, "try-except statement" and "try-finally statement"): an `else` belongs to the nearest
//! `if`. What is read is such a statement within the limits of nesting and of counts. Of each
//! reader the clause `found` says that what is read is at the front, `taken` (for one statement a
//! part of `found`) that it is within the limits and what is left of the counts, and `refused` that
//! a refusal names the first token with which no phrase of the kind continues, and the limit that
//! excludes each.
//!
//! A statement is read by how it begins (`openings`), up to the first statement or block in it, and
//! by how it continues after that (`endings`). Only `statements` reads one within another.
#![tactic(auto)]

pub mod build;
pub mod endings;
pub mod filters;
pub mod locals;
pub mod openings;
pub mod parts;
pub mod remaining;
pub mod sizes;
pub mod statements;
