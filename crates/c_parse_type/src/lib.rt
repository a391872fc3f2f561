//! Types of C from tokens.
//!
//! A type at the front of tokens is read as far as its specifiers and stars go (C11, 6.7.2 and
//! 6.7.6). What is read is such a type, and a type that nothing of a type follows is read.
//!
//! Proved: each reader's `found`, and that it refuses only where no type is. Begin with
//! `specifiers`.
#![tactic(auto)]

pub mod front;
pub mod specifiers;
