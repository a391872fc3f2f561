//! Texts of C: read, and checked by the rules of the language.
//!
//! `accepting::accept` gives the program of a text, or why the text is none.
//!
//! Proved: what is accepted is the text's one program and its checked program; a refusal is the
//! first fault of tokens, the first fault of grammar, the least rule that is broken, or want of
//! memory. Begin with `specs/Texts.antt`.
#![tactic(auto)]

pub mod accepting;
pub mod laws;
