//! Runs accepted programs as their meaning says, and writes what they show.
//!
//! `run` makes the machine's steps until a program has ended; `interpret` writes the lines of what
//! it shows and of its end, with the names of `function_names`.
//!
//! Proved: what is written is exactly the text of the program's meaning, or a part of it from the
//! front. Begin with `specs/Texts.antt`.
#![tactic(auto)]

pub mod function_names;
pub mod interpret;
pub mod run;
