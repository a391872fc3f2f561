//! The program: its commands, over any source and sinks.
//!
//! Proved: `top::top` gives each answer by its cause (`specs/Commands.antt`,
//! `specs/Answers.antt`); `laws` has what compiling and running come to together, the headline
//! first. Begin with `specs/Headline.antt`, then `specs/Images.antt`, then `top`.
#![tactic(auto)]

pub mod check;
pub mod check_entries;
pub mod compile;
pub mod entry_lines;
pub mod exec;
pub mod image;
pub mod input;
pub mod laws;
pub mod meaning;
pub mod outcome;
pub mod refusal;
pub mod run;
pub mod selftest;
pub mod show;
pub mod status;
pub mod top;
pub mod verdict;
