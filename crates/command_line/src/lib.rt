//! The words that the program is called with.
//!
//! [`reading::command_of`] reads them with `clap`: which words are a line of the command set is
//! defined by the commands and options that are given to it, and by what their values may be.
//!
//! Proved: the command is the one that the words mean, and they are refused only where they mean
//! none. Begin with `specs/Lines.antt`.
#![tactic(auto)]

pub mod command;
pub mod reading;
pub mod worked;
