//! Whole programs: the rules of names, types and jumps (C11, 6.7 to 6.9; Microsoft C reference,
//! "try-except statement" and "try-finally statement"), and the checked program that an accepted
//! one is.
//!
//! `check::check` is what others call. It checks a program in three parts: `declarations` has
//! the names of the file and the bytes of its globals, `entry` the function that a run begins with,
//! and `functions` each function with its parameters (`parameters`) and its body. Every function
//! and global is visible in the whole text, so the names of the file are all known before the first
//! body is walked.
//!
//! Proved: what `check` accepts breaks no rule, is sound, and is the checked program that `resolve`
//! (crate c_resolved) gives; a refusal is the least fault, or want of memory. Begin with `check`.
#![tactic(auto)]

pub mod check;
pub mod declarations;
pub mod entry;
pub mod functions;
pub mod parameters;
