//! The view of an image's function table: a few lines of text for each entry, with its unwind
//! codes and its scope table (Microsoft x64 ABI, "Exception handling").
//!
//! [`view`] writes the lines to a sink as they come, and takes no memory. An entry that can't be
//! read is one line, which names its refusal; a directory that can't be read is one too. The last
//! line counts the entries.
//!
//! Proved: exactly the lines of `specs/View.antt`, where to begin.
#![tactic(auto)]

mod code;
mod refusal;
mod row;
mod writing;

pub use writing::view;
