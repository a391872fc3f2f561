//! The stacks of a dump's threads: a walk through modules (crate seh_views) from the registers of
//! a thread, over the ranges of the dump's memory (crate minidump).
//!
//! Proved: the walk is that of `seh_walk_modules` (`specs/Stacks.antt`). Over ranges that have the
//! dump's memory it is the same however they are sorted and cut, and what it reads at an address is
//! the byte of the first of the dump's ranges that covers it (`specs/Laws.antt`).
#![tactic(auto)]

mod laws;
mod registers;
mod stacks;

pub use laws::{stacks_are_walks, worked_ranges};
pub use registers::{location_of, registers_of};
pub use stacks::{range_of, walk_thread};
