//! That a program's linear code calls `walk` exactly where the program names it.
#![tactic(auto)]

pub mod laws;
