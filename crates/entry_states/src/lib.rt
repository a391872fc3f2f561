//! The states in which the caller of an entry's frame is promised: that there are such states, and
//! those of an entry by hand.
//!
//! A run of the prologue leads to a state of the body, and so does each instruction of the body, in
//! the function's own part and in each fragment. Begin with `specs/Worked.antt`.
#![tactic(auto)]

pub mod laws;
