//! What is known of a frame at an instruction, kept in a bounded room (Microsoft x64 ABI, "Unwind
//! procedure").
//!
//! Crate frame_known has the definitions, which any number of words may be known by. Here at most
//! sixteen are, and each function says no more than its definition. Begin with `specs/Views.antt`.
#![tactic(auto)]

pub mod address;
pub mod after;
pub mod knowledge;
pub mod less;
pub mod registers;
pub mod stores;
pub mod unwound;
pub mod words;
